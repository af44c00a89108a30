//! Where calls and recoveries lead, and what stays of the handles that were declared.
#![tactic(auto)]

mod led;

pub use led::{
    calls_and_recoveries_lead_on, handles_that_stay_were_declared,
    recovery_goes_on_behind_the_fault,
};
