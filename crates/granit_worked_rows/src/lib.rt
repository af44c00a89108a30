//! Worked rows of the plain machine, by computation: longer texts, limits and options.
#![tactic(auto)]

mod examples;

pub use examples::{worked_events, worked_faults, worked_limits, worked_options, worked_tags};
