//! Laws: recovery, called again and again, comes to an end.
#![tactic(auto)]

mod chains;
mod rows;

pub use chains::{
    each_recovery_leaves_less, every_turn_leaves_strictly_less, no_call_leaves_more,
    no_more_recoveries_tell_than_are_left, recovery_comes_to_an_end, stops_fit_behind_a_look,
};
pub use rows::recoveries_of_texts;
