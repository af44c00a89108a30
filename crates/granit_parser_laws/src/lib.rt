//! Laws: recovery by a parser's calls, called again and again, comes to an end.
#![tactic(auto)]

mod again;
mod examples;

pub use again::{
    calls_of_recovery_come_to_an_end, each_call_that_tells_leaves_less,
    no_more_calls_tell_than_are_left, numbers_are_met_where_one_was_set, stops_of_calls_fit,
};
pub use examples::{next_document_told, next_event_told, steps_and_looks_tell_of_calls};
