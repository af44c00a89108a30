//! Each list of lexemes has one reading with its events or one cause.
#![tactic(auto)]

mod events;
mod whole;

pub use events::{every_answer_is_a_stream, every_refusal_has_its_cause};
pub use whole::{
    every_answer_is_a_reading, every_cause_is_answered, every_fault_has_its_cause,
    every_reading_is_answered,
};
