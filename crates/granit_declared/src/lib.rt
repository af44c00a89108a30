//! Which keys begin where, and the reading and the cause of a text as they are declared.
#![tactic(auto)]

mod keys;
mod reading;

pub use keys::{
    fields_of_lexemes_are_said_of_those_before, held_brackets_are_the_open_ones,
    held_keys_are_said_of_the_lexemes, keys_may_still_begin_as_lexemes_say,
    lexemes_are_flagged_where_keys_begin, lexemes_are_numbered,
};
pub use reading::{the_cause_of_a_refusal_is_declared, the_reading_of_an_answer_is_declared};
