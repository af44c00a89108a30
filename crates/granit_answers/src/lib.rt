//! The answers of the whole language: the lexemes that are read of a text are in order, so what is parsed of them is
//! the text's one reading.
#![tactic(auto)]

mod answers;
mod comments;
mod limits;

pub use answers::{
    a_text_has_one_cause, every_answer_is_the_reading_of_its_text, every_cause_is_answered,
    every_fault_has_its_cause, every_text_has_a_reading_or_a_cause,
};
pub use comments::every_comment_of_a_text_stands_in_its_place;
pub use limits::{
    a_comment_cuts_short_the_scalar_before_it, brackets_nest_within_the_limit,
    byte_order_marks_may_stand_before_documents, lexemes_in_flow_keep_to_lines_and_columns,
};
