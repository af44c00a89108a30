//! Each text is read or refused, in one way; each refusal of the plain machine's reader has its cause, and each
//! cause is refused.
#![tactic(auto)]

mod causes;
mod examples;
mod once;
mod reading;
mod tests;

pub use causes::{
    every_cause_of_the_reader_is_refused, every_refusal_of_the_reader_has_its_cause,
    no_fault_names_a_source, one_cause_of_the_reader,
};
pub use examples::{
    causes_of_the_examples, entries_of_the_examples, lines_of_the_examples, signs_of_the_examples,
};
pub use once::{every_item_that_stands_is_read, one_reading_of_lexemes};
pub use reading::{
    all_items_are_read, every_reading_goes_to_an_end, every_text_is_read, what_is_read_stands,
};
pub use tests::{
    tests_of_entries_decide, tests_of_gaps_decide, the_layout_of_a_scalar_is_declared,
};
