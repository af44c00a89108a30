//! What follows for texts that are included, and that what these laws ask for is met.
#![tactic(auto)]

mod examples;
mod laws;

pub use examples::{
    a_new_parser_is_unread, a_small_text_comes_through, a_small_text_is_included,
    a_small_text_is_read, a_stack_includes_a_small_text,
};
pub use laws::{
    a_text_with_one_start_has_one_document, an_include_comes_through, includes_are_new,
};
