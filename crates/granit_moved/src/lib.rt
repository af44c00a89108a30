//! The plain machine gives the same wherever a text stands: its parser, its runs and its calls.
#![tactic(auto)]

mod moving;
mod rows;

pub use moving::{
    a_text_is_read_alike_wherever_it_stands, calls_give_alike_wherever_a_text_stands,
    items_are_fed_alike_wherever_they_stand,
};
pub use rows::texts_behind_others;
