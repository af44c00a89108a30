//! The plain machine gives the same where no byte offset is told, or nothing is lent.
#![tactic(auto)]

mod lending;
mod offsets;

pub use lending::{
    borrowed_texts_of_the_examples, lending_changes_nothing_else, no_text_is_borrowed_unlent,
};
pub use offsets::offsets_change_nothing_else;
