//! A text for each kind of fault with its cause and its mark, and texts a character away that have no such cause.
#![tactic(auto)]

mod causes;
mod near;

pub use causes::{
    causes_of_brackets_and_directives, causes_of_lexemes, causes_of_places_and_quotes,
};
pub use near::{
    no_cause_where_a_lexeme_is_mended, no_cause_where_a_text_is_answered,
    no_such_cause_where_another_is,
};
