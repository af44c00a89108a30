//! What all layers speak of: places, where a reader stands, outcomes, lexemes and events as plain data, and of each
//! kind of lexeme its spelling, its value, its refusals and the plain function that reads it; beside these, what the
//! parts of an escape stand for, and what a reader keeps of the lexemes before a place.
#![tactic(auto)]

mod decoding;
mod layout;

pub use decoding::{
    digit_count, is_high_surrogate, is_low_surrogate, join_surrogates, letter_value,
};
pub use layout::{Bracket, LastLexeme, OpenBracket, OpenColumn, PossibleKey};
