//! Laws: the tokens that a scanner writes are those of the text.
#![tactic(auto)]

mod tokens;

pub use tokens::written_tokens_are_the_texts;
