//! The reader: one lexeme after another, each with its tail, and comments (YAML 1.2.2, chapters 6 to 9).
#![tactic(auto)]

mod met;
mod read;
mod sort;
mod turn;

pub use granit_items::{Found, KeyStart, Lexeme, LexemeKind, Note};
pub use met::Met;
pub use turn::next_found;
