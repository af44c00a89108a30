//! Items: lexemes with their tails, and comments, as a reader gives them and a parser takes them.
#![tactic(auto)]

mod item;
mod rooms;

pub use item::{Found, Item, KeyStart, Lexeme, LexemeKind, Note, clone_tail, is_directive};
pub use rooms::Rooms;
