//! What is told of a parser's calls, which tests of parsers share: the calls one after another, and items of a source
//! that may fail.
#![tactic(auto)]

mod calls;
mod items;
mod tells;

pub use calls::{Call, Letters, NOTHING, Numbered, Row, Rows, letter, numbered};
pub use items::{Items, characters, characters_and_error};
pub use tells::{Tells, told_of, told_of_text};
