//! The words of the program: the options that they say, or the numbers of `selftest`.
#![tactic(auto)]

mod asking;
mod words;

pub use asking::{begin_selftest, read_asked};
pub use words::read_words;
