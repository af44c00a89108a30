//! What the lexemes that a reader has read leave open: possible keys, brackets and columns.
#![tactic(auto)]

mod brackets;
mod columns;
mod keys;
mod last;
mod layouts;
mod rising;

pub use last::{is_adjacent, is_dash, is_indicator, is_opener, is_question};
pub use layouts::Layouts;
