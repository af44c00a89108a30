//! Runs of characters in front of a string: which characters make one, and how far it goes.
#![tactic(auto)]

mod class;
mod cuts;
mod lanes;
mod lines;
mod quotes;
mod whitespace;
mod words;

pub use class::{Class, Run, begins_word, goes_on, is_quoted, is_quoted_ascii};
pub use cuts::{before, behind, find_unprintable, has_byte, part, past_run, past_white};
pub use lines::{behind_lines, lines_front};
pub use quotes::quoted_front;
pub use whitespace::{SkipTabs, WhitespaceResult};
pub use words::{past_line, split_words, stops_words};
