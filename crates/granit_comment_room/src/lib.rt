//! Items are refused for a comment only where more stand in a row than may be held.
#![tactic(auto)]

mod room;

pub use room::{a_comment_too_many_stands_in_a_row, the_first_comment_too_many_is_refused};
