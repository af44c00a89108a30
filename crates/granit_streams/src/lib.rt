//! What the steps of the plain machine tell begins a balanced stream.
#![tactic(auto)]

mod step_rows;
mod streams;
mod token_rows;

pub use step_rows::{events_of_no_stream, unread_texts};
pub use streams::{a_run_is_a_stream, what_is_told_begins_a_stream};
pub use token_rows::tokens_of_texts;
