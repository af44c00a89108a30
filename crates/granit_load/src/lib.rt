//! All events of a YAML 1.2 text, of characters that come one by one, or of such as may fail.
#![tactic(auto)]

mod fallible;
mod lines;
mod load;
mod streams;

pub use fallible::load_fallible;
pub use lines::load_lines;
pub use load::{Events, gather, load_str};
pub use streams::load_chars;
