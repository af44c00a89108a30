//! What was looked at in front of a parser, as far as recovery asks.
#![tactic(auto)]

mod seen;

pub use seen::{Seen, ends, ends_stream, seen_of, starts, tells};
