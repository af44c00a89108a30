//! One item after another: the events that each gives, and the unfinished nodes that it leaves (YAML 1.2.2, chapters 6
//! to 9).
#![tactic(auto)]

mod block;
mod feeding;
mod flow;
mod stream;

pub use feeding::feed;
pub use granit_frames::ParserState;
