//! An input of one's own, which tests share: the characters of an iterator, as a stream has them, proved to keep the
//! laws of an input. Where it has another input to lend from, it tells where it stands, and may refuse slices.
#![tactic(auto)]

mod stream;

pub use stream::{Stream, Tail};
