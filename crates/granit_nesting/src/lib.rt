//! The nodes that a parser hasn't finished, but for the properties of one: which they are, and what they let come (YAML
//! 1.2.2, chapters 7 and 8).
#![tactic(auto)]

mod frames;

pub use frames::{Frame, Frames, PairStage};
