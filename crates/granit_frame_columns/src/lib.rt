//! The open columns of a text are those of its frames.
#![tactic(auto)]

mod columns;

pub use columns::{open_columns_are_frames, texts_have_their_columns_as_frames};
