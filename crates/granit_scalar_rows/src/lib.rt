//! Worked rows of the plain machine's reader, by computation: scalars.
#![tactic(auto)]

mod rows;

pub use rows::{block_scalars, plain_scalars, quoted_scalars};
