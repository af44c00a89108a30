//! What is dropped is passed up to the next place at which reading may go on: a `---` or a `...` in column 0, or the
//! end (YAML 1.2.2, 9.1).
#![tactic(auto)]

mod boundary;
mod line;

pub use boundary::{Boundary, pass_to_boundary};
