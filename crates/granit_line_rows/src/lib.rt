//! Worked rows of the plain machine, by computation: the lines that events are told in.
#![tactic(auto)]

mod lines;

pub use lines::{cuts_told, kept_keys, limits_told, nodes_told, strict_told, tabs_told};
