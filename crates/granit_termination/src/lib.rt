//! The loops of the plain machine come to an end by themselves.
#![tactic(auto)]

mod laws;

pub use laws::{every_closing_ends_a_node, every_read_takes_a_character};
