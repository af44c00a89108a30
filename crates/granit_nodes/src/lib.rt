//! A lexeme where a node must stand: the events that it gives, and the unfinished nodes that it begins (YAML 1.2.2,
//! 6.9, 7.1 and 8.2).
#![tactic(auto)]

mod nodes;

pub use nodes::{bare, next_dash, node};
