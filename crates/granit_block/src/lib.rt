//! Block scalars are read (YAML 1.2.2, 8.1).
#![tactic(auto)]

mod content;
mod header;
mod lines;
mod scalar;
mod spaces;

pub use scalar::scan_block_scalar;
