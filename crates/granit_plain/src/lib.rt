//! Plain scalars, on any number of lines, are read from an input by a cursor.
#![tactic(auto)]

mod line;
mod plain;

pub use plain::{PlainScalar, read_plain, scan_plain_scalar};
