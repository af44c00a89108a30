//! Quoted scalars, on any number of lines, are read from an input by a cursor.
#![tactic(auto)]

mod begun;
mod escape;
mod quoted;

pub use begun::{QuotedBegun, begin_quoted, finish_quoted};
pub use quoted::{QuotedScalar, Remark, quoted_style, read_quoted, scan_quoted_scalar};
