//! The value of a quoted scalar is the fold of its decoded lines.
#![tactic(auto)]

mod quoted_lines;

pub use quoted_lines::{folds_of_decoded_lines, quoted_scalars_fold, quoted_scalars_on_one_line};
