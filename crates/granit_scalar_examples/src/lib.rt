//! Worked plain and quoted scalars, by computation.
#![tactic(auto)]

mod examples;
mod quoted_examples;

pub use examples::{
    comments_of_the_examples, ends_of_the_examples, examples_of_the_specification,
    folds_of_quoted_lines, folds_of_the_examples, places_behind_the_examples,
    refusals_of_the_examples, stops_of_the_examples, tabs_of_the_examples,
};
pub use quoted_examples::{
    ends_of_quoted_examples, escapes_of_quoted_examples, places_behind_quoted_examples,
    places_of_quoted_examples, quoted_examples_of_the_specification, values_of_quoted_examples,
    wrong_escapes_of_quoted_examples,
};
