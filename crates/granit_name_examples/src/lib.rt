//! Worked names, tags and directives, by computation.
#![tactic(auto)]

mod directive_examples;
mod examples;

pub use directive_examples::{
    directives_of_the_examples, lines_of_the_examples, refused_directives_of_the_examples,
};
pub use examples::{names_of_the_examples, refused_tags_of_the_examples, tags_of_the_examples};
