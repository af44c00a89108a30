//! Worked texts of what stands before a place, by computation.
#![tactic(auto)]

mod examples;

pub use examples::{
    cuts_of_the_examples, keys_of_the_examples, keys_that_may_still_begin_of_the_examples,
    tabs_before_keys_of_the_examples, tabs_of_the_examples,
};
