//! The key of a colon is the run before it, and one run ends there.
#![tactic(auto)]

mod keys;

pub use keys::{
    one_run_ends_there, the_key_of_a_colon_is_the_run_before_it,
    what_is_held_is_said_of_the_lexemes,
};
