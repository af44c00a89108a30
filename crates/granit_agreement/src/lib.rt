//! The parser of the plain machine and the machine of the grammar agree, on lexemes without comments: what a lexeme
//! ends, each step, and whole runs. So what the parser answers is a reading of the lexemes or has its cause.
#![tactic(auto)]

mod fair;
mod runs;
mod steps;

pub use fair::texts_are_fair;
pub use runs::{
    a_node_waits_behind_an_indicator, every_run_agrees, what_is_given_is_before_the_open_place,
    what_is_parsed_is_a_reading,
};
pub use steps::{every_step_agrees, what_a_lexeme_ends};
