//! Laws of directives: each line spells one, or has a first cause.
#![tactic(auto)]

mod directives;

pub use directives::{
    every_directive_answer_stands, every_directive_cause_is_refused, every_directive_is_answered,
    every_directive_refusal_has_its_cause, every_directive_refusal_has_its_first_cause,
    one_directive, one_directive_cause,
};
