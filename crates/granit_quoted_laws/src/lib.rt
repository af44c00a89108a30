//! Laws of quoted scalars: each text spells one, or has one cause.
#![tactic(auto)]

mod quoted;

pub use quoted::{
    every_quoted_answer_stands, every_quoted_cause_is_refused, every_quoted_refusal_has_its_cause,
    every_quoted_scalar_is_answered, one_quoted_cause, one_quoted_scalar,
    simple_quoted_scalars_fold,
};
