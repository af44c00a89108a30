//! Laws of plain scalars, and of what they share with quoted ones: each text spells one, or has one cause.
#![tactic(auto)]

mod plain;

pub use plain::{
    every_plain_answer_stands, every_plain_cause_is_refused, every_plain_refusal_has_its_cause,
    every_plain_scalar_is_answered, one_plain_scalar,
};
