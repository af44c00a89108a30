//! Laws of names and tags: each text spells one, or has one cause.
#![tactic(auto)]

mod names;
mod tags;

pub use names::{
    every_name_answer_stands, every_name_cause_is_refused, every_name_is_answered,
    every_name_refusal_has_its_cause, one_name, one_name_cause,
};
pub use tags::{
    every_tag_answer_stands, every_tag_cause_is_refused, every_tag_is_answered,
    every_tag_refusal_has_its_cause, one_tag, one_tag_cause,
};
