//! What a text of YAML 1.2 says, as events, and the tags of its nodes.
#![tactic(auto)]

mod compare;
mod event;
mod laws;
mod names;
mod tag;

pub use event::{Event, YamlVersion};
pub use laws::{core_suffixes_are_named, parts_of_a_name_are_one};
pub use tag::Tag;
