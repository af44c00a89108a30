//! The properties of a node, and how its first event bears them (YAML 1.2.2, 6.9).
#![tactic(auto)]

mod bearing;
mod properties;

pub use bearing::{anchor_number, bear, null_event, null_of, span_with_tag, tag_value};
pub use properties::{NodeAnchor, NodeProperties, NodeTag};
