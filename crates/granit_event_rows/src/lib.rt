//! Worked rows of the plain machine, by computation: the events of small texts, and the flags of their lexemes.
#![tactic(auto)]

mod events;
mod flags;

pub use events::{
    block_collections, chosen_events, comments, flow_collections, order_of_faults,
    properties_of_nodes, small_limits_told, streams, strict_events,
};
pub use flags::{bytes_of_lexemes, flags_of_lexemes};
