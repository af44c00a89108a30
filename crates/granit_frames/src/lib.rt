//! The parser's unfinished nodes: what stands between lexemes, and how events are given, nodes begin and nodes end
//! (YAML 1.2.2, chapters 6 to 9).
#![tactic(auto)]

mod closing;
mod comments;
mod dropping;
mod ends;
mod giving;
mod names;
mod offset;
mod properties;
mod refused;
mod state;

pub use granit_nesting::{Frame, Frames, PairStage};
pub use granit_node_properties::{NodeAnchor, NodeProperties, NodeTag, null_event};
pub use granit_sorts::{Token, TokenSort, token_sort};
pub use names::length_of;
pub use refused::misplaced;
pub use state::{DocumentStage, ParserState, Top};
