//! Parsers that lie on one another, and which of their events come through.
#![tactic(auto)]

mod kinds;
mod laws;
mod layer;
mod layers;
mod load;
mod pushes;
mod replayed;
mod turn;

pub use kinds::AnyKind;
pub use laws::{a_replay_comes_through, calls_are_turns, one_document_comes_through};
pub use layer::{FromReplay, Layer, StackedParser};
pub use layers::Layers;
