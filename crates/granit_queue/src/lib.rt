//! Items that were read and not yet taken, and which of them begin simple keys (YAML 1.2.2, 7.4.2 and 8.2.2).
#![tactic(auto)]

mod ahead;
mod items;
mod queue;
mod rising;

pub use ahead::{asks_next, line_of};
pub use queue::{Queue, Queued};
