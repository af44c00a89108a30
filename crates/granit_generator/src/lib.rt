//! Trees from numbers, and the canonical block text of trees.
#![tactic(auto)]

mod block;
mod counting;
mod drawing;
mod examples;
mod generator;

pub use block::block_text;
pub use counting::node_count;
pub use examples::generator_examples;
pub use generator::trees_from;
