//! Canonical block text is read as the trees that it was written from: laws, each the contract of a function without a
//! body.
#![tactic(auto)]

mod examples;
mod readings;

pub use examples::block_examples;
pub use readings::block_text_is_read;
