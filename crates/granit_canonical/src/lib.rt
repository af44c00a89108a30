//! Canonical flow text is read as the trees that it was written from: laws, each the contract of a function without a
//! body.
#![tactic(auto)]

mod examples;
mod readings;

pub use examples::canonical_examples;
pub use readings::canonical_text_is_read;
