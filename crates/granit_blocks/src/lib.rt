//! The laws of block scalars: each is the contract of a function without a body.
#![tactic(auto)]

mod laws;

pub use laws::{
    every_block_answer_stands, every_block_cause_is_refused, every_block_refusal_has_its_cause,
    every_block_scalar_is_answered, every_block_scalar_spans_its_source, one_block_scalar,
};
