//! Worked block scalars, by computation.
#![tactic(auto)]

mod examples;

pub use examples::{
    block_examples_of_the_specification, columns_of_block_scalars, endings_of_block_scalars,
    folds_of_block_scalars, headers_of_block_scalars, refusals_of_block_scalars,
};
