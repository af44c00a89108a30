//! The starts and ends among a scanner's tokens balance.
#![tactic(auto)]

mod balance;
mod shape_rows;
mod token_rows;

pub use balance::{
    blocks_end_as_often_as_they_start, each_end_has_its_start, every_text_has_tokens,
    inserted_keys_have_values, tokens_of_texts_balance,
};
pub use shape_rows::tokens_that_balance_or_not;
pub use token_rows::{blocks_of_texts, tokens_of_nested_texts};
