//! What a lexeme is to the parser's unfinished nodes.
#![tactic(auto)]

mod sort;

pub use sort::{
    Token, TokenSort, ends_frame, is_in_column, is_key_in_block, is_right_of, token_column,
    token_sort,
};
