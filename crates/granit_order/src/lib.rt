//! The brackets and the keys of a text are in order.
#![tactic(auto)]

mod order;

pub use order::{
    brackets_and_keys_make_an_order, lists_in_order_are_fair, the_brackets_of_a_text_are_in_order,
    the_keys_of_a_text_are_in_order,
};
