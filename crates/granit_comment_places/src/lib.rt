//! Where the comments of a text stand among its events, and how each is placed.
#![tactic(auto)]

mod places;

pub use places::{
    each_comment_is_placed_as_declared, each_comment_stands_behind_what_is_before_it,
};
