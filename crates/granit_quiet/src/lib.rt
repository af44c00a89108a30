//! Comments change nothing else: the plain machine with and without them.
#![tactic(auto)]

mod comments;

pub use comments::{
    a_comment_changes_nothing_else, comments_are_told_in_order, comments_change_nothing_else,
    items_are_fed_alike_without_comments, no_comment_is_told_unasked, reading_asks_for_no_comments,
    the_comments_of_a_text_are_told,
};
