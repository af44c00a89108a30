//! Comments of a whole text: what an answer tells of them, and what it is without them.
#![tactic(auto)]

mod comment_rows;
mod comments;

pub use comment_rows::comments_of_texts;
pub use comments::{answers_tell_the_comments, comments_off_leave_the_rest};
