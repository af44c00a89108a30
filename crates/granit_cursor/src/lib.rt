//! A cursor over an input, and what all calls that read lexemes share: tokens, comments, and moves over breaks.
#![tactic(auto)]

mod comment;
mod comments;
mod cursor;
mod layout;
mod lending;
mod moves;
mod plain;
mod token;

pub use comment::Comment;
pub use comments::{pass_comment, read_comment, scan_comment, skip_comment};
pub use cursor::{Cursor, take_quoted};
pub use layout::Layout;
pub use lending::{lending_offset, lent_since};
pub use moves::{drop_blanks, past_blanks, past_break};
pub use plain::take_plain;
pub use token::{Lexed, Token, TokenType};
