//! Inputs over iterators of characters, which read at most sixteen characters ahead.
#![tactic(auto)]

mod buffered;
mod fallible;
mod feed;
mod held;
mod laws;
mod plain;
mod source;
mod sure;

pub use buffered::{BufferedInput, FallibleBufferedInput, ReadAhead};
pub use fallible::FallibleFeed;
pub use feed::Feed;
pub use laws::{a_list_gives_its_items, a_string_gives_its_characters, an_error_is_the_end};
pub use plain::PlainFeed;
pub use source::Source;
