//! Anchors, aliases and tags are read from a cursor; directives are read with the parts of this that are public too.
#![tactic(auto)]

mod name;
mod tag;
mod uri;
mod word;

pub use name::scan_anchor;
pub use tag::{bang, empty_text, scan_tag};
pub use uri::{Uri, UriParts, read_uri, spend};
pub use word::{Word, take_word};
