//! Directives are read from a cursor.
#![tactic(auto)]

mod directive;
mod reserved;
mod tag_directive;
mod tail;
mod version;
mod words;

pub use directive::scan_directive;
