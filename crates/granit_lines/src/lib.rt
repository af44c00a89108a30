//! The lines of events, at the end of a buffer.
#![tactic(auto)]

mod numbers;
mod page;
mod places;
mod printing;
mod quoted;
mod quoting;
mod room;
mod usual;

pub use page::Page;
pub use printing::push_line;
