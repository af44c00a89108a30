//! Events that are given once more, and who finds what an include names.
#![tactic(auto)]

mod load;
mod parts;
mod replay;
mod resolver;

pub use parts::{NoChars, RefusedParser, no_chars_give_nothing};
pub use replay::ReplayParser;
pub use resolver::{FnResolver, Included, NoResolver, Resolver};
