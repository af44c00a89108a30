//! Parsers on a stack, so that one text may include others.
#![tactic(auto)]

mod include;
mod pushes;
mod stack;

pub use granit_replay::{
    FnResolver, Included, NoChars, NoResolver, RefusedParser, ReplayParser, Resolver,
};
pub use stack::{IncludeStack, ParserStack, StrStack};
