//! A parser of YAML 1.2 that gives the events of a text one by one, or sends them to a receiver.
#![tactic(auto)]

mod anchors;
mod fallible;
mod gathering;
mod parser;
mod receive;
mod recovery;
mod stacked;
mod streams;
mod tags;

pub use granit_receivers::{
    EventReceiver, ParseResult, SpannedEventReceiver, TryEventReceiver, TryLoadError,
    TrySpannedEventReceiver,
};
pub use parser::Parser;
