//! What takes the events of a parser: receivers with and without places, which may refuse an event or not.
#![tactic(auto)]

mod error;
mod receiver;
mod refusals;
mod sending;

pub use error::{ParseResult, TryLoadError};
pub use receiver::{
    EventReceiver, SpannedEventReceiver, TryEventReceiver, TrySpannedEventReceiver,
};
pub use refusals::kept;
pub use sending::is_last;
