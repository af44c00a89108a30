//! The events of an input, or the error of its source in their place.
#![tactic(auto)]

mod gathering;
mod opening;
mod reading;

pub use gathering::{gather_all, gather_batch};
pub use opening::{open_fallible, open_iter, open_str};
pub use reading::{read_event, step_event};
