//! Recovery at a document boundary: what calls and recoveries leave, and that a refusal is answered again.
#![tactic(auto)]

mod refusals;

pub use refusals::{a_refusal_is_answered_again, no_event_follows_a_refusal};
