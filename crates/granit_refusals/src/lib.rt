//! Where a turn of the parser was refused, and what stood before it, as far as recovery goes by it.
#![tactic(auto)]

mod refusal;

pub use refusal::{Before, Refusal, is_directives, is_mark, wants_memory};
