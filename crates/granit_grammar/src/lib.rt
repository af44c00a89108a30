//! The laws of trees over lexemes: each is the contract of a function without a body. A machine that builds trees and
//! one that gives events alone are run over lists of terminals, and what they answer is what the definitions say.
#![tactic(auto)]

mod readings;
mod scopes;
mod trees;

pub use readings::one_reading;
pub use scopes::the_scope_is_what_is_declared;
pub use trees::{no_stream_goes_on, parsing_gives_the_one_stream};
