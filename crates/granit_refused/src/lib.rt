//! Refusals that are handed on without their faults, which stand where a caller keeps them.
#![tactic(auto)]

mod fault;

pub use fault::{Refused, error_of, keep_fault, refuse, refuse_at, take_fault};
