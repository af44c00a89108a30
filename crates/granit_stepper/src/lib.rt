//! The parser a step at a time: an input that is read into events, one for each call (YAML 1.2.2, 3.1.2).
#![tactic(auto)]

mod gathering;
mod offset;
mod recovery;
mod stepper;

pub use stepper::Stepper;
