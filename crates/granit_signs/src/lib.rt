//! Indicators: `-`, `?` and `:`, each as a lexeme with its tail (YAML 1.2.2, 7.4 and 8.2).
#![tactic(auto)]

mod indicators;
mod values;

pub use indicators::{dash, question};
pub use values::colon;
