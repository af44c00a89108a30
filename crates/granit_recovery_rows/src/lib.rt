//! Worked recoveries, by computation.
#![tactic(auto)]

mod rows;

pub use rows::{
    boundaries_of_texts, dropped_texts, kept_texts, recovered_texts, skipped_texts, stopped_texts,
};
