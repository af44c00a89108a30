//! The scanner's tokens, one for each call: lexemes, comments, and what is inserted between them (YAML 1.2.2, 5.3).
#![tactic(auto)]

mod convert;
pub mod laws;
mod pairs;
mod recovery;
mod scanner;
mod waiting;
mod writer;

pub use scanner::Scanner;
