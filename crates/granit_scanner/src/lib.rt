//! The scanner: items in order, each as soon as nothing behind it can change what it is (YAML 1.2.2, 7.4.2 and 8.2.2).
#![tactic(auto)]

mod last;
mod restart;
mod scanner;

pub use scanner::{Front, ItemScanner};
