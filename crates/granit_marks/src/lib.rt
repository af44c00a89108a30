//! Brackets, `,`, document marks, directives, and the end of a text, each as a lexeme with its tail (YAML 1.2.2, 6.8,
//! 7.4 and 9.1).
#![tactic(auto)]

mod flow;
mod stream;

pub use flow::{closer, comma, opener};
pub use stream::{directive, document_end, document_start, text_end};
