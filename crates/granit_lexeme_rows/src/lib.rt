//! Worked rows of the plain machine's reader, by computation: marks, directives, signs and properties.
#![tactic(auto)]

mod rows;

pub use rows::{
    documents, flow_signs, indicators, properties, refused_directives, small_reading,
    strict_reading,
};
