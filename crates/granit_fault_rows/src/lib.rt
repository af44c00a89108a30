//! Worked rows of the plain machine, by computation: a text for each kind of fault.
#![tactic(auto)]

mod kinds;

pub use kinds::{
    faults_of_brackets_and_directives, faults_of_lexemes, faults_of_places_and_quotes,
};
