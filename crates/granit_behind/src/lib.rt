//! The text behind a boundary is read as a text of its own.
#![tactic(auto)]

mod behind;

pub use behind::{
    a_text_is_told_alike_behind_handles_declared_anew,
    the_text_behind_a_boundary_is_read_as_its_own, the_text_behind_a_fault_is_read_as_its_own,
    what_is_told_behind_a_boundary_is_what_its_text_tells,
};
