//! Ids of anchors are counted and aren't given again, and a text with one start is one document.
#![tactic(auto)]

mod documents;
mod ids;

pub use documents::{
    a_text_with_one_start_is_one_document, at_most_one_start_is_one_document,
    events_stand_strictly, worked_documents,
};
pub use ids::{
    ids_are_below_the_offset, ids_are_counted, ids_begin_at_the_offset, ids_go_on_behind_a_fault,
    the_offset_never_falls,
};
