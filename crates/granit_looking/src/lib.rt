//! A look ahead tells whether another document follows, and changes no event.
#![tactic(auto)]

mod looking;

pub use looking::{
    a_comment_that_waits_takes_room, a_look_changes_no_event,
    a_look_tells_whether_a_document_follows, looking_goes_turn_by_turn,
    no_document_comes_behind_a_look, skipping_ends_alike_ahead,
};
