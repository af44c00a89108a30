//! What calls and recoveries give, where recovery asks for another document, and what it drops.
#![tactic(auto)]

mod answers;
mod asking;
mod boundaries;
mod dropping;
mod streams;

pub use answers::{answers_are_exact, answers_behind_a_fault_are_exact};
pub use asking::{
    a_comment_takes_room_where_recovery_asks, a_look_tells_where_recovery_asks, calls_go_by_turns,
};
pub use boundaries::{
    the_boundary_behind_a_read_is_at_a_counted_place, the_boundary_is_at_a_counted_place,
};
pub use dropping::{
    a_fault_drops_its_document, nothing_changes_behind_the_end,
    nothing_is_dropped_between_documents, what_was_told_of_is_dropped,
};
pub use streams::{a_stream_goes_on_behind_recovery, an_open_call_gives_something};
