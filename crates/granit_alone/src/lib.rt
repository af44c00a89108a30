//! Behind a recovery calls give what the text that is left tells, alone or behind one that declares handles anew.
#![tactic(auto)]

mod behind;
mod lines;
mod rest;

pub use behind::{
    calls_give_what_their_text_tells, calls_that_were_reached_are_led,
    the_text_behind_a_parsers_recovery_is_read_as_its_own,
    the_text_behind_recovery_is_read_as_its_own,
};
pub use lines::{lines_count_from_one, refused_reads_stop_where_lines_count};
pub use rest::{calls_give_the_rest_of_their_text, the_rest_of_a_text_is_told};
