//! Recovery at a document boundary as a plain function on the machine of steps, and what it is made of: the boundary
//! that it looks for is the next one, and documents are dropped turn by turn.
#![tactic(auto)]

mod boundaries;
mod kept;
mod turns;

pub use boundaries::{
    no_other_boundary_is_next, the_next_boundary_is_found, the_same_boundary_is_next_further_on,
};
pub use kept::what_may_go_holds_the_boundary;
pub use turns::{
    failing_goes_turn_by_turn, skipping_ends_where_an_end_waits, skipping_goes_turn_by_turn,
};
