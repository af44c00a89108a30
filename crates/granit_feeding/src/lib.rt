//! Each step of the plain machine's parser leaves room for what may wait, and gives the same where no byte offset
//! is told.
#![tactic(auto)]

mod feeding;

pub use feeding::items_are_fed_alike_without_offsets;
