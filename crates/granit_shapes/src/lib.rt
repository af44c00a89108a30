//! What the machine gives has a shape: its faults, its tokens and its events.
#![tactic(auto)]

mod feeding;
mod pair_rows;
mod pairs;

pub use feeding::{faults_depend_on_no_line, lines_place_comments_alone};
pub use pair_rows::{events_in_pairs, texts_in_pairs};
pub use pairs::{answers_hold_pairs, mappings_hold_pairs, trees_tell_pairs};
