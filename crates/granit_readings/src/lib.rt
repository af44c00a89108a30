//! A text has one reading at most: as trees and as events, by its lexemes alone.
#![tactic(auto)]

mod fitting;
mod once;

pub use fitting::the_lexemes_of_a_text_fit;
pub use once::{a_text_is_read_as_one_list_of_trees, a_text_tells_one_list_of_events};
