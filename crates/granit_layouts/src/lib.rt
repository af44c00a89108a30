//! Where tabs, gaps of quoted scalars and cut scalars stand, as it is declared.
#![tactic(auto)]

mod cuts;
mod gaps;
mod tabs;
mod touching;

pub use cuts::comments_cut_short_as_the_text_says;
pub use gaps::gaps_behind_quoted_scalars_are_refused_as_lexemes_say;
pub use tabs::{
    tabs_are_refused_as_lexemes_say, tabs_behind_a_question_stand_right_of_it,
    the_layout_of_a_scalar_is_said_of_the_lexemes, what_is_held_of_tabs_is_said_of_the_lexemes,
};
pub use touching::values_stand_at_once_behind_closers_and_quotes;
