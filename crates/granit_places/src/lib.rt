//! Each lexeme that is read stands at counted places, and the columns that the reader keeps are those that are
//! open.
#![tactic(auto)]

mod columns;
mod fitting;
mod places;

pub use columns::kept_columns_are_open;
pub use fitting::flagged_lexemes_fit;
pub use places::every_place_of_a_lexeme_is_counted;
