//! Laws of the plain machine alone: open columns and possible keys rise, and events stand in the text.
#![tactic(auto)]

mod columns;
mod keys;
mod spans;

pub use columns::open_columns_rise;
pub use keys::possible_keys_rise;
pub use spans::every_event_stands_in_the_text;
