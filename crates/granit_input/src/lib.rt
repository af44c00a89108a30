//! What a scanner asks of its input, and the characters of a string.
#![tactic(auto)]

mod borrowed;
mod input;
mod str_input;

pub use borrowed::BorrowedInput;
pub use granit_runs::{Class, Run, SkipTabs, WhitespaceResult, find_unprintable};
pub use input::Input;
pub use str_input::StrInput;
