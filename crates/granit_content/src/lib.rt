//! What a reader reads: tails, gaps, and lexemes with content (YAML 1.2.2, chapters 6 to 8).
#![tactic(auto)]

mod gaps;
mod kinds;
mod lexeme;
mod nodes;
mod scalars;
mod tail;

pub use gaps::{gap, leading_tab, over_break_if, past_gap};
pub use lexeme::{Start, put_tail, sign, start_of, tailed, write_lexeme};
pub use nodes::{alias_lexeme, anchor_lexeme, tag_lexeme};
pub use scalars::{block_lexeme, kept_note, plain_lexeme, quoted_and_gap, scalar_lexeme};
pub use tail::{Tail, comment_at, tail_at};
