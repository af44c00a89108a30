//! Characters, places and texts: what every other crate of granit speaks of.
#![tactic(auto)]

mod chars;
mod classes;
mod owned;
mod place;
mod style;
mod text;

pub use chars::{is_at_end, nth_char, push_char, push_text, split_first_char};
pub use classes::{
    as_hex, find_non_printable, is_alpha, is_anchor_char, is_blank, is_blank_or_breakz, is_bom,
    is_break, is_breakz, is_digit, is_flow, is_hex, is_printable, is_tag_char, is_uri_char,
    is_word_char, is_yaml_non_break, is_yaml_non_space, is_z,
};
pub use owned::OwnedText;
pub use place::{Marker, Span};
pub use style::{Placement, ScalarStyle, StructureStyle};
pub use text::{NoMemory, Text, TextList};
