//! What the parts of escapes stand for, by YAML 1.2.2, 5.7.
use crate::agree::agree;
use granit_lexemes::{
    digit_count, is_high_surrogate, is_low_surrogate, join_surrogates, letter_value,
};

/// The character of two halves, where the first is one.
fn joined(high: u32, low: u32) -> Option<char> {
    if !is_high_surrogate(high) {
        return None;
    }
    join_surrogates(high, low)
}

#[test]
fn letters_stand_for_characters(rt: HostRuntime) {
    let values = [letter_value('N'), letter_value('\t'), letter_value('x')];
    let counts = [digit_count('u'), digit_count('X')];
    agree(
        &rt,
        (values, counts),
        ([Some('\u{85}'), Some('\t'), None], [Some(4), None]),
    );
}

#[test]
fn halves_stand_for_characters(rt: HostRuntime) {
    let low = [is_low_surrogate(0xDFFF), is_low_surrogate(0xDBFF)];
    let characters = [
        joined(0xD83D, 0xDE00),
        joined(0xD83D, 0xD83D),
        joined(0xDE00, 0xDE00),
    ];
    agree(
        &rt,
        (low, characters),
        ([true, false], [Some('\u{1F600}'), None, None]),
    );
}
