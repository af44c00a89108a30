//! Characters, places and texts.
use crate::agree::agree;
use granit_base::{
    Marker, NoMemory, OwnedText, Placement, Span, Text, TextList, as_hex, find_non_printable,
    is_alpha, is_anchor_char, is_at_end, is_blank, is_blank_or_breakz, is_bom, is_break, is_breakz,
    is_digit, is_flow, is_hex, is_printable, is_tag_char, is_uri_char, is_word_char,
    is_yaml_non_break, is_yaml_non_space, is_z, nth_char, push_char, push_text, split_first_char,
};
use std::alloc::Global;
use std::cmp::Ordering;
use std::hash::{DefaultHasher, Hash, Hasher};

/// The letters of the classes, in the order of their table.
const LETTERS: &str = "zbBsSdhawfmpnNAut";

/// Whether a character is in each of them.
fn classes_of(c: char) -> [bool; 17] {
    [
        is_z(c),
        is_break(c),
        is_breakz(c),
        is_blank(c),
        is_blank_or_breakz(c),
        is_digit(c),
        is_hex(c),
        is_alpha(c),
        is_word_char(c),
        is_flow(c),
        is_bom(c),
        is_printable(c),
        is_yaml_non_break(c),
        is_yaml_non_space(c),
        is_anchor_char(c),
        is_uri_char(c),
        is_tag_char(c),
    ]
}

/// Whether these are the letters of a character's classes, in order.
fn are_classes_of(c: char, want: &str) -> bool {
    let classes = classes_of(c);
    let mut left = want.chars();
    for (is_in, letter) in classes.iter().zip(LETTERS.chars()) {
        if *is_in && left.next() != Some(letter) {
            return false;
        }
    }
    left.next().is_none()
}

/// Each character with the letters of its classes, in order.
const CLASS_ROWS: &[(char, &str)] = &[
    ('\0', "zBS"),
    ('\n', "bBSp"),
    ('\r', "bBSp"),
    ('\t', "sSpn"),
    (' ', "sSpn"),
    ('\u{1f}', ""),
    ('0', "dhawpnNAut"),
    ('9', "dhawpnNAut"),
    ('/', "pnNAut"),
    (':', "pnNAut"),
    ('@', "pnNAut"),
    ('A', "hawpnNAut"),
    ('F', "hawpnNAut"),
    ('G', "awpnNAut"),
    ('Z', "awpnNAut"),
    ('f', "hawpnNAut"),
    ('g', "awpnNAut"),
    ('z', "awpnNAut"),
    ('-', "awpnNAut"),
    ('_', "apnNAut"),
    ('`', "pnNA"),
    ('^', "pnNA"),
    ('"', "pnNA"),
    ('%', "pnNAut"),
    ('!', "pnNAu"),
    (',', "fpnNu"),
    ('[', "fpnNu"),
    (']', "fpnNu"),
    ('{', "fpnN"),
    ('}', "fpnN"),
    ('~', "pnNAut"),
    ('\u{7f}', ""),
    ('\u{84}', ""),
    ('\u{85}', "pnNA"),
    ('\u{86}', ""),
    ('\u{9f}', ""),
    ('\u{a0}', "pnNA"),
    ('\u{d7ff}', "pnNA"),
    ('\u{e000}', "pnNA"),
    ('\u{feff}', "mp"),
    ('\u{fffd}', "pnNA"),
    ('\u{fffe}', ""),
    ('\u{ffff}', ""),
    ('\u{10000}', "pnNA"),
    ('\u{10ffff}', "pnNA"),
];

/// How many rows stand before the first one of other classes.
fn count_classes() -> usize {
    let mut count: usize = 0;
    for (c, want) in CLASS_ROWS {
        if !are_classes_of(*c, want) {
            return count;
        }
        count = count.saturating_add(1);
    }
    count
}

#[test]
fn classes_are_those_of_the_table(rt: HostRuntime) {
    agree(&rt, count_classes(), 45);
}

/// Eighty times `x`, and what follows, where there is room.
fn behind_eighty(alloc: Global, rest: &str) -> String {
    let mut text = String::new(alloc);
    for _ in 0..80 {
        let _ = push_char(&mut text, 'x').is_ok();
    }
    let _ = push_text(&mut text, rest).is_ok();
    text
}

/// How many bytes such a text has, and its first character that isn't printable.
fn found(alloc: Global, rest: &str) -> (usize, Option<char>) {
    let text = behind_eighty(alloc, rest);
    (text.len(), find_non_printable(text.as_str()))
}

#[test]
fn the_first_unprintable_character_is_found(rt: HostRuntime) {
    let alloc = rt.alloc();
    let told = [
        found(alloc, "\u{80}\u{7f}"),
        found(alloc, "é€"),
        found(alloc, "é€\u{80}\u{7f}"),
    ];
    let wanted = [(83, Some('\u{80}')), (85, None), (88, Some('\u{80}'))];
    agree(&rt, told, wanted);
}

/// Each hexadecimal digit at an edge, with its value.
const DIGITS: &[(char, u32)] = &[
    ('0', 0),
    ('9', 9),
    ('A', 10),
    ('F', 15),
    ('a', 10),
    ('f', 15),
];

/// How many rows stand before the first one of another value.
fn count_digits() -> usize {
    let mut count: usize = 0;
    for (c, want) in DIGITS {
        if !is_hex(*c) || as_hex(*c) != *want {
            return count;
        }
        count = count.saturating_add(1);
    }
    count
}

#[test]
fn digits_have_values(rt: HostRuntime) {
    agree(&rt, count_digits(), 6);
}

/// Whether texts are split and end where they should.
fn splits_and_ends() -> [bool; 4] {
    [
        split_first_char("éa") == Some(('é', "a")),
        split_first_char("").is_none(),
        is_at_end(""),
        !is_at_end("\0"),
    ]
}

#[test]
fn texts_have_characters(rt: HostRuntime) {
    agree(&rt, [nth_char("aé", 1), nth_char("aé", 2)], ['é', '\0']);
    agree(&rt, splits_and_ends(), [true; 4]);
}

/// A place in the first line.
fn start() -> Marker {
    Marker::new(1, 1, 1).with_byte_offset(Some(1))
}

/// The start of the second line.
fn end() -> Marker {
    Marker::new(4, 2, 0).with_byte_offset(Some(5))
}

/// The numbers of a place.
fn numbers(place: &Marker) -> [usize; 3] {
    [place.index(), place.line(), place.col()]
}

/// Whether places are equal that should be, and one isn't that shouldn't.
fn places_are_equal() -> [bool; 4] {
    [
        start() == Marker::new(1, 1, 1),
        start() != Marker::new(1, 1, 2),
        Marker::default() == Marker::new(0, 0, 0),
        Placement::default() == Placement::Free,
    ]
}

#[test]
fn markers(rt: HostRuntime) {
    agree(&rt, numbers(&end()), [4, 2, 0]);
    agree(&rt, places_are_equal(), [true; 4]);
}

/// A span with an indent.
fn indented() -> Span {
    Span::new(start(), end()).with_indent(Some(2))
}

/// Whether a span has its offset, indent and bytes.
fn told_of_span(span: &Span) -> [bool; 3] {
    [
        span.end.byte_offset() == Some(5),
        span.indent == Some(2),
        span.byte_range() == Some(1..5),
    ]
}

/// The length of a span, and whether it and an empty one are empty.
fn lengths() -> (usize, [bool; 2]) {
    let start = Marker::new(1, 1, 1);
    let span = Span::new(start, Marker::new(4, 2, 0));
    let empty = Span::empty(start);
    (span.len(), [span.is_empty(), empty.is_empty()])
}

/// Whether a span has no bytes whose start is not known.
fn has_no_bytes() -> bool {
    let unknown = Span::new(Marker::new(0, 1, 0), end());
    unknown.byte_range() == None
}

/// Whether a span cuts its part of a text that has one, between characters.
fn slices(span: &Span) -> [bool; 3] {
    [
        span.slice("aéb\nc") == Some("éb\n"),
        span.slice("éaé").is_none(),
        span.slice("aéb").is_none(),
    ]
}

#[test]
fn spans(rt: HostRuntime) {
    agree(&rt, told_of_span(&indented()), [true; 3]);
    agree(&rt, lengths(), (3, [false, true]));
    agree(&rt, has_no_bytes(), true);
    agree(&rt, slices(&indented()), [true; 3]);
}

/// Whether the tag's place, its span and the span's bytes are told, and are told of no other span.
fn told_of_tags() -> [bool; 6] {
    let tag = Marker::new(7, 2, 3).with_byte_offset(Some(9));
    let tagged = Span::default().with_tag_span(Some((tag, 5)));
    let found = tagged.tag_span().unwrap_or_default();
    let last = Marker::new(usize::MAX, 1, 0);
    [
        tagged.tag_start() == Some(tag),
        tagged.with_tag_span(None).tag_start() == None,
        found == Span::new(tag, Marker::new(12, 2, 8)),
        found.byte_range() == Some(9..14),
        tagged.with_tag_start(Some(tag)).tag_span() == None,
        Span::default().with_tag_span(Some((last, 1))).tag_span() == None,
    ]
}

#[test]
fn tags_have_spans(rt: HostRuntime) {
    agree(&rt, told_of_tags(), [true; 6]);
}

fn hash_of<T: Hash>(text: &T) -> u64 {
    let mut state = DefaultHasher::new();
    text.hash(&mut state);
    state.finish()
}

/// Whether the first text is lent, the second one isn't, they are equal, and their hashes are.
fn alike<'a>(lent: &Text<'a>, own: &Text<'a>) -> [bool; 4] {
    [
        lent.is_borrowed(),
        !own.is_borrowed(),
        lent == own,
        hash_of(lent) == hash_of(own),
    ]
}

/// Whether an own text is less than a later one and equal to the same one lent, and the later one greater than that.
fn order<'a>(lent: &Text<'a>, own: &Text<'a>) -> [bool; 3] {
    let later = Text::borrowed("b");
    [
        own.cmp(&later) == Ordering::Less,
        own.cmp(lent) == Ordering::Equal,
        later.partial_cmp(lent) == Some(Ordering::Greater),
    ]
}

/// A text of its own.
fn own_text(alloc: Global) -> Result<Text<'static>, NoMemory> {
    Ok(Text::owned(String::from_str(alloc, "aé")?))
}

/// Whether a text and the same one lent are alike, and ordered as they should be.
fn told_of_text(own: &Text<'static>) -> [bool; 2] {
    let lent = Text::borrowed("aé");
    [
        alike(&lent, own) == [true; 4],
        order(&lent, own) == [true; 3],
    ]
}

/// Whether a copy has these characters, and is lent where that is wanted.
fn is_copy(copy: &Text<'_>, is_lent: bool) -> bool {
    copy.is_borrowed() == is_lent && copy.as_str() == "aé"
}

/// The same of a clone; no for want of memory.
fn is_cloned(alloc: Global, text: &Text<'_>) -> bool {
    match &text.try_clone(alloc) {
        Ok(copy) => is_copy(copy, text.is_borrowed()),
        Err(_) => false,
    }
}

/// The same and whether a clone of one that is lent is.
fn told_and_cloned(alloc: Global, own: &Text<'static>) -> ([bool; 2], [bool; 2]) {
    let cloned = [
        is_cloned(alloc, own),
        is_cloned(alloc, &Text::borrowed("aé")),
    ];
    (told_of_text(own), cloned)
}

/// The same of a text of its own.
fn told_of_own(alloc: Global) -> ([bool; 2], [bool; 2]) {
    match &own_text(alloc) {
        Ok(own) => told_and_cloned(alloc, own),
        Err(_) => ([false; 2], [false; 2]),
    }
}

#[test]
fn texts_go_by_their_characters(rt: HostRuntime) {
    agree(&rt, told_of_own(rt.alloc()), ([true; 2], [true; 2]));
}

/// Whether a copy is equal to what it is of, and has these characters.
fn is_owned_copy(copy: &OwnedText, own: &OwnedText) -> bool {
    copy == own && copy.as_str() == "aé"
}

/// The same of a clone; no for want of memory.
fn is_owned_cloned(alloc: Global, own: &OwnedText) -> bool {
    match &own.try_clone(alloc) {
        Ok(copy) => is_owned_copy(copy, own),
        Err(_) => false,
    }
}

/// Whether a text is another one than `a`.
fn is_not_a(alloc: Global, own: &OwnedText) -> bool {
    match &OwnedText::from_str(alloc, "a") {
        Ok(a) => a != own,
        Err(_) => false,
    }
}

/// Whether it has the same hash as a text, which is lent.
fn is_as_a_text(own: &OwnedText) -> [bool; 2] {
    [
        hash_of(&own.as_text()) == hash_of(own),
        own.as_text().is_borrowed(),
    ]
}

/// Whether what it becomes isn't lent, with these characters.
fn is_in_a_text(own: OwnedText) -> bool {
    is_copy(&own.into_text(), false)
}

/// All of such a text.
fn told_of_owned(alloc: Global, own: OwnedText) -> [bool; 5] {
    let [hash, lent] = is_as_a_text(&own);
    let cloned = is_owned_cloned(alloc, &own);
    let other = is_not_a(alloc, &own);
    [hash, lent, cloned, other, is_in_a_text(own)]
}

/// The same of one that is made; no for want of memory.
fn told_of_made(alloc: Global) -> [bool; 5] {
    match String::from_str(alloc, "aé") {
        Ok(text) => told_of_owned(alloc, OwnedText::new(text)),
        Err(_) => [false; 5],
    }
}

#[test]
fn owned_texts_are_texts(rt: HostRuntime) {
    agree(&rt, told_of_made(rt.alloc()), [true; 5]);
}

/// One more text.
fn push(alloc: Global, list: &mut TextList, text: &str) -> Result<(), NoMemory> {
    list.push(OwnedText::from_str(alloc, text)?)
}

/// A list of `a` and `b`, where there is room.
fn list(alloc: Global) -> TextList {
    let mut list = TextList::new(alloc);
    let _ = push(alloc, &mut list, "a").is_ok();
    let _ = push(alloc, &mut list, "b").is_ok();
    list
}

/// Whether there is a text, and it is `b`.
fn is_b(text: Option<&OwnedText>) -> bool {
    match text {
        Some(text) => text.as_str() == "b",
        None => false,
    }
}

/// Whether it has two texts, the second one `b`, and no third one.
fn told_of_list(list: &TextList) -> [bool; 3] {
    [list.len() == 2, is_b(list.get(1)), list.get(2).is_none()]
}

/// Whether a copy of a list is equal to it, with two texts, and isn't after one more push.
fn told_of_copy(alloc: Global, list: &mut TextList, copy: &TextList) -> [bool; 3] {
    let is_same = copy == list;
    let _ = push(alloc, list, "a").is_ok();
    [is_same, copy.as_slice().len() == 2, copy != list]
}

/// The same of a clone.
fn told_of_cloned(alloc: Global, list: &mut TextList) -> [bool; 3] {
    match &list.try_clone(alloc) {
        Ok(copy) => told_of_copy(alloc, list, copy),
        Err(_) => [false; 3],
    }
}

/// Both of the list of two.
fn told_of_lists(alloc: Global) -> [[bool; 3]; 2] {
    let mut list = list(alloc);
    [told_of_list(&list), told_of_cloned(alloc, &mut list)]
}

/// Whether a list is empty at first, and isn't with two texts.
fn are_empty(alloc: Global) -> [bool; 2] {
    [TextList::new(alloc).is_empty(), list(alloc).is_empty()]
}

#[test]
fn lists_hold_texts_in_order(rt: HostRuntime) {
    agree(&rt, are_empty(rt.alloc()), [true, false]);
    agree(&rt, told_of_lists(rt.alloc()), [[true; 3]; 2]);
}
