//! The words in front of a quoted scalar of characters, and what is read behind them (YAML 1.2.2, 7.3).
use crate::agree::agree;
use granit_base::Marker;
use granit_cursor::{Cursor, Layout};
use granit_input::{BorrowedInput, Input};
use granit_iterators::read_characters;
use granit_quoted::{QuotedBegun, QuotedScalar, begin_quoted, finish_quoted};
use std::alloc::Global;

/// In a block collection in column 0, where no comments are asked for.
const NESTED: Layout = Layout {
    block_column: Some(0),
    tab_column: 1,
    in_flow: false,
    strict: false,
    comments: false,
};

/// Whether the words were all of a scalar, whether it has that value, and where it ends.
type Read = (bool, bool, usize);

/// The same of a scalar whose words are followed by more.
fn finished<'a, T: BorrowedInput<'a>>(
    alloc: Global,
    cursor: &mut Cursor<T>,
    start: Marker,
    single: bool,
    words: String,
    value: &str,
) -> Option<Read> {
    let mut read = QuotedScalar::room(start);
    let mut fault = None;
    let done = finish_quoted(
        alloc, cursor, single, &NESTED, start, words, &mut read, &mut fault,
    );
    done.ok()?;
    Some((false, read.text.as_str() == value, read.end.index()))
}

/// The same of the scalar at the start of a text.
fn read(alloc: Global, text: &str, in_flow: bool, value: &str) -> Option<Read> {
    let mut cursor = Cursor::new(read_characters(alloc, text).ok()?);
    let start = cursor.mark();
    cursor.look(1);
    let single = cursor.input().peek() == '\'';
    match begin_quoted(alloc, &mut cursor, single, in_flow).ok()? {
        QuotedBegun::Closed(words) => {
            Some((true, words.as_str() == value, cursor.mark().index()))
        }
        QuotedBegun::Open(words) => finished(alloc, &mut cursor, start, single, words, value),
    }
}

/// A text, whether it stands in flow, whether its words are all of its scalar, the scalar's value, and where it ends.
type Row = (&'static str, bool, bool, &'static str, usize);

/// The text of the first row that is read otherwise.
fn first_otherwise(alloc: Global, rows: &[Row]) -> Option<&'static str> {
    for &(text, in_flow, closed, value, end) in rows {
        if read(alloc, text, in_flow, value) != Some((closed, true, end)) {
            return Some(text);
        }
    }
    None
}

const ROWS: &[Row] = &[
    ("\"a b\": c", false, true, "a b", 5),
    ("'a \"b'\n", false, true, "a \"b", 6),
    ("\"a, b\", c", true, true, "a, b", 6),
    ("''}", true, true, "", 2),
    ("'a' ", false, false, "a", 3),
    ("'it''s'\n", false, false, "it's", 7),
    ("\"a\\tb\"\n", false, false, "a\tb", 6),
    ("\"a  b\"\n", false, false, "a  b", 6),
    ("\"a\n b\"\n", false, false, "a b", 6),
];

#[test]
fn words_in_front_are_read(rt: HostRuntime) {
    agree(&rt, first_otherwise(rt.alloc(), ROWS), None);
}
