//! The worked rows of names and tags. The rows are the original's tokens and faults.
use crate::agree::agree;
use granit_base::Text;
use granit_cursor::{Cursor, Token, TokenType};
use granit_error::ScanError;
use granit_input::{Input, StrInput};
use granit_properties::{scan_anchor, scan_tag};
use std::alloc::Global;

/// A letter and two texts: `&` is an anchor and `*` an alias, whose name is lent, and `!` is a tag, whose handle and
/// suffix are owned.
type Wanted = (char, &'static str, &'static str);

fn is_lent(text: &Text<'_>, wanted: &str) -> bool {
    text.is_borrowed() && text.as_str() == wanted
}

fn is_owned(text: &Text<'_>, wanted: &str) -> bool {
    !text.is_borrowed() && text.as_str() == wanted
}

fn is_wanted(found: &TokenType<'_>, wanted: &Wanted) -> bool {
    let (letter, first, second) = *wanted;
    match found {
        TokenType::Anchor(name) => letter == '&' && is_lent(name, first),
        TokenType::Alias(name) => letter == '*' && is_lent(name, first),
        TokenType::Tag(handle, suffix) => {
            letter == '!' && is_owned(handle, first) && is_owned(suffix, second)
        }
        _ => false,
    }
}

/// Whether that was read, and where it ends; and the number of the kind by which it is refused, and the index of its
/// mark, both 0 where it isn't.
type Told = (bool, usize, u8, usize);

/// What can be told of.
trait Tells {
    fn tell(&self, wanted: &Wanted) -> Told;
}

impl<'a> Tells for Result<Token<'a>, ScanError> {
    fn tell(&self, wanted: &Wanted) -> Told {
        match self {
            Ok(token) => (
                is_wanted(token.token_type(), wanted),
                token.span().end.index(),
                0,
                0,
            ),
            Err(error) => (false, 0, error.kind().number(), error.marker().index()),
        }
    }
}

/// What is told of what is let go here, which is cheap to prove in a generic function.
fn tell<T: Tells + Drop>(read: T, wanted: &Wanted) -> Told {
    read.tell(wanted)
}

/// What is told of the name or the tag that begins here, where one does.
fn told_at(
    alloc: Global,
    cursor: &mut Cursor<StrInput<'_>>,
    in_flow: bool,
    wanted: &Wanted,
) -> Told {
    cursor.look(1);
    match cursor.input().peek() {
        '&' => tell(scan_anchor(alloc, cursor, false), wanted),
        '*' => tell(scan_anchor(alloc, cursor, true), wanted),
        '!' => tell(scan_tag(alloc, cursor, in_flow), wanted),
        _ => (false, 0, 0, 0),
    }
}

/// The same at the start of a text, and where the cursor then stands.
fn told(alloc: Global, text: &str, in_flow: bool, wanted: &Wanted) -> (Told, usize) {
    let mut cursor = Cursor::new(StrInput::new(text));
    let told = told_at(alloc, &mut cursor, in_flow, wanted);
    (told, cursor.mark().index())
}

/// A text, whether it is inside brackets, what it begins with, and where that ends.
type Row = (&'static str, bool, Wanted, usize);

/// The first text that begins otherwise.
fn first_otherwise(alloc: Global, rows: &[Row]) -> Option<&'static str> {
    for &(text, in_flow, wanted, end) in rows {
        let ((is_read, stops, _, _), stands) = told(alloc, text, in_flow, &wanted);
        if !is_read || stops != end || stands != end {
            return Some(text);
        }
    }
    None
}

const NAMES: &[Row] = &[
    ("&a:b-c!d e", false, ('&', "a:b-c!d", ""), 8),
    ("&a,b", false, ('&', "a", ""), 2),
    ("&\u{e9} c", false, ('&', "\u{e9}", ""), 2),
    ("&a", false, ('&', "a", ""), 2),
    ("*a ", false, ('*', "a", ""), 2),
];

#[test]
fn names(rt: HostRuntime) {
    agree(&rt, first_otherwise(rt.alloc(), NAMES), None);
}

const TAGS: &[Row] = &[
    ("!<tag:x%20y> a", false, ('!', "", "tag:x y"), 12),
    ("!e!%C3%A9 a", false, ('!', "!e!", "\u{e9}"), 9),
    ("! a", false, ('!', "", "!"), 1),
    ("!!str a", false, ('!', "!!", "str"), 5),
    ("!a", false, ('!', "!", "a"), 2),
    ("!a%41b c", false, ('!', "!", "aAb"), 6),
    ("!%F0%9F%98%80 a", false, ('!', "!", "\u{1f600}"), 13),
    ("!a,b", true, ('!', "!", "a"), 2),
    ("!]", true, ('!', "", "!"), 1),
];

#[test]
fn tags(rt: HostRuntime) {
    agree(&rt, first_otherwise(rt.alloc(), TAGS), None);
}

/// A text, and the kind by which it is refused where it begins.
const REFUSED: &[(&str, u8)] = &[
    ("& a", 63),
    ("!! a", 56),
    ("!<> a", 56),
    ("!<a b", 57),
    ("!a,b", 58),
    ("!a!b!c", 58),
    ("!%4g a", 59),
    ("!%A9 a", 60),
    ("!%C3%28 a", 61),
    ("!%C0%80 a", 62),
    ("!%ED%A0%80 a", 62),
];

/// The first text that isn't refused with that kind at its beginning.
fn first_not_refused(alloc: Global, rows: &[(&'static str, u8)]) -> Option<&'static str> {
    for &(text, number) in rows {
        let ((_, _, kind, index), _) = told(alloc, text, false, &('.', "", ""));
        if (kind, index) != (number, 0) {
            return Some(text);
        }
    }
    None
}

#[test]
fn refused(rt: HostRuntime) {
    agree(&rt, first_not_refused(rt.alloc(), REFUSED), None);
}
