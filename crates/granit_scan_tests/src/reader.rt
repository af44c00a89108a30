//! Whole reads of small texts. What stands in the texts was counted by hand.
use crate::agree::agree;
use granit_cursor::Cursor;
use granit_error::{Options, ScanError};
use granit_input::{BorrowedInput, StrInput};
use granit_items::{Found, Rooms};
use granit_layout::Layouts;
use granit_reader::{Met, next_found};
use granit_refused::Refused;
use std::alloc::Global;

/// Where a read puts what it finds.
trait Place {
    /// Whether there is a lexeme, and a comment.
    fn holds(&self) -> (bool, bool);
}

impl<'a> Place for Found<'a> {
    fn holds(&self) -> (bool, bool) {
        (self.filled, self.note.is_some())
    }
}

/// Whether a read found a lexeme, and a comment; none where it was refused. What is let go in a generic function is
/// cheap to prove.
fn told<P: Place + Drop, F: Drop>(
    read: Result<(), Refused>,
    found: P,
    fault: F,
) -> Option<(bool, bool)> {
    let holds = found.holds();
    drop(fault);
    match read {
        Ok(()) => Some(holds),
        Err(_) => None,
    }
}

/// Whether the next read finds a lexeme, and a comment; none where it is refused.
fn read<'a, T: BorrowedInput<'a>>(
    alloc: Global,
    cursor: &mut Cursor<T>,
    layouts: &mut Layouts,
    ended: &mut bool,
) -> Option<(bool, bool)> {
    if layouts.number() > 100 {
        return None;
    }
    let options = Options::default();
    let mut rooms = Rooms::new(alloc);
    let mut found: Found<'a> = Found {
        filled: false,
        lexeme: rooms.take().ok()?,
        note: None,
    };
    let mut met = Met::Nothing;
    let mut fault: Option<ScanError> = None;
    let read = next_found(
        alloc, &options, cursor, layouts, ended, &mut found, &mut met, &mut fault,
    );
    told(read, found, fault)
}

/// How many lexemes stand behind a cursor, its end among them, and how many comments behind none of them; none where
/// it is refused.
fn counted<'a, T: BorrowedInput<'a>>(
    alloc: Global,
    cursor: &mut Cursor<T>,
    layouts: &mut Layouts,
) -> Option<(usize, usize)> {
    let mut ended = false;
    let mut lexemes: usize = 0;
    let mut comments: usize = 0;
    for _ in 0..100 {
        let is_over = ended;
        let (lexeme, comment) = read(alloc, cursor, layouts, &mut ended)?;
        lexemes = lexemes.saturating_add(usize::from(lexeme));
        comments = comments.saturating_add(usize::from(comment));
        if is_over {
            return Some((lexemes, comments));
        }
    }
    None
}

/// The same of a text.
fn counted_of(alloc: Global, text: &str) -> Option<(usize, usize)> {
    let mut cursor = Cursor::new(StrInput::new(text));
    let mut layouts = Layouts::new(alloc);
    counted(alloc, &mut cursor, &mut layouts)
}

/// A text, and what is counted in it.
type Row = (&'static str, Option<(usize, usize)>);

/// The text of the first row of which others were counted.
fn first_otherwise(alloc: Global, rows: &[Row]) -> Option<&'static str> {
    for &(text, wanted) in rows {
        if counted_of(alloc, text) != wanted {
            return Some(text);
        }
    }
    None
}

const ROWS: &[Row] = &[
    ("", Some((1, 0))),
    ("# a\n", Some((1, 1))),
    ("%YAML 1.2 # a\n---\nb: [c, 'd'] # e\n...\n", Some((11, 0))),
    ("- &a !b \"c\" # d\n# e\n- *a\n- |\n f\n", Some((9, 1))),
    ("? a\n: {b: c}\n", Some((9, 0))),
    ("[a", None),
    ("a: b: c", None),
    ("a: - b", None),
];

#[test]
fn lexemes_of_each_kind(rt: HostRuntime) {
    agree(&rt, first_otherwise(rt.alloc(), ROWS), None);
}
