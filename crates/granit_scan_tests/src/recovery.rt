//! The tokens behind a document boundary. What stands in the texts was counted by hand.
use crate::agree::agree;
use granit_cursor::{Token, TokenType};
use granit_error::{Options, ScanError};
use granit_input::{BorrowedInput, StrInput};
use granit_scan::Scanner;
use std::alloc::Global;

/// A letter, and where its token starts and ends; `!`, and the kind and the place of an error; `.` is nothing.
type Row = (char, usize, usize);

/// A text, the letter of the step behind which it is gone on with, and what the steps behind that give.
type Case = (&'static str, char, [Row; 6]);

const NOTHING: Row = ('.', 0, 0);

/// Where the step behind which a text is to be gone on with isn't met, or is refused.
const LOST: Row = ('x', 0, 0);

fn letter(token: &TokenType<'_>) -> char {
    match token {
        TokenType::StreamStart => 'S',
        TokenType::StreamEnd => 's',
        TokenType::DocumentStart => 'D',
        TokenType::DocumentEnd => 'd',
        TokenType::BlockMappingStart => '{',
        TokenType::BlockEnd => '}',
        TokenType::Scalar(_, _) => '=',
        TokenType::Comment(_) => '#',
        TokenType::Key => '?',
        TokenType::Value => ':',
        _ => '*',
    }
}

fn of_token(token: &Token<'_>) -> Row {
    let span = token.span();
    (
        letter(token.token_type()),
        span.start.index(),
        span.end.index(),
    )
}

fn fault(error: &ScanError) -> Row {
    (
        '!',
        usize::from(error.kind().number()),
        error.marker().index(),
    )
}

/// What a scanner gives at a step.
type Step<'a> = Result<Option<Token<'a>>, ScanError>;

/// What can be told in a row.
trait Rowed {
    fn row(&self) -> Row;
}

impl<'a> Rowed for Step<'a> {
    fn row(&self) -> Row {
        match self {
            Ok(None) => NOTHING,
            Ok(Some(token)) => of_token(token),
            Err(error) => fault(error),
        }
    }
}

/// The row of what is let go here, which is cheap to prove in a generic function.
fn taken<T: Rowed + Drop>(step: T) -> Row {
    step.row()
}

fn next<'a, T: BorrowedInput<'a>>(scanner: &mut Scanner<'a, T>) -> Row {
    taken(scanner.next_queued())
}

/// Whether a text can be gone on with behind a step, whose token is handed back.
fn goes_on<'a, T: BorrowedInput<'a>>(scanner: &mut Scanner<'a, T>, step: Step<'a>) -> bool {
    let proceeded = scanner.proceed_next_document(step.unwrap_or(None));
    proceeded.ok().is_some()
}

/// The same of the next step, where it gives this.
fn recover_at<'a, T: BorrowedInput<'a>>(scanner: &mut Scanner<'a, T>, last: char) -> Option<bool> {
    let step = scanner.next_queued();
    if step.row().0 != last {
        return None;
    }
    Some(goes_on(scanner, step))
}

/// Steps up to the one that gives this, and goes on behind it.
fn recover<'a, T: BorrowedInput<'a>>(scanner: &mut Scanner<'a, T>, last: char) -> bool {
    'steps: for _ in 0..1_000 {
        if let Some(is_on) = recover_at(scanner, last) {
            return is_on;
        }
    }
    false
}

/// What the first step gives whose row is another.
fn first_unlike<'a, T: BorrowedInput<'a>>(
    scanner: &mut Scanner<'a, T>,
    rows: &[Row],
) -> Option<Row> {
    for row in rows {
        let found = next(scanner);
        if found != *row {
            return Some(found);
        }
    }
    None
}

/// The same of the steps behind the one that is gone on with.
fn unlike_behind<'a, T: BorrowedInput<'a>>(
    scanner: &mut Scanner<'a, T>,
    last: char,
    rows: &[Row],
) -> Option<Row> {
    if recover(scanner, last) {
        first_unlike(scanner, rows)
    } else {
        Some(LOST)
    }
}

/// The same in a text.
fn unlike(alloc: Global, text: &str, last: char, rows: &[Row]) -> Option<Row> {
    let mut scanner = Scanner::with_options(alloc, StrInput::new(text), Options::default());
    unlike_behind(&mut scanner, last, rows)
}

/// The first text that goes on otherwise, and what it then gives.
fn first_otherwise(alloc: Global, cases: &[Case]) -> Option<(&'static str, Row)> {
    for (text, last, rows) in cases {
        if let Some(found) = unlike(alloc, text, *last, rows) {
            return Some((*text, found));
        }
    }
    None
}

/// Texts that are gone on with behind a fault.
const BEHIND_A_FAULT: &[Case] = &[
    (
        "a: [\n---\nb\n",
        '!',
        [
            ('D', 5, 8),
            ('=', 9, 10),
            ('s', 11, 11),
            NOTHING,
            NOTHING,
            NOTHING,
        ],
    ),
    (
        "a: [\n... # c\n# d\nb\n",
        '!',
        [
            ('#', 13, 16),
            ('=', 17, 18),
            ('s', 19, 19),
            NOTHING,
            NOTHING,
            NOTHING,
        ],
    ),
    (
        "a: [\n---x\n ---\n",
        '!',
        [('s', 15, 15), NOTHING, NOTHING, NOTHING, NOTHING, NOTHING],
    ),
];

#[test]
fn behind_a_fault(rt: HostRuntime) {
    agree(&rt, first_otherwise(rt.alloc(), BEHIND_A_FAULT), None);
}

/// A boundary that was given or waits is the next one.
const AT_A_TOKEN: &[Case] = &[
    (
        "--- # c\na: b\n",
        'D',
        [
            ('D', 0, 3),
            ('#', 4, 7),
            ('{', 8, 8),
            ('?', 8, 8),
            ('=', 8, 9),
            (':', 9, 9),
        ],
    ),
    (
        "a: b\n--- # c\nd\n",
        '}',
        [
            ('D', 5, 8),
            ('#', 9, 12),
            ('=', 13, 14),
            ('s', 15, 15),
            NOTHING,
            NOTHING,
        ],
    ),
];

#[test]
fn at_a_token(rt: HostRuntime) {
    agree(&rt, first_otherwise(rt.alloc(), AT_A_TOKEN), None);
}

/// So is one with nothing but its document behind it, or none at all.
const AT_A_LAST_TOKEN: &[Case] = &[
    (
        "a\n...\nb\n",
        'd',
        [('=', 6, 7), ('s', 8, 8), NOTHING, NOTHING, NOTHING, NOTHING],
    ),
    (
        "a\n",
        's',
        [('s', 2, 2), NOTHING, NOTHING, NOTHING, NOTHING, NOTHING],
    ),
    (
        "a\n---\nb\n",
        'S',
        [
            ('D', 2, 5),
            ('=', 6, 7),
            ('s', 8, 8),
            NOTHING,
            NOTHING,
            NOTHING,
        ],
    ),
];

#[test]
fn at_a_last_token(rt: HostRuntime) {
    agree(&rt, first_otherwise(rt.alloc(), AT_A_LAST_TOKEN), None);
}
