//! Anchors near the greatest number: what the original gives for the same calls.
use crate::agree::agree;
use crate::receive::loaded_twice;
use granit_input::BorrowedInput;
use granit_parser::Parser;
use granit_told::Call::{self, Next, Peek, Recover, UpToFault};
use granit_told::{Tells, numbered, told_of_text};

/// A node's number and where it begins, or a refusal's kind and its place; all 0 where nothing comes. Where recovery
/// answers true the number is 1.
type Row = (usize, usize, usize);

/// What a call gives.
fn row<'a, T: BorrowedInput<'a>>(parser: &mut Parser<'a, T>, call: Call) -> Row {
    match numbered(parser, call) {
        (('!', kind, place), _) => (0, kind, place),
        (('t', _, _), _) => (1, 0, 0),
        ((_, start, _), number) => (number, 0, start),
    }
}

/// What is told where what is given isn't what was seen.
const UNLIKE: Row = (0, 255, 0);

/// What comes from that number on, and, where it is looked at before, what is seen.
#[derive(Drop)]
struct Numbered {
    offset: usize,
    looks: bool,
}

/// What is given, where it is what was seen.
fn seen_and_taken<'a, T: BorrowedInput<'a>>(parser: &mut Parser<'a, T>) -> Row {
    let seen = row(parser, Peek);
    let next = row(parser, Next);
    if seen == next { next } else { UNLIKE }
}

impl Numbered {
    /// What is given, where it is what was seen.
    fn next<'a, T: BorrowedInput<'a>>(&self, parser: &mut Parser<'a, T>) -> Row {
        if self.looks {
            seen_and_taken(parser)
        } else {
            row(parser, Next)
        }
    }
}

impl<'a, T: BorrowedInput<'a>> Tells<Parser<'a, T>> for Numbered {
    type Told = [Row; 6];

    fn tell(&self, parser: &mut Parser<'a, T>) -> [Row; 6] {
        parser.set_anchor_offset(self.offset);
        [
            self.next(parser),
            self.next(parser),
            self.next(parser),
            self.next(parser),
            self.next(parser),
            self.next(parser),
        ]
    }
}

/// The rows of a text from a number on, each seen before it is given.
fn rows(rt: &HostRuntime, text: &str, offset: usize, looks: bool) -> [Row; 6] {
    told_of_text(rt.alloc(), text, &Numbered { offset, looks })
}

/// The first three.
fn three(rt: &HostRuntime, text: &str, offset: usize) -> (Row, Row, Row) {
    let told = rows(rt, text, offset, false);
    (told[0], told[1], told[2])
}

/// Two anchors in a sequence, of which the second one gets no number.
const TWO: &str = "- &a b\n- &c d\n";

const TWO_ROWS: [Row; 6] = [
    (0, 0, 0),
    (0, 0, 0),
    (0, 0, 0),
    (usize::MAX - 1, 0, 5),
    (0, 86, 9),
    (0, 0, 0),
];

#[test]
fn no_number_is_left(rt: HostRuntime) {
    let refused = ((0, 0, 0), (0, 86, 0), (0, 0, 0));
    agree(&rt, three(&rt, "&a b", usize::MAX), refused);
    agree(&rt, rows(&rt, TWO, usize::MAX - 1, false), TWO_ROWS);
    agree(&rt, rows(&rt, TWO, usize::MAX - 1, true), TWO_ROWS);
}

/// What `load` answers and sends from a number on, and again.
#[derive(Drop)]
struct Loaded(usize);

impl<'a, T: BorrowedInput<'a>> Tells<Parser<'a, T>> for Loaded {
    type Told = [(u8, usize); 2];

    fn tell(&self, parser: &mut Parser<'a, T>) -> [(u8, usize); 2] {
        parser.set_anchor_offset(self.0);
        loaded_twice(parser)
    }
}

#[test]
fn no_number_is_left_to_load(rt: HostRuntime) {
    agree(
        &rt,
        told_of_text(rt.alloc(), TWO, &Loaded(usize::MAX - 1)),
        [(86, 4), (86, 4)],
    );
    agree(
        &rt,
        told_of_text(rt.alloc(), TWO, &Loaded(usize::MAX - 2)),
        [(0, 8), (0, 9)],
    );
}

/// A sequence that isn't closed and a document behind it, each with an anchor.
const UNCLOSED: &str = "&x a: [\n---\n&y b\n";

/// A number that is set between a refusal and recovery.
#[derive(Drop)]
struct Recovered(usize);

impl<'a, T: BorrowedInput<'a>> Tells<Parser<'a, T>> for Recovered {
    type Told = [Row; 6];

    fn tell(&self, parser: &mut Parser<'a, T>) -> [Row; 6] {
        let refusal = row(parser, UpToFault);
        parser.set_anchor_offset(self.0);
        [
            refusal,
            row(parser, Next),
            row(parser, Recover),
            row(parser, Next),
            row(parser, Next),
            row(parser, Next),
        ]
    }
}

#[test]
fn recovery_goes_on_with_the_number(rt: HostRuntime) {
    agree(
        &rt,
        told_of_text(rt.alloc(), UNCLOSED, &Recovered(5)),
        [
            (0, 2, 6),
            (0, 0, 0),
            (1, 0, 0),
            (0, 0, 8),
            (5, 0, 15),
            (0, 0, 16),
        ],
    );
}

/// A document whose first lexeme is refused, which recovery meets ahead, and one with an anchor.
const REFUSED_AHEAD: &str = "[x]\ny\n...\n&z q\n";

/// A number that is set while a refusal waits that recovery met.
#[derive(Drop)]
struct Waiting(usize);

impl<'a, T: BorrowedInput<'a>> Tells<Parser<'a, T>> for Waiting {
    type Told = [Row; 6];

    fn tell(&self, parser: &mut Parser<'a, T>) -> [Row; 6] {
        let met = row(parser, Recover);
        parser.set_anchor_offset(self.0);
        [
            met,
            row(parser, Next),
            row(parser, Next),
            row(parser, Recover),
            row(parser, Next),
            row(parser, Next),
        ]
    }
}

#[test]
fn a_refusal_waits_while_the_number_is_set(rt: HostRuntime) {
    agree(
        &rt,
        told_of_text(rt.alloc(), REFUSED_AHEAD, &Waiting(5)),
        [
            (1, 0, 0),
            (0, 11, 4),
            (0, 0, 0),
            (1, 0, 0),
            (0, 0, 10),
            (5, 0, 13),
        ],
    );
}
