//! A parser's calls, one after another, and what each of them gives.
use crate::tells::Tells;
use granit_base::Span;
use granit_error::ScanError;
use granit_event::Event;
use granit_input::BorrowedInput;
use granit_parser::Parser;

/// A call.
#[derive(Clone, Copy)]
pub enum Call {
    /// `next_event`.
    Next,
    /// The iterator's step.
    Item,
    /// `peek`.
    Peek,
    /// As many of `next_event` as give an event.
    UpToFault,
    /// `proceed_next_document`.
    Recover,
}

/// A letter, and from where to where: `S` and `s` are where the stream starts and ends, `D` and `d` a document, `[` and
/// `]` a sequence, `{` and `}` a mapping, `=` a scalar, `*` an alias and `#` a comment. `!` is a fault, with its kind
/// and its place, `t` and `f` are what recovery answers, and `.` is nothing.
pub type Row = (char, usize, usize);

/// No event, no refusal.
pub const NOTHING: Row = ('.', 0, 0);

/// A row, and the number of the node's anchor, 0 where it has none.
pub type Numbered = (Row, usize);

/// The letter of an event.
pub fn letter(event: &Event<'_>) -> char {
    match event {
        Event::StreamStart => 'S',
        Event::StreamEnd => 's',
        Event::DocumentStart(_, _) => 'D',
        Event::DocumentEnd => 'd',
        Event::Alias(_) => '*',
        Event::Scalar(_, _, _, _) => '=',
        Event::SequenceStart(_, _, _) => '[',
        Event::SequenceEnd => ']',
        Event::MappingStart(_, _, _) => '{',
        Event::MappingEnd => '}',
        Event::Comment(_, _) => '#',
        _ => '?',
    }
}

fn of_event(event: &Event<'_>, span: Span) -> Numbered {
    let row = (letter(event), span.start.index(), span.end.index());
    (row, event.anchor_id().unwrap_or(0))
}

fn of_fault(error: &ScanError) -> Numbered {
    let kind = usize::from(error.kind().number());
    (('!', kind, error.marker().index()), 0)
}

fn seen(given: Option<Result<&(Event<'_>, Span), &ScanError>>) -> Numbered {
    match given {
        None => (NOTHING, 0),
        Some(Ok((event, span))) => of_event(event, *span),
        Some(Err(error)) => of_fault(error),
    }
}

/// What a call gives, or what recovery answers.
trait Given {
    fn numbered(&self) -> Numbered;
}

impl<'a> Given for Option<Result<(Event<'a>, Span), ScanError>> {
    fn numbered(&self) -> Numbered {
        match self {
            None => (NOTHING, 0),
            Some(Ok((event, span))) => of_event(event, *span),
            Some(Err(error)) => of_fault(error),
        }
    }
}

impl Given for Result<bool, ScanError> {
    fn numbered(&self) -> Numbered {
        match self {
            Ok(true) => (('t', 0, 0), 0),
            Ok(false) => (('f', 0, 0), 0),
            Err(error) => of_fault(error),
        }
    }
}

/// The same of what is let go here, which is cheap to prove in a generic function.
fn taken<T: Given + Drop>(given: T) -> Numbered {
    given.numbered()
}

fn up_to_fault<'a, T: BorrowedInput<'a>>(parser: &mut Parser<'a, T>) -> Numbered {
    'events: for _ in 0..1_000_000 {
        let given = taken(parser.next_event());
        if matches!(given.0.0, '!' | '.') {
            return given;
        }
    }
    (NOTHING, 0)
}

/// What a call gives, with the number of an anchor.
pub fn numbered<'a, T: BorrowedInput<'a>>(parser: &mut Parser<'a, T>, call: Call) -> Numbered {
    match call {
        Call::Next => taken(parser.next_event()),
        Call::Item => taken(parser.next()),
        Call::Peek => seen(parser.peek()),
        Call::UpToFault => up_to_fault(parser),
        Call::Recover => taken(parser.proceed_next_document()),
    }
}

fn row<'a, T: BorrowedInput<'a>>(parser: &mut Parser<'a, T>, call: Call) -> Row {
    numbered(parser, call).0
}

/// What eight calls give, one after the other.
fn eight<'a, T: BorrowedInput<'a>>(parser: &mut Parser<'a, T>, calls: [Call; 8]) -> [Row; 8] {
    [
        row(parser, calls[0]),
        row(parser, calls[1]),
        row(parser, calls[2]),
        row(parser, calls[3]),
        row(parser, calls[4]),
        row(parser, calls[5]),
        row(parser, calls[6]),
        row(parser, calls[7]),
    ]
}

/// Tells what eight calls give.
#[derive(Drop)]
pub struct Rows(pub [Call; 8]);

impl<'a, T: BorrowedInput<'a>> Tells<Parser<'a, T>> for Rows {
    type Told = [Row; 8];

    fn tell(&self, parser: &mut Parser<'a, T>) -> [Row; 8] {
        eight(parser, self.0)
    }
}

/// The letter of a row; `~` is the source's error.
fn row_letter(row: Row) -> char {
    match row {
        ('!', 80, _) => '~',
        (letter, _, _) => letter,
    }
}

fn letters_of(rows: [Row; 8]) -> [char; 8] {
    [
        row_letter(rows[0]),
        row_letter(rows[1]),
        row_letter(rows[2]),
        row_letter(rows[3]),
        row_letter(rows[4]),
        row_letter(rows[5]),
        row_letter(rows[6]),
        row_letter(rows[7]),
    ]
}

/// Tells the letters of what eight calls give.
#[derive(Drop)]
pub struct Letters(pub [Call; 8]);

impl<'a, T: BorrowedInput<'a>> Tells<Parser<'a, T>> for Letters {
    type Told = [char; 8];

    fn tell(&self, parser: &mut Parser<'a, T>) -> [char; 8] {
        letters_of(eight(parser, self.0))
    }
}
