//! Tokens of characters that end with an error: it stands in the place of what was read up to it, and comes once. The
//! places were counted by hand.
use crate::agree::agree;
use granit_base::NoMemory;
use granit_error::{ErrorKind, Options, ScanError};
use granit_input::BorrowedInput;
use granit_iterators::read_items;
use granit_scan::Scanner;
use std::alloc::Global;

/// What a step gives: a token, nothing, or a refusal's kind and where it stands.
type Row = (bool, usize, usize);

const TOKEN: Row = (true, 0, 0);

const NOTHING: Row = (false, 0, 0);

/// What can be told in a row.
trait Rowed {
    fn row(&self) -> Row;
}

impl<T> Rowed for Result<Option<T>, ScanError> {
    fn row(&self) -> Row {
        match self {
            Ok(None) => NOTHING,
            Ok(Some(_)) => TOKEN,
            Err(error) => (
                false,
                usize::from(error.kind().number()),
                error.marker().index(),
            ),
        }
    }
}

/// The row of what is let go here, which is cheap to prove in a generic function.
fn taken<T: Rowed + Drop>(step: T) -> Row {
    step.row()
}

/// What five steps give, and what the source is then said to have given.
fn steps<'a, T: BorrowedInput<'a>>(alloc: Global, input: T) -> [Row; 6] {
    let mut scanner = Scanner::with_options(alloc, input, Options::default());
    [
        taken(scanner.next_queued()),
        taken(scanner.next_queued()),
        taken(scanner.next_queued()),
        taken(scanner.next_queued()),
        taken(scanner.next_queued()),
        taken(scanner.check_source_error().map(|()| None::<bool>)),
    ]
}

/// The same of the characters of a text and an error behind them; nothing for want of memory.
fn told(alloc: Global, text: &str) -> Option<[Row; 6]> {
    let mut items = Vec::new(alloc);
    for c in text.chars() {
        push(&mut items, Ok(c))?;
    }
    push(
        &mut items,
        Err(ErrorKind::InputByteLimitExceeded { limit: 1 }),
    )?;
    over(alloc, read_items(alloc, items))
}

/// One more item, where there is room. What is let go in a generic function is cheap to prove.
fn push<T: Drop>(items: &mut Vec<T>, item: T) -> Option<()> {
    items.push(item).ok()
}

fn over<'a, T: BorrowedInput<'a>>(alloc: Global, input: Result<T, NoMemory>) -> Option<[Row; 6]> {
    Some(steps(alloc, input.ok()?))
}

#[test]
fn the_error_of_an_iterator_is_told(rt: HostRuntime) {
    let alloc = rt.alloc();
    let early = (false, 80, 2);
    let late = (false, 80, 4);
    agree(
        &rt,
        [told(alloc, "ab"), told(alloc, "- a\n")],
        [
            Some([TOKEN, early, NOTHING, NOTHING, NOTHING, early]),
            Some([TOKEN, TOKEN, TOKEN, late, NOTHING, late]),
        ],
    );
}
