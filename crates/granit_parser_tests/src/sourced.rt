//! Recovery is refused behind an error of the source, also where the text before it is refused by the same call.
use crate::agree::agree;
use granit_parser::Parser;
use granit_told::Call::{self, Next, Peek, Recover};
use granit_told::{NOTHING, Row, Rows, characters_and_error, told_of};
use std::alloc::Global;

const START: Row = ('S', 0, 0);

const SOURCE: Row = ('!', 80, 0);

/// A closer that opens nothing, and an error; nothing for want of memory.
fn of_a_closer(alloc: Global, calls: [Call; 8]) -> [Row; 8] {
    let items = characters_and_error(alloc, "]").into_iter();
    match Parser::new_from_fallible_iter(alloc, items) {
        Ok(parser) => told_of(parser, &Rows(calls)),
        Err(_) => [NOTHING; 8],
    }
}

const REFUSED: [Row; 8] = [
    START, SOURCE, SOURCE, NOTHING, SOURCE, NOTHING, SOURCE, NOTHING,
];

#[test]
fn behind_a_fault_and_an_error_of_the_source(rt: HostRuntime) {
    let taken = [Next, Next, Recover, Next, Recover, Peek, Recover, Next];
    agree(&rt, of_a_closer(rt.alloc(), taken), REFUSED);
    let looked_at = [Next, Peek, Recover, Next, Recover, Peek, Recover, Next];
    agree(&rt, of_a_closer(rt.alloc(), looked_at), REFUSED);
}
