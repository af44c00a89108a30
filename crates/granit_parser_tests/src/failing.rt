//! Parsers over iterators that fail.
use crate::agree::agree;
use granit_error::options;
use granit_parser::Parser;
use granit_told::Call::{self, Next, Peek};
use granit_told::{Letters, characters, characters_and_error, told_of};
use std::alloc::Global;

/// What is looked at, twice, and taken.
const CALLS: Letters = Letters([Peek, Peek, Next, Peek, Peek, Next, Peek, Next]);

/// One character and an error; nothing for want of memory.
fn of_a_character(alloc: Global) -> [char; 8] {
    let items = characters_and_error(alloc, "a").into_iter();
    match Parser::new_from_fallible_iter(alloc, items) {
        Ok(parser) => told_of(parser, &CALLS),
        Err(_) => ['-'; 8],
    }
}

/// A comment that isn't asked for.
fn of_a_comment(alloc: Global) -> [char; 8] {
    let options = options!(emit_comments: false);
    let items = characters(alloc, "# c\n").into_iter();
    match Parser::new_from_fallible_iter_with_options(alloc, items, options) {
        Ok(parser) => told_of(parser, &CALLS),
        Err(_) => ['-'; 8],
    }
}

#[test]
fn items_one_by_one(rt: HostRuntime) {
    let letters = [of_a_character(rt.alloc()), of_a_comment(rt.alloc())];
    let wanted = [
        ['S', 'S', 'S', '~', '~', '~', '.', '.'],
        ['S', 'S', 'S', 's', 's', 's', '.', '.'],
    ];
    agree(&rt, letters, wanted);
}
