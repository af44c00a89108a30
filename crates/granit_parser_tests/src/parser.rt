//! What the calls give of a text, one by one.
use crate::agree::agree;
use granit_error::options;
use granit_input::StrInput;
use granit_parser::Parser;
use granit_told::Call::{Item, Next, Peek};
use granit_told::{Letters, told_of, told_of_text};
use std::alloc::Global;

/// Events are taken.
const TAKES: Letters = Letters([Next; 8]);

/// They are taken by the iterator.
const STEPS: Letters = Letters([Item; 8]);

/// Nothing comes behind the end of the stream.
fn of_nothing(alloc: Global) -> [char; 8] {
    told_of(Parser::new(alloc, StrInput::new("")), &TAKES)
}

#[test]
fn one_by_one(rt: HostRuntime) {
    // a refusal comes once, behind the start of the stream
    let letters = [
        told_of_text(rt.alloc(), "[", &TAKES),
        of_nothing(rt.alloc()),
    ];
    let wanted = [
        ['S', '!', '.', '.', '.', '.', '.', '.'],
        ['S', 's', '.', '.', '.', '.', '.', '.'],
    ];
    agree(&rt, letters, wanted);
}

/// What is looked at, twice each, and taken.
const LOOKS: Letters = Letters([Peek, Peek, Next, Peek, Peek, Item, Peek, Item]);

#[test]
fn looked_at(rt: HostRuntime) {
    let letters = told_of_text(rt.alloc(), "[", &LOOKS);
    agree(&rt, letters, ['S', 'S', 'S', '!', '!', '!', '.', '.']);
}

/// A comment that isn't asked for, in an input.
fn of_an_input(alloc: Global) -> [char; 8] {
    let options = options!(emit_comments: false);
    told_of(
        Parser::with_options(alloc, StrInput::new("# c\n"), options),
        &STEPS,
    )
}

/// The same in a text.
fn of_a_text(alloc: Global) -> [char; 8] {
    let options = options!(emit_comments: false);
    told_of(
        Parser::new_from_str_with_options(alloc, "# c\n", options),
        &STEPS,
    )
}

#[test]
fn with_options(rt: HostRuntime) {
    let letters = [of_an_input(rt.alloc()), of_a_text(rt.alloc())];
    agree(&rt, letters, [['S', 's', '.', '.', '.', '.', '.', '.']; 2]);
}

/// The characters of a bracket, the first event of which is looked at; nothing for want of memory.
fn of_characters(alloc: Global) -> [char; 8] {
    match Parser::new_from_iter(alloc, "[".chars()) {
        Ok(parser) => told_of(
            parser,
            &Letters([Peek, Next, Next, Next, Next, Next, Next, Next]),
        ),
        Err(_) => ['-'; 8],
    }
}

/// Those of a comment that isn't asked for.
fn of_characters_with_options(alloc: Global) -> [char; 8] {
    let options = options!(emit_comments: false);
    match Parser::new_from_iter_with_options(alloc, "# c\n".chars(), options) {
        Ok(parser) => told_of(parser, &STEPS),
        Err(_) => ['-'; 8],
    }
}

#[test]
fn characters_one_by_one(rt: HostRuntime) {
    let letters = [
        of_characters(rt.alloc()),
        of_characters_with_options(rt.alloc()),
    ];
    let wanted = [
        ['S', 'S', '!', '.', '.', '.', '.', '.'],
        ['S', 's', '.', '.', '.', '.', '.', '.'],
    ];
    agree(&rt, letters, wanted);
}
