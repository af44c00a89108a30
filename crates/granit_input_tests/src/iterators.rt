//! The worked rows, and each error once. An input is made and asked in functions that answer plain values: a test that
//! asserts while it owns one is dear to prove.
use crate::agree::agree;
use crate::calls::error_number;
use granit_buffered::{BufferedInput, FallibleBufferedInput};
use granit_error::ErrorKind;
use granit_input::{BorrowedInput, Input};
use std::alloc::Global;
use std::str::Chars;

/// Whether sixteen characters may be looked at behind a look at more, and at most; and the first and the fourth one.
fn looks_far<T: Input>(input: &mut T) -> [bool; 4] {
    input.lookahead(24);
    [
        input.buflen() == 16,
        input.bufmaxlen() == 16,
        input.peek() == 'a',
        input.peek_nth(3) == '\0',
    ]
}

/// Whether an input tells no offset, lends nothing and has no error.
fn has_no_source(input: &mut BufferedInput<Chars<'_>>) -> [bool; 3] {
    [
        input.byte_offset().is_none(),
        input.slice_borrowed(0, 1).is_none(),
        error_number(input) == 0,
    ]
}

/// Both.
fn told_of_window(input: &mut BufferedInput<Chars<'_>>) -> ([bool; 4], [bool; 3]) {
    (looks_far(input), has_no_source(input))
}

/// Both of three characters; no for want of memory.
fn of_three(alloc: Global) -> ([bool; 4], [bool; 3]) {
    match BufferedInput::new(alloc, "abc".chars()) {
        Ok(mut input) => told_of_window(&mut input),
        Err(_) => ([false; 4], [false; 3]),
    }
}

#[test]
fn at_most_sixteen_characters_may_be_looked_at(rt: HostRuntime) {
    agree(&rt, of_three(rt.alloc()), ([true; 4], [true; 3]));
}

/// Whether a line of so many characters is fetched.
fn fetches_line<T: Input>(alloc: Global, input: &mut T, count: usize, wanted: &str) -> bool {
    let mut line = String::new(alloc);
    let fetched = input.fetch_block_scalar_line(&mut line).unwrap_or(0);
    fetched == count && line.as_str() == wanted
}

/// Whether nothing is read at a line's end, the end is next behind more than is left, and NUL is read there.
fn reads_on<T: Input>(input: &mut T) -> [bool; 3] {
    let c = input.raw_read_non_breakz_ch();
    input.skip_n(5);
    input.lookahead(1);
    let is_end = input.next_is_z();
    [c.is_none(), is_end, input.raw_read_ch() == '\0']
}

/// Whether a line of 27 characters is fetched, and what is read behind it is right.
fn told_of_line<T: Input>(alloc: Global, input: &mut T) -> [bool; 2] {
    input.lookahead(16);
    [
        fetches_line(alloc, input, 27, "0123456789abcdef0123456789é"),
        reads_on(input) == [true; 3],
    ]
}

/// The same of that line; no for want of memory.
fn of_a_line(alloc: Global) -> [bool; 2] {
    let line = "0123456789abcdef0123456789é\nz";
    match BufferedInput::new(alloc, line.chars()) {
        Ok(mut input) => told_of_line(alloc, &mut input),
        Err(_) => [false; 2],
    }
}

#[test]
fn a_line_passes_the_ring(rt: HostRuntime) {
    agree(&rt, of_a_line(rt.alloc()), [true; 2]);
}

/// The number of the error that is handed out in front of a character, that character, whether the end is next, the
/// numbers of the errors that are handed out there in turn, and what is read.
fn told_of_error<T: Input>(input: &mut T) -> ([u8; 3], [char; 2], bool) {
    let early = error_number(input);
    let first = input.raw_read_ch();
    input.lookahead(2);
    let is_end = input.next_is_z();
    let errors = [early, error_number(input), error_number(input)];
    (errors, [first, input.raw_read_ch()], is_end)
}

/// One item more, where there is room. What is let go in a generic function is cheap to prove.
fn push<T: Drop>(items: &mut Vec<T>, item: T) {
    let _ = items.push(item).ok();
}

/// An error between two characters.
fn items(alloc: Global) -> Vec<Result<char, ErrorKind>> {
    let mut items = Vec::new(alloc);
    push(&mut items, Ok('a'));
    push(
        &mut items,
        Err(ErrorKind::InputByteLimitExceeded { limit: 1 }),
    );
    push(&mut items, Ok('b'));
    items
}

/// What is told of these; nothing for want of memory.
fn of_an_error(alloc: Global) -> ([u8; 3], [char; 2], bool) {
    match FallibleBufferedInput::new(alloc, items(alloc).into_iter()) {
        Ok(mut input) => told_of_error(&mut input),
        Err(_) => ([0; 3], ['\0'; 2], false),
    }
}

#[test]
fn the_first_error_ends_the_characters(rt: HostRuntime) {
    let wanted = ([0, 80, 0], ['a', '\0'], true);
    agree(&rt, of_an_error(rt.alloc()), wanted);
}
