//! Iterators that fail: their first error stands in the place of whatever was read up to it.
use crate::agree::agree;
use crate::answers::{Place, count, place_of};
use granit_error::{ErrorKind, Options};
use granit_load::load_fallible;
use std::alloc::Global;

/// The worked example of blocks.
const BLOCKS: &str = "a: b\nc:\n- d\n- {e: f}\n";

/// Two documents, with what stands between them.
const DOCUMENTS: &str = "--- [a, 'b c']\n...\n# d\n%YAML 1.2\n---\n\"e\\n\" : |\n f\n";

/// The error of the iterators.
fn error() -> ErrorKind {
    ErrorKind::InputByteLimitExceeded { limit: 1 }
}

/// Characters, or the error in the place of one.
type Items = Vec<Result<char, ErrorKind>>;

/// One more item, where there is room. What is let go in a generic function is cheap to prove.
fn push<T: Drop>(items: &mut Vec<T>, item: T) {
    let _ = items.push(item).ok();
}

/// The characters of a text, and an error behind `count` of them.
fn failing(alloc: Global, text: &str, count: usize) -> Items {
    let mut items = Vec::new(alloc);
    'items: for (i, c) in text.chars().enumerate() {
        if i == count {
            push(&mut items, Err(error()));
        }
        push(&mut items, Ok(c));
    }
    if items.len() == count {
        push(&mut items, Err(error()));
    }
    items
}

/// How many events there are, where no error comes.
fn items_count(alloc: Global, text: &str) -> Option<usize> {
    let items = failing(alloc, text, usize::MAX).into_iter();
    count(load_fallible(alloc, items, Options::default()))
}

/// The error behind `count` characters, where one is answered.
fn refusal(alloc: Global, text: &str, count: usize) -> Option<Place> {
    let items = failing(alloc, text, count).into_iter();
    place_of(load_fallible(alloc, items, Options::default()))
}

/// Whether an error behind so many characters is answered, no further on than it stands.
fn fails_at(alloc: Global, text: &str, count: usize) -> bool {
    match refusal(alloc, text, count) {
        Some((number, index, _, _)) => number == 80 && index <= count,
        None => false,
    }
}

/// The same behind each number of characters.
fn fails_at_each(alloc: Global, text: &str) -> bool {
    let mut same = true;
    'numbers: for k in 0..=text.chars().count() {
        same = same && fails_at(alloc, text, k);
    }
    same
}

#[test]
fn without_an_error(rt: HostRuntime) {
    let alloc = rt.alloc();
    let counts = [
        items_count(alloc, ""),
        items_count(alloc, BLOCKS),
        items_count(alloc, "a: b\n- c\n"),
    ];
    agree(&rt, counts, [Some(2), Some(16), None]);
    agree(&rt, items_count(alloc, DOCUMENTS).is_some(), true);
}

#[test]
fn an_error_behind_each_item(rt: HostRuntime) {
    let alloc = rt.alloc();
    let fail = [
        fails_at_each(alloc, ""),
        fails_at_each(alloc, BLOCKS),
        fails_at_each(alloc, DOCUMENTS),
    ];
    agree(&rt, fail, [true, true, true]);
}

#[test]
fn where_an_error_stands(rt: HostRuntime) {
    let alloc = rt.alloc();
    let places = [refusal(alloc, "[a", 1), refusal(alloc, "ab", 1)];
    agree(&rt, places, [Some((80, 1, 1, 1)), Some((80, 1, 1, 1))]);
}

/// The number of a refusal, and its character.
fn fault_behind(alloc: Global, text: &str, count: usize) -> Option<(u8, usize)> {
    let (number, index, _, _) = refusal(alloc, text, count)?;
    Some((number, index))
}

#[test]
fn a_fault_before_an_error(rt: HostRuntime) {
    let text = "a: 1\n- b\nc: d\ne: f\ng: h\ni: j\nk: l\n";
    agree(&rt, fault_behind(rt.alloc(), text, 34), Some((33, 5)));
}
