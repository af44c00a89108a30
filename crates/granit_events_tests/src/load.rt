//! All events of a text, or its fault.
use crate::agree::agree;
use crate::answers::{count, fault};
use granit_error::{Options, options};
use granit_load::{load_chars, load_str};
use std::alloc::Global;

/// How many events a text has; none where it is refused.
fn text_count(alloc: Global, text: &str) -> Option<usize> {
    count(load_str(alloc, text, Options::default()))
}

/// The fault of a text, where it has one.
fn text_fault(alloc: Global, text: &str, options: Options) -> Option<(u8, usize)> {
    fault(load_str(alloc, text, options))
}

#[test]
fn whole_texts(rt: HostRuntime) {
    let alloc = rt.alloc();
    let counts = [
        text_count(alloc, ""),
        text_count(alloc, "a: b\nc:\n- d\n- {e: f}\n"),
        text_count(alloc, "a: b\n- c\n"),
    ];
    agree(&rt, counts, [Some(2), Some(16), None]);
}

#[test]
fn refusals(rt: HostRuntime) {
    let alloc = rt.alloc();
    let open = options!(emit_unresolved_aliases: true);
    let faults = [
        text_fault(alloc, "a: 1\nb: *c\n", Options::default()),
        text_fault(alloc, "a: 1\nb: *c\n", open),
        text_fault(alloc, "a: [b", open),
    ];
    agree(&rt, faults, [Some((37, 8)), None, Some((2, 3))]);
}

/// How many events the characters of a text have; none where they are refused.
fn characters_count(alloc: Global, text: &str) -> Option<usize> {
    count(load_chars(alloc, text.chars(), Options::default()))
}

/// The fault of a text's characters, where they have one.
fn characters_fault(alloc: Global, text: &str) -> Option<(u8, usize)> {
    fault(load_chars(alloc, text.chars(), Options::default()))
}

#[test]
fn whole_characters(rt: HostRuntime) {
    let count = characters_count(rt.alloc(), "a: b\nc:\n- d\n- {e: f}\n");
    let fault = characters_fault(rt.alloc(), "a: 1\n- b");
    agree(&rt, (count, fault), (Some(16), Some((33, 5))));
}

/// Two documents, the second one with the handle of the first.
const KEPT: &str = "%TAG !e! t:\n--- !e!a b\n--- !e!c d\n";

#[test]
fn handles_by_the_option(rt: HostRuntime) {
    let counts = [
        text_count(rt.alloc(), KEPT),
        count(load_str(rt.alloc(), KEPT, options!(keep_tags: true))),
    ];
    agree(&rt, counts, [None, Some(8)]);
}
