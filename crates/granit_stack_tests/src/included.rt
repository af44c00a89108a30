//! Texts that are included in others.
use crate::agree::agree;
use crate::includes::{Asked, Case};
use crate::pushes::Pushes;
use crate::stack::of_texts;
use crate::told::Told;
use std::alloc::Global;

/// Whether what is refused in a case has these words, and what is told behind that, above a text.
fn of_a_text(alloc: Global, asked: Asked, text: &str, words: &str) -> (bool, Told) {
    let (_, is_refused, told) = of_texts(alloc, asked, words, text, "", "");
    (is_refused, told)
}

/// The same of a stack without parsers.
fn of_nothing(alloc: Global, finds: bool, words: &str) -> (bool, Told) {
    let asked = Asked {
        finds,
        comments: true,
        pushes: Pushes::Nothing,
        case: Case::Alone,
    };
    of_a_text(alloc, asked, "", words)
}

/// Whether a case is refused with these words above a text whose first anchor gets that number.
fn refuses(alloc: Global, number: usize, text: &str, case: Case, words: &str) -> bool {
    let asked = Asked {
        finds: true,
        comments: true,
        pushes: Pushes::Numbered(number),
        case,
    };
    let (is_refused, _) = of_a_text(alloc, asked, text, words);
    is_refused
}

#[test]
fn a_second_document(rt: HostRuntime) {
    let words = "multiple documents not supported here\
        \nwhile parsing root -> two at char 1 line 1 column 2";
    agree(
        &rt,
        refuses(rt.alloc(), 1, "- x\n", Case::Second, words),
        true,
    );
}

#[test]
fn nobody_finds_includes(rt: HostRuntime) {
    let words = "No include resolver set for parser stack. at char 0 line 1 column 1";
    agree(&rt, of_nothing(rt.alloc(), false, words).0, true);
}

#[test]
fn texts_that_are_refused(rt: HostRuntime) {
    let bad = "unclosed bracket '['\nwhile parsing root -> bad at char 0 line 1 column 1";
    let missing = "no such text\nwhile parsing root -> none at char 3 line 2 column 2";
    let refused = [
        refuses(rt.alloc(), 1, "x", Case::Bad, bad),
        refuses(rt.alloc(), 1, "x", Case::Missing, missing),
    ];
    agree(&rt, refused, [true; 2]);
}

#[test]
fn no_number_is_left_for_an_include(rt: HostRuntime) {
    let words = "while parsing anchor, anchor count exceeded supported limit\
        \nwhile parsing root -> own at char 0 line 1 column 1";
    agree(
        &rt,
        refuses(rt.alloc(), usize::MAX, "x", Case::Anchored, words),
        true,
    );
}

/// What is told behind a case.
fn behind(alloc: Global, comments: bool, text: &str, case: Case) -> Told {
    let asked = Asked {
        finds: true,
        comments,
        pushes: Pushes::Numbered(1),
        case,
    };
    let (_, told) = of_a_text(alloc, asked, text, "");
    told
}

#[test]
fn included_texts(rt: HostRuntime) {
    let (told, ids) = behind(rt.alloc(), true, "- &r x\n- z\n", Case::Two);
    let (quiet, quiet_ids) = behind(rt.alloc(), false, "- &r x\n- z\n", Case::Two);
    let (_, (bottom, _)) = of_nothing(rt.alloc(), true, "");
    let (refused, _) = behind(rt.alloc(), true, "x", Case::Bad);
    let wanted = [
        ['y', 'x', ']', 'z', ']', 'd', 's', '.', '.', '.'],
        ['y', ']', 'z', ']', 'd', 's', '.', '.', '.', '.'],
        ['S', 'D', 'b', 'd', 'D', 'c', 'd', 's', '.', '.'],
        ['S', 'D', 'x', 'd', 's', '.', '.', '.', '.', '.'],
    ];
    agree(&rt, [told, quiet, bottom, refused], wanted);
    agree(&rt, [ids[0], ids[1], quiet_ids[0]], [3, 2, 3]);
}

#[test]
fn sent_to_receivers(rt: HostRuntime) {
    let (letters, numbers) = behind(rt.alloc(), true, "- x\n", Case::Sent);
    agree(&rt, (letters[0], numbers[0], letters[1]), ('!', 3, 's'));
}
