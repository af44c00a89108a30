//! Stacks of parsers. What names the types of parsers only hands them on, and two of them at most: a proof spells them
//! out.
use crate::agree::agree;
use crate::includes::{Asked, Case, Seen, seen_of};
use crate::pushes::{Pushes, of_events};
use crate::told::{Told, nothing};
use granit_error::Options;
use granit_input::StrInput;
use granit_layers::StackedParser;
use granit_load::load_str;
use granit_parser::Parser;
use granit_replay::ReplayParser;
use std::alloc::Global;

/// Events that are given once more.
type Events<'input> = ReplayParser<'input>;

/// What is seen of a `ParserStack` of a parser over a string, one over characters and one over an input.
fn of_parsers<'input, A, B>(
    alloc: Global,
    asked: Asked,
    words: &str,
    string: A,
    characters: B,
    input: &'input str,
) -> Seen
where
    A: StackedParser<'input>,
    B: StackedParser<'input>,
{
    seen_of::<A, B, _, Events<'input>>(
        alloc,
        asked,
        words,
        string,
        characters,
        Parser::new(alloc, StrInput::new(input)),
    )
}

/// The same of the texts of the second and the third; nothing for want of memory.
fn of_two_texts<'input, A: StackedParser<'input>>(
    alloc: Global,
    asked: Asked,
    words: &str,
    string: A,
    characters: &'input str,
    input: &'input str,
) -> Seen {
    match Parser::new_from_iter(alloc, characters.chars()) {
        Ok(characters) => of_parsers(alloc, asked, words, string, characters, input),
        Err(_) => (0, false, nothing()),
    }
}

/// The same of three texts.
pub(crate) fn of_texts<'input>(
    alloc: Global,
    asked: Asked,
    words: &str,
    string: &'input str,
    characters: &'input str,
    input: &'input str,
) -> Seen {
    of_two_texts(
        alloc,
        asked,
        words,
        Parser::new_from_str(alloc, string),
        characters,
        input,
    )
}

/// What a stack gives of the events of a text; nothing where there are none.
fn of_a_replay<'input>(alloc: Global, text: &'input str) -> Told {
    match load_str(alloc, text, Options::default()).ok() {
        Some(events) => of_events::<Events<'input>, Events<'input>, Events<'input>>(
            alloc,
            ReplayParser::new(events.into_vec(), 1),
        ),
        None => nothing(),
    }
}

/// The number that a next anchor gets behind what is put on a stack, and what it gives.
fn pushed(
    alloc: Global,
    pushes: Pushes,
    string: &str,
    characters: &str,
    input: &str,
) -> (usize, Told) {
    let asked = Asked {
        finds: false,
        comments: true,
        pushes,
        case: Case::Nothing,
    };
    let (number, _, told) = of_texts(alloc, asked, "", string, characters, input);
    (number, told)
}

#[test]
fn each_push_on_an_empty_stack(rt: HostRuntime) {
    let (_, (string, _)) = pushed(rt.alloc(), Pushes::Numbered(1), "- x", "", "");
    let (_, (characters, _)) = pushed(rt.alloc(), Pushes::Characters, "", "x", "");
    let (_, (input, _)) = pushed(rt.alloc(), Pushes::Input, "", "", "x");
    let (replay, _) = of_a_replay(rt.alloc(), "x");
    let wanted = [
        ['S', 'D', '[', 'x', ']', 'd', 's', '.', '.', '.'],
        ['S', 'D', 'x', 'd', 's', '.', '.', '.', '.', '.'],
        ['S', 'D', 'x', 'd', 's', '.', '.', '.', '.', '.'],
        ['S', 'D', 'x', 'd', 's', '.', '.', '.', '.', '.'],
    ];
    agree(&rt, [string, characters, input, replay], wanted);
}

#[test]
fn three_kinds_on_one_another(rt: HostRuntime) {
    let (number, (events, ids)) = pushed(rt.alloc(), Pushes::Three, "&a s", "&b c", "&c i");
    agree(
        &rt,
        events,
        ['i', 's', 'd', 's', '.', '.', '.', '.', '.', '.'],
    );
    agree(&rt, [number, ids[0], ids[1]], [3, 3, 1]);
}

#[test]
fn an_event_comes_first(rt: HostRuntime) {
    let (_, (alone, _)) = pushed(rt.alloc(), Pushes::First, "", "", "i");
    let (_, (above, _)) = pushed(rt.alloc(), Pushes::FirstAbove, "i", "", "i");
    let wanted = [
        ['f', 'S', 'D', 'i', 'd', 's', '.', '.', '.', '.'],
        ['f', 'i', 'D', 'i', 'd', 's', '.', '.', '.', '.'],
    ];
    agree(&rt, [alone, above], wanted);
}
