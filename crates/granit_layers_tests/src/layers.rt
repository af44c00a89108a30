//! Parsers that lie on one another. What asks a stack is generic in its parsers, and a stack is let go by a call:
//! that is cheap to prove.
use crate::agree::agree;
use crate::letters::{Events, at, event, given, own, push, refused};
use granit_event::Event;
use granit_layers::{AnyKind, FromReplay, Layers, StackedParser};
use granit_receivers::{EventReceiver, TryEventReceiver};
use granit_replay::ReplayParser;
use std::alloc::Global;

/// One document, and a comment behind it.
const ONE: &str = "SD_d#s";

/// A document, and the start of a second one.
const TWO: &str = "SD_d#Ds";

/// The events of letters: the stream and its first document begin where the line does.
fn events<'a>(alloc: Global, letters: &str, text: &'a str, anchor: usize) -> Events<'a> {
    let mut events = Vec::new(alloc);
    for (number, letter) in letters.chars().enumerate() {
        let place = at(number.saturating_sub(1));
        push(&mut events, (event(letter, text, anchor), place));
    }
    events
}

/// A parser that gives the events of letters.
fn parser<'a>(alloc: Global, letters: &str, text: &'a str, anchor: usize) -> ReplayParser<'a> {
    ReplayParser::new(events(alloc, letters, text, anchor), 1)
}

/// No parsers yet, and comments come through or don't.
fn replays<'a>(alloc: Global, emits_comments: bool) -> Layers<'a, ReplayParser<'a>> {
    Layers::new(alloc, emits_comments)
}

/// Whether a parser was put on a stack, whose name is the text of its scalar.
fn put<'a, S: FromReplay<'a>>(
    alloc: Global,
    layers: &mut Layers<'a, S>,
    letters: &str,
    text: &'a str,
    anchor: usize,
) -> bool {
    let name = own(alloc, text);
    let parser = S::from_replay(parser(alloc, letters, text, anchor));
    let pushed = layers.push(parser, name);
    pushed.ok().is_some()
}

/// The letter of what comes next.
fn next<'a, S: StackedParser<'a>>(layers: &mut Layers<'a, S>) -> char {
    given(layers.next_event()).0
}

/// The letters of the next ten events.
fn letters<'a, S: StackedParser<'a>>(layers: &mut Layers<'a, S>) -> [char; 10] {
    let mut letters = ['.'; 10];
    for i in 0..10 {
        letters[i] = next(layers);
    }
    letters
}

/// Whether one document was put on another one, the letters of what is given, with the first one behind the others, and
/// the number of the next anchor behind the first one.
fn told_of_nested<'a, S: FromReplay<'a>>(
    alloc: Global,
    layers: Layers<'a, S>,
) -> ([bool; 2], [char; 10], usize) {
    let mut layers = layers;
    let below = put(alloc, &mut layers, ONE, "x", 3);
    let above = put(alloc, &mut layers, ONE, "y", 9);
    let first = next(&mut layers);
    let offset = layers.current_anchor_offset();
    let mut letters = letters(&mut layers);
    letters[9] = first;
    drop(layers);
    ([below, above], letters, offset)
}

/// The same of a stack with comments or without.
fn nested(alloc: Global, emits_comments: bool) -> ([bool; 2], [char; 10], usize) {
    told_of_nested(alloc, replays(alloc, emits_comments))
}

#[test]
fn a_document_on_another(rt: HostRuntime) {
    let wanted = ['#', 'S', 'D', 'x', 'd', '#', 's', '.', '.', 'y'];
    agree(&rt, nested(rt.alloc(), true), ([true; 2], wanted, 10));
    let wanted = ['S', 'D', 'x', 'd', 's', '.', '.', '.', '.', 'y'];
    agree(&rt, nested(rt.alloc(), false), ([true; 2], wanted, 10));
}

/// Whether a second document is refused with these words, and the letters before and behind it.
fn told_of_second<'a, S: FromReplay<'a>>(
    alloc: Global,
    layers: Layers<'a, S>,
    words: &str,
) -> ([char; 3], bool) {
    let mut layers = layers;
    let _ = put(alloc, &mut layers, ONE, "x", 0);
    let _ = put(alloc, &mut layers, TWO, "two", 0);
    let (first, second) = (next(&mut layers), next(&mut layers));
    let refused = refused(alloc, layers.next_event(), words);
    let last = next(&mut layers);
    drop(layers);
    ([first, second, last], refused)
}

/// The same of a stack of its own.
fn second_document(alloc: Global, words: &str) -> ([char; 3], bool) {
    told_of_second(alloc, replays(alloc, true), words)
}

#[test]
fn a_second_document(rt: HostRuntime) {
    let words =
        "multiple documents not supported here\nwhile parsing x -> two at char 2 line 1 column 3";
    agree(
        &rt,
        second_document(rt.alloc(), words),
        (['t', '#', '.'], true),
    );
}

/// Four kinds of parsers on one stack, which are all the same here.
type FourKinds<'a, S> = Layers<'a, AnyKind<S, S, S, S>>;

/// Whether a parser was put on a stack as the first of the four.
fn put_first<'a, S: FromReplay<'a>>(
    alloc: Global,
    layers: &mut FourKinds<'a, S>,
    text: &'a str,
) -> bool {
    let name = own(alloc, text);
    let parser = S::from_replay(parser(alloc, ONE, text, 0));
    let pushed = layers.push_first(parser, name);
    pushed.ok().is_some()
}

/// As the second.
fn put_second<'a, S: FromReplay<'a>>(
    alloc: Global,
    layers: &mut FourKinds<'a, S>,
    text: &'a str,
) -> bool {
    let name = own(alloc, text);
    let parser = S::from_replay(parser(alloc, ONE, text, 0));
    let pushed = layers.push_second(parser, name);
    pushed.ok().is_some()
}

/// As the third, with an event that comes first.
fn put_third<'a, S: FromReplay<'a>>(
    alloc: Global,
    layers: &mut FourKinds<'a, S>,
    text: &'a str,
) -> bool {
    let name = own(alloc, text);
    let above = S::from_replay(parser(alloc, ONE, text, 0));
    let place = at(0);
    let pushed = layers.push_third_with(above, name, (event('_', "e", 0), place));
    pushed.ok().is_some()
}

/// Whether something is seen to come next.
fn looks<'a, S: StackedParser<'a>>(layers: &mut Layers<'a, S>) -> bool {
    layers.peek().is_some()
}

/// The letters of the next five events.
fn five<'a, S: StackedParser<'a>>(layers: &mut Layers<'a, S>) -> [char; 5] {
    let mut letters = ['.'; 5];
    for i in 0..5 {
        letters[i] = next(layers);
    }
    letters
}

/// What is given behind looks and pushes, and whether each parser was put on the stack.
fn told_of_looks<'a, S: FromReplay<'a>>(
    alloc: Global,
    layers: FourKinds<'a, S>,
) -> ([bool; 3], char, [char; 5]) {
    let mut layers = layers;
    let first = put_first(alloc, &mut layers, "a");
    let _ = looks(&mut layers);
    let second = put_second(alloc, &mut layers, "b");
    let looked = next(&mut layers);
    let _ = looks(&mut layers);
    let third = put_third(alloc, &mut layers, "c");
    let last = five(&mut layers);
    drop(layers);
    ([first, second, third], looked, last)
}

/// Four replays on one stack, none of them yet.
fn four_replays<'a>(alloc: Global) -> FourKinds<'a, ReplayParser<'a>> {
    Layers::new(alloc, true)
}

/// An event that was looked at stays behind a push, unless another one is handed in with it.
fn looked_at(alloc: Global) -> ([bool; 3], char, [char; 5]) {
    told_of_looks(alloc, four_replays(alloc))
}

#[test]
fn what_was_looked_at(rt: HostRuntime) {
    let want = ([true; 3], 'S', ['e', 'c', '#', '#', 'D']);
    agree(&rt, looked_at(rt.alloc()), want);
}

/// Nothing lies there: the stream ends, and a later push changes nothing.
fn told_of_nothing<'a, S: FromReplay<'a>>(
    alloc: Global,
    layers: Layers<'a, S>,
) -> (bool, [char; 3]) {
    let mut layers = layers;
    let first = next(&mut layers);
    let late = put(alloc, &mut layers, ONE, "late", 0);
    let second = next(&mut layers);
    let (third, _) = given(layers.next());
    drop(layers);
    (late, [first, second, third])
}

/// The same of a stack of its own.
fn nothing(alloc: Global) -> (bool, [char; 3]) {
    told_of_nothing(alloc, replays(alloc, true))
}

#[test]
fn no_parsers(rt: HostRuntime) {
    agree(&rt, nothing(rt.alloc()), (true, ['s', '.', '.']));
}

/// How many events came.
#[derive(Drop)]
struct Counting {
    events: usize,
}

impl<'input> EventReceiver<'input> for Counting {
    fn on_event(&mut self, ev: Event<'input>) {
        drop(ev);
        self.events = self.events.saturating_add(1);
    }
}

/// Wants no more behind a scalar.
#[derive(Drop)]
struct Strict;

impl<'input> TryEventReceiver<'input> for Strict {
    type Error = char;

    fn on_event(&mut self, ev: Event<'input>) -> Result<(), char> {
        let is_node = ev.is_node();
        drop(ev);
        if is_node { Err('!') } else { Ok(()) }
    }
}

/// What a receiver answers that wants no more; `.` is nothing, `p` a refusal of the parser.
fn tried<'a, S: StackedParser<'a>>(layers: &mut Layers<'a, S>) -> char {
    given(layers.try_load(&mut Strict, true)).0
}

/// Whether `load` answers Ok, and how many events came by then.
fn loaded<'a, S: StackedParser<'a>>(
    layers: &mut Layers<'a, S>,
    counting: &mut Counting,
    multi: bool,
) -> (bool, usize) {
    let is_ok = layers.load(counting, multi).ok().is_some();
    (is_ok, counting.events)
}

/// What a receiver that wants no more answers, and then how many events come up to the end of a document, up to the
/// end, and behind it.
fn told_of_receivers<'a, S: FromReplay<'a>>(
    alloc: Global,
    layers: Layers<'a, S>,
) -> (char, [(bool, usize); 3]) {
    let mut layers = layers;
    let _ = put(alloc, &mut layers, ONE, "x", 0);
    let refused = tried(&mut layers);
    let mut counting = Counting { events: 0 };
    let document = loaded(&mut layers, &mut counting, false);
    let all = loaded(&mut layers, &mut counting, true);
    let behind = loaded(&mut layers, &mut counting, true);
    drop(layers);
    (refused, [document, all, behind])
}

/// The same of a stack of its own.
fn sent(alloc: Global) -> (char, [(bool, usize); 3]) {
    told_of_receivers(alloc, replays(alloc, true))
}

#[test]
fn sent_to_a_receiver(rt: HostRuntime) {
    agree(
        &rt,
        sent(rt.alloc()),
        ('!', [(true, 1), (true, 3), (true, 3)]),
    );
}
