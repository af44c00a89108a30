//! Events that are given once more.
use crate::agree::agree;
use crate::letters::{Row, events_of, given, letter};
use granit_base::Span;
use granit_error::ScanError;
use granit_event::Event;
use granit_receivers::{SpannedEventReceiver, TryEventReceiver};
use granit_replay::ReplayParser;
use std::alloc::Global;

/// Two documents, `ok` and `bad`, and a third one, `after`.
const DOCUMENTS: [Row; 11] = [
    ('S', "", 0, 0),
    ('D', "", 0, 0),
    ('_', "ok", 0, 1),
    ('d', "", 0, 2),
    ('E', "", 0, 3),
    ('_', "bad", 0, 4),
    ('d', "", 0, 5),
    ('E', "", 0, 6),
    ('_', "after", 0, 7),
    ('d', "", 0, 8),
    ('s', "", 0, 9),
];

/// A parser that gives the events of rows, and whose next anchor gets that number.
fn parser(alloc: Global, rows: &[Row], number: usize) -> ReplayParser<'static> {
    ReplayParser::new(events_of(alloc, rows), number)
}

/// How many events came, and where the last one ends.
#[derive(Drop)]
struct Counting {
    events: usize,
    end: usize,
}

impl<'input> SpannedEventReceiver<'input> for Counting {
    fn on_event(&mut self, ev: Event<'input>, span: Span) {
        drop(ev);
        self.events = self.events.saturating_add(1);
        self.end = span.end.index();
    }
}

/// Wants no more behind a scalar `bad`; how many scalars it took.
#[derive(Drop)]
struct Strict {
    scalars: usize,
}

/// Whether an event is a scalar, and whether its text is `bad`.
fn is_scalar_and_bad(event: &Event<'_>) -> (bool, bool) {
    match event.scalar() {
        None => (false, false),
        Some((text, _)) => (true, text == "bad"),
    }
}

impl<'input> TryEventReceiver<'input> for Strict {
    type Error = char;

    fn on_event(&mut self, ev: Event<'input>) -> Result<(), char> {
        let (is_scalar, is_bad) = is_scalar_and_bad(&ev);
        drop(ev);
        self.scalars = self.scalars.saturating_add(usize::from(is_scalar));
        if is_bad { Err('!') } else { Ok(()) }
    }
}

/// The letter of what is looked at, and its place; `.` is nothing, `!` a refusal.
fn looked(next: Option<Result<&(Event<'_>, Span), &ScanError>>) -> (char, usize) {
    match next {
        None => ('.', 0),
        Some(Err(_)) => ('!', 0),
        Some(Ok(pair)) => (letter(&pair.0), pair.1.start.index()),
    }
}

/// What is looked at and taken of two events.
fn told_in_order(replay: &mut ReplayParser<'_>) -> [(char, usize); 7] {
    [
        looked(replay.peek()),
        looked(replay.peek()),
        given(replay.next_event()),
        given(replay.next()),
        looked(replay.peek()),
        given(replay.next_event()),
        given(replay.next()),
    ]
}

/// The same of a list of its own.
fn in_order(alloc: Global) -> [(char, usize); 7] {
    let mut replay = parser(alloc, &[('_', "a", 0, 1), ('_', "b", 0, 2)], 1);
    told_in_order(&mut replay)
}

#[test]
fn the_list_in_order(rt: HostRuntime) {
    let nothing = ('.', 0);
    let wanted = [
        ('a', 1),
        ('a', 1),
        ('a', 1),
        ('b', 2),
        nothing,
        nothing,
        nothing,
    ];
    agree(&rt, in_order(rt.alloc()), wanted);
}

/// How many documents end among what is given.
fn ends_of_documents(replay: ReplayParser<'_>) -> usize {
    let mut documents = 0usize;
    for event in replay {
        if given(Some(event)).0 == 'd' {
            documents = documents.saturating_add(1);
        }
    }
    documents
}

#[test]
fn as_an_iterator(rt: HostRuntime) {
    let documents = ends_of_documents(parser(rt.alloc(), &DOCUMENTS, 1));
    agree(&rt, documents, 3);
}

/// The number of the next anchor behind one more event.
fn number_behind(replay: &mut ReplayParser<'_>) -> usize {
    given(replay.next_event());
    replay.anchor_offset()
}

/// The numbers behind each of five events, and behind one that is set.
fn told_numbers(replay: &mut ReplayParser<'_>) -> [usize; 6] {
    let first = [
        number_behind(replay),
        number_behind(replay),
        number_behind(replay),
        number_behind(replay),
        number_behind(replay),
    ];
    replay.set_anchor_offset(5);
    let last = replay.anchor_offset();
    [first[0], first[1], first[2], first[3], first[4], last]
}

/// Each event with a number.
const NUMBERED: [Row; 5] = [
    ('*', "", 90, 0),
    ('_', "a", 3, 1),
    ('[', "", 2, 2),
    ('&', "x", 7, 3),
    ('{', "", usize::MAX, 4),
];

/// The same of these.
fn numbers(alloc: Global) -> [usize; 6] {
    let mut replay = parser(alloc, &NUMBERED, 0);
    told_numbers(&mut replay)
}

/// The number behind an event whose anchor has a lower one.
fn number_kept(alloc: Global) -> usize {
    let mut replay = parser(alloc, &[('_', "a", 3, 0)], 9);
    number_behind(&mut replay)
}

#[test]
fn numbers_of_anchors(rt: HostRuntime) {
    agree(&rt, numbers(rt.alloc()), [0, 4, 4, 8, usize::MAX, 5]);
    agree(&rt, number_kept(rt.alloc()), 9);
}

/// Whether `load` answers Ok, how many events came by then, and where the last one ends.
fn loaded(
    replay: &mut ReplayParser<'_>,
    counting: &mut Counting,
    multi: bool,
) -> (bool, usize, usize) {
    let is_ok = replay.load(counting, multi).ok().is_some();
    (is_ok, counting.events, counting.end)
}

/// One document is sent, then the others, then nothing.
fn told_of_loads(replay: &mut ReplayParser<'_>) -> [(bool, usize, usize); 3] {
    let mut counting = Counting { events: 0, end: 0 };
    [
        loaded(replay, &mut counting, false),
        loaded(replay, &mut counting, true),
        loaded(replay, &mut counting, true),
    ]
}

/// The same of three documents.
fn loads(alloc: Global) -> [(bool, usize, usize); 3] {
    let mut replay = parser(alloc, &DOCUMENTS, 1);
    told_of_loads(&mut replay)
}

#[test]
fn one_document_or_all(rt: HostRuntime) {
    let wanted = [(true, 4, 2), (true, 11, 9), (true, 11, 9)];
    agree(&rt, loads(rt.alloc()), wanted);
}

/// The letter of what `try_load` answers, and how many scalars were taken by then.
fn tried(replay: &mut ReplayParser<'_>, strict: &mut Strict, multi: bool) -> (char, usize) {
    let (letter, _) = given(replay.try_load(strict, multi));
    (letter, strict.scalars)
}

/// A receiver refuses, an event is taken, a document is sent, an event is taken, and nothing is left.
fn told_of_tries(replay: &mut ReplayParser<'_>) -> [(char, usize); 5] {
    let mut strict = Strict { scalars: 0 };
    [
        tried(replay, &mut strict, true),
        given(replay.next_event()),
        tried(replay, &mut strict, false),
        given(replay.next_event()),
        tried(replay, &mut strict, true),
    ]
}

/// The same of three documents.
fn tries(alloc: Global) -> [(char, usize); 5] {
    let mut replay = parser(alloc, &DOCUMENTS, 1);
    told_of_tries(&mut replay)
}

#[test]
fn refused_by_the_receiver(rt: HostRuntime) {
    let wanted = [('!', 2), ('d', 5), ('.', 3), ('s', 9), ('.', 3)];
    agree(&rt, tries(rt.alloc()), wanted);
}
