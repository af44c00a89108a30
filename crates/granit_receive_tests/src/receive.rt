//! What `load` and `try_load` send, over a string and over items of which one is an error.
use crate::agree::agree;
use granit_base::{Marker, OwnedText, Span};
use granit_error::ScanError;
use granit_event::Event;
use granit_input::BorrowedInput;
use granit_parser::{
    EventReceiver, Parser, SpannedEventReceiver, TryEventReceiver, TryLoadError,
    TrySpannedEventReceiver,
};
use granit_told::{Tells, characters_and_error, letter, told_of, told_of_text};
use std::alloc::Global;
use std::fmt::Display;

/// How many events came, how many of them begin or end the stream, and where the last one ends.
#[derive(Drop)]
struct Counting {
    events: usize,
    edges: usize,
    end: usize,
}

impl Counting {
    fn new() -> Counting {
        Counting {
            events: 0,
            edges: 0,
            end: 0,
        }
    }
}

// A receiver lets an event go before it does anything else, which is cheap to prove.
impl<'input> SpannedEventReceiver<'input> for Counting {
    fn on_event(&mut self, ev: Event<'input>, span: Span) {
        let letter = letter(&ev);
        drop(ev);
        self.events = self.events.saturating_add(1);
        if matches!(letter, 'S' | 's') {
            self.edges = self.edges.saturating_add(1);
        }
        self.end = span.end.index();
    }
}

/// The letter of the last event, as rows have it.
#[derive(Drop)]
struct LastLetter(char);

impl<'input> EventReceiver<'input> for LastLetter {
    fn on_event(&mut self, ev: Event<'input>) {
        let letter = letter(&ev);
        drop(ev);
        self.0 = letter;
    }
}

/// Wants no more behind a scalar `bad`; how many scalars it took.
#[derive(Drop)]
struct Strict {
    scalars: usize,
}

/// Whether an event is a scalar, and whether its text is `bad`.
fn is_scalar_and_bad(event: &Event<'_>) -> (bool, bool) {
    match event.scalar() {
        None => (false, false),
        Some((text, _)) => (true, text == "bad"),
    }
}

impl<'input> TryEventReceiver<'input> for Strict {
    type Error = char;

    fn on_event(&mut self, ev: Event<'input>) -> Result<(), char> {
        let (is_scalar, is_bad) = is_scalar_and_bad(&ev);
        drop(ev);
        self.scalars = self.scalars.saturating_add(usize::from(is_scalar));
        if is_bad { Err('!') } else { Ok(()) }
    }
}

/// Takes so many events, and then no more.
#[derive(Drop)]
struct UpTo {
    left: usize,
}

impl<'input> TrySpannedEventReceiver<'input> for UpTo {
    type Error = char;

    fn on_event(&mut self, ev: Event<'input>, _span: Span) -> Result<(), char> {
        drop(ev);
        if self.left == 0 {
            return Err('!');
        }
        self.left -= 1;
        Ok(())
    }
}

/// What is answered.
trait Answer {
    /// The letter of it: `.` is Ok, `p` the parser's refusal, `r` the receiver's; and the number of a refusal's kind, 0
    /// where there is none.
    fn told(&self) -> (char, u8);
}

impl Answer for Result<(), ScanError> {
    fn told(&self) -> (char, u8) {
        match self {
            Ok(()) => ('.', 0),
            Err(error) => ('p', error.kind().number()),
        }
    }
}

impl Answer for Result<(), TryLoadError<char>> {
    fn told(&self) -> (char, u8) {
        match self {
            Ok(()) => ('.', 0),
            Err(TryLoadError::Scan(error)) => ('p', error.kind().number()),
            Err(TryLoadError::Receiver(_)) => ('r', 0),
        }
    }
}

/// The same of what is let go here, which is cheap to prove in a generic function.
fn answered<A: Answer + Drop>(answer: A) -> (char, u8) {
    answer.told()
}

/// The number of what `load` answers, and how many events and ends of the stream came by then.
fn loaded<'a, T: BorrowedInput<'a>>(
    parser: &mut Parser<'a, T>,
    counting: &mut Counting,
    multi: bool,
) -> (u8, usize, usize) {
    let (_, number) = answered(parser.load(counting, multi));
    (number, counting.events, counting.edges)
}

/// The letter of what `try_load` answers.
fn tried<'a, T: BorrowedInput<'a>, R: TrySpannedEventReceiver<'a, Error = char>>(
    parser: &mut Parser<'a, T>,
    recv: &mut R,
    multi: bool,
) -> char {
    let (letter, _) = answered(parser.try_load(recv, multi));
    letter
}

/// What is answered twice, and how many scalars were taken by then.
struct ByTheReceiver;

impl<'a, T: BorrowedInput<'a>> Tells<Parser<'a, T>> for ByTheReceiver {
    type Told = [(char, usize); 2];

    fn tell(&self, parser: &mut Parser<'a, T>) -> [(char, usize); 2] {
        let mut strict = Strict { scalars: 0 };
        let first = (tried(parser, &mut strict, true), strict.scalars);
        let second = (tried(parser, &mut strict, true), strict.scalars);
        [first, second]
    }
}

#[test]
fn refused_by_the_receiver(rt: HostRuntime) {
    let told = told_of_text(rt.alloc(), "ok: bad\nafter: value\n", &ByTheReceiver);
    agree(&rt, told, [('r', 2), ('.', 4)]);
}

/// How many events and ends of the stream come, and then once more.
struct Twice;

impl<'a, T: BorrowedInput<'a>> Tells<Parser<'a, T>> for Twice {
    type Told = [(u8, usize, usize); 2];

    fn tell(&self, parser: &mut Parser<'a, T>) -> [(u8, usize, usize); 2] {
        let mut counting = Counting::new();
        let first = loaded(parser, &mut counting, true);
        [first, loaded(parser, &mut counting, true)]
    }
}

/// What a receiver of three events answers to three calls.
struct UpToThree;

impl<'a, T: BorrowedInput<'a>> Tells<Parser<'a, T>> for UpToThree {
    type Told = [char; 3];

    fn tell(&self, parser: &mut Parser<'a, T>) -> [char; 3] {
        let mut up_to = UpTo { left: 3 };
        [
            tried(parser, &mut up_to, true),
            tried(parser, &mut up_to, false),
            tried(parser, &mut up_to, false),
        ]
    }
}

#[test]
fn behind_the_end(rt: HostRuntime) {
    let told = (
        told_of_text(rt.alloc(), "", &Twice),
        told_of_text(rt.alloc(), "", &UpToThree),
    );
    agree(&rt, told, ([(0, 2, 2), (0, 3, 3)], ['.', '.', 'r']));
}

/// What `load` answers of one document, and the letter of its last event.
fn document<'a, T: BorrowedInput<'a>>(parser: &mut Parser<'a, T>) -> (u8, char) {
    let mut last = LastLetter('.');
    let (_, number) = answered(parser.load(&mut last, false));
    (number, last.0)
}

/// The letter of the last event of one document, and what is sent of the rest.
struct OneAndTheRest;

impl<'a, T: BorrowedInput<'a>> Tells<Parser<'a, T>> for OneAndTheRest {
    type Told = (char, usize, usize, usize);

    fn tell(&self, parser: &mut Parser<'a, T>) -> (char, usize, usize, usize) {
        let (first, letter) = document(parser);
        let mut counting = Counting::new();
        let (rest, events, edges) = loaded(parser, &mut counting, true);
        let end = if first == 0 && rest == 0 {
            counting.end
        } else {
            0
        };
        (letter, events, edges, end)
    }
}

#[test]
fn one_document_or_all(rt: HostRuntime) {
    let told = told_of_text(rt.alloc(), "a\n---\nb\n", &OneAndTheRest);
    agree(&rt, told, ('d', 4, 1, 8));
}

/// Twice the kind of a refusal, how many events were sent by then, and what `try_load` then answers and sends.
struct Again;

impl<'a, T: BorrowedInput<'a>> Tells<Parser<'a, T>> for Again {
    type Told = ([(u8, usize); 2], char, usize);

    fn tell(&self, parser: &mut Parser<'a, T>) -> ([(u8, usize); 2], char, usize) {
        let refused = loaded_twice(parser);
        let mut up_to = UpTo { left: 9 };
        let letter = tried(parser, &mut up_to, true);
        (refused, letter, up_to.left)
    }
}

#[test]
fn refused_again(rt: HostRuntime) {
    let told = told_of_text(rt.alloc(), "- *nope\n- 2\n", &Again);
    agree(&rt, told, ([(37, 3), (37, 3)], 'p', 9));
}

/// Twice the kind of a refusal, and how many events were sent by then.
pub(crate) fn loaded_twice<'a, T: BorrowedInput<'a>>(
    parser: &mut Parser<'a, T>,
) -> [(u8, usize); 2] {
    let mut counting = Counting::new();
    let (first, sent, _) = loaded(parser, &mut counting, true);
    let (second, still, _) = loaded(parser, &mut counting, true);
    [(first, sent), (second, still)]
}

/// The same alone.
struct LoadedTwice;

impl<'a, T: BorrowedInput<'a>> Tells<Parser<'a, T>> for LoadedTwice {
    type Told = [(u8, usize); 2];

    fn tell(&self, parser: &mut Parser<'a, T>) -> [(u8, usize); 2] {
        loaded_twice(parser)
    }
}

/// The same where the second item is an error; nothing for want of memory.
fn of_the_source(alloc: Global) -> [(u8, usize); 2] {
    let items = characters_and_error(alloc, "a");
    match Parser::new_from_fallible_iter(alloc, items.into_iter()) {
        Ok(parser) => told_of(parser, &LoadedTwice),
        Err(_) => [(0, 0); 2],
    }
}

#[test]
fn refused_by_the_source(rt: HostRuntime) {
    agree(&rt, of_the_source(rt.alloc()), [(80, 1), (80, 1)]);
}

/// Whether a refusal that is let go here prints these words; no for want of memory.
fn prints<E: Display + Drop>(alloc: Global, refused: E, words: &str) -> bool {
    match refused.to_string(alloc) {
        Ok(printed) => printed.as_str() == words,
        Err(_) => false,
    }
}

/// Whether a receiver's refusal does.
fn receivers_words(alloc: Global, words: &str) -> bool {
    let refused: TryLoadError<char> = TryLoadError::Receiver('!');
    prints(alloc, refused, words)
}

/// The parser's refusal with a message.
fn parsers_refusal(message: OwnedText) -> TryLoadError<char> {
    TryLoadError::from(ScanError::new(Marker::new(0, 1, 0), message))
}

/// Whether the parser's does.
fn parsers_words(alloc: Global, words: &str) -> bool {
    match OwnedText::from_str(alloc, "no") {
        Ok(message) => prints(alloc, parsers_refusal(message), words),
        Err(_) => false,
    }
}

#[test]
fn words(rt: HostRuntime) {
    let printed = [
        receivers_words(rt.alloc(), "receiver error: !"),
        parsers_words(rt.alloc(), "parser error: no at char 0 line 1 column 1"),
    ];
    agree(&rt, printed, [true; 2]);
}
