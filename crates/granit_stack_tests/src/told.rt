//! What a stack gives.
use crate::texts::Texts;
use granit_base::Span;
use granit_error::ScanError;
use granit_event::Event;
use granit_layers::StackedParser;
use granit_stack::IncludeStack;
use std::alloc::Global;

/// The letters of the next ten events, and the numbers of their anchors, 0 where there is none.
pub(crate) type Told = ([char; 10], [usize; 10]);

/// No events.
pub(crate) fn nothing() -> Told {
    (['.'; 10], [0; 10])
}

/// The letter of an event: a scalar's text's first, `S` and `s` where the stream begins and ends, `D` and `d` a
/// document, brackets a collection, `#` a comment.
fn letter(event: &Event<'_>) -> char {
    match event {
        Event::StreamStart => 'S',
        Event::StreamEnd => 's',
        Event::DocumentStart(_, _) => 'D',
        Event::DocumentEnd => 'd',
        Event::SequenceStart(_, _, _) => '[',
        Event::SequenceEnd => ']',
        Event::Comment(_, _) => '#',
        Event::Scalar(text, _, _, _) => match text.as_str().chars().next() {
            Some(first) => first,
            None => '_',
        },
        _ => '-',
    }
}

/// Whether a refusal prints these words.
fn is_worded(alloc: Global, error: &ScanError, words: &str) -> bool {
    match error.to_string(alloc) {
        Ok(printed) => printed.as_str() == words,
        Err(_) => false,
    }
}

/// What a stack may answer.
pub(crate) trait Answer {
    /// Its letter, and the number of its anchor; `.` is nothing, `!` a refusal.
    fn told(&self) -> (char, usize);

    /// Whether it is a refusal with these words.
    fn refuses(&self, alloc: Global, words: &str) -> bool;
}

impl<'a> Answer for Option<Result<(Event<'a>, Span), ScanError>> {
    fn told(&self) -> (char, usize) {
        match self {
            None => ('.', 0),
            Some(Err(_)) => ('!', 0),
            Some(Ok((event, _))) => (letter(event), event.anchor_id().unwrap_or(0)),
        }
    }

    fn refuses(&self, alloc: Global, words: &str) -> bool {
        match self {
            Some(Err(error)) => is_worded(alloc, error, words),
            _ => false,
        }
    }
}

impl Answer for Result<(), ScanError> {
    fn told(&self) -> (char, usize) {
        match self {
            Ok(()) => ('.', 0),
            Err(_) => ('!', 0),
        }
    }

    fn refuses(&self, alloc: Global, words: &str) -> bool {
        match self {
            Ok(()) => false,
            Err(error) => is_worded(alloc, error, words),
        }
    }
}

/// What is told of an answer that is let go here, which is cheap to prove in a generic function.
pub(crate) fn given<T: Answer + Drop>(answer: T) -> (char, usize) {
    answer.told()
}

/// Whether it is a refusal with these words; the same holds of it.
pub(crate) fn refuses<T: Answer + Drop>(alloc: Global, answer: T, words: &str) -> bool {
    answer.refuses(alloc, words)
}

/// So many events are passed.
pub(crate) fn pass<'input, S: StackedParser<'input>>(
    stack: &mut IncludeStack<'input, S, Texts>,
    count: usize,
) {
    'events: for _ in 0..count {
        let _ = given(stack.next_event());
    }
}

/// What gives events.
pub(crate) trait Tells {
    /// The next events.
    fn tell(&mut self) -> Told;
}

impl<'input, S: StackedParser<'input>> Tells for IncludeStack<'input, S, Texts> {
    fn tell(&mut self) -> Told {
        let mut letters = ['.'; 10];
        let mut numbers = [0; 10];
        for i in 0..10 {
            let (letter, number) = given(self.next_event());
            letters[i] = letter;
            numbers[i] = number;
        }
        (letters, numbers)
    }
}

/// The next events of a stack that is let go here, which is cheap to prove in a generic function.
pub(crate) fn told_of<P: Tells + Drop>(stack: P) -> Told {
    let mut stack = stack;
    stack.tell()
}
