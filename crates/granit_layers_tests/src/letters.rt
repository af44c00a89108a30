//! Events by their letters.
use granit_base::{
    Marker, OwnedText, Placement, ScalarStyle, Span, StructureStyle, Text, push_text,
};
use granit_error::ScanError;
use granit_event::Event;
use granit_receivers::TryLoadError;
use std::alloc::Global;

/// Events, each with its place.
pub(crate) type Events<'a> = Vec<(Event<'a>, Span)>;

/// The letter of an event: a scalar's text's first, `S` and `s` where the stream begins and ends, `D` and `d` a
/// document, `#` a comment.
pub(crate) fn letter(event: &Event<'_>) -> char {
    match event {
        Event::StreamStart => 'S',
        Event::StreamEnd => 's',
        Event::DocumentStart(_, _) => 'D',
        Event::DocumentEnd => 'd',
        Event::Comment(_, _) => '#',
        Event::Scalar(text, _, _, _) => match text.as_str().chars().next() {
            Some(first) => first,
            None => '_',
        },
        _ => '-',
    }
}

/// The event of a letter, with that anchor's number where it may have an anchor: `E` is an explicit start of a
/// document, `*` an alias, `&` an anchor, `[` and `{` the start of a collection, the others as above, and else it is a
/// scalar.
pub(crate) fn event(letter: char, text: &str, anchor: usize) -> Event<'_> {
    match letter {
        'S' => Event::StreamStart,
        's' => Event::StreamEnd,
        'D' => Event::DocumentStart(false, None),
        'E' => Event::DocumentStart(true, None),
        'd' => Event::DocumentEnd,
        '#' => Event::Comment(Text::borrowed("c"), Placement::Free),
        '*' => Event::Alias(anchor),
        '&' => Event::Anchor(anchor, Text::borrowed(text)),
        '[' => Event::SequenceStart(StructureStyle::Flow, anchor, None),
        '{' => Event::MappingStart(StructureStyle::Block, anchor, None),
        _ => Event::Scalar(Text::borrowed(text), ScalarStyle::Plain, anchor, None),
    }
}

/// The empty place behind so many characters of the first line.
pub(crate) fn at(index: usize) -> Span {
    Span::empty(Marker::new(index, 1, index))
}

/// One more event, where there is room. What is let go in a generic function is cheap to prove.
pub(crate) fn push<T: Drop>(events: &mut Vec<T>, event: T) {
    let _ = events.push(event).ok();
}

/// An event's letter, its text, the number of its anchor, and how many characters stand before it.
pub(crate) type Row = (char, &'static str, usize, usize);

/// The events of rows.
pub(crate) fn events_of(alloc: Global, rows: &[Row]) -> Events<'static> {
    let mut events = Vec::new(alloc);
    for (letter, text, anchor, index) in rows {
        let place = at(*index);
        push(&mut events, (event(*letter, *text, *anchor), place));
    }
    events
}

/// What is given.
pub(crate) trait Shown {
    /// Its letter, and its place; `.` is nothing, `!` a refusal.
    fn told(&self) -> (char, usize);
}

impl<'a> Shown for Option<Result<(Event<'a>, Span), ScanError>> {
    fn told(&self) -> (char, usize) {
        match self {
            None => ('.', 0),
            Some(Err(_)) => ('!', 0),
            Some(Ok((event, span))) => (letter(event), span.start.index()),
        }
    }
}

impl Shown for Result<(), TryLoadError<char>> {
    /// `.` is Ok, `p` the parser's refusal, and else it is the receiver's.
    fn told(&self) -> (char, usize) {
        match self {
            Ok(()) => ('.', 0),
            Err(TryLoadError::Scan(_)) => ('p', 0),
            Err(TryLoadError::Receiver(letter)) => (*letter, 0),
        }
    }
}

/// The same of what is let go here, which is cheap to prove in a generic function.
pub(crate) fn given<T: Shown + Drop>(next: T) -> (char, usize) {
    next.told()
}

/// A text of its own, where there is room.
pub(crate) fn own(alloc: Global, text: &str) -> OwnedText {
    let mut copy = String::new(alloc);
    let _ = push_text(&mut copy, text).is_ok();
    OwnedText::new(copy)
}

/// Whether a refusal prints these words.
pub(crate) fn prints(alloc: Global, error: &ScanError, words: &str) -> bool {
    match error.to_string(alloc) {
        Ok(printed) => printed.as_str() == words,
        Err(_) => false,
    }
}

/// What may be a refusal.
pub(crate) trait Refuses {
    /// Whether it is one that prints these words.
    fn refuses(&self, alloc: Global, words: &str) -> bool;
}

impl<'a> Refuses for Option<Result<(Event<'a>, Span), ScanError>> {
    fn refuses(&self, alloc: Global, words: &str) -> bool {
        match self {
            Some(Err(error)) => prints(alloc, error, words),
            _ => false,
        }
    }
}

/// The same of what is let go here.
pub(crate) fn refused<T: Refuses + Drop>(alloc: Global, next: T, words: &str) -> bool {
    next.refuses(alloc, words)
}
