//! What a stack makes of a step of a parser.
ghost use Rattle.std.specs.Prelude.{◌≡◌};
ghost use Rattle.granit_event.specs.Events.{event_kind};
ghost use Rattle.granit_layers.specs.Turning as spec;

use granit_base::{Marker, Span};
use granit_error::{ErrorKind, ScanError};
use granit_event::Event;

/// What an event is to a stack.
#[derive(Clone, Copy, Debug, PartialEq, Eq)]
pub enum Part {
    /// A comment.
    Comment,
    /// Where the stream or a document starts.
    Start,
    /// Where a document ends.
    DocumentEnd,
    /// Where the stream ends.
    StreamEnd,
    /// Anything else.
    Content,
}

/// What comes of a step of a parser.
#[derive(Debug, Drop)]
pub enum Turn<'input> {
    /// This event is given.
    Gives((Event<'input>, Span)),
    /// Nothing is given; the end of the parser's document, where it is known from now on.
    Withholds(Option<Span>),
    /// The parser leaves, and nothing is given.
    Leaves,
    /// The parser leaves, and this end of the stream is given.
    Ends((Event<'input>, Span)),
    /// The parser leaves, and this is refused.
    Fails(ScanError),
}

/// What the event is to a stack.
pub fn part_of(event: &Event<'_>) -> Part
    ensures { result ≡ spec.part_of (event_kind event.now) }
{
    match event {
        Event::StreamStart | Event::DocumentStart(_, _) => Part::Start,
        Event::DocumentEnd => Part::DocumentEnd,
        Event::StreamEnd => Part::StreamEnd,
        Event::Comment(_, _) => Part::Comment,
        _ => Part::Content,
    }
}

/// The end of a stream that no text has.
pub fn bare_end<'input>() -> (Event<'input>, Span)
    ensures { result ≡ spec.bare_end }
{
    (Event::StreamEnd, Span::empty(Marker::new(0, 1, 0)))
}

/// What comes of an event that isn't given: here alone it is dropped.
fn without<'input>(turn: Turn<'input>, _event: (Event<'input>, Span)) -> Turn<'input>
    ensures { result ≡ turn.entry }
{
    turn
}

/// What comes of an event.
fn turn_on<'input>(
    is_bottom: bool,
    emits_comments: bool,
    ended: Option<Span>,
    event: (Event<'input>, Span),
) -> Turn<'input>
    ensures { result ≡ spec.turn_on is_bottom emits_comments ended event.entry
        (spec.part_of (event_kind event.entry.0)) }
{
    let part = part_of(&event.0);
    match (part, ended) {
        (Part::StreamEnd, _) if is_bottom => Turn::Ends(event),
        (Part::StreamEnd, _) => without(Turn::Leaves, event),
        (Part::Comment, _) if emits_comments => Turn::Gives(event),
        (Part::Comment, ended) => without(Turn::Withholds(ended), event),
        (_, Some(end)) => {
            let kind = ErrorKind::MultipleDocumentsUnsupported;
            without(Turn::Fails(ScanError::from_kind(end.start, kind)), event)
        }
        (Part::Start, None) if !is_bottom => without(Turn::Withholds(None), event),
        (Part::DocumentEnd, None) if !is_bottom => {
            without(Turn::Withholds(Some(event.1)), event)
        }
        (_, None) => Turn::Gives(event),
    }
}

/// What comes of a step.
pub fn turn_of<'input>(
    is_bottom: bool,
    emits_comments: bool,
    ended: Option<Span>,
    next: Option<Result<(Event<'input>, Span), ScanError>>,
) -> Turn<'input>
    ensures { result ≡ spec.turn_of is_bottom emits_comments ended next.entry }
{
    match next {
        None if is_bottom => Turn::Ends(bare_end()),
        None => Turn::Leaves,
        Some(Err(error)) => Turn::Fails(error),
        Some(Ok(event)) => turn_on(is_bottom, emits_comments, ended, event),
    }
}
