//! What was looked at, as far as recovery asks.
ghost use Rattle.std.specs.Prelude.{◌≡◌};
ghost use Rattle.granit_event.specs.Events.{event_kind};
ghost use Rattle.granit_seen.specs.Seeing.{ends_stream, seen_ends_document, seen_kind, seen_starts_document};
ghost use Rattle.granit_seen.specs.Seeing.{seen_tells_document};

use granit_event::Event;

/// What was looked at, as far as recovery asks.
#[derive(Clone, Copy)]
pub enum Seen {
    /// Nothing, or a refusal.
    Nothing,
    /// A comment.
    Comment,
    /// The start of a document.
    DocumentStart,
    /// The end of a document.
    DocumentEnd,
    /// The end of the stream.
    StreamEnd,
    /// Another event.
    Another,
}

/// What an event is, as far as recovery asks.
pub fn seen_of(event: &Event<'_>) -> Seen
    ensures { result ≡ seen_kind (event_kind event.now) }
{
    match event {
        Event::Comment(_, _) => Seen::Comment,
        Event::DocumentStart(_, _) => Seen::DocumentStart,
        Event::DocumentEnd => Seen::DocumentEnd,
        Event::StreamEnd => Seen::StreamEnd,
        _ => Seen::Another,
    }
}

/// Whether that is the start of a document.
pub fn starts(seen: Seen) -> bool
    ensures { result ≡ seen_starts_document seen }
{
    matches!(seen, Seen::DocumentStart)
}

/// Whether that is the end of a document.
pub fn ends(seen: Seen) -> bool
    ensures { result ≡ seen_ends_document seen }
{
    matches!(seen, Seen::DocumentEnd)
}

/// Whether that is the end of the stream.
pub fn ends_stream(seen: Seen) -> bool
    ensures { result ≡ ends_stream seen }
{
    matches!(seen, Seen::StreamEnd)
}

/// Whether what was looked at tells that another document is there.
pub fn tells(seen: Seen) -> bool
    ensures { result ≡ seen_tells_document seen }
{
    matches!(
        seen,
        Seen::DocumentStart | Seen::DocumentEnd | Seen::StreamEnd | Seen::Another
    )
}
