//! How far events are sent.
ghost use Rattle.std.specs.Prelude.{◌≡◌};
ghost use Rattle.granit_event.specs.Events.{event_kind};
ghost use Rattle.granit_receivers.specs.Sending as spec;

use granit_event::Event;

/// Whether it is the last event that is sent: the end of the stream, or of a document where one is all that is wanted.
pub fn is_last(event: &Event<'_>, multi: bool) -> bool
    ensures { result ≡ spec.is_last multi (event_kind event.now) }
{
    match event {
        Event::StreamEnd => true,
        Event::DocumentEnd => !multi,
        _ => false,
    }
}
