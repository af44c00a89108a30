//! Events that are given once more.
ghost use mir.Syntax.{named};
ghost use Rattle.std.specs.Prelude.{◌≡◌, []};
ghost use Rattle.std.specs.Borrow.{sem};
ghost use Rattle.std.specs.Io.BufRead.{Rests};
ghost use Rattle.granit_event.specs.Events.{event_kind};
ghost use Rattle.granit_event.specs.Helpers.{anchor_of};
ghost use Rattle.granit_receivers.specs.Sending.{shown};
ghost use Rattle.granit_replay.specs.Replaying.{ReplayPeeksAs, behind_next, first_of, next_of, raised_over};
ghost use Rattle.granit_replay.specs.contracts.replay.ReplayParser.{the_row};

use granit_base::Span;
use granit_error::ScanError;
use granit_event::Event;
use granit_receivers::ParseResult;
use std::collections::VecDeque;
use std::iter::FusedIterator;
use std::marker::Model;

/// A list of events, given in order, one for each call. Contracts see the events that are left, and the number that a
/// next anchor gets.
#[derive(Drop)]
pub struct ReplayParser<'input> {
    events: VecDeque<(Event<'input>, Span)>,
    anchor_offset: usize,
}

impl<'input> Model for ReplayParser<'input> {
    ghost use Rattle.granit_replay.specs.Replaying.{Replay};

    ghost Value = { Replay };

    ghost view = { λ p. record { events = p.events.items; anchor_offset = p.anchor_offset } };
}

/// The number of a next anchor behind an event: past the event's own, held at the greatest number.
fn raised(offset: usize, event: &Event<'_>) -> usize
    ensures { result ≡ raised_over (anchor_of (event_kind event.now)) offset }
{
    match event.anchor_id() {
        None => offset,
        Some(id) => offset.max(id.saturating_add(1)),
    }
}

impl<'input> ReplayParser<'input> {
    /// Before these events, with this number for a next anchor.
    pub fn new(events: Vec<(Event<'input>, Span)>, anchor_offset: usize) -> ReplayParser<'input>
        ensures { result ≡ record { events = events.entry.items; anchor_offset = anchor_offset } }
    {
        ReplayParser {
            events: VecDeque::from(events),
            anchor_offset,
        }
    }

    /// The number that a next anchor gets: past those of all anchors that were given.
    pub fn anchor_offset(&self) -> usize
        ensures { result ≡ self.now.anchor_offset }
    {
        self.anchor_offset
    }

    /// Sets the number that a next anchor gets.
    pub fn set_anchor_offset(&mut self, offset: usize)
        ensures { self.new ≡ record self.old { anchor_offset = offset } }
    {
        self.anchor_offset = offset;
    }

    /// The next event and where it stands; none where all were given. The number of a next anchor rises past its own.
    pub fn next_event(&mut self) -> Option<ParseResult<'input>>
        ensures value { result ≡ next_of self.old }
        ensures after { self.new ≡ behind_next self.old }
    {
        match self.take() {
            None => None,
            Some(event) => Some(Ok(event)),
        }
    }

    /// The next event.
    pub(crate) fn take(&mut self) -> Option<(Event<'input>, Span)>
        ensures value { result ≡ first_of self.old.events }
        ensures after { self.new ≡ behind_next self.old }
    {
        match self.events.pop_front() {
            None => None,
            Some((event, span)) => {
                self.anchor_offset = raised(self.anchor_offset, &event);
                Some((event, span))
            }
        }
    }

    /// What the next call of `next_event` gives, which gives it all the same.
    pub fn peek(&mut self) -> Option<Result<&(Event<'input>, Span), &ScanError>>
        ensures* { sem 𝓛 (Rests (the_row (record { mir = named 1; lft = [] })) self.entry (λ new.
            ReplayPeeksAs self.old (shown result) new)) }
    {
        self.look()
    }

    /// The first event that is left.
    fn look(&self) -> Option<Result<&(Event<'input>, Span), &ScanError>>
        ensures { shown result ≡ next_of self.now }
    {
        match self.events.front() {
            None => None,
            Some(event) => Some(Ok(event)),
        }
    }
}

/// The events in order, as `next_event` gives them.
impl<'input> Iterator for ReplayParser<'input> {
    type Item = ParseResult<'input>;

    ghost use Rattle.std.specs.Prelude.{length};
    ghost use Rattle.std.specs.Iterator.{at_most};

    ghost next_gives = { λ p r q. (r ≡ next_of p) × (q ≡ behind_next p) };

    ghost remaining = { λ p. at_most (length p.events) };

    fn next(&mut self) -> Option<ParseResult<'input>> {
        self.next_event()
    }
}

impl<'input> FusedIterator for ReplayParser<'input> {}
