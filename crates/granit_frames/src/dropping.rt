//! A document is dropped, and what waits is looked at.
ghost use Rattle.std.specs.Prelude.{◌≡◌, ◌++◌, [], length, slice_get, IsOk, OnOk};
ghost use Rattle.std.specs.Option.{option_copied, option_map};
ghost use Rattle.granit_event.specs.Events.{plain_event, plain_events};
ghost use Rattle.granit_machine.specs.Frames.{parser_start};

use crate::state::ParserState;
use granit_base::{Marker, NoMemory, Span};
use granit_event::Event;
use std::alloc::Global;
use std::collections::VecDeque;
use std::mem;

impl<'input> ParserState<'input> {
    /// Before a document, with what is told of the last event, and so many anchors read: all else goes but for the
    /// handles that stay over documents.
    pub fn drop_document(&mut self, alloc: Global, last_end: Marker, count: usize)
        ensures { self.new ≡ record (parser_start last_end) { count = count; kept = self.old.kept } }
    {
        let mut new = ParserState::new(alloc, last_end);
        new.count = count;
        mem::swap(&mut new.kept, &mut self.kept);
        *self = new;
    }

    /// How many anchors were read.
    pub fn anchor_count(&self) -> usize
        ensures { result ≡ self.now.count }
    {
        self.count
    }

    /// How many events weren't taken yet.
    pub fn event_count(&self) -> usize
        ensures { result ≡ length self.now.given }
    {
        self.given.len()
    }

    /// The event behind so many others that weren't taken yet.
    pub fn event(&self, older: usize) -> Option<&(Event<'input>, Span)>
        ensures { option_map plain_event (option_copied result) ≡ slice_get self.now.given older }
    {
        self.given.get(older)
    }

    /// The events that weren't taken yet; none is left.
    pub fn take_events(&mut self, alloc: Global) -> VecDeque<(Event<'input>, Span)>
        ensures taken { plain_events result.items ≡ self.old.given }
        ensures rest { self.new ≡ record self.old { given = [] } }
    {
        mem::replace(&mut self.given, VecDeque::new(alloc))
    }

    /// No event is left that wasn't taken yet.
    pub fn drop_events(&mut self)
        ensures { self.new ≡ record self.old { given = [] } }
    {
        self.given.clear();
    }

    /// Events come before those that weren't taken yet.
    ///
    /// # Errors
    ///
    /// `NoMemory` alone, and where all were taken, none at all.
    pub fn put_before(&mut self, events: VecDeque<(Event<'input>, Span)>) -> Result<(), NoMemory>
        ensures put { OnOk result (self.new
            ≡ record self.old { given = plain_events events.entry.items ++ self.old.given }) }
        ensures memory { self.old.given ≡ [] → IsOk result }
    {
        let mut events = events;
        events.append(&mut self.given)?;
        self.given = events;
        Ok(())
    }

    /// Only these events weren't taken yet.
    pub fn set_events(&mut self, events: VecDeque<(Event<'input>, Span)>)
        ensures { self.new ≡ record self.old { given = plain_events events.entry.items } }
    {
        self.given = events;
    }
}
