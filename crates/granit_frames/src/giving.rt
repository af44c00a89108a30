//! How events are given: behind held comments, and with the properties of their node.
ghost use Rattle.std.specs.Prelude.{◌≡◌, ◌-◌, ◌==◌, ◌++◌, ◌∷◌, [], false, not, None, length, drop};
ghost use Rattle.std.specs.Prelude.{slice_get, IsOk, OnOk};
ghost use Rattle.std.specs.Option.{option_map};
ghost use Rattle.std.specs.VecDeque.{deque_items};
ghost use Rattle.granit_error.specs.OptionsView.{options_of};
ghost use Rattle.granit_event.specs.Events.{event_kind, plain_event, plain_events};
ghost use Rattle.granit_frames.specs.StateViews.{has_properties, held_items};
ghost use Rattle.granit_frames.specs.Wanting.{WantsToGive};
ghost use Rattle.granit_machine.specs.Giving as giving;
ghost use Rattle.granit_node_properties.specs.PropertyViews.{anchor_view, properties_view, bears};

use crate::state::ParserState;
use granit_base::{Marker, NoMemory, Span};
use granit_error::Options;
use granit_event::Event;
use granit_node_properties::{
    NodeAnchor, NodeProperties, anchor_number, bear, null_event, span_with_tag, tag_value,
};
use std::collections::VecDeque;

// Events and held comments.
impl<'input> ParserState<'input> {
    /// One more event of this step.
    pub fn add_event(&mut self, event: Event<'input>, span: Span) -> Result<(), NoMemory>
        ensures leaves { OnOk result (self.new
            ≡ record self.old { given = self.old.given ++ plain_event (event.entry, span) ∷ [] }) }
        ensures kept { self.new.kept ≡ self.old.kept }
    {
        if self.given.reserve(1).is_err() {
            drop(event);
            return Err(NoMemory);
        }
        self.given.push_back_reserved((event, span));
        Ok(())
    }

    /// Gives the held comments.
    #[inline(always)]
    pub fn flush(&mut self) -> Result<(), NoMemory>
        ensures leaves { OnOk result (self.new ≡ giving.flush self.old) }
        ensures kept { self.new.kept ≡ self.old.kept }
        ensures memory { self.old.waiting ≡ None → IsOk result }
        ensures eventless { WantsToGive result self.old (giving.flush self.old) }
    {
        match &self.waiting {
            None => Ok(()),
            Some(_) => self.flush_held(),
        }
    }

    /// The same where something waits.
    #[inline(always)]
    fn flush_held(&mut self) -> Result<(), NoMemory>
        ensures leaves { OnOk result (self.new ≡ giving.flush self.old) }
        ensures kept { self.new.kept ≡ self.old.kept }
        ensures eventless { WantsToGive result self.old (giving.flush self.old) }
    {
        if self.holds_comments() {
            return self.flush_comments();
        }
        self.waiting = None;
        Ok(())
    }

    /// Whether comments were held; mostly none was, and what waits isn't moved.
    fn holds_comments(&self) -> bool
        ensures { result ≡ false → giving.flush self.now ≡ record self.now { waiting = None } }
    {
        match &self.waiting {
            None => false,
            Some(waiting) => waiting.held.is_some(),
        }
    }

    /// Gives the comments that were held.
    #[inline(never)]
    fn flush_comments(&mut self) -> Result<(), NoMemory>
        ensures leaves { OnOk result (self.new ≡ giving.flush self.old) }
        ensures kept { self.new.kept ≡ self.old.kept }
        ensures eventless { WantsToGive result self.old (giving.flush self.old) }
    {
        match self.waiting.take() {
            None => Ok(()),
            Some(waiting) => self.give_held(waiting.held),
        }
    }

    /// Gives comments that were held, where one was.
    fn give_held(&mut self, held: Option<VecDeque<(Event<'input>, Span)>>) -> Result<(), NoMemory>
        ensures leaves { OnOk result (self.new
            ≡ record self.old {
              given = self.old.given ++
                  plain_events (held_items (option_map deque_items held.entry));
            }) }
        ensures kept { self.new.kept ≡ self.old.kept }
        ensures memory { held.entry ≡ None → IsOk result }
        ensures eventless { WantsToGive result self.old (record self.old {
          given = self.old.given ++
              plain_events (held_items (option_map deque_items held.entry));
        }) }
    {
        if let Some(mut held) = held {
            self.given.append(&mut held)?;
        }
        Ok(())
    }

    /// Gives an event.
    pub(crate) fn put(&mut self, event: Event<'input>, span: Span) -> Result<(), NoMemory>
        ensures leaves { OnOk result (self.new ≡ giving.put (plain_event (event.entry, span)) self.old) }
        ensures kept { self.new.kept ≡ self.old.kept }
    {
        self.last_end = span.end;
        self.add_event(event, span)
    }

    /// Gives an event behind the held comments.
    #[inline(always)]
    pub fn give(&mut self, event: Event<'input>, span: Span) -> Result<(), NoMemory>
        ensures leaves { OnOk result (self.new ≡ giving.give (plain_event (event.entry, span)) self.old) }
        ensures kept { self.new.kept ≡ self.old.kept }
    {
        // no call between: each would copy the event twice
        if self.flush().is_err() {
            drop(event);
            return Err(NoMemory);
        }
        self.last_end = span.end;
        if self.given.reserve(1).is_err() {
            drop(event);
            return Err(NoMemory);
        }
        self.given.push_back_reserved((event, span));
        Ok(())
    }

    /// Gives an empty node behind the held comments.
    pub fn give_null(&mut self, mark: Marker) -> Result<(), NoMemory>
        ensures leaves { OnOk result (self.new ≡ giving.give (giving.null_at mark) self.old) }
        ensures kept { self.new.kept ≡ self.old.kept }
    {
        self.give(null_event(), Span::empty(mark))
    }

    /// Whether an event was given and not taken.
    pub fn has_event(&self) -> bool
        ensures { result ≡ not (length self.now.given == 0) }
    {
        !self.given.is_empty()
    }

    /// Takes the first of the events that were given.
    pub fn pop_event(&mut self) -> Option<(Event<'input>, Span)>
        ensures first { option_map plain_event result ≡ slice_get self.old.given 0 }
        ensures rest { self.new ≡ record self.old { given = drop 1 self.old.given } }
    {
        self.given.pop_front()
    }

    /// Gives the empty node of what waits, before the held comments.
    pub fn give_empty(&mut self) -> Result<(), NoMemory>
        ensures leaves { OnOk result (self.new ≡ giving.give_empty self.old) }
        ensures kept { self.new.kept ≡ self.old.kept }
        ensures memory { self.old.waiting ≡ None → IsOk result }
        ensures eventless { WantsToGive result self.old (giving.give_empty self.old) }
    {
        match &self.waiting {
            None => Ok(()),
            Some(waiting) => {
                let mark = waiting.at;
                self.put(null_event(), Span::empty(mark))?;
                self.flush()
            }
        }
    }
}

// Events of nodes.
impl<'input> ParserState<'input> {
    /// The properties of the node that begins, or none up to a place.
    #[tactic(auto, using(crate::proofs::FrameLemmas::bare_frames, crate::proofs::FrameLemmas::none_on_top))]
    pub(crate) fn take_properties(&mut self, end: Marker) -> NodeProperties<'input>
        ensures properties { properties_view result ≡ giving.properties_on self.old.frames end }
        ensures below { self.new ≡ record self.old { frames = giving.below_properties self.old.frames } }
        ensures bare { has_properties self.new.frames ≡ false }
    {
        let Some(properties) = self.properties.take() else {
            return NodeProperties {
                anchor: None,
                tag: None,
                end,
            };
        };
        properties
    }

    /// The column that the first event of a key of a block mapping tells, else its own.
    #[inline(always)]
    fn key_indent(&self, own: Option<usize>) -> Option<usize>
        ensures { result ≡ giving.key_indent self.now.frames own }
    {
        match &self.properties {
            Some(_) => own,
            None => self.frames.key_indent(own),
        }
    }

    /// The event of an anchor, where such are asked for.
    fn tell_anchor(
        &mut self,
        options: &Options,
        anchor: Option<NodeAnchor<'input>>,
    ) -> Result<(), NoMemory>
        ensures leaves { OnOk result (self.new
            ≡ giving.tell_anchor (options_of options.now) (option_map anchor_view anchor.entry) self.old) }
        ensures kept { self.new.kept ≡ self.old.kept }
        ensures none { anchor.entry ≡ None → IsOk result }
        ensures unasked { (options_of options.now).emit_anchor_events ≡ false → IsOk result }
    {
        match anchor {
            None => Ok(()),
            Some(anchor) => {
                if options.emit_anchor_events {
                    let span = Span::new(anchor.start, anchor.end);
                    return self.add_event(Event::Anchor(anchor.number, anchor.name), span);
                }
                Ok(())
            }
        }
    }

    #[inline(never)]
    fn node_event_by(
        &mut self,
        options: &Options,
        properties: NodeProperties<'input>,
        mut event: Event<'input>,
        start: Marker,
        end: Marker,
        indent: Option<usize>,
    ) -> Result<(), NoMemory>
        ensures leaves { OnOk result (self.new ≡ giving.node_event_by (options_of options.now)
            (properties_view properties.entry) (bears (event_kind event.entry))
            (record { start = start; end = end }) indent self.old) }
        ensures kept { self.new.kept ≡ self.old.kept }
    {
        let NodeProperties {
            anchor,
            tag,
            end: _,
        } = properties;
        let column = self.key_indent(indent);
        let span = span_with_tag(&tag, start, end, column);
        let number = anchor_number(&anchor);
        bear(&mut event, number, tag_value(tag));
        if self.give(event, span).is_err() {
            drop(anchor);
            return Err(NoMemory);
        }
        self.tell_anchor(options, anchor)
    }

    /// A node's first event with its properties, and its anchor's event.
    #[inline(always)]
    #[tactic(auto, unfolding(granit_machine::specs::Giving::node_event), using(crate::proofs::FrameLemmas::at_node))]
    pub fn node_event(
        &mut self,
        options: &Options,
        event: Event<'input>,
        start: &Marker,
        end: &Marker,
        indent: Option<usize>,
    ) -> Result<(), NoMemory>
        ensures event { OnOk result (self.new ≡ giving.node_event (options_of options.now)
            (bears (event_kind event.entry)) (record { start = start.now; end = end.now }) indent self.old) }
        ensures bare { OnOk result (has_properties self.new.frames ≡ false) }
        ensures kept { self.new.kept ≡ self.old.kept }
    {
        match &self.properties {
            None => self.bare_event(event, start, end, indent),
            Some(_) => {
                let properties = self.take_properties(*end);
                self.node_event_by(options, properties, event, *start, *end, indent)
            }
        }
    }

    /// A node's first event, where no properties stand before it.
    #[inline(always)]
    fn bare_event(
        &mut self,
        mut event: Event<'input>,
        start: &Marker,
        end: &Marker,
        indent: Option<usize>,
    ) -> Result<(), NoMemory>
        ensures leaves { OnOk result (self.new ≡ giving.give (record {
          kind = bears (event_kind event.entry) 0 None;
          span = giving.span_with_tag None (record { start = start.now; end = end.now })
              (giving.key_indent self.old.frames indent);
        }) self.old) }
        ensures kept { self.new.kept ≡ self.old.kept }
    {
        let column = self.key_indent(indent);
        bear(&mut event, 0, None);
        // as `give`, with no call between: it would copy the event twice
        if self.flush().is_err() {
            drop(event);
            return Err(NoMemory);
        }
        self.last_end = *end;
        if self.given.reserve(1).is_err() {
            drop(event);
            return Err(NoMemory);
        }
        let mut span = Span::new(*start, *end);
        span.indent = column;
        self.given.push_back_reserved((event, span));
        Ok(())
    }
}
