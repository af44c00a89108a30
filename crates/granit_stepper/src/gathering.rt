//! The events that come next, behind those that wait.
ghost use Rattle.std.specs.Prelude.{◌≡◌, ◌-◌, ◌∷◌, [], true, false, None, Some, Ok, length, IfErr, OnOk};
ghost use Rattle.granit_cursor.specs.Reading.{Moves};
ghost use Rattle.granit_error.specs.FaultKind as faults;
ghost use Rattle.granit_event.specs.Events.{plain_event, plain_events};
ghost use Rattle.granit_refused.specs.Answered.{answered, why};
ghost use Rattle.granit_restart.specs.Skipping.{with_pending};
ghost use Rattle.granit_stepper.specs.Gathering.{GathersBehind};
ghost use Rattle.granit_stepper.specs.Numbers.{RefusesNumber};
ghost use Rattle.granit_stepper.specs.Stepping.{Keeps, StandsIn};
ghost use Rattle.granit_stepper.specs.TurnMemory.{AnswersFree};
ghost use Rattle.granit_stepper.specs.Waiting.{StaysTaken};
ghost use Rattle.granit_steps.specs.Steps.{StepState};

use crate::stepper::Stepper;
use granit_base::{Marker, NoMemory, Span};
use granit_error::ScanError;
use granit_event::Event;
use granit_input::BorrowedInput;
use granit_refused::{Refused, refuse, take_fault};
use std::alloc::Global;
use std::collections::VecDeque;
use std::mem;

impl<'input, T: BorrowedInput<'input>> Stepper<'input, T> {
    /// The events that come next wait behind those that wait already; false where none comes, as behind the end of the
    /// stream, and behind an error.
    ///
    /// # Errors
    ///
    /// As `next_event`, before the events that wait are given.
    pub fn next_events(
        &mut self,
        alloc: Global,
        fault: &mut Option<ScanError>,
    ) -> Result<bool, Refused>
        ensures known { (m : StepState) → StandsIn T.unread self.old m → self.old.first ≡ None
            → GathersBehind (answered fault.new result) (StandsIn T.unread self.new) self.old.scanner.options m
            (RefusesNumber self.old.renumbered self.old.scanner.options (with_pending [] m)) }
        ensures first { self.new.first ≡ self.old.first }
        ensures failed { IfErr result (λ r. self.new.failed ≡ true) }
        ensures lost { IfErr (answered fault.new result) (λ e. e.kind ≡ faults.NoMemory → self.new.refusal ≡ None) }
        ensures ended { StaysTaken false (answered fault.new result) self.old self.new }
        ensures at_once { self.old.failed ≡ false → AnswersFree (answered fault.new result) self.old }
        ensures over { self.old.failed ≡ true → (result ≡ Ok false) × (self.new ≡ self.old) }
        ensures options { self.new.scanner.options ≡ self.old.scanner.options }
        ensures renumbered { self.new.renumbered ≡ self.old.renumbered }
        ensures moves { Moves T.unread T.left T.origin self.old.scanner.cursor self.new.scanner.cursor }
    {
        if self.failed {
            return Ok(false);
        }
        match self.settle_behind(alloc, fault) {
            Ok(more) => Ok(more),
            Err(refused) => Err(self.fail_by(fault, refused)),
        }
    }

    /// The same as `fail`, by the fault that is kept.
    fn fail_by(&mut self, fault: &mut Option<ScanError>, refused: Refused) -> Refused
        ensures told { why fault.new result ≡ why fault.old refused }
        ensures lost { (why fault.new result).kind ≡ faults.NoMemory → self.new.refusal ≡ None }
        ensures rest { self.new ≡ record self.old { failed = true; refusal = self.new.refusal } }
    {
        let error = take_fault(refused, fault);
        self.fail(&error);
        refuse(fault, error)
    }

    /// Turns until an event waits behind those that wait already, or nothing is left; whether one does.
    fn settle_behind(
        &mut self,
        alloc: Global,
        fault: &mut Option<ScanError>,
    ) -> Result<bool, Refused>
        ensures known { (m : StepState) → StandsIn T.unread self.old m → self.old.first ≡ None
            → GathersBehind (answered fault.new result) (StandsIn T.unread self.new) self.old.scanner.options m
            (RefusesNumber self.new.renumbered self.old.scanner.options (with_pending [] m)) }
        ensures ended { StaysTaken false (answered fault.new result) self.old self.new }
        ensures at_once { AnswersFree (answered fault.new result) self.old }
        ensures keeps { Keeps self.old self.new }
        ensures moves { Moves T.unread T.left T.origin self.old.scanner.cursor self.new.scanner.cursor }
    {
        let waiting = self.event_count();
        // Over an input of which nothing is known no number falls with each turn, so the turns are counted.
        'turns: for _turn in 0..u64::MAX {
            if !self.advance(alloc, fault)? {
                return Ok(false);
            }
            let all = self.event_count();
            if all > waiting {
                return Ok(true);
            }
        }
        Err(Refused::Memory)
    }

    /// How many events wait.
    fn event_count(&self) -> usize
        ensures { result ≡ length self.now.parser.given }
    {
        self.parser.event_count()
    }

    /// An event waits before all others.
    ///
    /// # Errors
    ///
    /// `NoMemory` alone.
    pub fn put_first(&mut self, alloc: Global, event: (Event<'input>, Span)) -> Result<(), NoMemory>
        ensures known { (m : StepState) → StandsIn T.unread self.old m
            → OnOk result (StandsIn T.unread self.new (with_pending (plain_event event.entry ∷ m.pending) m)) }
        ensures first { OnOk result (self.new.first ≡ None) }
        ensures failed { self.new.failed ≡ self.old.failed }
        ensures scanner { self.new.scanner ≡ self.old.scanner }
        ensures renumbered { self.new.renumbered ≡ self.old.renumbered }
    {
        self.tell_start(alloc)?;
        self.put_event(alloc, event)?;
        Ok(())
    }

    /// All that waits, and the start of the stream, if it wasn't told, waits in the room of a list.
    ///
    /// # Errors
    ///
    /// `NoMemory` alone.
    pub fn wait_in(
        &mut self,
        alloc: Global,
        room: Vec<(Event<'input>, Span)>,
    ) -> Result<(), NoMemory>
        ensures known { (m : StepState) → StandsIn T.unread self.old m → OnOk result (StandsIn T.unread self.new m) }
        ensures first { OnOk result (self.new.first ≡ None) }
        ensures failed { self.new.failed ≡ self.old.failed }
        ensures scanner { self.new.scanner ≡ self.old.scanner }
        ensures renumbered { self.new.renumbered ≡ self.old.renumbered }
    {
        self.tell_start(alloc)?;
        self.put_given(room)?;
        Ok(())
    }

    /// What was given and not taken waits in the room of a list.
    fn put_given(&mut self, room: Vec<(Event<'input>, Span)>) -> Result<(), NoMemory>
        ensures same { OnOk result (self.new ≡ self.old) }
        ensures first { self.new.first ≡ self.old.first }
        ensures failed { self.new.failed ≡ self.old.failed }
        ensures scanner { self.new.scanner ≡ self.old.scanner }
        ensures renumbered { self.new.renumbered ≡ self.old.renumbered }
    {
        let mut room = room;
        clear_events(&mut room);
        self.parser.put_before(VecDeque::from(room))?;
        Ok(())
    }

    /// The start of the stream waits as any other event, if it wasn't told.
    fn tell_start(&mut self, alloc: Global) -> Result<(), NoMemory>
        ensures known { (m : StepState) → StandsIn T.unread self.old m → OnOk result (StandsIn T.unread self.new m) }
        ensures first { OnOk result (self.new.first ≡ None) }
        ensures failed { self.new.failed ≡ self.old.failed }
        ensures scanner { self.new.scanner ≡ self.old.scanner }
        ensures renumbered { self.new.renumbered ≡ self.old.renumbered }
    {
        match self.first {
            None => Ok(()),
            Some(start) => self.put_start(alloc, start),
        }
    }

    fn put_start(&mut self, alloc: Global, start: Marker) -> Result<(), NoMemory>
        ensures known { (m : StepState) → StandsIn T.unread self.old m → self.old.first ≡ Some start
            → OnOk result (StandsIn T.unread self.new m) }
        ensures first { OnOk result (self.new.first ≡ None) }
        ensures failed { self.new.failed ≡ self.old.failed }
        ensures scanner { self.new.scanner ≡ self.old.scanner }
        ensures renumbered { self.new.renumbered ≡ self.old.renumbered }
    {
        self.put_event(alloc, (Event::StreamStart, Span::empty(start)))?;
        self.first = None;
        Ok(())
    }

    /// An event waits before those that were given and not taken.
    fn put_event(&mut self, alloc: Global, event: (Event<'input>, Span)) -> Result<(), NoMemory>
        ensures put { OnOk result (self.new ≡ record self.old {
          parser = record (self.old.parser) { given = plain_event event.entry ∷ self.old.parser.given };
        }) }
        ensures first { self.new.first ≡ self.old.first }
        ensures failed { self.new.failed ≡ self.old.failed }
        ensures scanner { self.new.scanner ≡ self.old.scanner }
        ensures renumbered { self.new.renumbered ≡ self.old.renumbered }
    {
        let mut events = VecDeque::new(alloc);
        events.push_back(event)?;
        self.parser.put_before(events)?;
        Ok(())
    }

    /// All events that wait; none does any more.
    pub fn take_waiting(&mut self, alloc: Global) -> VecDeque<(Event<'input>, Span)>
        ensures taken { plain_events result.items ≡ self.old.parser.given }
        ensures rest { self.new ≡ record self.old { parser = record (self.old.parser) { given = [] } } }
    {
        self.parser.take_events(alloc)
    }
}

/// No event is left in a list.
fn clear_events(events: &mut Vec<(Event<'_>, Span)>)
    ensures { events.new.items ≡ [] }
{
    'events: while !events.is_empty() {
        drop_last(events);
    }
}

/// The last event goes; most own nothing, and aren't moved to be dropped.
#[inline(always)]
fn drop_last(events: &mut Vec<(Event<'_>, Span)>)
    ensures { length events.new.items ≡ length events.old.items - 1 }
{
    if last_owns_nothing(events) {
        mem::forget(events.pop());
    } else {
        drop(events.pop());
    }
}

/// Whether nothing is freed where the last event is dropped.
#[inline(always)]
fn last_owns_nothing(events: &[(Event<'_>, Span)]) -> bool {
    match events.last() {
        None => true,
        Some(last) => owns_nothing(&last.0),
    }
}

/// Whether nothing is freed where an event is dropped.
fn owns_nothing(event: &Event<'_>) -> bool {
    match event {
        Event::Scalar(text, _, _, tag) => text.is_borrowed() && tag.is_none(),
        Event::SequenceStart(_, _, tag) => tag.is_none(),
        Event::MappingStart(_, _, tag) => tag.is_none(),
        Event::SequenceEnd => true,
        Event::MappingEnd => true,
        _ => false,
    }
}
