//! All events of an input, gathered.
ghost use Rattle.std.specs.Prelude.{◌≡◌, ◌∷◌, [], None, Some, Ok, true, false, IfErr, IfOk, OnOk};
ghost use Rattle.granit_cursor.specs.Reading.{GoesOnward};
ghost use Rattle.granit_error.specs.Refused.{Refused};
ghost use Rattle.granit_event.specs.Events.{plain_event, plain_events};
ghost use Rattle.granit_input.specs.Origin.{Goes};
ghost use Rattle.granit_parser.specs.Gathering.{GathersAll, GathersSome};
ghost use Rattle.granit_parser.specs.Parsing.{IsOver, StandsAt};
ghost use Rattle.granit_sourced.specs.Gathering.{Gathered};
ghost use Rattle.granit_sourced.specs.Sources.{GoesGiving, GoesUnless};
ghost use Rattle.granit_sourced.specs.Waiting.{GathersNone};
ghost use Rattle.granit_stepper.specs.Waiting.{IsAtEnd};
ghost use Rattle.granit_steps.specs.Steps.{StepState};

use crate::parser::Parser;
use granit_base::Span;
use granit_error::ScanError;
use granit_event::Event;
use granit_input::BorrowedInput;
use granit_sourced::{gather_all, gather_batch};
use std::alloc::Global;

impl<'input, T: BorrowedInput<'input>> Parser<'input, T> {
    /// All events that `next_event` would still give, in order; none behind a refusal that was given. It costs less
    /// than a call for each: an event is moved but once, from where it was made to the list.
    ///
    /// # Errors
    ///
    /// As `next_event`; the events before it are dropped.
    pub fn gather(&mut self, alloc: Global) -> Result<Vec<(Event<'input>, Span)>, ScanError>
        ensures known { (m : StepState) → StandsAt T.unread self.old m
            → GathersAll T.origin self.old.stepper.scanner.options m result (λ v. plain_events v.items) self.new }
        ensures over { IsOver self.old → IfOk result (λ v. v.items ≡ []) × IfErr result (λ e. ⊥) }
        ensures ended { self.old.peeked ≡ None → self.old.stepper.failed ≡ false → IsAtEnd self.old.stepper
            → GathersNone T.origin result (λ v. plain_events v.items) self.new.stepper }
        ensures given { IfErr result (λ e. (kept : Refused) × (self.new.given ≡ Some kept)) }
        ensures renumbered { self.new.stepper.renumbered ≡ self.old.stepper.renumbered }
        ensures goes { IfOk result (λ v. Goes (T.origin self.old.stepper.scanner.cursor.input)
            (T.origin self.new.stepper.scanner.cursor.input)) }
        ensures failed { IfErr result (λ e. GoesGiving (T.origin self.old.stepper.scanner.cursor.input)
            (T.origin self.new.stepper.scanner.cursor.input)) }
        ensures onward { GoesOnward T.unread self.old.stepper.scanner.cursor self.new.stepper.scanner.cursor }
    {
        match self.next_event() {
            None => Ok(Vec::new(alloc)),
            Some(Err(error)) => Err(error),
            Some(Ok(event)) => self.gather_behind(alloc, event),
        }
    }

    /// Some of the events that `next_event` would still give, the next ones, in order, in the place of what a list
    /// held; false where they are the last. The room of the list is used again.
    ///
    /// # Errors
    ///
    /// As `next_event`; the events before it are dropped.
    pub fn gather_some(
        &mut self,
        alloc: Global,
        batch: &mut Vec<(Event<'input>, Span)>,
    ) -> Result<bool, ScanError>
        requires seen { self.old.peeked ≡ None }
        ensures known { (m : StepState) → StandsAt T.unread self.old m
            → GathersSome T.unread T.origin self.old.stepper.scanner.options m result (plain_events batch.new.items)
            self.new }
        ensures over { IsOver self.old → (result ≡ Ok false) × (batch.new.items ≡ []) }
        ensures seen { OnOk result (self.new.peeked ≡ None) }
        ensures given { IfErr result (λ e. (kept : Refused) × (self.new.given ≡ Some kept)) }
        ensures options { self.new.stepper.scanner.options ≡ self.old.stepper.scanner.options }
        ensures renumbered { self.new.stepper.renumbered ≡ self.old.stepper.renumbered }
        ensures goes { IfOk result (λ v. Goes (T.origin self.old.stepper.scanner.cursor.input)
            (T.origin self.new.stepper.scanner.cursor.input)) }
        ensures failed { IfErr result (λ e. GoesGiving (T.origin self.old.stepper.scanner.cursor.input)
            (T.origin self.new.stepper.scanner.cursor.input)) }
        ensures onward { GoesOnward T.unread self.old.stepper.scanner.cursor self.new.stepper.scanner.cursor }
    {
        if self.has_failed() {
            batch.clear();
            return Ok(false);
        }
        match gather_batch(alloc, &mut self.stepper, batch) {
            Ok(more) => {
                self.note_batch(batch.as_slice(), more);
                Ok(more)
            }
            Err(error) => {
                self.keep_refusal(&error);
                Err(error)
            }
        }
    }

    /// Notes where events that are given lead: the last of them tells it, but for comments, or that no more come.
    fn note_batch(&mut self, events: &[(Event<'input>, Span)], more: bool)
        ensures { self.new ≡ record self.old {
          between = self.new.between;
          over = self.new.over;
          answered = self.new.answered;
        } }
    {
        self.over = self.over || !more;
        let mut left = events.len();
        'events: while left > 0 {
            left -= 1;
            let (event, _) = &events[left];
            if !matches!(event, Event::Comment(_, _)) {
                self.between = false;
                self.note_event(event);
                return;
            }
        }
    }

    /// An event that was given, and those behind it.
    fn gather_behind(
        &mut self,
        alloc: Global,
        first: (Event<'input>, Span),
    ) -> Result<Vec<(Event<'input>, Span)>, ScanError>
        requires seen { self.old.peeked ≡ None }
        ensures known { (m : StepState) → Gathered T.unread self.old.stepper.scanner.options m
            (plain_event first.entry ∷ []) self.old.stepper
            → GathersAll T.origin self.old.stepper.scanner.options m result (λ v. plain_events v.items) self.new }
        ensures given { IfErr result (λ e. (kept : Refused) × (self.new.given ≡ Some kept)) }
        ensures renumbered { self.new.stepper.renumbered ≡ self.old.stepper.renumbered }
        ensures goes { GoesUnless (Some result) (T.origin self.old.stepper.scanner.cursor.input)
            (T.origin self.new.stepper.scanner.cursor.input) }
        ensures onward { GoesOnward T.unread self.old.stepper.scanner.cursor self.new.stepper.scanner.cursor }
    {
        match gather_all(alloc, &mut self.stepper, first) {
            Ok(events) => {
                self.over = true;
                Ok(events)
            }
            Err(error) => {
                self.keep_refusal(&error);
                Err(error)
            }
        }
    }
}
