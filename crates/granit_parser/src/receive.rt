//! The events of an input, sent to a receiver.
ghost use Rattle.std.specs.Prelude.{◌≡◌, None, Some, false, true, IfErr, IfSome};
ghost use Rattle.granit_cursor.specs.Reading.{GoesOnward};
ghost use Rattle.granit_error.specs.FaultKind.{NoMemory as OutOfMemory};
ghost use Rattle.granit_error.specs.Refused.{Refused};
ghost use Rattle.granit_parser.specs.Parsing.{IsOver, StandsAt, StarvedBy};
ghost use Rattle.granit_parser.specs.Receiving.{CallsLeave, FirstCall, GivesFirst, KeepsRefusal, KeepsScan, Loads};
ghost use Rattle.granit_parser.specs.Receiving.{LoadsRest, TookBy, Tries, TriesRest, UnlessRefused, WantsOnly, scanned};
ghost use Rattle.granit_parser.specs.Recovering.{ForOpen};
ghost use Rattle.granit_receivers.specs.Kept.{CountsErrors, GivesAgain, KeptAgain, ScansAgain};
ghost use Rattle.granit_sourced.specs.Sources.{IfUnseen, MovesUnless, TellsError, TellsMet};
ghost use Rattle.granit_steps.specs.Steps.{StepState};

use crate::parser::Parser;
use granit_base::{NoMemory, Span};
use granit_error::ScanError;
use granit_event::Event;
use granit_input::BorrowedInput;
use granit_receivers::{
    SpannedEventReceiver, TryLoadError, TrySpannedEventReceiver, is_last, kept,
};

impl<'input, T: BorrowedInput<'input>> Parser<'input, T> {
    /// Sends the next events to a receiver in order: those of the whole input with `multi`, else up to the end of a
    /// document. Where the stream has ended, its end is sent once more. Where a refusal was given, nothing is sent.
    ///
    /// # Errors
    ///
    /// As `next_event`, behind the events that were sent, the first error of the input's source too, exactly where one
    /// was met; or what was refused before, again.
    pub fn load<R: SpannedEventReceiver<'input>>(
        &mut self,
        recv: &mut R,
        multi: bool,
    ) -> Result<(), ScanError>
        ensures known { (m : StepState) → StandsAt T.unread self.old m
            → Loads T.unread T.origin self.old.stepper.scanner.options multi m
            (TookBy R.taken R.spans recv.old recv.new) self.new result }
        ensures calls { ForOpen T.unread self.old (CallsLeave T.unread T.origin self.old.stepper.scanner.options multi
            (TookBy R.taken R.spans recv.old recv.new) (Some result) self.new) }
        ensures again { IfSome self.old.given (λ e. GivesAgain e result × (recv.new ≡ recv.old)
            × (self.new ≡ self.old)) }
        ensures source { IfUnseen self.old.peeked (TellsError T.origin self.old.stepper (Some result)
            self.new.stepper.scanner.cursor) }
        ensures peeked { self.new.peeked ≡ None }
        ensures answered { ForOpen T.unread self.old (λ c. UnlessRefused (Some result) (self.new.answered ≡ false)) }
        ensures given { self.old.given ≡ None → KeepsRefusal result self.new.given }
        ensures memory { self.old.given ≡ None → (self.old.starved ≡ false)
            × WantsOnly self.new.starved (TookBy R.taken R.spans recv.old recv.new) (Some result) }
        ensures options { self.new.stepper.scanner.options ≡ self.old.stepper.scanner.options }
        ensures renumbered { self.new.stepper.renumbered ≡ self.old.stepper.renumbered }
        ensures moves { MovesUnless T.left T.origin (Some result) self.old.stepper.scanner.cursor
            self.new.stepper.scanner.cursor }
        ensures onward { GoesOnward T.unread self.old.stepper.scanner.cursor self.new.stepper.scanner.cursor }
    {
        if let Some(error) = self.given_again() {
            return Err(error);
        }
        let (event, span) = self.first_event()?;
        let last = is_last(&event, multi);
        recv.on_event(event, span);
        if last {
            return Ok(());
        }
        self.load_rest(recv, multi)
    }

    /// Sends the next events behind the first.
    fn load_rest<R: SpannedEventReceiver<'input>>(
        &mut self,
        recv: &mut R,
        multi: bool,
    ) -> Result<(), ScanError>
        ensures known { (m : StepState) → StandsAt T.unread self.old m
            → LoadsRest T.unread T.origin self.old.stepper.scanner.options multi m
            (TookBy R.taken R.spans recv.old recv.new) self.new result }
        ensures calls { ForOpen T.unread self.old (CallsLeave T.unread T.origin self.old.stepper.scanner.options multi
            (TookBy R.taken R.spans recv.old recv.new) (Some result) self.new) }
        ensures source { self.old.peeked ≡ None → TellsMet T.origin self.old.stepper.scanner.cursor (Some result)
            self.new.stepper.scanner.cursor }
        ensures peeked { self.new.peeked ≡ None }
        ensures answered { UnlessRefused (Some result) (self.old.answered ≡ false → self.new.answered ≡ false) }
        ensures given { self.old.given ≡ None → KeepsRefusal result self.new.given }
        ensures memory { WantsOnly self.new.starved (TookBy R.taken R.spans recv.old recv.new) (Some result) }
        ensures options { self.new.stepper.scanner.options ≡ self.old.stepper.scanner.options }
        ensures renumbered { self.new.stepper.renumbered ≡ self.old.stepper.renumbered }
        ensures moves { MovesUnless T.left T.origin (Some result) self.old.stepper.scanner.cursor
            self.new.stepper.scanner.cursor }
        ensures onward { GoesOnward T.unread self.old.stepper.scanner.cursor self.new.stepper.scanner.cursor }
    {
        'events: for _sent in 0..u64::MAX {
            match self.next_event() {
                None => return Ok(()),
                Some(Err(error)) => return Err(error),
                Some(Ok((event, span))) => {
                    let last = is_last(&event, multi);
                    recv.on_event(event, span);
                    if last {
                        return Ok(());
                    }
                }
            }
        }
        Err(self.run_out())
    }

    /// Sends the next events to a receiver that may refuse one, which is then the last. All else is as with `load`.
    ///
    /// # Errors
    ///
    /// As `load`, and what the receiver answered.
    pub fn try_load<R: TrySpannedEventReceiver<'input>>(
        &mut self,
        recv: &mut R,
        multi: bool,
    ) -> Result<(), TryLoadError<R::Error>>
        ensures known { (m : StepState) → StandsAt T.unread self.old m
            → Tries T.unread T.origin self.old.stepper.scanner.options multi m
            (TookBy R.taken R.spans recv.old recv.new) self.new result }
        ensures calls { ForOpen T.unread self.old (CallsLeave T.unread T.origin self.old.stepper.scanner.options multi
            (TookBy R.taken R.spans recv.old recv.new) (scanned result) self.new) }
        ensures again { IfSome self.old.given (λ e. ScansAgain e result × (recv.new ≡ recv.old)
            × (self.new ≡ self.old)) }
        ensures source { IfUnseen self.old.peeked (TellsError T.origin self.old.stepper (scanned result)
            self.new.stepper.scanner.cursor) }
        ensures peeked { self.new.peeked ≡ None }
        ensures answered { ForOpen T.unread self.old (λ c. UnlessRefused (scanned result) (self.new.answered ≡ false)) }
        ensures given { self.old.given ≡ None → KeepsScan result self.new.given }
        ensures errors { CountsErrors (R.errors recv.old) (R.errors recv.new) result }
        ensures memory { self.old.given ≡ None → (self.old.starved ≡ false)
            × WantsOnly self.new.starved (TookBy R.taken R.spans recv.old recv.new) (scanned result) }
        ensures options { self.new.stepper.scanner.options ≡ self.old.stepper.scanner.options }
        ensures renumbered { self.new.stepper.renumbered ≡ self.old.stepper.renumbered }
        ensures moves { MovesUnless T.left T.origin (scanned result) self.old.stepper.scanner.cursor
            self.new.stepper.scanner.cursor }
        ensures onward { GoesOnward T.unread self.old.stepper.scanner.cursor self.new.stepper.scanner.cursor }
    {
        if let Some(error) = self.given_again() {
            return Err(TryLoadError::Scan(error));
        }
        let (event, span) = self.first_event()?;
        let last = is_last(&event, multi);
        if let Err(error) = recv.on_event(event, span) {
            return Err(TryLoadError::Receiver(error));
        }
        if last {
            return Ok(());
        }
        self.try_rest(recv, multi)
    }

    /// Sends the next events behind the first to a receiver that may refuse one.
    fn try_rest<R: TrySpannedEventReceiver<'input>>(
        &mut self,
        recv: &mut R,
        multi: bool,
    ) -> Result<(), TryLoadError<R::Error>>
        ensures known { (m : StepState) → StandsAt T.unread self.old m
            → TriesRest T.unread T.origin self.old.stepper.scanner.options multi m
            (TookBy R.taken R.spans recv.old recv.new) self.new result }
        ensures calls { ForOpen T.unread self.old (CallsLeave T.unread T.origin self.old.stepper.scanner.options multi
            (TookBy R.taken R.spans recv.old recv.new) (scanned result) self.new) }
        ensures source { self.old.peeked ≡ None → TellsMet T.origin self.old.stepper.scanner.cursor (scanned result)
            self.new.stepper.scanner.cursor }
        ensures peeked { self.new.peeked ≡ None }
        ensures answered { UnlessRefused (scanned result) (self.old.answered ≡ false → self.new.answered ≡ false) }
        ensures given { self.old.given ≡ None → KeepsScan result self.new.given }
        ensures errors { CountsErrors (R.errors recv.old) (R.errors recv.new) result }
        ensures memory { WantsOnly self.new.starved (TookBy R.taken R.spans recv.old recv.new) (scanned result) }
        ensures options { self.new.stepper.scanner.options ≡ self.old.stepper.scanner.options }
        ensures renumbered { self.new.stepper.renumbered ≡ self.old.stepper.renumbered }
        ensures moves { MovesUnless T.left T.origin (scanned result) self.old.stepper.scanner.cursor
            self.new.stepper.scanner.cursor }
        ensures onward { GoesOnward T.unread self.old.stepper.scanner.cursor self.new.stepper.scanner.cursor }
    {
        'events: for _tried in 0..u64::MAX {
            match self.next_event() {
                None => return Ok(()),
                Some(Err(error)) => return Err(TryLoadError::Scan(error)),
                Some(Ok((event, span))) => {
                    let last = is_last(&event, multi);
                    if let Err(refused) = recv.on_event(event, span) {
                        return Err(TryLoadError::Receiver(refused));
                    }
                    if last {
                        return Ok(());
                    }
                }
            }
        }
        Err(TryLoadError::Scan(self.run_out()))
    }

    /// What was refused before, again.
    fn given_again(&self) -> Option<ScanError>
        ensures again { KeptAgain self.now.given result }
        ensures over { IfSome result (λ e. IsOver self.now) }
        ensures starved { StarvedBy self.now.starved self.now.given }
    {
        match &self.given {
            None => None,
            Some(error) => Some(kept(self.alloc, error)),
        }
    }

    /// The first event to be sent: the next one, or the end of the stream once more.
    fn first_event(&mut self) -> Result<(Event<'input>, Span), ScanError>
        ensures known { (m : StepState) → StandsAt T.unread self.old m → GivesFirst T.unread T.origin self.new
            self.old.stepper.scanner.options m result }
        ensures calls { ForOpen T.unread self.old (FirstCall T.unread T.origin result self.new) }
        ensures source { IfUnseen self.old.peeked (TellsError T.origin self.old.stepper (Some result)
            self.new.stepper.scanner.cursor) }
        ensures peeked { self.new.peeked ≡ None }
        ensures answered { ForOpen T.unread self.old (λ c. UnlessRefused (Some result) (self.new.answered ≡ false)) }
        ensures given { self.old.given ≡ None → KeepsRefusal result self.new.given }
        ensures memory { IfErr result (λ e. e.kind ≡ OutOfMemory → self.new.starved ≡ true) }
        ensures options { self.new.stepper.scanner.options ≡ self.old.stepper.scanner.options }
        ensures renumbered { self.new.stepper.renumbered ≡ self.old.stepper.renumbered }
        ensures moves { MovesUnless T.left T.origin (Some result) self.old.stepper.scanner.cursor
            self.new.stepper.scanner.cursor }
        ensures onward { GoesOnward T.unread self.old.stepper.scanner.cursor self.new.stepper.scanner.cursor }
    {
        match self.next_event() {
            None => Ok((Event::StreamEnd, Span::empty(self.stepper.mark()))),
            Some(Ok(event)) => Ok(event),
            Some(Err(error)) => Err(error),
        }
    }

    /// Gives nothing more, for want of memory.
    pub(crate) fn run_out(&mut self) -> ScanError
        ensures kind { result.kind ≡ OutOfMemory }
        ensures over { IsOver self.new }
        ensures given { (e : Refused) × (self.new.given ≡ Some e) × (e.kind ≡ OutOfMemory) }
        ensures same { self.new.stepper.scanner ≡ self.old.stepper.scanner }
        ensures renumbered { self.new.stepper.renumbered ≡ self.old.stepper.renumbered }
    {
        self.forget_seen();
        self.stepper.stop();
        drop(self.given.replace(ScanError::from(NoMemory)));
        ScanError::from(NoMemory)
    }
}
