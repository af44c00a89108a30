//! The events of a stack, sent to a receiver.
ghost use Rattle.std.specs.Prelude.{◌≡◌, None, Some, Ok, Err, IfSome};
ghost use Rattle.granit_layers.specs.Sending.{RunsOut, StackLoads, StackTries, failure_of};
ghost use Rattle.granit_receivers.specs.Kept.{CountsErrors, GivesAgain, KeptAgain, ScansAgain};
ghost use Rattle.granit_receivers.specs.Taking.{Took};

use crate::layer::StackedParser;
use crate::layers::Layers;
use granit_base::NoMemory;
use granit_error::ScanError;
use granit_receivers::{
    SpannedEventReceiver, TryLoadError, TrySpannedEventReceiver, is_last, kept,
};

impl<'input, S: StackedParser<'input>> Layers<'input, S> {
    /// Sends the next events to a receiver in order: up to the end of the stream with `multi`, else up to the end of a
    /// document. Behind the end of the stream, and behind a refusal, nothing is sent.
    ///
    /// # Errors
    ///
    /// As `next_event`, behind the events that were sent, or what was refused before, again.
    pub fn load<R: SpannedEventReceiver<'input>>(
        &mut self,
        recv: &mut R,
        multi: bool,
    ) -> Result<(), ScanError>
        ensures sent { failure_of self.old.end ≡ None → StackLoads S.steps S.offset_of S.sets_offset multi
            (Took (record { events = R.taken recv.old; places = R.spans recv.old })
            (record { events = R.taken recv.new; places = R.spans recv.new })) self.old result self.new }
        ensures again { IfSome (failure_of self.old.end) (λ e. GivesAgain e result × (recv.new ≡ recv.old)
            × (self.new ≡ self.old)) }
    {
        if let Some(error) = self.given_again() {
            return Err(error);
        }
        'events: for _count in 0..u64::MAX {
            match self.next_event() {
                None => return Ok(()),
                Some(Err(error)) => return Err(error),
                Some(Ok((event, span))) => {
                    let last = is_last(&event, multi);
                    recv.on_event(event, span);
                    if last {
                        return Ok(());
                    }
                }
            }
        }
        Err(self.run_out())
    }

    /// Sends the next events to a receiver that may refuse one, which is then the last. All else is as with `load`.
    ///
    /// # Errors
    ///
    /// As `load`, and what the receiver answered.
    pub fn try_load<R: TrySpannedEventReceiver<'input>>(
        &mut self,
        recv: &mut R,
        multi: bool,
    ) -> Result<(), TryLoadError<R::Error>>
        ensures sent { failure_of self.old.end ≡ None → StackTries S.steps S.offset_of S.sets_offset multi
            (Took (record { events = R.taken recv.old; places = R.spans recv.old })
            (record { events = R.taken recv.new; places = R.spans recv.new })) self.old result self.new }
        ensures again { IfSome (failure_of self.old.end) (λ e. ScansAgain e result × (recv.new ≡ recv.old)
            × (self.new ≡ self.old)) }
        ensures errors { CountsErrors (R.errors recv.old) (R.errors recv.new) result }
    {
        if let Some(error) = self.given_again() {
            return Err(TryLoadError::Scan(error));
        }
        'events: for _count in 0..u64::MAX {
            match self.next_event() {
                None => return Ok(()),
                Some(Err(error)) => return Err(TryLoadError::Scan(error)),
                Some(Ok((event, span))) => {
                    let last = is_last(&event, multi);
                    if let Err(refused) = recv.on_event(event, span) {
                        return Err(TryLoadError::Receiver(refused));
                    }
                    if last {
                        return Ok(());
                    }
                }
            }
        }
        Err(TryLoadError::Scan(self.run_out()))
    }

    /// What was refused before, again.
    fn given_again(&self) -> Option<ScanError>
        ensures { KeptAgain (failure_of self.now.end) result }
    {
        match &self.end {
            Some(Err(error)) => Some(kept(self.alloc, error)),
            _ => None,
        }
    }

    /// Gives nothing more, for want of memory.
    fn run_out(&mut self) -> ScanError
        ensures { RunsOut self.old result self.new }
    {
        drop(self.peeked.take());
        drop(self.end.replace(Err(ScanError::from(NoMemory))));
        ScanError::from(NoMemory)
    }
}
