//! Events that are given once more, sent to a receiver.
ghost use Rattle.std.specs.Prelude.{◌≡◌, Ok, IfOk, IfErr, OnOk, OnErr};
ghost use Rattle.granit_base.specs.Counts.{Rose};
ghost use Rattle.granit_receivers.specs.Taking.{Took};
ghost use Rattle.granit_replay.specs.Sending.{IsReceivers, StopsSendingAt, behind_sent, sent};

use crate::replay::ReplayParser;
use granit_error::ScanError;
use granit_receivers::{SpannedEventReceiver, TryLoadError, TrySpannedEventReceiver, is_last};

impl<'input> ReplayParser<'input> {
    /// Sends the next events to a receiver in order: up to the end of the stream with `multi`, else up to the end of a
    /// document, or all that are left. Where none is left, nothing is sent.
    ///
    /// # Errors
    ///
    /// None: what is given once more was read before.
    pub fn load<R: SpannedEventReceiver<'input>>(
        &mut self,
        recv: &mut R,
        multi: bool,
    ) -> Result<(), ScanError>
        ensures sent { Took (record { events = R.taken recv.old; places = R.spans recv.old })
            (record { events = R.taken recv.new; places = R.spans recv.new }) (sent multi self.old.events) }
        ensures left { self.new ≡ behind_sent multi self.old }
        ensures ok { result ≡ Ok tt }
    {
        'events: while let Some((event, span)) = self.take() {
            let last = is_last(&event, multi);
            recv.on_event(event, span);
            if last {
                return Ok(());
            }
        }
        Ok(())
    }

    /// Sends the next events to a receiver that may refuse one, which is then the last. All else is as with `load`.
    ///
    /// # Errors
    ///
    /// What the receiver answered.
    pub fn try_load<R: TrySpannedEventReceiver<'input>>(
        &mut self,
        recv: &mut R,
        multi: bool,
    ) -> Result<(), TryLoadError<R::Error>>
        ensures sent { IfOk result (λ x. Took (record { events = R.taken recv.old; places = R.spans recv.old })
            (record { events = R.taken recv.new; places = R.spans recv.new }) (sent multi self.old.events)) }
        ensures left { IfOk result (λ x. self.new ≡ behind_sent multi self.old) }
        ensures stopped { OnErr result (StopsSendingAt multi
            (Took (record { events = R.taken recv.old; places = R.spans recv.old })
            (record { events = R.taken recv.new; places = R.spans recv.new })) self.old self.new) }
        ensures receiver { IfErr result IsReceivers }
        ensures same { OnOk result (R.errors recv.new ≡ R.errors recv.old) }
        ensures failed { OnErr result (Rose (R.errors recv.old) (R.errors recv.new)) }
    {
        'events: while let Some((event, span)) = self.take() {
            let last = is_last(&event, multi);
            if let Err(refused) = recv.on_event(event, span) {
                return Err(TryLoadError::Receiver(refused));
            }
            if last {
                return Ok(());
            }
        }
        Ok(())
    }
}
