//! Receivers of events.
ghost use Rattle.std.specs.Prelude.{◌≡◌, ℕ, ◌≤◌, List, [], ◌∷◌, Option, None, OnOk, OnErr};
ghost use Rattle.granit_base.specs.Counts.{last_count, Rose};
ghost use Rattle.granit_base.specs.declared.place.Span as place;
ghost use Rattle.granit_event.specs.declared.event.Event as event;
ghost use Rattle.granit_receivers.specs.Taking.{Grows};

use granit_base::Span;
use granit_event::Event;

/// Takes events.
pub trait EventReceiver<'input> {
    /// The events that were taken, where the receiver tells them.
    ghost taken: { Self → Option (List event.Event) } = { λ _. None };

    /// Takes the next event.
    fn on_event(&mut self, ev: Event<'input>)
        ensures { Grows (taken self.old) (taken self.new) (ev.entry ∷ []) };
}

/// Takes events and their places.
pub trait SpannedEventReceiver<'input> {
    /// The events that were taken, where the receiver tells them.
    ghost taken: { Self → Option (List event.Event) } = { λ _. None };

    /// Their places, where the receiver tells them.
    ghost spans: { Self → Option (List place.Span) } = { λ _. None };

    /// Takes the next event and its place.
    fn on_event(&mut self, ev: Event<'input>, span: Span)
        ensures events { Grows (taken self.old) (taken self.new) (ev.entry ∷ []) }
        ensures places { Grows (spans self.old) (spans self.new) (span ∷ []) };
}

/// Takes events, and may then say that it wants no more.
pub trait TryEventReceiver<'input> {
    /// Why it wants no more.
    type Error;

    /// The events that were taken, where the receiver tells them.
    ghost taken: { Self → Option (List event.Event) } = { λ _. None };

    /// How many errors it gave, held at `u64::MAX`, where it stays if the receiver doesn't count them.
    ghost errors: { Self → ℕ } = { λ _. last_count };

    /// Takes the next event.
    ///
    /// # Errors
    ///
    /// The receiver's own, only where their count rose; the event was taken all the same.
    fn on_event(&mut self, ev: Event<'input>) -> Result<(), Self::Error>
        ensures events { Grows (taken self.old) (taken self.new) (ev.entry ∷ []) }
        ensures same { OnOk result (errors self.new ≡ errors self.old) }
        ensures failed { OnErr result (Rose (errors self.old) (errors self.new)) }
        ensures never_falls { errors self.old ≤ errors self.new };
}

/// Takes events and their places, and may then say that it wants no more.
pub trait TrySpannedEventReceiver<'input> {
    /// Why it wants no more.
    type Error;

    /// The events that were taken, where the receiver tells them.
    ghost taken: { Self → Option (List event.Event) } = { λ _. None };

    /// Their places, where the receiver tells them.
    ghost spans: { Self → Option (List place.Span) } = { λ _. None };

    /// How many errors it gave, held at `u64::MAX`, where it stays if the receiver doesn't count them.
    ghost errors: { Self → ℕ } = { λ _. last_count };

    /// Takes the next event and its place.
    ///
    /// # Errors
    ///
    /// The receiver's own, only where their count rose; the event was taken all the same.
    fn on_event(&mut self, ev: Event<'input>, span: Span) -> Result<(), Self::Error>
        ensures events { Grows (taken self.old) (taken self.new) (ev.entry ∷ []) }
        ensures places { Grows (spans self.old) (spans self.new) (span ∷ []) }
        ensures same { OnOk result (errors self.new ≡ errors self.old) }
        ensures failed { OnErr result (Rose (errors self.old) (errors self.new)) }
        ensures never_falls { errors self.old ≤ errors self.new };
}

/// A receiver that wants no places takes events all the same.
impl<'input, R: EventReceiver<'input>> SpannedEventReceiver<'input> for R {
    ghost taken = { R.taken };

    fn on_event(&mut self, ev: Event<'input>, _span: Span) {
        EventReceiver::on_event(self, ev);
    }
}

/// A receiver that wants no places takes events all the same.
impl<'input, R: TryEventReceiver<'input>> TrySpannedEventReceiver<'input> for R {
    type Error = R::Error;

    ghost taken = { R.taken };

    ghost errors = { R.errors };

    fn on_event(&mut self, ev: Event<'input>, _span: Span) -> Result<(), R::Error> {
        TryEventReceiver::on_event(self, ev)
    }
}
