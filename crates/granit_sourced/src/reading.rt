//! The next event of an input, or the error of its source in the place of it.
ghost use Rattle.std.specs.Prelude.{◌≡◌, ◌⊎◌, [], true, false, None};
ghost use Rattle.granit_cursor.specs.Reading.{GoesOnward, Moves};
ghost use Rattle.granit_error.specs.Refused.{Refused};
ghost use Rattle.granit_recovery.specs.Streams.{ReachedByCalls};
ghost use Rattle.granit_restart.specs.Calls.{Calls};
ghost use Rattle.granit_sourced.specs.Giving.{EndsWith, GivesNext, StepsBy};
ghost use Rattle.granit_sourced.specs.Going.{GoesWithCalls, ReadsHeld, ReadsNext};
ghost use Rattle.granit_sourced.specs.Sources.{MovesUnless, NeverRecovers, NeverRevives, TellsError, TellsSource};
ghost use Rattle.granit_sourced.specs.Sources.{unless_failed};
ghost use Rattle.granit_sourced.specs.Waiting.{FailsAtOnce, GivesAtOnce, TakesFirst};
ghost use Rattle.granit_stepper.specs.Holding.{HoldsFault};
ghost use Rattle.granit_stepper.specs.Stepping.{StandsIn};
ghost use Rattle.granit_stepper.specs.Waiting.{IsAtEnd, waiting_events};
ghost use Rattle.granit_steps.specs.Steps.{StepState};

use granit_base::Span;
use granit_calls::calls_go_by_turns;
use granit_error::ScanError;
use granit_event::Event;
use granit_input::BorrowedInput;
use granit_stepper::Stepper;
use std::alloc::Global;

/// The next event of the input is put there, or the error of its source, whatever was read up to that.
pub fn read_event<'input, T: BorrowedInput<'input>>(
    alloc: Global,
    stepper: &mut Stepper<'input, T>,
    next: &mut Option<Result<(Event<'input>, Span), ScanError>>,
)
    ensures known { (m : StepState) → StandsIn T.unread stepper.old m
        → StepsBy T.unread next.new stepper.old stepper.new m
        ⊎ TellsSource T.origin next.new stepper.new.scanner.cursor }
    ensures sure { (m : StepState) → StandsIn T.unread stepper.old m
        → (T.origin stepper.new.scanner.cursor.input).error ≡ None
        → StepsBy T.unread next.new stepper.old stepper.new m }
    ensures calls { (c : Calls) → ReachedByCalls stepper.old.scanner.options c → GoesWithCalls T.unread stepper.old c
        → ReadsNext T.unread next.new stepper.new c
        ⊎ TellsSource T.origin next.new stepper.new.scanner.cursor }
    ensures waits { (m : StepState) (f : Refused) → HoldsFault T.unread stepper.old m f
        → ReadsHeld T.unread next.new stepper.new m f
        ⊎ TellsSource T.origin next.new stepper.new.scanner.cursor }
    ensures source { TellsError T.origin stepper.old next.new stepper.new.scanner.cursor }
    ensures at_once { GivesAtOnce T.origin stepper.old next.new stepper.new }
    ensures lost { NeverRecovers T.origin stepper.old next.new stepper.new }
    ensures refused { EndsWith next.new stepper.new }
    ensures over { stepper.old.failed ≡ true → (next.new ≡ None) × (stepper.new ≡ stepper.old) }
    ensures options { stepper.new.scanner.options ≡ stepper.old.scanner.options }
    ensures renumbered { stepper.new.renumbered ≡ stepper.old.renumbered }
    ensures moves { MovesUnless T.left T.origin next.new stepper.old.scanner.cursor stepper.new.scanner.cursor }
    ensures onward { GoesOnward T.unread stepper.old.scanner.cursor stepper.new.scanner.cursor }
{
    if stepper.has_failed() {
        *next = None;
        return;
    }
    step_event(alloc, stepper, next);
    put_error(next, stepper.take_source_error());
}

/// The next event of what was read is put there, whether the source failed or not.
pub fn step_event<'input, T: BorrowedInput<'input>>(
    alloc: Global,
    stepper: &mut Stepper<'input, T>,
    next: &mut Option<Result<(Event<'input>, Span), ScanError>>,
)
    ensures known { (m : StepState) → StandsIn T.unread stepper.old m
        → GivesNext next.new (StandsIn T.unread stepper.new) stepper.old.renumbered stepper.old.scanner.options m }
    ensures calls { (c : Calls) → ReachedByCalls stepper.old.scanner.options c → GoesWithCalls T.unread stepper.old c
        → ReadsNext T.unread next.new stepper.new c }
    ensures waits { (m : StepState) (f : Refused) → HoldsFault T.unread stepper.old m f
        → ReadsHeld T.unread next.new stepper.new m f }
    ensures waiting { stepper.old.failed ≡ false → TakesFirst next.new stepper.old stepper.new }
    ensures ended { IsAtEnd stepper.old → (next.new ≡ None) × (stepper.new ≡ stepper.old) }
    ensures free { stepper.old.failed ≡ false → waiting_events stepper.old ≡ [] → FailsAtOnce next.new stepper.old }
    ensures lost { NeverRevives next.new stepper.new }
    ensures refused { EndsWith next.new stepper.new }
    ensures over { stepper.old.failed ≡ true → (next.new ≡ None) × (stepper.new ≡ stepper.old) }
    ensures options { stepper.new.scanner.options ≡ stepper.old.scanner.options }
    ensures renumbered { stepper.new.renumbered ≡ stepper.old.renumbered }
    ensures moves { Moves T.unread T.left T.origin stepper.old.scanner.cursor stepper.new.scanner.cursor }
{
    calls_go_by_turns();
    stepper.next_event(alloc, next);
}

/// An event, or the error of the source in its place.
#[inline(always)]
fn put_error<'a>(next: &mut Option<Result<(Event<'a>, Span), ScanError>>, error: Option<ScanError>)
    ensures { next.new ≡ unless_failed next.old error }
{
    let Some(error) = error else {
        return;
    };
    *next = Some(Err(error));
}
