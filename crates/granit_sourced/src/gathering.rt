//! The events that come next in an input, behind those that wait, or the error of its source in the place of them.
ghost use Rattle.std.specs.Prelude.{◌≡◌, ◌⊎◌, ◌∷◌, [], true, None, Some, IfErr};
ghost use Rattle.granit_cursor.specs.Reading.{GoesOnward};
ghost use Rattle.granit_error.specs.FaultKind.{NoMemory as OutOfMemory};
ghost use Rattle.granit_event.specs.Events.{plain_event, plain_events};
ghost use Rattle.granit_refused.specs.Answered.{answered};
ghost use Rattle.granit_restart.specs.Skipping.{with_pending};
ghost use Rattle.granit_sourced.specs.Gathering.{AllGathered, Gathered, NextGathered, WaitsGathered, WaitsOrRefuses};
ghost use Rattle.granit_sourced.specs.Sources.{GoesUnless, TellsSource};
ghost use Rattle.granit_stepper.specs.Gathering.{GathersBehind};
ghost use Rattle.granit_stepper.specs.Numbers.{RefusesNumber};
ghost use Rattle.granit_stepper.specs.Stepping.{StandsIn};
ghost use Rattle.granit_steps.specs.Steps.{StepState};

use granit_base::{NoMemory, Span};
use granit_error::ScanError;
use granit_event::Event;
use granit_input::BorrowedInput;
use granit_refused::{Refused, error_of, refuse};
use granit_stepper::Stepper;
use std::alloc::Global;
use std::mem;

/// So many times the next events are asked for, at most, where some are gathered: what they take stays near.
const BATCH: u64 = 128;

/// An event that was given, and those that come behind it.
///
/// # Errors
///
/// What is wrong with the input there, the error of its source, and `NoMemory`; the events before it are dropped.
pub fn gather_all<'input, T: BorrowedInput<'input>>(
    alloc: Global,
    stepper: &mut Stepper<'input, T>,
    first: (Event<'input>, Span),
) -> Result<Vec<(Event<'input>, Span)>, ScanError>
    ensures known { (m : StepState) → Gathered T.unread stepper.old.scanner.options m
        (plain_event first.entry ∷ []) stepper.old
        → AllGathered T.origin stepper.old.scanner.options m result (λ v. plain_events v.items) stepper.new }
    ensures failed { IfErr result (λ e. stepper.new.failed ≡ true) }
    ensures over { stepper.old.failed ≡ true → stepper.new.failed ≡ true }
    ensures renumbered { stepper.new.renumbered ≡ stepper.old.renumbered }
    ensures goes { GoesUnless (Some result) (T.origin stepper.old.scanner.cursor.input)
        (T.origin stepper.new.scanner.cursor.input) }
    ensures onward { GoesOnward T.unread stepper.old.scanner.cursor stepper.new.scanner.cursor }
{
    match stepper.put_first(alloc, first) {
        Ok(()) => gather_rest(alloc, stepper),
        Err(_) => Err(run_out(stepper)),
    }
}

/// All that waits, and what comes behind it.
fn gather_rest<'input, T: BorrowedInput<'input>>(
    alloc: Global,
    stepper: &mut Stepper<'input, T>,
) -> Result<Vec<(Event<'input>, Span)>, ScanError>
    ensures known { (m : StepState) → WaitsGathered T.unread stepper.old.scanner.options m stepper.old
        → AllGathered T.origin stepper.old.scanner.options m result (λ v. plain_events v.items) stepper.new }
    ensures failed { IfErr result (λ e. stepper.new.failed ≡ true) }
    ensures over { stepper.old.failed ≡ true → stepper.new.failed ≡ true }
    ensures renumbered { stepper.new.renumbered ≡ stepper.old.renumbered }
    ensures goes { GoesUnless (Some result) (T.origin stepper.old.scanner.cursor.input)
        (T.origin stepper.new.scanner.cursor.input) }
    ensures onward { GoesOnward T.unread stepper.old.scanner.cursor stepper.new.scanner.cursor }
{
    match gather_turns(alloc, stepper, u64::MAX) {
        Ok(true) => Err(run_out(stepper)),
        Ok(false) => Ok(stepper.take_waiting(alloc).into_vec()),
        Err(error) => Err(error),
    }
}

/// Some of the events that come next, those that wait first, in the place of what a list held; false where they are the
/// last. The room of the list is used again.
///
/// # Errors
///
/// What is wrong with the input there, the error of its source, and `NoMemory`; the events before it are dropped.
pub fn gather_batch<'input, T: BorrowedInput<'input>>(
    alloc: Global,
    stepper: &mut Stepper<'input, T>,
    batch: &mut Vec<(Event<'input>, Span)>,
) -> Result<bool, ScanError>
    ensures known { (m : StepState) → StandsIn T.unread stepper.old m
        → NextGathered T.unread T.origin stepper.old.scanner.options m result (plain_events batch.new.items)
        stepper.new }
    ensures failed { IfErr result (λ e. stepper.new.failed ≡ true) }
    ensures over { stepper.old.failed ≡ true → stepper.new.failed ≡ true }
    ensures options { stepper.new.scanner.options ≡ stepper.old.scanner.options }
    ensures renumbered { stepper.new.renumbered ≡ stepper.old.renumbered }
    ensures goes { GoesUnless (Some result) (T.origin stepper.old.scanner.cursor.input)
        (T.origin stepper.new.scanner.cursor.input) }
    ensures onward { GoesOnward T.unread stepper.old.scanner.cursor stepper.new.scanner.cursor }
{
    let room = mem::replace(batch, Vec::new(alloc));
    match stepper.wait_in(alloc, room) {
        Ok(()) => fill_batch(alloc, stepper, batch),
        Err(_) => Err(run_out(stepper)),
    }
}

/// All that waits, and what comes next.
fn fill_batch<'input, T: BorrowedInput<'input>>(
    alloc: Global,
    stepper: &mut Stepper<'input, T>,
    batch: &mut Vec<(Event<'input>, Span)>,
) -> Result<bool, ScanError>
    ensures known { (m : StepState) → WaitsGathered T.unread stepper.old.scanner.options m stepper.old
        → NextGathered T.unread T.origin stepper.old.scanner.options m result (plain_events batch.new.items)
        stepper.new }
    ensures failed { IfErr result (λ e. stepper.new.failed ≡ true) }
    ensures over { stepper.old.failed ≡ true → stepper.new.failed ≡ true }
    ensures options { stepper.new.scanner.options ≡ stepper.old.scanner.options }
    ensures renumbered { stepper.new.renumbered ≡ stepper.old.renumbered }
    ensures goes { GoesUnless (Some result) (T.origin stepper.old.scanner.cursor.input)
        (T.origin stepper.new.scanner.cursor.input) }
    ensures onward { GoesOnward T.unread stepper.old.scanner.cursor stepper.new.scanner.cursor }
{
    match gather_turns(alloc, stepper, BATCH) {
        Ok(more) => {
            *batch = stepper.take_waiting(alloc).into_vec();
            Ok(more)
        }
        Err(error) => Err(error),
    }
}

/// So many times the next events wait behind those that do, at least one each time; false where nothing more came.
fn gather_turns<'input, T: BorrowedInput<'input>>(
    alloc: Global,
    stepper: &mut Stepper<'input, T>,
    turns: u64,
) -> Result<bool, ScanError>
    ensures known { (m : StepState) → WaitsGathered T.unread stepper.old.scanner.options m stepper.old
        → WaitsOrRefuses T.unread T.origin stepper.old.scanner.options m turns result stepper.new }
    ensures failed { IfErr result (λ e. stepper.new.failed ≡ true) }
    ensures over { stepper.old.failed ≡ true → stepper.new.failed ≡ true }
    ensures options { stepper.new.scanner.options ≡ stepper.old.scanner.options }
    ensures renumbered { stepper.new.renumbered ≡ stepper.old.renumbered }
    ensures goes { GoesUnless (Some result) (T.origin stepper.old.scanner.cursor.input)
        (T.origin stepper.new.scanner.cursor.input) }
    ensures onward { GoesOnward T.unread stepper.old.scanner.cursor stepper.new.scanner.cursor }
{
    let mut fault = None;
    'turns: for _turn in 0..turns {
        match more_events(alloc, stepper, &mut fault) {
            Ok(true) => {}
            Ok(false) => return Ok(false),
            Err(refused) => {
                drop(stepper.take_waiting(alloc));
                return Err(error_of(fault, refused));
            }
        }
    }
    Ok(true)
}

/// Nothing more is given, for want of memory.
fn run_out<'input, T: BorrowedInput<'input>>(stepper: &mut Stepper<'input, T>) -> ScanError
    ensures kind { result.kind ≡ OutOfMemory }
    ensures rest { stepper.new ≡ record stepper.old { failed = true } }
{
    stepper.stop();
    ScanError::from(NoMemory)
}

/// The next events wait behind those that do, or there is the error of the source in the place of whatever was
/// read up to that.
///
/// # Errors
///
/// What is wrong with the input there, the error of its source, and `NoMemory`.
#[inline(always)]
fn more_events<'input, T: BorrowedInput<'input>>(
    alloc: Global,
    stepper: &mut Stepper<'input, T>,
    fault: &mut Option<ScanError>,
) -> Result<bool, Refused>
    ensures known { (m : StepState) → StandsIn T.unread stepper.old m → stepper.old.first ≡ None
        → GathersBehind (answered fault.new result) (StandsIn T.unread stepper.new) stepper.old.scanner.options m
        (RefusesNumber stepper.new.renumbered stepper.old.scanner.options (with_pending [] m))
        ⊎ TellsSource T.origin (Some (answered fault.new result)) stepper.new.scanner.cursor }
    ensures first { stepper.new.first ≡ stepper.old.first }
    ensures failed { IfErr result (λ e. stepper.new.failed ≡ true) }
    ensures over { stepper.old.failed ≡ true → stepper.new.failed ≡ true }
    ensures options { stepper.new.scanner.options ≡ stepper.old.scanner.options }
    ensures renumbered { stepper.new.renumbered ≡ stepper.old.renumbered }
    ensures goes { GoesUnless (Some (answered fault.new result)) (T.origin stepper.old.scanner.cursor.input)
        (T.origin stepper.new.scanner.cursor.input) }
    ensures onward { GoesOnward T.unread stepper.old.scanner.cursor stepper.new.scanner.cursor }
{
    let more = stepper.next_events(alloc, fault);
    match stepper.take_source_error() {
        None => more,
        Some(error) => Err(refuse(fault, error)),
    }
}
