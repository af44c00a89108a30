//! All events of the characters of an iterator that may fail.
ghost use Rattle.std.specs.Prelude.{◌≡◌, ℕ, ◌<◌, ◌^◌, false, List, Option, Result};
ghost use Rattle.std.specs.Iterator.{size};
ghost use Rattle.granit_buffered.specs.Feeds.{GivesOnly};
ghost use Rattle.granit_error.specs.FaultKind.{FaultKind};
ghost use Rattle.granit_error.specs.OptionsView.{options_of};
ghost use Rattle.granit_error.specs.declared.kind.ErrorKind.{ErrorKind};
ghost use Rattle.granit_event.specs.Events.{plain_events};
ghost use Rattle.granit_load.specs.Answering.{AnswersItems, GivesWhole, IsPlacedOr};
ghost use Rattle.granit_parser.specs.Parsing.{StandsAt};
ghost use Rattle.granit_steps.specs.Steps.{StepState};

use crate::load::{Events, gather};
use granit_base::NoMemory;
use granit_buffered::Source;
use granit_error::{ErrorKind, Options, ScanError};
use granit_input::BorrowedInput;
use granit_parser::Parser;
use std::alloc::Global;

/// All events that a parser still gives, where its source then ends without an error.
fn gather_whole<'a, T: BorrowedInput<'a>>(
    alloc: Global,
    parser: &mut Parser<'a, T>,
) -> Result<Events<'a>, ScanError>
    ensures { (m : StepState) (f : Option FaultKind) → StandsAt T.unread parser.old m
        → (T.origin parser.old.stepper.scanner.cursor.input).ends_with f
        → (T.origin parser.old.stepper.scanner.cursor.input).handed_out ≡ false
        → parser.old.stepper.renumbered ≡ false
        → GivesWhole T.unread T.origin plain_events parser.old.stepper.scanner.options m f result
        parser.old.stepper.scanner.cursor parser.new.stepper.scanner.cursor }
{
    let events = match gather(alloc, parser) {
        Ok(events) => events,
        Err(error) => return Err(placed(error, parser.is_lost())),
    };
    match parser.end_error() {
        None => Ok(events),
        Some(error) => Err(placed(error, parser.is_lost())),
    }
}

/// An error where the place up to which was read is known, and else want of memory, by which that got lost.
fn placed(error: ScanError, is_lost: bool) -> ScanError
    ensures { IsPlacedOr is_lost error result }
{
    if is_lost {
        ScanError::from(NoMemory)
    } else {
        error
    }
}

/// All events of the characters of an iterator that may fail, in order: what `load_chars` answers for them, where they
/// come to their end without an error. At most sixteen items are read ahead.
///
/// # Errors
///
/// The first error of the iterator, at the place up to which was read, or what `load_chars` is refused for.
pub fn load_fallible<'a, T: Source<Item = Result<char, ErrorKind>>>(
    alloc: Global,
    chars: T,
    options: Options,
) -> Result<Events<'a>, ScanError>
    requires { size (T.remaining chars) < 2 ^ 63 }
    ensures { (items : List (Result ℕ ErrorKind)) → GivesOnly T.next_gives T.remaining chars items
        → AnswersItems plain_events (options_of options) items result }
{
    let mut parser = Parser::new_from_fallible_iter_with_options(alloc, chars, options)?;
    gather_whole(alloc, &mut parser)
}
