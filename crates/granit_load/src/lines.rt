//! The lines of all events of a text.
ghost use Rattle.std.specs.Prelude.{◌≡◌, ◌++◌, None, OnOk};
ghost use Rattle.std.specs.Str.{chars};
ghost use Rattle.granit_error.specs.OptionsView.{options_of};
ghost use Rattle.granit_event.specs.Events.{plain_events};
ghost use Rattle.granit_lexemes.specs.Line.{event_lines};
ghost use Rattle.granit_machine.specs.Machine.{run};
ghost use Rattle.granit_load.specs.Lines.{GathersLines, GivesLines, LinesLead, PushesLines};
ghost use Rattle.granit_parser.specs.Parsing.{StandsAt};
ghost use Rattle.granit_steps.specs.Steps.{StepState};

use granit_base::{NoMemory, Span};
use granit_error::{Options, ScanError};
use granit_event::Event;
use granit_input::BorrowedInput;
use granit_lines::Page;
use granit_parser::Parser;
use std::alloc::Global;

/// The lines of events come behind others.
fn push_lines(page: &mut Page, events: &[(Event, Span)]) -> Result<(), NoMemory>
    ensures { OnOk result (page.new ≡ page.old ++ event_lines (plain_events events.now)) }
{
    'events: for (event, span) in events {
        page.push_line(event, span)?;
    }
    Ok(())
}

/// The lines of a batch of events come behind others, and the events go.
fn push_batch(page: &mut Page, batch: &mut Vec<(Event, Span)>) -> Result<(), NoMemory>
    ensures { OnOk result (page.new ≡ page.old ++ event_lines (plain_events batch.old.items)) }
{
    push_lines(page, batch.as_slice())?;
    batch.clear();
    Ok(())
}

/// The lines of the next events that a parser gives come behind others; false where they are the last.
fn push_some<'a, T: BorrowedInput<'a>>(
    alloc: Global,
    parser: &mut Parser<'a, T>,
    batch: &mut Vec<(Event<'a>, Span)>,
    page: &mut Page,
) -> Result<bool, ScanError>
    requires seen { parser.old.peeked ≡ None }
    ensures known { (m : StepState) → LinesLead T.unread parser.old.stepper.scanner.options m page.old parser.old
        → PushesLines T.unread T.origin parser.old.stepper.scanner.options m result page.new parser.new }
    ensures seen { OnOk result (parser.new.peeked ≡ None) }
    ensures options { parser.new.stepper.scanner.options ≡ parser.old.stepper.scanner.options }
    ensures renumbered { parser.new.stepper.renumbered ≡ parser.old.stepper.renumbered }
{
    match parser.gather_some(alloc, batch) {
        Ok(more) => {
            push_batch(page, batch)?;
            Ok(more)
        }
        Err(error) => Err(error),
    }
}

/// The lines of all events that a parser still gives.
fn gather_lines<'a, T: BorrowedInput<'a>>(
    alloc: Global,
    parser: &mut Parser<'a, T>,
) -> Result<Page, ScanError>
    requires seen { parser.old.peeked ≡ None }
    ensures known { (m : StepState) → StandsAt T.unread parser.old m
        → GathersLines T.origin parser.old.stepper.scanner.options m result parser.new }
    ensures renumbered { parser.new.stepper.renumbered ≡ parser.old.stepper.renumbered }
{
    let mut page = Page::new(alloc);
    let mut batch = Vec::new(alloc);
    'batches: for _ in 0..u64::MAX {
        match push_some(alloc, parser, &mut batch, &mut page) {
            Ok(true) => {}
            Ok(false) => return Ok(page),
            Err(error) => return Err(error),
        }
    }
    Err(ScanError::from(NoMemory))
}

/// The lines of all events of a text, in order: what `load_str` gives, but no more events are kept than are read at
/// once.
///
/// # Errors
///
/// As `load_str`.
pub fn load_lines(alloc: Global, text: &str, options: Options) -> Result<Page, ScanError>
    ensures value { GivesLines result (run (options_of options) (chars text.now)) }
{
    let mut parser = Parser::new_from_str_with_options(alloc, text, options);
    gather_lines(alloc, &mut parser)
}
