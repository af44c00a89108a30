//! All events of a text.
ghost use Rattle.std.specs.Prelude.{◌≡◌, ◌==◌, ◌⊎◌, ◌≤◌, List, [], length, slice_get, IfOk, IfErr};
ghost use Rattle.std.specs.Option.{option_copied};
ghost use Rattle.std.specs.Str.{chars};
ghost use Rattle.granit_base.specs.Classes.{is_printable};
ghost use Rattle.granit_parser.specs.Parsing.{DeclaredCause};
ghost use Rattle.granit_parser.specs.Parsing.{DeclaredReading};
ghost use Rattle.granit_block_layout.specs.Alike.{kinds_of};
ghost use Rattle.granit_canonical.specs.Examples.{canonical_events};
ghost use Rattle.granit_cursor.specs.Reading.{GoesOnward};
ghost use Rattle.granit_comments.specs.TextComments.{TellsComments, ToldUnasked};
ghost use Rattle.granit_error.specs.FaultKind.{NoMemory as OutOfMemory};
ghost use Rattle.granit_error.specs.OptionsView.{options_of};
ghost use Rattle.granit_event.specs.Events.{plain_events};
ghost use Rattle.granit_input.specs.Origin.{Goes};
ghost use Rattle.granit_generator.specs.BlockText.{block_characters};
ghost use Rattle.granit_invariants.specs.EventPlaces.{EventsInText};
ghost use Rattle.granit_readings.specs.ReadAsTrees.{but_comments};
ghost use Rattle.granit_json.specs.JsonKinds.{Json, json_depth};
ghost use Rattle.granit_json.specs.Examples.{json_events};
ghost use Rattle.granit_json.specs.Examples.{JsonText};
ghost use Rattle.granit_json.specs.JsonKinds.{NamesFit};
ghost use Rattle.granit_lexemes.specs.Gap.{Each};
ghost use Rattle.granit_lexemes.specs.Outcome.{Fault, GivesValue};
ghost use Rattle.granit_lexemes.specs.PlainEvent.{PlainEvent};
ghost use Rattle.granit_machine.specs.Machine.{run};
ghost use Rattle.granit_model.specs.Characters.{HasCharacters};
ghost use Rattle.granit_model.specs.FlowText.{flow_characters};
ghost use Rattle.granit_model.specs.Tree.{DocumentsFit, PlainTrees, trees_depth};
ghost use Rattle.granit_load.specs.Answering.{GivesAllOr, IsRefusedAs};
ghost use Rattle.granit_parser.specs.Parsing.{LeavesNumbers, StandsAt};
ghost use Rattle.granit_parser.specs.Gathering.{GoesGiving};
ghost use Rattle.granit_readings.specs.ReadAsTrees.{TellsTrees};
ghost use Rattle.granit_steps.specs.Levels.{IsStream};
ghost use Rattle.granit_steps.specs.Steps.{StepState};

use granit_base::Span;
use granit_error::{Options, ScanError};
use granit_event::Event;
use granit_input::BorrowedInput;
use granit_parser::Parser;
use std::alloc::Global;
use std::marker::Model;

/// The events of a text in order, each with its place. Contracts see it as that list.
#[derive(Debug, Drop)]
pub struct Events<'a> {
    pub(crate) items: Vec<(Event<'a>, Span)>,
}

impl<'a> Model for Events<'a> {
    ghost use Rattle.std.specs.Prelude.{List};
    ghost use Rattle.granit_base.specs.declared.place.Span.{Span};
    ghost use Rattle.granit_event.specs.declared.event.Event.{Event};

    ghost Value = { List (Event × Span) };

    ghost view = { λ e. e.items.items };
}

impl<'a> Events<'a> {
    /// How many events there are.
    pub fn len(&self) -> usize
        ensures { result ≡ length self.now }
    {
        self.items.len()
    }

    /// Whether there is none.
    pub fn is_empty(&self) -> bool
        ensures { result ≡ (length self.now == 0) }
    {
        self.items.is_empty()
    }

    /// The event behind `i` others, and its place.
    pub fn get(&self, i: usize) -> Option<&(Event<'a>, Span)>
        ensures { option_copied result ≡ slice_get self.now i }
    {
        self.items.get(i)
    }

    /// The events and their places in order.
    pub fn as_slice(&self) -> &[(Event<'a>, Span)]
        ensures { result.now ≡ self.now }
    {
        self.items.as_slice()
    }

    /// The events and their places in order, as a list of one's own.
    pub fn into_vec(self) -> Vec<(Event<'a>, Span)>
        ensures { result.items ≡ self.entry }
    {
        self.items
    }
}

/// All events that a parser still gives.
pub fn gather<'a, T: BorrowedInput<'a>>(
    alloc: Global,
    parser: &mut Parser<'a, T>,
) -> Result<Events<'a>, ScanError>
    ensures known { (m : StepState) → StandsAt T.unread parser.old m
        → GivesAllOr T.origin plain_events parser.old.stepper.scanner.options m result parser.new.stepper }
    ensures numbers { (m : StepState) → StandsAt T.unread parser.old m
        → IfOk result (λ v. LeavesNumbers parser.old.stepper.scanner.options m (plain_events v)) }
    ensures renumbered { parser.new.stepper.renumbered ≡ parser.old.stepper.renumbered }
    ensures goes { IfOk result (λ v. Goes (T.origin parser.old.stepper.scanner.cursor.input)
        (T.origin parser.new.stepper.scanner.cursor.input)) }
    ensures failed { IfErr result (λ e. GoesGiving (T.origin parser.old.stepper.scanner.cursor.input)
        (T.origin parser.new.stepper.scanner.cursor.input)) }
    ensures onward { GoesOnward T.unread parser.old.stepper.scanner.cursor parser.new.stepper.scanner.cursor }
{
    match parser.gather(alloc) {
        Ok(items) => Ok(Events { items }),
        Err(error) => Err(error),
    }
}

/// The events of a text. A parser is let go in one place alone, which is dear to prove.
fn load<'a>(alloc: Global, text: &'a str, options: Options) -> Result<Events<'a>, ScanError>
    ensures { GivesValue plain_events result (run (options_of options) (chars text.now)) }
{
    let mut parser = Parser::new_from_str_with_options(alloc, text, options);
    gather(alloc, &mut parser)
}

/// All events of a text, in order. Columns count characters from 0, lines from 1, and each marker tells its byte
/// offset. The text of a scalar, a name or a comment is lent from the source where nothing in it was decoded.
///
/// The contract: an answer is, comments aside, the events of the one reading of the text's lexemes (`reading`),
/// which are those of the one list of documents that the text is read as (`trees`; that there is one, and no other
/// events, is a law of granit_readings); its events are a stream (`stream`), each span stands in the text
/// (`spans`). Where comments are asked for, its comments are exactly those of the text, each in its place
/// (`comments`), and without them the answer is the same but for them (`uncommented`). A text with a reading is
/// answered (`answered`). A refusal has its cause, and names no source (`cause`). A text with a cause is refused
/// with exactly that (`refused`), so no text has two. The canonical flow text of trees that fit, no deeper than
/// allowed, is answered with their events (`canonical`), their canonical block text with the same but for the
/// styles of collections and for spans (`layout`), and JSON text with the events of its value (`json`). Want of
/// memory may stand in the place of each answer. `value` says the same as a plain function. Every text has a
/// reading or a cause, and no text has both (laws of granit_answers).
///
/// # Errors
///
/// The first fault of the text, at its place, or `NoMemory`; docs/FAULTS.md has the kinds.
pub fn load_str<'a>(alloc: Global, text: &'a str, options: Options) -> Result<Events<'a>, ScanError>
    ensures value { GivesValue plain_events result (run (options_of options) (chars text.now)) }
    ensures reading { IfOk result (λ v. DeclaredReading (options_of options) (chars text.now) (plain_events v)) }
    ensures trees { IfOk result (λ v. TellsTrees (options_of options) (chars text.now) (plain_events v)) }
    ensures spans { IfOk result (λ v. EventsInText (chars text.now) (plain_events v)) }
    ensures stream { IfOk result (λ v. IsStream (plain_events v)) }
    ensures comments { IfOk result (λ v. TellsComments (options_of options) (chars text.now) (plain_events v)) }
    ensures uncommented { IfOk result (λ v. ToldUnasked (options_of options) (chars text.now) (plain_events v)) }
    ensures answered { (es : List PlainEvent) → DeclaredReading (options_of options) (chars text.now) es
        → IfErr result (λ e. e.kind ≡ OutOfMemory)
        × IfOk result (λ v. but_comments (plain_events v) ≡ but_comments es) }
    ensures cause { IfErr result (λ e. (e.kind ≡ OutOfMemory)
        ⊎ (DeclaredCause (options_of options) (chars text.now) e × (e.sources ≡ []))) }
    ensures refused { (f : Fault) → DeclaredCause (options_of options) (chars text.now) f
        → IsRefusedAs result (λ e. e ≡ f) }
    ensures canonical { (ts : PlainTrees) → DocumentsFit ts → HasCharacters ts
        → trees_depth ts ≤ (options_of options).flow_nesting_limit → chars text.now ≡ flow_characters ts
        → IfErr result (λ e. e.kind ≡ OutOfMemory)
        × IfOk result (λ v. plain_events v ≡ canonical_events (options_of options) ts) }
    ensures layout { (ts : PlainTrees) → DocumentsFit ts → HasCharacters ts
        → trees_depth ts ≤ (options_of options).flow_nesting_limit
        → trees_depth ts ≤ (options_of options).block_nesting_limit → chars text.now ≡ block_characters ts
        → IfErr result (λ e. e.kind ≡ OutOfMemory)
        × IfOk result (λ v. kinds_of (plain_events v) ≡ kinds_of (canonical_events (options_of options) ts)) }
    ensures json { (t : Json) (d : JsonText (chars text.now) t) → Each is_printable (chars text.now)
        → json_depth t ≤ (options_of options).flow_nesting_limit
        → NamesFit (options_of options).simple_key_max_lookahead d → IfErr result (λ e. e.kind ≡ OutOfMemory)
        × IfOk result (λ v. plain_events v ≡ json_events (chars text.now) d) }
{
    load(alloc, text, options)
}
