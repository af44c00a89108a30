//! An input that is read into events, one for each call.
ghost use Rattle.std.specs.Prelude.{◌≡◌, ◌≤◌, ◌||◌, [], true, false, Option, None, Some, Ok, Err};
ghost use Rattle.std.specs.Prelude.{IfErr, IfSome, drop, is_some, slice_get};
ghost use Rattle.std.specs.Option.{option_map};
ghost use Rattle.granit_base.specs.Place.{Unread};
ghost use Rattle.granit_cursor.specs.Reading.{GoesOnward};
ghost use Rattle.granit_cursor.specs.Reading.{GivesTo, Moves, Stands};
ghost use Rattle.granit_error.specs.FaultKind as faults;
ghost use Rattle.granit_error.specs.FaultKind.{FaultKind};
ghost use Rattle.granit_error.specs.OptionsView.{options_of};
ghost use Rattle.granit_event.specs.Events.{plain_event};
ghost use Rattle.granit_refusals.specs.BeforeTurn.{mark_of_item};
ghost use Rattle.granit_refused.specs.Answered.{answered, why};
ghost use Rattle.granit_frames.specs.Outside.{NoneWaitsOutside};
ghost use Rattle.granit_input.specs.Origin.{error_given, Gave, Goes};
ghost use Rattle.granit_lexemes.specs.Outcome.{Fault};
ghost use Rattle.granit_lexemes.specs.PlainEvent.{event_on, StreamStart};
ghost use Rattle.granit_lexemes.specs.Here.{Here, first_place, mark_of};
ghost use Rattle.granit_items.specs.ItemViews.{item_view, kind_view};
ghost use Rattle.granit_restart.specs.Looking.{behind_waiting, turn_ahead};
ghost use Rattle.granit_restart.specs.Skipping.{with_pending};
ghost use Rattle.granit_restart.specs.Turned.{Turned};
ghost use Rattle.granit_scanner.specs.Scans.{front_view, may_front_go};
ghost use Rattle.granit_stepper.specs.Holding.{GivesHeld, HoldsFault};
ghost use Rattle.granit_stepper.specs.Numbers as numbers;
ghost use Rattle.granit_stepper.specs.Numbers.{GetsLast, GivesOr, IsNumberless, RefusesNumber, UnlessNumberless};
ghost use Rattle.granit_stepper.specs.Refusals.{GivesAhead, HoldsRefusal, RefusesIn, RefusesItem, RefusesLater};
ghost use Rattle.granit_stepper.specs.Refusals.{SettlesAhead, StandsRefused, TurnsAhead};
ghost use Rattle.granit_stepper.specs.Stepping as spec;
ghost use Rattle.granit_stepper.specs.Stepping.{answer_in, Keeps, StandsIn, TakesFree};
ghost use Rattle.granit_stepper.specs.TurnMemory.{AnswersFree, AnswersItemPassed, AnswersItemRefused};
ghost use Rattle.granit_stepper.specs.TurnMemory.{AnswersPassed, AnswersRefused, TakesGoing};
ghost use Rattle.granit_stepper.specs.Waiting.{AllTaken, GivesFirstWaiting, SameButCursor, StaysAtEnd, StaysTaken};
ghost use Rattle.granit_stepper.specs.Waiting.{StaysWaiting, waiting_events};
ghost use Rattle.granit_steps.specs.Steps as steps;
ghost use Rattle.granit_steps.specs.Steps.{StepState};

use granit_base::{Marker, NoMemory, Span};
use granit_error::{ErrorKind, Options, ScanError};
use granit_event::Event;
use granit_feed::feed;
use granit_frames::ParserState;
use granit_input::{BorrowedInput, Input};
use granit_items::{Item, LexemeKind, Rooms};
use granit_queue::Queued;
use granit_refusals::{Before, Refusal, is_mark, wants_memory};
use granit_refused::{Refused, error_of, refuse};
use granit_scanner::{Front, ItemScanner};
use std::alloc::Global;
use std::marker::Model;

/// An input that is read into events, one for each call.
#[derive(Drop)]
pub struct Stepper<'input, T: Input> {
    pub(crate) scanner: ItemScanner<'input, T>,
    pub(crate) parser: ParserState<'input>,
    // Room for lexemes, which those left that the parser took.
    pub(crate) rooms: Rooms<'input>,
    // Where the stream starts, until that is told.
    pub(crate) first: Option<Marker>,
    // A call failed: nothing more is given.
    pub(crate) failed: bool,
    // The number of a next anchor was set.
    pub(crate) renumbered: bool,
    // The refusal of a turn that was made ahead.
    pub(crate) ahead: Option<ScanError>,
    // Where the last turn was refused, and what stood before it.
    pub(crate) refusal: Option<Refusal<'input>>,
}

impl<'input, T: Input> Model for Stepper<'input, T> {
    ghost use Rattle.granit_stepper.specs.Stepping.{Stepping};

    ghost Value = { Stepping T };

    ghost view = { λ s. record {
      scanner = s.scanner;
      parser = s.parser;
      first = s.first;
      failed = s.failed;
      renumbered = s.renumbered;
      ahead = s.ahead;
      refusal = s.refusal;
    } };
}

impl<'input, T: BorrowedInput<'input>> Stepper<'input, T> {
    /// Before an input, of which nothing was read.
    pub fn new(alloc: Global, input: T, options: Options) -> Stepper<'input, T>
        ensures start { (h : Here) → T.unread input h.unread → h.place ≡ first_place → h.begins_line ≡ true
            → h.tab ≡ None → StandsIn T.unread result (steps.start_from h) }
        ensures options { result.scanner.options ≡ options_of options }
        ensures input { result.scanner.cursor.input ≡ input }
        ensures renumbered { result.renumbered ≡ false }
    {
        let scanner = ItemScanner::new(alloc, input, options);
        let start = scanner.mark();
        Stepper {
            scanner,
            parser: ParserState::new(alloc, start),
            rooms: Rooms::new(alloc),
            first: Some(start),
            failed: false,
            renumbered: false,
            ahead: None,
            refusal: None,
        }
    }

    /// The place up to which was read.
    pub fn mark(&self) -> Marker
        ensures { (h : Here) → Stands T.unread self.now.scanner.cursor h → result ≡ mark_of h }
    {
        self.scanner.mark()
    }

    /// Whether it isn't known where reading stands, since memory ran out in the midst of a run.
    pub fn is_lost(&self) -> bool
        ensures { result ≡ self.now.scanner.cursor.lost }
    {
        self.scanner.is_lost()
    }

    /// Says whether the handles of `%TAG` but `!` and `!!` stay over documents.
    pub fn set_keep_tags(&mut self, keep_tags: bool)
        ensures { self.new ≡ spec.keeping keep_tags self.old }
    {
        self.scanner.set_keep_tags(keep_tags);
    }

    /// Gives nothing more.
    pub fn stop(&mut self)
        ensures { self.new ≡ record self.old { failed = true } }
    {
        self.failed = true;
    }

    /// The next event, and where it stands, is put in `next`, whatever stood there; none behind the end of the stream,
    /// and behind an error.
    ///
    /// # Errors
    ///
    /// What is wrong with the input there, by the kinds of `docs/FAULTS.md`, `AnchorCountOverflow` at an anchor for
    /// which no number is left, and `NoMemory`.
    pub fn next_event(
        &mut self,
        alloc: Global,
        next: &mut Option<Result<(Event<'input>, Span), ScanError>>,
    )
        ensures known { (m : StepState) → StandsIn T.unread self.old m
            → GivesOr (option_map plain_event) (answer_in next.new) (StandsIn T.unread self.new)
            (steps.next_event self.old.scanner.options m)
            (RefusesNumber self.old.renumbered self.old.scanner.options m) }
        ensures refused { (m : StepState) → StandsIn T.unread self.old m → Turned self.old.scanner.options m
            → RefusesLater T.unread self.old.scanner.options (answer_in next.new) self.new m }
        ensures ahead { (m : StepState) → HoldsRefusal T.unread self.old m
            → GivesAhead T.unread (option_map plain_event) (answer_in next.new) self.new m }
        ensures held { (m : StepState) (e : Fault) → HoldsFault T.unread self.old m e
            → GivesHeld T.unread (option_map plain_event) (answer_in next.new) self.new m e }
        ensures first { self.old.failed ≡ false → self.new.first ≡ None }
        ensures failed { IfErr (answer_in next.new) (λ e. self.new.failed ≡ true) }
        ensures lost { IfErr (answer_in next.new) (λ e. e.kind ≡ faults.NoMemory → self.new.refusal ≡ None) }
        ensures over { self.old.failed ≡ true → (next.new ≡ None) × (self.new ≡ self.old) }
        ensures waiting { self.old.failed ≡ false
            → GivesFirstWaiting (option_map plain_event) (answer_in next.new) self.old self.new }
        ensures ended { StaysAtEnd None (answer_in next.new) self.old self.new }
        ensures at_once { self.old.failed ≡ false → waiting_events self.old ≡ []
            → AnswersFree (answer_in next.new) self.old }
        ensures options { self.new.scanner.options ≡ self.old.scanner.options }
        ensures renumbered { self.new.renumbered ≡ self.old.renumbered }
        ensures moves { Moves T.unread T.left T.origin self.old.scanner.cursor self.new.scanner.cursor }
    {
        if self.failed {
            *next = None;
            return;
        }
        match self.first {
            Some(start) => self.start_stream(start, next),
            None => self.later_event(alloc, next),
        }
    }

    /// The start of the stream is put there. Apart, since room for an event would be cleared on the way of each one.
    #[inline(never)]
    fn start_stream(
        &mut self,
        start: Marker,
        next: &mut Option<Result<(Event<'input>, Span), ScanError>>,
    )
        ensures told { (x : Event × Span) × (next.new ≡ Some (Ok x)) × (plain_event x ≡ event_on StreamStart start) }
        ensures rest { self.new ≡ record self.old { first = None } }
    {
        self.first = None;
        *next = Some(Ok((Event::StreamStart, Span::empty(start))));
    }

    /// Whether a call failed: nothing more is given.
    pub fn has_failed(&self) -> bool
        ensures { result ≡ self.now.failed }
    {
        self.failed
    }

    /// The first error of the input's source, once, at the place up to which was read. Nothing more is given then, and
    /// recovery is refused.
    pub fn take_source_error(&mut self) -> Option<ScanError>
        ensures given { option_map spec.refused_kind result ≡ error_given (T.origin self.old.scanner.cursor.input) }
        ensures place { IfSome result (λ e. (e.mark.place ≡ self.new.scanner.cursor.place) × (e.sources ≡ [])) }
        ensures offset { IfSome result (λ e.
            is_some e.mark.byte_offset ≡ (T.origin self.new.scanner.cursor.input).tells_offset) }
        ensures here { (h : Here) → Stands T.unread self.old.scanner.cursor h
            → IfSome result (λ e. e.mark ≡ mark_of h) }
        ensures known { (m : StepState) → StandsIn T.unread self.old m → result ≡ None → StandsIn T.unread self.new m }
        ensures refused { (m : StepState) (e : Fault) → StandsRefused T.unread self.old m e → result ≡ None
            → StandsRefused T.unread self.new m e }
        ensures held { (m : StepState) → HoldsRefusal T.unread self.old m → result ≡ None
            → HoldsRefusal T.unread self.new m }
        ensures rest { result ≡ None → SameButCursor self.old self.new }
        ensures first { self.new.first ≡ self.old.first }
        ensures ahead { self.new.ahead ≡ self.old.ahead }
        ensures ended { result ≡ None → self.new.refusal ≡ self.old.refusal }
        ensures lost { IfSome result (λ e. self.new.refusal ≡ None) }
        ensures failed { self.new.failed ≡ (self.old.failed || is_some result) }
        ensures options { self.new.scanner.options ≡ self.old.scanner.options }
        ensures renumbered { self.new.renumbered ≡ self.old.renumbered }
        ensures left { T.left self.new.scanner.cursor.input ≤ T.left self.old.scanner.cursor.input }
        ensures origin { Gave (T.origin self.old.scanner.cursor.input) (T.origin self.new.scanner.cursor.input) }
        ensures onward { GoesOnward T.unread self.old.scanner.cursor self.new.scanner.cursor }
    {
        let mark = self.scanner.mark();
        let kind = self.scanner.take_source_error()?;
        self.failed = true;
        self.refusal = None;
        Some(ScanError::from_kind(mark, kind))
    }

    /// The error that the source ends with, once: what is left is passed, unread, up to the end of the input.
    pub fn end_error(&mut self) -> Option<ScanError>
        ensures told { (f : Option FaultKind) → (T.origin self.old.scanner.cursor.input).ends_with f
            → (T.origin self.old.scanner.cursor.input).handed_out ≡ false
            → option_map spec.refused_kind result ≡ f }
        ensures place { IfSome result (λ e. (e.mark.place ≡ self.new.scanner.cursor.place) × (e.sources ≡ [])) }
        ensures offset { IfSome result (λ e.
            is_some e.mark.byte_offset ≡ (T.origin self.old.scanner.cursor.input).tells_offset) }
        ensures failed { self.new.failed ≡ (self.old.failed || is_some result) }
        ensures options { self.new.scanner.options ≡ self.old.scanner.options }
        ensures renumbered { self.new.renumbered ≡ self.old.renumbered }
        ensures onward { GoesOnward T.unread self.old.scanner.cursor self.new.scanner.cursor }
    {
        self.pass_rest();
        self.take_source_error()
    }

    /// Passes what is left, unread, up to the end of the input.
    fn pass_rest(&mut self)
        ensures ended { (T.origin self.new.scanner.cursor.input).knows_end ≡ true }
        ensures failed { self.new.failed ≡ self.old.failed }
        ensures options { self.new.scanner.options ≡ self.old.scanner.options }
        ensures renumbered { self.new.renumbered ≡ self.old.renumbered }
        ensures goes { Goes (T.origin self.old.scanner.cursor.input) (T.origin self.new.scanner.cursor.input) }
        ensures onward { GoesOnward T.unread self.old.scanner.cursor self.new.scanner.cursor }
    {
        self.scanner.pass_rest();
    }

    /// The next event behind the start of the stream.
    fn later_event(
        &mut self,
        alloc: Global,
        next: &mut Option<Result<(Event<'input>, Span), ScanError>>,
    )
        ensures known { (m : StepState) → StandsIn T.unread self.old m → self.old.first ≡ None
            → GivesOr (option_map plain_event) (answer_in next.new) (StandsIn T.unread self.new)
            (steps.next_event self.old.scanner.options m)
            (RefusesNumber self.old.renumbered self.old.scanner.options m) }
        ensures refused { (m : StepState) → StandsIn T.unread self.old m → self.old.first ≡ None
            → Turned self.old.scanner.options m
            → RefusesLater T.unread self.old.scanner.options (answer_in next.new) self.new m }
        ensures ahead { (m : StepState) → HoldsRefusal T.unread self.old m
            → GivesAhead T.unread (option_map plain_event) (answer_in next.new) self.new m }
        ensures held { (m : StepState) (e : Fault) → HoldsFault T.unread self.old m e
            → GivesHeld T.unread (option_map plain_event) (answer_in next.new) self.new m e }
        ensures first { self.new.first ≡ self.old.first }
        ensures failed { IfErr (answer_in next.new) (λ e. self.new.failed ≡ true) }
        ensures lost { IfErr (answer_in next.new) (λ e. e.kind ≡ faults.NoMemory → self.new.refusal ≡ None) }
        ensures waiting { self.old.first ≡ None
            → GivesFirstWaiting (option_map plain_event) (answer_in next.new) self.old self.new }
        ensures ended { StaysAtEnd None (answer_in next.new) self.old self.new }
        ensures at_once { self.old.parser.given ≡ [] → AnswersFree (answer_in next.new) self.old }
        ensures options { self.new.scanner.options ≡ self.old.scanner.options }
        ensures renumbered { self.new.renumbered ≡ self.old.renumbered }
        ensures moves { Moves T.unread T.left T.origin self.old.scanner.cursor self.new.scanner.cursor }
    {
        let mut fault = None;
        match self.settle(alloc, &mut fault) {
            Ok(()) => self.put_waiting(next),
            Err(refused) => self.put_refusal(fault, refused, next),
        }
    }

    /// The first event that waits is put there, or nothing more: from where it stood, so that it is moved but once.
    #[inline(always)]
    fn put_waiting(&mut self, next: &mut Option<Result<(Event<'input>, Span), ScanError>>)
        ensures first { (x : Option (Event × Span)) × (answer_in next.new ≡ Ok x)
            × (option_map plain_event x ≡ slice_get self.old.parser.given 0) }
        ensures rest { self.new ≡ record self.old {
          parser = record (self.old.parser) { given = drop 1 self.old.parser.given };
        } }
    {
        let Some(event) = self.parser.pop_event() else {
            *next = None;
            return;
        };
        *next = Some(Ok(event));
    }

    /// The refusal is put there, and nothing more is given. Apart, as the start of the stream.
    #[inline(never)]
    fn put_refusal(
        &mut self,
        fault: Option<ScanError>,
        refused: Refused,
        next: &mut Option<Result<(Event<'input>, Span), ScanError>>,
    )
        ensures told { next.new ≡ Some (Err (why fault refused)) }
        ensures kept { ((why fault refused).kind ≡ faults.NoMemory → ⊥)
            → self.new ≡ record self.old { failed = true } }
        ensures lost { (why fault refused).kind ≡ faults.NoMemory → self.new.refusal ≡ None }
        ensures rest { self.new ≡ record self.old { failed = true; refusal = self.new.refusal } }
    {
        let error = error_of(fault, refused);
        self.fail(&error);
        *next = Some(Err(error));
    }

    /// Nothing more is given, and behind a want of memory recovery is refused.
    pub(crate) fn fail(&mut self, error: &ScanError)
        ensures kept { (error.now.kind ≡ faults.NoMemory → ⊥) → self.new ≡ record self.old { failed = true } }
        ensures lost { error.now.kind ≡ faults.NoMemory → self.new.refusal ≡ None }
        ensures rest { self.new ≡ record self.old { failed = true; refusal = self.new.refusal } }
    {
        self.failed = true;
        self.refusal = unless_memory(self.refusal.take(), error);
    }

    /// Turns until an event waits, or nothing is left.
    pub(crate) fn settle(
        &mut self,
        alloc: Global,
        fault: &mut Option<ScanError>,
    ) -> Result<(), Refused>
        ensures known { (m : StepState) → StandsIn T.unread self.old m → self.old.first ≡ None
            → GivesOr spec.no_events (answered fault.new result) (StandsIn T.unread self.new)
            (steps.settle self.old.scanner.options m)
            (RefusesNumber self.new.renumbered self.old.scanner.options m) }
        ensures refused { (m : StepState) → StandsIn T.unread self.old m → self.old.first ≡ None
            → Turned self.old.scanner.options m → RefusesLater T.unread self.old.scanner.options
            (answered fault.new result) self.new m }
        ensures ahead { SettlesAhead (answered fault.new result) self.old self.new }
        ensures waiting { StaysWaiting tt (answered fault.new result) self.old self.new }
        ensures ended { StaysTaken tt (answered fault.new result) self.old self.new }
        ensures at_once { self.old.parser.given ≡ [] → AnswersFree (answered fault.new result) self.old }
        ensures keeps { Keeps self.old self.new }
        ensures moves { Moves T.unread T.left T.origin self.old.scanner.cursor self.new.scanner.cursor }
    {
        match self.ahead {
            Some(_) => self.settle_ahead(fault),
            None => self.settle_on(alloc, fault),
        }
    }

    /// The same where a turn was made ahead: what waits is given, and then it is refused.
    fn settle_ahead(&mut self, fault: &mut Option<ScanError>) -> Result<(), Refused>
        ensures ahead { SettlesAhead (answered fault.new result) self.old self.new }
        ensures waiting { StaysWaiting tt (answered fault.new result) self.old self.new }
        ensures keeps { Keeps self.old self.new }
        ensures moves { Moves T.unread T.left T.origin self.old.scanner.cursor self.new.scanner.cursor }
    {
        if self.parser.has_event() {
            return Ok(());
        }
        match self.refuse_ahead(fault) {
            Ok(_) => Ok(()),
            Err(refused) => Err(refused),
        }
    }

    /// The same where none was.
    fn settle_on(&mut self, alloc: Global, fault: &mut Option<ScanError>) -> Result<(), Refused>
        ensures known { (m : StepState) → StandsIn T.unread self.old m → self.old.first ≡ None
            → GivesOr spec.no_events (answered fault.new result) (StandsIn T.unread self.new)
            (steps.settle self.old.scanner.options m)
            (RefusesNumber self.new.renumbered self.old.scanner.options m) }
        ensures refused { (m : StepState) → StandsIn T.unread self.old m → self.old.first ≡ None
            → Turned self.old.scanner.options m → RefusesLater T.unread self.old.scanner.options
            (answered fault.new result) self.new m }
        ensures waiting { StaysWaiting tt (answered fault.new result) self.old self.new }
        ensures ended { StaysTaken tt (answered fault.new result) self.old self.new }
        ensures at_once { self.old.parser.given ≡ [] → AnswersFree (answered fault.new result) self.old }
        ensures keeps { Keeps self.old self.new }
        ensures moves { Moves T.unread T.left T.origin self.old.scanner.cursor self.new.scanner.cursor }
    {
        // Over an input of which nothing is known no number falls with each turn, so the turns are counted.
        'turns: for _turn in 0..u64::MAX {
            if !self.turn(alloc, fault)? {
                return Ok(());
            }
        }
        Err(Refused::Memory)
    }

    /// One turn: the oldest item is fed where it may go, and else one more read is made; false where an event waits or
    /// nothing is left.
    fn turn(&mut self, alloc: Global, fault: &mut Option<ScanError>) -> Result<bool, Refused>
        ensures known { (m : StepState) → StandsIn T.unread self.old m → self.old.first ≡ None
            → GivesOr spec.turn_view (answered fault.new result) (StandsIn T.unread self.new)
            (steps.step_turn self.old.scanner.options m)
            (RefusesNumber self.new.renumbered self.old.scanner.options m) }
        ensures refused { (m : StepState) → StandsIn T.unread self.old m → self.old.first ≡ None
            → NoneWaitsOutside m.parser → RefusesIn T.unread (answered fault.new result) self.new m }
        ensures ahead { TurnsAhead (answered fault.new result) self.old self.new }
        ensures waiting { StaysWaiting false (answered fault.new result) self.old self.new }
        ensures ended { StaysTaken false (answered fault.new result) self.old self.new }
        ensures at_once { self.old.parser.given ≡ [] → AnswersRefused (answered fault.new result) self.old }
        ensures eventless { self.old.parser.given ≡ [] → AnswersPassed (answered fault.new result) self.old self.new }
        ensures keeps { Keeps self.old self.new }
        ensures moves { Moves T.unread T.left T.origin self.old.scanner.cursor self.new.scanner.cursor }
    {
        if self.parser.has_event() {
            return Ok(false);
        }
        self.advance(alloc, fault)
    }

    /// The same where no event waits. A turn that was made ahead and refused is refused by it.
    pub(crate) fn advance(
        &mut self,
        alloc: Global,
        fault: &mut Option<ScanError>,
    ) -> Result<bool, Refused>
        ensures known { (m : StepState) → StandsIn T.unread self.old m → self.old.first ≡ None → m.pending ≡ []
            → GivesOr spec.turn_view (answered fault.new result) (StandsIn T.unread self.new)
            (steps.step_turn self.old.scanner.options m)
            (RefusesNumber self.new.renumbered self.old.scanner.options m) }
        ensures refused { (m : StepState) → StandsIn T.unread self.old m → self.old.first ≡ None → m.pending ≡ []
            → NoneWaitsOutside m.parser → RefusesIn T.unread (answered fault.new result) self.new m }
        ensures early { (m : StepState) → StandsIn T.unread self.old m → self.old.first ≡ None
            → GivesOr spec.turn_view (answered fault.new result) (StandsIn T.unread self.new)
            (turn_ahead self.old.scanner.options m)
            (RefusesNumber self.new.renumbered self.old.scanner.options (with_pending [] m)) }
        ensures ahead { IfSome self.old.ahead
            (λ f. (answered fault.new result ≡ Err f) × (self.new ≡ record self.old { ahead = None })) }
        ensures ended { StaysTaken false (answered fault.new result) self.old self.new }
        ensures at_once { AnswersRefused (answered fault.new result) self.old }
        ensures eventless { AnswersPassed (answered fault.new result) self.old self.new }
        ensures keeps { Keeps self.old self.new }
        ensures moves { Moves T.unread T.left T.origin self.old.scanner.cursor self.new.scanner.cursor }
    {
        match self.ahead {
            Some(_) => self.refuse_ahead(fault),
            None => self.advance_on(alloc, fault),
        }
    }

    /// The same, where why it is refused is the answer.
    pub(crate) fn advance_alone(&mut self, alloc: Global) -> Result<bool, ScanError>
        ensures known { (m : StepState) → StandsIn T.unread self.old m → self.old.first ≡ None → m.pending ≡ []
            → GivesOr spec.turn_view result (StandsIn T.unread self.new)
            (steps.step_turn self.old.scanner.options m)
            (RefusesNumber self.new.renumbered self.old.scanner.options m) }
        ensures refused { (m : StepState) → StandsIn T.unread self.old m → self.old.first ≡ None → m.pending ≡ []
            → NoneWaitsOutside m.parser → RefusesIn T.unread result self.new m }
        ensures ahead { IfSome self.old.ahead (λ f. (result ≡ Err f) × (self.new ≡ record self.old { ahead = None })) }
        ensures keeps { Keeps self.old self.new }
        ensures moves { Moves T.unread T.left T.origin self.old.scanner.cursor self.new.scanner.cursor }
    {
        let mut fault = None;
        match self.advance(alloc, &mut fault) {
            Ok(made) => Ok(made),
            Err(refused) => Err(error_of(fault, refused)),
        }
    }

    /// The turn that was made ahead is refused, if there was one.
    fn refuse_ahead(&mut self, fault: &mut Option<ScanError>) -> Result<bool, Refused>
        ensures ahead { IfSome self.old.ahead
            (λ f. (answered fault.new result ≡ Err f) × (self.new ≡ record self.old { ahead = None })) }
        ensures keeps { Keeps self.old self.new }
        ensures moves { Moves T.unread T.left T.origin self.old.scanner.cursor self.new.scanner.cursor }
    {
        match self.ahead.take() {
            Some(error) => Err(refuse(fault, error)),
            None => Ok(false),
        }
    }

    fn advance_on(&mut self, alloc: Global, fault: &mut Option<ScanError>) -> Result<bool, Refused>
        ensures known { (m : StepState) → StandsIn T.unread self.old m → self.old.first ≡ None → m.pending ≡ []
            → GivesOr spec.turn_view (answered fault.new result) (StandsIn T.unread self.new)
            (steps.step_turn self.old.scanner.options m)
            (RefusesNumber self.new.renumbered self.old.scanner.options m) }
        ensures refused { (m : StepState) → StandsIn T.unread self.old m → self.old.first ≡ None → m.pending ≡ []
            → NoneWaitsOutside m.parser → RefusesIn T.unread (answered fault.new result) self.new m }
        ensures early { (m : StepState) → StandsIn T.unread self.old m → self.old.first ≡ None
            → GivesOr spec.turn_view (answered fault.new result) (StandsIn T.unread self.new)
            (turn_ahead self.old.scanner.options m)
            (RefusesNumber self.new.renumbered self.old.scanner.options (with_pending [] m)) }
        ensures ended { StaysTaken false (answered fault.new result) self.old self.new }
        ensures at_once { AnswersRefused (answered fault.new result) self.old }
        ensures eventless { AnswersPassed (answered fault.new result) self.old self.new }
        ensures keeps { Keeps self.old self.new }
        ensures moves { Moves T.unread T.left T.origin self.old.scanner.cursor self.new.scanner.cursor }
    {
        match self.take_free() {
            Some(front) => self.take_item(alloc, fault, front),
            None => self.read_more(alloc, fault),
        }
    }

    /// The oldest item, where it may go, with the line of what stands behind it where the item asks for that.
    fn take_free(&mut self) -> Option<Front<'input>>
        ensures known { (m : StepState) → StandsIn T.unread self.old m
            → TakesFree T.unread (option_map front_view result) self.new m }
        ensures ended { AllTaken self.old → (result ≡ None) × (self.new ≡ self.old) }
        ensures taken { TakesGoing (option_map front_view result) self.old self.new }
        ensures none { self.old.scanner.queue ≡ [] → (result ≡ None) × (self.new ≡ self.old) }
        ensures keeps { Keeps self.old self.new }
        ensures parser { self.new.parser ≡ self.old.parser }
        ensures cursor { self.new.scanner.cursor ≡ self.old.scanner.cursor }
    {
        if self.scanner.front_may_go() {
            self.scanner.take_asked()
        } else {
            None
        }
    }

    /// The parser takes an item; no anchor may get the greatest number by it. Where it is refused it gives no event.
    fn take_item(
        &mut self,
        alloc: Global,
        fault: &mut Option<ScanError>,
        front: Front<'input>,
    ) -> Result<bool, Refused>
        ensures known { (m : StepState) → StandsIn T.unread self.old m → self.old.first ≡ None → m.pending ≡ []
            → GivesOr spec.turn_view (answered fault.new result) (StandsIn T.unread self.new)
            (spec.feed_item self.old.scanner.options (front_view front.entry) m)
            (λ e. (self.new.renumbered ≡ true)
            × GetsLast self.old.scanner.options (front_view front.entry) m.parser e) }
        ensures refused { (m : StepState) → StandsIn T.unread self.old m → self.old.first ≡ None → m.pending ≡ []
            → NoneWaitsOutside m.parser → RefusesItem T.unread (front_view front.entry)
            (answered fault.new result) self.new m }
        ensures early { (m : StepState) → StandsIn T.unread self.old m → self.old.first ≡ None
            → GivesOr spec.turn_view (answered fault.new result) (StandsIn T.unread self.new)
            (behind_waiting m.pending
            (spec.feed_item self.old.scanner.options (front_view front.entry) (with_pending [] m)))
            (λ e. (self.new.renumbered ≡ true)
            × GetsLast self.old.scanner.options (front_view front.entry) m.parser e) }
        ensures at_once { AnswersItemRefused (answered fault.new result) (front_view front.entry) self.old }
        ensures eventless { AnswersItemPassed (answered fault.new result) (front_view front.entry) self.old self.new }
        ensures keeps { Keeps self.old self.new }
        ensures scanner { self.new.scanner ≡ self.old.scanner }
    {
        if is_mark(&front.queued.item) {
            return self.take_mark(alloc, fault, front);
        }
        self.take_other(alloc, fault, front)
    }

    /// The same of any item, of which a mark is kept for what comes of its refusal. Apart, since marks are few.
    #[inline(never)]
    fn take_mark(
        &mut self,
        alloc: Global,
        fault: &mut Option<ScanError>,
        front: Front<'input>,
    ) -> Result<bool, Refused>
        ensures known { (m : StepState) → StandsIn T.unread self.old m → self.old.first ≡ None → m.pending ≡ []
            → GivesOr spec.turn_view (answered fault.new result) (StandsIn T.unread self.new)
            (spec.feed_item self.old.scanner.options (front_view front.entry) m)
            (λ e. (self.new.renumbered ≡ true)
            × GetsLast self.old.scanner.options (front_view front.entry) m.parser e) }
        ensures refused { (m : StepState) → StandsIn T.unread self.old m → self.old.first ≡ None → m.pending ≡ []
            → NoneWaitsOutside m.parser → RefusesItem T.unread (front_view front.entry)
            (answered fault.new result) self.new m }
        ensures early { (m : StepState) → StandsIn T.unread self.old m → self.old.first ≡ None
            → GivesOr spec.turn_view (answered fault.new result) (StandsIn T.unread self.new)
            (behind_waiting m.pending
            (spec.feed_item self.old.scanner.options (front_view front.entry) (with_pending [] m)))
            (λ e. (self.new.renumbered ≡ true)
            × GetsLast self.old.scanner.options (front_view front.entry) m.parser e) }
        ensures keeps { Keeps self.old self.new }
        ensures scanner { self.new.scanner ≡ self.old.scanner }
    {
        let Front { queued, next_line } = front;
        let Queued {
            item,
            begins_key: begins,
        } = queued;
        let anchor = last_anchor(self.parser.anchor_count(), &item);
        let refusal = Refusal::at_item(alloc, &self.parser, &item)?;
        let options = self.scanner.options();
        let fed = feed(
            &mut self.parser,
            fault,
            alloc,
            options,
            item,
            begins,
            next_line,
            &mut self.rooms,
        );
        match self.unless_numberless(fault, fed, anchor) {
            Ok(()) => {
                drop(refusal);
                Ok(true)
            }
            Err(refused) => {
                self.parser.drop_events();
                self.refusal = refusal.by(fault, refused);
                Err(refused)
            }
        }
    }

    /// The same of an item that is no mark.
    fn take_other(
        &mut self,
        alloc: Global,
        fault: &mut Option<ScanError>,
        front: Front<'input>,
    ) -> Result<bool, Refused>
        requires { mark_of_item (front_view front).0.item ≡ None }
        ensures known { (m : StepState) → StandsIn T.unread self.old m → self.old.first ≡ None → m.pending ≡ []
            → GivesOr spec.turn_view (answered fault.new result) (StandsIn T.unread self.new)
            (spec.feed_item self.old.scanner.options (front_view front.entry) m)
            (λ e. (self.new.renumbered ≡ true)
            × GetsLast self.old.scanner.options (front_view front.entry) m.parser e) }
        ensures refused { (m : StepState) → StandsIn T.unread self.old m → self.old.first ≡ None → m.pending ≡ []
            → NoneWaitsOutside m.parser → RefusesItem T.unread (front_view front.entry)
            (answered fault.new result) self.new m }
        ensures early { (m : StepState) → StandsIn T.unread self.old m → self.old.first ≡ None
            → GivesOr spec.turn_view (answered fault.new result) (StandsIn T.unread self.new)
            (behind_waiting m.pending
            (spec.feed_item self.old.scanner.options (front_view front.entry) (with_pending [] m)))
            (λ e. (self.new.renumbered ≡ true)
            × GetsLast self.old.scanner.options (front_view front.entry) m.parser e) }
        ensures at_once { AnswersItemRefused (answered fault.new result) (front_view front.entry) self.old }
        ensures eventless { AnswersItemPassed (answered fault.new result) (front_view front.entry) self.old self.new }
        ensures keeps { Keeps self.old self.new }
        ensures scanner { self.new.scanner ≡ self.old.scanner }
    {
        let Front { queued, next_line } = front;
        let Queued { item, begins_key } = queued;
        let anchor = last_anchor(self.parser.anchor_count(), &item);
        let before = Before::at_item(&self.parser, &item);
        let options = self.scanner.options();
        let fed = feed(
            &mut self.parser,
            fault,
            alloc,
            options,
            item,
            begins_key,
            next_line,
            &mut self.rooms,
        );
        match self.unless_numberless(fault, fed, anchor) {
            Ok(()) => Ok(true),
            Err(refused) => {
                self.parser.drop_events();
                self.refusal = before.by(fault, refused);
                Err(refused)
            }
        }
    }

    /// What was answered, unless an anchor got the greatest number by it.
    fn unless_numberless(
        &self,
        fault: &mut Option<ScanError>,
        fed: Result<(), Refused>,
        anchor: Option<Marker>,
    ) -> Result<(), Refused>
        ensures { UnlessNumberless self.now (answered fault.old fed) anchor (answered fault.new result) }
    {
        fed?;
        if self.parser.is_numbered_out() {
            return Err(self.refuse_numberless(fault, anchor));
        }
        Ok(())
    }

    fn refuse_numberless(&self, fault: &mut Option<ScanError>, anchor: Option<Marker>) -> Refused
        ensures { IsNumberless self.now.renumbered anchor (why fault.new result) }
    {
        refuse(fault, self.numberless(anchor))
    }

    /// Why an anchor may not have the greatest number: none is left behind it, or, where no number was ever set, there
    /// would be more anchors than memory holds.
    fn numberless(&self, anchor: Option<Marker>) -> ScanError
        ensures { IsNumberless self.now.renumbered anchor result }
    {
        match anchor {
            Some(start) => {
                if self.renumbered {
                    ScanError::from_kind(start, ErrorKind::AnchorCountOverflow)
                } else {
                    ScanError::from(NoMemory)
                }
            }
            None => ScanError::from(NoMemory),
        }
    }

    /// One more read, or the fault of the one before; false behind the end.
    fn read_more(&mut self, alloc: Global, fault: &mut Option<ScanError>) -> Result<bool, Refused>
        ensures known { (m : StepState) → StandsIn T.unread self.old m → may_front_go m.reading m.queue ≡ false
            → GivesTo spec.turn_view (answered fault.new result) (StandsIn T.unread self.new)
            (steps.read_more self.old.scanner.options m.reading.ended m) }
        ensures refused { (m : StepState) → StandsIn T.unread self.old m → self.old.first ≡ None → m.pending ≡ []
            → may_front_go m.reading m.queue ≡ false → RefusesIn T.unread (answered fault.new result) self.new m }
        ensures ended { StaysTaken false (answered fault.new result) self.old self.new }
        ensures at_once { (e : Fault) → self.old.scanner.fault ≡ Some e → answered fault.new result ≡ Err e }
        ensures keeps { Keeps self.old self.new }
        ensures moves { Moves T.unread T.left T.origin self.old.scanner.cursor self.new.scanner.cursor }
    {
        if self.scanner.is_over() {
            return self.end(fault);
        }
        self.scanner.read_on(alloc, &mut self.rooms)?;
        Ok(true)
    }

    /// Reading is over: by a fault, or at the end.
    fn end(&mut self, fault: &mut Option<ScanError>) -> Result<bool, Refused>
        ensures known { (m : StepState) → StandsIn T.unread self.old m → steps.is_over m.reading ≡ true
            → GivesTo spec.turn_view (answered fault.new result) (StandsIn T.unread self.new)
            (steps.read_more self.old.scanner.options m.reading.ended m) }
        ensures refused { (m : StepState) → StandsIn T.unread self.old m → self.old.first ≡ None → m.pending ≡ []
            → may_front_go m.reading m.queue ≡ false → RefusesIn T.unread (answered fault.new result) self.new m }
        ensures ended { StaysTaken false (answered fault.new result) self.old self.new }
        ensures at_once { (e : Fault) → self.old.scanner.fault ≡ Some e → answered fault.new result ≡ Err e }
        ensures keeps { Keeps self.old self.new }
        ensures cursor { self.new.scanner.cursor ≡ self.old.scanner.cursor }
    {
        match self.scanner.take_fault() {
            None => Ok(false),
            Some(error) => {
                self.refusal = Some(Refusal::at_read(&self.parser));
                Err(refuse(fault, error))
            }
        }
    }
}

/// A refusal behind which reading may go on: none where memory ran out.
fn unless_memory<'input>(
    refusal: Option<Refusal<'input>>,
    error: &ScanError,
) -> Option<Refusal<'input>>
    ensures kept { (error.now.kind ≡ faults.NoMemory → ⊥) → result ≡ refusal.entry }
    ensures lost { error.now.kind ≡ faults.NoMemory → result ≡ None }
{
    if wants_memory(error) { None } else { refusal }
}

/// Where an anchor begins that may get the greatest number, where so many were read: no other is asked for.
fn last_anchor(count: usize, item: &Item<'_>) -> Option<Marker>
    ensures { result ≡ numbers.last_anchor count (item_view item.now) }
{
    if count >= usize::MAX - 1 {
        anchor_start(item)
    } else {
        None
    }
}

/// Where an anchor begins; none of another item.
fn anchor_start(item: &Item<'_>) -> Option<Marker>
    ensures { result ≡ numbers.anchor_start (item_view item.now) }
{
    match item {
        Item::Lexeme(lexeme) => {
            if is_anchor(&lexeme.kind) {
                Some(lexeme.shown_start)
            } else {
                None
            }
        }
        Item::Note(_) => None,
    }
}

fn is_anchor(kind: &LexemeKind<'_>) -> bool
    ensures { result ≡ numbers.is_anchor (kind_view kind.now) }
{
    matches!(kind, LexemeKind::Anchor(_))
}
