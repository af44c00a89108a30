//! An input that is read into events, one for each call, with a look at the next.
ghost use mir.Syntax.{named};
ghost use Rattle.std.specs.Prelude.{◌≡◌, ◌||◌, ◌⊎◌, ◌<◌, ◌^◌, ℕ, List, [], true, false, None, Option, Some, IfSome};
ghost use Rattle.std.specs.Prelude.{is_some, Err, IfOk, IsOk, Result};
ghost use Rattle.std.specs.Option.{option_map};
ghost use Rattle.std.specs.Borrow.{sem};
ghost use Rattle.std.specs.Io.BufRead.{Rests};
ghost use Rattle.std.specs.Iterator.{size};
ghost use Rattle.std.specs.Str.{chars};
ghost use Rattle.granit_buffered.specs.Fallible.{characters_of, first_error};
ghost use Rattle.granit_buffered.specs.Feeds.{GivesOnly};
ghost use Rattle.granit_cursor.specs.Reading.{GoesOnward};
ghost use Rattle.granit_error.specs.FaultKind.{FaultKind, wants_memory};
ghost use Rattle.granit_error.specs.Refused.{Refused};
ghost use Rattle.granit_error.specs.OptionsData.{default_options};
ghost use Rattle.granit_error.specs.OptionsView.{options_of};
ghost use Rattle.granit_error.specs.declared.kind.ErrorKind.{ErrorKind};
ghost use Rattle.granit_input.specs.Strings.{LeftInString};
ghost use Rattle.granit_lexemes.specs.Here.{Here, first_place};
ghost use Rattle.granit_lexemes.specs.Outcome.{Fault};
ghost use Rattle.granit_lexemes.specs.PlainEvent.{PlainEvent};
ghost use Rattle.granit_parser.specs.Holding.{ParserHolds, WaitsBehind};
ghost use Rattle.granit_parser.specs.Alone.{EndsAlone};
ghost use Rattle.granit_parser.specs.Parsing.{EndsBehind, EndsText, EndsTold, IsOver, KeepsGiven, LeadsTo};
ghost use Rattle.granit_parser.specs.Parsing.{ParserPeeksAs, StandsAt, Starves, notes_answered};
ghost use Rattle.granit_parser.specs.Recovering.{ForCalls, GivesCall, CallGivesHeld, GivesSeen, IsClosed, IsOpen};
ghost use Rattle.granit_parser.specs.Recovering.{LookShowsHeld, ParserIn, PeeksIn, SeenBy, ShowsFirst, notes_between};
ghost use Rattle.granit_parser.specs.Recovering.{notes_over, seen_in};
ghost use Rattle.granit_parser.specs.Resuming.{Resumed, ResumesCall};
ghost use Rattle.granit_parser.specs.Streams.{bare_text_start};
ghost use Rattle.granit_parser.specs.contracts.parser.Parser.{the_row};
ghost use Rattle.granit_receivers.specs.Kept.{IsKept};
ghost use Rattle.granit_receivers.specs.Sending.{shown};
ghost use Rattle.granit_recovery.specs.Streams.{ReachedByCalls, calls_from};
ghost use Rattle.granit_restart.specs.Calls.{Calls, calls_start};
ghost use Rattle.granit_restart.specs.Skipping.{Stops};
ghost use Rattle.granit_sourced.specs.Going.{ReadsHeld, ReadsNext};
ghost use Rattle.granit_sourced.specs.Giving.{EndsWith, GivesNext, StepsBy};
ghost use Rattle.granit_sourced.specs.Sources.{IfUnseen, MovesUnless, NeverRecovers, TellsError, TellsSource};
ghost use Rattle.granit_sourced.specs.Waiting.{GivesAtOnce};
ghost use Rattle.granit_stepper.specs.Stepping.{refused_kind};
ghost use Rattle.granit_chains.specs.Chains.{TellsMoved};
ghost use Rattle.granit_shifted.specs.Shift.{Shift};
ghost use Rattle.granit_steps.specs.Steps as steps;
ghost use Rattle.granit_steps.specs.Steps.{StepState};
ghost use Rattle.granit_steps.specs.Told.{told_from};

use granit_base::{NoMemory, Span};
use granit_buffered::{BufferedInput, FallibleBufferedInput, Source};
use granit_calls::an_open_call_gives_something;
use granit_error::{ErrorKind, Options, ScanError};
use granit_event::Event;
use granit_input::{BorrowedInput, Input, StrInput};
use granit_receivers::kept;
use granit_seen::{Seen, seen_of};
use granit_sourced::{open_fallible, open_iter, open_str, read_event, step_event};
use granit_stepper::Stepper;
use std::alloc::Global;
use std::iter::FusedIterator;
use std::marker::Model;
use std::mem;

/// An input that is read into events, one for each call.
#[derive(Drop)]
pub struct Parser<'input, T: Input> {
    pub(crate) alloc: Global,
    pub(crate) stepper: Stepper<'input, T>,
    // What was looked at and not taken. No other file can put anything there.
    peeked: Option<Result<(Event<'input>, Span), ScanError>>,
    // The refusal that was given.
    pub(crate) given: Option<ScanError>,
    // A call gave it, for want of memory. No other file can say so.
    starved: bool,
    // The end of a document was the last that was given, comments aside, or recovery told that no other comes.
    pub(crate) between: bool,
    // The end of the stream was given.
    pub(crate) over: bool,
    // Recovery told that a document is there, and nothing was given since.
    pub(crate) answered: bool,
}

impl<'input, T: Input> Model for Parser<'input, T> {
    ghost use Rattle.granit_parser.specs.Parsing.{EndsBehind, Parsing, StarvedBy};

    ghost Value = { Parsing T };

    ghost view = { λ p. record {
      stepper = p.stepper;
      peeked = p.peeked;
      given = p.given;
      starved = p.starved;
      between = p.between;
      over = p.over;
      answered = p.answered;
    } };

    // nothing is read behind a refusal, and without one no memory was wanted
    ghost invariant = { λ p. EndsBehind p.peeked p.given p.stepper × StarvedBy p.starved p.given };
}

// A parser by whose stepper nothing was given. No function, since a call by an input's own type costs the proof of all
// that it promises.
macro_rules! before {
    ($alloc:expr, $stepper:expr) => {
        Parser {
            alloc: $alloc,
            stepper: $stepper,
            peeked: None,
            given: None,
            starved: false,
            between: false,
            over: false,
            answered: false,
        }
    };
}

impl<'input> Parser<'input, StrInput<'input>> {
    /// Before a string, read with the default options.
    pub fn new_from_str(alloc: Global, value: &'input str) -> Parser<'input, StrInput<'input>>
        ensures start { StandsAt LeftInString result (steps.steps_start (chars value.now)) }
        ensures calls { ParserIn LeftInString result (calls_start (chars value.now)) }
        ensures options { result.stepper.scanner.options ≡ default_options }
        ensures unseen { result.peeked ≡ None }
        ensures unasked { result.answered ≡ false }
        ensures renumbered { result.stepper.renumbered ≡ false }
    {
        Parser::new_from_str_with_options(alloc, value, Options::default())
    }

    /// Before a string.
    pub fn new_from_str_with_options(
        alloc: Global,
        value: &'input str,
        options: Options,
    ) -> Parser<'input, StrInput<'input>>
        ensures start { StandsAt LeftInString result (steps.steps_start (chars value.now)) }
        ensures calls { ParserIn LeftInString result (calls_start (chars value.now)) }
        ensures options { result.stepper.scanner.options ≡ options_of options }
        ensures unseen { result.peeked ≡ None }
        ensures unasked { result.answered ≡ false }
        ensures renumbered { result.stepper.renumbered ≡ false }
    {
        before!(alloc, open_str(alloc, value, options))
    }
}

impl<'input, T: Source<Item = char>> Parser<'input, BufferedInput<T>> {
    /// Before the characters of an iterator. Markers tell no byte offset.
    ///
    /// # Errors
    ///
    /// None: nothing is allocated.
    pub fn new_from_iter_with_options(
        alloc: Global,
        iter: T,
        options: Options,
    ) -> Result<Parser<'input, BufferedInput<T>>, NoMemory>
        requires { size (T.remaining iter) < 2 ^ 63 }
        ensures start { IfOk result (λ p. (x : List ℕ) → GivesOnly T.next_gives T.remaining iter x
            → StandsAt ⟦<BufferedInput<T> as Input>⟧.unread p (steps.start_from (bare_text_start x))) }
        ensures calls { IfOk result (λ p. (x : List ℕ) → GivesOnly T.next_gives T.remaining iter x
            → ParserIn ⟦<BufferedInput<T> as Input>⟧.unread p (calls_from (bare_text_start x))) }
        ensures options { IfOk result (λ p. p.stepper.scanner.options ≡ options_of options) }
        ensures unseen { IfOk result (λ p. p.peeked ≡ None) }
        ensures unasked { IfOk result (λ p. p.answered ≡ false) }
        ensures renumbered { IfOk result (λ p. p.stepper.renumbered ≡ false) }
        ensures memory { IsOk result }
    {
        match open_iter(alloc, iter, options) {
            Ok(stepper) => Ok(before!(alloc, stepper)),
            Err(error) => Err(error),
        }
    }
}

impl<'input, T: Source<Item = Result<char, ErrorKind>>> Parser<'input, FallibleBufferedInput<T>> {
    /// Before the characters of an iterator that may fail. Its first error ends them.
    ///
    /// # Errors
    ///
    /// None: nothing is allocated.
    pub fn new_from_fallible_iter_with_options(
        alloc: Global,
        iter: T,
        options: Options,
    ) -> Result<Parser<'input, FallibleBufferedInput<T>>, NoMemory>
        requires { size (T.remaining iter) < 2 ^ 63 }
        ensures start { IfOk result (λ p. (items : List (Result ℕ ErrorKind))
            → GivesOnly T.next_gives T.remaining iter items
            → StandsAt ⟦<FallibleBufferedInput<T> as Input>⟧.unread p
            (steps.start_from (bare_text_start (characters_of items)))) }
        ensures calls { IfOk result (λ p. (items : List (Result ℕ ErrorKind))
            → GivesOnly T.next_gives T.remaining iter items
            → ParserIn ⟦<FallibleBufferedInput<T> as Input>⟧.unread p
            (calls_from (bare_text_start (characters_of items)))) }
        ensures ends { IfOk result (λ p. (items : List (Result ℕ ErrorKind))
            → GivesOnly T.next_gives T.remaining iter items
            → (⟦<FallibleBufferedInput<T> as Input>⟧.origin p.stepper.scanner.cursor.input).ends_with
            (first_error items)) }
        ensures fresh { IfOk result (λ p.
            (⟦<FallibleBufferedInput<T> as Input>⟧.origin p.stepper.scanner.cursor.input).handed_out ≡ false) }
        ensures options { IfOk result (λ p. p.stepper.scanner.options ≡ options_of options) }
        ensures unseen { IfOk result (λ p. p.peeked ≡ None) }
        ensures unasked { IfOk result (λ p. p.answered ≡ false) }
        ensures renumbered { IfOk result (λ p. p.stepper.renumbered ≡ false) }
        ensures memory { IsOk result }
    {
        match open_fallible(alloc, iter, options) {
            Ok(stepper) => Ok(before!(alloc, stepper)),
            Err(error) => Err(error),
        }
    }
}

impl<'input, T: BorrowedInput<'input>> Parser<'input, T> {
    /// Before an input of which nothing was read, read with the default options.
    pub fn new(alloc: Global, src: T) -> Parser<'input, T>
        ensures start { (h : Here) → T.unread src h.unread → h.place ≡ first_place → h.begins_line ≡ true
            → h.tab ≡ None → StandsAt T.unread result (steps.start_from h) }
        ensures calls { (h : Here) → T.unread src h.unread → h.place ≡ first_place → h.begins_line ≡ true
            → h.tab ≡ None → ParserIn T.unread result (calls_from h) }
        ensures options { result.stepper.scanner.options ≡ default_options }
        ensures unseen { result.peeked ≡ None }
        ensures unasked { result.answered ≡ false }
        ensures renumbered { result.stepper.renumbered ≡ false }
        ensures input { result.stepper.scanner.cursor.input ≡ src }
    {
        Parser::with_options(alloc, src, Options::default())
    }

    /// Before an input of which nothing was read.
    pub fn with_options(alloc: Global, src: T, options: Options) -> Parser<'input, T>
        ensures start { (h : Here) → T.unread src h.unread → h.place ≡ first_place → h.begins_line ≡ true
            → h.tab ≡ None → StandsAt T.unread result (steps.start_from h) }
        ensures calls { (h : Here) → T.unread src h.unread → h.place ≡ first_place → h.begins_line ≡ true
            → h.tab ≡ None → ParserIn T.unread result (calls_from h) }
        ensures options { result.stepper.scanner.options ≡ options_of options }
        ensures unseen { result.peeked ≡ None }
        ensures unasked { result.answered ≡ false }
        ensures renumbered { result.stepper.renumbered ≡ false }
        ensures input { result.stepper.scanner.cursor.input ≡ src }
    {
        before!(alloc, Stepper::new(alloc, src, options))
    }

    /// The next event and where it stands; none behind the end of the stream, and behind a refusal.
    ///
    /// The contract: from a state of the plain machine it gives what that gives (`known`). Behind the first events of a
    /// text, an event goes on with what begins a stream, a refusal is a cause of the text, and where nothing more
    /// comes, they are the events of its reading, a whole stream (`text`). Behind a boundary the same is said of the
    /// text that is left there, by its places there (`alone`), and of the calls behind a recovery from a fault, of
    /// which each gives something (`resumed`; where `keep_tags` left handles, of the text behind one that declares
    /// them anew). Each event takes one of the finite list that is told of the input, so there are no more of them
    /// (`told`). Where the number of a next anchor was ever set, an anchor that would get the greatest one is refused
    /// instead; a parser that is known to stand in a state has given none that number. The first error of the input's
    /// source stands in the place of all that was read up to it (`source`), and behind it recovery is refused (`lost`).
    /// Where recovery met a refusal and `keep_tags` or `set_anchor_offset` was called before it is given, what waits
    /// comes before it, and it counts as given then (`held`).
    /// A refusal that is given is kept (`given`), and marked where it is want of memory (`starved`). An event that
    /// waits, the end, and a fault behind lexemes of which nothing is given or kept want no memory (`at_once`).
    ///
    /// # Errors
    ///
    /// What is wrong with the input there, by the kinds of `docs/FAULTS.md`, `AnchorCountOverflow` at an anchor for
    /// which no number is left, and `NoMemory`.
    pub fn next_event(&mut self) -> Option<Result<(Event<'input>, Span), ScanError>>
        ensures known { (m : StepState) → StandsAt T.unread self.old m → GivesNext result (StandsAt T.unread self.new)
            self.new.stepper.renumbered self.old.stepper.scanner.options m
            ⊎ TellsSource T.origin result self.new.stepper.scanner.cursor }
        ensures source { IfUnseen self.old.peeked (TellsError T.origin self.old.stepper result
            self.new.stepper.scanner.cursor) }
        ensures at_once { IfUnseen self.old.peeked (GivesAtOnce T.origin self.old.stepper result self.new.stepper) }
        ensures lost { IfUnseen self.old.peeked (NeverRecovers T.origin self.old.stepper result self.new.stepper) }
        ensures text { (x : List ℕ) (es : List PlainEvent) (m : StepState) → StandsAt T.unread self.old m
            → LeadsTo self.old.stepper.scanner.options (steps.steps_start x) es m
            → EndsText self.old.stepper.scanner.options x es self.new.stepper.renumbered m result
            ⊎ TellsSource T.origin result self.new.stepper.scanner.cursor }
        ensures alone { (x : List ℕ) (shift : Shift) (s : StepState) (es : List PlainEvent) (m : StepState)
            → TellsMoved self.old.stepper.scanner.options x shift s → StandsAt T.unread self.old m
            → LeadsTo self.old.stepper.scanner.options s es m
            → EndsAlone self.old.stepper.scanner.options x shift es self.new.stepper.renumbered m result
            ⊎ TellsSource T.origin result self.new.stepper.scanner.cursor }
        ensures told { (h : Here) (es : List PlainEvent) (m : StepState) → StandsAt T.unread self.old m
            → LeadsTo self.old.stepper.scanner.options (steps.start_from h) es m
            → EndsTold (told_from self.old.stepper.scanner.options h) self.old.stepper.scanner.options es
            self.new.stepper.renumbered m result
            ⊎ TellsSource T.origin result self.new.stepper.scanner.cursor }
        ensures calls { (c : Calls) → ReachedByCalls self.old.stepper.scanner.options c → IsOpen c
            → ParserIn T.unread self.old c
            → GivesCall T.unread result self.new c ⊎ TellsSource T.origin result self.new.stepper.scanner.cursor }
        ensures resumed { (stops : Stops) (c e : Calls) (es : List PlainEvent)
            → Resumed self.old.stepper.scanner.options stops c es e → IsOpen e → ParserIn T.unread self.old e
            → ResumesCall T.unread self.old.stepper.scanner.options stops c es result self.new e
            ⊎ TellsSource T.origin result self.new.stepper.scanner.cursor }
        ensures closed { (c : Calls) → IsClosed c → ParserIn T.unread self.old c → ParserIn T.unread self.new c }
        ensures held { (c : Calls) (f : Refused) → ParserHolds T.unread self.old c f
            → CallGivesHeld T.unread result self.new c f ⊎ TellsSource T.origin result self.new.stepper.scanner.cursor }
        ensures peeked { self.new.peeked ≡ None }
        ensures given { KeepsGiven result self.old.given self.new.given }
        ensures starved { Starves result self.old.starved self.new.starved }
        ensures answered { self.new.answered ≡ notes_answered result self.old.answered }
        ensures seen { IfSome self.old.peeked (λ r. (result ≡ Some r) × (self.new.stepper ≡ self.old.stepper)) }
        ensures refused { EndsWith result self.new.stepper }
        ensures over { IsOver self.old → (result ≡ None) × (self.new ≡ self.old) }
        ensures options { self.new.stepper.scanner.options ≡ self.old.stepper.scanner.options }
        ensures renumbered { self.new.stepper.renumbered ≡ self.old.stepper.renumbered }
        ensures moves { IfUnseen self.old.peeked (MovesUnless T.left T.origin result
            self.old.stepper.scanner.cursor self.new.stepper.scanner.cursor) }
        ensures onward { GoesOnward T.unread self.old.stepper.scanner.cursor self.new.stepper.scanner.cursor }
    {
        an_open_call_gives_something();
        let mut next: Option<Result<(Event<'input>, Span), ScanError>> = None;
        self.take_event(&mut next);
        self.note(&next);
        next
    }

    /// Notes what is given: a refusal is kept.
    fn note(&mut self, next: &Option<Result<(Event<'input>, Span), ScanError>>)
        requires seen { self.old.peeked ≡ None }
        requires ends { EndsWith next.now self.old.stepper }
        ensures between { self.new.between ≡ notes_between next.now self.old.between }
        ensures over { self.new.over ≡ notes_over next.now self.old.over }
        ensures answered { self.new.answered ≡ notes_answered next.now self.old.answered }
        ensures given { KeepsGiven next.now self.old.given self.new.given }
        ensures starved { Starves next.now self.old.starved self.new.starved }
        ensures rest { self.new ≡ record self.old {
          given = self.new.given;
          starved = self.new.starved;
          between = self.new.between;
          over = self.new.over;
          answered = self.new.answered;
        } }
    {
        match next {
            None => {}
            Some(Ok((event, _))) => self.note_event(event),
            Some(Err(error)) => self.note_refusal(error),
        }
    }

    /// Keeps a refusal that `next_event` gives, and marks want of memory, which no other call does.
    fn note_refusal(&mut self, error: &ScanError)
        requires seen { self.old.peeked ≡ None }
        requires ends { self.old.stepper.failed ≡ true }
        ensures given { (kept : Refused) × (self.new.given ≡ Some kept) × IsKept error.now kept }
        ensures starved { self.new.starved ≡ wants_memory error.now.kind }
        ensures rest { self.new ≡ record self.old { given = self.new.given; starved = self.new.starved } }
    {
        self.keep_refusal(error);
        self.starved = error.kind().number() == ErrorKind::NoMemory.number();
    }

    /// Keeps a refusal that is given.
    #[inline(never)]
    pub(crate) fn keep_refusal(&mut self, error: &ScanError)
        requires seen { self.old.peeked ≡ None }
        requires ends { self.old.stepper.failed ≡ true }
        ensures given { (kept : Refused) × (self.new.given ≡ Some kept) × IsKept error.now kept }
        ensures rest { self.new ≡ record self.old { given = self.new.given } }
    {
        drop(self.given.replace(kept(self.alloc, error)));
    }

    /// A refusal is forgotten, whether it was given or looked at.
    pub(crate) fn forget_refusal(&mut self)
        ensures { self.new ≡ record self.old { peeked = None; given = None; starved = false } }
    {
        drop(self.peeked.take());
        drop(self.given.take());
        self.starved = false;
    }

    /// What was looked at, or the next event, is put there.
    fn take_event(&mut self, next: &mut Option<Result<(Event<'input>, Span), ScanError>>)
        ensures known { (m : StepState) → StandsAt T.unread self.old m
            → StepsBy T.unread next.new self.old.stepper self.new.stepper m
            ⊎ TellsSource T.origin next.new self.new.stepper.scanner.cursor }
        ensures calls { (c : Calls) → ReachedByCalls self.old.stepper.scanner.options c
            → SeenBy T.unread self.old.peeked self.old.stepper c → ReadsNext T.unread next.new self.new.stepper c
            ⊎ TellsSource T.origin next.new self.new.stepper.scanner.cursor }
        ensures waits { (m : StepState) (f : Refused) → WaitsBehind T.unread self.old.peeked self.old.stepper m f
            → ReadsHeld T.unread next.new self.new.stepper m f
            ⊎ TellsSource T.origin next.new self.new.stepper.scanner.cursor }
        ensures source { IfUnseen self.old.peeked (TellsError T.origin self.old.stepper next.new
            self.new.stepper.scanner.cursor) }
        ensures at_once { IfUnseen self.old.peeked (GivesAtOnce T.origin self.old.stepper next.new self.new.stepper) }
        ensures lost { IfUnseen self.old.peeked (NeverRecovers T.origin self.old.stepper next.new self.new.stepper) }
        ensures rest { self.new ≡ record self.old { stepper = self.new.stepper; peeked = None } }
        ensures seen { IfSome self.old.peeked (λ r. (next.new ≡ Some r) × (self.new.stepper ≡ self.old.stepper)) }
        ensures refused { EndsWith next.new self.new.stepper }
        ensures over { IsOver self.old → (next.new ≡ None) × (self.new ≡ self.old) }
        ensures options { self.new.stepper.scanner.options ≡ self.old.stepper.scanner.options }
        ensures renumbered { self.new.stepper.renumbered ≡ self.old.stepper.renumbered }
        ensures moves { IfUnseen self.old.peeked (MovesUnless T.left T.origin next.new
            self.old.stepper.scanner.cursor self.new.stepper.scanner.cursor) }
        ensures onward { GoesOnward T.unread self.old.stepper.scanner.cursor self.new.stepper.scanner.cursor }
    {
        if self.peeked.is_none() {
            read_event(self.alloc, &mut self.stepper, next);
        } else {
            self.put_seen(next);
        }
    }

    /// What was looked at is put there. Apart, since room for an event would be cleared on the way of each one.
    #[inline(never)]
    fn put_seen(&mut self, next: &mut Option<Result<(Event<'input>, Span), ScanError>>)
        ensures seen { next.new ≡ self.old.peeked }
        ensures rest { self.new ≡ record self.old { peeked = None } }
    {
        drop(mem::replace(next, self.peeked.take()));
    }

    /// What the next call of `next_event` gives, which gives it all the same; none behind the end of the stream, and
    /// behind a refusal that was given.
    ///
    /// # Errors
    ///
    /// As `next_event`, lent as often as asked.
    pub fn peek(&mut self) -> Option<Result<&(Event<'input>, Span), &ScanError>>
        ensures* { sem 𝓛 (Rests (the_row (record { mir = named 1; lft = [] }) T.row T.Input) self.entry (λ new.
            ParserPeeksAs T.unread T.left T.origin self.old (shown result) new
            × PeeksIn T.unread T.origin self.old (shown result) new)) }
    {
        self.look_on();
        self.look()
    }

    /// Reads the next event, where none was looked at.
    fn look_on(&mut self)
        ensures peeks { ParserPeeksAs T.unread T.left T.origin self.old self.new.peeked self.new }
        ensures calls { PeeksIn T.unread T.origin self.old self.new.peeked self.new }
    {
        an_open_call_gives_something();
        if self.peeked.is_none() {
            read_event(self.alloc, &mut self.stepper, &mut self.peeked);
        }
    }

    /// Looks at the next event where recovery told of a document and nothing was given since.
    pub(crate) fn look_first(&mut self)
        ensures calm { self.old.answered ≡ false → self.new ≡ self.old }
        ensures closed { (c : Calls) → IsClosed c → ParserIn T.unread self.old c → self.new ≡ self.old }
        ensures next { ForCalls T.unread self.old (λ c. self.old.answered ≡ true → IsOpen c
            → ShowsFirst T.unread self.new.peeked self.new c) }
        ensures holds { (c : Calls) (f : Fault) → ParserHolds T.unread self.old c f → self.old.answered ≡ true
            → c.over ≡ false → LookShowsHeld T.unread self.new.peeked self.new c f }
        ensures failed { self.old.stepper.failed ≡ true → self.new ≡ self.old }
        ensures over { self.old.over ≡ true → self.new ≡ self.old }
        ensures going { self.new.over ≡ self.old.over }
        ensures options { self.new.stepper.scanner.options ≡ self.old.stepper.scanner.options }
        ensures renumbered { self.new.stepper.renumbered ≡ self.old.stepper.renumbered }
        ensures onward { GoesOnward T.unread self.old.stepper.scanner.cursor self.new.stepper.scanner.cursor }
    {
        an_open_call_gives_something();
        if self.looks_first() {
            step_event(self.alloc, &mut self.stepper, &mut self.peeked);
        }
    }

    /// Whether recovery told of a document, nothing was given since, and nothing was looked at.
    fn looks_first(&self) -> bool
        ensures answered { result ≡ true → (self.now.answered ≡ true) × (self.now.over ≡ false) }
        ensures seen { result ≡ true → self.now.peeked ≡ None }
        ensures stays { result ≡ false → self.now.answered ≡ true → self.now.over ≡ false
            → is_some self.now.peeked ≡ true }
    {
        self.answered && !self.over && self.peeked.is_none()
    }

    /// What was looked at is forgotten.
    pub(crate) fn forget_seen(&mut self)
        ensures { self.new ≡ record self.old { peeked = None } }
    {
        drop(self.peeked.take());
    }

    /// The refusal that was given, or that was looked at.
    pub(crate) fn refused(&mut self) -> ScanError
        ensures given { IfSome self.old.given (λ e. IsKept e result) }
        ensures seen { self.old.given ≡ None → GivesSeen self.old.peeked (Err result) }
        ensures rest { self.new ≡ record self.old { peeked = self.new.peeked } }
    {
        match &self.given {
            Some(error) => kept(self.alloc, error),
            None => match self.peeked.take() {
                Some(Err(error)) => error,
                Some(Ok(event)) => {
                    drop(event);
                    ScanError::from(NoMemory)
                }
                None => ScanError::from(NoMemory),
            },
        }
    }

    /// What was looked at, as far as recovery asks.
    pub(crate) fn seen(&self) -> Seen
        ensures { result ≡ seen_in self.now.peeked }
    {
        match &self.peeked {
            None => Seen::Nothing,
            Some(Ok((event, _))) => seen_of(event),
            Some(Err(_)) => Seen::Nothing,
        }
    }

    /// What was looked at.
    fn look(&self) -> Option<Result<&(Event<'input>, Span), &ScanError>>
        ensures { shown result ≡ self.now.peeked }
    {
        match &self.peeked {
            None => None,
            Some(Ok(event)) => Some(Ok(event)),
            Some(Err(error)) => Some(Err(error)),
        }
    }

    /// Whether nothing more is given.
    pub(crate) fn has_failed(&self) -> bool
        ensures { result ≡ self.now.stepper.failed }
    {
        self.stepper.has_failed()
    }

    /// Whether it isn't known where reading stands, since memory ran out in the midst of a run.
    pub fn is_lost(&self) -> bool
        ensures { result ≡ self.now.stepper.scanner.cursor.lost }
    {
        self.stepper.is_lost()
    }

    /// The error that the source ends with, once: the input is passed up to its end. Nothing more is read behind an
    /// error.
    pub fn end_error(&mut self) -> Option<ScanError>
        ensures told { (f : Option FaultKind) → (T.origin self.old.stepper.scanner.cursor.input).ends_with f
            → (T.origin self.old.stepper.scanner.cursor.input).handed_out ≡ false
            → option_map refused_kind result ≡ f }
        ensures place { IfSome result (λ e. (e.mark.place ≡ self.new.stepper.scanner.cursor.place) × (e.sources ≡ [])) }
        ensures offset { IfSome result (λ e.
            is_some e.mark.byte_offset ≡ (T.origin self.old.stepper.scanner.cursor.input).tells_offset) }
        ensures failed { self.new.stepper.failed ≡ (self.old.stepper.failed || is_some result) }
        ensures options { self.new.stepper.scanner.options ≡ self.old.stepper.scanner.options }
        ensures renumbered { self.new.stepper.renumbered ≡ self.old.stepper.renumbered }
        ensures peeked { self.new.peeked ≡ self.old.peeked }
        ensures given { self.new.given ≡ self.old.given }
        ensures starved { self.new.starved ≡ self.old.starved }
        ensures onward { GoesOnward T.unread self.old.stepper.scanner.cursor self.new.stepper.scanner.cursor }
    {
        self.stepper.end_error()
    }
}

/// The events one by one, as `next_event` gives them, up to the end of the stream or a refusal.
impl<'input, T: BorrowedInput<'input>> Iterator for Parser<'input, T> {
    type Item = Result<(Event<'input>, Span), ScanError>;

    ghost use Rattle.granit_parser.specs.Parsing.{ParserStepsTo};
    ghost use Rattle.granit_parser.specs.Recovering.{CallsTo};

    ghost next_gives = { λ p r q. ParserStepsTo T.unread T.left T.origin p r q × CallsTo T.unread T.origin p r q };

    fn next(&mut self) -> Option<Result<(Event<'input>, Span), ScanError>> {
        self.next_event()
    }

    // As the trait has it: written out, that costs less to prove.
    fn size_hint(&self) -> (usize, Option<usize>) {
        (0, None)
    }
}

impl<'input, T: BorrowedInput<'input>> FusedIterator for Parser<'input, T> {}
