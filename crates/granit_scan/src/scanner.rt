//! An input that is read into tokens, one for each call.
ghost use Rattle.std.specs.Prelude.{◌≡◌, ◌≤◌, ◌||◌, [], true, false, None, Some, Ok, Err, is_none, drop, slice_get};
ghost use Rattle.std.specs.Prelude.{IfErr, IfOk, IfSome, IsOk};
ghost use Rattle.std.specs.Option.{option_map};
ghost use Rattle.std.specs.Result.{result_transpose};
ghost use Rattle.granit_base.specs.Place.{Unread};
ghost use Rattle.granit_cursor.specs.Reading.{GivesTo, GoesOnward, GoesTo, Moves, Stands};
ghost use Rattle.granit_error.specs.FaultKind as faults;
ghost use Rattle.granit_error.specs.Kinds.{kind_of};
ghost use Rattle.granit_error.specs.OptionsData.{default_options};
ghost use Rattle.granit_error.specs.OptionsView.{options_of};
ghost use Rattle.granit_error.specs.Refused.{refused_kind};
ghost use Rattle.granit_input.specs.Origin.{error_given, Gave};
ghost use Rattle.granit_runs.specs.White.{holds};
ghost use Rattle.granit_lexemes.specs.Here.{Here, first_place, mark_of};
ghost use Rattle.granit_machine.specs.Reader.{LexState};
ghost use Rattle.granit_queue.specs.QueueViews.{queued_view};
ghost use Rattle.granit_scan.specs.Recovering.{RestsIn, ScannerRefusesIn};
ghost use Rattle.granit_scan.specs.Scanning as spec;
ghost use Rattle.granit_scan.specs.Scanning.{CallFails, GivesStart, KeepsCopy, KeepsFirst, MovesAsked, ScannerIn};
ghost use Rattle.granit_scan.specs.Scanning.{ScannerKeeps, ScannerTakesFree, TakesToken, TellsKeptError, UnlessFailed};
ghost use Rattle.granit_scan.specs.TokenMemory.{AnswersKept, KeepsWhole, StateWithoutTurn, TellsWhole, WithoutTurn};
ghost use Rattle.granit_scan.specs.TokenSteps as steps;
ghost use Rattle.granit_scan.specs.TokenSteps.{TokenState};
ghost use Rattle.granit_scan.specs.TokenViews.{plain_token};
ghost use Rattle.granit_scanner.specs.Scans.{Known, is_done, may_front_go, wants_memory};
ghost use Rattle.granit_steps.specs.Steps.{is_over};

use crate::writer::Writer;
use granit_base::{Marker, NoMemory, Span};
use granit_cursor::{Token, TokenType};
use granit_error::{ErrorKind, Options, ScanError};
use granit_input::{BorrowedInput, Input};
use granit_items::Rooms;
use granit_queue::Queued;
use granit_scanner::{Front, ItemScanner};
use std::alloc::Global;
use std::iter::FusedIterator;
use std::marker::Model;

/// An input that is read into tokens, one for each call.
#[derive(Drop)]
pub struct Scanner<'input, T: Input> {
    pub(crate) alloc: Global,
    pub(crate) items: ItemScanner<'input, T>,
    pub(crate) writer: Writer<'input>,
    // Room for lexemes, which those left that were written.
    pub(crate) rooms: Rooms<'input>,
    // Where the stream starts, until that is told.
    pub(crate) first: Option<Marker>,
    // The end of the stream was given.
    pub(crate) ended: bool,
    // A call failed: nothing more is given.
    pub(crate) failed: bool,
    // It failed in a directive, as its kind says.
    pub(crate) failed_in_directive: bool,
    // It failed for want of memory: nothing more is ever given.
    pub(crate) wants_memory: bool,
    // Comments are asked for, and the input may hold some.
    comments: bool,
    // What the input's source gave, where it was asked.
    source_error: Option<ScanError>,
}

impl<'input, T: Input> Model for Scanner<'input, T> {
    ghost use Rattle.granit_scan.specs.Scanning.{TokenScanning};

    ghost Value = { TokenScanning T };

    ghost view = { λ s. record {
      items = s.items;
      writer = s.writer;
      first = s.first;
      ended = s.ended;
      failed = s.failed;
      failed_in_directive = s.failed_in_directive;
      wants_memory = s.wants_memory;
      comments = s.comments;
      source_error = s.source_error;
    } };
}

impl<'input, T: BorrowedInput<'input>> Scanner<'input, T> {
    /// Before an input of which nothing was read, read with the default options.
    pub fn new(alloc: Global, input: T) -> Scanner<'input, T>
        ensures start { (h : Here) → T.unread input h.unread → h.place ≡ first_place → h.begins_line ≡ true
            → h.tab ≡ None → ScannerIn T.unread result (steps.tokens_start_from h) }
        ensures options { result.items.options ≡ default_options }
        ensures ended { result.ended ≡ false }
        ensures comments { result.comments ≡ false → (u : Unread) → T.unread input u → holds 0x23 u.text ≡ false }
        ensures source { result.source_error ≡ None }
        ensures directive { result.failed_in_directive ≡ false }
    {
        Scanner::with_options(alloc, input, Options::default())
    }

    /// Before an input of which nothing was read.
    pub fn with_options(alloc: Global, input: T, options: Options) -> Scanner<'input, T>
        ensures start { (h : Here) → T.unread input h.unread → h.place ≡ first_place → h.begins_line ≡ true
            → h.tab ≡ None → ScannerIn T.unread result (steps.tokens_start_from h) }
        ensures options { result.items.options ≡ options_of options }
        ensures ended { result.ended ≡ false }
        ensures comments { result.comments ≡ false → options.emit_comments ≡ true
            → (u : Unread) → T.unread input u → holds 0x23 u.text ≡ false }
        ensures unasked { options.emit_comments ≡ false → result.comments ≡ false }
        ensures source { result.source_error ≡ None }
        ensures directive { result.failed_in_directive ≡ false }
    {
        let comments = options.emit_comments && input.may_contain_comments();
        let items = ItemScanner::new(alloc, input, options);
        let start = items.mark();
        Scanner {
            alloc,
            items,
            writer: Writer::new(alloc),
            rooms: Rooms::new(alloc),
            first: Some(start),
            ended: false,
            failed: false,
            failed_in_directive: false,
            wants_memory: false,
            comments,
            source_error: None,
        }
    }

    /// Whether the start of the stream was given.
    pub fn stream_started(&self) -> bool
        ensures { result ≡ is_none self.now.first }
    {
        self.first.is_none()
    }

    /// Whether the end of the stream was given.
    pub fn stream_ended(&self) -> bool
        ensures { result ≡ self.now.ended }
    {
        self.ended
    }

    /// The place up to which was read.
    pub fn mark(&self) -> Marker
        ensures { (h : Here) → Stands T.unread self.now.items.cursor h → result ≡ mark_of h }
    {
        self.items.mark()
    }

    /// Whether the directives of a document are being told: the last lexeme that was written but the end is one, or a
    /// call failed with a kind that directives alone have.
    pub fn in_directive_prefix(&self) -> bool
        ensures { result ≡ spec.in_header self.now }
    {
        self.failed_in_directive || self.writer.in_header()
    }

    /// Whether comments are asked for, and the input didn't rule them out when it was given.
    pub fn comments_possible(&self) -> bool
        ensures { result ≡ self.now.comments }
    {
        self.comments
    }

    /// The error that the input's source gave, which is kept; Ok exactly where it gave none.
    ///
    /// # Errors
    ///
    /// That error, at the place up to which was read when a call first met it, and `NoMemory`.
    pub fn check_source_error(&mut self) -> Result<(), ScanError>
        ensures told { TellsKeptError self.new.source_error result }
        ensures memory { TellsWhole self.new.source_error result }
        ensures kind { option_map refused_kind self.new.source_error
            ≡ spec.first_kind self.old.source_error (error_given (T.origin self.old.items.cursor.input)) }
        ensures kept { (h : Here) → Stands T.unread self.old.items.cursor h → self.new.source_error
            ≡ spec.first_kept_error self.old.source_error
            (error_given (T.origin self.old.items.cursor.input)) (mark_of h) }
        ensures known { (m : TokenState) → ScannerIn T.unread self.old m → ScannerIn T.unread self.new m }
        ensures rest { self.new
            ≡ record self.old { items = self.new.items; source_error = self.new.source_error } }
        ensures items { self.new.items ≡ record (self.old.items) { cursor = self.new.items.cursor } }
        ensures here { GoesTo T.unread self.old.items.cursor self.new.items.cursor (λ h. h) }
        ensures left { T.left self.new.items.cursor.input ≤ T.left self.old.items.cursor.input }
        ensures origin { Gave (T.origin self.old.items.cursor.input) (T.origin self.new.items.cursor.input) }
    {
        self.ask_source();
        self.tell_source_error()
    }

    /// Asks the source for its error, which is kept where none is.
    pub(crate) fn ask_source(&mut self)
        ensures first { KeepsFirst self.old.source_error (error_given (T.origin self.old.items.cursor.input))
            self.old.items.cursor.place self.new.source_error }
        ensures kind { option_map refused_kind self.new.source_error
            ≡ spec.first_kind self.old.source_error (error_given (T.origin self.old.items.cursor.input)) }
        ensures kept { (h : Here) → Stands T.unread self.old.items.cursor h → self.new.source_error
            ≡ spec.first_kept_error self.old.source_error
            (error_given (T.origin self.old.items.cursor.input)) (mark_of h) }
        ensures known { (m : TokenState) → ScannerIn T.unread self.old m → ScannerIn T.unread self.new m }
        ensures reading { (l : LexState) (q : _) → Known T.unread self.old.items l q
            → Known T.unread self.new.items l q }
        ensures rest { self.new
            ≡ record self.old { items = self.new.items; source_error = self.new.source_error } }
        ensures items { self.new.items ≡ record (self.old.items) { cursor = self.new.items.cursor } }
        ensures here { GoesTo T.unread self.old.items.cursor self.new.items.cursor (λ h. h) }
        ensures onward { GoesOnward T.unread self.old.items.cursor self.new.items.cursor }
        ensures place { self.new.items.cursor.place ≡ self.old.items.cursor.place }
        ensures left { T.left self.new.items.cursor.input ≤ T.left self.old.items.cursor.input }
        ensures origin { Gave (T.origin self.old.items.cursor.input) (T.origin self.new.items.cursor.input) }
    {
        let mark = self.items.mark();
        let given = self.items.take_source_error();
        keep_first(&mut self.source_error, given, mark);
    }

    /// The source's error, where one is kept.
    fn tell_source_error(&self) -> Result<(), ScanError>
        ensures told { TellsKeptError self.now.source_error result }
        ensures memory { TellsWhole self.now.source_error result }
    {
        match &self.source_error {
            None => Ok(()),
            Some(error) => Err(error.try_clone(self.alloc)?),
        }
    }

    /// The error of the source, where one is kept. A copy stays, and want of memory where there is none for that.
    pub(crate) fn give_source_error(&mut self) -> Option<ScanError>
        ensures given { result ≡ self.old.source_error }
        ensures kept { KeepsCopy result self.new.source_error }
        ensures memory { IfSome result (λ e. KeepsWhole e self.new.source_error) }
        ensures known { (m : TokenState) → ScannerIn T.unread self.old m → ScannerIn T.unread self.new m }
        ensures rest { self.new ≡ record self.old { source_error = self.new.source_error } }
    {
        if self.source_error.is_none() {
            return None;
        }
        match self.source_error.take() {
            None => None,
            Some(error) => {
                self.source_error = Some(copy_of(self.alloc, &error));
                Some(error)
            }
        }
    }

    /// The next token; none behind the end of the stream, and behind an error. The first error of the input's source
    /// stands in the place of whatever was read up to it.
    ///
    /// # Errors
    ///
    /// What is wrong with the input there, by the kinds of `docs/FAULTS.md`, and `NoMemory`.
    pub fn next_queued(&mut self) -> Result<Option<Token<'input>>, ScanError>
        ensures known { (m : TokenState) → ScannerIn T.unread self.old m
            → UnlessFailed T.origin self.old self.new (λ e. result ≡ Err e)
            (GivesTo (option_map plain_token) result (ScannerIn T.unread self.new)
            (steps.next_token self.old.items.options m)) }
        ensures refused { (m : TokenState) → ScannerIn T.unread self.old m
            → UnlessFailed T.origin self.old self.new (λ e. Unit {0})
            (ScannerRefusesIn T.unread self.old.items.options result self.new m) }
        ensures source { self.old.failed ≡ false → UnlessFailed T.origin self.old self.new
            (λ e. (result ≡ Err e) × KeepsCopy (Some e) self.new.source_error)
            (GivesStart self.old.first result × (self.new.source_error ≡ None)) }
        ensures memory { self.old.failed ≡ false → UnlessFailed T.origin self.old self.new (λ e. Unit {0})
            (WithoutTurn (spec.all_waiting self.old) self.old.items (λ f. result ≡ Err f) (IsOk result)) }
        ensures known_memory { (m : TokenState) → ScannerIn T.unread self.old m
            → UnlessFailed T.origin self.old self.new (λ e. Unit {0})
            (StateWithoutTurn m (λ f. result ≡ Err f) (IsOk result)) }
        ensures copied { self.old.failed ≡ false
            → UnlessFailed T.origin self.old self.new (λ e. KeepsWhole e self.new.source_error) (Unit {0}) }
        ensures ended { IfOk result (λ t. self.new.ended
            ≡ (self.old.ended || spec.is_last_token (option_map plain_token t))) }
        ensures started { IfOk result (λ t. self.old.failed ≡ false → self.new.first ≡ None) }
        ensures failed { IfErr result (λ e. CallFails self.old self.new e.kind) }
        ensures going { IfOk result (λ t. self.new.failed_in_directive ≡ self.old.failed_in_directive) }
        ensures comments { self.new.comments ≡ self.old.comments }
        ensures over { self.old.failed ≡ true → (result ≡ Ok None) × (self.new ≡ self.old) }
        ensures options { self.new.items.options ≡ self.old.items.options }
        ensures moves { MovesAsked T.left T.origin self.old self.new }
    {
        if self.failed {
            return Ok(None);
        }
        match self.ready() {
            Ok(()) => Ok(self.take_token()),
            Err(error) => {
                self.stop(&error);
                Err(error)
            }
        }
    }

    /// Gives nothing more, for an error.
    pub(crate) fn stop(&mut self, error: &ScanError)
        ensures { self.new ≡ record self.old {
          failed = true;
          failed_in_directive = spec.is_of_directive (error.now.kind);
          wants_memory = wants_memory (error.now.kind);
        } }
    {
        self.failed = true;
        self.failed_in_directive = is_of_directive(error.kind());
        self.wants_memory = error.kind().number() == ErrorKind::NoMemory.number();
    }

    /// The start of the stream, or else the oldest token that waits, goes.
    fn take_token(&mut self) -> Option<Token<'input>>
        ensures known { (m : TokenState) → ScannerIn T.unread self.old m
            → TakesToken T.unread (option_map plain_token result) self.new m }
        ensures start { GivesStart self.old.first (Ok result) }
        ensures ended { self.new.ended ≡ (self.old.ended || spec.is_last_token (option_map plain_token result)) }
        ensures rest { self.new
            ≡ record self.old { first = None; writer = self.new.writer; ended = self.new.ended } }
    {
        match self.first {
            Some(start) => {
                self.first = None;
                Some(Token::new(Span::empty(start), TokenType::StreamStart))
            }
            None => self.pop_token(),
        }
    }

    /// The oldest token that waits goes.
    fn pop_token(&mut self) -> Option<Token<'input>>
        ensures first { option_map plain_token result ≡ slice_get self.old.writer.waiting 0 }
        ensures rest { self.new ≡ record self.old {
          writer = record (self.old.writer) { waiting = drop 1 self.old.writer.waiting };
          ended = self.old.ended || spec.is_last_token (option_map plain_token result);
        } }
    {
        let token = self.writer.pop();
        self.ended = ends_stream(self.ended, &token);
        token
    }

    /// Turns until a token waits, or nothing is left, or the error of the source in the place of all that.
    fn ready(&mut self) -> Result<(), ScanError>
        ensures known { (m : TokenState) → ScannerIn T.unread self.old m
            → UnlessFailed T.origin self.old self.new (λ e. result ≡ Err e)
            (GivesTo spec.no_tokens result (ScannerIn T.unread self.new)
            (steps.settle_tokens self.old.items.options m)) }
        ensures refused { (m : TokenState) → ScannerIn T.unread self.old m
            → UnlessFailed T.origin self.old self.new (λ e. Unit {0})
            (ScannerRefusesIn T.unread self.old.items.options result self.new m) }
        ensures source { UnlessFailed T.origin self.old self.new
            (λ e. (result ≡ Err e) × KeepsCopy (Some e) self.new.source_error)
            (IfErr result (λ e. self.old.first ≡ None) × (self.new.source_error ≡ None)) }
        ensures memory { UnlessFailed T.origin self.old self.new (λ e. Unit {0})
            (WithoutTurn (spec.all_waiting self.old) self.old.items (λ f. result ≡ Err f) (IsOk result)) }
        ensures copied { UnlessFailed T.origin self.old self.new (λ e. KeepsWhole e self.new.source_error) (Unit {0}) }
        ensures keeps { ScannerKeeps (record self.old { source_error = self.new.source_error }) self.new }
        ensures moves { MovesAsked T.left T.origin self.old self.new }
    {
        let settled = self.settle_behind_start();
        self.ask_source();
        match self.give_source_error() {
            None => settled,
            Some(error) => Err(error),
        }
    }

    /// As `settle`, once the start of the stream was given; before, that waits.
    fn settle_behind_start(&mut self) -> Result<(), ScanError>
        ensures known { (m : TokenState) → ScannerIn T.unread self.old m
            → GivesTo spec.no_tokens result (ScannerIn T.unread self.new)
            (steps.settle_tokens self.old.items.options m) }
        ensures refused { (m : TokenState) → ScannerIn T.unread self.old m
            → ScannerRefusesIn T.unread self.old.items.options result self.new m }
        ensures start { IfErr result (λ e. self.old.first ≡ None) }
        ensures memory { WithoutTurn (spec.all_waiting self.old) self.old.items (λ f. result ≡ Err f) (IsOk result) }
        ensures keeps { ScannerKeeps self.old self.new }
        ensures moves { Moves T.unread T.left T.origin self.old.items.cursor self.new.items.cursor }
    {
        match self.first {
            Some(_) => Ok(()),
            None => self.settle(),
        }
    }

    /// Turns until a token waits, or nothing is left.
    #[tactic(auto, using(crate::proofs::MemoryLemmas::unturned_first, crate::proofs::SettleLemmas::leads_first))]
    fn settle(&mut self) -> Result<(), ScanError>
        ensures known { (m : TokenState) → ScannerIn T.unread self.old m → self.old.first ≡ None
            → GivesTo spec.no_tokens result (ScannerIn T.unread self.new)
            (steps.settle_tokens self.old.items.options m) }
        ensures refused { (m : TokenState) → ScannerIn T.unread self.old m → self.old.first ≡ None
            → ScannerRefusesIn T.unread self.old.items.options result self.new m }
        ensures memory { WithoutTurn self.old.writer.waiting self.old.items (λ f. result ≡ Err f) (IsOk result) }
        ensures keeps { ScannerKeeps self.old self.new }
        ensures moves { Moves T.unread T.left T.origin self.old.items.cursor self.new.items.cursor }
    {
        // Over an input of which nothing is known no number falls with each turn, so the turns are counted.
        'turns: for _made in 0..u64::MAX {
            if !self.turn()? {
                return Ok(());
            }
        }
        Err(ScanError::from(NoMemory))
    }

    /// One turn: the oldest item is written where it may go, and else one more read is made; false where a token waits
    /// or nothing is left.
    fn turn(&mut self) -> Result<bool, ScanError>
        ensures known { (m : TokenState) → ScannerIn T.unread self.old m → self.old.first ≡ None
            → GivesTo spec.token_turn_view result (ScannerIn T.unread self.new)
            (steps.token_turn self.old.items.options m) }
        ensures refused { (m : TokenState) → ScannerIn T.unread self.old m → RestsIn T.unread result self.new m }
        ensures memory { WithoutTurn self.old.writer.waiting self.old.items (λ f. result ≡ Err f) (result ≡ Ok false) }
        ensures keeps { ScannerKeeps self.old self.new }
        ensures moves { Moves T.unread T.left T.origin self.old.items.cursor self.new.items.cursor }
    {
        if !self.writer.is_empty() {
            return Ok(false);
        }
        match self.take_free() {
            Some(queued) => self.write_item(queued),
            None => self.read_more(),
        }
    }

    /// The oldest item, where it may go.
    fn take_free(&mut self) -> Option<Queued<'input>>
        ensures known { (m : TokenState) → ScannerIn T.unread self.old m
            → ScannerTakesFree T.unread (option_map queued_view result) self.new m }
        ensures front { IfSome result (λ i. slice_get self.old.items.queue 0 ≡ Some (queued_view i)) }
        ensures rest { self.new.items ≡ record (self.old.items) { queue = self.new.items.queue } }
        ensures keeps { ScannerKeeps self.old self.new }
        ensures writer { self.new.writer ≡ self.old.writer }
        ensures cursor { self.new.items.cursor ≡ self.old.items.cursor }
    {
        if !self.items.front_may_go() {
            return None;
        }
        match self.items.take_front() {
            None => None,
            Some(front) => Some(front.queued),
        }
    }

    /// An item is written as tokens.
    fn write_item(&mut self, queued: Queued<'input>) -> Result<bool, ScanError>
        ensures known { (m : TokenState) → ScannerIn T.unread self.old m → self.old.first ≡ None → m.pending ≡ []
            → GivesTo spec.token_turn_view result (ScannerIn T.unread self.new)
            (Ok (spec.token_turn_view true, steps.with_written (queued_view queued.entry) m.queue m)) }
        ensures refused { IfErr result (λ e. e.kind ≡ faults.NoMemory) }
        ensures keeps { ScannerKeeps self.old self.new }
        ensures items { self.new.items ≡ self.old.items }
    {
        let Queued { item, begins_key } = queued;
        let options = self.items.options();
        self.writer
            .write(options, item, begins_key, &mut self.rooms)?;
        Ok(true)
    }

    /// One more read, or the fault of the one before; false behind the end.
    fn read_more(&mut self) -> Result<bool, ScanError>
        ensures known { (m : TokenState) → ScannerIn T.unread self.old m → may_front_go m.reading m.queue ≡ false
            → GivesTo spec.token_turn_view result (ScannerIn T.unread self.new)
            (steps.read_more_tokens self.old.items.options m.reading.ended m) }
        ensures refused { (m : TokenState) → ScannerIn T.unread self.old m → RestsIn T.unread result self.new m }
        ensures memory { is_done self.old.items ≡ true → AnswersKept self.old.items.fault result }
        ensures keeps { ScannerKeeps self.old self.new }
        ensures moves { Moves T.unread T.left T.origin self.old.items.cursor self.new.items.cursor }
    {
        if self.items.is_over() {
            return self.end();
        }
        self.items.read_on(self.alloc, &mut self.rooms)?;
        Ok(true)
    }

    /// Reading is over: by a fault, or at the end.
    fn end(&mut self) -> Result<bool, ScanError>
        ensures known { (m : TokenState) → ScannerIn T.unread self.old m → is_over m.reading ≡ true
            → GivesTo spec.token_turn_view result (ScannerIn T.unread self.new)
            (steps.read_more_tokens self.old.items.options m.reading.ended m) }
        ensures refused { (m : TokenState) → ScannerIn T.unread self.old m → RestsIn T.unread result self.new m }
        ensures memory { AnswersKept self.old.items.fault result }
        ensures keeps { ScannerKeeps self.old self.new }
        ensures cursor { self.new.items.cursor ≡ self.old.items.cursor }
    {
        match self.items.take_fault() {
            None => Ok(false),
            Some(fault) => Err(fault),
        }
    }
}

/// Whether the end of the stream was given, now or before.
fn ends_stream(before: bool, token: &Option<Token<'_>>) -> bool
    ensures { result ≡ (before || spec.is_last_token (option_map plain_token token.now)) }
{
    match token {
        None => before,
        Some(token) => before || matches!(token.token_type(), TokenType::StreamEnd),
    }
}

/// Whether only directives are refused so.
fn is_of_directive(kind: &ErrorKind) -> bool
    ensures { result ≡ spec.is_of_directive (kind_of kind.now) }
{
    let number = kind.number();
    let of_any = ErrorKind::DirectiveDisallowed.number() <= number
        && number <= ErrorKind::YamlVersionTooLong.number();
    let of_tag = ErrorKind::ExpectedTagBang.number() <= number
        && number <= ErrorKind::InvalidTagDirectiveTerminator.number();
    of_any || of_tag
}

/// A copy of an error, or want of memory.
fn copy_of(alloc: Global, error: &ScanError) -> ScanError
    ensures kept { KeepsCopy (Some error.now) (Some result) }
    ensures memory { KeepsWhole error.now (Some result) }
{
    match error.try_clone(alloc) {
        Ok(copy) => copy,
        Err(error) => ScanError::from(error),
    }
}

/// The error that was given at a place is kept, where none is.
#[inline(always)]
fn keep_first(kept: &mut Option<ScanError>, given: Option<ErrorKind>, mark: Marker)
    ensures { kept.new ≡ spec.first_kept_error kept.old (option_map kind_of given) mark }
{
    if let Some(kind) = given {
        if kept.is_none() {
            *kept = Some(ScanError::from_kind(mark, kind));
        }
    }
}

/// What is given of what comes next: inlined, a token is moved once, where std's `transpose` copies it twice.
#[inline(always)]
fn next_of<'a>(token: Result<Option<Token<'a>>, ScanError>) -> Option<Result<Token<'a>, ScanError>>
    ensures { result ≡ result_transpose token.entry }
{
    match token {
        Ok(None) => None,
        Ok(Some(token)) => Some(Ok(token)),
        Err(error) => Some(Err(error)),
    }
}

/// The tokens one by one, as `next_queued` gives them, up to the end of the stream or a refusal.
impl<'input, T: BorrowedInput<'input>> Iterator for Scanner<'input, T> {
    type Item = Result<Token<'input>, ScanError>;

    ghost use Rattle.granit_scan.specs.Scanning.{ScannerStepsTo};

    ghost next_gives = { λ p r q. ScannerStepsTo T.unread T.left T.origin p r q };

    fn next(&mut self) -> Option<Result<Token<'input>, ScanError>> {
        next_of(self.next_queued())
    }
}

impl<'input, T: BorrowedInput<'input>> FusedIterator for Scanner<'input, T> {}
