//! Items in order, each as soon as nothing behind it can change what it is.
ghost use Rattle.std.specs.Prelude.{◌≡◌, ◌≤◌, true, false, [], drop, take, Option, None, Some, slice_get, OnOk};
ghost use Rattle.std.specs.Prelude.{is_some};
ghost use Rattle.std.specs.Option.{option_map};
ghost use Rattle.granit_base.specs.Place.{Unread};
ghost use Rattle.granit_cursor.specs.Reading.{GoesOnward};
ghost use Rattle.granit_cursor.specs.Reading.{GoesTo, Moves, Stands};
ghost use Rattle.granit_error.specs.Kinds.{kind_of};
ghost use Rattle.granit_error.specs.OptionsView.{options_of};
ghost use Rattle.granit_error.specs.Refused.{Refused};
ghost use Rattle.granit_input.specs.Origin.{error_given, Gave};
ghost use Rattle.granit_items.specs.ItemViews.{found_items, item_view};
ghost use Rattle.granit_lexemes.specs.Here.{Here, first_place, mark_of};
ghost use Rattle.granit_machine.specs.Laid.{laid_start};
ghost use Rattle.granit_machine.specs.Lexing.{FlaggedItem, lex_start};
ghost use Rattle.granit_machine.specs.Machine.{is_settled, settled};
ghost use Rattle.granit_machine.specs.Reader.{LexState};
ghost use Rattle.granit_queue.specs.QueueViews.{queued_view};
ghost use Rattle.granit_refused.specs.Answered.{answered};
ghost use Rattle.granit_scanner.specs.Scans as spec;
ghost use Rattle.granit_scanner.specs.Scans.{KeepsBefore, Known, KnownBy, ReadsOn};
ghost use Rattle.granit_scanner.specs.Scans.{TakesAsked, TakesOldest, TakesRead, TellsLast};
ghost use Rattle.granit_steps.specs.Steps as steps;

use crate::last::last_behind;
use granit_base::{Marker, NoMemory};
use granit_cursor::Cursor;
use granit_error::{ErrorKind, Options, ScanError};
use granit_input::{BorrowedInput, Input};
use granit_items::{Found, Item, Rooms};
use granit_layout::Layouts;
use granit_queue::{Queue, Queued, asks_next, line_of};
use granit_reader::{Met, next_found};
use granit_refused::take_fault;
use std::alloc::Global;
use std::marker::Model;

/// More lexemes than this stand in no text.
pub(crate) const MOST_LEXEMES: usize = 0x7FFF_FFFF_FFFF_FFFF;

/// An item that is final, and the line by which its comment is placed.
#[derive(Drop)]
pub struct Front<'input> {
    /// The item, and whether a simple key begins with it.
    pub queued: Queued<'input>,
    /// The line of what stands behind it, where that is told.
    pub next_line: Option<usize>,
}

/// An input that is read into items, which wait until nothing behind them can change what they are.
#[derive(Drop)]
pub struct ItemScanner<'input, T: Input> {
    pub(crate) cursor: Cursor<T>,
    pub(crate) layouts: Layouts,
    pub(crate) options: Options,
    pub(crate) queue: Queue<'input>,
    pub(crate) ended: bool,
    // Of a read that failed: no other is made, and of the items that waited those are left that may go.
    pub(crate) fault: Option<ScanError>,
    // What it had met.
    pub(crate) met: Met,
    // The last lexeme among the items that may not go.
    pub(crate) held: Met,
}

impl<'input, T: Input> Model for ItemScanner<'input, T> {
    ghost use Rattle.granit_error.specs.OptionsView.{options_of};
    ghost use Rattle.granit_scanner.specs.Scans.{Scanning};

    ghost Value = { Scanning T };

    ghost view = { λ s. record {
      cursor = s.cursor;
      laid = s.layouts;
      options = options_of s.options;
      queue = s.queue;
      ended = s.ended;
      fault = s.fault;
      met = s.met;
      held = s.held;
    } };
}

impl<'input, T: BorrowedInput<'input>> ItemScanner<'input, T> {
    /// Before an input, of which nothing was read.
    pub fn new(alloc: Global, input: T, options: Options) -> ItemScanner<'input, T>
        ensures start { (h : Here) → T.unread input h.unread → h.place ≡ first_place → h.begins_line ≡ true
            → h.tab ≡ None → Known T.unread result (lex_start h) [] }
        ensures options { result.options ≡ options_of options }
        ensures input { result.cursor.input ≡ input }
    {
        ItemScanner {
            cursor: Cursor::new(input),
            layouts: Layouts::new(alloc),
            options,
            queue: Queue::new(alloc),
            ended: false,
            fault: None,
            met: Met::Nothing,
            held: Met::Nothing,
        }
    }

    /// The place up to which was read.
    pub fn mark(&self) -> Marker
        ensures here { (h : Here) → Stands T.unread self.now.cursor h → result ≡ mark_of h }
        ensures place { result.place ≡ self.now.cursor.place }
        ensures told { is_some result.byte_offset ≡ (T.origin self.now.cursor.input).tells_offset }
    {
        self.cursor.mark()
    }

    /// Whether it isn't known where reading stands, since memory ran out in the midst of a run.
    pub fn is_lost(&self) -> bool
        ensures { result ≡ self.now.cursor.lost }
    {
        self.cursor.is_lost()
    }

    /// How the input is read.
    pub fn options(&self) -> &Options
        ensures { options_of result.now ≡ self.now.options }
    {
        &self.options
    }

    /// Says whether the handles of `%TAG` but `!` and `!!` stay over documents.
    pub fn set_keep_tags(&mut self, keep_tags: bool)
        ensures { self.new ≡ spec.scanner_keeping keep_tags self.old }
    {
        self.options.set_keep_tags(keep_tags);
    }

    /// Whether nothing more is read: the end was, or a read failed.
    pub fn is_over(&self) -> bool
        ensures seen { result ≡ spec.is_done self.now }
        ensures known { (l : LexState) (q : _) → Known T.unread self.now l q → result ≡ steps.is_over l }
    {
        self.is_done()
    }

    /// Whether the oldest item may be taken, as nothing behind it can change what it is.
    pub fn front_may_go(&self) -> bool
        ensures seen { result ≡ spec.front_goes (spec.is_done self.now) self.now.laid self.now.queue }
        ensures known { (l : LexState) (q : _) → Known T.unread self.now l q → result ≡ spec.may_front_go l q }
    {
        match self.queue.get(0) {
            None => false,
            Some(front) => self.is_done() || self.is_final(&front.item),
        }
    }

    /// Takes the oldest item, where it may go.
    pub fn take_front(&mut self) -> Option<Front<'input>>
        ensures known { (l : LexState) (q : _) → Known T.unread self.old l q → spec.may_front_go l q ≡ true
            → TakesOldest T.unread (option_map spec.front_view result) self.new l q }
        ensures item { option_map spec.front_view result ≡ option_map (λ i. (
          i,
          spec.line_next (spec.is_done self.old)
              self.old.laid self.old.queue,
        )) (slice_get self.old.queue 0) }
        ensures rest { self.new ≡ record self.old { queue = drop 1 self.old.queue } }
    {
        self.take_oldest()
    }

    /// Takes the oldest item, where it may go, with the line of what stands behind it where the item asks for that.
    pub fn take_asked(&mut self) -> Option<Front<'input>>
        ensures known { (l : LexState) (q : _) → Known T.unread self.old l q → spec.may_front_go l q ≡ true
            → TakesAsked T.unread (option_map spec.front_view result) self.new l q }
        ensures item { option_map spec.front_view result ≡ option_map (λ i. (
          i,
          spec.line_asked i.item (spec.line_next (spec.is_done self.old) self.old.laid self.old.queue),
        )) (slice_get self.old.queue 0) }
        ensures rest { self.new ≡ record self.old { queue = drop 1 self.old.queue } }
    {
        self.take_front_asked()
    }

    /// Makes one more read, where the oldest item may not go; its items wait behind the others. A fault is kept, and
    /// then nothing is read any more.
    ///
    /// # Errors
    ///
    /// `NoMemory` alone.
    pub fn read_on(&mut self, alloc: Global, rooms: &mut Rooms<'input>) -> Result<(), NoMemory>
        ensures known { (l : LexState) (q : _) → Known T.unread self.old l q → l.fault ≡ None
            → spec.may_front_go l q ≡ false → OnOk result (ReadsOn T.unread self.old.options self.new l q) }
        ensures options { self.new.options ≡ self.old.options }
        ensures moves { Moves T.unread T.left T.origin self.old.cursor self.new.cursor }
    {
        if self.fault.is_some() {
            return Ok(());
        }
        let number = self.layouts.number();
        if number > MOST_LEXEMES {
            return Err(NoMemory);
        }
        let free = self.free_count();
        let mut found: Found<'input> = Found {
            filled: false,
            lexeme: rooms.take()?,
            note: None,
        };
        let mut met = Met::Nothing;
        let read = next_found(
            alloc,
            &self.options,
            &mut self.cursor,
            &mut self.layouts,
            &mut self.ended,
            &mut found,
            &mut met,
            &mut self.fault,
        );
        self.take_read(read, found, rooms, free, number, met)
    }

    /// The fault of the read that failed, which is then given.
    pub fn take_fault(&mut self) -> Option<ScanError>
        ensures given { result ≡ self.old.fault }
        ensures rest { self.new ≡ record self.old { fault = None; ended = true } }
    {
        self.ended = true;
        self.fault.take()
    }

    /// The first error that the input's source gave, once; reading stands where it stood.
    pub fn take_source_error(&mut self) -> Option<ErrorKind>
        ensures given { option_map kind_of result ≡ error_given (T.origin self.old.cursor.input) }
        ensures known { (l : LexState) (q : _) → Known T.unread self.old l q → Known T.unread self.new l q }
        ensures known_by { (f : Option Refused) (l : LexState) (q : _) → KnownBy T.unread f self.old l q
            → KnownBy T.unread f self.new l q }
        ensures here { GoesTo T.unread self.old.cursor self.new.cursor (λ h. h) }
        ensures place { self.new.cursor.place ≡ self.old.cursor.place }
        ensures rest { self.new ≡ record self.old { cursor = self.new.cursor } }
        ensures left { T.left self.new.cursor.input ≤ T.left self.old.cursor.input }
        ensures origin { Gave (T.origin self.old.cursor.input) (T.origin self.new.cursor.input) }
        ensures onward { GoesOnward T.unread self.old.cursor self.new.cursor }
    {
        self.cursor.take_source_error()
    }

    /// Passes what is left, unread, up to the end of the input.
    pub fn pass_rest(&mut self)
        ensures ended { (T.origin self.new.cursor.input).knows_end ≡ true }
        ensures rest { self.new ≡ record self.old { cursor = self.new.cursor } }
        ensures moves { Moves T.unread T.left T.origin self.old.cursor self.new.cursor }
    {
        pass_all(&mut self.cursor);
    }
}

/// Passes all that is left, up to the end.
fn pass_all<T: Input>(cursor: &mut Cursor<T>)
    ensures ended { (T.origin cursor.new.input).knows_end ≡ true }
    ensures moves { Moves T.unread T.left T.origin cursor.old cursor.new }
{
    'all: loop {
        cursor.look(1);
        if cursor.input().next_is_z() {
            return;
        }
        cursor.step();
    }
}

impl<'input, T: Input> ItemScanner<'input, T> {
    fn take_oldest(&mut self) -> Option<Front<'input>>
        ensures item { option_map spec.front_view result ≡ option_map (λ i. (
          i,
          spec.line_next (spec.is_done self.old)
              self.old.laid self.old.queue,
        )) (slice_get self.old.queue 0) }
        ensures rest { self.new ≡ record self.old { queue = drop 1 self.old.queue } }
    {
        match self.queue.pop() {
            None => None,
            Some(queued) => {
                let next_line = self.line_of_front();
                Some(Front { queued, next_line })
            }
        }
    }

    fn take_front_asked(&mut self) -> Option<Front<'input>>
        ensures item { option_map spec.front_view result ≡ option_map (λ i. (
          i,
          spec.line_asked i.item (spec.line_next (spec.is_done self.old) self.old.laid self.old.queue),
        )) (slice_get self.old.queue 0) }
        ensures rest { self.new ≡ record self.old { queue = drop 1 self.old.queue } }
    {
        match self.queue.pop() {
            None => None,
            Some(queued) => {
                let next_line = self.line_if_asked(&queued.item);
                Some(Front { queued, next_line })
            }
        }
    }

    /// The line of the oldest item, where the item before it asks for that.
    fn line_if_asked(&self, before: &Item<'input>) -> Option<usize>
        ensures { result ≡ spec.line_asked (item_view before.now)
            (spec.line_front (spec.is_done self.now) self.now.laid self.now.queue) }
    {
        if asks_next(before) {
            return self.line_of_front();
        }
        None
    }

    /// What a read found waits behind the other items; before a fault, which it kept, so many of them stay.
    fn take_read(
        &mut self,
        read: Result<(), granit_refused::Refused>,
        found: Found<'input>,
        rooms: &mut Rooms<'input>,
        free: usize,
        number: usize,
        met: Met,
    ) -> Result<(), NoMemory>
        ensures taken { OnOk result (TakesRead (answered self.old.fault read) (found_items found.entry) free number met
            (record self.old { fault = None }) self.new) }
        ensures cursor { self.new.cursor ≡ self.old.cursor }
        ensures options { self.new.options ≡ self.old.options }
    {
        match read {
            Ok(()) => {
                self.clear_fault();
                self.queue.push_found(found, rooms)
            }
            Err(refused) => {
                let error = take_fault(refused, &mut self.fault);
                self.keep(error, free, number, met)
            }
        }
    }

    /// No fault is kept; where none is, nothing is written.
    #[inline(always)]
    fn clear_fault(&mut self)
        ensures { self.new ≡ record self.old { fault = None } }
    {
        if self.fault.is_some() {
            self.fault = None;
        }
    }

    /// A read failed: of the items that wait so many may go, and so many lexemes were read before it.
    fn keep(
        &mut self,
        error: ScanError,
        free: usize,
        number: usize,
        met: Met,
    ) -> Result<(), NoMemory>
        ensures kept { OnOk result (KeepsBefore error free number met self.old self.new) }
        ensures found { OnOk result (spec.wants_memory error.kind ≡ false) }
        ensures held { OnOk result (TellsLast self.new.held (drop free self.old.queue)) }
        ensures cursor { self.new.cursor ≡ self.old.cursor }
        ensures options { self.new.options ≡ self.old.options }
    {
        if error.kind().number() == ErrorKind::NoMemory.number() {
            return Err(NoMemory);
        }
        self.met = met;
        self.held = last_behind(&self.queue, free);
        self.queue.truncate(free);
        self.layouts.begin_anew(number, false);
        self.fault = Some(error);
        Ok(())
    }

    /// How many items may go before more is read, where the oldest one waits for what is behind it at most.
    fn free_count(&self) -> usize
        ensures { spec.front_goes false self.now.laid self.now.queue ≡ false
            → take result self.now.queue ≡ settled self.now.laid self.now.queue }
    {
        match self.queue.get(0) {
            None => 0,
            Some(front) => {
                // One that doesn't wait for the next, and yet may not go, isn't settled.
                if !asks_next(&front.item) {
                    return 0;
                }
                usize::from(self.is_settled(&front.item))
            }
        }
    }

    /// Whether nothing behind an item can change what it is, before more is read.
    fn is_final(&self, item: &Item<'input>) -> bool
        ensures { result ≡ spec.is_final self.now.laid (item_view item.now) (drop 1 self.now.queue) }
    {
        self.is_settled(item) && (!asks_next(item) || self.is_next_settled())
    }

    /// Whether no simple key can begin with an item any more.
    fn is_settled(&self, item: &Item<'input>) -> bool
        ensures { result ≡ is_settled self.now.laid (item_view item.now) }
    {
        match item {
            Item::Lexeme(lexeme) => !self.layouts.is_possible(lexeme.number),
            Item::Note(_) => true,
        }
    }

    fn is_next_settled(&self) -> bool
        ensures { result ≡ steps.is_next_settled self.now.laid (drop 1 self.now.queue) }
    {
        match self.queue.get(1) {
            None => false,
            Some(next) => self.is_settled(&next.item),
        }
    }

    /// The line of the oldest item, where it is known.
    #[tactic(auto, using(crate::proofs::FrontLemmas::no_line))]
    fn line_of_front(&self) -> Option<usize>
        ensures { result ≡ spec.line_front (spec.is_done self.now) self.now.laid self.now.queue }
    {
        match self.queue.get(0) {
            None => None,
            Some(next) => self.line_if_known(next),
        }
    }

    fn line_if_known(&self, next: &Queued<'input>) -> Option<usize>
        ensures { result ≡ spec.line_known (spec.is_done self.now) self.now.laid (queued_view next.now) }
    {
        if self.is_done() || self.is_settled(&next.item) {
            line_of(next)
        } else {
            None
        }
    }

    fn is_done(&self) -> bool
        ensures { result ≡ spec.is_done self.now }
    {
        self.ended || self.fault.is_some()
    }
}
