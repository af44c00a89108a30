//! Behind a refusal items are read from the next document boundary on.
ghost use Rattle.std.specs.Prelude.{◌≡◌, ◌<◌, ◌≤◌, ◌^◌, ◌++◌, false, [], None, Some, IfOk, IsOk, OnOk};
ghost use Rattle.std.specs.Option.{option_map};
ghost use Rattle.granit_cursor.specs.Reading.{GoesTo, Moves, Stands};
ghost use Rattle.granit_items.specs.ItemViews.{boxed_lexeme, item_view, kind_view, lexeme_view};
ghost use Rattle.granit_lexemes.specs.Here.{Here};
ghost use Rattle.granit_restart.specs.Boundary.{next_boundary};
ghost use Rattle.granit_restart.specs.Header as header;
ghost use Rattle.granit_restart.specs.Restart as spec;
ghost use Rattle.granit_machine.specs.Reader.{LexState};
ghost use Rattle.granit_scanner.specs.Restarts.{Restarts, finds_start, front_items, is_start_in_text};
ghost use Rattle.granit_scanner.specs.Scans as scans;
ghost use Rattle.granit_scanner.specs.Scans.{Known};
ghost use Rattle.granit_steps.specs.Steps.{StepState};

use crate::last::{is_behind, last_behind};
use crate::scanner::{ItemScanner, MOST_LEXEMES};
use granit_base::{NoMemory, is_break};
use granit_boundary::{Boundary, pass_to_boundary};
use granit_content::{Start, write_lexeme};
use granit_cursor::Cursor;
use granit_input::{BorrowedInput, Input};
use granit_items::{Found, Item, Lexeme, LexemeKind, Rooms};
use granit_queue::Queue;

impl<'input, T: BorrowedInput<'input>> ItemScanner<'input, T> {
    /// Goes on at the next document boundary: the first one among a lexeme that was taken and the items that wait, or
    /// the next one in the text. All else that waits goes, and nothing is open any more. Whether a `---` comes next.
    ///
    /// # Errors
    ///
    /// `NoMemory` alone, and where that boundary is no `---` of the text, only behind 2^63 lexemes.
    pub fn restart(
        &mut self,
        front: Option<Box<Lexeme<'input>>>,
        rooms: &mut Rooms<'input>,
    ) -> Result<bool, NoMemory>
        ensures known { (s : StepState) (h : Here) → Stands T.unread self.old.cursor h
            → self.old.laid.number ≡ s.reading.reader.laid.number
            → spec.read_boundary h s.queue ≡ spec.read_boundary h (front_items front.entry ++ self.old.queue)
            → IfOk result (Restarts T.unread (spec.behind_fault_at h s) self.new) }
        ensures memory { (h : Here) → Stands T.unread self.old.cursor h → self.old.laid.number < 2 ^ 63
            → finds_start h (front_items front.entry ++ self.old.queue) ≡ false → IsOk result }
        ensures options { self.new.options ≡ self.old.options }
        ensures moves { Moves T.unread T.left T.origin self.old.cursor self.new.cursor }
    {
        if self.layouts.number() > MOST_LEXEMES {
            return Err(NoMemory);
        }
        self.cursor.look(1);
        match read_boundary(&self.cursor, &mut self.queue, front) {
            Some(lexeme) => self.restart_at(lexeme, rooms),
            None => self.restart_behind(rooms),
        }
    }

    /// Whether the read that failed stands among directives, where what was taken ends in one or not.
    pub fn fails_in_header(&self, before: bool) -> bool
        ensures { result ≡ scans.fails_in_header before self.now }
    {
        is_behind(
            self.met,
            is_behind(self.held, is_behind(last_behind(&self.queue, 0), before)),
        )
    }

    /// Whether the last lexeme that was read is a directive, or where all that were read were taken, what is told.
    pub fn ends_in_directive(&self, before: bool) -> bool
        ensures known { (l : LexState) (q : _) → Known T.unread self.now l q
            → result ≡ header.ends_in_directive before q }
    {
        let waiting = is_behind(last_behind(&self.queue, 0), before);
        if self.fault.is_some() {
            is_behind(self.held, waiting)
        } else {
            waiting
        }
    }

    /// Goes on at a boundary that was read.
    fn restart_at(
        &mut self,
        mut lexeme: Box<Lexeme<'input>>,
        rooms: &mut Rooms<'input>,
    ) -> Result<bool, NoMemory>
        requires room { self.old.laid.number < 2 ^ 63 }
        ensures known { (s : StepState) (h : Here) → Stands T.unread self.old.cursor h
            → self.old.laid.number ≡ s.reading.reader.laid.number
            → IfOk result (Restarts T.unread
            (spec.at_lexeme h s (kind_view lexeme.entry.value.kind) (boxed_lexeme lexeme.entry)) self.new) }
        ensures memory { IsOk result }
        ensures options { self.new.options ≡ self.old.options }
        ensures cursor { self.new.cursor ≡ self.old.cursor }
    {
        match lexeme.kind {
            LexemeKind::DocumentStart => {
                self.begin_anew(false);
                lexeme.ends_column = false;
                self.put_front(lexeme, rooms)?;
                Ok(true)
            }
            LexemeKind::DocumentEnd => {
                self.begin_anew(true);
                Ok(false)
            }
            _ => {
                self.begin_anew(false);
                Ok(false)
            }
        }
    }

    /// Goes on at the next boundary in the text.
    fn restart_behind(&mut self, rooms: &mut Rooms<'input>) -> Result<bool, NoMemory>
        requires room { self.old.laid.number < 2 ^ 63 }
        ensures known { (s : StepState) (h : Here) → Stands T.unread self.old.cursor h
            → self.old.laid.number ≡ s.reading.reader.laid.number
            → IfOk result (Restarts T.unread (spec.at_boundary s (next_boundary h)) self.new) }
        ensures memory { (h : Here) → Stands T.unread self.old.cursor h
            → is_start_in_text (next_boundary h) ≡ false → IsOk result }
        ensures options { self.new.options ≡ self.old.options }
        ensures moves { Moves T.unread T.left T.origin self.old.cursor self.new.cursor }
    {
        match pass_to_boundary(&mut self.cursor) {
            Boundary::Start(mark, begins_line) => {
                let mut lexeme = rooms.take()?;
                let number = self.layouts.number();
                self.begin_anew(false);
                let start = Start { mark, begins_line };
                let end = self.cursor.mark();
                let kind = LexemeKind::DocumentStart;
                let room: &mut Lexeme<'input> = &mut lexeme;
                write_lexeme(room, &self.layouts, false, kind, &start, end);
                room.number = number;
                self.put_front(lexeme, rooms)?;
                Ok(true)
            }
            Boundary::End => {
                self.begin_anew(true);
                Ok(false)
            }
            Boundary::TextEnd => {
                self.begin_anew(false);
                Ok(false)
            }
        }
    }

    /// Nothing waits and nothing is open.
    fn begin_anew(&mut self, may_prefix: bool)
        requires room { self.old.laid.number < 2 ^ 63 }
        ensures { self.new ≡ record self.old {
          laid = spec.laid_anew may_prefix self.old.laid;
          queue = [];
          ended = false;
          fault = None;
        } }
    {
        let number = self.layouts.number() + 1;
        self.layouts.begin_anew(number, may_prefix);
        self.queue.truncate(0);
        self.ended = false;
        self.fault = None;
    }

    /// A lexeme waits where nothing did.
    fn put_front(
        &mut self,
        lexeme: Box<Lexeme<'input>>,
        rooms: &mut Rooms<'input>,
    ) -> Result<(), NoMemory>
        requires { self.old.queue ≡ [] }
        ensures front { OnOk result (self.new ≡ record self.old { queue = front_items (Some lexeme.entry) }) }
        ensures memory { IsOk result }
        ensures options { self.new.options ≡ self.old.options }
        ensures cursor { self.new.cursor ≡ self.old.cursor }
    {
        let found: Found<'input> = Found {
            filled: true,
            lexeme,
            note: None,
        };
        self.queue.push_found(found, rooms)
    }
}

/// The first boundary among a lexeme that was taken and the items that wait, some of which go.
fn read_boundary<'input, T: Input>(
    cursor: &Cursor<T>,
    queue: &mut Queue<'input>,
    front: Option<Box<Lexeme<'input>>>,
) -> Option<Box<Lexeme<'input>>>
    requires { 1 ≤ T.window cursor.now.input }
    ensures { (h : Here) → Stands T.unread cursor.now h → option_map boxed_lexeme result
        ≡ spec.read_boundary h (front_items front.entry ++ queue.old) }
{
    match front {
        None => queued_boundary(cursor, queue),
        Some(lexeme) => match boundary_in(cursor, Item::Lexeme(lexeme)) {
            None => queued_boundary(cursor, queue),
            Some(boundary) => Some(boundary),
        },
    }
}

/// The first boundary among the items that wait, some of which go.
fn queued_boundary<'input, T: Input>(
    cursor: &Cursor<T>,
    queue: &mut Queue<'input>,
) -> Option<Box<Lexeme<'input>>>
    requires { 1 ≤ T.window cursor.now.input }
    ensures { (h : Here) → Stands T.unread cursor.now h
        → option_map boxed_lexeme result ≡ spec.read_boundary h queue.old }
{
    'items: loop {
        match queue.pop() {
            None => return None,
            Some(queued) => {
                if let Some(boundary) = boundary_in(cursor, queued.item) {
                    return Some(boundary);
                }
            }
        }
    }
}

/// An item that is a boundary.
fn boundary_in<'input, T: Input>(
    cursor: &Cursor<T>,
    item: Item<'input>,
) -> Option<Box<Lexeme<'input>>>
    requires { 1 ≤ T.window cursor.now.input }
    ensures { (h : Here) → Stands T.unread cursor.now h
        → option_map boxed_lexeme result ≡ spec.boundary_of h (item_view item.entry) None }
{
    match item {
        Item::Note(_) => None,
        Item::Lexeme(lexeme) => {
            if is_boundary(cursor, &lexeme) {
                Some(lexeme)
            } else {
                None
            }
        }
    }
}

/// Whether a lexeme is a boundary: a `---` that a NUL doesn't touch, a `...` whose line is finished, or the end.
fn is_boundary<T: Input>(cursor: &Cursor<T>, lexeme: &Lexeme<'_>) -> bool
    requires { 1 ≤ T.window cursor.now.input }
    ensures { (h : Here) → Stands T.unread cursor.now h
        → result ≡ spec.is_boundary h (kind_view lexeme.now.kind) (lexeme_view lexeme.now) }
{
    let next = cursor.input().peek();
    let at_end = cursor.input().next_is_z();
    let mark = cursor.mark();
    match lexeme.kind {
        LexemeKind::DocumentStart => {
            !((lexeme.end.index() == mark.index() && next == '\0') && !at_end)
        }
        LexemeKind::DocumentEnd => { lexeme.end.line() < mark.line() || (at_end || is_break(next)) }
        LexemeKind::StreamEnd => true,
        _ => false,
    }
}
