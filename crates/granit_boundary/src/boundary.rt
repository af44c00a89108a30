//! The next place at which reading may go on.
ghost use Rattle.std.specs.Prelude.{◌≡◌, ◌<◌, ◌≤◌, ◌==◌, true, false, None};
ghost use Rattle.granit_boundary.specs.Found.{FoundAs, PassesTo};
ghost use Rattle.granit_cursor.specs.Reading.{GoesTo, Moves, Stands, Wherever};
ghost use Rattle.granit_input.specs.Looks.{begins_with_3};
ghost use Rattle.granit_lexemes.specs.Here.{Here, text_len};
ghost use Rattle.granit_lexemes.specs.Moves.{steps};
ghost use Rattle.granit_restart.specs.Boundary.{next_boundary};

use crate::line::{is_separated, line_finishes};
use granit_base::{Marker, is_bom};
use granit_cursor::Cursor;
use granit_input::Input;

/// Where reading may go on.
pub enum Boundary {
    /// Behind a `---`, whose place is told, and whether only blanks and prefix marks stand before it on its line.
    Start(Marker, bool),
    /// Behind a `...`, and the blanks and the comment on its line.
    End,
    /// At the end of the text.
    TextEnd,
}

/// Passes what stands before the next `---` in column 0 behind which a blank, a break or the end stands, or `...` there
/// that blanks and a comment may follow, or the end, and that too.
pub fn pass_to_boundary<T: Input>(cursor: &mut Cursor<T>) -> Boundary
    ensures here { Wherever T.unread cursor.old cursor.new (λ h Lands. FoundAs Lands result (next_boundary h)) }
    ensures moves { Moves T.unread T.left T.origin cursor.old cursor.new }
{
    'passed: loop {
        if let Some(boundary) = pass_some(cursor) {
            return boundary;
        }
    }
}

/// Passes the boundary that stands here, or something else.
fn pass_some<T: Input>(cursor: &mut Cursor<T>) -> Option<Boundary>
    ensures here { Wherever T.unread cursor.old cursor.new (λ h Lands. PassesTo Lands result h) }
    ensures less { result ≡ None → T.left cursor.new.input < T.left cursor.old.input }
    ensures moves { Moves T.unread T.left T.origin cursor.old cursor.new }
{
    cursor.look(4);
    if cursor.input().next_is_z() {
        return Some(Boundary::TextEnd);
    }
    if cursor.mark().col() == 0 {
        begin_line(cursor)
    } else {
        pass_inside(cursor);
        None
    }
}

/// Passes something of a line that was begun.
fn pass_inside<T: Input>(cursor: &mut Cursor<T>)
    requires some { 1 ≤ T.left cursor.old.input }
    requires text { (h : Here) → Stands T.unread cursor.old h → (text_len h == 0) ≡ false }
    requires inside { (cursor.old.place.column == 0) ≡ false }
    ensures here { Wherever T.unread cursor.old cursor.new (λ h Lands. PassesTo Lands None h) }
    ensures less { T.left cursor.new.input < T.left cursor.old.input }
    ensures moves { Moves T.unread T.left T.origin cursor.old cursor.new }
{
    if cursor.skip_quoted(true) == 0 {
        cursor.step();
    }
}

/// Passes what stands in column 0.
fn begin_line<T: Input>(cursor: &mut Cursor<T>) -> Option<Boundary>
    requires window { 4 ≤ T.window cursor.old.input }
    requires some { 1 ≤ T.left cursor.old.input }
    requires text { (h : Here) → Stands T.unread cursor.old h → (text_len h == 0) ≡ false }
    requires column { cursor.old.place.column ≡ 0 }
    ensures here { Wherever T.unread cursor.old cursor.new (λ h Lands. PassesTo Lands result h) }
    ensures less { result ≡ None → T.left cursor.new.input < T.left cursor.old.input }
    ensures moves { Moves T.unread T.left T.origin cursor.old cursor.new }
{
    if is_bom(cursor.input().peek()) {
        cursor.step_prefix_mark();
        return None;
    }
    if cursor.input().next_3_are('-', '-', '-') {
        return pass_start(cursor);
    }
    if cursor.input().next_3_are('.', '.', '.') {
        return pass_end(cursor);
    }
    cursor.step();
    None
}

/// Passes three `-`, which are a boundary where they are separated.
fn pass_start<T: Input>(cursor: &mut Cursor<T>) -> Option<Boundary>
    requires some { 1 ≤ T.left cursor.old.input }
    requires text { (h : Here) → Stands T.unread cursor.old h → begins_with_3 0x2D 0x2D 0x2D h.unread.text ≡ true }
    requires column { cursor.old.place.column ≡ 0 }
    ensures here { Wherever T.unread cursor.old cursor.new (λ h Lands. PassesTo Lands result h) }
    ensures less { result ≡ None → T.left cursor.new.input < T.left cursor.old.input }
    ensures moves { Moves T.unread T.left T.origin cursor.old cursor.new }
{
    let mark = cursor.mark();
    let begins_line = cursor.begins_line();
    pass_three(cursor);
    if is_separated(cursor) {
        Some(Boundary::Start(mark, begins_line))
    } else {
        None
    }
}

/// Passes three `.`, which are a boundary where they are separated, and the rest of their line is finished.
fn pass_end<T: Input>(cursor: &mut Cursor<T>) -> Option<Boundary>
    requires some { 1 ≤ T.left cursor.old.input }
    requires text { (h : Here) → Stands T.unread cursor.old h → begins_with_3 0x2E 0x2E 0x2E h.unread.text ≡ true }
    requires column { cursor.old.place.column ≡ 0 }
    ensures here { Wherever T.unread cursor.old cursor.new (λ h Lands. PassesTo Lands result h) }
    ensures less { result ≡ None → T.left cursor.new.input < T.left cursor.old.input }
    ensures moves { Moves T.unread T.left T.origin cursor.old cursor.new }
{
    pass_three(cursor);
    if !is_separated(cursor) {
        return None;
    }
    if line_finishes(cursor) {
        Some(Boundary::End)
    } else {
        None
    }
}

/// Over three characters.
fn pass_three<T: Input>(cursor: &mut Cursor<T>)
    requires { 1 ≤ T.left cursor.old.input }
    ensures here { GoesTo T.unread cursor.old cursor.new (steps 3) }
    ensures less { T.left cursor.new.input < T.left cursor.old.input }
    ensures moves { Moves T.unread T.left T.origin cursor.old cursor.new }
{
    cursor.step();
    cursor.step();
    cursor.step();
}
