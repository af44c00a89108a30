//! What may stand behind a `...` on its line.
ghost use Rattle.std.specs.Prelude.{◌≡◌, ◌≤◌, false};
ghost use Rattle.granit_boundary.specs.Found.{FinishesTo, line_ends_here};
ghost use Rattle.granit_cursor.specs.Reading.{GoesTo, Moves, Stands, Wherever};
ghost use Rattle.granit_lexemes.specs.Comment.{is_line_char};
ghost use Rattle.granit_lexemes.specs.Here.{Here};
ghost use Rattle.granit_restart.specs.Boundary as spec;

use granit_base::{is_blank, is_break, is_breakz, is_printable};
use granit_cursor::Cursor;
use granit_input::Input;

/// Whether a blank, a break or the end stands here; a NUL separates nothing.
pub(crate) fn is_separated<T: Input>(cursor: &mut Cursor<T>) -> bool
    ensures value { (h : Here) → Stands T.unread cursor.old h → result ≡ spec.is_separated h.unread.text }
    ensures here { GoesTo T.unread cursor.old cursor.new (λ h. h) }
    ensures moves { Moves T.unread T.left T.origin cursor.old cursor.new }
{
    cursor.look(1);
    if cursor.input().next_is_z() {
        return true;
    }
    let c = cursor.input().peek();
    is_blank(c) || is_break(c)
}

/// Whether a break or the end stands here; one more character may then be looked at.
fn line_ends<T: Input>(cursor: &mut Cursor<T>) -> bool
    ensures value { (h : Here) → Stands T.unread cursor.old h → result ≡ line_ends_here h.unread.text }
    ensures here { GoesTo T.unread cursor.old cursor.new (λ h. h) }
    ensures window { 1 ≤ T.window cursor.new.input }
    ensures some { result ≡ false → 1 ≤ T.left cursor.new.input }
    ensures moves { Moves T.unread T.left T.origin cursor.old cursor.new }
{
    cursor.look(1);
    cursor.input().next_is_z() || is_break(cursor.input().peek())
}

/// Passes the blanks and the comment that finish a line; false where something else stands on it, which isn't passed.
pub(crate) fn line_finishes<T: Input>(cursor: &mut Cursor<T>) -> bool
    ensures here { Wherever T.unread cursor.old cursor.new (λ h Lands.
        FinishesTo spec.finished_line Lands result h) }
    ensures moves { Moves T.unread T.left T.origin cursor.old cursor.new }
{
    'blanks: loop {
        if line_ends(cursor) {
            return true;
        }
        let c = cursor.input().peek();
        if c == '#' {
            cursor.step();
            return note_finishes(cursor);
        }
        if !is_blank(c) {
            return false;
        }
        cursor.step();
    }
}

/// Passes the rest of a comment; false where a character stands in it that may not, which isn't passed.
fn note_finishes<T: Input>(cursor: &mut Cursor<T>) -> bool
    ensures here { Wherever T.unread cursor.old cursor.new (λ h Lands.
        FinishesTo spec.past_note Lands result h) }
    ensures moves { Moves T.unread T.left T.origin cursor.old cursor.new }
{
    'note: loop {
        if line_ends(cursor) {
            return true;
        }
        if !is_note(cursor.input().peek()) {
            return false;
        }
        cursor.step();
    }
}

/// Whether a character may stand in a comment.
fn is_note(c: char) -> bool
    ensures { result ≡ is_line_char c }
{
    !is_breakz(c) && is_printable(c)
}
