//! What an input lends of what a cursor passes.
ghost use Rattle.std.specs.Prelude.{◌≡◌, ℕ, IfErr, None, Some, if◌then◌else◌, take, true};
ghost use Rattle.granit_base.specs.Place.{Unread};
ghost use Rattle.granit_error.specs.FaultKind.{InputSlicingUnavailable};
ghost use Rattle.granit_input.specs.Origin.{can_lend, LentBetween};
ghost use Rattle.granit_runs.specs.Unread.{SpelledBy, past_count};
ghost use Rattle.granit_lexemes.specs.Here.{Here};
ghost use Rattle.granit_cursor.specs.Reading.{Stands, IsLent, LendsUpTo, RefusesSlice};

use crate::cursor::Cursor;
use granit_base::Marker;
use granit_error::{ErrorKind, ScanError};
use granit_input::{BorrowedInput, Input};

/// Where in its source the input stands, where it lends what follows.
pub fn lending_offset<'input, T: BorrowedInput<'input>>(cursor: &Cursor<T>) -> Option<usize>
    ensures { (h : Here) → Stands T.unread cursor.now h
        → result ≡ (if h.unread.lends then h.unread.offset else None) }
{
    let here = cursor.input().byte_offset()?;
    cursor.input().slice_borrowed(here, here)?;
    Some(here)
}

/// What the source lends from a place on, up to where the input stands.
fn slice_since<'input, T: BorrowedInput<'input>>(
    cursor: &Cursor<T>,
    start: usize,
) -> Option<&'input str>
    ensures { (u : Unread) → T.unread cursor.now.input u
        → LentBetween (T.origin cursor.now.input).lent (Some start) u.offset result }
{
    let here = cursor.input().byte_offset()?;
    cursor.input().slice_borrowed(start, here)
}

/// What was read since a place from which the input lends.
///
/// # Errors
///
/// `InputSlicingUnavailable` where the cursor stands, where the input refuses it.
pub fn lent_since<'input, T: BorrowedInput<'input>>(
    cursor: &Cursor<T>,
    start: usize,
) -> Result<&'input str, ScanError>
    ensures here { (u : Unread) (n : ℕ) → SpelledBy (T.origin cursor.now.input).lent u
        → can_lend (T.origin cursor.now.input) ≡ true → Some start ≡ u.offset
        → T.unread cursor.now.input (past_count n u)
        → IsLent result (take n u.text) }
    ensures kinds { IfErr result (λ e. e.kind ≡ InputSlicingUnavailable) }
    ensures refused { IfErr result (RefusesSlice T.unread T.origin cursor.now) }
{
    match slice_since(cursor, start) {
        Some(part) => Ok(part),
        None => Err(ScanError::from_kind(cursor.mark(), ErrorKind::InputSlicingUnavailable)),
    }
}

/// What the source lends from a byte of it up to a mark.
///
/// # Errors
///
/// `InputSlicingUnavailable` at that mark, where the input refuses it.
pub(crate) fn lent_up_to<'input, T: BorrowedInput<'input>>(
    cursor: &Cursor<T>,
    start: usize,
    end: Marker,
) -> Result<&'input str, ScanError>
    ensures { LendsUpTo (T.origin cursor.now.input).lent start end result }
{
    let text = match end.byte_offset() {
        None => None,
        Some(behind) => cursor.input().slice_borrowed(start, behind),
    };
    match text {
        Some(text) => Ok(text),
        None => Err(ScanError::from_kind(end, ErrorKind::InputSlicingUnavailable)),
    }
}
