//! All reads, one after another.
ghost use Rattle.std.specs.Prelude.{◌≡◌, ◌<◌, ◌^◌, false, None, IfErr};
ghost use Rattle.granit_cursor.specs.Reading.{Moves, Stands};
ghost use Rattle.granit_error.specs.FaultKind.{NoMemory};
ghost use Rattle.granit_error.specs.OptionsView.{options_of};
ghost use Rattle.granit_lexemes.specs.Here.{Here};
ghost use Rattle.granit_machine.specs.Gaps.{gap};
ghost use Rattle.granit_machine.specs.Reader as spec;
ghost use Rattle.granit_items.specs.ItemViews.{found_items};
ghost use Rattle.granit_content.specs.Reads.{IsAt};
ghost use Rattle.granit_reader.specs.Meets.{MeetsBehind};
ghost use Rattle.granit_reader.specs.Reads.{reader_at};
ghost use Rattle.granit_refused.specs.Answered.{answered};
ghost use Rattle.granit_reader.specs.Turns.{TurnTo, before_turn};
ghost use Rattle.granit_reader.specs.WithoutMemory.{NeverWantsAt, turn_takes_none};

use crate::met::Met;
use crate::read::read;
use granit_cursor::Cursor;
use granit_error::{Options, ScanError};
use granit_input::BorrowedInput;
use granit_items::{Found, LexemeKind};
use granit_layout::Layouts;
use granit_refused::Refused;
use std::alloc::Global;

/// What the next read gives, and nothing behind the end of the text, which is told.
///
/// # Errors
///
/// `NoMemory`, and the kinds of `docs/FAULTS.md` that a reader finds.
pub fn next_found<'input, T: BorrowedInput<'input>>(
    alloc: Global,
    options: &Options,
    at: &mut Cursor<T>,
    layouts: &mut Layouts,
    ended: &mut bool,
    found: &mut Found<'input>,
    met: &mut Met,
    fault: &mut Option<ScanError>,
) -> Result<(), Refused>
    requires room { layouts.old.number < 2 ^ 63 }
    requires no_lexeme { found.old.filled ≡ false }
    requires no_note { found.old.note ≡ None }
    ensures here { (h : Here) → Stands T.unread at.old h
        → TurnTo (options_of options.now).emit_comments (answered fault.new result)
        (found_items found.new) (IsAt T.unread at.new layouts.new) ended.new (reader_at h layouts.old)
        (spec.lex_turn (options_of options.now) (before_turn ended.old (reader_at h layouts.old))) }
    ensures met { (h : Here) → Stands T.unread at.old h
        → IfErr (answered fault.new result) (λ e. (e.kind ≡ NoMemory → ⊥)
        → MeetsBehind (options_of options.now) met.new (gap (options_of options.now) h layouts.old)) }
    ensures memory { NeverWantsAt T.unread (options_of options.now).emit_comments at.old (answered fault.new result)
        (λ h. turn_takes_none (options_of options.now) (before_turn ended.old (reader_at h layouts.old))) }
    ensures moves { Moves T.unread T.left T.origin at.old at.new }
{
    if *ended {
        return Ok(());
    }
    read(alloc, options, at, layouts, found, met, fault)?;
    *ended = is_end(found);
    Ok(())
}

/// Whether the end of the text was read.
fn is_end(found: &Found<'_>) -> bool
    ensures { result ≡ spec.is_end (found_items found.now) }
{
    found.filled && matches!(found.lexeme.kind, LexemeKind::StreamEnd)
}
