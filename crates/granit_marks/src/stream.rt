//! The end, document marks and directives (YAML 1.2.2, 6.8 and 9.1).
ghost use Rattle.std.specs.Prelude.{◌≡◌, ◌<◌, ◌^◌, false, Ok};
ghost use Rattle.granit_cursor.specs.Reading.{GoesTo, Moves, Stands, Wherever};
ghost use Rattle.granit_error.specs.OptionsView.{options_of};
ghost use Rattle.granit_lexemes.specs.Here.{Here, next_char};
ghost use Rattle.granit_lexemes.specs.Moves.{steps};
ghost use Rattle.granit_machine.specs.Columns.{closed_all, ends_all};
ghost use Rattle.granit_machine.specs.StreamLexemes as spec;
ghost use Rattle.granit_marks.specs.StreamReads as view;
ghost use Rattle.granit_content.specs.Reads.{NeverWants, ReadsItems, lexeme_in};
ghost use Rattle.granit_refused.specs.Answered.{answered};

use granit_base::is_breakz;
use granit_content::{
    kept_note, over_break_if, put_tail, scalar_lexeme, start_of, tail_at, write_lexeme,
};
use granit_cursor::Cursor;
use granit_directives::scan_directive;
use granit_error::{ErrorKind, Options, ScanError};
use granit_input::{BorrowedInput, Input};
use granit_items::{Lexeme, LexemeKind};
use granit_layout::Layouts;
use granit_lexemes::LastLexeme;
use granit_refused::{Refused, keep_fault, refuse_at};
use std::alloc::Global;

/// The end of the text, where no bracket is open.
///
/// # Errors
///
/// Those of `Layouts::refuse_open` and `Layouts::drop_key`.
#[inline(never)]
pub fn text_end<T: Input>(
    asked: bool,
    at: &mut Cursor<T>,
    layouts: &mut Layouts,
    found: &mut Lexeme<'_>,
    fault: &mut Option<ScanError>,
) -> Result<(), Refused>
    requires room { layouts.old.number < 2 ^ 63 }
    ensures here { ReadsItems T.unread asked at.old at.new layouts.new
        (lexeme_in found.new) (answered fault.new result) (λ h. spec.text_end h layouts.old) }
    ensures memory { NeverWants (answered fault.new result) }
    ensures moves { Moves T.unread T.left T.origin at.old at.new }
{
    layouts.refuse_open(fault)?;
    let start = start_of(at);
    let ends = layouts.ends_all();
    write_lexeme(
        found,
        layouts,
        ends,
        LexemeKind::StreamEnd,
        &start,
        start.mark,
    );
    layouts.drop_key(fault)?;
    layouts.behind_end();
    Ok(())
}

/// Over the three characters of a document mark.
#[tactic(auto, unfolding(granit_lexemes::specs::Moves::steps))]
fn past_mark<T: Input>(at: &mut Cursor<T>)
    ensures here { GoesTo T.unread at.old at.new (steps 3) }
    ensures moves { Moves T.unread T.left T.origin at.old at.new }
{
    at.step();
    at.step();
    at.step();
}

/// `---`.
fn start_mark<T: Input>(
    asked: bool,
    at: &mut Cursor<T>,
    layouts: &mut Layouts,
    ends: bool,
    found: &mut Lexeme<'_>,
)
    requires room { layouts.old.number < 2 ^ 63 }
    ensures here { ReadsItems T.unread asked at.old at.new layouts.new (lexeme_in found.new) (Ok tt)
        (λ h. spec.start_mark ends h layouts.old) }
    ensures moves { Moves T.unread T.left T.origin at.old at.new }
{
    let start = start_of(at);
    past_mark(at);
    write_lexeme(
        found,
        layouts,
        ends,
        LexemeKind::DocumentStart,
        &start,
        at.mark(),
    );
    layouts.forget_key();
    layouts.count_lexeme(LastLexeme::Another);
}

/// `---` where no bracket is open, which ends all columns.
///
/// # Errors
///
/// Those of `Layouts::refuse_open`.
#[inline(never)]
pub fn document_start<T: Input>(
    asked: bool,
    at: &mut Cursor<T>,
    layouts: &mut Layouts,
    found: &mut Lexeme<'_>,
    fault: &mut Option<ScanError>,
) -> Result<(), Refused>
    requires room { layouts.old.number < 2 ^ 63 }
    ensures here { ReadsItems T.unread asked at.old at.new layouts.new
        (lexeme_in found.new) (answered fault.new result) (λ h. view.document_start h layouts.old) }
    ensures memory { NeverWants (answered fault.new result) }
    ensures moves { Moves T.unread T.left T.origin at.old at.new }
{
    layouts.refuse_open(fault)?;
    let ends = layouts.ends_all();
    layouts.close_all();
    start_mark(asked, at, layouts, ends, found);
    Ok(())
}

/// `...` with its tail where no bracket is open, which ends all columns.
///
/// # Errors
///
/// `InvalidDocumentEnd` where the line goes on, and those of `Layouts::refuse_open` and `tail_at`.
#[inline(never)]
pub fn document_end<'input, T: BorrowedInput<'input>>(
    alloc: Global,
    asked: bool,
    at: &mut Cursor<T>,
    layouts: &mut Layouts,
    found: &mut Lexeme<'input>,
    fault: &mut Option<ScanError>,
) -> Result<(), Refused>
    requires room { layouts.old.number < 2 ^ 63 }
    ensures here { ReadsItems T.unread asked at.old at.new layouts.new
        (lexeme_in found.new) (answered fault.new result) (λ h. view.document_end h layouts.old) }
    ensures memory { asked ≡ false → NeverWants (answered fault.new result) }
    ensures moves { Moves T.unread T.left T.origin at.old at.new }
{
    layouts.refuse_open(fault)?;
    let ends = layouts.ends_all();
    layouts.close_all();
    end_mark(alloc, asked, at, layouts, ends, found, fault)
}

/// `...` with its tail, behind which the line ends.
fn end_mark<'input, T: BorrowedInput<'input>>(
    alloc: Global,
    asked: bool,
    at: &mut Cursor<T>,
    layouts: &mut Layouts,
    ends: bool,
    found: &mut Lexeme<'input>,
    fault: &mut Option<ScanError>,
) -> Result<(), Refused>
    requires room { layouts.old.number < 2 ^ 63 }
    ensures here { ReadsItems T.unread asked at.old at.new layouts.new
        (lexeme_in found.new) (answered fault.new result) (λ h. spec.end_mark ends h layouts.old) }
    ensures memory { asked ≡ false → NeverWants (answered fault.new result) }
    ensures moves { Moves T.unread T.left T.origin at.old at.new }
{
    let start = start_of(at);
    past_mark(at);
    let end = at.mark();
    let tail = tail_at(alloc, at, asked, fault)?;
    refuse_more(at, fault)?;
    write_lexeme(found, layouts, ends, LexemeKind::DocumentEnd, &start, end);
    put_tail(found, tail);
    layouts.behind_end_mark();
    Ok(())
}

/// Behind a `...` and its tail, the line ends.
fn refuse_more<T: Input>(at: &mut Cursor<T>, fault: &mut Option<ScanError>) -> Result<(), Refused>
    ensures here { Wherever T.unread at.old at.new
        (λ h Lands. Lands h × (answered fault.new result ≡ view.refuse_more h)) }
    ensures memory { NeverWants (answered fault.new result) }
    ensures moves { Moves T.unread T.left T.origin at.old at.new }
{
    at.look(1);
    if is_breakz(at.input().peek()) {
        return Ok(());
    }
    Err(refuse_at(fault, at.mark(), ErrorKind::InvalidDocumentEnd))
}

/// A directive with its tail and its break, which ends all columns.
///
/// # Errors
///
/// Those of `scan_directive`, and `NoMemory`.
#[inline(never)]
pub fn directive<'input, T: BorrowedInput<'input>>(
    alloc: Global,
    options: &Options,
    at: &mut Cursor<T>,
    layouts: &mut Layouts,
    found: &mut Lexeme<'input>,
    fault: &mut Option<ScanError>,
) -> Result<(), Refused>
    requires sign { (h : Here) → Stands T.unread at.old h → next_char h ≡ 0x25 }
    requires room { layouts.old.number < 2 ^ 63 }
    ensures here { ReadsItems T.unread (options_of options.now).emit_comments at.old at.new layouts.new
        (lexeme_in found.new) (answered fault.new result)
        (λ h. spec.directive_lexeme (options_of options.now) (ends_all layouts.old) h (closed_all layouts.old)) }
    ensures moves { Moves T.unread T.left T.origin at.old at.new }
{
    let ends = layouts.ends_all();
    layouts.close_all();
    let start = start_of(at);
    let read = keep_fault(fault, scan_directive(alloc, at, options))?;
    over_break_if(at);
    let tail = kept_note(alloc, read.comment)?;
    scalar_lexeme(alloc, layouts, ends, &start, read.token, tail, found);
    layouts.behind_directive();
    Ok(())
}
