//! What all lexemes share.
ghost use Rattle.std.specs.Prelude.{◌≡◌, ◌<◌, ◌^◌, false, None};
ghost use Rattle.granit_cursor.specs.Reading.{Moves, Stands, Wherever};
ghost use Rattle.granit_lexemes.specs.Here.{Here, step};
ghost use Rattle.granit_machine.specs.ReaderState as spec;
ghost use Rattle.granit_items.specs.ItemViews.{kind_view, lexeme_view};
ghost use Rattle.granit_refused.specs.Answered.{answered};
ghost use Rattle.granit_content.specs.Reads.{IsStart, NeverWants, ReadsItems, behind_seen, comment_kept, lexeme_in};
ghost use Rattle.granit_content.specs.Reads.{tail_view};

use crate::tail::{Tail, tail_at};
use granit_base::Marker;
use granit_cursor::Cursor;
use granit_error::ScanError;
use granit_input::{BorrowedInput, Input};
use granit_items::{Lexeme, LexemeKind};
use granit_layout::Layouts;
use granit_lexemes::LastLexeme;
use granit_refused::Refused;
use std::alloc::Global;
use std::mem;

/// Where a lexeme begins.
#[derive(Clone, Copy)]
pub struct Start {
    /// Its place.
    pub mark: Marker,
    /// Whether only blanks and prefix marks stand before it on its line.
    pub begins_line: bool,
}

/// A lexeme begins here.
pub fn start_of<T: Input>(at: &Cursor<T>) -> Start
    ensures { (h : Here) → Stands T.unread at.now h → IsStart result h }
{
    Start {
        mark: at.mark(),
        begins_line: at.begins_line(),
    }
}

/// The lexeme from there to a mark is written where one has room; whether it ends a column is told.
#[inline(always)]
pub fn write_lexeme<'input>(
    found: &mut Lexeme<'input>,
    layouts: &Layouts,
    ends: bool,
    kind: LexemeKind<'input>,
    start: &Start,
    end: Marker,
)
    ensures { (h : Here) → IsStart start.now h
        → lexeme_view found.new ≡ spec.lexeme_to ends (kind_view kind.entry) end h layouts.now }
{
    found.number = layouts.number();
    put_kind(found, kind);
    found.start = start.mark;
    found.shown_start = start.mark;
    found.shown_end = end;
    found.end = end;
    found.indent = None;
    found.in_flow = layouts.is_in_flow();
    found.begins_line = start.begins_line;
    found.follows_indicator = layouts.follows_indicator();
    found.ends_column = ends;
    clear_key(found);
    clear_tail(found);
}

/// The lexeme gets its kind; where the old one owns nothing, it isn't moved to be dropped.
#[inline(always)]
fn put_kind<'input>(found: &mut Lexeme<'input>, kind: LexemeKind<'input>)
    ensures { found.new ≡ record found.old { kind = kind.entry } }
{
    if owns_nothing(&found.kind) {
        mem::forget(mem::replace(&mut found.kind, kind));
    } else {
        drop(mem::replace(&mut found.kind, kind));
    }
}

/// The lexeme has no key; what had none isn't written.
#[inline(always)]
fn clear_key(found: &mut Lexeme<'_>)
    ensures { found.new ≡ record found.old { key = None } }
{
    if found.key.is_some() {
        found.key = None;
    }
}

/// The lexeme has no tail; what had none isn't written.
#[inline(always)]
fn clear_tail(found: &mut Lexeme<'_>)
    ensures { found.new ≡ record found.old { tail = None } }
{
    if found.tail.is_some() {
        found.tail = None;
    }
}

/// Whether nothing is freed where what a lexeme is is dropped.
fn owns_nothing(kind: &LexemeKind<'_>) -> bool {
    match kind {
        LexemeKind::Scalar(_, text) => text.is_borrowed(),
        LexemeKind::Open(_) => true,
        LexemeKind::Close(_) => true,
        LexemeKind::Comma => true,
        LexemeKind::Dash => true,
        LexemeKind::Question => true,
        LexemeKind::Colon => true,
        _ => false,
    }
}

/// A lexeme of one character, which is read.
#[inline(always)]
pub fn sign<'input, T: Input>(
    at: &mut Cursor<T>,
    layouts: &Layouts,
    ends: bool,
    kind: LexemeKind<'input>,
    found: &mut Lexeme<'input>,
)
    ensures here { Wherever T.unread at.old at.new (λ h Lands. Lands (step h)
        × (lexeme_view found.new ≡ spec.sign_lexeme ends (kind_view kind.entry) h layouts.now)) }
    ensures moves { Moves T.unread T.left T.origin at.old at.new }
{
    let start = start_of(at);
    at.step();
    write_lexeme(found, layouts, ends, kind, &start, at.mark());
}

/// The lexeme gets a tail.
pub fn put_tail<'input>(found: &mut Lexeme<'input>, tail: Tail<'input>)
    ensures { lexeme_view found.new ≡ spec.with_tail (lexeme_view found.old) (comment_kept (tail_view tail.entry)) }
{
    found.tail = tail.into_note();
}

/// Behind a closer a value may stand at once, unless a comment does.
pub(crate) fn behind_tail(last: LastLexeme, tail: &Tail<'_>) -> LastLexeme
    ensures { result ≡ behind_seen last (tail_view tail.now) }
{
    match (last, tail) {
        (LastLexeme::Adjacent, Tail::Passed | Tail::Kept(_)) => LastLexeme::Another,
        _ => last,
    }
}

/// The lexeme, which ends here, gets its tail.
///
/// # Errors
///
/// Those of `tail_at`.
#[inline(always)]
pub fn tailed<'input, T: BorrowedInput<'input>>(
    alloc: Global,
    asked: bool,
    at: &mut Cursor<T>,
    layouts: &mut Layouts,
    last: LastLexeme,
    found: &mut Lexeme<'input>,
    fault: &mut Option<ScanError>,
) -> Result<(), Refused>
    requires room { layouts.old.number < 2 ^ 63 }
    ensures here { ReadsItems T.unread asked at.old at.new layouts.new
        (lexeme_in found.new) (answered fault.new result)
        (λ h. spec.tailed (lexeme_view found.old) last h layouts.old) }
    ensures memory { asked ≡ false → NeverWants (answered fault.new result) }
    ensures moves { Moves T.unread T.left T.origin at.old at.new }
{
    let tail = tail_at(alloc, at, asked, fault)?;
    let last = behind_tail(last, &tail);
    put_tail(found, tail);
    layouts.count_lexeme(last);
    Ok(())
}
