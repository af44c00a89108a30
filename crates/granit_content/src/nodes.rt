//! Aliases and properties (YAML 1.2.2, 6.9 and 7.1).
ghost use Rattle.std.specs.Prelude.{◌≡◌, ◌<◌, ◌^◌, Bool};
ghost use Rattle.granit_cursor.specs.Reading.{LendsWithoutMemory, Moves, Stands};
ghost use Rattle.granit_error.specs.OptionsView.{options_of};
ghost use Rattle.granit_lexemes.specs.Here.{Here, next_char, mark_of};
ghost use Rattle.granit_machine.specs.NodeLexemes as spec;
ghost use Rattle.granit_machine.specs.ReaderState as machine;
ghost use Rattle.granit_items.specs.ItemViews.{lexeme_view};
ghost use Rattle.granit_refused.specs.Answered.{answered};
ghost use Rattle.granit_content.specs.KindViews.{kind_of_type};
ghost use Rattle.granit_content.specs.Reads.{IsStart, ReadsItems, lexeme_in};

use crate::kinds::lexeme_kind;
use crate::lexeme::{Start, start_of, write_lexeme};
use granit_cursor::{Cursor, Token};
use granit_error::{Options, ScanError};
use granit_input::{BorrowedInput, Input};
use granit_items::Lexeme;
use granit_layout::Layouts;
use granit_lexemes::LastLexeme;
use granit_properties::{scan_anchor, scan_tag};
use granit_refused::{Refused, keep_fault};
use std::alloc::Global;

/// The alias that begins here with its `*`.
///
/// # Errors
///
/// Those of `scan_anchor`.
pub fn alias_lexeme<'input, T: BorrowedInput<'input>>(
    alloc: Global,
    at: &mut Cursor<T>,
    layouts: &mut Layouts,
    ends: bool,
    found: &mut Lexeme<'input>,
    fault: &mut Option<ScanError>,
) -> Result<(), Refused>
    requires sign { (h : Here) → Stands T.unread at.old h → next_char h ≡ 0x2A }
    requires room { layouts.old.number < 2 ^ 63 }
    ensures here { (asked : Bool) → ReadsItems T.unread asked at.old at.new layouts.new
        (lexeme_in found.new) (answered fault.new result) (λ h. spec.alias_lexeme ends h layouts.old) }
    ensures lent { LendsWithoutMemory T.unread at.old (answered fault.new result) }
    ensures moves { Moves T.unread T.left T.origin at.old at.new }
{
    let start = start_of(at);
    let token = keep_fault(fault, scan_anchor(alloc, at, true))?;
    token_lexeme(alloc, at, layouts, ends, &start, token, found);
    layouts.count_lexeme(LastLexeme::Another);
    Ok(())
}

/// The anchor that begins here with its `&`.
///
/// # Errors
///
/// Those of `scan_anchor`.
pub fn anchor_lexeme<'input, T: BorrowedInput<'input>>(
    alloc: Global,
    options: &Options,
    at: &mut Cursor<T>,
    layouts: &mut Layouts,
    ends: bool,
    found: &mut Lexeme<'input>,
    fault: &mut Option<ScanError>,
) -> Result<(), Refused>
    requires sign { (h : Here) → Stands T.unread at.old h → next_char h ≡ 0x26 }
    requires room { layouts.old.number < 2 ^ 63 }
    ensures here { (asked : Bool) → ReadsItems T.unread asked at.old at.new layouts.new
        (lexeme_in found.new) (answered fault.new result)
        (λ h. spec.anchor_lexeme (options_of options.now) ends h layouts.old) }
    ensures lent { LendsWithoutMemory T.unread at.old (answered fault.new result) }
    ensures moves { Moves T.unread T.left T.origin at.old at.new }
{
    let start = start_of(at);
    let last = layouts.last_of_property(options);
    let token = keep_fault(fault, scan_anchor(alloc, at, false))?;
    token_lexeme(alloc, at, layouts, ends, &start, token, found);
    layouts.count_lexeme(last);
    Ok(())
}

/// The tag that begins here with its `!`.
///
/// # Errors
///
/// Those of `scan_tag`.
pub fn tag_lexeme<'input, T: BorrowedInput<'input>>(
    alloc: Global,
    options: &Options,
    at: &mut Cursor<T>,
    layouts: &mut Layouts,
    ends: bool,
    found: &mut Lexeme<'input>,
    fault: &mut Option<ScanError>,
) -> Result<(), Refused>
    requires sign { (h : Here) → Stands T.unread at.old h → next_char h ≡ 0x21 }
    requires room { layouts.old.number < 2 ^ 63 }
    ensures here { (asked : Bool) → ReadsItems T.unread asked at.old at.new layouts.new
        (lexeme_in found.new) (answered fault.new result)
        (λ h. spec.tag_lexeme (options_of options.now) ends h layouts.old) }
    ensures moves { Moves T.unread T.left T.origin at.old at.new }
{
    let start = start_of(at);
    let last = layouts.last_of_property(options);
    let token = keep_fault(fault, scan_tag(alloc, at, layouts.is_in_flow()))?;
    token_lexeme(alloc, at, layouts, ends, &start, token, found);
    layouts.count_lexeme(last);
    Ok(())
}

/// The lexeme from there to here that a token tells is written.
fn token_lexeme<'input, T: Input>(
    alloc: Global,
    at: &Cursor<T>,
    layouts: &Layouts,
    ends: bool,
    start: &Start,
    token: Token<'input>,
    found: &mut Lexeme<'input>,
)
    ensures { (h after : Here) → IsStart start.now h → Stands T.unread at.now after → lexeme_view found.new
        ≡ machine.lexeme_to ends (kind_of_type token.entry.token_type) (mark_of after) h layouts.now }
{
    let (_, token_type) = token.into_parts();
    let kind = lexeme_kind(alloc, token_type);
    write_lexeme(found, layouts, ends, kind, start, at.mark());
}
