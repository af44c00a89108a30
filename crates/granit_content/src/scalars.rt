//! Scalars (YAML 1.2.2, 7.3 and 8.1).
ghost use Rattle.std.specs.Prelude.{◌≡◌, ◌<◌, ◌^◌, true, false, None, IfOk, IsOk, OnOk};
ghost use Rattle.std.specs.Option.{option_map};
ghost use Rattle.granit_base.specs.PlainContent.{is_content};
ghost use Rattle.granit_cursor.specs.Reading.{GivesTo, Moves, Stands, coded};
ghost use Rattle.granit_error.specs.OptionsView.{options_of};
ghost use Rattle.granit_lexemes.specs.BlockScalar.{block_indicator};
ghost use Rattle.granit_base.specs.Written.{string_chars};
ghost use Rattle.granit_lexemes.specs.Here.{Here, mark_of, next_char};
ghost use Rattle.granit_lexemes.specs.LayoutData.{LayoutData};
ghost use Rattle.granit_lexemes.specs.QuotedScalar.{quote_char, quoted_scalar};
ghost use Rattle.granit_machine.specs.Laid.{is_in_flow};
ghost use Rattle.granit_machine.specs.NodeLexemes as spec;
ghost use Rattle.granit_machine.specs.ReaderState.{with_tail};
ghost use Rattle.granit_quoted.specs.QuotedCode.{remark_token, taken_scalar, words_alone};
ghost use Rattle.granit_items.specs.ItemViews.{boxed_view, filled_items, lexeme_view};
ghost use Rattle.granit_content.specs.KindViews.{note_of_token};
ghost use Rattle.granit_refused.specs.Answered.{answered};
ghost use Rattle.granit_content.specs.Reads.{IsAt, IsStart, ReadsItems, found_in, lexeme_in};
ghost use Rattle.granit_steps.specs.Steps.{incoming};
ghost use Rattle.granit_content.specs.ScalarReads.{shown_as, token_as, GapBehind};

use crate::gaps::gap;
use crate::kinds::{lexeme_kind, note};
use crate::lexeme::{Start, behind_tail, start_of, write_lexeme};
use granit_base::{NoMemory, ScalarStyle, Text};
use granit_block::scan_block_scalar;
use granit_cursor::{Cursor, Token, lending_offset, take_plain, take_quoted};
use granit_error::{Options, ScanError};
use granit_input::BorrowedInput;
use granit_items::{Found, Lexeme, LexemeKind, Note};
use granit_layout::Layouts;
use granit_lexemes::LastLexeme;
use granit_plain::{PlainScalar, read_plain};
use granit_quoted::{
    QuotedBegun, QuotedScalar, Remark, begin_quoted, finish_quoted, quoted_style, read_quoted,
};
use granit_refused::{Refused, keep_fault};
use std::alloc::Global;

/// The plain scalar that begins here, which reads no comment.
///
/// # Errors
///
/// Those of `read_plain`.
pub fn plain_lexeme<'input, T: BorrowedInput<'input>>(
    alloc: Global,
    options: &Options,
    at: &mut Cursor<T>,
    layouts: &mut Layouts,
    ends: bool,
    found: &mut Lexeme<'input>,
    fault: &mut Option<ScanError>,
) -> Result<(), Refused>
    requires content { (h : Here) → Stands T.unread at.old h
        → is_content (is_in_flow layouts.old) h.unread.text ≡ true }
    requires room { layouts.old.number < 2 ^ 63 }
    ensures here { ReadsItems T.unread (options_of options.now).emit_comments at.old at.new layouts.new
        (lexeme_in found.new) (answered fault.new result)
        (λ h. spec.plain_lexeme (options_of options.now) ends h layouts.old) }
    ensures moves { Moves T.unread T.left T.origin at.old at.new }
{
    let start = start_of(at);
    match take_plain(at, layouts.is_in_flow(), layouts.block_column()) {
        None => plain_by_turns(alloc, options, at, layouts, ends, &start, found, fault),
        Some(read) => {
            let kind = LexemeKind::Scalar(ScalarStyle::Plain, Text::borrowed(read.0));
            write_lexeme(found, layouts, ends, kind, &start, read.1);
            layouts.behind_plain_scalar(None);
            layouts.count_lexeme(LastLexeme::Another);
            Ok(())
        }
    }
}

/// The same where its end isn't seen at once.
#[inline(never)]
fn plain_by_turns<'input, T: BorrowedInput<'input>>(
    alloc: Global,
    options: &Options,
    at: &mut Cursor<T>,
    layouts: &mut Layouts,
    ends: bool,
    start: &Start,
    found: &mut Lexeme<'input>,
    fault: &mut Option<ScanError>,
) -> Result<(), Refused>
    requires room { layouts.old.number < 2 ^ 63 }
    ensures here { (h : Here) → Stands T.unread at.old h → IsStart start.now h
        → GivesTo (lexeme_in found.new) (answered fault.new result) (IsAt T.unread at.new layouts.new)
        (coded (incoming (options_of options.now).emit_comments)
        (spec.plain_lexeme (options_of options.now) ends h layouts.old)) }
    ensures moves { Moves T.unread T.left T.origin at.old at.new }
{
    let layout = layouts.layout(options, start.mark.col(), options.emit_comments);
    let mut read: PlainScalar<'input> = PlainScalar::room(start.mark);
    read_plain(alloc, at, &layout, &mut read, fault)?;
    let kind = LexemeKind::Scalar(ScalarStyle::Plain, read.text);
    write_lexeme(found, layouts, ends, kind, start, read.end);
    layouts.behind_plain_scalar(read.cut_by_comment);
    layouts.count_lexeme(LastLexeme::Another);
    Ok(())
}

/// The block scalar that begins here with its `|`, where it is literal, or its `>`.
///
/// # Errors
///
/// Those of `scan_block_scalar`.
pub fn block_lexeme<'input, T: BorrowedInput<'input>>(
    alloc: Global,
    options: &Options,
    at: &mut Cursor<T>,
    layouts: &mut Layouts,
    literal: bool,
    ends: bool,
    found: &mut Lexeme<'input>,
    fault: &mut Option<ScanError>,
) -> Result<(), Refused>
    requires sign { (h : Here) → Stands T.unread at.old h → next_char h ≡ block_indicator literal }
    requires room { layouts.old.number < 2 ^ 63 }
    ensures here { ReadsItems T.unread (options_of options.now).emit_comments at.old at.new layouts.new
        (lexeme_in found.new) (answered fault.new result) (λ h. spec.block_lexeme literal ends h layouts.old) }
    ensures moves { Moves T.unread T.left T.origin at.old at.new }
{
    let start = start_of(at);
    let layout = layouts.layout(options, start.mark.col(), options.emit_comments);
    let read = keep_fault(fault, scan_block_scalar(alloc, at, literal, &layout))?;
    let tail = kept_note(alloc, read.comment)?;
    shown_lexeme(alloc, layouts, ends, &start, read.token, tail, found);
    layouts.unroll();
    layouts.count_lexeme(LastLexeme::Another);
    Ok(())
}

/// The quoted scalar that begins here with its quote, single or double, and the comment behind it on its last line.
fn quoted_lexeme<'input, T: BorrowedInput<'input>>(
    alloc: Global,
    options: &Options,
    at: &mut Cursor<T>,
    layouts: &mut Layouts,
    single: bool,
    ends: bool,
    found: &mut Lexeme<'input>,
    fault: &mut Option<ScanError>,
) -> Result<(), Refused>
    requires sign { (h : Here) → Stands T.unread at.old h → next_char h ≡ quote_char single }
    requires room { layouts.old.number < 2 ^ 63 }
    ensures here { ReadsItems T.unread (options_of options.now).emit_comments at.old at.new layouts.new
        (lexeme_in found.new) (answered fault.new result)
        (λ h. spec.quoted_lexeme (options_of options.now) single ends h layouts.old) }
    ensures moves { Moves T.unread T.left T.origin at.old at.new }
{
    let start = start_of(at);
    match take_quoted(at, single, layouts.is_in_flow()) {
        None => quoted_by_turns(alloc, options, at, layouts, single, ends, found, fault),
        Some(text) => {
            let kind = LexemeKind::Scalar(quoted_style(single), Text::borrowed(text));
            write_lexeme(found, layouts, ends, kind, &start, at.mark());
            layouts.count_lexeme(LastLexeme::Adjacent);
            Ok(())
        }
    }
}

/// The same where its end isn't seen at once.
#[inline(never)]
fn quoted_by_turns<'input, T: BorrowedInput<'input>>(
    alloc: Global,
    options: &Options,
    at: &mut Cursor<T>,
    layouts: &mut Layouts,
    single: bool,
    ends: bool,
    found: &mut Lexeme<'input>,
    fault: &mut Option<ScanError>,
) -> Result<(), Refused>
    requires room { layouts.old.number < 2 ^ 63 }
    ensures here { (h : Here) → Stands T.unread at.old h → next_char h ≡ quote_char single
        → GivesTo (lexeme_in found.new) (answered fault.new result) (IsAt T.unread at.new layouts.new)
        (coded (incoming (options_of options.now).emit_comments)
        (spec.quoted_lexeme (options_of options.now) single ends h layouts.old)) }
    ensures moves { Moves T.unread T.left T.origin at.old at.new }
{
    match lending_offset(at) {
        Some(_) => quoted_where_lent(alloc, options, at, layouts, single, ends, found, fault),
        None => quoted_copied(alloc, options, at, layouts, single, ends, found, fault),
    }
}

/// The same where the input lends nothing: mostly words end it.
#[inline(always)]
fn quoted_copied<'input, T: BorrowedInput<'input>>(
    alloc: Global,
    options: &Options,
    at: &mut Cursor<T>,
    layouts: &mut Layouts,
    single: bool,
    ends: bool,
    found: &mut Lexeme<'input>,
    fault: &mut Option<ScanError>,
) -> Result<(), Refused>
    requires room { layouts.old.number < 2 ^ 63 }
    ensures here { (h : Here) → Stands T.unread at.old h → next_char h ≡ quote_char single → h.unread.lends ≡ false
        → GivesTo (lexeme_in found.new) (answered fault.new result) (IsAt T.unread at.new layouts.new)
        (coded (incoming (options_of options.now).emit_comments)
        (spec.quoted_lexeme (options_of options.now) single ends h layouts.old)) }
    ensures moves { Moves T.unread T.left T.origin at.old at.new }
{
    let start = start_of(at);
    match begin_quoted(alloc, at, single, layouts.is_in_flow())? {
        QuotedBegun::Closed(text) => {
            let kind = LexemeKind::Scalar(quoted_style(single), Text::owned(text));
            write_lexeme(found, layouts, ends, kind, &start, at.mark());
            layouts.count_lexeme(LastLexeme::Adjacent);
            Ok(())
        }
        QuotedBegun::Open(words) => {
            quoted_behind(
                alloc, options, at, layouts, single, ends, &start, words, found, fault,
            )
        }
    }
}

/// The same behind words that were read.
#[inline(never)]
fn quoted_behind<'input, T: BorrowedInput<'input>>(
    alloc: Global,
    options: &Options,
    at: &mut Cursor<T>,
    layouts: &mut Layouts,
    single: bool,
    ends: bool,
    start: &Start,
    words: String,
    found: &mut Lexeme<'input>,
    fault: &mut Option<ScanError>,
) -> Result<(), Refused>
    requires room { layouts.old.number < 2 ^ 63 }
    ensures here { (h now : Here) → Stands T.unread at.old now → IsStart start.now h
        → ((d : LayoutData) → quoted_scalar single d h
        ≡ taken_scalar single d (mark_of h) (words_alone (string_chars words)) now)
        → GivesTo (lexeme_in found.new) (answered fault.new result) (IsAt T.unread at.new layouts.new)
        (coded (incoming (options_of options.now).emit_comments)
        (spec.quoted_lexeme (options_of options.now) single ends h layouts.old)) }
    ensures moves { Moves T.unread T.left T.origin at.old at.new }
{
    let layout = layouts.layout(options, start.mark.col(), options.emit_comments);
    let mut read: QuotedScalar<'input> = QuotedScalar::room(start.mark);
    finish_quoted(
        alloc, at, single, &layout, start.mark, words, &mut read, fault,
    )?;
    let kind = LexemeKind::Scalar(quoted_style(single), read.text);
    write_lexeme(found, layouts, ends, kind, start, read.end);
    put_comment(alloc, &mut read.comment, found)?;
    layouts.count_lexeme(LastLexeme::Adjacent);
    Ok(())
}

/// The same where the input lends.
#[inline(never)]
fn quoted_where_lent<'input, T: BorrowedInput<'input>>(
    alloc: Global,
    options: &Options,
    at: &mut Cursor<T>,
    layouts: &mut Layouts,
    single: bool,
    ends: bool,
    found: &mut Lexeme<'input>,
    fault: &mut Option<ScanError>,
) -> Result<(), Refused>
    requires room { layouts.old.number < 2 ^ 63 }
    ensures here { ReadsItems T.unread (options_of options.now).emit_comments at.old at.new layouts.new
        (lexeme_in found.new) (answered fault.new result)
        (λ h. spec.quoted_lexeme (options_of options.now) single ends h layouts.old) }
    ensures moves { Moves T.unread T.left T.origin at.old at.new }
{
    let start = start_of(at);
    let layout = layouts.layout(options, start.mark.col(), options.emit_comments);
    let mut read: QuotedScalar<'input> = QuotedScalar::room(start.mark);
    read_quoted(alloc, at, single, &layout, &mut read, fault)?;
    let kind = LexemeKind::Scalar(quoted_style(single), read.text);
    write_lexeme(found, layouts, ends, kind, &start, read.end);
    put_comment(alloc, &mut read.comment, found)?;
    layouts.count_lexeme(LastLexeme::Adjacent);
    Ok(())
}

/// The comment behind a scalar becomes its lexeme's tail.
#[inline(always)]
fn put_comment<'input>(
    alloc: Global,
    comment: &mut Option<Remark<'input>>,
    found: &mut Lexeme<'input>,
) -> Result<(), NoMemory>
    ensures { OnOk result (lexeme_view found.new
        ≡ with_tail (lexeme_view found.old) (option_map note_of_token (option_map remark_token comment.old))) }
{
    if comment.is_some() {
        return put_remark(alloc, comment, found);
    }
    found.tail = None;
    Ok(())
}

/// The same where there is one, which is seldom.
#[inline(never)]
fn put_remark<'input>(
    alloc: Global,
    comment: &mut Option<Remark<'input>>,
    found: &mut Lexeme<'input>,
) -> Result<(), NoMemory>
    ensures { OnOk result (lexeme_view found.new
        ≡ with_tail (lexeme_view found.old) (option_map note_of_token (option_map remark_token comment.old))) }
{
    match comment.take() {
        None => {
            found.tail = None;
            Ok(())
        }
        Some(remark) => {
            found.tail = Some(Box::new(alloc, note(remark.into_token()))?);
            Ok(())
        }
    }
}

/// A quoted scalar, and the gap behind it, up to and with a comment.
///
/// # Errors
///
/// Those of `read_quoted` and of `gap`.
pub fn quoted_and_gap<'input, T: BorrowedInput<'input>>(
    alloc: Global,
    options: &Options,
    at: &mut Cursor<T>,
    layouts: &mut Layouts,
    single: bool,
    ends: bool,
    found: &mut Found<'input>,
    fault: &mut Option<ScanError>,
) -> Result<(), Refused>
    requires sign { (h : Here) → Stands T.unread at.old h → next_char h ≡ quote_char single }
    requires room { layouts.old.number < 2 ^ 63 }
    ensures here { ReadsItems T.unread (options_of options.now).emit_comments at.old at.new layouts.new
        (found_in found.new) (answered fault.new result)
        (λ h. spec.quoted_and_gap (options_of options.now) single ends h layouts.old) }
    ensures moves { Moves T.unread T.left T.origin at.old at.new }
{
    found.filled = true;
    quoted_lexeme(
        alloc,
        options,
        at,
        layouts,
        single,
        ends,
        &mut found.lexeme,
        fault,
    )?;
    with_gap(alloc, options, at, layouts, found, fault)
}

/// A quoted scalar that was read, and the gap behind it; a value may stand at once behind that, unless a comment does.
fn with_gap<'input, T: BorrowedInput<'input>>(
    alloc: Global,
    options: &Options,
    at: &mut Cursor<T>,
    layouts: &mut Layouts,
    found: &mut Found<'input>,
    fault: &mut Option<ScanError>,
) -> Result<(), Refused>
    ensures here { GapBehind T.unread (options_of options.now) at.old at.new layouts.old layouts.new
        (filled_items found.old.filled found.old.lexeme.value) (found_in found.new) (answered fault.new result) }
    ensures moves { Moves T.unread T.left T.origin at.old at.new }
{
    let tail = gap(alloc, options, at, layouts, fault)?;
    layouts.set_last(behind_tail(LastLexeme::Adjacent, &tail));
    found.note = tail.into_note();
    Ok(())
}

/// The lexeme from there to the end of a token is written, with its tail.
pub fn scalar_lexeme<'input>(
    alloc: Global,
    layouts: &Layouts,
    ends: bool,
    start: &Start,
    token: Token<'input>,
    tail: Option<Box<Note<'input>>>,
    found: &mut Lexeme<'input>,
)
    ensures { (h : Here) → IsStart start.now h → lexeme_view found.new
        ≡ token_as ends token.entry (option_map boxed_view tail.entry) h layouts.now }
{
    let (span, token_type) = token.into_parts();
    let kind = lexeme_kind(alloc, token_type);
    write_lexeme(found, layouts, ends, kind, start, span.end);
    found.tail = tail;
}

/// The same of a block scalar, whose token shows where its content stands.
fn shown_lexeme<'input>(
    alloc: Global,
    layouts: &Layouts,
    ends: bool,
    start: &Start,
    token: Token<'input>,
    tail: Option<Box<Note<'input>>>,
    found: &mut Lexeme<'input>,
)
    ensures { (h : Here) → IsStart start.now h → lexeme_view found.new
        ≡ shown_as ends token.entry (option_map boxed_view tail.entry) h layouts.now }
{
    let span = token.span();
    scalar_lexeme(alloc, layouts, ends, start, token, tail, found);
    found.shown_start = span.start;
    found.indent = span.indent;
}

/// The comment that was read behind a scalar or a directive, as a tail.
///
/// # Errors
///
/// `NoMemory` alone, where there is one.
pub fn kept_note<'input>(
    alloc: Global,
    comment: Option<Token<'input>>,
) -> Result<Option<Box<Note<'input>>>, NoMemory>
    ensures kept { IfOk result (λ t. option_map boxed_view t ≡ option_map note_of_token comment.entry) }
    ensures none { comment.entry ≡ None → IsOk result }
{
    match comment {
        None => Ok(None),
        Some(token) => Ok(Some(Box::new(alloc, note(token))?)),
    }
}
