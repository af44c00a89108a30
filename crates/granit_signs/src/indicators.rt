//! `-` and `?` (YAML 1.2.2, 7.4.2 and 8.2).
ghost use Rattle.std.specs.Prelude.{◌≡◌, ◌<◌, ◌≤◌, ◌^◌, ◌==◌, ◌&&◌, not, false, None, Ok};
ghost use Rattle.granit_cursor.specs.Reading.{GivesTo, Moves, Stands, Wherever};
ghost use Rattle.granit_error.specs.OptionsView.{options_of};
ghost use Rattle.granit_lexemes.specs.Here.{Here, text_len, next_char, step};
ghost use Rattle.granit_lexemes.specs.Lexeme.{Question};
ghost use Rattle.granit_lexemes.specs.declared.layout.LastLexeme.TheVariants.{Another};
ghost use Rattle.granit_layout.specs.Opening.{opens_column};
ghost use Rattle.granit_machine.specs.IndicatorLexemes as spec;
ghost use Rattle.granit_machine.specs.PossibleKeys.{forgets_key, is_allowed};
ghost use Rattle.granit_machine.specs.ReaderState.{sign_lexeme, given};
ghost use Rattle.granit_signs.specs.IndicatorReads.{begins_entry, question_from};
ghost use Rattle.granit_items.specs.ItemViews.{alone, lexeme_view};
ghost use Rattle.granit_refused.specs.Answered.{answered};
ghost use Rattle.granit_content.specs.Reads.{IsAt, NeverWants, ReadsItems, comment_kept, lexeme_in, tail_view};

use granit_base::{Marker, is_blank_or_breakz, is_break, is_flow};
use granit_content::{Tail, comment_at, leading_tab, past_gap, put_tail, sign, tail_at};
use granit_cursor::Cursor;
use granit_error::{ErrorKind, Options, ScanError};
use granit_input::{BorrowedInput, Input};
use granit_items::{Lexeme, LexemeKind};
use granit_layout::Layouts;
use granit_lexemes::LastLexeme;
use granit_refused::{Refused, refuse_at};
use std::alloc::Global;

/// A `-` with its tail, where an entry of a block sequence may begin.
///
/// # Errors
///
/// `BlockEntryInFlowCollection`, `BlockSequenceEntryNotAllowed` where none may, `InvalidBlockEntryWhitespace`
/// before another `-` behind a tab, and those of `Layouts::enter` and `tail_at`.
#[tactic(auto, unfolding(granit_machine::specs::IndicatorLexemes::dash))]
pub fn dash<'input, T: BorrowedInput<'input>>(
    alloc: Global,
    options: &Options,
    at: &mut Cursor<T>,
    layouts: &mut Layouts,
    ends: bool,
    found: &mut Lexeme<'input>,
    fault: &mut Option<ScanError>,
) -> Result<(), Refused>
    requires room { layouts.old.number < 2 ^ 63 }
    ensures here { ReadsItems T.unread (options_of options.now).emit_comments at.old at.new layouts.new
        (lexeme_in found.new) (answered fault.new result) (λ h. spec.dash (options_of options.now) ends h layouts.old) }
    ensures memory { begins_entry (is_allowed at.old.begins_line at.old.tab layouts.old) layouts.old ≡ false
        → NeverWants (answered fault.new result) }
    ensures column { (options_of options.now).emit_comments ≡ false
        → opens_column (options_of options.now) at.old.place.column layouts.old.columns ≡ false
        → NeverWants (answered fault.new result) }
    ensures moves { Moves T.unread T.left T.origin at.old at.new }
{
    let mark = at.mark();
    if layouts.is_in_flow() {
        return Err(refuse_at(fault, mark, ErrorKind::BlockEntryInFlowCollection));
    }
    if !layouts.is_allowed(at.begins_line(), at.tab()) {
        return Err(refuse_at(fault, mark, ErrorKind::BlockSequenceEntryNotAllowed));
    }
    sign(at, layouts, ends, LexemeKind::Dash, found);
    layouts.enter(options, mark.col(), mark, fault)?;
    dash_up_to(alloc, options.emit_comments, at, layouts, found, fault)
}

/// A `-` that began an entry and ends here.
fn dash_up_to<'input, T: BorrowedInput<'input>>(
    alloc: Global,
    asked: bool,
    at: &mut Cursor<T>,
    layouts: &mut Layouts,
    found: &mut Lexeme<'input>,
    fault: &mut Option<ScanError>,
) -> Result<(), Refused>
    requires room { layouts.old.number < 2 ^ 63 }
    ensures here { ReadsItems T.unread asked at.old at.new layouts.new
        (lexeme_in found.new) (answered fault.new result) (λ h. spec.dash_up_to (lexeme_view found.old) h layouts.old) }
    ensures memory { asked ≡ false → NeverWants (answered fault.new result) }
    ensures moves { Moves T.unread T.left T.origin at.old at.new }
{
    let tail = tail_at(alloc, at, asked, fault)?;
    behind_dash(at, layouts, tail, found, fault)
}

/// Behind a `-` and its tail, where no `-` may stand behind a tab.
#[tactic(auto, unfolding(granit_machine::specs::IndicatorLexemes::behind_dash))]
fn behind_dash<'input, T: Input>(
    at: &mut Cursor<T>,
    layouts: &mut Layouts,
    tail: Tail<'input>,
    found: &mut Lexeme<'input>,
    fault: &mut Option<ScanError>,
) -> Result<(), Refused>
    requires room { layouts.old.number < 2 ^ 63 }
    ensures here { (h : Here) → Stands T.unread at.old h → GivesTo (lexeme_in found.new) (answered fault.new result)
        (IsAt T.unread at.new layouts.new)
        (spec.behind_dash (lexeme_view found.old) layouts.old (comment_kept (tail_view tail.entry)) h) }
    ensures memory { NeverWants (answered fault.new result) }
    ensures moves { Moves T.unread T.left T.origin at.old at.new }
{
    at.look(2);
    let mark = at.mark();
    if is_tabbed_dash(at) {
        return Err(refuse_at(fault, mark, ErrorKind::InvalidBlockEntryWhitespace));
    }
    let wide = is_before_break(at);
    layouts.widen_if(wide);
    layouts.forget_key();
    end_at(found, tail, mark);
    layouts.count_lexeme(LastLexeme::BehindDash);
    Ok(())
}

/// Whether another `-` stands here behind a tab.
#[tactic(auto, unfolding(granit_machine::specs::IndicatorLexemes::is_tabbed_dash))]
fn is_tabbed_dash<T: Input>(at: &Cursor<T>) -> bool
    requires window { 2 ≤ T.window at.now.input }
    ensures { (h : Here) → Stands T.unread at.now h → result ≡ spec.is_tabbed_dash h }
{
    at.tab().is_some() && at.input().peek() == '-' && is_blank_or_breakz(at.input().peek_nth(1))
}

/// Whether a break or a flow indicator stands here.
fn is_before_break<T: Input>(at: &Cursor<T>) -> bool
    requires window { 1 ≤ T.window at.now.input }
    ensures { (h : Here) → Stands T.unread at.now h → result ≡ spec.is_before_break h }
{
    let c = at.input().peek();
    is_break(c) || is_flow(c)
}

/// The lexeme gets its tail and ends there.
fn end_at<'input>(found: &mut Lexeme<'input>, tail: Tail<'input>, end: Marker)
    ensures { lexeme_view found.new
        ≡ record (lexeme_view found.old) { tail = comment_kept (tail_view tail.entry); end = end } }
{
    put_tail(found, tail);
    found.end = end;
}

/// A `?`, outside flow with the gap behind it, up to and with a comment.
///
/// # Errors
///
/// `MappingKeyNotAllowed` where no key may begin, `ExpectedWhitespace` before a NUL, and those of `Layouts::enter`,
/// `Layouts::refuse_tab` and `comment_at`.
#[tactic(auto, unfolding(granit_machine::specs::IndicatorLexemes::question))]
pub fn question<'input, T: BorrowedInput<'input>>(
    alloc: Global,
    options: &Options,
    at: &mut Cursor<T>,
    layouts: &mut Layouts,
    ends: bool,
    found: &mut Lexeme<'input>,
    fault: &mut Option<ScanError>,
) -> Result<(), Refused>
    requires room { layouts.old.number < 2 ^ 63 }
    ensures here { ReadsItems T.unread (options_of options.now).emit_comments at.old at.new layouts.new
        (lexeme_in found.new) (answered fault.new result)
        (λ h. spec.question (options_of options.now) ends h layouts.old) }
    ensures memory { begins_entry (is_allowed at.old.begins_line at.old.tab layouts.old) layouts.old ≡ false
        → NeverWants (answered fault.new result) }
    ensures column { (options_of options.now).emit_comments ≡ false
        → opens_column (options_of options.now) at.old.place.column layouts.old.columns ≡ false
        → NeverWants (answered fault.new result) }
    ensures moves { Moves T.unread T.left T.origin at.old at.new }
{
    let mark = at.mark();
    if layouts.is_in_flow() {
        flow_question(at, layouts, ends, found);
        return Ok(());
    }
    if !layouts.is_allowed(at.begins_line(), at.tab()) {
        return Err(refuse_at(fault, mark, ErrorKind::MappingKeyNotAllowed));
    }
    sign(at, layouts, ends, LexemeKind::Question, found);
    layouts.enter(options, mark.col(), mark, fault)?;
    behind_question(alloc, options, at, layouts, found, fault)
}

/// A `?` in flow.
fn flow_question<'input, T: Input>(
    at: &mut Cursor<T>,
    layouts: &mut Layouts,
    ends: bool,
    found: &mut Lexeme<'input>,
)
    requires room { layouts.old.number < 2 ^ 63 }
    ensures here { Wherever T.unread at.old at.new (λ h Lands. Lands (step h)
        × (given (sign_lexeme ends Question h layouts.old) Another (step h) (forgets_key layouts.old)
        ≡ Ok (alone found.new, record { here = step h; laid = layouts.new }))) }
    ensures moves { Moves T.unread T.left T.origin at.old at.new }
{
    sign(at, layouts, ends, LexemeKind::Question, found);
    layouts.forget_key();
    layouts.count_lexeme(LastLexeme::Another);
}

/// Behind a `?` that began an entry, where no NUL may stand.
fn behind_question<'input, T: BorrowedInput<'input>>(
    alloc: Global,
    options: &Options,
    at: &mut Cursor<T>,
    layouts: &mut Layouts,
    found: &mut Lexeme<'input>,
    fault: &mut Option<ScanError>,
) -> Result<(), Refused>
    requires room { layouts.old.number < 2 ^ 63 }
    ensures here { (lexeme_view found.old).tail ≡ None → ReadsItems T.unread (options_of options.now).emit_comments
        at.old at.new layouts.new
        (lexeme_in found.new) (answered fault.new result)
        (λ h. question_from (options_of options.now) (lexeme_view found.old) h layouts.old) }
    ensures memory { (options_of options.now).emit_comments ≡ false → NeverWants (answered fault.new result) }
    ensures moves { Moves T.unread T.left T.origin at.old at.new }
{
    at.look(1);
    if is_nul(at) {
        return Err(refuse_at(fault, at.mark(), ErrorKind::ExpectedWhitespace));
    }
    layouts.behind_question();
    past_gap(at, false);
    question_up_to(alloc, options, at, layouts, found, fault)
}

/// Whether a NUL stands here.
fn is_nul<T: Input>(at: &Cursor<T>) -> bool
    requires window { 1 ≤ T.window at.now.input }
    ensures { (h : Here) → Stands T.unread at.now h → result ≡ (next_char h == 0x00 && not (text_len h == 0)) }
{
    at.input().peek() == '\0' && !at.input().next_is_z()
}

/// Behind the blanks and breaks behind a `?`: a comment, or what the key may begin at.
#[tactic(auto, unfolding(granit_machine::specs::IndicatorLexemes::question_up_to))]
fn question_up_to<'input, T: BorrowedInput<'input>>(
    alloc: Global,
    options: &Options,
    at: &mut Cursor<T>,
    layouts: &mut Layouts,
    found: &mut Lexeme<'input>,
    fault: &mut Option<ScanError>,
) -> Result<(), Refused>
    requires room { layouts.old.number < 2 ^ 63 }
    requires window { 1 ≤ T.window at.old.input }
    ensures here { (lexeme_view found.old).tail ≡ None → ReadsItems T.unread (options_of options.now).emit_comments
        at.old at.new layouts.new
        (lexeme_in found.new) (answered fault.new result)
        (λ h. spec.question_up_to (options_of options.now) (lexeme_view found.old) h layouts.old) }
    ensures memory { (options_of options.now).emit_comments ≡ false → NeverWants (answered fault.new result) }
    ensures moves { Moves T.unread T.left T.origin at.old at.new }
{
    if at.input().peek() == '#' {
        let note = comment_at(alloc, at, options.emit_comments, fault)?;
        put_tail(found, note);
        layouts.count_lexeme(LastLexeme::BehindQuestion);
        return Ok(());
    }
    let tab = leading_tab(at);
    layouts.refuse_tab(options, at.mark(), tab, fault)?;
    layouts.count_lexeme(LastLexeme::BehindQuestion);
    Ok(())
}
