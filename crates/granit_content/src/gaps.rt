//! What stands between lexemes (YAML 1.2.2, 6.1 and 6.6).
ghost use Rattle.std.specs.Prelude.{◌≡◌, ◌<◌, ◌≤◌, ◌&&◌, ◌||◌, ◌==◌, not, suc, true, false, slice_index, IfOk};
ghost use Rattle.granit_base.specs.Classes.{is_blank, is_gap};
ghost use Rattle.granit_cursor.specs.Reading.{Moves, Stands, Wherever, GoesTo};
ghost use Rattle.granit_error.specs.OptionsView.{options_of};
ghost use Rattle.granit_lexemes.specs.Here.{Here, mark_of, next_char, past};
ghost use Rattle.granit_machine.specs.Gaps as spec;
ghost use Rattle.granit_refused.specs.Answered.{answered};
ghost use Rattle.granit_content.specs.declared.tail.Tail.TheVariants.{Nothing};
ghost use Rattle.granit_content.specs.Reads.{NeverWants, OverGapChar, ReadsGap};

use crate::tail::{Tail, comment_at};
use granit_base::{Marker, is_blank, is_blank_or_breakz, is_bom, is_break, is_breakz};
use granit_cursor::{Cursor, past_blanks, past_break};
use granit_error::{ErrorKind, Options, ScanError};
use granit_input::{BorrowedInput, Input};
use granit_layout::Layouts;
use granit_refused::{Refused, refuse_at};
use std::alloc::Global;

/// The gap that begins here, up to and with a comment and its break, or up to where a lexeme may begin.
///
/// # Errors
///
/// Those of `comment_at`. `TabNotAllowed` at a tab that may not begin a line, `TabInBlockIndentation` at what stands
/// behind one, and `CommentInterceptedScalar` at the end of a plain scalar that a comment cut short and this goes on.
#[inline(always)]
#[tactic(auto, unfolding(granit_machine::specs::Gaps::gap_ends))]
pub fn gap<'input, T: BorrowedInput<'input>>(
    alloc: Global,
    options: &Options,
    at: &mut Cursor<T>,
    layouts: &mut Layouts,
    fault: &mut Option<ScanError>,
) -> Result<Tail<'input>, Refused>
    ensures here { ReadsGap T.unread (options_of options.now).emit_comments at.old at.new layouts.new
        (answered fault.new result)
        (λ h. spec.gap (options_of options.now) h layouts.old) }
    ensures number { IfOk result (λ t. layouts.new.number ≡ layouts.old.number) }
    ensures memory { (options_of options.now).emit_comments ≡ false → NeverWants (answered fault.new result) }
    ensures clear { IfOk result (λ t. t ≡ Nothing → (h : Here) → Stands T.unread at.new h
        → is_gap (next_char h) ≡ false) }
    ensures window { IfOk result (λ t. t ≡ Nothing → 4 ≤ T.window at.new.input) }
    ensures moves { Moves T.unread T.left T.origin at.old at.new }
{
    let may_prefix = layouts.takes_prefix();
    let moved = past_gap_here(at, may_prefix);
    if at.input().peek() == '#' {
        return noted_gap(alloc, options.emit_comments, at, layouts, fault);
    }
    ready_gap(options, at, layouts, moved, fault)
}

/// A comment with its break.
#[tactic(auto, unfolding(granit_machine::specs::Gaps::noted_gap))]
fn noted_gap<'input, T: BorrowedInput<'input>>(
    alloc: Global,
    asked: bool,
    at: &mut Cursor<T>,
    layouts: &mut Layouts,
    fault: &mut Option<ScanError>,
) -> Result<Tail<'input>, Refused>
    ensures here { ReadsGap T.unread asked at.old at.new layouts.new (answered fault.new result)
        (λ h. spec.noted_gap h layouts.old) }
    ensures number { IfOk result (λ t. layouts.new.number ≡ layouts.old.number) }
    ensures some { IfOk result (λ t. t ≡ Nothing → ⊥) }
    ensures memory { asked ≡ false → NeverWants (answered fault.new result) }
    ensures moves { Moves T.unread T.left T.origin at.old at.new }
{
    let note = comment_at(alloc, at, asked, fault)?;
    over_break_if(at);
    layouts.behind_note();
    Ok(note)
}

/// What a lexeme may begin at.
#[inline(always)]
#[tactic(auto, unfolding(granit_machine::specs::Gaps::ready_gap))]
fn ready_gap<'input, T: Input>(
    options: &Options,
    at: &Cursor<T>,
    layouts: &mut Layouts,
    moved: bool,
    fault: &mut Option<ScanError>,
) -> Result<Tail<'input>, Refused>
    requires window { 4 ≤ T.window at.now.input }
    ensures memory { NeverWants (answered fault.new result) }
    ensures number { IfOk result (λ t. layouts.new.number ≡ layouts.old.number) }
    ensures here { ReadsGap T.unread (options_of options.now).emit_comments at.now at.now layouts.new
        (answered fault.new result)
        (λ h. spec.ready_gap (options_of options.now) moved h layouts.old) }
{
    refuse_leading_tab(options, at, layouts, fault)?;
    refuse_cut(at, layouts, fault)?;
    layouts.behind_gap(moved);
    Ok(Tail::Nothing)
}

/// Whether a gap begins here.
#[inline(always)]
#[tactic(auto, unfolding(granit_base::specs::Classes::is_gap))]
fn begins_gap<T: Input>(at: &mut Cursor<T>, may_prefix: bool) -> bool
    ensures here { Wherever T.unread at.old at.new (λ h Lands. Lands h × (result ≡ spec.begins_gap may_prefix h)) }
    ensures seen { (h : Here) → Stands T.unread at.new h → result ≡ spec.begins_gap may_prefix h }
    ensures window { 4 ≤ T.window at.new.input }
    ensures moves { Moves T.unread T.left T.origin at.old at.new }
{
    at.look(4);
    let c = at.input().peek();
    is_blank(c) || is_break(c) || may_prefix && is_bom(c) && at.mark().col() == 0
}

/// Over the gap that begins here, if one does; whether one did.
#[inline(always)]
fn past_gap_here<T: Input>(at: &mut Cursor<T>, may_prefix: bool) -> bool
    ensures here { Wherever T.unread at.old at.new (λ h Lands.
        Lands (spec.past_gap may_prefix h) × (result ≡ spec.begins_gap may_prefix h)) }
    ensures clear { (h : Here) → Stands T.unread at.new h → spec.begins_gap may_prefix h ≡ false }
    ensures window { 4 ≤ T.window at.new.input }
    ensures moves { Moves T.unread T.left T.origin at.old at.new }
{
    if begins_gap(at, may_prefix) {
        past_gap(at, may_prefix);
        return true;
    }
    false
}

/// Over blanks, breaks and, where one may stand, byte-order marks in front of a document.
#[inline(always)]
pub fn past_gap<T: Input>(at: &mut Cursor<T>, may_prefix: bool)
    ensures here { GoesTo T.unread at.old at.new (spec.past_gap may_prefix) }
    ensures clear { (h : Here) → Stands T.unread at.new h → spec.begins_gap may_prefix h ≡ false }
    ensures window { 4 ≤ T.window at.new.input }
    ensures moves { Moves T.unread T.left T.origin at.old at.new }
{
    if at.take_lines() {
        return;
    }
    pass_by_turns(at, may_prefix);
}

/// The same, blanks and one more of these a turn.
fn pass_by_turns<T: Input>(at: &mut Cursor<T>, may_prefix: bool)
    ensures here { GoesTo T.unread at.old at.new (spec.past_gap may_prefix) }
    ensures clear { (h : Here) → Stands T.unread at.new h → spec.begins_gap may_prefix h ≡ false }
    ensures window { 4 ≤ T.window at.new.input }
    ensures moves { Moves T.unread T.left T.origin at.old at.new }
{
    'gap: while pass_blanks(at, may_prefix) {}
}

/// Over blanks and one more of these; false where none stands behind the blanks.
fn pass_blanks<T: Input>(at: &mut Cursor<T>, may_prefix: bool) -> bool
    ensures here { Wherever T.unread at.old at.new (λ h Lands. OverGapChar result Lands may_prefix (past is_blank h)) }
    ensures clear { result ≡ false → (h : Here) → Stands T.unread at.new h → spec.begins_gap may_prefix h ≡ false }
    ensures window { result ≡ false → 4 ≤ T.window at.new.input }
    ensures left { result ≡ true → T.left at.new.input < T.left at.old.input }
    ensures moves { Moves T.unread T.left T.origin at.old at.new }
{
    past_blanks(at);
    pass_gap_char(at, may_prefix)
}

/// Over one of them; false where none stands.
#[tactic(auto, using(crate::proofs::GapLemmas::gap_chars), unfolding(granit_base::specs::Classes::is_gap))]
fn pass_gap_char<T: Input>(at: &mut Cursor<T>, may_prefix: bool) -> bool
    ensures here { Wherever T.unread at.old at.new (λ h Lands. OverGapChar result Lands may_prefix h) }
    ensures clear { result ≡ false → (h : Here) → Stands T.unread at.new h → spec.begins_gap may_prefix h ≡ false }
    ensures window { result ≡ false → 4 ≤ T.window at.new.input }
    ensures left { result ≡ true → T.left at.new.input < T.left at.old.input }
    ensures moves { Moves T.unread T.left T.origin at.old at.new }
{
    at.look(4);
    let c = at.input().peek();
    if may_prefix && is_bom(c) && at.mark().col() == 0 {
        at.step_prefix_mark();
        return true;
    }
    if is_blank(c) || is_break(c) {
        at.step();
        return true;
    }
    false
}

/// Over a break, where one stands here.
#[tactic(auto, unfolding(granit_machine::specs::Gaps::over_break_if))]
pub fn over_break_if<T: Input>(at: &mut Cursor<T>)
    ensures here { GoesTo T.unread at.old at.new spec.over_break_if }
    ensures moves { Moves T.unread T.left T.origin at.old at.new }
{
    at.look(1);
    if is_break(at.input().peek()) {
        past_break(at);
    }
}

/// The first of the tabs that begin a line with something on it.
pub fn leading_tab<T: Input>(at: &Cursor<T>) -> Option<Marker>
    requires window { 1 ≤ T.window at.now.input }
    ensures { (h : Here) → Stands T.unread at.now h → result ≡ spec.leading_tab h }
{
    if at.begins_line() && !is_breakz(at.input().peek()) {
        return at.tab();
    }
    None
}

/// Refuses a tab that begins the line, where none may.
#[inline(always)]
fn refuse_leading_tab<T: Input>(
    options: &Options,
    at: &Cursor<T>,
    layouts: &Layouts,
    fault: &mut Option<ScanError>,
) -> Result<(), Refused>
    requires window { 1 ≤ T.window at.now.input }
    ensures here { (h : Here) → Stands T.unread at.now h → answered fault.new result
        ≡ spec.refuse_tab (options_of options.now) layouts.now (mark_of h) (spec.leading_tab h) }
    ensures memory { NeverWants (answered fault.new result) }
{
    if !at.has_tab() {
        return Ok(());
    }
    refuse_tab_here(options, at, layouts, fault)
}

/// The same where a tab is among the blanks before it. Apart, since room for its place would be cleared in each gap.
#[inline(never)]
fn refuse_tab_here<T: Input>(
    options: &Options,
    at: &Cursor<T>,
    layouts: &Layouts,
    fault: &mut Option<ScanError>,
) -> Result<(), Refused>
    requires window { 1 ≤ T.window at.now.input }
    ensures here { (h : Here) → Stands T.unread at.now h → answered fault.new result
        ≡ spec.refuse_tab (options_of options.now) layouts.now (mark_of h) (spec.leading_tab h) }
    ensures memory { NeverWants (answered fault.new result) }
{
    layouts.refuse_tab(options, at.mark(), leading_tab(at), fault)
}

/// Refuses what would go on with a plain scalar that a comment cut short.
#[inline(always)]
fn refuse_cut<T: Input>(
    at: &Cursor<T>,
    layouts: &Layouts,
    fault: &mut Option<ScanError>,
) -> Result<(), Refused>
    requires window { 4 ≤ T.window at.now.input }
    ensures here { (h : Here) → Stands T.unread at.now h → answered fault.new result ≡ spec.refuse_cut layouts.now h }
    ensures memory { NeverWants (answered fault.new result) }
{
    if layouts.cut().is_none() {
        return Ok(());
    }
    refuse_behind_cut(at, layouts, fault)
}

/// The same where one may have been. Apart, since room for its place would be cleared in each gap.
#[inline(never)]
fn refuse_behind_cut<T: Input>(
    at: &Cursor<T>,
    layouts: &Layouts,
    fault: &mut Option<ScanError>,
) -> Result<(), Refused>
    requires window { 4 ≤ T.window at.now.input }
    ensures here { (h : Here) → Stands T.unread at.now h → answered fault.new result ≡ spec.refuse_cut layouts.now h }
    ensures memory { NeverWants (answered fault.new result) }
{
    match layouts.cut() {
        None => Ok(()),
        Some(cut) => {
            if goes_on_behind(at, layouts, cut) {
                return Err(refuse_at(fault, cut, ErrorKind::CommentInterceptedScalar));
            }
            Ok(())
        }
    }
}

#[tactic(auto, unfolding(granit_machine::specs::Gaps::goes_on_behind))]
fn goes_on_behind<T: Input>(at: &Cursor<T>, layouts: &Layouts, cut: Marker) -> bool
    requires { 4 ≤ T.window at.now.input }
    ensures { (h : Here) → Stands T.unread at.now h → result ≡ spec.goes_on_behind layouts.now h cut }
{
    let here = at.mark();
    if layouts.is_in_flow() || !is_next_line(here.line(), cut.line()) {
        return false;
    }
    if layouts.is_left(here.col()) || at.input().next_is_z() {
        return false;
    }
    !(at.input().next_is_document_indicator()
        || at.input().peek() == ':' && is_blank_or_breakz(at.input().peek_nth(1)))
}

fn is_next_line(line: usize, before: usize) -> bool
    ensures { result ≡ (line == suc before) }
{
    line > 0 && line - 1 == before
}
