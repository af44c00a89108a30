//! One read: a comment, or a lexeme with its tail.
ghost use Rattle.std.specs.Prelude.{◌≡◌, ◌<◌, ◌≤◌, ◌^◌, Bool, true, false, Option, None, Ok};
ghost use Rattle.granit_base.specs.Classes.{is_gap};
ghost use Rattle.granit_cursor.specs.Reading.{Moves, Stands};
ghost use Rattle.granit_error.specs.FaultKind as faults;
ghost use Rattle.granit_error.specs.Kinds.{kind_of};
ghost use Rattle.granit_error.specs.OptionsView.{options_of};
ghost use Rattle.granit_lexemes.specs.Comment.{CommentRead};
ghost use Rattle.granit_lexemes.specs.Here as here;
ghost use Rattle.granit_lexemes.specs.Here.{Here};
ghost use Rattle.granit_lexemes.specs.Outcome.{fault_at};
ghost use Rattle.granit_machine.specs.Gaps as gaps;
ghost use Rattle.granit_machine.specs.Laid.{is_in_flow};
ghost use Rattle.granit_machine.specs.LexemeSort as lexeme_sorts;
ghost use Rattle.granit_machine.specs.Reader as spec;
ghost use Rattle.granit_content.specs.declared.tail.Tail.TheVariants.{Nothing};
ghost use Rattle.granit_reader.specs.Meets.{MeetsBehind, behind_met};
ghost use Rattle.granit_error.specs.Refused.{UnlessMemory};
ghost use Rattle.granit_reader.specs.declared.met.Met.TheVariants as mets;
ghost use Rattle.granit_restart.specs.Header.{directive_sort};
ghost use Rattle.granit_content.specs.Reads.{ReadsItems, found_in, seen, tail_view};
ghost use Rattle.granit_reader.specs.Reads.{reader_at};
ghost use Rattle.granit_refused.specs.Answered.{answered, why};
ghost use Rattle.granit_reader.specs.SortViews as sorts;
ghost use Rattle.granit_reader.specs.SortViews.{PlacedFits, SortFits, lexeme_sort_view, placed_view};
ghost use Rattle.granit_reader.specs.WithoutMemory.{NeverWantsAt, read_takes_none, behind_takes_none};
ghost use Rattle.granit_reader.specs.WithoutMemory.{lexeme_takes_none, sort_takes_none, placed_takes_none};

use crate::met::{Met, met_by};
use crate::sort::{LexemeSort, PlacedSort, sort_at};
use granit_content::{
    Tail, alias_lexeme, anchor_lexeme, block_lexeme, gap, plain_lexeme, quoted_and_gap, tag_lexeme,
};
use granit_cursor::Cursor;
use granit_error::{ErrorKind, Options, ScanError};
use granit_input::{BorrowedInput, Input};
use granit_items::{Found, Lexeme};
use granit_layout::{Layouts, is_adjacent};
use granit_marks::{closer, comma, directive, document_end, document_start, opener, text_end};
use granit_refused::{Refused, refuse_at};
use granit_signs::{colon, dash, question};
use std::alloc::Global;

/// One read: a comment, or a lexeme with its tail.
#[tactic(auto, unfolding(granit_machine::specs::Reader::read))]
pub(crate) fn read<'input, T: BorrowedInput<'input>>(
    alloc: Global,
    options: &Options,
    at: &mut Cursor<T>,
    layouts: &mut Layouts,
    found: &mut Found<'input>,
    met: &mut Met,
    fault: &mut Option<ScanError>,
) -> Result<(), Refused>
    requires room { layouts.old.number < 2 ^ 63 }
    requires no_lexeme { found.old.filled ≡ false }
    requires no_note { found.old.note ≡ None }
    ensures here { ReadsItems T.unread (options_of options.now).emit_comments at.old at.new layouts.new
        (found_in found.new) (answered fault.new result)
        (λ h. spec.read (options_of options.now) (reader_at h layouts.old)) }
    ensures met { (h : Here) → Stands T.unread at.old h → UnlessMemory (answered fault.new result)
        (MeetsBehind (options_of options.now) met.new (gaps.gap (options_of options.now) h layouts.old)) }
    ensures memory { NeverWantsAt T.unread (options_of options.now).emit_comments at.old (answered fault.new result)
        (λ h. read_takes_none (options_of options.now) (reader_at h layouts.old)) }
    ensures moves { Moves T.unread T.left T.origin at.old at.new }
{
    *met = Met::Nothing;
    let note = gap(alloc, options, at, layouts, fault)?;
    behind_gap(alloc, options, at, layouts, note, found, met, fault)?;
    layouts.drop_stale(options, at.mark(), fault)
}

/// Behind a gap: its comment, or a lexeme.
fn behind_gap<'input, T: BorrowedInput<'input>>(
    alloc: Global,
    options: &Options,
    at: &mut Cursor<T>,
    layouts: &mut Layouts,
    note: Tail<'input>,
    found: &mut Found<'input>,
    met: &mut Met,
    fault: &mut Option<ScanError>,
) -> Result<(), Refused>
    requires clear { note ≡ Nothing → (h : Here) → Stands T.unread at.old h → is_gap (here.next_char h) ≡ false }
    requires window { note ≡ Nothing → 4 ≤ T.window at.old.input }
    requires room { layouts.old.number < 2 ^ 63 }
    requires no_lexeme { found.old.filled ≡ false }
    requires no_note { found.old.note ≡ None }
    requires unmet { met.old ≡ mets.Nothing }
    ensures here { (t : Option CommentRead) → tail_view note.entry ≡ seen (options_of options.now).emit_comments t
        → ReadsItems T.unread (options_of options.now).emit_comments at.old at.new layouts.new
        (found_in found.new) (answered fault.new result)
        (λ h. spec.read_behind (options_of options.now) t (reader_at h layouts.old)) }
    ensures met { (t : Option CommentRead) → tail_view note.entry ≡ seen (options_of options.now).emit_comments t
        → (h : Here) → Stands T.unread at.old h → UnlessMemory (answered fault.new result)
        (MeetsBehind (options_of options.now) met.new (Ok (t, reader_at h layouts.old))) }
    ensures memory { (t : Option CommentRead) → tail_view note.entry ≡ seen (options_of options.now).emit_comments t
        → NeverWantsAt T.unread (options_of options.now).emit_comments at.old (answered fault.new result)
        (λ h. behind_takes_none (options_of options.now) t (reader_at h layouts.old)) }
    ensures moves { Moves T.unread T.left T.origin at.old at.new }
{
    match note {
        Tail::Nothing => {
            layouts.drop_stale(options, at.mark(), fault)?;
            lexeme(alloc, options, at, layouts, found, met, fault)
        }
        Tail::Passed => Ok(()),
        Tail::Kept(note) => {
            found.note = Some(note);
            Ok(())
        }
    }
}

/// The lexeme that begins here.
fn lexeme<'input, T: BorrowedInput<'input>>(
    alloc: Global,
    options: &Options,
    at: &mut Cursor<T>,
    layouts: &mut Layouts,
    found: &mut Found<'input>,
    met: &mut Met,
    fault: &mut Option<ScanError>,
) -> Result<(), Refused>
    requires clear { (h : Here) → Stands T.unread at.old h → is_gap (here.next_char h) ≡ false }
    requires window { 4 ≤ T.window at.old.input }
    requires room { layouts.old.number < 2 ^ 63 }
    requires no_note { found.old.note ≡ None }
    ensures here { ReadsItems T.unread (options_of options.now).emit_comments at.old at.new layouts.new
        (found_in found.new) (answered fault.new result) (λ h. spec.lexeme (options_of options.now) h layouts.old) }
    ensures met { (h : Here) → Stands T.unread at.old h → (before : Bool)
        → behind_met met.new before ≡ directive_sort before (lexeme_sorts.sort_at (is_in_flow layouts.old) false h) }
    ensures memory { NeverWantsAt T.unread (options_of options.now).emit_comments at.old (answered fault.new result)
        (λ h. lexeme_takes_none (options_of options.now) h layouts.old) }
    ensures moves { Moves T.unread T.left T.origin at.old at.new }
{
    let sort = sort_at(at, layouts.is_in_flow(), is_adjacent(layouts.last()));
    *met = met_by(sort);
    found.filled = true;
    lexeme_by(alloc, options, at, layouts, sort, found, fault)
}

/// The lexeme of a sort.
#[inline(always)]
#[tactic(auto, unfolding(granit_machine::specs::Reader::lexeme_by))]
fn lexeme_by<'input, T: BorrowedInput<'input>>(
    alloc: Global,
    options: &Options,
    at: &mut Cursor<T>,
    layouts: &mut Layouts,
    sort: LexemeSort,
    found: &mut Found<'input>,
    fault: &mut Option<ScanError>,
) -> Result<(), Refused>
    requires fits { (h : Here) → Stands T.unread at.old h
        → SortFits (is_in_flow layouts.old) (lexeme_sort_view sort) h }
    requires room { layouts.old.number < 2 ^ 63 }
    requires filled { found.old.filled ≡ true }
    requires no_note { found.old.note ≡ None }
    ensures here { ReadsItems T.unread (options_of options.now).emit_comments at.old at.new layouts.new
        (found_in found.new) (answered fault.new result)
        (λ h. spec.lexeme_by (options_of options.now) (lexeme_sort_view sort) h layouts.old) }
    ensures memory { NeverWantsAt T.unread (options_of options.now).emit_comments at.old (answered fault.new result)
        (λ h. sort_takes_none (options_of options.now) (lexeme_sort_view sort) h layouts.old) }
    ensures moves { Moves T.unread T.left T.origin at.old at.new }
{
    let asked = options.emit_comments;
    match sort {
        LexemeSort::TextEnd => text_end(asked, at, layouts, &mut found.lexeme, fault),
        LexemeSort::StartMark => document_start(asked, at, layouts, &mut found.lexeme, fault),
        LexemeSort::EndMark => document_end(alloc, asked, at, layouts, &mut found.lexeme, fault),
        LexemeSort::Unprintable => Err(refuse_character(at, fault)),
        LexemeSort::DirectiveSign => directive(
            alloc,
            options,
            at,
            layouts,
            &mut found.lexeme,
            fault,
        ),
        LexemeSort::Placed(sort) => {
            let column = at.mark().col();
            let ends = layouts.ends_at(column);
            layouts.close_at(column);
            lexeme_in_column(alloc, options, at, layouts, sort, ends, found, fault)
        }
    }
}

/// A lexeme that stands in a column; where indentation is strict, lines in flow are indented too.
#[inline(never)]
#[tactic(auto, unfolding(granit_machine::specs::Reader::lexeme_in_column))]
fn lexeme_in_column<'input, T: BorrowedInput<'input>>(
    alloc: Global,
    options: &Options,
    at: &mut Cursor<T>,
    layouts: &mut Layouts,
    sort: PlacedSort,
    ends: bool,
    found: &mut Found<'input>,
    fault: &mut Option<ScanError>,
) -> Result<(), Refused>
    requires fits { (h : Here) → Stands T.unread at.old h → PlacedFits (is_in_flow layouts.old) (placed_view sort) h }
    requires room { layouts.old.number < 2 ^ 63 }
    requires filled { found.old.filled ≡ true }
    requires no_note { found.old.note ≡ None }
    ensures here { ReadsItems T.unread (options_of options.now).emit_comments at.old at.new layouts.new
        (found_in found.new) (answered fault.new result)
        (λ h. spec.lexeme_in_column (options_of options.now) (placed_view sort) ends h layouts.old) }
    ensures memory { NeverWantsAt T.unread (options_of options.now).emit_comments at.old (answered fault.new result)
        (λ h. placed_takes_none (options_of options.now) (placed_view sort) h layouts.old) }
    ensures moves { Moves T.unread T.left T.origin at.old at.new }
{
    if is_strict_outside(options, layouts, at.mark().col()) {
        return Err(refuse_here(at, ErrorKind::InvalidIndentation, fault));
    }
    begin_node(at, layouts, sort);
    lexeme_of(alloc, options, at, layouts, sort, ends, found, fault)
}

/// Whether a line that begins in a column is left of its block, where lines in flow are indented too.
#[tactic(auto, unfolding(granit_machine::specs::Reader::is_strict_outside))]
fn is_strict_outside(options: &Options, layouts: &Layouts, column: usize) -> bool
    ensures { result ≡ spec.is_strict_outside (options_of options.now) column layouts.now }
{
    options.strict_indentation && layouts.is_in_flow() && layouts.is_left(column)
}

/// A lexeme of a node stands here, or another.
fn begin_node<T: Input>(at: &Cursor<T>, layouts: &mut Layouts, sort: PlacedSort)
    ensures here { (h : Here) → Stands T.unread at.now h
        → layouts.new ≡ sorts.noded_by (placed_view sort) h layouts.old }
    ensures number { layouts.new.number ≡ layouts.old.number }
    ensures flow { is_in_flow layouts.new ≡ is_in_flow layouts.old }
{
    if sort.is_node() {
        layouts.begin_node(sort.is_property(), at.begins_line(), at.tab(), at.mark());
    }
}

/// The lexeme of a sort, where columns right of it have ended and its node has begun.
#[inline(always)]
fn lexeme_of<'input, T: BorrowedInput<'input>>(
    alloc: Global,
    options: &Options,
    at: &mut Cursor<T>,
    layouts: &mut Layouts,
    sort: PlacedSort,
    ends: bool,
    found: &mut Found<'input>,
    fault: &mut Option<ScanError>,
) -> Result<(), Refused>
    requires fits { (h : Here) → Stands T.unread at.old h → PlacedFits (is_in_flow layouts.old) (placed_view sort) h }
    requires room { layouts.old.number < 2 ^ 63 }
    requires filled { found.old.filled ≡ true }
    requires no_note { found.old.note ≡ None }
    ensures here { ReadsItems T.unread (options_of options.now).emit_comments at.old at.new layouts.new
        (found_in found.new) (answered fault.new result)
        (λ h. sorts.begun (options_of options.now) (placed_view sort) ends h layouts.old) }
    ensures memory { NeverWantsAt T.unread (options_of options.now).emit_comments at.old (answered fault.new result)
        (λ h. placed_takes_none (options_of options.now) (placed_view sort) h layouts.old) }
    ensures moves { Moves T.unread T.left T.origin at.old at.new }
{
    let lexeme: &mut Lexeme<'input> = &mut found.lexeme;
    match sort {
        PlacedSort::OpenSign(bracket) => opener(
            alloc, options, at, layouts, bracket, ends, lexeme, fault,
        ),
        PlacedSort::CloseSign(bracket) => closer(
            alloc, options, at, layouts, bracket, ends, lexeme, fault,
        ),
        PlacedSort::CommaSign => comma(alloc, options, at, layouts, ends, lexeme, fault),
        PlacedSort::DashSign => dash(alloc, options, at, layouts, ends, lexeme, fault),
        PlacedSort::QuestionSign => question(alloc, options, at, layouts, ends, lexeme, fault),
        PlacedSort::ColonSign => colon(alloc, options, at, layouts, ends, lexeme, fault),
        PlacedSort::AliasSign => alias_lexeme(alloc, at, layouts, ends, lexeme, fault),
        PlacedSort::AnchorSign => anchor_lexeme(alloc, options, at, layouts, ends, lexeme, fault),
        PlacedSort::TagSign => tag_lexeme(alloc, options, at, layouts, ends, lexeme, fault),
        PlacedSort::BlockSign(literal) => block_lexeme(
            alloc, options, at, layouts, literal, ends, lexeme, fault,
        ),
        PlacedSort::QuoteSign(single) => quoted_and_gap(
            alloc, options, at, layouts, single, ends, found, fault,
        ),
        PlacedSort::StrayMark => Err(refuse_here(at, ErrorKind::BomInsideDocument, fault)),
        PlacedSort::NoSign => Err(refuse_character(at, fault)),
        PlacedSort::PlainSign => plain_lexeme(alloc, options, at, layouts, ends, lexeme, fault),
    }
}

/// Refuses the character that stands here, which begins no lexeme.
fn refuse_character<T: Input>(at: &mut Cursor<T>, fault: &mut Option<ScanError>) -> Refused
    ensures here { (h : Here) → Stands T.unread at.old h → why fault.new result
        ≡ fault_at (faults.UnexpectedCharacter (here.next_char h)) (here.mark_of h) }
    ensures memory { (why fault.new result).kind ≡ faults.NoMemory → ⊥ }
    ensures moves { Moves T.unread T.left T.origin at.old at.new }
{
    let mark = at.mark();
    at.look(1);
    let character = at.input().peek();
    refuse_at(fault, mark, ErrorKind::UnexpectedCharacter { character })
}

/// Refuses what stands here, outside any named source.
fn refuse_here<T: Input>(at: &Cursor<T>, kind: ErrorKind, fault: &mut Option<ScanError>) -> Refused
    ensures here { (h : Here) → Stands T.unread at.now h
        → why fault.new result ≡ fault_at (kind_of kind) (here.mark_of h) }
    ensures kind { (why fault.new result).kind ≡ kind_of kind }
{
    refuse_at(fault, at.mark(), kind)
}
