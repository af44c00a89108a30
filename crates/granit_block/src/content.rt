//! The lines of a block scalar behind its header, and its value (YAML 1.2.2, 8.1).
ghost use Rattle.std.specs.Prelude.{◌≡◌, ℕ, ◌≤◌, not, None, Some, if◌then◌else◌, IfOk, IfErr, OnOk};
ghost use Rattle.std.specs.List.{find, list_all};
ghost use Rattle.std.specs.Str.{chars};
ghost use Rattle.granit_base.specs.Written.{string_chars};
ghost use Rattle.granit_lexemes.specs.Basics.{owned};
ghost use Rattle.granit_lexemes.specs.BlockHeader as header;
ghost use Rattle.granit_lexemes.specs.BlockScalar as spec;
ghost use Rattle.granit_lexemes.specs.BlockValue.{line_feeds};
ghost use Rattle.granit_lexemes.specs.Here.{Here};
ghost use Rattle.granit_block.specs.BlockCode.{header_data, chomping_data, content_data, block_state, text_given};
ghost use Rattle.granit_block.specs.BlockCode.{ending_of, IsBlockKind};
ghost use Rattle.granit_cursor.specs.Reading.{Stands, Moves, Wherever, GivesTo};

use crate::header::{Chomping, Header};
use crate::lines::{Lines, past_lines, refuse_unprintable};
use crate::spaces::find_column;
use granit_base::{
    Marker, NoMemory, find_non_printable, is_at_end, is_break, push_char, push_text,
};
use granit_cursor::{Cursor, Layout, past_break};
use granit_error::{ErrorKind, ScanError};
use granit_input::Input;
use std::alloc::Global;

/// A block scalar behind its header.
#[derive(Drop)]
pub(crate) struct Content {
    pub(crate) value: String,
    /// Where its content begins, or the place that its span begins with where it has none.
    pub(crate) shown: Marker,
    /// The column of its content, where the value is more than white space.
    pub(crate) indent: Option<usize>,
}

/// What the header's line tells of the lines behind it.
#[derive(Clone, Copy)]
struct Frame {
    literal: bool,
    chomping: Chomping,
    /// Whether a break ends the header's line.
    broken: bool,
    /// Where the scalar begins.
    start: Marker,
}

/// What stands behind the header, its blanks and its comment: a break or the end, and then the lines.
pub(crate) fn read_body<T: Input>(
    alloc: Global,
    cursor: &mut Cursor<T>,
    literal: bool,
    header: Header,
    at: &Layout,
    start: Marker,
) -> Result<Content, ScanError>
    ensures here { Wherever T.unread cursor.old cursor.new (λ h Lands.
        GivesTo content_data result Lands (spec.block_body literal (header_data header) at.now.block_column start h)) }
    ensures kinds { IfErr result (λ e. IsBlockKind e.kind) }
    ensures moves { Moves T.unread T.left T.origin cursor.old cursor.new }
{
    refuse_unprintable(cursor)?;
    cursor.look(1);
    if is_break(cursor.input().peek()) {
        past_break(cursor);
        return read_lines(alloc, cursor, literal, header, true, at, start);
    }
    if cursor.input().next_is_z() {
        return read_lines(alloc, cursor, literal, header, false, at, start);
    }
    Err(ScanError::from_kind(start, ErrorKind::InvalidBlockScalarHeader))
}

/// The lines behind the header's line, whether a break ends that.
fn read_lines<T: Input>(
    alloc: Global,
    cursor: &mut Cursor<T>,
    literal: bool,
    header: Header,
    broken: bool,
    at: &Layout,
    start: Marker,
) -> Result<Content, ScanError>
    ensures here { Wherever T.unread cursor.old cursor.new (λ h Lands.
        GivesTo content_data result Lands (spec.block_lines literal (header_data header) broken at.now.block_column
        start h)) }
    ensures kinds { IfErr result (λ e. IsBlockKind e.kind) }
    ensures moves { Moves T.unread T.left T.origin cursor.old cursor.new }
{
    refuse_unprintable(cursor)?;
    cursor.look(1);
    if cursor.input().peek() == '\t' {
        return Err(ScanError::from_kind(start, ErrorKind::TabAtBlockScalarStart));
    }
    let mut empty = String::new(alloc);
    let column = find_column(cursor, at.block_column, header.digit, &mut empty)?;
    let chomping = header.chomping();
    let frame = Frame {
        literal,
        chomping,
        broken,
        start,
    };
    read_content(alloc, cursor, frame, at, column, empty)
}

/// What stands behind the first empty lines: the end, or content in that column.
fn read_content<T: Input>(
    alloc: Global,
    cursor: &mut Cursor<T>,
    frame: Frame,
    at: &Layout,
    column: u128,
    empty: String,
) -> Result<Content, ScanError>
    ensures here { Wherever T.unread cursor.old cursor.new (λ h Lands.
        (k : ℕ) → string_chars empty ≡ line_feeds k
        → GivesTo content_data result Lands (spec.content_lines frame.literal (chomping_data frame.chomping)
        frame.broken at.now.block_column column frame.start (line_feeds k) h)) }
    ensures kinds { IfErr result (λ e. IsBlockKind e.kind) }
    ensures moves { Moves T.unread T.left T.origin cursor.old cursor.new }
{
    refuse_unprintable(cursor)?;
    cursor.look(4);
    if cursor.input().next_is_z() {
        let content = without_content(frame, cursor.mark().col(), empty)?;
        return Ok(content);
    }
    if is_between(cursor, at, column) {
        return Err(ScanError::from_kind(cursor.mark(), ErrorKind::InvalidBlockScalarIndent));
    }
    read_text(alloc, cursor, frame, column, empty)
}

/// A scalar whose text ends in that column before any content.
fn without_content(frame: Frame, column: usize, empty: String) -> Result<Content, NoMemory>
    ensures { (h : Here) → h.place.column ≡ column → IfOk result (λ c. content_data c ≡ record {
      text = owned (spec.no_content (chomping_data frame.chomping) frame.broken (string_chars empty) h);
      shown = frame.start;
      indent = None;
    }) }
{
    let value = end_empty(frame.chomping, frame.broken, column, empty)?;
    Ok(Content {
        value,
        shown: frame.start,
        indent: None,
    })
}

/// The value of a scalar whose text ends in that column before any content: its empty lines are kept, or a last
/// line of spaces where it is the only one.
#[tactic(auto, using(granit_cursor::proofs::MoveLemmas::cleared))]
fn end_empty(
    chomping: Chomping,
    broken: bool,
    column: usize,
    empty: String,
) -> Result<String, NoMemory>
    ensures { (h : Here) → h.place.column ≡ column → IfOk result (λ value.
        string_chars value ≡ spec.no_content (chomping_data chomping) broken (string_chars empty) h) }
{
    let mut value = empty;
    if !is_keep(chomping) || !broken {
        value.clear();
        return Ok(value);
    }
    if is_at_end(value.as_str()) && 0 < column {
        push_char(&mut value, '\n')?;
        return Ok(value);
    }
    Ok(value)
}

/// Whether content that begins here stands right of its block, but left of the scalar's column; at the root no
/// document mark and no comment in column 0 is content.
fn is_between<T: Input>(cursor: &Cursor<T>, at: &Layout, column: u128) -> bool
    requires { 4 ≤ T.window cursor.now.input }
    ensures { (h : Here) → Stands T.unread cursor.now h → result ≡ spec.is_between at.now.block_column column h }
{
    let place = cursor.mark().col();
    if place as u128 >= column || at.is_left(place) {
        return false;
    }
    !(at.block_column.is_none()
        && place == 0
        && (cursor.input().next_is_document_indicator() || cursor.input().peek() == '#'))
}

/// The lines of content from here on, behind these empty lines.
fn read_text<T: Input>(
    alloc: Global,
    cursor: &mut Cursor<T>,
    frame: Frame,
    column: u128,
    empty: String,
) -> Result<Content, ScanError>
    ensures here { Wherever T.unread cursor.old cursor.new (λ h Lands.
        (k : ℕ) → string_chars empty ≡ line_feeds k
        → GivesTo content_data result Lands (text_given frame.literal (chomping_data frame.chomping) column k h)) }
    ensures kinds { IfErr result (λ e. IsBlockKind e.kind) }
    ensures moves { Moves T.unread T.left T.origin cursor.old cursor.new }
{
    let shown = cursor.mark();
    let mut lines = Lines {
        value: String::new(alloc),
        empty,
        before: None,
        broken: false,
    };
    past_lines(cursor, frame.literal, column, &mut lines)?;
    end_text(cursor, frame.chomping, shown, lines)
}

/// Whether the empty lines behind the content are kept.
fn is_keep(chomping: Chomping) -> bool
    ensures { result ≡ header.is_keep (chomping_data chomping) }
{
    matches!(chomping, Chomping::Keep)
}

/// Whether the last break is kept.
fn keeps_break(chomping: Chomping) -> bool
    ensures { result ≡ not (header.is_strip (chomping_data chomping)) }
{
    !matches!(chomping, Chomping::Strip)
}

/// Appends the last break and the empty lines behind the content, as far as they are kept, where the text ends
/// there or goes on.
fn push_ending(chomping: Chomping, ended: bool, lines: &mut Lines) -> Result<(), NoMemory>
    ensures value { OnOk result (string_chars lines.new.value ≡ ending_of (chomping_data chomping) ended lines.old) }
{
    if keeps_break(chomping) && (lines.broken || lines.before.is_some() && ended) {
        push_char(&mut lines.value, '\n')?;
    }
    if is_keep(chomping) {
        push_text(&mut lines.value, lines.empty.as_str())?;
    }
    Ok(())
}

/// Whether a character is white space of Unicode.
#[tactic(auto, unfolding(granit_lexemes::specs::BlockScalar::is_white))]
fn is_white(c: char) -> bool
    ensures { result ≡ spec.is_white c }
{
    matches!(c, '\t'..='\r' | ' ' | '\u{85}' | '\u{a0}' | '\u{1680}')
        || matches!(
            c,
            '\u{2000}'..='\u{200a}' | '\u{2028}' | '\u{2029}' | '\u{202f}'
        )
        || c == '\u{205f}'
        || c == '\u{3000}'
}

/// The first character that isn't white space.
fn find_ink(text: &str) -> Option<char>
    ensures { result ≡ find (λ c. not (spec.is_white c)) (chars text.now) }
{
    text.chars().find(|c| !is_white(*c))
}

/// Whether all characters are white space.
fn is_all_white(text: &str) -> bool
    ensures { result ≡ list_all spec.is_white (chars text.now) }
{
    find_ink(text).is_none()
}

/// The column that content stands in, unless it is white space.
fn content_indent(text: &str, column: usize) -> Option<usize>
    ensures { result ≡ (if list_all spec.is_white (chars text.now) then None else Some column) }
{
    if is_all_white(text) {
        None
    } else {
        Some(column)
    }
}

/// Behind the last line of content.
fn end_text<T: Input>(
    cursor: &mut Cursor<T>,
    chomping: Chomping,
    shown: Marker,
    lines: Lines,
) -> Result<Content, ScanError>
    ensures here { Wherever T.unread cursor.old cursor.new (λ h Lands.
        GivesTo content_data result Lands (spec.behind_block (chomping_data chomping) shown.place.column shown
        (string_chars lines.value) (block_state lines h))) }
    ensures kinds { IfErr result (λ e. IsBlockKind e.kind) }
    ensures moves { Moves T.unread T.left T.origin cursor.old cursor.new }
{
    let mut lines = lines;
    cursor.look(1);
    push_ending(chomping, cursor.input().next_is_z(), &mut lines)?;
    refuse_unprintable(cursor)?;
    if let Some(character) = find_non_printable(lines.value.as_str()) {
        return Err(ScanError::from_kind(shown, ErrorKind::UnexpectedCharacter { character }));
    }
    let indent = content_indent(lines.value.as_str(), shown.col());
    Ok(Content {
        value: lines.value,
        shown,
        indent,
    })
}
