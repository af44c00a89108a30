//! The lines of content of a block scalar (YAML 1.2.2, 8.1.2 and 8.1.3).
ghost use Rattle.std.specs.Prelude.{◌≡◌, ◌<◌, ◌≤◌, ◌++◌, false, IfErr, OnOk};
ghost use Rattle.granit_base.specs.Written.{string_chars};
ghost use Rattle.granit_lexemes.specs.BlockScalar as spec;
ghost use Rattle.granit_lexemes.specs.Here.{Here};
ghost use Rattle.granit_lexemes.specs.LinesExtent.{is_clear};
ghost use Rattle.granit_block.specs.BlockCode.{block_state, block_whole, is_off_content, is_content_mark, IsClear};
ghost use Rattle.granit_block.specs.BlockCode.{Shrinks, TakesLine, LineTurnsTo, LinesTo, IsBlockKind};
ghost use Rattle.granit_cursor.specs.Reading.{Stands, Moves, Wherever};

use crate::spaces::past_empty_lines;
use granit_base::{NoMemory, is_at_end, is_blank, is_printable, push_char, push_text};
use granit_cursor::{Cursor, past_break};
use granit_error::{ErrorKind, ScanError};
use granit_input::Input;

/// What was read of the lines of a block scalar.
#[derive(Drop)]
pub(crate) struct Lines {
    /// Its value up to the last line of content.
    pub(crate) value: String,
    /// A line feed for each empty line since then.
    pub(crate) empty: String,
    /// Whether the last line of content began with a blank.
    pub(crate) before: Option<bool>,
    /// Whether a break ended it.
    pub(crate) broken: bool,
}

/// Refuses an unprintable character that stands here.
pub(crate) fn refuse_unprintable<T: Input>(cursor: &mut Cursor<T>) -> Result<(), ScanError>
    ensures here { Wherever T.unread cursor.old cursor.new (λ h Lands. IsClear result Lands h) }
    ensures kinds { IfErr result (λ e. IsBlockKind e.kind) }
    ensures moves { Moves T.unread T.left T.origin cursor.old cursor.new }
{
    cursor.look(1);
    let character = cursor.input().peek();
    if cursor.input().next_is_z() || is_printable(character) {
        return Ok(());
    }
    Err(ScanError::from_kind(cursor.mark(), ErrorKind::UnexpectedCharacter { character }))
}

/// Appends what stands for the breaks before a line of content.
fn push_between(literal: bool, blank: bool, lines: &mut Lines) -> Result<(), NoMemory>
    ensures value { OnOk result (string_chars lines.new.value
        ≡ string_chars lines.old.value ++ spec.between_lines literal lines.old.before blank
        (string_chars lines.old.empty)) }
    ensures kept { (lines.new.empty ≡ lines.old.empty) }
{
    let Some(before) = lines.before else {
        return push_text(&mut lines.value, lines.empty.as_str());
    };
    if literal || before || blank {
        push_char(&mut lines.value, '\n')?;
    } else if is_at_end(lines.empty.as_str()) {
        return push_char(&mut lines.value, ' ');
    }
    push_text(&mut lines.value, lines.empty.as_str())
}

/// Over a line of content, behind what stands for the breaks before it, and over the empty lines behind it.
fn take_content<T: Input>(
    cursor: &mut Cursor<T>,
    literal: bool,
    column: u128,
    lines: &mut Lines,
) -> Result<(), ScanError>
    ensures here { Wherever T.unread cursor.old cursor.new (λ h Lands.
        TakesLine literal column result Lands (string_chars lines.old.value) (block_state lines.old h) lines.new) }
    ensures left { OnOk result (0 < T.left cursor.old.input → T.left cursor.new.input < T.left cursor.old.input) }
    ensures kinds { IfErr result (λ e. IsBlockKind e.kind) }
    ensures moves { Moves T.unread T.left T.origin cursor.old cursor.new }
{
    cursor.look(1);
    let blank = is_blank(cursor.input().peek());
    push_between(literal, blank, lines)?;
    lines.empty.clear();
    cursor.fetch_block_scalar_line(&mut lines.value)?;
    lines.before = Some(blank);
    cursor.look(1);
    if cursor.input().next_is_z() {
        lines.broken = false;
        return Ok(());
    }
    refuse_unprintable(cursor)?;
    past_break(cursor);
    lines.broken = true;
    past_empty_lines(cursor, column, &mut lines.empty)?;
    Ok(())
}

/// Whether no content stands here: at the end, or in another column.
fn is_outside<T: Input>(cursor: &Cursor<T>, column: u128) -> bool
    requires { 1 ≤ T.window cursor.now.input }
    ensures value { (h : Here) → Stands T.unread cursor.now h → result ≡ is_off_content column h }
    ensures some { result ≡ false → 0 < T.left cursor.now.input }
{
    cursor.input().next_is_z() || cursor.mark().col() as u128 != column
}

/// Whether a document mark stands in column 0 of the content (YAML 1.2.2, 9.1.2).
fn is_mark<T: Input>(cursor: &Cursor<T>, column: u128) -> bool
    requires { 4 ≤ T.window cursor.now.input }
    ensures { (h : Here) → Stands T.unread cursor.now h → result ≡ is_content_mark column h }
{
    column == 0 && cursor.input().next_is_document_indicator()
}

/// Over a line of content and the empty lines behind it; false where none stands here.
fn take_line<T: Input>(
    cursor: &mut Cursor<T>,
    literal: bool,
    column: u128,
    lines: &mut Lines,
) -> Result<bool, ScanError>
    ensures here { Wherever T.unread cursor.old cursor.new (λ h Lands.
        LineTurnsTo literal column result Lands lines.new (block_whole literal column lines.old h)) }
    ensures left { Shrinks result (T.left cursor.old.input) (T.left cursor.new.input) }
    ensures kinds { IfErr result (λ e. IsBlockKind e.kind) }
    ensures moves { Moves T.unread T.left T.origin cursor.old cursor.new }
{
    cursor.look(1);
    if is_outside(cursor, column) {
        return Ok(false);
    }
    refuse_unprintable(cursor)?;
    cursor.look(4);
    if is_mark(cursor, column) {
        return Ok(false);
    }
    take_content(cursor, literal, column, lines)?;
    Ok(true)
}

/// Over all lines of content.
pub(crate) fn past_lines<T: Input>(
    cursor: &mut Cursor<T>,
    literal: bool,
    column: u128,
    lines: &mut Lines,
) -> Result<(), ScanError>
    ensures here { Wherever T.unread cursor.old cursor.new (λ h Lands.
        LinesTo result Lands lines.new (block_whole literal column lines.old h)) }
    ensures kinds { IfErr result (λ e. IsBlockKind e.kind) }
    ensures moves { Moves T.unread T.left T.origin cursor.old cursor.new }
{
    'lines: while take_line(cursor, literal, column, lines)? {}
    Ok(())
}
