//! Spaces that indent lines, and empty lines (YAML 1.2.2, 6.1 and 8.1.1.1).
ghost use Rattle.std.specs.Prelude.{◌≡◌, ◌<◌, ◌≤◌, ◌^◌, ◌++◌, max, OnOk};
ghost use Rattle.granit_base.specs.Written.{string_chars};
ghost use Rattle.granit_lexemes.specs.BlockHeader as spec;
ghost use Rattle.granit_lexemes.specs.BlockScalar.{indented};
ghost use Rattle.granit_lexemes.specs.Here.{Here, past};
ghost use Rattle.granit_block.specs.BlockCode.{Shrinks, ShrinksIf, empty_whole, EmptyTurnsTo, EmptiesTo, WidthGiven};
ghost use Rattle.granit_block.specs.BlockCode.{WidestGiven, FindsColumn};
ghost use Rattle.granit_cursor.specs.Reading.{Stands, Moves, Wherever, GoesTo};

use granit_base::{NoMemory, is_break, push_char};
use granit_cursor::{Cursor, past_break};
use granit_input::Input;

/// Over the spaces that stand here.
fn past_spaces<T: Input>(cursor: &mut Cursor<T>)
    ensures here { GoesTo T.unread cursor.old cursor.new (past spec.is_space) }
    ensures moves { Moves T.unread T.left T.origin cursor.old cursor.new }
{
    cursor.look(1);
    'spaces: while cursor.input().peek() == ' ' {
        cursor.step();
        cursor.look(1);
    }
}

/// Over the spaces left of a column.
fn indent<T: Input>(cursor: &mut Cursor<T>, column: u128)
    ensures here { GoesTo T.unread cursor.old cursor.new (indented column) }
    ensures moves { Moves T.unread T.left T.origin cursor.old cursor.new }
{
    cursor.look(1);
    'spaces: while (cursor.mark().col() as u128) < column && cursor.input().peek() == ' ' {
        cursor.step();
        cursor.look(1);
    }
}

/// Over an empty line, for which a line feed is appended; false where none stands here, and then over the
/// spaces left of a column.
#[tactic(auto, using(granit_runs::proofs::RunLemmas::break_some))]
fn take_empty_line<T: Input>(
    cursor: &mut Cursor<T>,
    column: u128,
    empty: &mut String,
) -> Result<bool, NoMemory>
    ensures here { Wherever T.unread cursor.old cursor.new (λ h Lands.
        EmptyTurnsTo column result Lands (string_chars empty.new) (empty_whole column (string_chars empty.old) h)) }
    ensures left { Shrinks result (T.left cursor.old.input) (T.left cursor.new.input) }
    ensures moves { Moves T.unread T.left T.origin cursor.old cursor.new }
{
    indent(cursor, column);
    cursor.look(1);
    if !is_break(cursor.input().peek()) {
        return Ok(false);
    }
    push_char(empty, '\n')?;
    past_break(cursor);
    Ok(true)
}

/// Over empty lines, with a line feed for each, and the spaces behind them left of a column.
pub(crate) fn past_empty_lines<T: Input>(
    cursor: &mut Cursor<T>,
    column: u128,
    empty: &mut String,
) -> Result<(), NoMemory>
    ensures here { Wherever T.unread cursor.old cursor.new (λ h Lands.
        EmptiesTo result Lands (string_chars empty.new) (empty_whole column (string_chars empty.old) h)) }
    ensures moves { Moves T.unread T.left T.origin cursor.old cursor.new }
{
    'lines: while take_empty_line(cursor, column, empty)? {}
    Ok(())
}

/// Over a line of spaces alone, for which a line feed is appended, and its width; None where another line
/// begins here, and then over its spaces.
#[tactic(auto, using(granit_runs::proofs::RunLemmas::break_some))]
fn take_leading_line<T: Input>(
    cursor: &mut Cursor<T>,
    empty: &mut String,
) -> Result<Option<usize>, NoMemory>
    ensures here { Wherever T.unread cursor.old cursor.new (λ h Lands.
        WidthGiven result Lands (string_chars empty.old) (string_chars empty.new) h) }
    ensures left { ShrinksIf result (T.left cursor.old.input) (T.left cursor.new.input) }
    ensures moves { Moves T.unread T.left T.origin cursor.old cursor.new }
{
    past_spaces(cursor);
    cursor.look(1);
    if !is_break(cursor.input().peek()) {
        return Ok(None);
    }
    let width = cursor.mark().col();
    push_char(empty, '\n')?;
    past_break(cursor);
    Ok(Some(width))
}

/// Over the leading lines of spaces alone, with a line feed for each, and over the spaces of the first other
/// line: the greatest of their widths.
fn past_leading_lines<T: Input>(
    cursor: &mut Cursor<T>,
    empty: &mut String,
) -> Result<usize, NoMemory>
    ensures here { Wherever T.unread cursor.old cursor.new (λ h Lands.
        WidestGiven result Lands (string_chars empty.old) (string_chars empty.new) h) }
    ensures moves { Moves T.unread T.left T.origin cursor.old cursor.new }
{
    let mut widest = 0;
    'lines: while let Some(width) = take_leading_line(cursor, empty)? {
        widest = greater(widest, width);
    }
    Ok(greater(widest, cursor.mark().col()))
}

/// The greater of two widths.
fn greater(a: usize, b: usize) -> usize
    ensures { result ≡ max a b }
{
    if a < b { b } else { a }
}

/// The content's column: a digit of the header tells it, or else the leading lines; over these, with a line
/// feed for each, and over the spaces behind them left of it. It is wider than a place, so that no digit
/// leads past its end.
pub(crate) fn find_column<T: Input>(
    cursor: &mut Cursor<T>,
    block_column: Option<usize>,
    digit: Option<u32>,
    empty: &mut String,
) -> Result<u128, NoMemory>
    ensures here { Wherever T.unread cursor.old cursor.new (λ h Lands.
        FindsColumn block_column digit result Lands (string_chars empty.old) (string_chars empty.new) h) }
    ensures moves { Moves T.unread T.left T.origin cursor.old cursor.new }
{
    match digit {
        Some(digit) => {
            let column = outer(block_column) + digit as u128;
            past_empty_lines(cursor, column, empty)?;
            Ok(column)
        }
        None => {
            let widest = past_leading_lines(cursor, empty)?;
            Ok(margin(block_column).max(widest as u128))
        }
    }
}

/// The column from which a digit counts.
fn outer(block_column: Option<usize>) -> u128
    ensures column { result ≡ spec.outer_of block_column }
    ensures fits { result < 2 ^ 64 }
{
    match block_column {
        None => 0,
        Some(column) => column as u128,
    }
}

/// The first column right of the block.
fn margin(block_column: Option<usize>) -> u128
    ensures { result ≡ spec.margin_of block_column }
{
    match block_column {
        None => 0,
        Some(column) => column as u128 + 1,
    }
}
