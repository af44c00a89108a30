//! A comment, a plain or a quoted scalar inside a text. A case is a JSON list: how many characters stand before the
//! lexeme, the column of the block around it or `-`, `block`, `flow`, `strict`, `strict block` or `comment`, and the
//! text; for a quoted scalar then `single` or `double` and the tab column.
use crate::words::{cursor_at, push_fault, push_place, push_token};
use anyhow::{Context, Result};
use granit_base::{Marker, is_blank_or_breakz};
use granit_cursor::{Cursor, Layout, Lexed, Token, scan_comment};
use granit_error::ScanError;
use granit_input::{BorrowedInput, Input};
use granit_plain::scan_plain_scalar;
use granit_quoted::scan_quoted_scalar;
use serde_json::Value;
use std::alloc::Global;

/// What stands around the lexeme.
fn layout(column: &str, tab_column: usize, around: &str) -> Layout {
    Layout {
        block_column: column.parse::<usize>().ok(),
        tab_column,
        in_flow: around == "flow" || around == "strict",
        strict: around == "strict" || around == "strict block",
        comments: true,
    }
}

/// What is read where a lexeme begins.
trait Lexeme {
    /// Writes it, what was read behind it, and where the cursor then stands; or its fault.
    fn push(&self, line: &mut String, stands: Marker) -> Result<()>;
}

impl<'a> Lexeme for Result<Token<'a>, ScanError> {
    fn push(&self, line: &mut String, stands: Marker) -> Result<()> {
        match self {
            Ok(token) => {
                push_token(line, token)?;
                push_stands(line, stands)
            }
            Err(error) => push_fault(line, error),
        }
    }
}

impl<'a> Lexeme for Result<Lexed<'a>, ScanError> {
    fn push(&self, line: &mut String, stands: Marker) -> Result<()> {
        match self {
            Ok(lexed) => {
                push_lexed(line, lexed)?;
                push_stands(line, stands)
            }
            Err(error) => push_fault(line, error),
        }
    }
}

/// The same of what is let go here, which is cheap to prove in a generic function.
fn push<T: Lexeme + Drop>(line: &mut String, lexeme: T, stands: Marker) -> Result<()> {
    lexeme.push(line, stands)
}

/// Where the cursor then stands.
fn push_stands(line: &mut String, stands: Marker) -> Result<()> {
    line.push_str(" then ")?;
    push_place(line, stands)
}

/// A lexeme, and what was read behind it.
fn push_lexed(line: &mut String, lexed: &Lexed<'_>) -> Result<()> {
    push_token(line, &lexed.token)?;
    if lexed.on_new_line {
        line.push_str(" on a new line")?;
    }
    if let Some(mark) = lexed.cut_by_comment {
        line.push_str(" cut at ")?;
        push_place(line, mark)?;
    }
    if let Some(comment) = &lexed.comment {
        line.push_str(" ")?;
        push_token(line, comment)?;
    }
    Ok(())
}

fn push_no_lexeme(line: &mut String) -> Result<()> {
    line.push_str("no lexeme")?;
    Ok(())
}

/// The comment that begins where the cursor stands, where one does.
fn push_comment<'a, T: BorrowedInput<'a>>(
    alloc: Global,
    line: &mut String,
    cursor: &mut Cursor<T>,
) -> Result<()> {
    cursor.look(1);
    if cursor.input().peek() != '#' {
        return push_no_lexeme(line);
    }
    let comment = scan_comment(alloc, cursor);
    push(line, comment, cursor.mark())
}

/// The plain scalar that begins where the cursor stands, where one does.
fn push_plain<'a, T: BorrowedInput<'a>>(
    alloc: Global,
    line: &mut String,
    cursor: &mut Cursor<T>,
    at: &Layout,
) -> Result<()> {
    cursor.look(2);
    if is_blank_or_breakz(cursor.input().peek())
        || !cursor.input().next_can_be_plain_scalar(at.in_flow)
    {
        return push_no_lexeme(line);
    }
    let scalar = scan_plain_scalar(alloc, cursor, at);
    push(line, scalar, cursor.mark())
}

/// The quoted scalar that begins where the cursor stands, where one does.
fn push_quoted<'a, T: BorrowedInput<'a>>(
    alloc: Global,
    line: &mut String,
    cursor: &mut Cursor<T>,
    at: &Layout,
) -> Result<()> {
    cursor.look(1);
    match cursor.input().peek() {
        '\'' => {
            let scalar = scan_quoted_scalar(alloc, cursor, true, at);
            push(line, scalar, cursor.mark())
        }
        '"' => {
            let scalar = scan_quoted_scalar(alloc, cursor, false, at);
            push(line, scalar, cursor.mark())
        }
        _ => push_no_lexeme(line),
    }
}

/// The lexeme where the cursor stands: a quoted scalar, a comment, or a plain scalar.
fn push_lexeme<'a, T: BorrowedInput<'a>>(
    alloc: Global,
    line: &mut String,
    cursor: &mut Cursor<T>,
    at: &Layout,
    is_quoted: bool,
    around: &str,
) -> Result<()> {
    if is_quoted {
        push_quoted(alloc, line, cursor, at)
    } else if around == "comment" {
        push_comment(alloc, line, cursor)
    } else {
        push_plain(alloc, line, cursor, at)
    }
}

/// Writes what is printed for a list.
fn push_list(alloc: Global, line: &mut String, case: &Value) -> Result<()> {
    let index = case.get(0).and_then(Value::as_u64).context("an index")?;
    let column = case.get(1).and_then(Value::as_str).context("a column")?;
    let around = case.get(2).and_then(Value::as_str).context("a layout")?;
    let text = case.get(3).and_then(Value::as_str).context("a text")?;
    let tab_column = case.get(5).and_then(Value::as_u64).unwrap_or(0);
    let at = layout(column, tab_column as usize, around);
    let is_quoted = case.get(4).is_some();
    let mut cursor = cursor_at(text, index as usize);
    push_lexeme(alloc, line, &mut cursor, &at, is_quoted, around)
}

/// Writes what is printed for a case.
pub fn push_answer(alloc: Global, line: &mut String, case: &str) -> Result<()> {
    let case = Value::from_str(alloc, case).context("reading a case")?;
    push_list(alloc, line, &case)
}
