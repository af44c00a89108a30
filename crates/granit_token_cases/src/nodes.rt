//! A block scalar, a tag, a name or a directive inside a text. A case is a JSON list: how many characters stand before
//! the lexeme, the column of the block around it or `-`, `literal`, `folded`, `tag`, `flow tag`, `anchor`, `alias`,
//! `directive`, `directive without comments` or `forbidden directive`, and the text. A directive has its two limits in
//! the place of the column, or `-` for the usual ones.
use crate::words::{cursor_at, push_fault, push_token};
use anyhow::{Context, Result};
use granit_block::scan_block_scalar;
use granit_cursor::{Cursor, Layout, Lexed, Token};
use granit_directives::scan_directive;
use granit_error::{Options, ScanError};
use granit_input::{BorrowedInput, Input};
use granit_properties::{scan_anchor, scan_tag};
use serde_json::Value;
use std::alloc::Global;

/// What stands around a block scalar.
fn layout(column: &str) -> Layout {
    Layout {
        block_column: column.parse::<usize>().ok(),
        tab_column: 0,
        in_flow: false,
        strict: false,
        comments: true,
    }
}

/// The options of a directive's case.
fn options(limits: &str, kind: &str) -> Options {
    let mut options = Options::default();
    options.emit_comments = kind != "directive without comments";
    options.disallow_directives = kind == "forbidden directive";
    if let Some((bytes, words)) = limits.split_once(' ') {
        options.max_directive_bytes = bytes.parse::<usize>().unwrap_or(0);
        options.max_reserved_directive_params = words.parse::<usize>().unwrap_or(0);
    }
    options
}

/// What is read where a lexeme begins.
trait Lexeme {
    /// Writes it with the comment behind it, or its fault.
    fn push(&self, line: &mut String) -> Result<()>;
}

impl<'a> Lexeme for Result<Token<'a>, ScanError> {
    fn push(&self, line: &mut String) -> Result<()> {
        match self {
            Ok(token) => push_token(line, token),
            Err(error) => push_fault(line, error),
        }
    }
}

impl<'a> Lexeme for Result<Lexed<'a>, ScanError> {
    fn push(&self, line: &mut String) -> Result<()> {
        match self {
            Ok(lexed) => push_lexed(line, lexed),
            Err(error) => push_fault(line, error),
        }
    }
}

/// The same of what is let go here, which is cheap to prove in a generic function.
fn push<T: Lexeme + Drop>(line: &mut String, lexeme: T) -> Result<()> {
    lexeme.push(line)
}

/// A lexeme with the comment behind it.
fn push_lexed(line: &mut String, lexed: &Lexed<'_>) -> Result<()> {
    push_token(line, &lexed.token)?;
    if let Some(comment) = &lexed.comment {
        line.push_str(" ")?;
        push_token(line, comment)?;
    }
    Ok(())
}

/// The lexeme of that kind where the cursor stands.
fn push_lexeme<'a, T: BorrowedInput<'a>>(
    alloc: Global,
    line: &mut String,
    cursor: &mut Cursor<T>,
    kind: &str,
    column: &str,
) -> Result<()> {
    cursor.look(1);
    match (kind, cursor.input().peek()) {
        ("literal", '|') => push(
            line,
            scan_block_scalar(alloc, cursor, true, &layout(column)),
        ),
        ("folded", '>') => push(
            line,
            scan_block_scalar(alloc, cursor, false, &layout(column)),
        ),
        ("tag", '!') => push(line, scan_tag(alloc, cursor, false)),
        ("flow tag", '!') => push(line, scan_tag(alloc, cursor, true)),
        ("anchor", '&') => push(line, scan_anchor(alloc, cursor, false)),
        ("alias", '*') => push(line, scan_anchor(alloc, cursor, true)),
        (_, '%') => push(line, scan_directive(alloc, cursor, &options(column, kind))),
        _ => Ok(line.push_str("no lexeme")?),
    }
}

/// Writes what is printed for a list.
fn push_list(alloc: Global, line: &mut String, case: &Value) -> Result<()> {
    let index = case.get(0).and_then(Value::as_u64).context("an index")?;
    let column = case.get(1).and_then(Value::as_str).context("a column")?;
    let kind = case.get(2).and_then(Value::as_str).context("a kind")?;
    let text = case.get(3).and_then(Value::as_str).context("a text")?;
    let mut cursor = cursor_at(text, index as usize);
    push_lexeme(alloc, line, &mut cursor, kind, column)
}

/// Writes what is printed for a case.
pub fn push_answer(alloc: Global, line: &mut String, case: &str) -> Result<()> {
    let case = Value::from_str(alloc, case).context("reading a case")?;
    push_list(alloc, line, &case)
}
