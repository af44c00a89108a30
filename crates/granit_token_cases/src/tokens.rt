//! All tokens of a text: option words and the text as a JSON string, with a tab between.
use crate::options::case_options;
use crate::words::{push_fault, push_token};
use anyhow::{Context, Result};
use granit_cursor::Token;
use granit_error::{Options, ScanError};
use granit_input::{BorrowedInput, StrInput};
use granit_scan::Scanner;
use serde_json::Value;
use std::alloc::Global;

/// What a scanner gives.
trait Step {
    /// Writes its line; whether it has one.
    fn push(&self, lines: &mut String) -> Result<bool>;
}

impl<'a> Step for Option<Result<Token<'a>, ScanError>> {
    fn push(&self, lines: &mut String) -> Result<bool> {
        match self {
            None => return Ok(false),
            Some(Ok(token)) => push_token(lines, token)?,
            Some(Err(error)) => push_fault(lines, error)?,
        }
        lines.push('\n')?;
        Ok(true)
    }
}

/// The same of what is let go here, which is cheap to prove in a generic function.
fn push_step<T: Step + Drop>(lines: &mut String, step: T) -> Result<bool> {
    step.push(lines)
}

/// What gives one token after another.
trait Steps {
    /// Writes the line of the next one or of the fault; whether there is one.
    fn push_next(&mut self, lines: &mut String) -> Result<bool>;
}

impl<'a, T: BorrowedInput<'a>> Steps for Scanner<'a, T> {
    fn push_next(&mut self, lines: &mut String) -> Result<bool> {
        push_step(lines, self.next())
    }
}

/// Writes the lines of all that a scanner gives, which is let go here.
fn push_all<S: Steps + Drop>(lines: &mut String, scanner: S) -> Result<()> {
    let mut scanner = scanner;
    for _ in 0..u64::MAX {
        if !scanner.push_next(lines)? {
            return Ok(());
        }
    }
    Ok(())
}

/// Writes the tokens of a text, and the fault behind them.
fn push_tokens(alloc: Global, lines: &mut String, text: &str, options: Options) -> Result<()> {
    push_all(
        lines,
        Scanner::with_options(alloc, StrInput::new(text), options),
    )
}

/// Writes what is printed for a text.
fn push_text(alloc: Global, lines: &mut String, words: &str, text: &Value) -> Result<()> {
    let text = text.as_str().context("a case is a string")?;
    push_tokens(alloc, lines, text, case_options(words)?)?;
    lines.push_str("end")?;
    Ok(())
}

/// Writes what is printed for a case.
pub fn push_answer(alloc: Global, lines: &mut String, case: &str) -> Result<()> {
    let (words, text) = case
        .split_once('\t')
        .context("a case is options and a text")?;
    let text = Value::from_str(alloc, text).context("reading a case")?;
    push_text(alloc, lines, words, &text)
}
