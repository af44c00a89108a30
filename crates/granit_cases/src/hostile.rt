//! Hostile texts, each in every way that a text is read: the words of the program and a text with a tab between.
use crate::{outcome, texts};
use anyhow::{Context, Result};
use std::alloc::Global;

/// The status and the output where it is one line, else how many lines it has and their digest; `differs` where the
/// ways of reading don't end the same.
pub fn answer(alloc: Global, case: &str) -> Result<String> {
    let (words, text) = case.split_once('\t').context("a case is words and a text")?;
    let text = texts::joined(alloc, text)?;
    match outcome::agreed(alloc, words, text.as_str())? {
        None => Ok(String::from_str(alloc, "differs")?),
        Some(outcome) => outcome.said(alloc),
    }
}
