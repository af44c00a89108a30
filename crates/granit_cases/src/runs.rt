//! A run of the program: its words and a text as a JSON string, with a tab between.
use crate::outcome::{Outcome, whole, word_list};
use crate::texts;
use anyhow::{Context, Result};
use granit_base::TextList;
use std::alloc::Global;

/// What was printed, and the status.
fn ended(alloc: Global, outcome: &Outcome) -> Result<String> {
    let code = outcome.code;
    let mut said = outcome.text(alloc)?;
    write!(said, "status {code}")?;
    Ok(said)
}

/// What the program prints of a text, and its status.
fn of_text(alloc: Global, words: &TextList, text: &str) -> Result<String> {
    let outcome = whole(alloc, words, text)?;
    ended(alloc, &outcome)
}

/// What the program prints, and its status.
pub fn answer(alloc: Global, case: &str) -> Result<String> {
    let (words, text) = case.split_once('\t').context("a case is words and a text")?;
    let words = word_list(alloc, words)?;
    of_text(alloc, &words, texts::string(alloc, text)?.as_str())
}
