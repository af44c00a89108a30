//! The text of a case.
use anyhow::{Context, Result};
use serde_json::Value;
use std::alloc::Global;

/// A copy of the text of a string.
fn copy(alloc: Global, value: &Value) -> Result<String> {
    let text = value.as_str().context("a case is a string")?;
    Ok(String::from_str(alloc, text)?)
}

/// The text that a JSON string says.
pub fn string(alloc: Global, case: &str) -> Result<String> {
    let value = Value::from_str(alloc, case).context("reading a case")?;
    copy(alloc, &value)
}

fn push_piece(text: &mut String, piece: &Value) -> Result<()> {
    if let Some(once) = piece.as_str() {
        text.push_str(once)?;
        return Ok(());
    }
    let string = piece.get(0).and_then(Value::as_str);
    let string = string.context("a pair begins with a string")?;
    let times = piece.get(1).and_then(Value::as_u64);
    for _ in 0..times.context("a pair ends with a number")? {
        text.push_str(string)?;
    }
    Ok(())
}

/// The text of a list.
fn joined_of(alloc: Global, list: &Value) -> Result<String> {
    let mut text = String::new(alloc);
    for piece in list.as_array().context("a text is a list")? {
        push_piece(&mut text, piece)?;
    }
    Ok(text)
}

/// The text that a JSON list says: of strings, or of pairs of a string and how often it stands there.
pub fn joined(alloc: Global, case: &str) -> Result<String> {
    let list = Value::from_str(alloc, case).context("reading a case")?;
    joined_of(alloc, &list)
}
