//! The three loads: a text is a JSON string.
use crate::outcome::{Outcome, answered, characters_say};
use crate::texts;
use anyhow::{Context, Result};
use granit_base::{Span, Text};
use granit_error::{Options, ScanError};
use granit_event::Event;
use granit_load::{Events, load_chars, load_str};
use std::alloc::Global;

/// The text of an event, where it has one.
fn text_of<'e, 'a>(event: &'e Event<'a>) -> Option<&'e Text<'a>> {
    match event {
        Event::Scalar(text, _, _, _) => Some(text),
        Event::Comment(text, _) => Some(text),
        Event::Anchor(_, name) => Some(name),
        Event::UnresolvedAlias(name) => Some(name),
        _ => None,
    }
}

/// Writes a letter for each text of events: `l` where it is lent, `o` where it is owned.
fn push_letters(letters: &mut String, events: &[(Event<'_>, Span)]) -> Result<()> {
    for (event, _) in events {
        if let Some(text) = text_of(event) {
            letters.push(if text.is_borrowed() { 'l' } else { 'o' })?;
        }
    }
    Ok(())
}

/// What was read before.
trait Lends {
    /// Writes the letters of its texts.
    fn push(&self, letters: &mut String) -> Result<()>;
}

impl<'a> Lends for Result<Events<'a>, ScanError> {
    fn push(&self, letters: &mut String) -> Result<()> {
        match self {
            Ok(events) => push_letters(letters, events.as_slice()),
            Err(_) => None.context("read before"),
        }
    }
}

/// The same of what is let go here, which is cheap to prove in a generic function.
fn push_lending<T: Lends + Drop>(letters: &mut String, loaded: T) -> Result<()> {
    loaded.push(letters)
}

/// The words for a text that is read.
fn counted(alloc: Global, text: &str, lines: &str) -> Result<String> {
    let count = lines.lines().count();
    let mut words = format!(in alloc; "events {count} ")?;
    push_lending(&mut words, load_str(alloc, text, Options::default()))?;
    words.push('/')?;
    push_lending(
        &mut words,
        load_chars(alloc, text.chars(), Options::default()),
    )?;
    Ok(words)
}

/// The words for a text that ends so.
fn told(alloc: Global, text: &str, outcome: &Outcome) -> Result<String> {
    let lines = outcome.text(alloc)?;
    if outcome.code > 0 {
        return Ok(String::from_str(alloc, lines.trim_end())?);
    }
    counted(alloc, text, lines.as_str())
}

/// The same where the loads give the same.
fn compared(alloc: Global, text: &str, outcome: &Outcome) -> Result<String> {
    if characters_say(alloc, Options::default(), text, outcome)? {
        told(alloc, text, outcome)
    } else {
        Ok(String::from_str(alloc, "differs")?)
    }
}

/// The same of a text.
fn of_text(alloc: Global, text: &str) -> Result<String> {
    let outcome = answered(alloc, load_str(alloc, text, Options::default()))?;
    compared(alloc, text, &outcome)
}

/// How many events a text has and which of their texts are lent, read from a string and from its characters, or its
/// fault; `differs` where the loads don't give the same.
pub fn answer(alloc: Global, case: &str) -> Result<String> {
    let text = texts::string(alloc, case)?;
    of_text(alloc, text.as_str())
}
