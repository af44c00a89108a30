//! How a run ends, in each way that a text is read.
use crate::lines::{push_events, push_fault, text_of};
use crate::options::options_of;
use anyhow::{Context, Result};
use granit_base::{OwnedText, TextList};
use granit_error::{ErrorKind, Options, ScanError};
use granit_events::{MemorySink, MemorySource, PlainSource, WriteSink, run};
use granit_load::{Events, load_chars, load_fallible};
use md5::{Digest, Md5};
use std::alloc::Global;

// Longer texts are run once, since each character would be kept as an item.
const LONGEST: usize = 1_000_000;

/// A status and what was written.
#[derive(Drop)]
pub struct Outcome {
    pub code: u8,
    written: Vec<u8>,
}

/// The digits of the digest of what was written.
fn push_digest(said: &mut String, written: &[u8]) -> Result<()> {
    for byte in Md5::digest(written) {
        write!(said, "{byte:02x}")?;
    }
    Ok(())
}

impl Outcome {
    /// Whether another ends the same.
    pub fn is(&self, other: &Outcome) -> bool {
        self.code == other.code && self.written.as_slice() == other.written.as_slice()
    }

    /// What was written.
    pub fn text(&self, alloc: Global) -> Result<String> {
        text_of(alloc, self.written.as_slice())
    }

    /// Writes the output where it is one line, else how many lines it has and their digest.
    fn push_written(&self, said: &mut String, text: &str) -> Result<()> {
        let count = text.lines().count();
        if count == 1 {
            said.push_str(text.trim_end())?;
            return Ok(());
        }
        write!(said, "{count} lines, ")?;
        push_digest(said, self.written.as_slice())
    }

    /// The same behind the status.
    pub fn said(&self, alloc: Global) -> Result<String> {
        let text = self.text(alloc)?;
        let mut said = format!(in alloc; "status {}: ", self.code)?;
        self.push_written(&mut said, text.as_str())?;
        Ok(said)
    }
}

/// The words of a case.
pub fn word_list(alloc: Global, line: &str) -> Result<TextList> {
    let mut words = TextList::new(alloc);
    for word in line.split_whitespace() {
        OwnedText::from_str(alloc, word)
            .and_then(|word| words.push(word))
            .ok()
            .context("no memory for a word")?;
    }
    Ok(words)
}

/// A run over all bytes at once.
pub fn whole(alloc: Global, words: &TextList, text: &str) -> Result<Outcome> {
    let mut source = PlainSource::new(Vec::from_slice(alloc, text.as_bytes())?);
    let mut written = Vec::new(alloc);
    let code = run(alloc, words, &mut source, &mut WriteSink::new(&mut written)).code();
    Ok(Outcome { code, written })
}

/// A run that reads and writes a byte a call, with room for so many.
fn bytewise(alloc: Global, words: &TextList, text: &str, room: usize) -> Result<Outcome> {
    let bytes = Vec::from_slice(alloc, text.as_bytes())?;
    let mut source = MemorySource::new(bytes, 1, Vec::new(alloc));
    let sink = MemorySink::new(alloc, room, 1, Vec::new(alloc)).ok();
    let mut sink = sink.context("no memory for a sink")?;
    let code = run(alloc, words, &mut source, &mut sink).code();
    Ok(Outcome {
        code,
        written: Vec::from_slice(alloc, sink.bytes())?,
    })
}

/// What a load answers.
pub trait Answer {
    /// Writes what the program says of it; its status.
    fn push(&self, alloc: Global, written: &mut Vec<u8>) -> Result<u8>;
}

impl<'a> Answer for Result<Events<'a>, ScanError> {
    fn push(&self, alloc: Global, written: &mut Vec<u8>) -> Result<u8> {
        match self {
            Err(error) => {
                push_fault(alloc, written, error)?;
                Ok(1)
            }
            Ok(events) => {
                push_events(written, events.as_slice())?;
                Ok(0)
            }
        }
    }
}

/// What the program says of an answer that is let go here, which is cheap to prove in a generic function.
pub fn answered<T: Answer + Drop>(alloc: Global, loaded: T) -> Result<Outcome> {
    let mut written = Vec::new(alloc);
    let code = loaded.push(alloc, &mut written)?;
    Ok(Outcome { code, written })
}

/// Whether an answer ends so.
fn ends_so<T: Answer + Drop>(alloc: Global, loaded: T, outcome: &Outcome) -> Result<bool> {
    let other = answered(alloc, loaded)?;
    Ok(other.is(outcome))
}

/// One more item.
fn push<T: Drop>(items: &mut Vec<T>, item: T) -> Result<()> {
    items.push(item)?;
    Ok(())
}

/// A text's characters as items of an iterator that may fail.
fn items(alloc: Global, text: &str) -> Result<Vec<Result<char, ErrorKind>>> {
    let mut items = Vec::new(alloc);
    for c in text.chars() {
        push(&mut items, Ok(c))?;
    }
    Ok(items)
}

/// Whether an iterator of the characters that may fail ends so.
fn items_say(alloc: Global, options: Options, text: &str, outcome: &Outcome) -> Result<bool> {
    let items = items(alloc, text)?.into_iter();
    ends_so(alloc, load_fallible(alloc, items, options), outcome)
}

/// Whether iterators of the characters end so.
pub fn characters_say(
    alloc: Global,
    options: Options,
    text: &str,
    outcome: &Outcome,
) -> Result<bool> {
    let of_characters = ends_so(alloc, load_chars(alloc, text.chars(), options), outcome)?;
    let of_items = items_say(alloc, options, text, outcome)?;
    Ok(of_characters && of_items)
}

/// Whether all other ways of reading a text end so.
fn others_say(
    alloc: Global,
    words: &str,
    list: &TextList,
    text: &str,
    outcome: &Outcome,
) -> Result<bool> {
    let same = bytewise(alloc, list, text, outcome.written.len())?.is(outcome);
    let agree = match options_of(words) {
        Some(options) if outcome.code < 2 => characters_say(alloc, options, text, outcome)?,
        _ => true,
    };
    Ok(same && agree)
}

/// How a text's run ends, where all ways of reading it end so.
pub fn agreed(alloc: Global, words: &str, text: &str) -> Result<Option<Outcome>> {
    let list = word_list(alloc, words)?;
    let outcome = whole(alloc, &list, text)?;
    if text.len() > LONGEST || others_say(alloc, words, &list, text, &outcome)? {
        Ok(Some(outcome))
    } else {
        Ok(None)
    }
}
