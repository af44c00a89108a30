//! What no clause says: that the words come where there is memory, and the code of a run.
ghost use Rattle.std.specs.Prelude.{map, Some};
ghost use Rattle.std.specs.Io.{WritesAtMost};
ghost use Rattle.granit.specs.Words.{Fills};

use crate::arguments::{Arguments, words};
use crate::program::run_on_arguments;
use granit_base::{NoMemory, OwnedText, TextList};
use granit_events::{PlainSink, PlainSource};
use std::alloc::Global;
use std::env::FillError;
use std::process::ExitCode;

/// Arguments that are told.
#[derive(Drop)]
struct Told {
    list: Vec<Vec<u8>>,
}

impl Arguments for Told {
    ghost all = { λ t. Some (map (λ argument. argument.items) t.list.items) };

    fn fill(&self, i: usize, buffer: &mut [u8]) -> Result<usize, FillError> {
        match self.list.get(i) {
            None => Err(FillError::NotPresent),
            Some(argument) => copy(argument, buffer),
        }
    }
}

fn copy(argument: &[u8], buffer: &mut [u8]) -> Result<usize, FillError>
    ensures bound { WritesAtMost result buffer.new }
    ensures fills { Fills (Some argument.now) buffer.new result }
{
    let count = argument.len();
    if count > buffer.len() {
        return Err(FillError::TooLong);
    }
    buffer[..count].copy_from_slice(argument);
    Ok(count)
}

fn list_of(alloc: Global, list: &[&[u8]]) -> Result<Told, NoMemory> {
    let mut arguments = Vec::new(alloc);
    for argument in list {
        arguments.push(Vec::from_slice(alloc, argument)?)?;
    }
    Ok(Told { list: arguments })
}

fn texts(alloc: Global, list: &[&str]) -> Result<TextList, NoMemory> {
    let mut texts = TextList::new(alloc);
    for text in list {
        texts.push(OwnedText::from_str(alloc, text)?)?;
    }
    Ok(texts)
}

fn gives(alloc: Global, list: &[&[u8]], wanted: &[&str]) -> Result<bool, NoMemory> {
    let words = words(alloc, &list_of(alloc, list)?)?;
    Ok(words == texts(alloc, wanted)?)
}

/// The same; no for want of memory.
fn is_given(alloc: Global, list: &[&[u8]], wanted: &[&str]) -> bool {
    gives(alloc, list, wanted).unwrap_or(false)
}

/// Arguments, and the words that they give.
const WORDS: &[(&[&[u8]], &[&str])] = &[
    (&[], &[]),
    (&[b"granit"], &[]),
    (&[b"granit", b"events"], &["events"]),
    (&[b"", b"a\xff", b"b"], &["", "b"]),
];

/// How many rows stand before the first one whose words are others.
fn count_given(alloc: Global) -> usize {
    let mut count: usize = 0;
    for (list, wanted) in WORDS {
        if !is_given(alloc, list, wanted) {
            return count;
        }
        count = count.saturating_add(1);
    }
    count
}

#[test]
fn words_stand_behind_the_name(rt: HostRuntime) {
    let long = [b'x'; 600];
    let text = str::from_utf8(&long).unwrap_or("");
    let is_long_given = is_given(rt.alloc(), &[b"", &long, b""], &[text, ""]);
    assert_eq!(rt; (count_given(rt.alloc()), is_long_given), (4, true));
}

fn code(alloc: Global, list: &[&[u8]], bytes: &[u8]) -> Result<ExitCode, NoMemory> {
    let mut source = PlainSource::new(Vec::from_slice(alloc, bytes)?);
    let mut sink = PlainSink::new();
    Ok(run_on_arguments(alloc, &list_of(alloc, list)?, &mut source, &mut sink))
}

/// Whether a run ends so; no for want of memory.
fn ends(alloc: Global, list: &[&[u8]], bytes: &[u8], wanted: u8) -> bool {
    match code(alloc, list, bytes) {
        Ok(code) => code == ExitCode::from(wanted),
        Err(_) => false,
    }
}

/// Arguments, what is read, and the exit code.
const CODES: &[(&[&[u8]], &[u8], u8)] = &[
    (&[b"granit", b"events"], b"--- \"a\"\n", 0),
    (&[b"granit", b"events"], b"--- [\n", 1),
    (&[b"granit"], b"", 2),
    (&[b"granit", b"events"], b"\xff", 5),
    (&[b"granit", b"selftest", b"0", b"1"], b"\xff", 0),
    (&[b"granit", b"selftest", b"0"], b"", 2),
];

/// How many rows stand before the first one whose run ends otherwise.
fn count_ends(alloc: Global) -> usize {
    let mut count: usize = 0;
    for (list, bytes, wanted) in CODES {
        if !ends(alloc, list, bytes, *wanted) {
            return count;
        }
        count = count.saturating_add(1);
    }
    count
}

#[test]
fn the_exit_code_is_that_of_the_run(rt: HostRuntime) {
    assert_eq!(rt; count_ends(rt.alloc()), 6);
}
