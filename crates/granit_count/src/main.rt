//! Counts the events of the YAML text on standard input, and prints how many, or the line of its fault. Its word
//! says how the text is read: one by one, without a word from the string, with `characters` from an iterator; or all
//! at once, with `load_str`, `load_chars` and `load_fallible`. With `tokens` it counts tokens, with `lexeme` the
//! characters of the lexeme that the text begins with, and with `nothing` the bytes.
#![tactic(auto)]

mod counting;
mod lexeme;

use anyhow::{Context, Result};
use counting::count;
use granit_error::{ErrorKind, Options, ScanError};
use granit_input::StrInput;
use granit_iterators::{characters, items};
use granit_load::{Events, load_chars, load_fallible, load_str};
use granit_parser::Parser;
use granit_scan::Scanner;
use lexeme::lexeme_length;
use std::alloc::Global;
use std::{env, io};

/// One more item. What is let go in a generic function is cheap to prove.
fn push<T: Drop>(list: &mut Vec<T>, item: T) -> Result<()> {
    list.push(item)?;
    Ok(())
}

/// A text's characters as items of an iterator that may fail.
fn item_list(alloc: Global, text: &str) -> Result<Vec<Result<char, ErrorKind>>> {
    let mut list = Vec::new(alloc);
    for c in text.chars() {
        push(&mut list, Ok(c))?;
    }
    Ok(list)
}

/// The line of a fault.
fn fault(alloc: Global, error: &ScanError) -> Result<String> {
    Ok(format!(in alloc; "fault {}: {error}", error.kind().number())?)
}

/// What is printed of an answer.
trait Said {
    /// A number, or the line of a fault.
    fn line(&self, alloc: Global) -> Result<String>;
}

impl Said for Result<u64, ScanError> {
    fn line(&self, alloc: Global) -> Result<String> {
        match self {
            Ok(count) => Ok(format!(in alloc; "{count}")?),
            Err(error) => fault(alloc, error),
        }
    }
}

impl<'a> Said for Result<Events<'a>, ScanError> {
    fn line(&self, alloc: Global) -> Result<String> {
        match self {
            Ok(events) => Ok(format!(in alloc; "{}", events.as_slice().len())?),
            Err(error) => fault(alloc, error),
        }
    }
}

/// What is printed of an answer that is let go here.
fn line<T: Said + Drop>(alloc: Global, answer: T) -> Result<String> {
    answer.line(alloc)
}

/// What is printed of a text that comes from an iterator of characters.
fn of_characters(alloc: Global, text: &str) -> Result<String> {
    match Parser::new_from_iter(alloc, characters(text)) {
        Ok(parser) => line(alloc, count(parser)),
        Err(_) => None.context("no memory to read ahead"),
    }
}

/// What is printed of all items of a text.
fn of_items(alloc: Global, text: &str) -> Result<String> {
    let list = items(item_list(alloc, text)?);
    line(alloc, load_fallible(alloc, list, Options::default()))
}

/// How many events, tokens, characters or bytes a text has as that word reads it, or the line of its fault.
fn counted(alloc: Global, word: &str, text: &str) -> Result<String> {
    let options = Options::default();
    match word {
        "characters" => of_characters(alloc, text),
        "load_str" => line(alloc, load_str(alloc, text, options)),
        "load_chars" => line(alloc, load_chars(alloc, characters(text), options)),
        "load_fallible" => of_items(alloc, text),
        "tokens" => line(alloc, count(Scanner::new(alloc, StrInput::new(text)))),
        "lexeme" => line(alloc, lexeme_length(alloc, text)),
        "nothing" => Ok(format!(in alloc; "{}", text.len())?),
        _ => line(alloc, count(Parser::new_from_str(alloc, text))),
    }
}

fn main(rt: HostRuntime) -> Result<()> {
    let alloc = rt.alloc();
    let text = io::read_to_string(alloc, rt.stdin())?;
    let word = env::args(&rt)?.nth(1).unwrap_or(String::new(alloc));
    let line = counted(alloc, word.as_str(), text.as_str())?;
    println!(rt; "{line}")?;
    Ok(())
}
