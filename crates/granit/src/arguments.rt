//! The words of the program, taken from outside one by one.
ghost use Rattle.std.specs.Prelude.{◌≡◌, ℕ, List, slice_get, Option, IfOk, IfSome};
ghost use Rattle.std.specs.Io.{WritesAtMost};
ghost use Rattle.granit.specs.Words.{Fills, owned_word, texts, words_of};

use granit_base::{NoMemory, OwnedText, TextList};
use std::alloc::Global;
use std::env::FillError;
use std::rt::Env;

/// The arguments of a program, whose name is the first.
pub trait Arguments {
    /// The bytes of each, where they are told.
    ghost all: { Self → Option (List (List ℕ)) };

    /// Copies the argument behind `i` others to the front of the buffer, and answers its length.
    ///
    /// # Errors
    ///
    /// `NotPresent` past the last one; `TooLong` where it is longer than the buffer.
    fn fill(&self, i: usize, buffer: &mut [u8]) -> Result<usize, FillError>
        ensures bound { WritesAtMost result buffer.new }
        ensures fills { IfSome (all self.now) (λ list. Fills (slice_get list i) buffer.new result) };
}

/// The arguments of the process, of which std tells no contract what they are.
#[derive(Drop)]
pub struct ProcessArguments<'a, E> {
    env: &'a E,
}

impl<'a, E: Env> ProcessArguments<'a, E> {
    /// The arguments that the environment has.
    pub fn new(env: &'a E) -> ProcessArguments<'a, E> {
        ProcessArguments { env }
    }
}

impl<'a, E: Env> Arguments for ProcessArguments<'a, E> {
    ghost use Rattle.std.specs.Prelude.{None};

    ghost all = { λ _. None };

    fn fill(&self, i: usize, buffer: &mut [u8]) -> Result<usize, FillError> {
        self.env.arg(i, buffer)
    }
}

/// The word of those bytes, which is empty where they aren't UTF-8.
fn word(alloc: Global, bytes: &[u8]) -> Result<OwnedText, NoMemory>
    ensures { IfOk result (λ text. text ≡ owned_word bytes.now) }
{
    match str::from_utf8(bytes) {
        Ok(text) => Ok(OwnedText::new(String::from_str(alloc, text)?)),
        Err(_) => Ok(OwnedText::new(String::new(alloc))),
    }
}

/// The argument behind `i` others, or `None` past the last.
fn argument<A: Arguments>(
    alloc: Global,
    arguments: &A,
    i: usize,
) -> Result<Option<OwnedText>, NoMemory>
    ensures { IfOk result (λ text. IfSome (A.all arguments.now) (λ list. text ≡ slice_get (texts list) i)) }
{
    let mut capacity = 256usize;
    for _ in 0..usize::BITS {
        let mut buffer = vec![in alloc; 0u8; capacity]?;
        match arguments.fill(i, &mut buffer) {
            Ok(count) => return Ok(Some(word(alloc, &buffer[..count])?)),
            Err(FillError::NotPresent) => return Ok(None),
            Err(FillError::TooLong) => capacity = capacity.saturating_mul(2),
        }
    }
    Err(NoMemory)
}

/// The words: the arguments behind the program's name.
///
/// # Errors
///
/// `NoMemory` alone.
pub fn words<A: Arguments>(alloc: Global, arguments: &A) -> Result<TextList, NoMemory>
    ensures { IfOk result (λ list. IfSome (A.all arguments.now) (λ all. list ≡ words_of all)) }
{
    let mut list = TextList::new(alloc);
    for i in 1..usize::MAX {
        match argument(alloc, arguments, i)? {
            Some(text) => list.push(text)?,
            None => return Ok(list),
        }
    }
    Err(NoMemory)
}
