//! What comes in: the words, and the bytes of a source where the words are right.
ghost use Rattle.std.specs.Prelude.{◌≡◌, ℕ, Err, IfOk, OnOk, OnErr};
ghost use Rattle.granit_base.specs.Counts.{Rose};
ghost use Rattle.granit_events.specs.Ended.{AreRight, AreWrongAt};
ghost use Rattle.granit_events.specs.Inputs.{TookInput};
ghost use Rattle.granit_events.specs.declared.input.InputEnd.TheVariants as ends;

use crate::ends::ByteSource;
use crate::reading::{ReadEnd, read_all};
use granit_base::TextList;
use granit_error::Options;
use granit_words::read_words;
use std::alloc::Global;

/// What came in.
#[derive(Debug, Drop)]
pub enum Request {
    /// The number of the first wrong or missing word; nothing was read.
    WrongWord(usize),
    /// One byte too many.
    TooLong,
    /// All bytes of the source, and how they are read.
    Whole(Vec<u8>, Options),
}

/// Why nothing came in.
#[derive(Clone, Copy, Debug, PartialEq, Eq)]
pub enum InputEnd {
    Failed,
    NoMemory,
}

/// What words and a source give.
pub fn take_input<S: ByteSource>(
    alloc: Global,
    words: &TextList,
    source: &mut S,
) -> Result<Request, InputEnd>
    ensures took { IfOk result (λ input. TookInput words.now (S.left source.old) (S.left source.new) input) }
    ensures same { OnOk result (S.faults source.new ≡ S.faults source.old) }
    ensures failed { result ≡ Err ends.Failed → Rose (S.faults source.old) (S.faults source.new) }
    ensures no_memory { result ≡ Err ends.NoMemory → S.faults source.new ≡ S.faults source.old }
    ensures words { OnErr result (AreRight words.now) }
    ensures unread { (k : ℕ) → AreWrongAt words.now k → source.new ≡ source.old }
{
    let options = match read_words(words) {
        Ok(options) => options,
        Err(number) => return Ok(Request::WrongWord(number)),
    };
    match read_all(alloc, source) {
        Ok(bytes) => Ok(Request::Whole(bytes, options)),
        Err(ReadEnd::TooLong) => Ok(Request::TooLong),
        Err(ReadEnd::Failed) => Err(InputEnd::Failed),
        Err(ReadEnd::NoMemory) => Err(InputEnd::NoMemory),
    }
}
