//! The whole input.
ghost use Rattle.std.specs.Prelude.{◌≡◌, ℕ, List, Err, IfOk, OnOk};
ghost use Rattle.granit_base.specs.Counts.{Rose};
ghost use Rattle.granit_events.specs.Came.{CameWhole, CameTooMany};
ghost use Rattle.granit_events.specs.declared.reading.ReadEnd.TheVariants as ends;

use crate::ends::{ByteSource, Failed};
use std::alloc::{AllocError, Global};

/// Why an input was not read to its end.
#[derive(Clone, Copy, Debug, PartialEq, Eq)]
pub enum ReadEnd {
    Failed,
    TooLong,
    NoMemory,
}

impl From<Failed> for ReadEnd {
    ghost from_gives = { λ _ e. e ≡ ends.Failed };

    fn from(_: Failed) -> ReadEnd {
        ReadEnd::Failed
    }
}

impl From<AllocError> for ReadEnd {
    ghost from_gives = { λ _ e. e ≡ ends.NoMemory };

    fn from(_: AllocError) -> ReadEnd {
        ReadEnd::NoMemory
    }
}

/// The most bytes that an input may have.
pub const MOST: usize = 67_108_864;

/// What is read at once: little of the stack, and so much is copied by moves of whole vectors.
const PIECE: usize = 2_048;

/// All that a source has left. Where that is more than `MOST` bytes, `MOST + 1` are taken.
pub fn read_all<S: ByteSource>(alloc: Global, source: &mut S) -> Result<Vec<u8>, ReadEnd>
    ensures whole { IfOk result (λ v. CameWhole (S.left source.old) (S.left source.new) v.items) }
    ensures same { OnOk result (S.faults source.new ≡ S.faults source.old) }
    ensures failed { result ≡ Err ends.Failed → Rose (S.faults source.old) (S.faults source.new) }
    ensures too_long { result ≡ Err ends.TooLong
        → (bytes : List ℕ) × CameTooMany (S.left source.old) (S.left source.new) bytes }
    ensures too_long_same { result ≡ Err ends.TooLong → S.faults source.new ≡ S.faults source.old }
    ensures no_memory_same { result ≡ Err ends.NoMemory → S.faults source.new ≡ S.faults source.old }
{
    let mut bytes = Vec::new(alloc);
    let mut chunk = [0u8; PIECE];
    'chunks: while bytes.len() <= MOST {
        let room = (MOST + 1 - bytes.len()).min(PIECE);
        let piece = &mut chunk[..room];
        let count = source.read(piece)?;
        if count == 0 {
            return Ok(bytes);
        }
        bytes.extend_from_slice(&piece[..count])?;
    }
    Err(ReadEnd::TooLong)
}
