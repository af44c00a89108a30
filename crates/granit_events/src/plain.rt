//! A source and a sink that never fail.
ghost use Rattle.std.specs.Prelude.{◌≡◌, ◌≤◌, drop, vec_len, Some};

use crate::ends::{ByteSource, Failed, Sink};
use crate::filling::fill;

/// Bytes in memory.
#[derive(Drop)]
pub struct PlainSource {
    bytes: Vec<u8>,
    position: usize,
    ghost within: { position ≤ vec_len bytes },
}

impl PlainSource {
    /// All these bytes are left.
    pub fn new(bytes: Vec<u8>) -> PlainSource
        ensures { ⟦<PlainSource as ByteSource>⟧.left result ≡ Some bytes.items }
    {
        PlainSource { bytes, position: 0 }
    }
}

impl ByteSource for PlainSource {
    ghost use Rattle.std.specs.Prelude.{drop, Some};
    ghost use Rattle.std.proofs.Common.{arith};

    ghost left = { λ s. Some (drop s.position s.bytes.items) };

    ghost faults = { λ _. 0 };

    ghost fits = { λ _. Prim.omega arith };

    fn read(&mut self, buf: &mut [u8]) -> Result<usize, Failed> {
        let rest = &self.bytes[self.position..];
        let count = fill(buf, rest, usize::MAX);
        self.position += count;
        Ok(count)
    }
}

/// It takes every byte, keeps none and tells none.
#[derive(Drop)]
pub struct PlainSink {}

impl PlainSink {
    /// Such a sink.
    pub fn new() -> PlainSink {
        PlainSink {}
    }
}

impl Sink for PlainSink {
    ghost use Rattle.std.specs.Prelude.{None};
    ghost use Rattle.std.proofs.Common.{arith};

    ghost written = { λ _. None };

    ghost faults = { λ _. 0 };

    ghost fits = { λ _. Prim.omega arith };

    fn write(&mut self, piece: &[u8]) -> Result<usize, Failed> {
        Ok(piece.len())
    }
}
