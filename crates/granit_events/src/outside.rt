//! Readers and writers of std as a source and a sink.
ghost use Rattle.std.specs.Prelude.{◌≡◌, ◌^◌, ◌<◌, ◌≤◌, length, IfOk, OnOk, OnErr};
ghost use Rattle.std.specs.Io.{ReadsAtMost, WritesAtMost};
ghost use Rattle.std.specs.Io.KnownBytes.{ReadConsumes, WriteAppends};
ghost use Rattle.granit_base.specs.Counts.{next_count, Rose};

use crate::ends::{ByteSource, Failed, Sink};
use std::io::{Read, Write};

/// A reader of std. It tells its bytes where the reader does. A call that fails adds one to the
/// count of faults.
#[derive(Drop)]
pub struct ReadSource<R> {
    reader: R,
    faults: u64,
    ghost fits: { faults < 2 ^ 64 },
}

impl<R> ReadSource<R> {
    /// A source over a reader, with no fault so far.
    pub fn new(reader: R) -> ReadSource<R>
        ensures reader { result.reader ≡ reader }
        ensures faults { result.faults ≡ 0 }
    {
        ReadSource { reader, faults: 0 }
    }
}

impl<R: Read> ByteSource for ReadSource<R> {
    ghost use Rattle.std.proofs.Common.{arith};

    ghost left = { λ s. R.remaining s.reader };

    ghost faults = { λ s. s.faults };

    ghost fits = { λ s. let fits = s.fits in Prim.omega arith };

    fn read(&mut self, buf: &mut [u8]) -> Result<usize, Failed>
        ensures bound { ReadsAtMost result buf.new }
        ensures bytes { ReadConsumes (R.remaining self.old.reader) (R.remaining self.new.reader) result buf.new }
        ensures same { OnOk result (self.new.faults ≡ self.old.faults) }
        ensures failed { OnErr result (Rose self.old.faults self.new.faults) }
        ensures never_falls { self.old.faults ≤ self.new.faults }
        ensures counted { OnErr result (self.new.faults ≡ next_count self.old.faults) }
    {
        let faults = self.faults;
        match self.reader.read(buf) {
            Ok(count) => Ok(count),
            Err(_) => {
                self.faults = faults.saturating_add(1);
                Err(Failed)
            }
        }
    }
}

/// A writer of std. It tells its bytes where the writer does. A write that takes none of a piece is
/// a fault; a call that fails adds one to the count of faults.
#[derive(Drop)]
pub struct WriteSink<W> {
    writer: W,
    faults: u64,
    ghost fits: { faults < 2 ^ 64 },
}

impl<W> WriteSink<W> {
    /// A sink over a writer, with no fault so far.
    pub fn new(writer: W) -> WriteSink<W>
        ensures writer { result.writer ≡ writer }
        ensures faults { result.faults ≡ 0 }
    {
        WriteSink { writer, faults: 0 }
    }
}

impl<W: Write> Sink for WriteSink<W> {
    ghost use Rattle.std.proofs.Common.{arith};

    ghost written = { λ s. W.contents s.writer };

    ghost faults = { λ s. s.faults };

    ghost fits = { λ s. let fits = s.fits in Prim.omega arith };

    fn write(&mut self, piece: &[u8]) -> Result<usize, Failed>
        ensures bound { WritesAtMost result piece.now }
        ensures some { 0 < length piece.now → IfOk result (λ n. 0 < n) }
        ensures bytes { WriteAppends (W.contents self.old.writer) (W.contents self.new.writer) result piece.now }
        ensures same { OnOk result (self.new.faults ≡ self.old.faults) }
        ensures failed { OnErr result (Rose self.old.faults self.new.faults) }
        ensures never_falls { self.old.faults ≤ self.new.faults }
        ensures counted { OnErr result (self.new.faults ≡ next_count self.old.faults) }
    {
        let faults = self.faults;
        match self.writer.write(piece) {
            Ok(0) if !piece.is_empty() => {
                self.faults = faults.saturating_add(1);
                Err(Failed)
            }
            Ok(count) => Ok(count),
            Err(_) => {
                self.faults = faults.saturating_add(1);
                Err(Failed)
            }
        }
    }
}
