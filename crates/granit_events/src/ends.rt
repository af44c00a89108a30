//! Where bytes come from, and where they go.
ghost use Rattle.std.specs.Prelude.{◌≡◌, ℕ, ◌<◌, ◌≤◌, List, length, Option, IfOk, OnOk, OnErr};
ghost use Rattle.std.specs.Io.{ReadsAtMost, WritesAtMost};
ghost use Rattle.std.specs.Io.KnownBytes.{ReadConsumes, WriteAppends};
ghost use Rattle.granit_base.specs.Counts.{last_count, Rose};

/// A call to the outside failed.
#[derive(Clone, Copy, Debug, PartialEq, Eq)]
pub struct Failed;

/// Bytes to be read.
pub trait ByteSource {
    /// The bytes that are left, where the source tells them.
    ghost left: { Self → Option (List ℕ) };

    /// How many calls failed, held at `u64::MAX`.
    ghost faults: { Self → ℕ };

    /// Moves the next bytes to the front of the buffer, and answers how many. The answer 0 for a
    /// buffer that isn't empty is the end of the input.
    ///
    /// # Errors
    ///
    /// `Failed`, only where the count of faults rose; no byte has moved then.
    fn read(&mut self, buf: &mut [u8]) -> Result<usize, Failed>
        ensures bound { ReadsAtMost result buf.new }
        ensures bytes { ReadConsumes (left self.old) (left self.new) result buf.new }
        ensures same { OnOk result (faults self.new ≡ faults self.old) }
        ensures failed { OnErr result (Rose (faults self.old) (faults self.new)) }
        ensures never_falls { faults self.old ≤ faults self.new };

    /// The count is never above its last value.
    ghost fits: { (source : Self) → faults source ≤ last_count };
}

/// What takes bytes.
pub trait Sink {
    /// The bytes that were written, where the sink tells them.
    ghost written: { Self → Option (List ℕ) };

    /// How many calls failed, held at `u64::MAX`.
    ghost faults: { Self → ℕ };

    /// Takes bytes from the front of the piece, at least one where it has any, and answers how many.
    ///
    /// # Errors
    ///
    /// `Failed`, only where the count of faults rose; no byte was taken then.
    fn write(&mut self, piece: &[u8]) -> Result<usize, Failed>
        ensures bound { WritesAtMost result piece.now }
        ensures some { 0 < length piece.now → IfOk result (λ n. 0 < n) }
        ensures bytes { WriteAppends (written self.old) (written self.new) result piece.now }
        ensures same { OnOk result (faults self.new ≡ faults self.old) }
        ensures failed { OnErr result (Rose (faults self.old) (faults self.new)) }
        ensures never_falls { faults self.old ≤ faults self.new };

    /// The count is never above its last value.
    ghost fits: { (sink : Self) → faults sink ≤ last_count };
}
