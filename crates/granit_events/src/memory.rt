//! A source and a sink in memory, whose calls fail where they are told to.
ghost use Rattle.std.specs.Prelude.{◌≡◌, ◌+◌, ◌-◌, ◌<◌, ◌≤◌, ◌==◌, ◌&&◌, ◌||◌, not, min, Some, [], length, is_ok, IfOk};
ghost use Rattle.std.specs.Prelude.{OnOk, OnErr, MatchResult};
ghost use Rattle.std.specs.Io.{ReadsAtMost, WritesAtMost};
ghost use Rattle.std.specs.Io.KnownBytes.{ReadConsumes, WriteAppends};
ghost use Rattle.granit_base.specs.Counts.{next_count, Rose};
ghost use Rattle.granit_events.specs.Counts.{held_count};
ghost use Rattle.granit_events.specs.Memory.{call_fails};

use crate::ends::{ByteSource, Failed, Sink};
use crate::filling::fill;
use granit_base::NoMemory;
use std::alloc::Global;
use std::marker::Model;

/// Bytes in memory, a position among them, and the numbers of the calls that fail. A failed call
/// adds one to the count of faults.
#[derive(Drop)]
pub struct MemorySource {
    bytes: Vec<u8>,
    position: usize,
    most: usize,
    failing: Vec<usize>,
    calls: usize,
    faults: u64,
}

impl Model for MemorySource {
    ghost use Rattle.std.specs.Prelude.{drop, ◌≤◌, ◌<◌, vec_len};
    ghost use Rattle.granit_events.specs.Memory.{MemoryIn};

    ghost Value = { MemoryIn };

    ghost view = { λ s. record {
      left = drop s.position s.bytes.items;
      most = s.most;
      failing = s.failing.items;
      calls =
          s.calls;
      faults = s.faults;
    } };

    ghost invariant = { λ s. (s.position ≤ vec_len s.bytes) × (0 < s.most) };
}

impl MemorySource {
    /// All these bytes are left. A call moves at most `most` of them; the calls whose numbers, from
    /// 1 and held at `usize::MAX`, are in `failing` fail.
    pub fn new(bytes: Vec<u8>, most: usize, failing: Vec<usize>) -> MemorySource
        requires { 0 < most }
        ensures { result ≡ record { left = bytes.items; most = most; failing = failing.items; calls = 0; faults = 0 } }
    {
        MemorySource {
            bytes,
            position: 0,
            most,
            failing,
            calls: 0,
            faults: 0,
        }
    }
}

impl ByteSource for MemorySource {
    ghost use Rattle.std.specs.Prelude.{Some};
    ghost use Rattle.std.proofs.Common.{arith};
    ghost use Rattle.granit_events.specs.Counts.{held_count};

    ghost left = { λ s. Some s.left };

    ghost faults = { λ s. held_count s.faults };

    ghost fits = { λ s. Prim.omega arith };

    fn read(&mut self, buf: &mut [u8]) -> Result<usize, Failed>
        ensures bound { ReadsAtMost result buf.new }
        ensures bytes { ReadConsumes (Some self.old.left) (Some self.new.left) result buf.new }
        ensures same { OnOk result (held_count self.new.faults ≡ held_count self.old.faults) }
        ensures failed { OnErr result (Rose (held_count self.old.faults) (held_count self.new.faults)) }
        ensures never_falls { held_count self.old.faults ≤ held_count self.new.faults }
        ensures counted { MatchResult result (λ _. self.new.faults ≡ self.old.faults)
            (λ _. self.new.faults ≡ next_count self.old.faults) }
        ensures calls { self.new.calls ≡ next_count self.old.calls }
        ensures fails { is_ok result ≡ not (call_fails self.new.calls self.old.failing) }
        ensures count { IfOk result (λ n. n ≡ min (min (length self.old.left) self.old.most) (length buf.new)) }
        ensures kept { (self.new.most ≡ self.old.most) × (self.new.failing ≡ self.old.failing) }
    {
        self.calls = self.calls.saturating_add(1);
        if self.failing.contains(&self.calls) {
            self.faults = self.faults.saturating_add(1);
            return Err(Failed);
        }
        let rest = &self.bytes[self.position..];
        let count = fill(buf, rest, self.most);
        self.position += count;
        Ok(count)
    }
}

/// What was written, in memory that never grows, and the numbers of the calls that fail. A failed
/// call adds one to the count of faults.
#[derive(Drop)]
pub struct MemorySink {
    bytes: Vec<u8>,
    room: usize,
    most: usize,
    failing: Vec<usize>,
    calls: usize,
    faults: u64,
}

impl Model for MemorySink {
    ghost use Rattle.std.specs.Prelude.{◌≤◌, ◌<◌, vec_len, vec_capacity};
    ghost use Rattle.granit_events.specs.Memory.{MemoryOut};

    ghost Value = { MemoryOut };

    ghost view = { λ s. record {
      written = s.bytes.items;
      room = s.room;
      most = s.most;
      failing = s.failing.items;
      calls = s.calls;
      faults = s.faults;
    } };

    ghost invariant = { λ s. (vec_len s.bytes ≤ s.room) × (s.room ≤ vec_capacity s.bytes) × (0 < s.most) };
}

impl MemorySink {
    /// Nothing is written yet, and there is room for `room` bytes. A call takes at most `most` of
    /// them; the calls whose numbers, from 1 and held at `usize::MAX`, are in `failing` fail.
    ///
    /// # Errors
    ///
    /// `NoMemory` alone, where there are no `room` bytes.
    pub fn new(
        alloc: Global,
        room: usize,
        most: usize,
        failing: Vec<usize>,
    ) -> Result<MemorySink, NoMemory>
        requires { 0 < most }
        ensures { IfOk result (λ s. s ≡ record {
          written = [];
          room = room;
          most = most;
          failing = failing.items;
          calls = 0;
          faults = 0;
        }) }
    {
        Ok(MemorySink {
            bytes: Vec::with_capacity(alloc, room)?,
            room,
            most,
            failing,
            calls: 0,
            faults: 0,
        })
    }

    /// What was written.
    pub fn bytes(&self) -> &[u8]
        ensures { result.now ≡ self.now.written }
    {
        self.bytes.as_slice()
    }
}

impl Sink for MemorySink {
    ghost use Rattle.std.specs.Prelude.{Some};
    ghost use Rattle.std.proofs.Common.{arith};
    ghost use Rattle.granit_events.specs.Counts.{held_count};

    ghost written = { λ s. Some s.written };

    ghost faults = { λ s. held_count s.faults };

    ghost fits = { λ s. Prim.omega arith };

    fn write(&mut self, piece: &[u8]) -> Result<usize, Failed>
        ensures bound { WritesAtMost result piece.now }
        ensures some { 0 < length piece.now → IfOk result (λ n. 0 < n) }
        ensures bytes { WriteAppends (Some self.old.written) (Some self.new.written) result piece.now }
        ensures same { OnOk result (held_count self.new.faults ≡ held_count self.old.faults) }
        ensures failed { OnErr result (Rose (held_count self.old.faults) (held_count self.new.faults)) }
        ensures never_falls { held_count self.old.faults ≤ held_count self.new.faults }
        ensures counted { MatchResult result (λ _. self.new.faults ≡ self.old.faults)
            (λ _. self.new.faults ≡ next_count self.old.faults) }
        ensures calls { self.new.calls ≡ next_count self.old.calls }
        ensures fails { is_ok result ≡ not (call_fails self.new.calls self.old.failing
            || (not (length piece.now == 0) && length self.old.written == self.old.room)) }
        ensures count { IfOk result (λ n. n ≡ min (min (length piece.now) self.old.most)
            (self.old.room - length self.old.written)) }
        ensures kept { (self.new.room ≡ self.old.room) × (self.new.most ≡ self.old.most)
            × (self.new.failing ≡ self.old.failing) }
    {
        self.calls = self.calls.saturating_add(1);
        let free = self.room - self.bytes.len();
        let count = piece.len().min(self.most).min(free);
        let is_full = free == 0 && !piece.is_empty();
        if self.failing.contains(&self.calls)
            || is_full
            || self.bytes.extend_from_slice(&piece[..count]).is_err()
        {
            self.faults = self.faults.saturating_add(1);
            return Err(Failed);
        }
        Ok(count)
    }
}
