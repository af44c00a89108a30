//! The characters of an iterator, as a stream has them: at most 8 are read ahead, no offset is told, and the
//! end isn't known until it was asked for. One with another input to lend from tells where it stands, and has the
//! slices of that one.
ghost use Rattle.std.specs.Prelude.{◌≡◌, ℕ, ◌+◌, ◌-◌, ◌<◌, ◌≤◌, ◌^◌, List, [], ◌∷◌, ◌++◌, length, None, false, IfOk};
ghost use Rattle.std.specs.Prelude.{MatchOption, true};
ghost use Rattle.std.specs.Char.{IsScalar};
ghost use Rattle.std.specs.Iterator.{size};
ghost use Rattle.circular_buffer.specs.Buffer.{buffer};
ghost use Rattle.granit_base.specs.Place.{Unread, first};
ghost use Rattle.granit_stream.specs.Stream.{StreamHolds};
ghost use Rattle.granit_runs.specs.Unread.{past_count};
ghost use Rattle.granit_buffered.specs.Feeds.{GivesOnly, StillGives, still_left};

use circular_buffer::HeapCircularBuffer;
use granit_base::{NoMemory, is_breakz};
use granit_buffered::Source;
use granit_error::ErrorKind;
use granit_input::{BorrowedInput, Input};
use std::alloc::Global;

/// An iterator that is not asked again once it has ended.
#[derive(Drop)]
pub struct Tail<T: Source<Item = char>> {
    iterator: T,
    done: bool,
}

impl<T: Source<Item = char>> Tail<T> {
    #[tactic(auto, using(crate::proofs::StreamLemmas::rest_some, crate::proofs::StreamLemmas::rest_none))]
    fn next_char(&mut self) -> Option<char>
        ensures told { (xs : List ℕ) → StillGives T.next_gives T.remaining self.old.done self.old.iterator xs
            → MatchOption result (xs ≡ []) (λ c. (ys : List ℕ) × (xs ≡ c ∷ ys)
            × StillGives T.next_gives T.remaining self.new.done self.new.iterator ys) }
        ensures left { MatchOption result (self.new.done ≡ true)
            (λ c. still_left self.new.done (T.remaining self.new.iterator)
            < still_left self.old.done (T.remaining self.old.iterator)) }
        ensures done { self.old.done ≡ true → self.new ≡ self.old }
    {
        if self.done {
            return None;
        }
        match self.iterator.next() {
            Some(c) => Some(c),
            None => {
                self.done = true;
                None
            }
        }
    }
}

/// Characters of an iterator. A source that breaks off has an error, which is met at the end. Where there is a text to
/// lend, offsets are told, and nothing is known of what is left: that text may end in front of a place that is told.
#[derive(Drop)]
pub struct Stream<T: Source<Item = char>, L: Input> {
    held: HeapCircularBuffer<char>,
    tail: Tail<T>,
    breaks_off: bool,
    handed_out: bool,
    window: usize,
    lends: Option<L>,
    consumed: usize,
    ghost capacity: { held.capacity ≡ 8 },
    ghost few: { length held.items ≤ 8 },
    ghost looked: { window ≤ 8 },
    ghost ended: { length held.items < window → tail.done ≡ true },
    ghost bounded: { length held.items + still_left tail.done (T.remaining tail.iterator) < 2 ^ 63 },
}

/// Holds one more character.
fn hold(held: &mut HeapCircularBuffer<char>, c: char)
    requires { length held.old.items < held.old.capacity }
    ensures { held.new ≡ buffer (held.old.items ++ c ∷ []) held.old.capacity }
{
    held.push_back(c);
}

impl<T: Source<Item = char>, L: Input> Stream<T, L> {
    /// All of them.
    pub fn new(alloc: Global, iterator: T, breaks_off: bool) -> Result<Stream<T, L>, NoMemory>
        requires { size (T.remaining iterator) < 2 ^ 63 }
        ensures { IfOk result (λ s. (xs : List ℕ) → GivesOnly T.next_gives T.remaining iterator xs
            → ⟦<Stream<T, L> as Input>⟧.unread s (record { text = xs; offset = None; lends = false })) }
    {
        let held = HeapCircularBuffer::with_capacity(alloc, 8)?;
        Ok(Stream {
            held,
            tail: Tail {
                iterator,
                done: false,
            },
            breaks_off,
            handed_out: false,
            window: 0,
            lends: None,
            consumed: 0,
        })
    }

    /// The same, without an error, where slices are those of another input.
    pub fn lending(alloc: Global, iterator: T, lends: L) -> Result<Stream<T, L>, NoMemory>
        requires { size (T.remaining iterator) < 2 ^ 63 }
    {
        let mut stream = Stream::new(alloc, iterator, false)?;
        stream.lends = Some(lends);
        Ok(stream)
    }

    /// Reads ahead until so many characters are held, or the end comes.
    fn fill(&mut self, count: usize)
        requires { count ≤ 8 }
        ensures told { (xs : List ℕ)
            → StreamHolds T.next_gives T.remaining self.old.tail.done self.old.tail.iterator self.old.held.items xs
            → StreamHolds T.next_gives T.remaining self.new.tail.done self.new.tail.iterator self.new.held.items xs }
        ensures left { length self.new.held.items + still_left self.new.tail.done (T.remaining self.new.tail.iterator)
            ≤ length self.old.held.items + still_left self.old.tail.done (T.remaining self.old.tail.iterator) }
        ensures window { self.new.window ≡ self.old.window }
        ensures filled { length self.new.held.items < count → self.new.tail.done ≡ true }
        ensures kept { (self.new.breaks_off ≡ self.old.breaks_off) × (self.new.handed_out ≡ self.old.handed_out)
            × (self.new.lends ≡ self.old.lends) }
        ensures done { self.old.tail.done ≡ true → self.new.tail.done ≡ true }
    {
        'fill: while self.held.len() < count {
            match self.tail.next_char() {
                Some(c) => hold(&mut self.held, c),
                None => return,
            }
        }
    }
}

impl<T: Source<Item = char>, L: Input> Input for Stream<T, L> {
    ghost use Rattle.std.specs.Prelude.{false};
    ghost use Rattle.granit_input.specs.Origin.{Goes};
    ghost use Rattle.granit_stream.specs.Stream.{of_stream};
    ghost use Rattle.granit_stream.specs.StreamLaws.{stream_agrees, stream_fails};
    ghost use Rattle.std.proofs.Common.{zero-le};

    ghost unread = { λ s u. (s.lends ≡ None) × (u.offset ≡ None) × (u.lends ≡ false)
        × StreamHolds T.next_gives T.remaining s.tail.done s.tail.iterator s.held.items u.text };

    ghost left = { λ s. length s.held.items + still_left s.tail.done (T.remaining s.tail.iterator) };

    ghost window = { λ s. s.window };

    ghost origin = { λ s. of_stream s.tail.done s.breaks_off s.handed_out L.origin s.lends };

    ghost short = { λ s. s.bounded };

    ghost floored = { λ s. zero-le };

    ghost fails = { λ s f known is. stream_fails s.tail.done s.breaks_off f known is };

    ghost agrees = { λ s u k. stream_agrees T.next_gives T.remaining L.origin (record {
      iterator = s.tail.iterator;
      done = s.tail.done;
      front = s.held.items;
      breaks_off = s.breaks_off;
      handed_out = s.handed_out;
      lends = s.lends;
    }) u k };

    fn lookahead(&mut self, count: usize) {
        let count = count.min(8);
        self.fill(count);
        self.window = self.window.max(count);
    }

    fn buflen(&self) -> usize {
        self.window
    }

    fn bufmaxlen(&self) -> usize {
        8
    }

    fn raw_read_ch(&mut self) -> char {
        self.lookahead(1);
        let c = self.peek();
        self.skip();
        c
    }

    fn raw_read_non_breakz_ch(&mut self) -> Option<char> {
        self.lookahead(1);
        let c = self.peek();
        if is_breakz(c) {
            return None;
        }
        self.skip();
        Some(c)
    }

    fn skip(&mut self) {
        self.fill(1);
        if let Some(c) = self.held.pop_front() {
            self.window = self.window.saturating_sub(1);
            self.consumed = self.consumed.saturating_add(c.len_utf8());
        }
    }

    fn skip_n(&mut self, count: usize) {
        let mut taken = 0;
        'taken: while taken < count {
            self.skip();
            taken += 1;
        }
    }

    fn peek(&self) -> char {
        self.peek_nth(0)
    }

    #[tactic(auto, using(crate::proofs::StreamLemmas::rest_ended))]
    fn peek_nth(&self, n: usize) -> char {
        self.held.get(n).copied().unwrap_or('\0')
    }

    #[tactic(auto, using(crate::proofs::StreamLemmas::rest_ended))]
    fn next_is_z(&self) -> bool {
        self.held.is_empty()
    }

    fn byte_offset(&self) -> Option<usize> {
        match &self.lends {
            Some(_) => Some(self.consumed),
            None => None,
        }
    }

    fn slice_bytes(&self, start: usize, end: usize) -> Option<&str> {
        match &self.lends {
            Some(text) => text.slice_bytes(start, end),
            None => None,
        }
    }

    fn take_source_error(&mut self) -> Option<ErrorKind> {
        if self.handed_out || !(self.tail.done && self.breaks_off) {
            return None;
        }
        self.handed_out = true;
        Some(ErrorKind::UnexpectedEof)
    }
}

impl<'a, T: Source<Item = char>, L: BorrowedInput<'a>> BorrowedInput<'a> for Stream<T, L> {
    fn slice_borrowed(&self, start: usize, end: usize) -> Option<&'a str> {
        match &self.lends {
            Some(text) => text.slice_borrowed(start, end),
            None => None,
        }
    }
}
