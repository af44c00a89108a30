//! Characters of which at most sixteen are read ahead.
ghost use Rattle.std.specs.Prelude.{◌≡◌, ℕ, ◌+◌, ◌-◌, ◌<◌, ◌≤◌, ◌^◌, List, [], ◌∷◌, ◌++◌, length, Option, None, false};
ghost use Rattle.std.specs.Prelude.{true, max, min, drop, IfOk, IsOk, OnOk, OnErr, MatchOption};
ghost use Rattle.std.specs.Iterator.{size};
ghost use Rattle.granit_base.specs.Place.{Unread, first};
ghost use Rattle.granit_error.specs.FaultKind.{FaultKind};
ghost use Rattle.granit_input.specs.Origin.{Goes};
ghost use Rattle.granit_input.specs.Looks.{ReadsNonBreakz};
ghost use Rattle.granit_base.specs.Written.{string_chars};
ghost use Rattle.granit_runs.specs.Chunks.{SkipsFront, FetchesFront, Extends, front_count_of};
ghost use Rattle.granit_runs.specs.Runs.{run_test};
ghost use Rattle.granit_runs.specs.Unread.{past_count};
ghost use Rattle.granit_runs.specs.White.{SkipsBlanks};
ghost use Rattle.granit_buffered.specs.Feeds.{GivesOnly, origin_of, Holds, LeftInFeed};
ghost use Rattle.granit_buffered.specs.Sure.{TakesOne, TakesSure, TellsAlone};
ghost use Rattle.granit_buffered.specs.declared.sure.Taker.TheVariants.{Sure};

use crate::fallible::FallibleFeed;
use crate::feed::Feed;
use crate::held::Held;
use crate::plain::PlainFeed;
use crate::source::Source;
use crate::sure::{Taker, found_with, surely_takes, takes, takes_before};
use granit_base::{NoMemory, is_breakz, push_char};
use granit_error::ErrorKind;
use granit_input::{BorrowedInput, Input, Run, SkipTabs, WhitespaceResult};
use std::alloc::Global;

/// The characters of an iterator.
pub type BufferedInput<T> = ReadAhead<PlainFeed<T>>;

/// The characters of an iterator that may fail. Its first error ends them, and is kept.
pub type FallibleBufferedInput<T> = ReadAhead<FallibleFeed<T>>;

/// Characters that come from a feed. At most sixteen are read ahead.
#[derive(Drop)]
pub struct ReadAhead<F: Feed> {
    held: Held,
    feed: F,
    window: usize,
    ghost few: { length held ≤ 16 },
    ghost looked: { window ≤ 16 },
    ghost ended: { length held < window → F.ended feed ≡ true },
    ghost bounded: { length held + F.bound feed < 2 ^ 63 },
}

impl<T: Source<Item = char>> ReadAhead<PlainFeed<T>> {
    /// All characters of an iterator.
    ///
    /// # Errors
    ///
    /// None: what is held stands in the input itself.
    pub fn new(_alloc: Global, input: T) -> Result<BufferedInput<T>, NoMemory>
        requires { size (T.remaining input) < 2 ^ 63 }
        ensures read { IfOk result (λ s. (xs : List ℕ) → GivesOnly T.next_gives T.remaining input xs
            → ⟦<ReadAhead<PlainFeed<T>> as Input>⟧.unread s (record { text = xs; offset = None; lends = false })) }
        ensures ends { IfOk result (λ s. (xs : List ℕ) → GivesOnly T.next_gives T.remaining input xs
            → (⟦<ReadAhead<PlainFeed<T>> as Input>⟧.origin s).ends_with None) }
        ensures few { IfOk result (λ s. (s.held ≡ []) × (s.feed.iterator ≡ input)) }
        ensures memory { IsOk result }
    {
        Ok(ReadAhead {
            held: Held::new(),
            feed: PlainFeed::new(input),
            window: 0,
        })
    }
}

impl<T: Source<Item = Result<char, ErrorKind>>> ReadAhead<FallibleFeed<T>> {
    ghost use Rattle.std.specs.Prelude.{Result};
    ghost use Rattle.granit_error.specs.declared.kind.ErrorKind.{ErrorKind};
    ghost use Rattle.granit_buffered.specs.Fallible.{characters_of, first_error};

    /// All characters of an iterator before its first error, with which they end.
    ///
    /// # Errors
    ///
    /// None: what is held stands in the input itself.
    pub fn new(_alloc: Global, input: T) -> Result<FallibleBufferedInput<T>, NoMemory>
        requires { size (T.remaining input) < 2 ^ 63 }
        ensures read { IfOk result (λ s. (items : List (Result ℕ ErrorKind))
            → GivesOnly T.next_gives T.remaining input items
            → ⟦<ReadAhead<FallibleFeed<T>> as Input>⟧.unread s
            (record { text = characters_of items; offset = None; lends = false })) }
        ensures ends { IfOk result (λ s. (items : List (Result ℕ ErrorKind))
            → GivesOnly T.next_gives T.remaining input items
            → (⟦<ReadAhead<FallibleFeed<T>> as Input>⟧.origin s).ends_with (first_error items)) }
        ensures fresh { IfOk result (λ s. (⟦<ReadAhead<FallibleFeed<T>> as Input>⟧.origin s).handed_out ≡ false) }
        ensures few { IfOk result (λ s. (s.held ≡ []) × (s.feed.iterator ≡ input)) }
        ensures memory { IsOk result }
    {
        Ok(ReadAhead {
            held: Held::new(),
            feed: FallibleFeed::new(input),
            window: 0,
        })
    }
}

impl<F: Feed> ReadAhead<F> {
    /// Reads ahead until so many characters are held, or the end comes.
    #[inline(never)]
    fn fill(&mut self, count: usize)
        requires { count ≤ 16 }
        ensures told { (xs : List ℕ) (fault : Option FaultKind)
            → Holds F.told self.old.feed self.old.held xs fault
            → Holds F.told self.new.feed self.new.held xs fault }
        ensures left { length self.new.held + F.bound self.new.feed
            ≤ length self.old.held + F.bound self.old.feed }
        ensures window { self.new.window ≡ self.old.window }
        ensures filled { length self.new.held < count → F.ended self.new.feed ≡ true }
        ensures few { length self.new.held ≤ max count (length self.old.held) }
        ensures stays { F.ended self.old.feed ≡ true → F.ended self.new.feed ≡ true }
        ensures goes { Goes (origin_of F.told F.ended F.error F.handed_out self.old.feed)
            (origin_of F.told F.ended F.error F.handed_out self.new.feed) }
    {
        let mut missing = count.saturating_sub(self.held.len());
        'fill: while missing > 0 {
            match self.feed.next_char() {
                Some(c) => self.held.push_back(c),
                None => return,
            }
            missing -= 1;
        }
    }

    /// Consumes the next character where a run takes it.
    #[inline(always)]
    fn take_one(&mut self, run: Run) -> Option<char>
        ensures read { (u : Unread) → LeftInFeed F.told self.old.feed self.old.held u
            → TakesOne run u result (λ v. LeftInFeed F.told self.new.feed self.new.held v) }
        ensures moves { (MatchOption result (length self.new.held + F.bound self.new.feed
            ≤ length self.old.held + F.bound self.old.feed)
            (λ c. length self.new.held + F.bound self.new.feed
            < length self.old.held + F.bound self.old.feed))
            × (MatchOption result (self.old.window ≤ self.new.window) (λ c. self.old.window ≤ self.new.window + 1))
            × Goes (origin_of F.told F.ended F.error F.handed_out self.old.feed)
            (origin_of F.told F.ended F.error F.handed_out self.new.feed) }
        ensures few { MatchOption result (length self.new.held ≤ max 2 (length self.old.held))
            (λ c. length self.new.held ≤ max 2 (length self.old.held) - 1) }
    {
        match self.take_sure(Taker::Sure(run)) {
            Some(c) => Some(c),
            None => self.take_asked(run),
        }
    }

    /// The same, with what follows it looked at where it doesn't say by itself that the run ends.
    #[inline(always)]
    fn take_asked(&mut self, run: Run) -> Option<char>
        ensures read { (u : Unread) → LeftInFeed F.told self.old.feed self.old.held u
            → (TellsAlone (Sure run) (first u.text) → run_test run u.text ≡ false)
            → TakesOne run u result (λ v. LeftInFeed F.told self.new.feed self.new.held v) }
        ensures moves { (MatchOption result (length self.new.held + F.bound self.new.feed
            ≤ length self.old.held + F.bound self.old.feed)
            (λ c. length self.new.held + F.bound self.new.feed
            < length self.old.held + F.bound self.old.feed))
            × (MatchOption result (self.old.window ≤ self.new.window) (λ c. self.old.window ≤ self.new.window + 1))
            × Goes (origin_of F.told F.ended F.error F.handed_out self.old.feed)
            (origin_of F.told F.ended F.error F.handed_out self.new.feed) }
        ensures few { MatchOption result (length self.new.held ≤ max 2 (length self.old.held))
            (λ c. length self.new.held ≤ max 2 (length self.old.held) - 1) }
    {
        self.lookahead(1);
        let c = self.peek();
        if c != ' ' && c != ':' {
            None
        } else if self.next_in(run) {
            self.skip();
            Some(c)
        } else {
            None
        }
    }

    /// Consumes the next character where it is taken whatever follows; else it stays, and is held.
    #[inline(always)]
    fn take_sure(&mut self, taker: Taker) -> Option<char>
        ensures read { (u : Unread) → LeftInFeed F.told self.old.feed self.old.held u
            → TakesSure taker u result (λ v. LeftInFeed F.told self.new.feed self.new.held v) }
        ensures moves { (MatchOption result (length self.new.held + F.bound self.new.feed
            ≤ length self.old.held + F.bound self.old.feed)
            (λ c. length self.new.held + F.bound self.new.feed
            < length self.old.held + F.bound self.old.feed))
            × (MatchOption result (self.old.window ≤ self.new.window) (λ c. self.old.window ≤ self.new.window + 1))
            × Goes (origin_of F.told F.ended F.error F.handed_out self.old.feed)
            (origin_of F.told F.ended F.error F.handed_out self.new.feed) }
        ensures few { MatchOption result (length self.new.held ≤ max 1 (length self.old.held))
            (λ c. length self.new.held ≤ length self.old.held - 1) }
    {
        if self.held.is_empty() {
            self.take_fed(taker)
        } else {
            self.take_held(taker)
        }
    }

    /// The same where none is held: straight from the feed.
    #[inline(always)]
    fn take_fed(&mut self, taker: Taker) -> Option<char>
        requires { self.old.held ≡ [] }
        ensures read { (u : Unread) → LeftInFeed F.told self.old.feed self.old.held u
            → TakesSure taker u result (λ v. LeftInFeed F.told self.new.feed self.new.held v) }
        ensures moves { (MatchOption result (length self.new.held + F.bound self.new.feed
            ≤ length self.old.held + F.bound self.old.feed)
            (λ c. length self.new.held + F.bound self.new.feed
            < length self.old.held + F.bound self.old.feed))
            × (MatchOption result (self.old.window ≤ self.new.window) (λ c. self.old.window ≤ self.new.window + 1))
            × Goes (origin_of F.told F.ended F.error F.handed_out self.old.feed)
            (origin_of F.told F.ended F.error F.handed_out self.new.feed) }
        ensures few { MatchOption result (length self.new.held ≤ max 1 (length self.old.held))
            (λ c. length self.new.held ≤ length self.old.held - 1) }
    {
        match self.feed.next_char() {
            Some(c) => {
                if takes(taker, c) {
                    return Some(c);
                }
                self.held.push_back(c);
                self.window = self.window.max(1);
                None
            }
            None => None,
        }
    }

    /// The same where one is held.
    #[inline(always)]
    fn take_held(&mut self, taker: Taker) -> Option<char>
        requires { 0 < length self.old.held }
        ensures read { (u : Unread) → LeftInFeed F.told self.old.feed self.old.held u
            → TakesSure taker u result (λ v. LeftInFeed F.told self.new.feed self.new.held v) }
        ensures moves { (MatchOption result (length self.new.held + F.bound self.new.feed
            ≤ length self.old.held + F.bound self.old.feed)
            (λ c. length self.new.held + F.bound self.new.feed
            < length self.old.held + F.bound self.old.feed))
            × (MatchOption result (self.old.window ≤ self.new.window) (λ c. self.old.window ≤ self.new.window + 1))
            × Goes (origin_of F.told F.ended F.error F.handed_out self.old.feed)
            (origin_of F.told F.ended F.error F.handed_out self.new.feed) }
        ensures few { MatchOption result (length self.new.held ≤ max 1 (length self.old.held))
            (λ c. length self.new.held ≤ length self.old.held - 1) }
    {
        let c = self.held.peek(0);
        if takes(taker, c) {
            self.skip();
            Some(c)
        } else {
            None
        }
    }

    /// Appends a character that was consumed. Where memory is wanting it is held again, in front of the others.
    #[inline(always)]
    fn append(&mut self, out: &mut String, c: char) -> Result<(), NoMemory>
        requires few { length self.old.held < 16 }
        requires bounded { length self.old.held + F.bound self.old.feed + 1 < 2 ^ 63 }
        ensures appended { OnOk result ((string_chars out.new ≡ string_chars out.old ++ c ∷ [])
            × (self.new.held ≡ self.old.held)) }
        ensures kept { OnErr result ((string_chars out.new ≡ string_chars out.old)
            × (self.new.held ≡ c ∷ self.old.held)) }
        ensures same { (self.new.feed ≡ self.old.feed) × (self.new.window ≡ self.old.window) }
    {
        if let Err(error) = push_char(out, c) {
            self.held.push_front(c);
            return Err(error);
        }
        Ok(())
    }
}

impl<F: Feed> Input for ReadAhead<F> {
    ghost use Rattle.std.specs.Prelude.{false};
    ghost use Rattle.granit_input.specs.Origin.{Goes};
    ghost use Rattle.granit_error.specs.FaultKind.{FaultKind};
    ghost use Rattle.granit_buffered.specs.Feeds.{LeftInFeed, origin_of};
    ghost use Rattle.granit_buffered.specs.BufferLaws.{buffer_agrees};
    ghost use Rattle.std.proofs.Common.{zero-le};

    ghost unread = { λ s u. LeftInFeed F.told s.feed s.held u };

    ghost left = { λ s. length s.held + F.bound s.feed };

    ghost window = { λ s. s.window };

    ghost origin = { λ s. origin_of F.told F.ended F.error F.handed_out s.feed };

    ghost short = { λ s. s.bounded };

    ghost floored = { λ s. zero-le };

    ghost fails = { λ s fault known ends. F.fails s.feed ends.0 fault known ends.1 };

    ghost agrees = { λ s u k. buffer_agrees (record {
      told = F.told;
      bound = F.bound;
      ended = F.ended;
      error = F.error;
      handed_out = F.handed_out;
      bounded = F.bounded;
      over = F.over;
    }) s.feed s.held u k };

    #[inline(always)]
    fn lookahead(&mut self, count: usize)
        ensures unread { (u : Unread) → LeftInFeed F.told self.old.feed self.old.held u
            → LeftInFeed F.told self.new.feed self.new.held u }
        ensures moves { (length self.new.held + F.bound self.new.feed
            ≤ length self.old.held + F.bound self.old.feed)
            × (max (min count 8) self.old.window ≤ self.new.window)
            × Goes (origin_of F.told F.ended F.error F.handed_out self.old.feed)
            (origin_of F.told F.ended F.error F.handed_out self.new.feed) }
        ensures window { self.new.window ≡ max self.old.window (min count 16) }
        ensures few { length self.new.held ≤ max (min count 16) (length self.old.held) }
    {
        let count = count.min(16);
        if self.window < count {
            self.fill(count);
            self.window = count;
        }
    }

    fn buflen(&self) -> usize {
        self.window
    }

    fn bufmaxlen(&self) -> usize
        ensures reach { 8 ≤ result }
        ensures value { result ≡ 16 }
    {
        16
    }

    fn raw_read_ch(&mut self) -> char
        ensures read { (u : Unread) → LeftInFeed F.told self.old.feed self.old.held u
            → LeftInFeed F.told self.new.feed self.new.held (past_count 1 u) × (result ≡ first u.text) }
        ensures moves { (length self.new.held + F.bound self.new.feed
            ≤ length self.old.held + F.bound self.old.feed - 1)
            × (self.old.window ≤ self.new.window + min 1 (length self.old.held + F.bound self.old.feed))
            × Goes (origin_of F.told F.ended F.error F.handed_out self.old.feed)
            (origin_of F.told F.ended F.error F.handed_out self.new.feed) }
        ensures few { length self.new.held ≤ length self.old.held - 1 }
    {
        self.lookahead(1);
        let c = self.peek();
        self.skip();
        c
    }

    fn raw_read_non_breakz_ch(&mut self) -> Option<char>
        ensures read { (u : Unread) → LeftInFeed F.told self.old.feed self.old.held u
            → ReadsNonBreakz u result (λ v. LeftInFeed F.told self.new.feed self.new.held v) }
        ensures moves { (MatchOption result (length self.new.held + F.bound self.new.feed
            ≤ length self.old.held + F.bound self.old.feed)
            (λ c. length self.new.held + F.bound self.new.feed
            < length self.old.held + F.bound self.old.feed))
            × (MatchOption result (self.old.window ≤ self.new.window) (λ c. self.old.window ≤ self.new.window + 1))
            × Goes (origin_of F.told F.ended F.error F.handed_out self.old.feed)
            (origin_of F.told F.ended F.error F.handed_out self.new.feed) }
        ensures few { MatchOption result (length self.new.held ≤ max 1 (length self.old.held))
            (λ c. length self.new.held ≤ length self.old.held - 1) }
    {
        self.lookahead(1);
        let c = self.peek();
        if is_breakz(c) {
            return None;
        }
        self.skip();
        Some(c)
    }

    #[inline(always)]
    fn skip(&mut self)
        ensures unread { (u : Unread) → LeftInFeed F.told self.old.feed self.old.held u
            → LeftInFeed F.told self.new.feed self.new.held (past_count 1 u) }
        ensures moves { (length self.new.held + F.bound self.new.feed
            ≤ length self.old.held + F.bound self.old.feed - 1)
            × (self.old.window ≤ self.new.window + min 1 (length self.old.held + F.bound self.old.feed))
            × Goes (origin_of F.told F.ended F.error F.handed_out self.old.feed)
            (origin_of F.told F.ended F.error F.handed_out self.new.feed) }
        ensures few { length self.new.held ≤ length self.old.held - 1 }
    {
        if self.held.is_empty() {
            self.feed.next_char();
            return;
        }
        self.held.pop_front();
        self.window = self.window.saturating_sub(1);
    }

    fn skip_n(&mut self, count: usize)
        ensures unread { (u : Unread) → LeftInFeed F.told self.old.feed self.old.held u
            → LeftInFeed F.told self.new.feed self.new.held (past_count count u) }
        ensures moves { (length self.new.held + F.bound self.new.feed
            ≤ length self.old.held + F.bound self.old.feed - count)
            × (self.old.window ≤ self.new.window + min count (length self.old.held + F.bound self.old.feed))
            × Goes (origin_of F.told F.ended F.error F.handed_out self.old.feed)
            (origin_of F.told F.ended F.error F.handed_out self.new.feed) }
        ensures few { length self.new.held ≤ length self.old.held - count }
    {
        let mut taken = 0;
        'taken: while taken < count {
            self.skip();
            taken += 1;
        }
    }

    #[inline(always)]
    fn next_in(&mut self, run: Run) -> bool
        ensures look { (u : Unread) → LeftInFeed F.told self.old.feed self.old.held u
            → LeftInFeed F.told self.new.feed self.new.held u × (result ≡ run_test run u.text) }
        ensures some { result ≡ true → 0 < length self.new.held + F.bound self.new.feed }
        ensures moves { (length self.new.held + F.bound self.new.feed
            ≤ length self.old.held + F.bound self.old.feed)
            × (max 1 self.old.window ≤ self.new.window)
            × Goes (origin_of F.told F.ended F.error F.handed_out self.old.feed)
            (origin_of F.told F.ended F.error F.handed_out self.new.feed) }
        ensures few { length self.new.held ≤ max 2 (length self.old.held) }
    {
        self.lookahead(1);
        let c = self.peek();
        if c != ' ' && c != ':' {
            return surely_takes(run, c);
        }
        self.lookahead(2);
        takes_before(run, self.peek(), self.peek_nth(1))
    }

    fn skip_run(&mut self, run: Run, limit: usize) -> (bool, usize)
        ensures skips { (u : Unread) → LeftInFeed F.told self.old.feed self.old.held u
            → SkipsFront (run_test run) u limit result (λ v. LeftInFeed F.told self.new.feed self.new.held v) }
        ensures few { result.0 ≡ false → limit ≤ result.1 }
        ensures limit { result.1 ≤ limit }
        ensures moves { (length self.new.held + F.bound self.new.feed + result.1
            ≤ length self.old.held + F.bound self.old.feed)
            × (self.old.window ≤ self.new.window + result.1)
            × Goes (origin_of F.told F.ended F.error F.handed_out self.old.feed)
            (origin_of F.told F.ended F.error F.handed_out self.new.feed) }
        ensures ahead { length self.new.held ≤ max 2 (length self.old.held) }
    {
        let mut count = 0;
        'run: while count < limit {
            match self.take_one(run) {
                Some(_) => count += 1,
                None => return (true, count),
            }
        }
        (false, count)
    }

    fn fetch_run(
        &mut self,
        out: &mut String,
        run: Run,
        limit: usize,
    ) -> Result<(bool, usize), NoMemory>
        ensures fetches { (u : Unread) → LeftInFeed F.told self.old.feed self.old.held u
            → FetchesFront (run_test run) u limit result (λ v. LeftInFeed F.told self.new.feed self.new.held v)
            (string_chars out.old) (string_chars out.new) }
        ensures kept { Extends (string_chars out.old) (string_chars out.new) }
        ensures few { IfOk result (λ r. r.0 ≡ false → limit ≤ r.1) }
        ensures limit { IfOk result (λ r. r.1 ≤ limit) }
        ensures moves { (length self.new.held + F.bound self.new.feed + front_count_of result
            ≤ length self.old.held + F.bound self.old.feed)
            × (IfOk result (λ r. self.old.window ≤ self.new.window + r.1))
            × Goes (origin_of F.told F.ended F.error F.handed_out self.old.feed)
            (origin_of F.told F.ended F.error F.handed_out self.new.feed) }
        ensures ahead { length self.new.held ≤ max 2 (length self.old.held) }
    {
        let mut count = 0;
        'run: while count < limit {
            match self.take_one(run) {
                Some(c) => self.append(out, c)?,
                None => return Ok((true, count)),
            }
            count += 1;
        }
        Ok((false, count))
    }

    fn skip_ws_to_eol_blanks(&mut self, skip_tabs: SkipTabs) -> (usize, WhitespaceResult)
        ensures skips { (u : Unread) → LeftInFeed F.told self.old.feed self.old.held u
            → SkipsBlanks skip_tabs u result (λ v. LeftInFeed F.told self.new.feed self.new.held v) }
        ensures moves { (length self.new.held + F.bound self.new.feed + result.0
            ≤ length self.old.held + F.bound self.old.feed)
            × (self.old.window ≤ self.new.window + result.0)
            × Goes (origin_of F.told F.ended F.error F.handed_out self.old.feed)
            (origin_of F.told F.ended F.error F.handed_out self.new.feed) }
        ensures ahead { length self.new.held ≤ max 1 (length self.old.held) }
    {
        let mut found = WhitespaceResult::new(false, false);
        let mut count = 0;
        'blanks: loop {
            match self.take_sure(Taker::Blanks(skip_tabs)) {
                Some(c) => found = found_with(found, c),
                None => return (count, found),
            }
            count += 1;
        }
    }

    #[inline(always)]
    fn peek(&self) -> char {
        self.peek_nth(0)
    }

    #[inline(always)]
    fn peek_nth(&self, n: usize) -> char {
        self.held.peek(n)
    }

    #[inline(always)]
    fn next_is_z(&self) -> bool {
        self.held.is_empty()
    }

    fn byte_offset(&self) -> Option<usize> {
        None
    }

    fn slice_bytes(&self, _start: usize, _end: usize) -> Option<&str> {
        None
    }

    fn take_source_error(&mut self) -> Option<ErrorKind> {
        self.feed.take_error()
    }
}

impl<'a, F: Feed> BorrowedInput<'a> for ReadAhead<F> {
    fn slice_borrowed(&self, _start: usize, _end: usize) -> Option<&'a str> {
        None
    }
}
