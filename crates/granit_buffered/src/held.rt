//! Characters that were read ahead.
ghost use Rattle.std.specs.Prelude.{◌≡◌, ◌<◌, ◌==◌, [], ◌∷◌, ◌++◌, length, drop, slice_index};

use std::marker::Model;

/// Characters that were read ahead, the oldest first. They stand in the slots from `start` to `end`.
#[derive(Drop)]
pub(crate) struct Held {
    slots: [char; 32],
    start: usize,
    end: usize,
}

impl Model for Held {
    ghost use Rattle.std.specs.Prelude.{◌≡◌, ℕ, ◌≤◌, List, length, take, drop};

    ghost Value = { List ℕ };

    ghost view = { λ h. drop h.start (take h.end h.slots) };

    ghost invariant = { λ h. (length h.slots ≡ 32) × (h.start ≤ h.end) × (h.end ≤ 32) };
}

impl Held {
    /// None is held.
    pub(crate) fn new() -> Held
        ensures { result ≡ [] }
    {
        Held {
            slots: ['\0'; 32],
            start: 0,
            end: 0,
        }
    }

    /// How many are held.
    #[inline(always)]
    pub(crate) fn len(&self) -> usize
        ensures { result ≡ length self.now }
    {
        self.end - self.start
    }

    /// Whether none is held.
    #[inline(always)]
    pub(crate) fn is_empty(&self) -> bool
        ensures { result ≡ (length self.now == 0) }
    {
        self.start == self.end
    }

    /// What is held behind `n` others; NUL where nothing is.
    #[inline(always)]
    pub(crate) fn peek(&self, n: usize) -> char
        ensures value { result ≡ slice_index self.now n }
        ensures some { 0 < result → n < length self.now }
    {
        if n < self.len() {
            self.slots[self.start + n]
        } else {
            '\0'
        }
    }

    /// The oldest is no longer held.
    #[inline(always)]
    pub(crate) fn pop_front(&mut self)
        requires { 0 < length self.old }
        ensures { self.new ≡ drop 1 self.old }
    {
        self.start += 1;
    }

    /// Holds one more.
    #[inline(always)]
    pub(crate) fn push_back(&mut self, c: char)
        requires { length self.old < 16 }
        ensures { self.new ≡ self.old ++ c ∷ [] }
    {
        if self.end == 32 {
            self.push_back_moved(c);
            return;
        }
        self.slots[self.end] = c;
        self.end += 1;
    }

    /// The same where the last slot is taken: those that are held move to the first ones.
    #[inline(never)]
    fn push_back_moved(&mut self, c: char)
        requires { length self.old < 16 }
        ensures { self.new ≡ self.old ++ c ∷ [] }
    {
        let (start, end) = (self.start, self.end);
        self.slots.copy_within(start..end, 0);
        self.end -= start;
        self.start = 0;
        self.slots[self.end] = c;
        self.end += 1;
    }

    /// Holds one more in front of the others.
    #[inline(never)]
    pub(crate) fn push_front(&mut self, c: char)
        requires { length self.old < 16 }
        ensures { self.new ≡ c ∷ self.old }
    {
        let (start, end) = (self.start, self.end);
        self.slots.copy_within(start..end, 1);
        self.slots[0] = c;
        self.end = end - start + 1;
        self.start = 0;
    }
}
