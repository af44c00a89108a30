//! Where a buffer's characters come from.
ghost use Rattle.std.specs.Prelude.{◌≡◌, ℕ, ◌<◌, ◌≤◌, ◌||◌, Bool, true, List, [], ◌∷◌, length, Option, MatchOption};
ghost use Rattle.std.specs.Prelude.{is_some};
ghost use Rattle.std.specs.Option.{option_map};
ghost use Rattle.granit_error.specs.FaultKind.{FaultKind};
ghost use Rattle.granit_error.specs.Kinds.{kind_of};
ghost use Rattle.granit_input.specs.Origin.{Goes};
ghost use Rattle.granit_buffered.specs.Feeds.{of_feed, still_given};

use granit_error::ErrorKind;

/// Gives characters one at a time, until it has ended, maybe with an error.
pub trait Feed: Drop {
    /// These are known to be the characters that still come, and the error that they end with.
    ghost told: { Self → List ℕ → Option FaultKind → Type 0 };

    /// No more characters than this come.
    ghost bound: { Self → ℕ };

    /// Whether it has said that no more come.
    ghost ended: { Self → Bool };

    /// The error that it met.
    ghost error: { Self → Option FaultKind };

    /// Whether that error was handed out.
    ghost handed_out: { Self → Bool };

    /// The next character. Once there is none, nothing is asked again.
    fn next_char(&mut self) -> Option<char>
        ensures told { (xs : List ℕ) (fault : Option FaultKind) → told self.old xs fault
            → MatchOption result ((xs ≡ []) × told self.new [] fault)
            (λ c. (ys : List ℕ) × (xs ≡ c ∷ ys) × told self.new ys fault) }
        ensures bound { MatchOption result (ended self.new ≡ true) (λ c. bound self.new < bound self.old) }
        ensures stays { ended self.old ≡ true → ended self.new ≡ true }
        ensures goes { Goes (of_feed (ended self.old) (error self.old) (handed_out self.old))
            (of_feed (ended self.new) (error self.new) (handed_out self.new)) };

    /// The error that it met, once.
    fn take_error(&mut self) -> Option<ErrorKind>
        ensures given { option_map kind_of result ≡ still_given (handed_out self.old) (error self.old) }
        ensures told { (xs : List ℕ) (fault : Option FaultKind) → told self.old xs fault → told self.new xs fault }
        ensures kept { (bound self.new ≡ bound self.old) × (ended self.new ≡ ended self.old)
            × (error self.new ≡ error self.old) }
        ensures handed_out { handed_out self.new ≡ (handed_out self.old || is_some (error self.old)) };

    /// What is known to come is within the bound.
    ghost bounded: { (feed : Self) (xs : List ℕ) (fault : Option FaultKind) → told feed xs fault
        → length xs ≤ bound feed };

    /// Behind the end nothing comes.
    ghost over: { (feed : Self) → ended feed ≡ true → bound feed ≡ 0 };

    /// What it ended with is the error that it met.
    ghost fails: { (feed : Self) (xs : List ℕ) (fault : Option FaultKind) → ended feed ≡ true → told feed xs fault
        → fault ≡ error feed };
}
