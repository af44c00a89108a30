//! Who finds the text of an include by its name.
ghost use Rattle.std.specs.Prelude.{◌≡◌, ℕ, ◌≤◌, List, Result, Err, OnOk, OnErr, ⊤};
ghost use Rattle.std.specs.Str.{chars};
ghost use Rattle.granit_base.specs.Counts.{last_count, Rose};
ghost use Rattle.granit_error.specs.Refused.{Refused};
ghost use Rattle.granit_replay.specs.Resolving.{missing_resolver};
ghost use Rattle.granit_replay.specs.declared.resolver.Included.{Included};

use granit_base::Marker;
use granit_error::{ErrorKind, ScanError};
use std::alloc::Global;

/// The text of an include.
#[derive(Debug, Drop)]
pub enum Included<'input> {
    /// A text of its own.
    Owned(String),
    /// A text that is lent.
    Borrowed(&'input str),
}

/// Finds the text of an include by its name.
pub trait Resolver<'input> {
    /// It may be asked, now and behind each answer.
    ghost ready: { Self → Type 0 } = { λ _. ⊤ };

    /// What it may answer for a name of these characters, and what it then is.
    ghost answers: { Self → List ℕ → Result Included Refused → Self → Type 0 };

    /// How many errors it answered, held at `u64::MAX`, where it stays if the resolver doesn't count them.
    ghost errors: { Self → ℕ } = { λ _. last_count };

    /// The text that a name stands for.
    ///
    /// # Errors
    ///
    /// The resolver's own, only where their count rose.
    fn resolve(&mut self, alloc: Global, name: &str) -> Result<Included<'input>, ScanError>
        requires { ready self.old }
        ensures again { ready self.new }
        ensures answers { answers self.old (chars name.now) result self.new }
        ensures same { OnOk result (errors self.new ≡ errors self.old) }
        ensures failed { OnErr result (Rose (errors self.old) (errors self.new)) }
        ensures never_falls { errors self.old ≤ errors self.new };
}

/// No includes are found.
#[derive(Clone, Copy, Debug, PartialEq, Eq)]
pub struct NoResolver;

impl<'input> Resolver<'input> for NoResolver {
    ghost answers = { λ s name answer t. answer ≡ Err missing_resolver };

    fn resolve(&mut self, _alloc: Global, _name: &str) -> Result<Included<'input>, ScanError> {
        let start = Marker::new(0, 1, 0);
        Err(ScanError::from_kind(start, ErrorKind::MissingIncludeResolver))
    }
}

/// Includes are found by a closure, which may always be called.
#[derive(Drop)]
pub struct FnResolver<F> {
    closure: F,
    // How many errors it answered.
    errors: u64,
}

impl<'input, F: FnMut(Global, &str) -> Result<Included<'input>, ScanError>> FnResolver<F> {
    /// Includes are found by that closure, which has answered no error yet.
    pub fn new(f: F) -> FnResolver<F>
        requires { F.IsAlwaysCallable f }
        ensures { result ≡ record { closure = f; errors = 0 } }
    {
        FnResolver {
            closure: f,
            errors: 0,
        }
    }
}

impl<'input, F: FnMut(Global, &str) -> Result<Included<'input>, ScanError>> Resolver<'input>
    for FnResolver<F> {
    ghost use Rattle.granit_replay.specs.Resolving.{ClosureAnswers};

    ghost ready = { λ s. F.IsAlwaysCallable s.closure };

    ghost answers = { λ s name answer t. ClosureAnswers F.FnMut s.closure name answer t.closure };

    ghost errors = { λ s. s.errors };

    fn resolve(&mut self, alloc: Global, name: &str) -> Result<Included<'input>, ScanError> {
        let answer = (self.closure)(alloc, name);
        if answer.is_err() {
            self.errors = self.errors.saturating_add(1);
        }
        answer
    }
}
