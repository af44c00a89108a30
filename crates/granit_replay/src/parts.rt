//! Small parts of a stack of parsers.
ghost use Rattle.std.specs.Prelude.{ℕ, []};
ghost use Rattle.granit_buffered.specs.Feeds.{GivesOnly};
ghost use Rattle.granit_replay.specs.declared.parts.NoChars.{NoChars};

use granit_base::OwnedText;
use granit_buffered::Source;
use std::iter::FusedIterator;

/// An iterator of characters that gives none.
#[derive(Clone, Copy, Debug, PartialEq, Eq)]
pub struct NoChars;

impl Iterator for NoChars {
    type Item = char;

    ghost use Rattle.std.specs.Prelude.{◌≡◌, None};
    ghost use Rattle.std.specs.Iterator.{at_most};

    ghost next_gives = { λ s r t. r ≡ None };

    ghost remaining = { λ s. at_most 0 };

    fn next(&mut self) -> Option<char> {
        None
    }
}

impl FusedIterator for NoChars {}

impl Source for NoChars {
    ghost use Rattle.std.proofs.Common.{rules};

    ghost asked = { Prim.search rules };

    ghost ends = { Prim.search rules };
}

/// What an input over no characters reads is the empty text.
pub fn no_chars_give_nothing()
    ensures { (s : NoChars)
        → GivesOnly ⟦<NoChars as Iterator>⟧.next_gives ⟦<NoChars as Iterator>⟧.remaining s [] }
{}

/// A parser that no memory was found for, and the name that it was to have.
#[derive(Debug, Drop)]
pub struct RefusedParser<P> {
    /// The parser, unchanged.
    pub parser: P,
    /// Its name.
    pub name: OwnedText,
}
