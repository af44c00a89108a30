//! Inputs whose text lies in a string that outlives them.
ghost use Rattle.granit_runs.specs.Cuts.{PartOf};

use crate::input::Input;

/// An input that may lend parts of its source.
pub trait BorrowedInput<'a>: Input {
    /// The part of the source from byte `start` to byte `end`; None where there is no source, or where
    /// these are no range between its characters.
    fn slice_borrowed(&self, start: usize, end: usize) -> Option<&'a str>
        ensures { PartOf (Self.origin self.now).lent start end result };
}
