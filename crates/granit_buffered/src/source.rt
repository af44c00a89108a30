//! Iterators that may always be asked, and end.
ghost use Rattle.std.specs.Iterator.{IsFinite};

use std::str::Chars;
use std::vec::IntoIter;

/// An iterator that may always be asked, and ends.
// no field of a buffer could keep these conditions of its iterator, so they are laws of the iterator's type
pub trait Source: Iterator {
    ghost asked: { (s : Self) → Self.can_next s };

    ghost ends: { (s : Self) → IsFinite (Self.remaining s) };
}

impl<'a> Source for Chars<'a> {
    ghost use Rattle.std.proofs.Common.{rules};

    ghost asked = { Prim.search rules };

    ghost ends = { Prim.search rules };
}

impl<X: Drop> Source for IntoIter<X> {
    ghost use Rattle.std.proofs.Common.{rules};

    ghost asked = { Prim.search rules };

    ghost ends = { Prim.search rules };
}
