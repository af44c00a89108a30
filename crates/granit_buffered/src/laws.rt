//! Iterators of which it is known what they give.
ghost use Rattle.std.specs.Prelude.{◌≡◌, true, length, IsSome};
ghost use Rattle.std.specs.Str.{chars, is_utf8};
ghost use Rattle.std.specs.Str.Iter.{chars_rest};
ghost use Rattle.std.specs.Vec.Iter.{into_iter_items, into_iter_len};
ghost use Rattle.granit_buffered.specs.Feeds.{GivesOnly};

use crate::buffered::ReadAhead;
use crate::fallible::FallibleFeed;
use crate::source::Source;
use granit_error::ErrorKind;
use granit_input::Input;
use std::str::Chars;
use std::vec::IntoIter;

/// The characters of a string are all that they give, in order.
pub fn a_string_gives_its_characters<'a>()
    ensures { (s : _) → is_utf8 (chars_rest s) ≡ true
        → GivesOnly ⟦<Chars<'a> as Iterator>⟧.next_gives ⟦<Chars<'a> as Iterator>⟧.remaining s (chars (chars_rest s)) }
{}

/// The items of a list are all that its iterator gives, in order.
pub fn a_list_gives_its_items<X: Drop>()
    ensures { (s : _) → into_iter_len s ≡ length (into_iter_items s)
        → GivesOnly ⟦<IntoIter<X> as Iterator>⟧.next_gives ⟦<IntoIter<X> as Iterator>⟧.remaining s (into_iter_items s) }
{}

/// Where an error was met, no character comes behind it.
pub fn an_error_is_the_end<T: Source<Item = Result<char, ErrorKind>>>()
    ensures { (s : _) → IsSome (⟦<ReadAhead<FallibleFeed<T>> as Input>⟧.origin s).error
        → (⟦<ReadAhead<FallibleFeed<T>> as Input>⟧.origin s).knows_end ≡ true }
{}
