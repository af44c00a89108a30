//! The characters of an iterator.
ghost use Rattle.std.specs.Prelude.{◌≡◌, ℕ, List, [], None, false};
ghost use Rattle.granit_buffered.specs.Feeds.{StillGives, still_left};

use crate::feed::Feed;
use crate::source::Source;
use granit_error::ErrorKind;

/// An iterator of characters that is not asked again once it has ended.
#[derive(Drop)]
pub struct PlainFeed<T: Source<Item = char>> {
    iterator: T,
    done: bool,
}

impl<T: Source<Item = char>> PlainFeed<T> {
    /// All of them.
    pub(crate) fn new(iterator: T) -> PlainFeed<T>
        ensures { (result.iterator ≡ iterator) × (result.done ≡ false) }
    {
        PlainFeed {
            iterator,
            done: false,
        }
    }
}

impl<T: Source<Item = char>> Feed for PlainFeed<T> {
    ghost use Rattle.granit_buffered.specs.FeedLaws.{given_within, none_left};

    ghost told = { λ s xs fault. (fault ≡ None) × StillGives T.next_gives T.remaining s.done s.iterator xs };

    ghost bound = { λ s. still_left s.done (T.remaining s.iterator) };

    ghost ended = { λ s. s.done };

    ghost error = { λ s. None };

    ghost handed_out = { λ s. false };

    ghost bounded = { λ s xs fault k. given_within T.next_gives T.remaining s.done s.iterator xs k.1 };

    ghost over = { λ s ended. none_left s.done (T.remaining s.iterator) ended };

    ghost fails = { λ s xs fault ended k. k.0 };

    #[tactic(auto, using(crate::proofs::FeedLemmas::rest_some, crate::proofs::FeedLemmas::rest_none))]
    #[inline(always)]
    fn next_char(&mut self) -> Option<char> {
        if self.done {
            return None;
        }
        match self.iterator.next() {
            Some(c) => Some(c),
            None => {
                self.done = true;
                None
            }
        }
    }

    fn take_error(&mut self) -> Option<ErrorKind> {
        None
    }
}
