//! The characters of an iterator that may fail.
ghost use Rattle.std.specs.Prelude.{◌≡◌, ◌||◌, is_some, true};
ghost use Rattle.std.specs.Option.{option_map};
ghost use Rattle.granit_error.specs.Kinds.{kind_of};
ghost use Rattle.granit_buffered.specs.Feeds.{still_given};

use crate::feed::Feed;
use crate::source::Source;
use granit_error::ErrorKind;
use std::snapshot::Snapshot;

/// How far an iterator that may fail has come.
#[derive(Drop)]
pub(crate) enum Progress {
    /// It may give more.
    Going,
    /// It gave its last item.
    Ended,
    /// It failed, and its error is kept.
    Failed(ErrorKind),
    /// It failed, and its error was handed out.
    HandedOut(Snapshot<ErrorKind>),
}

impl Progress {
    ghost use Rattle.granit_buffered.specs.Fallible.{progress_ended, was_handed_out, error_of};

    /// Whether it has ended, or failed.
    fn has_ended(&self) -> bool
        ensures { result ≡ progress_ended self.now }
    {
        !matches!(self, Progress::Going)
    }

    /// The error, if it wasn't handed out.
    fn take(&mut self) -> Option<ErrorKind>
        ensures given { option_map kind_of result ≡ still_given (was_handed_out self.old) (error_of self.old) }
        ensures kept { (progress_ended self.new ≡ progress_ended self.old) × (error_of self.new ≡ error_of self.old) }
        ensures handed_out { was_handed_out self.new ≡ (was_handed_out self.old || is_some (error_of self.old)) }
    {
        match std::mem::replace(self, Progress::Ended) {
            Progress::Failed(kind) => {
                *self = Progress::HandedOut(Snapshot::of(&kind));
                Some(kind)
            }
            other => {
                *self = other;
                None
            }
        }
    }
}

/// An iterator of characters that is not asked again once it has ended or failed. Its first error is kept.
#[derive(Drop)]
pub struct FallibleFeed<T: Source<Item = Result<char, ErrorKind>>> {
    iterator: T,
    progress: Progress,
}

impl<T: Source<Item = Result<char, ErrorKind>>> FallibleFeed<T> {
    ghost use Rattle.granit_buffered.specs.declared.fallible.Progress.TheVariants.{Going};

    /// All of them.
    pub(crate) fn new(iterator: T) -> FallibleFeed<T>
        ensures { (result.iterator ≡ iterator) × (result.progress ≡ Going) }
    {
        FallibleFeed {
            iterator,
            progress: Progress::Going,
        }
    }
}

impl<T: Source<Item = Result<char, ErrorKind>>> Feed for FallibleFeed<T> {
    ghost use Rattle.granit_buffered.specs.Feeds.{still_left};
    ghost use Rattle.granit_buffered.specs.Fallible.{progress_ended, was_handed_out, error_of, StillComes};
    ghost use Rattle.granit_buffered.specs.FallibleLaws.{comes_within, comes_to_its_error};
    ghost use Rattle.granit_buffered.specs.FeedLaws.{none_left};

    ghost told = { λ s xs fault. StillComes T.next_gives T.remaining s.progress s.iterator xs fault };

    ghost bound = { λ s. still_left (progress_ended s.progress) (T.remaining s.iterator) };

    ghost ended = { λ s. progress_ended s.progress };

    ghost error = { λ s. error_of s.progress };

    ghost handed_out = { λ s. was_handed_out s.progress };

    ghost bounded = { λ s xs fault k. comes_within T.next_gives T.remaining s.progress s.iterator xs fault k };

    ghost over = { λ s ended. none_left (progress_ended s.progress) (T.remaining s.iterator) ended };

    ghost fails = { λ s xs fault ended k.
        comes_to_its_error T.next_gives T.remaining s.progress s.iterator xs fault ended k };

    #[tactic(auto, using(crate::proofs::FallibleLemmas::comes))]
    fn next_char(&mut self) -> Option<char> {
        if self.progress.has_ended() {
            return None;
        }
        match self.iterator.next() {
            Some(Ok(c)) => Some(c),
            Some(Err(kind)) => {
                self.progress = Progress::Failed(kind);
                None
            }
            None => {
                self.progress = Progress::Ended;
                None
            }
        }
    }

    fn take_error(&mut self) -> Option<ErrorKind> {
        self.progress.take()
    }
}
