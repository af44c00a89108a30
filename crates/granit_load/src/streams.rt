//! All events of the characters of an iterator.
ghost use Rattle.std.specs.Prelude.{ℕ, ◌<◌, ◌^◌, List};
ghost use Rattle.std.specs.Iterator.{size};
ghost use Rattle.granit_buffered.specs.Feeds.{GivesOnly};
ghost use Rattle.granit_error.specs.OptionsView.{options_of};
ghost use Rattle.granit_event.specs.Events.{plain_events};
ghost use Rattle.granit_lexemes.specs.Outcome.{GivesValue};
ghost use Rattle.granit_load.specs.Answering.{bare_run};

use crate::load::{Events, gather};
use granit_buffered::Source;
use granit_error::{Options, ScanError};
use granit_parser::Parser;
use std::alloc::Global;

/// All events of the characters of an iterator, in order: what `load_str` answers for their text, but that no marker
/// tells a byte offset, and that memory may be wanting elsewhere. At most sixteen characters are read ahead.
///
/// # Errors
///
/// The first fault of the text, at its place, or `NoMemory`; docs/FAULTS.md has the kinds.
pub fn load_chars<'a, T: Source<Item = char>>(
    alloc: Global,
    chars: T,
    options: Options,
) -> Result<Events<'a>, ScanError>
    requires { size (T.remaining chars) < 2 ^ 63 }
    ensures { (x : List ℕ) → GivesOnly T.next_gives T.remaining chars x
        → GivesValue plain_events result (bare_run (options_of options) x) }
{
    let mut parser = Parser::new_from_iter_with_options(alloc, chars, options)?;
    gather(alloc, &mut parser)
}
