//! Iterators of characters that are read into events.
ghost use Rattle.std.specs.Prelude.{◌≡◌, ℕ, ◌<◌, ◌^◌, false, List, None, IfOk, IsOk};
ghost use Rattle.std.specs.Iterator.{size};
ghost use Rattle.granit_buffered.specs.Feeds.{GivesOnly};
ghost use Rattle.granit_error.specs.OptionsData.{default_options};
ghost use Rattle.granit_parser.specs.Parsing.{StandsAt};
ghost use Rattle.granit_parser.specs.Recovering.{ParserIn};
ghost use Rattle.granit_parser.specs.Streams.{bare_text_start};
ghost use Rattle.granit_recovery.specs.Streams.{calls_from};
ghost use Rattle.granit_steps.specs.Steps as steps;

use crate::parser::Parser;
use granit_base::NoMemory;
use granit_buffered::{BufferedInput, Source};
use granit_error::Options;
use granit_input::Input;
use std::alloc::Global;

impl<'input, T: Source<Item = char>> Parser<'input, BufferedInput<T>> {
    /// Before the characters of an iterator, read with the default options. Markers tell no byte offset.
    ///
    /// # Errors
    ///
    /// None: nothing is allocated.
    pub fn new_from_iter(
        alloc: Global,
        iter: T,
    ) -> Result<Parser<'input, BufferedInput<T>>, NoMemory>
        requires { size (T.remaining iter) < 2 ^ 63 }
        ensures start { IfOk result (λ p. (x : List ℕ) → GivesOnly T.next_gives T.remaining iter x
            → StandsAt ⟦<BufferedInput<T> as Input>⟧.unread p (steps.start_from (bare_text_start x))) }
        ensures calls { IfOk result (λ p. (x : List ℕ) → GivesOnly T.next_gives T.remaining iter x
            → ParserIn ⟦<BufferedInput<T> as Input>⟧.unread p (calls_from (bare_text_start x))) }
        ensures options { IfOk result (λ p. p.stepper.scanner.options ≡ default_options) }
        ensures unseen { IfOk result (λ p. p.peeked ≡ None) }
        ensures unasked { IfOk result (λ p. p.answered ≡ false) }
        ensures renumbered { IfOk result (λ p. p.stepper.renumbered ≡ false) }
        ensures memory { IsOk result }
    {
        Parser::new_from_iter_with_options(alloc, iter, Options::default())
    }
}
