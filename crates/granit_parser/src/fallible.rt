//! Iterators of characters that may fail, which are read into events.
ghost use Rattle.std.specs.Prelude.{◌≡◌, ℕ, ◌<◌, ◌^◌, false, List, None, Result, IfOk, IsOk};
ghost use Rattle.std.specs.Iterator.{size};
ghost use Rattle.granit_buffered.specs.Fallible.{characters_of, first_error};
ghost use Rattle.granit_buffered.specs.Feeds.{GivesOnly};
ghost use Rattle.granit_error.specs.OptionsData.{default_options};
ghost use Rattle.granit_error.specs.declared.kind.ErrorKind.{ErrorKind};
ghost use Rattle.granit_parser.specs.Parsing.{StandsAt};
ghost use Rattle.granit_parser.specs.Recovering.{ParserIn};
ghost use Rattle.granit_parser.specs.Streams.{bare_text_start};
ghost use Rattle.granit_recovery.specs.Streams.{calls_from};
ghost use Rattle.granit_steps.specs.Steps as steps;

use crate::parser::Parser;
use granit_base::NoMemory;
use granit_buffered::{FallibleBufferedInput, Source};
use granit_error::{ErrorKind, Options};
use granit_input::Input;
use std::alloc::Global;

impl<'input, T: Source<Item = Result<char, ErrorKind>>> Parser<'input, FallibleBufferedInput<T>> {
    /// Before the characters of an iterator that may fail, read with the default options. Its first error ends them.
    ///
    /// # Errors
    ///
    /// None: nothing is allocated.
    pub fn new_from_fallible_iter(
        alloc: Global,
        iter: T,
    ) -> Result<Parser<'input, FallibleBufferedInput<T>>, NoMemory>
        requires { size (T.remaining iter) < 2 ^ 63 }
        ensures start { IfOk result (λ p. (items : List (Result ℕ ErrorKind))
            → GivesOnly T.next_gives T.remaining iter items
            → StandsAt ⟦<FallibleBufferedInput<T> as Input>⟧.unread p
            (steps.start_from (bare_text_start (characters_of items)))) }
        ensures calls { IfOk result (λ p. (items : List (Result ℕ ErrorKind))
            → GivesOnly T.next_gives T.remaining iter items
            → ParserIn ⟦<FallibleBufferedInput<T> as Input>⟧.unread p
            (calls_from (bare_text_start (characters_of items)))) }
        ensures ends { IfOk result (λ p. (items : List (Result ℕ ErrorKind))
            → GivesOnly T.next_gives T.remaining iter items
            → (⟦<FallibleBufferedInput<T> as Input>⟧.origin p.stepper.scanner.cursor.input).ends_with
            (first_error items)) }
        ensures fresh { IfOk result (λ p.
            (⟦<FallibleBufferedInput<T> as Input>⟧.origin p.stepper.scanner.cursor.input).handed_out ≡ false) }
        ensures options { IfOk result (λ p. p.stepper.scanner.options ≡ default_options) }
        ensures unseen { IfOk result (λ p. p.peeked ≡ None) }
        ensures unasked { IfOk result (λ p. p.answered ≡ false) }
        ensures renumbered { IfOk result (λ p. p.stepper.renumbered ≡ false) }
        ensures memory { IsOk result }
    {
        Parser::new_from_fallible_iter_with_options(alloc, iter, Options::default())
    }
}
