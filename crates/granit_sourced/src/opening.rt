//! Steppers before the inputs that a parser makes itself. Apart from it, since a call by such an input's type costs the
//! proof of all that an input promises.
ghost use Rattle.std.specs.Prelude.{◌≡◌, ℕ, ◌<◌, ◌^◌, false, List, Result, IfOk, IsOk};
ghost use Rattle.std.specs.Iterator.{size};
ghost use Rattle.std.specs.Str.{chars};
ghost use Rattle.granit_buffered.specs.Fallible.{characters_of, first_error};
ghost use Rattle.granit_buffered.specs.Feeds.{GivesOnly};
ghost use Rattle.granit_error.specs.OptionsView.{options_of};
ghost use Rattle.granit_error.specs.declared.kind.ErrorKind.{ErrorKind};
ghost use Rattle.granit_input.specs.Strings.{LeftInString};
ghost use Rattle.granit_sourced.specs.Opening.{bare_text_start};
ghost use Rattle.granit_stepper.specs.Stepping.{StandsIn};
ghost use Rattle.granit_steps.specs.Steps as steps;

use granit_base::NoMemory;
use granit_buffered::{BufferedInput, FallibleBufferedInput, Source};
use granit_error::{ErrorKind, Options};
use granit_input::{Input, StrInput};
use granit_stepper::Stepper;
use std::alloc::Global;

/// Before a string.
pub fn open_str<'input>(
    alloc: Global,
    value: &'input str,
    options: Options,
) -> Stepper<'input, StrInput<'input>>
    ensures start { StandsIn LeftInString result (steps.steps_start (chars value.now)) }
    ensures options { result.scanner.options ≡ options_of options }
    ensures renumbered { result.renumbered ≡ false }
{
    let input = StrInput::new(value);
    Stepper::new(alloc, input, options)
}

/// Before the characters of an iterator.
///
/// # Errors
///
/// None: nothing is allocated.
pub fn open_iter<'input, T: Source<Item = char>>(
    alloc: Global,
    iter: T,
    options: Options,
) -> Result<Stepper<'input, BufferedInput<T>>, NoMemory>
    requires { size (T.remaining iter) < 2 ^ 63 }
    ensures start { IfOk result (λ s. (x : List ℕ) → GivesOnly T.next_gives T.remaining iter x
        → StandsIn ⟦<BufferedInput<T> as Input>⟧.unread s (steps.start_from (bare_text_start x))) }
    ensures options { IfOk result (λ s. s.scanner.options ≡ options_of options) }
    ensures renumbered { IfOk result (λ s. s.renumbered ≡ false) }
    ensures memory { IsOk result }
{
    let input = BufferedInput::new(alloc, iter)?;
    Ok(Stepper::new(alloc, input, options))
}

/// Before the characters of an iterator that may fail. Its first error ends them.
///
/// # Errors
///
/// None: nothing is allocated.
pub fn open_fallible<'input, T: Source<Item = Result<char, ErrorKind>>>(
    alloc: Global,
    iter: T,
    options: Options,
) -> Result<Stepper<'input, FallibleBufferedInput<T>>, NoMemory>
    requires { size (T.remaining iter) < 2 ^ 63 }
    ensures start { IfOk result (λ s. (items : List (Result ℕ ErrorKind))
        → GivesOnly T.next_gives T.remaining iter items
        → StandsIn ⟦<FallibleBufferedInput<T> as Input>⟧.unread s
        (steps.start_from (bare_text_start (characters_of items)))) }
    ensures ends { IfOk result (λ s. (items : List (Result ℕ ErrorKind))
        → GivesOnly T.next_gives T.remaining iter items
        → (⟦<FallibleBufferedInput<T> as Input>⟧.origin s.scanner.cursor.input).ends_with (first_error items)) }
    ensures fresh { IfOk result (λ s.
        (⟦<FallibleBufferedInput<T> as Input>⟧.origin s.scanner.cursor.input).handed_out ≡ false) }
    ensures options { IfOk result (λ s. s.scanner.options ≡ options_of options) }
    ensures renumbered { IfOk result (λ s. s.renumbered ≡ false) }
    ensures memory { IsOk result }
{
    let input = FallibleBufferedInput::new(alloc, iter)?;
    Ok(Stepper::new(alloc, input, options))
}
