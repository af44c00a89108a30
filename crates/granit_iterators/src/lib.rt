//! Iterators that may be read: the characters of every string, and the items of every list.
#![tactic(auto)]

ghost use Rattle.std.specs.Prelude.{◌≡◌, ◌<◌, ◌^◌, false, None, IfOk, IsOk};
ghost use Rattle.std.specs.Iterator.{size};
ghost use Rattle.std.specs.Str.{chars};
ghost use Rattle.granit_buffered.specs.Fallible.{characters_of, first_error};
ghost use Rattle.granit_buffered.specs.Feeds.{GivesOnly};

use granit_base::NoMemory;
use granit_buffered::{
    BufferedInput, FallibleBufferedInput, a_list_gives_its_items, a_string_gives_its_characters,
};
use granit_error::ErrorKind;
use granit_input::Input;
use std::alloc::Global;
use std::str::Chars;
use std::vec::IntoIter;

/// The characters of a string, which every reader of characters takes: they are fewer than it asks for, and they are
/// what it gives.
pub fn characters<'a>(text: &'a str) -> Chars<'a>
    ensures small { size (⟦<Chars<'a> as Iterator>⟧.remaining result) < 2 ^ 63 }
    ensures gives { GivesOnly ⟦<Chars<'a> as Iterator>⟧.next_gives ⟦<Chars<'a> as Iterator>⟧.remaining result
        (chars text.now) }
{
    a_string_gives_its_characters();
    text.chars()
}

/// The items of a list, which every reader of characters that may fail takes.
pub fn items(list: Vec<Result<char, ErrorKind>>) -> IntoIter<Result<char, ErrorKind>>
    ensures small { size (⟦<IntoIter<Result<char, ErrorKind>> as Iterator>⟧.remaining result) < 2 ^ 63 }
    ensures gives { GivesOnly ⟦<IntoIter<Result<char, ErrorKind>> as Iterator>⟧.next_gives
        ⟦<IntoIter<Result<char, ErrorKind>> as Iterator>⟧.remaining result list.items }
{
    a_list_gives_its_items::<Result<char, ErrorKind>>();
    list.into_iter()
}

/// An input over the characters of a string: these are what is left.
///
/// # Errors
///
/// None.
pub fn read_characters<'a>(
    alloc: Global,
    text: &'a str,
) -> Result<BufferedInput<Chars<'a>>, NoMemory>
    ensures read { IfOk result (λ s. ⟦<BufferedInput<Chars<'a>> as Input>⟧.unread s
        (record { text = chars text.now; offset = None; lends = false })) }
    ensures memory { IsOk result }
{
    BufferedInput::new(alloc, characters(text))
}

/// An input over the items of a list: the characters before its first error are what is left.
///
/// # Errors
///
/// None.
pub fn read_items(
    alloc: Global,
    list: Vec<Result<char, ErrorKind>>,
) -> Result<FallibleBufferedInput<IntoIter<Result<char, ErrorKind>>>, NoMemory>
    ensures read { IfOk result (λ s.
        ⟦<FallibleBufferedInput<IntoIter<Result<char, ErrorKind>>> as Input>⟧.unread s
        (record { text = characters_of list.items; offset = None; lends = false })) }
    ensures ends { IfOk result (λ s.
        (⟦<FallibleBufferedInput<IntoIter<Result<char, ErrorKind>>> as Input>⟧.origin s).ends_with
        (first_error list.items)) }
    ensures fresh { IfOk result (λ s.
        (⟦<FallibleBufferedInput<IntoIter<Result<char, ErrorKind>>> as Input>⟧.origin s).handed_out ≡ false) }
    ensures memory { IsOk result }
{
    FallibleBufferedInput::new(alloc, items(list))
}
