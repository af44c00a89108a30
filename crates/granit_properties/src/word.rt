//! Words: characters of a class, taken one by one.
ghost use Rattle.std.specs.Prelude.{◌≡◌, ◌⊎◌, ◌++◌, IfErr, OnOk};
ghost use Rattle.granit_base.specs.Written.{string_chars};
ghost use Rattle.granit_cursor.specs.Reading.{GoesTo, LendsWithoutMemory, Moves, Wherever};
ghost use Rattle.granit_error.specs.FaultKind.{InputSlicingUnavailable, NoMemory as OutOfMemory};
ghost use Rattle.granit_lexemes.specs.Basics.{text_up_to};
ghost use Rattle.granit_lexemes.specs.Here.{past};
ghost use Rattle.granit_properties.specs.WordCode.{word_test, TakesWord};

use granit_base::{NoMemory, Text, is_anchor_char, push_char};
use granit_cursor::{Cursor, lending_offset, lent_since};
use granit_error::ScanError;
use granit_input::{BorrowedInput, Class, Input};
use std::alloc::Global;

/// The characters that a word is of.
#[derive(Clone, Copy)]
pub enum Word {
    /// Those of an anchor's name (YAML 1.2.2, 6.9.2), which no run is made of.
    Name,
    /// Those of a class.
    Of(Class),
}

impl Word {
    fn takes(self, c: char) -> bool
        ensures { result ≡ word_test self c }
    {
        match self {
            Word::Name => is_anchor_char(c),
            Word::Of(class) => class.contains(c),
        }
    }
}

/// On over the characters of a word, which are appended.
///
/// # Errors
///
/// `NoMemory` alone.
pub fn take_word<T: Input>(
    cursor: &mut Cursor<T>,
    word: Word,
    out: &mut String,
) -> Result<(), NoMemory>
    ensures here { Wherever T.unread cursor.old cursor.new (λ h Lands.
        OnOk result (Lands (past (word_test word) h)
        × (string_chars out.new ≡ string_chars out.old ++ text_up_to h (past (word_test word) h)))) }
    ensures moves { Moves T.unread T.left T.origin cursor.old cursor.new }
{
    'word: loop {
        cursor.look(1);
        let c = cursor.input().peek();
        if !word.takes(c) {
            return Ok(());
        }
        push_char(out, c)?;
        cursor.step();
    }
}

/// On over the characters of a word.
fn skip_word<T: Input>(cursor: &mut Cursor<T>, word: Word)
    ensures here { GoesTo T.unread cursor.old cursor.new (past (word_test word)) }
    ensures moves { Moves T.unread T.left T.origin cursor.old cursor.new }
{
    'word: loop {
        cursor.look(1);
        let c = cursor.input().peek();
        if !word.takes(c) {
            return;
        }
        cursor.step();
    }
}

/// The characters of a word, lent where the input lends.
///
/// # Errors
///
/// `NoMemory`, only where the text isn't lent, and `InputSlicingUnavailable`, where the input refuses to lend what it
/// could.
pub fn word_text<'input, T: BorrowedInput<'input>>(
    alloc: Global,
    cursor: &mut Cursor<T>,
    word: Word,
) -> Result<Text<'input>, ScanError>
    ensures here { Wherever T.unread cursor.old cursor.new (λ h Lands. TakesWord (word_test word) h result Lands) }
    ensures lent { LendsWithoutMemory T.unread cursor.old result }
    ensures kinds { IfErr result (λ e. (e.kind ≡ OutOfMemory) ⊎ (e.kind ≡ InputSlicingUnavailable)) }
    ensures moves { Moves T.unread T.left T.origin cursor.old cursor.new }
{
    match lending_offset(cursor) {
        Some(start) => {
            skip_word(cursor, word);
            match lent_since(cursor, start) {
                Ok(text) => Ok(Text::borrowed(text)),
                Err(e) => Err(e),
            }
        }
        None => {
            let mut text = String::new(alloc);
            take_word(cursor, word, &mut text)?;
            Ok(Text::owned(text))
        }
    }
}
