//! Blanks, and words of all characters but blanks and breaks, within what a directive may still hold.
ghost use Rattle.std.specs.Prelude.{◌≡◌, ◌+◌, ◌≤◌, IfErr, length};
ghost use Rattle.std.specs.Str.{chars, encode_utf8_all};
ghost use Rattle.granit_base.specs.Classes.{is_blank};
ghost use Rattle.granit_cursor.specs.Reading.{Moves, Wherever};
ghost use Rattle.granit_directives.specs.DirectiveCode.{IsDirectiveKind};
ghost use Rattle.granit_directives.specs.WordCode.{WordTo};
ghost use Rattle.granit_lexemes.specs.Basics.{count_up_to};
ghost use Rattle.granit_lexemes.specs.Here.{past};

use granit_base::Marker;
use granit_cursor::Cursor;
use granit_error::ScanError;
use granit_input::{Class, Input};
use granit_properties::{Word, empty_text, spend, take_word};
use std::alloc::Global;

/// How many bytes a text has.
pub(crate) fn byte_count(text: &str) -> usize
    ensures { result ≡ length (encode_utf8_all (chars text.now)) }
{
    text.len()
}

/// Behind the blanks that stand here; how many there are.
pub(crate) fn count_blanks<T: Input>(cursor: &mut Cursor<T>) -> usize
    ensures here { Wherever T.unread cursor.old cursor.new (λ h Lands.
        (result ≡ count_up_to h (past is_blank h)) × Lands (past is_blank h)) }
    ensures left { T.left cursor.new.input + result ≤ T.left cursor.old.input }
    ensures moves { Moves T.unread T.left T.origin cursor.old cursor.new }
{
    cursor.skip_while_blank()
}

/// A word, and how many bytes are left of the limit behind it.
#[derive(Drop)]
pub(crate) struct WordText {
    pub(crate) text: String,
    pub(crate) left: usize,
}

/// The word that stands here.
pub(crate) fn word_within<T: Input>(
    alloc: Global,
    cursor: &mut Cursor<T>,
    start: Marker,
    limit: usize,
    left: usize,
) -> Result<WordText, ScanError>
    ensures here { Wherever T.unread cursor.old cursor.new (λ h Lands. WordTo limit left start result Lands h) }
    ensures kinds { IfErr result (λ e. IsDirectiveKind e.kind) }
    ensures moves { Moves T.unread T.left T.origin cursor.old cursor.new }
{
    let mut text = empty_text(alloc);
    take_word(cursor, Word::Of(Class::NonSpace), &mut text)?;
    let mut rest = left;
    spend(Some(limit), &mut rest, byte_count(text.as_str()), start)?;
    Ok(WordText { text, left: rest })
}
