//! Strings, character by character.
ghost use Rattle.std.specs.Prelude.{◌≡◌, ◌≤◌, ◌==◌, [], ◌∷◌, ◌++◌, length, slice_index, string_bytes, IfNone, IfSome};
ghost use Rattle.std.specs.Prelude.{OnOk, OnErr};
ghost use Rattle.granit_base.specs.Written.{string_chars};
ghost use Rattle.std.specs.Str.{chars};
ghost use Rattle.std.specs.Char.{encode_utf8};

use crate::text::NoMemory;

/// The first character and what follows it.
pub fn split_first_char(s: &str) -> Option<(char, &str)>
    ensures none { IfNone result (chars s.now ≡ []) }
    ensures some { IfSome result (λ p. chars s.now ≡ p.0 ∷ chars p.1.now) }
    ensures bytes { IfSome result (λ p. s.now ≡ encode_utf8 p.0 ++ p.1.now) }
{
    let mut characters = s.chars();
    let first = characters.next()?;
    Some((first, characters.as_str()))
}

/// The character behind `n` others, and NUL past the end.
pub fn nth_char(s: &str, n: usize) -> char
    ensures { result ≡ slice_index (chars s.now) n }
{
    s.chars().nth(n).unwrap_or('\0')
}

/// Whether there is no character.
pub fn is_at_end(s: &str) -> bool
    ensures value { result ≡ (length (chars s.now) == 0) }
    ensures fits { length (chars s.now) ≤ length s.now }
{
    s.is_empty()
}

/// Appends a character.
///
/// # Errors
///
/// `NoMemory` alone, and the text is then as before.
pub fn push_char(out: &mut String, c: char) -> Result<(), NoMemory>
    ensures appended { OnOk result (string_chars out.new ≡ string_chars out.old ++ c ∷ []) }
    ensures kept { OnErr result (string_bytes out.new ≡ string_bytes out.old) }
{
    out.push(c)?;
    Ok(())
}

/// Appends a text.
///
/// # Errors
///
/// `NoMemory` alone, and the text is then as before.
pub fn push_text(out: &mut String, text: &str) -> Result<(), NoMemory>
    ensures appended { OnOk result (string_chars out.new ≡ string_chars out.old ++ chars text.now) }
    ensures kept { OnErr result (string_bytes out.new ≡ string_bytes out.old) }
{
    out.push_str(text)?;
    Ok(())
}
