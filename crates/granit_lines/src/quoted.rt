//! Short texts between quotes, put into room that is already there.
ghost use Rattle.std.specs.Prelude.{◌≡◌, ◌+◌, ◌*◌, ◌≤◌, ◌++◌, codes, encode_utf8, length, take, false};
ghost use Rattle.std.specs.Fmt.{radix_digits};
ghost use Rattle.std.specs.Str.{chars};
ghost use Rattle.granit_lexemes.specs.Line as line;

use crate::quoting::put_hex;
use crate::room::{put_byte, put_plain, put_word};
use granit_base::{is_at_end, split_first_char};

/// A text between quotes, without them, behind so many bytes; where it ends. A byte of it is six bytes at most.
#[inline(always)]
pub fn put_quoted(room: &mut [u8], at: usize, text: &str) -> usize
    requires room { at + 6 * length text.now ≤ length room.old }
    ensures end { result ≤ at + 6 * length text.now }
    ensures put { take result room.new ≡ take at room.old ++ line.quoted_line_text (chars text.now) }
{
    let (end, rest) = put_front(room, at, text);
    if is_at_end(rest) {
        return end;
    }
    put_escaped(room, end, rest)
}

/// The front of a text that stands for itself, behind so many bytes; where it ends, and what follows it in the text.
#[inline(always)]
fn put_front<'a>(room: &mut [u8], at: usize, text: &'a str) -> (usize, &'a str)
    requires room { at + 6 * length text.now ≤ length room.old }
    ensures end { result.0 + 6 * length result.1.now ≤ at + 6 * length text.now }
    ensures shorter { length result.1.now ≤ length text.now }
    ensures put { take result.0 room.new ++ line.quoted_line_text (chars result.1.now)
        ≡ take at room.old ++ line.quoted_line_text (chars text.now) }
{
    let count = put_plain(room, at, text.as_bytes());
    (at + count, &text[count..])
}

/// A text in which something does not stand for itself, as `put_quoted` puts it.
#[inline(never)]
fn put_escaped(room: &mut [u8], at: usize, text: &str) -> usize
    requires room { at + 6 * length text.now ≤ length room.old }
    ensures end { result ≤ at + 6 * length text.now }
    ensures put { take result room.new ≡ take at room.old ++ line.quoted_line_text (chars text.now) }
{
    let mut end = at;
    let mut rest = text;
    'pieces: while let Some((c, behind)) = split_first_char(rest) {
        let start = put_quoted_char(room, end, c);
        (end, rest) = put_front(room, start, behind);
    }
    end
}

/// A character between quotes, behind so many bytes; where it ends.
#[inline(always)]
#[tactic(auto, unfolding(granit_lexemes::specs::Line::quoted_char))]
fn put_quoted_char(room: &mut [u8], at: usize, c: char) -> usize
    requires room { at + 6 * length (encode_utf8 c) ≤ length room.old }
    ensures end { result ≤ at + 6 * length (encode_utf8 c) }
    ensures put { take result room.new ≡ take at room.old ++ line.quoted_char c }
{
    match c {
        '"' | '\\' => {
            let end = put_byte(room, at, b'\\');
            put_byte(room, end, c as u8)
        }
        ' '..='~' => put_byte(room, at, c as u8),
        '\n' => put_word(room, at, "\\n"),
        '\r' => put_word(room, at, "\\r"),
        '\t' => put_word(room, at, "\\t"),
        _ => put_escape(room, at, c as u32),
    }
}

/// A character by its number, behind so many bytes; where it ends.
#[inline(always)]
fn put_escape(room: &mut [u8], at: usize, n: u32) -> usize
    requires room { at + (length (radix_digits 16 false n) + 4) ≤ length room.old }
    ensures end { result ≡ at + (length (radix_digits 16 false n) + 4) }
    ensures put { take result room.new
        ≡ take at room.old ++ ((codes "\\u{" ++ radix_digits 16 false n) ++ codes "}") }
{
    let start = put_word(room, at, "\\u{");
    let end = put_hex(room, start, n);
    put_byte(room, end, b'}')
}
