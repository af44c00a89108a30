//! Texts between quotes.
ghost use Rattle.std.specs.Prelude.{◌≡◌, ◌+◌, ◌<◌, ◌≤◌, ◌++◌, length, take, true, false, OnOk};
ghost use Rattle.std.specs.Fmt.{digit_glyph, radix_digits};
ghost use Rattle.std.specs.List.{All};
ghost use Rattle.std.specs.Str.{chars};
ghost use Rattle.granit_lexemes.specs.Line as line;
ghost use Rattle.granit_lines.specs.Pieces.{is_plain};

use crate::room::put_byte;
use granit_base::{NoMemory, is_at_end, split_first_char};

/// A text in its quotes.
#[inline(always)]
pub fn push_in_quotes(out: &mut Vec<u8>, text: &str) -> Result<(), NoMemory>
    ensures { OnOk result (out.new.items ≡ out.old.items ++ line.in_quotes (chars text.now)) }
{
    out.push(b'"')?;
    push_quoted(out, text)?;
    out.push(b'"')?;
    Ok(())
}

/// A text between quotes, without them.
#[inline(always)]
fn push_quoted(out: &mut Vec<u8>, text: &str) -> Result<(), NoMemory>
    ensures { OnOk result (out.new.items ≡ out.old.items ++ line.quoted_line_text (chars text.now)) }
{
    let mut rest = text;
    'pieces: while !is_at_end(rest) {
        let (plain, behind) = split_plain(rest);
        out.extend_from_slice(plain.as_bytes())?;
        match split_first_char(behind) {
            None => return Ok(()),
            Some((c, after)) => {
                push_quoted_char(out, c)?;
                rest = after;
            }
        }
    }
    Ok(())
}

/// What stands for itself in front of a text, and what follows it.
fn split_plain(text: &str) -> (&str, &str)
    ensures told { line.quoted_line_text (chars text.now) ≡ result.0.now ++ line.quoted_line_text (chars result.1.now) }
    ensures shorter { length (chars result.1.now) ≤ length (chars text.now) }
{
    let count = plain_len(text.as_bytes());
    (&text[..count], &text[count..])
}

/// How many bytes in front stand for themselves.
fn plain_len(bytes: &[u8]) -> usize
    ensures within { result ≤ length bytes.now }
    ensures plain { All (λ b. is_plain b ≡ true) (take result bytes.now) }
{
    let mut count = 0;
    'bytes: while count < bytes.len() && is_plain_byte(bytes[count]) {
        count += 1;
    }
    count
}

/// Of each byte `1` where it stands for itself: one look is less than the tests of a byte.
static PLAIN: [u8; 256] = *b"0000000000000000000000000000000011011111111111111111111111111111\
    1111111111111111111111111111011111111111111111111111111111111110\
    0000000000000000000000000000000000000000000000000000000000000000\
    0000000000000000000000000000000000000000000000000000000000000000";

pub fn is_plain_byte(byte: u8) -> bool
    ensures { result ≡ is_plain byte }
{
    PLAIN[byte as usize] == b'1'
}

/// A character between quotes.
#[inline(never)]
#[tactic(auto, unfolding(granit_lexemes::specs::Line::quoted_char))]
fn push_quoted_char(out: &mut Vec<u8>, c: char) -> Result<(), NoMemory>
    ensures { OnOk result (out.new.items ≡ out.old.items ++ line.quoted_char c) }
{
    match c {
        '"' | '\\' => {
            out.push(b'\\')?;
            out.push(c as u8)?;
        }
        ' '..='~' => out.push(c as u8)?,
        '\n' => out.extend_from_slice(b"\\n")?,
        '\r' => out.extend_from_slice(b"\\r")?,
        '\t' => out.extend_from_slice(b"\\t")?,
        _ => {
            out.extend_from_slice(b"\\u{")?;
            push_hex(out, c as u32)?;
            out.push(b'}')?;
        }
    }
    Ok(())
}

/// A number in hexadecimal digits.
fn push_hex(out: &mut Vec<u8>, n: u32) -> Result<(), NoMemory>
    ensures { OnOk result (out.new.items ≡ out.old.items ++ radix_digits 16 false n) }
{
    let mut digits = [0; 8];
    let end = put_hex(&mut digits, 0, n);
    out.extend_from_slice(&digits[..end])?;
    Ok(())
}

/// The same behind so many bytes of a room; where it ends.
#[tactic(auto, using(crate::proofs::HexLemmas::one_digit))]
pub fn put_hex(room: &mut [u8], at: usize, n: u32) -> usize
    requires room { at + length (radix_digits 16 false n) ≤ length room.old }
    ensures end { result ≡ at + length (radix_digits 16 false n) }
    ensures put { take result room.new ≡ take at room.old ++ radix_digits 16 false n }
{
    if n < 16 {
        return put_byte(room, at, hex_digit(n));
    }
    let last = put_hex(room, at, n / 16);
    put_byte(room, last, hex_digit(n % 16))
}

fn hex_digit(digit: u32) -> u8
    requires { digit < 16 }
    ensures { result ≡ digit_glyph false digit }
{
    if digit < 10 {
        return b'0' + digit as u8;
    }
    b'a' + (digit - 10) as u8
}
