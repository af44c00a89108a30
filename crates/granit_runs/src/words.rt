//! Plain scalars of one line of ASCII, whose end is seen at once (YAML 1.2.2, 7.3.3).
ghost use Rattle.std.specs.Prelude.{◌≡◌, ◌<◌, ◌∷◌, ◌++◌, ◌==◌, ◌&&◌, ◌||◌, true, length, slice_index, IfSome};
ghost use Rattle.std.specs.Char.{encode_utf8};
ghost use Rattle.std.specs.Str.{chars};
ghost use Rattle.granit_base.specs.Classes.{is_flow, is_within};
ghost use Rattle.granit_base.specs.Place.{first};
ghost use Rattle.granit_runs.specs.Words.{EndsBelow, SplitsLineEnd, SplitsWords, stops_words};

use crate::class::Run;
use crate::cuts::{ascii_count, past_white};
use crate::whitespace::SkipTabs;
use granit_base::is_flow;

/// How many characters of a plain scalar's words stand in front, as far as they are surely its own, and what follows
/// them; None where there are none, or a `-` alone.
#[inline(always)]
pub fn split_words(s: &str, in_flow: bool) -> Option<(usize, &str)>
    ensures { IfSome result (λ r. SplitsWords in_flow s.now r.0 r.1.now) }
{
    let count = ascii_count(s, Run::PlainWords(in_flow), usize::MAX);
    if count == 0 || is_dash(s, count) {
        return None;
    }
    Some((count, &s[count..]))
}

/// Whether so many characters in front are a `-` alone.
#[inline(always)]
fn is_dash(s: &str, count: usize) -> bool
    requires { 0 < length s.now }
    ensures { result ≡ (count == 1 && slice_index s.now 0 == 0x2D) }
{
    count == 1 && s.as_bytes()[0] == b'-'
}

/// Whether a `:` or a flow indicator in front surely ends a plain scalar.
#[inline(always)]
pub fn stops_words(s: &str, in_flow: bool) -> bool
    ensures { result ≡ true → stops_words in_flow (chars s.now) ≡ true }
{
    let bytes = s.as_bytes();
    if bytes.len() < 2 {
        return false;
    }
    if stops_flow(bytes[0], in_flow) {
        return true;
    }
    bytes[0] == b':' && divides(bytes[1], in_flow)
}

/// Whether a byte is a flow indicator, in flow.
#[inline(always)]
fn stops_flow(byte: u8, in_flow: bool) -> bool
    ensures { result ≡ (in_flow && is_flow byte) }
{
    in_flow && is_flow(byte as char)
}

/// Whether a `:` before a byte divides a pair.
#[inline(always)]
fn divides(next: u8, in_flow: bool) -> bool
    ensures { result ≡ ((next == 0x20 || next == 0x0A) || (in_flow && is_flow next)) }
{
    next == b' ' || next == b'\n' || stops_flow(next, in_flow)
}

/// How many spaces stand behind the line feed in front, and what follows them, where that is a visible character of
/// ASCII that ends a plain scalar above it, in flow or in a block of that column.
#[inline(always)]
pub fn past_line(s: &str, in_flow: bool, column: Option<usize>) -> Option<(usize, &str)>
    ensures { IfSome result (λ r. SplitsLineEnd in_flow column s.now r.0 r.1.now) }
{
    if !begins_with_feed(s) {
        return None;
    }
    let (spaces, _, after) = past_white(behind_byte(s), SkipTabs::No);
    if !shows(after) || !ends_below(after, in_flow, column, spaces) {
        return None;
    }
    Some((spaces, after))
}

/// Whether what stands in front behind so many spaces of a line ends a plain scalar above it: a flow indicator in flow,
/// or elsewhere what stands no further right than a column.
#[inline(always)]
fn ends_below(s: &str, in_flow: bool, column: Option<usize>, spaces: usize) -> bool
    ensures { result ≡ true → EndsBelow in_flow column spaces (first (chars s.now)) }
{
    if in_flow {
        return begins_with_flow(s);
    }
    match column {
        None => false,
        Some(column) => spaces <= column,
    }
}

/// Whether a flow indicator stands in front.
#[inline(always)]
fn begins_with_flow(s: &str) -> bool
    ensures { result ≡ true → is_flow (first (chars s.now)) ≡ true }
{
    let bytes = s.as_bytes();
    bytes.len() > 0 && is_flow(bytes[0] as char)
}

/// Whether a line feed stands in front.
#[inline(always)]
fn begins_with_feed(s: &str) -> bool
    ensures { result ≡ true → (0 < length s.now) × (slice_index s.now 0 ≡ 0x0A) }
{
    let bytes = s.as_bytes();
    bytes.len() > 0 && bytes[0] == b'\n'
}

/// What follows a character of ASCII in front.
#[inline(always)]
fn behind_byte(s: &str) -> &str
    requires some { 0 < length s.now }
    requires low { slice_index s.now 0 < 0x80 }
    ensures text { chars s.now ≡ slice_index s.now 0 ∷ chars result.now }
    ensures bytes { s.now ≡ encode_utf8 (slice_index s.now 0) ++ result.now }
{
    &s[1..]
}

/// Whether a visible character of ASCII stands in front.
#[inline(always)]
fn shows(s: &str) -> bool
    ensures { result ≡ true → is_within 0x21 0x7E (first (chars s.now)) ≡ true }
{
    let bytes = s.as_bytes();
    bytes.len() > 0 && bytes[0].is_ascii_graphic()
}
