//! Quoted scalars of one line of ASCII, whose end is seen at once.
ghost use Rattle.std.specs.Prelude.{◌≡◌, ◌<◌, ◌≤◌, ◌+◌, true, length, slice_index, IfSome};
ghost use Rattle.std.specs.Str.{chars};
ghost use Rattle.granit_base.specs.Place.{first};
ghost use Rattle.granit_runs.specs.Quotes as spec;
ghost use Rattle.granit_runs.specs.Quotes.{BeginsQuoted, quote_of};

use crate::class::Run;
use crate::cuts::ascii_count;

/// How many bytes stand between the quotes of the scalar in front, and what follows it, where these are words of ASCII
/// that stand for themselves and the byte behind the closing quote shows that the scalar ends there.
#[inline(always)]
pub fn quoted_front(s: &str, single: bool, in_flow: bool) -> Option<(usize, &str)>
    requires { first (chars s.now) ≡ quote_of single }
    ensures { IfSome result (λ r. BeginsQuoted single in_flow s.now r.0 r.1.now) }
{
    let inner = &s[1..];
    let count = ascii_count(inner, Run::QuotedWords(single), usize::MAX);
    if !closes(inner.as_bytes(), count, single, in_flow) {
        return None;
    }
    Some((count, &inner[count + 1..]))
}

/// Whether the closing quote stands behind so many bytes, and directly behind it what ends the scalar.
#[inline(always)]
fn closes(bytes: &[u8], count: usize, single: bool, in_flow: bool) -> bool
    requires { count ≤ length bytes.now }
    ensures within { result ≡ true → count + 1 < length bytes.now }
    ensures quote { result ≡ true → slice_index bytes.now count ≡ quote_of single }
    ensures ends { result ≡ true → spec.ends_after_quote in_flow (slice_index bytes.now (count + 1)) ≡ true }
{
    let quote = if single { b'\'' } else { b'"' };
    count + 1 < bytes.len() && bytes[count] == quote && ends_after_quote(bytes[count + 1], in_flow)
}

/// Whether a byte directly behind the closing quote ends the scalar, whatever follows it.
#[inline(always)]
fn ends_after_quote(byte: u8, in_flow: bool) -> bool
    ensures { result ≡ spec.ends_after_quote in_flow byte }
{
    byte == b':' || byte == b'\n' || in_flow && (byte == b',' || (byte == b']' || byte == b'}'))
}
