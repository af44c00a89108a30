//! Sixteen bytes at a time. A lane of a mask is 255 or 0.
ghost use Rattle.std.specs.Prelude.{◌≡◌, ◌<◌, ◌≤◌, ◌+◌, ◌==◌, ◌||◌, ℕ, not, true, length, slice_index};
ghost use Rattle.std.specs.List.{prefix_len};
ghost use Rattle.granit_base.specs.Classes.{is_flow, is_within};
ghost use Rattle.granit_runs.specs.Lanes.{TakesByte, lanes_where};
ghost use Rattle.granit_runs.specs.Runs.{is_line_char, is_plain_ascii, is_plain_word, is_quoted_ascii};
ghost use Rattle.granit_runs.specs.Runs.{is_quoted_word, run_test, starts};
ghost use Rattle.granit_runs.specs.Words.{ShowsByte};

use crate::class::{Class, Run};
use std::simd::prelude::*;

/// How many bytes are looked at together.
pub const LANES: usize = 16;

/// Where a byte stands.
#[inline(always)]
fn equal(bytes: u8x16, byte: u8) -> u8x16
    ensures { result ≡ lanes_where (λ c. c == byte) bytes }
{
    bytes
        .simd_eq(u8x16::splat(byte))
        .select(u8x16::splat(255), u8x16::splat(0))
}

/// Where other bytes stand.
#[inline(always)]
fn except(bytes: u8x16, byte: u8) -> u8x16
    ensures { result ≡ lanes_where (λ c. not (c == byte)) bytes }
{
    bytes
        .simd_ne(u8x16::splat(byte))
        .select(u8x16::splat(255), u8x16::splat(0))
}

/// Where bytes from `low` to `high` stand.
#[inline(always)]
fn within(bytes: u8x16, low: u8, high: u8) -> u8x16
    ensures { result ≡ lanes_where (is_within low high) bytes }
{
    let from = bytes
        .simd_ge(u8x16::splat(low))
        .select(u8x16::splat(255), u8x16::splat(0));
    let to = bytes
        .simd_le(u8x16::splat(high))
        .select(u8x16::splat(255), u8x16::splat(0));
    from & to
}

/// Where no flow indicators stand.
#[inline(always)]
fn outside_flow(bytes: u8x16) -> u8x16
    ensures { result ≡ lanes_where (λ c. not (is_flow c)) bytes }
{
    let comma = except(bytes, b',');
    let opening = except(bytes, b'[');
    let closing = except(bytes, b']');
    let beginning = except(bytes, b'{');
    let ending = except(bytes, b'}');
    (comma & (opening & closing)) & (beginning & ending)
}

/// Where content of a plain scalar stands, whatever follows it.
#[inline(always)]
fn plain(bytes: u8x16, in_flow: bool) -> u8x16
    ensures { result ≡ lanes_where (is_plain_ascii in_flow) bytes }
{
    let shown = within(bytes, b'!', b'~');
    let others = except(bytes, b':');
    if in_flow {
        let outside = outside_flow(bytes);
        shown & (others & outside)
    } else {
        shown & others
    }
}

/// Where characters stand for themselves in quotes.
#[inline(always)]
fn quoted(bytes: u8x16, single: bool) -> u8x16
    ensures { result ≡ lanes_where (is_quoted_ascii single) bytes }
{
    let shown = within(bytes, b'!', b'~');
    if single {
        let others = except(bytes, b'\'');
        shown & others
    } else {
        let others = except(bytes, b'"');
        let unescaped = except(bytes, b'\\');
        shown & (others & unescaped)
    }
}

/// Where spaces and printable characters of a line stand.
#[inline(always)]
fn line(bytes: u8x16) -> u8x16
    ensures { result ≡ lanes_where (λ c. is_within 0x20 0x7E c || c == 0x09) bytes }
{
    let shown = within(bytes, b' ', b'~');
    let tabs = equal(bytes, b'\t');
    shown | tabs
}

/// How many lanes in front are set.
#[inline(always)]
fn front(lanes: u8x16) -> usize
    ensures { result ≡ prefix_len (λ a. not (a == 0)) lanes }
{
    let stops = lanes.simd_eq(u8x16::splat(0)).to_bitmask();
    if stops == 0 {
        LANES
    } else {
        stops.trailing_zeros() as usize
    }
}

/// How many bytes from a place on, of sixteen, are printable characters of a line.
#[inline(always)]
fn line_at(bytes: &[u8], at: usize) -> usize
    requires { at + LANES < length bytes.now }
    ensures few { result ≤ LANES }
    ensures each { (k : ℕ) → k < result → TakesByte (starts is_line_char) bytes.now (at + k) }
{
    let here = u8x16::from_slice(&bytes[at..]);
    let shown = line(here);
    front(shown)
}

/// The same of characters of a plain scalar's words.
#[inline(always)]
fn plain_words_at(bytes: &[u8], at: usize, in_flow: bool) -> usize
    requires { at + LANES < length bytes.now }
    ensures few { result ≤ LANES }
    ensures each { (k : ℕ) → k < result → TakesByte (is_plain_word in_flow) bytes.now (at + k) }
    ensures shown { (k : ℕ) → k < result → is_within 0x20 0x7E (slice_index bytes.now (at + k)) ≡ true }
{
    let here = u8x16::from_slice(&bytes[at..]);
    let next = u8x16::from_slice(&bytes[at + 1..]);
    let words = plain(here, in_flow);
    let spaces = equal(here, b' ');
    let others = except(next, b'#');
    let begins = plain(next, in_flow);
    front(words | (spaces & (others & begins)))
}

/// The same of characters of a quoted scalar's words.
#[inline(always)]
fn quoted_words_at(bytes: &[u8], at: usize, single: bool) -> usize
    requires { at + LANES < length bytes.now }
    ensures few { result ≤ LANES }
    ensures each { (k : ℕ) → k < result → TakesByte (is_quoted_word single) bytes.now (at + k) }
{
    let here = u8x16::from_slice(&bytes[at..]);
    let next = u8x16::from_slice(&bytes[at + 1..]);
    let words = quoted(here, single);
    let spaces = equal(here, b' ');
    let begins = quoted(next, single);
    front(words | (spaces & begins))
}

/// How many bytes from a place on, of sixteen, a run that is often long surely takes; none of another run.
#[inline(always)]
pub fn taken_at(bytes: &[u8], at: usize, run: Run) -> usize
    requires { at + LANES < length bytes.now }
    ensures few { result ≤ LANES }
    ensures each { (k : ℕ) → k < result → TakesByte (run_test run) bytes.now (at + k) }
    ensures shown { (k : ℕ) → k < result → ShowsByte run (slice_index bytes.now (at + k)) }
{
    match run {
        Run::Of(Class::Printable) => line_at(bytes, at),
        Run::PlainWords(in_flow) => plain_words_at(bytes, at, in_flow),
        Run::QuotedWords(single) => quoted_words_at(bytes, at, single),
        _ => 0,
    }
}
