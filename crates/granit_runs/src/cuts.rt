//! Parts of a string.
ghost use Rattle.std.specs.Prelude.{◌≡◌, ◌≤◌, ◌<◌, ℕ, ◌+◌, ◌∷◌, List, Some, length, take, drop, slice_index};
ghost use Rattle.std.specs.Prelude.{not, true};
ghost use Rattle.std.specs.List.{find};
ghost use Rattle.std.specs.Str.{chars, is_utf8};
ghost use Rattle.granit_base.specs.Classes.{is_printable};
ghost use Rattle.granit_runs.specs.Chunks.{FrontOf, TakesFront};
ghost use Rattle.granit_runs.specs.Cuts.{SpellsFront, IsAsciiFront, PartOf};
ghost use Rattle.granit_runs.specs.Runs.{run_test, starts};
ghost use Rattle.granit_runs.specs.White.{blanks_length, holds, is_skipped, whitespace_found};
ghost use Rattle.granit_runs.specs.Words.{ShowsByte, ShowsFront};

use crate::class::{Class, Run};
use crate::lanes::{LANES, taken_at};
use crate::whitespace::{SkipTabs, WhitespaceResult};
use granit_base::{is_printable, split_first_char};

/// What follows so many characters, or nothing where there are fewer.
pub fn behind(s: &str, count: usize) -> &str
    ensures text { chars result.now ≡ drop count (chars s.now) }
    ensures bytes { SpellsFront s.now count result.now }
{
    let mut rest = s;
    let mut taken = 0;
    'taken: while taken < count {
        match split_first_char(rest) {
            Some((_, after)) => rest = after,
            None => return rest,
        }
        taken += 1;
    }
    rest
}

/// What follows a run of at most `limit` characters, behind whether the run ended and how many it has.
pub fn past_run(s: &str, run: Run, limit: usize) -> (bool, usize, &str)
    ensures front { TakesFront (run_test run) (chars s.now) limit result.0 result.1 }
    ensures limit { result.1 ≤ limit }
    ensures text { chars result.2.now ≡ drop result.1 (chars s.now) }
    ensures bytes { SpellsFront s.now result.1 result.2.now }
    ensures utf8 { is_utf8 result.2.now ≡ true }
{
    let mut rest = s;
    let mut count = 0;
    'run: while count < limit {
        let Some((c, after)) = split_first_char(rest) else {
            return (true, count, rest);
        };
        if !run.takes(c, after) {
            return (true, count, rest);
        }
        let (more, behind) = past_ascii(after, run, limit - count - 1);
        rest = behind;
        count += 1 + more;
    }
    (false, count, rest)
}

/// What follows characters of ASCII that a run takes, at most `limit`, behind how many these are.
#[inline(always)]
fn past_ascii(s: &str, run: Run, limit: usize) -> (usize, &str)
    ensures front { FrontOf (run_test run) (chars s.now) result.0 }
    ensures limit { result.0 ≤ limit }
    ensures text { chars result.1.now ≡ drop result.0 (chars s.now) }
    ensures bytes { SpellsFront s.now result.0 result.1.now }
    ensures utf8 { is_utf8 result.1.now ≡ true }
{
    let count = ascii_count(s, run, limit);
    (count, &s[count..])
}

/// How many characters of ASCII a run takes in front, at most `limit`. A run that is often long has a loop of its
/// own, since what counts is carried out here.
pub fn ascii_count(s: &str, run: Run, limit: usize) -> usize
    ensures front { IsAsciiFront (run_test run) s.now result }
    ensures limit { result ≤ limit }
    ensures shown { ShowsFront run s.now result }
{
    match run {
        Run::Of(Class::Printable) => ascii_lanes(s, Run::Of(Class::Printable), limit),
        Run::PlainWords(true) => ascii_lanes(s, Run::PlainWords(true), limit),
        Run::PlainWords(false) => ascii_lanes(s, Run::PlainWords(false), limit),
        Run::QuotedWords(true) => ascii_lanes(s, Run::QuotedWords(true), limit),
        Run::QuotedWords(false) => ascii_lanes(s, Run::QuotedWords(false), limit),
        _ => ascii_front(s, run, limit, 0),
    }
}

/// The same, sixteen at a time as long as there are more, carried out where it is called.
#[inline(always)]
fn ascii_lanes(s: &str, run: Run, limit: usize) -> usize
    ensures front { IsAsciiFront (run_test run) s.now result }
    ensures limit { result ≤ limit }
    ensures shown { ShowsFront run s.now result }
{
    let bytes = s.as_bytes();
    let end = limit.min(bytes.len());
    let mut count = 0;
    'lanes: while end - count > LANES {
        let taken = taken_at(bytes, count, run);
        count += taken;
        if taken < LANES {
            return count;
        }
    }
    ascii_front(s, run, limit, count)
}

/// The same behind characters that were counted, carried out where it is called.
#[inline(always)]
fn ascii_front(s: &str, run: Run, limit: usize, counted: usize) -> usize
    requires counted { IsAsciiFront (run_test run) s.now counted }
    requires within { counted ≤ limit }
    requires shown { ShowsFront run s.now counted }
    ensures front { IsAsciiFront (run_test run) s.now result }
    ensures limit { result ≤ limit }
    ensures shown { ShowsFront run s.now result }
{
    let bytes = s.as_bytes();
    let end = limit.min(bytes.len());
    let mut count = counted;
    'front: while count < end {
        if !takes_byte(bytes, count, run) {
            return count;
        }
        count += 1;
    }
    count
}

/// Whether a run surely takes the character of ASCII at a place.
#[inline(always)]
fn takes_byte(bytes: &[u8], at: usize, run: Run) -> bool
    requires { at < length bytes.now }
    ensures low { result ≡ true → slice_index bytes.now at < 0x80 }
    ensures takes { (after : List ℕ) → result ≡ true → chars (drop (at + 1) bytes.now) ≡ after
        → is_utf8 (drop (at + 1) bytes.now) ≡ true → run_test run (slice_index bytes.now at ∷ after) ≡ true }
    ensures shown { result ≡ true → ShowsByte run (slice_index bytes.now at) }
{
    let byte = bytes[at];
    let next = behind_space(bytes, at, byte);
    let is_ascii = byte < 0x80;
    is_ascii && run.takes_ascii(byte as char, next as char)
}

/// The byte behind a place where a space stands, and else 0.
#[inline(always)]
fn behind_space(bytes: &[u8], at: usize, byte: u8) -> u8
    requires { at < length bytes.now }
    ensures { 0 < result → (at + 1 < length bytes.now) × (result ≡ slice_index bytes.now (at + 1)) }
{
    if byte == b' ' && at + 1 < bytes.len() {
        return bytes[at + 1];
    }
    0
}

/// What follows spaces, and tabs where these are skipped, behind how many these are and what is among them.
#[inline(always)]
pub fn past_white(s: &str, skip_tabs: SkipTabs) -> (usize, WhitespaceResult, &str)
    ensures whole { result.0 ≡ blanks_length skip_tabs (chars s.now) }
    ensures found { result.1 ≡ whitespace_found (take result.0 (chars s.now)) }
    ensures text { chars result.2.now ≡ drop result.0 (chars s.now) }
    ensures bytes { SpellsFront s.now result.0 result.2.now }
    ensures utf8 { is_utf8 result.2.now ≡ true }
{
    let (count, found) = white_front(s, skip_tabs);
    (count, found, &s[count..])
}

/// How many of them stand in front, and what is among them.
#[inline(always)]
fn white_front(s: &str, skip_tabs: SkipTabs) -> (usize, WhitespaceResult)
    ensures front { IsAsciiFront (starts (is_skipped skip_tabs)) s.now result.0 }
    ensures whole { result.0 ≡ blanks_length skip_tabs (chars s.now) }
    ensures found { result.1 ≡ whitespace_found (take result.0 (chars s.now)) }
{
    let bytes = s.as_bytes();
    let mut found = WhitespaceResult::new(false, false);
    let mut count = 0;
    'white: while count < bytes.len() {
        let c = bytes[count] as char;
        if !skip_tabs.skips(c) {
            return (count, found);
        }
        found = found.with(c);
        count += 1;
    }
    (count, found)
}

/// The first character that isn't printable.
pub fn find_unprintable(s: &str) -> Option<char>
    ensures { result ≡ find (λ c. not (is_printable c)) (chars s.now) }
{
    let mut rest = s;
    'found: while let Some((c, after)) = split_first_char(rest) {
        if !is_printable(c) {
            return Some(c);
        }
        let (_, behind) = past_ascii(after, Run::Of(Class::Printable), usize::MAX);
        rest = behind;
    }
    None
}

/// What stands in front of the rest of a string.
pub fn before<'a>(s: &'a str, rest: &str) -> &'a str
    requires { (count : ℕ) × SpellsFront s.now count rest.now }
    ensures { (count : ℕ) → SpellsFront s.now count rest.now → chars result.now ≡ take count (chars s.now) }
{
    &s[..s.len() - rest.len()]
}

/// The bytes from `start` to `end`, where both lie between characters.
pub fn part(s: &str, start: usize, end: usize) -> Option<&str>
    ensures { PartOf (Some s.now) start end result }
{
    if start <= end && s.is_char_boundary(start) && s.is_char_boundary(end) {
        Some(&s[start..end])
    } else {
        None
    }
}

/// Whether a byte is in a string.
#[tactic(auto, using(crate::proofs::HoldsLemmas::any_holds))]
pub fn has_byte(s: &str, byte: u8) -> bool
    ensures { result ≡ holds byte s.now }
{
    s.as_bytes().contains(&byte)
}
