//! The characters of a string.
ghost use Rattle.std.specs.Prelude.{◌≡◌, ℕ, ◌-◌, ◌<◌, ◌≤◌, ◌^◌, true, false, Some, [], length, take, drop, min};
ghost use Rattle.std.specs.Str.{chars, is_utf8};
ghost use Rattle.granit_base.specs.Place.{Unread, first};
ghost use Rattle.granit_runs.specs.Cuts.{SpellsFront, last_bytes};
ghost use Rattle.granit_input.specs.Looks.{ReadsNonBreakz};
ghost use Rattle.granit_runs.specs.Runs.{run_length, run_test};
ghost use Rattle.granit_runs.specs.Unread.{past_count};

use crate::borrowed::BorrowedInput;
use crate::input::Input;
use granit_base::{NoMemory, is_at_end, is_breakz, nth_char, push_text, split_first_char};
use granit_error::ErrorKind;
use granit_runs::{
    Run, SkipTabs, WhitespaceResult, before, behind, behind_lines, has_byte, lines_front, part,
    past_line, past_run, past_white, quoted_front, split_words, stops_words,
};

/// The characters of a string. All of them may be looked at, so its window is the greatest from the start on.
#[derive(Drop)]
pub struct StrInput<'a> {
    source: &'a str,
    rest: &'a str,
    ghost suffix: { drop (length source.now - length rest.now) source.now ≡ rest.now },
    ghost short: { length source.now < 2 ^ 63 },
    ghost within: { length rest.now ≤ length source.now },
    ghost utf8: { is_utf8 rest.now ≡ true },
}

impl<'a> StrInput<'a> {
    ghost use Rattle.granit_input.specs.Strings.{LeftInString};

    /// All characters of a string.
    pub fn new(input: &'a str) -> StrInput<'a>
        ensures unread { LeftInString result (record { text = chars input.now; offset = Some 0; lends = true }) }
        ensures source { result.source.now ≡ input.now }
    {
        StrInput {
            source: input,
            rest: input,
        }
    }
}

impl<'a> StrInput<'a> {
    /// Consumes a run, and says how many characters it has.
    fn pass_run(&mut self, run: Run) -> usize
        ensures whole { result ≡ run_length (run_test run) (chars self.old.rest.now) }
        ensures text { chars self.new.rest.now ≡ drop result (chars self.old.rest.now) }
        ensures bytes { SpellsFront self.old.rest.now result self.new.rest.now }
        ensures kept { self.new.source.now ≡ self.old.source.now }
    {
        let (_, count, rest) = past_run(self.rest, run, usize::MAX);
        self.rest = rest;
        count
    }

    /// What was consumed since so many bytes were left.
    fn since(&self, left: usize) -> &str
        requires within { left ≤ length self.now.source.now }
        requires utf8 { is_utf8 (last_bytes left self.now.source.now) ≡ true }
        requires front { (count : ℕ) × SpellsFront (last_bytes left self.now.source.now) count self.now.rest.now }
        ensures { (count : ℕ) → SpellsFront (last_bytes left self.now.source.now) count self.now.rest.now
            → chars result.now ≡ take count (chars (last_bytes left self.now.source.now)) }
    {
        before(&self.source[self.source.len() - left..], self.rest)
    }
}

impl<'a> Input for StrInput<'a> {
    ghost use Rattle.std.specs.Borrow.{sem};
    ghost use Rattle.std.specs.Io.BufRead.{Rests};
    ghost use Rattle.std.specs.Str.{chars};
    ghost use mir.Syntax.{named};
    ghost use Rattle.granit_input.specs.Laws.{string_short, string_agrees, string_floor};
    ghost use Rattle.granit_runs.specs.Runs.{starts, is_quoted_ascii, is_quoted_char};
    ghost use Rattle.granit_input.specs.Strings.{LeftInString, MayLook, MovesBy, MovesIfSome, TakesRun, IsWhole};
    ghost use Rattle.granit_input.specs.Strings.{count_left, string_origin, window_of};
    ghost use Rattle.granit_runs.specs.White.{holds};
    ghost use Rattle.granit_input.specs.contracts.str_input.StrInput.{the_row};

    ghost unread = { λ s u. LeftInString s u };

    ghost left = { λ s. count_left s };

    ghost window = { λ s. window_of s };

    ghost origin = { λ s. string_origin s };

    ghost short = { λ s. string_short s.source.now s.rest.now s.within s.short };

    ghost floored = { λ s. string_floor (window_of s) };

    ghost fails = { λ s f known none. none };

    ghost agrees = { λ s u is. string_agrees s.source.now s.rest.now (window_of s) u s.suffix s.utf8 is };

    fn lookahead(&mut self, count: usize)
        ensures unread { (u : Unread) → LeftInString self.old u → LeftInString self.new u }
        ensures moves { MayLook (min count 8) self.old self.new }
        ensures reach { count ≤ window_of self.new }
        ensures same { self.new ≡ self.old }
    {}

    fn buflen(&self) -> usize {
        usize::MAX
    }

    fn bufmaxlen(&self) -> usize
        ensures reach { 8 ≤ result }
        ensures value { result ≡ 128 }
    {
        128
    }

    fn raw_read_ch(&mut self) -> char
        ensures read { (u : Unread) → LeftInString self.old u
            → LeftInString self.new (past_count 1 u) × (result ≡ first u.text) }
        ensures moves { MovesBy 1 self.old self.new }
    {
        match split_first_char(self.rest) {
            Some((c, rest)) => {
                self.rest = rest;
                c
            }
            None => '\0',
        }
    }

    fn raw_read_non_breakz_ch(&mut self) -> Option<char>
        ensures read { (u : Unread) → LeftInString self.old u → ReadsNonBreakz u result (LeftInString self.new) }
        ensures moves { MovesIfSome result self.old self.new }
    {
        match split_first_char(self.rest) {
            Some((c, rest)) => {
                if is_breakz(c) {
                    return None;
                }
                self.rest = rest;
                Some(c)
            }
            None => None,
        }
    }

    fn skip(&mut self)
        ensures unread { (u : Unread) → LeftInString self.old u → LeftInString self.new (past_count 1 u) }
        ensures moves { MovesBy 1 self.old self.new }
    {
        if let Some((_, rest)) = split_first_char(self.rest) {
            self.rest = rest;
        }
    }

    fn skip_n(&mut self, count: usize)
        ensures unread { (u : Unread) → LeftInString self.old u → LeftInString self.new (past_count count u) }
        ensures moves { MovesBy count self.old self.new }
    {
        self.rest = behind(self.rest, count);
    }

    fn skip_run(&mut self, run: Run, limit: usize) -> (bool, usize) {
        let (ended, count, rest) = past_run(self.rest, run, limit);
        self.rest = rest;
        (ended, count)
    }

    fn fetch_run(
        &mut self,
        out: &mut String,
        run: Run,
        limit: usize,
    ) -> Result<(bool, usize), NoMemory> {
        let (ended, count, rest) = past_run(self.rest, run, limit);
        push_text(out, before(self.rest, rest))?;
        self.rest = rest;
        Ok((ended, count))
    }

    fn skip_ws_to_eol_blanks(&mut self, skip_tabs: SkipTabs) -> (usize, WhitespaceResult) {
        let (count, found, rest) = past_white(self.rest, skip_tabs);
        self.rest = rest;
        (count, found)
    }

    fn take_lines(&mut self) -> Option<(usize, usize, usize)> {
        match lines_front(self.rest) {
            None => None,
            Some((count, lines, spaces)) => {
                self.rest = behind_lines(self.rest, count);
                Some((count, lines, spaces))
            }
        }
    }

    fn take_quoted(&mut self, single: bool, in_flow: bool) -> Option<(usize, usize)> {
        let (count, rest) = quoted_front(self.rest, single, in_flow)?;
        let start = self.source.len() - self.rest.len() + 1;
        self.rest = rest;
        Some((start, start + count))
    }

    fn take_quoted_scalar_ascii_chunk(&mut self, single: bool) -> (&str, usize)
        ensures* rests { sem 𝓛 (Rests (the_row (record { mir = named 1; lft = [] })) self.entry (λ new.
            TakesRun (starts (is_quoted_ascii single)) result.0 self.old new)) }
        ensures count { result.1 ≡ length (chars result.0.now) }
        ensures whole { IsWhole (starts (is_quoted_ascii single)) result.0 self.old }
    {
        let left = self.rest.len();
        let count = self.pass_run(Run::QuotedAscii(single));
        (self.since(left), count)
    }

    fn take_quoted_scalar_chunk(&mut self, single: bool) -> (&str, usize)
        ensures* rests { sem 𝓛 (Rests (the_row (record { mir = named 1; lft = [] })) self.entry (λ new.
            TakesRun (starts (is_quoted_char single)) result.0 self.old new)) }
        ensures count { result.1 ≡ length (chars result.0.now) }
        ensures whole { IsWhole (starts (is_quoted_char single)) result.0 self.old }
    {
        let left = self.rest.len();
        let count = self.pass_run(Run::Quoted(single));
        (self.since(left), count)
    }

    fn peek(&self) -> char {
        nth_char(self.rest, 0)
    }

    fn peek_nth(&self, n: usize) -> char {
        nth_char(self.rest, n)
    }

    fn next_is_z(&self) -> bool {
        is_at_end(self.rest)
    }

    fn byte_offset(&self) -> Option<usize> {
        Some(self.source.len() - self.rest.len())
    }

    fn slice_bytes(&self, start: usize, end: usize) -> Option<&str> {
        part(self.source, start, end)
    }

    fn take_source_error(&mut self) -> Option<ErrorKind> {
        None
    }

    fn take_plain(
        &mut self,
        in_flow: bool,
        column: Option<usize>,
    ) -> Option<(usize, usize, Option<usize>)> {
        let (_, behind) = split_words(self.rest, in_flow)?;
        let start = self.source.len() - self.rest.len();
        let end = self.source.len() - behind.len();
        if stops_words(behind, in_flow) {
            self.rest = behind;
            return Some((start, end, None));
        }
        let (spaces, after) = past_line(behind, in_flow, column)?;
        self.rest = after;
        Some((start, end, Some(spaces)))
    }

    fn may_contain_comments(&self) -> bool
        ensures rest { result ≡ false → (u : Unread) → LeftInString self.now u → holds 0x23 u.text ≡ false }
        ensures source { result ≡ false → holds 0x23 self.now.source.now ≡ false }
        ensures exact { result ≡ holds 0x23 self.now.source.now }
    {
        has_byte(self.source, b'#')
    }
}

impl<'a> BorrowedInput<'a> for StrInput<'a> {
    fn slice_borrowed(&self, start: usize, end: usize) -> Option<&'a str> {
        part(self.source, start, end)
    }
}
