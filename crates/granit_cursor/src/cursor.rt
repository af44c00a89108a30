//! An input, and the place up to which it was read.
ghost use Rattle.std.specs.Prelude.{◌≡◌, ◌<◌, ◌≤◌, ◌+◌, ◌-◌, ◌^◌, ◌==◌, ◌&&◌, max, min, is_some, true, false, None};
ghost use Rattle.std.specs.Prelude.{Some, if◌then◌else◌, IfOk};
ghost use Rattle.std.specs.Borrow.{sem};
ghost use Rattle.std.specs.Io.BufRead.{Rests};
ghost use Rattle.std.specs.Option.{option_map};
ghost use Rattle.std.specs.Str.{chars};
ghost use Rattle.granit_base.specs.Classes.{is_alpha, is_blank, is_yaml_non_space, is_non_breakz};
ghost use Rattle.granit_base.specs.Place as place;
ghost use Rattle.granit_base.specs.Written.{string_chars};
ghost use Rattle.granit_error.specs.Kinds.{kind_of};
ghost use Rattle.granit_runs.specs.Chunks.{Extends};
ghost use Rattle.granit_input.specs.Origin.{error_given, Gave, Goes, LentBetween};
ghost use Rattle.granit_runs.specs.Runs.{starts, is_line_char, is_plain_word, is_quoted_char};
ghost use Rattle.granit_runs.specs.Runs.{is_quoted_word};
ghost use Rattle.granit_base.specs.PlainContent.{is_content};
ghost use Rattle.granit_runs.specs.Lines.{is_line_gap, is_visible};
ghost use Rattle.granit_runs.specs.White.{is_skipped};
ghost use Rattle.granit_runs.specs.declared.whitespace.SkipTabs.TheVariants.{No};
ghost use Rattle.granit_lexemes.specs.Here as spec;
ghost use Rattle.granit_lexemes.specs.Here.{Here, first_place, mark_of, next_char, past, step};
ghost use Rattle.granit_lexemes.specs.Moves.{past_prefix_mark};
ghost use Rattle.granit_cursor.specs.Reading.{Stands, GoesOnward, Moves, Takes, Wherever, GoesTo, InsideLine, StepsRun};
ghost use Rattle.granit_cursor.specs.Reading.{StepsFront, FetchesSteps, FetchesFrontSteps, LendsSteps, has_source};
ghost use Rattle.granit_cursor.specs.contracts.cursor.Cursor.{the_row};

mod quoted;

use granit_base::{Marker, NoMemory, is_blank};
use granit_error::ErrorKind;
use granit_input::{Class, Input, Run, SkipTabs};
pub use quoted::take_quoted;
use std::marker::Model;

/// An input, and the place up to which it was read, with what stands before that on its line. Clauses on
/// what is read speak of whatever is known to be left; `Here` is that with its place.
#[derive(Drop)]
pub struct Cursor<T: Input> {
    pub(crate) input: T,
    pub(crate) index: usize,
    pub(crate) line: usize,
    pub(crate) col: usize,
    /// Whether only blanks and prefix marks stand before it on its line.
    pub(crate) begins_line: bool,
    /// The first tab of the blanks directly before it on its line.
    pub(crate) tab: Option<Marker>,
    /// Whether memory ran out in the midst of a run, so that it isn't known how much of it was taken.
    lost: bool,
}

impl<T: Input> Model for Cursor<T> {
    ghost use Rattle.std.specs.Prelude.{◌+◌, ◌<◌, ◌≤◌, ◌^◌};
    ghost use Rattle.granit_cursor.specs.Reading.{Reading};

    ghost Value = { Reading T };

    ghost view = { λ c. record {
      input = c.input;
      place = record { index = c.index; line = c.line; column = c.col };
      begins_line = c.begins_line;
      tab = c.tab;
      lost = c.lost;
    } };

    // no text is longer than memory, so no place passes `usize`
    ghost invariant = { λ c. (c.index + T.left c.input < 2 ^ 63) × (c.line ≤ c.index + 1) × (c.col ≤ c.index) };
}

impl<T: Input> Cursor<T> {
    /// At the start of an input.
    pub fn new(input: T) -> Cursor<T>
        ensures { result
            ≡ record { input = input; place = first_place; begins_line = true; tab = None; lost = false } }
    {
        Cursor {
            input,
            index: 0,
            line: 1,
            col: 0,
            begins_line: true,
            tab: None,
            lost: false,
        }
    }

    /// The place up to which was read, with its byte offset where the input tells one.
    pub fn mark(&self) -> Marker
        ensures here { (h : Here) → Stands T.unread self.now h → result ≡ mark_of h }
        ensures place { result.place ≡ self.now.place }
        ensures told { is_some result.byte_offset ≡ (T.origin self.now.input).tells_offset }
    {
        Marker::new(self.index, self.line, self.col).with_byte_offset(self.input.byte_offset())
    }

    /// Whether only blanks and prefix marks stand before the place on its line.
    pub fn begins_line(&self) -> bool
        ensures { result ≡ self.now.begins_line }
    {
        self.begins_line
    }

    /// The first tab of the blanks directly before the place on its line.
    pub fn tab(&self) -> Option<Marker>
        ensures { result ≡ self.now.tab }
    {
        self.tab
    }

    /// Whether a tab is among the blanks directly before the place on its line.
    #[inline(always)]
    pub fn has_tab(&self) -> bool
        ensures { result ≡ is_some self.now.tab }
    {
        self.tab.is_some()
    }

    /// Whether it isn't known where it stands, since memory ran out in the midst of a run.
    pub fn is_lost(&self) -> bool
        ensures { result ≡ self.now.lost }
    {
        self.lost
    }

    /// The input, for looking.
    pub fn input(&self) -> &T
        ensures { result.now ≡ self.now.input }
    {
        &self.input
    }

    /// Makes the window at least `count` characters where that is at most 8, and consumes nothing.
    pub fn look(&mut self, count: usize)
        ensures here { GoesTo T.unread self.old self.new (λ h. h) }
        ensures place { self.new.place ≡ self.old.place }
        ensures window { max (min count 8) (T.window self.old.input) ≤ T.window self.new.input }
        ensures lost { self.new.lost ≡ self.old.lost }
        ensures moves { Moves T.unread T.left T.origin self.old self.new }
    {
        self.input.lookahead(count);
    }

    /// Consumes the next character, if there is one, and moves the place: a line ends with LF, and with
    /// CR that no LF follows (YAML 1.2.2, 5.4).
    #[inline(always)]
    pub fn step(&mut self)
        ensures here { GoesTo T.unread self.old self.new step }
        ensures left { T.left self.new.input ≤ T.left self.old.input - 1 }
        ensures window { T.window self.old.input ≤ T.window self.new.input + 1 }
        ensures lost { self.new.lost ≡ self.old.lost }
        ensures moves { Moves T.unread T.left T.origin self.old self.new }
    {
        self.take_one();
    }

    /// The same, by what is known of it.
    #[inline(always)]
    fn take_one(&mut self)
        ensures here { GoesTo T.unread self.old self.new step }
        ensures left { T.left self.new.input ≤ T.left self.old.input - 1 }
        ensures window { T.window self.old.input ≤ T.window self.new.input + 1 }
        ensures origin { Goes (T.origin self.old.input) (T.origin self.new.input) }
        ensures lost { self.new.lost ≡ self.old.lost }
    {
        self.input.lookahead(2);
        if self.input.peek() <= ' ' {
            self.take_quiet();
            return;
        }
        self.input.skip();
        self.index += 1;
        self.col += 1;
        self.begins_line = false;
        clear_tab(&mut self.tab);
    }

    /// The same where mostly a blank or a break stands here.
    #[inline(never)]
    #[tactic(auto, unfolding(granit_lexemes::specs::Here::step), using(granit_input::proofs::UnreadLemmas::past_one))]
    fn take_quiet(&mut self)
        ensures here { GoesTo T.unread self.old self.new step }
        ensures left { T.left self.new.input ≤ T.left self.old.input - 1 }
        ensures window { T.window self.old.input ≤ T.window self.new.input + 1 }
        ensures origin { Goes (T.origin self.old.input) (T.origin self.new.input) }
        ensures lost { self.new.lost ≡ self.old.lost }
    {
        self.input.lookahead(2);
        if self.input.next_is_z() {
            return;
        }
        let c = self.input.peek();
        let breaks = ends_line(&self.input);
        self.note_tab(c, breaks);
        self.begins_line = breaks || is_quiet(c) && self.begins_line;
        self.input.skip();
        self.index += 1;
        if breaks {
            self.line += 1;
            self.col = 0;
        } else {
            self.col += 1;
        }
    }

    /// Keeps the first tab of the blanks before the next place, by the character between.
    #[tactic(auto, unfolding(granit_lexemes::specs::Here::tab_behind))]
    fn note_tab(&mut self, c: char, breaks: bool)
        ensures same { self.new ≡ record self.old { tab = self.new.tab } }
        ensures tab { (h : Here) → Stands T.unread self.old h → c ≡ next_char h
            → breaks ≡ place.ends_line h.unread.text → self.new.tab ≡ spec.tab_behind h }
    {
        if breaks || !is_quiet(c) {
            self.tab = None;
            return;
        }
        if c == '\t' && self.tab.is_none() {
            let mark = self.mark();
            self.tab = Some(mark);
        }
    }

    /// The first tab of the blanks before the next place, where the next character is a tab.
    fn first_tab(&self) -> Marker
        ensures { (h : Here) → Stands T.unread self.now h → Some result ≡ spec.first_tab h.tab (mark_of h) }
    {
        match self.tab {
            None => self.mark(),
            Some(tab) => tab,
        }
    }

    /// Consumes the byte-order mark that stands next in column 0, and counts no column
    /// (YAML 1.2.2, 5.2).
    #[tactic(auto, unfolding(granit_lexemes::specs::Moves::past_prefix_mark))]
    pub fn step_prefix_mark(&mut self)
        requires mark { (h : Here) → Stands T.unread self.old h → next_char h ≡ 0xFEFF }
        requires column { self.old.place.column ≡ 0 }
        ensures here { GoesTo T.unread self.old self.new past_prefix_mark }
        ensures left { T.left self.new.input ≤ T.left self.old.input - 1 }
        ensures window { T.window self.old.input ≤ T.window self.new.input + 1 }
        ensures lost { self.new.lost ≡ self.old.lost }
        ensures moves { Moves T.unread T.left T.origin self.old self.new }
    {
        self.input.lookahead(1);
        if self.input.next_is_z() {
            return;
        }
        self.input.skip();
        self.index += 1;
    }

    /// Over line feeds and the spaces behind each, where the input sees that a visible character of ASCII stands behind
    /// them; whether that was so. Nothing is consumed elsewhere (YAML 1.2.2, 6.1).
    #[inline(always)]
    pub fn take_lines(&mut self) -> bool
        ensures here { GoesTo T.unread self.old self.new (λ h. if result then past is_line_gap h else h) }
        ensures clear { result ≡ true → (h : Here) → Stands T.unread self.new h → is_visible (next_char h) ≡ true }
        ensures looks { result ≡ true → 8 ≤ T.window self.new.input }
        ensures left { T.left self.new.input + self.new.place.index ≤ T.left self.old.input + self.old.place.index }
        ensures window { T.window self.old.input + self.old.place.index
            ≤ T.window self.new.input + self.new.place.index }
        ensures lost { self.new.lost ≡ self.old.lost }
        ensures moves { Moves T.unread T.left T.origin self.old self.new }
    {
        match self.input.take_lines() {
            None => false,
            Some((count, lines, spaces)) => {
                self.index += count;
                self.line += lines;
                self.col = spaces;
                self.begins_line = true;
                self.tab = None;
                true
            }
        }
    }

    /// The first error that the input's source gave, once.
    pub fn take_source_error(&mut self) -> Option<ErrorKind>
        ensures given { option_map kind_of result ≡ error_given (T.origin self.old.input) }
        ensures here { GoesTo T.unread self.old self.new (λ h. h) }
        ensures place { self.new.place ≡ self.old.place }
        ensures left { T.left self.new.input ≤ T.left self.old.input }
        ensures window { T.window self.old.input ≤ T.window self.new.input }
        ensures origin { Gave (T.origin self.old.input) (T.origin self.new.input) }
        ensures lost { self.new.lost ≡ self.old.lost }
        ensures onward { GoesOnward T.unread self.old self.new }
    {
        self.input.take_source_error()
    }

    /// Consumes and appends what a plain scalar takes without blanks: true where the run ended, false
    /// where `count` characters were taken; and how many (YAML 1.2.2, 7.3.3).
    /// Its error is `NoMemory` alone, and what the text held stays in front.
    pub fn fetch_plain_scalar_chunk(
        &mut self,
        out: &mut String,
        count: usize,
        flow_level_gt_0: bool,
    ) -> Result<(bool, usize), NoMemory>
        ensures here { Wherever T.unread self.old self.new (λ h Lands.
            FetchesFrontSteps (is_content flow_level_gt_0) h count result Lands
            (string_chars out.old) (string_chars out.new)) }
        ensures kept { Extends (string_chars out.old) (string_chars out.new) }
        ensures few { IfOk result (λ r. r.0 ≡ false → count ≤ r.1) }
        ensures limit { IfOk result (λ r. r.1 ≤ count) }
        ensures takes { IfOk result (λ r. Takes T.left T.window self.old self.new r.1) }
        ensures moves { Moves T.unread T.left T.origin self.old self.new }
    {
        let lost = self.lost;
        self.lost = true;
        let (ended, taken) = self
            .input
            .fetch_plain_scalar_chunk(out, count, flow_level_gt_0)?;
        self.lost = lost;
        self.index += taken;
        self.col += taken;
        self.begins_line = still_begins(self.begins_line, taken);
        drop_tab(&mut self.tab, taken);
        Ok((ended, taken))
    }

    /// The same without appending.
    pub fn skip_plain_scalar_chunk(&mut self, count: usize, flow_level_gt_0: bool) -> (bool, usize)
        ensures here { Wherever T.unread self.old self.new (λ h Lands.
            StepsFront (is_content flow_level_gt_0) h count result Lands) }
        ensures few { result.0 ≡ false → count ≤ result.1 }
        ensures limit { result.1 ≤ count }
        ensures takes { Takes T.left T.window self.old self.new result.1 }
        ensures moves { Moves T.unread T.left T.origin self.old self.new }
    {
        let (ended, taken) = self.input.skip_plain_scalar_chunk(count, flow_level_gt_0);
        self.index += taken;
        self.col += taken;
        self.begins_line = still_begins(self.begins_line, taken);
        drop_tab(&mut self.tab, taken);
        (ended, taken)
    }

    /// Consumes the characters that stand for themselves in quotes, up to the first other or a blank, and
    /// lends them with their number (YAML 1.2.2, 7.3.1 and 7.3.2); nothing where the input has no source
    /// to lend them from.
    pub fn take_quoted_scalar_chunk(&mut self, single: bool) -> (&str, usize)
        ensures* rests { sem 𝓛 (Rests (the_row T.row T.Input) self.entry (λ new.
            (Wherever T.unread self.old new (λ h Lands.
            LendsSteps (T.origin self.old.input) (starts (is_quoted_char single)) h
            (chars result.0.now) result.1 Lands))
            × Takes T.left T.window self.old new result.1
            × Moves T.unread T.left T.origin self.old new)) }
    {
        match self.source_offset() {
            Some(start) => {
                let (_, taken) = self.input.skip_run(Run::Quoted(single), usize::MAX);
                self.index += taken;
                self.col += taken;
                self.begins_line = still_begins(self.begins_line, taken);
                drop_tab(&mut self.tab, taken);
                match self.source_since(start) {
                    Some(text) => (text, taken),
                    None => ("", taken),
                }
            }
            None => ("", 0),
        }
    }

    /// Consumes the characters that stand for themselves in quotes, up to the first other or a blank; how
    /// many (YAML 1.2.2, 7.3.1 and 7.3.2).
    pub fn skip_quoted(&mut self, single: bool) -> usize
        ensures here { Wherever T.unread self.old self.new (λ h Lands.
            StepsRun (starts (is_quoted_char single)) h result Lands) }
        ensures takes { Takes T.left T.window self.old self.new result }
        ensures moves { Moves T.unread T.left T.origin self.old self.new }
    {
        let (_, taken) = self.input.skip_run(Run::Quoted(single), usize::MAX);
        self.index += taken;
        self.col += taken;
        self.begins_line = still_begins(self.begins_line, taken);
        drop_tab(&mut self.tab, taken);
        taken
    }

    /// Consumes words of a plain scalar, with a space between each two; how many characters.
    pub fn skip_plain_words(&mut self, in_flow: bool) -> usize
        ensures here { Wherever T.unread self.old self.new (λ h Lands.
            StepsRun (is_plain_word in_flow) h result Lands) }
        ensures takes { Takes T.left T.window self.old self.new result }
        ensures moves { Moves T.unread T.left T.origin self.old self.new }
    {
        let (_, taken) = self.input.skip_run(Run::PlainWords(in_flow), usize::MAX);
        self.index += taken;
        self.col += taken;
        self.begins_line = still_begins(self.begins_line, taken);
        drop_tab(&mut self.tab, taken);
        taken
    }

    /// The same, and appends them. Its error is `NoMemory` alone, and what the text held stays in front.
    pub fn fetch_plain_words(&mut self, out: &mut String, in_flow: bool) -> Result<usize, NoMemory>
        ensures here { Wherever T.unread self.old self.new (λ h Lands.
            FetchesSteps (is_plain_word in_flow) h result Lands (string_chars out.old) (string_chars out.new)) }
        ensures kept { Extends (string_chars out.old) (string_chars out.new) }
        ensures takes { IfOk result (λ count. Takes T.left T.window self.old self.new count) }
        ensures moves { Moves T.unread T.left T.origin self.old self.new }
    {
        let lost = self.lost;
        self.lost = true;
        let (_, taken) = self
            .input
            .fetch_run(out, Run::PlainWords(in_flow), usize::MAX)?;
        self.lost = lost;
        self.index += taken;
        self.col += taken;
        self.begins_line = still_begins(self.begins_line, taken);
        drop_tab(&mut self.tab, taken);
        Ok(taken)
    }

    /// Consumes words of characters that stand for themselves in quotes, with a space between each two; how many
    /// characters.
    pub fn skip_quoted_words(&mut self, single: bool) -> usize
        ensures here { Wherever T.unread self.old self.new (λ h Lands.
            StepsRun (is_quoted_word single) h result Lands) }
        ensures takes { Takes T.left T.window self.old self.new result }
        ensures moves { Moves T.unread T.left T.origin self.old self.new }
    {
        let (_, taken) = self.input.skip_run(Run::QuotedWords(single), usize::MAX);
        self.index += taken;
        self.col += taken;
        self.begins_line = still_begins(self.begins_line, taken);
        drop_tab(&mut self.tab, taken);
        taken
    }

    /// The same, and appends them. Its error is `NoMemory` alone, and what the text held stays in front.
    pub fn fetch_quoted_words(&mut self, out: &mut String, single: bool) -> Result<usize, NoMemory>
        ensures here { Wherever T.unread self.old self.new (λ h Lands.
            FetchesSteps (is_quoted_word single) h result Lands (string_chars out.old) (string_chars out.new)) }
        ensures kept { Extends (string_chars out.old) (string_chars out.new) }
        ensures takes { IfOk result (λ count. Takes T.left T.window self.old self.new count) }
        ensures moves { Moves T.unread T.left T.origin self.old self.new }
    {
        let lost = self.lost;
        self.lost = true;
        let (_, taken) = self
            .input
            .fetch_run(out, Run::QuotedWords(single), usize::MAX)?;
        self.lost = lost;
        self.index += taken;
        self.col += taken;
        self.begins_line = still_begins(self.begins_line, taken);
        drop_tab(&mut self.tab, taken);
        Ok(taken)
    }

    /// Where in its source the input stands, where it has one.
    fn source_offset(&self) -> Option<usize>
        ensures { (u : place.Unread) → T.unread self.now.input u
            → result ≡ (if has_source (T.origin self.now.input) then u.offset else None) }
    {
        let here = self.input.byte_offset()?;
        self.input.slice_bytes(here, here)?;
        Some(here)
    }

    /// What the source holds from a place on, up to where the input stands.
    fn source_since(&self, start: usize) -> Option<&str>
        ensures { (u : place.Unread) → T.unread self.now.input u
            → LentBetween (T.origin self.now.input).sliced (Some start) u.offset result }
    {
        let here = self.input.byte_offset()?;
        self.input.slice_bytes(start, here)
    }

    /// Consumes and appends word characters and `_`; how many characters.
    /// Its error is `NoMemory` alone, and what the text held stays in front.
    pub fn fetch_while_is_alpha(&mut self, out: &mut String) -> Result<usize, NoMemory>
        ensures here { Wherever T.unread self.old self.new (λ h Lands.
            FetchesSteps (starts is_alpha) h result Lands (string_chars out.old) (string_chars out.new)) }
        ensures kept { Extends (string_chars out.old) (string_chars out.new) }
        ensures takes { IfOk result (λ count. Takes T.left T.window self.old self.new count) }
        ensures moves { Moves T.unread T.left T.origin self.old self.new }
    {
        let lost = self.lost;
        self.lost = true;
        let taken = self.input.fetch_while_is_alpha(out)?;
        self.lost = lost;
        self.index += taken;
        self.col += taken;
        self.begins_line = still_begins(self.begins_line, taken);
        drop_tab(&mut self.tab, taken);
        Ok(taken)
    }

    /// Consumes and appends what a line holds but blanks and the byte-order mark; how many characters.
    /// Its error is `NoMemory` alone, and what the text held stays in front.
    pub fn fetch_while_is_yaml_non_space(&mut self, out: &mut String) -> Result<usize, NoMemory>
        ensures here { Wherever T.unread self.old self.new (λ h Lands.
            FetchesSteps (starts is_yaml_non_space) h result Lands (string_chars out.old) (string_chars out.new)) }
        ensures kept { Extends (string_chars out.old) (string_chars out.new) }
        ensures takes { IfOk result (λ count. Takes T.left T.window self.old self.new count) }
        ensures moves { Moves T.unread T.left T.origin self.old self.new }
    {
        let lost = self.lost;
        self.lost = true;
        let taken = self.input.fetch_while_is_yaml_non_space(out)?;
        self.lost = lost;
        self.index += taken;
        self.col += taken;
        self.begins_line = still_begins(self.begins_line, taken);
        drop_tab(&mut self.tab, taken);
        Ok(taken)
    }

    /// Consumes and appends up to a break, NUL or the end; how many characters. The line is then begun.
    /// Its error is `NoMemory` alone, and what the text held stays in front.
    pub fn fetch_block_scalar_line(&mut self, out: &mut String) -> Result<usize, NoMemory>
        ensures here { Wherever T.unread self.old self.new (λ h Lands.
            FetchesSteps (starts is_non_breakz) h result (InsideLine Lands) (string_chars out.old)
            (string_chars out.new)) }
        ensures kept { Extends (string_chars out.old) (string_chars out.new) }
        ensures takes { IfOk result (λ count. Takes T.left T.window self.old self.new count) }
        ensures moves { Moves T.unread T.left T.origin self.old self.new }
    {
        let lost = self.lost;
        self.lost = true;
        let taken = self.input.fetch_block_scalar_line(out)?;
        self.lost = lost;
        self.index += taken;
        self.col += taken;
        self.begins_line = false;
        self.tab = None;
        Ok(taken)
    }

    /// Consumes printable characters up to a break, NUL or the end; how many. The line is then begun.
    pub fn skip_while_non_breakz(&mut self) -> usize
        ensures here { Wherever T.unread self.old self.new (λ h Lands.
            StepsRun (starts is_line_char) h result (InsideLine Lands)) }
        ensures takes { Takes T.left T.window self.old self.new result }
        ensures moves { Moves T.unread T.left T.origin self.old self.new }
    {
        let taken = self.input.skip_while_non_breakz();
        self.index += taken;
        self.col += taken;
        self.begins_line = false;
        self.tab = None;
        taken
    }

    /// Consumes and appends printable characters up to a break, NUL or the end; how many. The line is then
    /// begun. Its error is `NoMemory` alone, and what the text held stays in front.
    pub fn fetch_while_non_breakz(&mut self, out: &mut String) -> Result<usize, NoMemory>
        ensures here { Wherever T.unread self.old self.new (λ h Lands.
            FetchesSteps (starts is_line_char) h result (InsideLine Lands) (string_chars out.old)
            (string_chars out.new)) }
        ensures kept { Extends (string_chars out.old) (string_chars out.new) }
        ensures takes { IfOk result (λ count. Takes T.left T.window self.old self.new count) }
        ensures moves { Moves T.unread T.left T.origin self.old self.new }
    {
        let lost = self.lost;
        self.lost = true;
        let (_, taken) = self
            .input
            .fetch_run(out, Run::Of(Class::Printable), usize::MAX)?;
        self.lost = lost;
        self.index += taken;
        self.col += taken;
        self.begins_line = false;
        self.tab = None;
        Ok(taken)
    }

    /// Consumes blanks; how many characters.
    #[inline(always)]
    pub fn skip_while_blank(&mut self) -> usize
        ensures here { Wherever T.unread self.old self.new (λ h Lands. StepsRun (starts is_blank) h result Lands) }
        ensures takes { Takes T.left T.window self.old self.new result }
        ensures moves { Moves T.unread T.left T.origin self.old self.new }
    {
        self.look(1);
        if !is_blank(self.input.peek()) {
            return 0;
        }
        self.skip_blanks()
    }

    /// The same where mostly one stands here.
    #[inline(always)]
    fn skip_blanks(&mut self) -> usize
        ensures here { Wherever T.unread self.old self.new (λ h Lands. StepsRun (starts is_blank) h result Lands) }
        ensures takes { Takes T.left T.window self.old self.new result }
        ensures moves { Moves T.unread T.left T.origin self.old self.new }
    {
        let spaces = self.skip_spaces();
        self.look(1);
        if self.input.peek() != '\t' {
            return spaces;
        }
        spaces + self.skip_from_tab()
    }

    /// Consumes spaces; how many.
    fn skip_spaces(&mut self) -> usize
        ensures here { Wherever T.unread self.old self.new (λ h Lands.
            StepsRun (starts (is_skipped No)) h result Lands) }
        ensures takes { Takes T.left T.window self.old self.new result }
        ensures moves { Moves T.unread T.left T.origin self.old self.new }
    {
        let (taken, _) = self.input.skip_ws_to_eol_blanks(SkipTabs::No);
        self.index += taken;
        self.col += taken;
        taken
    }

    /// Consumes blanks from a tab on; how many characters.
    fn skip_from_tab(&mut self) -> usize
        requires { (h : Here) → Stands T.unread self.old h → next_char h ≡ 0x09 }
        ensures here { Wherever T.unread self.old self.new (λ h Lands. StepsRun (starts is_blank) h result Lands) }
        ensures takes { Takes T.left T.window self.old self.new result }
        ensures moves { Moves T.unread T.left T.origin self.old self.new }
    {
        let tab = self.first_tab();
        self.tab = Some(tab);
        let taken = self.input.skip_while_blank();
        self.index += taken;
        self.col += taken;
        taken
    }
}

/// Whether the next character ends a line.
fn ends_line<T: Input>(input: &T) -> bool
    requires { 2 ≤ T.window input.now }
    ensures { (u : place.Unread) → T.unread input.now u → result ≡ place.ends_line u.text }
{
    let c = input.peek();
    c == '\n' || c == '\r' && input.peek_nth(1) != '\n'
}

/// A blank, or the CR of a CR LF, which leave what is known of the line as it is (YAML 1.2.2, 5.4 and 5.5).
fn is_quiet(c: char) -> bool
    ensures { result ≡ spec.is_quiet c }
{
    c == ' ' || c == '\t' || c == '\r'
}

/// Whether a line still begins behind so many characters that are neither blanks nor breaks.
fn still_begins(begins_line: bool, taken: usize) -> bool
    ensures { result ≡ (begins_line && taken == 0) }
{
    begins_line && taken == 0
}

/// No tab stands directly behind characters, so many of them, that are neither blanks nor breaks.
fn drop_tab(tab: &mut Option<Marker>, taken: usize)
    ensures { tab.new ≡ (if taken == 0 then tab.old else None) }
{
    if taken > 0 {
        clear_tab(tab);
    }
}

/// No tab is known; where none was, nothing is written.
#[inline(always)]
fn clear_tab(tab: &mut Option<Marker>)
    ensures { tab.new ≡ None }
{
    if tab.is_some() {
        *tab = None;
    }
}
