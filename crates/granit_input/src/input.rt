//! What a scanner asks of its input.
ghost use Rattle.std.specs.Prelude.{◌≡◌, ℕ, ◌+◌, ◌-◌, ◌<◌, ◌≤◌, ◌^◌, ◌==◌, ◌&&◌, ◌||◌, Option, false, true, length};
ghost use Rattle.std.specs.Prelude.{slice_index, is_some, min, max, IfOk, MatchOption, IfSome, IsSome};
ghost use Rattle.std.specs.Borrow.{sem};
ghost use Rattle.std.specs.Io.BufRead.{Rests};
ghost use Rattle.std.specs.Option.{option_map};
ghost use Rattle.std.specs.Str.{chars};
ghost use Rattle.granit_base.specs.Classes as is;
ghost use Rattle.granit_base.specs.Classes.{is_non_breakz};
ghost use Rattle.granit_base.specs.Place.{Unread, first};
ghost use Rattle.granit_base.specs.Written.{string_chars};
ghost use Rattle.granit_error.specs.FaultKind.{FaultKind};
ghost use Rattle.granit_error.specs.Kinds.{kind_of};
ghost use Rattle.granit_runs.specs.Quotes.{TakesQuoted, quote_of};
ghost use Rattle.granit_runs.specs.Unread.{past_count};
ghost use Rattle.granit_input.specs.Origin.{Origin, Goes, error_given, Gave, Agrees};
ghost use Rattle.granit_runs.specs.Cuts.{PartOf};
ghost use Rattle.granit_runs.specs.Runs.{starts, run_test, is_line_char, is_quoted_ascii};
ghost use Rattle.granit_runs.specs.Runs.{is_quoted_char, can_be_plain};
ghost use Rattle.granit_base.specs.PlainContent.{is_content};
ghost use Rattle.granit_runs.specs.Chunks.{SkipsRun, FetchesRun, SkipsFront, FetchesFront, Extends, TakesText};
ghost use Rattle.granit_runs.specs.Chunks.{count_of, front_count_of};
ghost use Rattle.granit_runs.specs.Lines.{TakesLines, lines_taken, is_visible};
ghost use Rattle.granit_input.specs.Looks.{begins_with_2, begins_with_3, is_document_start, is_document_end};
ghost use Rattle.granit_input.specs.Looks.{is_document_mark, ReadsNonBreakz};
ghost use Rattle.granit_runs.specs.White.{holds, SkipsBlanks, SkipsWhite};
ghost use Rattle.granit_runs.specs.Words.{TakesPlain, plain_taken};

use granit_base::{
    NoMemory, is_alpha, is_blank, is_blank_or_breakz, is_break, is_breakz, is_digit, is_flow,
    push_char,
};
use granit_error::ErrorKind;
use granit_runs::{
    Class, Run, SkipTabs, WhitespaceResult, begins_word, goes_on, is_quoted, is_quoted_ascii,
};

/// Characters to be read. At most a window of them may be looked at, and a look past the end gives
/// NUL. Clauses on what is read speak of whatever is known to be left.
#[tactic(auto, using(granit_runs::proofs::RunLemmas::not_nul))]
pub trait Input: Drop {
    /// This is known to be what is left.
    ghost unread: { Self → Unread → Type 0 };

    /// No more characters than this are left.
    ghost left: { Self → ℕ };

    /// How many characters may be looked at.
    ghost window: { Self → ℕ };

    /// Where the characters come from.
    ghost origin: { Self → Origin };

    /// Makes the window at least `count` characters where that is at most 8, and consumes nothing.
    fn lookahead(&mut self, count: usize)
        ensures unread { (u : Unread) → unread self.old u → unread self.new u }
        ensures moves { (left self.new ≤ left self.old)
            × (max (min count 8) (window self.old) ≤ window self.new) × Goes (origin self.old) (origin self.new) };

    /// How many characters may be looked at.
    fn buflen(&self) -> usize
        ensures { result ≡ window self.now };

    /// A length, at least 8 characters. What `lookahead` reaches is said there.
    fn bufmaxlen(&self) -> usize
        ensures { 8 ≤ result };

    /// Consumes and gives the next character; NUL at the end.
    fn raw_read_ch(&mut self) -> char
        ensures read { (u : Unread) → unread self.old u → unread self.new (past_count 1 u) × (result ≡ first u.text) }
        ensures moves { (left self.new ≤ left self.old - 1)
            × (window self.old ≤ window self.new + min 1 (left self.old))
            × Goes (origin self.old) (origin self.new) };

    /// The same; None before a break, a NUL or the end, and then nothing is consumed.
    fn raw_read_non_breakz_ch(&mut self) -> Option<char>
        ensures read { (u : Unread) → unread self.old u → ReadsNonBreakz u result (unread self.new) }
        ensures moves { (MatchOption result (left self.new ≤ left self.old) (λ c. left self.new < left self.old))
            × (MatchOption result (window self.old ≤ window self.new) (λ c. window self.old ≤ window self.new + 1))
            × Goes (origin self.old) (origin self.new) };

    /// Consumes a character, if there is one.
    fn skip(&mut self)
        ensures unread { (u : Unread) → unread self.old u → unread self.new (past_count 1 u) }
        ensures moves { (left self.new ≤ left self.old - 1)
            × (window self.old ≤ window self.new + min 1 (left self.old))
            × Goes (origin self.old) (origin self.new) };

    /// Consumes `count` characters, or all where fewer are left.
    fn skip_n(&mut self, count: usize)
        ensures unread { (u : Unread) → unread self.old u → unread self.new (past_count count u) }
        ensures moves { (left self.new ≤ left self.old - count)
            × (window self.old ≤ window self.new + min count (left self.old))
            × Goes (origin self.old) (origin self.new) };

    /// The next character.
    fn peek(&self) -> char
        requires { 1 ≤ window self.now }
        ensures value { (u : Unread) → unread self.now u → result ≡ first u.text }
        ensures some { 0 < result → 0 < left self.now };

    /// The character behind `n` others.
    fn peek_nth(&self, n: usize) -> char
        requires { n < window self.now }
        ensures value { (u : Unread) → unread self.now u → result ≡ slice_index u.text n }
        ensures some { 0 < result → n < left self.now };

    /// Whether the end is here; a NUL in the text isn't the end.
    fn next_is_z(&self) -> bool
        requires { 1 ≤ window self.now }
        ensures value { (u : Unread) → unread self.now u → result ≡ (length u.text == 0) }
        ensures some { result ≡ (left self.now == 0) }
        ensures known { result ≡ true → (origin self.now).knows_end ≡ true };

    /// How many bytes were consumed, where that is told.
    fn byte_offset(&self) -> Option<usize>
        ensures value { (u : Unread) → unread self.now u → result ≡ u.offset }
        ensures told { is_some result ≡ (origin self.now).tells_offset };

    /// The part of the source from byte `start` to byte `end`; None where there is no source, or where
    /// these are no range between its characters.
    fn slice_bytes(&self, start: usize, end: usize) -> Option<&str>
        ensures { PartOf (origin self.now).sliced start end result };

    /// The first error that the source gave, once.
    fn take_source_error(&mut self) -> Option<ErrorKind>
        ensures given { option_map kind_of result ≡ error_given (origin self.old) }
        ensures unread { (u : Unread) → unread self.old u → unread self.new u }
        ensures moves { (left self.new ≤ left self.old) × (window self.old ≤ window self.new)
            × Gave (origin self.old) (origin self.new) };

    /// Consumes line feeds and the spaces behind each, where a visible character of ASCII stands behind them: how many
    /// characters, how many of them are line feeds, and how many spaces stand behind the last one (YAML 1.2.2, 6.1).
    /// 8 characters at least may then be looked at. None where something else stands there, or where it isn't looked
    /// for, and then nothing is consumed.
    fn take_lines(&mut self) -> Option<(usize, usize, usize)>
        ensures takes { (u : Unread) → unread self.old u → TakesLines u result (unread self.new) }
        ensures clear { IsSome result → (u : Unread) → unread self.new u → is_visible (first u.text) ≡ true }
        ensures few { IfSome result (λ r. (r.1 ≤ r.0) × (r.2 ≤ r.0)) }
        ensures looks { IsSome result → 8 ≤ window self.new }
        ensures moves { (left self.new + lines_taken result ≤ left self.old)
            × (window self.old ≤ window self.new + lines_taken result) × Goes (origin self.old) (origin self.new) }
    {
        None
    }

    /// From which byte to which its source lends what stands between the quotes of the scalar that begins here, where
    /// it is seen at once that this is lent as it stands and that the scalar ends there: words of ASCII that stand
    /// for themselves, with `:`, a line feed, or in flow `,`, `]` or `}` directly behind the closing quote (YAML
    /// 1.2.2, 7.3.1 and 7.3.2). The scalar is consumed with its quotes. None says nothing of what stands here, and
    /// then nothing is consumed; an input may always answer that.
    fn take_quoted(&mut self, single: bool, in_flow: bool) -> Option<(usize, usize)>
        requires { (u : Unread) → unread self.old u → first u.text ≡ quote_of single }
        ensures takes { (u : Unread) → unread self.old u → TakesQuoted single in_flow u result (unread self.new) }
        ensures moves { MatchOption result (self.new ≡ self.old) (λ r. (r.0 ≤ r.1)
            × (left self.new + (r.1 - r.0 + 2) ≤ left self.old)
            × (window self.old ≤ window self.new + (r.1 - r.0 + 2)) × Goes (origin self.old) (origin self.new)) }
    {
        None
    }

    /// Where in the source that lends lie the words of a plain scalar that begin here, from which byte to which, where
    /// it is seen at once that the scalar ends behind them: all words that stand here, of printable ASCII, behind which
    /// stands a `:` or a flow indicator that ends it, or a line feed whose next line begins with a flow indicator in
    /// flow, or outside flow with a visible character of ASCII no further right than `column` (YAML 1.2.2, 6.1 and
    /// 7.3.3). They are consumed, and so are that line feed and the spaces behind it, which are counted then. None says
    /// nothing of what stands here, and then nothing is consumed; an input may always answer that.
    fn take_plain(
        &mut self,
        in_flow: bool,
        column: Option<usize>,
    ) -> Option<(usize, usize, Option<usize>)>
        ensures takes { (u : Unread) → unread self.old u → TakesPlain in_flow column u result (unread self.new) }
        ensures some { IfSome result (λ r. r.0 < r.1) }
        ensures moves { (left self.new + plain_taken result ≤ left self.old)
            × (window self.old ≤ window self.new + plain_taken result) × Goes (origin self.old) (origin self.new) }
    {
        None
    }

    /// False only where what is left, where that is known, has no `#`, and neither has the source, where it
    /// can be sliced.
    fn may_contain_comments(&self) -> bool
        ensures rest { result ≡ false → (u : Unread) → unread self.now u → holds 0x23 u.text ≡ false }
        ensures source { result ≡ false → IfSome (origin self.now).sliced (λ bytes. holds 0x23 bytes ≡ false) }
    {
        true
    }

    /// Whether no character may be looked at.
    fn buf_is_empty(&self) -> bool
        ensures { result ≡ (window self.now == 0) }
    {
        self.buflen() == 0
    }

    /// Looks at the next character, whatever the window was.
    fn look_ch(&mut self) -> char
        ensures look { (u : Unread) → unread self.old u → unread self.new u × (result ≡ first u.text) }
        ensures some { 0 < result → 0 < left self.new }
        ensures moves { (left self.new ≤ left self.old) × (max 1 (window self.old) ≤ window self.new)
            × Goes (origin self.old) (origin self.new) }
    {
        self.lookahead(1);
        self.peek()
    }

    /// Whether the next character is `c`.
    fn next_char_is(&self, c: char) -> bool
        requires { 1 ≤ window self.now }
        ensures value { (u : Unread) → unread self.now u → result ≡ (first u.text == c) }
        ensures some { result ≡ true → 0 < c → 0 < left self.now }
    {
        self.peek() == c
    }

    /// Whether the character behind `n` others is `c`.
    fn nth_char_is(&self, n: usize, c: char) -> bool
        requires { n < window self.now }
        ensures value { (u : Unread) → unread self.now u → result ≡ (slice_index u.text n == c) }
        ensures some { result ≡ true → 0 < c → n < left self.now }
    {
        self.peek_nth(n) == c
    }

    /// Whether these characters, none of them NUL, are next.
    fn next_2_are(&self, c1: char, c2: char) -> bool
        requires window { 2 ≤ window self.now }
        requires some { (0 < c1) × (0 < c2) }
        ensures value { (u : Unread) → unread self.now u → result ≡ begins_with_2 c1 c2 u.text }
        ensures some { result ≡ true → 2 ≤ left self.now }
    {
        self.peek() == c1 && self.peek_nth(1) == c2
    }

    /// Whether these characters, none of them NUL, are next.
    fn next_3_are(&self, c1: char, c2: char, c3: char) -> bool
        requires window { 3 ≤ window self.now }
        requires some { (0 < c1) × (0 < c2) × (0 < c3) }
        ensures value { (u : Unread) → unread self.now u → result ≡ begins_with_3 c1 c2 c3 u.text }
        ensures some { result ≡ true → 3 ≤ left self.now }
    {
        self.peek() == c1 && self.peek_nth(1) == c2 && self.peek_nth(2) == c3
    }

    /// Whether `---` is next, with a blank, a break, NUL or the end behind it (YAML 1.2.2, 9.1.2).
    fn next_is_document_start(&self) -> bool
        requires { 4 ≤ window self.now }
        ensures value { (u : Unread) → unread self.now u → result ≡ is_document_start u.text }
        ensures some { result ≡ true → 3 ≤ left self.now }
    {
        self.next_3_are('-', '-', '-') && is_blank_or_breakz(self.peek_nth(3))
    }

    /// Whether `...` is next, with a blank, a break, NUL or the end behind it (YAML 1.2.2, 9.1.2).
    fn next_is_document_end(&self) -> bool
        requires { 4 ≤ window self.now }
        ensures value { (u : Unread) → unread self.now u → result ≡ is_document_end u.text }
        ensures some { result ≡ true → 3 ≤ left self.now }
    {
        self.next_3_are('.', '.', '.') && is_blank_or_breakz(self.peek_nth(3))
    }

    /// Whether either of them is next.
    fn next_is_document_indicator(&self) -> bool
        requires { 4 ≤ window self.now }
        ensures value { (u : Unread) → unread self.now u → result ≡ is_document_mark u.text }
        ensures some { result ≡ true → 3 ≤ left self.now }
    {
        self.next_is_document_start() || self.next_is_document_end()
    }

    /// Whether the next character doesn't end a plain scalar as an indicator: false for `:` before a blank, a
    /// break, NUL or the end, and in flow also before a flow indicator and for one (YAML 1.2.2, 7.3.3).
    fn next_can_be_plain_scalar(&self, in_flow: bool) -> bool
        requires { 2 ≤ window self.now }
        ensures { (u : Unread) → unread self.now u → result ≡ can_be_plain in_flow u.text }
    {
        goes_on(self.peek(), self.peek_nth(1), in_flow)
    }

    /// Whether the next character is a blank or a break.
    fn next_is_blank_or_break(&self) -> bool
        requires { 1 ≤ window self.now }
        ensures value { (u : Unread) → unread self.now u
            → result ≡ (is.is_blank (first u.text) || is.is_break (first u.text)) }
        ensures some { result ≡ true → 0 < left self.now }
    {
        let c = self.peek();
        is_blank(c) || is_break(c)
    }

    /// Whether the next character is a blank, a break or NUL.
    fn next_is_blank_or_breakz(&self) -> bool
        requires { 1 ≤ window self.now }
        ensures value { (u : Unread) → unread self.now u → result ≡ is.is_blank_or_breakz (first u.text) }
        ensures some { result ≡ false → 0 < left self.now }
    {
        is_blank_or_breakz(self.peek())
    }

    /// Whether the next character is a blank.
    fn next_is_blank(&self) -> bool
        requires { 1 ≤ window self.now }
        ensures value { (u : Unread) → unread self.now u → result ≡ is.is_blank (first u.text) }
        ensures some { result ≡ true → 0 < left self.now }
    {
        is_blank(self.peek())
    }

    /// Whether the next character is a break.
    fn next_is_break(&self) -> bool
        requires { 1 ≤ window self.now }
        ensures value { (u : Unread) → unread self.now u → result ≡ is.is_break (first u.text) }
        ensures some { result ≡ true → 0 < left self.now }
    {
        is_break(self.peek())
    }

    /// Whether the next character is a break or NUL.
    fn next_is_breakz(&self) -> bool
        requires { 1 ≤ window self.now }
        ensures value { (u : Unread) → unread self.now u → result ≡ is.is_breakz (first u.text) }
        ensures some { result ≡ false → 0 < left self.now }
    {
        is_breakz(self.peek())
    }

    /// Whether the next character is a flow indicator.
    fn next_is_flow(&self) -> bool
        requires { 1 ≤ window self.now }
        ensures value { (u : Unread) → unread self.now u → result ≡ is.is_flow (first u.text) }
        ensures some { result ≡ true → 0 < left self.now }
    {
        is_flow(self.peek())
    }

    /// Whether the next character is a decimal digit.
    fn next_is_digit(&self) -> bool
        requires { 1 ≤ window self.now }
        ensures value { (u : Unread) → unread self.now u → result ≡ is.is_digit (first u.text) }
        ensures some { result ≡ true → 0 < left self.now }
    {
        is_digit(self.peek())
    }

    /// Whether the next character is a word character or `_`.
    fn next_is_alpha(&self) -> bool
        requires { 1 ≤ window self.now }
        ensures value { (u : Unread) → unread self.now u → result ≡ is.is_alpha (first u.text) }
        ensures some { result ≡ true → 0 < left self.now }
    {
        is_alpha(self.peek())
    }

    /// Whether a run takes the next character, whatever the window was.
    fn next_in(&mut self, run: Run) -> bool
        ensures look { (u : Unread) → unread self.old u → unread self.new u × (result ≡ run_test run u.text) }
        ensures some { result ≡ true → 0 < left self.new }
        ensures moves { (left self.new ≤ left self.old) × (max 1 (window self.old) ≤ window self.new)
            × Goes (origin self.old) (origin self.new) }
    {
        match run {
            Run::Of(class) => {
                let c = self.look_ch();
                class.contains(c)
            }
            Run::Plain(in_flow) => {
                self.lookahead(2);
                let c = self.peek();
                !is_blank_or_breakz(c) && goes_on(c, self.peek_nth(1), in_flow)
            }
            Run::Quoted(single) => {
                let c = self.look_ch();
                is_quoted(c, single)
            }
            Run::QuotedAscii(single) => {
                let c = self.look_ch();
                is_quoted_ascii(c, single)
            }
            Run::PlainWords(in_flow) => {
                self.lookahead(2);
                let c = self.peek();
                let next = self.peek_nth(1);
                (!is_blank_or_breakz(c) && goes_on(c, next, in_flow))
                    || c == ' ' && begins_word(next, in_flow)
            }
            Run::QuotedWords(single) => {
                self.lookahead(2);
                let c = self.peek();
                is_quoted(c, single) || c == ' ' && is_quoted(self.peek_nth(1), single)
            }
        }
    }

    /// Consumes characters of a run, at most `limit`; whether the run ended, and how many.
    fn skip_run(&mut self, run: Run, limit: usize) -> (bool, usize)
        ensures skips { (u : Unread) → unread self.old u → SkipsFront (run_test run) u limit result (unread self.new) }
        ensures few { result.0 ≡ false → limit ≤ result.1 }
        ensures limit { result.1 ≤ limit }
        ensures moves { (left self.new + result.1 ≤ left self.old)
            × (window self.old ≤ window self.new + result.1) × Goes (origin self.old) (origin self.new) }
    {
        let mut count = 0;
        'run: while count < limit {
            if !self.next_in(run) {
                return (true, count);
            }
            self.skip();
            count += 1;
        }
        (false, count)
    }

    /// The same, and appends them. Its error is `NoMemory` alone, and nothing is lost then: what was consumed
    /// of the run was appended.
    fn fetch_run(
        &mut self,
        out: &mut String,
        run: Run,
        limit: usize,
    ) -> Result<(bool, usize), NoMemory>
        ensures fetches { (u : Unread) → unread self.old u
            → FetchesFront (run_test run) u limit result (unread self.new)
            (string_chars out.old) (string_chars out.new) }
        ensures kept { Extends (string_chars out.old) (string_chars out.new) }
        ensures few { IfOk result (λ r. r.0 ≡ false → limit ≤ r.1) }
        ensures limit { IfOk result (λ r. r.1 ≤ limit) }
        ensures moves { (left self.new + front_count_of result ≤ left self.old)
            × (IfOk result (λ r. window self.old ≤ window self.new + r.1))
            × Goes (origin self.old) (origin self.new) }
    {
        let mut count = 0;
        'run: while count < limit {
            if !self.next_in(run) {
                return Ok((true, count));
            }
            push_char(out, self.peek())?;
            self.skip();
            count += 1;
        }
        Ok((false, count))
    }

    /// Consumes spaces, and tabs where `skip_tabs` says so; how many characters, and what was among them.
    fn skip_ws_to_eol_blanks(&mut self, skip_tabs: SkipTabs) -> (usize, WhitespaceResult)
        ensures skips { (u : Unread) → unread self.old u → SkipsBlanks skip_tabs u result (unread self.new) }
        ensures moves { (left self.new + result.0 ≤ left self.old)
            × (window self.old ≤ window self.new + result.0) × Goes (origin self.old) (origin self.new) }
    {
        let mut found = WhitespaceResult::new(false, false);
        let mut count = 0;
        'blanks: loop {
            let c = self.look_ch();
            if !skip_tabs.skips(c) {
                return (count, found);
            }
            found = found.with(c);
            self.skip();
            count += 1;
        }
    }

    /// The same, and then a comment up to a break, NUL or the end (YAML 1.2.2, 6.6).
    /// Its error is `CommentNotSeparated`, exactly where a `#` follows no skipped blank; nothing is consumed then.
    fn skip_ws_to_eol(
        &mut self,
        skip_tabs: SkipTabs,
    ) -> (usize, Result<WhitespaceResult, ErrorKind>)
        ensures skips { (u : Unread) → unread self.old u → SkipsWhite skip_tabs u result (unread self.new) }
        ensures moves { (left self.new + result.0 ≤ left self.old)
            × (window self.old ≤ window self.new + result.0) × Goes (origin self.old) (origin self.new) }
    {
        let (blanks, found) = self.skip_ws_to_eol_blanks(skip_tabs);
        let c = self.look_ch();
        if c != '#' {
            return (blanks, Ok(found));
        }
        if blanks == 0 {
            return (0, Err(ErrorKind::CommentNotSeparated));
        }
        let (_, comment) = self.skip_run(Run::Of(Class::NonBreakz), usize::MAX);
        (blanks + comment, Ok(found))
    }

    /// Consumes printable characters up to a break, NUL or the end; how many.
    fn skip_while_non_breakz(&mut self) -> usize
        ensures skips { (u : Unread) → unread self.old u → SkipsRun (starts is_line_char) u result (unread self.new) }
        ensures moves { (left self.new + result ≤ left self.old) × (window self.old ≤ window self.new + result)
            × Goes (origin self.old) (origin self.new) }
    {
        let (_, count) = self.skip_run(Run::Of(Class::Printable), usize::MAX);
        count
    }

    /// Consumes blanks; how many characters.
    fn skip_while_blank(&mut self) -> usize
        ensures skips { (u : Unread) → unread self.old u → SkipsRun (starts is.is_blank) u result (unread self.new) }
        ensures moves { (left self.new + result ≤ left self.old) × (window self.old ≤ window self.new + result)
            × Goes (origin self.old) (origin self.new) }
    {
        let (_, count) = self.skip_run(Run::Of(Class::Blank), usize::MAX);
        count
    }

    /// Consumes and appends word characters and `_`; how many.
    /// Its error is `NoMemory` alone, and nothing is lost then, as with `fetch_run`.
    fn fetch_while_is_alpha(&mut self, out: &mut String) -> Result<usize, NoMemory>
        ensures fetches { (u : Unread) → unread self.old u
            → FetchesRun (starts is.is_alpha) u result (unread self.new) (string_chars out.old) (string_chars out.new) }
        ensures kept { Extends (string_chars out.old) (string_chars out.new) }
        ensures moves { (left self.new + count_of result ≤ left self.old)
            × (IfOk result (λ count. window self.old ≤ window self.new + count))
            × Goes (origin self.old) (origin self.new) }
    {
        let (_, count) = self.fetch_run(out, Run::Of(Class::Alpha), usize::MAX)?;
        Ok(count)
    }

    /// Consumes and appends what a line holds but blanks and the byte-order mark; how many characters.
    /// Its error is `NoMemory` alone, and nothing is lost then, as with `fetch_run`.
    fn fetch_while_is_yaml_non_space(&mut self, out: &mut String) -> Result<usize, NoMemory>
        ensures fetches { (u : Unread) → unread self.old u
            → FetchesRun (starts is.is_yaml_non_space) u result (unread self.new)
            (string_chars out.old) (string_chars out.new) }
        ensures kept { Extends (string_chars out.old) (string_chars out.new) }
        ensures moves { (left self.new + count_of result ≤ left self.old)
            × (IfOk result (λ count. window self.old ≤ window self.new + count))
            × Goes (origin self.old) (origin self.new) }
    {
        let (_, count) = self.fetch_run(out, Run::Of(Class::NonSpace), usize::MAX)?;
        Ok(count)
    }

    /// Consumes and appends up to a break, NUL or the end; how many characters.
    /// Its error is `NoMemory` alone, and nothing is lost then, as with `fetch_run`.
    fn fetch_block_scalar_line(&mut self, out: &mut String) -> Result<usize, NoMemory>
        ensures fetches { (u : Unread) → unread self.old u
            → FetchesRun (starts is_non_breakz) u result (unread self.new)
            (string_chars out.old) (string_chars out.new) }
        ensures kept { Extends (string_chars out.old) (string_chars out.new) }
        ensures moves { (left self.new + count_of result ≤ left self.old)
            × (IfOk result (λ count. window self.old ≤ window self.new + count))
            × Goes (origin self.old) (origin self.new) }
    {
        let (_, count) = self.fetch_run(out, Run::Of(Class::NonBreakz), usize::MAX)?;
        Ok(count)
    }

    /// Takes characters from `!` to `~` but the quote and, in double quotes, the backslash, as many of
    /// the run as it likes.
    fn take_quoted_scalar_ascii_chunk(&mut self, single: bool) -> (&str, usize)
        ensures* rests { sem 𝓛 (Rests Self.row self.entry (λ new.
            ((u : Unread) → unread self.old u
            → TakesText (starts (is_quoted_ascii single)) u (chars result.0.now) (unread new))
            × (left new + length (chars result.0.now) ≤ left self.old)
            × (window self.old ≤ window new + length (chars result.0.now))
            × Goes (origin self.old) (origin new))) }
        ensures count { result.1 ≡ length (chars result.0.now) }
    {
        ("", 0)
    }

    /// The same with printable characters past ASCII, and how many characters.
    fn take_quoted_scalar_chunk(&mut self, single: bool) -> (&str, usize)
        ensures* rests { sem 𝓛 (Rests Self.row self.entry (λ new.
            ((u : Unread) → unread self.old u
            → TakesText (starts (is_quoted_char single)) u (chars result.0.now) (unread new))
            × (left new + length (chars result.0.now) ≤ left self.old)
            × (window self.old ≤ window new + length (chars result.0.now))
            × Goes (origin self.old) (origin new))) }
        ensures count { result.1 ≡ length (chars result.0.now) }
    {
        self.take_quoted_scalar_ascii_chunk(single)
    }

    /// Consumes and appends what a plain scalar takes without blanks: true where the run ended, false
    /// where `count` characters were taken; and how many (YAML 1.2.2, 7.3.3).
    /// Its error is `NoMemory` alone, and nothing is lost then, as with `fetch_run`.
    fn fetch_plain_scalar_chunk(
        &mut self,
        out: &mut String,
        count: usize,
        flow_level_gt_0: bool,
    ) -> Result<(bool, usize), NoMemory>
        ensures fetches { (u : Unread) → unread self.old u
            → FetchesFront (is_content flow_level_gt_0) u count result (unread self.new)
            (string_chars out.old) (string_chars out.new) }
        ensures kept { Extends (string_chars out.old) (string_chars out.new) }
        ensures few { IfOk result (λ r. r.0 ≡ false → count ≤ r.1) }
        ensures limit { IfOk result (λ r. r.1 ≤ count) }
        ensures moves { (left self.new + front_count_of result ≤ left self.old)
            × (IfOk result (λ r. window self.old ≤ window self.new + r.1))
            × Goes (origin self.old) (origin self.new) }
    {
        self.fetch_run(out, Run::Plain(flow_level_gt_0), count)
    }

    /// The same without appending.
    fn skip_plain_scalar_chunk(&mut self, count: usize, flow_level_gt_0: bool) -> (bool, usize)
        ensures skips { (u : Unread) → unread self.old u
            → SkipsFront (is_content flow_level_gt_0) u count result (unread self.new) }
        ensures few { result.0 ≡ false → count ≤ result.1 }
        ensures limit { result.1 ≤ count }
        ensures moves { (left self.new + result.1 ≤ left self.old)
            × (window self.old ≤ window self.new + result.1) × Goes (origin self.old) (origin self.new) }
    {
        self.skip_run(Run::Plain(flow_level_gt_0), count)
    }

    /// No text is longer than memory.
    ghost short: { (input : Self) → left input < 2 ^ 63 };

    /// What the characters end with is the error that was met.
    ghost fails: { (input : Self) (f : Option FaultKind) → (origin input).knows_end ≡ true
        → (origin input).ends_with f → f ≡ (origin input).error };

    /// The window is never smaller than its floor.
    ghost floored: { (input : Self) → (origin input).floor ≤ window input };

    /// What is known to be left agrees with the bound, with what is told and with the sources.
    ghost agrees: { (input : Self) (u : Unread) → unread input u → Agrees (left input) (origin input) u };
}
