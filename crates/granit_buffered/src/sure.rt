//! Characters that are taken whatever follows them, or with the next one behind them.
ghost use Rattle.std.specs.Prelude.{◌≡◌, ◌==◌, ◌&&◌, ◌||◌, not, ◌∷◌, ℕ, List, true, false};
ghost use Rattle.granit_base.specs.Classes.{is_blank_or_breakz, is_flow};
ghost use Rattle.granit_base.specs.Place.{first};
ghost use Rattle.granit_runs.specs.Runs.{is_quoted_ascii, is_quoted_char, run_test};
ghost use Rattle.granit_runs.specs.White.{is_skipped, found_more};
ghost use Rattle.granit_buffered.specs.Sure.{TellsAlone, is_common, is_plain_alone, taker_test, takes_common};
ghost use Rattle.granit_runs.specs.declared.class.Run.TheVariants.{Plain};

use granit_base::{is_blank_or_breakz, is_flow, is_printable};
use granit_input::{Run, SkipTabs, WhitespaceResult};

/// What takes characters, one after another.
#[derive(Clone, Copy)]
pub(crate) enum Taker {
    /// A run, of what it takes whatever follows.
    Sure(Run),
    /// Blanks in front of the end of a line.
    Blanks(SkipTabs),
}

/// Whether a character is taken whatever follows it. That it isn't is said of one that tells so by itself.
#[inline(always)]
pub(crate) fn takes(taker: Taker, c: char) -> bool
    ensures takes { result ≡ true → (after : List ℕ) → taker_test taker (c ∷ after) ≡ true }
    ensures ends { result ≡ false → TellsAlone taker c → (after : List ℕ) → taker_test taker (c ∷ after) ≡ false }
{
    match taker {
        Taker::Sure(run) => surely_takes(run, c),
        Taker::Blanks(skip_tabs) => is_skipped(skip_tabs, c),
    }
}

/// Whether a blank is skipped in front of the end of a line.
#[inline(always)]
fn is_skipped(skip_tabs: SkipTabs, c: char) -> bool
    ensures { result ≡ is_skipped skip_tabs c }
{
    match skip_tabs {
        SkipTabs::Yes => c == ' ' || c == '\t',
        SkipTabs::No => c == ' ',
    }
}

/// What was found among blanks with one more.
#[inline(always)]
pub(crate) fn found_with(found: WhitespaceResult, c: char) -> WhitespaceResult
    ensures { result ≡ found_more found c }
{
    WhitespaceResult::new(
        found.found_tabs() || c == '\t',
        found.has_valid_yaml_ws() || c == ' ',
    )
}

/// Whether a run takes a character whatever follows it. That it doesn't is said of what isn't ` ` or `:`.
#[inline(always)]
#[tactic(auto, using(crate::proofs::SureLemmas::common_taken))]
pub(crate) fn surely_takes(run: Run, c: char) -> bool
    ensures takes { result ≡ true → (after : List ℕ) → run_test run (c ∷ after) ≡ true }
    ensures ends { result ≡ false → (c == 0x20) ≡ false → (c == 0x3A) ≡ false → (after : List ℕ)
        → run_test run (c ∷ after) ≡ false }
{
    if is_common(c) && takes_common(run) {
        return true;
    }
    match run {
        Run::Of(class) => class.contains(c),
        Run::Plain(in_flow) => is_plain_alone(c, in_flow),
        Run::PlainWords(in_flow) => is_plain_alone(c, in_flow),
        Run::Quoted(single) => is_quoted(c, single),
        Run::QuotedAscii(single) => is_quoted_ascii(c, single),
        Run::QuotedWords(single) => is_quoted(c, single),
    }
}

/// Whether a character is one from `-` to `Z` but `:`, or one from `^` to `z`.
#[inline(always)]
fn is_common(c: char) -> bool
    ensures { result ≡ is_common c }
{
    ('^' <= c && c <= 'z') || ('-' <= c && c <= 'Z' && c != ':')
}

/// Whether a run surely takes each of these: most characters are one.
#[inline(always)]
fn takes_common(run: Run) -> bool
    ensures { result ≡ takes_common run }
{
    match run {
        Run::Of(_) => false,
        Run::Plain(_) => true,
        Run::PlainWords(_) => true,
        Run::Quoted(_) => true,
        Run::QuotedAscii(_) => true,
        Run::QuotedWords(_) => true,
    }
}

/// Whether a run takes a character with `next` behind it.
pub(crate) fn takes_before(run: Run, c: char, next: char) -> bool
    ensures { (after : List ℕ) → next ≡ first after → result ≡ run_test run (c ∷ after) }
{
    match run {
        Run::Of(class) => class.contains(c),
        Run::Plain(in_flow) => goes_on(c, next, in_flow),
        Run::PlainWords(in_flow) => {
            goes_on(c, next, in_flow) || c == ' ' && next != '#' && is_plain_alone(next, in_flow)
        }
        Run::Quoted(single) => is_quoted(c, single),
        Run::QuotedAscii(single) => is_quoted_ascii(c, single),
        Run::QuotedWords(single) => { is_quoted(c, single) || c == ' ' && is_quoted(next, single) }
    }
}

/// Whether a character is content of a plain scalar with `next` behind it (YAML 1.2.2, 7.3.3).
fn goes_on(c: char, next: char, in_flow: bool) -> bool
    ensures { (after : List ℕ) → next ≡ first after → result ≡ run_test (Plain in_flow) (c ∷ after) }
{
    let ends = c == ':' && (is_blank_or_breakz(next) || in_flow && is_flow(next));
    !is_blank_or_breakz(c) && !ends && !(in_flow && is_flow(c))
}

/// Whether it is so whatever follows it.
#[inline(always)]
fn is_plain_alone(c: char, in_flow: bool) -> bool
    ensures { result ≡ is_plain_alone in_flow c }
{
    !is_blank_or_breakz(c) && c != ':' && !(in_flow && is_flow(c))
}

/// Whether a character from `!` to `~` stands for itself in quotes (YAML 1.2.2, 7.3.1 and 7.3.2).
#[inline(always)]
fn is_quoted_ascii(c: char, single: bool) -> bool
    ensures { result ≡ is_quoted_ascii single c }
{
    if !c.is_ascii_graphic() {
        return false;
    }
    if single {
        return c != '\'';
    }
    c != '"' && c != '\\'
}

/// Whether a character stands for itself in quotes, and is no blank.
#[inline(always)]
fn is_quoted(c: char, single: bool) -> bool
    ensures { result ≡ is_quoted_char single c }
{
    is_quoted_ascii(c, single) || (c >= '\u{80}' && is_printable(c))
}
