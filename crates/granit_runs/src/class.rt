//! The classes of characters that runs are made of.
ghost use Rattle.std.specs.Prelude.{◌≡◌, ◌<◌, ◌==◌, ◌&&◌, ◌||◌, not, ◌∷◌, ℕ, List, true};
ghost use Rattle.std.specs.Str.{chars};
ghost use Rattle.granit_runs.specs.Runs.{begins_word, class_test, is_plain_ascii, is_quoted_ascii, is_quoted_char};
ghost use Rattle.granit_runs.specs.Runs.{run_test};
ghost use Rattle.granit_runs.specs.Words.{ShowsByte};
ghost use Rattle.granit_base.specs.Classes.{is_within};
ghost use Rattle.granit_base.specs.Place.{first};
ghost use Rattle.granit_base.specs.PlainContent.{plain_goes_on};

use granit_base::{
    is_alpha, is_blank, is_blank_or_breakz, is_breakz, is_flow, is_printable, is_yaml_non_space,
    nth_char,
};

/// A class of characters (YAML 1.2.2, chapter 5). NUL is in none.
#[derive(Clone, Copy, Debug, PartialEq, Eq)]
pub enum Class {
    /// Letters and digits of ASCII, `-` and `_`.
    Alpha,
    /// What a line holds but blanks and the byte-order mark.
    NonSpace,
    /// A space or a tab.
    Blank,
    /// What may be printed but breaks.
    Printable,
    /// Anything but breaks and NUL.
    NonBreakz,
}

/// The characters that a run takes.
#[derive(Clone, Copy, Debug, PartialEq, Eq)]
pub enum Run {
    /// Those of a class.
    Of(Class),
    /// Those of a plain scalar without blanks, with whether it stands in flow (YAML 1.2.2, 7.3.3).
    Plain(bool),
    /// Those of a quoted scalar that stand for themselves, without blanks, with whether its quotes are
    /// single (YAML 1.2.2, 7.3.1 and 7.3.2).
    Quoted(bool),
    /// Those of them from `!` to `~`.
    QuotedAscii(bool),
    /// Those of a plain scalar, and a space between two words of it, with whether it stands in flow.
    PlainWords(bool),
    /// Those of a quoted scalar, and a space between two words of it, with whether its quotes are single.
    QuotedWords(bool),
}

impl Class {
    /// Whether a character is in the class.
    #[inline(always)]
    pub fn contains(self, c: char) -> bool
        ensures { result ≡ class_test self c }
    {
        match self {
            Class::Alpha => is_alpha(c),
            Class::NonSpace => is_yaml_non_space(c),
            Class::Blank => is_blank(c),
            Class::Printable => !is_breakz(c) && is_printable(c),
            Class::NonBreakz => !is_breakz(c),
        }
    }

    /// Whether a character of ASCII is surely in the class.
    #[inline(always)]
    #[tactic(auto, using(crate::proofs::AsciiLemmas::line_ascii))]
    fn contains_ascii(self, c: char) -> bool
        ensures { result ≡ true → class_test self c ≡ true }
    {
        match self {
            Class::Printable => is_line_ascii(c),
            _ => self.contains(c),
        }
    }
}

impl Run {
    /// Whether a run takes a character that stands in front of a text.
    pub fn takes(self, c: char, after: &str) -> bool
        ensures { result ≡ run_test self (c ∷ chars after.now) }
    {
        match self {
            Run::Of(class) => class.contains(c),
            Run::Plain(in_flow) => {
                let next = if c == ':' { nth_char(after, 0) } else { ' ' };
                !is_blank_or_breakz(c) && goes_on(c, next, in_flow)
            }
            Run::Quoted(single) => is_quoted(c, single),
            Run::QuotedAscii(single) => is_quoted_ascii(c, single),
            Run::PlainWords(in_flow) => {
                let next = if c == ':' || c == ' ' {
                    nth_char(after, 0)
                } else {
                    ' '
                };
                (!is_blank_or_breakz(c) && goes_on(c, next, in_flow))
                    || c == ' ' && begins_word(next, in_flow)
            }
            Run::QuotedWords(single) => {
                is_quoted(c, single) || c == ' ' && is_quoted(nth_char(after, 0), single)
            }
        }
    }

    /// Whether a run surely takes a character of ASCII; behind a space that is seen by `next`, if not NUL.
    #[inline(always)]
    #[tactic(auto, using(crate::proofs::WordLemmas::word_shows))]
    pub fn takes_ascii(self, c: char, next: char) -> bool
        ensures takes { (after : List ℕ) → result ≡ true
            → (c ≡ 0x20 → 0 < next → next < 0x80 → first after ≡ next) → run_test self (c ∷ after) ≡ true }
        ensures shown { result ≡ true → ShowsByte self c }
    {
        match self {
            Run::Of(class) => class.contains_ascii(c),
            Run::Plain(in_flow) => is_plain_ascii(c, in_flow),
            Run::Quoted(single) => is_quoted_ascii(c, single),
            Run::QuotedAscii(single) => is_quoted_ascii(c, single),
            Run::PlainWords(in_flow) => {
                is_plain_ascii(c, in_flow) || c == ' ' && begins_ascii_word(next, in_flow)
            }
            Run::QuotedWords(single) => {
                is_quoted_ascii(c, single) || c == ' ' && is_quoted_ascii(next, single)
            }
        }
    }
}

/// Whether a character of ASCII is printable, and no break.
#[inline(always)]
fn is_line_ascii(c: char) -> bool
    ensures { result ≡ (is_within 0x20 0x7E c || c == 0x09) }
{
    (c >= ' ' && c <= '~') || c == '\t'
}

/// Whether a character from `!` to `~` is content of a plain scalar, whatever follows it.
#[inline(always)]
fn is_plain_ascii(c: char, in_flow: bool) -> bool
    ensures { result ≡ is_plain_ascii in_flow c }
{
    c.is_ascii_graphic() && c != ':' && !(in_flow && is_flow(c))
}

/// Whether such a character is content behind a space too.
#[inline(always)]
fn begins_ascii_word(c: char, in_flow: bool) -> bool
    ensures { result ≡ (not (c == 0x23) && is_plain_ascii in_flow c) }
{
    c != '#' && is_plain_ascii(c, in_flow)
}

/// Whether a character behind a space is content of a plain scalar, whatever follows it.
pub fn begins_word(c: char, in_flow: bool) -> bool
    ensures { result ≡ begins_word in_flow c }
{
    !is_blank_or_breakz(c) && c != '#' && goes_on(c, ' ', in_flow)
}

/// Whether a character with `next` behind it doesn't end a plain scalar as an indicator.
pub fn goes_on(c: char, next: char, in_flow: bool) -> bool
    ensures { result ≡ plain_goes_on in_flow c next }
{
    !(c == ':' && (is_blank_or_breakz(next) || (in_flow && is_flow(next))))
        && !(in_flow && is_flow(c))
}

/// Whether a character from `!` to `~` stands for itself in quotes.
#[inline(always)]
pub fn is_quoted_ascii(c: char, single: bool) -> bool
    ensures { result ≡ is_quoted_ascii single c }
{
    let stops = if single {
        c == '\''
    } else {
        c == '"' || c == '\\'
    };
    c.is_ascii_graphic() && !stops
}

/// Whether a character stands for itself in quotes, and is no blank.
pub fn is_quoted(c: char, single: bool) -> bool
    ensures { result ≡ is_quoted_char single c }
{
    is_quoted_ascii(c, single) || (c >= '\u{80}' && is_printable(c))
}
