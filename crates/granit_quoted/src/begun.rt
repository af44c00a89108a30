//! The words in front of a quoted scalar, which mostly are all of it (YAML 1.2.2, 7.3.1 and 7.3.2).
ghost use Rattle.std.specs.Prelude.{◌≡◌, ◌≤◌, true, slice_index, IfOk, IfErr};
ghost use Rattle.granit_base.specs.Written.{string_chars};
ghost use Rattle.granit_cursor.specs.Reading.{GivesTo, Moves, Stands, Wherever, coded};
ghost use Rattle.granit_cursor.specs.Tokens.{layout_data};
ghost use Rattle.granit_lexemes.specs.Here.{Here, next_char};
ghost use Rattle.granit_lexemes.specs.QuotedScalar as spec;
ghost use Rattle.granit_quoted.specs.QuotedCode.{IsQuotedKind, QuotedBeginsTo, quoted_from, quoted_lexed};
ghost use Rattle.granit_quoted.specs.QuotedCode.{taken_scalar, words_alone};
ghost use Rattle.granit_refused.specs.Answered.{answered};
ghost use Rattle.granit_runs.specs.Quotes.{ends_after_quote, quote_of};

use crate::quoted::{QuotedParts, QuotedScalar, read_parts};
use granit_base::{Marker, NoMemory};
use granit_cursor::{Cursor, Layout};
use granit_error::ScanError;
use granit_input::{BorrowedInput, Input};
use granit_refused::Refused;
use std::alloc::Global;

/// Most texts that are copied have no more bytes.
pub(crate) const USUAL_LENGTH: usize = 24;

/// A quoted scalar whose words in front were read.
#[derive(Drop)]
pub enum QuotedBegun {
    /// They are all of it, and its closing quote was read.
    Closed(String),
    /// More of it may follow them.
    Open(String),
}

/// The quote.
fn quote(single: bool) -> char
    ensures { result ≡ spec.quote_char single }
{
    if single { '\'' } else { '"' }
}

/// Whether the closing quote is next; between single quotes a doubled one is content.
#[tactic(auto, unfolding(granit_lexemes::specs::QuotedScalar::is_closing))]
pub(crate) fn is_closing<T: Input>(cursor: &Cursor<T>, single: bool) -> bool
    requires { 4 ≤ T.window cursor.now.input }
    ensures { (h : Here) → Stands T.unread cursor.now h → result ≡ spec.is_closing single h.unread.text }
{
    cursor.input().peek() == quote(single) && !(single && cursor.input().peek_nth(1) == '\'')
}

/// Whether a character directly behind the closing quote is no part of the scalar, and may stand there on its line.
#[inline(always)]
fn ends_quoted(in_flow: bool, c: char) -> bool
    ensures { result ≡ ends_after_quote in_flow c }
{
    (c == ':' || c == '\n') || in_flow && (c == ',' || (c == ']' || c == '}'))
}

/// Whether the closing quote is next, and directly behind it what ends the scalar.
#[inline(always)]
fn closes_here<T: Input>(cursor: &mut Cursor<T>, single: bool, in_flow: bool) -> bool
    ensures here { Wherever T.unread cursor.old cursor.new (λ h Lands. Lands h × (result ≡ true
        → (next_char h ≡ quote_of single) × (ends_after_quote in_flow (slice_index h.unread.text 1) ≡ true))) }
    ensures moves { Moves T.unread T.left T.origin cursor.old cursor.new }
{
    cursor.look(1);
    if cursor.input().peek() != quote(single) {
        return false;
    }
    // what follows is looked at four characters far, so it is held at once
    cursor.look(5);
    ends_quoted(in_flow, cursor.input().peek_nth(1))
}

/// Reads the words in front of the quoted scalar that begins here with its quote, and the closing quote where that is
/// next and what stands directly behind it ends the scalar.
///
/// # Errors
///
/// `NoMemory` alone.
#[inline(always)]
pub fn begin_quoted<T: Input>(
    alloc: Global,
    cursor: &mut Cursor<T>,
    single: bool,
    in_flow: bool,
) -> Result<QuotedBegun, NoMemory>
    ensures here { Wherever T.unread cursor.old cursor.new (λ h Lands. next_char h ≡ spec.quote_char single
        → IfOk result (λ b. QuotedBeginsTo single in_flow h b Lands)) }
    ensures moves { Moves T.unread T.left T.origin cursor.old cursor.new }
{
    cursor.step();
    let mut value = String::with_capacity(alloc, USUAL_LENGTH)?;
    cursor.fetch_quoted_words(&mut value, single)?;
    if closes_here(cursor, single, in_flow) {
        cursor.step();
        return Ok(QuotedBegun::Closed(value));
    }
    Ok(QuotedBegun::Open(value))
}

/// The quoted scalar whose words in front were read is read to its end, and the comment behind it.
///
/// # Errors
///
/// Those of `scan_quoted_scalar`.
pub fn finish_quoted<'input, T: BorrowedInput<'input>>(
    alloc: Global,
    cursor: &mut Cursor<T>,
    single: bool,
    at: &Layout,
    start: Marker,
    words: String,
    read: &mut QuotedScalar<'input>,
    fault: &mut Option<ScanError>,
) -> Result<(), Refused>
    ensures here { Wherever T.unread cursor.old cursor.new (λ h Lands.
        GivesTo (λ _. quoted_from single start read.new) (answered fault.new result) Lands (coded (quoted_lexed single)
        (taken_scalar single (layout_data at.now) start (words_alone (string_chars words)) h))) }
    ensures kinds { IfErr (answered fault.new result) (λ e. IsQuotedKind e.kind) }
    ensures moves { Moves T.unread T.left T.origin cursor.old cursor.new }
{
    let taken = QuotedParts {
        value: words,
        pending: String::new(alloc),
        on_new_line: false,
        escaped: false,
    };
    read_parts(alloc, cursor, single, at, start, taken, read, fault)
}
