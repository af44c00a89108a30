//! Brackets and `,` (YAML 1.2.2, 7.4).
ghost use Rattle.std.specs.Prelude.{◌≡◌, ◌<◌, ◌≤◌, ◌^◌, false, [], length};
ghost use Rattle.granit_cursor.specs.Reading.{Moves};
ghost use Rattle.granit_error.specs.FaultKind as faults;
ghost use Rattle.granit_error.specs.OptionsView.{options_of};
ghost use Rattle.granit_lexemes.specs.Lexeme as lexemes;
ghost use Rattle.granit_machine.specs.FlowLexemes as spec;
ghost use Rattle.granit_machine.specs.Laid as laid;
ghost use Rattle.granit_content.specs.Reads.{NeverWants, ReadsItems, lexeme_in};
ghost use Rattle.granit_refused.specs.Answered.{answered};

use granit_content::{sign, tailed};
use granit_cursor::Cursor;
use granit_error::{ErrorKind, Options, ScanError};
use granit_input::BorrowedInput;
use granit_items::{Lexeme, LexemeKind};
use granit_layout::Layouts;
use granit_lexemes::{Bracket, LastLexeme, OpenBracket};
use granit_refused::{Refused, refuse, refuse_at};
use std::alloc::Global;

/// An opener with its tail, where one more bracket may be open.
///
/// # Errors
///
/// `RecursionLimitExceeded` where none may, before memory is asked for; `NoMemory`, and those of `tailed`.
pub fn opener<'input, T: BorrowedInput<'input>>(
    alloc: Global,
    options: &Options,
    at: &mut Cursor<T>,
    layouts: &mut Layouts,
    bracket: Bracket,
    ends: bool,
    found: &mut Lexeme<'input>,
    fault: &mut Option<ScanError>,
) -> Result<(), Refused>
    requires room { layouts.old.number < 2 ^ 63 }
    ensures here { ReadsItems T.unread (options_of options.now).emit_comments at.old at.new layouts.new
        (lexeme_in found.new) (answered fault.new result)
        (λ h. spec.opener (options_of options.now) bracket ends h layouts.old) }
    ensures memory { (options_of options.now).flow_nesting_limit ≤ length layouts.old.brackets
        → NeverWants (answered fault.new result) }
    ensures moves { Moves T.unread T.left T.origin at.old at.new }
{
    let mark = at.mark();
    if options.flow_nesting_limit <= layouts.depth() {
        return Err(refuse_at(fault, mark, ErrorKind::RecursionLimitExceeded));
    }
    sign(at, layouts, ends, LexemeKind::Open(bracket), found);
    layouts.open(bracket, mark)?;
    tailed(
        alloc,
        options.emit_comments,
        at,
        layouts,
        LastLexeme::Opener,
        found,
        fault,
    )
}

/// A `,` with its tail.
///
/// # Errors
///
/// Those of `Layouts::drop_key` and of `tailed`.
pub fn comma<'input, T: BorrowedInput<'input>>(
    alloc: Global,
    options: &Options,
    at: &mut Cursor<T>,
    layouts: &mut Layouts,
    ends: bool,
    found: &mut Lexeme<'input>,
    fault: &mut Option<ScanError>,
) -> Result<(), Refused>
    requires room { layouts.old.number < 2 ^ 63 }
    ensures here { ReadsItems T.unread (options_of options.now).emit_comments at.old at.new layouts.new
        (lexeme_in found.new) (answered fault.new result) (λ h. spec.comma ends h layouts.old) }
    ensures memory { (options_of options.now).emit_comments ≡ false → NeverWants (answered fault.new result) }
    ensures moves { Moves T.unread T.left T.origin at.old at.new }
{
    let last = layouts.last_of_comma();
    sign(at, layouts, ends, LexemeKind::Comma, found);
    layouts.drop_key(fault)?;
    tailed(
        alloc,
        options.emit_comments,
        at,
        layouts,
        last,
        found,
        fault,
    )
}

/// A closer of the innermost open bracket, with its tail.
///
/// # Errors
///
/// `MisplacedFlowCollectionEnd` where no bracket is open, `MismatchedFlowCollectionEnd` where that is
/// another one, and those of `tailed`.
pub fn closer<'input, T: BorrowedInput<'input>>(
    alloc: Global,
    options: &Options,
    at: &mut Cursor<T>,
    layouts: &mut Layouts,
    bracket: Bracket,
    ends: bool,
    found: &mut Lexeme<'input>,
    fault: &mut Option<ScanError>,
) -> Result<(), Refused>
    requires room { layouts.old.number < 2 ^ 63 }
    ensures here { ReadsItems T.unread (options_of options.now).emit_comments at.old at.new layouts.new
        (lexeme_in found.new) (answered fault.new result) (λ h. spec.closer bracket ends h layouts.old) }
    ensures memory { (options_of options.now).emit_comments ≡ false → NeverWants (answered fault.new result) }
    ensures moves { Moves T.unread T.left T.origin at.old at.new }
{
    match layouts.top_bracket() {
        None => Err(refuse_at(fault, at.mark(), ErrorKind::MisplacedFlowCollectionEnd)),
        Some(innermost) => {
            if !is_same(innermost.bracket, bracket) {
                return Err(refuse(fault, mismatched(innermost, bracket)));
            }
            sign(at, layouts, ends, LexemeKind::Close(bracket), found);
            layouts.close();
            tailed(
                alloc,
                options.emit_comments,
                at,
                layouts,
                LastLexeme::Adjacent,
                found,
                fault,
            )
        }
    }
}

fn is_same(a: Bracket, b: Bracket) -> bool
    ensures { result ≡ laid.same_bracket a b }
{
    matches!(
        (a, b),
        (Bracket::Square, Bracket::Square) | (Bracket::Curly, Bracket::Curly)
    )
}

fn mismatched(innermost: OpenBracket, bracket: Bracket) -> ScanError
    ensures { result ≡ record {
      kind = faults.MismatchedFlowCollectionEnd (lexemes.opener_char innermost.bracket) (lexemes.closer_char bracket);
      mark = innermost.mark;
      sources = [];
    } }
{
    ScanError::from_kind(
        innermost.mark,
        ErrorKind::MismatchedFlowCollectionEnd {
            opener: opener_char(innermost.bracket),
            closer: closer_char(bracket),
        },
    )
}

fn opener_char(bracket: Bracket) -> char
    ensures { result ≡ lexemes.opener_char bracket }
{
    match bracket {
        Bracket::Square => '[',
        Bracket::Curly => '{',
    }
}

fn closer_char(bracket: Bracket) -> char
    ensures { result ≡ lexemes.closer_char bracket }
{
    match bracket {
        Bracket::Square => ']',
        Bracket::Curly => '}',
    }
}
