//! Anchors and aliases are read (YAML 1.2.2, 6.9.2 and 7.1).
ghost use Rattle.std.specs.Prelude.{◌≡◌, IfErr};
ghost use Rattle.granit_base.specs.Written.{Written};
ghost use Rattle.granit_cursor.specs.Reading.{Stands, Moves, ReadsAs, AnswersAs, LendsWithoutMemory, RefusedFor, coded};
ghost use Rattle.granit_error.specs.FaultKind.{NoMemory as OutOfMemory};
ghost use Rattle.granit_lexemes.specs.Here.{Here, next_char};
ghost use Rattle.granit_lexemes.specs.NameExtent.{AnswersName, RefusesName};
ghost use Rattle.granit_lexemes.specs.Tags.{name_at};
ghost use Rattle.granit_properties.specs.PropertyTokens as spec;
ghost use Rattle.granit_properties.specs.PropertyTokens.{IsNameKind, StandsPlaced, name_sign, name_token, placed_at};

use crate::word::{Word, word_text};
use granit_base::{Span, Text, is_at_end};
use granit_cursor::{Cursor, Token, TokenType};
use granit_error::{ErrorKind, ScanError};
use granit_input::BorrowedInput;
use std::alloc::Global;

/// The anchor that begins here with its `&`, or the alias with its `*`, by its name, which is lent where the
/// input lends; the cursor then stands behind it (YAML 1.2.2, 6.9.2 and 7.1).
///
/// # Errors
///
/// At the sign `MissingAnchorOrAliasName` where no character of a name follows it. `NoMemory`, only where the name
/// isn't lent. `InputSlicingUnavailable`, where the input refuses to lend what it could.
pub fn scan_anchor<'input, T: BorrowedInput<'input>>(
    alloc: Global,
    cursor: &mut Cursor<T>,
    alias: bool,
) -> Result<Token<'input>, ScanError>
    requires { (h : Here) → Stands T.unread cursor.old h → next_char h ≡ name_sign alias }
    ensures here { ReadsAs T.unread cursor.old cursor.new result (λ h. coded (name_token alias) (placed_at name_at h)) }
    ensures name { AnswersAs T.unread cursor.old cursor.new result (name_token alias) (StandsPlaced AnswersName) }
    ensures cause { RefusedFor T.unread cursor.old result RefusesName }
    ensures answered { (h : Here) (name : Written) (after : Here) → Stands T.unread cursor.old h
        → AnswersName h name after → IfErr result (λ e. e.kind ≡ OutOfMemory) }
    ensures lent { LendsWithoutMemory T.unread cursor.old result }
    ensures kinds { IfErr result (λ e. IsNameKind e.kind) }
    ensures moves { Moves T.unread T.left T.origin cursor.old cursor.new }
{
    read_name(alloc, cursor, alias)
}

#[tactic(auto, unfolding(granit_lexemes::specs::Tags::name_at))]
fn read_name<'input, T: BorrowedInput<'input>>(
    alloc: Global,
    cursor: &mut Cursor<T>,
    alias: bool,
) -> Result<Token<'input>, ScanError>
    ensures here { ReadsAs T.unread cursor.old cursor.new result (λ h. coded (name_token alias) (placed_at name_at h)) }
    ensures lent { LendsWithoutMemory T.unread cursor.old result }
    ensures kinds { IfErr result (λ e. IsNameKind e.kind) }
    ensures moves { Moves T.unread T.left T.origin cursor.old cursor.new }
{
    let start = cursor.mark();
    cursor.step();
    let name = word_text(alloc, cursor, Word::Name)?;
    if is_at_end(name.as_str()) {
        return Err(ScanError::from_kind(start, ErrorKind::MissingAnchorOrAliasName));
    }
    let token_type = name_type(alias, name);
    Ok(Token::new(Span::new(start, cursor.mark()), token_type))
}

fn name_type<'input>(alias: bool, name: Text<'input>) -> TokenType<'input>
    ensures { result ≡ spec.name_type alias name.entry }
{
    if alias {
        TokenType::Alias(name)
    } else {
        TokenType::Anchor(name)
    }
}
