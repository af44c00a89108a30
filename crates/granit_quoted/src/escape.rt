//! Escapes between double quotes are read (YAML 1.2.2, 5.7). What can't be read is refused at the scalar's start.
ghost use Rattle.std.specs.Prelude.{◌≡◌, ◌≤◌, IsTrue, IfErr};
ghost use Rattle.granit_error.specs.Kinds.{kind_of};
ghost use Rattle.granit_lexemes.specs.Decoding as decoding;
ghost use Rattle.granit_lexemes.specs.QuotedScalar as spec;
ghost use Rattle.granit_cursor.specs.Reading.{Moves, ReadsAs};
ghost use Rattle.granit_quoted.specs.QuotedCode.{hex_refusal, IsQuotedFault};
ghost use Rattle.granit_refused.specs.Answered.{answered};

use granit_base::{Marker, as_hex, is_hex};
use granit_cursor::Cursor;
use granit_error::{ErrorKind, ScanError};
use granit_input::Input;
use granit_lexemes::{
    digit_count, is_high_surrogate, is_low_surrogate, join_surrogates, letter_value,
};
use granit_refused::{Refused, refuse_at};

/// Why a missing digit is refused: one of a second half, or another.
fn hex_kind(second: bool) -> ErrorKind
    ensures kind { kind_of result ≡ hex_refusal second }
    ensures known { IsQuotedFault (kind_of result) }
{
    if second {
        return ErrorKind::InvalidLowSurrogateHexEscape;
    }
    ErrorKind::InvalidQuotedScalarHexEscape
}

/// The number that so many hexadecimal digits write.
fn digits<T: Input>(
    cursor: &mut Cursor<T>,
    start: Marker,
    second: bool,
    count: u32,
    fault: &mut Option<ScanError>,
) -> Result<u32, Refused>
    requires { count ≤ 8 }
    ensures here { ReadsAs T.unread cursor.old cursor.new (answered fault.new result)
        (spec.digits_or (hex_refusal second) start count 0) }
    ensures kinds { IfErr (answered fault.new result) (λ e. IsQuotedFault e.kind) }
    ensures moves { Moves T.unread T.left T.origin cursor.old cursor.new }
{
    let mut number: u32 = 0;
    'digits: for i in 0..count {
        cursor.look(1);
        let digit = cursor.input().peek();
        if !is_hex(digit) {
            return Err(refuse_at(fault, start, hex_kind(second)));
        }
        number = number * 16 + as_hex(digit);
        cursor.step();
    }
    Ok(number)
}

/// The character of a first half and the second that must follow it.
#[tactic(auto, unfolding(granit_lexemes::specs::QuotedScalar::second_half_or))]
fn second_half<T: Input>(
    cursor: &mut Cursor<T>,
    start: Marker,
    high: u32,
    fault: &mut Option<ScanError>,
) -> Result<char, Refused>
    requires { IsTrue (decoding.is_high high) }
    ensures here { ReadsAs T.unread cursor.old cursor.new (answered fault.new result) (spec.second_half_or start high) }
    ensures kinds { IfErr (answered fault.new result) (λ e. IsQuotedFault e.kind) }
    ensures moves { Moves T.unread T.left T.origin cursor.old cursor.new }
{
    cursor.look(2);
    if cursor.input().peek() == '\\' && cursor.input().peek_nth(1) == 'u' {
        cursor.step();
        cursor.step();
        let low = digits(cursor, start, true, 4, fault)?;
        return match join_surrogates(high, low) {
            Some(c) => Ok(c),
            None => Err(refuse_at(fault, start, ErrorKind::InvalidLowSurrogate)),
        };
    }
    Err(refuse_at(fault, start, ErrorKind::MissingLowSurrogate))
}

/// What a number of so many digits stands for.
#[tactic(auto, unfolding(granit_lexemes::specs::QuotedScalar::numbered_or))]
fn numbered<T: Input>(
    cursor: &mut Cursor<T>,
    start: Marker,
    count: u32,
    number: u32,
    fault: &mut Option<ScanError>,
) -> Result<char, Refused>
    ensures here { ReadsAs T.unread cursor.old cursor.new (answered fault.new result)
        (spec.numbered_or start count number) }
    ensures kinds { IfErr (answered fault.new result) (λ e. IsQuotedFault e.kind) }
    ensures moves { Moves T.unread T.left T.origin cursor.old cursor.new }
{
    match char::from_u32(number) {
        Some(c) => Ok(c),
        None if count == 4 && is_high_surrogate(number) => second_half(
            cursor, start, number, fault,
        ),
        None if count == 4 && is_low_surrogate(number) => {
            Err(refuse_at(fault, start, ErrorKind::UnpairedLowSurrogate))
        }
        None => Err(refuse_at(fault, start, ErrorKind::InvalidUnicodeEscape)),
    }
}

/// The character that an escape stands for, from its letter on (YAML 1.2.2, 5.7).
#[tactic(auto, unfolding(granit_lexemes::specs::QuotedScalar::escape_or))]
pub(crate) fn escape<T: Input>(
    cursor: &mut Cursor<T>,
    start: Marker,
    fault: &mut Option<ScanError>,
) -> Result<char, Refused>
    ensures here { ReadsAs T.unread cursor.old cursor.new (answered fault.new result) (spec.escape_or start) }
    ensures kinds { IfErr (answered fault.new result) (λ e. IsQuotedFault e.kind) }
    ensures moves { Moves T.unread T.left T.origin cursor.old cursor.new }
{
    cursor.look(1);
    let letter = cursor.input().peek();
    if let Some(c) = letter_value(letter) {
        cursor.step();
        return Ok(c);
    }
    match digit_count(letter) {
        Some(count) => {
            cursor.step();
            let number = digits(cursor, start, false, count, fault)?;
            numbered(cursor, start, count, number, fault)
        }
        None => Err(refuse_at(fault, start, ErrorKind::UnknownQuotedScalarEscape)),
    }
}
