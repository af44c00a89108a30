//! The two numbers of `%YAML` (YAML 1.2.2, 6.8.1). What can't be read is refused at a start that the caller tells.
ghost use Rattle.std.specs.Prelude.{◌≡◌, ◌≤◌, IfErr, ℕ};
ghost use Rattle.granit_cursor.specs.Reading.{Moves, Wherever, GivesTo};
ghost use Rattle.granit_lexemes.specs.Directive as spec;
ghost use Rattle.granit_lexemes.specs.Lexeme.{Version};
ghost use Rattle.granit_directives.specs.DirectiveCode.{IsDirectiveKind};
ghost use Rattle.granit_directives.specs.VersionCode.{counted_number, version_read};

use granit_base::{Marker, as_hex, is_digit};
use granit_cursor::{Cursor, past_blanks};
use granit_error::{ErrorKind, ScanError};
use granit_input::Input;

/// A version by the numbers before and behind its point.
#[derive(Clone, Copy)]
pub(crate) struct VersionNumbers {
    pub(crate) major: u32,
    pub(crate) minor: u32,
}

/// How many digits a number of a version may have.
const MOST_DIGITS: u32 = 9;

/// The number of so many digits, where there are some.
fn some_number(start: Marker, count: u32, number: u32) -> Result<u32, ScanError>
    ensures given { counted_number start count number result }
    ensures kinds { IfErr result (λ e. IsDirectiveKind e.kind) }
{
    if count == 0 {
        return Err(ScanError::from_kind(start, ErrorKind::MissingYamlVersion));
    }
    Ok(number)
}

/// The number that the digits here write.
fn version_number<T: Input>(cursor: &mut Cursor<T>, start: Marker) -> Result<u32, ScanError>
    ensures here { Wherever T.unread cursor.old cursor.new (λ h Lands.
        GivesTo (λ n. n) result Lands (spec.version_number start h)) }
    ensures kinds { IfErr result (λ e. IsDirectiveKind e.kind) }
    ensures moves { Moves T.unread T.left T.origin cursor.old cursor.new }
{
    let mut number: u32 = 0;
    let mut count: u32 = 0;
    'digits: loop {
        cursor.look(1);
        let digit = cursor.input().peek();
        if !is_digit(digit) {
            return some_number(start, count, number);
        }
        if count == MOST_DIGITS {
            return Err(ScanError::from_kind(start, ErrorKind::YamlVersionTooLong));
        }
        number = number * 10 + as_hex(digit);
        count += 1;
        cursor.step();
    }
}

/// The number behind a point.
#[tactic(auto, unfolding(granit_lexemes::specs::Directive::minor_number))]
fn minor_number<T: Input>(cursor: &mut Cursor<T>, start: Marker) -> Result<u32, ScanError>
    ensures here { Wherever T.unread cursor.old cursor.new (λ h Lands.
        GivesTo (λ n. n) result Lands (spec.minor_number start h)) }
    ensures kinds { IfErr result (λ e. IsDirectiveKind e.kind) }
    ensures moves { Moves T.unread T.left T.origin cursor.old cursor.new }
{
    cursor.look(1);
    if cursor.input().peek() != '.' {
        return Err(ScanError::from_kind(start, ErrorKind::MissingYamlVersionSeparator));
    }
    cursor.step();
    version_number(cursor, start)
}

/// The version that stands here behind blanks.
pub(crate) fn version_directive<T: Input>(
    cursor: &mut Cursor<T>,
    start: Marker,
) -> Result<VersionNumbers, ScanError>
    ensures here { Wherever T.unread cursor.old cursor.new (λ h Lands.
        GivesTo version_read result Lands (spec.version_directive start h)) }
    ensures kinds { IfErr result (λ e. IsDirectiveKind e.kind) }
    ensures moves { Moves T.unread T.left T.origin cursor.old cursor.new }
{
    past_blanks(cursor);
    let major = version_number(cursor, start)?;
    let minor = minor_number(cursor, start)?;
    Ok(VersionNumbers { major, minor })
}
