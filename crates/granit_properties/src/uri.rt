//! The characters of URIs and tags, with percent escapes, which spell a character's bytes in UTF-8
//! (YAML 1.2.2, 5.6). What can't be read is refused at a start that the caller tells.
ghost use Rattle.std.specs.Prelude.{◌≡◌, ◌≤◌, ◌-◌, Option, ℕ, IfErr, OnOk};
ghost use Rattle.granit_base.specs.Classes as class;
ghost use Rattle.granit_base.specs.Written.{string_chars};
ghost use Rattle.granit_cursor.specs.Reading.{Stands, Moves, Wherever, GivesTo, TurnTakes};
ghost use Rattle.granit_lexemes.specs.Outcome.{GivesValue};
ghost use Rattle.granit_lexemes.specs.Pieces.{with_front};
ghost use Rattle.granit_lexemes.specs.Tags as spec;
ghost use Rattle.granit_properties.specs.UriCode.{AppendsUri, UriGoesOn, SpellsUri, TrailsTo, UriTo, escaped_char};
ghost use Rattle.granit_properties.specs.UriCode.{own_char, IsUriKind, LandsUri, budget_of, uri_at};
ghost use Rattle.granit_properties.specs.UriCode.{uri_test, uri_whole};

use granit_base::{Marker, as_hex, is_hex, is_tag_char, is_uri_char, push_char, push_text};
use granit_cursor::Cursor;
use granit_error::{ErrorKind, ScanError};
use granit_input::Input;
use std::alloc::Global;

/// The characters that are read.
#[derive(Clone, Copy)]
pub enum Uri {
    /// Those of a URI.
    Whole,
    /// Those of a tag that isn't verbatim.
    Tag,
}

impl Uri {
    fn takes(self, c: char) -> bool
        ensures { result ≡ uri_test self c }
    {
        match self {
            Uri::Whole => is_uri_char(c),
            Uri::Tag => is_tag_char(c),
        }
    }
}

/// What was read, and how many bytes a directive may still hold.
#[derive(Drop)]
pub struct UriParts {
    pub value: String,
    /// The bytes of the last escaped character.
    bytes: Vec<u8>,
    pub left: usize,
}

/// So many bytes fewer are left, where there is a limit.
///
/// # Errors
///
/// At the start: `DirectiveByteLimitExceeded` where fewer are left.
pub fn spend(
    limit: Option<usize>,
    left: &mut usize,
    count: usize,
    start: Marker,
) -> Result<(), ScanError>
    ensures spent { GivesValue (λ u. budget_of limit left.new) result
        (spec.spent (budget_of limit left.old) count start) }
    ensures kinds { IfErr result (λ e. IsUriKind limit e.kind) }
{
    if let Some(limit) = limit {
        if *left < count {
            return Err(ScanError::from_kind(
                start,
                ErrorKind::DirectiveByteLimitExceeded { limit },
            ));
        }
        *left -= count;
    }
    Ok(())
}

/// The byte that `%` and two hexadecimal digits spell.
#[tactic(auto, unfolding(granit_lexemes::specs::Tags::escaped_byte), using(crate::proofs::UriLemmas::byte_of_digits))]
fn escaped_byte<T: Input>(
    cursor: &mut Cursor<T>,
    start: Marker,
    limit: Option<usize>,
    left: &mut usize,
) -> Result<u8, ScanError>
    ensures here { Wherever T.unread cursor.old cursor.new (λ h Lands.
        GivesTo (λ b. b) result (LandsUri Lands (budget_of limit left.new))
        (spec.escaped_byte start (uri_at h (budget_of limit left.old)))) }
    ensures left { OnOk result (T.left cursor.new.input ≤ T.left cursor.old.input - 1) }
    ensures kinds { IfErr result (λ e. IsUriKind limit e.kind) }
    ensures moves { Moves T.unread T.left T.origin cursor.old cursor.new }
{
    cursor.look(3);
    let high = cursor.input().peek_nth(1);
    let low = cursor.input().peek_nth(2);
    if cursor.input().peek() == '%' && is_hex(high) && is_hex(low) {
        spend(limit, left, 3, start)?;
        cursor.step();
        cursor.step();
        cursor.step();
        return Ok((as_hex(high) * 16 + as_hex(low)) as u8);
    }
    Err(ScanError::from_kind(start, ErrorKind::InvalidTagEscape))
}

/// How many bytes follow the first one of a character.
#[tactic(auto, unfolding(granit_lexemes::specs::Tags::bytes_behind))]
fn bytes_behind(lead: u8) -> Option<usize>
    ensures { result ≡ spec.bytes_behind lead }
{
    match lead {
        0..=0x7F => Some(0),
        0xC0..=0xDF => Some(1),
        0xE0..=0xEF => Some(2),
        0xF0..=0xF7 => Some(3),
        _ => None,
    }
}

/// Whether a byte follows the first one of a character.
fn is_trailing(byte: u8) -> bool
    ensures { result ≡ class.is_within 0x80 0xBF byte }
{
    0x80 <= byte && byte <= 0xBF
}

/// So many more bytes of a character.
fn trailing_bytes<T: Input>(
    cursor: &mut Cursor<T>,
    start: Marker,
    limit: Option<usize>,
    count: usize,
    parts: &mut UriParts,
) -> Result<(), ScanError>
    ensures here { Wherever T.unread cursor.old cursor.new (λ h Lands.
        TrailsTo limit result Lands parts.new
        (spec.trailing_bytes start count parts.old.bytes.items (uri_at h (budget_of limit parts.old.left)))) }
    ensures value { string_chars parts.new.value ≡ string_chars parts.old.value }
    ensures kinds { IfErr result (λ e. IsUriKind limit e.kind) }
    ensures moves { Moves T.unread T.left T.origin cursor.old cursor.new }
{
    'bytes: for i in 0..count {
        let byte = escaped_byte(cursor, start, limit, &mut parts.left)?;
        if !is_trailing(byte) {
            return Err(ScanError::from_kind(start, ErrorKind::InvalidTagUtf8TrailingByte));
        }
        parts.bytes.push(byte)?;
    }
    Ok(())
}

/// AppendsUri the character that the bytes spell.
fn push_spelled(start: Marker, parts: &mut UriParts) -> Result<(), ScanError>
    ensures spells { SpellsUri result (string_chars parts.old.value) (string_chars parts.new.value)
        parts.old.bytes.items start }
    ensures left { parts.new.left ≡ parts.old.left }
    ensures kinds { (limit : Option ℕ) → IfErr result (λ e. IsUriKind limit e.kind) }
{
    match str::from_utf8(parts.bytes.as_slice()) {
        Ok(text) => {
            push_text(&mut parts.value, text)?;
            Ok(())
        }
        Err(_) => Err(ScanError::from_kind(start, ErrorKind::InvalidTagUtf8)),
    }
}

/// On over the escapes of a character, which is appended.
fn take_escaped<T: Input>(
    cursor: &mut Cursor<T>,
    start: Marker,
    limit: Option<usize>,
    parts: &mut UriParts,
) -> Result<(), ScanError>
    ensures here { Wherever T.unread cursor.old cursor.new (λ h Lands.
        AppendsUri result Lands (string_chars parts.old.value) (string_chars parts.new.value)
        (budget_of limit parts.new.left)
        (escaped_char start (uri_at h (budget_of limit parts.old.left)))) }
    ensures left { OnOk result (T.left cursor.new.input ≤ T.left cursor.old.input - 1) }
    ensures kinds { IfErr result (λ e. IsUriKind limit e.kind) }
    ensures moves { Moves T.unread T.left T.origin cursor.old cursor.new }
{
    let lead = escaped_byte(cursor, start, limit, &mut parts.left)?;
    match bytes_behind(lead) {
        Some(count) => {
            parts.bytes.clear();
            parts.bytes.push(lead)?;
            trailing_bytes(cursor, start, limit, count, parts)?;
            push_spelled(start, parts)
        }
        None => Err(ScanError::from_kind(start, ErrorKind::InvalidTagUtf8LeadingByte)),
    }
}

/// On over a character that spells itself, which is appended.
fn take_itself<T: Input>(
    cursor: &mut Cursor<T>,
    start: Marker,
    limit: Option<usize>,
    parts: &mut UriParts,
) -> Result<(), ScanError>
    ensures here { Wherever T.unread cursor.old cursor.new (λ h Lands.
        AppendsUri result Lands (string_chars parts.old.value) (string_chars parts.new.value)
        (budget_of limit parts.new.left)
        (own_char start (uri_at h (budget_of limit parts.old.left)))) }
    ensures left { OnOk result (T.left cursor.new.input ≤ T.left cursor.old.input - 1) }
    ensures kinds { IfErr result (λ e. IsUriKind limit e.kind) }
    ensures moves { Moves T.unread T.left T.origin cursor.old cursor.new }
{
    cursor.look(1);
    let c = cursor.input().peek();
    spend(limit, &mut parts.left, 1, start)?;
    push_char(&mut parts.value, c)?;
    cursor.step();
    Ok(())
}

/// On over a character; false where none is next.
fn take_turn<T: Input>(
    cursor: &mut Cursor<T>,
    uri: Uri,
    start: Marker,
    limit: Option<usize>,
    parts: &mut UriParts,
) -> Result<bool, ScanError>
    ensures here { Wherever T.unread cursor.old cursor.new (λ h Lands.
        UriGoesOn uri start limit result Lands parts.new (uri_whole uri start limit parts.old h)) }
    ensures left { TurnTakes result (T.left cursor.old.input) (T.left cursor.new.input) }
    ensures kinds { IfErr result (λ e. IsUriKind limit e.kind) }
    ensures moves { Moves T.unread T.left T.origin cursor.old cursor.new }
{
    cursor.look(1);
    let c = cursor.input().peek();
    if !uri.takes(c) {
        return Ok(false);
    }
    if c == '%' {
        take_escaped(cursor, start, limit, parts)?;
        return Ok(true);
    }
    take_itself(cursor, start, limit, parts)?;
    Ok(true)
}

/// Behind a text, what the characters of a URI spell, with so many bytes left.
///
/// # Errors
///
/// `NoMemory`. At the start: `DirectiveByteLimitExceeded`, and the kinds of a wrong escape, from
/// `InvalidTagEscape` to `InvalidTagUtf8`.
pub fn read_uri<T: Input>(
    alloc: Global,
    cursor: &mut Cursor<T>,
    uri: Uri,
    start: Marker,
    limit: Option<usize>,
    value: String,
    left: usize,
) -> Result<UriParts, ScanError>
    ensures here { Wherever T.unread cursor.old cursor.new (λ h Lands.
        UriTo limit result Lands (with_front (string_chars value)
        (spec.decoded (uri_test uri) start (budget_of limit left) h))) }
    ensures kinds { IfErr result (λ e. IsUriKind limit e.kind) }
    ensures moves { Moves T.unread T.left T.origin cursor.old cursor.new }
{
    let mut parts = UriParts {
        value,
        bytes: Vec::new(alloc),
        left,
    };
    'turns: while take_turn(cursor, uri, start, limit, &mut parts)? {}
    Ok(parts)
}
