//! The handle and the prefix of `%TAG` (YAML 1.2.2, 6.8.2). What can't be read is refused at a start that the
//! caller tells.
ghost use Rattle.std.specs.Prelude.{◌≡◌, ◌==◌, ◌||◌, IfErr, Some};
ghost use Rattle.granit_base.specs.Written.{string_chars};
ghost use Rattle.granit_cursor.specs.Reading.{Stands, Moves, Wherever, GivesTo};
ghost use Rattle.granit_directives.specs.DirectiveCode.{IsDirectiveKind};
ghost use Rattle.granit_directives.specs.PrefixCode.{ClosesTo, HandleTo, SpellsTo, prefix_directive, prefix_rest};
ghost use Rattle.granit_lexemes.specs.Directive as spec;
ghost use Rattle.granit_lexemes.specs.Here.{Here, next_char};
ghost use Rattle.granit_properties.specs.UriCode.{budget_of};

use crate::words::{byte_count, count_blanks};
use granit_base::{Marker, NoMemory, is_blank_or_breakz, is_tag_char, push_char};
use granit_cursor::Cursor;
use granit_error::{ErrorKind, ScanError};
use granit_input::{Class, Input};
use granit_properties::{Uri, Word, bang, empty_text, read_uri, spend, take_word};
use std::alloc::Global;

/// A handle and what it stands for.
#[derive(Drop)]
pub(crate) struct PrefixText {
    pub(crate) handle: String,
    pub(crate) prefix: String,
}

/// Over blanks; how many bytes are left of the limit.
fn blanks_within<T: Input>(
    cursor: &mut Cursor<T>,
    start: Marker,
    limit: usize,
    left: usize,
) -> Result<usize, ScanError>
    ensures here { Wherever T.unread cursor.old cursor.new (λ h Lands.
        GivesTo (budget_of (Some limit)) result Lands (spec.blanks_within (budget_of (Some limit) left) start h)) }
    ensures kinds { IfErr result (λ e. IsDirectiveKind e.kind) }
    ensures moves { Moves T.unread T.left T.origin cursor.old cursor.new }
{
    let blanks = count_blanks(cursor);
    let mut rest = left;
    spend(Some(limit), &mut rest, blanks, start)?;
    Ok(rest)
}

/// Whether a second `!` is next, which is then taken.
fn closes_handle<T: Input>(cursor: &mut Cursor<T>, text: &mut String) -> Result<bool, NoMemory>
    ensures here { Wherever T.unread cursor.old cursor.new (λ h Lands.
        ClosesTo result Lands (string_chars text.old) (string_chars text.new) h) }
    ensures moves { Moves T.unread T.left T.origin cursor.old cursor.new }
{
    cursor.look(1);
    if cursor.input().peek() != '!' {
        return Ok(false);
    }
    push_char(text, '!')?;
    cursor.step();
    Ok(true)
}

/// A handle, or `!` and a word that no `!` ends.
#[derive(Drop)]
struct SpelledHandle {
    text: String,
    bytes: usize,
    ends: bool,
}

/// Whether a handle ends behind so many bytes, its word's last one, or behind a second `!`.
fn is_ended(closed: bool, word_bytes: usize) -> bool
    ensures { result ≡ (closed || word_bytes == 1) }
{
    closed || word_bytes == 1
}

/// What begins here with its `!`.
fn spelled_handle<T: Input>(
    alloc: Global,
    cursor: &mut Cursor<T>,
) -> Result<SpelledHandle, NoMemory>
    ensures here { (h : Here) → Stands T.unread cursor.old h → next_char h ≡ 0x21
        → SpellsTo result (Stands T.unread cursor.new) h }
    ensures moves { Moves T.unread T.left T.origin cursor.old cursor.new }
{
    let mut text = bang(alloc)?;
    cursor.step();
    take_word(cursor, Word::Of(Class::Alpha), &mut text)?;
    let word_bytes = byte_count(text.as_str());
    let closed = closes_handle(cursor, &mut text)?;
    let bytes = byte_count(text.as_str());
    Ok(SpelledHandle {
        text,
        bytes,
        ends: is_ended(closed, word_bytes),
    })
}

/// A handle, and how many bytes are left of the limit behind it.
#[derive(Drop)]
struct HandleText {
    text: String,
    left: usize,
}

/// The handle that begins here.
#[tactic(auto, unfolding(granit_lexemes::specs::Directive::handle_at, granit_lexemes::specs::Directive::handle_by))]
fn handle_at<T: Input>(
    alloc: Global,
    cursor: &mut Cursor<T>,
    start: Marker,
    limit: usize,
    left: usize,
) -> Result<HandleText, ScanError>
    ensures here { Wherever T.unread cursor.old cursor.new (λ h Lands.
        HandleTo limit result Lands h (spec.handle_at (budget_of (Some limit) left) start h)) }
    ensures kinds { IfErr result (λ e. IsDirectiveKind e.kind) }
    ensures moves { Moves T.unread T.left T.origin cursor.old cursor.new }
{
    cursor.look(1);
    if cursor.input().peek() != '!' {
        return Err(ScanError::from_kind(start, ErrorKind::ExpectedTagBang));
    }
    let spelled = spelled_handle(alloc, cursor)?;
    let mut rest = left;
    spend(Some(limit), &mut rest, spelled.bytes, start)?;
    if !spelled.ends {
        return Err(ScanError::from_kind(start, ErrorKind::ExpectedTagDirectiveBang));
    }
    Ok(HandleText {
        text: spelled.text,
        left: rest,
    })
}

/// The prefix of that handle behind what was read of it.
fn prefix_rest<T: Input>(
    alloc: Global,
    cursor: &mut Cursor<T>,
    start: Marker,
    limit: usize,
    handle: HandleText,
    front: String,
) -> Result<PrefixText, ScanError>
    ensures here { Wherever T.unread cursor.old cursor.new (λ h Lands.
        GivesTo prefix_directive result Lands
        (prefix_rest start (budget_of (Some limit) handle.left) (string_chars handle.text) (string_chars front) h)) }
    ensures kinds { IfErr result (λ e. IsDirectiveKind e.kind) }
    ensures moves { Moves T.unread T.left T.origin cursor.old cursor.new }
{
    let parts = read_uri(
        alloc,
        cursor,
        Uri::Whole,
        start,
        Some(limit),
        front,
        handle.left,
    )?;
    cursor.look(1);
    if !is_blank_or_breakz(cursor.input().peek()) {
        return Err(ScanError::from_kind(start, ErrorKind::InvalidTagDirectiveTerminator));
    }
    Ok(PrefixText {
        handle: handle.text,
        prefix: parts.value,
    })
}

/// The prefix of that handle, which begins here.
#[tactic(auto, unfolding(granit_lexemes::specs::Directive::prefix_at))]
fn prefix_at<T: Input>(
    alloc: Global,
    cursor: &mut Cursor<T>,
    start: Marker,
    limit: usize,
    handle: HandleText,
) -> Result<PrefixText, ScanError>
    ensures here { Wherever T.unread cursor.old cursor.new (λ h Lands.
        GivesTo prefix_directive result Lands
        (spec.prefix_at (budget_of (Some limit) handle.left) start (string_chars handle.text) h)) }
    ensures kinds { IfErr result (λ e. IsDirectiveKind e.kind) }
    ensures moves { Moves T.unread T.left T.origin cursor.old cursor.new }
{
    cursor.look(1);
    let c = cursor.input().peek();
    if c == '!' {
        let mut left = handle.left;
        spend(Some(limit), &mut left, 1, start)?;
        let front = bang(alloc)?;
        cursor.step();
        let handle = HandleText {
            text: handle.text,
            left,
        };
        return prefix_rest(alloc, cursor, start, limit, handle, front);
    }
    if !is_tag_char(c) {
        return Err(ScanError::from_kind(start, ErrorKind::InvalidGlobalTagCharacter));
    }
    prefix_rest(alloc, cursor, start, limit, handle, empty_text(alloc))
}

/// A handle and a prefix behind blanks.
pub(crate) fn tag_directive<T: Input>(
    alloc: Global,
    cursor: &mut Cursor<T>,
    start: Marker,
    limit: usize,
    left: usize,
) -> Result<PrefixText, ScanError>
    ensures here { Wherever T.unread cursor.old cursor.new (λ h Lands.
        GivesTo prefix_directive result Lands (spec.tag_directive (budget_of (Some limit) left) start h)) }
    ensures kinds { IfErr result (λ e. IsDirectiveKind e.kind) }
    ensures moves { Moves T.unread T.left T.origin cursor.old cursor.new }
{
    let left = blanks_within(cursor, start, limit, left)?;
    let handle = handle_at(alloc, cursor, start, limit, left)?;
    let left = blanks_within(cursor, start, limit, handle.left)?;
    let handle = HandleText {
        text: handle.text,
        left,
    };
    prefix_at(alloc, cursor, start, limit, handle)
}
