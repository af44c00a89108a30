//! Tags are read (YAML 1.2.2, 6.9.1).
ghost use Rattle.std.specs.Prelude.{◌≡◌, ◌++◌, ◌∷◌, [], IfErr, IfOk};
ghost use Rattle.granit_base.specs.Written.{string_chars};
ghost use Rattle.granit_cursor.specs.Reading.{Stands, Moves, Wherever, GivesTo, ReadsAs, AnswersAs, RefusedFor, coded};
ghost use Rattle.granit_error.specs.FaultKind.{NoMemory as OutOfMemory};
ghost use Rattle.granit_lexemes.specs.Here.{Here, mark_of, next_char};
ghost use Rattle.granit_lexemes.specs.TagExtent as extent;
ghost use Rattle.granit_lexemes.specs.Tags as spec;
ghost use Rattle.granit_properties.specs.PropertyTokens.{IsTagKind, StandsPlaced, placed_at, tag_token};
ghost use Rattle.granit_properties.specs.TagCode.{named_rest, short_rest, spelled_tag, tag_read, verbatim_rest};

use crate::uri::{Uri, read_uri};
use crate::word::{Word, take_word};
use granit_base::{
    Marker, NoMemory, Span, Text, is_at_end, is_blank_or_breakz, push_char, push_text,
};
use granit_cursor::{Cursor, Token, TokenType};
use granit_error::{ErrorKind, ScanError};
use granit_input::{BorrowedInput, Class, Input};
use std::alloc::Global;

/// The tag that begins here with its `!`, by its handle and what follows that, both owned; the cursor then
/// stands behind it (YAML 1.2.2, 6.9.1). Its percent escapes are decoded (5.6). A verbatim tag has an empty
/// handle, and so has `!` alone.
///
/// # Errors
///
/// `NoMemory`. At the `!`: `InvalidTagEscape`, `InvalidTagUtf8LeadingByte`, `InvalidTagUtf8TrailingByte`
/// and `InvalidTagUtf8` for a wrong escape; `MissingTagUri` where nothing follows `!<` or a handle with a
/// second `!`; `UnclosedVerbatimTag` where no `>` follows a URI; `InvalidTagTerminator` for what may not
/// follow a tag.
pub fn scan_tag<'input, T: BorrowedInput<'input>>(
    alloc: Global,
    cursor: &mut Cursor<T>,
    in_flow: bool,
) -> Result<Token<'input>, ScanError>
    requires { (h : Here) → Stands T.unread cursor.old h → next_char h ≡ 0x21 }
    ensures here { ReadsAs T.unread cursor.old cursor.new result
        (λ h. coded tag_token (placed_at (spec.tag_at in_flow) h)) }
    ensures tag { AnswersAs T.unread cursor.old cursor.new result tag_token (StandsPlaced (extent.AnswersTag in_flow)) }
    ensures cause { RefusedFor T.unread cursor.old result (extent.RefusesTag in_flow) }
    ensures answered { (h : Here) (tag : spec.TagRead) (after : Here) → Stands T.unread cursor.old h
        → extent.AnswersTag in_flow h tag after → IfErr result (λ e. e.kind ≡ OutOfMemory) }
    ensures kinds { IfErr result (λ e. IsTagKind e.kind) }
    ensures moves { Moves T.unread T.left T.origin cursor.old cursor.new }
{
    read_tag(alloc, cursor, in_flow)
}

fn read_tag<'input, T: Input>(
    alloc: Global,
    cursor: &mut Cursor<T>,
    in_flow: bool,
) -> Result<Token<'input>, ScanError>
    requires { (h : Here) → Stands T.unread cursor.old h → next_char h ≡ 0x21 }
    ensures here { ReadsAs T.unread cursor.old cursor.new result
        (λ h. coded tag_token (placed_at (spec.tag_at in_flow) h)) }
    ensures kinds { IfErr result (λ e. IsTagKind e.kind) }
    ensures moves { Moves T.unread T.left T.origin cursor.old cursor.new }
{
    let start = cursor.mark();
    let tag = tag_at(alloc, cursor, in_flow, start)?;
    let token_type = TokenType::Tag(Text::owned(tag.handle), Text::owned(tag.suffix));
    Ok(Token::new(Span::new(start, cursor.mark()), token_type))
}

/// A tag by its handle and what follows that.
#[derive(Drop)]
struct TagText {
    handle: String,
    suffix: String,
}

/// No text.
#[tactic(auto, using(granit_cursor::proofs::MoveLemmas::cleared))]
pub fn empty_text(alloc: Global) -> String
    ensures { string_chars result ≡ [] }
{
    String::new(alloc)
}

/// The text `!`.
///
/// # Errors
///
/// `NoMemory` alone.
pub fn bang(alloc: Global) -> Result<String, NoMemory>
    ensures { IfOk result (λ s. string_chars s ≡ 0x21 ∷ []) }
{
    let mut text = empty_text(alloc);
    push_char(&mut text, '!')?;
    Ok(text)
}

/// The handle of that name.
fn handle_of(alloc: Global, name: String) -> Result<String, NoMemory>
    ensures { IfOk result (λ s. string_chars s ≡ 0x21 ∷ (string_chars name ++ 0x21 ∷ [])) }
{
    let mut handle = bang(alloc)?;
    push_text(&mut handle, name.as_str())?;
    push_char(&mut handle, '!')?;
    Ok(handle)
}

/// What the characters of a tag spell, behind a text.
fn tag_text<T: Input>(
    alloc: Global,
    cursor: &mut Cursor<T>,
    uri: Uri,
    start: Marker,
    text: String,
) -> Result<String, ScanError>
    ensures here { Wherever T.unread cursor.old cursor.new
        (λ h Lands. GivesTo string_chars result Lands (spelled_tag uri start (string_chars text) h)) }
    ensures kinds { IfErr result (λ e. IsTagKind e.kind) }
    ensures moves { Moves T.unread T.left T.origin cursor.old cursor.new }
{
    let parts = read_uri(alloc, cursor, uri, start, None, text, 0)?;
    Ok(parts.value)
}

/// That tag, where what stands behind it may follow one.
#[tactic(auto, unfolding(granit_lexemes::specs::Tags::tag_ends))]
fn finish_tag<T: Input>(
    cursor: &mut Cursor<T>,
    in_flow: bool,
    start: Marker,
    handle: String,
    suffix: String,
) -> Result<TagText, ScanError>
    ensures here { Wherever T.unread cursor.old cursor.new (λ h Lands.
        GivesTo tag_read result Lands (spec.tag_ends in_flow start
        (spec.tag_of (string_chars handle) (string_chars suffix)) h)) }
    ensures kinds { IfErr result (λ e. IsTagKind e.kind) }
    ensures moves { Moves T.unread T.left T.origin cursor.old cursor.new }
{
    cursor.look(1);
    let c = cursor.input().peek();
    if is_blank_or_breakz(c) || in_flow && (c == ',' || (c == ']' || c == '}')) {
        return Ok(TagText { handle, suffix });
    }
    Err(ScanError::from_kind(start, ErrorKind::InvalidTagTerminator))
}

/// A verbatim tag from its URI on.
fn verbatim<T: Input>(
    alloc: Global,
    cursor: &mut Cursor<T>,
    in_flow: bool,
    start: Marker,
) -> Result<TagText, ScanError>
    ensures here { Wherever T.unread cursor.old cursor.new (λ h Lands.
        GivesTo tag_read result Lands (verbatim_rest in_flow start h)) }
    ensures kinds { IfErr result (λ e. IsTagKind e.kind) }
    ensures moves { Moves T.unread T.left T.origin cursor.old cursor.new }
{
    let suffix = tag_text(alloc, cursor, Uri::Whole, start, empty_text(alloc))?;
    if is_at_end(suffix.as_str()) {
        return Err(ScanError::from_kind(start, ErrorKind::MissingTagUri));
    }
    cursor.look(1);
    if cursor.input().peek() != '>' {
        return Err(ScanError::from_kind(start, ErrorKind::UnclosedVerbatimTag));
    }
    cursor.step();
    finish_tag(cursor, in_flow, start, empty_text(alloc), suffix)
}

/// A tag of that handle from its suffix on.
fn named<T: Input>(
    alloc: Global,
    cursor: &mut Cursor<T>,
    in_flow: bool,
    start: Marker,
    handle: String,
) -> Result<TagText, ScanError>
    ensures here { Wherever T.unread cursor.old cursor.new (λ h Lands.
        GivesTo tag_read result Lands (named_rest in_flow start (string_chars handle) h)) }
    ensures kinds { IfErr result (λ e. IsTagKind e.kind) }
    ensures moves { Moves T.unread T.left T.origin cursor.old cursor.new }
{
    let suffix = tag_text(alloc, cursor, Uri::Tag, start, empty_text(alloc))?;
    if is_at_end(suffix.as_str()) {
        return Err(ScanError::from_kind(start, ErrorKind::MissingTagUri));
    }
    finish_tag(cursor, in_flow, start, handle, suffix)
}

/// A tag of the handle `!` behind a word of its suffix, or `!` alone.
fn short<T: Input>(
    alloc: Global,
    cursor: &mut Cursor<T>,
    in_flow: bool,
    start: Marker,
    word: String,
) -> Result<TagText, ScanError>
    ensures here { Wherever T.unread cursor.old cursor.new (λ h Lands.
        GivesTo tag_read result Lands (short_rest in_flow start (string_chars word) h)) }
    ensures kinds { IfErr result (λ e. IsTagKind e.kind) }
    ensures moves { Moves T.unread T.left T.origin cursor.old cursor.new }
{
    let suffix = tag_text(alloc, cursor, Uri::Tag, start, word)?;
    let sign = bang(alloc)?;
    if is_at_end(suffix.as_str()) {
        return finish_tag(cursor, in_flow, start, empty_text(alloc), sign);
    }
    finish_tag(cursor, in_flow, start, sign, suffix)
}

fn tag_at<T: Input>(
    alloc: Global,
    cursor: &mut Cursor<T>,
    in_flow: bool,
    start: Marker,
) -> Result<TagText, ScanError>
    requires { (h : Here) → Stands T.unread cursor.old h → (next_char h ≡ 0x21) × (start ≡ mark_of h) }
    ensures here { Wherever T.unread cursor.old cursor.new
        (λ h Lands. GivesTo tag_read result Lands (spec.tag_at in_flow h)) }
    ensures kinds { IfErr result (λ e. IsTagKind e.kind) }
    ensures moves { Moves T.unread T.left T.origin cursor.old cursor.new }
{
    cursor.look(2);
    let verbatim_next = cursor.input().peek_nth(1) == '<';
    cursor.step();
    if verbatim_next {
        cursor.step();
        return verbatim(alloc, cursor, in_flow, start);
    }
    let mut word = empty_text(alloc);
    take_word(cursor, Word::Of(Class::Alpha), &mut word)?;
    cursor.look(1);
    if cursor.input().peek() == '!' {
        cursor.step();
        let handle = handle_of(alloc, word)?;
        return named(alloc, cursor, in_flow, start, handle);
    }
    short(alloc, cursor, in_flow, start, word)
}
