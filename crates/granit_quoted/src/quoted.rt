//! Quoted scalars are read (YAML 1.2.2, 7.3.1 and 7.3.2).
ghost use Rattle.std.specs.Prelude.{◌≡◌, ◌<◌, ◌≤◌, ◌-◌, ◌⊎◌, ◌==◌, ◌&&◌, ℕ, true, false, ◌++◌, IfOk, IfErr, OnOk, Some};
ghost use Rattle.std.specs.Option.{option_map};
ghost use Rattle.std.specs.Str.{chars};
ghost use Rattle.granit_base.specs.Classes as class;
ghost use Rattle.granit_base.specs.Written.{string_chars};
ghost use Rattle.granit_error.specs.FaultKind.{InputSlicingUnavailable, NoMemory as OutOfMemory};
ghost use Rattle.granit_runs.specs.Runs.{starts};
ghost use Rattle.granit_error.specs.Kinds.{kind_of};
ghost use Rattle.granit_base.specs.Place.{Mark};
ghost use Rattle.granit_lexemes.specs.Here.{Here, mark_of, next_char, past, step};
ghost use Rattle.granit_lexemes.specs.LayoutData.{LayoutData};
ghost use Rattle.granit_lexemes.specs.Basics as basics;
ghost use Rattle.granit_lexemes.specs.Comment.{CommentRead};
ghost use Rattle.granit_lexemes.specs.QuotedExtent as extent;
ghost use Rattle.granit_lexemes.specs.QuotedScalar as spec;
ghost use Rattle.granit_cursor.specs.Reading.{Stands, Moves, Wherever, ReadsAs, AnswersAs, RefusedFor, coded};
ghost use Rattle.granit_cursor.specs.Reading.{GivesTo, LendsWithoutMemory, StepsRun, TurnTakes};
ghost use Rattle.granit_cursor.specs.Tokens.{comment_token, layout_data};
ghost use Rattle.granit_quoted.specs.QuotedCode.{quoted_from, quoted_lexed, asked, IsQuotedFault, quoted_state};
ghost use Rattle.granit_quoted.specs.QuotedCode.{remark_token};
ghost use Rattle.granit_quoted.specs.QuotedCode.{quoted_whole, quoted_ahead, content_read, SeesTo, SeesSome};
ghost use Rattle.granit_quoted.specs.QuotedCode.{TakesContent};
ghost use Rattle.granit_quoted.specs.QuotedCode.{added, escapes, GoesWords, QuotedTurnsTo, QuotedPartsTo, IsQuotedKind};
ghost use Rattle.granit_quoted.specs.QuotedCode.{kept_char, kept_chars, nothing_quoted, PassesKept};
ghost use Rattle.granit_quoted.specs.QuotedCode.{copied_scalar, passed_scalar, taken_scalar};
ghost use Rattle.granit_cursor.specs.WithoutMemory.{WithoutMemoryAt};
ghost use Rattle.granit_quoted.specs.QuotedMemory.{quoted_takes_none};
ghost use Rattle.granit_refused.specs.Answered.{answered};

use crate::begun::{USUAL_LENGTH, is_closing};
use crate::escape::escape;
use granit_base::{
    Marker, NoMemory, ScalarStyle, Span, Text, is_at_end, is_blank, is_break, is_printable,
    push_char, push_text,
};
use granit_cursor::{
    Comment, Cursor, Layout, Lexed, Token, TokenType, drop_blanks, lending_offset, lent_since,
    pass_comment, past_blanks, past_break, read_comment,
};
use granit_error::{ErrorKind, ScanError};
use granit_input::{BorrowedInput, Input};
use granit_refused::{Refused, keep_fault, refuse, refuse_at, take_fault};
use std::alloc::Global;
use std::marker::Model;

/// The quoted scalar that begins here with its quote, single or double (YAML 1.2.2, 7.3.1 and 7.3.2), with
/// the comment behind it on its last line, where comments are asked for; the cursor then stands behind the
/// scalar, its blanks and the comment. Its value is folded (6.5), and its escapes are read (5.7). It is lent
/// where the input lends and nothing in it was decoded. No break is read behind it.
///
/// # Errors
///
/// `NoMemory`, unless the input lends the scalar and nothing in it is decoded. At the scalar's start:
/// `UnclosedQuotedScalar`, `DocumentIndicatorInQuotedScalar`, and the kinds of a wrong escape, from
/// `UnknownQuotedScalarEscape` to `InvalidUnicodeEscape`. At the character: `TabInIndentation` for a tab that
/// indents a further line left of the tab column; `InvalidIndentation` and `InvalidQuotedScalarIndent` for
/// content, the closing quote or the end on a further line left of where it may stand; `CommentNotSeparated`
/// for a `#` directly behind the closing quote; `InvalidTrailingSingleQuotedScalar` and
/// `InvalidTrailingDoubleQuotedScalar` for what may not follow; `UnexpectedCharacter` for one that isn't
/// printable. `InputSlicingUnavailable`, where the input refuses to lend what it could.
pub fn scan_quoted_scalar<'input, T: BorrowedInput<'input>>(
    alloc: Global,
    cursor: &mut Cursor<T>,
    single: bool,
    at: &Layout,
) -> Result<Lexed<'input>, ScanError>
    requires { (h : Here) → Stands T.unread cursor.old h → next_char h ≡ spec.quote_char single }
    ensures here { ReadsAs T.unread cursor.old cursor.new result (λ h.
        coded (quoted_lexed single) (spec.quoted_scalar single (layout_data at.now) h)) }
    ensures scalar { AnswersAs T.unread cursor.old cursor.new result (quoted_lexed single)
        (extent.AnswersQuoted single (layout_data at.now)) }
    ensures cause { RefusedFor T.unread cursor.old result (extent.RefusesQuoted single (layout_data at.now)) }
    ensures answered { (h : Here) (read : spec.QuotedRead) (after : Here) → Stands T.unread cursor.old h
        → extent.AnswersQuoted single (layout_data at.now) h read after → IfErr result (λ e. e.kind ≡ OutOfMemory) }
    ensures kinds { IfErr result (λ e. IsQuotedKind e.kind) }
    ensures memory { WithoutMemoryAt T.unread cursor.old result (quoted_takes_none single) }
    ensures moves { Moves T.unread T.left T.origin cursor.old cursor.new }
{
    lexed_quoted(alloc, cursor, single, at)
}

/// The same, with what a reader needs.
fn lexed_quoted<'input, T: BorrowedInput<'input>>(
    alloc: Global,
    cursor: &mut Cursor<T>,
    single: bool,
    at: &Layout,
) -> Result<Lexed<'input>, ScanError>
    ensures here { ReadsAs T.unread cursor.old cursor.new result (λ h.
        coded (quoted_lexed single) (spec.quoted_scalar single (layout_data at.now) h)) }
    ensures kinds { IfErr result (λ e. IsQuotedKind e.kind) }
    ensures memory { WithoutMemoryAt T.unread cursor.old result (quoted_takes_none single) }
    ensures moves { Moves T.unread T.left T.origin cursor.old cursor.new }
{
    let start = cursor.mark();
    let mut read = QuotedScalar::room(start);
    let mut fault: Option<ScanError> = None;
    match read_quoted(alloc, cursor, single, at, &mut read, &mut fault) {
        Ok(()) => Ok(read.into_lexed(single, start)),
        Err(refused) => Err(take_fault(refused, &mut fault)),
    }
}

/// A quoted scalar, of which its caller knows where it begins.
#[derive(Drop)]
pub struct QuotedScalar<'input> {
    /// Its value.
    pub text: Text<'input>,
    /// The place behind its closing quote.
    pub end: Marker,
    /// The comment behind it on its last line, where comments are asked for.
    pub comment: Option<Remark<'input>>,
}

/// A comment, and its place; not a token, since a place for one of those takes long to drop.
#[derive(Drop)]
pub struct Remark<'input> {
    /// The comment.
    pub comment: Comment<'input>,
    /// Where it stands.
    pub span: Span,
}

impl<'input> Remark<'input> {
    /// Its token.
    pub fn into_token(self) -> Token<'input>
        ensures { result ≡ remark_token self.entry }
    {
        Token::new(self.span, TokenType::Comment(self.comment))
    }
}

/// The comment of a token; another token has none.
fn remark_of<'input>(token: Token<'input>) -> Option<Remark<'input>>
    ensures { (c : CommentRead) → token.entry ≡ comment_token c → option_map remark_token result ≡ Some token.entry }
{
    let (span, token_type) = token.into_parts();
    match token_type {
        TokenType::Comment(comment) => Some(Remark { comment, span }),
        _ => None,
    }
}

impl<'input> QuotedScalar<'input> {
    /// Room for a scalar, which is read into it.
    pub fn room(start: Marker) -> QuotedScalar<'input> {
        QuotedScalar {
            text: Text::borrowed(""),
            end: start,
            comment: None,
        }
    }

    /// The scalar as a token that begins there.
    fn into_lexed(self, single: bool, start: Marker) -> Lexed<'input>
        ensures { result ≡ quoted_from single start self.entry }
    {
        let span = Span::new(start, self.end);
        Lexed {
            token: Token::new(span, TokenType::Scalar(quoted_style(single), self.text)),
            comment: match self.comment {
                None => None,
                Some(remark) => Some(remark.into_token()),
            },
            cut_by_comment: None,
            on_new_line: false,
        }
    }
}

/// How a quoted scalar is written.
pub fn quoted_style(single: bool) -> ScalarStyle
    ensures { result ≡ spec.quoted_style single }
{
    if single {
        return ScalarStyle::SingleQuoted;
    }
    ScalarStyle::DoubleQuoted
}

/// What was read of a quoted scalar.
#[derive(Drop)]
pub(crate) struct QuotedParts {
    /// Its value up to the last character of content.
    pub(crate) value: String,
    /// What was read since then: blanks, or behind a break a line feed for each empty line.
    pub(crate) pending: String,
    /// Whether a break was read since then.
    pub(crate) on_new_line: bool,
    /// Whether a backslash escapes the first of these breaks.
    pub(crate) escaped: bool,
}

impl Model for QuotedParts {
    ghost use Rattle.granit_base.specs.Written.{string_chars};
    ghost use Rattle.granit_quoted.specs.QuotedTaken.{QuotedTaken};

    ghost Value = { QuotedTaken };

    ghost view = { λ p. record {
      value = string_chars p.value;
      pending = string_chars p.pending;
      on_new_line = p.on_new_line;
      escaped = p.escaped;
    } };
}

/// What stands next in a quoted scalar.
#[derive(Clone, Copy)]
enum Ahead {
    Blank,
    Break,
    Content,
    /// The closing quote.
    End,
}

/// Whether a tab in that column is refused on a further line (YAML 1.2.2, 6.1).
fn is_tab_left(at: &Layout, column: usize) -> bool
    ensures { result ≡ spec.is_tab_left (layout_data at.now) column }
{
    column < at.tab_column
}

/// Whether a column is left of its block, where indentation is strict.
#[tactic(auto, unfolding(granit_lexemes::specs::QuotedScalar::is_strictly_left))]
fn is_strictly_left(at: &Layout, escaped: bool, column: usize) -> bool
    ensures { result ≡ spec.is_strictly_left (layout_data at.now) escaped column }
{
    at.strict && (at.in_flow || escaped) && at.is_left(column)
}

/// Whether a column is left of its block outside flow; the closing quote may stand there, unless
/// indentation is strict.
#[tactic(auto, unfolding(granit_lexemes::specs::QuotedScalar::is_loosely_left))]
fn is_loosely_left(at: &Layout, escaped: bool, closing: bool, column: usize) -> bool
    ensures { result ≡ spec.is_loosely_left (layout_data at.now) escaped closing column }
{
    !(at.in_flow || escaped) && (at.strict || !closing) && at.is_left(column)
}

/// What stands next, or why it is refused.
#[tactic(auto, unfolding(crate::specs::QuotedCode::quoted_ahead), using(granit_runs::proofs::RunLemmas::not_nul))]
fn look_ahead<T: Input>(
    cursor: &mut Cursor<T>,
    single: bool,
    at: &Layout,
    start: Marker,
    parts: &QuotedParts,
    fault: &mut Option<ScanError>,
) -> Result<Ahead, Refused>
    ensures here { Wherever T.unread cursor.old cursor.new (λ h Lands. Lands h
        × SeesTo (answered fault.new result) (quoted_ahead single (layout_data at.now) start
        (quoted_state parts.now h))) }
    ensures some { SeesSome (answered fault.new result) (0 < T.left cursor.new.input) }
    ensures kinds { IfErr (answered fault.new result) (λ e. IsQuotedFault e.kind) }
    ensures moves { Moves T.unread T.left T.origin cursor.old cursor.new }
{
    cursor.look(4);
    let character = cursor.input().peek();
    let mark = cursor.mark();
    let on = parts.on_new_line;
    if is_blank(character) {
        if on && character == '\t' && is_tab_left(at, mark.col()) {
            return Err(refuse_at(fault, mark, ErrorKind::TabInIndentation));
        }
        return Ok(Ahead::Blank);
    }
    if is_break(character) {
        return Ok(Ahead::Break);
    }
    if on && is_strictly_left(at, parts.escaped, mark.col()) {
        return Err(refuse_at(fault, mark, ErrorKind::InvalidIndentation));
    }
    let closing = is_closing(cursor, single);
    if on && is_loosely_left(at, parts.escaped, closing, mark.col()) {
        return Err(refuse_at(fault, mark, ErrorKind::InvalidQuotedScalarIndent));
    }
    if on && mark.col() == 0 && cursor.input().next_is_document_indicator() {
        return Err(refuse_at(fault, start, ErrorKind::DocumentIndicatorInQuotedScalar));
    }
    if cursor.input().next_is_z() {
        return Err(refuse_at(fault, start, ErrorKind::UnclosedQuotedScalar));
    }
    if !is_printable(character) {
        return Err(refuse_at(fault, mark, ErrorKind::UnexpectedCharacter { character }));
    }
    Ok(if closing { Ahead::End } else { Ahead::Content })
}

/// A blank on, which is dropped where it begins a line.
#[tactic(auto, unfolding(granit_lexemes::specs::QuotedScalar::over_blank))]
fn take_blank<T: Input>(cursor: &mut Cursor<T>, parts: &mut QuotedParts) -> Result<(), NoMemory>
    ensures here { Wherever T.unread cursor.old cursor.new (λ h Lands. OnOk result (Lands (step h)
        × (quoted_state parts.new (step h) ≡ spec.over_blank (quoted_state parts.old h)))) }
    ensures value { parts.new.value ≡ parts.old.value }
    ensures left { OnOk result (T.left cursor.new.input ≤ T.left cursor.old.input - 1) }
    ensures moves { Moves T.unread T.left T.origin cursor.old cursor.new }
{
    cursor.look(1);
    let c = cursor.input().peek();
    if !parts.on_new_line {
        push_char(&mut parts.pending, c)?;
    }
    cursor.step();
    Ok(())
}

/// A break on: blanks before the first are dropped, and each further one is an empty line.
#[tactic(auto, unfolding(granit_lexemes::specs::QuotedScalar::over_break))]
fn take_break<T: Input>(cursor: &mut Cursor<T>, parts: &mut QuotedParts) -> Result<(), NoMemory>
    ensures here { Wherever T.unread cursor.old cursor.new (λ h Lands. OnOk result (Lands (basics.past_break h)
        × (quoted_state parts.new (basics.past_break h) ≡ spec.over_break (quoted_state parts.old h)))) }
    ensures value { parts.new.value ≡ parts.old.value }
    ensures left { OnOk result (T.left cursor.new.input ≤ T.left cursor.old.input - 1) }
    ensures moves { Moves T.unread T.left T.origin cursor.old cursor.new }
{
    if parts.on_new_line {
        push_char(&mut parts.pending, '\n')?;
        past_break(cursor);
        return Ok(());
    }
    drop_blanks(&mut parts.pending);
    parts.on_new_line = true;
    past_break(cursor);
    Ok(())
}

/// Appends what stands for the blanks and breaks before content or the closing quote (YAML 1.2.2, 6.5).
fn push_between(parts: &mut QuotedParts) -> Result<(), NoMemory>
    ensures value { (h : Here) → OnOk result (parts.new.value
        ≡ parts.old.value ++ spec.between_quoted (quoted_state parts.old h)) }
{
    if !is_at_end(parts.pending.as_str()) {
        return push_text(&mut parts.value, parts.pending.as_str());
    }
    if parts.on_new_line && !parts.escaped {
        return push_char(&mut parts.value, ' ');
    }
    Ok(())
}

/// What content stands for: a character, or nothing where it is a backslash that escapes a break.
#[tactic(auto, unfolding(crate::specs::QuotedCode::content_read))]
fn read_content<T: Input>(
    cursor: &mut Cursor<T>,
    single: bool,
    start: Marker,
    fault: &mut Option<ScanError>,
) -> Result<Option<char>, Refused>
    ensures here { ReadsAs T.unread cursor.old cursor.new (answered fault.new result) (content_read single start) }
    ensures left { OnOk result (T.left cursor.new.input ≤ T.left cursor.old.input - 1) }
    ensures kinds { IfErr (answered fault.new result) (λ e. IsQuotedFault e.kind) }
    ensures moves { Moves T.unread T.left T.origin cursor.old cursor.new }
{
    cursor.look(2);
    let c = cursor.input().peek();
    let next = cursor.input().peek_nth(1);
    cursor.step();
    if single && c == '\'' {
        cursor.step();
        return Ok(Some(c));
    }
    if single || c != '\\' {
        return Ok(Some(c));
    }
    if is_break(next) {
        return Ok(None);
    }
    let escaped = escape(cursor, start, fault)?;
    Ok(Some(escaped))
}

/// Appends content behind what stands before it.
fn push_content(parts: &mut QuotedParts, content: Option<char>) -> Result<(), NoMemory>
    ensures value { (h : Here) → OnOk result (parts.new.value
        ≡ (parts.old.value ++ spec.between_quoted (quoted_state parts.old h)) ++ added content) }
    ensures state { (h : Here) → OnOk result (quoted_state parts.new h ≡ spec.quoted_at (escapes content) h) }
{
    push_between(parts)?;
    drop_blanks(&mut parts.pending);
    parts.on_new_line = false;
    match content {
        Some(c) => {
            parts.escaped = false;
            push_char(&mut parts.value, c)
        }
        None => {
            parts.escaped = true;
            Ok(())
        }
    }
}

/// On over content.
fn take_content<T: Input>(
    cursor: &mut Cursor<T>,
    single: bool,
    start: Marker,
    parts: &mut QuotedParts,
    fault: &mut Option<ScanError>,
) -> Result<(), Refused>
    ensures here { Wherever T.unread cursor.old cursor.new (λ h Lands. TakesContent (answered fault.new result) Lands
        parts.old.value (quoted_state parts.old h) parts.new (content_read single start h)) }
    ensures left { OnOk result (T.left cursor.new.input ≤ T.left cursor.old.input - 1) }
    ensures kinds { IfErr (answered fault.new result) (λ e. IsQuotedKind e.kind) }
    ensures moves { Moves T.unread T.left T.origin cursor.old cursor.new }
{
    let content = read_content(cursor, single, start, fault)?;
    push_content(parts, content)?;
    Ok(())
}

/// On over words of characters that stand for themselves, directly behind content.
fn take_words<T: Input>(
    cursor: &mut Cursor<T>,
    single: bool,
    parts: &mut QuotedParts,
) -> Result<(), NoMemory>
    ensures here { Wherever T.unread cursor.old cursor.new (λ h Lands.
        GoesWords single parts.old parts.new h result Lands) }
    ensures moves { Moves T.unread T.left T.origin cursor.old cursor.new }
{
    if parts.escaped {
        return Ok(());
    }
    cursor.fetch_quoted_words(&mut parts.value, single)?;
    Ok(())
}

/// On over a blank, a break or content; false at the closing quote.
fn take_turn<T: Input>(
    cursor: &mut Cursor<T>,
    single: bool,
    at: &Layout,
    start: Marker,
    parts: &mut QuotedParts,
    fault: &mut Option<ScanError>,
) -> Result<bool, Refused>
    ensures here { Wherever T.unread cursor.old cursor.new (λ h Lands. QuotedTurnsTo single (layout_data at.now) start
        (answered fault.new result) Lands parts.new (quoted_whole single (layout_data at.now) start parts.old h)) }
    ensures left { TurnTakes (answered fault.new result) (T.left cursor.old.input) (T.left cursor.new.input) }
    ensures kinds { IfErr (answered fault.new result) (λ e. IsQuotedKind e.kind) }
    ensures moves { Moves T.unread T.left T.origin cursor.old cursor.new }
{
    match look_ahead(cursor, single, at, start, parts, fault)? {
        Ahead::Blank => {
            take_blank(cursor, parts)?;
            Ok(true)
        }
        Ahead::Break => {
            take_break(cursor, parts)?;
            Ok(true)
        }
        Ahead::Content => {
            take_content(cursor, single, start, parts, fault)?;
            take_words(cursor, single, parts)?;
            Ok(true)
        }
        Ahead::End => Ok(false),
    }
}

/// What is held behind a character that stands for itself.
fn push_kept(parts: &mut QuotedParts, c: char) -> Result<(), NoMemory>
    ensures { OnOk result (parts.new ≡ kept_char parts.old c) }
{
    if is_blank(c) {
        return push_char(&mut parts.pending, c);
    }
    push_text(&mut parts.value, parts.pending.as_str())?;
    drop_blanks(&mut parts.pending);
    push_char(&mut parts.value, c)
}

/// What is held behind characters that stand for themselves.
fn push_all_kept(parts: &mut QuotedParts, text: &str) -> Result<(), NoMemory>
    ensures { OnOk result (parts.new ≡ kept_chars parts.old (chars text.now)) }
{
    for c in text.chars() {
        push_kept(parts, c)?;
    }
    Ok(())
}

/// What is held behind the characters that were passed.
fn parts_behind(alloc: Global, front: &str) -> Result<QuotedParts, NoMemory>
    ensures { IfOk result (λ p. p ≡ kept_chars nothing_quoted (chars front.now)) }
{
    let value = String::with_capacity(alloc, USUAL_LENGTH)?;
    let mut parts = QuotedParts {
        value,
        pending: String::new(alloc),
        on_new_line: false,
        escaped: false,
    };
    push_all_kept(&mut parts, front)?;
    Ok(parts)
}

/// The same, behind the words in front where nothing was passed.
fn parts_begun<T: Input>(
    alloc: Global,
    cursor: &mut Cursor<T>,
    single: bool,
    front: &str,
) -> Result<QuotedParts, NoMemory>
    ensures here { Wherever T.unread cursor.old cursor.new (λ h Lands. IfOk result (λ p. (now : Here) × Lands now
        × ((at : LayoutData) (start : Mark) → quoted_whole single at start p now
        ≡ quoted_whole single at start (kept_chars nothing_quoted (chars front.now)) h))) }
    ensures moves { Moves T.unread T.left T.origin cursor.old cursor.new }
{
    let mut parts = parts_behind(alloc, front)?;
    if !is_at_end(front) {
        return Ok(parts);
    }
    take_words(cursor, single, &mut parts)?;
    Ok(parts)
}

/// All of a quoted scalar between its quotes, behind what was passed of it.
fn quoted_parts<T: Input>(
    cursor: &mut Cursor<T>,
    single: bool,
    at: &Layout,
    start: Marker,
    parts: QuotedParts,
    fault: &mut Option<ScanError>,
) -> Result<QuotedParts, Refused>
    ensures here { Wherever T.unread cursor.old cursor.new (λ h Lands.
        QuotedPartsTo (answered fault.new result) Lands (quoted_whole single (layout_data at.now) start parts h)) }
    ensures kinds { IfErr (answered fault.new result) (λ e. IsQuotedKind e.kind) }
    ensures moves { Moves T.unread T.left T.origin cursor.old cursor.new }
{
    let mut parts = parts;
    'turns: while take_turn(cursor, single, at, start, &mut parts, fault)? {}
    Ok(parts)
}

/// Whether a character may follow the scalar and its blanks, where it began on this line or not.
#[tactic(auto, unfolding(granit_lexemes::specs::QuotedScalar::may_trail))]
fn may_trail(at: &Layout, on_line: bool, c: char) -> bool
    ensures { result ≡ spec.may_trail (layout_data at.now) on_line c }
{
    is_break(c)
        || at.in_flow && (c == ',' || c == ':' || (c == ']' || c == '}'))
        || on_line && c == ':'
}

/// Why what may not follow is refused.
fn trailing_kind(single: bool) -> ErrorKind
    ensures kind { kind_of result ≡ spec.trailing_kind single }
    ensures known { IsQuotedFault (kind_of result) }
{
    if single {
        return ErrorKind::InvalidTrailingSingleQuotedScalar;
    }
    ErrorKind::InvalidTrailingDoubleQuotedScalar
}

/// What stands behind the closing quote and blanks, where no comment begins.
#[tactic(auto, unfolding(granit_lexemes::specs::QuotedScalar::behind_quoted))]
fn behind_quoted<'input, T: Input>(
    cursor: &mut Cursor<T>,
    single: bool,
    at: &Layout,
    start: Marker,
    read: &mut QuotedScalar<'input>,
    fault: &mut Option<ScanError>,
) -> Result<(), Refused>
    ensures here { Wherever T.unread cursor.old cursor.new (λ h Lands.
        GivesTo (λ _. quoted_from single start read.new) (answered fault.new result) Lands (coded (quoted_lexed single)
        (spec.behind_quoted single (layout_data at.now) start read.old.text read.old.end h))) }
    ensures kinds { IfErr (answered fault.new result) (λ e. IsQuotedFault e.kind) }
    ensures moves { Moves T.unread T.left T.origin cursor.old cursor.new }
{
    cursor.look(1);
    let character = cursor.input().peek();
    let mark = cursor.mark();
    if !cursor.input().next_is_z() {
        if !is_printable(character) {
            return Err(refuse_at(fault, mark, ErrorKind::UnexpectedCharacter { character }));
        }
        if !may_trail(at, mark.line() == start.line(), character) {
            return Err(refuse_at(fault, mark, trailing_kind(single)));
        }
    }
    read.comment = None;
    Ok(())
}

/// The comment that begins here, where comments are asked for.
#[tactic(auto, unfolding(granit_lexemes::specs::Comment::comment))]
fn comment_behind<'input, T: BorrowedInput<'input>>(
    alloc: Global,
    cursor: &mut Cursor<T>,
    at: &Layout,
    comment: &mut Option<Remark<'input>>,
    fault: &mut Option<ScanError>,
) -> Result<(), Refused>
    ensures here { Wherever T.unread cursor.old cursor.new (λ h Lands.
        GivesTo (λ _. option_map remark_token comment.new) (answered fault.new result) Lands
        (asked (layout_data at.now) h)) }
    ensures kinds { IfErr (answered fault.new result) (λ e. IsQuotedKind e.kind) }
    ensures lent { LendsWithoutMemory T.unread cursor.old (answered fault.new result) }
    ensures moves { Moves T.unread T.left T.origin cursor.old cursor.new }
{
    if at.comments {
        let token = keep_fault(fault, read_comment(alloc, cursor))?;
        *comment = remark_of(token);
        return Ok(());
    }
    keep_fault(fault, pass_comment(cursor))?;
    *comment = None;
    Ok(())
}

/// What stands behind the closing quote: a comment, which blanks part from it, or what may follow.
#[tactic(auto, unfolding(granit_lexemes::specs::QuotedScalar::quoted_tail))]
fn quoted_tail<'input, T: BorrowedInput<'input>>(
    alloc: Global,
    cursor: &mut Cursor<T>,
    single: bool,
    at: &Layout,
    start: Marker,
    read: &mut QuotedScalar<'input>,
    fault: &mut Option<ScanError>,
) -> Result<(), Refused>
    ensures here { Wherever T.unread cursor.old cursor.new (λ h Lands.
        GivesTo (λ _. quoted_from single start read.new) (answered fault.new result) Lands (coded (quoted_lexed single)
        (spec.quoted_tail single (layout_data at.now) start read.old.text h))) }
    ensures kinds { IfErr (answered fault.new result) (λ e. IsQuotedKind e.kind) }
    ensures lent { LendsWithoutMemory T.unread cursor.old (answered fault.new result) }
    ensures moves { Moves T.unread T.left T.origin cursor.old cursor.new }
{
    cursor.look(1);
    if cursor.input().peek() == '#' {
        return Err(refuse_at(fault, cursor.mark(), ErrorKind::CommentNotSeparated));
    }
    read.end = cursor.mark();
    past_blanks(cursor);
    cursor.look(1);
    if cursor.input().peek() == '#' {
        comment_behind(alloc, cursor, at, &mut read.comment, fault)?;
        return Ok(());
    }
    behind_quoted(cursor, single, at, start, read, fault)
}

/// On over blanks and characters that stand for themselves.
fn skip_kept<T: Input>(cursor: &mut Cursor<T>, single: bool)
    ensures here { Wherever T.unread cursor.old cursor.new (λ h Lands.
        (n : ℕ) × StepsRun (starts (spec.is_kept single)) h n Lands) }
    ensures moves { Moves T.unread T.left T.origin cursor.old cursor.new }
{
    'kept: loop {
        cursor.skip_quoted_words(single);
        let blanks = cursor.skip_while_blank();
        if blanks == 0 {
            return;
        }
    }
}

/// The characters in front that stand for themselves, where the input lends them.
fn pass_kept<'input, T: BorrowedInput<'input>>(
    cursor: &mut Cursor<T>,
    single: bool,
    fault: &mut Option<ScanError>,
) -> Result<Option<&'input str>, Refused>
    ensures here { Wherever T.unread cursor.old cursor.new
        (λ h Lands. PassesKept single h (answered fault.new result) Lands) }
    ensures kinds { IfErr (answered fault.new result) (λ e. e.kind ≡ InputSlicingUnavailable) }
    ensures moves { Moves T.unread T.left T.origin cursor.old cursor.new }
{
    match lending_offset(cursor) {
        Some(start) => {
            skip_kept(cursor, single);
            match lent_since(cursor, start) {
                Ok(text) => Ok(Some(text)),
                Err(error) => Err(refuse(fault, error)),
            }
        }
        None => Ok(None),
    }
}

/// Whether the closing quote is next.
fn at_closing<T: Input>(cursor: &mut Cursor<T>, single: bool) -> bool
    ensures here { Wherever T.unread cursor.old cursor.new (λ h Lands.
        Lands h × (result ≡ spec.is_closing single h.unread.text)) }
    ensures moves { Moves T.unread T.left T.origin cursor.old cursor.new }
{
    cursor.look(4);
    is_closing(cursor, single)
}

/// A scalar whose text is copied, behind what was passed of it.
fn read_copied<'input, T: BorrowedInput<'input>>(
    alloc: Global,
    cursor: &mut Cursor<T>,
    single: bool,
    at: &Layout,
    start: Marker,
    front: &str,
    read: &mut QuotedScalar<'input>,
    fault: &mut Option<ScanError>,
) -> Result<(), Refused>
    ensures here { Wherever T.unread cursor.old cursor.new (λ h Lands.
        GivesTo (λ _. quoted_from single start read.new) (answered fault.new result) Lands (coded (quoted_lexed single)
        (copied_scalar single (layout_data at.now) start (chars front.now) h))) }
    ensures kinds { IfErr (answered fault.new result) (λ e. IsQuotedKind e.kind) }
    ensures moves { Moves T.unread T.left T.origin cursor.old cursor.new }
{
    let behind = parts_begun(alloc, cursor, single, front)?;
    read_parts(alloc, cursor, single, at, start, behind, read, fault)
}

/// The same behind what was taken of it.
pub(crate) fn read_parts<'input, T: BorrowedInput<'input>>(
    alloc: Global,
    cursor: &mut Cursor<T>,
    single: bool,
    at: &Layout,
    start: Marker,
    taken: QuotedParts,
    read: &mut QuotedScalar<'input>,
    fault: &mut Option<ScanError>,
) -> Result<(), Refused>
    ensures here { Wherever T.unread cursor.old cursor.new (λ h Lands.
        GivesTo (λ _. quoted_from single start read.new) (answered fault.new result) Lands (coded (quoted_lexed single)
        (taken_scalar single (layout_data at.now) start taken h))) }
    ensures kinds { IfErr (answered fault.new result) (λ e. IsQuotedKind e.kind) }
    ensures moves { Moves T.unread T.left T.origin cursor.old cursor.new }
{
    let mut parts = quoted_parts(cursor, single, at, start, taken, fault)?;
    cursor.step();
    push_between(&mut parts)?;
    read.text = Text::owned(parts.value);
    quoted_tail(alloc, cursor, single, at, start, read, fault)
}

/// A scalar behind its opening quote and the characters that were passed, which are its text where the closing
/// quote is next.
fn read_passed<'input, T: BorrowedInput<'input>>(
    alloc: Global,
    cursor: &mut Cursor<T>,
    single: bool,
    at: &Layout,
    start: Marker,
    front: &'input str,
    read: &mut QuotedScalar<'input>,
    fault: &mut Option<ScanError>,
) -> Result<(), Refused>
    ensures here { Wherever T.unread cursor.old cursor.new (λ h Lands.
        GivesTo (λ _. quoted_from single start read.new) (answered fault.new result) Lands (coded (quoted_lexed single)
        (passed_scalar single (layout_data at.now) start (chars front.now) h))) }
    ensures kinds { IfErr (answered fault.new result) (λ e. IsQuotedKind e.kind) }
    ensures memory { (h : Here) → Stands T.unread cursor.old h → h.unread.lends ≡ true
        → spec.is_closing single h.unread.text ≡ true
        → IfErr (answered fault.new result) (λ e. ¬ (e.kind ≡ OutOfMemory)) }
    ensures moves { Moves T.unread T.left T.origin cursor.old cursor.new }
{
    if at_closing(cursor, single) {
        cursor.step();
        read.text = Text::borrowed(front);
        return quoted_tail(alloc, cursor, single, at, start, read, fault);
    }
    read_copied(alloc, cursor, single, at, start, front, read, fault)
}

/// The quoted scalar that begins here, and the comment behind it, are read into a place that has room for them.
///
/// # Errors
///
/// Those of `scan_quoted_scalar`.
pub fn read_quoted<'input, T: BorrowedInput<'input>>(
    alloc: Global,
    cursor: &mut Cursor<T>,
    single: bool,
    at: &Layout,
    read: &mut QuotedScalar<'input>,
    fault: &mut Option<ScanError>,
) -> Result<(), Refused>
    ensures here { Wherever T.unread cursor.old cursor.new (λ h Lands.
        GivesTo (λ _. quoted_from single (mark_of h) read.new) (answered fault.new result) Lands
        (coded (quoted_lexed single) (spec.quoted_scalar single (layout_data at.now) h))) }
    ensures kinds { IfErr (answered fault.new result) (λ e. IsQuotedKind e.kind) }
    ensures memory { WithoutMemoryAt T.unread cursor.old (answered fault.new result) (quoted_takes_none single) }
    ensures moves { Moves T.unread T.left T.origin cursor.old cursor.new }
{
    let start = cursor.mark();
    cursor.step();
    match pass_kept(cursor, single, fault) {
        Ok(Some(front)) => read_passed(alloc, cursor, single, at, start, front, read, fault),
        Ok(None) => read_copied(alloc, cursor, single, at, start, "", read, fault),
        Err(refused) => Err(refused),
    }
}
