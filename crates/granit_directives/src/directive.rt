//! Directives are read (YAML 1.2.2, 6.8).
ghost use Rattle.std.specs.Prelude.{◌≡◌, IfErr, Some, codes};
ghost use Rattle.std.specs.Str.{chars};
ghost use Rattle.granit_base.specs.Written.{string_chars};
ghost use Rattle.granit_cursor.specs.Reading.{Stands, Moves, Wherever, GivesTo, ReadsAs, AnswersAs, RefusedFor, coded};
ghost use Rattle.granit_error.specs.FaultKind.{NoMemory as OutOfMemory};
ghost use Rattle.granit_error.specs.OptionsView.{options_of};
ghost use Rattle.granit_base.specs.Written as written;
ghost use Rattle.granit_lexemes.specs.Directive as spec;
ghost use Rattle.granit_lexemes.specs.DirectiveExtent as extent;
ghost use Rattle.granit_lexemes.specs.Here.{Here, mark_of, next_char};
ghost use Rattle.granit_lexemes.specs.Lexeme.{DirectiveKind};
ghost use Rattle.granit_lexemes.specs.DirectiveCause.{DirectiveCause};
ghost use Rattle.granit_directives.specs.DirectiveCode.{IsDirectiveKind, directive_lexed, kind_type};
ghost use Rattle.granit_properties.specs.UriCode.{budget_of};

use crate::reserved::read_parameters;
use crate::tag_directive::tag_directive;
use crate::tail::directive_tail;
use crate::version::version_directive;
use crate::words::{WordText, word_within};
use granit_base::{Marker, Span, Text, is_at_end, is_blank_or_breakz, is_breakz};
use granit_cursor::{Cursor, Lexed, Token, TokenType};
use granit_error::{ErrorKind, Options, ScanError};
use granit_input::{BorrowedInput, Input};
use std::alloc::Global;

/// The directive that begins here with its `%`, with the comment behind it, where comments are asked for; its
/// texts are owned, the comment's is lent where the input lends, and the cursor then stands in front of its
/// line's end (YAML 1.2.2, 6.8).
///
/// # Errors
///
/// `NoMemory`. At the `%`: `DirectiveDisallowed`; `MissingYamlVersion`, `MissingYamlVersionSeparator` and
/// `YamlVersionTooLong` of `%YAML`; `ExpectedTagBang`, `ExpectedTagDirectiveBang`,
/// `InvalidGlobalTagCharacter`, `InvalidTagDirectiveTerminator` and the kinds of a wrong escape, from
/// `InvalidTagEscape` to `InvalidTagUtf8`, of `%TAG`; `TooManyReservedDirectiveParams` of another one;
/// `InvalidDirectiveTerminator` for what is no line's end. At the name: `MissingDirectiveName` and
/// `InvalidDirectiveName`. At either: `DirectiveByteLimitExceeded`. At the `#`: `CommentNotSeparated`. At
/// the character: `UnexpectedCharacter` for one in the comment that isn't printable.
/// `InputSlicingUnavailable`, where the input refuses to lend what it could.
pub fn scan_directive<'input, T: BorrowedInput<'input>>(
    alloc: Global,
    cursor: &mut Cursor<T>,
    options: &Options,
) -> Result<Lexed<'input>, ScanError>
    requires { (h : Here) → Stands T.unread cursor.old h → next_char h ≡ 0x25 }
    ensures here { ReadsAs T.unread cursor.old cursor.new result
        (λ h. coded (directive_lexed options.now.emit_comments) (spec.directive (options_of options.now) h)) }
    ensures directive { AnswersAs T.unread cursor.old cursor.new result
        (directive_lexed options.now.emit_comments) (extent.AnswersDirective (options_of options.now)) }
    ensures cause { RefusedFor T.unread cursor.old result (DirectiveCause (options_of options.now)) }
    ensures answered { (h : Here) (read : spec.DirectiveRead) (after : Here) → Stands T.unread cursor.old h
        → extent.AnswersDirective (options_of options.now) h read after
        → IfErr result (λ e. e.kind ≡ OutOfMemory) }
    ensures kinds { IfErr result (λ e. IsDirectiveKind e.kind) }
    ensures moves { Moves T.unread T.left T.origin cursor.old cursor.new }
{
    read_directive(alloc, cursor, options)
}

#[tactic(auto, unfolding(granit_lexemes::specs::Directive::directive, granit_lexemes::specs::Directive::directive_up_to))]
fn read_directive<'input, T: BorrowedInput<'input>>(
    alloc: Global,
    cursor: &mut Cursor<T>,
    options: &Options,
) -> Result<Lexed<'input>, ScanError>
    ensures here { ReadsAs T.unread cursor.old cursor.new result
        (λ h. coded (directive_lexed options.now.emit_comments) (spec.directive (options_of options.now) h)) }
    ensures kinds { IfErr result (λ e. IsDirectiveKind e.kind) }
    ensures moves { Moves T.unread T.left T.origin cursor.old cursor.new }
{
    let start = cursor.mark();
    if options.disallow_directives {
        return Err(ScanError::from_kind(start, ErrorKind::DirectiveDisallowed));
    }
    let kind = directive_at(alloc, cursor, options, start)?;
    let span = Span::new(start, cursor.mark());
    let comment = directive_tail(alloc, cursor, is_reserved(&kind), options.emit_comments)?;
    cursor.look(1);
    if !is_breakz(cursor.input().peek()) {
        return Err(ScanError::from_kind(start, ErrorKind::InvalidDirectiveTerminator));
    }
    Ok(Lexed {
        token: Token::new(span, kind),
        comment,
        cut_by_comment: None,
        on_new_line: false,
    })
}

/// Whether blanks behind a directive belong to it.
fn is_reserved(kind: &TokenType<'_>) -> bool
    ensures { (is : DirectiveKind) → kind.now ≡ kind_type is → result ≡ spec.is_reserved is }
{
    matches!(kind, TokenType::ReservedDirective(_, _))
}

/// Whether a name is that one.
fn is_name(name: &str, wanted: &str) -> bool
    ensures { result ≡ written.same_text (chars name.now) (chars wanted.now) }
{
    Text::borrowed(name) == Text::borrowed(wanted)
}

/// Whether a name is `YAML`.
fn is_yaml(name: &str) -> bool
    ensures { result ≡ written.same_text (chars name.now) (codes "YAML") }
{
    is_name(name, "YAML")
}

/// Whether a name is `TAG`.
fn is_tag(name: &str) -> bool
    ensures { result ≡ written.same_text (chars name.now) (codes "TAG") }
{
    is_name(name, "TAG")
}

/// The directive of that name.
#[tactic(auto, unfolding(granit_lexemes::specs::Directive::directive_of))]
fn directive_of<'input, T: Input>(
    alloc: Global,
    cursor: &mut Cursor<T>,
    options: &Options,
    start: Marker,
    name: WordText,
) -> Result<TokenType<'input>, ScanError>
    ensures here { ReadsAs T.unread cursor.old cursor.new result (λ h. coded kind_type
        (spec.directive_of (options_of options.now) (budget_of (Some options.now.max_directive_bytes) name.left)
        start (string_chars name.text) h)) }
    ensures kinds { IfErr result (λ e. IsDirectiveKind e.kind) }
    ensures moves { Moves T.unread T.left T.origin cursor.old cursor.new }
{
    if is_yaml(name.text.as_str()) {
        let version = version_directive(cursor, start)?;
        return Ok(TokenType::VersionDirective(version.major, version.minor));
    }
    if is_tag(name.text.as_str()) {
        let found = tag_directive(alloc, cursor, start, options.max_directive_bytes, name.left)?;
        return Ok(TokenType::TagDirective(Text::owned(found.handle), Text::owned(found.prefix)));
    }
    let parts = read_parameters(alloc, cursor, options, start, name.left)?;
    Ok(TokenType::ReservedDirective(Text::owned(name.text), parts.list))
}

/// The directive that begins here, without what stands behind it on its line.
fn directive_at<'input, T: Input>(
    alloc: Global,
    cursor: &mut Cursor<T>,
    options: &Options,
    start: Marker,
) -> Result<TokenType<'input>, ScanError>
    ensures here { (h : Here) → Stands T.unread cursor.old h → start ≡ mark_of h
        → GivesTo (λ t. t) result (Stands T.unread cursor.new)
        (coded kind_type (spec.directive_at (options_of options.now) h)) }
    ensures kinds { IfErr result (λ e. IsDirectiveKind e.kind) }
    ensures moves { Moves T.unread T.left T.origin cursor.old cursor.new }
{
    cursor.step();
    let name_start = cursor.mark();
    let limit = options.max_directive_bytes;
    let name = word_within(alloc, cursor, name_start, limit, limit)?;
    if is_at_end(name.text.as_str()) {
        return Err(ScanError::from_kind(name_start, ErrorKind::MissingDirectiveName));
    }
    cursor.look(1);
    if !is_blank_or_breakz(cursor.input().peek()) {
        return Err(ScanError::from_kind(name_start, ErrorKind::InvalidDirectiveName));
    }
    directive_of(alloc, cursor, options, start, name)
}
