//! The tokens of lexemes and comments.
ghost use Rattle.std.specs.Prelude.{◌≡◌};
ghost use Rattle.std.specs.Option.{option_map};
ghost use Rattle.granit_cursor.specs.Tokens.{is_right_placed, token_placement};
ghost use Rattle.granit_items.specs.ItemViews.{kind_view, lexeme_view, note_view};
ghost use Rattle.granit_scan.specs.Marks as marks;
ghost use Rattle.granit_scan.specs.TokenViews.{comment_shown, kind_shown, plain_token, shown_span, token_kind};

use granit_base::{Placement, Span};
use granit_cursor::{Comment, Token, TokenType};
use granit_items::{Lexeme, LexemeKind, Note};
use granit_lexemes::Bracket;

/// What the token of a lexeme says.
pub(crate) fn token_type_of<'input>(kind: LexemeKind<'input>) -> TokenType<'input>
    ensures { token_kind result ≡ kind_shown (kind_view kind.entry) }
{
    match kind {
        LexemeKind::Version(major, minor) => TokenType::VersionDirective(major, minor),
        LexemeKind::TagPrefix(handle, prefix) => TokenType::TagDirective(handle, prefix),
        LexemeKind::Reserved(name, parameters) => TokenType::ReservedDirective(name, parameters),
        LexemeKind::DocumentStart => TokenType::DocumentStart,
        LexemeKind::DocumentEnd => TokenType::DocumentEnd,
        LexemeKind::StreamEnd => TokenType::StreamEnd,
        LexemeKind::Open(Bracket::Square) => TokenType::FlowSequenceStart,
        LexemeKind::Open(Bracket::Curly) => TokenType::FlowMappingStart,
        LexemeKind::Close(Bracket::Square) => TokenType::FlowSequenceEnd,
        LexemeKind::Close(Bracket::Curly) => TokenType::FlowMappingEnd,
        LexemeKind::Comma => TokenType::FlowEntry,
        LexemeKind::Dash => TokenType::BlockEntry,
        LexemeKind::Question => TokenType::Key,
        LexemeKind::Colon => TokenType::Value,
        LexemeKind::Alias(name) => TokenType::Alias(name),
        LexemeKind::Anchor(name) => TokenType::Anchor(name),
        LexemeKind::Tag(handle, suffix) => TokenType::Tag(handle, suffix),
        LexemeKind::Scalar(style, text) => TokenType::Scalar(style, text),
    }
}

/// The span of a lexeme's token: of a `-` it is empty behind its tail, of a `:` where that stands.
pub(crate) fn own_span(lexeme: &Lexeme<'_>) -> Span
    ensures { result ≡ shown_span (kind_view lexeme.now.kind) (lexeme_view lexeme.now) }
{
    match lexeme.kind {
        LexemeKind::Dash => Span::empty(lexeme.end),
        LexemeKind::Colon => Span::empty(lexeme.start),
        _ => Span::new(lexeme.shown_start, lexeme.shown_end).with_indent(lexeme.indent),
    }
}

/// The token of a comment.
pub(crate) fn note_token<'input>(note: Note<'input>) -> Token<'input>
    ensures { plain_token result ≡ comment_shown (note_view note.entry) }
{
    let Note {
        text,
        start,
        end,
        is_right,
    } = note;
    let comment = Comment::new(text).with_placement(placement(is_right));
    Token::new(Span::new(start, end), TokenType::Comment(comment))
}

/// Where a comment stands, as long as what is behind it isn't known.
fn placement(is_right: bool) -> Placement
    ensures { result ≡ token_placement is_right }
{
    if is_right {
        Placement::Right
    } else {
        Placement::Free
    }
}

/// What a token marks: the start or the end of a document, or the end of the stream.
pub(crate) fn mark_of<'input>(token: &Token<'_>) -> Option<LexemeKind<'input>>
    ensures { option_map kind_view result ≡ marks.mark_kind (token_kind token.now.token_type) }
{
    match token.token_type() {
        TokenType::DocumentStart => Some(LexemeKind::DocumentStart),
        TokenType::DocumentEnd => Some(LexemeKind::DocumentEnd),
        TokenType::StreamEnd => Some(LexemeKind::StreamEnd),
        _ => None,
    }
}

/// The comment of a token.
pub(crate) fn note_of<'input>(token: Token<'input>) -> Option<Note<'input>>
    ensures { option_map note_view result ≡ marks.token_comment (plain_token token.entry) }
{
    let (span, what) = token.into_parts();
    match what {
        TokenType::Comment(comment) => {
            let is_right = is_right(comment.placement());
            Some(Note {
                text: comment.into_text(),
                start: span.start,
                end: span.end,
                is_right,
            })
        }
        _ => None,
    }
}

/// Whether a comment stands behind something on its line.
fn is_right(placement: Placement) -> bool
    ensures { result ≡ is_right_placed placement }
{
    matches!(placement, Placement::Right)
}
