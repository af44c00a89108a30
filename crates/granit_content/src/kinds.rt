//! Tokens of the calls that read lexemes, as parts of items.
ghost use Rattle.std.specs.Prelude.{◌≡◌, []};
ghost use Rattle.granit_lexemes.specs.Lexeme as lexemes;
ghost use Rattle.granit_cursor.specs.Tokens as tokens;
ghost use Rattle.granit_items.specs.ItemViews as view;
ghost use Rattle.granit_content.specs.KindViews as spec;

use granit_base::{Placement, Text, TextList};
use granit_cursor::{Token, TokenType};
use granit_items::{LexemeKind, Note};
use std::alloc::Global;

/// What a token's lexeme is; what a scanner inserts, and a comment, is none.
pub(crate) fn lexeme_kind<'input>(
    alloc: Global,
    token_type: TokenType<'input>,
) -> LexemeKind<'input>
    ensures { view.kind_view result ≡ spec.kind_of_type token_type.entry }
{
    match token_type {
        TokenType::VersionDirective(major, minor) => LexemeKind::Version(major, minor),
        TokenType::TagDirective(handle, prefix) => LexemeKind::TagPrefix(handle, prefix),
        TokenType::ReservedDirective(name, parameters) => LexemeKind::Reserved(name, parameters),
        TokenType::Alias(name) => LexemeKind::Alias(name),
        TokenType::Anchor(name) => LexemeKind::Anchor(name),
        TokenType::Tag(handle, suffix) => LexemeKind::Tag(handle, suffix),
        TokenType::Scalar(style, text) => LexemeKind::Scalar(style, text),
        TokenType::StreamStart
        | TokenType::StreamEnd
        | TokenType::DocumentStart
        | TokenType::DocumentEnd
        | TokenType::BlockSequenceStart
        | TokenType::BlockMappingStart
        | TokenType::BlockEnd
        | TokenType::FlowSequenceStart
        | TokenType::FlowSequenceEnd
        | TokenType::FlowMappingStart
        | TokenType::FlowMappingEnd
        | TokenType::BlockEntry
        | TokenType::FlowEntry
        | TokenType::Key
        | TokenType::Value => nameless(alloc),
        TokenType::Comment(_) => nameless(alloc),
    }
}

/// A directive without a name, which no text spells.
fn nameless<'input>(alloc: Global) -> LexemeKind<'input>
    ensures { view.kind_view result ≡ lexemes.Directive (lexemes.Reserved [] []) }
{
    LexemeKind::Reserved(Text::borrowed(""), TextList::new(alloc))
}

/// What a comment's token says; another token is none.
pub(crate) fn note<'input>(token: Token<'input>) -> Note<'input>
    ensures { view.note_view result ≡ spec.note_of_token token.entry }
{
    let (span, token_type) = token.into_parts();
    match token_type {
        TokenType::Comment(comment) => {
            let is_right = is_right(comment.placement());
            Note {
                text: comment.into_text(),
                start: span.start,
                end: span.end,
                is_right,
            }
        }
        _ => Note {
            text: Text::borrowed(""),
            start: span.start,
            end: span.start,
            is_right: false,
        },
    }
}

fn is_right(placement: Placement) -> bool
    ensures { result ≡ tokens.is_right_placed placement }
{
    matches!(placement, Placement::Right)
}
