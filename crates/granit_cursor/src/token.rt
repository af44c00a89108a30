//! Tokens: what a scanner gives.
ghost use Rattle.std.specs.Prelude.{◌≡◌, IfOk, IsOk};
ghost use Rattle.granit_cursor.specs.Copied.{CopyTakesNone};

use crate::comment::Comment;
use granit_base::{Marker, NoMemory, ScalarStyle, Span, Text, TextList};
use std::alloc::Global;

/// What a token says.
#[derive(Debug, Drop, PartialEq, Eq)]
pub enum TokenType<'input> {
    /// The start of the text.
    StreamStart,
    /// The end of the text.
    StreamEnd,
    /// The directive `%YAML`, by the numbers before and behind the dot (YAML 1.2.2, 6.8.1).
    VersionDirective(u32, u32),
    /// The directive `%TAG`, by its handle and what that stands for (YAML 1.2.2, 6.8.2).
    TagDirective(Text<'input>, Text<'input>),
    /// `---` (YAML 1.2.2, 9.1.2).
    DocumentStart,
    /// `...` (YAML 1.2.2, 9.1.2).
    DocumentEnd,
    /// The start of a block sequence (YAML 1.2.2, 8.2.1).
    BlockSequenceStart,
    /// The start of a block mapping (YAML 1.2.2, 8.2.2).
    BlockMappingStart,
    /// The end of a block sequence or a block mapping.
    BlockEnd,
    /// `[` (YAML 1.2.2, 7.4.1).
    FlowSequenceStart,
    /// `]` (YAML 1.2.2, 7.4.1).
    FlowSequenceEnd,
    /// `{`, or the start of a single pair in a flow sequence (YAML 1.2.2, 7.4).
    FlowMappingStart,
    /// `}`, or the end of a single pair in a flow sequence (YAML 1.2.2, 7.4).
    FlowMappingEnd,
    /// `-` before an entry of a block sequence (YAML 1.2.2, 8.2.1).
    BlockEntry,
    /// `,` between entries in flow (YAML 1.2.2, 7.4).
    FlowEntry,
    /// `?`, or the start of a key that `:` follows.
    Key,
    /// `:` before a value.
    Value,
    /// An alias by its name (YAML 1.2.2, 7.1).
    Alias(Text<'input>),
    /// An anchor by its name (YAML 1.2.2, 6.9.2).
    Anchor(Text<'input>),
    /// A tag by its handle and what follows that (YAML 1.2.2, 6.9.1).
    Tag(Text<'input>, Text<'input>),
    /// A scalar by how it is written, and its value (YAML 1.2.2, 7.3 and 8.1).
    Scalar(ScalarStyle, Text<'input>),
    /// A comment (YAML 1.2.2, 6.6).
    Comment(Comment<'input>),
    /// A directive of another name, with its parameters (YAML 1.2.2, 6.8).
    ReservedDirective(Text<'input>, TextList),
}

impl<'input> TokenType<'input> {
    /// An equal value, whose texts are borrowed exactly where this one's are.
    ///
    /// # Errors
    ///
    /// `NoMemory` alone.
    pub fn try_clone(&self, alloc: Global) -> Result<TokenType<'input>, NoMemory>
        ensures value { IfOk result (λ t. t ≡ self.now) }
        ensures memory { CopyTakesNone self.now → IsOk result }
    {
        Ok(match self {
            TokenType::StreamStart => TokenType::StreamStart,
            TokenType::StreamEnd => TokenType::StreamEnd,
            TokenType::VersionDirective(major, minor) => TokenType::VersionDirective(
                *major, *minor,
            ),
            TokenType::TagDirective(handle, prefix) => {
                TokenType::TagDirective(handle.try_clone(alloc)?, prefix.try_clone(alloc)?)
            }
            TokenType::DocumentStart => TokenType::DocumentStart,
            TokenType::DocumentEnd => TokenType::DocumentEnd,
            TokenType::BlockSequenceStart => TokenType::BlockSequenceStart,
            TokenType::BlockMappingStart => TokenType::BlockMappingStart,
            TokenType::BlockEnd => TokenType::BlockEnd,
            TokenType::FlowSequenceStart => TokenType::FlowSequenceStart,
            TokenType::FlowSequenceEnd => TokenType::FlowSequenceEnd,
            TokenType::FlowMappingStart => TokenType::FlowMappingStart,
            TokenType::FlowMappingEnd => TokenType::FlowMappingEnd,
            TokenType::BlockEntry => TokenType::BlockEntry,
            TokenType::FlowEntry => TokenType::FlowEntry,
            TokenType::Key => TokenType::Key,
            TokenType::Value => TokenType::Value,
            TokenType::Alias(name) => TokenType::Alias(name.try_clone(alloc)?),
            TokenType::Anchor(name) => TokenType::Anchor(name.try_clone(alloc)?),
            TokenType::Tag(handle, suffix) => {
                TokenType::Tag(handle.try_clone(alloc)?, suffix.try_clone(alloc)?)
            }
            TokenType::Scalar(style, text) => TokenType::Scalar(*style, text.try_clone(alloc)?),
            TokenType::Comment(comment) => TokenType::Comment(comment.try_clone(alloc)?),
            TokenType::ReservedDirective(name, parameters) => {
                TokenType::ReservedDirective(name.try_clone(alloc)?, parameters.try_clone(alloc)?)
            }
        })
    }
}

/// What a scanner gives, and where that stands.
#[derive(Debug, Drop, PartialEq, Eq)]
pub struct Token<'input> {
    span: Span,
    token_type: TokenType<'input>,
}

impl<'input> Token<'input> {
    /// The token of these two.
    pub fn new(span: Span, token_type: TokenType<'input>) -> Token<'input>
        ensures { result ≡ record { span = span; token_type = token_type.entry } }
    {
        Token { span, token_type }
    }

    /// Where it stands.
    pub fn span(&self) -> Span
        ensures { result ≡ self.now.span }
    {
        self.span
    }

    /// What it says.
    pub fn token_type(&self) -> &TokenType<'input>
        ensures { result.now ≡ self.now.token_type }
    {
        &self.token_type
    }

    /// Where it stands, and what it says.
    pub fn into_parts(self) -> (Span, TokenType<'input>)
        ensures { result ≡ (self.entry.span, self.entry.token_type) }
    {
        (self.span, self.token_type)
    }

    /// An equal token, whose texts are borrowed exactly where this one's are.
    ///
    /// # Errors
    ///
    /// `NoMemory` alone.
    pub fn try_clone(&self, alloc: Global) -> Result<Token<'input>, NoMemory>
        ensures value { IfOk result (λ t. t ≡ self.now) }
        ensures memory { CopyTakesNone self.now.token_type → IsOk result }
    {
        Ok(Token {
            span: self.span,
            token_type: self.token_type.try_clone(alloc)?,
        })
    }
}

/// A lexeme, and what was read behind it.
#[derive(Debug, Drop, PartialEq, Eq)]
pub struct Lexed<'input> {
    /// The lexeme.
    pub token: Token<'input>,
    /// The comment that was read behind it, where comments are asked for.
    pub comment: Option<Token<'input>>,
    /// The place of the `#` that ended a plain scalar outside flow.
    pub cut_by_comment: Option<Marker>,
    /// Whether a break was consumed, and nothing but blanks behind it.
    pub on_new_line: bool,
}
