//! The kinds of faults.
ghost use Rattle.std.specs.Prelude.{◌≡◌, IfOk, IsOk, false};
ghost use Rattle.granit_error.specs.FaultKind.{fault_number, holds_text};

use crate::io::InputIoError;
use granit_base::{NoMemory, OwnedText};
use std::alloc::Global;

/// What is wrong with a text, or with reading it. Display prints the words of the kind.
#[derive(Debug, Drop)]
pub enum ErrorKind {
    /// No memory was found. Its place has no meaning.
    NoMemory,
    /// A flow collection meets the end of the text or a document mark; the place is its opener.
    UnclosedFlowCollection {
        /// The bracket that opened it: `[` or `{`.
        opener: char,
    },
    /// A flow collection meets the closer of the other kind; the place is its opener.
    MismatchedFlowCollectionEnd {
        /// The bracket that opened it: `[` or `{`.
        opener: char,
        /// The bracket that came: `]` or `}`.
        closer: char,
    },
    /// A closing bracket with none open.
    MisplacedFlowCollectionEnd,
    /// One more collection begins than the options allow to be open at once.
    RecursionLimitExceeded,
    /// A `-` that would begin an entry stands in a flow collection.
    BlockEntryInFlowCollection,
    /// In a flow collection, a `-` directly before a flow indicator.
    PlainScalarStartsWithDashFlowIndicator,
    /// In a flow collection, a `:` that touches an opener and has no quoted or bracketed key.
    FlowMappingValueAdjacentCollection,
    /// In a flow collection, a `:` whose key stands on an earlier line or too far left.
    InvalidColonPlacement,
    /// Under strict indentation, flow content that does not stand right of the block around it.
    InvalidIndentation,
    /// A token where `---` must stand.
    ExpectedDocumentStart,
    /// A directive after a document that `...` did not end.
    MissingDocumentEndBeforeDirective,
    /// Content behind `...` on its line.
    InvalidDocumentEnd,
    /// A directive where the options refuse every one.
    DirectiveDisallowed,
    /// No name behind the `%` of a directive.
    MissingDirectiveName,
    /// A directive's name goes on with a character that no name has.
    InvalidDirectiveName,
    /// A directive is longer than the options allow.
    DirectiveByteLimitExceeded {
        /// The bytes that a directive may have.
        limit: usize,
    },
    /// A reserved directive has more parameters than the options allow.
    TooManyReservedDirectiveParams {
        /// The parameters that a reserved directive may have.
        limit: usize,
    },
    /// Something else than blanks and a comment behind a directive.
    InvalidDirectiveTerminator,
    /// No digit where a part of the version must stand.
    MissingYamlVersion,
    /// No `.` behind the first part of the version.
    MissingYamlVersionSeparator,
    /// A part of the version has more than nine digits.
    YamlVersionTooLong,
    /// A second `%YAML` for one document.
    DuplicateVersionDirective,
    /// A `%YAML` whose first part is not 1.
    UnsupportedYamlMajorVersion,
    /// A second `%TAG` of one handle for one document.
    DuplicateTagDirective,
    /// A `%TAG` whose handle does not begin with `!`.
    ExpectedTagBang,
    /// A `%TAG` whose longer handle does not end with `!`.
    ExpectedTagDirectiveBang,
    /// A `%TAG` whose prefix begins with no character of a tag.
    InvalidGlobalTagCharacter,
    /// A `%TAG` whose prefix is followed by neither blank nor break.
    InvalidTagDirectiveTerminator,
    /// A token that begins no node, as a document's root or a block sequence's entry.
    UnexpectedEofBlockSequence,
    /// A token that begins no node, as a block mapping's key or value.
    UnexpectedEofBlockMapping,
    /// A token that begins no node, in a flow collection.
    UnexpectedEofImplicitFlowMapping,
    /// A token by which a block mapping neither goes on nor ends.
    ExpectedBlockMappingKey,
    /// A token by which a block sequence neither goes on nor ends.
    ExpectedBlockSequenceEntry,
    /// An entry of a flow mapping is followed by neither `,` nor `}`.
    ExpectedFlowMappingSeparator,
    /// An entry of a flow sequence is followed by neither `,` nor `]`.
    ExpectedFlowSequenceSeparator,
    /// An alias of a name that no earlier anchor of its document has.
    UnknownAnchor,
    /// A tag whose handle no directive in force declares.
    UndeclaredTagHandle,
    /// The text ends inside a quoted scalar; the place is its opening quote.
    UnclosedQuotedScalar,
    /// A document mark in column 0 inside a quoted scalar.
    DocumentIndicatorInQuotedScalar,
    /// A tab in the indentation of a continuation line.
    TabInIndentation,
    /// A quoted scalar goes on too far left.
    InvalidQuotedScalarIndent,
    /// Content that may not follow a single-quoted scalar.
    InvalidTrailingSingleQuotedScalar,
    /// Content that may not follow a double-quoted scalar.
    InvalidTrailingDoubleQuotedScalar,
    /// A backslash before a character that makes no escape.
    UnknownQuotedScalarEscape,
    /// An escape `\x`, `\u` or `\U` lacks a digit.
    InvalidQuotedScalarHexEscape,
    /// A high surrogate that no `\u` follows.
    MissingLowSurrogate,
    /// The `\u` behind a high surrogate lacks a digit.
    InvalidLowSurrogateHexEscape,
    /// The `\u` behind a high surrogate is no low surrogate.
    InvalidLowSurrogate,
    /// A low surrogate with no high one before it.
    UnpairedLowSurrogate,
    /// An escape `\U` of a surrogate or past U+10FFFF.
    InvalidUnicodeEscape,
    /// A block scalar's header with the digit 0.
    ZeroBlockScalarIndent,
    /// Other content on the line of a block scalar's header.
    InvalidBlockScalarHeader,
    /// The line behind a block scalar's header begins with a tab.
    TabAtBlockScalarStart,
    /// A block scalar's first content stands left of the column of its content.
    InvalidBlockScalarIndent,
    /// Nothing behind the handle of a tag or behind `!<`.
    MissingTagUri,
    /// A tag `!<..` that `>` does not end.
    UnclosedVerbatimTag,
    /// A tag that is followed by a character that may not follow one.
    InvalidTagTerminator,
    /// A `%` in a tag without two hexadecimal digits.
    InvalidTagEscape,
    /// An escape in a tag that begins no character.
    InvalidTagUtf8LeadingByte,
    /// An escape in a tag that goes on no character.
    InvalidTagUtf8TrailingByte,
    /// Escapes in a tag that spell no character.
    InvalidTagUtf8,
    /// A `&` or `*` with no name.
    MissingAnchorOrAliasName,
    /// A node that must be a key gets no `:`.
    SimpleKeyExpected,
    /// A `-` where no block sequence may begin or go on.
    BlockSequenceEntryNotAllowed,
    /// A block `?` where no mapping may begin or go on.
    MappingKeyNotAllowed,
    /// A block `:` without a key where no mapping may begin or go on.
    MappingValueNotAllowed,
    /// A second `-` on a line behind a tab.
    InvalidBlockEntryWhitespace,
    /// A block `?` directly before a NUL.
    ExpectedWhitespace,
    /// Content behind a tab that stands in its indentation.
    TabInBlockIndentation,
    /// A tab in the indentation behind a block `?`.
    TabNotAllowed,
    /// A tab in the indentation of a plain scalar's continuation line.
    TabInPlainScalar,
    /// A `#` that touches the token before it.
    CommentNotSeparated,
    /// A comment between the lines of a plain scalar.
    CommentInterceptedScalar,
    /// More comments in a row than the options allow to be kept.
    TooManyComments,
    /// An unprintable character, or one that begins no token.
    UnexpectedCharacter {
        /// The character.
        character: char,
    },
    /// A byte-order mark where a token begins.
    BomInsideDocument,
    /// The input could not be read.
    InputIo {
        /// Why not.
        error: InputIoError,
    },
    /// The input was no text.
    InputDecoding {
        /// What is wrong with it.
        message: OwnedText,
    },
    /// The input was longer than its reader allows.
    InputByteLimitExceeded {
        /// The bytes that the input may have.
        limit: usize,
    },
    /// A fault of the caller's own, in its words.
    Custom(OwnedText),
    /// An input told byte offsets and refused the part between them.
    InputOffsetsWithoutSlice,
    /// An input said that it can be sliced and refused a part.
    InputSlicingUnavailable,
    /// An include without a resolver.
    MissingIncludeResolver,
    /// An included source goes on behind its first document.
    MultipleDocumentsUnsupported,
    /// No number is left for an anchor.
    AnchorCountOverflow,
    /// Kept for its name: no call of this project finds it.
    UnexpectedEof,
    /// Kept for its name: no call of this project finds it.
    UnexpectedEofFlowSequence,
    /// Kept for its name: no call of this project finds it.
    UnexpectedEofFlowMapping,
    /// Kept for its name: no call of this project finds it.
    ExpectedNodeContent,
    /// Kept for its name: no call of this project finds it.
    ExpectedStreamStart,
    /// Kept for its name: no call of this project finds it.
    InvalidSimpleKey,
    /// Kept for its name: no call of this project finds it.
    InvalidFlowScalarIndent,
    /// Kept for its name: no call of this project finds it.
    InvalidMappingValueWhitespace,
    /// Kept for its name: no call of this project finds it.
    UnexpectedEndOfPlainScalar,
}

impl ErrorKind {
    ghost use Rattle.granit_error.specs.Kinds.{kind_of};

    /// The number of the kind, as docs/FAULTS.md lists it.
    pub fn number(&self) -> u8
        ensures { result ≡ fault_number (kind_of self.now) }
    {
        match self {
            ErrorKind::NoMemory => 1,
            ErrorKind::UnclosedFlowCollection { .. } => 2,
            ErrorKind::MismatchedFlowCollectionEnd { .. } => 3,
            ErrorKind::MisplacedFlowCollectionEnd => 4,
            ErrorKind::RecursionLimitExceeded => 5,
            ErrorKind::BlockEntryInFlowCollection => 6,
            ErrorKind::PlainScalarStartsWithDashFlowIndicator => 7,
            ErrorKind::FlowMappingValueAdjacentCollection => 8,
            ErrorKind::InvalidColonPlacement => 9,
            ErrorKind::InvalidIndentation => 10,
            ErrorKind::ExpectedDocumentStart => 11,
            ErrorKind::MissingDocumentEndBeforeDirective => 12,
            ErrorKind::InvalidDocumentEnd => 13,
            ErrorKind::DirectiveDisallowed => 14,
            ErrorKind::MissingDirectiveName => 15,
            ErrorKind::InvalidDirectiveName => 16,
            ErrorKind::DirectiveByteLimitExceeded { .. } => 17,
            ErrorKind::TooManyReservedDirectiveParams { .. } => 18,
            ErrorKind::InvalidDirectiveTerminator => 19,
            ErrorKind::MissingYamlVersion => 20,
            ErrorKind::MissingYamlVersionSeparator => 21,
            ErrorKind::YamlVersionTooLong => 22,
            ErrorKind::DuplicateVersionDirective => 23,
            ErrorKind::UnsupportedYamlMajorVersion => 24,
            ErrorKind::DuplicateTagDirective => 25,
            ErrorKind::ExpectedTagBang => 26,
            ErrorKind::ExpectedTagDirectiveBang => 27,
            ErrorKind::InvalidGlobalTagCharacter => 28,
            ErrorKind::InvalidTagDirectiveTerminator => 29,
            ErrorKind::UnexpectedEofBlockSequence => 30,
            ErrorKind::UnexpectedEofBlockMapping => 31,
            ErrorKind::UnexpectedEofImplicitFlowMapping => 32,
            ErrorKind::ExpectedBlockMappingKey => 33,
            ErrorKind::ExpectedBlockSequenceEntry => 34,
            ErrorKind::ExpectedFlowMappingSeparator => 35,
            ErrorKind::ExpectedFlowSequenceSeparator => 36,
            ErrorKind::UnknownAnchor => 37,
            ErrorKind::UndeclaredTagHandle => 38,
            ErrorKind::UnclosedQuotedScalar => 39,
            ErrorKind::DocumentIndicatorInQuotedScalar => 40,
            ErrorKind::TabInIndentation => 41,
            ErrorKind::InvalidQuotedScalarIndent => 42,
            ErrorKind::InvalidTrailingSingleQuotedScalar => 43,
            ErrorKind::InvalidTrailingDoubleQuotedScalar => 44,
            ErrorKind::UnknownQuotedScalarEscape => 45,
            ErrorKind::InvalidQuotedScalarHexEscape => 46,
            ErrorKind::MissingLowSurrogate => 47,
            ErrorKind::InvalidLowSurrogateHexEscape => 48,
            ErrorKind::InvalidLowSurrogate => 49,
            ErrorKind::UnpairedLowSurrogate => 50,
            ErrorKind::InvalidUnicodeEscape => 51,
            ErrorKind::ZeroBlockScalarIndent => 52,
            ErrorKind::InvalidBlockScalarHeader => 53,
            ErrorKind::TabAtBlockScalarStart => 54,
            ErrorKind::InvalidBlockScalarIndent => 55,
            ErrorKind::MissingTagUri => 56,
            ErrorKind::UnclosedVerbatimTag => 57,
            ErrorKind::InvalidTagTerminator => 58,
            ErrorKind::InvalidTagEscape => 59,
            ErrorKind::InvalidTagUtf8LeadingByte => 60,
            ErrorKind::InvalidTagUtf8TrailingByte => 61,
            ErrorKind::InvalidTagUtf8 => 62,
            ErrorKind::MissingAnchorOrAliasName => 63,
            ErrorKind::SimpleKeyExpected => 64,
            ErrorKind::BlockSequenceEntryNotAllowed => 65,
            ErrorKind::MappingKeyNotAllowed => 66,
            ErrorKind::MappingValueNotAllowed => 67,
            ErrorKind::InvalidBlockEntryWhitespace => 68,
            ErrorKind::ExpectedWhitespace => 69,
            ErrorKind::TabInBlockIndentation => 70,
            ErrorKind::TabNotAllowed => 71,
            ErrorKind::TabInPlainScalar => 72,
            ErrorKind::CommentNotSeparated => 73,
            ErrorKind::CommentInterceptedScalar => 74,
            ErrorKind::TooManyComments => 75,
            ErrorKind::UnexpectedCharacter { .. } => 76,
            ErrorKind::BomInsideDocument => 77,
            ErrorKind::InputIo { .. } => 78,
            ErrorKind::InputDecoding { .. } => 79,
            ErrorKind::InputByteLimitExceeded { .. } => 80,
            ErrorKind::Custom(_) => 81,
            ErrorKind::InputOffsetsWithoutSlice => 82,
            ErrorKind::InputSlicingUnavailable => 83,
            ErrorKind::MissingIncludeResolver => 84,
            ErrorKind::MultipleDocumentsUnsupported => 85,
            ErrorKind::AnchorCountOverflow => 86,
            ErrorKind::UnexpectedEof => 87,
            ErrorKind::UnexpectedEofFlowSequence => 88,
            ErrorKind::UnexpectedEofFlowMapping => 89,
            ErrorKind::ExpectedNodeContent => 90,
            ErrorKind::ExpectedStreamStart => 91,
            ErrorKind::InvalidSimpleKey => 92,
            ErrorKind::InvalidFlowScalarIndent => 93,
            ErrorKind::InvalidMappingValueWhitespace => 94,
            ErrorKind::UnexpectedEndOfPlainScalar => 95,
        }
    }

    /// An equal kind.
    ///
    /// # Errors
    ///
    /// `NoMemory` alone.
    pub fn try_clone(&self, alloc: Global) -> Result<ErrorKind, NoMemory>
        ensures value { IfOk result (λ k. k ≡ self.now) }
        ensures memory { holds_text (kind_of self.now) ≡ false → IsOk result }
    {
        match self {
            ErrorKind::NoMemory => Ok(ErrorKind::NoMemory),
            ErrorKind::UnclosedFlowCollection { opener } => Ok(ErrorKind::UnclosedFlowCollection {
                opener: *opener,
            }),
            ErrorKind::MismatchedFlowCollectionEnd { opener, closer } => Ok(
                ErrorKind::MismatchedFlowCollectionEnd {
                    opener: *opener,
                    closer: *closer,
                },
            ),
            ErrorKind::MisplacedFlowCollectionEnd => Ok(ErrorKind::MisplacedFlowCollectionEnd),
            ErrorKind::RecursionLimitExceeded => Ok(ErrorKind::RecursionLimitExceeded),
            ErrorKind::BlockEntryInFlowCollection => Ok(ErrorKind::BlockEntryInFlowCollection),
            ErrorKind::PlainScalarStartsWithDashFlowIndicator => Ok(
                ErrorKind::PlainScalarStartsWithDashFlowIndicator,
            ),
            ErrorKind::FlowMappingValueAdjacentCollection => Ok(
                ErrorKind::FlowMappingValueAdjacentCollection,
            ),
            ErrorKind::InvalidColonPlacement => Ok(ErrorKind::InvalidColonPlacement),
            ErrorKind::InvalidIndentation => Ok(ErrorKind::InvalidIndentation),
            ErrorKind::ExpectedDocumentStart => Ok(ErrorKind::ExpectedDocumentStart),
            ErrorKind::MissingDocumentEndBeforeDirective => Ok(
                ErrorKind::MissingDocumentEndBeforeDirective,
            ),
            ErrorKind::InvalidDocumentEnd => Ok(ErrorKind::InvalidDocumentEnd),
            ErrorKind::DirectiveDisallowed => Ok(ErrorKind::DirectiveDisallowed),
            ErrorKind::MissingDirectiveName => Ok(ErrorKind::MissingDirectiveName),
            ErrorKind::InvalidDirectiveName => Ok(ErrorKind::InvalidDirectiveName),
            ErrorKind::DirectiveByteLimitExceeded { limit } => Ok(
                ErrorKind::DirectiveByteLimitExceeded { limit: *limit },
            ),
            ErrorKind::TooManyReservedDirectiveParams { limit } => Ok(
                ErrorKind::TooManyReservedDirectiveParams { limit: *limit },
            ),
            ErrorKind::InvalidDirectiveTerminator => Ok(ErrorKind::InvalidDirectiveTerminator),
            ErrorKind::MissingYamlVersion => Ok(ErrorKind::MissingYamlVersion),
            ErrorKind::MissingYamlVersionSeparator => Ok(ErrorKind::MissingYamlVersionSeparator),
            ErrorKind::YamlVersionTooLong => Ok(ErrorKind::YamlVersionTooLong),
            ErrorKind::DuplicateVersionDirective => Ok(ErrorKind::DuplicateVersionDirective),
            ErrorKind::UnsupportedYamlMajorVersion => Ok(ErrorKind::UnsupportedYamlMajorVersion),
            ErrorKind::DuplicateTagDirective => Ok(ErrorKind::DuplicateTagDirective),
            ErrorKind::ExpectedTagBang => Ok(ErrorKind::ExpectedTagBang),
            ErrorKind::ExpectedTagDirectiveBang => Ok(ErrorKind::ExpectedTagDirectiveBang),
            ErrorKind::InvalidGlobalTagCharacter => Ok(ErrorKind::InvalidGlobalTagCharacter),
            ErrorKind::InvalidTagDirectiveTerminator => Ok(
                ErrorKind::InvalidTagDirectiveTerminator,
            ),
            ErrorKind::UnexpectedEofBlockSequence => Ok(ErrorKind::UnexpectedEofBlockSequence),
            ErrorKind::UnexpectedEofBlockMapping => Ok(ErrorKind::UnexpectedEofBlockMapping),
            ErrorKind::UnexpectedEofImplicitFlowMapping => Ok(
                ErrorKind::UnexpectedEofImplicitFlowMapping,
            ),
            ErrorKind::ExpectedBlockMappingKey => Ok(ErrorKind::ExpectedBlockMappingKey),
            ErrorKind::ExpectedBlockSequenceEntry => Ok(ErrorKind::ExpectedBlockSequenceEntry),
            ErrorKind::ExpectedFlowMappingSeparator => Ok(ErrorKind::ExpectedFlowMappingSeparator),
            ErrorKind::ExpectedFlowSequenceSeparator => Ok(
                ErrorKind::ExpectedFlowSequenceSeparator,
            ),
            ErrorKind::UnknownAnchor => Ok(ErrorKind::UnknownAnchor),
            ErrorKind::UndeclaredTagHandle => Ok(ErrorKind::UndeclaredTagHandle),
            ErrorKind::UnclosedQuotedScalar => Ok(ErrorKind::UnclosedQuotedScalar),
            ErrorKind::DocumentIndicatorInQuotedScalar => Ok(
                ErrorKind::DocumentIndicatorInQuotedScalar,
            ),
            ErrorKind::TabInIndentation => Ok(ErrorKind::TabInIndentation),
            ErrorKind::InvalidQuotedScalarIndent => Ok(ErrorKind::InvalidQuotedScalarIndent),
            ErrorKind::InvalidTrailingSingleQuotedScalar => Ok(
                ErrorKind::InvalidTrailingSingleQuotedScalar,
            ),
            ErrorKind::InvalidTrailingDoubleQuotedScalar => Ok(
                ErrorKind::InvalidTrailingDoubleQuotedScalar,
            ),
            ErrorKind::UnknownQuotedScalarEscape => Ok(ErrorKind::UnknownQuotedScalarEscape),
            ErrorKind::InvalidQuotedScalarHexEscape => Ok(ErrorKind::InvalidQuotedScalarHexEscape),
            ErrorKind::MissingLowSurrogate => Ok(ErrorKind::MissingLowSurrogate),
            ErrorKind::InvalidLowSurrogateHexEscape => Ok(ErrorKind::InvalidLowSurrogateHexEscape),
            ErrorKind::InvalidLowSurrogate => Ok(ErrorKind::InvalidLowSurrogate),
            ErrorKind::UnpairedLowSurrogate => Ok(ErrorKind::UnpairedLowSurrogate),
            ErrorKind::InvalidUnicodeEscape => Ok(ErrorKind::InvalidUnicodeEscape),
            ErrorKind::ZeroBlockScalarIndent => Ok(ErrorKind::ZeroBlockScalarIndent),
            ErrorKind::InvalidBlockScalarHeader => Ok(ErrorKind::InvalidBlockScalarHeader),
            ErrorKind::TabAtBlockScalarStart => Ok(ErrorKind::TabAtBlockScalarStart),
            ErrorKind::InvalidBlockScalarIndent => Ok(ErrorKind::InvalidBlockScalarIndent),
            ErrorKind::MissingTagUri => Ok(ErrorKind::MissingTagUri),
            ErrorKind::UnclosedVerbatimTag => Ok(ErrorKind::UnclosedVerbatimTag),
            ErrorKind::InvalidTagTerminator => Ok(ErrorKind::InvalidTagTerminator),
            ErrorKind::InvalidTagEscape => Ok(ErrorKind::InvalidTagEscape),
            ErrorKind::InvalidTagUtf8LeadingByte => Ok(ErrorKind::InvalidTagUtf8LeadingByte),
            ErrorKind::InvalidTagUtf8TrailingByte => Ok(ErrorKind::InvalidTagUtf8TrailingByte),
            ErrorKind::InvalidTagUtf8 => Ok(ErrorKind::InvalidTagUtf8),
            ErrorKind::MissingAnchorOrAliasName => Ok(ErrorKind::MissingAnchorOrAliasName),
            ErrorKind::SimpleKeyExpected => Ok(ErrorKind::SimpleKeyExpected),
            ErrorKind::BlockSequenceEntryNotAllowed => Ok(ErrorKind::BlockSequenceEntryNotAllowed),
            ErrorKind::MappingKeyNotAllowed => Ok(ErrorKind::MappingKeyNotAllowed),
            ErrorKind::MappingValueNotAllowed => Ok(ErrorKind::MappingValueNotAllowed),
            ErrorKind::InvalidBlockEntryWhitespace => Ok(ErrorKind::InvalidBlockEntryWhitespace),
            ErrorKind::ExpectedWhitespace => Ok(ErrorKind::ExpectedWhitespace),
            ErrorKind::TabInBlockIndentation => Ok(ErrorKind::TabInBlockIndentation),
            ErrorKind::TabNotAllowed => Ok(ErrorKind::TabNotAllowed),
            ErrorKind::TabInPlainScalar => Ok(ErrorKind::TabInPlainScalar),
            ErrorKind::CommentNotSeparated => Ok(ErrorKind::CommentNotSeparated),
            ErrorKind::CommentInterceptedScalar => Ok(ErrorKind::CommentInterceptedScalar),
            ErrorKind::TooManyComments => Ok(ErrorKind::TooManyComments),
            ErrorKind::UnexpectedCharacter { character } => Ok(ErrorKind::UnexpectedCharacter {
                character: *character,
            }),
            ErrorKind::BomInsideDocument => Ok(ErrorKind::BomInsideDocument),
            ErrorKind::InputIo { error } => Ok(ErrorKind::InputIo {
                error: error.try_clone(alloc)?,
            }),
            ErrorKind::InputDecoding { message } => Ok(ErrorKind::InputDecoding {
                message: message.try_clone(alloc)?,
            }),
            ErrorKind::InputByteLimitExceeded { limit } => Ok(ErrorKind::InputByteLimitExceeded {
                limit: *limit,
            }),
            ErrorKind::Custom(message) => Ok(ErrorKind::Custom(message.try_clone(alloc)?)),
            ErrorKind::InputOffsetsWithoutSlice => Ok(ErrorKind::InputOffsetsWithoutSlice),
            ErrorKind::InputSlicingUnavailable => Ok(ErrorKind::InputSlicingUnavailable),
            ErrorKind::MissingIncludeResolver => Ok(ErrorKind::MissingIncludeResolver),
            ErrorKind::MultipleDocumentsUnsupported => Ok(ErrorKind::MultipleDocumentsUnsupported),
            ErrorKind::AnchorCountOverflow => Ok(ErrorKind::AnchorCountOverflow),
            ErrorKind::UnexpectedEof => Ok(ErrorKind::UnexpectedEof),
            ErrorKind::UnexpectedEofFlowSequence => Ok(ErrorKind::UnexpectedEofFlowSequence),
            ErrorKind::UnexpectedEofFlowMapping => Ok(ErrorKind::UnexpectedEofFlowMapping),
            ErrorKind::ExpectedNodeContent => Ok(ErrorKind::ExpectedNodeContent),
            ErrorKind::ExpectedStreamStart => Ok(ErrorKind::ExpectedStreamStart),
            ErrorKind::InvalidSimpleKey => Ok(ErrorKind::InvalidSimpleKey),
            ErrorKind::InvalidFlowScalarIndent => Ok(ErrorKind::InvalidFlowScalarIndent),
            ErrorKind::InvalidMappingValueWhitespace => Ok(
                ErrorKind::InvalidMappingValueWhitespace,
            ),
            ErrorKind::UnexpectedEndOfPlainScalar => Ok(ErrorKind::UnexpectedEndOfPlainScalar),
        }
    }
}
