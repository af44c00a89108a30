//! The words of the kinds of faults.
ghost use Rattle.std.specs.Prelude.{◌≡◌};
ghost use Rattle.std.specs.Str.{encode_utf8_all};

use crate::kind::ErrorKind;
use granit_base::OwnedText;
use std::fmt;

/// A text in UTF-8.
pub(crate) fn utf8(text: &OwnedText) -> &str
    ensures { result.now ≡ encode_utf8_all text.now.characters }
{
    text.as_str()
}

/// A character, printed as `char::escape_default` writes it.
#[derive(Drop)]
struct Escaped(char);

impl fmt::Display for Escaped {
    ghost use Rattle.std.specs.Prelude.{Some};
    ghost use Rattle.std.specs.Char.Escape.{escape_default};

    ghost output = { λ e. Some (encode_utf8_all (escape_default e.0)) };

    fn fmt<W: fmt::Write>(&self, f: &mut fmt::Formatter<W>) -> fmt::Result {
        for c in self.0.escape_default() {
            f.write_char(c)?;
        }
        Ok(())
    }
}

impl fmt::Display for ErrorKind {
    ghost use Rattle.std.specs.Prelude.{Some};
    ghost use Rattle.granit_error.specs.FaultKind.{fault_words};
    ghost use Rattle.granit_error.specs.Kinds.{kind_of};

    ghost output = { λ k. Some (fault_words (kind_of k)) };

    fn fmt<W: fmt::Write>(&self, f: &mut fmt::Formatter<W>) -> fmt::Result {
        match self {
            ErrorKind::NoMemory => f.write_str("out of memory"),
            ErrorKind::UnclosedFlowCollection { opener } => write!(
                f,
                "unclosed bracket '{opener}'"
            ),
            ErrorKind::MismatchedFlowCollectionEnd { opener, closer } => write!(
                f,
                "mismatched bracket '{opener}' closed by '{closer}'"
            ),
            ErrorKind::MisplacedFlowCollectionEnd => f.write_str("misplaced bracket"),
            ErrorKind::RecursionLimitExceeded => f.write_str("recursion limit exceeded"),
            ErrorKind::BlockEntryInFlowCollection => f.write_str(
                "\"-\" is only valid inside a block",
            ),
            ErrorKind::PlainScalarStartsWithDashFlowIndicator => f.write_str(
                "plain scalar cannot start with '-' followed by ,[]{}",
            ),
            ErrorKind::FlowMappingValueAdjacentCollection => f.write_str(
                "':' may not precede any of `[{` in flow mapping",
            ),
            ErrorKind::InvalidColonPlacement => f.write_str("illegal placement of ':' indicator"),
            ErrorKind::InvalidIndentation => f.write_str("invalid indentation"),
            ErrorKind::ExpectedDocumentStart => f.write_str(
                "did not find expected <document start>",
            ),
            ErrorKind::MissingDocumentEndBeforeDirective => f.write_str(
                "missing explicit document end marker before directive",
            ),
            ErrorKind::InvalidDocumentEnd => f.write_str(
                "invalid content after document end marker",
            ),
            ErrorKind::DirectiveDisallowed => f.write_str("YAML directives are disallowed"),
            ErrorKind::MissingDirectiveName => f.write_str(
                "while scanning a directive, could not find expected directive name",
            ),
            ErrorKind::InvalidDirectiveName => f.write_str(
                "while scanning a directive, found unexpected non-alphabetical character",
            ),
            ErrorKind::DirectiveByteLimitExceeded { limit } => write!(
                f,
                "directive exceeds the configured limit of {limit} bytes"
            ),
            ErrorKind::TooManyReservedDirectiveParams { limit } => write!(
                f,
                "reserved directive exceeds the configured limit of {limit} parameters"
            ),
            ErrorKind::InvalidDirectiveTerminator => f.write_str(
                "while scanning a directive, did not find expected comment or line break",
            ),
            ErrorKind::MissingYamlVersion => f.write_str(
                "while scanning a YAML directive, did not find expected version number",
            ),
            ErrorKind::MissingYamlVersionSeparator => f.write_str(
                "while scanning a YAML directive, did not find expected digit or '.' character",
            ),
            ErrorKind::YamlVersionTooLong => f.write_str(
                "while scanning a YAML directive, found extremely long version number",
            ),
            ErrorKind::DuplicateVersionDirective => f.write_str("duplicate version directive"),
            ErrorKind::UnsupportedYamlMajorVersion => f.write_str("unsupported YAML major version"),
            ErrorKind::DuplicateTagDirective => f.write_str(
                "the TAG directive must only be given at most once per handle in the same document",
            ),
            ErrorKind::ExpectedTagBang => f.write_str(
                "while scanning a tag, did not find expected '!'",
            ),
            ErrorKind::ExpectedTagDirectiveBang => f.write_str(
                "while parsing a tag directive, did not find expected '!'",
            ),
            ErrorKind::InvalidGlobalTagCharacter => f.write_str("invalid global tag character"),
            ErrorKind::InvalidTagDirectiveTerminator => f.write_str(
                "while scanning TAG, did not find expected whitespace or line break",
            ),
            ErrorKind::UnexpectedEofBlockSequence => f.write_str(
                "unexpected EOF while parsing a block sequence",
            ),
            ErrorKind::UnexpectedEofBlockMapping => f.write_str(
                "unexpected EOF while parsing a block mapping",
            ),
            ErrorKind::UnexpectedEofImplicitFlowMapping => f.write_str(
                "unexpected EOF while parsing an implicit flow mapping",
            ),
            ErrorKind::ExpectedBlockMappingKey => f.write_str(
                "while parsing a block mapping, did not find expected key",
            ),
            ErrorKind::ExpectedBlockSequenceEntry => f.write_str(
                "while parsing a block collection, did not find expected '-' indicator",
            ),
            ErrorKind::ExpectedFlowMappingSeparator => f.write_str(
                "while parsing a flow mapping, did not find expected ',' or '}'",
            ),
            ErrorKind::ExpectedFlowSequenceSeparator => f.write_str(
                "while parsing a flow sequence, expected ',' or ']'",
            ),
            ErrorKind::UnknownAnchor => f.write_str("while parsing node, found unknown anchor"),
            ErrorKind::UndeclaredTagHandle => f.write_str("the handle wasn't declared"),
            ErrorKind::UnclosedQuotedScalar => f.write_str("unclosed quote"),
            ErrorKind::DocumentIndicatorInQuotedScalar => f.write_str(
                "while scanning a quoted scalar, found unexpected document indicator",
            ),
            ErrorKind::TabInIndentation => f.write_str("tab cannot be used as indentation"),
            ErrorKind::InvalidQuotedScalarIndent => f.write_str(
                "invalid indentation in multiline quoted scalar",
            ),
            ErrorKind::InvalidTrailingSingleQuotedScalar => f.write_str(
                "invalid trailing content after single-quoted scalar",
            ),
            ErrorKind::InvalidTrailingDoubleQuotedScalar => f.write_str(
                "invalid trailing content after double-quoted scalar",
            ),
            ErrorKind::UnknownQuotedScalarEscape => f.write_str(
                "while parsing a quoted scalar, found unknown escape character",
            ),
            ErrorKind::InvalidQuotedScalarHexEscape => f.write_str(
                "while parsing a quoted scalar, did not find expected hexadecimal number",
            ),
            ErrorKind::MissingLowSurrogate => f.write_str(
                "while parsing a quoted scalar, found high surrogate without following low surrogate",
            ),
            ErrorKind::InvalidLowSurrogateHexEscape => f.write_str(
                "while parsing a quoted scalar, did not find expected hexadecimal number for low surrogate",
            ),
            ErrorKind::InvalidLowSurrogate => f.write_str(
                "while parsing a quoted scalar, found invalid low surrogate",
            ),
            ErrorKind::UnpairedLowSurrogate => f.write_str(
                "while parsing a quoted scalar, found unpaired low surrogate",
            ),
            ErrorKind::InvalidUnicodeEscape => f.write_str(
                "while parsing a quoted scalar, found invalid Unicode character escape code",
            ),
            ErrorKind::ZeroBlockScalarIndent => f.write_str(
                "while scanning a block scalar, found an indentation indicator equal to 0",
            ),
            ErrorKind::InvalidBlockScalarHeader => f.write_str(
                "while scanning a block scalar, did not find expected comment or line break",
            ),
            ErrorKind::TabAtBlockScalarStart => f.write_str(
                "a block scalar content cannot start with a tab",
            ),
            ErrorKind::InvalidBlockScalarIndent => f.write_str(
                "wrongly indented line in block scalar",
            ),
            ErrorKind::MissingTagUri => f.write_str(
                "while parsing a tag, did not find expected tag URI",
            ),
            ErrorKind::UnclosedVerbatimTag => f.write_str(
                "while scanning a verbatim tag, did not find the expected '>'",
            ),
            ErrorKind::InvalidTagTerminator => f.write_str(
                "while scanning a tag, did not find expected whitespace or line break",
            ),
            ErrorKind::InvalidTagEscape => f.write_str(
                "while parsing a tag, found an invalid escape sequence",
            ),
            ErrorKind::InvalidTagUtf8LeadingByte => f.write_str(
                "while parsing a tag, found an incorrect leading UTF-8 byte",
            ),
            ErrorKind::InvalidTagUtf8TrailingByte => f.write_str(
                "while parsing a tag, found an incorrect trailing UTF-8 byte",
            ),
            ErrorKind::InvalidTagUtf8 => f.write_str(
                "while parsing a tag, found an invalid UTF-8 codepoint",
            ),
            ErrorKind::MissingAnchorOrAliasName => f.write_str(
                "while scanning an anchor or alias, did not find expected alphabetic or numeric character",
            ),
            ErrorKind::SimpleKeyExpected => f.write_str("simple key expected ':'"),
            ErrorKind::BlockSequenceEntryNotAllowed => f.write_str(
                "block sequence entries are not allowed in this context",
            ),
            ErrorKind::MappingKeyNotAllowed => f.write_str(
                "mapping keys are not allowed in this context",
            ),
            ErrorKind::MappingValueNotAllowed => f.write_str(
                "mapping values are not allowed in this context",
            ),
            ErrorKind::InvalidBlockEntryWhitespace => f.write_str(
                "'-' must be followed by a valid YAML whitespace",
            ),
            ErrorKind::ExpectedWhitespace => f.write_str("expected whitespace"),
            ErrorKind::TabInBlockIndentation => f.write_str(
                "tabs disallowed within this context (block indentation)",
            ),
            ErrorKind::TabNotAllowed => f.write_str("tabs disallowed in this context"),
            ErrorKind::TabInPlainScalar => f.write_str(
                "while scanning a plain scalar, found a tab",
            ),
            ErrorKind::CommentNotSeparated => f.write_str(
                "comments must be separated from other tokens by whitespace",
            ),
            ErrorKind::CommentInterceptedScalar => f.write_str(
                "comment intercepting the multiline text",
            ),
            ErrorKind::TooManyComments => f.write_str(
                "too many buffered comments while looking ahead",
            ),
            ErrorKind::UnexpectedCharacter { character } => {
                let escaped = Escaped(*character);
                write!(f, "unexpected character: `{escaped}'")
            }
            ErrorKind::BomInsideDocument => f.write_str("a BOM must not appear inside a document"),
            ErrorKind::InputIo { error } => write!(f, "input I/O error: {error}"),
            ErrorKind::InputDecoding { message } => {
                let message = utf8(message);
                write!(f, "input decoding error: {message}")
            }
            ErrorKind::InputByteLimitExceeded { limit } => write!(
                f,
                "input exceeds the configured limit of {limit} bytes"
            ),
            ErrorKind::Custom(message) => f.write_str(utf8(message)),
            ErrorKind::InputOffsetsWithoutSlice => f.write_str(
                "internal error: input advertised offsets but did not provide a slice",
            ),
            ErrorKind::InputSlicingUnavailable => f.write_str(
                "internal error: input advertised slicing but did not provide a slice",
            ),
            ErrorKind::MissingIncludeResolver => f.write_str(
                "No include resolver set for parser stack.",
            ),
            ErrorKind::MultipleDocumentsUnsupported => f.write_str(
                "multiple documents not supported here",
            ),
            ErrorKind::AnchorCountOverflow => f.write_str(
                "while parsing anchor, anchor count exceeded supported limit",
            ),
            ErrorKind::UnexpectedEof => f.write_str("unexpected eof"),
            ErrorKind::UnexpectedEofFlowSequence => f.write_str(
                "unexpected EOF while parsing a flow sequence",
            ),
            ErrorKind::UnexpectedEofFlowMapping => f.write_str(
                "unexpected EOF while parsing a flow mapping",
            ),
            ErrorKind::ExpectedNodeContent => f.write_str(
                "while parsing a node, did not find expected node content",
            ),
            ErrorKind::ExpectedStreamStart => f.write_str("did not find expected <stream-start>"),
            ErrorKind::InvalidSimpleKey => f.write_str("simple key is no longer valid"),
            ErrorKind::InvalidFlowScalarIndent => f.write_str(
                "invalid indentation in flow construct",
            ),
            ErrorKind::InvalidMappingValueWhitespace => f.write_str(
                "':' must be followed by a valid YAML whitespace",
            ),
            ErrorKind::UnexpectedEndOfPlainScalar => f.write_str("unexpected end of plain scalar"),
        }
    }
}
