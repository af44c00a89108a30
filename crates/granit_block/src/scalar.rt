//! A block scalar from its indicator on.
ghost use Rattle.std.specs.Prelude.{◌≡◌, ◌⊎◌, IfOk, IfErr, []};
ghost use Rattle.granit_base.specs.Written.{string_chars};
ghost use Rattle.granit_error.specs.FaultKind.{NoMemory};
ghost use Rattle.granit_lexemes.specs.BlockExtent as extent;
ghost use Rattle.granit_lexemes.specs.BlockScalar as spec;
ghost use Rattle.granit_lexemes.specs.BlockScalar.{block_indicator};
ghost use Rattle.granit_lexemes.specs.Here.{Here, next_char};
ghost use Rattle.granit_block.specs.BlockCode.{block_lexed, block_lexed_at, block_chained, block_with};
ghost use Rattle.granit_block.specs.BlockCode.{content_data, IsBlockKind};
ghost use Rattle.granit_cursor.specs.Reading.{Stands, Moves, Wherever, ReadsAs, RefusedFor};
ghost use Rattle.granit_cursor.specs.Tokens.{layout_data};

use crate::content::{Content, read_body};
use crate::header::{read_header, read_tail};
use granit_base::{Marker, ScalarStyle, Span, Text};
use granit_cursor::{Cursor, Layout, Lexed, Token, TokenType};
use granit_error::ScanError;
use granit_input::BorrowedInput;
use std::alloc::Global;

/// The block scalar that begins here with its `|`, where it is literal, or its `>` (YAML 1.2.2, 8.1), with the
/// comment behind its header, where comments are asked for, lent where the input lends; the cursor then stands
/// behind its last line and the spaces of the next one left of its content. Its value is owned, and its span
/// begins at its first content; where it has none, with the line that ends it, or with the indicator where the
/// text ends first. The span has the content's column as indent, where the value is more than white space.
///
/// # Errors
///
/// `NoMemory`. At the scalar's start: `ZeroBlockScalarIndent` for a digit 0 in the header,
/// `InvalidBlockScalarHeader` for other content on its line, `TabAtBlockScalarStart` for a tab that begins the
/// next line. At the character: `CommentNotSeparated` for a `#` directly behind the header;
/// `InvalidBlockScalarIndent` for the first content, right of its block and left of the scalar's column;
/// `UnexpectedCharacter` for one that isn't printable, but at the first content for one inside the value.
/// `InputSlicingUnavailable`, where the input refuses to lend what it could.
pub fn scan_block_scalar<'input, T: BorrowedInput<'input>>(
    alloc: Global,
    cursor: &mut Cursor<T>,
    literal: bool,
    at: &Layout,
) -> Result<Lexed<'input>, ScanError>
    requires { (h : Here) → Stands T.unread cursor.old h → next_char h ≡ block_indicator literal }
    ensures here { ReadsAs T.unread cursor.old cursor.new result (block_lexed_at (layout_data at.now) literal) }
    ensures scalar { Wherever T.unread cursor.old cursor.new (λ h Lands.
        IfOk result (λ l. (given : spec.BlockGiven) × (after : Here)
        × extent.AnswersBlock literal at.now.block_column h given after
        × (l ≡ block_lexed (layout_data at.now) literal given after) × Lands after)) }
    ensures cause { RefusedFor T.unread cursor.old result (extent.RefusesBlock literal at.now.block_column) }
    ensures answered { (h : Here) (given : spec.BlockGiven) (after : Here) → Stands T.unread cursor.old h
        → extent.AnswersBlock literal at.now.block_column h given after → IfErr result (λ e. e.kind ≡ NoMemory) }
    ensures kinds { IfErr result (λ e. IsBlockKind e.kind) }
    ensures moves { Moves T.unread T.left T.origin cursor.old cursor.new }
{
    read_block(alloc, cursor, literal, at)
}

fn read_block<'input, T: BorrowedInput<'input>>(
    alloc: Global,
    cursor: &mut Cursor<T>,
    literal: bool,
    at: &Layout,
) -> Result<Lexed<'input>, ScanError>
    ensures here { ReadsAs T.unread cursor.old cursor.new result (block_chained (layout_data at.now) literal) }
    ensures kinds { IfErr result (λ e. IsBlockKind e.kind) }
    ensures moves { Moves T.unread T.left T.origin cursor.old cursor.new }
{
    let start = cursor.mark();
    let header = read_header(cursor)?;
    let comment = read_tail(alloc, cursor, at)?;
    let content = read_body(alloc, cursor, literal, header, at, start)?;
    let end = cursor.mark();
    Ok(block_token(literal, content, end, comment, cursor.begins_line()))
}

/// The scalar of that content up to a place, with the comment behind its header.
fn block_token<'input>(
    literal: bool,
    content: Content,
    end: Marker,
    comment: Option<Token<'input>>,
    on_new_line: bool,
) -> Lexed<'input>
    ensures { result ≡ block_with literal (content_data content) end comment.entry on_new_line }
{
    let style = if literal {
        ScalarStyle::Literal
    } else {
        ScalarStyle::Folded
    };
    let span = Span::new(content.shown, end).with_indent(content.indent);
    Lexed {
        token: Token::new(span, TokenType::Scalar(style, Text::owned(content.value))),
        comment,
        cut_by_comment: None,
        on_new_line,
    }
}
