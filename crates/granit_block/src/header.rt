//! The header of a block scalar, and what stands behind it on its line (YAML 1.2.2, 8.1.1).
ghost use Rattle.std.specs.Prelude.{◌≡◌, IfErr};
ghost use Rattle.granit_lexemes.specs.BlockHeader as spec;
ghost use Rattle.granit_block.specs.BlockCode.{chomping_data, header_data, note_at, noted_tail, IsBlockKind};
ghost use Rattle.granit_cursor.specs.Reading.{Moves, Wherever, GivesTo, ReadsAs};
ghost use Rattle.granit_cursor.specs.Tokens.{layout_data};

use granit_base::{Marker, is_digit};
use granit_cursor::{Cursor, Layout, Token, pass_comment, read_comment};
use granit_error::{ErrorKind, ScanError};
use granit_input::{BorrowedInput, Input};
use std::alloc::Global;

/// How the last break and the empty lines behind the content are kept (YAML 1.2.2, 8.1.1.2).
#[derive(Clone, Copy)]
pub(crate) enum Chomping {
    Strip,
    Clip,
    Keep,
}

/// The indicators behind `|` or `>`.
#[derive(Clone, Copy)]
pub(crate) struct Header {
    /// What a sign tells.
    chomping: Option<Chomping>,
    /// From 1 to 9.
    pub(crate) digit: Option<u32>,
}

impl Header {
    /// What its sign tells, or its lack.
    pub(crate) fn chomping(&self) -> Chomping
        ensures { chomping_data result ≡ spec.chomping_of (header_data self.now).chomping }
    {
        match self.chomping {
            None => Chomping::Clip,
            Some(chomping) => chomping,
        }
    }
}

/// One more indicator, of a sort that hasn't come yet.
#[tactic(auto, unfolding(granit_lexemes::specs::BlockHeader::header_sign, granit_base::specs::Classes::is_digit))]
fn read_indicator<T: Input>(
    cursor: &mut Cursor<T>,
    start: Marker,
    header: Header,
) -> Result<Header, ScanError>
    ensures here { Wherever T.unread cursor.old cursor.new (λ h Lands.
        GivesTo header_data result Lands (spec.header_sign start (header_data header) h)) }
    ensures kinds { IfErr result (λ e. IsBlockKind e.kind) }
    ensures moves { Moves T.unread T.left T.origin cursor.old cursor.new }
{
    cursor.look(1);
    let c = cursor.input().peek();
    if c == '+' && header.chomping.is_none() {
        cursor.step();
        return Ok(Header {
            chomping: Some(Chomping::Keep),
            ..header
        });
    }
    if c == '-' && header.chomping.is_none() {
        cursor.step();
        return Ok(Header {
            chomping: Some(Chomping::Strip),
            ..header
        });
    }
    if is_digit(c) && header.digit.is_none() {
        if c == '0' {
            return Err(ScanError::from_kind(start, ErrorKind::ZeroBlockScalarIndent));
        }
        cursor.step();
        return Ok(Header {
            digit: Some(c as u32 - 0x30),
            ..header
        });
    }
    Ok(header)
}

/// The header of the block scalar that begins here: a sign and a digit, in either order.
#[tactic(auto, unfolding(granit_lexemes::specs::BlockHeader::block_header))]
pub(crate) fn read_header<T: Input>(cursor: &mut Cursor<T>) -> Result<Header, ScanError>
    ensures here { Wherever T.unread cursor.old cursor.new (λ h Lands.
        GivesTo header_data result Lands (spec.block_header h)) }
    ensures kinds { IfErr result (λ e. IsBlockKind e.kind) }
    ensures moves { Moves T.unread T.left T.origin cursor.old cursor.new }
{
    let start = cursor.mark();
    cursor.step();
    let none = Header {
        chomping: None,
        digit: None,
    };
    let once = read_indicator(cursor, start, none)?;
    read_indicator(cursor, start, once)
}

/// Blanks, and a comment that they part from the header (YAML 1.2.2, 6.6), where comments are asked for.
pub(crate) fn read_tail<'input, T: BorrowedInput<'input>>(
    alloc: Global,
    cursor: &mut Cursor<T>,
    at: &Layout,
) -> Result<Option<Token<'input>>, ScanError>
    ensures here { ReadsAs T.unread cursor.old cursor.new result (noted_tail (layout_data at.now)) }
    ensures kinds { IfErr result (λ e. IsBlockKind e.kind) }
    ensures moves { Moves T.unread T.left T.origin cursor.old cursor.new }
{
    let blanks = cursor.skip_while_blank();
    cursor.look(1);
    if cursor.input().peek() != '#' {
        return Ok(None);
    }
    if blanks == 0 {
        return Err(ScanError::from_kind(cursor.mark(), ErrorKind::CommentNotSeparated));
    }
    read_note(alloc, cursor, at)
}

/// The comment that begins here, where comments are asked for.
#[tactic(auto, unfolding(granit_lexemes::specs::Comment::comment))]
fn read_note<'input, T: BorrowedInput<'input>>(
    alloc: Global,
    cursor: &mut Cursor<T>,
    at: &Layout,
) -> Result<Option<Token<'input>>, ScanError>
    ensures here { ReadsAs T.unread cursor.old cursor.new result (note_at (layout_data at.now)) }
    ensures kinds { IfErr result (λ e. IsBlockKind e.kind) }
    ensures moves { Moves T.unread T.left T.origin cursor.old cursor.new }
{
    if at.comments {
        let comment = read_comment(alloc, cursor)?;
        return Ok(Some(comment));
    }
    pass_comment(cursor)?;
    Ok(None)
}
