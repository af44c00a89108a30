//! What may stand behind a directive on its line.
ghost use Rattle.std.specs.Prelude.{◌≡◌, ◌==◌, ◌&&◌, IfErr};
ghost use Rattle.granit_cursor.specs.Reading.{Moves, ReadsAs};
ghost use Rattle.granit_directives.specs.DirectiveCode.{IsDirectiveKind, comment_if_asked, asked_tail};
ghost use Rattle.granit_lexemes.specs.Directive as spec;
ghost use Rattle.granit_lexemes.specs.Lexeme.{DirectiveKind};

use crate::words::count_blanks;
use granit_cursor::{Cursor, Token, pass_comment, read_comment};
use granit_error::{ErrorKind, ScanError};
use granit_input::{BorrowedInput, Input};
use std::alloc::Global;

/// The comment that begins here, where comments are asked for.
#[tactic(auto, unfolding(granit_lexemes::specs::Comment::comment))]
fn comment_here<'input, T: BorrowedInput<'input>>(
    alloc: Global,
    cursor: &mut Cursor<T>,
    comments: bool,
) -> Result<Option<Token<'input>>, ScanError>
    ensures here { ReadsAs T.unread cursor.old cursor.new result (comment_if_asked comments) }
    ensures kinds { IfErr result (λ e. IsDirectiveKind e.kind) }
    ensures moves { Moves T.unread T.left T.origin cursor.old cursor.new }
{
    if comments {
        let comment = read_comment(alloc, cursor)?;
        return Ok(Some(comment));
    }
    pass_comment(cursor)?;
    Ok(None)
}

/// Whether a comment begins directly behind a directive that blanks belong to.
fn begins_at_once(reserved: bool, c: char) -> bool
    ensures { result ≡ (reserved && c == 0x23) }
{
    reserved && c == '#'
}

/// The comment behind a directive, which blanks must part from it unless they are part of it.
#[tactic(auto, unfolding(granit_lexemes::specs::Directive::directive_tail, granit_lexemes::specs::Tail::tail_behind))]
pub(crate) fn directive_tail<'input, T: BorrowedInput<'input>>(
    alloc: Global,
    cursor: &mut Cursor<T>,
    reserved: bool,
    comments: bool,
) -> Result<Option<Token<'input>>, ScanError>
    ensures here { (kind : DirectiveKind) → reserved ≡ spec.is_reserved kind
        → ReadsAs T.unread cursor.old cursor.new result (asked_tail comments kind) }
    ensures kinds { IfErr result (λ e. IsDirectiveKind e.kind) }
    ensures moves { Moves T.unread T.left T.origin cursor.old cursor.new }
{
    cursor.look(1);
    if begins_at_once(reserved, cursor.input().peek()) {
        return comment_here(alloc, cursor, comments);
    }
    let blanks = count_blanks(cursor);
    cursor.look(1);
    if cursor.input().peek() != '#' {
        return Ok(None);
    }
    if blanks == 0 {
        return Err(ScanError::from_kind(cursor.mark(), ErrorKind::CommentNotSeparated));
    }
    comment_here(alloc, cursor, comments)
}
