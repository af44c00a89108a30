//! Comments are read.
ghost use Rattle.std.specs.Prelude.{◌≡◌, ◌⊎◌, ℕ, IfOk, IfErr, []};
ghost use Rattle.granit_error.specs.FaultKind.{InputSlicingUnavailable, NoMemory, UnexpectedCharacter};
ghost use Rattle.granit_runs.specs.Runs.{starts, is_line_char};
ghost use Rattle.granit_lexemes.specs.Comment as spec;
ghost use Rattle.granit_lexemes.specs.Here.{Here, next_char};
ghost use Rattle.granit_cursor.specs.Reading.{Stands, Moves, Wherever, ReadsAs, AnswersAs, RefusedFor, coded};
ghost use Rattle.granit_cursor.specs.Reading.{InsideLine, LendsFrom, LendsWithoutMemory, MarksPlace, RefusesSlice};
ghost use Rattle.granit_cursor.specs.Reading.{TakesWholeRun, lends_from};
ghost use Rattle.granit_cursor.specs.Tokens.{IsCommentKind};
ghost use Rattle.granit_cursor.specs.Tokens.{token_placement, comment_token};

use crate::comment::Comment;
use crate::cursor::Cursor;
use crate::lending::{lending_offset, lent_up_to};
use crate::token::{Token, TokenType};
use granit_base::{Marker, Placement, Span, Text, is_printable};
use granit_error::{ErrorKind, ScanError};
use granit_input::{BorrowedInput, Input};
use std::alloc::Global;

/// The comment that begins here with its `#`, up to the break, the end or what isn't printable
/// (YAML 1.2.2, 6.6); the cursor then stands there. Its text is what follows the `#`, lent where the input
/// lends; its placement is `Right` where something else than blanks and prefix marks stands before it on its line,
/// else `Free`.
///
/// # Errors
///
/// `UnexpectedCharacter` at the first character on the line that isn't printable. A NUL in the text is one.
/// `NoMemory`, only where the text isn't lent. `InputSlicingUnavailable` behind the text, where the input refuses to
/// lend what it could.
pub fn scan_comment<'input, T: BorrowedInput<'input>>(
    alloc: Global,
    cursor: &mut Cursor<T>,
) -> Result<Token<'input>, ScanError>
    requires { (h : Here) → Stands T.unread cursor.old h → next_char h ≡ 0x23 }
    ensures here { ReadsAs T.unread cursor.old cursor.new result (λ h. coded comment_token (spec.comment h)) }
    ensures comment { AnswersAs T.unread cursor.old cursor.new result comment_token spec.StandsComment }
    ensures cause { RefusedFor T.unread cursor.old result spec.Spoils }
    ensures lent { LendsWithoutMemory T.unread cursor.old result }
    ensures kinds { IfErr result (λ e. IsCommentKind e.kind) }
    ensures refused { IfErr result (λ e. e.kind ≡ InputSlicingUnavailable
        → RefusesSlice T.unread T.origin cursor.new e) }
    ensures moves { Moves T.unread T.left T.origin cursor.old cursor.new }
{
    read_comment(alloc, cursor)
}

/// The same without the token.
///
/// # Errors
///
/// `UnexpectedCharacter`, as above.
pub fn skip_comment<'input, T: BorrowedInput<'input>>(
    cursor: &mut Cursor<T>,
) -> Result<(), ScanError>
    requires { (h : Here) → Stands T.unread cursor.old h → next_char h ≡ 0x23 }
    ensures here { ReadsAs T.unread cursor.old cursor.new result spec.skipped_comment }
    ensures comment { Wherever T.unread cursor.old cursor.new (λ h Lands.
        IfOk result (λ u. (c : spec.CommentRead) × (after : Here) × spec.StandsComment h c after × Lands after)) }
    ensures cause { (h : Here) → Stands T.unread cursor.old h
        → IfErr result (λ e. spec.Spoils h e.kind e.mark × (e.sources ≡ [])) }
    ensures kinds { IfErr result (λ e. (c : ℕ) × (e.kind ≡ UnexpectedCharacter c)) }
    ensures moves { Moves T.unread T.left T.origin cursor.old cursor.new }
{
    pass_comment(cursor)
}

/// What `scan_comment` reads, over any input.
///
/// # Errors
///
/// `NoMemory`, and `UnexpectedCharacter`, as there.
#[tactic(auto, unfolding(granit_lexemes::specs::Comment::comment, granit_lexemes::specs::Comment::skipped_comment))]
pub fn read_comment<'input, T: BorrowedInput<'input>>(
    alloc: Global,
    cursor: &mut Cursor<T>,
) -> Result<Token<'input>, ScanError>
    ensures here { ReadsAs T.unread cursor.old cursor.new result (λ h. coded comment_token (spec.comment h)) }
    ensures lent { LendsWithoutMemory T.unread cursor.old result }
    ensures kinds { IfErr result (λ e. IsCommentKind e.kind) }
    ensures refused { IfErr result (λ e. e.kind ≡ InputSlicingUnavailable
        → RefusesSlice T.unread T.origin cursor.new e) }
    ensures moves { Moves T.unread T.left T.origin cursor.old cursor.new }
{
    let start = cursor.mark();
    let placement = placement(!cursor.begins_line());
    cursor.step();
    let lends_from = lending_offset(cursor);
    let (text, end) = comment_text(alloc, cursor, lends_from)?;
    behind_comment(cursor)?;
    let comment = Comment::new(text).with_placement(placement);
    Ok(Token::new(Span::new(start, end), TokenType::Comment(comment)))
}

/// The characters of a comment's text and the place behind them, lent from that byte of the source on, where the input
/// lends.
fn comment_text<'input, T: BorrowedInput<'input>>(
    alloc: Global,
    cursor: &mut Cursor<T>,
    start: Option<usize>,
) -> Result<(Text<'input>, Marker), ScanError>
    ensures here { Wherever T.unread cursor.old cursor.new (λ h Lands. start ≡ lends_from h
        → TakesWholeRun (starts is_line_char) h result (InsideLine Lands)) }
    ensures lends { LendsFrom (T.origin cursor.new.input).lent start result }
    ensures end { IfOk result (λ r. MarksPlace T.unread T.origin cursor.new r.1) }
    ensures refused { IfErr result (λ e. e.kind ≡ InputSlicingUnavailable
        → RefusesSlice T.unread T.origin cursor.new e) }
    ensures moves { Moves T.unread T.left T.origin cursor.old cursor.new }
{
    match start {
        Some(start) => {
            cursor.skip_while_non_breakz();
            let end = cursor.mark();
            match lent_up_to(cursor, start, end) {
                Ok(text) => Ok((Text::borrowed(text), end)),
                Err(e) => Err(e),
            }
        }
        None => {
            let mut text = String::new(alloc);
            cursor.fetch_while_non_breakz(&mut text)?;
            Ok((Text::owned(text), cursor.mark()))
        }
    }
}

/// Where a comment stands, as far as its line tells.
fn placement(is_right: bool) -> Placement
    ensures { result ≡ token_placement is_right }
{
    if is_right {
        Placement::Right
    } else {
        Placement::Free
    }
}

/// What `skip_comment` reads, over any input.
///
/// # Errors
///
/// `UnexpectedCharacter`, as there.
#[tactic(auto, unfolding(granit_lexemes::specs::Comment::skipped_comment))]
pub fn pass_comment<T: Input>(cursor: &mut Cursor<T>) -> Result<(), ScanError>
    ensures here { ReadsAs T.unread cursor.old cursor.new result spec.skipped_comment }
    ensures kinds { IfErr result (λ e. (c : ℕ) × (e.kind ≡ UnexpectedCharacter c)) }
    ensures moves { Moves T.unread T.left T.origin cursor.old cursor.new }
{
    cursor.step();
    cursor.skip_while_non_breakz();
    behind_comment(cursor)
}

/// Behind the characters of a comment, where no unprintable character may stand.
#[tactic(auto, unfolding(granit_lexemes::specs::Comment::behind_comment))]
fn behind_comment<T: Input>(cursor: &mut Cursor<T>) -> Result<(), ScanError>
    ensures here { ReadsAs T.unread cursor.old cursor.new result spec.behind_comment }
    ensures kinds { IfErr result (λ e. (c : ℕ) × (e.kind ≡ UnexpectedCharacter c)) }
    ensures moves { Moves T.unread T.left T.origin cursor.old cursor.new }
{
    cursor.look(1);
    let character = cursor.input().peek();
    if cursor.input().next_is_z() || is_printable(character) {
        return Ok(());
    }
    Err(ScanError::from_kind(cursor.mark(), ErrorKind::UnexpectedCharacter { character }))
}
