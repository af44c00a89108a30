//! Places, comments and tokens, and what no clause says; what runs take stands in granit_token_cases. What owns
//! something is made and asked in functions that answer plain values: a test that asserts while it owns is dear to
//! prove.
use crate::agree::agree;
use granit_base::{Marker, NoMemory, OwnedText, Placement, Span, Text, TextList};
use granit_cursor::{Comment, Cursor, Token, TokenType, past_blanks, scan_comment, skip_comment};
use granit_error::ScanError;
use granit_input::{BorrowedInput, Input, StrInput};
use std::alloc::Global;
use std::convert::AsStr;

/// A line and a column, whether the line begins there, and the index of the tab before it.
type Told = (usize, usize, bool, Option<usize>);

/// Over the byte-order mark that stands here, where one does.
fn skip_mark<T: Input>(cursor: &mut Cursor<T>) -> bool {
    cursor.look(1);
    if cursor.input().peek() != '\u{feff}' || cursor.mark().col() != 0 {
        return false;
    }
    cursor.step_prefix_mark();
    true
}

/// What a cursor tells of its place.
fn told<T: Input>(cursor: &Cursor<T>) -> Told {
    let mark = cursor.mark();
    let tab = cursor.tab().map(|tab| tab.index());
    (mark.line(), mark.col(), cursor.begins_line(), tab)
}

/// How many steps in turn lead to the places in a row.
fn count_right<T: Input>(cursor: &mut Cursor<T>, places: &[Told]) -> usize {
    let mut count: usize = 0;
    for place in places {
        cursor.step();
        if told(cursor) != *place {
            return count;
        }
        count = count.saturating_add(1);
    }
    count
}

/// Whether the source of a cursor has no error.
fn has_no_error<T: Input>(cursor: &mut Cursor<T>) -> bool {
    cursor.take_source_error().is_none()
}

/// Where a cursor stands behind a mark.
const BEHIND_A_MARK: Told = (1, 0, true, None);

/// Where it stands behind each of ten characters, the last of which aren't there.
const PLACES: &[Told] = &[
    (1, 1, false, None),
    (1, 2, false, Some(2)),
    (1, 3, false, Some(2)),
    (2, 0, true, None),
    (2, 1, true, Some(5)),
    (3, 0, true, None),
    (3, 1, false, None),
    (3, 2, false, None),
    (4, 0, true, None),
    (4, 0, true, None),
];

/// Whether a mark is passed, the place behind it is right, ten places behind that are, and so is the byte offset at
/// the end, and whether the source has no error.
fn told_of_places<T: Input>(cursor: &mut Cursor<T>) -> [bool; 5] {
    [
        skip_mark(cursor),
        told(cursor) == BEHIND_A_MARK,
        count_right(cursor, PLACES) == 10,
        cursor.mark().byte_offset() == Some(13),
        has_no_error(cursor),
    ]
}

/// The same of a text.
fn places() -> [bool; 5] {
    let mut cursor = Cursor::new(StrInput::new("\u{feff}é\t\r\n\t\rc \n"));
    told_of_places(&mut cursor)
}

#[test]
fn cursors_tell_their_place(rt: HostRuntime) {
    agree(&rt, places(), [true; 5]);
}

/// Whether lines are taken behind two characters, and where the cursor then stands.
fn take_lines<T: Input>(cursor: &mut Cursor<T>) -> (bool, Told) {
    cursor.step();
    cursor.step();
    (cursor.take_lines(), told(cursor))
}

/// The same of a text.
fn behind_lines(text: &str) -> (bool, Told) {
    let mut cursor = Cursor::new(StrInput::new(text));
    take_lines(&mut cursor)
}

#[test]
fn lines_are_taken_with_their_indentation(rt: HostRuntime) {
    agree(&rt, behind_lines("a\t\n \n  b"), (true, (3, 2, true, None)));
    agree(
        &rt,
        behind_lines("a\t\n\tb"),
        (false, (1, 2, false, Some(1))),
    );
}

/// Whether a copy that was made is equal to what it is of. What is let go in a generic function is cheap to prove.
fn is_same<T: PartialEq + Drop>(copy: Result<T, NoMemory>, of: &T) -> bool {
    match copy {
        Ok(copy) => copy == *of,
        Err(_) => false,
    }
}

/// Whether a value is equal to one that is let go here.
fn is_equal<T: PartialEq + Drop>(one: &T, other: T) -> bool {
    *one == other
}

/// Whether the text of a copy is lent.
fn is_copy_lent(copy: Result<Comment<'_>, NoMemory>) -> bool {
    match copy {
        Ok(comment) => comment.into_text().is_borrowed(),
        Err(_) => false,
    }
}

/// Whether the text of a token is lent, which is a comment.
fn is_lent(alloc: Global, token: &Token<'_>) -> bool {
    match token.token_type() {
        TokenType::Comment(comment) => is_copy_lent(comment.try_clone(alloc)),
        _ => false,
    }
}

/// The token of a comment, from the third character to the sixth.
fn comment_token<'a>(text: &'a str, placement: Placement) -> Token<'a> {
    let span = Span::new(Marker::new(2, 1, 2), Marker::new(5, 1, 5));
    let comment = Comment::new(Text::borrowed(text)).with_placement(placement);
    Token::new(span, TokenType::Comment(comment))
}

/// Whether a token is that one.
fn is_comment(token: &Token<'_>, text: &str, placement: Placement) -> bool {
    is_equal(token, comment_token(text, placement))
}

/// What can be told of.
trait Tells {
    /// Whether a comment was read that is lent, and whether it is that one.
    fn is_right(&self, alloc: Global, text: &str, placement: Placement) -> [bool; 2];
}

impl<'a> Tells for Result<Token<'a>, ScanError> {
    fn is_right(&self, alloc: Global, text: &str, placement: Placement) -> [bool; 2] {
        match self {
            Ok(token) => [is_lent(alloc, token), is_comment(token, text, placement)],
            Err(_) => [false; 2],
        }
    }
}

/// The same of what is let go here, which is cheap to prove in a generic function.
fn is_right<T: Tells + Drop>(
    alloc: Global,
    read: T,
    text: &str,
    placement: Placement,
) -> [bool; 2] {
    read.is_right(alloc, text, placement)
}

/// The same of the comment that begins here, where one does.
fn is_right_at<'a, T: BorrowedInput<'a>>(
    alloc: Global,
    cursor: &mut Cursor<T>,
    text: &str,
    placement: Placement,
) -> [bool; 2] {
    cursor.look(1);
    if cursor.input().peek() != '#' {
        return [false; 2];
    }
    is_right(alloc, scan_comment(alloc, cursor), text, placement)
}

/// The same of the comment behind a character and blanks, and whether it ends behind the fifth character.
fn is_right_behind<'a, T: BorrowedInput<'a>>(
    alloc: Global,
    cursor: &mut Cursor<T>,
    text: &str,
    placement: Placement,
) -> [bool; 3] {
    cursor.step();
    past_blanks(cursor);
    let right = is_right_at(alloc, cursor, text, placement);
    [right[0], right[1], told(cursor) == (1, 5, false, None)]
}

/// The same in a text.
fn comment_of(alloc: Global, source: &str, text: &str, placement: Placement) -> [bool; 3] {
    let mut cursor = Cursor::new(StrInput::new(source));
    is_right_behind(alloc, &mut cursor, text, placement)
}

#[test]
fn comments_tell_whether_they_are_right(rt: HostRuntime) {
    let alloc = rt.alloc();
    let free = comment_of(alloc, "\t # b\r\n", " b", Placement::Free);
    let right = comment_of(alloc, "a #\té\n", "\té", Placement::Right);
    agree(&rt, [free, right], [[true; 3]; 2]);
}

/// The number of the kind by which a comment is refused, and the index of its mark; both 0 where it isn't.
fn place(read: &Result<(), ScanError>) -> (u8, usize) {
    match read {
        Ok(()) => (0, 0),
        Err(error) => (error.kind().number(), error.marker().index()),
    }
}

/// The same of the comment that begins here, where one does.
fn refused_at<'a, T: BorrowedInput<'a>>(cursor: &mut Cursor<T>) -> (u8, usize) {
    cursor.look(1);
    if cursor.input().peek() != '#' {
        return (0, 0);
    }
    place(&skip_comment(cursor))
}

/// The same of the comment that a text begins with.
fn refused(text: &str) -> (u8, usize) {
    let mut cursor = Cursor::new(StrInput::new(text));
    refused_at(&mut cursor)
}

#[test]
fn comments_are_refused(rt: HostRuntime) {
    agree(&rt, refused("# a\0b"), (76, 3));
}

/// Whether the texts of a comment are these: trimmed, and by its two names; and whether a copy of it is the same, and
/// lent.
fn told_of_comment(alloc: Global, comment: &Comment<'_>, trimmed: &str) -> [bool; 4] {
    [
        comment.trimmed_text() == trimmed,
        comment.as_str() == comment.text(),
        is_same(comment.try_clone(alloc), comment),
        is_copy_lent(comment.try_clone(alloc)),
    ]
}

/// The same of a comment that stands on the right.
fn of_a_comment(alloc: Global) -> [bool; 4] {
    let comment = Comment::new(Text::borrowed(" \u{a0}é c\t")).with_placement(Placement::Right);
    told_of_comment(alloc, &comment, "é c")
}

#[test]
fn comments_are_cloned(rt: HostRuntime) {
    agree(&rt, of_a_comment(rt.alloc()), [true; 4]);
}

/// One parameter more.
fn push_one(alloc: Global, parameters: &mut TextList) -> Result<(), NoMemory> {
    parameters.push(OwnedText::from_str(alloc, "b")?)
}

/// A list of one parameter, where there is room.
fn parameters(alloc: Global) -> TextList {
    let mut parameters = TextList::new(alloc);
    let _ = push_one(alloc, &mut parameters).is_ok();
    parameters
}

/// The token of a reserved directive with these parameters.
fn directive(parameters: TextList) -> Token<'static> {
    let span = Span::empty(Marker::new(3, 1, 3));
    let token_type = TokenType::ReservedDirective(Text::borrowed("a"), parameters);
    Token::new(span, token_type)
}

/// Whether a token begins behind three characters, and its type is that one.
fn has_parts<'a>(token: Token<'a>, wanted: &TokenType<'a>) -> [bool; 2] {
    let (span, token_type) = token.into_parts();
    let is_wanted = is_equal(wanted, token_type);
    [span.start.index() == 3, is_wanted]
}

/// The same of a copy and the type of what it is of.
fn copy_has_parts(alloc: Global, token: &Token<'_>) -> [bool; 2] {
    match token.try_clone(alloc) {
        Ok(copy) => has_parts(copy, token.token_type()),
        Err(_) => [false; 2],
    }
}

/// The same, and whether a copy is the same.
fn told_of_token(alloc: Global, token: &Token<'_>) -> [bool; 3] {
    let [place, token_type] = copy_has_parts(alloc, token);
    [place, token_type, is_same(token.try_clone(alloc), token)]
}

/// The same of a directive with one parameter.
fn told_of_directive(alloc: Global) -> [bool; 3] {
    told_of_token(alloc, &directive(parameters(alloc)))
}

#[test]
fn tokens_are_cloned(rt: HostRuntime) {
    agree(&rt, told_of_directive(rt.alloc()), [true; 3]);
}
