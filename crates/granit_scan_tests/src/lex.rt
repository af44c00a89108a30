//! Each call once, also where no comments are asked for, and each kind of a wrong escape. The values and faults are the
//! original's.
use crate::agree::agree;
use granit_base::{NoMemory, ScalarStyle, is_blank_or_breakz};
use granit_cursor::{Cursor, Layout, Lexed, Token, TokenType};
use granit_error::ScanError;
use granit_input::{BorrowedInput, Input, StrInput};
use granit_plain::scan_plain_scalar;
use granit_quoted::scan_quoted_scalar;
use std::alloc::Global;

/// Outside flow, in a block collection in column 0, where no comments are asked for.
fn nested() -> Layout {
    Layout {
        block_column: Some(0),
        tab_column: 1,
        in_flow: false,
        strict: false,
        comments: false,
    }
}

/// Where comments are asked for.
fn with_comments() -> Layout {
    let mut at = nested();
    at.comments = true;
    at
}

/// Whether a scalar was read that is written so and has that value, with no comment; `l` where its text is lent, `o`
/// where it is owned, and the same of the comment behind it, `.` where there is none; and the number of the kind by
/// which it is refused, and the index of its mark, both 0 where it isn't.
type Told = (bool, char, char, u8, usize);

/// Where no scalar begins.
const NOTHING: Told = (false, '.', '.', 0, 0);

fn letter(is_lent: bool) -> char {
    if is_lent { 'l' } else { 'o' }
}

/// Whether a token is a scalar that is written so and has that value.
fn is_scalar(token: &Token<'_>, style: ScalarStyle, value: &str) -> bool {
    match token.token_type() {
        TokenType::Scalar(found, text) => *found == style && text.as_str() == value,
        _ => false,
    }
}

/// The letter of the text of a scalar.
fn value_letter(token: &Token<'_>) -> char {
    match token.token_type() {
        TokenType::Scalar(_, text) => letter(text.is_borrowed()),
        _ => '.',
    }
}

/// The letter of the text of a comment that is taken out of its token.
fn taken_letter(token: Token<'_>) -> char {
    match token.into_parts() {
        (_, TokenType::Comment(comment)) => letter(comment.into_text().is_borrowed()),
        _ => '.',
    }
}

/// The same of a copy.
fn comment_letter(copy: Result<Token<'_>, NoMemory>) -> char {
    match copy {
        Ok(token) => taken_letter(token),
        Err(_) => '.',
    }
}

/// The letter of the text of the comment behind a scalar.
fn note_letter(alloc: Global, note: &Option<Token<'_>>) -> char {
    match note {
        Some(token) => comment_letter(token.try_clone(alloc)),
        None => '.',
    }
}

/// What can be told of.
trait Tells {
    fn tell(&self, alloc: Global, style: ScalarStyle, value: &str) -> Told;
}

impl<'a> Tells for Result<Lexed<'a>, ScanError> {
    fn tell(&self, alloc: Global, style: ScalarStyle, value: &str) -> Told {
        match self {
            Ok(lexed) => (
                lexed.comment.is_none() && is_scalar(&lexed.token, style, value),
                value_letter(&lexed.token),
                note_letter(alloc, &lexed.comment),
                0,
                0,
            ),
            Err(error) => (
                false,
                '.',
                '.',
                error.kind().number(),
                error.marker().index(),
            ),
        }
    }
}

/// What is told of what is let go here, which is cheap to prove in a generic function.
fn tell<T: Tells + Drop>(alloc: Global, read: T, style: ScalarStyle, value: &str) -> Told {
    read.tell(alloc, style, value)
}

/// What is told of the scalar that begins here, where one does.
fn told_at<'a, T: BorrowedInput<'a>>(
    alloc: Global,
    cursor: &mut Cursor<T>,
    at: &Layout,
    style: ScalarStyle,
    value: &str,
) -> Told {
    cursor.look(2);
    match cursor.input().peek() {
        '\'' => tell(
            alloc,
            scan_quoted_scalar(alloc, cursor, true, at),
            style,
            value,
        ),
        '"' => tell(
            alloc,
            scan_quoted_scalar(alloc, cursor, false, at),
            style,
            value,
        ),
        c if is_blank_or_breakz(c) => NOTHING,
        _ if !cursor.input().next_can_be_plain_scalar(at.in_flow) => NOTHING,
        _ => tell(alloc, scan_plain_scalar(alloc, cursor, at), style, value),
    }
}

/// The same of the scalar at the start of a text, and where the cursor then stands.
fn told(alloc: Global, text: &str, at: &Layout, style: ScalarStyle, value: &str) -> (Told, usize) {
    let mut cursor = Cursor::new(StrInput::new(text));
    let told = told_at(alloc, &mut cursor, at, style, value);
    (told, cursor.mark().index())
}

/// The letters of a scalar's text and of the comment behind it.
fn letters(alloc: Global, text: &str, at: &Layout) -> (char, char) {
    let ((_, value, note, _, _), _) = told(alloc, text, at, ScalarStyle::Plain, "");
    (value, note)
}

/// The text of the first row whose scalar isn't lent as it says.
fn first_lent_otherwise(alloc: Global, rows: &[(&'static str, bool)]) -> Option<&'static str> {
    for &(text, lent) in rows {
        let (value, _) = letters(alloc, text, &nested());
        if value != letter(lent) {
            return Some(text);
        }
    }
    None
}

/// A text, how its scalar is written, its value, and where it ends.
type Valued = (&'static str, ScalarStyle, &'static str, usize);

/// The text of the first row whose scalar has another value, or ends elsewhere.
fn first_of_another_value(alloc: Global, rows: &[Valued]) -> Option<&'static str> {
    for &(text, style, value, stands) in rows {
        let ((is_right, _, _, _, _), end) = told(alloc, text, &nested(), style, value);
        if !is_right || end != stands {
            return Some(text);
        }
    }
    None
}

/// A text, the number of the kind by which its scalar is refused, and the index of its mark.
type Refused = (&'static str, u8, usize);

/// The text of the first row that isn't refused as it says.
fn first_otherwise(alloc: Global, rows: &[Refused]) -> Option<&'static str> {
    for &(text, number, mark) in rows {
        let ((_, _, _, kind, index), _) = told(alloc, text, &nested(), ScalarStyle::Plain, "");
        if (kind, index) != (number, mark) {
            return Some(text);
        }
    }
    None
}

#[test]
fn comments_are_lent(rt: HostRuntime) {
    let (_, note) = letters(rt.alloc(), "'a' #é", &with_comments());
    agree(&rt, note, 'l');
}

/// A text, and whether its scalar is lent.
const LENT: &[(&str, bool)] = &[
    ("a b\t c #d", true),
    ("é", true),
    ("a\n", true),
    ("a  \n\nb: c", true),
    ("a\n b", false),
    ("a\n\n b\n", false),
    ("'a b'", true),
    ("'é \"\\ ' #c", true),
    ("''", true),
    ("' '", true),
    ("'a''b'", false),
    ("'a\n b'", false),
    ("\"a b\"", true),
    ("\"a ' b\"", true),
    ("\"a\\tb\"", false),
    ("\"a\\\n b\"", false),
    ("\"\n a\"", false),
];

#[test]
fn texts_are_lent(rt: HostRuntime) {
    agree(&rt, first_lent_otherwise(rt.alloc(), LENT), None);
}

const VALUED: &[Valued] = &[
    ("a\n\n b #c", ScalarStyle::Plain, "a\nb", 6),
    ("'a''\n b' #c\n", ScalarStyle::SingleQuoted, "a' b", 11),
    (
        "\"\\x41\\u00e9\\U0001f600\\ud83d\\ude00\\\n \\_\"",
        ScalarStyle::DoubleQuoted,
        "A\u{e9}\u{1f600}\u{1f600}\u{a0}",
        39,
    ),
];

#[test]
fn scalars_are_read(rt: HostRuntime) {
    agree(&rt, first_of_another_value(rt.alloc(), VALUED), None);
}

const REFUSED: &[Refused] = &[
    ("a\n\tb", 72, 0),
    ("'\n\t", 41, 2),
    ("\"\\", 45, 0),
    ("\"\\u", 46, 0),
    ("\"\\ud83d", 47, 0),
    ("\"\\ud83d\\u", 48, 0),
    ("\"\\ud83d\\uade00\"", 49, 0),
    ("\"\\udd83d\"", 50, 0),
    ("\"\\U00110000\"", 51, 0),
];

#[test]
fn scalars_are_refused(rt: HostRuntime) {
    agree(&rt, first_otherwise(rt.alloc(), REFUSED), None);
}
