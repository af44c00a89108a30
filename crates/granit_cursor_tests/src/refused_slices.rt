//! An input that tells where it stands and refuses parts of what it read.
use crate::agree::agree;
use granit_base::NoMemory;
use granit_cursor::{Cursor, Lexed, Token, TokenType, scan_comment};
use granit_directives::scan_directive;
use granit_error::{Options, ScanError};
use granit_input::{BorrowedInput, Input, StrInput};
use granit_properties::scan_anchor;
use granit_stream::Stream;
use std::alloc::Global;

/// The number of the kind by which something is refused, and the index of its mark, both 0 where it isn't; and `l`
/// where the name of an anchor that was read is lent, `o` where it is owned, and `.` where none was read.
type Told = (u8, usize, char);

/// What can be told of.
trait Tells {
    fn tell(&self) -> Told;
}

/// The letter of an anchor's name.
fn letter(token_type: &TokenType<'_>) -> char {
    match token_type {
        TokenType::Anchor(name) if name.is_borrowed() => 'l',
        TokenType::Anchor(_) => 'o',
        _ => '.',
    }
}

fn refusal(error: &ScanError) -> Told {
    (error.kind().number(), error.marker().index(), '.')
}

impl<'a> Tells for Result<Token<'a>, ScanError> {
    fn tell(&self) -> Told {
        match self {
            Ok(token) => (0, 0, letter(token.token_type())),
            Err(error) => refusal(error),
        }
    }
}

impl<'a> Tells for Result<Lexed<'a>, ScanError> {
    fn tell(&self) -> Told {
        match self {
            Ok(lexed) => (0, 0, letter(lexed.token.token_type())),
            Err(error) => refusal(error),
        }
    }
}

/// What is told of what is let go here, which is cheap to prove in a generic function.
fn tell<T: Tells + Drop>(read: T) -> Told {
    read.tell()
}

/// What is told of the comment, name or directive that begins here, where one does.
fn told_at<'a, T: BorrowedInput<'a>>(alloc: Global, cursor: &mut Cursor<T>) -> Told {
    cursor.look(1);
    match cursor.input().peek() {
        '#' => tell(scan_comment(alloc, cursor)),
        '&' => tell(scan_anchor(alloc, cursor, false)),
        '*' => tell(scan_anchor(alloc, cursor, true)),
        '%' => tell(scan_directive(alloc, cursor, &Options::default())),
        _ => (0, 0, '.'),
    }
}

/// The same of a stream that is let go here; something else for want of memory.
fn told_of<'a, T: BorrowedInput<'a>>(alloc: Global, stream: Result<T, NoMemory>) -> Told {
    match stream {
        Ok(stream) => told_at(alloc, &mut Cursor::new(stream)),
        Err(_) => (0, usize::MAX, '?'),
    }
}

/// The same of what a text begins with of which only a front is lent.
fn told(alloc: Global, text: &str, front: &str) -> Told {
    let front = StrInput::new(front);
    told_of(alloc, Stream::lending(alloc, text.chars(), front))
}

/// The number of the kind by which it is refused, and the index of its mark.
fn refused(alloc: Global, text: &str, front: &str) -> (u8, usize) {
    let (number, index, _) = told(alloc, text, front);
    (number, index)
}

/// The letter of its name.
fn name_letter(alloc: Global, text: &str, front: &str) -> char {
    let (_, _, letter) = told(alloc, text, front);
    letter
}

/// A text, a front of it, and the index of the mark by which it is refused where only the front is lent.
const CUT: &[(&str, &str, usize)] = &[
    ("# ab", "# a", 4),
    ("&ab c", "&a", 3),
    ("*é", "*", 2),
    ("%YAML 1.2 # c", "%YAML 1.2 #", 13),
];

/// Whether a text is refused at that mark where the front is lent, and isn't where all is, or nothing.
fn is_refused_by_part(alloc: Global, text: &str, front: &str, mark: usize) -> bool {
    let told = [
        refused(alloc, text, front),
        refused(alloc, text, text),
        refused(alloc, text, ""),
    ];
    told == [(83, mark), (0, 0), (0, 0)]
}

/// How many rows stand before the first one that is told otherwise.
fn count_refused(alloc: Global) -> usize {
    let mut count: usize = 0;
    for &(text, front, mark) in CUT {
        if !is_refused_by_part(alloc, text, front, mark) {
            return count;
        }
        count = count.saturating_add(1);
    }
    count
}

#[test]
fn refused_slices_are_told(rt: HostRuntime) {
    agree(&rt, count_refused(rt.alloc()), 4);
}

#[test]
fn nothing_is_lent_from_a_refused_place(rt: HostRuntime) {
    let told = [
        name_letter(rt.alloc(), "&ab", "&ab"),
        name_letter(rt.alloc(), "&ab", ""),
    ];
    agree(&rt, told, ['l', 'o']);
}
