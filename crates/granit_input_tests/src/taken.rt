//! What a string takes at once: plain and quoted scalars whose end it sees, and line feeds; and some that it doesn't.
use crate::agree::agree;
use granit_input::{Input, StrInput};

/// A text, how it is asked for, and what a string answers.
trait Row {
    /// Whether a string answers so, and stands where it should.
    fn is_right(&self) -> bool;
}

/// How many rows are right, up to the first that isn't.
fn count_right<R: Row>(rows: &[R]) -> usize {
    let mut count: usize = 0;
    for row in rows {
        if !row.is_right() {
            return count;
        }
        count = count.saturating_add(1);
    }
    count
}

/// From which byte to which a plain scalar lies, and the spaces that begin the line behind it, where that ends it.
type Taken = Option<(usize, usize, Option<usize>)>;

/// A text, whether it stands in flow, the column of its block, and what a string answers.
struct Plain(&'static str, bool, Option<usize>, Taken);

const PLAIN: &[Plain] = &[
    Plain("a b: c", false, None, Some((0, 3, None))),
    Plain("a:\nb", false, None, Some((0, 1, None))),
    Plain("a,b: c", false, None, Some((0, 3, None))),
    Plain("a,b", true, None, Some((0, 1, None))),
    Plain("a:]", true, None, Some((0, 1, None))),
    Plain("a:b: c", false, None, None),
    Plain("a:", false, None, None),
    Plain("-]", true, None, None),
    Plain("--],", true, None, Some((0, 2, None))),
    Plain("a\n  b: c", false, Some(2), Some((0, 1, Some(2)))),
    Plain("a\n   b: c", false, Some(2), None),
    Plain("a\n  b: c", false, None, None),
    Plain("a\nb", true, Some(0), None),
    Plain("a\n]", true, None, Some((0, 1, Some(0)))),
    Plain("a b\n   }", true, Some(1), Some((0, 3, Some(3)))),
    Plain("1\n  , 2", true, Some(4), Some((0, 1, Some(2)))),
    Plain("a\n[b]", true, Some(0), Some((0, 1, Some(0)))),
    Plain("a\n {", true, Some(0), Some((0, 1, Some(1)))),
    Plain("-\n]", true, Some(0), None),
    Plain("a\n-]", true, Some(0), None),
    Plain("a\n  ? b", true, Some(2), None),
    Plain("a\n: b", true, Some(0), None),
    Plain("a\n# b", true, Some(0), None),
    Plain("a\n---\n", true, Some(0), None),
    Plain("a\n\n]", true, Some(0), None),
    Plain("a\n\t]", true, Some(0), None),
    Plain("a\r\n]", true, Some(0), None),
    Plain("a \n]", true, Some(0), None),
    Plain("a\n ", true, Some(0), None),
    Plain("a\n ]", false, Some(0), None),
    Plain("a\n]", false, None, None),
    Plain("a\n---\n", false, Some(0), Some((0, 1, Some(0)))),
    Plain("a\n# b", false, Some(0), Some((0, 1, Some(0)))),
    Plain("a\n\nb", false, Some(0), None),
    Plain("a\n\tb", false, Some(0), None),
    Plain("a\r\nb", false, Some(0), None),
    Plain("a\n", false, Some(0), None),
    Plain("a\né", false, Some(0), None),
    Plain("aé: b", false, None, None),
    Plain("é: b", false, None, None),
    Plain("a #b", false, Some(0), None),
    Plain("a\0: b", false, None, None),
    Plain("\u{feff}a: b", false, None, None),
    Plain("", false, Some(0), None),
];

/// Where a string stands behind that.
fn reached(taken: Taken) -> usize {
    match taken {
        None => 0,
        Some((_, end, None)) => end,
        Some((_, end, Some(spaces))) => end.saturating_add(1).saturating_add(spaces),
    }
}

impl Row for Plain {
    fn is_right(&self) -> bool {
        let mut input = StrInput::new(self.0);
        let taken = input.take_plain(self.1, self.2);
        input.byte_offset() == Some(reached(taken)) && taken == self.3
    }
}

#[test]
fn a_string_sees_where_plain_scalars_end(rt: HostRuntime) {
    agree(&rt, count_right(PLAIN), PLAIN.len());
}

/// A text, whether it stands in flow, where what stands between its quotes lies, and the character that stands next.
struct Quoted(&'static str, bool, Option<(usize, usize)>, char);

const QUOTED: &[Quoted] = &[
    Quoted("\"a b\": é", false, Some((1, 4)), ':'),
    Quoted("\"\"\n", false, Some((1, 1)), '\n'),
    Quoted("'it', ", true, Some((1, 3)), ','),
    Quoted("'sixteen and more of them']", true, Some((1, 25)), ']'),
    Quoted("'it', ", false, None, '\''),
    Quoted("'it''s':", false, None, '\''),
    Quoted("\"a\"", true, None, '"'),
    Quoted("\"a\"\r\n", true, None, '"'),
    Quoted("\"a\" :", true, None, '"'),
    Quoted("\"a  b\":", true, None, '"'),
    Quoted("\"é\":", true, None, '"'),
    Quoted("\"\\n\":", true, None, '"'),
];

/// Where what stands between the quotes in front lies, where that is seen at once.
fn take_quoted<T: Input>(input: &mut T, in_flow: bool) -> Option<(usize, usize)> {
    input.lookahead(1);
    match input.peek() {
        '\'' => input.take_quoted(true, in_flow),
        '"' => input.take_quoted(false, in_flow),
        _ => None,
    }
}

impl Row for Quoted {
    fn is_right(&self) -> bool {
        let mut input = StrInput::new(self.0);
        take_quoted(&mut input, self.1) == self.2 && input.look_ch() == self.3
    }
}

#[test]
fn a_quoted_scalar_is_taken_where_its_end_is_seen(rt: HostRuntime) {
    agree(&rt, count_right(QUOTED), QUOTED.len());
}

/// A text, how many characters of it are taken, how many of them are line feeds, and how many spaces stand behind the
/// last one; and the character that stands next.
struct Lines(&'static str, Option<(usize, usize, usize)>, char);

const LINES: &[Lines] = &[
    Lines("\n  a", Some((3, 1, 2)), 'a'),
    Lines("\n \n\n    #", Some((8, 3, 4)), '#'),
    Lines("\n\n~", Some((2, 2, 0)), '~'),
    Lines(" \na", None, ' '),
    Lines("\r\na", None, '\r'),
    Lines("\n  ", None, '\n'),
    Lines("\n \ta", None, '\n'),
    Lines("\n \r\na", None, '\n'),
    Lines("\n\0", None, '\n'),
    Lines("\n\u{7f}", None, '\n'),
    Lines("\né", None, '\n'),
    Lines("\n\u{feff}a", None, '\n'),
];

impl Row for Lines {
    fn is_right(&self) -> bool {
        let mut input = StrInput::new(self.0);
        input.take_lines() == self.1 && input.look_ch() == self.2
    }
}

#[test]
fn line_feeds_are_taken_with_their_spaces(rt: HostRuntime) {
    agree(&rt, count_right(LINES), LINES.len());
}
