//! The worked rows, each call once, and what the laws alone are enough for. What owns something is made and asked in
//! functions that answer plain values: a test that asserts while it owns is dear to prove.
ghost use Rattle.std.specs.Prelude.{◌≡◌, IfOk, length, take};
ghost use Rattle.granit_base.specs.Classes.{is_alpha};
ghost use Rattle.granit_base.specs.Place.{Unread};
ghost use Rattle.granit_input.specs.Origin.{LentBetween};
ghost use Rattle.granit_runs.specs.Runs.{run_length, starts};
ghost use Rattle.granit_runs.specs.Unread.{past_count};

use crate::agree::agree;
use granit_base::{NoMemory, Text};
use granit_error::ErrorKind;
use granit_input::{
    BorrowedInput, Class, Input, Run, SkipTabs, StrInput, WhitespaceResult, find_unprintable,
};
use granit_stream::Stream;
use std::alloc::Global;
use std::str::Chars;

/// How many characters are left; all are consumed.
fn count_rest<T: Input>(input: &mut T) -> usize
    ensures counted { (u : Unread) → T.unread input.old u → (result ≡ length u.text)
        × T.unread input.new (past_count result u) }
    ensures end { T.left input.new ≡ 0 }
{
    let mut count = 0;
    'rest: loop {
        input.lookahead(1);
        if input.next_is_z() {
            return count;
        }
        input.skip();
        count += 1;
    }
}

/// The word at the front, lent where it can be.
fn word<'a, T: BorrowedInput<'a>>(alloc: Global, input: &mut T) -> Result<Text<'a>, NoMemory>
    ensures word { (u : Unread) → T.unread input.old u
        → IfOk result (λ w. w.characters ≡ take (run_length (starts is_alpha) u.text) u.text) }
    ensures lent { (u : Unread) → T.unread input.old u → IfOk result (λ w. w.is_borrowed ≡ u.lends) }
    ensures rest { (u : Unread) → T.unread input.old u
        → IfOk result (λ w. T.unread input.new (past_count (run_length (starts is_alpha) u.text) u)) }
{
    let start = input.byte_offset();
    let mut copied = String::new(alloc);
    input.fetch_while_is_alpha(&mut copied)?;
    let end = input.byte_offset();
    match lent(input, start, end) {
        Some(text) => Ok(Text::borrowed(text)),
        None => Ok(Text::owned(copied)),
    }
}

/// The part of the source between two offsets, where both are told.
fn lent<'a, T: BorrowedInput<'a>>(
    input: &T,
    start: Option<usize>,
    end: Option<usize>,
) -> Option<&'a str>
    ensures { LentBetween (T.origin input.now).lent start end result }
{
    input.slice_borrowed(start?, end?)
}

/// Whether an input reads the character behind a word, passes one blank, and then sees the start of a document.
fn reads_on<T: Input>(input: &mut T) -> [bool; 3] {
    let c = input.raw_read_non_breakz_ch();
    let blanks = input.skip_while_blank();
    input.lookahead(4);
    [c == Some('é'), blanks == 1, input.next_is_document_start()]
}

/// Whether the word at the front is that one, and is lent where that is wanted; no for want of memory.
fn has_word<'a, T: BorrowedInput<'a>>(
    alloc: Global,
    input: &mut T,
    wanted: &str,
    is_lent: bool,
) -> bool {
    match &word(alloc, input) {
        Ok(first) => first.as_str() == wanted && first.is_borrowed() == is_lent,
        Err(_) => false,
    }
}

/// The number of an error, 0 where there is none.
fn number(error: &Option<ErrorKind>) -> u8 {
    match error {
        Some(kind) => kind.number(),
        None => 0,
    }
}

/// The number of the error that is handed out, 0 where none is.
pub(crate) fn error_number<T: Input>(input: &mut T) -> u8 {
    number(&input.take_source_error())
}

/// The number of the error that is handed out before the end, whether eight characters are left and NUL is read behind
/// them, and the numbers of the errors that are handed out then, twice.
fn read_out<T: Input>(input: &mut T) -> ([bool; 2], [u8; 3]) {
    let early = error_number(input);
    let ends = [count_rest(input) == 8, input.raw_read_ch() == '\0'];
    (ends, [early, error_number(input), error_number(input)])
}

/// What is fetched for want of memory.
const NOTHING: usize = usize::MAX;

/// How many characters of a word were fetched, and what stands behind them.
fn fetch_word(text: &str, out: &mut String) -> (usize, char) {
    let mut input = StrInput::new(text);
    let count = input.fetch_while_is_alpha(out).unwrap_or(NOTHING);
    (count, input.look_ch())
}

/// The same of what isn't blank.
fn fetch_solid(text: &str, out: &mut String) -> (usize, char) {
    let mut input = StrInput::new(text);
    let count = input.fetch_while_is_yaml_non_space(out).unwrap_or(NOTHING);
    (count, input.look_ch())
}

/// The same of a line.
fn fetch_line(text: &str, out: &mut String) -> (usize, char) {
    let mut input = StrInput::new(text);
    let count = input.fetch_block_scalar_line(out).unwrap_or(NOTHING);
    (count, input.look_ch())
}

/// What a fetch of a plain scalar says, in flow.
fn fetch_chunk(input: &mut StrInput<'_>, limit: usize, out: &mut String) -> (bool, usize) {
    let chunk = input.fetch_plain_scalar_chunk(out, limit, true);
    chunk.unwrap_or((false, NOTHING))
}

/// What two say.
fn fetch_twice(text: &str, limit: usize, out: &mut String) -> [(bool, usize); 2] {
    let mut input = StrInput::new(text);
    let first = fetch_chunk(&mut input, limit, out);
    [first, fetch_chunk(&mut input, limit, out)]
}

/// The number of an error; 0 where spaces alone were found, and 255 where something else was.
fn numbered(found: &Result<WhitespaceResult, ErrorKind>) -> u8 {
    match found {
        Ok(found) if *found == WhitespaceResult::new(false, true) => 0,
        Ok(_) => 255,
        Err(kind) => kind.number(),
    }
}

/// How many characters were skipped up to a line's end, the number of the error, and what stands next.
fn skip_to_eol(text: &str) -> (usize, u8, char) {
    let mut input = StrInput::new(text);
    let (count, found) = input.skip_ws_to_eol(SkipTabs::Yes);
    (count, numbered(&found), input.look_ch())
}

/// What is skipped without tabs, and then with them.
fn skip_blanks(text: &str) -> [(usize, WhitespaceResult); 2] {
    let mut input = StrInput::new(text);
    let spaces = input.skip_ws_to_eol_blanks(SkipTabs::No);
    [spaces, input.skip_ws_to_eol_blanks(SkipTabs::Yes)]
}

/// How many blanks there are, and how many printable characters behind them.
fn skip_blanks_and_line(text: &str) -> [usize; 2] {
    let mut input = StrInput::new(text);
    let blanks = input.skip_while_blank();
    [blanks, input.skip_while_non_breakz()]
}

/// A string looks as far behind a run as before it.
fn third_behind_blanks(text: &str) -> char {
    let mut input = StrInput::new(text);
    input.lookahead(3);
    input.skip_while_blank();
    input.peek_nth(2)
}

/// What a plain scalar takes, at most two and then eight characters, and a word behind it.
fn skip_plain(text: &str) -> [(bool, usize); 3] {
    let mut input = StrInput::new(text);
    let two = input.skip_plain_scalar_chunk(2, false);
    let more = input.skip_plain_scalar_chunk(8, false);
    [two, more, input.skip_run(Run::Of(Class::Alpha), 8)]
}

/// What single quotes, double quotes and single quotes take in turn.
fn skip_quoted(text: &str) -> [(bool, usize); 3] {
    let mut input = StrInput::new(text);
    let single = input.skip_run(Run::Quoted(true), 8);
    let double = input.skip_run(Run::Quoted(false), 8);
    [single, double, input.skip_run(Run::Quoted(true), 8)]
}

/// What words take in a plain scalar, out of flow and in flow.
fn skip_plain_words(text: &str) -> [(bool, usize); 2] {
    let mut input = StrInput::new(text);
    let out = input.skip_run(Run::PlainWords(false), 16);
    [out, StrInput::new(text).skip_run(Run::PlainWords(true), 16)]
}

/// What words take in single quotes and in double quotes.
fn skip_quoted_words(text: &str) -> [(bool, usize); 2] {
    let mut input = StrInput::new(text);
    let single = input.skip_run(Run::QuotedWords(true), 16);
    [
        single,
        StrInput::new(text).skip_run(Run::QuotedWords(false), 16),
    ]
}

/// How far may be looked at, before a look and behind it.
fn windows(text: &str) -> (bool, usize, usize) {
    let mut input = StrInput::new(text);
    let empty = input.buf_is_empty();
    input.lookahead(4);
    (empty, input.bufmaxlen(), input.buflen())
}

/// What is true of `--- ` in front.
fn holds_at_mark(text: &str) -> [bool; 7] {
    let mut input = StrInput::new(text);
    input.lookahead(4);
    [
        input.next_is_document_start(),
        input.next_is_document_indicator(),
        input.next_2_are('-', '-'),
        input.next_char_is('-'),
        input.nth_char_is(3, ' '),
        input.next_is_alpha(),
        input.next_can_be_plain_scalar(false),
    ]
}

/// What isn't.
fn fails_at_mark(text: &str) -> [bool; 4] {
    let mut input = StrInput::new(text);
    input.lookahead(4);
    [
        input.next_is_document_end(),
        input.next_3_are('-', '-', '.'),
        input.next_is_flow(),
        input.next_is_digit(),
    ]
}

/// What is true of a blank in front, behind three characters, which is read then.
fn holds_at_blank(input: &mut StrInput<'_>) -> [bool; 4] {
    input.skip_n(3);
    input.lookahead(2);
    let blank = input.next_is_blank();
    let or_break = input.next_is_blank_or_break();
    let or_nul = input.next_is_blank_or_breakz();
    [blank, or_break, or_nul, input.raw_read_ch() == ' ']
}

/// Whether no break, a break or NUL, and not the end is next, and nothing is read before a break.
fn holds_at_nul(input: &mut StrInput<'_>) -> [bool; 4] {
    input.lookahead(1);
    let breaks = input.next_is_break();
    let or_nul = input.next_is_breakz();
    let ends = input.next_is_z();
    let c = input.raw_read_non_breakz_ch();
    [!breaks, or_nul, !ends, c.is_none()]
}

/// Whether the end is next behind a character, and NUL is looked at there.
fn holds_at_end(input: &mut StrInput<'_>) -> [bool; 2] {
    input.skip();
    input.lookahead(1);
    [input.next_is_z(), input.peek() == '\0']
}

/// All three in turn.
fn read_through(text: &str) -> ([bool; 4], [bool; 4], [bool; 2]) {
    let mut input = StrInput::new(text);
    let blank = holds_at_blank(&mut input);
    let nul = holds_at_nul(&mut input);
    (blank, nul, holds_at_end(&mut input))
}

/// Whether a string is cut between characters alone.
fn is_cut_between_characters() -> [bool; 2] {
    let input = StrInput::new("aé!");
    [
        input.slice_bytes(1, 3) == Some("é"),
        input.slice_bytes(2, 3).is_none(),
    ]
}

/// Whether all of a string is lent, and nothing between wrong ends.
fn are_lent_between() -> [bool; 3] {
    let input = StrInput::new("aé!");
    [
        input.slice_borrowed(0, 4) == Some("aé!"),
        input.slice_borrowed(3, 1).is_none(),
        input.slice_borrowed(0, 5).is_none(),
    ]
}

/// Whether two chunks in quotes are as they should be, with so many characters, and so is the offset behind them.
fn take_chunks() -> [bool; 3] {
    let mut input = StrInput::new("aé!");
    let first = input.take_quoted_scalar_ascii_chunk(true) == ("a", 1);
    let second = input.take_quoted_scalar_chunk(false) == ("é!", 2);
    [first, second, input.byte_offset() == Some(4)]
}

/// Whether a string may contain comments.
fn may_contain_comments(text: &str) -> bool {
    StrInput::new(text).may_contain_comments()
}

/// Whether a string has no error.
fn has_no_error(text: &str) -> bool {
    StrInput::new(text).take_source_error().is_none()
}

/// Whether the word at the front is right, and lent, and so are the count of what is left behind it and the offset
/// there.
fn reads_string<'a, T: BorrowedInput<'a>>(alloc: Global, input: &mut T) -> [bool; 3] {
    [
        has_word(alloc, input, "n", true),
        count_rest(input) == 3,
        input.byte_offset() == Some(5),
    ]
}

#[test]
fn words_are_lent_by_a_string(rt: HostRuntime) {
    let read = reads_string(rt.alloc(), &mut StrInput::new("né e"));
    agree(&rt, read, [true; 3]);
}

/// Whether it is right, and owned, a stream goes on behind it, and tells no offset.
fn reads_stream<'a, T: BorrowedInput<'a>>(alloc: Global, input: &mut T) -> [bool; 3] {
    [
        has_word(alloc, input, "n", false),
        reads_on(input) == [true; 3],
        input.byte_offset().is_none(),
    ]
}

/// The same of a stream that is let go here; no for want of memory.
fn word_of<'a, T: BorrowedInput<'a>>(alloc: Global, stream: Result<T, NoMemory>) -> [bool; 3] {
    match stream {
        Ok(mut input) => reads_stream(alloc, &mut input),
        Err(_) => [false; 3],
    }
}

/// A stream that breaks off behind a text.
fn broken_off<'a>(
    alloc: Global,
    text: &'a str,
) -> Result<Stream<Chars<'a>, StrInput<'a>>, NoMemory> {
    Stream::new(alloc, text.chars(), true)
}

fn word_of_a_stream(alloc: Global) -> [bool; 3] {
    word_of(alloc, broken_off(alloc, "né --- é#12"))
}

#[test]
fn a_stream_copies_words(rt: HostRuntime) {
    agree(&rt, word_of_a_stream(rt.alloc()), [true; 3]);
}

/// What is read out of a stream that is let go here; nothing for want of memory.
fn ends_of<T: Input>(stream: Result<T, NoMemory>) -> ([bool; 2], [u8; 3]) {
    match stream {
        Ok(mut input) => read_out(&mut input),
        Err(_) => ([false; 2], [0; 3]),
    }
}

fn ends_of_a_stream(alloc: Global) -> ([bool; 2], [u8; 3]) {
    ends_of(broken_off(alloc, "--- é#12"))
}

#[test]
fn a_stream_ends_with_its_error(rt: HostRuntime) {
    agree(&rt, ends_of_a_stream(rt.alloc()), ([true; 2], [0, 87, 0]));
}

/// Whether the right characters were fetched in three runs, and what each says.
fn fetch_runs(alloc: Global) -> (bool, [(usize, char); 3]) {
    let mut out = String::new(alloc);
    let word = fetch_word("abc_123-é", &mut out);
    let solid = fetch_solid("a:é b\n", &mut out);
    let line = fetch_line("a:é b\n", &mut out);
    (out.as_str() == "abc_123-a:éa:é b", [word, solid, line])
}

#[test]
fn fetching_calls_take_their_runs(rt: HostRuntime) {
    let wanted = (true, [(8, 'é'), (3, ' '), (5, '\n')]);
    agree(&rt, fetch_runs(rt.alloc()), wanted);
}

/// Whether the right characters were fetched of two plain scalars, and what two fetches of each say.
fn fetch_plain(alloc: Global) -> (bool, [[(bool, usize); 2]; 2]) {
    let mut out = String::new(alloc);
    let whole = fetch_twice("a:é ", 16, &mut out);
    let part = fetch_twice("a,b", 1, &mut out);
    (out.as_str() == "a:éa", [whole, part])
}

#[test]
fn plain_scalars_are_fetched_up_to_a_count(rt: HostRuntime) {
    let whole = [(true, 3), (true, 0)];
    let part = [(false, 1), (true, 0)];
    agree(&rt, fetch_plain(rt.alloc()), (true, [whole, part]));
}

#[test]
fn white_space_and_a_comment_are_skipped(rt: HostRuntime) {
    agree(&rt, skip_to_eol("  # comment\nnext"), (11, 0, '\n'));
    agree(&rt, skip_to_eol("# comment"), (0, 73, '#'));
}

#[test]
fn blanks_are_skipped(rt: HostRuntime) {
    let spaces = WhitespaceResult::new(false, true);
    let tabs = WhitespaceResult::new(true, false);
    agree(&rt, skip_blanks(" \t# comment"), [(1, spaces), (1, tabs)]);
}

#[test]
fn skipping_calls_count_characters(rt: HostRuntime) {
    agree(&rt, skip_blanks_and_line(" \té\u{7f}"), [2, 1]);
    agree(&rt, third_behind_blanks("    abc"), 'c');
}

#[test]
fn runs_are_skipped_up_to_a_count(rt: HostRuntime) {
    agree(
        &rt,
        skip_plain("a:b: c"),
        [(false, 2), (true, 1), (true, 0)],
    );
    agree(
        &rt,
        skip_quoted("é'\\\" "),
        [(true, 1), (true, 1), (true, 2)],
    );
}

#[test]
fn plain_words_are_skipped_with_single_spaces(rt: HostRuntime) {
    agree(&rt, skip_plain_words("é b:c, d #"), [(true, 8), (true, 5)]);
    agree(&rt, skip_plain_words("a  b"), [(true, 1), (true, 1)]);
}

#[test]
fn quoted_words_are_skipped_with_single_spaces(rt: HostRuntime) {
    agree(&rt, skip_quoted_words("a é' b"), [(true, 3), (true, 6)]);
    agree(&rt, skip_quoted_words("a \\ "), [(true, 3), (true, 1)]);
}

#[test]
fn a_string_may_be_looked_at_as_far_as_can_be_counted(rt: HostRuntime) {
    agree(&rt, windows("--- \0"), (false, 128, usize::MAX));
}

#[test]
fn looking_calls_see_what_is_next(rt: HostRuntime) {
    agree(&rt, holds_at_mark("--- \0"), [true; 7]);
    agree(&rt, fails_at_mark("--- \0"), [false; 4]);
}

#[test]
fn reading_calls_go_on_to_the_end(rt: HostRuntime) {
    agree(
        &rt,
        read_through("--- \0"),
        ([true; 4], [true; 4], [true; 2]),
    );
}

#[test]
fn parts_of_a_string_are_cut_between_characters(rt: HostRuntime) {
    agree(&rt, is_cut_between_characters(), [true; 2]);
    agree(&rt, are_lent_between(), [true; 3]);
}

#[test]
fn quoted_chunks_are_lent(rt: HostRuntime) {
    agree(&rt, take_chunks(), [true; 3]);
}

#[test]
fn a_string_knows_its_comments(rt: HostRuntime) {
    let may = [may_contain_comments("aé!"), may_contain_comments("a #")];
    agree(&rt, may, [false, true]);
    assert!(rt; has_no_error("aé!"));
}

#[test]
fn what_is_not_printable_is_found(rt: HostRuntime) {
    let found = [find_unprintable("aé\n\u{7}b"), find_unprintable("aé\nb")];
    agree(&rt, found, [Some('\u{7}'), None]);
}
