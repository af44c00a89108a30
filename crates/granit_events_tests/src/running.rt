//! How runs end, what they write, and each source and sink once.
use crate::agree::agree;
use granit_base::{NoMemory, OwnedText, TextList};
use granit_events::{
    ByteSource, MemorySink, MemorySource, PlainSink, PlainSource, ReadSource, Status, WriteSink,
    run, run_plain,
};
use std::alloc::Global;

/// One more word.
fn push_word(alloc: Global, words: &mut TextList, word: &str) -> Result<(), NoMemory> {
    words.push(OwnedText::from_str(alloc, word)?)
}

/// A list of words, where there is room.
pub(crate) fn words(alloc: Global, list: &[&str]) -> TextList {
    let mut words = TextList::new(alloc);
    for word in list {
        let _ = push_word(alloc, &mut words, word).is_ok();
    }
    words
}

/// A list of one number, where there is room.
pub(crate) fn one(alloc: Global, number: usize) -> Vec<usize> {
    let mut numbers = Vec::new(alloc);
    let _ = numbers.push(number).ok();
    numbers
}

/// A run over memory, at most so many bytes a call; `failing_read` and `failing_write` are the numbers
/// of the calls that fail, where there are such.
#[derive(Clone, Copy)]
pub(crate) struct Case {
    pub(crate) words: &'static [&'static str],
    pub(crate) bytes: &'static [u8],
    pub(crate) most: usize,
    pub(crate) failing_read: usize,
    pub(crate) failing_write: usize,
}

/// A case in which nothing fails.
pub(crate) fn over(words: &'static [&'static str], bytes: &'static [u8]) -> Case {
    Case {
        words,
        bytes,
        most: usize::MAX,
        failing_read: 0,
        failing_write: 0,
    }
}

/// Its source.
fn source(alloc: Global, case: Case) -> Option<MemorySource> {
    let bytes = Vec::from_slice(alloc, case.bytes).ok()?;
    let failing = one(alloc, case.failing_read);
    Some(MemorySource::new(bytes, case.most.max(1), failing))
}

/// Its sink.
fn sink(alloc: Global, case: Case) -> Option<MemorySink> {
    let failing = one(alloc, case.failing_write);
    MemorySink::new(alloc, 4096, case.most.max(1), failing).ok()
}

/// How many bytes of an output were written; none where others were.
fn front_of(output: &str, written: &[u8]) -> Option<usize> {
    if output.as_bytes().starts_with(written) {
        Some(written.len())
    } else {
        None
    }
}

/// How the run of a case ends between a source and a sink, and how many bytes of an output it writes; none where it
/// writes others.
fn ended<S: ByteSource>(
    alloc: Global,
    case: Case,
    source: &mut S,
    sink: &mut MemorySink,
    output: &str,
) -> (Status, Option<usize>) {
    let status = run(alloc, &words(alloc, case.words), source, sink);
    (status, front_of(output, sink.bytes()))
}

/// The same over a source.
fn outcome_over<S: ByteSource>(
    alloc: Global,
    case: Case,
    source: &mut S,
    output: &str,
) -> Option<(Status, Option<usize>)> {
    let mut sink = sink(alloc, case)?;
    Some(ended(alloc, case, source, &mut sink, output))
}

/// The same over its own source.
pub(crate) fn outcome(alloc: Global, case: Case, output: &str) -> Option<(Status, Option<usize>)> {
    let mut source = source(alloc, case)?;
    outcome_over(alloc, case, &mut source, output)
}

/// How the run of a case ends, where it writes that output.
fn end_of(alloc: Global, case: Case, output: &str) -> Option<Status> {
    let (status, written) = outcome(alloc, case, output)?;
    if written == Some(output.len()) {
        Some(status)
    } else {
        None
    }
}

const EVENTS: &[&str] = &["events"];

const EMPTY: &str = "StreamStart 0:1:1-0:1:1\nStreamEnd 0:1:1-0:1:1\n";

const PAIR: &[u8] = b"--- {? \"a\" : \"b\"}\n";

const PAIR_LINES: &str = "StreamStart 0:1:1-0:1:1\n\
     DocumentStart explicit 0:1:1-3:1:4\n\
     MappingStart flow 4:1:5-5:1:6\n\
     Scalar double \"a\" 7:1:8-10:1:11\n\
     Scalar double \"b\" 13:1:14-16:1:17\n\
     MappingEnd 16:1:17-17:1:18\n\
     DocumentEnd 17:1:18-17:1:18\n\
     StreamEnd 18:2:1-18:2:1\n";

const UNCLOSED: &str = "fault 2: unclosed bracket '[' at char 4 line 1 column 5\n";

const ESCAPED: &str = "StreamStart 0:1:1-0:1:1\n\
     DocumentStart explicit 0:1:1-3:1:4\n\
     Scalar double \"~\\t\\u{e9}\\u{1f600}\" 4:1:5-10:1:11\n\
     DocumentEnd 10:1:11-10:1:11\n\
     StreamEnd 10:1:11-10:1:11\n";

/// How runs end that print what came.
fn whole_runs(alloc: Global) -> [Option<Status>; 4] {
    let escapes = b"--- \"~\t\xc3\xa9\xf0\x9f\x98\x80\"";
    [
        end_of(alloc, over(EVENTS, b""), EMPTY),
        end_of(alloc, over(EVENTS, PAIR), PAIR_LINES),
        end_of(alloc, over(EVENTS, b"--- [\n"), UNCLOSED),
        end_of(alloc, over(EVENTS, escapes), ESCAPED),
    ]
}

#[test]
fn prints_what_came(rt: HostRuntime) {
    let (done, fault) = (Some(Status::Done), Some(Status::Fault));
    agree(&rt, whole_runs(rt.alloc()), [done, done, fault, done]);
}

/// How runs end that say what is wrong.
fn wrong_runs(alloc: Global) -> [Option<Status>; 4] {
    let (first, second) = ("usage: word 1\n", "usage: word 2\n");
    [
        end_of(alloc, over(EVENTS, b"a\xff"), "not UTF-8 after 1 bytes\n"),
        end_of(alloc, over(&[], b"a"), first),
        end_of(alloc, over(&["event"], b"a"), first),
        end_of(alloc, over(&["events", "x"], b"a"), second),
    ]
}

#[test]
fn prints_what_is_wrong(rt: HostRuntime) {
    let (usage, not_utf8) = (Some(Status::Usage), Some(Status::NotUtf8));
    agree(&rt, wrong_runs(rt.alloc()), [not_utf8, usage, usage, usage]);
}

const UNRESOLVED: &str = "StreamStart 0:1:1-0:1:1\n\
     DocumentStart implicit 0:1:1-2:1:3\n\
     UnresolvedAlias \"x\" 0:1:1-2:1:3\n\
     DocumentEnd 2:1:3-2:1:3\n\
     StreamEnd 2:1:3-2:1:3\n";

const DEEP: &str = "fault 5: recursion limit exceeded at char 0 line 1 column 1\n";

/// How runs with options end.
fn runs_with_options(alloc: Global) -> [Option<Status>; 3] {
    let unresolved = over(&["events", "unresolved=on"], b"*x");
    let deep = over(&["events", "flow-limit=0", "strict=on"], b"[a]");
    let twice = over(&["events", "comments=on", "comments=off"], b"a");
    [
        end_of(alloc, unresolved, UNRESOLVED),
        end_of(alloc, deep, DEEP),
        end_of(alloc, twice, "usage: word 3\n"),
    ]
}

#[test]
fn reads_its_words(rt: HostRuntime) {
    let ends = [Some(Status::Done), Some(Status::Fault), Some(Status::Usage)];
    agree(&rt, runs_with_options(rt.alloc()), ends);
}

/// How runs end of which the source fails, or is slow.
fn slow_and_unread(alloc: Global) -> [Option<Status>; 2] {
    let slow = Case {
        most: 1,
        ..over(EVENTS, PAIR)
    };
    let read = Case {
        most: 1,
        failing_read: 2,
        ..over(EVENTS, b"aa")
    };
    [end_of(alloc, slow, PAIR_LINES), end_of(alloc, read, "")]
}

/// How runs end of which the sink fails.
fn unwritten(alloc: Global) -> [Option<Status>; 3] {
    let write = Case {
        failing_write: 1,
        ..over(EVENTS, PAIR)
    };
    let later = Case {
        most: 5,
        failing_write: 3,
        ..over(EVENTS, PAIR)
    };
    let of_nothing = Case {
        failing_write: 1,
        ..over(EVENTS, b"")
    };
    [
        end_of(alloc, write, ""),
        end_of(alloc, later, "StreamStar"),
        end_of(alloc, of_nothing, ""),
    ]
}

#[test]
fn fails_where_the_outside_does(rt: HostRuntime) {
    let reads = [Some(Status::Done), Some(Status::ReadFault)];
    agree(&rt, slow_and_unread(rt.alloc()), reads);
    agree(&rt, unwritten(rt.alloc()), [Some(Status::WriteFault); 3]);
}

/// How a run ends that hands on bytes and takes all lines.
fn plain_status(alloc: Global, bytes: Vec<u8>) -> Status {
    let (mut source, mut sink) = (PlainSource::new(bytes), PlainSink::new());
    run_plain(alloc, &words(alloc, EVENTS), &mut source, &mut sink)
}

/// So many spaces.
fn spaces(alloc: Global, count: usize) -> Result<Vec<u8>, NoMemory> {
    Ok(vec![in alloc; b' '; count]?)
}

/// How such a run ends over three spaces.
fn plain_status_of_spaces(alloc: Global) -> Option<Status> {
    let bytes = spaces(alloc, 3).ok()?;
    Some(plain_status(alloc, bytes))
}

/// How a run over so many spaces ends, and how many bytes of an output it writes.
fn over_spaces(alloc: Global, count: usize, output: &str) -> Option<(Status, Option<usize>)> {
    let mut source = PlainSource::new(spaces(alloc, count).ok()?);
    outcome_over(alloc, over(EVENTS, b""), &mut source, output)
}

#[test]
fn stops_at_the_limit(rt: HostRuntime) {
    let alloc = rt.alloc();
    agree(
        &rt,
        over_spaces(alloc, 67_108_865, "input too long\n"),
        Some((Status::TooLong, Some(15))),
    );
    agree(&rt, plain_status_of_spaces(alloc), Some(Status::Done));
}

/// The code of a run through std's traits, and how many bytes of an output it writes.
fn through_std(alloc: Global, bytes: &[u8], output: &str) -> (u8, Option<usize>) {
    let mut written = Vec::new(alloc);
    let code = code_through_std(alloc, bytes, &mut written);
    (code, front_of(output, written.as_slice()))
}

/// Its code.
fn code_through_std(alloc: Global, bytes: &[u8], written: &mut Vec<u8>) -> u8 {
    let list = words(alloc, EVENTS);
    let mut source = ReadSource::new(bytes);
    let status = run(alloc, &list, &mut source, &mut WriteSink::new(written));
    status.code()
}

#[test]
fn reads_and_writes_through_std(rt: HostRuntime) {
    agree(
        &rt,
        through_std(rt.alloc(), PAIR, PAIR_LINES),
        (0, Some(PAIR_LINES.len())),
    );
}
