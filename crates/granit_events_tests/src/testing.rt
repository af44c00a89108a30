//! `selftest`: its line beside what the calls answer whose numbers it prints, wrong words and a failing sink.
use crate::agree::agree;
use crate::running::{one, words};
use granit_error::Options;
use granit_events::{MemorySink, MemorySource, Status, run};
use granit_generator::{node_count, trees_from};
use granit_load::load_str;
use granit_model::{TreeList, fits, flow_text};
use std::alloc::Global;

/// A source whose first call fails.
fn failing_source(alloc: Global) -> MemorySource {
    MemorySource::new(Vec::new(alloc), 1, one(alloc, 1))
}

/// How a run on words ends over such a source, and whether it writes that.
fn outcome(alloc: Global, list: &[&str], sink: &mut MemorySink, output: &str) -> (Status, bool) {
    let mut source = failing_source(alloc);
    let status = run(alloc, &words(alloc, list), &mut source, sink);
    (status, sink.bytes() == output.as_bytes())
}

/// The same with a sink that takes five bytes a call; `failing` is the number of the call that fails, where there is
/// one.
fn ended(alloc: Global, words: &[&str], failing: usize, output: &str) -> Option<(Status, bool)> {
    let failing = one(alloc, failing);
    let mut sink = MemorySink::new(alloc, 4096, 5, failing).ok()?;
    Some(outcome(alloc, words, &mut sink, output))
}

/// Whether such a run ends so and writes that.
fn ends(rt: &HostRuntime, words: &[&str], failing: usize, status: Status, output: &str) -> bool {
    ended(rt.alloc(), words, failing, output) == Some((status, true))
}

/// Whether a run on words ends as it should where nothing fails.
fn prints(rt: &HostRuntime, words: &[&str], output: &str) -> bool {
    ends(rt, words, 0, Status::Done, output)
}

/// Whether these words are wrong from that one on.
fn is_wrong(rt: &HostRuntime, words: &[&str], output: &str) -> bool {
    ends(rt, words, 0, Status::Usage, output)
}

/// Whether a run whose sink fails in that call has written that.
fn fails(rt: &HostRuntime, call: usize, output: &str) -> bool {
    ends(
        rt,
        &["selftest", "0", "1"],
        call,
        Status::WriteFault,
        output,
    )
}

/// How many events a text has.
fn event_count(alloc: Global, text: &str) -> Option<usize> {
    let events = load_str(alloc, text, Options::default()).ok()?;
    Some(events.len())
}

/// How many documents and nodes trees have.
fn tree_counts(trees: &TreeList) -> Option<[usize; 2]> {
    Some([trees.len(), node_count(trees).ok()?])
}

/// How many bytes and events their text has, where they fit.
fn text_counts(alloc: Global, trees: &TreeList) -> Option<[usize; 2]> {
    if !fits(trees) {
        return None;
    }
    let text = flow_text(alloc, trees).ok()?;
    Some([text.as_str().len(), event_count(alloc, text.as_str())?])
}

/// All four of generated trees.
fn counts(alloc: Global, seed: u32, size: u32) -> Option<[usize; 4]> {
    let trees = trees_from(alloc, seed, size).ok()?;
    let [documents, nodes] = tree_counts(&trees)?;
    let [bytes, events] = text_counts(alloc, &trees)?;
    Some([documents, nodes, bytes, events])
}

#[test]
fn prints_the_numbers_of_trees(rt: HostRuntime) {
    let one = "documents 1 nodes 1 bytes 7 events 6\n";
    let none = "documents 0 nodes 0 bytes 0 events 2\n";
    let many = "documents 1000 nodes 9296 bytes 66693 events 15010\n";
    let given = [
        prints(&rt, &["selftest", "0", "1"], one),
        prints(&rt, &["selftest", "999999999", "0"], none),
        prints(&rt, &["selftest", "7", "1000"], many),
        prints(&rt, &["selftest", "7", "1000"], many),
    ];
    agree(&rt, given, [true; 4]);
    // the same numbers by the calls that they are of
    let counted = [counts(rt.alloc(), 0, 1), counts(rt.alloc(), 7, 1000)];
    let wanted = [Some([1, 1, 7, 6]), Some([1000, 9296, 66693, 15010])];
    agree(&rt, counted, wanted);
}

#[test]
fn names_the_first_wrong_word(rt: HostRuntime) {
    let second = "usage: word 2\n";
    let third = "usage: word 3\n";
    let given = [
        is_wrong(&rt, &["selftest"], second),
        is_wrong(&rt, &["selftest", "01", "x"], second),
        is_wrong(&rt, &["selftest", "1000000000", "1"], second),
        is_wrong(&rt, &["selftest", "0"], third),
        is_wrong(&rt, &["selftest", "0", "00"], third),
        is_wrong(&rt, &["selftest", "0", "100001"], third),
        is_wrong(&rt, &["selftest", "0", "1", "1"], "usage: word 4\n"),
        is_wrong(&rt, &["selftests", "0", "1"], "usage: word 1\n"),
    ];
    agree(&rt, given, [true; 8]);
}

#[test]
fn leaves_a_front_where_the_sink_fails(rt: HostRuntime) {
    let given = [
        fails(&rt, 1, ""),
        fails(&rt, 2, "docum"),
        fails(&rt, 3, "documents "),
    ];
    agree(&rt, given, [true; 3]);
}
