//! All that the program does.
ghost use Rattle.std.specs.Prelude.{◌≡◌, ℕ, ◌⊎◌, List, Some};
ghost use Rattle.std.specs.Io.KnownBytes.{IsAtEnd, Keeps};
ghost use Rattle.granit_base.specs.Counts.{Rose};
ghost use Rattle.granit_events.specs.Ended.{AreRight, AreWrongAt, CallsFor, Ended, Fixes, IsOrYields, ReadsAll};
ghost use Rattle.granit_events.specs.Output.{CutOutput, WholeOutput};
ghost use Rattle.granit_events.specs.Ran.{Ran, end_of};
ghost use Rattle.granit_words.specs.Asking.{BeginSelftest};
ghost use Rattle.granit_events.specs.Tested.{Tested};
ghost use Rattle.granit_events.specs.declared.status.Status.{Status};
ghost use Rattle.granit_events.specs.declared.status.Status.TheVariants as status;

use crate::answering::respond;
use crate::ends::{ByteSource, Sink};
use crate::input::{InputEnd, take_input};
use crate::plain::{PlainSink, PlainSource};
use crate::status::Status;
use crate::testing::selftest;
use crate::writing::WriteEnd;
use granit_base::TextList;
use granit_words::begin_selftest;
use std::alloc::Global;

/// What `run` does on the words of `events` and on wrong ones. Its contract speaks of the plain machine; that of `run`
/// also of the text.
pub(crate) fn run_once<S: ByteSource, W: Sink>(
    alloc: Global,
    words: &TextList,
    source: &mut S,
    sink: &mut W,
) -> Status
    ensures ended { Fixes result → WholeOutput (Ended words.now (S.left source.old) (S.left source.new))
        (W.written sink.old) (W.written sink.new) result }
    ensures read_fault { result ≡ status.ReadFault
        → AreRight words.now × Keeps (W.written sink.old) (W.written sink.new)
        × Rose (S.faults source.old) (S.faults source.new) }
    ensures write_fault { result ≡ status.WriteFault
        → CutOutput (Ended words.now (S.left source.old) (S.left source.new)) (W.written sink.old) (W.written sink.new)
        × Rose (W.faults sink.old) (W.faults sink.new) }
    ensures no_memory { result ≡ status.NoMemory
        → Keeps (W.written sink.old) (W.written sink.new)
        ⊎ CutOutput (Ended words.now (S.left source.old) (S.left source.new)) (W.written sink.old)
        (W.written sink.new) }
    ensures source_count { (result ≡ status.ReadFault → ⊥) → S.faults source.new ≡ S.faults source.old }
    ensures sink_count { (result ≡ status.WriteFault → ⊥) → W.faults sink.new ≡ W.faults sink.old }
    ensures none_left { ReadsAll result → IsAtEnd (S.left source.new) }
    ensures unread { (k : ℕ) → AreWrongAt words.now k → source.new ≡ source.old }
    ensures usage { (k : ℕ) → AreWrongAt words.now k → IsOrYields status.Usage result }
    ensures exactly { (bytes : List ℕ) (wanted : Status) → S.left source.old ≡ Some bytes
        → CallsFor words.now bytes wanted → IsOrYields wanted result }
{
    let input = match take_input(alloc, words, source) {
        Ok(input) => input,
        Err(InputEnd::Failed) => return Status::ReadFault,
        Err(InputEnd::NoMemory) => return Status::NoMemory,
    };
    match respond(alloc, &input, sink) {
        Ok(status) => status,
        Err(WriteEnd::Failed) => Status::WriteFault,
        Err(WriteEnd::NoMemory) => Status::NoMemory,
    }
}

/// Reads the words and then the source, and writes the lines of the events, of the fault, or of what is wrong with the
/// words or the bytes. On the words `selftest SEED SIZE` it reads nothing, and writes the numbers of generated trees,
/// of their text and of its events.
///
/// The contract where the first word isn't `selftest`, `Ran`: each status names its cause and fixes the output (`ended`
/// and what stands behind it), and which status the words and bytes call for (`usage`, `exactly`). Events that were
/// printed are, comments aside, those of the one reading of the text (`read`), a fault is a cause of the text
/// (`caused`), a text with a reading is answered (`answered`), and one with a cause is refused with it (`refused`),
/// canonical text of trees and JSON text with the lines of their events (`known`), canonical block text with lines of
/// events that are the same but for the styles of collections and for spans (`layout`). Wrong words leave the source
/// as it was.
///
/// Where it is `selftest`, `Tested`: each status fixes the output, and the line has the numbers of the definitions
/// (`ended`); which status the words call for (`usage`, `right`); no status comes but Done, Usage, WriteFault and
/// NoMemory (`may`), and the source is left as it was (`unread`).
pub fn run<S: ByteSource, W: Sink>(
    alloc: Global,
    words: &TextList,
    source: &mut S,
    sink: &mut W,
) -> Status
    ensures ran { (BeginSelftest words.now → ⊥)
        → Ran words.now (end_of S.left S.faults source.old) (end_of S.left S.faults source.new)
        (end_of W.written W.faults sink.old) (end_of W.written W.faults sink.new) result }
    ensures tested { BeginSelftest words.now
        → Tested words.now (end_of S.left S.faults source.old) (end_of S.left S.faults source.new)
        (end_of W.written W.faults sink.old) (end_of W.written W.faults sink.new) result }
    ensures unread { (k : ℕ) → AreWrongAt words.now k → source.new ≡ source.old }
{
    if begin_selftest(words) {
        return selftest(alloc, words, sink);
    }
    run_once(alloc, words, source, sink)
}

/// The same over a source and a sink that never fail.
pub fn run_plain(
    alloc: Global,
    words: &TextList,
    source: &mut PlainSource,
    sink: &mut PlainSink,
) -> Status
    ensures never_read_fault { result ≡ status.ReadFault → ⊥ }
    ensures never_write_fault { result ≡ status.WriteFault → ⊥ }
    ensures ran { (BeginSelftest words.now → ⊥)
        → Ran words.now (end_of ⟦<PlainSource as ByteSource>⟧.left ⟦<PlainSource as ByteSource>⟧.faults source.old)
        (end_of ⟦<PlainSource as ByteSource>⟧.left ⟦<PlainSource as ByteSource>⟧.faults source.new)
        (end_of ⟦<PlainSink as Sink>⟧.written ⟦<PlainSink as Sink>⟧.faults sink.old)
        (end_of ⟦<PlainSink as Sink>⟧.written ⟦<PlainSink as Sink>⟧.faults sink.new) result }
    ensures tested { BeginSelftest words.now
        → Tested words.now (end_of ⟦<PlainSource as ByteSource>⟧.left ⟦<PlainSource as ByteSource>⟧.faults source.old)
        (end_of ⟦<PlainSource as ByteSource>⟧.left ⟦<PlainSource as ByteSource>⟧.faults source.new)
        (end_of ⟦<PlainSink as Sink>⟧.written ⟦<PlainSink as Sink>⟧.faults sink.old)
        (end_of ⟦<PlainSink as Sink>⟧.written ⟦<PlainSink as Sink>⟧.faults sink.new) result }
    ensures unread { (k : ℕ) → AreWrongAt words.now k → source.new ≡ source.old }
{
    run(alloc, words, source, sink)
}
