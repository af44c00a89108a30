//! Sources and sinks that move a byte a call and fail at each call in turn.
use crate::agree::agree;
use crate::running::{Case, outcome, over};
use granit_events::Status;
use std::alloc::Global;

const EVENTS: &[&str] = &["events"];

/// The worked example of blocks, its 21 bytes.
const BLOCKS: &[u8] = b"a: b\nc:\n- d\n- {e: f}\n";

const BLOCK_LINES: &str = "StreamStart 0:1:1-0:1:1\n\
     DocumentStart implicit 0:1:1-0:1:1\n\
     MappingStart block 0:1:1-0:1:1\n\
     Scalar plain \"a\" 0:1:1-1:1:2\n\
     Scalar plain \"b\" 3:1:4-4:1:5\n\
     Scalar plain \"c\" 5:2:1-6:2:2\n\
     SequenceStart block 10:3:3-10:3:3\n\
     Scalar plain \"d\" 10:3:3-11:3:4\n\
     MappingStart flow 14:4:3-15:4:4\n\
     Scalar plain \"e\" 15:4:4-16:4:5\n\
     Scalar plain \"f\" 18:4:7-19:4:8\n\
     MappingEnd 19:4:8-20:4:9\n\
     SequenceEnd 21:5:1-21:5:1\n\
     MappingEnd 21:5:1-21:5:1\n\
     DocumentEnd 21:5:1-21:5:1\n\
     StreamEnd 21:5:1-21:5:1\n";

/// A run over the example, a byte a call; of the numbers of the calls that fail 0 is none.
fn bytewise(failing_read: usize, failing_write: usize) -> Case {
    Case {
        most: 1,
        failing_read,
        failing_write,
        ..over(EVENTS, BLOCKS)
    }
}

/// How many bytes of the lines were written before a sink failed; none where the run ended otherwise.
fn front(alloc: Global, case: Case) -> Option<usize> {
    match outcome(alloc, case, BLOCK_LINES) {
        Some((Status::WriteFault, written)) => written,
        _ => None,
    }
}

/// The first number of bytes behind which a failed write isn't told with exactly these written.
fn writes_that_fail(alloc: Global) -> usize {
    for done in 0..BLOCK_LINES.len() {
        if front(alloc, bytewise(0, done + 1)) != Some(done) {
            return done;
        }
    }
    BLOCK_LINES.len()
}

/// The first number of reads behind which a failed one isn't told with nothing written.
fn reads_that_fail(alloc: Global, most: usize) -> usize {
    for done in 0..100 {
        let case = Case {
            most,
            ..bytewise(done + 1, 0)
        };
        if outcome(alloc, case, "") != Some((Status::ReadFault, Some(0))) {
            return done;
        }
    }
    100
}

#[test]
fn a_byte_a_call(rt: HostRuntime) {
    let later = bytewise(23, BLOCK_LINES.len() + 1);
    let ends = [
        outcome(rt.alloc(), bytewise(0, 0), BLOCK_LINES),
        outcome(rt.alloc(), later, BLOCK_LINES),
    ];
    let whole = Some((Status::Done, Some(BLOCK_LINES.len())));
    agree(&rt, ends, [whole, whole]);
}

#[test]
fn each_write_may_fail(rt: HostRuntime) {
    agree(&rt, writes_that_fail(rt.alloc()), BLOCK_LINES.len());
}

#[test]
fn each_read_may_fail(rt: HostRuntime) {
    let reads = [
        reads_that_fail(rt.alloc(), 1),
        reads_that_fail(rt.alloc(), 5),
        reads_that_fail(rt.alloc(), usize::MAX),
    ];
    // the last call finds the end
    agree(&rt, reads, [22, 6, 2]);
}
