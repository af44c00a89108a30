//! The run on the words of the program.
ghost use Rattle.granit_events.specs.Ran.{end_of};
ghost use Rattle.granit.specs.Program.{Exits, RanOn};

use crate::arguments::{Arguments, words};
use granit_events::{ByteSource, Sink, Status, run};
use std::alloc::Global;
use std::process::ExitCode;

/// How the run on the words behind the program's name ends. Want of memory for the words is want of
/// memory for all.
fn run_on_words<A: Arguments, S: ByteSource, W: Sink>(
    alloc: Global,
    arguments: &A,
    source: &mut S,
    sink: &mut W,
) -> Status
    ensures { RanOn (A.all arguments.now) (end_of S.left S.faults source.old) (end_of S.left S.faults source.new)
        (end_of W.written W.faults sink.old) (end_of W.written W.faults sink.new) result }
{
    match words(alloc, arguments) {
        Ok(words) => run(alloc, &words, source, sink),
        Err(_) => Status::NoMemory,
    }
}

/// The exit code of that run.
pub fn run_on_arguments<A: Arguments, S: ByteSource, W: Sink>(
    alloc: Global,
    arguments: &A,
    source: &mut S,
    sink: &mut W,
) -> ExitCode
    ensures { Exits (A.all arguments.now) (end_of S.left S.faults source.old) (end_of S.left S.faults source.new)
        (end_of W.written W.faults sink.old) (end_of W.written W.faults sink.new) result }
{
    let status = run_on_words(alloc, arguments, source, sink);
    ExitCode::from(status.code())
}
