//! What is printed on the words `selftest SEED SIZE`.
ghost use Rattle.std.specs.Prelude.{◌≡◌, IfOk, string_bytes};
ghost use Rattle.std.specs.Io.KnownBytes.{Keeps};
ghost use Rattle.granit_base.specs.Counts.{Rose};
ghost use Rattle.granit_events.specs.Ended.{Fixes};
ghost use Rattle.granit_events.specs.Output.{CutOutput, WholeOutput};
ghost use Rattle.granit_events.specs.SelfTest.{SelfTests};
ghost use Rattle.granit_events.specs.Tested.{MayEnd};
ghost use Rattle.granit_events.specs.declared.status.Status.TheVariants as status;

use crate::counting::selftest_line;
use crate::ends::Sink;
use crate::saying;
use crate::status::Status;
use crate::writing::write_all;
use granit_base::{NoMemory, TextList};
use granit_words::read_asked;
use std::alloc::Global;

/// The status and the line that the words call for.
fn called_for(alloc: Global, words: &TextList) -> Result<(Status, String), NoMemory>
    ensures { IfOk result (λ a. SelfTests words.now a.0 (string_bytes a.1)) }
{
    match read_asked(words) {
        Ok((seed, size)) => Ok((Status::Done, selftest_line(alloc, seed, size)?)),
        Err(number) => Ok((Status::Usage, saying::usage(alloc, number)?)),
    }
}

/// Prints the line of the trees that the words ask for, or what is wrong with the words.
pub fn selftest<W: Sink>(alloc: Global, words: &TextList, sink: &mut W) -> Status
    ensures may { MayEnd result }
    ensures ended { Fixes result → WholeOutput (SelfTests words.now) (W.written sink.old) (W.written sink.new) result }
    ensures write_fault { result ≡ status.WriteFault
        → CutOutput (SelfTests words.now) (W.written sink.old) (W.written sink.new)
        × Rose (W.faults sink.old) (W.faults sink.new) }
    ensures no_memory { result ≡ status.NoMemory → Keeps (W.written sink.old) (W.written sink.new) }
    ensures sink_count { (result ≡ status.WriteFault → ⊥) → W.faults sink.new ≡ W.faults sink.old }
{
    let Ok((status, line)) = called_for(alloc, words) else {
        return Status::NoMemory;
    };
    match write_all(sink, line.as_bytes()) {
        Ok(()) => status,
        Err(_) => Status::WriteFault,
    }
}
