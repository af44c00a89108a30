//! What is printed for the whole bytes of an input.
ghost use Rattle.std.specs.Prelude.{◌≡◌, Err, IfOk, OnOk, OnErr};
ghost use Rattle.std.specs.Io.KnownBytes.{Appends};
ghost use Rattle.granit_base.specs.Counts.{Rose};
ghost use Rattle.granit_error.specs.FaultKind.{wants_memory};
ghost use Rattle.granit_error.specs.OptionsView.{options_of};
ghost use Rattle.granit_lexemes.specs.Line.{fault_line};
ghost use Rattle.granit_words.specs.Words.{usage_line};
ghost use Rattle.granit_events.specs.Ended.{Answers, not_utf8_line};
ghost use Rattle.granit_events.specs.Inputs.{Responds};
ghost use Rattle.granit_events.specs.Output.{CutOutput, WholeOutput};
ghost use Rattle.granit_events.specs.Wrote.{WroteFront};
ghost use Rattle.granit_events.specs.declared.writing.WriteEnd.TheVariants as ends;

use crate::ends::Sink;
use crate::input::Request;
use crate::saying;
use crate::status::Status;
use crate::writing::{WriteEnd, write_all};
use granit_error::{ErrorKind, Options, ScanError};
use granit_load::load_lines;
use std::alloc::Global;

/// Whether memory ran out.
fn ran_out(error: &ScanError) -> bool
    ensures { result ≡ wants_memory error.now.kind }
{
    error.kind().number() == ErrorKind::NoMemory.number()
}

/// Prints the line of a fault.
fn print_fault<W: Sink>(alloc: Global, sink: &mut W, error: &ScanError) -> Result<(), WriteEnd>
    ensures whole { OnOk result (Appends (W.written sink.old) (W.written sink.new) (fault_line error.now)) }
    ensures same { OnOk result (W.faults sink.new ≡ W.faults sink.old) }
    ensures front { OnErr result (WroteFront (W.written sink.old) (W.written sink.new) (fault_line error.now)) }
    ensures failed { result ≡ Err ends.Failed → Rose (W.faults sink.old) (W.faults sink.new) }
    ensures no_memory { result ≡ Err ends.NoMemory → W.faults sink.new ≡ W.faults sink.old }
{
    let line = saying::fault(alloc, error)?;
    write_all(sink, line.as_bytes())?;
    Ok(())
}

/// Prints that the bytes behind the first `valid` ones aren't UTF-8.
fn print_not_utf8<W: Sink>(alloc: Global, sink: &mut W, valid: usize) -> Result<(), WriteEnd>
    ensures whole { OnOk result (Appends (W.written sink.old) (W.written sink.new) (not_utf8_line valid)) }
    ensures same { OnOk result (W.faults sink.new ≡ W.faults sink.old) }
    ensures front { OnErr result (WroteFront (W.written sink.old) (W.written sink.new) (not_utf8_line valid)) }
    ensures failed { result ≡ Err ends.Failed → Rose (W.faults sink.old) (W.faults sink.new) }
    ensures no_memory { result ≡ Err ends.NoMemory → W.faults sink.new ≡ W.faults sink.old }
{
    let line = saying::not_utf8(alloc, valid)?;
    write_all(sink, line.as_bytes())?;
    Ok(())
}

/// Prints the events of a text, or its fault.
fn answer_text<W: Sink>(
    alloc: Global,
    options: Options,
    text: &str,
    sink: &mut W,
) -> Result<Status, WriteEnd>
    ensures whole { IfOk result (λ s. WholeOutput (Answers (options_of options) text.now) (W.written sink.old)
        (W.written sink.new) s) }
    ensures same { OnOk result (W.faults sink.new ≡ W.faults sink.old) }
    ensures cut { OnErr result (CutOutput (Answers (options_of options) text.now) (W.written sink.old)
        (W.written sink.new)) }
    ensures failed { result ≡ Err ends.Failed → Rose (W.faults sink.old) (W.faults sink.new) }
    ensures no_memory { result ≡ Err ends.NoMemory → W.faults sink.new ≡ W.faults sink.old }
{
    match load_lines(alloc, text, options) {
        Ok(page) => {
            write_all(sink, page.as_slice())?;
            Ok(Status::Done)
        }
        Err(error) => {
            if ran_out(&error) {
                return Err(WriteEnd::NoMemory);
            }
            print_fault(alloc, sink, &error)?;
            Ok(Status::Fault)
        }
    }
}

/// Prints what the whole bytes of an input call for.
///
/// # Errors
///
/// `Failed`, only where the sink's count of faults rose, and `NoMemory`; a front of the output is
/// written then.
pub fn answer<W: Sink>(
    alloc: Global,
    options: Options,
    bytes: &[u8],
    sink: &mut W,
) -> Result<Status, WriteEnd>
    ensures whole { IfOk result (λ s. WholeOutput (Answers (options_of options) bytes.now) (W.written sink.old)
        (W.written sink.new) s) }
    ensures same { OnOk result (W.faults sink.new ≡ W.faults sink.old) }
    ensures cut { OnErr result (CutOutput (Answers (options_of options) bytes.now) (W.written sink.old)
        (W.written sink.new)) }
    ensures failed { result ≡ Err ends.Failed → Rose (W.faults sink.old) (W.faults sink.new) }
    ensures no_memory { result ≡ Err ends.NoMemory → W.faults sink.new ≡ W.faults sink.old }
{
    match str::from_utf8(bytes) {
        Ok(text) => answer_text(alloc, options, text, sink),
        Err(error) => {
            print_not_utf8(alloc, sink, error.valid_up_to())?;
            Ok(Status::NotUtf8)
        }
    }
}

/// Prints that a word is wrong.
fn print_usage<W: Sink>(alloc: Global, sink: &mut W, number: usize) -> Result<(), WriteEnd>
    ensures whole { OnOk result (Appends (W.written sink.old) (W.written sink.new) (usage_line number)) }
    ensures same { OnOk result (W.faults sink.new ≡ W.faults sink.old) }
    ensures front { OnErr result (WroteFront (W.written sink.old) (W.written sink.new) (usage_line number)) }
    ensures failed { result ≡ Err ends.Failed → Rose (W.faults sink.old) (W.faults sink.new) }
    ensures no_memory { result ≡ Err ends.NoMemory → W.faults sink.new ≡ W.faults sink.old }
{
    let line = saying::usage(alloc, number)?;
    write_all(sink, line.as_bytes())?;
    Ok(())
}

/// Prints what an input calls for.
///
/// # Errors
///
/// `Failed`, only where the sink's count of faults rose, and `NoMemory`; a front of the output is
/// written then.
pub fn respond<W: Sink>(alloc: Global, input: &Request, sink: &mut W) -> Result<Status, WriteEnd>
    ensures whole { IfOk result (λ s. WholeOutput (Responds input.now) (W.written sink.old) (W.written sink.new) s) }
    ensures same { OnOk result (W.faults sink.new ≡ W.faults sink.old) }
    ensures cut { OnErr result (CutOutput (Responds input.now) (W.written sink.old) (W.written sink.new)) }
    ensures failed { result ≡ Err ends.Failed → Rose (W.faults sink.old) (W.faults sink.new) }
    ensures no_memory { result ≡ Err ends.NoMemory → W.faults sink.new ≡ W.faults sink.old }
{
    match input {
        Request::WrongWord(number) => {
            print_usage(alloc, sink, *number)?;
            Ok(Status::Usage)
        }
        Request::TooLong => {
            write_all(sink, b"input too long\n")?;
            Ok(Status::TooLong)
        }
        Request::Whole(bytes, options) => answer(alloc, *options, bytes, sink),
    }
}
