//! The whole of a piece of output.
ghost use Rattle.std.specs.Prelude.{◌≡◌, OnOk, OnErr};
ghost use Rattle.std.specs.Io.KnownBytes.{Appends};
ghost use Rattle.granit_base.specs.Counts.{Rose};
ghost use Rattle.granit_events.specs.Wrote.{WroteFront};
ghost use Rattle.granit_events.specs.declared.writing.WriteEnd.TheVariants as ends;

use crate::ends::{Failed, Sink};
use granit_base::NoMemory;

/// Why an output was not written to its end.
#[derive(Clone, Copy, Debug, PartialEq, Eq)]
pub enum WriteEnd {
    Failed,
    NoMemory,
}

impl From<Failed> for WriteEnd {
    ghost from_gives = { λ _ e. e ≡ ends.Failed };

    fn from(_: Failed) -> WriteEnd {
        WriteEnd::Failed
    }
}

impl From<NoMemory> for WriteEnd {
    ghost from_gives = { λ _ e. e ≡ ends.NoMemory };

    fn from(_: NoMemory) -> WriteEnd {
        WriteEnd::NoMemory
    }
}

/// Writes all these bytes.
///
/// # Errors
///
/// `Failed`, only where the sink's count of faults rose; a front of the bytes is written then.
pub fn write_all<W: Sink>(sink: &mut W, bytes: &[u8]) -> Result<(), Failed>
    ensures whole { OnOk result (Appends (W.written sink.old) (W.written sink.new) bytes.now) }
    ensures same { OnOk result (W.faults sink.new ≡ W.faults sink.old) }
    ensures front { OnErr result (WroteFront (W.written sink.old) (W.written sink.new) bytes.now) }
    ensures failed { OnErr result (Rose (W.faults sink.old) (W.faults sink.new)) }
{
    let mut done = 0;
    'pieces: while done < bytes.len() {
        done += sink.write(&bytes[done..])?;
    }
    Ok(())
}
