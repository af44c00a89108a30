//! A stream goes on behind recovery.
ghost use Rattle.std.specs.Prelude.{◌≡◌, Bool, false, List, None, Ok};
ghost use Rattle.granit_error.specs.OptionsData.{OptionsData};
ghost use Rattle.granit_lexemes.specs.PlainEvent.{PlainEvent};
ghost use Rattle.granit_restart.specs.Calls.{Calls, next_call};
ghost use Rattle.granit_restart.specs.Recovery.{recover};
ghost use Rattle.granit_restart.specs.Skipping.{Stops};
ghost use Rattle.granit_recovery.specs.Streams.{GoesOnBalanced, CallsGive, ReachedByCalls};

/// Whatever was called before: the events behind an answer of recovery begin what follows the start of a balanced
/// stream, and none of them begins a stream.
pub fn a_stream_goes_on_behind_recovery()
    ensures { (o : OptionsData) (stops : Stops) (looked follows : Bool) (c d after : Calls)
        (es : List PlainEvent) → ReachedByCalls o c → recover o stops looked c ≡ (Ok follows, d)
        → CallsGive o d es after
        → GoesOnBalanced es }
{}

/// Whatever was called before: where no call failed, recovery wasn't refused and the end of the stream wasn't given,
/// the next call gives an event or a fault.
pub fn an_open_call_gives_something()
    ensures { (o : OptionsData) (c : Calls) → ReachedByCalls o c → c.over ≡ false → c.fault ≡ None → c.refusal ≡ None
        → (next_call o c).0 ≡ None → ⊥ }
{}
