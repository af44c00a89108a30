//! From a recovery behind a fault on, the text from the boundary on stands for the text.
ghost use Rattle.std.specs.Prelude.{◌≡◌, ℕ, Bool, false, List, [], Option, Some, Ok};
ghost use Rattle.granit_alone.specs.Behind.{GivesAlone, GivesAnew, GivesOn, IsOpen, TellsRest, TellsRestAlone};
ghost use Rattle.granit_alone.specs.Lines.{ComesOnward, CountsAt, LinesCount};
ghost use Rattle.granit_error.specs.OptionsData.{OptionsData};
ghost use Rattle.granit_lexemes.specs.Outcome.{Fault};
ghost use Rattle.granit_lexemes.specs.PlainEvent.{PlainEvent};
ghost use Rattle.granit_recovery.specs.Streams.{CallsGive, ReachedByCalls};
ghost use Rattle.granit_restart.specs.Calls.{Calls};
ghost use Rattle.granit_restart.specs.Recovery.{recover};
ghost use Rattle.granit_restart.specs.Skipping.{Failed, skip_by_turns, Stops};
ghost use Rattle.granit_led.specs.Alone.{TellsMoved};
ghost use Rattle.granit_led.specs.Declaring.{TellsAnew};
ghost use Rattle.granit_led.specs.Led.{Led};
ghost use Rattle.granit_shifted.specs.Shift.{moved_events, moved_fault_of, Shift};
ghost use Rattle.granit_led.specs.Stopping.{FaultFits, looked_at};
ghost use Rattle.granit_steps.specs.Steps.{StepState};

/// Turns and restarts lead wherever calls and recoveries do.
pub fn calls_that_were_reached_are_led()
    ensures { (o : OptionsData) (c : Calls) → ReachedByCalls o c → Led o c.steps }
{}

/// Where a text stands alone, calls give its events in order, then a cause of it, or nothing more behind the events of
/// its reading, with all places moved there. So they do where some of its events were dropped, and where handles stay
/// from before, by what the text tells behind one that declares them anew.
pub fn calls_give_what_their_text_tells()
    ensures all { (o : OptionsData) (x : List ℕ) (shift : Shift) (c d : Calls) (es : List PlainEvent)
        → TellsMoved o x shift c.steps → IsOpen c → CallsGive o c es d → GivesAlone o x shift [] es d }
    ensures rest { (o : OptionsData) (x : List ℕ) (shift : Shift) (c d : Calls) (before es : List PlainEvent)
        → TellsRestAlone o x shift before c.steps → IsOpen c → CallsGive o c es d → GivesAlone o x shift before es d }
    ensures anew { (o : OptionsData) (x : List ℕ) (kept : List (List ℕ × List ℕ)) (shift : Shift)
        (all : List PlainEvent) (f : Option Fault) (c d : Calls) (before es : List PlainEvent)
        → TellsAnew o kept x all f
        → TellsRest o (moved_events shift all) before (moved_fault_of shift f) c.steps → IsOpen c
        → CallsGive o c es d → GivesAnew o x kept shift before es d }
{}

/// Whatever was called before, and wherever refused reads stopped: behind a fault that was given, calls give behind an
/// answer of recovery what the text tells that is left from the boundary on, and so they do where a document is dropped
/// up to a fault. Lines count from 1. Where handles of before stay, it is what the text tells behind one that declares
/// them anew.
pub fn the_text_behind_recovery_is_read_as_its_own()
    ensures given { (o : OptionsData) (stops : Stops) (looked follows : Bool) (c d e : Calls) (f : Fault)
        (es : List PlainEvent) → ReachedByCalls o c → c.over ≡ false → c.fault ≡ Some f
        → FaultFits CountsAt o stops c.steps → recover o stops looked c ≡ (Ok follows, d) → CallsGive o d es e
        → GivesOn o stops c.steps es e }
    ensures dropping { (o : OptionsData) (stops : Stops) (looked follows : Bool) (c b d e : Calls) (f : Fault)
        (n : StepState) (es : List PlainEvent) → ReachedByCalls o c → looked_at o looked c ≡ b → IsOpen b
        → b.between ≡ false → skip_by_turns o b.steps ≡ Failed f n → FaultFits CountsAt o stops n
        → recover o stops looked c ≡ (Ok follows, d) → CallsGive o d es e → GivesOn o stops n es e }
{}

/// The same by what a parser's calls tell: lines count from 1 where reading stands, and refused reads stopped where
/// reading may have come to from there.
pub fn the_text_behind_a_parsers_recovery_is_read_as_its_own()
    ensures given { (o : OptionsData) (stops : Stops) (looked follows : Bool) (c d e : Calls) (f : Fault)
        (es : List PlainEvent) → ReachedByCalls o c → LinesCount c → c.over ≡ false → c.fault ≡ Some f
        → FaultFits ComesOnward o stops c.steps → recover o stops looked c ≡ (Ok follows, d) → CallsGive o d es e
        → GivesOn o stops c.steps es e }
    ensures dropping { (o : OptionsData) (stops : Stops) (looked follows : Bool) (c b d e : Calls) (f : Fault)
        (n : StepState) (es : List PlainEvent) → ReachedByCalls o c → looked_at o looked c ≡ b → IsOpen b
        → b.between ≡ false → LinesCount b → skip_by_turns o b.steps ≡ Failed f n → FaultFits ComesOnward o stops n
        → recover o stops looked c ≡ (Ok follows, d) → CallsGive o d es e → GivesOn o stops n es e }
{}
