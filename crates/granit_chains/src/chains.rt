//! Each recovery that tells of a document leaves less, so a chain of them ends.
ghost use Rattle.std.specs.Prelude.{◌+◌, ◌*◌, ◌≡◌, ◌<◌, ◌≤◌, ℕ, suc, true, List, Ok, Some};
ghost use Rattle.granit_alone.specs.Lines.{ComesOnward};
ghost use Rattle.granit_chains.specs.Chains.{RecoveryChain, TellsOnce, state_left};
ghost use Rattle.granit_error.specs.OptionsData.{OptionsData};
ghost use Rattle.granit_lexemes.specs.Here.{Here, text_len};
ghost use Rattle.granit_lexemes.specs.PlainEvent.{PlainEvent};
ghost use Rattle.granit_recovery.specs.Streams.{ReachedByCalls, calls_from};
ghost use Rattle.granit_restart.specs.Calls.{Calls, next_call};
ghost use Rattle.granit_restart.specs.Recovery.{resumed};
ghost use Rattle.granit_restart.specs.Skipping.{Stops};
ghost use Rattle.granit_alone.specs.Behind.{FitBehind, looked_at};
ghost use Rattle.granit_steps.specs.Steps.{StepState, step_turn};

use granit_calls::an_open_call_gives_something;

/// Each turn leaves less, whatever events it gives.
pub fn every_turn_leaves_strictly_less()
    ensures { (o : OptionsData) (s t : StepState) (es : List PlainEvent) → step_turn o s ≡ Ok (Some es, t)
        → state_left t < state_left s }
{}

/// No call leaves more, whether it gives an event, a fault or nothing.
pub fn no_call_leaves_more()
    ensures { (o : OptionsData) (c : Calls) → ReachedByCalls o c
        → state_left (next_call o c).1.steps ≤ state_left c.steps }
{}

/// Where an event was looked at, nothing else is asked of the places at which refused reads stopped.
pub fn stops_fit_behind_a_look()
    ensures { (o : OptionsData) (stops : Stops) (c after : Calls) (e : PlainEvent)
        → next_call o c ≡ (Some (Ok e), after) → FitBehind ComesOnward o stops c
        → FitBehind ComesOnward o stops (looked_at o true c) }
{}

/// Whatever was called before: where recovery told of a document, the next recovery that does leaves less, whether
/// events were taken between them or not; behind it the same holds.
pub fn each_recovery_leaves_less()
    ensures less { (o : OptionsData) (c d : Calls) → ReachedByCalls o c → c ≡ resumed c.steps → TellsOnce o c d
        → state_left d.steps < state_left c.steps }
    ensures reached { (o : OptionsData) (c d : Calls) → ReachedByCalls o c → TellsOnce o c d → ReachedByCalls o d }
    ensures resumed { (o : OptionsData) (c d : Calls) → TellsOnce o c d → d ≡ resumed d.steps }
{
    an_open_call_gives_something();
}

/// So no more recoveries one behind another tell of a document than is left where one told of it; from the start of a
/// text on they are no more than nine for each of its characters, and eleven.
pub fn no_more_recoveries_tell_than_are_left()
    ensures told { (o : OptionsData) (n : ℕ) (c d : Calls) → ReachedByCalls o c → c ≡ resumed c.steps
        → RecoveryChain o n c d → n + state_left d.steps ≤ state_left c.steps }
    ensures start { (o : OptionsData) (n : ℕ) (h : Here) (d : Calls) → RecoveryChain o n (calls_from h) d
        → n ≤ 9 * text_len h + 11 }
{
    an_open_call_gives_something();
}

/// And recovery comes to an end, whatever was called before and whatever is called between: no chain of recoveries that
/// all tell of a document goes on for ever.
pub fn recovery_comes_to_an_end()
    ensures { (o : OptionsData) (f : ℕ → Calls) → ReachedByCalls o (f 0)
        → ((n : ℕ) → TellsOnce o (f n) (f (suc n))) → ⊥ }
{
    an_open_call_gives_something();
}
