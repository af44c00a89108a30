//! Where recovery asks whether another document is there, a look ahead tells it.
ghost use Rattle.std.specs.Prelude.{◌≡◌, ℕ, suc, true, false, Some, Ok};
ghost use Rattle.granit_error.specs.OptionsData.{OptionsData};
ghost use Rattle.granit_lexemes.specs.PlainEvent.{PlainEvent};
ghost use Rattle.granit_calls.specs.Asking.{LookTells};
ghost use Rattle.granit_recovery.specs.Streams.{ReachedByCalls};
ghost use Rattle.granit_restart.specs.Ahead.{is_note};
ghost use Rattle.granit_restart.specs.Calls.{Calls, next_call};
ghost use Rattle.granit_restart.specs.Following.{document_follows};
ghost use Rattle.granit_restart.specs.Recovery.{looked_by, skipped};
ghost use Rattle.granit_restart.specs.Skipping.{Stops};
ghost use Rattle.granit_restart.specs.Turned.{Turned};
ghost use Rattle.granit_steps.specs.Steps.{next_event, StepState};

/// Whatever was called before, and whether the next event was looked at or not: no node is open there but where the
/// next turn fails, so a look by turns tells what the text tells.
pub fn a_look_tells_where_recovery_asks()
    ensures here { (o : OptionsData) (stops : Stops) (c : Calls) → ReachedByCalls o c → c.over ≡ false
        → LookTells o (skipped o stops c).steps }
    ensures looked { (o : OptionsData) (stops : Stops) (c : Calls) → ReachedByCalls o c
        → (looked_by c (next_call o c)).over ≡ false
        → LookTells o (skipped o stops (looked_by c (next_call o c))).steps }
{}

/// There it is asked behind a comment with room for one fewer: where the next event is a comment, what is told behind
/// it is what is told in front of it with room for one more.
pub fn a_comment_takes_room_where_recovery_asks()
    ensures here { (o : OptionsData) (stops : Stops) (c : Calls) (e : PlainEvent) (after : StepState) (room : ℕ)
        → ReachedByCalls o c → c.over ≡ false → next_event o (skipped o stops c).steps ≡ Ok (Some e, after)
        → is_note e.kind ≡ true
        → document_follows o (suc room) (skipped o stops c).steps ≡ document_follows o room after }
    ensures looked { (o : OptionsData) (stops : Stops) (c : Calls) (e : PlainEvent) (after : StepState) (room : ℕ)
        → ReachedByCalls o c → (looked_by c (next_call o c)).over ≡ false
        → next_event o (skipped o stops (looked_by c (next_call o c))).steps ≡ Ok (Some e, after)
        → is_note e.kind ≡ true
        → document_follows o (suc room) (skipped o stops (looked_by c (next_call o c))).steps
        ≡ document_follows o room after }
{}

/// Whatever was called before: turns and restarts behind faults lead there.
pub fn calls_go_by_turns()
    ensures { (o : OptionsData) (c : Calls) → ReachedByCalls o c → Turned o c.steps }
{}
