//! What recovery drops by where the parser stands.
ghost use Rattle.std.specs.Prelude.{◌≡◌, Bool, true, false, None, Some, [], Ok, Err};
ghost use Rattle.granit_error.specs.OptionsData.{OptionsData};
ghost use Rattle.granit_lexemes.specs.Here.{Here};
ghost use Rattle.granit_lexemes.specs.Outcome.{Fault};
ghost use Rattle.granit_lexemes.specs.PlainEvent.{PlainEvent};
ghost use Rattle.granit_restart.specs.Calls.{Calls, next_call};
ghost use Rattle.granit_restart.specs.Recovery.{recover, recovered, resumed};
ghost use Rattle.granit_restart.specs.Restart.{behind_fault, dropped};
ghost use Rattle.granit_restart.specs.Skipping.{Stops, skipped_document, skipped_fault};
ghost use Rattle.granit_steps.specs.Steps.{StepState};

/// Behind a fault the open document goes with its frames, its anchors and its tags, but for handles that stay, and so
/// do events that weren't given.
pub fn a_fault_drops_its_document()
    ensures { (stop : Here) (s : StepState) → ((behind_fault stop s).1.parser ≡ dropped s.parser)
        × ((behind_fault stop s).1.pending ≡ []) }
{}

/// Directly behind the end of a document nothing is dropped.
pub fn nothing_is_dropped_between_documents()
    ensures { (o : OptionsData) (stops : Stops) (c : Calls) → c.refusal ≡ None → c.fault ≡ None
        → c.over ≡ false → c.between ≡ true → (recover o stops false c).1.steps ≡ c.steps }
{}

/// Behind the end of the stream there is no document, and nothing changes.
pub fn nothing_changes_behind_the_end()
    ensures { (o : OptionsData) (stops : Stops) (looked : Bool) (c : Calls) → c.refusal ≡ None
        → c.over ≡ true → recover o stops looked c ≡ (Ok false, c) }
{}

/// Where recovery told of a document it is the next that is dropped, once the next event was looked at: whole, whatever
/// event that is, and by its fault where that is all that comes.
pub fn what_was_told_of_is_dropped()
    ensures told { (o : OptionsData) (stops : Stops) (looked : Bool) (c d : Calls)
        → recover o stops looked c ≡ (Ok true, d) → d ≡ resumed d.steps }
    ensures event { (o : OptionsData) (stops : Stops) (s : StepState) (e : PlainEvent) (after : Calls)
        → next_call o (resumed s) ≡ (Some (Ok e), after)
        → recover o stops true (resumed s) ≡ recovered o 0 (resumed (skipped_document o stops s)) }
    ensures fault { (o : OptionsData) (stops : Stops) (looked : Bool) (s : StepState) (f : Fault) (after : Calls)
        → next_call o (resumed s) ≡ (Some (Err f), after)
        → recover o stops looked after ≡ recovered o 0 (resumed (skipped_fault o stops f after.steps)) }
{}
