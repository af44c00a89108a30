//! The answers of recovery are exact.
ghost use Rattle.std.specs.Prelude.{◌≡◌, ◌⊎◌, ℕ, Bool, true, false, Ok};
ghost use Rattle.granit_error.specs.OptionsData.{OptionsData};
ghost use Rattle.granit_lexemes.specs.Here.{Here};
ghost use Rattle.granit_calls.specs.Ending.{NoneFollows, OnlyGap};
ghost use Rattle.granit_restart.specs.Calls.{Calls};
ghost use Rattle.granit_restart.specs.Following.{document_follows};
ghost use Rattle.granit_restart.specs.Recovery.{recover};
ghost use Rattle.granit_restart.specs.Restart.{behind_fault};
ghost use Rattle.granit_restart.specs.Skipping.{Stops};
ghost use Rattle.granit_steps.specs.Steps.{StepState};

/// False is answered exactly where no document is there: where the end of the stream was given, or where from there on
/// only gaps, comments and `...` stand up to the end of the text.
pub fn answers_are_exact()
    ensures on_true { (o : OptionsData) (stops : Stops) (looked : Bool) (c d : Calls)
        → recover o stops looked c ≡ (Ok true, d) → (d.over ≡ false) × (NoneFollows o d.steps → ⊥) }
    ensures on_false { (o : OptionsData) (stops : Stops) (looked : Bool) (c d : Calls)
        → recover o stops looked c ≡ (Ok false, d) → (d.over ≡ true) ⊎ NoneFollows o d.steps }
{}

/// Behind a fault whose next boundary is no `---`, wherever the refused read stopped, what is left of the text tells:
/// false is answered where only gaps, comments and `...` stand up to its end, and nowhere else.
pub fn answers_behind_a_fault_are_exact()
    ensures only { (o : OptionsData) (room : ℕ) (stop : Here) (s t : StepState) → behind_fault stop s ≡ (false, t)
        → document_follows o room t ≡ Ok false → OnlyGap o t.reading.reader }
    ensures all { (o : OptionsData) (room : ℕ) (stop : Here) (s t : StepState) (follows : Bool)
        → behind_fault stop s ≡ (false, t) → OnlyGap o t.reading.reader → document_follows o room t ≡ Ok follows
        → follows ≡ false }
{}
