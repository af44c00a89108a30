//! What is dropped is dropped turn by turn.
ghost use Rattle.std.specs.Prelude.{◌≡◌, List, [], None, Some, Ok, Err};
ghost use Rattle.granit_error.specs.OptionsData.{OptionsData};
ghost use Rattle.granit_lexemes.specs.Outcome.{Fault};
ghost use Rattle.granit_lexemes.specs.PlainEvent.{PlainEvent};
ghost use Rattle.granit_restart.specs.Calls.{failing};
ghost use Rattle.granit_restart.specs.Skipping as spec;
ghost use Rattle.granit_restart.specs.Skipping.{skip_by_turns};
ghost use Rattle.granit_steps.specs.Steps.{StepState, step_turn};

/// Where no end of a document waits, skipping drops what waits, makes a turn, and goes on behind it; it ends where no
/// turn is left to make, and where one fails.
pub fn skipping_goes_turn_by_turn()
    ensures on { (o : OptionsData) (s after : StepState) (es : List PlainEvent) → spec.ahead s.pending ≡ spec.NoEnd
        → step_turn o (spec.with_pending [] s) ≡ Ok (Some es, after) → skip_by_turns o s ≡ skip_by_turns o after }
    ensures done { (o : OptionsData) (s after : StepState) → spec.ahead s.pending ≡ spec.NoEnd
        → step_turn o (spec.with_pending [] s) ≡ Ok (None, after)
        → skip_by_turns o s ≡ spec.Ended (spec.with_pending [] s) }
    ensures fault { (o : OptionsData) (s : StepState) (f : Fault) → spec.ahead s.pending ≡ spec.NoEnd
        → step_turn o (spec.with_pending [] s) ≡ Err f
        → skip_by_turns o s ≡ spec.skip_fault (spec.with_pending [] s) f }
{}

/// Skipping ends behind the end of a document that waits, and at the end of the stream, which stays.
pub fn skipping_ends_where_an_end_waits()
    ensures document { (o : OptionsData) (s : StepState) (es : List PlainEvent)
        → spec.ahead s.pending ≡ spec.BehindDocument es → skip_by_turns o s ≡ spec.Ended (spec.with_pending es s) }
    ensures stream { (o : OptionsData) (s : StepState) (es : List PlainEvent)
        → spec.ahead s.pending ≡ spec.AtStreamEnd es → skip_by_turns o s ≡ spec.Ended (spec.with_pending es s) }
{}

/// The state before the turn that fails is found turn by turn.
pub fn failing_goes_turn_by_turn()
    ensures on { (o : OptionsData) (s after : StepState) (es : List PlainEvent)
        → step_turn o s ≡ Ok (Some es, after) → failing o s ≡ failing o after }
    ensures fault { (o : OptionsData) (s : StepState) (f : Fault) → step_turn o s ≡ Err f → failing o s ≡ s }
{}
