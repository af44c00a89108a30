//! Where calls and recoveries stand.
ghost use Rattle.granit_error.specs.OptionsData.{OptionsData};
ghost use Rattle.granit_restart.specs.Calls.{Calls, next_call};
ghost use Rattle.granit_restart.specs.Recovery.{recover};
ghost use Rattle.granit_restart.specs.Header.{is_in_header};
ghost use Rattle.granit_restart.specs.Restart.{behind_fault};
ghost use Rattle.granit_restart.specs.Skipping.{Stops, skipped_fault};
ghost use Rattle.granit_lexemes.specs.Outcome.{Fault};
ghost use Rattle.granit_steps.specs.Steps.{StepState};
ghost use Rattle.granit_led.specs.Declaring.{DeclaresAnew};
ghost use Rattle.granit_led.specs.Led.{Led};
ghost use Rattle.std.specs.Prelude.{◌≡◌, ℕ, Bool, false, List, None, Some};

/// Each call and each recovery leads from a state to which turns and restarts led to another, also the one that gives a
/// fault: there the state is that before the turn that failed.
pub fn calls_and_recoveries_lead_on()
    ensures call { (o : OptionsData) (c : Calls) → Led o c.steps → Led o (next_call o c).1.steps }
    ensures recovery { (o : OptionsData) (stops : Stops) (looked : Bool) (c : Calls) → Led o c.steps
        → Led o (recover o stops looked c).1.steps }
{}

/// Behind a fault recovery goes on where the next boundary is, unless the fault stands among directives whose `---` is
/// that boundary.
pub fn recovery_goes_on_behind_the_fault()
    ensures skips { (o : OptionsData) (stops : Stops) (c : Calls) (f : Fault) → c.refusal ≡ None → c.over ≡ false
        → c.fault ≡ Some f → (recover o stops false c).1.steps ≡ skipped_fault o stops f c.steps }
    ensures restarts { (o : OptionsData) (stops : Stops) (s : StepState) (f : Fault) → is_in_header o s f ≡ false
        → skipped_fault o stops f s ≡ (behind_fault stops.first s).1 }
{}

/// Handles that stay over documents were declared, wherever turns and restarts lead: a text declares them anew.
pub fn handles_that_stay_were_declared()
    ensures { (o : OptionsData) (s : StepState) → Led o s
        → (before : List ℕ) × DeclaresAnew o before s.parser.kept }
{}
