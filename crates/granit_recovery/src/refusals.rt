//! A refusal of recovery stays.
ghost use Rattle.std.specs.Prelude.{◌≡◌, Bool, None, Err};
ghost use Rattle.granit_error.specs.OptionsData.{OptionsData};
ghost use Rattle.granit_lexemes.specs.Outcome.{Fault};
ghost use Rattle.granit_restart.specs.Calls.{Calls, next_call};
ghost use Rattle.granit_restart.specs.Recovery.{recover};
ghost use Rattle.granit_restart.specs.Skipping.{Stops};

/// Each further call answers a refusal of recovery again, and changes nothing.
pub fn a_refusal_is_answered_again()
    ensures { (o : OptionsData) (stops later : Stops) (looked looked_again : Bool) (c d : Calls) (f : Fault)
        → recover o stops looked c ≡ (Err f, d) → recover o later looked_again d ≡ (Err f, d) }
{}

/// No event follows it.
pub fn no_event_follows_a_refusal()
    ensures { (o : OptionsData) (stops : Stops) (looked : Bool) (c d : Calls) (f : Fault)
        → recover o stops looked c ≡ (Err f, d) → next_call o d ≡ (None, d) }
{}
