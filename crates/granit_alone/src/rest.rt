//! What is told within a text, wherever calls and recoveries lead.
ghost use Rattle.std.specs.Prelude.{◌≡◌, ◌++◌, ℕ, Bool, true, false, List, Option, None, Ok};
ghost use Rattle.granit_alone.specs.Behind.{GivesText, IsOpen, TellsRest};
ghost use Rattle.granit_error.specs.OptionsData.{OptionsData};
ghost use Rattle.granit_lexemes.specs.Outcome.{Fault};
ghost use Rattle.granit_lexemes.specs.PlainEvent.{PlainEvent};
ghost use Rattle.granit_recovery.specs.Streams.{CallsGive};
ghost use Rattle.granit_restart.specs.Calls.{Calls};
ghost use Rattle.granit_restart.specs.Recovery.{recover};
ghost use Rattle.granit_restart.specs.Skipping.{Ended, skip_by_turns, Stops};
ghost use Rattle.granit_led.specs.Stopping.{looked_at};
ghost use Rattle.granit_steps.specs.Steps.{StepState};
ghost use Rattle.granit_steps.specs.Told.{told_of};

/// Calls take events from the front of all that is told; recovery directly behind a document takes none, and else it
/// drops some: the rest is told from there on.
pub fn the_rest_of_a_text_is_told()
    ensures calls { (o : OptionsData) (all : List PlainEvent) (f : Option Fault) (before es : List PlainEvent)
        (c d : Calls) → TellsRest o all before f c.steps → CallsGive o c es d
        → TellsRest o all (before ++ es) f d.steps }
    ensures between { (o : OptionsData) (stops : Stops) (looked follows : Bool) (c b d : Calls)
        (all before : List PlainEvent) (f : Option Fault) → looked_at o looked c ≡ b → b.over ≡ false
        → b.fault ≡ None → b.between ≡ true → recover o stops looked c ≡ (Ok follows, d)
        → TellsRest o all before f b.steps → TellsRest o all before f d.steps }
    ensures dropping { (o : OptionsData) (stops : Stops) (looked follows : Bool) (c b d : Calls) (t : StepState)
        (all before : List PlainEvent) (f : Option Fault) → looked_at o looked c ≡ b → b.over ≡ false
        → b.fault ≡ None → b.between ≡ false → skip_by_turns o b.steps ≡ Ended t
        → recover o stops looked c ≡ (Ok follows, d)
        → TellsRest o all before f b.steps
        → (dropped : List PlainEvent) × TellsRest o all (before ++ dropped) f d.steps }
{}

/// Where the rest of a text is told, calls give its events in order, then a cause of it, or nothing more behind the
/// events of its reading, those that were dropped among them.
pub fn calls_give_the_rest_of_their_text()
    ensures { (o : OptionsData) (x : List ℕ) (before es : List PlainEvent) (c d : Calls)
        → TellsRest o (told_of o x).0 before (told_of o x).1 c.steps → IsOpen c → CallsGive o c es d
        → GivesText o x before es d }
{}
