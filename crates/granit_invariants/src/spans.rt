//! The spans of events.
ghost use Rattle.granit_error.specs.OptionsData.{OptionsData};
ghost use Rattle.granit_invariants.specs.EventPlaces.{EventsInText};
ghost use Rattle.granit_lexemes.specs.PlainEvent.{PlainEvent};
ghost use Rattle.granit_machine.specs.Machine.{run};
ghost use Rattle.std.specs.Prelude.{◌≡◌, List, Ok, ℕ};

/// Each event's span begins no later than it ends, inside the text, at places that are counted on the text,
/// bytes included; and so does the tag that it tells.
pub fn every_event_stands_in_the_text()
    ensures { (o : OptionsData) (text : List ℕ) (es : List PlainEvent) → run o text ≡ Ok es → EventsInText text es }
{}
