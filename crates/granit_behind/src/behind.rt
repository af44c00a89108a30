//! Behind a boundary the text that is left is read as a text of its own, or behind one that declares handles anew.
ghost use Rattle.std.specs.Prelude.{◌≡◌, ◌≤◌, true, List, Option, ℕ};
ghost use Rattle.granit_error.specs.OptionsData.{OptionsData};
ghost use Rattle.granit_lexemes.specs.Here.{Here};
ghost use Rattle.granit_lexemes.specs.Outcome.{Fault};
ghost use Rattle.granit_lexemes.specs.PlainEvent.{PlainEvent};
ghost use Rattle.granit_restart.specs.Boundary.{next_boundary};
ghost use Rattle.granit_restart.specs.Restart.{at_boundary, behind_fault, cursor_at, read_boundary};
ghost use Rattle.granit_led.specs.Alone.{StaysDeclared, TellsMoved, TellsBehind, ToldAlone};
ghost use Rattle.granit_led.specs.Declaring.{DeclaresAnew, kept_start, TellsAnew};
ghost use Rattle.granit_led.specs.Led.{Led, TellsFound};
ghost use Rattle.granit_shifted.specs.Shift.{Shift};
ghost use Rattle.granit_steps.specs.Steps.{StepState};
ghost use Rattle.granit_steps.specs.Told.{GivesEvents};

/// From the next boundary in the text on all is told that the text left there tells, but for the start of the stream:
/// the same events and the same fault, with their places moved and their anchors numbered on. Where no handle stays
/// from before, or none may, that is what the text tells alone; else what it tells behind a text that declares those
/// handles anew. Where nothing is left the end of the stream is told. Lines are counted from 1.
pub fn the_text_behind_a_boundary_is_read_as_its_own()
    ensures { (o : OptionsData) (s : StepState) (h : Here) → 1 ≤ h.place.line → StaysDeclared o s.parser
        → TellsBehind o s.reading.reader.laid.number s.parser (next_boundary h) (at_boundary s (next_boundary h)).1 }
{}

/// So it is where reading goes on behind a fault, wherever the refused read stopped: from a `---` that was read and not
/// used or from the next boundary in the text, behind any turns and any restarts before. The handles that stay there
/// were declared.
pub fn the_text_behind_a_fault_is_read_as_its_own()
    ensures { (o : OptionsData) (s : StepState) (stop : Here) → Led o s
        → 1 ≤ (cursor_at stop s.reading).place.line
        → TellsFound o s.reading.reader.laid.number s.parser (cursor_at stop s.reading)
        (read_boundary (cursor_at stop s.reading) s.queue) (behind_fault stop s).1 }
{}

/// Nothing else is told there: what calls give is what the text gives alone, moved, and a run tells of it.
pub fn what_is_told_behind_a_boundary_is_what_its_text_tells()
    ensures { (o : OptionsData) (text : List ℕ) (shift : Shift) (s : StepState) (es : List PlainEvent)
        (f : Option Fault) → TellsMoved o text shift s → GivesEvents o s es f → ToldAlone o text shift es f }
{}

/// Where handles stay, what calls give of a text is what it tells behind one that declares them anew, with its places
/// moved.
pub fn a_text_is_told_alike_behind_handles_declared_anew()
    ensures { (o : OptionsData) (before text : List ℕ) (kept : List (List ℕ × List ℕ)) (es : List PlainEvent)
        (f : Option Fault) → o.keep_tags ≡ true → DeclaresAnew o before kept → GivesEvents o (kept_start text kept) es f
        → TellsAnew o kept text es f }
{}
