//! Places, and the numbers of lexemes and anchors, change nothing else.
ghost use Rattle.std.specs.Prelude.{◌≡◌, List, Option, map};
ghost use Rattle.granit_error.specs.OptionsData.{OptionsData};
ghost use Rattle.granit_lexemes.specs.Here.{Here};
ghost use Rattle.granit_lexemes.specs.Outcome.{Fault};
ghost use Rattle.granit_lexemes.specs.PlainEvent.{PlainEvent};
ghost use Rattle.granit_machine.specs.Frames.{ParserState};
ghost use Rattle.granit_machine.specs.Lexing.{FlaggedItem};
ghost use Rattle.granit_machine.specs.Machine.{feed_all, run_from};
ghost use Rattle.granit_moved.specs.Moved.{moved_call, moved_steps};
ghost use Rattle.granit_shifted.specs.Shift.{IsFirst, KeptFits, Shift, moved_answer, moved_events, moved_fault_of};
ghost use Rattle.granit_shifted.specs.Shift.{moved_fed, moved_flagged, moved_here, moved_state};
ghost use Rattle.granit_steps.specs.Steps.{StepState, next_event};
ghost use Rattle.granit_steps.specs.Told.{GivesEvents};

/// Items whose places are moved are fed to the same events with their places moved and their anchors numbered on, or
/// refused for the same cause at the place moved.
pub fn items_are_fed_alike_wherever_they_stand()
    ensures { (shift : Shift) (o : OptionsData) (items : List FlaggedItem) (p : ParserState) → KeptFits o shift
        → feed_all o (map (moved_flagged shift) items) (moved_state shift p) ≡ moved_fed shift (feed_all o items p) }
{}

/// A run from a place further on gives the same events, or the same fault, with places moved.
pub fn a_text_is_read_alike_wherever_it_stands()
    ensures { (shift : Shift) (o : OptionsData) (h : Here) → IsFirst shift
        → run_from o (moved_here shift h) ≡ moved_answer shift (run_from o h) }
{}

/// So is it call by call, wherever the calls stand: lexemes and anchors are numbered on, and handles of before are of
/// no matter where handles don't stay.
pub fn calls_give_alike_wherever_a_text_stands()
    ensures next { (shift : Shift) (o : OptionsData) (s : StepState) → KeptFits o shift
        → next_event o (moved_steps shift s) ≡ moved_call shift (next_event o s) }
    ensures all { (shift : Shift) (o : OptionsData) (s : StepState) (es : List PlainEvent) (f : Option Fault)
        → KeptFits o shift → GivesEvents o s es f
        → GivesEvents o (moved_steps shift s) (moved_events shift es) (moved_fault_of shift f) }
{}
