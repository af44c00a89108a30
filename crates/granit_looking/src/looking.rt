//! Whether another document is there may be seen by turns.
ghost use Rattle.std.specs.Prelude.{◌≡◌, ◌∷◌, ℕ, suc, Bool, true, false, List, Option, None, Some, Result, Ok, Err};
ghost use Rattle.granit_error.specs.OptionsData.{OptionsData};
ghost use Rattle.granit_lexemes.specs.Outcome.{Fault};
ghost use Rattle.granit_lexemes.specs.PlainEvent.{PlainEvent};
ghost use Rattle.granit_restart.specs.Ahead.{AheadOf, AlikeNext, ComesLast, NoneComes, is_note};
ghost use Rattle.granit_restart.specs.Calls.{failing};
ghost use Rattle.granit_restart.specs.Following.{document_follows};
ghost use Rattle.granit_restart.specs.Header.{is_directives};
ghost use Rattle.granit_restart.specs.Looking.{Look, Outside, look_ahead, look_by, told_by, turn_ahead};
ghost use Rattle.granit_restart.specs.Skipping.{skip_by_turns, with_pending};
ghost use Rattle.granit_restart.specs.Turned.{Turned};
ghost use Rattle.granit_steps.specs.Steps.{next_event, StepState};
ghost use Rattle.granit_steps.specs.Told.{GivesEvents};

/// Between documents a look ahead by turns, which leaves what waits, answers as the text itself tells.
pub fn a_look_tells_whether_a_document_follows()
    ensures { (o : OptionsData) (room : ℕ) (s : StepState) → Turned o s → Outside s.parser
        → (look_ahead o room s).0 ≡ document_follows o room s }
{}

/// A look makes turns ahead and changes nothing else: the state that it leaves gives the same events, and the same
/// fault.
pub fn a_look_changes_no_event()
    ensures ahead { (o : OptionsData) (room : ℕ) (s : StepState) → AheadOf o s (look_ahead o room s).1 }
    ensures next { (o : OptionsData) (s t : StepState) → AheadOf o s t
        → AlikeNext o (next_event o s) (next_event o t) }
    ensures all { (o : OptionsData) (s t : StepState) (es : List PlainEvent) (end : Option Fault) → AheadOf o s t
        → GivesEvents o s es end → GivesEvents o t es end }
    ensures none { (o : OptionsData) (s t : StepState) (es : List PlainEvent) (end : Option Fault) → AheadOf o s t
        → GivesEvents o t es end → GivesEvents o s es end }
{}

/// From a state that is some turns ahead a document is skipped to the same state, and the same turn fails.
pub fn skipping_ends_alike_ahead()
    ensures skip { (o : OptionsData) (s t : StepState) → AheadOf o s t → skip_by_turns o s ≡ skip_by_turns o t }
    ensures fault { (o : OptionsData) (s t : StepState) (f : Fault) → AheadOf o s t → next_event o s ≡ Err f
        → failing o s ≡ failing o t }
{}

/// Where no document comes, a look from wherever an earlier one led answers as the text itself tells, and it stays so
/// behind each comment.
pub fn no_document_comes_behind_a_look()
    ensures look { (o : OptionsData) (room : ℕ) (s t : StepState) → NoneComes o s → AheadOf o s t
        → (look_ahead o room t).0 ≡ document_follows o room s }
    ensures next { (o : OptionsData) (s after : StepState) (e : PlainEvent) → NoneComes o s
        → next_event o s ≡ Ok (Some e, after) → ComesLast o s e after }
{}

/// A look ends where what waits tells, or behind it where no turn is needed; else it goes on behind one more turn.
pub fn looking_goes_turn_by_turn()
    ensures told { (o : OptionsData) (room : ℕ) (s : StepState) (told : Result Bool Fault)
        → told_by room s.pending ≡ Some told → look_ahead o room s ≡ (told, s) }
    ensures ends { (o : OptionsData) (room : ℕ) (s : StepState) (x : Look) → told_by room s.pending ≡ None
        → ((later : StepState → Look) → look_by o later s None ≡ x) → look_ahead o room s ≡ x }
    ensures on { (o : OptionsData) (room : ℕ) (s t : StepState) (given : List PlainEvent)
        → told_by room s.pending ≡ None → is_directives s.parser.stage ≡ false
        → turn_ahead o s ≡ Ok (Some given, t) → is_directives t.parser.stage ≡ false
        → look_ahead o room s ≡ look_ahead o room t }
{}

/// A comment that waits takes the room of one.
pub fn a_comment_that_waits_takes_room()
    ensures { (o : OptionsData) (room : ℕ) (e : PlainEvent) → is_note e.kind ≡ true
        → (s : StepState) (es : List PlainEvent)
        → (look_ahead o (suc room) (with_pending (e ∷ es) s)).0 ≡ (look_ahead o room (with_pending es s)).0 }
{}
