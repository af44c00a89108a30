//! The events of a text with at most one document.
ghost use Rattle.std.specs.Prelude.{◌≡◌, ◌≤◌, ℕ, false, true, List, [], ◌∷◌, Option, None, Some};
ghost use Rattle.granit_base.specs.Place.{Mark};
ghost use Rattle.granit_base.specs.Written.{Written};
ghost use Rattle.granit_base.specs.declared.style.Placement.{Placement};
ghost use Rattle.granit_error.specs.OptionsData.{OptionsData};
ghost use Rattle.granit_lexemes.specs.Here.{Here};
ghost use Rattle.granit_lexemes.specs.Outcome.{Fault};
ghost use Rattle.granit_lexemes.specs.PlainEvent as plain;
ghost use Rattle.granit_lexemes.specs.PlainEvent.{event_on, PlainEvent};
ghost use Rattle.granit_ids.specs.Ids.{counting_from};
ghost use Rattle.granit_ids.specs.OneDocument.{document_starts, OneDocument, strict_events, StandStrictly};
ghost use Rattle.granit_steps.specs.Levels.{InStream, Level};
ghost use Rattle.granit_steps.specs.Told.{GivesEvents};

/// The events of a machine that has just begun, up to its end or a fault: the stream's start first, each event where it
/// may stand, those of anchors within documents, and nothing behind the stream's end.
pub fn events_stand_strictly()
    ensures { (o : OptionsData) (h : Here) (count : ℕ) (es : List PlainEvent) (f : Option Fault)
        → GivesEvents o (counting_from count h) es f → StandStrictly es }
{}

/// Events that stand so behind a stream's start, of which at most one starts a document, are those of at most one
/// document.
pub fn at_most_one_start_is_one_document()
    ensures { (es : List PlainEvent) (ls : List Level) → strict_events es (InStream ∷ []) ≡ Some ls
        → document_starts es ≤ 1 → OneDocument false es }
{}

/// So are the events of a text of which at most one starts a document.
pub fn a_text_with_one_start_is_one_document()
    ensures { (o : OptionsData) (h : Here) (count : ℕ) (es : List PlainEvent) (f : Option Fault)
        → GivesEvents o (counting_from count h) es f → document_starts es ≤ 1 → OneDocument false es }
{}

/// Behind a document's end a comment may stand, and no other document; behind the stream's end nothing may, and no
/// anchor's event outside documents.
pub fn worked_documents()
    ensures one { (m : Mark) (text : Written) (placement : Placement)
        → OneDocument false (event_on plain.StreamStart m ∷ event_on (plain.DocumentStart false None) m
        ∷ event_on (plain.Alias 1) m ∷ event_on plain.DocumentEnd m ∷ event_on (plain.Comment text placement) m
        ∷ event_on plain.StreamEnd m ∷ []) }
    ensures two { (m : Mark) → OneDocument false (event_on (plain.DocumentStart false None) m
        ∷ event_on (plain.Alias 1) m ∷ event_on plain.DocumentEnd m ∷ event_on (plain.DocumentStart true None) m ∷ [])
        → ⊥ }
    ensures behind { (m : Mark) (text : Written) (placement : Placement)
        → strict_events (event_on plain.StreamEnd m ∷ event_on (plain.Comment text placement) m ∷ []) (InStream ∷ [])
        ≡ None }
    ensures outside { (m : Mark) (name : Written)
        → strict_events (event_on (plain.Anchor 1 name) m ∷ []) (InStream ∷ []) ≡ None }
{}
