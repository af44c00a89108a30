//! Worked rows of the steps: how much is unread behind some calls, and what the events of a stream may not be.
ghost use Rattle.std.specs.Prelude.{◌≡◌, [], ◌∷◌, codes, Some, None, true};
ghost use Rattle.granit_base.specs.declared.style.StructureStyle.TheVariants.{Block};
ghost use Rattle.granit_lexemes.specs.PlainEvent.{StreamStart, StreamEnd, DocumentStart, DocumentEnd, Alias};
ghost use Rattle.granit_lexemes.specs.PlainEvent.{SequenceStart, SequenceEnd, MappingStart, MappingEnd};
ghost use Rattle.granit_steps.specs.Levels.{InStream, BehindNode};
ghost use Rattle.granit_streams.specs.StepRows.{left_by, unread_behind};

/// How much is read for an event: the next item for a comment's place, up to the `:` for the lexeme that begins a key,
/// and a whole collection in brackets that may be one.
pub fn unread_texts()
    ensures nothing { unread_behind 1 (codes "- a\n- b\n- c\n- d\n") ≡ 16 }
    ensures dash { unread_behind 3 (codes "- a\n- b\n- c\n- d\n") ≡ 14 }
    ensures entry { unread_behind 4 (codes "- a\n- b\n- c\n- d\n") ≡ 12 }
    ensures key { unread_behind 3 (codes "a: b\nc: d\n") ≡ 7 }
    ensures comment { unread_behind 2 (codes "# c\na: b") ≡ 1 }
    ensures right_comment { unread_behind 3 (codes "- # c\n  a\n- b") ≡ 8 }
    ensures brackets { unread_behind 4 (codes "[a, b, c]") ≡ 0 }
{}

/// Events that are no stream.
pub fn events_of_no_stream()
    ensures whole { left_by (StreamStart ∷ DocumentStart true None ∷ SequenceStart Block 0 None ∷ Alias 1 ∷ SequenceEnd
        ∷ DocumentEnd ∷ StreamEnd ∷ []) ≡ Some [] }
    ensures open_stream { left_by (StreamStart ∷ []) ≡ Some (InStream ∷ []) }
    ensures open_document { left_by (StreamStart ∷ DocumentStart true None ∷ Alias 1 ∷ [])
        ≡ Some (BehindNode ∷ InStream ∷ []) }
    ensures no_start { left_by (DocumentStart true None ∷ Alias 1 ∷ DocumentEnd ∷ StreamEnd ∷ []) ≡ None }
    ensures two_nodes { left_by (StreamStart ∷ DocumentStart true None ∷ Alias 1 ∷ Alias 1 ∷ []) ≡ None }
    ensures no_node { left_by (StreamStart ∷ DocumentStart true None ∷ DocumentEnd ∷ []) ≡ None }
    ensures node_outside { left_by (StreamStart ∷ Alias 1 ∷ []) ≡ None }
    ensures crossed { left_by (StreamStart ∷ DocumentStart true None ∷ SequenceStart Block 0 None
        ∷ MappingStart Block 0 None ∷ SequenceEnd ∷ []) ≡ None }
    ensures behind_end { left_by (StreamStart ∷ StreamEnd ∷ DocumentStart true None ∷ []) ≡ None }
{}
