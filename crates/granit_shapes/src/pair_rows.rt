//! Worked rows of pairs: what events leave of mappings.
ghost use Rattle.std.specs.Prelude.{◌≡◌, [], ◌∷◌, Some, None, codes};
ghost use Rattle.granit_base.specs.declared.style.StructureStyle.TheVariants.{Block};
ghost use Rattle.granit_lexemes.specs.PlainEvent.{Alias, SequenceStart, SequenceEnd, MappingStart, MappingEnd};
ghost use Rattle.granit_shapes.specs.Turns.{KeyNode, ValueNode, kinds_passed, text_passed};

/// Events in pairs and events that are not.
pub fn events_in_pairs()
    ensures none { kinds_passed (MappingStart Block 0 None ∷ MappingEnd ∷ []) ≡ Some [] }
    ensures one { kinds_passed (MappingStart Block 0 None ∷ Alias 1 ∷ Alias 2 ∷ MappingEnd ∷ []) ≡ Some [] }
    ensures open { kinds_passed (MappingStart Block 0 None ∷ Alias 1 ∷ []) ≡ Some (ValueNode ∷ []) }
    ensures key_alone { kinds_passed (MappingStart Block 0 None ∷ Alias 1 ∷ MappingEnd ∷ []) ≡ None }
    ensures three { kinds_passed (MappingStart Block 0 None ∷ Alias 1 ∷ Alias 2 ∷ Alias 3 ∷ MappingEnd ∷ []) ≡ None }
    ensures nested_key { kinds_passed (MappingStart Block 0 None ∷ SequenceStart Block 0 None ∷ Alias 1 ∷ SequenceEnd
        ∷ []) ≡ Some (ValueNode ∷ []) }
    ensures nested_value { kinds_passed (MappingStart Block 0 None ∷ Alias 1 ∷ MappingStart Block 0 None ∷ MappingEnd
        ∷ []) ≡ Some (KeyNode ∷ []) }
    ensures crossed { kinds_passed (MappingStart Block 0 None ∷ SequenceEnd ∷ []) ≡ None }
{}

/// Texts whose mappings have empty keys or values, and pairs of flow sequences.
pub fn texts_in_pairs()
    ensures key { text_passed (codes "a:\n? b\n: c\n") ≡ Some [] }
    ensures flow { text_passed (codes "{a, b: }") ≡ Some [] }
    ensures asked { text_passed (codes "[? a, : b]") ≡ Some [] }
{}
