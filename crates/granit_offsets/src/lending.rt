//! Whether the input lends its texts decides nothing but whether texts are borrowed.
ghost use Rattle.granit_error.specs.OptionsData.{OptionsData};
ghost use Rattle.granit_offsets.specs.Lending.{OwnTexts, borrowed_of, borrowed_unlent, but_lending};
ghost use Rattle.granit_offsets.specs.Lending.{lending_nothing};
ghost use Rattle.granit_feeding.specs.Offsets.{bare_answer};
ghost use Rattle.granit_lexemes.specs.Here.{Here};
ghost use Rattle.granit_lexemes.specs.PlainEvent.{PlainEvent};
ghost use Rattle.granit_machine.specs.Machine.{run_from};
ghost use Rattle.std.specs.Prelude.{[], ◌≡◌, ◌∷◌, List, Ok, codes, false, map, true};

/// Where nothing is lent, a run gives the same events, byte offsets too, with their texts owned but those of empty
/// nodes, or the same fault. So two beginnings that differ in lending alone give answers that differ at most in
/// which texts are borrowed.
pub fn lending_changes_nothing_else()
    ensures owned { (o : OptionsData) (h : Here) →
        run_from o (lending_nothing h) ≡ bare_answer but_lending (run_from o h) }
    ensures alike { (o : OptionsData) (g h : Here) → lending_nothing g ≡ lending_nothing h →
        bare_answer but_lending (run_from o g) ≡ bare_answer but_lending (run_from o h) }
{}

/// Where the input lends nothing, no text of an answer is borrowed but those of empty nodes, which are plain and
/// without extent.
pub fn no_text_is_borrowed_unlent()
    ensures { (o : OptionsData) (h : Here) (es : List PlainEvent) → h.unread.lends ≡ false →
        run_from o h ≡ Ok es → OwnTexts es }
{}

/// Which texts of some documents are borrowed, by computation: a name, a comment, a plain scalar of one line and an
/// empty node are, a scalar of two lines or of a block isn't, and a quoted one is where it holds no break, no escape
/// and no doubled quote. Where nothing is lent, the empty node's alone is.
pub fn borrowed_texts_of_the_examples()
    ensures plain { map borrowed_of (codes "a b" ∷ codes "a\n b" ∷ codes "é: x  " ∷ codes "- " ∷ codes "|\n a" ∷ [])
        ≡ ((true ∷ []) ∷ (false ∷ []) ∷ (true ∷ true ∷ []) ∷ (true ∷ []) ∷ (false ∷ []) ∷ []) }
    ensures quoted { map borrowed_of (codes "'a b '" ∷ codes "'a''b'" ∷ codes "\"\"" ∷ codes "\"a\\tb\""
        ∷ codes "\"a\n b\"" ∷ [])
        ≡ ((true ∷ []) ∷ (false ∷ []) ∷ (true ∷ []) ∷ (false ∷ []) ∷ (false ∷ []) ∷ []) }
    ensures beside { map borrowed_of (codes "&x 'a''b' #c" ∷ codes "&x #c\n" ∷ [])
        ≡ ((false ∷ true ∷ true ∷ []) ∷ (true ∷ true ∷ true ∷ []) ∷ []) }
    ensures unlent { map borrowed_unlent (codes "- &x a #c\n- 'b'\n- " ∷ [])
        ≡ ((false ∷ false ∷ false ∷ false ∷ true ∷ []) ∷ []) }
{}
