//! Which plain scalar a comment cuts short.
ghost use Rattle.granit_base.specs.Place.{Mark};
ghost use Rattle.granit_before.specs.CutText.{LastCutsShort};
ghost use Rattle.granit_error.specs.OptionsData.{OptionsData};
ghost use Rattle.granit_language.specs.HeldSaid.{has_ended};
ghost use Rattle.granit_language.specs.OpenColumns.{latest};
ghost use Rattle.granit_language.specs.Reached.{Reached};
ghost use Rattle.granit_lexemes.specs.Here.{start_of};
ghost use Rattle.granit_lexemes.specs.Lexeme.{Item};
ghost use Rattle.granit_machine.specs.ReaderState.{ReaderState, reader_start};
ghost use Rattle.std.specs.Prelude.{◌≡◌, List, Some, ℕ, [], false};

/// But at the end of the text, what is held as cut short is the last lexeme, where it is a plain scalar outside flow
/// that a comment behind it in the text cuts short, and it always is held.
pub fn comments_cut_short_as_the_text_says()
    ensures said { (o : OptionsData) (text : List ℕ) (items : List Item) (t : ReaderState) (m : Mark) →
        Reached o (reader_start (start_of text)) items t → has_ended (latest items []) ≡ false →
        t.laid.cut ≡ Some m → LastCutsShort o text (latest items []) m.place.index }
    ensures held { (o : OptionsData) (text : List ℕ) (items : List Item) (t : ReaderState) (index : ℕ) →
        Reached o (reader_start (start_of text)) items t → has_ended (latest items []) ≡ false →
        LastCutsShort o text (latest items []) index →
        (m : Mark) × (t.laid.cut ≡ Some m) × (m.place.index ≡ index) }
{}
