//! What the lexemes that are read fit, with the flags that tell which of them begin keys.
ghost use Rattle.granit_error.specs.OptionsData.{OptionsData};
ghost use Rattle.granit_language.specs.Fitting.{ItemKeysFit, ItemLinesFit};
ghost use Rattle.granit_language.specs.Reached.{Reached};
ghost use Rattle.granit_lexemes.specs.Here.{Here};
ghost use Rattle.granit_lexemes.specs.Lexeme.{Item};
ghost use Rattle.granit_machine.specs.Lexing.{flagged};
ghost use Rattle.granit_machine.specs.ReaderState.{ReaderState, reader_start};
ghost use Rattle.std.specs.Prelude.{List, None, [], ◌∷◌};

/// Each keyed `:` names the last lexeme at its depth that begins a key, keys nest, and what begins an
/// entry of a block collection begins its line or follows an indicator.
pub fn flagged_lexemes_fit()
    ensures keys { (o : OptionsData) (h : Here) (items : List Item) (t : ReaderState) →
        Reached o (reader_start h) items t → ItemKeysFit (None ∷ []) (flagged items) }
    ensures lines { (o : OptionsData) (h : Here) (items : List Item) (t : ReaderState) →
        Reached o (reader_start h) items t → ItemLinesFit (flagged items) }
{}
