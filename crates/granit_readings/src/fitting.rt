//! The lexemes of a text, as the grammar sees them, fit their lines and their keys.
ghost use Rattle.granit_error.specs.OptionsData.{OptionsData};
ghost use Rattle.granit_language.specs.Reached.{Reached};
ghost use Rattle.granit_language.specs.Reading.{KeysFit, LinesFit};
ghost use Rattle.granit_language.specs.Scope.{Scope};
ghost use Rattle.granit_language.specs.Scoping.{scoped};
ghost use Rattle.granit_language.specs.Seen.{terminals_of};
ghost use Rattle.granit_language.specs.Terminal.{Terminal};
ghost use Rattle.granit_lexemes.specs.Here.{Here};
ghost use Rattle.granit_lexemes.specs.Lexeme.{Item};
ghost use Rattle.granit_machine.specs.ReaderState.{ReaderState, reader_start};
ghost use Rattle.std.specs.Prelude.{List, None, Option, [], ◌∷◌, ℕ};

/// What begins an entry of a block collection begins its line or follows an indicator, and each keyed `:` names the
/// last lexeme at its depth that begins a simple key; what is declared before a lexeme changes neither.
pub fn the_lexemes_of_a_text_fit()
    ensures lines { (o : OptionsData) (h : Here) (items : List Item) (t : ReaderState) →
        Reached o (reader_start h) items t → LinesFit (terminals_of items) }
    ensures keys { (o : OptionsData) (h : Here) (items : List Item) (t : ReaderState) →
        Reached o (reader_start h) items t → KeysFit (None ∷ []) (terminals_of items) }
    ensures scoped_lines { (s : Scope) (xs : List Terminal) → LinesFit xs → LinesFit (scoped s xs) }
    ensures scoped_keys { (s : Scope) (ks : List (Option ℕ)) (xs : List Terminal) → KeysFit ks xs →
        KeysFit ks (scoped s xs) }
{}
