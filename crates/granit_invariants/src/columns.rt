//! The open columns of block collections.
ghost use Rattle.granit_error.specs.OptionsData.{OptionsData};
ghost use Rattle.granit_invariants.specs.RisingColumns.{Rise};
ghost use Rattle.granit_language.specs.OpenColumns.{columns_of};
ghost use Rattle.granit_language.specs.Reached.{Reached};
ghost use Rattle.granit_lexemes.specs.Here.{Here};
ghost use Rattle.granit_lexemes.specs.Lexeme.{Item};
ghost use Rattle.granit_machine.specs.ReaderState.{ReaderState, reader_start};
ghost use Rattle.std.specs.Prelude.{List};

/// Wherever reading comes to, each open column is right of the one around it.
pub fn open_columns_rise()
    ensures { (o : OptionsData) (h : Here) (items : List Item) (t : ReaderState) →
        Reached o (reader_start h) items t → Rise (columns_of t.laid) }
{}
