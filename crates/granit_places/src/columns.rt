//! The open columns of block collections.
ghost use Rattle.granit_error.specs.OptionsData.{OptionsData};
ghost use Rattle.granit_language.specs.OpenColumns.{ColumnsSay, latest};
ghost use Rattle.granit_language.specs.Reached.{Reached};
ghost use Rattle.granit_lexemes.specs.Here.{Here};
ghost use Rattle.granit_lexemes.specs.Lexeme.{Item};
ghost use Rattle.granit_machine.specs.ReaderState.{ReaderState, reader_start};
ghost use Rattle.std.specs.Prelude.{List, []};

/// Behind the lexemes of a text the columns that are kept are the open ones: an entry outside flow stands
/// in one, and no lexeme outside flow after it in its document stands left of it.
pub fn kept_columns_are_open()
    ensures { (o : OptionsData) (h : Here) (items : List Item) (t : ReaderState) →
        Reached o (reader_start h) items t → ColumnsSay (latest items []) t.laid }
{}
