//! Behind which items a value may stand at once.
ghost use Rattle.granit_before.specs.Touching.{ends_touching};
ghost use Rattle.granit_error.specs.OptionsData.{OptionsData};
ghost use Rattle.granit_language.specs.HeldSaid.{has_ended};
ghost use Rattle.granit_language.specs.OpenColumns.{latest};
ghost use Rattle.granit_language.specs.Reached.{Reached};
ghost use Rattle.granit_lexemes.specs.Here.{Here};
ghost use Rattle.granit_lexemes.specs.Lexeme.{Item};
ghost use Rattle.granit_machine.specs.Laid.{is_adjacent};
ghost use Rattle.granit_machine.specs.ReaderState.{ReaderState, reader_start};
ghost use Rattle.std.specs.Prelude.{◌≡◌, List, [], false};

/// But at the end of the text a value may stand at once exactly where a closer or a quoted scalar is the last item, a
/// closer without a comment behind it.
pub fn values_stand_at_once_behind_closers_and_quotes()
    ensures { (o : OptionsData) (h : Here) (items : List Item) (t : ReaderState) →
        Reached o (reader_start h) items t → has_ended (latest items []) ≡ false →
        is_adjacent t.laid.last ≡ ends_touching false items }
{}
