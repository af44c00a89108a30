//! The simple keys that are possible.
ghost use Rattle.granit_error.specs.OptionsData.{OptionsData};
ghost use Rattle.granit_invariants.specs.RisingKeys.{KeysRise, possible_keys};
ghost use Rattle.granit_language.specs.Reached.{Reached};
ghost use Rattle.granit_lexemes.specs.Here.{Here};
ghost use Rattle.granit_lexemes.specs.Lexeme.{Item};
ghost use Rattle.granit_machine.specs.ReaderState.{ReaderState, reader_start};
ghost use Rattle.std.specs.Prelude.{List};

/// Wherever reading comes to, each possible key begins behind the one in the bracket around it, by number and by
/// place, and all of them before the next lexeme and before the place of reading.
pub fn possible_keys_rise()
    ensures { (o : OptionsData) (h : Here) (items : List Item) (t : ReaderState) →
        Reached o (reader_start h) items t →
        KeysRise t.laid.number t.here.place.index (possible_keys t.laid) }
{}
