//! At most one list of lexemes and comments stands in a text up to a place.
ghost use Rattle.granit_error.specs.OptionsData.{OptionsData};
ghost use Rattle.granit_language.specs.Reached.{GoesOnTo, Reached, Reads};
ghost use Rattle.granit_lexemes.specs.Here.{Here};
ghost use Rattle.granit_lexemes.specs.Lexeme.{Item};
ghost use Rattle.granit_machine.specs.Lexing.{lex};
ghost use Rattle.granit_machine.specs.Reader.{LexState, read};
ghost use Rattle.granit_machine.specs.ReaderState.{ReaderState, reader_start};
ghost use Rattle.std.specs.Prelude.{◌≡◌, ◌++◌, ◌⊎◌, List, Ok};

/// One read is the only one from its place, and of two lists of items that stand from a place on one goes
/// on with the other.
pub fn one_reading_of_lexemes()
    ensures reads { (o : OptionsData) (s t u : ReaderState) (xs ys : List Item) →
        Reads o s xs t → Reads o s ys u → (xs ≡ ys) × (t ≡ u) }
    ensures lists { (o : OptionsData) (s t u : ReaderState) (xs ys : List Item) →
        Reached o s xs t → Reached o s ys u → GoesOnTo o t xs ys u ⊎ GoesOnTo o u ys xs t }
{}

/// What stands at a place is what one read gives there, and items that stand in a text are the first ones
/// that are read of it.
pub fn every_item_that_stands_is_read()
    ensures one { (o : OptionsData) (s t : ReaderState) (items : List Item) →
        Reads o s items t → read o s ≡ Ok (items, t) }
    ensures all { (o : OptionsData) (h : Here) (xs items : List Item) (u : ReaderState) (t : LexState) →
        Reached o (reader_start h) xs u → lex o h ≡ Ok (items, t) →
        (more : List Item) × (items ≡ xs ++ more) }
{}
