//! The places of what is read.
ghost use Rattle.granit_error.specs.OptionsData.{OptionsData};
ghost use Rattle.granit_language.specs.Counting.{ItemsCounted};
ghost use Rattle.granit_language.specs.Reached.{Reached};
ghost use Rattle.granit_lexemes.specs.Here.{start_of};
ghost use Rattle.granit_lexemes.specs.Lexeme.{Item};
ghost use Rattle.granit_machine.specs.ReaderState.{ReaderState, reader_start};
ghost use Rattle.std.specs.Prelude.{List, ℕ};

/// Where each lexeme and each comment begins and ends, the span of it that is shown, and the span of the
/// comment behind it are counted on the whole text, with one list of byte-order marks in front of
/// documents, which count no column.
pub fn every_place_of_a_lexeme_is_counted()
    ensures { (o : OptionsData) (x : List ℕ) (items : List Item) (t : ReaderState) →
        Reached o (reader_start (start_of x)) items t → ItemsCounted x items }
{}
