//! What is read of a text is what it holds.
ghost use Rattle.granit_error.specs.OptionsData.{OptionsData};
ghost use Rattle.granit_language.specs.Reached.{EndsBy, Reached, ReadWhole};
ghost use Rattle.granit_lexemes.specs.Here.{Here};
ghost use Rattle.granit_lexemes.specs.Lexeme.{Item};
ghost use Rattle.granit_lexemes.specs.Outcome.{Fault};
ghost use Rattle.granit_machine.specs.Lexing.{lex};
ghost use Rattle.granit_machine.specs.Reader.{LexState};
ghost use Rattle.granit_machine.specs.ReaderState.{ReaderState, reader_start};
ghost use Rattle.std.specs.Prelude.{◌≡◌, Bool, Err, List, Ok, is_none};

/// The items that are read stand in the text in this order, and the state behind them is what they say.
pub fn what_is_read_stands()
    ensures { (o : OptionsData) (h : Here) (items : List Item) (t : LexState) →
        lex o h ≡ Ok (items, t) →
        Reached o (reader_start h) items t.reader }
{}

/// Reading ends behind the end of the text, or where what stands is refused, with its cause.
pub fn every_reading_goes_to_an_end()
    ensures { (o : OptionsData) (h : Here) (items : List Item) (t : LexState) →
        lex o h ≡ Ok (items, t) → EndsBy o items t.reader t.fault }
{}

/// What reading comes to are all items of the text, up to its end or to a place from which nothing is read; and all
/// items are what it comes to.
pub fn all_items_are_read()
    ensures come { (o : OptionsData) (h : Here) (items : List Item) (t : LexState) →
        lex o h ≡ Ok (items, t) →
        ReadWhole o (reader_start h) items (is_none t.fault) t.reader }
    ensures are { (o : OptionsData) (h : Here) (items : List Item) (ended : Bool) (s : ReaderState) →
        ReadWhole o (reader_start h) items ended s →
        (t : LexState) × (lex o h ≡ Ok (items, t)) × (is_none t.fault ≡ ended) × (t.reader ≡ s) }
    ensures one { (o : OptionsData) (h : Here) (xs ys : List Item) (a b : Bool) (s t : ReaderState) →
        ReadWhole o (reader_start h) xs a s → ReadWhole o (reader_start h) ys b t →
        (xs ≡ ys) × (a ≡ b) × (s ≡ t) }
{}

/// Reading gives items and a state for each text.
pub fn every_text_is_read()
    ensures { (o : OptionsData) (h : Here) (f : Fault) → lex o h ≡ Err f → ⊥ }
{}
