//! Why the gap behind a quoted scalar is refused.
ghost use Rattle.granit_base.specs.Place.{Mark};
ghost use Rattle.granit_before.specs.QuotedGap.{QuotedGapWrong};
ghost use Rattle.granit_error.specs.FaultKind.{FaultKind};
ghost use Rattle.granit_error.specs.OptionsData.{OptionsData};
ghost use Rattle.granit_language.specs.Before.{freshened, in_front};
ghost use Rattle.granit_language.specs.OpenColumns.{latest};
ghost use Rattle.granit_language.specs.Reached.{Reached};
ghost use Rattle.granit_language.specs.Refusing.{GapRefused};
ghost use Rattle.granit_language.specs.Standing.{GapStands, quoted_lexeme_of};
ghost use Rattle.granit_lexemes.specs.Here.{Here, start_of};
ghost use Rattle.granit_lexemes.specs.Lexeme.{Item};
ghost use Rattle.granit_lexemes.specs.QuotedScalar.{QuotedRead};
ghost use Rattle.granit_lexemes.specs.declared.layout.LastLexeme.TheVariants.{Adjacent};
ghost use Rattle.granit_machine.specs.Laid.{behind_lexeme};
ghost use Rattle.granit_machine.specs.LexemeSort.{Placed, QuoteSign};
ghost use Rattle.granit_machine.specs.ReaderState.{ReaderState, reader_start};
ghost use Rattle.std.specs.Prelude.{Bool, List, None, ◌∷◌, ℕ, []};

/// The gap behind a quoted scalar, which is read with it, is refused for a comment that isn't printable, or for a tab
/// of the indentation with something behind it, and for nothing else.
pub fn gaps_behind_quoted_scalars_are_refused_as_lexemes_say()
    ensures said { (o : OptionsData) (text : List ℕ) (items : List Item) (t at : ReaderState) (single ends : Bool)
        (read : QuotedRead) (end : Here) (kind : FaultKind) (m : Mark) →
        Reached o (reader_start (start_of text)) items t → GapStands o t.here t.laid None at →
        GapRefused o end (behind_lexeme Adjacent
        (in_front (Placed (QuoteSign single)) at.here (freshened o at).laid)) kind m →
        QuotedGapWrong o text (quoted_lexeme_of single ends at.here
        (in_front (Placed (QuoteSign single)) at.here (freshened o at).laid) read ∷ latest items []) end kind m }
    ensures refused { (o : OptionsData) (text : List ℕ) (items : List Item) (t at : ReaderState) (single ends : Bool)
        (read : QuotedRead) (end : Here) (kind : FaultKind) (m : Mark) →
        Reached o (reader_start (start_of text)) items t → GapStands o t.here t.laid None at →
        QuotedGapWrong o text (quoted_lexeme_of single ends at.here
        (in_front (Placed (QuoteSign single)) at.here (freshened o at).laid) read ∷ latest items []) end kind m →
        GapRefused o end (behind_lexeme Adjacent
        (in_front (Placed (QuoteSign single)) at.here (freshened o at).laid)) kind m }
{}
