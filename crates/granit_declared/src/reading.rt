//! What a text is read as, and why it is refused.
ghost use Rattle.granit_order.specs.Answers.{AnswersReading};
ghost use Rattle.granit_declared.specs.DeclaredCause.{DeclaredCause};
ghost use Rattle.granit_declared.specs.DeclaredReading.{DeclaredReading};
ghost use Rattle.granit_error.specs.OptionsData.{OptionsData};
ghost use Rattle.granit_language.specs.TextFault.{WholeCause};
ghost use Rattle.granit_lexemes.specs.Outcome.{Fault};
ghost use Rattle.granit_lexemes.specs.PlainEvent.{PlainEvent};
ghost use Rattle.std.specs.Prelude.{List, ℕ};

/// What an answer is to the readings of its text is declared without the functions that read a text and flag its
/// lexemes: all items stand in the text up to its end, and are flagged where simple keys begin.
pub fn the_reading_of_an_answer_is_declared()
    ensures declared { (o : OptionsData) (x : List ℕ) (es : List PlainEvent) →
        AnswersReading o x es → DeclaredReading o x es }
    ensures answered { (o : OptionsData) (x : List ℕ) (es : List PlainEvent) →
        DeclaredReading o x es → AnswersReading o x es }
{}

/// The cause of a refusal is declared without them too: its items are all of the text, up to its end or to a place from
/// which nothing is read.
pub fn the_cause_of_a_refusal_is_declared()
    ensures declared { (o : OptionsData) (x : List ℕ) (f : Fault) → WholeCause o x f → DeclaredCause o x f }
    ensures caused { (o : OptionsData) (x : List ℕ) (f : Fault) → DeclaredCause o x f → WholeCause o x f }
{}
