//! What the machine of the whole language answers.
ghost use Rattle.std.specs.Prelude.{◌≡◌, ℕ, false, true, ◌⊎◌, List, None, Some, Ok, Err, []};
ghost use Rattle.granit_error.specs.OptionsData.{OptionsData};
ghost use Rattle.granit_order.specs.Answers.{but_comments};
ghost use Rattle.granit_language.specs.TextFault.{NoneTold, OfComments, OfLexemes, OfReading, WholeCause};
ghost use Rattle.granit_language.specs.Telling.{events_told};
ghost use Rattle.granit_language.specs.TreeEvents.{TreeEvent};
ghost use Rattle.granit_language.specs.Whole.{WholeReading};
ghost use Rattle.granit_lexemes.specs.Here.{start_of};
ghost use Rattle.granit_lexemes.specs.Lexeme.{Item};
ghost use Rattle.granit_lexemes.specs.Outcome.{Fault};
ghost use Rattle.granit_lexemes.specs.PlainEvent.{PlainEvent};
ghost use Rattle.granit_machine.specs.Lexing.{lex};
ghost use Rattle.granit_machine.specs.Machine.{run};
ghost use Rattle.granit_machine.specs.Reader.{LexState};
ghost use Rattle.granit_order.specs.Answers.{AnswersReading};
ghost use Rattle.granit_language.specs.Seen.{terminals_of};

/// What is answered is, comments aside, the one reading of the text's lexemes, and a reading of lexemes that are read
/// up to the end is answered, unless a comment that is asked for is one too many. Unasked no comment is told.
pub fn every_answer_is_the_reading_of_its_text()
    ensures answers { (o : OptionsData) (x : List ℕ) (es : List PlainEvent) → run o x ≡ Ok es → AnswersReading o x es }
    ensures readings { (o : OptionsData) (x : List ℕ) (items : List Item) (t : LexState) (es : List TreeEvent) →
        lex o (start_of x) ≡ Ok (items, t) → t.fault ≡ None → WholeReading o (terminals_of items) es →
        NoneTold o true t.reader.laid items → (gs : List PlainEvent) × (run o x ≡ Ok gs)
        × (but_comments gs ≡ events_told o es) }
    ensures unasked { (o : OptionsData) (x : List ℕ) (es : List PlainEvent) → o.emit_comments ≡ false →
        run o x ≡ Ok es → but_comments es ≡ es }
    ensures exact { (o : OptionsData) (x : List ℕ) (items : List Item) (t : LexState) (es : List TreeEvent) →
        o.emit_comments ≡ false →
        lex o (start_of x) ≡ Ok (items, t) → t.fault ≡ None → WholeReading o (terminals_of items) es →
        run o x ≡ Ok (events_told o es) }
{}

/// A text that is refused has a cause: a lexeme with which no reading goes on, what nothing is read of, or, where
/// comments are asked for, one too many of them behind a `-` or `:` that waits for its node.
pub fn every_fault_has_its_cause()
    ensures { (o : OptionsData) (x : List ℕ) (f : Fault) → run o x ≡ Err f → WholeCause o x f }
{}

/// A cause of a text is the answer, wherever it stands: at a lexeme, in what is read, or at a comment. So a text that
/// is answered has none.
pub fn every_cause_is_answered()
    ensures answered { (o : OptionsData) (x : List ℕ) (f : Fault) → WholeCause o x f → run o x ≡ Err f }
    ensures none { (o : OptionsData) (x : List ℕ) (f : Fault) (es : List PlainEvent) → run o x ≡ Ok es →
        WholeCause o x f → ⊥ }
{}

/// A text has one cause at most, and no two sorts of it; where reading stops is one place.
pub fn a_text_has_one_cause()
    ensures one { (o : OptionsData) (x : List ℕ) (f g : Fault) → WholeCause o x f → WholeCause o x g → f ≡ g }
    ensures apart { (o : OptionsData) (x : List ℕ) (f g : Fault) → OfLexemes o x f → OfReading o x g → ⊥ }
    ensures lexemes { (o : OptionsData) (x : List ℕ) (f g : Fault) → OfLexemes o x f → OfComments o x g → ⊥ }
    ensures readings { (o : OptionsData) (x : List ℕ) (f g : Fault) → OfReading o x f → OfComments o x g → ⊥ }
    ensures place { (o : OptionsData) (x : List ℕ) (f g : Fault) → (c : OfReading o x f) → (d : OfReading o x g) →
        (c.items ≡ d.items) × (c.state ≡ d.state) }
{}

/// A text has a reading, whose events are the answer, or a cause.
pub fn every_text_has_a_reading_or_a_cause()
    ensures { (o : OptionsData) (x : List ℕ) → ((es : List PlainEvent) × AnswersReading o x es)
        ⊎ ((f : Fault) × WholeCause o x f) }
{}
