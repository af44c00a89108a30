//! What a feed needs the line of the next token for: where comments stand, and nothing else.
ghost use Rattle.std.specs.Prelude.{◌≡◌, ℕ, Bool, Option, Ok, Err};
ghost use Rattle.granit_error.specs.OptionsData.{OptionsData};
ghost use Rattle.granit_lexemes.specs.Lexeme.{Item};
ghost use Rattle.granit_lexemes.specs.Outcome.{Fault};
ghost use Rattle.granit_machine.specs.Frames.{ParserState};
ghost use Rattle.granit_machine.specs.Lexing.{FlaggedItem};
ghost use Rattle.granit_machine.specs.Parser.{feed, take_item};
ghost use Rattle.granit_shapes.specs.Placeless.{unplaced, unplaced_after, unplaced_step};

/// An item is refused before any next line or before none, with the same fault.
pub fn faults_depend_on_no_line()
    ensures taken { (o : OptionsData) (i : Item) (key : Bool) (next other : Option ℕ) (p : ParserState) (f : Fault)
        → take_item o i key next p ≡ Err f → take_item o i key other p ≡ Err f }
    ensures fed { (o : OptionsData) (i : FlaggedItem) (next other : Option ℕ) (p : ParserState) (f : Fault)
        → feed o i next p ≡ Err f → feed o i other p ≡ Err f }
    ensures passed { (o : OptionsData) (i : Item) (key : Bool) (next other : Option ℕ) (p q : ParserState)
        → take_item o i key next p ≡ Ok q
        → (r : ParserState) × (take_item o i key other p ≡ Ok r) × (unplaced r ≡ unplaced q) }
{}

/// The states and events behind an item before two next lines differ in the placements of comments alone.
pub fn lines_place_comments_alone()
    ensures taken { (o : OptionsData) (i : Item) (key : Bool) (next other : Option ℕ) (p : ParserState)
        → unplaced_step (take_item o i key next p) ≡ unplaced_step (take_item o i key other p) }
    ensures fed { (o : OptionsData) (i : FlaggedItem) (next other : Option ℕ) (p : ParserState)
        → unplaced_after (feed o i next p) ≡ unplaced_after (feed o i other p) }
{}
