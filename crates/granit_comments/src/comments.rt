//! What an answer tells of the comments of its text, and what is answered without them.
ghost use Rattle.std.specs.Prelude.{◌≡◌, ◌⊎◌, ℕ, List, Ok, Err, false, true};
ghost use Rattle.granit_comments.specs.TextComments.{TellsComments, ToldUnasked};
ghost use Rattle.granit_error.specs.FaultKind.{TooManyComments};
ghost use Rattle.granit_error.specs.OptionsData.{OptionsData};
ghost use Rattle.granit_quiet.specs.Quiet.{asking, but_comments};
ghost use Rattle.granit_lexemes.specs.Outcome.{Fault};
ghost use Rattle.granit_lexemes.specs.PlainEvent.{PlainEvent};
ghost use Rattle.granit_machine.specs.Machine.{run};

/// Where comments are asked for, the Comment events of an answer are in order exactly the comments of its text, each
/// where it stands; unasked there are none. A text is answered only where none of them is one too many.
pub fn answers_tell_the_comments()
    ensures { (o : OptionsData) (x : List ℕ) (es : List PlainEvent) → run o x ≡ Ok es → TellsComments o x es }
{}

/// Without comments a text is answered with the events that it has with them, but for the comments, all spans kept; so
/// where both are answers they differ in nothing else. Where it is answered without them, it is with them, or one of
/// them is one too many.
pub fn comments_off_leave_the_rest()
    ensures off { (o : OptionsData) (x : List ℕ) (es : List PlainEvent) → run o x ≡ Ok es → ToldUnasked o x es }
    ensures both { (o : OptionsData) (x : List ℕ) (es ds : List PlainEvent) → run o x ≡ Ok es →
        run (asking false o) x ≡ Ok ds → ds ≡ but_comments es }
    ensures on { (o : OptionsData) (x : List ℕ) (es : List PlainEvent) → run (asking false o) x ≡ Ok es →
        ((ds : List PlainEvent) × (run (asking true o) x ≡ Ok ds) × (but_comments ds ≡ es))
        ⊎ ((f : Fault) × (run (asking true o) x ≡ Err f) × (f.kind ≡ TooManyComments)) }
{}
