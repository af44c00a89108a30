//! A text is read in one way at most, as trees and as events.
ghost use Rattle.granit_declared.specs.DeclaredReading.{AnswersReading};
ghost use Rattle.granit_declared.specs.DeclaredReading.{DeclaredReading};
ghost use Rattle.granit_error.specs.OptionsData.{OptionsData};
ghost use Rattle.granit_quiet.specs.CommentEvents.{only_comments};
ghost use Rattle.granit_quiet.specs.Quiet.{but_comments};
ghost use Rattle.granit_language.specs.Node.{Stream};
ghost use Rattle.granit_language.specs.Scoping.{Means};
ghost use Rattle.granit_language.specs.Telling.{events_told};
ghost use Rattle.granit_language.specs.TextFault.{NoneTooMany};
ghost use Rattle.granit_language.specs.TreeEvents.{stream_events};
ghost use Rattle.granit_language.specs.Within.{stream_within};
ghost use Rattle.granit_language.specs.Yield.{spell_stream};
ghost use Rattle.granit_lexemes.specs.PlainEvent.{PlainEvent};
ghost use Rattle.granit_machine.specs.Machine.{run};
ghost use Rattle.granit_readings.specs.ReadAsTrees.{ReadAsTrees, TellsTrees};
ghost use Rattle.std.specs.Prelude.{◌≡◌, List, Ok, [], true, ℕ};

/// A text is read as one list of documents at most, over one list of flagged items. A text that is answered is read as
/// the documents whose events its answer tells; and a text that is read so is answered with their events, where they
/// keep the limit, all means something, and no comment that is asked for is one too many.
pub fn a_text_is_read_as_one_list_of_trees()
    ensures one { (o : OptionsData) (x : List ℕ) (s t : Stream) → ReadAsTrees o x s → ReadAsTrees o x t → s ≡ t }
    ensures items { (o : OptionsData) (x : List ℕ) (s t : Stream) → (a : ReadAsTrees o x s) → (b : ReadAsTrees o x t) →
        a.items ≡ b.items }
    ensures of_answer { (o : OptionsData) (x : List ℕ) (es : List PlainEvent) → run o x ≡ Ok es →
        TellsTrees o x es }
    ensures of_events { (o : OptionsData) (x : List ℕ) (es : List PlainEvent) → (d : DeclaredReading o x es) →
        ReadAsTrees o x d.reading.stream }
    ensures answered { (o : OptionsData) (x : List ℕ) (s : Stream) → (r : ReadAsTrees o x s) →
        stream_within o.block_nesting_limit s ≡ true → Means o (spell_stream s []) →
        (o.emit_comments ≡ true → NoneTooMany o r.items) →
        (es : List PlainEvent) × (run o x ≡ Ok es) × (but_comments es ≡ events_told o (stream_events s [])) }
{}

/// Two readings of a text are over the same items and trees and tell the same events; the comments among them, which
/// are told apart from these, are the same where they are asked for.
pub fn a_text_tells_one_list_of_events()
    ensures declared { (o : OptionsData) (x : List ℕ) (es gs : List PlainEvent) → (a : DeclaredReading o x es) →
        (b : DeclaredReading o x gs) →
        (a.items ≡ b.items) × (a.reading.stream ≡ b.reading.stream) × (a.tree_events ≡ b.tree_events)
        × (but_comments es ≡ but_comments gs) × (o.emit_comments ≡ true → only_comments es ≡ only_comments gs) }
    ensures answers { (o : OptionsData) (x : List ℕ) (es gs : List PlainEvent) → (a : AnswersReading o x es) →
        (b : AnswersReading o x gs) →
        (a.items ≡ b.items) × (a.reading.stream ≡ b.reading.stream) × (a.tree_events ≡ b.tree_events)
        × (but_comments es ≡ but_comments gs) × (o.emit_comments ≡ true → only_comments es ≡ only_comments gs) }
{}
