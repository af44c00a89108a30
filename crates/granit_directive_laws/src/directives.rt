//! The plain function on characters answers the directive that its definitions say, with its line's end.
ghost use Rattle.std.specs.Prelude.{◌≡◌, [], Ok, Err};
ghost use Rattle.granit_base.specs.Place.{Mark};
ghost use Rattle.granit_error.specs.FaultKind.{FaultKind};
ghost use Rattle.granit_error.specs.OptionsData.{OptionsData};
ghost use Rattle.granit_lexemes.specs.Directive.{DirectiveRead, directive};
ghost use Rattle.granit_lexemes.specs.DirectiveExtent.{AnswersDirective, RefusesDirective};
ghost use Rattle.granit_lexemes.specs.Here.{Here, next_char};
ghost use Rattle.granit_lexemes.specs.Outcome.{Fault, fault_at};
ghost use Rattle.granit_lexemes.specs.DirectiveCause.{DirectiveCause};

/// Where its `%` stands, an answer is the directive that stands there, with the comment behind it on its
/// line, and where reading then stands, in front of its line's end.
pub fn every_directive_answer_stands()
    ensures { (o : OptionsData) (h : Here) (read : DirectiveRead) (after : Here) → next_char h ≡ 0x25
        → directive o h ≡ Ok (read, after) → AnswersDirective o h read after }
{}

/// A directive that stands there is answered.
pub fn every_directive_is_answered()
    ensures { (o : OptionsData) (h : Here) (read : DirectiveRead) (after : Here) → AnswersDirective o h read after
        → directive o h ≡ Ok (read, after) }
{}

/// Where its `%` stands, the cause of a refusal stands at its mark, and it names no source.
pub fn every_directive_refusal_has_its_cause()
    ensures { (o : OptionsData) (h : Here) (f : Fault) → next_char h ≡ 0x25 → directive o h ≡ Err f
        → RefusesDirective o h f.kind f.mark × (f.sources ≡ []) }
{}

/// The cause of a refusal is the first one: before it nothing is wrong within the limit of bytes.
pub fn every_directive_refusal_has_its_first_cause()
    ensures { (o : OptionsData) (h : Here) (f : Fault) → next_char h ≡ 0x25 → directive o h ≡ Err f
        → DirectiveCause o h f.kind f.mark × (f.sources ≡ []) }
{}

/// What has a first cause is refused with exactly that kind at that mark.
pub fn every_directive_cause_is_refused()
    ensures { (o : OptionsData) (h : Here) (kind : FaultKind) (m : Mark) → DirectiveCause o h kind m
        → directive o h ≡ Err (fault_at kind m) }
{}

/// At most one first cause of a refusal stands at a place, at one mark.
pub fn one_directive_cause()
    ensures { (o : OptionsData) (h : Here) (kind other : FaultKind) (m n : Mark) → DirectiveCause o h kind m
        → DirectiveCause o h other n → (kind ≡ other) × (m ≡ n) }
{}

/// At most one directive stands at a place.
pub fn one_directive()
    ensures { (o : OptionsData) (h : Here) (read other : DirectiveRead) (after behind : Here)
        → AnswersDirective o h read after → AnswersDirective o h other behind → (read ≡ other) × (after ≡ behind) }
{}
