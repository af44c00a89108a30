//! The plain function on characters answers the name of an anchor or an alias that its definitions say.
ghost use Rattle.std.specs.Prelude.{◌≡◌, ℕ, true, List, [], Ok, Err};
ghost use Rattle.granit_base.specs.Place.{Mark};
ghost use Rattle.granit_base.specs.Written.{Written};
ghost use Rattle.granit_error.specs.FaultKind.{FaultKind};
ghost use Rattle.granit_lexemes.specs.Here.{Here, next_char};
ghost use Rattle.granit_lexemes.specs.Outcome.{Fault, fault_at};
ghost use Rattle.granit_lexemes.specs.Tags.{name_at};
ghost use Rattle.granit_lexemes.specs.NameExtent.{AnswersName, NameStands, RefusesName, is_name_sign};

/// Where its sign stands, an answer is the name that stands there, with all its characters.
pub fn every_name_answer_stands()
    ensures { (h : Here) (name : Written) (after : Here) → is_name_sign (next_char h) ≡ true
        → name_at h ≡ Ok (name, after) → AnswersName h name after }
{}

/// A name that stands there is answered.
pub fn every_name_is_answered()
    ensures { (h : Here) (name : Written) (after : Here) → AnswersName h name after → name_at h ≡ Ok (name, after) }
{}

/// Where its sign stands, the cause of a refusal stands at its mark, and it names no source.
pub fn every_name_refusal_has_its_cause()
    ensures { (h : Here) (f : Fault) → is_name_sign (next_char h) ≡ true → name_at h ≡ Err f
        → RefusesName h f.kind f.mark × (f.sources ≡ []) }
{}

/// What has a cause is refused with exactly that kind at that mark.
pub fn every_name_cause_is_refused()
    ensures { (h : Here) (kind : FaultKind) (m : Mark) → RefusesName h kind m → name_at h ≡ Err (fault_at kind m) }
{}

/// At most one cause of a refusal stands at a place, at one mark.
pub fn one_name_cause()
    ensures { (h : Here) (kind other : FaultKind) (m n : Mark) → RefusesName h kind m → RefusesName h other n
        → (kind ≡ other) × (m ≡ n) }
{}

/// At most one name stands at a place, and what stands behind it is known.
pub fn one_name()
    ensures { (h : Here) (name other rest behind : List ℕ) → NameStands h name rest → NameStands h other behind
        → (name ≡ other) × (rest ≡ behind) }
{}
