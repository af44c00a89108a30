//! The plain function on characters answers the tag that its definitions say.
ghost use Rattle.std.specs.Prelude.{◌≡◌, ℕ, Bool, List, [], Ok, Err};
ghost use Rattle.granit_base.specs.Place.{Mark};
ghost use Rattle.granit_error.specs.FaultKind.{FaultKind};
ghost use Rattle.granit_lexemes.specs.Here.{Here, next_char};
ghost use Rattle.granit_lexemes.specs.Outcome.{Fault, fault_at};
ghost use Rattle.granit_lexemes.specs.Tags.{TagRead, tag_at};
ghost use Rattle.granit_lexemes.specs.TagExtent.{AnswersTag, RefusesTag, TagStands};

/// Where its `!` stands, an answer is the tag that stands there, with its handle and what its URI or
/// suffix spells, and where reading then stands.
pub fn every_tag_answer_stands()
    ensures { (in_flow : Bool) (h : Here) (kind : TagRead) (after : Here) → next_char h ≡ 0x21
        → tag_at in_flow h ≡ Ok (kind, after) → AnswersTag in_flow h kind after }
{}

/// A tag that stands there is answered.
pub fn every_tag_is_answered()
    ensures { (in_flow : Bool) (h : Here) (kind : TagRead) (after : Here) → AnswersTag in_flow h kind after
        → tag_at in_flow h ≡ Ok (kind, after) }
{}

/// Where its `!` stands, the cause of a refusal stands at its mark, and it names no source.
pub fn every_tag_refusal_has_its_cause()
    ensures { (in_flow : Bool) (h : Here) (f : Fault) → next_char h ≡ 0x21 → tag_at in_flow h ≡ Err f
        → RefusesTag in_flow h f.kind f.mark × (f.sources ≡ []) }
{}

/// What has a cause is refused with exactly that kind at that mark.
pub fn every_tag_cause_is_refused()
    ensures { (in_flow : Bool) (h : Here) (kind : FaultKind) (m : Mark) → RefusesTag in_flow h kind m
        → tag_at in_flow h ≡ Err (fault_at kind m) }
{}

/// At most one cause of a refusal stands at a place, at one mark.
pub fn one_tag_cause()
    ensures { (in_flow : Bool) (h : Here) (kind other : FaultKind) (m n : Mark) → RefusesTag in_flow h kind m
        → RefusesTag in_flow h other n → (kind ≡ other) × (m ≡ n) }
{}

/// At most one tag stands at a place: its characters, its handle, what it spells, and what stands behind
/// it are known.
pub fn one_tag()
    ensures { (in_flow : Bool) (h : Here) (source handle suffix rest other name text behind : List ℕ)
        → TagStands in_flow h source handle suffix rest → TagStands in_flow h other name text behind
        → (source ≡ other) × (handle ≡ name) × (suffix ≡ text) × (rest ≡ behind) }
{}
