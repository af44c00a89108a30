//! The plain function on characters answers the plain scalar that its definitions say.
ghost use Rattle.std.specs.Prelude.{◌≡◌, ℕ, true, List, [], Ok, Err};
ghost use Rattle.granit_base.specs.Place.{Mark};
ghost use Rattle.granit_error.specs.FaultKind.{FaultKind};
ghost use Rattle.granit_lexemes.specs.Here.{Here};
ghost use Rattle.granit_lexemes.specs.LayoutData.{LayoutData};
ghost use Rattle.granit_lexemes.specs.Outcome.{Fault, fault_at};
ghost use Rattle.granit_lexemes.specs.PlainExtent.{AnswersPlain, PlainExtent, PlainStands, RefusesPlain, Separation};
ghost use Rattle.granit_lexemes.specs.PlainScalar.{PlainRead, plain_scalar};
ghost use Rattle.granit_base.specs.PlainContent.{is_content};

/// Where content begins, an answer is the plain scalar that stands there, as far as its spelling goes,
/// with its value, what ends it, and where reading then stands; and nothing at it is refused.
pub fn every_plain_answer_stands()
    ensures { (at : LayoutData) (h : Here) (read : PlainRead) (after : Here)
        → is_content at.in_flow h.unread.text ≡ true → plain_scalar at h ≡ Ok (read, after)
        → AnswersPlain at h read after }
{}

/// A plain scalar that stands there, and at which nothing is refused, is answered.
pub fn every_plain_scalar_is_answered()
    ensures { (at : LayoutData) (h : Here) (read : PlainRead) (after : Here) → AnswersPlain at h read after
        → plain_scalar at h ≡ Ok (read, after) }
{}

/// Where content begins, the cause of a refusal stands at its mark, and it names no source.
pub fn every_plain_refusal_has_its_cause()
    ensures { (at : LayoutData) (h : Here) (f : Fault) → is_content at.in_flow h.unread.text ≡ true
        → plain_scalar at h ≡ Err f → RefusesPlain at h f.kind f.mark × (f.sources ≡ []) }
{}

/// A text begins with at most one plain scalar, and what stands behind one is known by where it stands.
pub fn one_plain_scalar()
    ensures extent { (at : LayoutData) (text source behind other rest : List ℕ) → PlainExtent at text source behind
        → PlainExtent at text other rest → source ≡ other }
    ensures standing { (at : LayoutData) (h : Here) (source other : List ℕ) (tail gap : Separation)
        (behind rest : List ℕ) → PlainStands at h source tail behind → PlainStands at h other gap rest
        → (source ≡ other) × (tail ≡ gap) × (behind ≡ rest) }
{}

/// Where content begins, what has a cause is refused with exactly that kind at that mark, so at most one has.
pub fn every_plain_cause_is_refused()
    ensures { (at : LayoutData) (h : Here) (kind : FaultKind) (m : Mark) →
        is_content at.in_flow h.unread.text ≡ true → RefusesPlain at h kind m →
        plain_scalar at h ≡ Err (fault_at kind m) }
{}
