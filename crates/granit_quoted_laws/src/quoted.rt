//! The plain function on characters answers the quoted scalar that its definitions say.
ghost use Rattle.std.specs.Prelude.{◌≡◌, ℕ, Bool, List, [], ◌++◌, Ok, Err};
ghost use Rattle.granit_base.specs.Place.{Mark};
ghost use Rattle.granit_error.specs.FaultKind.{FaultKind};
ghost use Rattle.granit_lexemes.specs.Folding.{folded};
ghost use Rattle.granit_lexemes.specs.Gap.{Each};
ghost use Rattle.granit_lexemes.specs.Here.{Here, next_char};
ghost use Rattle.granit_lexemes.specs.LayoutData.{LayoutData};
ghost use Rattle.granit_lexemes.specs.Outcome.{Fault, fault_at};
ghost use Rattle.granit_lexemes.specs.QuotedExtent.{AnswersQuoted, Between, QuotedStands, RefusesQuoted};
ghost use Rattle.granit_lexemes.specs.QuotedExtent.{quoted_value};
ghost use Rattle.granit_lexemes.specs.QuotedScalar.{is_simple};
ghost use Rattle.granit_lexemes.specs.QuotedScalar.{QuotedRead, quote_char, quoted_scalar};

/// Where its quote stands, an answer is the quoted scalar that stands there up to its closing quote, with
/// its value, the comment behind it, and where reading then stands.
pub fn every_quoted_answer_stands()
    ensures { (single : Bool) (at : LayoutData) (h : Here) (read : QuotedRead) (after : Here)
        → next_char h ≡ quote_char single → quoted_scalar single at h ≡ Ok (read, after)
        → AnswersQuoted single at h read after }
{}

/// A quoted scalar that stands there, with what may follow it, is answered.
pub fn every_quoted_scalar_is_answered()
    ensures { (single : Bool) (at : LayoutData) (h : Here) (read : QuotedRead) (after : Here)
        → AnswersQuoted single at h read after → quoted_scalar single at h ≡ Ok (read, after) }
{}

/// Where its quote stands, the cause of a refusal stands at its mark, and it names no source.
pub fn every_quoted_refusal_has_its_cause()
    ensures { (single : Bool) (at : LayoutData) (h : Here) (f : Fault) → next_char h ≡ quote_char single
        → quoted_scalar single at h ≡ Err f → RefusesQuoted single at h f.kind f.mark × (f.sources ≡ []) }
{}

/// What has a cause is refused with exactly that kind at that mark.
pub fn every_quoted_cause_is_refused()
    ensures { (single : Bool) (at : LayoutData) (h : Here) (kind : FaultKind) (m : Mark)
        → RefusesQuoted single at h kind m → quoted_scalar single at h ≡ Err (fault_at kind m) }
{}

/// At most one cause of a refusal stands at a place, at one mark.
pub fn one_quoted_cause()
    ensures { (single : Bool) (at : LayoutData) (h : Here) (kind other : FaultKind) (m n : Mark)
        → RefusesQuoted single at h kind m → RefusesQuoted single at h other n → (kind ≡ other) × (m ≡ n) }
{}

/// At most one quoted scalar stands at a place: what is between its quotes, what that spells, and what
/// stands behind it are known.
pub fn one_quoted_scalar()
    ensures { (single : Bool) (at : LayoutData) (h : Here) (source value gap : List ℕ) (left : Bool) (x : Between)
        (rest : List ℕ) (other spelled further : List ℕ) (right : Bool) (y : Between) (behind : List ℕ)
        → QuotedStands single at h source value gap left x rest
        → QuotedStands single at h other spelled further right y behind
        → (source ++ gap ≡ other ++ further) × (quoted_value value left x ≡ quoted_value spelled right y)
        × (rest ≡ behind) }
{}

/// Where neither the quote nor, between double quotes, a backslash is among them, what stands between the
/// quotes spells the fold of its lines.
pub fn simple_quoted_scalars_fold()
    ensures { (single : Bool) (at : LayoutData) (h : Here) (source value gap : List ℕ) (left : Bool) (x : Between)
        (rest : List ℕ) → QuotedStands single at h source value gap left x rest
        → Each (is_simple single) (source ++ gap) → quoted_value value left x ≡ folded (source ++ gap) }
{}
