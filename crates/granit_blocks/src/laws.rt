//! The plain function on characters answers the block scalar that its definitions say.
ghost use Rattle.std.specs.Prelude.{◌≡◌, ℕ, Bool, List, [], Option, Ok, Err};
ghost use Rattle.granit_lexemes.specs.BlockExtent.{AnswersBlock, RefusesBlock};
ghost use Rattle.granit_lexemes.specs.BlockMoves.{Covers};
ghost use Rattle.granit_lexemes.specs.BlockScalar.{BlockGiven, block_scalar};
ghost use Rattle.granit_lexemes.specs.Here.{Here};
ghost use Rattle.granit_base.specs.Place.{Mark};
ghost use Rattle.granit_error.specs.FaultKind.{FaultKind};
ghost use Rattle.granit_lexemes.specs.Outcome.{Fault, fault_at};

/// An answer is the block scalar that stands there, with its value, and nothing at it is refused.
pub fn every_block_answer_stands()
    ensures { (literal : Bool) (block : Option ℕ) (h : Here) (given : BlockGiven) (after : Here)
        → block_scalar literal block h ≡ Ok (given, after) → AnswersBlock literal block h given after }
{}

/// A block scalar that stands there, and at which nothing is refused, is answered.
pub fn every_block_scalar_is_answered()
    ensures { (literal : Bool) (block : Option ℕ) (h : Here) (given : BlockGiven) (after : Here)
        → AnswersBlock literal block h given after → block_scalar literal block h ≡ Ok (given, after) }
{}

/// The cause of a refusal stands at its mark, and it names no source.
pub fn every_block_refusal_has_its_cause()
    ensures { (literal : Bool) (block : Option ℕ) (h : Here) (f : Fault) → block_scalar literal block h ≡ Err f
        → RefusesBlock literal block h f.kind f.mark × (f.sources ≡ []) }
{}

/// At most one block scalar stands at a place.
pub fn one_block_scalar()
    ensures { (literal : Bool) (block : Option ℕ) (h : Here) (given other : BlockGiven) (after further : Here)
        → AnswersBlock literal block h given after → AnswersBlock literal block h other further
        → (given ≡ other) × (after ≡ further) }
{}

/// What has a cause is refused with it: no two causes stand at a scalar, and none where one is answered.
pub fn every_block_cause_is_refused()
    ensures { (literal : Bool) (block : Option ℕ) (h : Here) (kind : FaultKind) (m : Mark)
        → RefusesBlock literal block h kind m → block_scalar literal block h ≡ Err (fault_at kind m) }
{}

/// Where a block scalar stands, characters of the text stand from its indicator up to its end.
pub fn every_block_scalar_spans_its_source()
    ensures { (literal : Bool) (block : Option ℕ) (h : Here) (given : BlockGiven) (after : Here)
        → AnswersBlock literal block h given after → (source : List ℕ) × Covers h source after }
{}
