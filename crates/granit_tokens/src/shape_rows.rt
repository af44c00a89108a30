//! Worked rows of what balances, and of what doesn't.
ghost use Rattle.std.specs.Prelude.{[], ◌∷◌};
ghost use Rattle.granit_base.specs.Place.{Mark};
ghost use Rattle.granit_steps.specs.Tokens.{BlockEnd, BlockMappingStart, BlockSequenceStart, Inserted, KeySign};
ghost use Rattle.granit_steps.specs.Tokens.{PairEnd, PairStart};
ghost use Rattle.granit_tokens.specs.Balanced.{Balanced, BeginsBalanced};

/// A start without its end, an end without its start, and two that cross one another don't balance.
pub fn tokens_that_balance_or_not()
    ensures sequence { (m n : Mark) → Balanced (Inserted BlockSequenceStart m ∷ Inserted BlockEnd n ∷ []) }
    ensures key { (m : Mark) → Balanced (Inserted KeySign m ∷ []) }
    ensures pair { (m n : Mark) → Balanced (Inserted PairStart m ∷ Inserted PairEnd n ∷ []) }
    ensures start_alone { (m : Mark) → Balanced (Inserted BlockMappingStart m ∷ []) → ⊥ }
    ensures end_alone { (m : Mark) → Balanced (Inserted BlockEnd m ∷ []) → ⊥ }
    ensures other_end { (m n : Mark) → Balanced (Inserted PairStart m ∷ Inserted BlockEnd n ∷ []) → ⊥ }
    ensures crossed { (m : Mark) → Balanced (Inserted BlockMappingStart m ∷ Inserted PairStart m ∷ Inserted BlockEnd m
        ∷ Inserted PairEnd m ∷ []) → ⊥ }
    ensures front { (m : Mark) → BeginsBalanced (Inserted BlockMappingStart m ∷ Inserted PairStart m ∷ []) }
    ensures no_front { (m : Mark) → BeginsBalanced (Inserted BlockEnd m ∷ []) → ⊥ }
    ensures no_crossed_front { (m : Mark) → BeginsBalanced (Inserted BlockMappingStart m ∷ Inserted PairStart m
        ∷ Inserted BlockEnd m ∷ []) → ⊥ }
{}
