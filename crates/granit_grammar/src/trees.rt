//! The machine that builds trees, and the place where a list of lexemes goes on.
ghost use Rattle.std.specs.Prelude.{◌≡◌, List, [], ◌∷◌};
ghost use Rattle.granit_grammar.specs.TreeMachine.{parse, tree_start, tree_step, ReadAs, NotTaken};
ghost use Rattle.granit_language.specs.Node.{Stream};
ghost use Rattle.granit_language.specs.OpenPlace.{OpenPlace, OpenPlaced, HasOneName, spell_open};
ghost use Rattle.granit_language.specs.Placed.{StreamPlaced};
ghost use Rattle.granit_language.specs.Settling.{settle_place};
ghost use Rattle.granit_language.specs.Terminal.{Terminal};
ghost use Rattle.granit_language.specs.Yield.{spell_stream};

/// What is parsed is a placed stream that spells the lexemes; each placed stream is parsed from what it spells; and
/// lexemes are spelled by at most one.
pub fn parsing_gives_the_one_stream()
    ensures stands { (xs : List Terminal) (s : Stream) → parse xs tree_start ≡ ReadAs s
        → (spell_stream s [] ≡ xs) × StreamPlaced s }
    ensures answered { (s : Stream) → StreamPlaced s → parse (spell_stream s []) tree_start ≡ ReadAs s }
    ensures one { (a b : Stream) → StreamPlaced a → StreamPlaced b → spell_stream a [] ≡ spell_stream b [] → a ≡ b }
{}

/// The lexemes before an open place lead to it. Where the next one isn't admitted, the open place is one, and no list
/// of lexemes that begins so is spelled by a placed stream.
pub fn no_stream_goes_on()
    ensures leads { (p : OpenPlace) (x : Terminal) (rest : List Terminal) → HasOneName p → OpenPlaced x p →
        parse (spell_open p (x ∷ rest)) tree_start ≡ parse (x ∷ rest) p }
    ensures one_place { (p q : OpenPlace) (x : Terminal) → HasOneName p → HasOneName q →
        OpenPlaced x p → OpenPlaced x q →
        spell_open p (x ∷ []) ≡ spell_open q (x ∷ []) → tree_step p x ≡ NotTaken → settle_place x p ≡ settle_place x q }
    ensures none { (p : OpenPlace) (x : Terminal) (rest : List Terminal) (s : Stream) → HasOneName p → OpenPlaced x p →
        tree_step p x ≡ NotTaken → StreamPlaced s → spell_stream s [] ≡ spell_open p (x ∷ rest) → ⊥ }
{}
