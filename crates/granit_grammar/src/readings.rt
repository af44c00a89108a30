//! Readings: streams that also fit the lexemes' lines and the numbers of their keys.
ghost use Rattle.std.specs.Prelude.{◌≡◌, List, [], ◌∷◌, Option, None};
ghost use Rattle.granit_grammar.specs.TreeMachine.{parse, tree_start, ReadAs};
ghost use Rattle.granit_language.specs.Node.{Stream};
ghost use Rattle.granit_language.specs.Reading.{KeysFit, LinesFit, IsReading};
ghost use Rattle.granit_language.specs.Terminal.{Terminal};

/// Where the lexemes' lines fit and each `:` names the last lexeme at its depth that begins a simple key, what is
/// parsed is a reading; and lexemes have at most one.
pub fn one_reading()
    ensures reading { (xs : List Terminal) (s : Stream) → LinesFit xs → KeysFit (None ∷ []) xs
        → parse xs tree_start ≡ ReadAs s →
        IsReading xs s }
    ensures one { (xs : List Terminal) (a b : Stream) → IsReading xs a → IsReading xs b → a ≡ b }
{}
