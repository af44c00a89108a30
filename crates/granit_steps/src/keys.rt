//! Simple keys: when they are possible, and which lexemes begin them.
ghost use Rattle.std.specs.Prelude.{◌≡◌, ℕ, ◌<◌, ◌≤◌, false, List, Ok};
ghost use Rattle.granit_error.specs.OptionsData.{OptionsData};
ghost use Rattle.granit_lexemes.specs.Here.{Here};
ghost use Rattle.granit_lexemes.specs.Lexeme.{Item};
ghost use Rattle.granit_machine.specs.Lexing.{lex};
ghost use Rattle.granit_machine.specs.PossibleKeys.{is_possible};
ghost use Rattle.granit_machine.specs.Reader.{read};
ghost use Rattle.granit_machine.specs.ReaderState.{ReaderState};
ghost use Rattle.granit_steps.specs.Told.{FlagsOf};

/// Once no key can begin with a lexeme, none ever can again.
pub fn no_key_is_possible_again()
    ensures { (o : OptionsData) (s t : ReaderState) (items : List Item) (n : ℕ) → read o s ≡ Ok (items, t)
        → n < s.laid.number → is_possible n s.laid ≡ false → is_possible n t.laid ≡ false }
{}

/// No key is possible before its first lexeme is read.
pub fn no_key_is_possible_yet()
    ensures { (o : OptionsData) (s t : ReaderState) (items : List Item) (n : ℕ) → read o s ≡ Ok (items, t)
        → t.laid.number ≤ n → is_possible n s.laid ≡ false → is_possible n t.laid ≡ false }
{}

/// Keys nest: the flags that a stack gives are those that the numbers give.
pub fn flags_are_by_number()
    ensures { (o : OptionsData) (h : Here) → FlagsOf (lex o h) }
{}
