//! Worked examples of what is declared, by computation: each where it holds, and one character or one lexeme away
//! where it doesn't.
ghost use Rattle.granit_error.specs.FaultKind.{InvalidBlockEntryWhitespace, InvalidDocumentEnd};
ghost use Rattle.granit_error.specs.FaultKind.{MisplacedFlowCollectionEnd, UnexpectedCharacter};
ghost use Rattle.granit_error.specs.OptionsData.{default_options};
ghost use Rattle.granit_language.specs.Allowed.{DashBehindTab, FarBelow, GoesOnBehind, InBlock, LeftBehind};
ghost use Rattle.granit_language.specs.Allowed.{EntryMayBegin, MayPrefix, NulBehind, OpenerBehind};
ghost use Rattle.granit_lexemes.specs.Here.{mark_of, start_of};
ghost use Rattle.granit_lexemes.specs.declared.layout.Bracket.TheVariants.{Curly, Square};
ghost use Rattle.granit_lexemes.specs.declared.layout.LastLexeme.TheVariants.{Another, BehindDash, BehindQuestion};
ghost use Rattle.granit_lexemes.specs.declared.layout.LastLexeme.TheVariants.{Opener};
ghost use Rattle.granit_machine.specs.Laid.{laid_start};
ghost use Rattle.granit_read_answers.specs.Examples.{Caused, Uncaused, after_characters, first_key};
ghost use Rattle.granit_read_answers.specs.Examples.{in_bracket, in_column};
ghost use Rattle.std.specs.Prelude.{[], ◌∷◌, ◌++◌, codes};

/// Where an entry may begin.
pub fn entries_of_the_examples()
    ensures line { EntryMayBegin (after_characters 0 (codes "- a")) laid_start }
    ensures inside_line { EntryMayBegin (after_characters 2 (codes "a - b")) laid_start → ⊥ }
    ensures dash { EntryMayBegin (after_characters 2 (codes "- - a")) (in_column 0 BehindDash) }
    ensures question { EntryMayBegin (after_characters 2 (codes "? - a")) (in_column 0 BehindQuestion) }
    ensures question_tab { EntryMayBegin (after_characters 2 ((codes "?") ++ (0x9 ∷ []) ++ (codes "- a")))
        (in_column 0 BehindQuestion) → ⊥ }
    ensures opener { EntryMayBegin (after_characters 1 (codes "[a")) (in_bracket Square 0 Opener) }
    ensures in_flow { EntryMayBegin (after_characters 2 (codes "[a")) (in_bracket Square 0 Another) → ⊥ }
{}

/// What stands behind signs.
pub fn signs_of_the_examples()
    ensures tabbed { DashBehindTab (after_characters 2 ((codes "-") ++ (0x9 ∷ []) ++ (codes "- a"))) }
    ensures untabbed { DashBehindTab (after_characters 2 (codes "- - a")) → ⊥ }
    ensures no_sign { DashBehindTab (after_characters 2 ((codes "-") ++ (0x9 ∷ []) ++ (codes "-a"))) → ⊥ }
    ensures nul { NulBehind (after_characters 0 ((codes "?") ++ (0 ∷ []))) }
    ensures end { NulBehind (after_characters 0 (codes "?")) → ⊥ }
    ensures touching { OpenerBehind (after_characters 0 (codes ":[")) }
    ensures apart { OpenerBehind (after_characters 0 (codes ": [")) → ⊥ }
{}

/// Keys, tabs and comments between lines, and byte-order marks.
pub fn lines_of_the_examples()
    ensures far { FarBelow (after_characters 2 ((0xA ∷ []) ++ (codes " :"))) (in_bracket Square 0 Another) first_key }
    ensures far_left { FarBelow (after_characters 1 ((0xA ∷ []) ++ (codes ":")))
        (in_bracket Curly 0 Another) first_key }
    ensures near { FarBelow (after_characters 2 ((0xA ∷ []) ++ (codes " :")))
        (in_bracket Curly 0 Another) first_key → ⊥ }
    ensures left_behind { LeftBehind default_options laid_start (mark_of (after_characters 1 (0xA ∷ []))) first_key }
    ensures in_flow { LeftBehind default_options (in_bracket Curly 0 Another) (mark_of (after_characters 1 (0xA ∷ [])))
        first_key → ⊥ }
    ensures left_tab { InBlock default_options (in_column 1 Another) (mark_of (start_of (0x9 ∷ []))) }
    ensures right_tab { InBlock default_options (in_column 0 Another) (mark_of (start_of (0x9 ∷ []))) → ⊥ }
    ensures cut { GoesOnBehind laid_start (after_characters 1 ((0xA ∷ []) ++ (codes "b"))) (mark_of (start_of [])) }
    ensures marked { GoesOnBehind laid_start (after_characters 1 ((0xA ∷ []) ++ (codes "---")))
        (mark_of (start_of [])) → ⊥ }
    ensures later { GoesOnBehind laid_start (after_characters 2 ((0xA ∷ 0xA ∷ []) ++ (codes "b")))
        (mark_of (start_of [])) → ⊥ }
    ensures prefix { MayPrefix laid_start }
    ensures no_prefix { MayPrefix (in_bracket Square 0 Opener) → ⊥ }
{}

/// Causes at the start of a text, and texts at whose start none stands.
pub fn causes_of_the_examples()
    ensures closer { Caused (codes "]") MisplacedFlowCollectionEnd 0 }
    ensures opener { Uncaused (codes "[") }
    ensures nothing { Caused (codes "@") (UnexpectedCharacter 0x40) 0 }
    ensures alias { Uncaused (codes "*a") }
    ensures tabbed { Caused ((codes "-") ++ (0x9 ∷ []) ++ (codes "- a")) InvalidBlockEntryWhitespace 2 }
    ensures untabbed { Uncaused (codes "- - a") }
    ensures behind_dots { Caused (codes "... x") InvalidDocumentEnd 4 }
    ensures dots { Uncaused (codes "... #x") }
{}
