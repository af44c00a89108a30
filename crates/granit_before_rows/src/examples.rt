//! Worked examples, each where it holds, and one character or one lexeme away where it doesn't.
ghost use Rattle.granit_before_rows.specs.Worked.{BeforeKey, CutAt, Indents, KeyAt, StillKey};
ghost use Rattle.std.specs.Prelude.{codes};

/// Which columns of a line are its indentation, behind so many lexemes of a text.
pub fn tabs_of_the_examples()
    ensures behind_colon { Indents (codes "a:\n") 2 0 }
    ensures behind_plain { Indents (codes "a: b\n") 3 0 → ⊥ }
    ensures behind_quoted { Indents (codes "a: 'b'\n") 3 0 }
    ensures behind_alias { Indents (codes "a: *b\n") 3 0 }
    ensures behind_block_scalar { Indents (codes "a: |\n b\n") 3 0 → ⊥ }
    ensures bare_dash { Indents (codes "-\n") 1 0 }
    ensures dash { Indents (codes "- a\n") 1 0 → ⊥ }
    ensures dash_at_end { Indents (codes "-") 1 0 → ⊥ }
    ensures question { Indents (codes "? a\n") 1 0 → ⊥ }
    ensures opener_in_block { Indents (codes "- [a\n") 2 0 }
    ensures opener_at_root { Indents (codes "[a\n") 1 0 → ⊥ }
    ensures left_of_inner { Indents (codes "a:\n  b: c\n") 5 1 }
    ensures in_inner { Indents (codes "a:\n  b: c\n") 5 2 → ⊥ }
    ensures in_inner_colon { Indents (codes "a:\n  b:\n") 4 2 }
    ensures right_of_inner { Indents (codes "a:\n  b:\n") 4 3 → ⊥ }
    ensures new_document { Indents (codes "a:\n---\n") 3 0 → ⊥ }
{}

/// Where a tab stands before a key of `?`.
pub fn tabs_before_keys_of_the_examples()
    ensures question { BeforeKey (codes "? a\n") 1 0 }
    ensures right { BeforeKey (codes "? a\n") 1 1 → ⊥ }
    ensures behind_key { BeforeKey (codes "? a\n") 2 0 → ⊥ }
    ensures dash { BeforeKey (codes "- a\n") 1 0 → ⊥ }
{}

/// With which lexemes simple keys begin.
pub fn keys_of_the_examples()
    ensures key { KeyAt (codes "a: b\n") 0 }
    ensures value { KeyAt (codes "a: b\n") 2 → ⊥ }
    ensures property { KeyAt (codes "&a b: c\n") 0 }
    ensures behind_property { KeyAt (codes "&a b: c\n") 1 → ⊥ }
    ensures bracket { KeyAt (codes "{a: b}: c\n") 0 }
    ensures inside_bracket { KeyAt (codes "{a: b}: c\n") 1 }
    ensures no_bracket { KeyAt (codes "[a, b: c]\n") 0 → ⊥ }
    ensures no_entry { KeyAt (codes "[a, b: c]\n") 1 → ⊥ }
    ensures pair { KeyAt (codes "[a, b: c]\n") 3 }
    ensures behind_question { KeyAt (codes "? a: b\n") 1 }
    ensures asked { KeyAt (codes "? a\n: b\n") 1 → ⊥ }
    ensures behind_dash { KeyAt (codes "- a: b\n") 1 }
    ensures comment { KeyAt (codes "# a\nb: c\n") 0 → ⊥ }
    ensures behind_comment { KeyAt (codes "# a\nb: c\n") 1 }
{}

/// With which lexemes a simple key may still begin behind so many reads of a text.
pub fn keys_that_may_still_begin_of_the_examples()
    ensures alone { StillKey (codes "a") 1 0 }
    ensures behind_its_colon { StillKey (codes "a: b") 2 0 → ⊥ }
    ensures around { StillKey (codes "[a\n") 2 0 }
    ensures inside { StillKey (codes "[a\n") 2 1 }
    ensures entry_ended { StillKey (codes "[a, b\n") 4 1 → ⊥ }
    ensures still_around { StillKey (codes "[a, b\n") 4 0 }
    ensures closed { StillKey (codes "[a]\n") 3 0 }
    ensures closed_below { StillKey (codes "[a\n]") 3 0 → ⊥ }
    ensures below_its_begin { StillKey (codes "\"a\n b\" [c") 3 0 → ⊥ }
    ensures property { StillKey (codes "&a [b") 2 0 }
    ensures behind_property { StillKey (codes "&a [b") 2 1 → ⊥ }
    ensures in_two { StillKey (codes "[{a\n") 3 1 }
    ensures not_allowed { StillKey (codes "[a [b") 3 2 → ⊥ }
{}

/// Where a comment cuts the last scalar short behind so many reads of a text.
pub fn cuts_of_the_examples()
    ensures behind_blank { CutAt (codes "a #b\n") 1 2 }
    ensures touching { CutAt (codes "a#b\n") 1 1 → ⊥ }
    ensures in_flow { CutAt (codes "[a #b\n") 2 3 → ⊥ }
    ensures behind_tab { CutAt (codes "k:\n a\n\t#b\n") 3 7 }
    ensures at_root { CutAt (codes "a\n\t#b\n") 1 3 → ⊥ }
    ensures quoted { CutAt (codes "'a' #b\n") 1 4 → ⊥ }
{}
