//! Worked rows of the flags and of the byte offsets of lexemes, by computation.
ghost use Rattle.std.specs.Prelude.{◌≡◌, [], ◌∷◌, ◌++◌, codes};
ghost use Rattle.granit_machine.specs.ItemFlags.{bytes_in, flags_in};

/// Which lexemes begin their line, follow an indicator or end a column, and which key a `:` has.
pub fn flags_of_lexemes()
    ensures entry { flags_in (codes "- a: b") ≡ codes "0 line\n1 follows\n2 key=1:2\n3\n4 ends\n" }
    ensures nested { flags_in (codes "a:\n  - b\n") ≡ codes "0 line\n1 key=0:0\n2 line\n3 follows\n4 line ends\n" }
    ensures question { flags_in (codes "? a\n: b") ≡ codes "0 line\n1 follows\n2 line\n3 follows\n4 ends\n" }
    ensures bare_colon { flags_in (codes ": a") ≡ codes "0 line\n1 follows\n2 ends\n" }
    ensures dashes { flags_in (codes "- - a") ≡ codes "0 line\n1 follows\n2 follows\n3 ends\n" }
    ensures in_flow { flags_in (codes "{? a : b}") ≡ codes "0 line\n1\n2\n3\n4\n5\n6\n" }
    ensures lines_in_flow { flags_in (codes "[a,\n b: c]") ≡ codes "0 line\n1\n2\n3 line\n4 key=3:5\n5\n6\n7\n" }
    ensures properties { flags_in (codes "- &a !b c: d") ≡ codes "0 line\n1 follows\n2\n3\n4 key=1:2\n5\n6 ends\n" }
    ensures comment { flags_in (codes "-\n  # c\n a") ≡ codes "0 line\n#4-7\n1 line follows\n2 ends\n" }
    ensures behind_tail { flags_in (codes "a: # c\n- b") ≡ codes "0 line\n1 key=0:0\n2 line\n3 follows\n4 ends\n" }
    ensures brackets { flags_in (codes "[a]: b") ≡ codes "0 line\n1\n2\n3 key=0:0\n4\n5 ends\n" }
    ensures tab { flags_in (codes "\ta: b") ≡ codes "0 line\n1 key=0:1\n2\n3 ends\n" }
    ensures ends { flags_in (codes "- - a\n- b")
        ≡ codes "0 line\n1 follows\n2 follows\n3 line ends\n4 follows\n5 ends\n" }
    ensures left_in_flow { flags_in (codes "- - [a,\nb]")
        ≡ codes "0 line\n1 follows\n2 follows\n3\n4\n5 line\n6\n7 ends\n" }
    ensures prefix_mark { flags_in ((0xFEFF ∷ []) ++ codes " a") ≡ codes "0 line\n1\n" }
    ensures returns_and_feeds { flags_in (codes "a:\r\n- b\rc: d")
        ≡ codes "0 line\n1 key=0:0\n2 line\n3 follows\n4 line\n5 key=4:8\n6\n7 ends\n" }
{}

/// The bytes before the start and the end of lexemes and comments.
pub fn bytes_of_lexemes()
    ensures letters { bytes_in ((0xE9 ∷ []) ++ (codes ": \"" ++ ((0x20AC ∷ []) ++ codes "\"")))
        ≡ codes "0 0-2\n1 2-3\n2 4-9\n3 9-9\n" }
    ensures comments { bytes_in (codes "a # " ++ ((0xE9 ∷ []) ++ (codes "\n#" ++ ((0x1F600 ∷ []) ++ codes "\n- b"))))
        ≡ codes "0 0-1\n#2-6\n#7-12\n1 13-14\n2 15-16\n3 16-16\n" }
    ensures prefix_mark { bytes_in ((0xFEFF ∷ []) ++ codes "a") ≡ codes "0 3-4\n1 4-4\n" }
    ensures tail { bytes_in (codes "[ #" ++ ((0xE9 ∷ []) ++ codes "\n]")) ≡ codes "0 0-1 #2-5\n1 6-7\n2 7-7\n" }
    ensures block { bytes_in (codes "- |\n " ++ ((0xE9 ∷ []) ++ codes "\n- b"))
        ≡ codes "0 0-1\n1 5-8\n2 8-9\n3 10-11\n4 11-11\n" }
    ensures feeds { bytes_in (codes "a:\r\n b\r\n") ≡ codes "0 0-1\n1 1-2\n2 5-6\n3 8-8\n" }
{}
