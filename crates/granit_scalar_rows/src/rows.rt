//! Worked rows of the plain machine's reader, by computation. The faults are the original's.
ghost use Rattle.std.specs.Prelude.{◌≡◌, [], ◌∷◌, ◌++◌, codes};
ghost use Rattle.granit_machine.specs.Items.{reads};

/// Block scalars.
pub fn block_scalars()
    ensures literal { reads (codes "|\n a\n  b\n\nc")
        ≡ (codes "0 Scalar literal \"a\\n b\\n\" 3:2:2-10:5:1 from 0:1:1 indent=1\n"
        ++ codes "1 Scalar plain \"c\" 10:5:1-11:5:2\n2 End 11:5:2-11:5:2\n") }
    ensures folded { reads (codes ">\n a\n b\n\n  c\n d\n")
        ≡ (codes "0 Scalar folded \"a b\\n\\n c\\nd\\n\" 3:2:2-16:7:1 from 0:1:1 indent=1\n"
        ++ codes "1 End 16:7:1-16:7:1\n") }
    ensures keep { reads (codes "|+\n a\n\n\n")
        ≡ (codes "0 Scalar literal \"a\\n\\n\\n\" 4:2:2-8:5:1 from 0:1:1 indent=1\n1 End 8:5:1-8:5:1\n") }
    ensures strip { reads (codes ">-\n a\n\n")
        ≡ (codes "0 Scalar folded \"a\" 4:2:2-7:4:1 from 0:1:1 indent=1\n1 End 7:4:1-7:4:1\n") }
    ensures digit { reads (codes "- |2-\n    a\n")
        ≡ (codes "0 - 0:1:1-1:1:2 to 2:1:3\n1 Scalar literal \"  a\" 8:2:3-12:3:1 from 2:1:3 indent=2\n"
        ++ codes "2 End 12:3:1-12:3:1 ends\n") }
    ensures header_comment { reads (codes "| #c\n a")
        ≡ (codes "0 Scalar literal \"a\\n\" 6:2:2-7:2:3 from 0:1:1 indent=1\ntail right \"c\" 2:1:3-4:1:5\n"
        ++ codes "1 End 7:2:3-7:2:3\n") }
    ensures no_content { reads (codes "|+\n\n\n")
        ≡ (codes "0 Scalar literal \"\\n\\n\" 0:1:1-5:4:1\n1 End 5:4:1-5:4:1\n") }
    ensures spaces_at_end { reads (codes "|+\n ")
        ≡ (codes "0 Scalar literal \"\\n\" 0:1:1-4:2:2\n1 End 4:2:2-4:2:2\n") }
    ensures no_break { reads (codes "|") ≡ (codes "0 Scalar literal \"\" 0:1:1-1:1:2\n1 End 1:1:2-1:1:2\n") }
    ensures zero { reads (codes "|0") ≡ (codes "fault 52: at char 0 line 1 column 1\n") }
    ensures header { reads (codes "| a") ≡ (codes "fault 53: at char 0 line 1 column 1\n") }
    ensures tab { reads (codes "|\n\ta") ≡ (codes "fault 54: at char 0 line 1 column 1\n") }
    ensures less { reads (codes "k: |2\n a") ≡ (codes "0 Scalar plain \"k\" 0:1:1-1:1:2 key\n1 : 1:1:2-2:1:3 key\n"
        ++ codes "fault 55: at char 7 line 2 column 2\n") }
    ensures more_before { reads (codes "|\n   \n a") ≡ (codes "fault 55: at char 7 line 3 column 2\n") }
    ensures nul { reads ((codes "|\n a") ++ (0x0 ∷ [])) ≡ (codes "fault 76: at char 4 line 2 column 3\n") }
    ensures unprintable { reads ((codes "|\n a") ++ ((0x1 ∷ []) ++ (codes "\n b")))
        ≡ (codes "fault 76: at char 3 line 2 column 2\n") }
    ensures at_mark { reads (codes "|\n---") ≡ (codes
        "0 Scalar literal \"\" 2:2:1-2:2:1 from 0:1:1\n1 --- 2:2:1-5:2:4\n2 End 5:2:4-5:2:4\n") }
    ensures in_flow { reads (codes "[|]") ≡ (codes "0 [ 0:1:1-1:1:2\nfault 76: at char 1 line 1 column 2\n") }
    ensures blank_line { reads (codes "|1\n  \n")
        ≡ (codes "0 Scalar literal \" \\n\" 4:2:2-6:3:1 from 0:1:1\n1 End 6:3:1-6:3:1\n") }
    ensures next_line { reads ((codes "|\n ") ++ ((0x85 ∷ []) ++ (codes "\n")))
        ≡ (codes "0 Scalar literal \"\\u{85}\\n\" 3:2:2-5:3:1 from 0:1:1\n1 End 5:3:1-5:3:1\n") }
    ensures wide_space { reads ((codes ">\n ") ++ ((0x3000 ∷ []) ++ (codes "\n a")))
        ≡ (codes "0 Scalar folded \"\\u{3000} a\\n\" 3:2:2-7:3:3 from 0:1:1 indent=1\n1 End 7:3:3-7:3:3\n") }
    ensures line_separator { reads ((codes "|\n ") ++ ((0x2028 ∷ []) ++ ((0x2029 ∷ []) ++ (codes "\n"))))
        ≡ (codes "0 Scalar literal \"\\u{2028}\\u{2029}\\n\" 3:2:2-6:3:1 from 0:1:1\n1 End 6:3:1-6:3:1\n") }
    ensures narrow_spaces { reads ((codes "|\n ")
        ++ ((0x202F ∷ []) ++ ((0x205F ∷ []) ++ ((0x3000 ∷ []) ++ (codes "\n")))))
        ≡ (codes "0 Scalar literal \"\\u{202f}\\u{205f}\\u{3000}\\n\" 3:2:2-7:3:1 from 0:1:1\n"
        ++ codes "1 End 7:3:1-7:3:1\n") }
{}

/// Quoted scalars.
pub fn quoted_scalars()
    ensures single { reads (codes "'it''s'") ≡ (codes "0 Scalar single \"it's\" 0:1:1-7:1:8\n1 End 7:1:8-7:1:8\n") }
    ensures double { reads (codes "\"a\\tb\\\n  c\n\n d\" #e\n")
        ≡ (codes "0 Scalar double \"a\\tbc\\nd\" 0:1:1-15:4:4\ntail right \"e\" 16:4:5-18:4:7\n"
        ++ codes "1 End 19:5:1-19:5:1\n") }
    ensures unclosed { reads (codes "\"a") ≡ (codes "fault 39: at char 0 line 1 column 1\n") }
    ensures mark { reads (codes "\"a\n---") ≡ (codes "fault 40: at char 0 line 1 column 1\n") }
    ensures tab { reads (codes "- - \"a\n\tb\"")
        ≡ (codes "0 - 0:1:1-1:1:2 to 2:1:3\n1 - 2:1:3-3:1:4 to 4:1:5\nfault 41: at char 7 line 2 column 1\n") }
    ensures left { reads (codes "k: \"a\nb\"") ≡ (codes "0 Scalar plain \"k\" 0:1:1-1:1:2 key\n1 : 1:1:2-2:1:3 key\n"
        ++ codes "fault 42: at char 6 line 2 column 1\n") }
    ensures trailing_single { reads (codes "'a' b") ≡ (codes "fault 43: at char 4 line 1 column 5\n") }
    ensures trailing_double { reads (codes "\"a\" b") ≡ (codes "fault 44: at char 4 line 1 column 5\n") }
    ensures letter { reads (codes "\"\\q\"") ≡ (codes "fault 45: at char 0 line 1 column 1\n") }
    ensures digits { reads (codes "\"\\x4\"") ≡ (codes "fault 46: at char 0 line 1 column 1\n") }
    ensures no_low { reads (codes "\"\\ud83d\"") ≡ (codes "fault 47: at char 0 line 1 column 1\n") }
    ensures low_digits { reads (codes "\"\\ud83d\\ux\"") ≡ (codes "fault 48: at char 0 line 1 column 1\n") }
    ensures no_low_half { reads (codes "\"\\ud83d\\u0041\"") ≡ (codes "fault 49: at char 0 line 1 column 1\n") }
    ensures low_alone { reads (codes "\"\\ude00\"") ≡ (codes "fault 50: at char 0 line 1 column 1\n") }
    ensures past { reads (codes "\"\\U00110000\"") ≡ (codes "fault 51: at char 0 line 1 column 1\n") }
    ensures touching_comment { reads (codes "\"a\"#c") ≡ (codes "fault 73: at char 3 line 1 column 4\n") }
    ensures unprintable { reads ((codes "\"a") ++ ((0x1 ∷ []) ++ (codes "\"")))
        ≡ (codes "fault 76: at char 2 line 1 column 3\n") }
    ensures gap_comment { reads (codes "{\"a\" #b\n #c\n: d}")
        ≡ (codes "0 { 0:1:1-1:1:2\n1 Scalar double \"a\" 1:1:2-4:1:5 flow key\ntail right \"b\" 5:1:6-7:1:8\n"
        ++ codes "comment free \"c\" 9:2:2-11:2:4\n2 : 12:3:1-13:3:2 flow key\n"
        ++ codes "3 Scalar plain \"d\" 14:3:3-15:3:4 flow\n4 } 15:3:4-16:3:5 flow\n5 End 16:3:5-16:3:5\n") }
{}

/// Plain scalars.
pub fn plain_scalars()
    ensures lines { reads (codes "a b\n c\n\n d")
        ≡ (codes "0 Scalar plain \"a b c\\nd\" 0:1:1-10:4:3\n1 End 10:4:3-10:4:3\n") }
    ensures tab { reads (codes "k: a\n\tb") ≡ (codes "0 Scalar plain \"k\" 0:1:1-1:1:2 key\n1 : 1:1:2-2:1:3 key\n"
        ++ codes "fault 72: at char 3 line 1 column 4\n") }
    ensures unprintable { reads ((codes "a") ++ (0x1 ∷ [])) ≡ (codes "fault 76: at char 0 line 1 column 1\n") }
    ensures at { reads (codes "@") ≡ (codes "fault 76: at char 0 line 1 column 1\n") }
    ensures percent { reads (codes "a: %b") ≡ (codes "0 Scalar plain \"a\" 0:1:1-1:1:2 key\n1 : 1:1:2-2:1:3 key\n"
        ++ codes "fault 76: at char 3 line 1 column 4\n") }
    ensures colons { reads (codes "a:b ::c") ≡ (codes "0 Scalar plain \"a:b ::c\" 0:1:1-7:1:8\n1 End 7:1:8-7:1:8\n") }
    ensures cr { reads (codes "a\r\nb\rc") ≡ (codes "0 Scalar plain \"a b c\" 0:1:1-6:3:2\n1 End 6:3:2-6:3:2\n") }
    ensures nul { reads ((codes "a") ++ (0x0 ∷ [])) ≡ (codes "fault 76: at char 1 line 1 column 2\n") }
{}
