//! Worked examples, by computation. Each line is the original's token of that text, or its fault.
ghost use Rattle.std.specs.Prelude.{◌≡◌, [], ◌∷◌, ◌++◌, codes, Some, None, true, false};
ghost use Rattle.granit_block_examples.specs.BlockExamples.{block_line};

/// Headers: a sign and a digit in either order, and what may follow.
pub fn headers_of_block_scalars()
    ensures none { block_line true (Some 0) (codes "k: |\n a\n") 3
        ≡ (codes "Scalar literal \"a\\n\" 6:2:2-8:3:1 indent=1\n") }
    ensures strip { block_line true (Some 0) (codes "k: |-\n a\n") 3
        ≡ (codes "Scalar literal \"a\" 7:2:2-9:3:1 indent=1\n") }
    ensures keep { block_line true (Some 0) (codes "k: |+\n a\n\n") 3
        ≡ (codes "Scalar literal \"a\\n\\n\" 7:2:2-10:4:1 indent=1\n") }
    ensures digit { block_line true (Some 0) (codes "k: |1\n  a\n") 3
        ≡ (codes "Scalar literal \" a\\n\" 7:2:2-10:3:1 indent=1\n") }
    ensures sign_digit { block_line true (Some 0) (codes "k: |-2\n   a\n") 3
        ≡ (codes "Scalar literal \" a\" 9:2:3-12:3:1 indent=2\n") }
    ensures digit_sign { block_line true (Some 0) (codes "k: |2+\n   a\n\n") 3
        ≡ (codes "Scalar literal \" a\\n\\n\" 9:2:3-13:4:1 indent=2\n") }
    ensures folded { block_line false (Some 0) (codes "k: >+1\n  a\n b\n") 3
        ≡ (codes "Scalar folded \" a\\nb\\n\" 8:2:2-14:4:1 indent=1\n") }
    ensures comment { block_line true (Some 0) (codes "k: | #c\n a\n") 3
        ≡ (codes "Scalar literal \"a\\n\" 9:2:2-11:3:1 indent=1\n") }
    ensures comment_alone { block_line true (Some 0) (codes "k: |- \t#c") 3
        ≡ (codes "Scalar literal \"\" 3:1:4-9:1:10\n") }
    ensures blanks { block_line true (Some 0) (codes "k: |  \n a\n") 3
        ≡ (codes "Scalar literal \"a\\n\" 8:2:2-10:3:1 indent=1\n") }
    ensures crlf { block_line true (Some 0) (codes "k: |\r\n a\r\n b\r\n") 3
        ≡ (codes "Scalar literal \"a\\nb\\n\" 7:2:2-14:4:1 indent=1\n") }
    ensures cr { block_line true (Some 0) (codes "k: |\r a\r") 3
        ≡ (codes "Scalar literal \"a\\n\" 6:2:2-8:3:1 indent=1\n") }
    ensures end { block_line true (Some 0) (codes "k: |") 3 ≡ (codes "Scalar literal \"\" 3:1:4-4:1:5\n") }
    ensures keep_end { block_line true (Some 0) (codes "k: |+") 3 ≡ (codes "Scalar literal \"\" 3:1:4-5:1:6\n") }
    ensures blanks_end { block_line true (Some 0) (codes "k: |+  ") 3 ≡ (codes "Scalar literal \"\" 3:1:4-7:1:8\n") }
    ensures root { block_line true None (codes "|\na\n") 0 ≡ (codes "Scalar literal \"a\\n\" 2:2:1-4:3:1 indent=0\n") }
    ensures root_digit { block_line true None (codes "|2\n  a\n") 0
        ≡ (codes "Scalar literal \"a\\n\" 5:2:3-7:3:1 indent=2\n") }
    ensures doc_digit { block_line true None (codes "--- |1\n a\n") 4
        ≡ (codes "Scalar literal \"a\\n\" 8:2:2-10:3:1 indent=1\n") }
{}

/// Where content stands.
pub fn columns_of_block_scalars()
    ensures one { block_line true (Some 0) (codes "k: |\n a\n  b\n c\n") 3
        ≡ (codes "Scalar literal \"a\\n b\\nc\\n\" 6:2:2-15:5:1 indent=1\n") }
    ensures deep { block_line true (Some 2) (codes "- - |\n   a\n    b\n") 4
        ≡ (codes "Scalar literal \"a\\n b\\n\" 9:2:4-17:4:1 indent=3\n") }
    ensures leading { block_line true (Some 0) (codes "k: |\n \n  a\n") 3
        ≡ (codes "Scalar literal \"\\na\\n\" 9:3:3-11:4:1 indent=2\n") }
    ensures leading_same { block_line true (Some 0) (codes "k: |\n  \n  a\n") 3
        ≡ (codes "Scalar literal \"\\na\\n\" 10:3:3-12:4:1 indent=2\n") }
    ensures tab_inside { block_line true (Some 0) (codes "k: |\n \ta\n") 3
        ≡ (codes "Scalar literal \"\\ta\\n\" 6:2:2-9:3:1 indent=1\n") }
    ensures root_zero { block_line true None (codes "|\na\nb\n") 0
        ≡ (codes "Scalar literal \"a\\nb\\n\" 2:2:1-6:4:1 indent=0\n") }
    ensures root_one { block_line true None (codes "|\n a\n b\n") 0
        ≡ (codes "Scalar literal \"a\\nb\\n\" 3:2:2-8:4:1 indent=1\n") }
    ensures left_ends { block_line true (Some 0) (codes "k: |\n  a\nb: c\n") 3
        ≡ (codes "Scalar literal \"a\\n\" 7:2:3-9:3:1 indent=2\n") }
    ensures left_spaces { block_line true (Some 0) (codes "k: |\n   a\n  b: c\n") 3
        ≡ (codes "Scalar literal \"a\\n\" 8:2:4-12:3:3 indent=3\n") }
    ensures less_ends { block_line true (Some 2) (codes "- k: |\n    a\n  l: b\n") 5
        ≡ (codes "Scalar literal \"a\\n\" 11:2:5-15:3:3 indent=4\n") }
    ensures digit_in { block_line true (Some 2) (codes "- k: |1\n    a\n   b\n") 5
        ≡ (codes "Scalar literal \" a\\nb\\n\" 11:2:4-19:4:1 indent=3\n") }
    ensures spaces_at_end { block_line true (Some 0) (codes "k: |\n  a\n \n   \n") 3
        ≡ (codes "Scalar literal \"a\\n\\n \\n\" 7:2:3-15:5:1 indent=2\n") }
    ensures dashes { block_line true None (codes "--- |\na\n---\nb\n") 4
        ≡ (codes "Scalar literal \"a\\n\" 6:2:1-8:3:1 indent=0\n") }
    ensures dots { block_line true None (codes "--- |\na\n...\n") 4
        ≡ (codes "Scalar literal \"a\\n\" 6:2:1-8:3:1 indent=0\n") }
    ensures dashes_in { block_line true None (codes "--- |\n a\n --- b\n") 4
        ≡ (codes "Scalar literal \"a\\n--- b\\n\" 7:2:2-16:4:1 indent=1\n") }
    ensures dashes_no_mark { block_line true None (codes "--- |\na\n---b\n") 4
        ≡ (codes "Scalar literal \"a\\n---b\\n\" 6:2:1-13:4:1 indent=0\n") }
    ensures dashes_first { block_line true None (codes "--- |\n---\n") 4 ≡ (codes "Scalar literal \"\" 6:2:1-6:2:1\n") }
    ensures hash { block_line true (Some 0) (codes "k: |\n #a\n") 3
        ≡ (codes "Scalar literal \"#a\\n\" 6:2:2-9:3:1 indent=1\n") }
    ensures hash_root { block_line true None (codes "--- |\n# a\n") 4
        ≡ (codes "Scalar literal \"# a\\n\" 6:2:1-10:3:1 indent=0\n") }
    ensures colon { block_line true (Some 0) (codes "k: |\n a: b\n - c\n") 3
        ≡ (codes "Scalar literal \"a: b\\n- c\\n\" 6:2:2-16:4:1 indent=1\n") }
{}

/// How folded lines join.
pub fn folds_of_block_scalars()
    ensures one { block_line false (Some 0) (codes "k: >\n a\n b\n") 3
        ≡ (codes "Scalar folded \"a b\\n\" 6:2:2-11:4:1 indent=1\n") }
    ensures two { block_line false (Some 0) (codes "k: >\n a\n\n b\n") 3
        ≡ (codes "Scalar folded \"a\\nb\\n\" 6:2:2-12:5:1 indent=1\n") }
    ensures three { block_line false (Some 0) (codes "k: >\n a\n\n\n b\n") 3
        ≡ (codes "Scalar folded \"a\\n\\nb\\n\" 6:2:2-13:6:1 indent=1\n") }
    ensures more { block_line false (Some 0) (codes "k: >\n a\n  b\n c\n") 3
        ≡ (codes "Scalar folded \"a\\n b\\nc\\n\" 6:2:2-15:5:1 indent=1\n") }
    ensures more_empty { block_line false (Some 0) (codes "k: >\n a\n\n  b\n\n c\n") 3
        ≡ (codes "Scalar folded \"a\\n\\n b\\n\\nc\\n\" 6:2:2-17:7:1 indent=1\n") }
    ensures tab { block_line false (Some 0) (codes "k: >\n a\n \tb\n c\n") 3
        ≡ (codes "Scalar folded \"a\\n\\tb\\nc\\n\" 6:2:2-15:5:1 indent=1\n") }
    ensures first_more { block_line false (Some 0) (codes "k: >1\n  a\n b\n") 3
        ≡ (codes "Scalar folded \" a\\nb\\n\" 7:2:2-13:4:1 indent=1\n") }
    ensures two_more { block_line false (Some 0) (codes "k: >1\n  a\n  b\n") 3
        ≡ (codes "Scalar folded \" a\\n b\\n\" 7:2:2-14:4:1 indent=1\n") }
    ensures literal { block_line true (Some 0) (codes "k: |\n a\n\n  b\n c\n") 3
        ≡ (codes "Scalar literal \"a\\n\\n b\\nc\\n\" 6:2:2-16:6:1 indent=1\n") }
    ensures empty_first { block_line false (Some 0) (codes "k: >\n\n\n a\n b\n") 3
        ≡ (codes "Scalar folded \"\\n\\na b\\n\" 8:4:2-13:6:1 indent=1\n") }
    ensures empty_first_more { block_line false (Some 0) (codes "k: >1\n\n  a\n b\n") 3
        ≡ (codes "Scalar folded \"\\n a\\nb\\n\" 8:3:2-14:5:1 indent=1\n") }
    ensures crlf { block_line false (Some 0) (codes "k: >\r\n a\r\n\r\n b\r\n c") 3
        ≡ (codes "Scalar folded \"a\\nb c\\n\" 7:2:2-18:5:3 indent=1\n") }
    ensures blank_at_end { block_line false (Some 0) (codes "k: >\n a \n b\n") 3
        ≡ (codes "Scalar folded \"a  b\\n\" 6:2:2-12:4:1 indent=1\n") }
{}

/// What stands for the breaks behind the last line.
pub fn endings_of_block_scalars()
    ensures clip { block_line true (Some 0) (codes "k: |\n a\n\n\n") 3
        ≡ (codes "Scalar literal \"a\\n\" 6:2:2-10:5:1 indent=1\n") }
    ensures strip { block_line true (Some 0) (codes "k: |-\n a\n\n\n") 3
        ≡ (codes "Scalar literal \"a\" 7:2:2-11:5:1 indent=1\n") }
    ensures keep { block_line true (Some 0) (codes "k: |+\n a\n\n\n") 3
        ≡ (codes "Scalar literal \"a\\n\\n\\n\" 7:2:2-11:5:1 indent=1\n") }
    ensures clip_end { block_line true (Some 0) (codes "k: |\n a") 3
        ≡ (codes "Scalar literal \"a\\n\" 6:2:2-7:2:3 indent=1\n") }
    ensures strip_end { block_line true (Some 0) (codes "k: |-\n a") 3
        ≡ (codes "Scalar literal \"a\" 7:2:2-8:2:3 indent=1\n") }
    ensures keep_end { block_line true (Some 0) (codes "k: |+\n a") 3
        ≡ (codes "Scalar literal \"a\\n\" 7:2:2-8:2:3 indent=1\n") }
    ensures keep_spaces { block_line true (Some 0) (codes "k: |+\n a\n ") 3
        ≡ (codes "Scalar literal \"a\\n\" 7:2:2-10:3:2 indent=1\n") }
    ensures keep_more_spaces { block_line true (Some 0) (codes "k: |+\n a\n\n ") 3
        ≡ (codes "Scalar literal \"a\\n\\n\" 7:2:2-11:4:2 indent=1\n") }
    ensures keep_next { block_line true (Some 0) (codes "k: |+\n a\n\nl: b\n") 3
        ≡ (codes "Scalar literal \"a\\n\\n\" 7:2:2-10:4:1 indent=1\n") }
    ensures clip_next { block_line true (Some 0) (codes "k: |\n a\n\nl: b\n") 3
        ≡ (codes "Scalar literal \"a\\n\" 6:2:2-9:4:1 indent=1\n") }
    ensures none { block_line true (Some 0) (codes "k: |\n") 3 ≡ (codes "Scalar literal \"\" 3:1:4-5:2:1\n") }
    ensures none_keep { block_line true (Some 0) (codes "k: |+\n") 3 ≡ (codes "Scalar literal \"\" 3:1:4-6:2:1\n") }
    ensures none_two { block_line true (Some 0) (codes "k: |+\n\n\n") 3
        ≡ (codes "Scalar literal \"\\n\\n\" 3:1:4-8:4:1\n") }
    ensures none_two_clip { block_line true (Some 0) (codes "k: |\n\n\n") 3
        ≡ (codes "Scalar literal \"\" 3:1:4-7:4:1\n") }
    ensures none_spaces { block_line true (Some 0) (codes "k: |+\n ") 3
        ≡ (codes "Scalar literal \"\\n\" 3:1:4-7:2:2\n") }
    ensures none_lines_spaces { block_line true (Some 0) (codes "k: |+\n\n ") 3
        ≡ (codes "Scalar literal \"\\n\" 3:1:4-8:3:2\n") }
    ensures none_two_lines_spaces { block_line true (Some 0) (codes "k: |+\n\n\n  ") 3
        ≡ (codes "Scalar literal \"\\n\\n\" 3:1:4-10:4:3\n") }
    ensures none_next { block_line true (Some 0) (codes "k: |+\n\nl: b\n") 3
        ≡ (codes "Scalar literal \"\\n\" 7:3:1-7:3:1\n") }
    ensures none_next_clip { block_line true (Some 0) (codes "k: |\n\nl: b\n") 3
        ≡ (codes "Scalar literal \"\" 6:3:1-6:3:1\n") }
    ensures none_strip { block_line false (Some 0) (codes "k: >-\n\n") 3 ≡ (codes "Scalar folded \"\" 3:1:4-7:3:1\n") }
    ensures white { block_line true (Some 0) (codes "k: |\n \t\n") 3
        ≡ (codes "Scalar literal \"\\t\\n\" 6:2:2-8:3:1\n") }
    ensures white_wide { block_line true (Some 0) ((codes "k: |\n ") ++ (0x3000 ∷ []) ++ (codes "\n")) 3
        ≡ (codes "Scalar literal \"\\u{3000}\\n\" 6:2:2-8:3:1\n") }
{}

/// What is refused at them.
pub fn refusals_of_block_scalars()
    ensures zero { block_line true (Some 0) (codes "k: |0\n a\n") 3
        ≡ (codes "fault 52: while scanning a block scalar, found an indentation indicator equal to 0 at char 3 line 1 column 4\n") }
    ensures zero_behind_sign { block_line true (Some 0) (codes "k: |-0\n a\n") 3
        ≡ (codes "fault 52: while scanning a block scalar, found an indentation indicator equal to 0 at char 3 line 1 column 4\n") }
    ensures zero_before_content { block_line true (Some 0) (codes "k: |0a\n") 3
        ≡ (codes "fault 52: while scanning a block scalar, found an indentation indicator equal to 0 at char 3 line 1 column 4\n") }
    ensures content { block_line true (Some 0) (codes "k: |a\n b\n") 3
        ≡ (codes "fault 53: while scanning a block scalar, did not find expected comment or line break at char 3 line 1 column 4\n") }
    ensures two_signs { block_line true (Some 0) (codes "k: |+-\n a\n") 3
        ≡ (codes "fault 53: while scanning a block scalar, did not find expected comment or line break at char 3 line 1 column 4\n") }
    ensures two_digits { block_line true (Some 0) (codes "k: |12\n a\n") 3
        ≡ (codes "fault 53: while scanning a block scalar, did not find expected comment or line break at char 3 line 1 column 4\n") }
    ensures zero_behind_digit { block_line true (Some 0) (codes "k: |10\n a\n") 3
        ≡ (codes "fault 53: while scanning a block scalar, did not find expected comment or line break at char 3 line 1 column 4\n") }
    ensures tab { block_line true (Some 0) (codes "k: |\n\ta\n") 3
        ≡ (codes "fault 54: a block scalar content cannot start with a tab at char 3 line 1 column 4\n") }
    ensures tab_behind_space { block_line true (Some 0) (codes "k: |2\n \ta\n") 3
        ≡ (codes "fault 55: wrongly indented line in block scalar at char 7 line 2 column 2\n") }
    ensures left { block_line true (Some 0) (codes "k: |2\n a\n") 3
        ≡ (codes "fault 55: wrongly indented line in block scalar at char 7 line 2 column 2\n") }
    ensures left_leading { block_line true (Some 0) (codes "k: |\n   \n a\n") 3
        ≡ (codes "fault 55: wrongly indented line in block scalar at char 10 line 3 column 2\n") }
    ensures left_root { block_line true None (codes "--- |2\n a\n") 4
        ≡ (codes "fault 55: wrongly indented line in block scalar at char 8 line 2 column 2\n") }
    ensures left_root_zero { block_line true None (codes "|2\na\n") 0
        ≡ (codes "fault 55: wrongly indented line in block scalar at char 3 line 2 column 1\n") }
    ensures root_mark { block_line true None (codes "--- |2\n---\n") 4 ≡ (codes "Scalar literal \"\" 7:2:1-7:2:1\n") }
    ensures root_hash { block_line true None (codes "--- |2\n# a\n") 4 ≡ (codes "Scalar literal \"\" 7:2:1-7:2:1\n") }
    ensures touching { block_line true (Some 0) (codes "k: |#c\n a\n") 3
        ≡ (codes "fault 73: comments must be separated from other tokens by whitespace at char 4 line 1 column 5\n") }
    ensures touching_sign { block_line true (Some 0) (codes "k: |-#c\n a\n") 3
        ≡ (codes "fault 73: comments must be separated from other tokens by whitespace at char 5 line 1 column 6\n") }
    ensures comment_strange { block_line true (Some 0) ((codes "k: | #c") ++ (0x1 ∷ []) ++ (codes "\n a\n")) 3
        ≡ (codes "fault 76: unexpected character: `\\u{1}' at char 7 line 1 column 8\n") }
    ensures strange { block_line true (Some 0) ((codes "k: |") ++ (0x1 ∷ []) ++ (codes "\n a\n")) 3
        ≡ (codes "fault 76: unexpected character: `\\u{1}' at char 4 line 1 column 5\n") }
    ensures nul { block_line true (Some 0) ((codes "k: |") ++ (0x0 ∷ []) ++ (codes "\n")) 3
        ≡ (codes "fault 76: unexpected character: `\\u{0}' at char 4 line 1 column 5\n") }
    ensures first { block_line true (Some 0) ((codes "k: |\n") ++ (0x1 ∷ []) ++ (codes "\n")) 3
        ≡ (codes "fault 76: unexpected character: `\\u{1}' at char 5 line 2 column 1\n") }
    ensures first_nul { block_line true (Some 0) ((codes "k: |\n") ++ (0x0 ∷ [])) 3
        ≡ (codes "fault 76: unexpected character: `\\u{0}' at char 5 line 2 column 1\n") }
    ensures at_content { block_line true (Some 0) ((codes "k: |\n ") ++ (0x1 ∷ []) ++ (codes "a\n")) 3
        ≡ (codes "fault 76: unexpected character: `\\u{1}' at char 6 line 2 column 2\n") }
    ensures inside { block_line true (Some 0) ((codes "k: |\n a") ++ (0x1 ∷ []) ++ (codes "b\n")) 3
        ≡ (codes "fault 76: unexpected character: `\\u{1}' at char 6 line 2 column 2\n") }
    ensures inside_nul { block_line true (Some 0) ((codes "k: |\n a") ++ (0x0 ∷ []) ++ (codes "b\n")) 3
        ≡ (codes "fault 76: unexpected character: `\\u{0}' at char 7 line 2 column 3\n") }
    ensures behind { block_line true (Some 0) ((codes "k: |\n a\n") ++ (0x1 ∷ [])) 3
        ≡ (codes "fault 76: unexpected character: `\\u{1}' at char 8 line 3 column 1\n") }
    ensures second_line { block_line true (Some 0) ((codes "k: |\n a\n ") ++ (0x1 ∷ []) ++ (codes "\n")) 3
        ≡ (codes "fault 76: unexpected character: `\\u{1}' at char 9 line 3 column 2\n") }
    ensures two_strange { block_line true (Some 0)
        ((codes "k: |\n a") ++ (0x2 ∷ []) ++ (codes "\n b") ++ (0x1 ∷ []) ++ (codes "\n")) 3
        ≡ (codes "fault 76: unexpected character: `\\u{2}' at char 6 line 2 column 2\n") }
    ensures bom { block_line true (Some 0) ((codes "k: |\n a\n") ++ (0xFEFF ∷ [])) 3
        ≡ (codes "Scalar literal \"a\\n\" 6:2:2-8:3:1 indent=1\n") }
{}

/// From chapter 8.1 of YAML 1.2.2.
pub fn block_examples_of_the_specification()
    ensures header_1 { block_line true (Some 0) (codes "- | # Empty header\n literal\n") 2
        ≡ (codes "Scalar literal \"literal\\n\" 20:2:2-28:3:1 indent=1\n") }
    ensures header_2 { block_line false (Some 0) (codes "- >1 # Indentation indicator\n  folded\n") 2
        ≡ (codes "Scalar folded \" folded\\n\" 30:2:2-38:3:1 indent=1\n") }
    ensures header_3 { block_line true (Some 0) (codes "- |+ # Chomping indicator\n keep\n\n") 2
        ≡ (codes "Scalar literal \"keep\\n\\n\" 27:2:2-33:4:1 indent=1\n") }
    ensures header_4 { block_line false (Some 0) (codes "- >1- # Both indicators\n  strip\n") 2
        ≡ (codes "Scalar folded \" strip\" 25:2:2-32:3:1 indent=1\n") }
    ensures indent_1 { block_line true (Some 0) (codes "- |\n detected\n") 2
        ≡ (codes "Scalar literal \"detected\\n\" 5:2:2-14:3:1 indent=1\n") }
    ensures indent_2 { block_line false (Some 0) (codes "- >\n \n  \n  # detected\n") 2
        ≡ (codes "Scalar folded \"\\n\\n# detected\\n\" 11:4:3-22:5:1 indent=2\n") }
    ensures indent_3 { block_line true (Some 0) (codes "- |1\n  explicit\n") 2
        ≡ (codes "Scalar literal \" explicit\\n\" 6:2:2-16:3:1 indent=1\n") }
    ensures indent_4 { block_line false (Some 0) (codes "- >\n \t\n detected\n") 2
        ≡ (codes "Scalar folded \"\\t\\ndetected\\n\" 5:2:2-17:4:1 indent=1\n") }
    ensures wrong_1 { block_line true (Some 0) (codes "- |\n  \n text\n") 2
        ≡ (codes "fault 55: wrongly indented line in block scalar at char 8 line 3 column 2\n") }
    ensures wrong_2 { block_line false (Some 0) (codes "- >\n  text\n text\n") 2
        ≡ (codes "Scalar folded \"text\\n\" 6:2:3-12:3:2 indent=2\n") }
    ensures wrong_3 { block_line true (Some 0) (codes "- |2\n text\n") 2
        ≡ (codes "fault 55: wrongly indented line in block scalar at char 6 line 2 column 2\n") }
    ensures final_strip { block_line true (Some 0) (codes "k: |-\n  text\n") 3
        ≡ (codes "Scalar literal \"text\" 8:2:3-13:3:1 indent=2\n") }
    ensures final_clip { block_line true (Some 0) (codes "k: |\n  text\n") 3
        ≡ (codes "Scalar literal \"text\\n\" 7:2:3-12:3:1 indent=2\n") }
    ensures final_keep { block_line true (Some 0) (codes "k: |+\n  text\n") 3
        ≡ (codes "Scalar literal \"text\\n\" 8:2:3-13:3:1 indent=2\n") }
    ensures empty_strip { block_line false (Some 0) (codes "k: >-\n\n") 3 ≡ (codes "Scalar folded \"\" 3:1:4-7:3:1\n") }
    ensures empty_keep { block_line true (Some 0) (codes "k: |+\n\n") 3
        ≡ (codes "Scalar literal \"\\n\" 3:1:4-7:3:1\n") }
    ensures literal { block_line true None (codes "|\n literal\n \ttext\n\n\n") 0
        ≡ (codes "Scalar literal \"literal\\n\\ttext\\n\" 3:2:2-20:6:1 indent=1\n") }
    ensures literal_content { block_line true None (codes "|\n \n  \n  literal\n   \n  \n  text\n\n # Comment\n") 0
        ≡ (codes "Scalar literal \"\\n\\nliteral\\n \\n\\ntext\\n\" 9:4:3-33:9:2 indent=2\n") }
    ensures folded { block_line false None (codes ">\n folded\n text\n\n\n") 0
        ≡ (codes "Scalar folded \"folded text\\n\" 3:2:2-18:6:1 indent=1\n") }
    ensures folded_lines { block_line false None
        (codes ">\n\n folded\n line\n\n next\n line\n   * bullet\n\n   * list\n   * lines\n\n last\n line\n\n# Comment\n") 0
        ≡ (codes "Scalar folded \"\\nfolded line\\nnext line\\n  * bullet\\n\\n  * list\\n  * lines"
        ++ codes "\\n\\nlast line\\n\" 4:3:2-78:16:1 indent=1\n") }
{}
