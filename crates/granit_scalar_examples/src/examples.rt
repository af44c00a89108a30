//! Worked examples of the plain scalar, by computation. Each line is the original's token of that text,
//! or its fault; what is behind a scalar comes from the plain machine of the whole language.
ghost use Rattle.std.specs.Prelude.{◌≡◌, [], ◌∷◌, ◌++◌, codes, Some, None, true, false};
ghost use Rattle.granit_scalar_examples.specs.Examples.{FailsPlain, ReadsPlain, block_flow, plain_in_block, layout};
ghost use Rattle.granit_scalar_examples.specs.Examples.{plain_at_root, plain_at_root_flow, behind_line, plain_line};
ghost use Rattle.granit_scalar_examples.specs.Examples.{rest_behind};
ghost use Rattle.granit_lexemes.specs.Folding.{folded};

/// Where a plain scalar ends, and where not.
pub fn ends_of_the_examples()
    ensures colon_blank { ReadsPlain plain_in_block 3 "k: a: b" "Scalar plain \"a\" 3:1:4-4:1:5\n" }
    ensures colon_break { ReadsPlain plain_in_block 3 "k: a:\n" "Scalar plain \"a\" 3:1:4-4:1:5\n" }
    ensures colon_end { ReadsPlain plain_in_block 3 "k: a:" "Scalar plain \"a\" 3:1:4-4:1:5\n" }
    ensures colon_inside { ReadsPlain plain_in_block 3 "k: a:b::c" "Scalar plain \"a:b::c\" 3:1:4-9:1:10\n" }
    ensures colon_before_bracket { ReadsPlain plain_in_block 3 "k: a:[" "Scalar plain \"a:[\" 3:1:4-6:1:7\n" }
    ensures colon_before_comma_in_flow { ReadsPlain plain_at_root_flow 1 "[a:,b]" "Scalar plain \"a\" 1:1:2-2:1:3\n" }
    ensures comment { ReadsPlain plain_in_block 3 "k: a #c" "Scalar plain \"a\" 3:1:4-4:1:5\n" }
    ensures hash_inside { ReadsPlain plain_in_block 3 "k: a#b" "Scalar plain \"a#b\" 3:1:4-6:1:7\n" }
    ensures dashes { ReadsPlain plain_at_root 0 "a\n--- b" "Scalar plain \"a\" 0:1:1-1:1:2\n" }
    ensures dots { ReadsPlain plain_at_root 0 "a\n...\n" "Scalar plain \"a\" 0:1:1-1:1:2\n" }
    ensures dashes_inside { ReadsPlain plain_at_root 0 "a\n---b" "Scalar plain \"a ---b\" 0:1:1-6:2:5\n" }
    ensures dashes_indented { ReadsPlain plain_at_root 0 "a\n --- b" "Scalar plain \"a --- b\" 0:1:1-8:2:7\n" }
    ensures comma { ReadsPlain plain_at_root_flow 1 "[a,b]" "Scalar plain \"a\" 1:1:2-2:1:3\n" }
    ensures left_square { ReadsPlain plain_at_root_flow 1 "[a[b]]" "Scalar plain \"a\" 1:1:2-2:1:3\n" }
    ensures right_square { ReadsPlain plain_at_root_flow 1 "[a]" "Scalar plain \"a\" 1:1:2-2:1:3\n" }
    ensures left_curly { ReadsPlain plain_at_root_flow 1 "[a{b: c}]" "Scalar plain \"a\" 1:1:2-2:1:3\n" }
    ensures right_curly { ReadsPlain plain_at_root_flow 1 "{a}" "Scalar plain \"a\" 1:1:2-2:1:3\n" }
    ensures indicators_outside_flow { ReadsPlain plain_in_block 3 "k: a,[]{}b"
        "Scalar plain \"a,[]{}b\" 3:1:4-10:1:11\n" }
    ensures left_line { ReadsPlain plain_in_block 3 "k: a\nb: c" "Scalar plain \"a\" 3:1:4-4:1:5\n" }
    ensures left_line_in_flow { ReadsPlain block_flow 4 "k: [a\nb]" "Scalar plain \"a b\" 4:1:5-7:2:2\n" }
    ensures line_in_strict_flow { ReadsPlain (layout (Some 0) true true) 4 "k: [a\n b]"
        "Scalar plain \"a b\" 4:1:5-8:2:3\n" }
    ensures question { ReadsPlain plain_at_root_flow 1 "[?,a]" "Scalar plain \"?\" 1:1:2-2:1:3\n" }
    ensures colon_first { ReadsPlain plain_at_root_flow 1 "[:a]" "Scalar plain \":a\" 1:1:2-3:1:4\n" }
{}

/// How its lines fold.
pub fn folds_of_the_examples()
    ensures one { ReadsPlain plain_in_block 3 "k: a\n b" "Scalar plain \"a b\" 3:1:4-7:2:3\n" }
    ensures two { ReadsPlain plain_in_block 3 "k: a\n\n b" "Scalar plain \"a\\nb\" 3:1:4-8:3:3\n" }
    ensures three { ReadsPlain plain_in_block 3 "k: a\n\n\n b" "Scalar plain \"a\\n\\nb\" 3:1:4-9:4:3\n" }
    ensures cr { ReadsPlain plain_in_block 3 "k: a\r b" "Scalar plain \"a b\" 3:1:4-7:2:3\n" }
    ensures cr_lf { ReadsPlain plain_in_block 3 "k: a\r\n b" "Scalar plain \"a b\" 3:1:4-8:2:3\n" }
    ensures two_cr_lf { ReadsPlain plain_in_block 3 "k: a\r\n\r\n b" "Scalar plain \"a\\nb\" 3:1:4-10:3:3\n" }
    ensures cr_and_lf { ReadsPlain plain_in_block 3 "k: a\r\r\n\n b" "Scalar plain \"a\\n\\nb\" 3:1:4-10:4:3\n" }
    ensures blanks_around { ReadsPlain plain_in_block 3 "k: a \t\n \t \n  \tb c"
        "Scalar plain \"a\\nb c\" 3:1:4-17:3:7\n" }
    ensures blanks_inside { ReadsPlain plain_in_block 3 "k: a \t b" "Scalar plain \"a \\t b\" 3:1:4-8:1:9\n" }
    ensures four_lines { ReadsPlain plain_in_block 3 "k: a\n b\n\n c\n d" "Scalar plain \"a b\\nc d\" 3:1:4-14:5:3\n" }
{}

/// Tabs left and right of where a node may stand.
pub fn tabs_of_the_examples()
    ensures left { FailsPlain plain_in_block 3 "k: a\n\tb" "fault 72: while scanning a plain scalar, found a tab"
        " at char 3 line 1 column 4\n" }
    ensures right { ReadsPlain plain_in_block 3 "k: a\n \tb" "Scalar plain \"a b\" 3:1:4-8:2:4\n" }
    ensures left_of_two { FailsPlain (layout (Some 2) false false) 5 "- k: a\n  \tb"
        "fault 72: while scanning a plain scalar, found a tab" " at char 5 line 1 column 6\n" }
    ensures right_of_two { ReadsPlain (layout (Some 2) false false) 5 "- k: a\n   \tb"
        "Scalar plain \"a b\" 5:1:6-12:2:6\n" }
    ensures at_the_root { ReadsPlain plain_at_root 0 "a\n\tb" "Scalar plain \"a b\" 0:1:1-4:2:3\n" }
    ensures empty_line { ReadsPlain plain_in_block 3 "k: a\n\t\n b" "Scalar plain \"a\\nb\" 3:1:4-9:3:3\n" }
    ensures in_flow { FailsPlain block_flow 4 "k: [a\n\tb]" "fault 72: while scanning a plain scalar, found a tab"
        " at char 4 line 1 column 5\n" }
    ensures before_the_next_key { FailsPlain plain_in_block 3 "k: a\n\tb: c"
        "fault 72: while scanning a plain scalar, found a tab" " at char 3 line 1 column 4\n" }
    ensures before_an_indicator { FailsPlain block_flow 4 "k: [a\n\t]"
        "fault 72: while scanning a plain scalar, found a tab" " at char 4 line 1 column 5\n" }
{}

/// Comments behind it.
pub fn comments_of_the_examples()
    ensures after_a_blank { ReadsPlain plain_in_block 3 "k: a #c\n" "Scalar plain \"a\" 3:1:4-4:1:5\n" }
    ensures after_a_tab { ReadsPlain plain_in_block 3 "k: a\t#c\n" "Scalar plain \"a\" 3:1:4-4:1:5\n" }
    ensures on_the_next_line { ReadsPlain plain_in_block 3 "k: a\n #c\n" "Scalar plain \"a\" 3:1:4-4:1:5\n" }
    ensures behind_a_left_tab { ReadsPlain plain_in_block 3 "k: a\n\t#c\n" "Scalar plain \"a\" 3:1:4-4:1:5\n" }
    ensures behind_a_right_tab { ReadsPlain plain_in_block 3 "k: a\n \t#c\n" "Scalar plain \"a\" 3:1:4-4:1:5\n" }
    ensures in_flow { ReadsPlain plain_at_root_flow 1 "[a #c\n]" "Scalar plain \"a\" 1:1:2-2:1:3\n" }
{}

/// The end of the text inside and behind it.
pub fn stops_of_the_examples()
    ensures at_the_end { ReadsPlain plain_in_block 3 "k: a" "Scalar plain \"a\" 3:1:4-4:1:5\n" }
    ensures behind_blanks { ReadsPlain plain_in_block 3 "k: a \t" "Scalar plain \"a\" 3:1:4-4:1:5\n" }
    ensures behind_a_break { ReadsPlain plain_in_block 3 "k: a\n" "Scalar plain \"a\" 3:1:4-4:1:5\n" }
    ensures behind_cr { ReadsPlain plain_in_block 3 "k: a\r" "Scalar plain \"a\" 3:1:4-4:1:5\n" }
    ensures behind_cr_lf { ReadsPlain plain_in_block 3 "k: a\r\n" "Scalar plain \"a\" 3:1:4-4:1:5\n" }
    ensures in_a_line { ReadsPlain plain_in_block 3 "k: a\n " "Scalar plain \"a\" 3:1:4-4:1:5\n" }
    ensures behind_a_left_tab { ReadsPlain plain_in_block 3 "k: a\n\t" "Scalar plain \"a\" 3:1:4-4:1:5\n" }
    ensures in_dashes { ReadsPlain plain_at_root 0 "a\n--" "Scalar plain \"a --\" 0:1:1-4:2:3\n" }
    ensures behind_dashes { ReadsPlain plain_at_root 0 "a\n---" "Scalar plain \"a\" 0:1:1-1:1:2\n" }
{}

/// What is refused at it.
pub fn refusals_of_the_examples()
    ensures nul { plain_line plain_in_block ((codes "k: a") ++ (0 ∷ []) ++ (codes "b")) 3
        ≡ codes "fault 76: unexpected character: `\\u{0}' at char 4 line 1 column 5\n" }
    ensures nul_behind_a_blank { plain_line plain_in_block ((codes "k: a ") ++ (0 ∷ [])) 3
        ≡ codes "fault 76: unexpected character: `\\u{0}' at char 5 line 1 column 6\n" }
    ensures nul_behind_a_left_tab { plain_line plain_in_block ((codes "k: a\n\t") ++ (0 ∷ [])) 3
        ≡ codes "fault 76: unexpected character: `\\u{0}' at char 6 line 2 column 2\n" }
    ensures unprintable_inside { plain_line plain_in_block ((codes "k: a") ++ (1 ∷ []) ++ (codes "b")) 3
        ≡ codes "fault 76: unexpected character: `\\u{1}' at char 3 line 1 column 4\n" }
    ensures two_unprintable { plain_line plain_in_block ((codes "k: a") ++ (2 ∷ []) ++ (codes " ") ++ (1 ∷ [])) 3
        ≡ codes "fault 76: unexpected character: `\\u{2}' at char 3 line 1 column 4\n" }
    ensures tab_before_unprintable { plain_line plain_in_block ((codes "k: a") ++ (1 ∷ []) ++ (codes "\n\tb")) 3
        ≡ codes "fault 72: while scanning a plain scalar, found a tab at char 3 line 1 column 4\n" }
    ensures dash_comma { FailsPlain plain_at_root_flow 1 "[-,a]"
        "fault 7: plain scalar cannot start with '-' followed by ,[]{}"
        " at char 1 line 1 column 2\n" }
    ensures dash_left_square { FailsPlain plain_at_root_flow 1 "[-[a]]"
        "fault 7: plain scalar cannot start with '-' followed by ,[]{}" " at char 1 line 1 column 2\n" }
    ensures dash_right_square { FailsPlain plain_at_root_flow 1 "[-]"
        "fault 7: plain scalar cannot start with '-' followed by ,[]{}" " at char 1 line 1 column 2\n" }
    ensures dash_left_curly { FailsPlain plain_at_root_flow 1 "[-{}]"
        "fault 7: plain scalar cannot start with '-' followed by ,[]{}" " at char 1 line 1 column 2\n" }
    ensures dash_right_curly { FailsPlain plain_at_root_flow 1 "{-}"
        "fault 7: plain scalar cannot start with '-' followed by ,[]{}" " at char 1 line 1 column 2\n" }
    ensures dash_letter { ReadsPlain plain_at_root_flow 1 "[-a]" "Scalar plain \"-a\" 1:1:2-3:1:4\n" }
{}

/// From examples 7.10 and 7.12 of YAML 1.2.2.
pub fn examples_of_the_specification()
    ensures vector { ReadsPlain plain_in_block 2 "- ::vector\n" "Scalar plain \"::vector\" 2:1:3-10:1:11\n" }
    ensures words { ReadsPlain plain_in_block 2 "- Up, up, and away!\n"
        "Scalar plain \"Up, up, and away!\" 2:1:3-19:1:20\n" }
    ensures number { ReadsPlain plain_in_block 2 "- -123\n" "Scalar plain \"-123\" 2:1:3-6:1:7\n" }
    ensures address { ReadsPlain plain_in_block 2 "- http://example.com/foo#bar\n"
        "Scalar plain \"http://example.com/foo#bar\" 2:1:3-28:1:29\n" }
    ensures vector_in_flow { ReadsPlain block_flow 4 "- [ ::vector,\n  -123,\n  http://example.com/foo#bar ]\n"
        "Scalar plain \"::vector\" 4:1:5-12:1:13\n" }
    ensures number_in_flow { ReadsPlain block_flow 16 "- [ ::vector,\n  -123,\n  http://example.com/foo#bar ]\n"
        "Scalar plain \"-123\" 16:2:3-20:2:7\n" }
    ensures address_in_flow { ReadsPlain block_flow 24 "- [ ::vector,\n  -123,\n  http://example.com/foo#bar ]\n"
        "Scalar plain \"http://example.com/foo#bar\" 24:3:3-50:3:29\n" }
    ensures lines { ReadsPlain plain_at_root 0 "1st non-empty\n\n 2nd non-empty \n\t3rd non-empty\n"
        "Scalar plain \"1st non-empty\\n2nd non-empty 3rd non-empty\" 0:1:1-45:4:15\n" }
{}

/// Where reading stands behind a scalar, whether a break was read, and the `#` that cut it short.
pub fn places_behind_the_examples()
    ensures blanks { behind_line plain_in_block (codes "k: a  ") 3 ≡ rest_behind 6 1 6 None false }
    ensures breaks { behind_line plain_in_block (codes "k: a \n \nb: c") 3 ≡ rest_behind 8 3 0 None true }
    ensures comment_on_its_line { behind_line plain_in_block (codes "k: a #c\n b") 3
        ≡ rest_behind 5 1 5 (Some 5) false }
    ensures comment_on_the_next_line { behind_line plain_in_block (codes "k: a\n #c\n b") 3
        ≡ rest_behind 6 2 1 None true }
    ensures comment_behind_a_left_tab { behind_line plain_in_block (codes "k: a\n\t#c\n b") 3
        ≡ rest_behind 6 2 1 (Some 6) true }
    ensures comment_behind_a_right_tab { behind_line plain_in_block (codes "k: a\n \t#c\n b") 3
        ≡ rest_behind 7 2 2 None true }
    ensures comment_in_flow { behind_line block_flow (codes "k: [a #c\n]") 4 ≡ rest_behind 6 1 6 None false }
    ensures colon { behind_line plain_in_block (codes "k: a: b") 3 ≡ rest_behind 4 1 4 None false }
    ensures nothing { behind_line plain_in_block (codes "k: a") 3 ≡ rest_behind 4 1 4 None false }
    ensures left_line_in_strict_flow { behind_line (layout (Some 0) true true) (codes "k: [a\nb]") 4
        ≡ rest_behind 6 2 0 None true }
{}

/// Lines of quoted scalars, whose first and last line are content even where they are empty.
pub fn folds_of_quoted_lines()
    ensures one_break { folded (codes "\n") ≡ (codes " ") }
    ensures two_breaks { folded (codes "\n\n") ≡ (codes "\n") }
    ensures empty_last { folded (codes "a\n\n") ≡ (codes "a\n") }
    ensures empty_first { folded (codes "\n\na") ≡ (codes "\na") }
    ensures outer_blanks { folded (codes " a \n b ") ≡ (codes " a b ") }
    ensures blanks_alone { folded (codes " \n ") ≡ (codes " ") }
    ensures mixed { folded (codes "a\n\n\n b\r\n\tc") ≡ (codes "a\n\nb c") }
    ensures one_line { folded (codes " a b ") ≡ (codes " a b ") }
{}
