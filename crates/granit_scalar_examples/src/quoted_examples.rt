//! Worked examples of quoted scalars, by computation. Each line is the original's token of that text, or its
//! fault, as the plain machine of the whole language has it.
ghost use Rattle.std.specs.Prelude.{◌≡◌, [], ◌∷◌, ◌++◌, codes, Some, None, true, false};
ghost use Rattle.granit_scalar_examples.specs.QuotedExamples.{FailsDouble, FailsSingle, ReadsDouble, ReadsSingle};
ghost use Rattle.granit_scalar_examples.specs.QuotedExamples.{in_block, quoted_layout, root, root_flow, under_key};
ghost use Rattle.granit_scalar_examples.specs.QuotedExamples.{quoted_behind, quoted_behind_line, quoted_line};

/// What they spell.
pub fn values_of_quoted_examples()
    ensures doubled_and_two_breaks { ReadsSingle root 0 "'a''b\n\n  c'" "Scalar single \"a'b\\nc\" 0:1:1-11:3:5\n" }
    ensures escaped_tab { ReadsDouble root 0 "\"a\\\t\n b\"" "Scalar double \"a\\t b\" 0:1:1-8:2:4\n" }
    ensures tabs_around_a_break { ReadsSingle root 0 "'a\t\n\tb'" "Scalar single \"a b\" 0:1:1-7:2:4\n" }
    ensures nothing { ReadsSingle root 0 "''" "Scalar single \"\" 0:1:1-2:1:3\n" }
    ensures nothing_in_double { ReadsDouble root 0 "\"\"" "Scalar double \"\" 0:1:1-2:1:3\n" }
    ensures one_line { ReadsDouble root 0 "\" a \t b \"" "Scalar double \" a \\t b \" 0:1:1-9:1:10\n" }
    ensures one_break { ReadsDouble root 0 "\"a\nb\"" "Scalar double \"a b\" 0:1:1-5:2:3\n" }
    ensures three_breaks { ReadsDouble root 0 "\"a\n\n\nb\"" "Scalar double \"a\\n\\nb\" 0:1:1-7:4:3\n" }
    ensures cr { ReadsDouble root 0 "\"a\rb\"" "Scalar double \"a b\" 0:1:1-5:2:3\n" }
    ensures cr_lf { ReadsDouble root 0 "\"a\r\nb\"" "Scalar double \"a b\" 0:1:1-6:2:3\n" }
    ensures two_cr_lf { ReadsDouble root 0 "\"a\r\n\r\nb\"" "Scalar double \"a\\nb\" 0:1:1-8:3:3\n" }
    ensures cr_and_lf { ReadsDouble root 0 "\"a\r\r\n\nb\"" "Scalar double \"a\\n\\nb\" 0:1:1-8:4:3\n" }
    ensures break_alone { ReadsDouble root 0 "\"\n\"" "Scalar double \" \" 0:1:1-3:2:2\n" }
    ensures two_breaks_alone { ReadsDouble root 0 "\"\n\n\"" "Scalar double \"\\n\" 0:1:1-4:3:2\n" }
    ensures empty_first { ReadsDouble root 0 "\"\n\na\"" "Scalar double \"\\na\" 0:1:1-5:3:3\n" }
    ensures empty_last { ReadsDouble root 0 "\"a\n\n\"" "Scalar double \"a\\n\" 0:1:1-5:3:2\n" }
    ensures blanks_around_a_break { ReadsSingle root 0 "' a  \n  \n b '" "Scalar single \" a\\nb \" 0:1:1-13:3:5\n" }
    ensures escaped_break { ReadsDouble root 0 "\"a\\\nb\"" "Scalar double \"ab\" 0:1:1-6:2:3\n" }
    ensures escaped_cr_lf { ReadsDouble root 0 "\"a\\\r\nb\"" "Scalar double \"ab\" 0:1:1-7:2:3\n" }
    ensures blanks_before_escaped { ReadsDouble root 0 "\"a  \\\n  b\"" "Scalar double \"a  b\" 0:1:1-10:2:5\n" }
    ensures empty_lines_behind_escaped { ReadsDouble root 0 "\"a\\\n\n \n b\""
        "Scalar double \"a\\n\\nb\" 0:1:1-10:4:4\n" }
    ensures escaped_break_alone_on_a_line { ReadsDouble root 0 "\"a\n\\\n b\"" "Scalar double \"a b\" 0:1:1-8:3:4\n" }
    ensures escaped_break_before_the_quote { ReadsDouble root 0 "\"a\\\n\"" "Scalar double \"a\" 0:1:1-5:2:2\n" }
    ensures escaped_blank_behind_a_break { ReadsDouble root 0 "\"a\n\\ b\"" "Scalar double \"a  b\" 0:1:1-7:2:5\n" }
    ensures escaped_tab_before_a_break { ReadsDouble root 0 "\"a\\t\nb\"" "Scalar double \"a\\t b\" 0:1:1-7:2:3\n" }
    ensures quotes_of_the_other_style { ReadsSingle root 0 "'a\"b'" "Scalar single \"a\\\"b\" 0:1:1-5:1:6\n" }
    ensures single_in_double { ReadsDouble root 0 "\"a''b\"" "Scalar double \"a''b\" 0:1:1-6:1:7\n" }
    ensures backslash_in_single { ReadsSingle root 0 "'a\\n\\'" "Scalar single \"a\\\\n\\\\\" 0:1:1-6:1:7\n" }
    ensures doubled_alone { ReadsSingle root 0 "''''" "Scalar single \"'\" 0:1:1-4:1:5\n" }
    ensures hash_inside { ReadsDouble root 0 "\"a #b\"" "Scalar double \"a #b\" 0:1:1-6:1:7\n" }
    ensures colon_inside { ReadsDouble root 0 "\"a: b\"" "Scalar double \"a: b\" 0:1:1-6:1:7\n" }
    ensures dashes_inside { ReadsSingle root 0 "'a\n---b'" "Scalar single \"a ---b\" 0:1:1-8:2:6\n" }
    ensures dashes_indented { ReadsSingle root 0 "'a\n --- b'" "Scalar single \"a --- b\" 0:1:1-10:2:8\n" }
    ensures dashes_behind_the_quote { ReadsDouble root 0 "\"--- a\"" "Scalar double \"--- a\" 0:1:1-7:1:8\n" }
{}

/// Each escape.
pub fn escapes_of_quoted_examples()
    ensures nul { ReadsDouble root 0 "\"\\0\"" "Scalar double \"\\u{0}\" 0:1:1-4:1:5\n" }
    ensures bell { ReadsDouble root 0 "\"\\a\"" "Scalar double \"\\u{7}\" 0:1:1-4:1:5\n" }
    ensures backspace { ReadsDouble root 0 "\"\\b\"" "Scalar double \"\\u{8}\" 0:1:1-4:1:5\n" }
    ensures tab { ReadsDouble root 0 "\"\\t\"" "Scalar double \"\\t\" 0:1:1-4:1:5\n" }
    ensures tab_itself { ReadsDouble root 0 "\"\\\t\"" "Scalar double \"\\t\" 0:1:1-4:1:5\n" }
    ensures line_feed { ReadsDouble root 0 "\"\\n\"" "Scalar double \"\\n\" 0:1:1-4:1:5\n" }
    ensures vertical_tab { ReadsDouble root 0 "\"\\v\"" "Scalar double \"\\u{b}\" 0:1:1-4:1:5\n" }
    ensures form_feed { ReadsDouble root 0 "\"\\f\"" "Scalar double \"\\u{c}\" 0:1:1-4:1:5\n" }
    ensures carriage_return { ReadsDouble root 0 "\"\\r\"" "Scalar double \"\\r\" 0:1:1-4:1:5\n" }
    ensures escape { ReadsDouble root 0 "\"\\e\"" "Scalar double \"\\u{1b}\" 0:1:1-4:1:5\n" }
    ensures space { ReadsDouble root 0 "\"\\ \"" "Scalar double \" \" 0:1:1-4:1:5\n" }
    ensures double_quote { ReadsDouble root 0 "\"\\\"\"" "Scalar double \"\\\"\" 0:1:1-4:1:5\n" }
    ensures slash { ReadsDouble root 0 "\"\\/\"" "Scalar double \"/\" 0:1:1-4:1:5\n" }
    ensures backslash { ReadsDouble root 0 "\"\\\\\"" "Scalar double \"\\\\\" 0:1:1-4:1:5\n" }
    ensures next_line { ReadsDouble root 0 "\"\\N\"" "Scalar double \"\\u{85}\" 0:1:1-4:1:5\n" }
    ensures no_break_space { ReadsDouble root 0 "\"\\_\"" "Scalar double \"\\u{a0}\" 0:1:1-4:1:5\n" }
    ensures line_separator { ReadsDouble root 0 "\"\\L\"" "Scalar double \"\\u{2028}\" 0:1:1-4:1:5\n" }
    ensures paragraph_separator { ReadsDouble root 0 "\"\\P\"" "Scalar double \"\\u{2029}\" 0:1:1-4:1:5\n" }
    ensures two_digits { ReadsDouble root 0 "\"\\x41\"" "Scalar double \"A\" 0:1:1-6:1:7\n" }
    ensures four_digits { ReadsDouble root 0 "\"\\u00e9\"" "Scalar double \"\\u{e9}\" 0:1:1-8:1:9\n" }
    ensures eight_digits { ReadsDouble root 0 "\"\\U0001F600\"" "Scalar double \"\\u{1f600}\" 0:1:1-12:1:13\n" }
    ensures two_halves { ReadsDouble root 0 "\"\\ud83d\\uDE00\"" "Scalar double \"\\u{1f600}\" 0:1:1-14:1:15\n" }
{}

/// What is wrong behind a backslash, refused at the start.
pub fn wrong_escapes_of_quoted_examples()
    ensures letter { FailsDouble root 0 "\"\\q\""
        "fault 45: while parsing a quoted scalar, found unknown escape character" " at char 0 line 1 column 1\n" }
    ensures end { FailsDouble root 0 "\"\\" "fault 45: while parsing a quoted scalar, found unknown escape character"
        " at char 0 line 1 column 1\n" }
    ensures letter_of_numbers_in_capitals { FailsDouble root 0 "\"\\X41\""
        "fault 45: while parsing a quoted scalar, found unknown escape character" " at char 0 line 1 column 1\n" }
    ensures quote_before_the_end { FailsDouble root 0 "\"\\\"" "fault 39: unclosed quote"
        " at char 0 line 1 column 1\n" }
    ensures no_digits { FailsDouble root 0 "\"\\u"
        "fault 46: while parsing a quoted scalar, did not find expected hexadecimal number"
        " at char 0 line 1 column 1\n" }
    ensures one_digit { FailsDouble root 0 "\"\\x4\""
        "fault 46: while parsing a quoted scalar, did not find expected hexadecimal number"
        " at char 0 line 1 column 1\n" }
    ensures seven_digits { FailsDouble root 0 "\"\\U0001f60g\""
        "fault 46: while parsing a quoted scalar, did not find expected hexadecimal number"
        " at char 0 line 1 column 1\n" }
    ensures first_half_alone { FailsDouble root 0 "\"\\ud83d"
        "fault 47: while parsing a quoted scalar, found high surrogate without following low surrogate"
        " at char 0 line 1 column 1\n" }
    ensures first_half_before_a_letter { FailsDouble root 0 "\"\\ud83d\\n\""
        "fault 47: while parsing a quoted scalar, found high surrogate without following low surrogate"
        " at char 0 line 1 column 1\n" }
    ensures second_half_without_digits { FailsDouble root 0 "\"\\ud83d\\u"
        "fault 48: while parsing a quoted scalar, did not find expected hexadecimal number for low surrogate"
        " at char 0 line 1 column 1\n" }
    ensures second_half_is_none { FailsDouble root 0 "\"\\ud83d\\uade00\""
        "fault 49: while parsing a quoted scalar, found invalid low surrogate" " at char 0 line 1 column 1\n" }
    ensures two_first_halves { FailsDouble root 0 "\"\\ud83d\\ud83d\""
        "fault 49: while parsing a quoted scalar, found invalid low surrogate" " at char 0 line 1 column 1\n" }
    ensures second_half_alone { FailsDouble root 0 "\"\\udd83d\""
        "fault 50: while parsing a quoted scalar, found unpaired low surrogate" " at char 0 line 1 column 1\n" }
    ensures half_in_eight_digits { FailsDouble root 0 "\"\\U0000d800\""
        "fault 51: while parsing a quoted scalar, found invalid Unicode character escape code"
        " at char 0 line 1 column 1\n" }
    ensures past_the_last_character { FailsDouble root 0 "\"\\U00110000\""
        "fault 51: while parsing a quoted scalar, found invalid Unicode character escape code"
        " at char 0 line 1 column 1\n" }
    ensures behind_content { FailsDouble under_key 3 "k: \"ab\n c\\q\""
        "fault 45: while parsing a quoted scalar, found unknown escape character" " at char 3 line 1 column 4\n" }
{}

/// Where their lines may stand, and what may not stand in them.
pub fn places_of_quoted_examples()
    ensures strict_in_flow { FailsDouble (quoted_layout (Some 0) 0 true true) 0 "\"a\nb\""
        "fault 10: invalid indentation" " at char 3 line 2 column 1\n" }
    ensures strict_escaped { FailsDouble (quoted_layout (Some 0) 0 false true) 0 "\"a\\\nb\""
        "fault 10: invalid indentation" " at char 4 line 2 column 1\n" }
    ensures strict_quote_in_flow { FailsDouble (quoted_layout (Some 0) 0 true true) 0 "\"a\n\""
        "fault 10: invalid indentation" " at char 3 line 2 column 1\n" }
    ensures strict_in_flow_to_the_right { ReadsDouble (quoted_layout (Some 0) 0 true true) 0 "\"a\n b\""
        "Scalar double \"a b\" 0:1:1-6:2:4\n" }
    ensures in_flow { ReadsDouble (quoted_layout (Some 0) 0 true false) 0 "\"a\nb\""
        "Scalar double \"a b\" 0:1:1-5:2:3\n" }
    ensures escaped { ReadsDouble in_block 0 "\"a\\\nb\"" "Scalar double \"ab\" 0:1:1-6:2:3\n" }
    ensures strict_end_in_flow { FailsDouble (quoted_layout (Some 0) 0 true true) 0 "\"a\n"
        "fault 10: invalid indentation" " at char 3 line 2 column 1\n" }
    ensures tab { FailsDouble under_key 3 "k: \"b\n\t" "fault 41: tab cannot be used as indentation"
        " at char 6 line 2 column 1\n" }
    ensures tab_before_content { FailsDouble (quoted_layout (Some 2) 3 false false) 5 "- k: \"a\n  \tb\""
        "fault 41: tab cannot be used as indentation" " at char 10 line 2 column 3\n" }
    ensures tab_at_the_column { ReadsDouble (quoted_layout (Some 2) 3 false false) 5 "- k: \"a\n   \tb\""
        "Scalar double \"a b\" 5:1:6-14:2:7\n" }
    ensures tab_on_an_empty_line { FailsDouble under_key 3 "k: \"a\n\t\n b\""
        "fault 41: tab cannot be used as indentation" " at char 6 line 2 column 1\n" }
    ensures tab_before_the_quote { FailsDouble under_key 3 "k: \"a\n\t\"" "fault 41: tab cannot be used as indentation"
        " at char 6 line 2 column 1\n" }
    ensures tab_behind_an_escaped_break { FailsDouble under_key 3 "k: \"a\\\n\tb\""
        "fault 41: tab cannot be used as indentation" " at char 7 line 2 column 1\n" }
    ensures tab_at_the_root { ReadsDouble root 0 "\"a\n\tb\"" "Scalar double \"a b\" 0:1:1-6:2:4\n" }
    ensures left { FailsSingle in_block 2 "- '\n" "fault 42: invalid indentation in multiline quoted scalar"
        " at char 4 line 2 column 1\n" }
    ensures left_content { FailsSingle under_key 3 "k: 'a\nb'"
        "fault 42: invalid indentation in multiline quoted scalar" " at char 6 line 2 column 1\n" }
    ensures left_doubled { FailsSingle under_key 3 "k: 'a\n''b'"
        "fault 42: invalid indentation in multiline quoted scalar" " at char 6 line 2 column 1\n" }
    ensures left_quote { ReadsSingle under_key 3 "k: 'a\n'" "Scalar single \"a \" 3:1:4-7:2:2\n" }
    ensures strict_left_quote { FailsSingle (quoted_layout (Some 0) 1 false true) 3 "k: 'a\n'"
        "fault 42: invalid indentation in multiline quoted scalar" " at char 6 line 2 column 1\n" }
    ensures right { ReadsDouble under_key 3 "k: \"a\n b\"" "Scalar double \"a b\" 3:1:4-9:2:4\n" }
    ensures left_mark { FailsDouble under_key 3 "k: \"a\n---" "fault 42: invalid indentation in multiline quoted scalar"
        " at char 6 line 2 column 1\n" }
    ensures dashes { FailsSingle root 0 "'\n---"
        "fault 40: while scanning a quoted scalar, found unexpected document indicator" " at char 0 line 1 column 1\n" }
    ensures dots { FailsDouble root 0 "\"a\n... \""
        "fault 40: while scanning a quoted scalar, found unexpected document indicator" " at char 0 line 1 column 1\n" }
    ensures dashes_in_flow { FailsDouble root_flow 1 "[\"a\n---\tb\"]"
        "fault 40: while scanning a quoted scalar, found unexpected document indicator" " at char 1 line 1 column 2\n" }
    ensures unclosed { FailsSingle root 0 "'" "fault 39: unclosed quote" " at char 0 line 1 column 1\n" }
    ensures unclosed_behind_a_break { FailsDouble root 0 "\"a\n" "fault 39: unclosed quote"
        " at char 0 line 1 column 1\n" }
    ensures unclosed_behind_an_escaped_break { FailsDouble root 0 "\"a\\\n" "fault 39: unclosed quote"
        " at char 0 line 1 column 1\n" }
    ensures unprintable { quoted_line false root ((codes "\"a") ++ (1 ∷ []) ++ (codes "b\"")) 0
        ≡ codes "fault 76: unexpected character: `\\u{1}' at char 2 line 1 column 3\n" }
    ensures nul { quoted_line false root ((codes "\"a") ++ (0 ∷ []) ++ (codes "b\"")) 0
        ≡ codes "fault 76: unexpected character: `\\u{0}' at char 2 line 1 column 3\n" }
    ensures left_unprintable { quoted_line false under_key ((codes "k: \"a\n") ++ (1 ∷ []) ++ (codes "\"")) 3
        ≡ codes "fault 42: invalid indentation in multiline quoted scalar at char 6 line 2 column 1\n" }
{}

/// What may follow a closing quote.
pub fn ends_of_quoted_examples()
    ensures bracket { ReadsDouble root_flow 1 "[\"a\"]" "Scalar double \"a\" 1:1:2-4:1:5\n" }
    ensures curly { ReadsDouble root_flow 1 "{\"a\"}" "Scalar double \"a\" 1:1:2-4:1:5\n" }
    ensures comma { ReadsDouble root_flow 1 "[\"a\" , b]" "Scalar double \"a\" 1:1:2-4:1:5\n" }
    ensures colon_in_flow { ReadsDouble root_flow 1 "[\"a\":b]" "Scalar double \"a\" 1:1:2-4:1:5\n" }
    ensures colon_on_its_line { ReadsDouble root 0 "\"a\": b" "Scalar double \"a\" 0:1:1-3:1:4\n" }
    ensures colon_on_another_line { FailsDouble root 0 "\"a\nb\": c"
        "fault 44: invalid trailing content after double-quoted scalar" " at char 5 line 2 column 3\n" }
    ensures colon_on_another_line_in_flow { ReadsDouble root_flow 1 "[\"a\nb\": c]"
        "Scalar double \"a b\" 1:1:2-6:2:3\n" }
    ensures letter { FailsSingle root 0 "''!" "fault 43: invalid trailing content after single-quoted scalar"
        " at char 2 line 1 column 3\n" }
    ensures letter_in_double { FailsDouble root 0 "\"\"!"
        "fault 44: invalid trailing content after double-quoted scalar" " at char 2 line 1 column 3\n" }
    ensures letter_behind_a_blank { FailsDouble root 0 "\"a\" b"
        "fault 44: invalid trailing content after double-quoted scalar" " at char 4 line 1 column 5\n" }
    ensures comma_outside_flow { FailsDouble root 0 "\"a\","
        "fault 44: invalid trailing content after double-quoted scalar" " at char 3 line 1 column 4\n" }
    ensures quote_behind_it { FailsDouble root 0 "\"a\"\"\""
        "fault 44: invalid trailing content after double-quoted scalar" " at char 3 line 1 column 4\n" }
    ensures hash { FailsDouble root 0 "\"a\"#" "fault 73: comments must be separated from other tokens by whitespace"
        " at char 3 line 1 column 4\n" }
    ensures hash_in_single { FailsSingle root 0 "'a'#b"
        "fault 73: comments must be separated from other tokens by whitespace" " at char 3 line 1 column 4\n" }
    ensures comment { ReadsDouble root 0 "\"a\" #b" "Scalar double \"a\" 0:1:1-3:1:4\n" }
    ensures unprintable_comment { quoted_line false root ((codes "\"a\" #b") ++ (1 ∷ [])) 0
        ≡ codes "fault 76: unexpected character: `\\u{1}' at char 6 line 1 column 7\n" }
    ensures unprintable_behind_it { quoted_line false root ((codes "\"a\" ") ++ (1 ∷ [])) 0
        ≡ codes "fault 76: unexpected character: `\\u{1}' at char 4 line 1 column 5\n" }
    ensures nul_behind_it { quoted_line false root ((codes "\"a\"") ++ (0 ∷ [])) 0
        ≡ codes "fault 76: unexpected character: `\\u{0}' at char 3 line 1 column 4\n" }
    ensures bracket_that_opens_in_flow { FailsDouble root_flow 1 "[\"a\"[b]]"
        "fault 44: invalid trailing content after double-quoted scalar" " at char 4 line 1 column 5\n" }
{}

/// From examples 2.17, 7.5, 7.6 and 7.9 of YAML 1.2.2.
pub fn quoted_examples_of_the_specification()
    ensures unicode { ReadsDouble under_key 9 "unicode: \"Sosa did fine.\\u263A\"\n"
        "Scalar double \"Sosa did fine.\\u{263a}\" 9:1:10-31:1:32\n" }
    ensures control { ReadsDouble under_key 9 "control: \"\\b1998\\t1999\\t2000\\n\"\n"
        "Scalar double \"\\u{8}1998\\t1999\\t2000\\n\" 9:1:10-31:1:32\n" }
    ensures single { ReadsSingle under_key 8 "single: '\"Howdy!\" he cried.'\n"
        "Scalar single \"\\\"Howdy!\\\" he cried.\" 8:1:9-28:1:29\n" }
    ensures not_a_comment { ReadsSingle under_key 8 "quoted: ' # Not a ''comment''.'\n"
        "Scalar single \" # Not a 'comment'.\" 8:1:9-31:1:32\n" }
    ensures tie { ReadsSingle under_key 13 "tie-fighter: '|\\-*-/|'\n"
        "Scalar single \"|\\\\-*-/|\" 13:1:14-22:1:23\n" }
    ensures folded { ReadsDouble root 0 "\"folded \nto a space,\t\n \nto a line feed, or \t\\\n \\ \tnon-content\""
        "Scalar double \"folded to a space,\\nto a line feed, or \\t \\tnon-content\" 0:1:1-62:5:17\n" }
    ensures double_lines { ReadsDouble root 0 "\" 1st non-empty\n\n 2nd non-empty \n\t3rd non-empty \""
        "Scalar double \" 1st non-empty\\n2nd non-empty 3rd non-empty \" 0:1:1-49:4:17\n" }
    ensures single_lines { ReadsSingle root 0 "' 1st non-empty\n\n 2nd non-empty \n\t3rd non-empty '"
        "Scalar single \" 1st non-empty\\n2nd non-empty 3rd non-empty \" 0:1:1-49:4:17\n" }
{}

/// Where reading stands behind a scalar, the text of the comment behind it, and whether a break was read.
pub fn places_behind_quoted_examples()
    ensures nothing { quoted_behind_line false root (codes "\"a\"") 0 ≡ quoted_behind 3 1 3 None }
    ensures blanks { quoted_behind_line false root (codes "\"a\"  ") 0 ≡ quoted_behind 5 1 5 None }
    ensures before_a_break { quoted_behind_line false root (codes "\"a\" \n ") 0 ≡ quoted_behind 4 1 4 None }
    ensures break_inside { quoted_behind_line false root (codes "\"a\nb\"") 0 ≡ quoted_behind 5 2 2 None }
    ensures comment { quoted_behind_line false root (codes "\"a\" #bc \nd") 0
        ≡ quoted_behind 8 1 8 (Some (codes "bc ")) }
    ensures comment_behind_lines { quoted_behind_line false root (codes "\"a\n b\" \t#c") 0
        ≡ quoted_behind 10 2 7 (Some (codes "c")) }
    ensures colon { quoted_behind_line false root (codes "\"a\" : b") 0 ≡ quoted_behind 4 1 4 None }
{}
