//! Worked rows of the plain machine, by computation, in the lines of the program: each is what the original prints.
ghost use Rattle.std.specs.Prelude.{◌≡◌, [], ◌∷◌, ◌++◌, codes};
ghost use Rattle.granit_machine.specs.Events.{prints, prints_under};
ghost use Rattle.granit_machine.specs.ExampleOptions.{small_limits, strict_lines};

/// Which keys are possible, and where their `:` may stand.
pub fn kept_keys()
    ensures low_start { prints (codes "k: {\na\n : b}")
        ≡ (codes "fault 9: illegal placement of ':' indicator at char 8 line 3 column 2\n") }
    ensures low_behind_anchor { prints (codes "k: {\n &x\na\n : b}")
        ≡ (codes "fault 9: illegal placement of ':' indicator at char 12 line 4 column 2\n") }
    ensures low_behind_tag { prints (codes "k: {\n !x\na\n : b}")
        ≡ (codes "fault 9: illegal placement of ':' indicator at char 12 line 4 column 2\n") }
    ensures not_low_behind_body { prints (codes "k: {\n &x \"b\"\n\"c\"\n : d}")
        ≡ (codes "fault 35: while parsing a flow mapping, did not find expected ',' or '}' at char 13 line 3 column 1\n") }
    ensures alias_alone { prints (codes "k: {\n *a\n\"c\"\n : d}")
        ≡ (codes "fault 37: while parsing node, found unknown anchor at char 6 line 2 column 2\n") }
    ensures not_required_in_flow { prints (codes "k: [\na, b]")
        ≡ (codes "StreamStart 0:1:1-0:1:1\nDocumentStart implicit 0:1:1-0:1:1\n"
        ++ codes "MappingStart block 0:1:1-0:1:1\nScalar plain \"k\" 0:1:1-1:1:2\n"
        ++ codes "SequenceStart flow 3:1:4-4:1:5\nScalar plain \"a\" 5:2:1-6:2:2\n"
        ++ codes "Scalar plain \"b\" 8:2:4-9:2:5\nSequenceEnd 9:2:5-10:2:6\nMappingEnd 10:2:6-10:2:6\n"
        ++ codes "DocumentEnd 10:2:6-10:2:6\nStreamEnd 10:2:6-10:2:6\n") }
    ensures required_block { prints (codes "a: b\n|")
        ≡ (codes "fault 64: simple key expected ':' at char 5 line 2 column 1\n") }
    ensures stale_behind_gap { prints (codes "[a]\n: b")
        ≡ (codes "fault 11: did not find expected <document start> at char 4 line 2 column 1\n") }
    ensures nested { prints (codes "[[a: b]: c]")
        ≡ (codes "StreamStart 0:1:1-0:1:1\nDocumentStart implicit 0:1:1-1:1:2\n"
        ++ codes "SequenceStart flow 0:1:1-1:1:2\nMappingStart flow 1:1:2-1:1:2\n"
        ++ codes "SequenceStart flow 1:1:2-2:1:3\nMappingStart flow 2:1:3-2:1:3\n"
        ++ codes "Scalar plain \"a\" 2:1:3-3:1:4\nScalar plain \"b\" 5:1:6-6:1:7\nMappingEnd 6:1:7-6:1:7\n"
        ++ codes "SequenceEnd 6:1:7-7:1:8\nScalar plain \"c\" 9:1:10-10:1:11\nMappingEnd 10:1:11-10:1:11\n"
        ++ codes "SequenceEnd 10:1:11-11:1:12\nDocumentEnd 11:1:12-11:1:12\nStreamEnd 11:1:12-11:1:12\n") }
    ensures only_one_key { prints (codes "[: a : b]")
        ≡ (codes "fault 35: while parsing a flow mapping, did not find expected ',' or '}' at char 5 line 1 column 6\n") }
    ensures required_behind_quoted { prints (codes "a: \"q\"\n\"b\"\n\tc")
        ≡ (codes "fault 64: simple key expected ':' at char 7 line 2 column 1\n") }
    ensures behind_bare_colon { prints (codes ": - a")
        ≡ (codes "StreamStart 0:1:1-0:1:1\nDocumentStart implicit 0:1:1-0:1:1\n"
        ++ codes "MappingStart block 0:1:1-0:1:1\nScalar plain \"~\" 0:1:1-0:1:1\n"
        ++ codes "SequenceStart block 2:1:3-2:1:3\nScalar plain \"a\" 4:1:5-5:1:6\nSequenceEnd 5:1:6-5:1:6\n"
        ++ codes "MappingEnd 5:1:6-5:1:6\nDocumentEnd 5:1:6-5:1:6\nStreamEnd 5:1:6-5:1:6\n") }
    ensures adjacent_bracket { prints (codes "{\"a\":[b]}")
        ≡ (codes "StreamStart 0:1:1-0:1:1\nDocumentStart implicit 0:1:1-1:1:2\nMappingStart flow 0:1:1-1:1:2\n"
        ++ codes "Scalar double \"a\" 1:1:2-4:1:5\nSequenceStart flow 5:1:6-6:1:7\n"
        ++ codes "Scalar plain \"b\" 6:1:7-7:1:8\nSequenceEnd 7:1:8-8:1:9\nMappingEnd 8:1:9-9:1:10\n"
        ++ codes "DocumentEnd 9:1:10-9:1:10\nStreamEnd 9:1:10-9:1:10\n") }
    ensures behind_break { prints (codes "[[a]\n:b]")
        ≡ (codes "fault 36: while parsing a flow sequence, expected ',' or ']' at char 5 line 2 column 1\n") }
    ensures behind_comment { prints (codes "[[a]\n#c\n:b]")
        ≡ (codes "fault 36: while parsing a flow sequence, expected ',' or ']' at char 8 line 3 column 1\n") }
    ensures behind_tail { prints (codes "[[a] #c\n:b]")
        ≡ (codes "fault 36: while parsing a flow sequence, expected ',' or ']' at char 8 line 2 column 1\n") }
    ensures behind_note { prints (codes "{\"a\"\n#c\n:b}")
        ≡ (codes "fault 35: while parsing a flow mapping, did not find expected ',' or '}' at char 8 line 3 column 1\n") }
    ensures touching_comment { prints (codes "{\"a\":#c\nb}")
        ≡ (codes "StreamStart 0:1:1-0:1:1\nDocumentStart implicit 0:1:1-1:1:2\nMappingStart flow 0:1:1-1:1:2\n"
        ++ codes "Scalar double \"a\" 1:1:2-4:1:5\nComment right \"c\" 5:1:6-7:1:8\n"
        ++ codes "Scalar plain \"b\" 8:2:1-9:2:2\nMappingEnd 9:2:2-10:2:3\nDocumentEnd 10:2:3-10:2:3\n"
        ++ codes "StreamEnd 10:2:3-10:2:3\n") }
    ensures end_of_text { prints (codes "?") ≡ (codes "StreamStart 0:1:1-0:1:1\nDocumentStart implicit 0:1:1-0:1:1\n"
        ++ codes "MappingStart block 0:1:1-0:1:1\nScalar plain \"~\" 1:1:2-1:1:2\n"
        ++ codes "Scalar plain \"~\" 1:1:2-1:1:2\nMappingEnd 1:1:2-1:1:2\nDocumentEnd 1:1:2-1:1:2\n"
        ++ codes "StreamEnd 1:1:2-1:1:2\n") }
{}

/// Where a tab is refused, and where not.
pub fn tabs_told()
    ensures quoted_value { prints (codes "k: \"a\n\tb\"")
        ≡ (codes "fault 41: tab cannot be used as indentation at char 6 line 2 column 1\n") }
    ensures quoted_in_column { prints (codes "a: b\n\"c\n\td\"")
        ≡ (codes "fault 64: simple key expected ':' at char 5 line 2 column 1\n") }
    ensures quoted_entry { prints (codes "-\n  \"a\n\tb\"")
        ≡ (codes "fault 41: tab cannot be used as indentation at char 7 line 3 column 1\n") }
    ensures quoted_in_brackets { prints (codes "- &x [\"a\n\tb\"]")
        ≡ (codes "fault 41: tab cannot be used as indentation at char 9 line 2 column 1\n") }
    ensures at_end { prints (codes "a:\n\t") ≡ (codes "StreamStart 0:1:1-0:1:1\nDocumentStart implicit 0:1:1-0:1:1\n"
        ++ codes "MappingStart block 0:1:1-0:1:1\nScalar plain \"a\" 0:1:1-1:1:2\n"
        ++ codes "Scalar plain \"~\" 1:1:2-1:1:2\nMappingEnd 4:2:2-4:2:2\nDocumentEnd 4:2:2-4:2:2\n"
        ++ codes "StreamEnd 4:2:2-4:2:2\n") }
    ensures before_nul { prints ((codes "a:\n\t") ++ (0x0 ∷ []))
        ≡ (codes "fault 76: unexpected character: `\\u{0}' at char 4 line 2 column 2\n") }
    ensures on_line { prints (codes "- - - [[\n]\t, b]")
        ≡ (codes "StreamStart 0:1:1-0:1:1\nDocumentStart implicit 0:1:1-0:1:1\n"
        ++ codes "SequenceStart block 0:1:1-0:1:1\nSequenceStart block 2:1:3-2:1:3\n"
        ++ codes "SequenceStart block 4:1:5-4:1:5\nSequenceStart flow 6:1:7-7:1:8\n"
        ++ codes "SequenceStart flow 7:1:8-8:1:9\nSequenceEnd 9:2:1-10:2:2\nScalar plain \"b\" 13:2:5-14:2:6\n"
        ++ codes "SequenceEnd 14:2:6-15:2:7\nSequenceEnd 15:2:7-15:2:7\nSequenceEnd 15:2:7-15:2:7\n"
        ++ codes "SequenceEnd 15:2:7-15:2:7\nDocumentEnd 15:2:7-15:2:7\nStreamEnd 15:2:7-15:2:7\n") }
    ensures entry { prints (codes "-\n\t a") ≡ (codes
        "fault 70: tabs disallowed within this context (block indentation) at char 4 line 2 column 3\n") }
    ensures behind_anchor { prints (codes "a:\n - &x\n \tb")
        ≡ (codes "StreamStart 0:1:1-0:1:1\nDocumentStart implicit 0:1:1-0:1:1\n"
        ++ codes "MappingStart block 0:1:1-0:1:1\nScalar plain \"a\" 0:1:1-1:1:2\n"
        ++ codes "SequenceStart block 4:2:2-4:2:2\nScalar plain \"b\" &1 11:3:3-12:3:4\n"
        ++ codes "SequenceEnd 12:3:4-12:3:4\nMappingEnd 12:3:4-12:3:4\nDocumentEnd 12:3:4-12:3:4\n"
        ++ codes "StreamEnd 12:3:4-12:3:4\n") }
    ensures behind_question_anchor { prints (codes "a:\n ? &x\n \tb")
        ≡ (codes "StreamStart 0:1:1-0:1:1\nDocumentStart implicit 0:1:1-0:1:1\n"
        ++ codes "MappingStart block 0:1:1-0:1:1\nScalar plain \"a\" 0:1:1-1:1:2\n"
        ++ codes "MappingStart block 4:2:2-4:2:2\nScalar plain \"b\" &1 11:3:3-12:3:4\n"
        ++ codes "Scalar plain \"~\" 12:3:4-12:3:4\nMappingEnd 12:3:4-12:3:4\nMappingEnd 12:3:4-12:3:4\n"
        ++ codes "DocumentEnd 12:3:4-12:3:4\nStreamEnd 12:3:4-12:3:4\n") }
    ensures in_brackets { prints (codes "- &x [\n\tb]")
        ≡ (codes "fault 70: tabs disallowed within this context (block indentation) at char 8 line 2 column 2\n") }
    ensures in_inner_brackets { prints (codes "k: [a, [\n\tb]]")
        ≡ (codes "StreamStart 0:1:1-0:1:1\nDocumentStart implicit 0:1:1-0:1:1\n"
        ++ codes "MappingStart block 0:1:1-0:1:1\nScalar plain \"k\" 0:1:1-1:1:2\n"
        ++ codes "SequenceStart flow 3:1:4-4:1:5\nScalar plain \"a\" 4:1:5-5:1:6\n"
        ++ codes "SequenceStart flow 7:1:8-8:1:9\nScalar plain \"b\" 10:2:2-11:2:3\n"
        ++ codes "SequenceEnd 11:2:3-12:2:4\nSequenceEnd 12:2:4-13:2:5\nMappingEnd 13:2:5-13:2:5\n"
        ++ codes "DocumentEnd 13:2:5-13:2:5\nStreamEnd 13:2:5-13:2:5\n") }
    ensures behind_block { prints (codes "a: |\n b\n\tc")
        ≡ (codes "fault 33: while parsing a block mapping, did not find expected key at char 9 line 3 column 2\n") }
    ensures behind_question_comment { prints (codes "? #c\n\t- a")
        ≡ (codes "fault 71: tabs disallowed in this context at char 5 line 2 column 1\n") }
    ensures anchor_of_question { prints (codes "? &a\n\tb")
        ≡ (codes "StreamStart 0:1:1-0:1:1\nDocumentStart implicit 0:1:1-0:1:1\n"
        ++ codes "MappingStart block 0:1:1-0:1:1\nScalar plain \"b\" &1 6:2:2-7:2:3\n"
        ++ codes "Scalar plain \"~\" 7:2:3-7:2:3\nMappingEnd 7:2:3-7:2:3\nDocumentEnd 7:2:3-7:2:3\n"
        ++ codes "StreamEnd 7:2:3-7:2:3\n") }
    ensures left_line { prints (codes "k: [\na]")
        ≡ (codes "StreamStart 0:1:1-0:1:1\nDocumentStart implicit 0:1:1-0:1:1\n"
        ++ codes "MappingStart block 0:1:1-0:1:1\nScalar plain \"k\" 0:1:1-1:1:2\n"
        ++ codes "SequenceStart flow 3:1:4-4:1:5\nScalar plain \"a\" 5:2:1-6:2:2\nSequenceEnd 6:2:2-7:2:3\n"
        ++ codes "MappingEnd 7:2:3-7:2:3\nDocumentEnd 7:2:3-7:2:3\nStreamEnd 7:2:3-7:2:3\n") }
    ensures quoted_in_question { prints (codes "? \"a\n\tb\"")
        ≡ (codes "StreamStart 0:1:1-0:1:1\nDocumentStart implicit 0:1:1-0:1:1\n"
        ++ codes "MappingStart block 0:1:1-0:1:1\nScalar double \"a b\" 2:1:3-8:2:4\n"
        ++ codes "Scalar plain \"~\" 8:2:4-8:2:4\nMappingEnd 8:2:4-8:2:4\nDocumentEnd 8:2:4-8:2:4\n"
        ++ codes "StreamEnd 8:2:4-8:2:4\n") }
    ensures quoted_in_entry { prints (codes "- \"a\n\tb\"")
        ≡ (codes "StreamStart 0:1:1-0:1:1\nDocumentStart implicit 0:1:1-0:1:1\n"
        ++ codes "SequenceStart block 0:1:1-0:1:1\nScalar double \"a b\" 2:1:3-8:2:4\n"
        ++ codes "SequenceEnd 8:2:4-8:2:4\nDocumentEnd 8:2:4-8:2:4\nStreamEnd 8:2:4-8:2:4\n") }
    ensures left_in_brackets { prints (codes "- - [a,\nb,\n \tc]")
        ≡ (codes "fault 70: tabs disallowed within this context (block indentation) at char 13 line 3 column 3\n") }
{}

/// Comments that may cut a scalar short, and marks in front of documents.
pub fn cuts_told()
    ensures left { prints (codes "k: a #c\nb: d")
        ≡ (codes "StreamStart 0:1:1-0:1:1\nDocumentStart implicit 0:1:1-0:1:1\n"
        ++ codes "MappingStart block 0:1:1-0:1:1\nScalar plain \"k\" 0:1:1-1:1:2\n"
        ++ codes "Scalar plain \"a\" 3:1:4-4:1:5\nComment right \"c\" 5:1:6-7:1:8\n"
        ++ codes "Scalar plain \"b\" 8:2:1-9:2:2\nScalar plain \"d\" 11:2:4-12:2:5\nMappingEnd 12:2:5-12:2:5\n"
        ++ codes "DocumentEnd 12:2:5-12:2:5\nStreamEnd 12:2:5-12:2:5\n") }
    ensures mark { prints (codes "a #c\n--- b") ≡ (codes "StreamStart 0:1:1-0:1:1\nDocumentStart implicit 0:1:1-1:1:2\n"
        ++ codes "Scalar plain \"a\" 0:1:1-1:1:2\nComment right \"c\" 2:1:3-4:1:5\nDocumentEnd 1:1:2-1:1:2\n"
        ++ codes "DocumentStart explicit 5:2:1-8:2:4\nScalar plain \"b\" 9:2:5-10:2:6\n"
        ++ codes "DocumentEnd 10:2:6-10:2:6\nStreamEnd 10:2:6-10:2:6\n") }
    ensures indented_mark { prints ((codes " ") ++ ((0xFEFF ∷ []) ++ (codes "a")))
        ≡ (codes "fault 77: a BOM must not appear inside a document at char 1 line 1 column 2\n") }
    ensures behind_end { prints ((codes "a\n...\n") ++ ((0xFEFF ∷ []) ++ (codes "b")))
        ≡ (codes "StreamStart 0:1:1-0:1:1\nDocumentStart implicit 0:1:1-1:1:2\n"
        ++ codes "Scalar plain \"a\" 0:1:1-1:1:2\nDocumentEnd 2:2:1-5:2:4\n"
        ++ codes "DocumentStart implicit 7:3:1-8:3:2\nScalar plain \"b\" 7:3:1-8:3:2\n"
        ++ codes "DocumentEnd 8:3:2-8:3:2\nStreamEnd 8:3:2-8:3:2\n") }
    ensures behind_directive { prints ((codes "%YAML 1.2\n") ++ ((0xFEFF ∷ []) ++ (codes "---\na")))
        ≡ (codes "StreamStart 0:1:1-0:1:1\nDocumentStart explicit 1.2 11:2:1-14:2:4\n"
        ++ codes "Scalar plain \"a\" 15:3:1-16:3:2\nDocumentEnd 16:3:2-16:3:2\nStreamEnd 16:3:2-16:3:2\n") }
    ensures line_between { prints (codes "a #c\n\nb")
        ≡ (codes "fault 11: did not find expected <document start> at char 6 line 3 column 1\n") }
    ensures outside_block { prints (codes "|1\n#c")
        ≡ (codes "StreamStart 0:1:1-0:1:1\nDocumentStart implicit 3:2:1-3:2:1\n"
        ++ codes "Scalar literal \"\" 3:2:1-3:2:1\nComment last \"c\" 3:2:1-5:2:3\nDocumentEnd 3:2:1-3:2:1\n"
        ++ codes "StreamEnd 5:2:3-5:2:3\n") }
    ensures behind_version { prints (codes "%YAML 1.2#c")
        ≡ (codes "fault 73: comments must be separated from other tokens by whitespace at char 9 line 1 column 10\n") }
{}

/// Where indentation is strict.
pub fn strict_told()
    ensures plain_in_flow { prints_under strict_lines (codes "k: [a,\n\tb]")
        ≡ (codes "fault 70: tabs disallowed within this context (block indentation) at char 8 line 2 column 2\n") }
    ensures anchor_of_entry { prints_under strict_lines (codes "- &a\n\tb")
        ≡ (codes "StreamStart 0:1:1-0:1:1\nDocumentStart implicit 0:1:1-0:1:1\n"
        ++ codes "SequenceStart block 0:1:1-0:1:1\nScalar plain \"b\" &1 6:2:2-7:2:3\n"
        ++ codes "SequenceEnd 7:2:3-7:2:3\nDocumentEnd 7:2:3-7:2:3\nStreamEnd 7:2:3-7:2:3\n") }
{}

/// Small limits.
pub fn limits_told()
    ensures columns_end { prints_under small_limits (codes "- a\n- b\n- - c")
        ≡ (codes "StreamStart 0:1:1-0:1:1\nDocumentStart implicit 0:1:1-0:1:1\n"
        ++ codes "SequenceStart block 0:1:1-0:1:1\nScalar plain \"a\" 2:1:3-3:1:4\n"
        ++ codes "Scalar plain \"b\" 6:2:3-7:2:4\nSequenceStart block 10:3:3-10:3:3\n"
        ++ codes "Scalar plain \"c\" 12:3:5-13:3:6\nSequenceEnd 13:3:6-13:3:6\nSequenceEnd 13:3:6-13:3:6\n"
        ++ codes "DocumentEnd 13:3:6-13:3:6\nStreamEnd 13:3:6-13:3:6\n") }
    ensures far_key { prints_under small_limits (codes "{\"ab\":e}")
        ≡ (codes "fault 35: while parsing a flow mapping, did not find expected ',' or '}' at char 5 line 1 column 6\n") }
    ensures near_key { prints_under small_limits (codes "{\"a\":e}")
        ≡ (codes "StreamStart 0:1:1-0:1:1\nDocumentStart implicit 0:1:1-1:1:2\nMappingStart flow 0:1:1-1:1:2\n"
        ++ codes "Scalar double \"a\" 1:1:2-4:1:5\nScalar plain \"e\" 5:1:6-6:1:7\nMappingEnd 6:1:7-7:1:8\n"
        ++ codes "DocumentEnd 7:1:8-7:1:8\nStreamEnd 7:1:8-7:1:8\n") }
    ensures indentless_depth { prints_under small_limits (codes "a:\n  b:\n  -  c")
        ≡ (codes "fault 5: recursion limit exceeded at char 13 line 3 column 6\n") }
{}

/// What begins, ends and stays empty.
pub fn nodes_told()
    ensures empty_asked_value { prints (codes "[? a :]")
        ≡ (codes "StreamStart 0:1:1-0:1:1\nDocumentStart implicit 0:1:1-1:1:2\n"
        ++ codes "SequenceStart flow 0:1:1-1:1:2\nMappingStart flow 1:1:2-2:1:3\n"
        ++ codes "Scalar plain \"a\" 3:1:4-4:1:5\nScalar plain \"~\" 6:1:7-6:1:7\nMappingEnd 6:1:7-6:1:7\n"
        ++ codes "SequenceEnd 6:1:7-7:1:8\nDocumentEnd 7:1:8-7:1:8\nStreamEnd 7:1:8-7:1:8\n") }
    ensures asked_sequence { prints (codes "?\n- a\n: b")
        ≡ (codes "StreamStart 0:1:1-0:1:1\nDocumentStart implicit 0:1:1-0:1:1\n"
        ++ codes "MappingStart block 0:1:1-0:1:1\nSequenceStart block 4:2:3-4:2:3\n"
        ++ codes "Scalar plain \"a\" 4:2:3-5:2:4\nSequenceEnd 6:3:1-6:3:1\nScalar plain \"b\" 8:3:3-9:3:4\n"
        ++ codes "MappingEnd 9:3:4-9:3:4\nDocumentEnd 9:3:4-9:3:4\nStreamEnd 9:3:4-9:3:4\n") }
    ensures two_tags { prints (codes "!a !b c")
        ≡ (codes "fault 11: did not find expected <document start> at char 3 line 1 column 4\n") }
    ensures waiting_entry { prints (codes "a:\n-\nb: c")
        ≡ (codes "StreamStart 0:1:1-0:1:1\nDocumentStart implicit 0:1:1-0:1:1\n"
        ++ codes "MappingStart block 0:1:1-0:1:1\nScalar plain \"a\" 0:1:1-1:1:2\n"
        ++ codes "SequenceStart block 4:2:2-4:2:2\nScalar plain \"~\" 4:2:2-4:2:2\nSequenceEnd 5:3:1-5:3:1\n"
        ++ codes "Scalar plain \"b\" 5:3:1-6:3:2\nScalar plain \"c\" 8:3:4-9:3:5\nMappingEnd 9:3:5-9:3:5\n"
        ++ codes "DocumentEnd 9:3:5-9:3:5\nStreamEnd 9:3:5-9:3:5\n") }
    ensures behind_indentless { prints (codes "a:\n- [b]\n  c")
        ≡ (codes "fault 33: while parsing a block mapping, did not find expected key at char 11 line 3 column 3\n") }
    ensures empty_value { prints (codes "[a: , b]")
        ≡ (codes "StreamStart 0:1:1-0:1:1\nDocumentStart implicit 0:1:1-1:1:2\n"
        ++ codes "SequenceStart flow 0:1:1-1:1:2\nMappingStart flow 1:1:2-1:1:2\n"
        ++ codes "Scalar plain \"a\" 1:1:2-2:1:3\nScalar plain \"~\" 2:1:3-2:1:3\nMappingEnd 4:1:5-4:1:5\n"
        ++ codes "Scalar plain \"b\" 6:1:7-7:1:8\nSequenceEnd 7:1:8-8:1:9\nDocumentEnd 8:1:9-8:1:9\n"
        ++ codes "StreamEnd 8:1:9-8:1:9\n") }
    ensures behind_asked_pair { prints (codes "[? a : [b] c]")
        ≡ (codes "fault 36: while parsing a flow sequence, expected ',' or ']' at char 11 line 1 column 12\n") }
    ensures held_before_tail { prints (codes "a:\n #c\n- #d\n  b")
        ≡ (codes "StreamStart 0:1:1-0:1:1\nDocumentStart implicit 0:1:1-0:1:1\n"
        ++ codes "MappingStart block 0:1:1-0:1:1\nScalar plain \"a\" 0:1:1-1:1:2\n"
        ++ codes "Comment above \"c\" 4:2:2-6:2:4\nComment right \"d\" 9:3:3-11:3:5\n"
        ++ codes "SequenceStart block 11:3:5-11:3:5\nScalar plain \"b\" 14:4:3-15:4:4\n"
        ++ codes "SequenceEnd 15:4:4-15:4:4\nMappingEnd 15:4:4-15:4:4\nDocumentEnd 15:4:4-15:4:4\n"
        ++ codes "StreamEnd 15:4:4-15:4:4\n") }
    ensures comma_first { prints (codes "{,}")
        ≡ (codes "fault 32: unexpected EOF while parsing an implicit flow mapping at char 1 line 1 column 2\n") }
    ensures question_of_anchor { prints (codes "[&a ? b]")
        ≡ (codes "fault 36: while parsing a flow sequence, expected ',' or ']' at char 4 line 1 column 5\n") }
    ensures anchor_of_question { prints (codes "[? &a : b]")
        ≡ (codes "StreamStart 0:1:1-0:1:1\nDocumentStart implicit 0:1:1-1:1:2\n"
        ++ codes "SequenceStart flow 0:1:1-1:1:2\nMappingStart flow 1:1:2-2:1:3\n"
        ++ codes "Scalar plain \"~\" &1 5:1:6-5:1:6\nScalar plain \"b\" 8:1:9-9:1:10\n"
        ++ codes "MappingEnd 9:1:10-9:1:10\nSequenceEnd 9:1:10-10:1:11\nDocumentEnd 10:1:11-10:1:11\n"
        ++ codes "StreamEnd 10:1:11-10:1:11\n") }
    ensures names_end { prints (codes "&a b\n...\n*a")
        ≡ (codes "fault 37: while parsing node, found unknown anchor at char 9 line 3 column 1\n") }
    ensures question_alone { prints (codes "[? ]")
        ≡ (codes "StreamStart 0:1:1-0:1:1\nDocumentStart implicit 0:1:1-1:1:2\n"
        ++ codes "SequenceStart flow 0:1:1-1:1:2\nMappingStart flow 1:1:2-2:1:3\n"
        ++ codes "Scalar plain \"~\" 3:1:4-3:1:4\nScalar plain \"~\" 3:1:4-3:1:4\nMappingEnd 3:1:4-3:1:4\n"
        ++ codes "SequenceEnd 3:1:4-4:1:5\nDocumentEnd 4:1:5-4:1:5\nStreamEnd 4:1:5-4:1:5\n") }
{}
