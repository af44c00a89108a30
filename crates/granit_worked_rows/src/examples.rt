//! Worked examples of whole texts, by computation, in the lines of the program: each is
//! what the original prints, with docs/DIFFERENCES.md built in.
ghost use Rattle.std.specs.Prelude.{◌≡◌, [], ◌∷◌, ◌++◌, codes};
ghost use Rattle.granit_machine.specs.Events.{prints, prints_under};
ghost use Rattle.granit_machine.specs.ExampleOptions.{anchors_told, one_comment, strict_lines, tags_kept};
ghost use Rattle.granit_machine.specs.ExampleOptions.{unresolved_left};
ghost use Rattle.granit_worked_rows.specs.LongTexts.{last_lines, line_count, repeated};

/// What is told of whole texts.
pub fn worked_events()
    ensures nothing { prints ([]) ≡ (codes "StreamStart 0:1:1-0:1:1\nStreamEnd 0:1:1-0:1:1\n") }
    ensures question_in_flow { prints (codes "--- {? \"a\" : \"b\"}\n")
        ≡ (codes "StreamStart 0:1:1-0:1:1\nDocumentStart explicit 0:1:1-3:1:4\nMappingStart flow 4:1:5-5:1:6\n"
        ++ codes "Scalar double \"a\" 7:1:8-10:1:11\nScalar double \"b\" 13:1:14-16:1:17\n"
        ++ codes "MappingEnd 16:1:17-17:1:18\nDocumentEnd 17:1:18-17:1:18\nStreamEnd 18:2:1-18:2:1\n") }
    ensures nested { prints (codes "root:\n  - item: value\n  - [a, b]\n")
        ≡ (codes "StreamStart 0:1:1-0:1:1\nDocumentStart implicit 0:1:1-0:1:1\n"
        ++ codes "MappingStart block 0:1:1-0:1:1\nScalar plain \"root\" 0:1:1-4:1:5\n"
        ++ codes "SequenceStart block 8:2:3-8:2:3\nMappingStart block 10:2:5-10:2:5\n"
        ++ codes "Scalar plain \"item\" 10:2:5-14:2:9\nScalar plain \"value\" 16:2:11-21:2:16\n"
        ++ codes "MappingEnd 24:3:3-24:3:3\nSequenceStart flow 26:3:5-27:3:6\n"
        ++ codes "Scalar plain \"a\" 27:3:6-28:3:7\nScalar plain \"b\" 30:3:9-31:3:10\n"
        ++ codes "SequenceEnd 31:3:10-32:3:11\nSequenceEnd 33:4:1-33:4:1\nMappingEnd 33:4:1-33:4:1\n"
        ++ codes "DocumentEnd 33:4:1-33:4:1\nStreamEnd 33:4:1-33:4:1\n") }
    ensures indentless { prints (codes "k:\n- a\n- b\n")
        ≡ (codes "StreamStart 0:1:1-0:1:1\nDocumentStart implicit 0:1:1-0:1:1\n"
        ++ codes "MappingStart block 0:1:1-0:1:1\nScalar plain \"k\" 0:1:1-1:1:2\n"
        ++ codes "SequenceStart block 5:2:3-5:2:3\nScalar plain \"a\" 5:2:3-6:2:4\n"
        ++ codes "Scalar plain \"b\" 9:3:3-10:3:4\nSequenceEnd 11:4:1-11:4:1\nMappingEnd 11:4:1-11:4:1\n"
        ++ codes "DocumentEnd 11:4:1-11:4:1\nStreamEnd 11:4:1-11:4:1\n") }
    ensures adjacent_colon { prints (codes "{\"a\":[b]}")
        ≡ (codes "StreamStart 0:1:1-0:1:1\nDocumentStart implicit 0:1:1-1:1:2\nMappingStart flow 0:1:1-1:1:2\n"
        ++ codes "Scalar double \"a\" 1:1:2-4:1:5\nSequenceStart flow 5:1:6-6:1:7\n"
        ++ codes "Scalar plain \"b\" 6:1:7-7:1:8\nSequenceEnd 7:1:8-8:1:9\nMappingEnd 8:1:9-9:1:10\n"
        ++ codes "DocumentEnd 9:1:10-9:1:10\nStreamEnd 9:1:10-9:1:10\n") }
    ensures folded { prints (codes ">\n a\n b\n\n c\n")
        ≡ (codes "StreamStart 0:1:1-0:1:1\nDocumentStart implicit 3:2:2-12:6:1\n"
        ++ codes "Scalar folded \"a b\\nc\\n\" 3:2:2-12:6:1\nDocumentEnd 12:6:1-12:6:1\n"
        ++ codes "StreamEnd 12:6:1-12:6:1\n") }
    ensures no_last_break { prints (codes "a: |\n  x\n  y")
        ≡ (codes "StreamStart 0:1:1-0:1:1\nDocumentStart implicit 0:1:1-0:1:1\n"
        ++ codes "MappingStart block 0:1:1-0:1:1\nScalar plain \"a\" 0:1:1-1:1:2\n"
        ++ codes "Scalar literal \"x\\ny\\n\" 7:2:3-12:3:4\nMappingEnd 12:3:4-12:3:4\n"
        ++ codes "DocumentEnd 12:3:4-12:3:4\nStreamEnd 12:3:4-12:3:4\n") }
    ensures both_halves { prints (codes "\"\\ud83d\\ude00\"")
        ≡ (codes "StreamStart 0:1:1-0:1:1\nDocumentStart implicit 0:1:1-14:1:15\n"
        ++ codes "Scalar double \"\\u{1f600}\" 0:1:1-14:1:15\nDocumentEnd 14:1:15-14:1:15\n"
        ++ codes "StreamEnd 14:1:15-14:1:15\n") }
    ensures own_alias { prints (codes "&a [*a]")
        ≡ (codes "StreamStart 0:1:1-0:1:1\nDocumentStart implicit 0:1:1-2:1:3\n"
        ++ codes "SequenceStart flow &1 3:1:4-4:1:5\nAlias 1 4:1:5-6:1:7\nSequenceEnd 6:1:7-7:1:8\n"
        ++ codes "DocumentEnd 7:1:8-7:1:8\nStreamEnd 7:1:8-7:1:8\n") }
    ensures handle { prints (codes "%TAG !m! tag:yaml.org,2002:i\n---\nv: !m!nt 1\n")
        ≡ (codes "StreamStart 0:1:1-0:1:1\nDocumentStart explicit 29:2:1-32:2:4\n"
        ++ codes "MappingStart block 33:3:1-33:3:1\nScalar plain \"v\" 33:3:1-34:3:2\n"
        ++ codes "Scalar plain \"1\" !\"tag:yaml.org,2002:i\" \"nt\" 42:3:10-43:3:11\n"
        ++ codes "MappingEnd 44:4:1-44:4:1\nDocumentEnd 44:4:1-44:4:1\nStreamEnd 44:4:1-44:4:1\n") }
    ensures empty_documents { prints (codes "---\n---\n")
        ≡ (codes "StreamStart 0:1:1-0:1:1\nDocumentStart explicit 0:1:1-3:1:4\n"
        ++ codes "Scalar plain \"~\" 3:1:4-3:1:4\nDocumentEnd 3:1:4-3:1:4\n"
        ++ codes "DocumentStart explicit 4:2:1-7:2:4\nScalar plain \"~\" 7:2:4-7:2:4\n"
        ++ codes "DocumentEnd 7:2:4-7:2:4\nStreamEnd 8:3:1-8:3:1\n") }
    ensures entry_below_key { prints (codes "a:\n- b")
        ≡ (codes "StreamStart 0:1:1-0:1:1\nDocumentStart implicit 0:1:1-0:1:1\n"
        ++ codes "MappingStart block 0:1:1-0:1:1\nScalar plain \"a\" 0:1:1-1:1:2\n"
        ++ codes "SequenceStart block 5:2:3-5:2:3\nScalar plain \"b\" 5:2:3-6:2:4\nSequenceEnd 6:2:4-6:2:4\n"
        ++ codes "MappingEnd 6:2:4-6:2:4\nDocumentEnd 6:2:4-6:2:4\nStreamEnd 6:2:4-6:2:4\n") }
    ensures mapping_in_mapping { prints (codes "a:\n b: c")
        ≡ (codes "StreamStart 0:1:1-0:1:1\nDocumentStart implicit 0:1:1-0:1:1\n"
        ++ codes "MappingStart block 0:1:1-0:1:1\nScalar plain \"a\" 0:1:1-1:1:2\n"
        ++ codes "MappingStart block 4:2:2-4:2:2\nScalar plain \"b\" 4:2:2-5:2:3\n"
        ++ codes "Scalar plain \"c\" 7:2:5-8:2:6\nMappingEnd 8:2:6-8:2:6\nMappingEnd 8:2:6-8:2:6\n"
        ++ codes "DocumentEnd 8:2:6-8:2:6\nStreamEnd 8:2:6-8:2:6\n") }
    ensures comment_behind_pair { prints (codes "a: 1\n# l\n")
        ≡ (codes "StreamStart 0:1:1-0:1:1\nDocumentStart implicit 0:1:1-0:1:1\n"
        ++ codes "MappingStart block 0:1:1-0:1:1\nScalar plain \"a\" 0:1:1-1:1:2\n"
        ++ codes "Scalar plain \"1\" 3:1:4-4:1:5\nComment above \" l\" 5:2:1-8:2:4\nMappingEnd 9:3:1-9:3:1\n"
        ++ codes "DocumentEnd 9:3:1-9:3:1\nStreamEnd 9:3:1-9:3:1\n") }
    ensures comment_alone { prints (codes "# a\n")
        ≡ (codes "StreamStart 0:1:1-0:1:1\nComment last \" a\" 0:1:1-3:1:4\nStreamEnd 4:2:1-4:2:1\n") }
    ensures two_comments { prints (codes "# a\n# b\n")
        ≡ (codes "StreamStart 0:1:1-0:1:1\nComment above \" a\" 0:1:1-3:1:4\nComment last \" b\" 4:2:1-7:2:4\n"
        ++ codes "StreamEnd 8:3:1-8:3:1\n") }
    ensures both_held { prints (codes "-\n# a\n# b\n- c\n")
        ≡ (codes "StreamStart 0:1:1-0:1:1\nDocumentStart implicit 0:1:1-0:1:1\n"
        ++ codes "SequenceStart block 0:1:1-0:1:1\nScalar plain \"~\" 1:1:2-1:1:2\n"
        ++ codes "Comment above \" a\" 2:2:1-5:2:4\nComment above \" b\" 6:3:1-9:3:4\n"
        ++ codes "Scalar plain \"c\" 12:4:3-13:4:4\nSequenceEnd 14:5:1-14:5:1\nDocumentEnd 14:5:1-14:5:1\n"
        ++ codes "StreamEnd 14:5:1-14:5:1\n") }
    ensures escape_in_flow { prints (codes "{\"a\":[1,\"\\u00e9\"]}")
        ≡ (codes "StreamStart 0:1:1-0:1:1\nDocumentStart implicit 0:1:1-1:1:2\nMappingStart flow 0:1:1-1:1:2\n"
        ++ codes "Scalar double \"a\" 1:1:2-4:1:5\nSequenceStart flow 5:1:6-6:1:7\n"
        ++ codes "Scalar plain \"1\" 6:1:7-7:1:8\nScalar double \"\\u{e9}\" 8:1:9-16:1:17\n"
        ++ codes "SequenceEnd 16:1:17-17:1:18\nMappingEnd 17:1:18-18:1:19\nDocumentEnd 18:1:19-18:1:19\n"
        ++ codes "StreamEnd 18:1:19-18:1:19\n") }
    ensures single_lines { prints (codes "'a''b\n\n  c'")
        ≡ (codes "StreamStart 0:1:1-0:1:1\nDocumentStart implicit 0:1:1-11:3:5\n"
        ++ codes "Scalar single \"a'b\\nc\" 0:1:1-11:3:5\nDocumentEnd 11:3:5-11:3:5\nStreamEnd 11:3:5-11:3:5\n") }
    ensures prefix_mark { prints ((0xFEFF ∷ []) ++ (codes "a"))
        ≡ (codes "StreamStart 0:1:1-0:1:1\nDocumentStart implicit 1:1:1-2:1:2\n"
        ++ codes "Scalar plain \"a\" 1:1:1-2:1:2\nDocumentEnd 2:1:2-2:1:2\nStreamEnd 2:1:2-2:1:2\n") }
    ensures closer_allowed { prints (codes "key: [\n  1\n]\n")
        ≡ (codes "StreamStart 0:1:1-0:1:1\nDocumentStart implicit 0:1:1-0:1:1\n"
        ++ codes "MappingStart block 0:1:1-0:1:1\nScalar plain \"key\" 0:1:1-3:1:4\n"
        ++ codes "SequenceStart flow 5:1:6-6:1:7\nScalar plain \"1\" 9:2:3-10:2:4\nSequenceEnd 11:3:1-12:3:2\n"
        ++ codes "MappingEnd 13:4:1-13:4:1\nDocumentEnd 13:4:1-13:4:1\nStreamEnd 13:4:1-13:4:1\n") }
    ensures same_keys { prints (codes "a: 1\na: 2\n")
        ≡ (codes "StreamStart 0:1:1-0:1:1\nDocumentStart implicit 0:1:1-0:1:1\n"
        ++ codes "MappingStart block 0:1:1-0:1:1\nScalar plain \"a\" 0:1:1-1:1:2\n"
        ++ codes "Scalar plain \"1\" 3:1:4-4:1:5\nScalar plain \"a\" 5:2:1-6:2:2\n"
        ++ codes "Scalar plain \"2\" 8:2:4-9:2:5\nMappingEnd 10:3:1-10:3:1\nDocumentEnd 10:3:1-10:3:1\n"
        ++ codes "StreamEnd 10:3:1-10:3:1\n") }
    ensures services { prints (codes
        "version: \"3\"\nservices:\n  web:\n    image: nginx:1.25   # pinned\n    ports: [\"80:80\"]\n")
        ≡ (codes "StreamStart 0:1:1-0:1:1\nDocumentStart implicit 0:1:1-0:1:1\n"
        ++ codes "MappingStart block 0:1:1-0:1:1\nScalar plain \"version\" 0:1:1-7:1:8\n"
        ++ codes "Scalar double \"3\" 9:1:10-12:1:13\nScalar plain \"services\" 13:2:1-21:2:9\n"
        ++ codes "MappingStart block 25:3:3-25:3:3\nScalar plain \"web\" 25:3:3-28:3:6\n"
        ++ codes "MappingStart block 34:4:5-34:4:5\nScalar plain \"image\" 34:4:5-39:4:10\n"
        ++ codes "Scalar plain \"nginx:1.25\" 41:4:12-51:4:22\nComment right \" pinned\" 54:4:25-62:4:33\n"
        ++ codes "Scalar plain \"ports\" 67:5:5-72:5:10\nSequenceStart flow 74:5:12-75:5:13\n"
        ++ codes "Scalar double \"80:80\" 75:5:13-82:5:20\nSequenceEnd 82:5:20-83:5:21\n"
        ++ codes "MappingEnd 84:6:1-84:6:1\nMappingEnd 84:6:1-84:6:1\nMappingEnd 84:6:1-84:6:1\n"
        ++ codes "DocumentEnd 84:6:1-84:6:1\nStreamEnd 84:6:1-84:6:1\n") }
    ensures marked_sequence { prints (codes "--- [a]\n")
        ≡ (codes "StreamStart 0:1:1-0:1:1\nDocumentStart explicit 0:1:1-3:1:4\n"
        ++ codes "SequenceStart flow 4:1:5-5:1:6\nScalar plain \"a\" 5:1:6-6:1:7\nSequenceEnd 6:1:7-7:1:8\n"
        ++ codes "DocumentEnd 7:1:8-7:1:8\nStreamEnd 8:2:1-8:2:1\n") }
    ensures marked_alias { prints (codes "--- &a [*a]\n")
        ≡ (codes "StreamStart 0:1:1-0:1:1\nDocumentStart explicit 0:1:1-3:1:4\n"
        ++ codes "SequenceStart flow &1 7:1:8-8:1:9\nAlias 1 8:1:9-10:1:11\nSequenceEnd 10:1:11-11:1:12\n"
        ++ codes "DocumentEnd 11:1:12-11:1:12\nStreamEnd 12:2:1-12:2:1\n") }
    ensures returns_and_feeds { prints (codes "a: 1\r\nb: 2\r\n")
        ≡ (codes "StreamStart 0:1:1-0:1:1\nDocumentStart implicit 0:1:1-0:1:1\n"
        ++ codes "MappingStart block 0:1:1-0:1:1\nScalar plain \"a\" 0:1:1-1:1:2\n"
        ++ codes "Scalar plain \"1\" 3:1:4-4:1:5\nScalar plain \"b\" 6:2:1-7:2:2\n"
        ++ codes "Scalar plain \"2\" 9:2:4-10:2:5\nMappingEnd 12:3:1-12:3:1\nDocumentEnd 12:3:1-12:3:1\n"
        ++ codes "StreamEnd 12:3:1-12:3:1\n") }
{}

/// What is refused of whole texts.
pub fn worked_faults()
    ensures unclosed { prints (codes "a: [1, 2") ≡ (codes "fault 2: unclosed bracket '[' at char 3 line 1 column 4\n") }
    ensures second_colon { prints (codes "a: b: c")
        ≡ (codes "fault 67: mapping values are not allowed in this context at char 4 line 1 column 5\n") }
    ensures comma_as_value { prints (codes "a: , b")
        ≡ (codes "fault 31: unexpected EOF while parsing a block mapping at char 3 line 1 column 4\n") }
    ensures touching_colon { prints (codes "{a:[b]}")
        ≡ (codes "fault 8: ':' may not precede any of `[{` in flow mapping at char 2 line 1 column 3\n") }
    ensures second_closer { prints (codes "[ a, b, c ] ]")
        ≡ (codes "fault 4: misplaced bracket at char 12 line 1 column 13\n") }
    ensures comment_behind_tab { prints (codes "a: b\n\t# c\n  d\n")
        ≡ (codes "fault 74: comment intercepting the multiline text at char 6 line 2 column 2\n") }
    ensures comment_in_words { prints (codes "word1  # comment\nword2")
        ≡ (codes "fault 74: comment intercepting the multiline text at char 7 line 1 column 8\n") }
    ensures one_half { prints (codes "\"\\ud83d\"")
        ≡ (codes "fault 47: while parsing a quoted scalar, found high surrogate without following low surrogate"
        ++ codes " at char 0 line 1 column 1\n") }
    ensures anchor_of_another { prints (codes "--- &a x\n--- *a\n")
        ≡ (codes "fault 37: while parsing node, found unknown anchor at char 13 line 2 column 5\n") }
    ensures two_versions { prints (codes "%YAML 1.2\n%YAML 1.2\n---\n")
        ≡ (codes "fault 23: duplicate version directive at char 10 line 2 column 1\n") }
    ensures comment_behind_value { prints (codes "{a: b\n# c\n d: e}")
        ≡ (codes "fault 35: while parsing a flow mapping, did not find expected ',' or '}' at char 11 line 3 column 2\n") }
    ensures left_of_entry { prints (codes "-   - a\n  - b")
        ≡ (codes "fault 34: while parsing a block collection, did not find expected '-' indicator at char 10 line 2 column 3\n") }
    ensures left_of_key { prints (codes "  a: b\n c: d")
        ≡ (codes "fault 11: did not find expected <document start> at char 8 line 2 column 2\n") }
    ensures word_below_value { prints (codes "foo:\n  bar\ninvalid\n")
        ≡ (codes "fault 64: simple key expected ':' at char 11 line 3 column 1\n") }
    ensures nul { prints ((codes "a: ") ++ (0x0 ∷ []))
        ≡ (codes "fault 76: unexpected character: `\\u{0}' at char 3 line 1 column 4\n") }
    ensures tab_before_dash { prints (codes "a:\n\t- b")
        ≡ (codes "fault 70: tabs disallowed within this context (block indentation) at char 4 line 2 column 2\n") }
    ensures open_quote { prints (codes "\"ab") ≡ (codes "fault 39: unclosed quote at char 0 line 1 column 1\n") }
    ensures quote_left { prints (codes "a: \"b\n")
        ≡ (codes "fault 42: invalid indentation in multiline quoted scalar at char 6 line 2 column 1\n") }
    ensures open_bracket { prints (codes "--- [\n")
        ≡ (codes "fault 2: unclosed bracket '[' at char 4 line 1 column 5\n") }
    ensures quoted_anchor { prints (codes "--- &a \"x\"\n--- *a\n")
        ≡ (codes "fault 37: while parsing node, found unknown anchor at char 15 line 2 column 5\n") }
    ensures stray_mark { prints ((codes "a: ") ++ ((0xFEFF ∷ []) ++ (codes "b")))
        ≡ (codes "fault 77: a BOM must not appear inside a document at char 3 line 1 column 4\n") }
    ensures delete { prints ((codes "\"") ++ ((0x7F ∷ []) ++ (codes "\"")))
        ≡ (codes "fault 76: unexpected character: `\\u{7f}' at char 1 line 1 column 2\n") }
    ensures mark_in_bracket { prints (codes "[\n---\n")
        ≡ (codes "fault 2: unclosed bracket '[' at char 0 line 1 column 1\n") }
    ensures mark_in_quote { prints (codes "\"a\n---\nb\"")
        ≡ (codes "fault 40: while scanning a quoted scalar, found unexpected document indicator at char 0 line 1 column 1\n") }
    ensures directive_inside { prints (codes "---\n%YAML 1.2\n---\n")
        ≡ (codes "fault 12: missing explicit document end marker before directive at char 4 line 2 column 1\n") }
    ensures handle_of_another { prints (codes "%TAG !t! tag:t:\n--- !t!x a\n--- !t!y b\n")
        ≡ (codes "fault 38: the handle wasn't declared at char 31 line 3 column 5\n") }
{}

/// At the limits, and one beyond them.
pub fn worked_limits()
    ensures brackets { line_count (prints ((repeated 255 (codes "[")) ++ (repeated 255 (codes "]")))) ≡ 514 }
    ensures brackets_end { last_lines 94 (prints ((repeated 255 (codes "[")) ++ (repeated 255 (codes "]"))))
        ≡ (codes "SequenceEnd 509:1:510-510:1:511\nDocumentEnd 510:1:511-510:1:511\n"
        ++ codes "StreamEnd 510:1:511-510:1:511\n") }
    ensures one_bracket_more { prints (repeated 256 (codes "["))
        ≡ (codes "fault 5: recursion limit exceeded at char 255 line 1 column 256\n") }
    ensures long_key { line_count (prints ((repeated 1024 (codes "x")) ++ (codes ": v"))) ≡ 8 }
    ensures long_key_end { last_lines 105 (prints ((repeated 1024 (codes "x")) ++ (codes ": v")))
        ≡ (codes "MappingEnd 1027:1:1028-1027:1:1028\nDocumentEnd 1027:1:1028-1027:1:1028\n"
        ++ codes "StreamEnd 1027:1:1028-1027:1:1028\n") }
    ensures longer_key { prints ((repeated 1025 (codes "x")) ++ (codes ": v"))
        ≡ (codes "fault 67: mapping values are not allowed in this context at char 1025 line 1 column 1026\n") }
    ensures bracket_behind_mark { prints ((codes "--- ") ++ (repeated 256 (codes "[")))
        ≡ (codes "fault 5: recursion limit exceeded at char 259 line 1 column 260\n") }
    ensures dashes { line_count (prints (repeated 255 (codes "- "))) ≡ 515 }
    ensures dashes_end { last_lines 94 (prints (repeated 255 (codes "- ")))
        ≡ (codes "SequenceEnd 510:1:511-510:1:511\nDocumentEnd 510:1:511-510:1:511\n"
        ++ codes "StreamEnd 510:1:511-510:1:511\n") }
    ensures one_dash_more { prints (repeated 256 (codes "- "))
        ≡ (codes "fault 5: recursion limit exceeded at char 510 line 1 column 511\n") }
    ensures held_comments { line_count (prints ((codes "-\n") ++ (repeated 96 (codes "# x\n")))) ≡ 103 }
    ensures held_comments_end { last_lines 88 (prints ((codes "-\n") ++ (repeated 96 (codes "# x\n"))))
        ≡ (codes "SequenceEnd 386:98:1-386:98:1\nDocumentEnd 386:98:1-386:98:1\nStreamEnd 386:98:1-386:98:1\n") }
    ensures one_comment_more { prints ((codes "-\n") ++ (repeated 97 (codes "# x\n")))
        ≡ (codes "fault 75: too many buffered comments while looking ahead at char 386 line 98 column 1\n") }
{}

/// Under an option.
pub fn worked_options()
    ensures two_held { prints_under one_comment (codes "-\n# a\n# b\n- c\n")
        ≡ (codes "fault 75: too many buffered comments while looking ahead at char 6 line 3 column 1\n") }
    ensures closer_left { prints_under strict_lines (codes "key: [\n  1\n]\n")
        ≡ (codes "fault 10: invalid indentation at char 11 line 3 column 1\n") }
    ensures unresolved { prints_under unresolved_left (codes "*x")
        ≡ (codes "StreamStart 0:1:1-0:1:1\nDocumentStart implicit 0:1:1-2:1:3\n"
        ++ codes "UnresolvedAlias \"x\" 0:1:1-2:1:3\nDocumentEnd 2:1:3-2:1:3\nStreamEnd 2:1:3-2:1:3\n") }
    ensures anchor { prints_under anchors_told (codes "&a x")
        ≡ (codes "StreamStart 0:1:1-0:1:1\nDocumentStart implicit 0:1:1-2:1:3\n"
        ++ codes "Scalar plain \"x\" &1 3:1:4-4:1:5\nAnchor 1 \"a\" 0:1:1-2:1:3\nDocumentEnd 4:1:5-4:1:5\n"
        ++ codes "StreamEnd 4:1:5-4:1:5\n") }
{}

/// Handles that stay over documents, and what they stand for.
pub fn worked_tags()
    ensures forgotten { prints (codes "%TAG !t! tag:t:\n--- !t!x a\n--- !t!y b\n")
        ≡ (codes "fault 38: the handle wasn't declared at char 31 line 3 column 5\n") }
    ensures stays { prints_under tags_kept (codes "%TAG !t! tag:t:\n--- !t!x a\n--- !t!y b\n")
        ≡ (codes "StreamStart 0:1:1-0:1:1\nDocumentStart explicit 16:2:1-19:2:4\n"
        ++ codes "Scalar plain \"a\" !\"tag:t:\" \"x\" 25:2:10-26:2:11\nDocumentEnd 26:2:11-26:2:11\n"
        ++ codes "DocumentStart explicit 27:3:1-30:3:4\nScalar plain \"b\" !\"tag:t:\" \"y\" 36:3:10-37:3:11\n"
        ++ codes "DocumentEnd 37:3:11-37:3:11\nStreamEnd 38:4:1-38:4:1\n") }
    ensures core { prints_under tags_kept (codes "%TAG !! tag:e,\n--- !!x a\n--- !!y b\n")
        ≡ (codes "StreamStart 0:1:1-0:1:1\nDocumentStart explicit 15:2:1-18:2:4\n"
        ++ codes "Scalar plain \"a\" !\"tag:e,\" \"x\" 23:2:9-24:2:10\nDocumentEnd 24:2:10-24:2:10\n"
        ++ codes "DocumentStart explicit 25:3:1-28:3:4\n"
        ++ codes "Scalar plain \"b\" !\"tag:yaml.org,2002:\" \"y\" 33:3:9-34:3:10\n"
        ++ codes "DocumentEnd 34:3:10-34:3:10\nStreamEnd 35:4:1-35:4:1\n") }
    ensures primary { prints_under tags_kept (codes "%TAG ! tag:e,\n--- !x a\n--- !y b\n")
        ≡ (codes "StreamStart 0:1:1-0:1:1\nDocumentStart explicit 14:2:1-17:2:4\n"
        ++ codes "Scalar plain \"a\" !\"tag:e,\" \"x\" 21:2:8-22:2:9\nDocumentEnd 22:2:9-22:2:9\n"
        ++ codes "DocumentStart explicit 23:3:1-26:3:4\nScalar plain \"b\" !\"!\" \"y\" 30:3:8-31:3:9\n"
        ++ codes "DocumentEnd 31:3:9-31:3:9\nStreamEnd 32:4:1-32:4:1\n") }
    ensures told_again { prints_under tags_kept
        (codes "%TAG !e! one:\n--- !e!x a\n...\n%TAG !e! two:\n--- !e!y b\n...\n--- !e!z c")
        ≡ (codes "StreamStart 0:1:1-0:1:1\nDocumentStart explicit 14:2:1-17:2:4\n"
        ++ codes "Scalar plain \"a\" !\"one:\" \"x\" 23:2:10-24:2:11\nDocumentEnd 25:3:1-28:3:4\n"
        ++ codes "DocumentStart explicit 43:5:1-46:5:4\nScalar plain \"b\" !\"two:\" \"y\" 52:5:10-53:5:11\n"
        ++ codes "DocumentEnd 54:6:1-57:6:4\nDocumentStart explicit 58:7:1-61:7:4\n"
        ++ codes "Scalar plain \"c\" !\"two:\" \"z\" 67:7:10-68:7:11\nDocumentEnd 68:7:11-68:7:11\n"
        ++ codes "StreamEnd 68:7:11-68:7:11\n") }
    ensures beside_another { prints_under tags_kept (codes "%TAG !e! t:\n---\n...\n%TAG !f! u:\n--- !e!a [!f!b c]\n")
        ≡ (codes "StreamStart 0:1:1-0:1:1\nDocumentStart explicit 12:2:1-15:2:4\n"
        ++ codes "Scalar plain \"~\" 15:2:4-15:2:4\nDocumentEnd 16:3:1-19:3:4\n"
        ++ codes "DocumentStart explicit 32:5:1-35:5:4\nSequenceStart flow !\"t:\" \"a\" 41:5:10-42:5:11\n"
        ++ codes "Scalar plain \"c\" !\"u:\" \"b\" 47:5:16-48:5:17\nSequenceEnd 48:5:17-49:5:18\n"
        ++ codes "DocumentEnd 49:5:18-49:5:18\nStreamEnd 50:6:1-50:6:1\n") }
    ensures two_handles { prints_under tags_kept (codes "%TAG !e! a\n%TAG !e! b\n---")
        ≡ (codes "fault 25: the TAG directive must only be given at most once per handle "
        ++ codes "in the same document at char 11 line 2 column 1\n") }
    ensures never_told { prints_under tags_kept (codes "--- !q!x a")
        ≡ (codes "fault 38: the handle wasn't declared at char 4 line 1 column 5\n") }
{}
