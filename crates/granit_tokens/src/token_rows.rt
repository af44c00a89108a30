//! Tokens of worked texts with collections in one another, by computation; the expected ones are the original's.
ghost use Rattle.std.specs.Prelude.{◌++◌, ◌≡◌, codes};
ghost use Rattle.granit_streams.specs.TokenLines.{scans};
ghost use Rattle.granit_tokens.specs.Counted.{counted};

/// Starts and ends in one another.
pub fn tokens_of_nested_texts()
    ensures mixed { scans (codes "a:\n- b: c\n  d:\n    - e\n- f\n")
        ≡ (codes "BlockMappingStart 0:1:1-0:1:1\nKey 0:1:1-0:1:1\nScalar 0:1:1-1:1:2\n"
        ++ codes "Value 1:1:2-1:1:2\nBlockEntry 5:2:3-5:2:3\nBlockMappingStart 5:2:3-5:2:3\n"
        ++ codes "Key 5:2:3-5:2:3\nScalar 5:2:3-6:2:4\nValue 6:2:4-6:2:4\nScalar 8:2:6-9:2:7\n"
        ++ codes "Key 12:3:3-12:3:3\nScalar 12:3:3-13:3:4\nValue 13:3:4-13:3:4\n"
        ++ codes "BlockSequenceStart 19:4:5-19:4:5\nBlockEntry 21:4:7-21:4:7\nScalar 21:4:7-22:4:8\n"
        ++ codes "BlockEnd 23:5:1-23:5:1\nBlockEnd 23:5:1-23:5:1\nBlockEntry 25:5:3-25:5:3\n"
        ++ codes "Scalar 25:5:3-26:5:4\nBlockEnd 27:6:1-27:6:1\nStreamEnd 27:6:1-27:6:1\n") }
    ensures flow_in_block { scans (codes "- [a, {b: c}]\n- {d: [e]}\n")
        ≡ (codes "BlockSequenceStart 0:1:1-0:1:1\nBlockEntry 2:1:3-2:1:3\n"
        ++ codes "FlowSequenceStart 2:1:3-3:1:4\nScalar 3:1:4-4:1:5\nFlowEntry 4:1:5-5:1:6\n"
        ++ codes "FlowMappingStart 6:1:7-7:1:8\nKey 7:1:8-7:1:8\nScalar 7:1:8-8:1:9\nValue 8:1:9-8:1:9\n"
        ++ codes "Scalar 10:1:11-11:1:12\nFlowMappingEnd 11:1:12-12:1:13\n"
        ++ codes "FlowSequenceEnd 12:1:13-13:1:14\nBlockEntry 16:2:3-16:2:3\n"
        ++ codes "FlowMappingStart 16:2:3-17:2:4\nKey 17:2:4-17:2:4\nScalar 17:2:4-18:2:5\n"
        ++ codes "Value 18:2:5-18:2:5\nFlowSequenceStart 20:2:7-21:2:8\nScalar 21:2:8-22:2:9\n"
        ++ codes "FlowSequenceEnd 22:2:9-23:2:10\nFlowMappingEnd 23:2:10-24:2:11\n"
        ++ codes "BlockEnd 25:3:1-25:3:1\nStreamEnd 25:3:1-25:3:1\n") }
    ensures pairs { scans (codes "[a: b, &c d: e, : f]")
        ≡ (codes "FlowSequenceStart 0:1:1-1:1:2\nFlowMappingStart 1:1:2-1:1:2\nKey 1:1:2-1:1:2\n"
        ++ codes "Scalar 1:1:2-2:1:3\nValue 2:1:3-2:1:3\nScalar 4:1:5-5:1:6\n"
        ++ codes "FlowMappingEnd 5:1:6-5:1:6\nFlowEntry 5:1:6-6:1:7\nFlowMappingStart 7:1:8-7:1:8\n"
        ++ codes "Key 7:1:8-7:1:8\nAnchor 7:1:8-9:1:10\nScalar 10:1:11-11:1:12\nValue 11:1:12-11:1:12\n"
        ++ codes "Scalar 13:1:14-14:1:15\nFlowMappingEnd 14:1:15-14:1:15\nFlowEntry 14:1:15-15:1:16\n"
        ++ codes "FlowMappingStart 16:1:17-16:1:17\nValue 16:1:17-16:1:17\nScalar 18:1:19-19:1:20\n"
        ++ codes "FlowMappingEnd 19:1:20-19:1:20\nFlowSequenceEnd 19:1:20-20:1:21\n"
        ++ codes "StreamEnd 20:1:21-20:1:21\n") }
    ensures flow_key { scans (codes "? [a, b]\n: {c: d}\n")
        ≡ (codes "BlockMappingStart 0:1:1-0:1:1\nKey 0:1:1-1:1:2\nFlowSequenceStart 2:1:3-3:1:4\n"
        ++ codes "Scalar 3:1:4-4:1:5\nFlowEntry 4:1:5-5:1:6\nScalar 6:1:7-7:1:8\n"
        ++ codes "FlowSequenceEnd 7:1:8-8:1:9\nValue 9:2:1-9:2:1\nFlowMappingStart 11:2:3-12:2:4\n"
        ++ codes "Key 12:2:4-12:2:4\nScalar 12:2:4-13:2:5\nValue 13:2:5-13:2:5\nScalar 15:2:7-16:2:8\n"
        ++ codes "FlowMappingEnd 16:2:8-17:2:9\nBlockEnd 18:3:1-18:3:1\nStreamEnd 18:3:1-18:3:1\n") }
    ensures nested_question { scans (codes "? ? a\n  : b\n: c\n")
        ≡ (codes "BlockMappingStart 0:1:1-0:1:1\nKey 0:1:1-1:1:2\nBlockMappingStart 2:1:3-2:1:3\n"
        ++ codes "Key 2:1:3-3:1:4\nScalar 4:1:5-5:1:6\nValue 8:2:3-8:2:3\nScalar 10:2:5-11:2:6\n"
        ++ codes "BlockEnd 12:3:1-12:3:1\nValue 12:3:1-12:3:1\nScalar 14:3:3-15:3:4\n"
        ++ codes "BlockEnd 16:4:1-16:4:1\nStreamEnd 16:4:1-16:4:1\n") }
    ensures documents_end { scans (codes "a:\n  - b\n---\n- c\n...\nd: e\n")
        ≡ (codes "BlockMappingStart 0:1:1-0:1:1\nKey 0:1:1-0:1:1\nScalar 0:1:1-1:1:2\n"
        ++ codes "Value 1:1:2-1:1:2\nBlockSequenceStart 5:2:3-5:2:3\nBlockEntry 7:2:5-7:2:5\n"
        ++ codes "Scalar 7:2:5-8:2:6\nBlockEnd 9:3:1-9:3:1\nBlockEnd 9:3:1-9:3:1\n"
        ++ codes "DocumentStart 9:3:1-12:3:4\nBlockSequenceStart 13:4:1-13:4:1\n"
        ++ codes "BlockEntry 15:4:3-15:4:3\nScalar 15:4:3-16:4:4\nBlockEnd 17:5:1-17:5:1\n"
        ++ codes "DocumentEnd 17:5:1-20:5:4\nBlockMappingStart 21:6:1-21:6:1\nKey 21:6:1-21:6:1\n"
        ++ codes "Scalar 21:6:1-22:6:2\nValue 22:6:2-22:6:2\nScalar 24:6:4-25:6:5\n"
        ++ codes "BlockEnd 26:7:1-26:7:1\nStreamEnd 26:7:1-26:7:1\n") }
    ensures keys_of_keys { scans (codes "{[a: b]: c}: d\n")
        ≡ (codes "BlockMappingStart 0:1:1-0:1:1\nKey 0:1:1-0:1:1\nFlowMappingStart 0:1:1-1:1:2\n"
        ++ codes "Key 1:1:2-1:1:2\nFlowSequenceStart 1:1:2-2:1:3\nFlowMappingStart 2:1:3-2:1:3\n"
        ++ codes "Key 2:1:3-2:1:3\nScalar 2:1:3-3:1:4\nValue 3:1:4-3:1:4\nScalar 5:1:6-6:1:7\n"
        ++ codes "FlowMappingEnd 6:1:7-6:1:7\nFlowSequenceEnd 6:1:7-7:1:8\nValue 7:1:8-7:1:8\n"
        ++ codes "Scalar 9:1:10-10:1:11\nFlowMappingEnd 10:1:11-11:1:12\nValue 11:1:12-11:1:12\n"
        ++ codes "Scalar 13:1:14-14:1:15\nBlockEnd 15:2:1-15:2:1\nStreamEnd 15:2:1-15:2:1\n") }
    ensures properties_in { scans (codes "&a b: &c\n  - !!d e\n")
        ≡ (codes "BlockMappingStart 0:1:1-0:1:1\nKey 0:1:1-0:1:1\nAnchor 0:1:1-2:1:3\n"
        ++ codes "Scalar 3:1:4-4:1:5\nValue 4:1:5-4:1:5\nAnchor 6:1:7-8:1:9\n"
        ++ codes "BlockSequenceStart 11:2:3-11:2:3\nBlockEntry 13:2:5-13:2:5\nTag 13:2:5-16:2:8\n"
        ++ codes "Scalar 17:2:9-18:2:10\nBlockEnd 19:3:1-19:3:1\nBlockEnd 19:3:1-19:3:1\n"
        ++ codes "StreamEnd 19:3:1-19:3:1\n") }
    ensures outdented { scans (codes "a:\n    b:\n      c\n    d: e\n  f: g\n")
        ≡ (codes "BlockMappingStart 0:1:1-0:1:1\nKey 0:1:1-0:1:1\nScalar 0:1:1-1:1:2\n"
        ++ codes "Value 1:1:2-1:1:2\nBlockMappingStart 7:2:5-7:2:5\nKey 7:2:5-7:2:5\n"
        ++ codes "Scalar 7:2:5-8:2:6\nValue 8:2:6-8:2:6\nScalar 16:3:7-17:3:8\nKey 22:4:5-22:4:5\n"
        ++ codes "Scalar 22:4:5-23:4:6\nValue 23:4:6-23:4:6\nScalar 25:4:8-26:4:9\n"
        ++ codes "BlockEnd 29:5:3-29:5:3\nBlockMappingStart 29:5:3-29:5:3\nKey 29:5:3-29:5:3\n"
        ++ codes "Scalar 29:5:3-30:5:4\nValue 30:5:4-30:5:4\nScalar 32:5:6-33:5:7\n"
        ++ codes "BlockEnd 34:6:1-34:6:1\nBlockEnd 34:6:1-34:6:1\nStreamEnd 34:6:1-34:6:1\n") }
    ensures empty_values { scans (codes "a:\nb:\n  -\n")
        ≡ (codes "BlockMappingStart 0:1:1-0:1:1\nKey 0:1:1-0:1:1\nScalar 0:1:1-1:1:2\n"
        ++ codes "Value 1:1:2-1:1:2\nKey 3:2:1-3:2:1\nScalar 3:2:1-4:2:2\nValue 4:2:2-4:2:2\n"
        ++ codes "BlockSequenceStart 8:3:3-8:3:3\nBlockEntry 9:3:4-9:3:4\nBlockEnd 10:4:1-10:4:1\n"
        ++ codes "BlockEnd 10:4:1-10:4:1\nStreamEnd 10:4:1-10:4:1\n") }
{}

/// How many block collections start and how many end: as many, unless reading stops before the end.
pub fn blocks_of_texts()
    ensures mixed { counted (codes "a:\n- b: c\n  d:\n    - e\n- f\n") ≡ (3, 3) }
    ensures flow_in_block { counted (codes "- [a, {b: c}]\n- {d: [e]}\n") ≡ (1, 1) }
    ensures pairs { counted (codes "[a: b, &c d: e, : f]") ≡ (0, 0) }
    ensures flow_key { counted (codes "? [a, b]\n: {c: d}\n") ≡ (1, 1) }
    ensures nested_question { counted (codes "? ? a\n  : b\n: c\n") ≡ (2, 2) }
    ensures documents_end { counted (codes "a:\n  - b\n---\n- c\n...\nd: e\n") ≡ (4, 4) }
    ensures keys_of_keys { counted (codes "{[a: b]: c}: d\n") ≡ (1, 1) }
    ensures properties_in { counted (codes "&a b: &c\n  - !!d e\n") ≡ (2, 2) }
    ensures outdented { counted (codes "a:\n    b:\n      c\n    d: e\n  f: g\n") ≡ (3, 3) }
    ensures empty_values { counted (codes "a:\nb:\n  -\n") ≡ (2, 2) }
    ensures unclosed { counted (codes "a: [b") ≡ (1, 0) }
    ensures second_colon { counted (codes "a: b: c") ≡ (1, 0) }
    ensures misplaced { counted (codes "a:\n  b: c\n]") ≡ (2, 0) }
    ensures mark_in_brackets { counted (codes "- [a\n---\n") ≡ (1, 0) }
    ensures undented { counted (codes "- - a\n - b: c\n ]") ≡ (4, 1) }
{}
