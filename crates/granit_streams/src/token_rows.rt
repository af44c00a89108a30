//! Tokens of worked texts, by computation.
ghost use Rattle.std.specs.Prelude.{◌++◌, ◌≡◌, codes};
ghost use Rattle.granit_streams.specs.TokenLines.{scans};

/// What is inserted between the lexemes, and what the lexemes' own tokens are.
pub fn tokens_of_texts()
    ensures empty { scans (codes "") ≡ codes "StreamEnd 0:1:1-0:1:1\n" }
    ensures plain { scans (codes "a") ≡ codes "Scalar 0:1:1-1:1:2\nStreamEnd 1:1:2-1:1:2\n" }
    ensures mapping { scans (codes "a: b\nc: d\n")
        ≡ (codes "BlockMappingStart 0:1:1-0:1:1\nKey 0:1:1-0:1:1\nScalar 0:1:1-1:1:2\nValue 1:1:2-1:1:2\n"
        ++ codes "Scalar 3:1:4-4:1:5\nKey 5:2:1-5:2:1\nScalar 5:2:1-6:2:2\nValue 6:2:2-6:2:2\n"
        ++ codes "Scalar 8:2:4-9:2:5\nBlockEnd 10:3:1-10:3:1\nStreamEnd 10:3:1-10:3:1\n") }
    ensures nested { scans (codes "a:\n  b: c\nd: e")
        ≡ (codes "BlockMappingStart 0:1:1-0:1:1\nKey 0:1:1-0:1:1\nScalar 0:1:1-1:1:2\nValue 1:1:2-1:1:2\n"
        ++ codes "BlockMappingStart 5:2:3-5:2:3\nKey 5:2:3-5:2:3\nScalar 5:2:3-6:2:4\nValue 6:2:4-6:2:4\n"
        ++ codes "Scalar 8:2:6-9:2:7\nBlockEnd 10:3:1-10:3:1\nKey 10:3:1-10:3:1\nScalar 10:3:1-11:3:2\n"
        ++ codes "Value 11:3:2-11:3:2\nScalar 13:3:4-14:3:5\nBlockEnd 14:3:5-14:3:5\nStreamEnd 14:3:5-14:3:5\n") }
    ensures sequence { scans (codes "- a\n- b")
        ≡ (codes "BlockSequenceStart 0:1:1-0:1:1\nBlockEntry 2:1:3-2:1:3\nScalar 2:1:3-3:1:4\n"
        ++ codes "BlockEntry 6:2:3-6:2:3\nScalar 6:2:3-7:2:4\nBlockEnd 7:2:4-7:2:4\nStreamEnd 7:2:4-7:2:4\n") }
    ensures indentless { scans (codes "a:\n- b\n- c\nd: e")
        ≡ (codes "BlockMappingStart 0:1:1-0:1:1\nKey 0:1:1-0:1:1\nScalar 0:1:1-1:1:2\nValue 1:1:2-1:1:2\n"
        ++ codes "BlockEntry 5:2:3-5:2:3\nScalar 5:2:3-6:2:4\nBlockEntry 9:3:3-9:3:3\nScalar 9:3:3-10:3:4\n"
        ++ codes "Key 11:4:1-11:4:1\nScalar 11:4:1-12:4:2\nValue 12:4:2-12:4:2\nScalar 14:4:4-15:4:5\n"
        ++ codes "BlockEnd 15:4:5-15:4:5\nStreamEnd 15:4:5-15:4:5\n") }
    ensures sequences { scans (codes "- - a\n  - b\n- c")
        ≡ (codes "BlockSequenceStart 0:1:1-0:1:1\nBlockEntry 2:1:3-2:1:3\nBlockSequenceStart 2:1:3-2:1:3\n"
        ++ codes "BlockEntry 4:1:5-4:1:5\nScalar 4:1:5-5:1:6\nBlockEntry 10:2:5-10:2:5\nScalar 10:2:5-11:2:6\n"
        ++ codes "BlockEnd 12:3:1-12:3:1\nBlockEntry 14:3:3-14:3:3\nScalar 14:3:3-15:3:4\n"
        ++ codes "BlockEnd 15:3:4-15:3:4\nStreamEnd 15:3:4-15:3:4\n") }
    ensures in_sequence { scans (codes "- a: b\n  c: d")
        ≡ (codes "BlockSequenceStart 0:1:1-0:1:1\nBlockEntry 2:1:3-2:1:3\nBlockMappingStart 2:1:3-2:1:3\n"
        ++ codes "Key 2:1:3-2:1:3\nScalar 2:1:3-3:1:4\nValue 3:1:4-3:1:4\nScalar 5:1:6-6:1:7\n"
        ++ codes "Key 9:2:3-9:2:3\nScalar 9:2:3-10:2:4\nValue 10:2:4-10:2:4\nScalar 12:2:6-13:2:7\n"
        ++ codes "BlockEnd 13:2:7-13:2:7\nBlockEnd 13:2:7-13:2:7\nStreamEnd 13:2:7-13:2:7\n") }
    ensures question { scans (codes "? a\n: b\n")
        ≡ (codes "BlockMappingStart 0:1:1-0:1:1\nKey 0:1:1-1:1:2\nScalar 2:1:3-3:1:4\nValue 4:2:1-4:2:1\n"
        ++ codes "Scalar 6:2:3-7:2:4\nBlockEnd 8:3:1-8:3:1\nStreamEnd 8:3:1-8:3:1\n") }
    ensures bare_colon { scans (codes ": a") ≡ (codes
        "BlockMappingStart 0:1:1-0:1:1\nValue 0:1:1-0:1:1\nScalar 2:1:3-3:1:4\nBlockEnd 3:1:4-3:1:4\n"
        ++ codes "StreamEnd 3:1:4-3:1:4\n") }
    ensures flow { scans (codes "[a, {b: c}]")
        ≡ (codes "FlowSequenceStart 0:1:1-1:1:2\nScalar 1:1:2-2:1:3\nFlowEntry 2:1:3-3:1:4\n"
        ++ codes "FlowMappingStart 4:1:5-5:1:6\nKey 5:1:6-5:1:6\nScalar 5:1:6-6:1:7\nValue 6:1:7-6:1:7\n"
        ++ codes "Scalar 8:1:9-9:1:10\nFlowMappingEnd 9:1:10-10:1:11\nFlowSequenceEnd 10:1:11-11:1:12\n"
        ++ codes "StreamEnd 11:1:12-11:1:12\n") }
    ensures single_pair { scans (codes "[a: b, c]")
        ≡ (codes "FlowSequenceStart 0:1:1-1:1:2\nFlowMappingStart 1:1:2-1:1:2\nKey 1:1:2-1:1:2\n"
        ++ codes "Scalar 1:1:2-2:1:3\nValue 2:1:3-2:1:3\nScalar 4:1:5-5:1:6\nFlowMappingEnd 5:1:6-5:1:6\n"
        ++ codes "FlowEntry 5:1:6-6:1:7\nScalar 7:1:8-8:1:9\nFlowSequenceEnd 8:1:9-9:1:10\n"
        ++ codes "StreamEnd 9:1:10-9:1:10\n") }
    ensures bare_pair { scans (codes "[: b]")
        ≡ (codes "FlowSequenceStart 0:1:1-1:1:2\nFlowMappingStart 1:1:2-1:1:2\nValue 1:1:2-1:1:2\n"
        ++ codes "Scalar 3:1:4-4:1:5\nFlowMappingEnd 4:1:5-4:1:5\nFlowSequenceEnd 4:1:5-5:1:6\n"
        ++ codes "StreamEnd 5:1:6-5:1:6\n") }
    ensures asked_pair { scans (codes "[? a : b]")
        ≡ (codes "FlowSequenceStart 0:1:1-1:1:2\nKey 1:1:2-2:1:3\nScalar 3:1:4-4:1:5\nValue 5:1:6-5:1:6\n"
        ++ codes "Scalar 7:1:8-8:1:9\nFlowSequenceEnd 8:1:9-9:1:10\nStreamEnd 9:1:10-9:1:10\n") }
    ensures key_of_brackets { scans (codes "[a, b]: c")
        ≡ (codes "BlockMappingStart 0:1:1-0:1:1\nKey 0:1:1-0:1:1\nFlowSequenceStart 0:1:1-1:1:2\n"
        ++ codes "Scalar 1:1:2-2:1:3\nFlowEntry 2:1:3-3:1:4\nScalar 4:1:5-5:1:6\nFlowSequenceEnd 5:1:6-6:1:7\n"
        ++ codes "Value 6:1:7-6:1:7\nScalar 8:1:9-9:1:10\nBlockEnd 9:1:10-9:1:10\nStreamEnd 9:1:10-9:1:10\n") }
    ensures nested_pair { scans (codes "[[a: b]: c]")
        ≡ (codes "FlowSequenceStart 0:1:1-1:1:2\nFlowMappingStart 1:1:2-1:1:2\nKey 1:1:2-1:1:2\n"
        ++ codes "FlowSequenceStart 1:1:2-2:1:3\nFlowMappingStart 2:1:3-2:1:3\nKey 2:1:3-2:1:3\n"
        ++ codes "Scalar 2:1:3-3:1:4\nValue 3:1:4-3:1:4\nScalar 5:1:6-6:1:7\nFlowMappingEnd 6:1:7-6:1:7\n"
        ++ codes "FlowSequenceEnd 6:1:7-7:1:8\nValue 7:1:8-7:1:8\nScalar 9:1:10-10:1:11\n"
        ++ codes "FlowMappingEnd 10:1:11-10:1:11\nFlowSequenceEnd 10:1:11-11:1:12\nStreamEnd 11:1:12-11:1:12\n") }
    ensures properties { scans (codes "&a !!str b: *a\n")
        ≡ (codes "BlockMappingStart 0:1:1-0:1:1\nKey 0:1:1-0:1:1\nAnchor 0:1:1-2:1:3\nTag 3:1:4-8:1:9\n"
        ++ codes "Scalar 9:1:10-10:1:11\nValue 10:1:11-10:1:11\nAlias 12:1:13-14:1:15\n"
        ++ codes "BlockEnd 15:2:1-15:2:1\nStreamEnd 15:2:1-15:2:1\n") }
    ensures documents { scans (codes "%YAML 1.2\n---\na: b\n...\n--- c")
        ≡ (codes "VersionDirective 0:1:1-9:1:10\nDocumentStart 10:2:1-13:2:4\n"
        ++ codes "BlockMappingStart 14:3:1-14:3:1\nKey 14:3:1-14:3:1\nScalar 14:3:1-15:3:2\n"
        ++ codes "Value 15:3:2-15:3:2\nScalar 17:3:4-18:3:5\nBlockEnd 19:4:1-19:4:1\n"
        ++ codes "DocumentEnd 19:4:1-22:4:4\nDocumentStart 23:5:1-26:5:4\nScalar 27:5:5-28:5:6\n"
        ++ codes "StreamEnd 28:5:6-28:5:6\n") }
    ensures comments { scans (codes "# c\na: b # d\n- c")
        ≡ (codes "Comment 0:1:1-3:1:4\nBlockMappingStart 4:2:1-4:2:1\nKey 4:2:1-4:2:1\nScalar 4:2:1-5:2:2\n"
        ++ codes "Value 5:2:2-5:2:2\nScalar 7:2:4-8:2:5\nComment 9:2:6-12:2:9\nBlockEntry 15:3:3-15:3:3\n"
        ++ codes "Scalar 15:3:3-16:3:4\nBlockEnd 16:3:4-16:3:4\nStreamEnd 16:3:4-16:3:4\n") }
    ensures block_scalar { scans (codes "a: |\n  b\nc: d")
        ≡ (codes "BlockMappingStart 0:1:1-0:1:1\nKey 0:1:1-0:1:1\nScalar 0:1:1-1:1:2\nValue 1:1:2-1:1:2\n"
        ++ codes "Scalar 7:2:3-9:3:1\nKey 9:3:1-9:3:1\nScalar 9:3:1-10:3:2\nValue 10:3:2-10:3:2\n"
        ++ codes "Scalar 12:3:4-13:3:5\nBlockEnd 13:3:5-13:3:5\nStreamEnd 13:3:5-13:3:5\n") }
    ensures quoted_key { scans (codes "\"a\": 'b'\n")
        ≡ (codes "BlockMappingStart 0:1:1-0:1:1\nKey 0:1:1-0:1:1\nScalar 0:1:1-3:1:4\nValue 3:1:4-3:1:4\n"
        ++ codes "Scalar 5:1:6-8:1:9\nBlockEnd 9:2:1-9:2:1\nStreamEnd 9:2:1-9:2:1\n") }
    ensures closes_all { scans (codes "a:\n - b:\n   - c\n--- d")
        ≡ (codes "BlockMappingStart 0:1:1-0:1:1\nKey 0:1:1-0:1:1\nScalar 0:1:1-1:1:2\nValue 1:1:2-1:1:2\n"
        ++ codes "BlockSequenceStart 4:2:2-4:2:2\nBlockEntry 6:2:4-6:2:4\nBlockMappingStart 6:2:4-6:2:4\n"
        ++ codes "Key 6:2:4-6:2:4\nScalar 6:2:4-7:2:5\nValue 7:2:5-7:2:5\nBlockEntry 14:3:6-14:3:6\n"
        ++ codes "Scalar 14:3:6-15:3:7\nBlockEnd 16:4:1-16:4:1\nBlockEnd 16:4:1-16:4:1\n"
        ++ codes "BlockEnd 16:4:1-16:4:1\nDocumentStart 16:4:1-19:4:4\nScalar 20:4:5-21:4:6\n"
        ++ codes "StreamEnd 21:4:6-21:4:6\n") }
{}
