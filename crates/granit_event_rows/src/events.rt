//! Worked rows of the plain machine, by computation. Each is what the original says, but for the mark of kind 33 at a
//! `-`.
ghost use Rattle.std.specs.Prelude.{◌≡◌, [], ◌∷◌, ◌++◌, codes};
ghost use Rattle.granit_machine.specs.Events.{tells, tells_under};
ghost use Rattle.granit_machine.specs.ExampleOptions.{other_events, small_limits, strict_lines};

/// Documents and directives.
pub fn streams()
    ensures empty { tells ([]) ≡ (codes "StreamStart 0:1:1-0:1:1\nStreamEnd 0:1:1-0:1:1\n") }
    ensures bare { tells (codes "a\n") ≡ (codes "StreamStart 0:1:1-0:1:1\nDocumentStart implicit 0:1:1-1:1:2\n"
        ++ codes "Scalar plain \"a\" 0:1:1-1:1:2\nDocumentEnd 1:1:2-1:1:2\nStreamEnd 2:2:1-2:2:1\n") }
    ensures explicit { tells (codes "---\n--- a\n...\nb")
        ≡ (codes "StreamStart 0:1:1-0:1:1\nDocumentStart explicit 0:1:1-3:1:4\n"
        ++ codes "Scalar plain \"~\" 3:1:4-3:1:4\nDocumentEnd 3:1:4-3:1:4\n"
        ++ codes "DocumentStart explicit 4:2:1-7:2:4\nScalar plain \"a\" 8:2:5-9:2:6\n"
        ++ codes "DocumentEnd 10:3:1-13:3:4\nDocumentStart implicit 14:4:1-15:4:2\n"
        ++ codes "Scalar plain \"b\" 14:4:1-15:4:2\nDocumentEnd 15:4:2-15:4:2\nStreamEnd 15:4:2-15:4:2\n") }
    ensures directives { tells (codes "%YAML 1.1\n%TAG !e! tag:e,\n---\n!e!x a\n...\n!e!y b")
        ≡ (codes "fault 38: at char 41 line 6 column 1\n") }
    ensures empty_roots { tells (codes "---\n...\n---\n")
        ≡ (codes "StreamStart 0:1:1-0:1:1\nDocumentStart explicit 0:1:1-3:1:4\n"
        ++ codes "Scalar plain \"~\" 3:1:4-3:1:4\nDocumentEnd 4:2:1-7:2:4\n"
        ++ codes "DocumentStart explicit 8:3:1-11:3:4\nScalar plain \"~\" 11:3:4-11:3:4\n"
        ++ codes "DocumentEnd 11:3:4-11:3:4\nStreamEnd 12:4:1-12:4:1\n") }
    ensures no_start { tells (codes "%YAML 1.2\na") ≡ (codes "fault 11: at char 10 line 2 column 1\n") }
    ensures no_end { tells (codes "[a]\n%YAML 1.2\n---") ≡ (codes "fault 12: at char 4 line 2 column 1\n") }
    ensures two_versions { tells (codes "%YAML 1.2\n%YAML 1.2\n---")
        ≡ (codes "fault 23: at char 10 line 2 column 1\n") }
    ensures major { tells (codes "%YAML 2.0\n---") ≡ (codes "fault 24: at char 0 line 1 column 1\n") }
    ensures two_handles { tells (codes "%TAG ! a\n%TAG ! b\n---") ≡ (codes "fault 25: at char 9 line 2 column 1\n") }
    ensures own_default { tells (codes "%TAG !! tag:x,\n---\n!!a b")
        ≡ (codes "StreamStart 0:1:1-0:1:1\nDocumentStart explicit 15:2:1-18:2:4\n"
        ++ codes "Scalar plain \"b\" !\"tag:x,\" \"a\" 23:3:5-24:3:6 tagstart=19:3:1 tag=19:3:1-22:3:4 original=\"!!\"\n"
        ++ codes "DocumentEnd 24:3:6-24:3:6\nStreamEnd 24:3:6-24:3:6\n") }
    ensures two_roots { tells (codes "[a]\n[b]") ≡ (codes "fault 11: at char 4 line 2 column 1\n") }
{}

/// Block collections.
pub fn block_collections()
    ensures nested { tells (codes "- a\n- - b\n  - c: d\n    e:\n-\n")
        ≡ (codes "StreamStart 0:1:1-0:1:1\nDocumentStart implicit 0:1:1-0:1:1\n"
        ++ codes "SequenceStart block 0:1:1-0:1:1\nScalar plain \"a\" 2:1:3-3:1:4\n"
        ++ codes "SequenceStart block 6:2:3-6:2:3\nScalar plain \"b\" 8:2:5-9:2:6\n"
        ++ codes "MappingStart block 14:3:5-14:3:5\nScalar plain \"c\" 14:3:5-15:3:6 indent=4\n"
        ++ codes "Scalar plain \"d\" 17:3:8-18:3:9\nScalar plain \"e\" 23:4:5-24:4:6 indent=4\n"
        ++ codes "Scalar plain \"~\" 24:4:6-24:4:6\nMappingEnd 26:5:1-26:5:1\nSequenceEnd 26:5:1-26:5:1\n"
        ++ codes "Scalar plain \"~\" 27:5:2-27:5:2\nSequenceEnd 28:6:1-28:6:1\nDocumentEnd 28:6:1-28:6:1\n"
        ++ codes "StreamEnd 28:6:1-28:6:1\n") }
    ensures indentless { tells (codes "a:\n- b\n- c\nd: e")
        ≡ (codes "StreamStart 0:1:1-0:1:1\nDocumentStart implicit 0:1:1-0:1:1\n"
        ++ codes "MappingStart block 0:1:1-0:1:1\nScalar plain \"a\" 0:1:1-1:1:2 indent=0\n"
        ++ codes "SequenceStart block 5:2:3-5:2:3\nScalar plain \"b\" 5:2:3-6:2:4\n"
        ++ codes "Scalar plain \"c\" 9:3:3-10:3:4\nSequenceEnd 11:4:1-11:4:1\n"
        ++ codes "Scalar plain \"d\" 11:4:1-12:4:2 indent=0\nScalar plain \"e\" 14:4:4-15:4:5\n"
        ++ codes "MappingEnd 15:4:5-15:4:5\nDocumentEnd 15:4:5-15:4:5\nStreamEnd 15:4:5-15:4:5\n") }
    ensures questions { tells (codes "? a\n: b\n? c\nd:\n? - e\n: - f")
        ≡ (codes "StreamStart 0:1:1-0:1:1\nDocumentStart implicit 0:1:1-0:1:1\n"
        ++ codes "MappingStart block 0:1:1-0:1:1\nScalar plain \"a\" 2:1:3-3:1:4 indent=0\n"
        ++ codes "Scalar plain \"b\" 6:2:3-7:2:4\nScalar plain \"c\" 10:3:3-11:3:4 indent=0\n"
        ++ codes "Scalar plain \"~\" 12:4:1-12:4:1\nScalar plain \"d\" 12:4:1-13:4:2 indent=0\n"
        ++ codes "Scalar plain \"~\" 13:4:2-13:4:2\nSequenceStart block 17:5:3-17:5:3 indent=0\n"
        ++ codes "Scalar plain \"e\" 19:5:5-20:5:6\nSequenceEnd 21:6:1-21:6:1\n"
        ++ codes "SequenceStart block 23:6:3-23:6:3\nScalar plain \"f\" 25:6:5-26:6:6\n"
        ++ codes "SequenceEnd 26:6:6-26:6:6\nMappingEnd 26:6:6-26:6:6\nDocumentEnd 26:6:6-26:6:6\n"
        ++ codes "StreamEnd 26:6:6-26:6:6\n") }
    ensures empty_parts { tells (codes "? \n: \n? a\n:\n")
        ≡ (codes "StreamStart 0:1:1-0:1:1\nDocumentStart implicit 0:1:1-0:1:1\n"
        ++ codes "MappingStart block 0:1:1-0:1:1\nScalar plain \"~\" 3:2:1-3:2:1 indent=0\n"
        ++ codes "Scalar plain \"~\" 3:2:1-3:2:1\nScalar plain \"a\" 8:3:3-9:3:4 indent=0\n"
        ++ codes "Scalar plain \"~\" 10:4:1-10:4:1\nMappingEnd 12:5:1-12:5:1\nDocumentEnd 12:5:1-12:5:1\n"
        ++ codes "StreamEnd 12:5:1-12:5:1\n") }
    ensures bare_colons { tells (codes ": a\n: b")
        ≡ (codes "StreamStart 0:1:1-0:1:1\nDocumentStart implicit 0:1:1-0:1:1\n"
        ++ codes "MappingStart block 0:1:1-0:1:1\nScalar plain \"~\" 0:1:1-0:1:1\n"
        ++ codes "Scalar plain \"a\" 2:1:3-3:1:4\nScalar plain \"~\" 4:2:1-4:2:1\n"
        ++ codes "Scalar plain \"b\" 6:2:3-7:2:4\nMappingEnd 7:2:4-7:2:4\nDocumentEnd 7:2:4-7:2:4\n"
        ++ codes "StreamEnd 7:2:4-7:2:4\n") }
    ensures empty_value { tells (codes "a:\n: b")
        ≡ (codes "StreamStart 0:1:1-0:1:1\nDocumentStart implicit 0:1:1-0:1:1\n"
        ++ codes "MappingStart block 0:1:1-0:1:1\nScalar plain \"a\" 0:1:1-1:1:2 indent=0\n"
        ++ codes "Scalar plain \"~\" 1:1:2-1:1:2\nScalar plain \"~\" 3:2:1-3:2:1\n"
        ++ codes "Scalar plain \"b\" 5:2:3-6:2:4\nMappingEnd 6:2:4-6:2:4\nDocumentEnd 6:2:4-6:2:4\n"
        ++ codes "StreamEnd 6:2:4-6:2:4\n") }
    ensures scalars { tells (codes "a: |\n b\nc: >-\n d\n e\nf: \"g\"")
        ≡ (codes "StreamStart 0:1:1-0:1:1\nDocumentStart implicit 0:1:1-0:1:1\n"
        ++ codes "MappingStart block 0:1:1-0:1:1\nScalar plain \"a\" 0:1:1-1:1:2 indent=0\n"
        ++ codes "Scalar literal \"b\\n\" 6:2:2-8:3:1 indent=1\nScalar plain \"c\" 8:3:1-9:3:2 indent=0\n"
        ++ codes "Scalar folded \"d e\" 15:4:2-20:6:1 indent=1\nScalar plain \"f\" 20:6:1-21:6:2 indent=0\n"
        ++ codes "Scalar double \"g\" 23:6:4-26:6:7\nMappingEnd 26:6:7-26:6:7\nDocumentEnd 26:6:7-26:6:7\n"
        ++ codes "StreamEnd 26:6:7-26:6:7\n") }
    ensures comma { tells (codes "a: ,") ≡ (codes "fault 31: at char 3 line 1 column 4\n") }
    ensures dash_behind_pair { tells (codes "a: b\n- c") ≡ (codes "fault 33: at char 5 line 2 column 1\n") }
    ensures behind_entry { tells (codes "- [a]\n b") ≡ (codes "fault 34: at char 7 line 2 column 2\n") }
    ensures behind_comma { tells (codes ",a") ≡ (codes "fault 30: at char 0 line 1 column 1\n") }
    ensures root_then_key { tells (codes "[a]\nb: c") ≡ (codes "fault 11: at char 4 line 2 column 1\n") }
    ensures not_a_pair { tells (codes "a: b\n[c]\nd: e") ≡ (codes "fault 64: at char 5 line 2 column 1\n") }
    ensures key_alone { tells (codes "a: b\n&c d\n") ≡ (codes "fault 64: at char 5 line 2 column 1\n") }
    ensures root_scalar { tells (codes "|\n a")
        ≡ (codes "StreamStart 0:1:1-0:1:1\nDocumentStart implicit 3:2:2-4:2:3 indent=1\n"
        ++ codes "Scalar literal \"a\\n\" 3:2:2-4:2:3 indent=1\nDocumentEnd 4:2:3-4:2:3\n"
        ++ codes "StreamEnd 4:2:3-4:2:3\n") }
{}

/// Flow collections.
pub fn flow_collections()
    ensures sequence { tells (codes "[a, [b], {c: d}, ]")
        ≡ (codes "StreamStart 0:1:1-0:1:1\nDocumentStart implicit 0:1:1-1:1:2\n"
        ++ codes "SequenceStart flow 0:1:1-1:1:2\nScalar plain \"a\" 1:1:2-2:1:3\n"
        ++ codes "SequenceStart flow 4:1:5-5:1:6\nScalar plain \"b\" 5:1:6-6:1:7\nSequenceEnd 6:1:7-7:1:8\n"
        ++ codes "MappingStart flow 9:1:10-10:1:11\nScalar plain \"c\" 10:1:11-11:1:12\n"
        ++ codes "Scalar plain \"d\" 13:1:14-14:1:15\nMappingEnd 14:1:15-15:1:16\n"
        ++ codes "SequenceEnd 17:1:18-18:1:19\nDocumentEnd 18:1:19-18:1:19\nStreamEnd 18:1:19-18:1:19\n") }
    ensures mapping { tells (codes "{a: b, c, d: , ? e : f, : g, ? , ? h}")
        ≡ (codes "StreamStart 0:1:1-0:1:1\nDocumentStart implicit 0:1:1-1:1:2\nMappingStart flow 0:1:1-1:1:2\n"
        ++ codes "Scalar plain \"a\" 1:1:2-2:1:3\nScalar plain \"b\" 4:1:5-5:1:6\n"
        ++ codes "Scalar plain \"c\" 7:1:8-8:1:9\nScalar plain \"~\" 8:1:9-8:1:9\n"
        ++ codes "Scalar plain \"d\" 10:1:11-11:1:12\nScalar plain \"~\" 11:1:12-11:1:12\n"
        ++ codes "Scalar plain \"e\" 17:1:18-18:1:19\nScalar plain \"f\" 21:1:22-22:1:23\n"
        ++ codes "Scalar plain \"~\" 24:1:25-24:1:25\nScalar plain \"g\" 26:1:27-27:1:28\n"
        ++ codes "Scalar plain \"~\" 31:1:32-31:1:32\nScalar plain \"~\" 31:1:32-31:1:32\n"
        ++ codes "Scalar plain \"h\" 35:1:36-36:1:37\nScalar plain \"~\" 36:1:37-36:1:37\n"
        ++ codes "MappingEnd 36:1:37-37:1:38\nDocumentEnd 37:1:38-37:1:38\nStreamEnd 37:1:38-37:1:38\n") }
    ensures single_pairs { tells (codes "[a: b, : c, ? d : e, ? f, ?, \"g\":h]")
        ≡ (codes "StreamStart 0:1:1-0:1:1\nDocumentStart implicit 0:1:1-1:1:2\n"
        ++ codes "SequenceStart flow 0:1:1-1:1:2\nMappingStart flow 1:1:2-1:1:2\n"
        ++ codes "Scalar plain \"a\" 1:1:2-2:1:3\nScalar plain \"b\" 4:1:5-5:1:6\nMappingEnd 5:1:6-5:1:6\n"
        ++ codes "MappingStart flow 7:1:8-7:1:8\nScalar plain \"~\" 7:1:8-7:1:8\n"
        ++ codes "Scalar plain \"c\" 9:1:10-10:1:11\nMappingEnd 10:1:11-10:1:11\n"
        ++ codes "MappingStart flow 12:1:13-13:1:14\nScalar plain \"d\" 14:1:15-15:1:16\n"
        ++ codes "Scalar plain \"e\" 18:1:19-19:1:20\nMappingEnd 19:1:20-19:1:20\n"
        ++ codes "MappingStart flow 21:1:22-22:1:23\nScalar plain \"f\" 23:1:24-24:1:25\n"
        ++ codes "Scalar plain \"~\" 24:1:25-24:1:25\nMappingEnd 24:1:25-24:1:25\n"
        ++ codes "Scalar plain \"?\" 26:1:27-27:1:28\nMappingStart flow 29:1:30-29:1:30\n"
        ++ codes "Scalar double \"g\" 29:1:30-32:1:33\nScalar plain \"h\" 33:1:34-34:1:35\n"
        ++ codes "MappingEnd 34:1:35-34:1:35\nSequenceEnd 34:1:35-35:1:36\nDocumentEnd 35:1:36-35:1:36\n"
        ++ codes "StreamEnd 35:1:36-35:1:36\n") }
    ensures two_commas { tells (codes "[,") ≡ (codes "fault 2: at char 0 line 1 column 1\n") }
    ensures no_comma { tells (codes "{[a] b}") ≡ (codes "fault 35: at char 5 line 1 column 6\n") }
    ensures no_comma_in_sequence { tells (codes "[[a] b]") ≡ (codes "fault 36: at char 5 line 1 column 6\n") }
    ensures second_colon { tells (codes "[: :]") ≡ (codes "fault 32: at char 3 line 1 column 4\n") }
    ensures closer { tells (codes "[a: b}") ≡ (codes "fault 3: at char 0 line 1 column 1\n") }
    ensures node_behind_pair { tells (codes "{a: b c: d}") ≡ (codes "fault 35: at char 7 line 1 column 8\n") }
    ensures node_behind_question { tells (codes "[? [a] b]") ≡ (codes "fault 36: at char 7 line 1 column 8\n") }
    ensures question_twice { tells (codes "[? a : b, ? [c] : d]")
        ≡ (codes "StreamStart 0:1:1-0:1:1\nDocumentStart implicit 0:1:1-1:1:2\n"
        ++ codes "SequenceStart flow 0:1:1-1:1:2\nMappingStart flow 1:1:2-2:1:3\n"
        ++ codes "Scalar plain \"a\" 3:1:4-4:1:5\nScalar plain \"b\" 7:1:8-8:1:9\nMappingEnd 8:1:9-8:1:9\n"
        ++ codes "MappingStart flow 10:1:11-11:1:12\nSequenceStart flow 12:1:13-13:1:14\n"
        ++ codes "Scalar plain \"c\" 13:1:14-14:1:15\nSequenceEnd 14:1:15-15:1:16\n"
        ++ codes "Scalar plain \"d\" 18:1:19-19:1:20\nMappingEnd 19:1:20-19:1:20\n"
        ++ codes "SequenceEnd 19:1:20-20:1:21\nDocumentEnd 20:1:21-20:1:21\nStreamEnd 20:1:21-20:1:21\n") }
{}

/// Anchors, aliases and tags.
pub fn properties_of_nodes()
    ensures anchors { tells (codes "&a [*a, &b !t b, *b]")
        ≡ (codes "StreamStart 0:1:1-0:1:1\nDocumentStart implicit 0:1:1-2:1:3\n"
        ++ codes "SequenceStart flow &1 3:1:4-4:1:5\nAlias 1 4:1:5-6:1:7\n"
        ++ codes "Scalar plain \"b\" &2 !\"!\" \"t\" 14:1:15-15:1:16 tagstart=11:1:12 tag=11:1:12-13:1:14 original=\"!\"\n"
        ++ codes "Alias 2 17:1:18-19:1:20\nSequenceEnd 19:1:20-20:1:21\nDocumentEnd 20:1:21-20:1:21\n"
        ++ codes "StreamEnd 20:1:21-20:1:21\n") }
    ensures empty_nodes { tells (codes "- &a\n- !t\n- &b !!str\n- *a")
        ≡ (codes "StreamStart 0:1:1-0:1:1\nDocumentStart implicit 0:1:1-0:1:1\n"
        ++ codes "SequenceStart block 0:1:1-0:1:1\nScalar plain \"~\" &1 4:1:5-4:1:5\n"
        ++ codes "Scalar plain \"\" !\"!\" \"t\" 9:2:5-9:2:5 tagstart=7:2:3 tag=7:2:3-9:2:5 original=\"!\"\n"
        ++ codes "Scalar plain \"\" &2 !\"tag:yaml.org,2002:\" \"str\" 20:3:11-20:3:11 tagstart=15:3:6 tag=15:3:6-20:3:11 original=\"!!\"\n"
        ++ codes "Alias 1 23:4:3-25:4:5\nSequenceEnd 25:4:5-25:4:5\nDocumentEnd 25:4:5-25:4:5\n"
        ++ codes "StreamEnd 25:4:5-25:4:5\n") }
    ensures key_properties { tells (codes "&a b: c\n&d\ne: *a") ≡ (codes "fault 64: at char 8 line 2 column 1\n") }
    ensures unknown { tells (codes "*a") ≡ (codes "fault 37: at char 0 line 1 column 1\n") }
    ensures undeclared { tells (codes "!e!a b") ≡ (codes "fault 38: at char 0 line 1 column 1\n") }
    ensures two_anchors { tells (codes "&a &b c") ≡ (codes "fault 11: at char 3 line 1 column 4\n") }
    ensures next_document { tells (codes "&a b\n--- *a") ≡ (codes "fault 37: at char 9 line 2 column 5\n") }
    ensures anchored_alias { tells (codes "&a *a") ≡ (codes "fault 11: at char 3 line 1 column 4\n") }
    ensures anchored_mapping { tells (codes "&a\n&b c: d")
        ≡ (codes "StreamStart 0:1:1-0:1:1\nDocumentStart implicit 0:1:1-2:1:3\n"
        ++ codes "MappingStart block &1 3:2:1-3:2:1\nScalar plain \"c\" &2 6:2:4-7:2:5 indent=0\n"
        ++ codes "Scalar plain \"d\" 9:2:7-10:2:8\nMappingEnd 10:2:8-10:2:8\nDocumentEnd 10:2:8-10:2:8\n"
        ++ codes "StreamEnd 10:2:8-10:2:8\n") }
    ensures tagged_sequence { tells (codes "k: !t\n- &a b")
        ≡ (codes "StreamStart 0:1:1-0:1:1\nDocumentStart implicit 0:1:1-0:1:1\n"
        ++ codes "MappingStart block 0:1:1-0:1:1\nScalar plain \"k\" 0:1:1-1:1:2 indent=0\n"
        ++ codes "SequenceStart block !\"!\" \"t\" 8:2:3-8:2:3 tagstart=3:1:4 tag=3:1:4-5:1:6 original=\"!\"\n"
        ++ codes "Scalar plain \"b\" &1 11:2:6-12:2:7\nSequenceEnd 12:2:7-12:2:7\nMappingEnd 12:2:7-12:2:7\n"
        ++ codes "DocumentEnd 12:2:7-12:2:7\nStreamEnd 12:2:7-12:2:7\n") }
    ensures held_before_anchor { tells (codes "- #c\n &a b")
        ≡ (codes "StreamStart 0:1:1-0:1:1\nDocumentStart implicit 0:1:1-0:1:1\n"
        ++ codes "SequenceStart block 0:1:1-0:1:1\nComment right \"c\" 2:1:3-4:1:5\n"
        ++ codes "Scalar plain \"b\" &1 9:2:5-10:2:6\nSequenceEnd 10:2:6-10:2:6\nDocumentEnd 10:2:6-10:2:6\n"
        ++ codes "StreamEnd 10:2:6-10:2:6\n") }
{}

/// Comments.
pub fn comments()
    ensures placements { tells (codes "#a\nb: #c\n #d\n e\n\n#f\n")
        ≡ (codes "StreamStart 0:1:1-0:1:1\nComment above \"a\" 0:1:1-2:1:3\n"
        ++ codes "DocumentStart implicit 3:2:1-3:2:1\nMappingStart block 3:2:1-3:2:1\n"
        ++ codes "Scalar plain \"b\" 3:2:1-4:2:2 indent=0\nComment right \"c\" 6:2:4-8:2:6\n"
        ++ codes "Comment above \"d\" 10:3:2-12:3:4\nScalar plain \"e\" 14:4:2-15:4:3\n"
        ++ codes "Comment above \"f\" 17:6:1-19:6:3\nMappingEnd 20:7:1-20:7:1\nDocumentEnd 20:7:1-20:7:1\n"
        ++ codes "StreamEnd 20:7:1-20:7:1\n") }
    ensures held { tells (codes "- #a\n #b\n\n- #c\n d:\n #e\n")
        ≡ (codes "StreamStart 0:1:1-0:1:1\nDocumentStart implicit 0:1:1-0:1:1\n"
        ++ codes "SequenceStart block 0:1:1-0:1:1\nComment right \"a\" 2:1:3-4:1:5\n"
        ++ codes "Scalar plain \"~\" 4:1:5-4:1:5\nComment free \"b\" 6:2:2-8:2:4\n"
        ++ codes "Comment right \"c\" 12:4:3-14:4:5\nMappingStart block 16:5:2-16:5:2\n"
        ++ codes "Scalar plain \"d\" 16:5:2-17:5:3 indent=1\nScalar plain \"~\" 17:5:3-17:5:3\n"
        ++ codes "Comment above \"e\" 20:6:2-22:6:4\nMappingEnd 23:7:1-23:7:1\nSequenceEnd 23:7:1-23:7:1\n"
        ++ codes "DocumentEnd 23:7:1-23:7:1\nStreamEnd 23:7:1-23:7:1\n") }
    ensures above { tells (codes "# a\n\n# b\nc: d # e\n")
        ≡ (codes "StreamStart 0:1:1-0:1:1\nComment free \" a\" 0:1:1-3:1:4\nComment above \" b\" 5:3:1-8:3:4\n"
        ++ codes "DocumentStart implicit 9:4:1-9:4:1\nMappingStart block 9:4:1-9:4:1\n"
        ++ codes "Scalar plain \"c\" 9:4:1-10:4:2 indent=0\nScalar plain \"d\" 12:4:4-13:4:5\n"
        ++ codes "Comment right \" e\" 14:4:6-17:4:9\nMappingEnd 18:5:1-18:5:1\nDocumentEnd 18:5:1-18:5:1\n"
        ++ codes "StreamEnd 18:5:1-18:5:1\n") }
    ensures flow { tells (codes "[ # a\n b, # c\n # d\n]")
        ≡ (codes "StreamStart 0:1:1-0:1:1\nDocumentStart implicit 0:1:1-1:1:2\n"
        ++ codes "SequenceStart flow 0:1:1-1:1:2\nComment right \" a\" 2:1:3-5:1:6\n"
        ++ codes "Scalar plain \"b\" 7:2:2-8:2:3\nComment right \" c\" 10:2:5-13:2:8\n"
        ++ codes "Comment above \" d\" 15:3:2-18:3:5\nSequenceEnd 19:4:1-20:4:2\nDocumentEnd 20:4:2-20:4:2\n"
        ++ codes "StreamEnd 20:4:2-20:4:2\n") }
    ensures last { tells (codes "a\n# b\n# c") ≡ (codes "StreamStart 0:1:1-0:1:1\nDocumentStart implicit 0:1:1-1:1:2\n"
        ++ codes "Scalar plain \"a\" 0:1:1-1:1:2\nComment above \" b\" 2:2:1-5:2:4\n"
        ++ codes "Comment last \" c\" 6:3:1-9:3:4\nDocumentEnd 1:1:2-1:1:2\nStreamEnd 9:3:4-9:3:4\n") }
    ensures before_key { tells (codes "a:\n  # b\n  c: d\n# e\nf: |\n # g\n# h\n")
        ≡ (codes "StreamStart 0:1:1-0:1:1\nDocumentStart implicit 0:1:1-0:1:1\n"
        ++ codes "MappingStart block 0:1:1-0:1:1\nScalar plain \"a\" 0:1:1-1:1:2 indent=0\n"
        ++ codes "Comment above \" b\" 5:2:3-8:2:6\nMappingStart block 11:3:3-11:3:3\n"
        ++ codes "Scalar plain \"c\" 11:3:3-12:3:4 indent=2\nScalar plain \"d\" 14:3:6-15:3:7\n"
        ++ codes "Comment above \" e\" 16:4:1-19:4:4\nMappingEnd 20:5:1-20:5:1\n"
        ++ codes "Scalar plain \"f\" 20:5:1-21:5:2 indent=0\n"
        ++ codes "Scalar literal \"# g\\n\" 26:6:2-30:7:1 indent=1\nComment above \" h\" 30:7:1-33:7:4\n"
        ++ codes "MappingEnd 34:8:1-34:8:1\nDocumentEnd 34:8:1-34:8:1\nStreamEnd 34:8:1-34:8:1\n") }
{}

/// Which fault comes first.
pub fn order_of_faults()
    ensures alias_then_quote { tells (codes "*a \"") ≡ (codes "fault 39: at char 3 line 1 column 4\n") }
    ensures alias_line_quote { tells (codes "*a\n\"") ≡ (codes "fault 39: at char 3 line 2 column 1\n") }
    ensures alias_comment_quote { tells (codes "*a #c\n\"") ≡ (codes "fault 37: at char 0 line 1 column 1\n") }
    ensures flow_alias_quote { tells (codes "{*a, \"") ≡ (codes "fault 39: at char 5 line 1 column 6\n") }
    ensures alias_word { tells (codes "*a b") ≡ (codes "fault 37: at char 0 line 1 column 1\n") }
    ensures key_of_brackets { tells (codes "[]\"\"\n\"") ≡ (codes "fault 11: at char 2 line 1 column 3\n") }
{}

/// Where indentation is strict.
pub fn strict_events()
    ensures mapping { tells_under strict_lines (codes "k: {a:\n b}")
        ≡ (codes "StreamStart 0:1:1-0:1:1\nDocumentStart implicit 0:1:1-0:1:1\n"
        ++ codes "MappingStart block 0:1:1-0:1:1\nScalar plain \"k\" 0:1:1-1:1:2 indent=0\n"
        ++ codes "MappingStart flow 3:1:4-4:1:5\nScalar plain \"a\" 4:1:5-5:1:6\n"
        ++ codes "Scalar plain \"b\" 8:2:2-9:2:3\nMappingEnd 9:2:3-10:2:4\nMappingEnd 10:2:4-10:2:4\n"
        ++ codes "DocumentEnd 10:2:4-10:2:4\nStreamEnd 10:2:4-10:2:4\n") }
    ensures refused { tells_under strict_lines (codes "k: {a:\nb}") ≡ (codes "fault 10: at char 7 line 2 column 1\n") }
{}

/// Anchors told, aliases left, no comments.
pub fn chosen_events()
    ensures anchors { tells_under other_events (codes "&a b: [*a, *c] #d\n")
        ≡ (codes "StreamStart 0:1:1-0:1:1\nDocumentStart implicit 0:1:1-0:1:1\n"
        ++ codes "MappingStart block 0:1:1-0:1:1\nScalar plain \"b\" &1 3:1:4-4:1:5 indent=0\n"
        ++ codes "Anchor 1 \"a\" 0:1:1-2:1:3\nSequenceStart flow 6:1:7-7:1:8\nAlias 1 7:1:8-9:1:10\n"
        ++ codes "UnresolvedAlias \"c\" 11:1:12-13:1:14\nSequenceEnd 13:1:14-14:1:15\n"
        ++ codes "MappingEnd 18:2:1-18:2:1\nDocumentEnd 18:2:1-18:2:1\nStreamEnd 18:2:1-18:2:1\n") }
    ensures held { tells_under other_events (codes "- #a\n #b\n c")
        ≡ (codes "StreamStart 0:1:1-0:1:1\nDocumentStart implicit 0:1:1-0:1:1\n"
        ++ codes "SequenceStart block 0:1:1-0:1:1\nScalar plain \"c\" 10:3:2-11:3:3\n"
        ++ codes "SequenceEnd 11:3:3-11:3:3\nDocumentEnd 11:3:3-11:3:3\nStreamEnd 11:3:3-11:3:3\n") }
{}

/// Small limits.
pub fn small_limits_told()
    ensures comments { tells_under small_limits (codes "- #a\n#b\n a")
        ≡ (codes "fault 75: at char 5 line 2 column 1\n") }
    ensures comments_of_value { tells_under small_limits (codes "a:\n#b\n#c\n d")
        ≡ (codes "fault 75: at char 6 line 3 column 1\n") }
    ensures depth { tells_under small_limits (codes "a:\n b:\n - c") ≡ (codes "fault 5: at char 10 line 3 column 4\n") }
    ensures deep { tells_under small_limits (codes "a:\n- b: c") ≡ (codes "fault 5: at char 5 line 2 column 3\n") }
    ensures mapping_depth { tells_under small_limits (codes "- - ? a")
        ≡ (codes "fault 5: at char 4 line 1 column 5\n") }
{}
