//! Worked rows: the events of texts, with recovery behind each fault, or behind each so many events.
ghost use Rattle.std.specs.Prelude.{◌≡◌, ◌++◌, ◌∷◌, [], codes};
ghost use Rattle.granit_machine.specs.ExampleOptions.{tags_kept};
ghost use Rattle.granit_recovery.specs.RecoveryRows.{recovers, recovers_from, recovers_under, skips};

/// A document follows a bracket that wasn't closed, and none follows an alias that names nothing.
pub fn recovered_texts()
    ensures bracket { recovers (codes "a: [\n---\nb\n")
        ≡ codes "StreamStart 0:1:1-0:1:1\n"
        ++ codes "DocumentStart implicit 0:1:1-0:1:1\n"
        ++ codes "MappingStart block 0:1:1-0:1:1\n"
        ++ codes "Scalar plain \"a\" 0:1:1-1:1:2\n"
        ++ codes "SequenceStart flow 3:1:4-4:1:5\n"
        ++ codes "fault 2: unclosed bracket '[' at char 3 line 1 column 4\n"
        ++ codes "proceed true\n"
        ++ codes "DocumentStart explicit 5:2:1-8:2:4\n"
        ++ codes "Scalar plain \"b\" 9:3:1-10:3:2\n"
        ++ codes "DocumentEnd 10:3:2-10:3:2\n"
        ++ codes "StreamEnd 11:4:1-11:4:1\n" }
    ensures alias { recovers (codes "- *nope\n- 2\n")
        ≡ codes "StreamStart 0:1:1-0:1:1\n"
        ++ codes "DocumentStart implicit 0:1:1-0:1:1\n"
        ++ codes "SequenceStart block 0:1:1-0:1:1\n"
        ++ codes "fault 37: while parsing node, found unknown anchor at char 2 line 1 column 3\n"
        ++ codes "proceed false\n"
        ++ codes "StreamEnd 12:3:1-12:3:1\n" }
{}

/// Where reading goes on: not at a `---` or a `...` that another character touches, and behind the comment of a
/// `...`.
pub fn boundaries_of_texts()
    ensures start { recovers (codes "[a\n---x\n--- c\n")
        ≡ codes "StreamStart 0:1:1-0:1:1\n"
        ++ codes "fault 2: unclosed bracket '[' at char 0 line 1 column 1\n"
        ++ codes "proceed true\n"
        ++ codes "DocumentStart explicit 8:3:1-11:3:4\n"
        ++ codes "Scalar plain \"c\" 12:3:5-13:3:6\n"
        ++ codes "DocumentEnd 13:3:6-13:3:6\n"
        ++ codes "StreamEnd 14:4:1-14:4:1\n" }
    ensures end { recovers (codes "[a\n...x\n... # c\n# d\nb\n")
        ≡ codes "StreamStart 0:1:1-0:1:1\n"
        ++ codes "fault 2: unclosed bracket '[' at char 0 line 1 column 1\n"
        ++ codes "proceed true\n"
        ++ codes "Comment above \" d\" 16:4:1-19:4:4\n"
        ++ codes "DocumentStart implicit 20:5:1-21:5:2\n"
        ++ codes "Scalar plain \"b\" 20:5:1-21:5:2\n"
        ++ codes "DocumentEnd 21:5:2-21:5:2\n"
        ++ codes "StreamEnd 22:6:1-22:6:1\n" }
    ensures comments { recovers (codes "- @\n...\n# c\n...\n")
        ≡ codes "StreamStart 0:1:1-0:1:1\n"
        ++ codes "DocumentStart implicit 0:1:1-0:1:1\n"
        ++ codes "SequenceStart block 0:1:1-0:1:1\n"
        ++ codes "fault 76: unexpected character: `@' at char 2 line 1 column 3\n"
        ++ codes "proceed false\n"
        ++ codes "Comment above \" c\" 8:3:1-11:3:4\n"
        ++ codes "StreamEnd 16:5:1-16:5:1\n" }
{}

/// A `---` behind a byte-order mark in column 0 that the refused read passed is no boundary, since that read counts a
/// column for the mark; where the mark stands behind the place of the refusal it takes none.
pub fn stopped_texts()
    ensures passed { recovers_from 10 (codes "\"a\n" ++ (0xFEFF ∷ []) ++ codes "--- b\n\\q\"\nx\n")
        ≡ codes "StreamStart 0:1:1-0:1:1\n"
        ++ codes "fault 45: while parsing a quoted scalar, found unknown escape character at char 0 line 1 column 1\n"
        ++ codes "proceed false\n"
        ++ codes "StreamEnd 16:5:1-16:5:1\n" }
    ensures ahead { recovers_from 3 (codes "\"\\q\n" ++ (0xFEFF ∷ []) ++ codes "--- b\n")
        ≡ codes "StreamStart 0:1:1-0:1:1\n"
        ++ codes "fault 45: while parsing a quoted scalar, found unknown escape character at char 0 line 1 column 1\n"
        ++ codes "proceed true\n"
        ++ codes "DocumentStart explicit 5:2:1-8:2:4\n"
        ++ codes "Scalar plain \"b\" 9:2:5-10:2:6\n"
        ++ codes "DocumentEnd 10:2:6-10:2:6\n"
        ++ codes "StreamEnd 11:3:1-11:3:1\n" }
{}

/// What a dropped document takes along: its anchors, its tags, and its other directives.
pub fn dropped_texts()
    ensures anchors { recovers (codes "&a x: *b\n---\n- *a\n")
        ≡ codes "StreamStart 0:1:1-0:1:1\n"
        ++ codes "DocumentStart implicit 0:1:1-0:1:1\n"
        ++ codes "MappingStart block 0:1:1-0:1:1\n"
        ++ codes "Scalar plain \"x\" &1 3:1:4-4:1:5\n"
        ++ codes "fault 37: while parsing node, found unknown anchor at char 6 line 1 column 7\n"
        ++ codes "proceed true\n"
        ++ codes "DocumentStart explicit 9:2:1-12:2:4\n"
        ++ codes "SequenceStart block 13:3:1-13:3:1\n"
        ++ codes "fault 37: while parsing node, found unknown anchor at char 15 line 3 column 3\n"
        ++ codes "proceed false\n"
        ++ codes "StreamEnd 18:4:1-18:4:1\n" }
    ensures tags { recovers (codes "%TAG !e! t:\n--- !e!a [\n--- !e!b c\n")
        ≡ codes "StreamStart 0:1:1-0:1:1\n"
        ++ codes "DocumentStart explicit 12:2:1-15:2:4\n"
        ++ codes "SequenceStart flow !\"t:\" \"a\" 21:2:10-22:2:11\n"
        ++ codes "fault 2: unclosed bracket '[' at char 21 line 2 column 10\n"
        ++ codes "proceed true\n"
        ++ codes "DocumentStart explicit 23:3:1-26:3:4\n"
        ++ codes "fault 38: the handle wasn't declared at char 27 line 3 column 5\n"
        ++ codes "proceed false\n"
        ++ codes "StreamEnd 34:4:1-34:4:1\n" }
    ensures directives { recovers (codes "%YAML 1.2\n%YAML 1.2\n--- a\n--- b\n")
        ≡ codes "StreamStart 0:1:1-0:1:1\n"
        ++ codes "fault 23: duplicate version directive at char 10 line 2 column 1\n"
        ++ codes "proceed true\n"
        ++ codes "DocumentStart explicit 26:4:1-29:4:4\n"
        ++ codes "Scalar plain \"b\" 30:4:5-31:4:6\n"
        ++ codes "DocumentEnd 31:4:6-31:4:6\n"
        ++ codes "StreamEnd 32:5:1-32:5:1\n" }
{}

/// Where handles stay over documents, those of a dropped document do too, but for `!` and `!!`.
pub fn kept_texts()
    ensures stays { recovers_under tags_kept (codes "%TAG !e! t:\n--- !e!a [\n--- !e!b c\n")
        ≡ codes "StreamStart 0:1:1-0:1:1\n"
        ++ codes "DocumentStart explicit 12:2:1-15:2:4\n"
        ++ codes "SequenceStart flow !\"t:\" \"a\" 21:2:10-22:2:11\n"
        ++ codes "fault 2: unclosed bracket '[' at char 21 line 2 column 10\n"
        ++ codes "proceed true\n"
        ++ codes "DocumentStart explicit 23:3:1-26:3:4\n"
        ++ codes "Scalar plain \"c\" !\"t:\" \"b\" 32:3:10-33:3:11\n"
        ++ codes "DocumentEnd 33:3:11-33:3:11\n"
        ++ codes "StreamEnd 34:4:1-34:4:1\n" }
    ensures core { recovers_under tags_kept (codes "%TAG !! t:\n--- !!a [\n--- !!b c\n")
        ≡ codes "StreamStart 0:1:1-0:1:1\n"
        ++ codes "DocumentStart explicit 11:2:1-14:2:4\n"
        ++ codes "SequenceStart flow !\"t:\" \"a\" 19:2:9-20:2:10\n"
        ++ codes "fault 2: unclosed bracket '[' at char 19 line 2 column 9\n"
        ++ codes "proceed true\n"
        ++ codes "DocumentStart explicit 21:3:1-24:3:4\n"
        ++ codes "Scalar plain \"c\" !\"tag:yaml.org,2002:\" \"b\" 29:3:9-30:3:10\n"
        ++ codes "DocumentEnd 30:3:10-30:3:10\n"
        ++ codes "StreamEnd 31:4:1-31:4:1\n" }
    ensures directives { recovers_under tags_kept (codes "%TAG !e! t:\n%YAML 2.0\n--- a\n--- !e!b c\n")
        ≡ codes "StreamStart 0:1:1-0:1:1\n"
        ++ codes "fault 24: unsupported YAML major version at char 12 line 2 column 1\n"
        ++ codes "proceed true\n"
        ++ codes "DocumentStart explicit 28:4:1-31:4:4\n"
        ++ codes "Scalar plain \"c\" !\"t:\" \"b\" 37:4:10-38:4:11\n"
        ++ codes "DocumentEnd 38:4:11-38:4:11\n"
        ++ codes "StreamEnd 39:5:1-39:5:1\n" }
    ensures twice { recovers_under tags_kept (codes "%TAG !e! t:\n%TAG !e! u:\n--- a\n--- !e!b c\n")
        ≡ codes "StreamStart 0:1:1-0:1:1\n"
        ++ codes "fault 25: the TAG directive must only be given at most once per handle in the same "
        ++ codes "document at char 12 line 2 column 1\n"
        ++ codes "proceed true\n"
        ++ codes "DocumentStart explicit 30:4:1-33:4:4\n"
        ++ codes "Scalar plain \"c\" !\"t:\" \"b\" 39:4:10-40:4:11\n"
        ++ codes "DocumentEnd 40:4:11-40:4:11\n"
        ++ codes "StreamEnd 41:5:1-41:5:1\n" }
{}

/// Recovery where nothing failed: inside of a document, directly behind its end, and before the first one.
pub fn skipped_texts()
    ensures inside { skips 3 (codes "a: b\n---\nc\n--- d\n")
        ≡ codes "StreamStart 0:1:1-0:1:1\n"
        ++ codes "DocumentStart implicit 0:1:1-0:1:1\n"
        ++ codes "MappingStart block 0:1:1-0:1:1\n"
        ++ codes "proceed true\n"
        ++ codes "DocumentStart explicit 5:2:1-8:2:4\n"
        ++ codes "Scalar plain \"c\" 9:3:1-10:3:2\n"
        ++ codes "DocumentEnd 10:3:2-10:3:2\n"
        ++ codes "proceed true\n"
        ++ codes "DocumentStart explicit 11:4:1-14:4:4\n"
        ++ codes "Scalar plain \"d\" 15:4:5-16:4:6\n"
        ++ codes "DocumentEnd 16:4:6-16:4:6\n"
        ++ codes "proceed false\n"
        ++ codes "StreamEnd 17:5:1-17:5:1\n" }
    ensures before { skips 1 (codes "# c\n--- a\n# d\n--- b\n")
        ≡ codes "StreamStart 0:1:1-0:1:1\n"
        ++ codes "proceed true\n"
        ++ codes "DocumentStart explicit 14:4:1-17:4:4\n"
        ++ codes "proceed false\n"
        ++ codes "StreamEnd 20:5:1-20:5:1\n"
        ++ codes "proceed false\n" }
{}
