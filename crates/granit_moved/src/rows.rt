//! Worked rows: texts that stand behind others.
ghost use Rattle.granit_moved.specs.MovedLines.{tells_behind};
ghost use Rattle.std.specs.Prelude.{◌≡◌, ◌++◌, codes};

/// Places move by the characters and the line ends before a text, its anchors are numbered behind those before it, and
/// so moves the place of its fault.
pub fn texts_behind_others()
    ensures document { tells_behind 5 1 0 (codes "---\nb\n")
        ≡ (codes "StreamStart 5:2:1-5:2:1\nDocumentStart explicit 5:2:1-8:2:4\n"
        ++ codes "Scalar plain \"b\" 9:3:1-10:3:2\nDocumentEnd 10:3:2-10:3:2\nStreamEnd 11:4:1-11:4:1\n") }
    ensures anchors { tells_behind 6 2 2 (codes "[&x a, *x]")
        ≡ (codes "StreamStart 6:3:1-6:3:1\nDocumentStart implicit 6:3:1-7:3:2\n"
        ++ codes "SequenceStart flow 6:3:1-7:3:2\nScalar plain \"a\" &3 10:3:5-11:3:6\n"
        ++ codes "Alias 3 13:3:8-15:3:10\nSequenceEnd 15:3:10-16:3:11\n"
        ++ codes "DocumentEnd 16:3:11-16:3:11\nStreamEnd 16:3:11-16:3:11\n") }
    ensures fault { tells_behind 5 1 2 (codes "- *x\n")
        ≡ codes "fault 37: while parsing node, found unknown anchor at char 7 line 2 column 3\n" }
{}
