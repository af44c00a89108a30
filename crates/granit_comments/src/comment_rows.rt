//! Worked examples of comments, by computation: what the original prints for a text with them and without them.
ghost use Rattle.std.specs.Prelude.{◌++◌, ◌≡◌, codes, false};
ghost use Rattle.granit_comments.specs.Rows.{commented_text, dash_text, holding_none, last_text};
ghost use Rattle.granit_error.specs.OptionsData.{default_options};
ghost use Rattle.granit_quiet.specs.Quiet.{asking};
ghost use Rattle.granit_machine.specs.Events.{prints_under};

/// Comments of each placement, behind a `-`, a header and a scalar and on lines of their own, with and without; and a
/// text that is answered unasked alone.
pub fn comments_of_texts()
    ensures asked { prints_under default_options commented_text
        ≡ (codes "StreamStart 0:1:1-0:1:1\nComment above \" a\" 0:1:1-3:1:4\nDocumentStart implicit 4:2:1-4:2:1\n"
        ++ codes "SequenceStart block 4:2:1-4:2:1\nComment right \" b\" 6:2:3-9:2:6\n"
        ++ codes "MappingStart block 12:3:3-12:3:3\nScalar plain \"k\" 12:3:3-13:3:4\n"
        ++ codes "Scalar literal \"x\\n\" 24:4:4-26:5:1\nComment right \" c\" 17:3:8-20:3:11\n"
        ++ codes "Comment free \" d\" 26:5:1-29:5:4\nMappingEnd 31:7:1-31:7:1\nScalar plain \"e\" 33:7:3-34:7:4\n"
        ++ codes "Comment right \" f\" 35:7:5-38:7:8\nComment above \" g\" 39:8:1-42:8:4\n"
        ++ codes "SequenceEnd 43:9:1-43:9:1\nDocumentEnd 43:9:1-43:9:1\nStreamEnd 43:9:1-43:9:1\n") }
    ensures unasked { prints_under (asking false default_options) commented_text
        ≡ (codes "StreamStart 0:1:1-0:1:1\nDocumentStart implicit 4:2:1-4:2:1\nSequenceStart block 4:2:1-4:2:1\n"
        ++ codes "MappingStart block 12:3:3-12:3:3\nScalar plain \"k\" 12:3:3-13:3:4\n"
        ++ codes "Scalar literal \"x\\n\" 24:4:4-26:5:1\nMappingEnd 31:7:1-31:7:1\nScalar plain \"e\" 33:7:3-34:7:4\n"
        ++ codes "SequenceEnd 43:9:1-43:9:1\nDocumentEnd 43:9:1-43:9:1\nStreamEnd 43:9:1-43:9:1\n") }
    ensures last { prints_under default_options last_text
        ≡ (codes "StreamStart 0:1:1-0:1:1\nDocumentStart implicit 0:1:1-1:1:2\nScalar plain \"a\" 0:1:1-1:1:2\n"
        ++ codes "Comment right \"b\" 2:1:3-4:1:5\nComment last \"c\" 5:2:1-7:2:3\nDocumentEnd 1:1:2-1:1:2\n"
        ++ codes "StreamEnd 7:2:3-7:2:3\n") }
    ensures too_many { prints_under holding_none dash_text
        ≡ codes "fault 75: too many buffered comments while looking ahead at char 2 line 1 column 3\n" }
    ensures unasked_alone { prints_under (asking false holding_none) dash_text
        ≡ (codes "StreamStart 0:1:1-0:1:1\nDocumentStart implicit 0:1:1-0:1:1\nSequenceStart block 0:1:1-0:1:1\n"
        ++ codes "Scalar plain \"a\" 8:2:3-9:2:4\nSequenceEnd 10:3:1-10:3:1\nDocumentEnd 10:3:1-10:3:1\n"
        ++ codes "StreamEnd 10:3:1-10:3:1\n") }
{}
