//! Worked examples of JSON text, by computation: the lines that the original crate prints for them.
ghost use Rattle.std.specs.Prelude.{◌++◌, ◌≡◌, codes};
ghost use Rattle.granit_base.specs.Classes.{is_printable};
ghost use Rattle.granit_json.specs.Examples.{empty_is, empty_text, json_lines, object_is, object_text, object_value};
ghost use Rattle.granit_json_scalars.specs.Json.{json_depth};
ghost use Rattle.granit_json_scalars.specs.JsonText.{NamesFit};
ghost use Rattle.granit_lexemes.specs.Gap.{Each};

/// Texts whose parts stand where the original finds them, and that have what the law asks of a text.
pub fn json_examples()
    ensures empty { json_lines empty_text empty_is
        ≡ (codes "StreamStart 0:1:1-0:1:1\nDocumentStart implicit 0:1:1-1:1:2\nSequenceStart flow 0:1:1-1:1:2\n"
        ++ codes "SequenceEnd 2:1:3-3:1:4\nDocumentEnd 3:1:4-3:1:4\nStreamEnd 3:1:4-3:1:4\n") }
    ensures object { json_lines object_text object_is
        ≡ (codes "StreamStart 0:1:1-0:1:1\nDocumentStart implicit 1:1:2-2:1:3\nMappingStart flow 1:1:2-2:1:3\n"
        ++ codes "Scalar double \"k/\" 2:1:3-7:1:8\nSequenceStart flow 10:1:11-11:1:12\n"
        ++ codes "Scalar plain \"1\" 11:1:12-12:1:13\nScalar plain \"-2.5e3\" 14:1:15-20:1:21\n"
        ++ codes "Scalar plain \"true\" 23:2:2-27:2:6\nSequenceEnd 27:2:6-28:2:7\n"
        ++ codes "Scalar double \"\" 30:2:9-32:2:11\nMappingStart flow 33:2:12-34:2:13\nMappingEnd 34:2:13-35:2:14\n"
        ++ codes "MappingEnd 35:2:14-36:2:15\nDocumentEnd 36:2:15-36:2:15\nStreamEnd 37:3:1-37:3:1\n") }
    ensures can_be_met { Each is_printable object_text × (json_depth object_value ≡ 2) × NamesFit 6 object_is }
{}
