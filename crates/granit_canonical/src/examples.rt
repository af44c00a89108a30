//! Worked examples of canonical flow text, by computation: the text, and the lines that the original
//! crate prints for it.
ghost use Rattle.std.specs.Prelude.{◌++◌, ◌≡◌, codes};
ghost use Rattle.granit_machine.specs.ExampleOptions.{anchors_told};
ghost use Rattle.granit_canonical.specs.Examples.{canonical_lines};
ghost use Rattle.granit_error.specs.OptionsData.{default_options};
ghost use Rattle.granit_model.specs.Characters.{HasCharacters};
ghost use Rattle.granit_model.specs.FlowText.{flow_characters};
ghost use Rattle.granit_model.specs.Tree.{DocumentsFit, NoTrees, trees_depth};
ghost use Rattle.granit_model.specs.WorkedTrees.{documents_tree, names_tree, pairs_tree, worked_tree};

/// Trees whose nodes stand where the original finds them, and which have what the law asks of trees.
pub fn canonical_examples()
    ensures nothing { canonical_lines default_options NoTrees
        ≡ codes "StreamStart 0:1:1-0:1:1\nStreamEnd 0:1:1-0:1:1\n" }
    ensures pairs_text { flow_characters pairs_tree ≡ codes "--- {? \"a\" : \"b\", ? [] : {}}\n" }
    ensures pairs { canonical_lines default_options pairs_tree
        ≡ (codes "StreamStart 0:1:1-0:1:1\nDocumentStart explicit 0:1:1-3:1:4\nMappingStart flow 4:1:5-5:1:6\n"
        ++ codes "Scalar double \"a\" 7:1:8-10:1:11\nScalar double \"b\" 13:1:14-16:1:17\n"
        ++ codes "SequenceStart flow 20:1:21-21:1:22\nSequenceEnd 21:1:22-22:1:23\n"
        ++ codes "MappingStart flow 25:1:26-26:1:27\nMappingEnd 26:1:27-27:1:28\nMappingEnd 27:1:28-28:1:29\n"
        ++ codes "DocumentEnd 28:1:29-28:1:29\nStreamEnd 29:2:1-29:2:1\n") }
    ensures documents_text { flow_characters documents_tree
        ≡ (codes "--- [\"a\\\"\\\\\\x07\\x7F\\xE9\\u20AC\\U0001F600 z\", [], {? [\"k\", \"\\x0A\"] : {? {} : \"\"}}, {}]\n"
        ++ codes "--- \"\\x85\"\n") }
    ensures documents { canonical_lines default_options documents_tree
        ≡ (codes "StreamStart 0:1:1-0:1:1\nDocumentStart explicit 0:1:1-3:1:4\n"
        ++ codes "SequenceStart flow 4:1:5-5:1:6\n"
        ++ codes "Scalar double \"a\\\"\\\\\\u{7}\\u{7f}\\u{e9}\\u{20ac}\\u{1f600} z\" 5:1:6-42:1:43\n"
        ++ codes "SequenceStart flow 44:1:45-45:1:46\nSequenceEnd 45:1:46-46:1:47\n"
        ++ codes "MappingStart flow 48:1:49-49:1:50\nSequenceStart flow 51:1:52-52:1:53\n"
        ++ codes "Scalar double \"k\" 52:1:53-55:1:56\nScalar double \"\\n\" 57:1:58-63:1:64\n"
        ++ codes "SequenceEnd 63:1:64-64:1:65\nMappingStart flow 67:1:68-68:1:69\n"
        ++ codes "MappingStart flow 70:1:71-71:1:72\nMappingEnd 71:1:72-72:1:73\n"
        ++ codes "Scalar double \"\" 75:1:76-77:1:78\nMappingEnd 77:1:78-78:1:79\nMappingEnd 78:1:79-79:1:80\n"
        ++ codes "MappingStart flow 81:1:82-82:1:83\nMappingEnd 82:1:83-83:1:84\nSequenceEnd 83:1:84-84:1:85\n"
        ++ codes "DocumentEnd 84:1:85-84:1:85\nDocumentStart explicit 85:2:1-88:2:4\n"
        ++ codes "Scalar double \"\\u{85}\" 89:2:5-95:2:11\nDocumentEnd 95:2:11-95:2:11\n"
        ++ codes "StreamEnd 96:3:1-96:3:1\n") }
    ensures worked_text { flow_characters worked_tree ≡ codes "--- !<tag:x%20y> &n {? \"\\xE9\" : *n}\n" }
    ensures worked { canonical_lines default_options worked_tree
        ≡ (codes "StreamStart 0:1:1-0:1:1\nDocumentStart explicit 0:1:1-3:1:4\n"
        ++ codes "MappingStart flow &1 !\"\" \"tag:x y\" 20:1:21-21:1:22\n"
        ++ codes "Scalar double \"\\u{e9}\" 23:1:24-29:1:30\nAlias 1 32:1:33-34:1:35\n"
        ++ codes "MappingEnd 34:1:35-35:1:36\nDocumentEnd 35:1:36-35:1:36\nStreamEnd 36:2:1-36:2:1\n") }
    ensures names_text { flow_characters names_tree
        ≡ (codes "--- &a [*a, !<%C3%A9%5F%20%25:,./-%F0%9F%98%80> &a \"x\", *a, &b:é {? *b:é : !<%21> []}]\n"
        ++ codes "--- &a [&b \"\", *b, *a]\n") }
    ensures names { canonical_lines default_options names_tree
        ≡ (codes "StreamStart 0:1:1-0:1:1\nDocumentStart explicit 0:1:1-3:1:4\n"
        ++ codes "SequenceStart flow &1 7:1:8-8:1:9\nAlias 1 8:1:9-10:1:11\n"
        ++ codes "Scalar double \"x\" &2 !\"\" \"\\u{e9}_ %:,./-\\u{1f600}\" 51:1:52-54:1:55\n"
        ++ codes "Alias 2 56:1:57-58:1:59\nMappingStart flow &3 65:1:66-66:1:67\nAlias 3 68:1:69-72:1:73\n"
        ++ codes "SequenceStart flow !\"\" \"!\" 82:1:83-83:1:84\nSequenceEnd 83:1:84-84:1:85\n"
        ++ codes "MappingEnd 84:1:85-85:1:86\nSequenceEnd 85:1:86-86:1:87\nDocumentEnd 86:1:87-86:1:87\n"
        ++ codes "DocumentStart explicit 87:2:1-90:2:4\nSequenceStart flow &4 94:2:8-95:2:9\n"
        ++ codes "Scalar double \"\" &5 98:2:12-100:2:14\nAlias 5 102:2:16-104:2:18\n"
        ++ codes "Alias 4 106:2:20-108:2:22\nSequenceEnd 108:2:22-109:2:23\nDocumentEnd 109:2:23-109:2:23\n"
        ++ codes "StreamEnd 110:3:1-110:3:1\n") }
    ensures anchors { canonical_lines anchors_told names_tree
        ≡ (codes "StreamStart 0:1:1-0:1:1\nDocumentStart explicit 0:1:1-3:1:4\n"
        ++ codes "SequenceStart flow &1 7:1:8-8:1:9\nAnchor 1 \"a\" 4:1:5-6:1:7\nAlias 1 8:1:9-10:1:11\n"
        ++ codes "Scalar double \"x\" &2 !\"\" \"\\u{e9}_ %:,./-\\u{1f600}\" 51:1:52-54:1:55\n"
        ++ codes "Anchor 2 \"a\" 48:1:49-50:1:51\nAlias 2 56:1:57-58:1:59\n"
        ++ codes "MappingStart flow &3 65:1:66-66:1:67\nAnchor 3 \"b:\\u{e9}\" 60:1:61-64:1:65\n"
        ++ codes "Alias 3 68:1:69-72:1:73\nSequenceStart flow !\"\" \"!\" 82:1:83-83:1:84\n"
        ++ codes "SequenceEnd 83:1:84-84:1:85\nMappingEnd 84:1:85-85:1:86\nSequenceEnd 85:1:86-86:1:87\n"
        ++ codes "DocumentEnd 86:1:87-86:1:87\nDocumentStart explicit 87:2:1-90:2:4\n"
        ++ codes "SequenceStart flow &4 94:2:8-95:2:9\nAnchor 4 \"a\" 91:2:5-93:2:7\n"
        ++ codes "Scalar double \"\" &5 98:2:12-100:2:14\nAnchor 5 \"b\" 95:2:9-97:2:11\n"
        ++ codes "Alias 5 102:2:16-104:2:18\nAlias 4 106:2:20-108:2:22\nSequenceEnd 108:2:22-109:2:23\n"
        ++ codes "DocumentEnd 109:2:23-109:2:23\nStreamEnd 110:3:1-110:3:1\n") }
    ensures can_be_met { DocumentsFit names_tree × HasCharacters names_tree × (trees_depth names_tree ≡ 3) }
{}
