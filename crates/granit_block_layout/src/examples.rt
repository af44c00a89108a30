//! Worked examples of canonical block text, by computation: the text, and the lines that the original crate prints for
//! it.
ghost use Rattle.std.specs.Prelude.{◌++◌, ◌≡◌, ◌≤◌, codes};
ghost use Rattle.granit_error.specs.OptionsData.{default_options};
ghost use Rattle.granit_generator.specs.BlockText.{block_characters};
ghost use Rattle.granit_machine.specs.Events.{prints};
ghost use Rattle.granit_model.specs.Characters.{HasCharacters};
ghost use Rattle.granit_model.specs.Tree.{DocumentsFit, NoTrees, trees_depth};
ghost use Rattle.granit_model.specs.WorkedTrees.{documents_tree, names_tree, pairs_tree, worked_tree};

/// Trees whose nodes stand where the original finds them, and which have what the law asks of trees.
pub fn block_examples()
    ensures nothing { prints (block_characters NoTrees) ≡ codes "StreamStart 0:1:1-0:1:1\nStreamEnd 0:1:1-0:1:1\n" }
    ensures pairs_text { block_characters pairs_tree
        ≡ codes "---\n? \"a\"\n: \"b\"\n? []\n: {}\n" }
    ensures pairs { prints (block_characters pairs_tree)
        ≡ (codes "StreamStart 0:1:1-0:1:1\nDocumentStart explicit 0:1:1-3:1:4\nMappingStart block 4:2:1-4:2:1\n"
        ++ codes "Scalar double \"a\" 6:2:3-9:2:6\nScalar double \"b\" 12:3:3-15:3:6\n"
        ++ codes "SequenceStart flow 18:4:3-19:4:4\nSequenceEnd 19:4:4-20:4:5\n"
        ++ codes "MappingStart flow 23:5:3-24:5:4\nMappingEnd 24:5:4-25:5:5\nMappingEnd 26:6:1-26:6:1\n"
        ++ codes "DocumentEnd 26:6:1-26:6:1\nStreamEnd 26:6:1-26:6:1\n") }
    ensures documents_text { block_characters documents_tree
        ≡ (codes "---\n- \"a\\\"\\\\\\x07\\x7F\\xE9\\u20AC\\U0001F600 z\"\n- []\n-\n  ?\n    - \"k\"\n"
        ++ codes "    - \"\\x0A\"\n  :\n    ? {}\n    : \"\"\n- {}\n--- \"\\x85\"\n") }
    ensures documents { prints (block_characters documents_tree)
        ≡ (codes "StreamStart 0:1:1-0:1:1\nDocumentStart explicit 0:1:1-3:1:4\n"
        ++ codes "SequenceStart block 4:2:1-4:2:1\n"
        ++ codes "Scalar double \"a\\\"\\\\\\u{7}\\u{7f}\\u{e9}\\u{20ac}\\u{1f600} z\" 6:2:3-43:2:40\n"
        ++ codes "SequenceStart flow 46:3:3-47:3:4\nSequenceEnd 47:3:4-48:3:5\n"
        ++ codes "MappingStart block 53:5:3-53:5:3\nSequenceStart block 59:6:5-59:6:5\n"
        ++ codes "Scalar double \"k\" 61:6:7-64:6:10\nScalar double \"\\n\" 71:7:7-77:7:13\n"
        ++ codes "SequenceEnd 80:8:3-80:8:3\nMappingStart block 86:9:5-86:9:5\n"
        ++ codes "MappingStart flow 88:9:7-89:9:8\nMappingEnd 89:9:8-90:9:9\n"
        ++ codes "Scalar double \"\" 97:10:7-99:10:9\nMappingEnd 100:11:1-100:11:1\n"
        ++ codes "MappingEnd 100:11:1-100:11:1\nMappingStart flow 102:11:3-103:11:4\n"
        ++ codes "MappingEnd 103:11:4-104:11:5\nSequenceEnd 105:12:1-105:12:1\nDocumentEnd 105:12:1-105:12:1\n"
        ++ codes "DocumentStart explicit 105:12:1-108:12:4\nScalar double \"\\u{85}\" 109:12:5-115:12:11\n"
        ++ codes "DocumentEnd 115:12:11-115:12:11\nStreamEnd 116:13:1-116:13:1\n") }
    ensures worked_text { block_characters worked_tree
        ≡ codes "--- !<tag:x%20y> &n\n? \"\\xE9\"\n: *n\n" }
    ensures worked { prints (block_characters worked_tree)
        ≡ (codes "StreamStart 0:1:1-0:1:1\nDocumentStart explicit 0:1:1-3:1:4\n"
        ++ codes "MappingStart block &1 !\"\" \"tag:x y\" 20:2:1-20:2:1\n"
        ++ codes "Scalar double \"\\u{e9}\" 22:2:3-28:2:9\nAlias 1 31:3:3-33:3:5\nMappingEnd 34:4:1-34:4:1\n"
        ++ codes "DocumentEnd 34:4:1-34:4:1\nStreamEnd 34:4:1-34:4:1\n") }
    ensures names_text { block_characters names_tree
        ≡ (codes "--- &a\n- *a\n- !<%C3%A9%5F%20%25:,./-%F0%9F%98%80> &a \"x\"\n- *a\n- &b:é\n  ? *b:é\n"
        ++ codes "  : !<%21> []\n--- &a\n- &b \"\"\n- *b\n- *a\n") }
    ensures names { prints (block_characters names_tree)
        ≡ (codes "StreamStart 0:1:1-0:1:1\nDocumentStart explicit 0:1:1-3:1:4\n"
        ++ codes "SequenceStart block &1 7:2:1-7:2:1\nAlias 1 9:2:3-11:2:5\n"
        ++ codes "Scalar double \"x\" &2 !\"\" \"\\u{e9}_ %:,./-\\u{1f600}\" 53:3:42-56:3:45\n"
        ++ codes "Alias 2 59:4:3-61:4:5\nMappingStart block &3 71:6:3-71:6:3\nAlias 3 73:6:5-77:6:9\n"
        ++ codes "SequenceStart flow !\"\" \"!\" 89:7:12-90:7:13\nSequenceEnd 90:7:13-91:7:14\n"
        ++ codes "MappingEnd 92:8:1-92:8:1\nSequenceEnd 92:8:1-92:8:1\nDocumentEnd 92:8:1-92:8:1\n"
        ++ codes "DocumentStart explicit 92:8:1-95:8:4\nSequenceStart block &4 99:9:1-99:9:1\n"
        ++ codes "Scalar double \"\" &5 104:9:6-106:9:8\nAlias 5 109:10:3-111:10:5\nAlias 4 114:11:3-116:11:5\n"
        ++ codes "SequenceEnd 117:12:1-117:12:1\nDocumentEnd 117:12:1-117:12:1\nStreamEnd 117:12:1-117:12:1\n") }
    ensures can_be_met { DocumentsFit names_tree × HasCharacters names_tree
        × (trees_depth names_tree ≤ default_options.flow_nesting_limit)
        × (trees_depth names_tree ≤ default_options.block_nesting_limit) }
{}
