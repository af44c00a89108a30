//! Worked examples, by computation.
ghost use Rattle.std.specs.Prelude.{◌++◌, ◌≡◌, codes};
ghost use Rattle.granit_generator.specs.BlockText.{block_characters};
ghost use Rattle.granit_generator.specs.Generator.{trees_made};
ghost use Rattle.granit_model.specs.FlowText.{flow_characters};
ghost use Rattle.granit_model.specs.Tree.{NoTrees, PlainTrees};
ghost use Rattle.granit_model.specs.WorkedTrees.{nested_tree, worked_tree};

/// The canonical block text, and generated trees by their canonical flow text.
pub fn generator_examples()
    ensures nothing { block_characters NoTrees ≡ codes "" }
    ensures worked { block_characters worked_tree ≡ codes "--- !<tag:x%20y> &n\n? \"\\xE9\"\n: *n\n" }
    ensures nested { block_characters nested_tree
        ≡ (codes "---\n- \"a\"\n- &b\n  - &b []\n  - *b\n-\n  ?\n    - {}\n  : !<t>\n    ? \"\"\n    : \"c\"\n"
        ++ codes "  ? \"d\"\n  : []\n--- !<t> []\n") }
    ensures none { trees_made 7 0 ≡ NoTrees }
    ensures first { flow_characters (trees_made 0 1) ≡ codes "--- []\n" }
    ensures second { flow_characters (trees_made 289 1)
        ≡ codes "--- [[{? &n1 \"nmryrr\" : *n1}, !<t> \"o\"], &n2 []]\n" }
{}
