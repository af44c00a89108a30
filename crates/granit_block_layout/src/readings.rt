//! Canonical block text is read back.
ghost use Rattle.std.specs.Prelude.{◌≤◌};
ghost use Rattle.granit_block_layout.specs.Alike.{BlockAnswered};
ghost use Rattle.granit_error.specs.OptionsData.{OptionsData};
ghost use Rattle.granit_model.specs.Characters.{HasCharacters};
ghost use Rattle.granit_model.specs.Tree.{DocumentsFit, PlainTrees, trees_depth};

/// The canonical block text of documents that fit is answered, whatever the options, as long as the trees are no deeper
/// than both limits on nesting; its events are those of the flow text but for the styles of collections and for spans.
pub fn block_text_is_read()
    ensures { (o : OptionsData) (ts : PlainTrees) → DocumentsFit ts → HasCharacters ts
        → trees_depth ts ≤ o.flow_nesting_limit → trees_depth ts ≤ o.block_nesting_limit → BlockAnswered o ts }
{}
