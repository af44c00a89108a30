//! Canonical flow text is read back.
ghost use Rattle.std.specs.Prelude.{◌≡◌, ◌≤◌, Ok};
ghost use Rattle.granit_canonical_steps.specs.Canonical.{canonical_events};
ghost use Rattle.granit_error.specs.OptionsData.{OptionsData};
ghost use Rattle.granit_machine.specs.Machine.{run};
ghost use Rattle.granit_model.specs.Characters.{HasCharacters};
ghost use Rattle.granit_model.specs.FlowText.{flow_characters};
ghost use Rattle.granit_model.specs.Tree.{DocumentsFit, PlainTrees, trees_depth};

/// The canonical flow text of documents that fit is answered with the events of their trees, each where its text
/// stands, whatever the options, as long as the trees are no deeper than allowed.
pub fn canonical_text_is_read()
    ensures { (o : OptionsData) (ts : PlainTrees) → DocumentsFit ts → HasCharacters ts
        → trees_depth ts ≤ o.flow_nesting_limit → run o (flow_characters ts) ≡ Ok (canonical_events o ts) }
{}
