//! How deep trees are. The walk is plain recursion, so the call stack bounds the depth.
ghost use Rattle.std.specs.Prelude.{◌≡◌, min};
ghost use Rattle.granit_model.specs.Tree as plain;
ghost use Rattle.granit_model.specs.TreeView.{plain_tree};

use crate::tree::{PairList, Tree, TreeList};

/// The greatest number of sequences and mappings inside one another, 0 where there is none, held
/// at the greatest `usize`.
#[cycle(depth)]
#[tactic(auto, using(crate::proofs::TreeLemmas::trees_more))]
pub fn depth(trees: &TreeList) -> usize
    ensures { result ≡ min (plain.trees_depth trees.now) usize.MAX }
{
    let mut deepest: usize = 0;
    for tree in &trees.trees {
        deepest = deepest.max(tree_depth(tree));
    }
    deepest
}

#[cycle(depth)]
fn tree_depth(tree: &Tree) -> usize
    ensures { result ≡ min (plain.tree_depth (plain_tree tree.now)) usize.MAX }
{
    match tree {
        Tree::Alias(_) | Tree::Scalar(_, _) => 0,
        Tree::Sequence(_, entries) => depth(entries).saturating_add(1),
        Tree::Mapping(_, pairs) => pairs_depth(pairs).saturating_add(1),
    }
}

#[cycle(depth)]
#[tactic(auto, using(crate::proofs::TreeLemmas::pairs_more))]
fn pairs_depth(pairs: &PairList) -> usize
    ensures { result ≡ min (plain.pairs_depth pairs.now) usize.MAX }
{
    let mut deepest: usize = 0;
    for (key, value) in &pairs.pairs {
        deepest = deepest.max(tree_depth(key).max(tree_depth(value)));
    }
    deepest
}
