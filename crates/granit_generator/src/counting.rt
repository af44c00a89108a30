//! How many nodes trees have. The walk is plain recursion, so the call stack bounds the depth.
ghost use Rattle.std.specs.Prelude.{◌≡◌, ◌+◌, ◌≤◌, ◌^◌, IfOk, IfErr};
ghost use Rattle.granit_generator.specs.NodeCount as plain;
ghost use Rattle.granit_model.specs.TreeView.{plain_tree};

use granit_base::NoMemory;
use granit_model::{PairList, Tree, TreeList};

fn sum(a: usize, b: usize) -> Result<usize, NoMemory>
    ensures counted { IfOk result (λ n. n ≡ a + b) }
    ensures full { IfErr result (λ _. 2 ^ 64 ≤ a + b) }
{
    a.checked_add(b).ok_or(NoMemory)
}

/// How many nodes stand in trees, at every depth, aliases, keys and values included.
///
/// # Errors
///
/// `NoMemory` alone, and only where they are more than a `usize` counts: no memory holds so many.
#[cycle(counting)]
#[tactic(auto, using(crate::proofs::CountLemmas::tree_passed))]
pub fn node_count(trees: &TreeList) -> Result<usize, NoMemory>
    ensures counted { IfOk result (λ n. n ≡ plain.trees_nodes trees.now) }
    ensures full { IfErr result (λ _. 2 ^ 64 ≤ plain.trees_nodes trees.now) }
{
    let mut count: usize = 0;
    for tree in trees.as_slice() {
        count = sum(count, tree_count(tree)?)?;
    }
    Ok(count)
}

#[cycle(counting)]
fn tree_count(tree: &Tree) -> Result<usize, NoMemory>
    ensures counted { IfOk result (λ n. n ≡ plain.tree_nodes (plain_tree tree.now)) }
    ensures full { IfErr result (λ _. 2 ^ 64 ≤ plain.tree_nodes (plain_tree tree.now)) }
{
    match tree {
        Tree::Alias(_) | Tree::Scalar(_, _) => Ok(1),
        Tree::Sequence(_, entries) => sum(node_count(entries)?, 1),
        Tree::Mapping(_, pairs) => sum(pair_count(pairs)?, 1),
    }
}

#[cycle(counting)]
#[tactic(auto, using(crate::proofs::CountLemmas::pair_passed))]
fn pair_count(pairs: &PairList) -> Result<usize, NoMemory>
    ensures counted { IfOk result (λ n. n ≡ plain.pairs_nodes pairs.now) }
    ensures full { IfErr result (λ _. 2 ^ 64 ≤ plain.pairs_nodes pairs.now) }
{
    let mut count: usize = 0;
    for pair in pairs.as_slice() {
        let both = sum(tree_count(&pair.0)?, tree_count(&pair.1)?)?;
        count = sum(count, both)?;
    }
    Ok(count)
}
