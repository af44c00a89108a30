//! Trees: the nodes of documents without places.
ghost use Rattle.std.specs.Prelude.{◌≡◌, OnOk, OnErr, IfErr};
ghost use Rattle.granit_model.specs.Tree.{NoTrees, AfterTrees, tree_count, no_trees, NoPairs, AfterPairs, pair_count};
ghost use Rattle.granit_model.specs.Tree.{no_pairs};
ghost use Rattle.granit_model.specs.TreeView.{plain_tree, with_trees, with_pairs};

use granit_base::Text;
use std::alloc::Global;
use std::marker::Model;

/// The properties of a node (YAML 1.2.2, 6.9).
#[derive(Debug, Drop)]
pub struct Props {
    /// Its tag as the whole text that it stands for, where it has one.
    pub tag: Option<Text<'static>>,
    /// The name of its anchor, where it has one.
    pub anchor: Option<Text<'static>>,
}

/// A node (YAML 1.2.2, 3.2.1), or an alias of one (7.1).
#[cycle(tree)]
#[derive(Debug, Drop)]
pub enum Tree {
    /// An alias, by the name of its anchor.
    Alias(Text<'static>),
    /// A scalar and its text.
    Scalar(Props, Text<'static>),
    /// A sequence and its entries.
    Sequence(Props, TreeList),
    /// A mapping and its pairs of a key and a value.
    Mapping(Props, PairList),
}

/// Trees in order: the entries of a sequence, or the roots of documents.
#[cycle(tree)]
#[derive(Debug, Drop)]
pub struct TreeList {
    pub(crate) trees: Vec<Tree>,
}

impl Model for TreeList {
    ghost use Rattle.granit_model.specs.Tree.{PlainTrees, trees_depth};
    ghost use Rattle.granit_model.specs.TreeCode.{trees_coded};

    ghost Value = { PlainTrees };

    ghost coded = { trees_coded };

    ghost use Rattle.granit_model.specs.Tree.{NoTrees};
    ghost use Rattle.granit_model.specs.TreeView.{with_trees};

    ghost view = { λ l. with_trees NoTrees l.trees.items };

    ghost size = { trees_depth };

    ghost use Rattle.granit_model.specs.TreeFalls.{trees_fall};

    ghost size_decreases = { λ a h. trees_fall a.trees.items };
}

/// Pairs of a key and a value in order.
#[cycle(tree)]
#[derive(Debug, Drop)]
pub struct PairList {
    pub(crate) pairs: Vec<(Tree, Tree)>,
}

impl Model for PairList {
    ghost use Rattle.granit_model.specs.Tree.{PlainPairs, pairs_depth};
    ghost use Rattle.granit_model.specs.TreeCode.{pairs_coded};

    ghost Value = { PlainPairs };

    ghost coded = { pairs_coded };

    ghost use Rattle.granit_model.specs.Tree.{NoPairs};
    ghost use Rattle.granit_model.specs.TreeView.{with_pairs};

    ghost view = { λ l. with_pairs NoPairs l.pairs.items };

    ghost size = { pairs_depth };

    ghost use Rattle.granit_model.specs.TreeFalls.{pairs_fall};

    ghost size_decreases = { λ a h. pairs_fall a.pairs.items };
}

impl TreeList {
    /// No trees.
    pub fn new(alloc: Global) -> TreeList
        ensures { result ≡ NoTrees }
    {
        TreeList {
            trees: Vec::new(alloc),
        }
    }

    /// Adds a tree at the end.
    ///
    /// # Errors
    ///
    /// For want of memory alone: the tree is handed back, and the list is as before.
    #[tactic(auto, using(crate::proofs::TreeLemmas::trees_push))]
    pub fn push(&mut self, tree: Tree) -> Result<(), Tree>
        ensures ok { OnOk result (self.new ≡ AfterTrees self.old (plain_tree tree)) }
        ensures kept { OnErr result (self.new ≡ self.old) }
        ensures handed_back { IfErr result (λ t. t ≡ tree) }
    {
        match self.trees.push(tree) {
            Ok(()) => Ok(()),
            Err(refused) => Err(refused.value),
        }
    }

    /// How many trees it holds, those inside them not counted.
    #[tactic(auto, using(crate::proofs::TreeLemmas::trees_counted))]
    pub fn len(&self) -> usize
        ensures { result ≡ tree_count self.now }
    {
        self.trees.len()
    }

    /// Whether it holds none.
    #[tactic(auto, using(crate::proofs::TreeLemmas::trees_empty))]
    pub fn is_empty(&self) -> bool
        ensures { result ≡ no_trees self.now }
    {
        self.len() == 0
    }

    /// The trees in order.
    pub fn as_slice(&self) -> &[Tree]
        ensures { with_trees NoTrees result.now ≡ self.now }
    {
        self.trees.as_slice()
    }
}

impl PairList {
    /// No pairs.
    pub fn new(alloc: Global) -> PairList
        ensures { result ≡ NoPairs }
    {
        PairList {
            pairs: Vec::new(alloc),
        }
    }

    /// Adds a pair of a key and a value at the end.
    ///
    /// # Errors
    ///
    /// For want of memory alone: the pair is handed back, and the list is as before.
    #[tactic(auto, using(crate::proofs::TreeLemmas::pairs_push))]
    pub fn push(&mut self, pair: (Tree, Tree)) -> Result<(), (Tree, Tree)>
        ensures ok { OnOk result (self.new ≡ AfterPairs self.old (plain_tree pair.0) (plain_tree pair.1)) }
        ensures kept { OnErr result (self.new ≡ self.old) }
        ensures handed_back { IfErr result (λ t. t ≡ pair) }
    {
        match self.pairs.push(pair) {
            Ok(()) => Ok(()),
            Err(refused) => Err(refused.value),
        }
    }

    /// How many pairs it holds, those inside them not counted.
    #[tactic(auto, using(crate::proofs::TreeLemmas::pairs_counted))]
    pub fn len(&self) -> usize
        ensures { result ≡ pair_count self.now }
    {
        self.pairs.len()
    }

    /// Whether it holds none.
    #[tactic(auto, using(crate::proofs::TreeLemmas::pairs_empty))]
    pub fn is_empty(&self) -> bool
        ensures { result ≡ no_pairs self.now }
    {
        self.len() == 0
    }

    /// The pairs in order.
    pub fn as_slice(&self) -> &[(Tree, Tree)]
        ensures { with_pairs NoPairs result.now ≡ self.now }
    {
        self.pairs.as_slice()
    }
}
