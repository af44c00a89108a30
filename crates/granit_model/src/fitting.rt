//! Whether trees fit to be written. The walk is plain recursion, so the call stack bounds the depth.
ghost use Rattle.std.specs.Prelude.{◌≡◌, ◌↔◌, IsTrue};
ghost use Rattle.granit_base.specs.Classes as class;
ghost use Rattle.std.specs.List.{list_all};
ghost use Rattle.std.specs.Option.{option_map};
ghost use Rattle.std.specs.Str.{chars};
ghost use Rattle.granit_model.specs.Tree.{DocumentsFit};
ghost use Rattle.granit_model.specs.FirstMention as test;
ghost use Rattle.granit_model.specs.TreeView.{plain_tree, properties_of};

use crate::tree::{PairList, Props, Tree, TreeList};
use granit_base::{Text, is_anchor_char, is_at_end};

/// What mentions a name.
#[derive(Clone, Copy)]
enum Mention {
    Anchor,
    Alias,
}

/// Whether each name of an anchor is one or more anchor characters (YAML 1.2.2, 6.9.2), no tag is
/// empty, and each alias names an anchor that stands before it in its document, that of a
/// collection around it counted (7.1). Each tree is the root of a document.
pub fn fits(trees: &TreeList) -> bool
    ensures { IsTrue result ↔ DocumentsFit trees.now }
{
    all_fit(trees)
}

#[tactic(auto, using(crate::proofs::TreeLemmas::trees_more))]
fn all_fit(trees: &TreeList) -> bool
    ensures { result ≡ test.documents_fit trees.now }
{
    let mut fit = true;
    for root in &trees.trees {
        fit = fit && tree_fits(root, root);
    }
    fit
}

#[cycle(fitting)]
fn tree_fits(tree: &Tree, root: &Tree) -> bool
    ensures { result ≡ test.tree_fits (plain_tree tree.now) (plain_tree root.now) }
{
    match tree {
        Tree::Alias(name) => matches!(mention_in_tree(root, name), Some(Mention::Anchor)),
        Tree::Scalar(props, _) => properties_fit(props),
        Tree::Sequence(props, entries) => properties_fit(props) && trees_fit(entries, root),
        Tree::Mapping(props, pairs) => properties_fit(props) && pairs_fit(pairs, root),
    }
}

#[cycle(fitting)]
#[tactic(auto, using(crate::proofs::TreeLemmas::trees_more))]
fn trees_fit(trees: &TreeList, root: &Tree) -> bool
    ensures { result ≡ test.trees_fit trees.now (plain_tree root.now) }
{
    let mut fit = true;
    for tree in &trees.trees {
        fit = fit && tree_fits(tree, root);
    }
    fit
}

#[cycle(fitting)]
#[tactic(auto, using(crate::proofs::TreeLemmas::pairs_more))]
fn pairs_fit(pairs: &PairList, root: &Tree) -> bool
    ensures { result ≡ test.pairs_fit pairs.now (plain_tree root.now) }
{
    let mut fit = true;
    for (key, value) in &pairs.pairs {
        fit = fit && tree_fits(key, root) && tree_fits(value, root);
    }
    fit
}

fn properties_fit(props: &Props) -> bool
    ensures { result ≡ test.properties_fit (properties_of props.now) }
{
    tag_fits(&props.tag) && anchor_fits(&props.anchor)
}

fn tag_fits(tag: &Option<Text<'static>>) -> bool
    ensures { result ≡ test.tag_fits (option_map (λ t. t.characters) tag.now) }
{
    match tag {
        None => true,
        Some(tag) => !is_at_end(tag.as_str()),
    }
}

fn anchor_fits(anchor: &Option<Text<'static>>) -> bool
    ensures { result ≡ test.anchor_fits (option_map (λ t. t.characters) anchor.now) }
{
    match anchor {
        None => true,
        Some(name) => is_anchor_name(name.as_str()),
    }
}

fn is_anchor_name(name: &str) -> bool
    ensures { result ≡ test.is_anchor_name (chars name.now) }
{
    !is_at_end(name) && has_anchor_chars_alone(name)
}

fn has_anchor_chars_alone(name: &str) -> bool
    ensures { result ≡ list_all class.is_anchor_char (chars name.now) }
{
    name.chars().all(|c| is_anchor_char(c))
}

// The first mention of a name in a document, or in a part of one.
#[cycle(mention)]
fn mention_in_tree(tree: &Tree, name: &Text<'static>) -> Option<Mention>
    ensures { result ≡ test.mention_in_tree name.now.characters (plain_tree tree.now) }
{
    match tree {
        Tree::Alias(alias) => {
            if alias == name {
                Some(Mention::Alias)
            } else {
                None
            }
        }
        Tree::Scalar(props, _) => anchor_mention(props, name),
        Tree::Sequence(props, entries) => match anchor_mention(props, name) {
            None => mention_in_trees(entries, name),
            found => found,
        },
        Tree::Mapping(props, pairs) => match anchor_mention(props, name) {
            None => mention_in_pairs(pairs, name),
            found => found,
        },
    }
}

#[cycle(mention)]
#[tactic(auto, using(crate::proofs::TreeLemmas::trees_more))]
fn mention_in_trees(trees: &TreeList, name: &Text<'static>) -> Option<Mention>
    ensures { result ≡ test.mention_in_trees name.now.characters trees.now }
{
    let mut found = None;
    for tree in &trees.trees {
        if found.is_none() {
            found = mention_in_tree(tree, name);
        }
    }
    found
}

#[cycle(mention)]
#[tactic(auto, using(crate::proofs::TreeLemmas::pairs_more))]
fn mention_in_pairs(pairs: &PairList, name: &Text<'static>) -> Option<Mention>
    ensures { result ≡ test.mention_in_pairs name.now.characters pairs.now }
{
    let mut found = None;
    for pair in &pairs.pairs {
        if found.is_none() {
            found = mention_in_pair(pair, name);
        }
    }
    found
}

#[cycle(mention)]
fn mention_in_pair(pair: &(Tree, Tree), name: &Text<'static>) -> Option<Mention>
    ensures { result ≡ test.or_else (test.mention_in_tree name.now.characters (plain_tree pair.now.0))
        (test.mention_in_tree name.now.characters (plain_tree pair.now.1)) }
{
    match mention_in_tree(&pair.0, name) {
        None => mention_in_tree(&pair.1, name),
        found => found,
    }
}

fn anchor_mention(props: &Props, name: &Text<'static>) -> Option<Mention>
    ensures { result ≡ test.anchor_mention name.now.characters (properties_of props.now).anchor }
{
    match &props.anchor {
        Some(anchor) if anchor == name => Some(Mention::Anchor),
        _ => None,
    }
}
