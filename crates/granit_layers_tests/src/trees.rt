//! The canonical flow text, fitting and depth of trees whose answers were found by hand.
use crate::agree::agree;
use granit_base::Text;
use granit_model::{PairList, Props, Tree, TreeList, depth, fits, flow_text};
use std::alloc::Global;

fn plain() -> Props {
    Props {
        tag: None,
        anchor: None,
    }
}

fn anchored(name: &'static str) -> Tree {
    let props = Props {
        tag: None,
        anchor: Some(Text::borrowed(name)),
    };
    Tree::Scalar(props, Text::borrowed("a"))
}

fn tagged(tag: &'static str, text: &'static str) -> Tree {
    let props = Props {
        tag: Some(Text::borrowed(tag)),
        anchor: None,
    };
    Tree::Scalar(props, Text::borrowed(text))
}

fn alias(name: &'static str) -> Tree {
    Tree::Alias(Text::borrowed(name))
}

fn scalar(text: &'static str) -> Tree {
    Tree::Scalar(plain(), Text::borrowed(text))
}

fn empty(alloc: Global) -> Tree {
    Tree::Sequence(plain(), TreeList::new(alloc))
}

/// One more tree, where there is room.
fn more(list: TreeList, tree: Tree) -> TreeList {
    let mut list = list;
    let _ = list.push(tree).ok();
    list
}

fn one(alloc: Global, tree: Tree) -> TreeList {
    more(TreeList::new(alloc), tree)
}

fn two(alloc: Global, first: Tree, second: Tree) -> TreeList {
    more(one(alloc, first), second)
}

/// One more pair, where there is room.
fn pair_more(list: PairList, key: Tree, value: Tree) -> PairList {
    let mut list = list;
    let _ = list.push((key, value)).ok();
    list
}

fn pair(alloc: Global, key: Tree, value: Tree) -> PairList {
    pair_more(PairList::new(alloc), key, value)
}

fn mapping(alloc: Global, key: Tree, value: Tree) -> Tree {
    Tree::Mapping(plain(), pair(alloc, key, value))
}

/// One document, a sequence of two.
fn sequence(alloc: Global, first: Tree, second: Tree) -> TreeList {
    one(alloc, Tree::Sequence(plain(), two(alloc, first, second)))
}

/// One document, a mapping of one pair.
fn map(alloc: Global, key: Tree, value: Tree) -> TreeList {
    one(alloc, mapping(alloc, key, value))
}

/// Whether documents fit, and have this text; none for want of memory.
fn has_text(alloc: Global, trees: &TreeList, wanted: &str) -> Option<bool> {
    if !fits(trees) {
        return Some(false);
    }
    let text = flow_text(alloc, trees).ok()?;
    Some(text.as_str() == wanted)
}

/// The same of documents that were made.
fn is_written(alloc: Global, trees: TreeList, wanted: &str) -> Option<bool> {
    has_text(alloc, &trees, wanted)
}

/// A mapping with properties.
fn with_properties(alloc: Global) -> TreeList {
    let props = Props {
        tag: Some(Text::borrowed("tag:x y")),
        anchor: Some(Text::borrowed("n")),
    };
    let pairs = pair(alloc, scalar("é"), alias("n"));
    one(alloc, Tree::Mapping(props, pairs))
}

/// Two pairs, the first with a tag.
fn pairs(alloc: Global) -> PairList {
    let first = pair(alloc, tagged("é_:,./-", "a"), scalar(""));
    pair_more(first, alias("b"), empty(alloc))
}

/// Two documents, the first of nested collections.
fn nested(alloc: Global) -> TreeList {
    let inner = Tree::Mapping(plain(), pairs(alloc));
    let first = Tree::Sequence(plain(), two(alloc, anchored("b"), inner));
    two(alloc, first, scalar("b"))
}

/// Whether the trees have these texts.
fn written(alloc: Global) -> [Option<bool>; 4] {
    let properties = "--- !<tag:x%20y> &n {? \"\\xE9\" : *n}\n";
    let escaped = "~ \"\\\u{7}\u{7f}\u{ff}\u{100}\u{ffff}\u{10000}\u{10ffff}";
    let escapes = "--- \"~ \\\"\\\\\\x07\\x7F\\xFF\\u0100\\uFFFF\\U00010000\\U0010FFFF\"\n";
    let collections = "--- [&b \"a\", {? !<%C3%A9%5F:,./-> \"a\" : \"\", ? *b : []}]\n--- \"b\"\n";
    [
        is_written(alloc, with_properties(alloc), properties),
        is_written(alloc, one(alloc, scalar(escaped)), escapes),
        is_written(alloc, nested(alloc), collections),
        is_written(alloc, TreeList::new(alloc), ""),
    ]
}

#[test]
fn trees_are_written(rt: HostRuntime) {
    agree(&rt, written(rt.alloc()), [Some(true); 4]);
}

/// Whether documents that were made fit.
fn fit(trees: TreeList) -> bool {
    fits(&trees)
}

/// An alias behind its anchor and before it, in one document and in two, in a value and in a key.
fn aliases_fit(alloc: Global) -> [bool; 5] {
    [
        fit(sequence(alloc, anchored("b"), alias("b"))),
        fit(sequence(alloc, alias("b"), anchored("b"))),
        fit(two(alloc, anchored("b"), alias("b"))),
        fit(map(alloc, anchored("b"), alias("b"))),
        fit(map(alloc, alias("b"), anchored("b"))),
    ]
}

/// Names of anchors, the last a right one.
fn names_fit(alloc: Global) -> [bool; 5] {
    [
        fit(one(alloc, anchored(""))),
        fit(one(alloc, anchored("b "))),
        fit(one(alloc, anchored("b,"))),
        fit(one(alloc, anchored("\u{feff}"))),
        fit(one(alloc, anchored("b:é"))),
    ]
}

/// Tags, the last a right one.
fn tags_fit(alloc: Global) -> [bool; 2] {
    [
        fit(one(alloc, tagged("", "a"))),
        fit(one(alloc, tagged(" ", "a"))),
    ]
}

#[test]
fn trees_fit(rt: HostRuntime) {
    let alloc = rt.alloc();
    agree(&rt, aliases_fit(alloc), [true, false, false, true, false]);
    agree(&rt, names_fit(alloc), [false, false, false, false, true]);
    agree(&rt, tags_fit(alloc), [false, true]);
}

/// How deep documents are that were made.
fn deep(trees: TreeList) -> usize {
    depth(&trees)
}

/// A sequence of two collections, of which one is deeper.
fn three_deep(alloc: Global) -> TreeList {
    let inner = mapping(alloc, scalar("a"), empty(alloc));
    sequence(alloc, empty(alloc), inner)
}

/// How deep the trees are.
fn depths(alloc: Global) -> [usize; 5] {
    [
        deep(three_deep(alloc)),
        deep(map(alloc, empty(alloc), scalar("a"))),
        deep(two(alloc, empty(alloc), scalar("a"))),
        deep(one(alloc, scalar("a"))),
        deep(TreeList::new(alloc)),
    ]
}

/// How long a list of two documents is by each call.
fn lengths(alloc: Global) -> (usize, bool, usize) {
    let list = two(alloc, empty(alloc), scalar("a"));
    (list.len(), list.is_empty(), list.as_slice().len())
}

/// The same of a list of one pair.
fn pair_lengths(alloc: Global) -> (usize, bool, usize) {
    let list = pair(alloc, scalar("a"), alias("b"));
    (list.len(), list.is_empty(), list.as_slice().len())
}

#[test]
fn collections_are_deep_and_long(rt: HostRuntime) {
    agree(&rt, depths(rt.alloc()), [3, 2, 1, 0, 0]);
    agree(&rt, lengths(rt.alloc()), (2, false, 2));
    agree(&rt, pair_lengths(rt.alloc()), (1, false, 1));
}
