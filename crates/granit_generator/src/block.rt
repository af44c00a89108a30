//! The canonical block text of trees. The walk is plain recursion, so the call stack bounds the depth.
ghost use Rattle.std.specs.Prelude.{◌≡◌, ◌+◌, ◌∷◌, ◌++◌, codes, IfOk, IfSome, OnOk, false};
ghost use Rattle.std.specs.Option.{option_map};
ghost use Rattle.granit_model.specs.Characters.{AreCharacters, HasCharacters, PairsHaveCharacters};
ghost use Rattle.granit_model.specs.Characters.{PropertiesHaveCharacters, TreeHasCharacters};
ghost use Rattle.granit_model.specs.Tree.{DocumentsFit};
ghost use Rattle.granit_model.specs.FlowText.{Appends};
ghost use Rattle.granit_model.specs.TreeView.{plain_tree, properties_of};
ghost use Rattle.granit_generator.specs.BlockText as block;

use granit_base::{NoMemory, Text, push_char, push_text};
use granit_model::{PairList, Props, Tree, TreeList, push_tag_bytes, push_tree};
use std::alloc::Global;

fn push(out: &mut String, c: char) -> Result<(), NoMemory>
    ensures { OnOk result (Appends out.old out.new (λ rest. c ∷ rest)) }
{
    push_char(out, c)
}

#[tactic(auto, using(crate::proofs::BlockLemmas::indent_more))]
fn push_indent(out: &mut String, column: usize) -> Result<(), NoMemory>
    ensures { OnOk result (Appends out.old out.new (block.indent column)) }
{
    for _ in 0..column {
        push(out, ' ')?;
    }
    Ok(())
}

fn push_mark(out: &mut String, column: usize, mark: char) -> Result<(), NoMemory>
    ensures { OnOk result (Appends out.old out.new (λ rest. block.indent column (mark ∷ rest))) }
{
    push_indent(out, column)?;
    push(out, mark)
}

#[tactic(auto, using(granit_model::proofs::TextLemmas::characters_of))]
fn push_name(out: &mut String, name: &Text<'static>) -> Result<(), NoMemory>
    ensures written { OnOk result (Appends out.old out.new (λ rest. name.now.characters ++ rest)) }
    ensures characters { OnOk result (AreCharacters name.now.characters) }
{
    push_text(out, name.as_str())
}

fn push_spaced_tag(out: &mut String, tag: &Option<Text<'static>>) -> Result<(), NoMemory>
    ensures written { OnOk result (Appends out.old out.new
        (block.spaced_tag (option_map (λ t. t.characters) tag.now))) }
    ensures characters { OnOk result (IfSome (option_map (λ t. t.characters) tag.now) AreCharacters) }
{
    match tag {
        None => Ok(()),
        Some(tag) => {
            push(out, ' ')?;
            push(out, '!')?;
            push(out, '<')?;
            push_tag_bytes(out, tag.as_str())?;
            push(out, '>')
        }
    }
}

fn push_spaced_anchor(out: &mut String, anchor: &Option<Text<'static>>) -> Result<(), NoMemory>
    ensures written { OnOk result (Appends out.old out.new
        (block.spaced_anchor (option_map (λ t. t.characters) anchor.now))) }
    ensures characters { OnOk result (IfSome (option_map (λ t. t.characters) anchor.now) AreCharacters) }
{
    match anchor {
        None => Ok(()),
        Some(name) => {
            push(out, ' ')?;
            push(out, '&')?;
            push_name(out, name)
        }
    }
}

// The rest of the line of a collection with entries.
fn push_header(out: &mut String, props: &Props) -> Result<(), NoMemory>
    ensures written { OnOk result (Appends out.old out.new (block.header (properties_of props.now))) }
    ensures characters { OnOk result (PropertiesHaveCharacters (properties_of props.now)) }
{
    push_spaced_tag(out, &props.tag)?;
    push_spaced_anchor(out, &props.anchor)?;
    push(out, '\n')
}

fn push_inline(out: &mut String, tree: &Tree) -> Result<(), NoMemory>
    ensures written { OnOk result (Appends out.old out.new (block.inline_text (plain_tree tree.now))) }
    ensures characters { OnOk result (TreeHasCharacters (plain_tree tree.now)) }
{
    push(out, ' ')?;
    push_tree(out, tree)?;
    push(out, '\n')
}

// The column of what an entry holds. No memory has room to the left of one that no `usize` can count.
fn inside(column: usize) -> Result<usize, NoMemory>
    ensures { IfOk result (λ c. c ≡ column + 2) }
{
    column.checked_add(2).ok_or(NoMemory)
}

#[cycle(block)]
fn push_node(out: &mut String, column: usize, tree: &Tree) -> Result<(), NoMemory>
    ensures written { OnOk result (Appends out.old out.new (block.block_node column (plain_tree tree.now))) }
    ensures characters { OnOk result (TreeHasCharacters (plain_tree tree.now)) }
{
    match tree {
        Tree::Sequence(props, entries) if !entries.is_empty() => {
            push_header(out, props)?;
            push_entries(out, column, entries)
        }
        Tree::Mapping(props, pairs) if !pairs.is_empty() => {
            push_header(out, props)?;
            push_pairs(out, column, pairs)
        }
        _ => push_inline(out, tree),
    }
}

#[cycle(block)]
#[tactic(auto, using(granit_model::proofs::TreeLemmas::trees_more, crate::proofs::BlockLemmas::tree_in_list))]
fn push_entries(out: &mut String, column: usize, entries: &TreeList) -> Result<(), NoMemory>
    ensures written { OnOk result (Appends out.old out.new (block.block_entries column entries.now)) }
    ensures characters { OnOk result (HasCharacters entries.now) }
{
    for entry in entries.as_slice() {
        push_mark(out, column, '-')?;
        push_node(out, inside(column)?, entry)?;
    }
    Ok(())
}

#[cycle(block)]
#[tactic(auto, using(granit_model::proofs::TreeLemmas::pairs_more, crate::proofs::BlockLemmas::pair_in_list))]
fn push_pairs(out: &mut String, column: usize, pairs: &PairList) -> Result<(), NoMemory>
    ensures written { OnOk result (Appends out.old out.new (block.block_pairs column pairs.now)) }
    ensures characters { OnOk result (PairsHaveCharacters pairs.now) }
{
    for pair in pairs.as_slice() {
        push_pair(out, column, pair)?;
    }
    Ok(())
}

#[cycle(block)]
fn push_pair(out: &mut String, column: usize, pair: &(Tree, Tree)) -> Result<(), NoMemory>
    ensures written { OnOk result (Appends out.old out.new
        (block.block_pair column (plain_tree pair.now.0) (plain_tree pair.now.1))) }
    ensures characters { OnOk result (TreeHasCharacters (plain_tree pair.now.0)
        × TreeHasCharacters (plain_tree pair.now.1)) }
{
    push_mark(out, column, '?')?;
    push_node(out, inside(column)?, &pair.0)?;
    push_mark(out, column, ':')?;
    push_node(out, inside(column)?, &pair.1)
}

/// The canonical block text of documents by their roots: each begins with `---`, aliases, scalars and empty
/// collections stand behind it or behind their indicator as in flow text, and a collection with entries has its
/// properties there and each entry on lines of its own, inner ones two columns further right (YAML 1.2.2, 8.2).
///
/// # Errors
///
/// `NoMemory` alone.
#[tactic(auto, using(granit_model::proofs::TreeLemmas::trees_more))]
pub fn block_text(alloc: Global, trees: &TreeList) -> Result<Text<'static>, NoMemory>
    requires { DocumentsFit trees.now }
    ensures written { IfOk result (λ t. t
        ≡ record { characters = block.block_characters trees.now; is_borrowed = false }) }
    ensures characters { OnOk result (HasCharacters trees.now) }
{
    let mut out = String::new(alloc);
    for root in trees.as_slice() {
        push_start(&mut out)?;
        push_node(&mut out, 0, root)?;
    }
    Ok(Text::owned(out))
}

fn push_start(out: &mut String) -> Result<(), NoMemory>
    ensures { OnOk result (Appends out.old out.new (λ rest. codes "---" ++ rest)) }
{
    push(out, '-')?;
    push(out, '-')?;
    push(out, '-')
}
