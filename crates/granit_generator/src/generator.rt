//! Trees that are made from two numbers.
ghost use Rattle.std.specs.Prelude.{◌≡◌, ◌<◌, ◌≤◌, IfOk, OnOk};
ghost use Rattle.granit_generator.specs.Generator as plain;
ghost use Rattle.granit_generator.specs.Generator.{NodeWith};
ghost use Rattle.granit_generator.specs.GeneratorView.{plain_beginning};
ghost use Rattle.granit_model.specs.Tree.{AfterTrees, AfterPairs, DocumentsFit, trees_depth};
ghost use Rattle.granit_model.specs.TreeView.{plain_tree, properties_of};

use crate::drawing::Drawing;
use granit_base::{NoMemory, Text, push_char};
use granit_model::{PairList, Props, Tree, TreeList};
use std::alloc::Global;

// How many collections stand inside one another at most.
const LEVELS: u32 = 6;

/// What a node begins with.
#[derive(Drop)]
enum Beginning {
    Alias(Text<'static>),
    Node(Props),
}

#[tactic(auto, using(crate::proofs::NameLemmas::name_chars))]
fn anchor_name(alloc: Global, number: u32) -> Result<Text<'static>, NoMemory>
    ensures { IfOk result (λ t. t.characters ≡ plain.anchor_name number) }
{
    Ok(Text::owned(format!(in alloc; "n{number}")?))
}

fn alias(alloc: Global, drawing: &mut Drawing) -> Result<Beginning, NoMemory>
    requires { 0 < drawing.old.anchors }
    ensures begun { IfOk result (λ b. plain_beginning b ≡ (plain.alias_begun drawing.old).value) }
    ensures draws { OnOk result (drawing.new ≡ (plain.alias_begun drawing.old).draws) }
{
    let anchors = drawing.anchors();
    let number = drawing.draw(anchors) + 1;
    Ok(Beginning::Alias(anchor_name(alloc, number)?))
}

fn anchored(alloc: Global, drawing: &mut Drawing) -> Result<Beginning, NoMemory>
    ensures begun { IfOk result (λ b. plain_beginning b ≡ (plain.anchored_begun drawing.old).value) }
    ensures draws { OnOk result (drawing.new ≡ (plain.anchored_begun drawing.old).draws) }
{
    let number = drawing.add_anchor()?;
    let name = anchor_name(alloc, number)?;
    Ok(Beginning::Node(Props {
        tag: None,
        anchor: Some(name),
    }))
}

#[tactic(auto, using(crate::proofs::NameLemmas::tag_chars))]
fn tagged() -> Beginning
    ensures { plain_beginning result ≡ NodeWith plain.only_tagged }
{
    Beginning::Node(Props {
        tag: Some(Text::borrowed("t")),
        anchor: None,
    })
}

fn bare() -> Beginning
    ensures { plain_beginning result ≡ NodeWith plain.without_properties }
{
    Beginning::Node(Props {
        tag: None,
        anchor: None,
    })
}

#[tactic(auto, unfolding(crate::specs::Generator::beginning))]
fn begin(alloc: Global, drawing: &mut Drawing) -> Result<Beginning, NoMemory>
    ensures begun { IfOk result (λ b. plain_beginning b ≡ (plain.draw_beginning drawing.old).value) }
    ensures draws { OnOk result (drawing.new ≡ (plain.draw_beginning drawing.old).draws) }
{
    let drawn = drawing.draw(16);
    if drawn == 0 && drawing.anchors() > 0 {
        alias(alloc, drawing)
    } else if drawn == 1 {
        anchored(alloc, drawing)
    } else if drawn == 2 {
        Ok(tagged())
    } else {
        Ok(bare())
    }
}

fn letter(drawing: &mut Drawing) -> char
    ensures letter { result ≡ (plain.letter drawing.old).value }
    ensures draws { drawing.new ≡ (plain.letter drawing.old).draws }
{
    (b'a' + drawing.draw(26) as u8) as char
}

#[tactic(auto, using(crate::proofs::MakingLemmas::letters_next))]
fn letters(alloc: Global, drawing: &mut Drawing) -> Result<Text<'static>, NoMemory>
    ensures text { IfOk result (λ t. t.characters ≡ (plain.draw_text drawing.old).value) }
    ensures draws { OnOk result (drawing.new ≡ (plain.draw_text drawing.old).draws) }
{
    let mut text = String::new(alloc);
    for _ in 0..drawing.draw(8) {
        push_char(&mut text, letter(drawing))?;
    }
    Ok(Text::owned(text))
}

fn scalar(alloc: Global, drawing: &mut Drawing, props: Props) -> Result<Tree, NoMemory>
    ensures tree { IfOk result (λ t. plain_tree t ≡ (plain.scalar_made (properties_of props) drawing.old).value) }
    ensures draws { OnOk result (drawing.new ≡ (plain.scalar_made (properties_of props) drawing.old).draws) }
{
    Ok(Tree::Scalar(props, letters(alloc, drawing)?))
}

#[cycle(making)]
fn sequence(
    alloc: Global,
    drawing: &mut Drawing,
    levels: u32,
    props: Props,
) -> Result<Tree, NoMemory>
    ensures tree { IfOk result (λ t. plain_tree t
        ≡ (plain.sequence_made (plain.node_made levels) (properties_of props) drawing.old).value) }
    ensures draws { OnOk result (drawing.new
        ≡ (plain.sequence_made (plain.node_made levels) (properties_of props) drawing.old).draws) }
{
    let count = drawing.draw(4);
    Ok(Tree::Sequence(props, entries(alloc, drawing, levels, count)?))
}

#[cycle(making)]
fn mapping(
    alloc: Global,
    drawing: &mut Drawing,
    levels: u32,
    props: Props,
) -> Result<Tree, NoMemory>
    ensures tree { IfOk result (λ t. plain_tree t
        ≡ (plain.mapping_made (plain.node_made levels) (properties_of props) drawing.old).value) }
    ensures draws { OnOk result (drawing.new
        ≡ (plain.mapping_made (plain.node_made levels) (properties_of props) drawing.old).draws) }
{
    let count = drawing.draw(4);
    Ok(Tree::Mapping(props, pairs(alloc, drawing, levels, count)?))
}

#[cycle(making)]
#[tactic(auto, using(crate::proofs::MakingLemmas::entries_next))]
fn entries(
    alloc: Global,
    drawing: &mut Drawing,
    levels: u32,
    count: u32,
) -> Result<TreeList, NoMemory>
    ensures trees { IfOk result (λ ts. ts ≡ (plain.entries_made (plain.node_made levels) count drawing.old).value) }
    ensures draws { OnOk result (drawing.new
        ≡ (plain.entries_made (plain.node_made levels) count drawing.old).draws) }
{
    let mut list = TreeList::new(alloc);
    for _ in 0..count {
        let entry = node(alloc, drawing, levels)?;
        add(&mut list, entry)?;
    }
    Ok(list)
}

#[cycle(making)]
#[tactic(auto, using(crate::proofs::MakingLemmas::pairs_next))]
fn pairs(
    alloc: Global,
    drawing: &mut Drawing,
    levels: u32,
    count: u32,
) -> Result<PairList, NoMemory>
    ensures pairs { IfOk result (λ ps. ps ≡ (plain.pairs_made (plain.node_made levels) count drawing.old).value) }
    ensures draws { OnOk result (drawing.new ≡ (plain.pairs_made (plain.node_made levels) count drawing.old).draws) }
{
    let mut list = PairList::new(alloc);
    for _ in 0..count {
        let key = node(alloc, drawing, levels)?;
        let value = node(alloc, drawing, levels)?;
        add_pair(&mut list, key, value)?;
    }
    Ok(list)
}

#[cycle(making)]
fn shaped(
    alloc: Global,
    drawing: &mut Drawing,
    levels: u32,
    drawn: u32,
    props: Props,
) -> Result<Tree, NoMemory>
    ensures tree { IfOk result (λ t. plain_tree t ≡ (plain.shape_made (plain.shape drawn) (plain.node_made levels)
        (properties_of props) drawing.old).value) }
    ensures draws { OnOk result (drawing.new ≡ (plain.shape_made (plain.shape drawn) (plain.node_made levels)
        (properties_of props) drawing.old).draws) }
{
    if drawn < 4 {
        scalar(alloc, drawing, props)
    } else if drawn < 6 {
        sequence(alloc, drawing, levels, props)
    } else {
        mapping(alloc, drawing, levels, props)
    }
}

#[cycle(making)]
#[tactic(auto, using(crate::proofs::MakingLemmas::content_leaf, crate::proofs::MakingLemmas::content_above))]
fn content(
    alloc: Global,
    drawing: &mut Drawing,
    levels: u32,
    props: Props,
) -> Result<Tree, NoMemory>
    ensures tree { IfOk result (λ t. plain_tree t
        ≡ (plain.content_drawn levels (properties_of props) drawing.old).value) }
    ensures draws { OnOk result (drawing.new ≡ (plain.content_drawn levels (properties_of props) drawing.old).draws) }
{
    let drawn = drawing.draw(8);
    if levels == 0 {
        scalar(alloc, drawing, props)
    } else {
        shaped(alloc, drawing, levels - 1, drawn, props)
    }
}

#[cycle(making)]
fn node(alloc: Global, drawing: &mut Drawing, levels: u32) -> Result<Tree, NoMemory>
    ensures tree { IfOk result (λ t. plain_tree t ≡ (plain.node_made levels drawing.old).value) }
    ensures draws { OnOk result (drawing.new ≡ (plain.node_made levels drawing.old).draws) }
{
    match begin(alloc, drawing)? {
        Beginning::Alias(name) => Ok(Tree::Alias(name)),
        Beginning::Node(props) => content(alloc, drawing, levels, props),
    }
}

fn add(list: &mut TreeList, tree: Tree) -> Result<(), NoMemory>
    ensures { OnOk result (list.new ≡ AfterTrees list.old (plain_tree tree)) }
{
    list.push(tree).or(Err(NoMemory))
}

fn add_pair(list: &mut PairList, key: Tree, value: Tree) -> Result<(), NoMemory>
    ensures { OnOk result (list.new ≡ AfterPairs list.old (plain_tree key) (plain_tree value)) }
{
    list.push((key, value)).or(Err(NoMemory))
}

/// `size` documents that are drawn from a number, always the same from the same: each at most six collections deep,
/// with aliases, anchors, tags and scalars of letters.
///
/// # Errors
///
/// `NoMemory` alone.
#[tactic(auto, using(crate::proofs::MakingLemmas::documents_next))]
pub fn trees_from(alloc: Global, seed: u32, size: u32) -> Result<TreeList, NoMemory>
    ensures trees { IfOk result (λ ts. ts ≡ plain.trees_made seed size) }
    ensures fit { IfOk result DocumentsFit }
    ensures depth { IfOk result (λ ts. trees_depth ts ≤ 6) }
{
    let mut drawing = Drawing::new(seed);
    let mut trees = TreeList::new(alloc);
    for _ in 0..size {
        drawing.start_document();
        let root = node(alloc, &mut drawing, LEVELS)?;
        add(&mut trees, root)?;
    }
    Ok(trees)
}
