//! The canonical flow text of trees. The walk is plain recursion, so the call stack bounds the depth.
ghost use Rattle.std.specs.Prelude.{◌≡◌, ◌<◌, ◌∷◌, ◌++◌, IfOk, IfSome, OnOk, false};
ghost use Rattle.std.specs.Option.{option_map};
ghost use Rattle.std.specs.Str.{chars, encode_utf8_all};
ghost use Rattle.granit_model.specs.Characters.{AreCharacters, HasCharacters, PairsHaveCharacters};
ghost use Rattle.granit_model.specs.Characters.{PropertiesHaveCharacters, TreeHasCharacters};
ghost use Rattle.granit_model.specs.Tree.{DocumentsFit, AliasOf, ScalarOf};
ghost use Rattle.granit_model.specs.FlowText as flow;
ghost use Rattle.granit_model.specs.FlowText.{Appends};
ghost use Rattle.granit_model.specs.TreeView.{plain_tree, properties_of};

use crate::tree::{PairList, Props, Tree, TreeList};
use granit_base::{NoMemory, Text, is_word_char, push_char, push_text};
use std::alloc::Global;

fn push(out: &mut String, c: char) -> Result<(), NoMemory>
    ensures { OnOk result (Appends out.old out.new (λ rest. c ∷ rest)) }
{
    push_char(out, c)
}

fn push_two(out: &mut String, first: char, second: char) -> Result<(), NoMemory>
    ensures { OnOk result (Appends out.old out.new (λ rest. first ∷ second ∷ rest)) }
{
    push(out, first)?;
    push(out, second)
}

#[tactic(auto, using(crate::proofs::TextLemmas::characters_of))]
fn push_name(out: &mut String, name: &str) -> Result<(), NoMemory>
    ensures written { OnOk result (Appends out.old out.new (λ rest. chars name.now ++ rest)) }
    ensures characters { OnOk result (AreCharacters (chars name.now)) }
{
    push_text(out, name)
}

#[tactic(auto, unfolding(crate::specs::FlowText::upper_digit))]
fn upper_digit(digit: u8) -> char
    requires { digit < 16 }
    ensures { result ≡ flow.upper_digit digit }
{
    if digit < 10 {
        (digit + 0x30) as char
    } else {
        (digit + 0x37) as char
    }
}

fn push_two_digits(out: &mut String, n: u8) -> Result<(), NoMemory>
    ensures { OnOk result (Appends out.old out.new (flow.two_digits n)) }
{
    push_two(out, upper_digit(n / 16), upper_digit(n % 16))
}

fn push_four_digits(out: &mut String, n: u16) -> Result<(), NoMemory>
    ensures { OnOk result (Appends out.old out.new (flow.four_digits n)) }
{
    push_two_digits(out, (n / 0x100) as u8)?;
    push_two_digits(out, (n % 0x100) as u8)
}

fn push_eight_digits(out: &mut String, n: u32) -> Result<(), NoMemory>
    ensures { OnOk result (Appends out.old out.new (flow.eight_digits n)) }
{
    push_four_digits(out, (n / 0x10000) as u16)?;
    push_four_digits(out, (n % 0x10000) as u16)
}

#[tactic(auto, unfolding(crate::specs::FlowText::tag_byte))]
fn push_tag_byte(out: &mut String, b: u8) -> Result<(), NoMemory>
    ensures { OnOk result (Appends out.old out.new (flow.tag_byte b)) }
{
    if is_word_char(b as char) || matches!(b, b':' | b',' | b'.' | b'/') {
        push(out, b as char)
    } else {
        push(out, '%')?;
        push_two_digits(out, b)
    }
}

#[tactic(auto, unfolding(crate::specs::FlowText::quoted_character))]
fn push_quoted_character(out: &mut String, c: char) -> Result<(), NoMemory>
    ensures { OnOk result (Appends out.old out.new (flow.quoted_character c)) }
{
    let n = c as u32;
    if c == '"' || c == '\\' {
        push_two(out, '\\', c)
    } else if matches!(c, ' '..='~') {
        push(out, c)
    } else if n <= 0xFF {
        push_two(out, '\\', 'x')?;
        push_two_digits(out, n as u8)
    } else if n <= 0xFFFF {
        push_two(out, '\\', 'u')?;
        push_four_digits(out, n as u16)
    } else {
        push_two(out, '\\', 'U')?;
        push_eight_digits(out, n)
    }
}

/// Appends the bytes of a tag, those that aren't word characters or `:`, `,`, `.` or `/` by their number.
///
/// # Errors
///
/// `NoMemory` alone.
#[tactic(auto, using(crate::proofs::TextLemmas::characters_of))]
pub fn push_tag_bytes(out: &mut String, tag: &str) -> Result<(), NoMemory>
    ensures written { OnOk result (Appends out.old out.new (flow.tag_bytes (encode_utf8_all (chars tag.now)))) }
    ensures characters { OnOk result (AreCharacters (chars tag.now)) }
{
    for b in tag.as_bytes() {
        push_tag_byte(out, *b)?;
    }
    Ok(())
}

#[tactic(auto, using(crate::proofs::TextLemmas::characters_of))]
fn push_quoted_characters(out: &mut String, text: &str) -> Result<(), NoMemory>
    ensures written { OnOk result (Appends out.old out.new (flow.quoted_characters (chars text.now))) }
    ensures characters { OnOk result (AreCharacters (chars text.now)) }
{
    for c in text.chars() {
        push_quoted_character(out, c)?;
    }
    Ok(())
}

fn push_tag(out: &mut String, tag: &Option<Text<'static>>) -> Result<(), NoMemory>
    ensures written { OnOk result (Appends out.old out.new (flow.tag_text (option_map (λ t. t.characters) tag.now))) }
    ensures characters { OnOk result (IfSome (option_map (λ t. t.characters) tag.now) AreCharacters) }
{
    match tag {
        None => Ok(()),
        Some(tag) => {
            push_two(out, '!', '<')?;
            push_tag_bytes(out, tag.as_str())?;
            push_two(out, '>', ' ')
        }
    }
}

fn push_anchor(out: &mut String, anchor: &Option<Text<'static>>) -> Result<(), NoMemory>
    ensures written { OnOk result (Appends out.old out.new
        (flow.anchor_text (option_map (λ t. t.characters) anchor.now))) }
    ensures characters { OnOk result (IfSome (option_map (λ t. t.characters) anchor.now) AreCharacters) }
{
    match anchor {
        None => Ok(()),
        Some(name) => {
            push(out, '&')?;
            push_name(out, name.as_str())?;
            push(out, ' ')
        }
    }
}

fn push_properties(out: &mut String, props: &Props) -> Result<(), NoMemory>
    ensures written { OnOk result (Appends out.old out.new (flow.properties_text (properties_of props.now))) }
    ensures characters { OnOk result (PropertiesHaveCharacters (properties_of props.now)) }
{
    push_tag(out, &props.tag)?;
    push_anchor(out, &props.anchor)
}

fn push_comma_unless(out: &mut String, first: bool) -> Result<(), NoMemory>
    ensures { OnOk result (Appends out.old out.new (flow.comma_unless first)) }
{
    if first {
        Ok(())
    } else {
        push_two(out, ',', ' ')
    }
}

fn push_alias(out: &mut String, name: &Text<'static>) -> Result<(), NoMemory>
    ensures written { OnOk result (Appends out.old out.new (flow.tree_text (AliasOf name.now.characters))) }
    ensures characters { OnOk result (AreCharacters name.now.characters) }
{
    push(out, '*')?;
    push_name(out, name.as_str())
}

fn push_scalar(out: &mut String, props: &Props, text: &Text<'static>) -> Result<(), NoMemory>
    ensures written { OnOk result (Appends out.old out.new
        (flow.tree_text (ScalarOf (properties_of props.now) text.now.characters))) }
    ensures characters { OnOk result (TreeHasCharacters (ScalarOf (properties_of props.now) text.now.characters)) }
{
    push_properties(out, props)?;
    push(out, '"')?;
    push_quoted_characters(out, text.as_str())?;
    push(out, '"')
}

/// Appends a node in flow style, as it stands in `flow_text`.
///
/// # Errors
///
/// `NoMemory` alone.
#[cycle(writing)]
pub fn push_tree(out: &mut String, tree: &Tree) -> Result<(), NoMemory>
    ensures written { OnOk result (Appends out.old out.new (flow.tree_text (plain_tree tree.now))) }
    ensures characters { OnOk result (TreeHasCharacters (plain_tree tree.now)) }
{
    match tree {
        Tree::Alias(name) => push_alias(out, name),
        Tree::Scalar(props, text) => push_scalar(out, props, text),
        Tree::Sequence(props, entries) => {
            push_properties(out, props)?;
            push(out, '[')?;
            push_entries(out, entries)?;
            push(out, ']')
        }
        Tree::Mapping(props, pairs) => {
            push_properties(out, props)?;
            push(out, '{')?;
            push_pairs(out, pairs)?;
            push(out, '}')
        }
    }
}

#[cycle(writing)]
#[tactic(auto, using(crate::proofs::TreeLemmas::trees_more))]
fn push_entries(out: &mut String, entries: &TreeList) -> Result<(), NoMemory>
    ensures written { OnOk result (Appends out.old out.new (flow.entries_text entries.now)) }
    ensures characters { OnOk result (HasCharacters entries.now) }
{
    let mut first = true;
    for entry in &entries.trees {
        push_comma_unless(out, first)?;
        push_tree(out, entry)?;
        first = false;
    }
    Ok(())
}

#[cycle(writing)]
#[tactic(auto, using(crate::proofs::TreeLemmas::pairs_more))]
fn push_pairs(out: &mut String, pairs: &PairList) -> Result<(), NoMemory>
    ensures written { OnOk result (Appends out.old out.new (flow.pairs_text pairs.now)) }
    ensures characters { OnOk result (PairsHaveCharacters pairs.now) }
{
    let mut first = true;
    for pair in &pairs.pairs {
        push_comma_unless(out, first)?;
        push_pair(out, pair)?;
        first = false;
    }
    Ok(())
}

#[cycle(writing)]
fn push_pair(out: &mut String, pair: &(Tree, Tree)) -> Result<(), NoMemory>
    ensures written { OnOk result (Appends out.old out.new
        (flow.pair_text (plain_tree pair.now.0) (plain_tree pair.now.1))) }
    ensures characters { OnOk result (TreeHasCharacters (plain_tree pair.now.0)
        × TreeHasCharacters (plain_tree pair.now.1)) }
{
    push_two(out, '?', ' ')?;
    push_tree(out, &pair.0)?;
    push(out, ' ')?;
    push_two(out, ':', ' ')?;
    push_tree(out, &pair.1)
}

/// The canonical flow text of documents by their roots: each is `---`, a space, its root in flow
/// style with every scalar between double quotes, and a line feed (YAML 1.2.2, 7.3.1, 7.4 and 9.1.4).
///
/// # Errors
///
/// `NoMemory` alone.
#[tactic(auto, using(crate::proofs::TreeLemmas::trees_more))]
pub fn flow_text(alloc: Global, trees: &TreeList) -> Result<Text<'static>, NoMemory>
    requires { DocumentsFit trees.now }
    ensures written { IfOk result (λ t. t
        ≡ record { characters = flow.flow_characters trees.now; is_borrowed = false }) }
    ensures characters { OnOk result (HasCharacters trees.now) }
{
    let mut out = String::new(alloc);
    for root in &trees.trees {
        push_two(&mut out, '-', '-')?;
        push_two(&mut out, '-', ' ')?;
        push_tree(&mut out, root)?;
        push(&mut out, '\n')?;
    }
    Ok(Text::owned(out))
}
