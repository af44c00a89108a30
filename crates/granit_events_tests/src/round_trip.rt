//! Trees are written and read back: each call gives what the next one asks for, so that nothing but memory can be
//! wanting.
ghost use Rattle.std.specs.Prelude.{◌≡◌, IfErr};
ghost use Rattle.granit_error.specs.FaultKind.{NoMemory as OutOfMemory};

use crate::agree::agree;
use granit_base::{ScalarStyle, Span, StructureStyle, Text};
use granit_error::{Options, ScanError};
use granit_event::Event;
use granit_load::load_str;
use granit_model::{PairList, Props, Tree, TreeList, depth, fits, flow_text};
use std::alloc::Global;

/// The letter of an event, and where it begins and ends in characters.
type Seen = (char, usize, usize);

/// A scalar's letter is `e` where its text is `é`, and `=` else.
fn letter(event: &Event<'_>) -> char {
    match event {
        Event::StreamStart => 'S',
        Event::StreamEnd => 's',
        Event::DocumentStart(true, None) => 'D',
        Event::DocumentEnd => 'd',
        Event::Scalar(text, ScalarStyle::DoubleQuoted, 0, None) if text.as_str() == "é" => 'e',
        Event::Scalar(_, ScalarStyle::DoubleQuoted, 0, None) => '=',
        Event::Alias(1) => '*',
        Event::SequenceStart(StructureStyle::Flow, 0, None) => '[',
        Event::SequenceEnd => ']',
        Event::MappingStart(StructureStyle::Flow, 1, Some(_)) => '{',
        Event::MappingEnd => '}',
        _ => '?',
    }
}

/// Whether these are the events, one by one.
fn are_these(events: &[(Event<'_>, Span)], wanted: &[Seen]) -> bool {
    if events.len() != wanted.len() {
        return false;
    }
    let mut same = true;
    for ((event, span), seen) in events.iter().zip(wanted) {
        same = same && (letter(event), span.start.index(), span.end.index()) == *seen;
    }
    same
}

/// Whether documents that fit, no deeper than allowed, are read back from their text with these events.
fn read_back(alloc: Global, trees: &TreeList, wanted: &[Seen]) -> Result<bool, ScanError>
    ensures memory { IfErr result (λ e. e.kind ≡ OutOfMemory) }
{
    if !fits(trees) || depth(trees) > 255 {
        return Ok(false);
    }
    let text = flow_text(alloc, trees)?;
    let events = load_str(alloc, text.as_str(), Options::default())?;
    Ok(are_these(events.as_slice(), wanted))
}

fn plain() -> Props {
    Props {
        tag: None,
        anchor: None,
    }
}

fn scalar(text: &'static str) -> Tree {
    Tree::Scalar(plain(), Text::borrowed(text))
}

/// One more tree, where there is room.
fn more(list: TreeList, tree: Tree) -> TreeList {
    let mut list = list;
    let _ = list.push(tree).ok();
    list
}

fn two(alloc: Global, first: Tree, second: Tree) -> TreeList {
    more(more(TreeList::new(alloc), first), second)
}

/// `? "é" : *n`
fn pairs(alloc: Global) -> PairList {
    let mut pairs = PairList::new(alloc);
    let pair = (scalar("é"), Tree::Alias(Text::borrowed("n")));
    let _ = pairs.push(pair).ok();
    pairs
}

/// `!<x> &n {? "é" : *n}`
fn mapping(alloc: Global) -> Tree {
    let props = Props {
        tag: Some(Text::borrowed("x")),
        anchor: Some(Text::borrowed("n")),
    };
    Tree::Mapping(props, pairs(alloc))
}

fn empty(alloc: Global) -> Tree {
    Tree::Sequence(plain(), TreeList::new(alloc))
}

/// `["a", []]`
fn sequence(alloc: Global) -> Tree {
    Tree::Sequence(plain(), two(alloc, scalar("a"), empty(alloc)))
}

/// `--- !<x> &n {? "é" : *n}` and `--- ["a", []]`, where the first scalar is written as `"\xE9"`.
fn documents(alloc: Global) -> TreeList {
    two(alloc, mapping(alloc), sequence(alloc))
}

/// Whether these documents are read back with these events.
fn are_read_back(alloc: Global, wanted: &[Seen]) -> Option<bool> {
    let trees = documents(alloc);
    read_back(alloc, &trees, wanted).ok()
}

#[test]
fn trees_are_read_back(rt: HostRuntime) {
    let wanted = [
        ('S', 0, 0),
        ('D', 0, 3),
        ('{', 12, 13),
        ('e', 15, 21),
        ('*', 24, 26),
        ('}', 26, 27),
        ('d', 27, 27),
        ('D', 28, 31),
        ('[', 32, 33),
        ('=', 33, 36),
        ('[', 38, 39),
        (']', 39, 40),
        (']', 40, 41),
        ('d', 41, 41),
        ('s', 42, 42),
    ];
    agree(&rt, are_read_back(rt.alloc(), &wanted), Some(true));
}
