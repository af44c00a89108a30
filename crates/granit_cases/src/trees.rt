//! The canonical texts of trees: a seed and how many documents.
use crate::lines::{push_events, text_of};
use anyhow::{Context, Result};
use granit_base::{NoMemory, Span, Text};
use granit_error::{Options, ScanError};
use granit_event::Event;
use granit_generator::{block_text, trees_from};
use granit_load::{Events, load_str};
use granit_model::flow_text;
use std::alloc::Global;

/// The seed and the number of documents that a case says.
fn asked(case: &str) -> Result<(u32, u32)> {
    let (seed, size) = case.split_once(' ').context("a case is two numbers")?;
    let seed = seed.parse().ok().context("a seed is a number")?;
    let size = size.parse().ok().context("a size is a number")?;
    Ok((seed, size))
}

/// Whether two events are the same but for the style of a collection.
fn is_alike(one: &Event<'_>, other: &Event<'_>) -> bool {
    match (one, other) {
        (Event::SequenceStart(_, anchor, tag), Event::SequenceStart(_, same, other_tag))
        | (Event::MappingStart(_, anchor, tag), Event::MappingStart(_, same, other_tag)) => {
            anchor == same && tag == other_tag
        }
        _ => one == other,
    }
}

/// Whether the events of two texts are the same but for the styles of collections and for places.
fn are_alike(one: &[(Event<'_>, Span)], other: &[(Event<'_>, Span)]) -> bool {
    one.len() == other.len() && one.iter().zip(other).all(|(a, b)| is_alike(&a.0, &b.0))
}

/// The canonical flow text and the canonical block text of the trees that are made from two numbers.
fn both_texts(
    alloc: Global,
    seed: u32,
    size: u32,
) -> Result<(Text<'static>, Text<'static>), NoMemory> {
    let trees = trees_from(alloc, seed, size)?;
    Ok((flow_text(alloc, &trees)?, block_text(alloc, &trees)?))
}

/// The lines of both lists of events, and whether these are alike.
fn both_lines(
    alloc: Global,
    flow: &[(Event<'_>, Span)],
    block: &[(Event<'_>, Span)],
) -> Result<String> {
    let alike = if are_alike(flow, block) {
        "alike"
    } else {
        "not alike"
    };
    let mut out = Vec::new(alloc);
    push_events(&mut out, flow)?;
    push_events(&mut out, block)?;
    out.extend_from_slice(alike.as_bytes())?;
    text_of(alloc, &out)
}

/// What a text in blocks is read as, or its fault.
trait Blocks {
    /// The lines of the events of a text in flow and of these, and whether they are alike.
    fn behind(&self, alloc: Global, flow: &[(Event<'_>, Span)]) -> Result<String>;
}

impl<'a> Blocks for Result<Events<'a>, ScanError> {
    fn behind(&self, alloc: Global, flow: &[(Event<'_>, Span)]) -> Result<String> {
        match self {
            Ok(block) => both_lines(alloc, flow, block.as_slice()),
            Err(_) => None.context("the texts of trees are read"),
        }
    }
}

/// The same of what is let go here, which is cheap to prove in a generic function.
fn behind<B: Blocks + Drop>(alloc: Global, flow: &[(Event<'_>, Span)], block: B) -> Result<String> {
    block.behind(alloc, flow)
}

/// What a text in flow is read as, or its fault.
trait Flow {
    /// The lines of these events and of those of a text in blocks, and whether they are alike.
    fn before(&self, alloc: Global, block: &str) -> Result<String>;
}

impl<'a> Flow for Result<Events<'a>, ScanError> {
    fn before(&self, alloc: Global, block: &str) -> Result<String> {
        match self {
            Ok(flow) => {
                let flow = flow.as_slice();
                behind(alloc, flow, load_str(alloc, block, Options::default()))
            }
            Err(_) => None.context("the texts of trees are read"),
        }
    }
}

/// The same of what is let go here.
fn before<F: Flow + Drop>(alloc: Global, flow: F, block: &str) -> Result<String> {
    flow.before(alloc, block)
}

/// What is printed of two texts.
fn compared(alloc: Global, flow: &str, block: &str) -> Result<String> {
    before(alloc, load_str(alloc, flow, Options::default()), block)
}

/// The events of the canonical flow text and of the canonical block text, and whether these are alike but for the
/// styles of collections and for places.
pub fn answer(alloc: Global, case: &str) -> Result<String> {
    let (seed, size) = asked(case)?;
    let texts = both_texts(alloc, seed, size);
    match &texts {
        Ok((flow, block)) => compared(alloc, flow.as_str(), block.as_str()),
        Err(_) => None.context("no memory for texts"),
    }
}
