//! Events.
ghost use Rattle.std.specs.Prelude.{◌≡◌, IfOk, IsOk, None};
ghost use Rattle.std.specs.Option.{option_copied};
ghost use Rattle.granit_event.specs.Events.{event_kind};
ghost use Rattle.granit_event.specs.Helpers.{anchor_unless_zero as numbered_of, anchor_of, alias_of, is_alias_kind};
ghost use Rattle.granit_event.specs.Helpers.{event_tag, event_scalar, scalar_told, is_node_kind, EventCopyTakesNone};

use crate::tag::Tag;
use granit_base::{NoMemory, Placement, ScalarStyle, Span, StructureStyle, Text};
use std::alloc::Global;

/// A version of YAML that a directive names (YAML 1.2.2, 6.8.1).
#[derive(Clone, Copy, Debug, PartialEq, Eq, Hash)]
pub struct YamlVersion {
    /// The number before the dot.
    pub major: u32,
    /// The number behind the dot.
    pub minor: u32,
}

impl YamlVersion {
    /// The version of these two numbers.
    pub fn new(major: u32, minor: u32) -> YamlVersion
        ensures { result ≡ record { major = major; minor = minor } }
    {
        YamlVersion { major, minor }
    }
}

/// What a stream of documents is made of (YAML 1.2.2, 3.1). Anchors have numbers from 1 on, and a
/// node without an anchor has the number 0.
#[derive(Debug, Drop, PartialEq, Eq)]
pub enum Event<'input> {
    /// The start of the text.
    StreamStart,
    /// The end of the text.
    StreamEnd,
    /// The start of a document: whether `---` was written, and the version that a directive names
    /// (YAML 1.2.2, 9.1).
    DocumentStart(bool, Option<YamlVersion>),
    /// The end of a document (YAML 1.2.2, 9.1.2).
    DocumentEnd,
    /// The node that the anchor of that number names (YAML 1.2.2, 7.1).
    Alias(usize),
    /// An anchor by its number and name, told beside the node that has it (YAML 1.2.2, 6.9.2).
    Anchor(usize, Text<'input>),
    /// An alias by its name, which no anchor has (YAML 1.2.2, 7.1).
    UnresolvedAlias(Text<'input>),
    /// A comment without its `#`, and where it stands (YAML 1.2.2, 6.6).
    Comment(Text<'input>, Placement),
    /// A scalar by its value, how it is written, its anchor and its tag (YAML 1.2.2, 7.3 and 8.1).
    Scalar(Text<'input>, ScalarStyle, usize, Option<Tag>),
    /// The start of a sequence, how it is written, its anchor and its tag (YAML 1.2.2, 7.4.1 and
    /// 8.2.1).
    SequenceStart(StructureStyle, usize, Option<Tag>),
    /// The end of a sequence.
    SequenceEnd,
    /// The start of a mapping, how it is written, its anchor and its tag (YAML 1.2.2, 7.4.2 and
    /// 8.2.2).
    MappingStart(StructureStyle, usize, Option<Tag>),
    /// The end of a mapping.
    MappingEnd,
}

// A list that doubles its room holds up to three halves of 8,388,608 events at once, in 4 GB.
const _: () = prove!(size_of::<(Event<'static>, Span)>() <= 240);

/// The number of an anchor that is there.
fn numbered(anchor: usize) -> Option<usize>
    ensures { result ≡ numbered_of anchor }
{
    if anchor == 0 { None } else { Some(anchor) }
}

impl<'input> Event<'input> {
    /// The number of the anchor that it bears, and `None` where that is 0.
    pub fn anchor_id(&self) -> Option<usize>
        ensures { result ≡ anchor_of (event_kind self.now) }
    {
        match self {
            Event::Anchor(anchor, _) => numbered(*anchor),
            Event::Scalar(_, _, anchor, _) => numbered(*anchor),
            Event::SequenceStart(_, anchor, _) => numbered(*anchor),
            Event::MappingStart(_, anchor, _) => numbered(*anchor),
            _ => None,
        }
    }

    /// The number of the anchor that an alias names.
    pub fn alias_id(&self) -> Option<usize>
        ensures { result ≡ alias_of (event_kind self.now) }
    {
        match self {
            Event::Alias(anchor) => Some(*anchor),
            _ => None,
        }
    }

    /// Whether it is an alias, of an anchor that is there or isn't.
    pub fn is_alias(&self) -> bool
        ensures { result ≡ is_alias_kind (event_kind self.now) }
    {
        matches!(self, Event::Alias(_) | Event::UnresolvedAlias(_))
    }

    /// The tag of a node.
    pub fn tag(&self) -> Option<&Tag>
        ensures { option_copied result ≡ event_tag (event_kind self.now) }
    {
        match self {
            Event::Scalar(_, _, _, tag) => tag.as_ref(),
            Event::SequenceStart(_, _, tag) => tag.as_ref(),
            Event::MappingStart(_, _, tag) => tag.as_ref(),
            _ => None,
        }
    }

    /// The value of a scalar, and how it is written.
    pub fn scalar(&self) -> Option<(&str, ScalarStyle)>
        ensures { scalar_told result ≡ event_scalar (event_kind self.now) }
    {
        match self {
            Event::Scalar(text, style, _, _) => Some((text.as_str(), *style)),
            _ => None,
        }
    }

    /// Whether it is an alias, a scalar, or the start of a sequence or a mapping.
    pub fn is_node(&self) -> bool
        ensures { result ≡ is_node_kind (event_kind self.now) }
    {
        matches!(
            self,
            Event::Alias(_)
                | Event::UnresolvedAlias(_)
                | Event::Scalar(_, _, _, _)
                | Event::SequenceStart(_, _, _)
                | Event::MappingStart(_, _, _)
        )
    }

    /// An equal event, whose texts are borrowed exactly where this one's are.
    ///
    /// # Errors
    ///
    /// `NoMemory` alone.
    pub fn try_clone(&self, alloc: Global) -> Result<Event<'input>, NoMemory>
        ensures value { IfOk result (λ e. e ≡ self.now) }
        ensures memory { EventCopyTakesNone (event_kind self.now) → IsOk result }
    {
        Ok(match self {
            Event::StreamStart => Event::StreamStart,
            Event::StreamEnd => Event::StreamEnd,
            Event::DocumentStart(explicit, version) => Event::DocumentStart(*explicit, *version),
            Event::DocumentEnd => Event::DocumentEnd,
            Event::Alias(anchor) => Event::Alias(*anchor),
            Event::Anchor(anchor, name) => Event::Anchor(*anchor, name.try_clone(alloc)?),
            Event::UnresolvedAlias(name) => Event::UnresolvedAlias(name.try_clone(alloc)?),
            Event::Comment(text, placement) => Event::Comment(text.try_clone(alloc)?, *placement),
            Event::Scalar(text, style, anchor, tag) => Event::Scalar(
                text.try_clone(alloc)?,
                *style,
                *anchor,
                clone_tag(tag, alloc)?,
            ),
            Event::SequenceStart(style, anchor, tag) => {
                Event::SequenceStart(*style, *anchor, clone_tag(tag, alloc)?)
            }
            Event::SequenceEnd => Event::SequenceEnd,
            Event::MappingStart(style, anchor, tag) => {
                Event::MappingStart(*style, *anchor, clone_tag(tag, alloc)?)
            }
            Event::MappingEnd => Event::MappingEnd,
        })
    }
}

fn clone_tag(tag: &Option<Tag>, alloc: Global) -> Result<Option<Tag>, NoMemory>
    ensures value { IfOk result (λ t. t ≡ tag.now) }
    ensures memory { tag.now ≡ None → IsOk result }
{
    match tag {
        None => Ok(None),
        Some(tag) => Ok(Some(tag.try_clone(alloc)?)),
    }
}
