//! How a node's first event bears the node's properties.
ghost use Rattle.std.specs.Prelude.{◌≡◌, ◌-◌, None};
ghost use Rattle.std.specs.Option.{option_map};
ghost use Rattle.granit_base.specs.Written.{lent};
ghost use Rattle.granit_base.specs.declared.style.ScalarStyle.TheVariants.{Plain};
ghost use Rattle.granit_event.specs.Events.{event_kind};
ghost use Rattle.granit_lexemes.specs.PlainEvent as plain;
ghost use Rattle.granit_machine.specs.Giving as giving;
ghost use Rattle.granit_machine.specs.NodeEnds as ends;
ghost use Rattle.granit_node_properties.specs.PropertyViews.{anchor_view, tag_view, bears};

use crate::properties::{NodeAnchor, NodeTag};
use granit_base::{Marker, ScalarStyle, Span, Text};
use granit_event::{Event, Tag};

/// An empty node (YAML 1.2.2, 7.2).
pub fn null_event<'input>() -> Event<'input>
    ensures { event_kind result ≡ giving.null_kind }
{
    Event::Scalar(Text::borrowed("~"), ScalarStyle::Plain, 0, None)
}

/// The empty node of a tag.
pub fn null_of<'input>(tag: &Option<NodeTag>) -> Event<'input>
    ensures { event_kind result
        ≡ plain.Scalar (lent (ends.null_text (option_map tag_view tag.now))) Plain 0 None }
{
    match tag {
        None => null_event(),
        Some(_) => Event::Scalar(Text::borrowed(""), ScalarStyle::Plain, 0, None),
    }
}

/// The number of its anchor and its tag stand in a node's event.
#[inline(always)]
pub fn bear(event: &mut Event<'_>, number: usize, tag: Option<Tag>)
    ensures { event_kind event.new ≡ bears (event_kind event.old) number tag }
{
    // in place: taken apart and made anew, an event is copied in each of thirteen arms
    match event {
        Event::Scalar(_, _, anchor, _) => *anchor = number,
        Event::SequenceStart(_, anchor, _) => *anchor = number,
        Event::MappingStart(_, anchor, _) => *anchor = number,
        Event::StreamStart => {}
        Event::StreamEnd => {}
        Event::DocumentStart(_, _) => {}
        Event::DocumentEnd => {}
        Event::Alias(_) => {}
        Event::Anchor(_, _) => {}
        Event::UnresolvedAlias(_) => {}
        Event::Comment(_, _) => {}
        Event::SequenceEnd => {}
        Event::MappingEnd => {}
    }
    match event {
        Event::Scalar(_, _, _, place) => *place = tag,
        Event::SequenceStart(_, _, place) => *place = tag,
        Event::MappingStart(_, _, place) => *place = tag,
        Event::StreamStart => {}
        Event::StreamEnd => {}
        Event::DocumentStart(_, _) => {}
        Event::DocumentEnd => {}
        Event::Alias(_) => {}
        Event::Anchor(_, _) => {}
        Event::UnresolvedAlias(_) => {}
        Event::Comment(_, _) => {}
        Event::SequenceEnd => {}
        Event::MappingEnd => {}
    }
}

/// The number of a node's anchor, 0 where it has none.
pub fn anchor_number(anchor: &Option<NodeAnchor<'_>>) -> usize
    ensures { result ≡ giving.anchor_number (option_map anchor_view anchor.now) }
{
    match anchor {
        None => 0,
        Some(anchor) => anchor.number,
    }
}

/// The tag of a node, if it has one.
pub fn tag_value(tag: Option<NodeTag>) -> Option<Tag>
    ensures { result ≡ giving.tag_value (option_map tag_view tag) }
{
    match tag {
        None => None,
        Some(tag) => Some(tag.tag),
    }
}

/// How many characters a span says that a tag has: 0 where 32 bits are too few.
fn told_length(start: Marker, end: Marker) -> u32
    ensures { result ≡ plain.told_length (end.place.index - start.place.index) }
{
    let length = end.index().saturating_sub(start.index());
    if length <= u32::MAX as usize {
        length as u32
    } else {
        0
    }
}

/// The same span with the place of a node's tag.
pub fn span_with_tag(
    tag: &Option<NodeTag>,
    start: Marker,
    end: Marker,
    indent: Option<usize>,
) -> Span
    ensures { result ≡ giving.span_with_tag (option_map tag_view tag.now) (record { start = start; end = end }) indent }
{
    let span = Span::new(start, end).with_indent(indent);
    match tag {
        None => span,
        Some(tag) => span.with_tag_span(Some((tag.start, told_length(tag.start, tag.end)))),
    }
}
