//! Printed parts of lines, at the end of a buffer.
ghost use Rattle.std.specs.Prelude.{◌≡◌, ◌++◌, codes, Some, OnOk};
ghost use Rattle.std.specs.Fmt.{decimal};
ghost use Rattle.std.specs.Option.{option_map};
ghost use Rattle.std.specs.Str.{chars};
ghost use Rattle.granit_lexemes.specs.Line as line;
ghost use Rattle.granit_lexemes.specs.PlainEvent as plain;
ghost use Rattle.granit_event.specs.Events.{event_kind, plain_event, plain_version};

use crate::places::push_span;
use crate::quoting::push_in_quotes;
use granit_base::{NoMemory, Placement, ScalarStyle, Span, StructureStyle, Text};
use granit_event::{Event, Tag, YamlVersion};
use itoa::Buffer;

fn push_word(out: &mut Vec<u8>, word: &str) -> Result<(), NoMemory>
    ensures { OnOk result (out.new.items ≡ out.old.items ++ word.now) }
{
    out.extend_from_slice(word.as_bytes())?;
    Ok(())
}

/// A number in decimal digits.
fn push_number(out: &mut Vec<u8>, n: usize) -> Result<(), NoMemory>
    ensures { OnOk result (out.new.items ≡ out.old.items ++ decimal n) }
{
    let mut digits = Buffer::new();
    push_word(out, digits.format(n))
}

/// What stands in front of a scalar's text; words whose length is known are stored at once.
fn push_scalar_words(out: &mut Vec<u8>, style: ScalarStyle) -> Result<(), NoMemory>
    ensures { OnOk result (out.new.items
        ≡ out.old.items ++ ((codes "Scalar " ++ line.style_word style) ++ codes " ")) }
{
    match style {
        ScalarStyle::Plain => push_word(out, "Scalar plain "),
        ScalarStyle::SingleQuoted => push_word(out, "Scalar single "),
        ScalarStyle::DoubleQuoted => push_word(out, "Scalar double "),
        ScalarStyle::Literal => push_word(out, "Scalar literal "),
        ScalarStyle::Folded => push_word(out, "Scalar folded "),
    }
}

fn sequence_words(style: StructureStyle) -> &'static str
    ensures { result.now ≡ codes "SequenceStart " ++ line.structure_word style }
{
    match style {
        StructureStyle::Block => "SequenceStart block",
        StructureStyle::Flow => "SequenceStart flow",
    }
}

fn mapping_words(style: StructureStyle) -> &'static str
    ensures { result.now ≡ codes "MappingStart " ++ line.structure_word style }
{
    match style {
        StructureStyle::Block => "MappingStart block",
        StructureStyle::Flow => "MappingStart flow",
    }
}

fn explicit_word(explicit: bool) -> &'static str
    ensures { result.now ≡ line.explicit_word explicit }
{
    if explicit { "explicit" } else { "implicit" }
}

fn placement_word(placement: Placement) -> &'static str
    ensures { result.now ≡ line.placement_word placement }
{
    match placement {
        Placement::Above => "above",
        Placement::Right => "right",
        Placement::Free => "free",
        Placement::Last => "last",
    }
}

/// The version that a directive names, where there is one.
#[inline(never)]
fn push_version(out: &mut Vec<u8>, version: &Option<YamlVersion>) -> Result<(), NoMemory>
    ensures { OnOk result (out.new.items
        ≡ out.old.items ++ line.version_words (option_map plain_version version.now)) }
{
    if let Some(version) = version {
        push_word(out, " ")?;
        push_number(out, version.major as usize)?;
        push_word(out, ".")?;
        push_number(out, version.minor as usize)?;
    }
    Ok(())
}

/// The number of a node's anchor, where it has one.
#[inline(always)]
fn push_anchor(out: &mut Vec<u8>, anchor: usize) -> Result<(), NoMemory>
    ensures { OnOk result (out.new.items ≡ out.old.items ++ line.anchor_words anchor) }
{
    if anchor != 0 {
        push_word(out, " &")?;
        push_number(out, anchor)?;
    }
    Ok(())
}

/// A node's tag, where it has one.
#[inline(always)]
fn push_tag(out: &mut Vec<u8>, tag: &Option<Tag>) -> Result<(), NoMemory>
    ensures { OnOk result (out.new.items ≡ out.old.items ++ line.tag_words tag.now) }
{
    match tag {
        None => Ok(()),
        Some(tag) => push_tag_words(out, tag),
    }
}

#[inline(never)]
fn push_tag_words(out: &mut Vec<u8>, tag: &Tag) -> Result<(), NoMemory>
    ensures { OnOk result (out.new.items ≡ out.old.items ++ line.tag_words (Some tag.now)) }
{
    push_word(out, " !")?;
    push_in_quotes(out, tag.handle())?;
    push_word(out, " ")?;
    push_in_quotes(out, tag.suffix())
}

/// The anchor and the tag of a node, where it has them.
#[inline(always)]
fn push_properties(out: &mut Vec<u8>, anchor: usize, tag: &Option<Tag>) -> Result<(), NoMemory>
    ensures { OnOk result (out.new.items ≡ out.old.items ++ line.property_words anchor tag.now) }
{
    push_anchor(out, anchor)?;
    push_tag(out, tag)
}

fn push_scalar(
    out: &mut Vec<u8>,
    text: &Text,
    style: ScalarStyle,
    anchor: usize,
    tag: &Option<Tag>,
) -> Result<(), NoMemory>
    ensures { OnOk result (out.new.items
        ≡ out.old.items ++ line.event_words (plain.Scalar text.now style anchor tag.now)) }
{
    push_scalar_words(out, style)?;
    push_in_quotes(out, text.as_str())?;
    push_properties(out, anchor, tag)
}

/// The start of a collection.
#[inline(always)]
fn push_start(
    out: &mut Vec<u8>,
    words: &str,
    anchor: usize,
    tag: &Option<Tag>,
) -> Result<(), NoMemory>
    ensures { OnOk result (out.new.items ≡ out.old.items ++ (words.now ++ line.property_words anchor tag.now)) }
{
    push_word(out, words)?;
    push_properties(out, anchor, tag)
}

fn push_document_start(
    out: &mut Vec<u8>,
    explicit: bool,
    version: &Option<YamlVersion>,
) -> Result<(), NoMemory>
    ensures { OnOk result (out.new.items
        ≡ out.old.items ++ line.event_words
        (plain.DocumentStart explicit (option_map plain_version version.now))) }
{
    push_word(out, "DocumentStart ")?;
    push_word(out, explicit_word(explicit))?;
    push_version(out, version)
}

#[inline(never)]
fn push_alias(out: &mut Vec<u8>, anchor: usize) -> Result<(), NoMemory>
    ensures { OnOk result (out.new.items ≡ out.old.items ++ line.event_words (plain.Alias anchor)) }
{
    push_word(out, "Alias ")?;
    push_number(out, anchor)
}

/// An anchor that is told beside its node.
#[inline(never)]
fn push_named(out: &mut Vec<u8>, anchor: usize, name: &Text) -> Result<(), NoMemory>
    ensures { OnOk result (out.new.items
        ≡ out.old.items ++ line.event_words (plain.Anchor anchor name.now)) }
{
    push_word(out, "Anchor ")?;
    push_number(out, anchor)?;
    push_word(out, " ")?;
    push_in_quotes(out, name.as_str())
}

#[inline(never)]
fn push_unresolved(out: &mut Vec<u8>, name: &Text) -> Result<(), NoMemory>
    ensures { OnOk result (out.new.items
        ≡ out.old.items ++ line.event_words (plain.UnresolvedAlias name.now)) }
{
    push_word(out, "UnresolvedAlias ")?;
    push_in_quotes(out, name.as_str())
}

#[inline(never)]
fn push_comment(out: &mut Vec<u8>, text: &Text, placement: Placement) -> Result<(), NoMemory>
    ensures { OnOk result (out.new.items
        ≡ out.old.items ++ line.event_words (plain.Comment text.now placement)) }
{
    push_word(out, "Comment ")?;
    push_word(out, placement_word(placement))?;
    push_word(out, " ")?;
    push_in_quotes(out, text.as_str())
}

/// An event without its span.
pub fn push_event(out: &mut Vec<u8>, event: &Event) -> Result<(), NoMemory>
    ensures { OnOk result (out.new.items ≡ out.old.items ++ line.event_words (event_kind event.now)) }
{
    match event {
        Event::StreamStart => push_word(out, "StreamStart"),
        Event::StreamEnd => push_word(out, "StreamEnd"),
        Event::DocumentStart(explicit, version) => push_document_start(out, *explicit, version),
        Event::DocumentEnd => push_word(out, "DocumentEnd"),
        Event::Alias(anchor) => push_alias(out, *anchor),
        Event::Anchor(anchor, name) => push_named(out, *anchor, name),
        Event::UnresolvedAlias(name) => push_unresolved(out, name),
        Event::Comment(text, placement) => push_comment(out, text, *placement),
        Event::Scalar(text, style, anchor, tag) => push_scalar(out, text, *style, *anchor, tag),
        Event::SequenceStart(style, anchor, tag) => {
            push_start(out, sequence_words(*style), *anchor, tag)
        }
        Event::SequenceEnd => push_word(out, "SequenceEnd"),
        Event::MappingStart(style, anchor, tag) => {
            push_start(out, mapping_words(*style), *anchor, tag)
        }
        Event::MappingEnd => push_word(out, "MappingEnd"),
    }
}

/// The line of an event.
#[tactic(auto, unfolding(granit_lexemes::specs::Line::event_line))]
pub fn push_line(out: &mut Vec<u8>, event: &Event, span: &Span) -> Result<(), NoMemory>
    ensures { OnOk result (out.new.items
        ≡ out.old.items ++ line.event_line (plain_event (event.now, span.now))) }
{
    push_event(out, event)?;
    push_span(out, span)
}
