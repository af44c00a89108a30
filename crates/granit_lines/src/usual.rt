//! Events as most are: without properties, and with a short text.
ghost use Rattle.std.specs.Prelude.{◌≡◌, ◌+◌, ◌≤◌, ◌++◌, codes, length, take, true, None, IfSome};
ghost use Rattle.granit_lexemes.specs.Line as line;
ghost use Rattle.granit_lexemes.specs.PlainEvent as plain;
ghost use Rattle.granit_event.specs.Events.{event_kind};

use crate::numbers::put_eight;
use crate::quoted::put_quoted;
use crate::room::{put_byte, put_word};
use granit_base::{ScalarStyle, StructureStyle, Text};
use granit_event::{Event, Tag};

/// A usual text is no longer.
const SHORT: usize = 100;

/// A word of two parts, the second one behind so many bytes of the first; where it ends.
#[inline(always)]
fn put_parts(room: &mut [u8], at: usize, front: [u8; 8], back: [u8; 8], from: usize) -> usize
    requires room { at + 16 ≤ length room.old }
    requires from { from ≤ 8 }
    ensures end { result ≡ at + from + 8 }
    ensures put { take result room.new ≡ take at room.old ++ (take from front ++ back) }
{
    put_eight(room, at, front);
    put_eight(room, at + from, back);
    at + from + 8
}

/// What stands in front of a scalar's text, its quote too; where it ends.
#[inline(always)]
fn put_scalar_words(room: &mut [u8], at: usize, style: ScalarStyle) -> usize
    requires room { at + 20 ≤ length room.old }
    ensures end { (at ≤ result) × (result ≤ at + 20) }
    ensures put { take result room.new
        ≡ take at room.old ++ (((codes "Scalar " ++ line.style_word style) ++ codes " ") ++ codes "\"") }
{
    match style {
        ScalarStyle::Plain => put_parts(room, at, *b"Scalar p", *b" plain \"", 6),
        ScalarStyle::SingleQuoted => put_parts(room, at, *b"Scalar s", *b"single \"", 7),
        ScalarStyle::DoubleQuoted => put_parts(room, at, *b"Scalar d", *b"double \"", 7),
        ScalarStyle::Literal => put_parts(room, at, *b"Scalar l", *b"iteral \"", 8),
        ScalarStyle::Folded => put_parts(room, at, *b"Scalar f", *b"folded \"", 7),
    }
}

/// A scalar with a usual text; where it ends.
#[inline(always)]
fn put_scalar(room: &mut [u8], at: usize, text: &Text, style: ScalarStyle) -> Option<usize>
    requires room { at + 641 ≤ length room.old }
    ensures end { IfSome result (λ end. end ≤ at + 641) }
    ensures put { IfSome result (λ end. take end room.new
        ≡ take at room.old ++ line.event_words (plain.Scalar text.now style 0 None)) }
    ensures kept { result ≡ None → take at room.new ≡ take at room.old }
{
    let text = text.as_str();
    if text.len() > SHORT {
        return None;
    }
    let start = put_scalar_words(room, at, style);
    let end = put_quoted(room, start, text);
    Some(put_byte(room, end, b'"'))
}

/// The start of a sequence; where it ends.
#[inline(always)]
fn put_sequence(room: &mut [u8], at: usize, style: StructureStyle) -> usize
    requires room { at + 20 ≤ length room.old }
    ensures end { result ≤ at + 20 }
    ensures put { take result room.new
        ≡ take at room.old ++ line.event_words (plain.SequenceStart style 0 None) }
{
    match style {
        StructureStyle::Block => put_word(room, at, "SequenceStart block"),
        StructureStyle::Flow => put_word(room, at, "SequenceStart flow"),
    }
}

/// The start of a mapping; where it ends.
#[inline(always)]
fn put_mapping(room: &mut [u8], at: usize, style: StructureStyle) -> usize
    requires room { at + 20 ≤ length room.old }
    ensures end { result ≤ at + 20 }
    ensures put { take result room.new
        ≡ take at room.old ++ line.event_words (plain.MappingStart style 0 None) }
{
    match style {
        StructureStyle::Block => put_word(room, at, "MappingStart block"),
        StructureStyle::Flow => put_word(room, at, "MappingStart flow"),
    }
}

/// Whether a node has no properties.
#[inline(always)]
fn is_unmarked(anchor: usize, tag: &Option<Tag>) -> bool
    ensures { result ≡ true → (anchor ≡ 0) × (tag.now ≡ None) }
{
    anchor == 0 && tag.is_none()
}

/// A usual event without its span, behind so many bytes; where it ends.
#[inline(always)]
pub fn put_usual(room: &mut [u8], at: usize, event: &Event) -> Option<usize>
    requires room { at + 641 ≤ length room.old }
    ensures end { IfSome result (λ end. end ≤ at + 641) }
    ensures put { IfSome result (λ end. take end room.new
        ≡ take at room.old ++ line.event_words (event_kind event.now)) }
    ensures kept { result ≡ None → take at room.new ≡ take at room.old }
{
    match event {
        Event::Scalar(text, style, anchor, tag) if is_unmarked(*anchor, tag) => {
            put_scalar(room, at, text, *style)
        }
        Event::SequenceStart(style, anchor, tag) if is_unmarked(*anchor, tag) => {
            Some(put_sequence(room, at, *style))
        }
        Event::SequenceEnd => Some(put_word(room, at, "SequenceEnd")),
        Event::MappingStart(style, anchor, tag) if is_unmarked(*anchor, tag) => {
            Some(put_mapping(room, at, *style))
        }
        Event::MappingEnd => Some(put_word(room, at, "MappingEnd")),
        _ => None,
    }
}
