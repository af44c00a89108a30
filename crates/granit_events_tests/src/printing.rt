//! The printed line of each event.
use crate::agree::agree;
use granit_base::{Marker, NoMemory, Placement, ScalarStyle, Span, StructureStyle, Text};
use granit_event::{Event, Tag, YamlVersion};
use granit_events::push_line;
use std::alloc::Global;

/// A place: its characters, its line and its column from 0.
type At = (usize, usize, usize);

/// The place, as events have it.
fn marker(at: At) -> Marker {
    Marker::new(at.0, at.1, at.2)
}

/// What has a line.
trait Lined {
    /// Whether that is its line between two places; no for want of memory.
    fn has_line(&self, alloc: Global, start: At, end: At, want: &str) -> bool;
}

impl<'a> Lined for Event<'a> {
    fn has_line(&self, alloc: Global, start: At, end: At, want: &str) -> bool {
        let mut out = Vec::new(alloc);
        let span = Span::new(marker(start), marker(end));
        let is_printed = push_line(&mut out, self, &span).is_ok();
        is_printed && out.as_slice() == want.as_bytes()
    }
}

/// The same of what is let go here, which is cheap to prove in a generic function.
fn prints<T: Lined + Drop>(alloc: Global, event: T, start: At, end: At, want: &str) -> bool {
    event.has_line(alloc, start, end, want)
}

/// The same of one from the start of the first line up to the second line.
fn prints_there<T: Lined + Drop>(alloc: Global, event: T, want: &str) -> bool {
    prints(alloc, event, (0, 1, 0), (2, 1, 2), want)
}

/// The same of a scalar without properties.
fn prints_scalar(alloc: Global, text: &'static str, style: ScalarStyle, want: &str) -> bool {
    prints_there(
        alloc,
        Event::Scalar(Text::borrowed(text), style, 0, None),
        want,
    )
}

/// The same of a comment.
fn prints_comment(alloc: Global, text: &'static str, placement: Placement, want: &str) -> bool {
    prints_there(alloc, Event::Comment(Text::borrowed(text), placement), want)
}

/// Whether streams and aliases print their lines.
fn streams_and_aliases(alloc: Global) -> [bool; 3] {
    [
        prints(
            alloc,
            Event::StreamStart,
            (0, 1, 0),
            (0, 1, 0),
            "StreamStart 0:1:1-0:1:1\n",
        ),
        prints(
            alloc,
            Event::StreamEnd,
            (18, 2, 0),
            (18, 2, 0),
            "StreamEnd 18:2:1-18:2:1\n",
        ),
        prints(
            alloc,
            Event::Alias(1),
            (4, 1, 4),
            (6, 1, 6),
            "Alias 1 4:1:5-6:1:7\n",
        ),
    ]
}

#[test]
fn lines_of_streams_and_aliases(rt: HostRuntime) {
    agree(&rt, streams_and_aliases(rt.alloc()), [true; 3]);
}

/// Whether documents print their lines.
fn documents(alloc: Global) -> [bool; 4] {
    [
        prints(
            alloc,
            Event::DocumentStart(true, None),
            (0, 1, 0),
            (3, 1, 3),
            "DocumentStart explicit 0:1:1-3:1:4\n",
        ),
        prints(
            alloc,
            Event::DocumentStart(true, Some(YamlVersion::new(1, 2))),
            (10, 2, 0),
            (13, 2, 3),
            "DocumentStart explicit 1.2 10:2:1-13:2:4\n",
        ),
        prints(
            alloc,
            Event::DocumentStart(false, None),
            (0, 1, 0),
            (2, 1, 2),
            "DocumentStart implicit 0:1:1-2:1:3\n",
        ),
        prints(
            alloc,
            Event::DocumentEnd,
            (7, 1, 7),
            (7, 1, 7),
            "DocumentEnd 7:1:8-7:1:8\n",
        ),
    ]
}

#[test]
fn lines_of_documents(rt: HostRuntime) {
    agree(&rt, documents(rt.alloc()), [true; 4]);
}

/// Whether collections print their lines.
fn collections(alloc: Global) -> [bool; 5] {
    [
        prints(
            alloc,
            Event::SequenceStart(StructureStyle::Flow, 1, None),
            (3, 1, 3),
            (4, 1, 4),
            "SequenceStart flow &1 3:1:4-4:1:5\n",
        ),
        prints(
            alloc,
            Event::SequenceStart(StructureStyle::Block, 0, None),
            (8, 2, 2),
            (8, 2, 2),
            "SequenceStart block 8:2:3-8:2:3\n",
        ),
        prints(
            alloc,
            Event::SequenceEnd,
            (6, 1, 6),
            (7, 1, 7),
            "SequenceEnd 6:1:7-7:1:8\n",
        ),
        prints(
            alloc,
            Event::MappingStart(StructureStyle::Block, 0, None),
            (0, 1, 0),
            (0, 1, 0),
            "MappingStart block 0:1:1-0:1:1\n",
        ),
        prints(
            alloc,
            Event::MappingEnd,
            (16, 1, 16),
            (17, 1, 17),
            "MappingEnd 16:1:17-17:1:18\n",
        ),
    ]
}

#[test]
fn lines_of_collections(rt: HostRuntime) {
    agree(&rt, collections(rt.alloc()), [true; 5]);
}

/// A scalar with a tag.
fn tagged_scalar(alloc: Global) -> Result<Event<'static>, NoMemory> {
    let tag = Tag::with_original_handle(alloc, "tag:yaml.org,2002:i", "nt", "!m!")?;
    let text = Text::borrowed("1");
    Ok(Event::Scalar(text, ScalarStyle::Plain, 0, Some(tag)))
}

/// A mapping with an anchor and a tag.
fn tagged_mapping(alloc: Global) -> Result<Event<'static>, NoMemory> {
    let tag = Tag::new(alloc, "!", "t")?;
    Ok(Event::MappingStart(StructureStyle::Flow, 12, Some(tag)))
}

/// Whether an event that was made prints that line.
fn made_prints<T: Lined + Drop>(alloc: Global, event: Result<T, NoMemory>, want: &str) -> bool {
    match event {
        Ok(event) => prints_there(alloc, event, want),
        Err(_) => false,
    }
}

/// A scalar with an anchor.
fn anchored_scalar() -> Event<'static> {
    Event::Scalar(Text::borrowed("x"), ScalarStyle::Plain, 1, None)
}

/// Whether properties print their lines.
fn properties(alloc: Global) -> [bool; 5] {
    [
        made_prints(
            alloc,
            tagged_scalar(alloc),
            "Scalar plain \"1\" !\"tag:yaml.org,2002:i\" \"nt\" 0:1:1-2:1:3\n",
        ),
        prints_there(
            alloc,
            anchored_scalar(),
            "Scalar plain \"x\" &1 0:1:1-2:1:3\n",
        ),
        made_prints(
            alloc,
            tagged_mapping(alloc),
            "MappingStart flow &12 !\"!\" \"t\" 0:1:1-2:1:3\n",
        ),
        prints_there(
            alloc,
            Event::Anchor(1, Text::borrowed("a")),
            "Anchor 1 \"a\" 0:1:1-2:1:3\n",
        ),
        prints_there(
            alloc,
            Event::UnresolvedAlias(Text::borrowed("x")),
            "UnresolvedAlias \"x\" 0:1:1-2:1:3\n",
        ),
    ]
}

#[test]
fn lines_of_properties(rt: HostRuntime) {
    agree(&rt, properties(rt.alloc()), [true; 5]);
}

/// Whether comments print their lines.
fn comments(alloc: Global) -> [bool; 4] {
    [
        prints_comment(
            alloc,
            " l",
            Placement::Above,
            "Comment above \" l\" 0:1:1-2:1:3\n",
        ),
        prints_comment(
            alloc,
            " pinned",
            Placement::Right,
            "Comment right \" pinned\" 0:1:1-2:1:3\n",
        ),
        prints_comment(
            alloc,
            "",
            Placement::Free,
            "Comment free \"\" 0:1:1-2:1:3\n",
        ),
        prints_comment(
            alloc,
            " a",
            Placement::Last,
            "Comment last \" a\" 0:1:1-2:1:3\n",
        ),
    ]
}

#[test]
fn lines_of_comments(rt: HostRuntime) {
    agree(&rt, comments(rt.alloc()), [true; 4]);
}

/// Whether scalars print their lines.
fn scalars(alloc: Global) -> [bool; 4] {
    [
        prints_scalar(
            alloc,
            "a'b\nc",
            ScalarStyle::SingleQuoted,
            "Scalar single \"a'b\\nc\" 0:1:1-2:1:3\n",
        ),
        prints_scalar(
            alloc,
            "x\ny\n",
            ScalarStyle::Literal,
            "Scalar literal \"x\\ny\\n\" 0:1:1-2:1:3\n",
        ),
        prints_scalar(
            alloc,
            "a b\nc\n",
            ScalarStyle::Folded,
            "Scalar folded \"a b\\nc\\n\" 0:1:1-2:1:3\n",
        ),
        prints_scalar(
            alloc,
            "\u{1f600}\u{e9}\t\r\"\\~\u{7f}",
            ScalarStyle::DoubleQuoted,
            "Scalar double \"\\u{1f600}\\u{e9}\\t\\r\\\"\\\\~\\u{7f}\" 0:1:1-2:1:3\n",
        ),
    ]
}

#[test]
fn lines_of_scalars(rt: HostRuntime) {
    agree(&rt, scalars(rt.alloc()), [true; 4]);
}
