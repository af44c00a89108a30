//! Places in a text, and stretches of it.
ghost use Rattle.std.specs.Prelude.{◌≡◌, ◌≤◌, ◌-◌, ◌==◌, None};
ghost use Rattle.granit_base.specs.Spans.{moved_right, tag_span_of, byte_range_of, tag_set, Slices};

use std::marker::Model;
use std::ops::Range;

/// A place in a text: how many characters stand before it, its line from 1, its column from 0 in
/// characters, and, where the input tells it, how many bytes of UTF-8 stand before it.
#[derive(Clone, Copy, Debug)]
pub struct Marker {
    index: usize,
    line: usize,
    col: usize,
    byte_offset: Option<usize>,
}

impl Model for Marker {
    ghost use Rattle.granit_base.specs.Place.{Mark};

    ghost Value = { Mark };

    ghost view = { λ m. record {
      place = record { index = m.index; line = m.line; column = m.col };
      byte_offset =
          m.byte_offset;
    } };

    ghost inverse = { λ m. record {
      index = m.place.index;
      line = m.place.line;
      col = m.place.column;
      byte_offset =
          m.byte_offset;
    } };
}

impl Marker {
    /// That place, with no byte offset.
    pub fn new(index: usize, line: usize, col: usize) -> Marker
        ensures { result ≡ record { place = record { index = index; line = line; column = col }; byte_offset = None } }
    {
        Marker {
            index,
            line,
            col,
            byte_offset: None,
        }
    }

    /// The same place with that byte offset.
    pub fn with_byte_offset(self, byte_offset: Option<usize>) -> Marker
        ensures { result ≡ record self { byte_offset = byte_offset } }
    {
        Marker {
            byte_offset,
            ..self
        }
    }

    /// How many characters stand before it.
    pub fn index(&self) -> usize
        ensures { result ≡ self.now.place.index }
    {
        self.index
    }

    /// How many bytes of UTF-8 stand before it, where that is told.
    pub fn byte_offset(&self) -> Option<usize>
        ensures { result ≡ self.now.byte_offset }
    {
        self.byte_offset
    }

    /// Its line, from 1.
    pub fn line(&self) -> usize
        ensures { result ≡ self.now.place.line }
    {
        self.line
    }

    /// Its column in characters, from 0.
    pub fn col(&self) -> usize
        ensures { result ≡ self.now.place.column }
    {
        self.col
    }

    /// The place that many characters of one byte each further right on its line, or none where a
    /// number would pass `usize`.
    fn moved_right(self, count: usize) -> Option<Marker>
        ensures { result ≡ moved_right count self }
    {
        let index = self.index.checked_add(count)?;
        let col = self.col.checked_add(count)?;
        let byte_offset = match self.byte_offset {
            None => None,
            Some(offset) => Some(offset.checked_add(count)?),
        };
        Some(Marker {
            index,
            line: self.line,
            col,
            byte_offset,
        })
    }
}

impl PartialEq for Marker {
    ghost use Rattle.std.proofs.Common.{rules};
    ghost use Rattle.std.specs.Cmp.Rules.{comparing};
    ghost use Rattle.granit_base.specs.Place.{same_place};

    ghost eq = { same_place };

    ghost laws = { Prim.search (comparing, rules) };

    fn eq(&self, other: &Marker) -> bool {
        self.index == other.index && self.line == other.line && self.col == other.col
    }
}

impl Eq for Marker {
    ghost use Rattle.std.proofs.Common.{rules};
    ghost use Rattle.std.specs.Cmp.Rules.{comparing};

    ghost laws = { Prim.search (comparing, rules) };
}

impl Default for Marker {
    ghost use Rattle.std.specs.Prelude.{◌≡◌, None};

    ghost is_default = { λ m. m ≡ record { place = record { index = 0; line = 0; column = 0 }; byte_offset = None } };

    fn default() -> Marker {
        Marker::new(0, 0, 0)
    }
}

/// A stretch of a text, with what an event says of its node's indentation and tag.
#[derive(Clone, Copy, Debug, Default, PartialEq, Eq)]
pub struct Span {
    /// Where it begins.
    pub start: Marker,
    /// The place behind it.
    pub end: Marker,
    /// The column of the node's indentation, in characters from 0, where the event tells one.
    pub indent: Option<usize>,
    /// Where the node's tag begins, where it has one.
    pub tag_start: Option<Marker>,
    tag_length: u32,
}

impl Span {
    /// A span without indent and tag.
    pub fn new(start: Marker, end: Marker) -> Span
        ensures { result ≡ record { start = start; end = end; indent = None; tag_start = None; tag_length = 0 } }
    {
        Span {
            start,
            end,
            indent: None,
            tag_start: None,
            tag_length: 0,
        }
    }

    /// The empty span at a place, without indent and tag.
    pub fn empty(mark: Marker) -> Span
        ensures { result ≡ record { start = mark; end = mark; indent = None; tag_start = None; tag_length = 0 } }
    {
        Span::new(mark, mark)
    }

    /// The same span with that column of indentation, in characters from 0, or with none.
    pub fn with_indent(self, indent: Option<usize>) -> Span
        ensures { result ≡ record self { indent = indent } }
    {
        Span { indent, ..self }
    }

    /// The same span with its tag beginning there, and a tag of no length.
    pub fn with_tag_start(self, tag_start: Option<Marker>) -> Span
        ensures { result ≡ record self { tag_start = tag_start; tag_length = 0 } }
    {
        Span {
            tag_start,
            tag_length: 0,
            ..self
        }
    }

    /// The same span with a tag that begins there and is that many characters long, or with none.
    pub fn with_tag_span(self, tag_span: Option<(Marker, u32)>) -> Span
        ensures { result ≡ tag_set tag_span self }
    {
        match tag_span {
            None => Span {
                tag_start: None,
                tag_length: 0,
                ..self
            },
            Some((start, length)) => Span {
                tag_start: Some(start),
                tag_length: length,
                ..self
            },
        }
    }

    /// Where its node's tag begins, where it has one.
    pub fn tag_start(&self) -> Option<Marker>
        ensures { result ≡ self.now.tag_start }
    {
        self.tag_start
    }

    /// Where its node's tag stands: from the tag's start as many characters as it is long, on one
    /// line and one byte each. None where there is no start, the length is 0, or a number would
    /// pass `usize`.
    pub fn tag_span(&self) -> Option<Span>
        ensures { result ≡ tag_span_of self.now }
    {
        let start = self.tag_start?;
        if self.tag_length == 0 {
            return None;
        }
        let end = start.moved_right(self.tag_length as usize)?;
        Some(Span::new(start, end))
    }

    /// How many characters it covers.
    pub fn len(&self) -> usize
        requires { self.now.start.place.index ≤ self.now.end.place.index }
        ensures { result ≡ self.now.end.place.index - self.now.start.place.index }
    {
        self.end.index() - self.start.index()
    }

    /// Whether it covers no character.
    pub fn is_empty(&self) -> bool
        requires { self.now.start.place.index ≤ self.now.end.place.index }
        ensures { result ≡ (self.now.end.place.index - self.now.start.place.index == 0) }
    {
        self.len() == 0
    }

    /// Its range in bytes of UTF-8, exactly where both its ends tell their byte offsets.
    pub fn byte_range(&self) -> Option<Range<usize>>
        ensures { result ≡ byte_range_of self.now }
    {
        let start = self.start.byte_offset()?;
        let end = self.end.byte_offset()?;
        Some(start..end)
    }

    /// What it covers of its source. None where it has no byte range, or where that is no range of
    /// the source that begins and ends between characters.
    pub fn slice<'s>(&self, source: &'s str) -> Option<&'s str>
        ensures { Slices source.now (byte_range_of self.now) result }
    {
        let range = self.byte_range()?;
        if range.start <= range.end
            && source.is_char_boundary(range.start)
            && source.is_char_boundary(range.end)
        {
            Some(&source[range.start..range.end])
        } else {
            None
        }
    }
}
