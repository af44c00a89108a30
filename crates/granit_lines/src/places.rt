//! Places of spans.
ghost use Rattle.std.specs.Prelude.{◌≡◌, ◌+◌, ◌≤◌, ◌++◌, length, take, OnOk};
ghost use Rattle.granit_lexemes.specs.Line.{place_line};
ghost use Rattle.granit_lines.specs.Pieces.{line_span_words};

use crate::numbers::{LeadingDigits, put_number};
use crate::room::put_byte;
use granit_base::{Marker, NoMemory, Span};

/// Two places take 124 bytes at most, and what stands around them three.
pub const SPAN: usize = 127;

/// The leading digits of the last place's numbers.
#[derive(Clone, Copy)]
pub struct PlaceDigits {
    index: LeadingDigits,
    line: LeadingDigits,
    column: LeadingDigits,
}

impl PlaceDigits {
    /// Those of a place that never was.
    pub fn new() -> PlaceDigits {
        PlaceDigits {
            index: LeadingDigits::new(),
            line: LeadingDigits::new(),
            column: LeadingDigits::new(),
        }
    }
}

/// A place, as `index:line:column`, the column from 1, behind so many bytes; where it ends.
#[inline(always)]
fn put_place(kept: &mut PlaceDigits, room: &mut [u8], at: usize, mark: &Marker) -> usize
    requires room { at + 62 ≤ length room.old }
    ensures end { result ≤ at + 62 }
    ensures put { take result room.new ≡ take at room.old ++ place_line mark.now.place }
{
    let index = put_number(&mut kept.index, room, at, mark.index());
    let line_start = put_byte(room, index, b':');
    let line = put_number(&mut kept.line, room, line_start, mark.line());
    let column_start = put_byte(room, line, b':');
    let column = mark.col().saturating_add(1);
    put_number(&mut kept.column, room, column_start, column)
}

/// A space, the places of a span, and a line feed, behind so many bytes; where they end.
#[inline(always)]
pub fn put_span(kept: &mut PlaceDigits, room: &mut [u8], at: usize, span: &Span) -> usize
    requires room { at + 127 ≤ length room.old }
    ensures end { result ≤ at + 127 }
    ensures put { take result room.new ≡ take at room.old
        ++ line_span_words span.now.start.place span.now.end.place }
{
    let start = put_byte(room, at, b' ');
    let dash = put_place(kept, room, start, &span.start);
    let end = put_byte(room, dash, b'-');
    let line_end = put_place(kept, room, end, &span.end);
    put_byte(room, line_end, b'\n')
}

/// The same at the end of a list of bytes.
pub fn push_span(out: &mut Vec<u8>, span: &Span) -> Result<(), NoMemory>
    ensures { OnOk result (out.new.items
        ≡ out.old.items ++ line_span_words span.now.start.place span.now.end.place) }
{
    let mut room = [0; SPAN];
    let end = put_span(&mut PlaceDigits::new(), &mut room, 0, span);
    out.extend_from_slice(&room[..end])?;
    Ok(())
}
