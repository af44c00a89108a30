//! Lines one behind the other, in room that is already there.
ghost use Rattle.std.specs.Prelude.{◌≡◌, ◌+◌, ◌≤◌, [], ◌++◌, length, take, IfOk, OnOk};
ghost use Rattle.granit_lexemes.specs.Line as line;
ghost use Rattle.granit_event.specs.Events.{event_kind, plain_event};

use crate::places::{PlaceDigits, put_span};
use crate::printing::push_event;
use crate::room::put_bytes;
use crate::usual::put_usual;
use granit_base::{NoMemory, Span};
use granit_event::Event;
use std::alloc::Global;
use std::marker::Model;

/// What a usual line takes at most: an event of 641 bytes and a span of 127.
const LINE: usize = 768;

/// What room grows by: doubled over and over, it ends just below 4,000,000,000 bytes.
const MORE: usize = 1800;

/// Lines of events, one behind the other.
#[derive(Drop)]
pub struct Page {
    /// The lines, and room behind them.
    bytes: Vec<u8>,
    /// So many bytes the lines are.
    count: usize,
    kept: PlaceDigits,
    /// An unusual event, before it comes behind the lines.
    words: Vec<u8>,
}

impl Model for Page {
    ghost use Rattle.std.specs.Prelude.{List, ℕ, ◌≤◌, length, take};

    ghost Value = { List ℕ };

    ghost view = { λ p. take p.count p.bytes.items };

    ghost invariant = { λ p. p.count ≤ length p.bytes.items };
}

impl Page {
    /// No line.
    pub fn new(alloc: Global) -> Page
        ensures { result ≡ [] }
    {
        Page {
            bytes: Vec::new(alloc),
            count: 0,
            kept: PlaceDigits::new(),
            words: Vec::new(alloc),
        }
    }

    /// The lines.
    pub fn as_slice(&self) -> &[u8]
        ensures value { result.now ≡ self.now }
    {
        &self.bytes[..self.count]
    }

    /// The line of an event.
    ///
    /// # Errors
    ///
    /// `NoMemory` alone.
    #[inline(always)]
    #[tactic(auto, unfolding(granit_lexemes::specs::Line::event_line))]
    pub fn push_line(&mut self, event: &Event, span: &Span) -> Result<(), NoMemory>
        ensures { OnOk result (self.new ≡ self.old ++ line.event_line (plain_event (event.now, span.now))) }
    {
        make_room(&mut self.bytes, self.count)?;
        let end = put_words(&mut self.bytes, &mut self.words, self.count, event)?;
        self.count = put_span(&mut self.kept, self.bytes.as_mut_slice(), end, span);
        Ok(())
    }
}

/// Room for a usual line behind so many bytes.
#[inline(always)]
fn make_room(bytes: &mut Vec<u8>, count: usize) -> Result<(), NoMemory>
    requires within { count ≤ length bytes.old.items }
    ensures within { count ≤ length bytes.new.items }
    ensures kept { take count bytes.new.items ≡ take count bytes.old.items }
    ensures room { OnOk result (count + 768 ≤ length bytes.new.items) }
{
    if bytes.len() - count < LINE {
        return enlarge(bytes, count);
    }
    Ok(())
}

/// The same where it is wanting.
#[inline(never)]
fn enlarge(bytes: &mut Vec<u8>, count: usize) -> Result<(), NoMemory>
    requires within { count ≤ length bytes.old.items }
    ensures within { count ≤ length bytes.new.items }
    ensures kept { take count bytes.new.items ≡ take count bytes.old.items }
    ensures room { OnOk result (count + 768 ≤ length bytes.new.items) }
{
    let more = bytes.len() + MORE;
    bytes.resize(more, 0)?;
    Ok(())
}

/// An event without its span behind so many bytes, and room behind it; where it ends.
#[inline(always)]
fn put_words(
    bytes: &mut Vec<u8>,
    words: &mut Vec<u8>,
    count: usize,
    event: &Event,
) -> Result<usize, NoMemory>
    requires room { count + 768 ≤ length bytes.old.items }
    ensures within { count ≤ length bytes.new.items }
    ensures put { IfOk result (λ end. take end bytes.new.items
        ≡ take count bytes.old.items ++ line.event_words (event_kind event.now)) }
    ensures room { IfOk result (λ end. end + 127 ≤ length bytes.new.items) }
{
    match put_usual(bytes.as_mut_slice(), count, event) {
        Some(end) => Ok(end),
        None => put_unusual(bytes, words, count, event),
    }
}

/// The same of any event.
#[inline(never)]
fn put_unusual(
    bytes: &mut Vec<u8>,
    words: &mut Vec<u8>,
    count: usize,
    event: &Event,
) -> Result<usize, NoMemory>
    requires within { count ≤ length bytes.old.items }
    ensures within { count ≤ length bytes.new.items }
    ensures put { IfOk result (λ end. take end bytes.new.items
        ≡ take count bytes.old.items ++ line.event_words (event_kind event.now)) }
    ensures room { IfOk result (λ end. end + 127 ≤ length bytes.new.items) }
{
    words.clear();
    push_event(words, event)?;
    let end = put_all(bytes, count, words.as_slice())?;
    make_room(bytes, end)?;
    Ok(end)
}

/// Bytes behind so many, where room may be wanting; where they end.
fn put_all(bytes: &mut Vec<u8>, count: usize, more: &[u8]) -> Result<usize, NoMemory>
    requires within { count ≤ length bytes.old.items }
    ensures within { count ≤ length bytes.new.items }
    ensures end { IfOk result (λ end. (count ≤ end) × (end ≤ length bytes.new.items)) }
    ensures put { IfOk result (λ end. take end bytes.new.items ≡ take count bytes.old.items ++ more.now) }
{
    if bytes.len() - count < more.len() {
        bytes.truncate(count);
        bytes.extend_from_slice(more)?;
        return Ok(bytes.len());
    }
    Ok(put_bytes(bytes.as_mut_slice(), count, more))
}
