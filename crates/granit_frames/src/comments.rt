//! Comments: where they stand, and those that wait for a node (YAML 1.2.2, 6.6).
ghost use Rattle.std.specs.Prelude.{◌≡◌, ◌<◌, ◌-◌, [], ◌∷◌, ◌++◌, Some, OnOk};
ghost use Rattle.std.specs.Option.{option_map};
ghost use Rattle.std.specs.VecDeque.{deque_items};
ghost use Rattle.granit_event.specs.Events.{plain_event, plain_events};
ghost use Rattle.granit_items.specs.ItemViews.{note_view};
ghost use Rattle.granit_refused.specs.Answered.{answered};
ghost use Rattle.granit_frames.specs.Refusing.{RefusesByFault};
ghost use Rattle.granit_frames.specs.StateViews.{held_items, waiting_view};
ghost use Rattle.granit_machine.specs.Leaving.{LeavesIfRoom};
ghost use Rattle.granit_machine.specs.Parser as spec;

use crate::state::{ParserState, Waiting};
use granit_base::{NoMemory, Placement, Span};
use granit_error::{ErrorKind, ScanError};
use granit_event::Event;
use granit_items::Note;
use granit_refused::{Refused, refuse};
use std::collections::VecDeque;

/// Where a comment stands, by the line of what comes behind it.
fn placed(note: &Note<'_>, next_line: Option<usize>) -> Placement
    ensures { result ≡ spec.placed (note_view note.now) next_line }
{
    if note.is_right {
        return Placement::Right;
    }
    match next_line {
        None => Placement::Last,
        Some(next) => placed_before(note.end.line(), next),
    }
}

fn placed_before(line: usize, next: usize) -> Placement
    ensures { result ≡ spec.placed_by_line line (Some next) }
{
    if next > line && next - line == 1 {
        Placement::Above
    } else {
        Placement::Free
    }
}

impl<'input> Waiting<'input> {
    /// With one more comment, for which there is room.
    fn hold(&mut self, event: Event<'input>, span: Span) -> Result<(), NoMemory>
        requires { 0 < self.old.room }
        ensures { OnOk result (waiting_view self.new ≡ record
            (waiting_view self.old) {
              room = self.old.room - 1;
              held = plain_events (held_items (option_map deque_items self.old.held)) ++
                  plain_event (event.entry, span) ∷ [];
            }) }
    {
        self.room -= 1;
        match &mut self.held {
            Some(held) => held.push_back((event, span))?,
            None => {
                let mut held = VecDeque::new(self.alloc);
                held.push_back((event, span))?;
                self.held = Some(held);
            }
        }
        Ok(())
    }
}

impl<'input> ParserState<'input> {
    /// A comment: an event at once, or held while a `-` or `:` waits.
    ///
    /// # Errors
    ///
    /// `TooManyComments` at its start, where no more may be held.
    pub fn take_comment(
        &mut self,
        fault: &mut Option<ScanError>,
        note: Note<'input>,
        next_line: Option<usize>,
    ) -> Result<(), Refused>
        ensures leaves { LeavesIfRoom (answered fault.new result) self.new
            (spec.take_comment (note_view note.entry) next_line self.old) }
        ensures by_fault { RefusesByFault (answered fault.new result)
            (spec.take_comment (note_view note.entry) next_line self.old) }
        ensures kept { self.new.kept ≡ self.old.kept }
    {
        let placement = placed(&note, next_line);
        let Note {
            text,
            start,
            end,
            is_right: _,
        } = note;
        let span = Span::new(start, end);
        match self.waiting.take() {
            None => {
                self.add_event(Event::Comment(text, placement), span)?;
                Ok(())
            }
            Some(mut waiting) => {
                if waiting.room == 0 {
                    return Err(refuse(
                        fault,
                        ScanError::from_kind(start, ErrorKind::TooManyComments),
                    ));
                }
                waiting.hold(Event::Comment(text, placement), span)?;
                self.waiting = Some(waiting);
                Ok(())
            }
        }
    }
}
