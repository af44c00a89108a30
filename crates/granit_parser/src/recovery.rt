//! Recovery at a document boundary.
ghost use Rattle.std.specs.Prelude.{◌≡◌, ◌⊎◌, ◌&&◌, not, true, false, None, Some, Ok, Err, IfErr, IfOk, IfSome};
ghost use Rattle.std.specs.Prelude.{is_some, OnOk};
ghost use Rattle.granit_cursor.specs.Reading.{GoesOnward, Moves};
ghost use Rattle.granit_error.specs.FaultKind.{NoMemory as OutOfMemory};
ghost use Rattle.granit_event.specs.Events.{event_kind};
ghost use Rattle.granit_lexemes.specs.Outcome.{Fault};
ghost use Rattle.granit_parser.specs.Holding.{FaultLacksNumber, ParserHolds, WaitsBehind, held_behind, held_room};
ghost use Rattle.granit_parser.specs.Holding.{stays_seen};
ghost use Rattle.granit_parser.specs.Recovering.{AsksBy, Ends, EndsHeld, Follows, ForCalls, GaveUp, GivesSeen};
ghost use Rattle.granit_parser.specs.Recovering.{IsNoted, IsOpen, LooksNoMore};
ghost use Rattle.granit_parser.specs.Recovering.{Proceeds, ProceedsHeld, ProceedsHeldNext, ProceedsNext, SeenBy};
ghost use Rattle.granit_parser.specs.Recovering.{SkipsToAsk, SkipsWaiting, between_behind, over_behind};
ghost use Rattle.granit_parser.specs.Recovering.{seen_in, stays_by};
ghost use Rattle.granit_error.specs.Refused.{UnlessMemory};
ghost use Rattle.granit_receivers.specs.Kept.{GivesAgain};
ghost use Rattle.granit_seen.specs.Seeing.{seen_starts_document};
ghost use Rattle.granit_seen.specs.declared.seen.Seen.TheVariants as seens;
ghost use Rattle.granit_restart.specs.Calls.{Calls};
ghost use Rattle.granit_sourced.specs.Sources.{IsSourceError, UnlessSource};
ghost use Rattle.granit_stepper.specs.Holding.{held_follows};
ghost use Rattle.granit_steps.specs.Steps.{StepState};

use crate::parser::Parser;
use granit_calls::{
    a_comment_takes_room_where_recovery_asks, a_look_tells_where_recovery_asks, calls_go_by_turns,
    nothing_changes_behind_the_end,
};
use granit_error::ScanError;
use granit_event::Event;
use granit_input::BorrowedInput;
use granit_seen::{Seen, ends, ends_stream, starts, tells};

impl<'input, T: BorrowedInput<'input>> Parser<'input, T> {
    /// Drops a document, or what is left of the open one, and tells whether another is there: behind a refusal that was
    /// given or looked at the open document, directly behind the end of a document none, else the open or the next one.
    ///
    /// Where it told of a document and nothing was given since, that document is the next one, whatever is wrong with
    /// its beginning: the next event is looked at first, and a refusal counts as given.
    ///
    /// The contract: where the machine's calls led, it is their recovery (`known`, and `next` from where that look
    /// leads); what is given behind it, also where handles of `%TAG` stay, is said by `next_event` (`resumed`). Where a
    /// refusal waits and the option or the number was set since, what waits before it is dropped up to an end, if one
    /// is there, and it waits on, or else it counts as given (`held`, and `held_next` from where that look leads). Want
    /// of memory, an error of the source and a refusal of recovery itself are given again by each further call
    /// (`again`, and `seen` where it was looked at and not taken).
    ///
    /// # Errors
    ///
    /// The error of the source, `TooManyComments` where more comments come before the next document than may be kept,
    /// and `NoMemory`. Each further call answers that again, and nothing more is given.
    pub fn proceed_next_document(&mut self) -> Result<bool, ScanError>
        ensures known { ForCalls T.unread self.old (λ c. LooksNoMore self.old c
            → UnlessSource T.origin result self.new.stepper (Proceeds T.unread result self.old self.new c)) }
        ensures next { ForCalls T.unread self.old (λ c. self.old.answered ≡ true → IsOpen c
            → UnlessSource T.origin result self.new.stepper (ProceedsNext T.unread result self.old self.new c)) }
        ensures held { (c : Calls) (f : Fault) → ParserHolds T.unread self.old c f → self.old.answered ≡ false
            → c.over ≡ false
            → UnlessSource T.origin result self.new.stepper (ProceedsHeld T.unread result self.old self.new c f) }
        ensures held_next { (c : Calls) (f : Fault) → ParserHolds T.unread self.old c f → self.old.answered ≡ true
            → c.over ≡ false
            → UnlessSource T.origin result self.new.stepper (ProceedsHeldNext T.unread result self.old self.new c f) }
        ensures answered { IfOk result (λ follows. IsNoted follows self.new) }
        ensures again { self.old.over ≡ false → self.old.stepper.failed ≡ true → self.old.stepper.refusal ≡ None
            → IfSome self.old.given (λ e. GivesAgain e result) }
        ensures seen { self.old.over ≡ false → self.old.stepper.failed ≡ true → self.old.stepper.refusal ≡ None
            → self.old.given ≡ None → GivesSeen self.old.peeked result }
        ensures refused { IfErr result (λ e. GaveUp self.new e) }
        ensures over { self.old.over ≡ true → (result ≡ Ok false) × (self.new ≡ self.old) }
        ensures options { self.new.stepper.scanner.options ≡ self.old.stepper.scanner.options }
        ensures renumbered { self.new.stepper.renumbered ≡ self.old.stepper.renumbered }
        ensures onward { GoesOnward T.unread self.old.stepper.scanner.cursor self.new.stepper.scanner.cursor }
    {
        self.look_first();
        match self.proceed() {
            Ok(follows) => Ok(follows),
            Err(error) => {
                self.give_up(&error);
                Err(error)
            }
        }
    }

    /// Nothing more is given, and each further call of recovery answers this again.
    fn give_up(&mut self, error: &ScanError)
        ensures gone { GaveUp self.new error.now }
        ensures scanner { self.new.stepper.scanner ≡ self.old.stepper.scanner }
        ensures renumbered { self.new.stepper.renumbered ≡ self.old.stepper.renumbered }
        ensures over { self.new.over ≡ self.old.over }
    {
        self.forget_seen();
        self.stepper.give_up();
        self.keep_refusal(error);
    }

    fn proceed(&mut self) -> Result<bool, ScanError>
        ensures known { ForCalls T.unread self.old (λ c.
            UnlessSource T.origin result self.new.stepper (Ends T.unread result self.old self.new c)) }
        ensures held { (c : Calls) (f : Fault) → ParserHolds T.unread self.old c f → c.over ≡ false
            → UnlessSource T.origin result self.new.stepper (EndsHeld T.unread result self.old self.new c f) }
        ensures answered { IfOk result (λ follows. IsNoted follows self.new) }
        ensures again { self.old.over ≡ false → self.old.stepper.failed ≡ true → self.old.stepper.refusal ≡ None
            → IfSome self.old.given (λ e. GivesAgain e result) }
        ensures seen { self.old.over ≡ false → self.old.stepper.failed ≡ true → self.old.stepper.refusal ≡ None
            → self.old.given ≡ None → GivesSeen self.old.peeked result }
        ensures over { self.old.over ≡ true → (result ≡ Ok false) × (self.new ≡ self.old) }
        ensures refused { IfErr result (λ e. self.new.over ≡ false) }
        ensures options { self.new.stepper.scanner.options ≡ self.old.stepper.scanner.options }
        ensures renumbered { self.new.stepper.renumbered ≡ self.old.stepper.renumbered }
        ensures onward { GoesOnward T.unread self.old.stepper.scanner.cursor self.new.stepper.scanner.cursor }
    {
        nothing_changes_behind_the_end();
        a_look_tells_where_recovery_asks();
        if self.over {
            return Ok(false);
        }
        if self.cannot_recover() {
            return Err(self.refused());
        }
        if ends_stream(self.seen()) {
            return Ok(false);
        }
        self.skip()?;
        let follows = self.follows()?;
        self.answer(follows)
    }

    /// Whether a refusal was given or looked at behind which reading doesn't go on.
    fn cannot_recover(&self) -> bool
        ensures { result ≡ (self.now.stepper.failed && not (is_some self.now.stepper.refusal)) }
    {
        self.stepper.has_failed() && !self.stepper.can_recover()
    }

    /// The answer, or the error of the source in its place. Where no other document is there, that counts as directly
    /// behind one; where one is, that is the next to be dropped.
    fn answer(&mut self, follows: bool) -> Result<bool, ScanError>
        ensures known { (d : Calls) → SeenBy T.unread self.old.peeked self.old.stepper d
            → IfOk result (λ r. SeenBy T.unread self.new.peeked self.new.stepper d) }
        ensures waits { (m : StepState) (f : Fault) → WaitsBehind T.unread self.old.peeked self.old.stepper m f
            → IfOk result (λ r. WaitsBehind T.unread self.new.peeked self.new.stepper m f) }
        ensures answer { IfOk result (λ r. (r ≡ follows) × (self.new.between ≡ not follows)) }
        ensures answered { IfOk result (λ r. self.new.answered ≡ follows) }
        ensures source { IfErr result (λ e. IsSourceError (T.origin self.new.stepper.scanner.cursor.input)
            self.new.stepper.scanner.cursor.place e) }
        ensures going { self.new.over ≡ self.old.over }
        ensures options { self.new.stepper.scanner.options ≡ self.old.stepper.scanner.options }
        ensures renumbered { self.new.stepper.renumbered ≡ self.old.stepper.renumbered }
        ensures onward { GoesOnward T.unread self.old.stepper.scanner.cursor self.new.stepper.scanner.cursor }
    {
        match self.stepper.take_source_error() {
            Some(error) => Err(error),
            None => {
                self.between = !follows;
                self.answered = follows;
                Ok(follows)
            }
        }
    }

    /// Drops what is to be dropped. Directly behind a document what was looked at stays, but for the start of another.
    fn skip(&mut self) -> Result<(), ScanError>
        ensures known { ForCalls T.unread self.old (λ c. c.over ≡ false → c.refusal ≡ None
            → (seen_in self.old.peeked ≡ seens.StreamEnd → ⊥) → OnOk result
            (SkipsToAsk T.unread self.old.stepper.scanner.cursor (is_some self.old.peeked) self.new c)) }
        ensures held { (c : Calls) (f : Fault) → ParserHolds T.unread self.old c f → c.over ≡ false
            → (seen_in self.old.peeked ≡ seens.StreamEnd → ⊥) → OnOk result
            (SkipsWaiting T.unread self.old.stepper.scanner.cursor (is_some self.old.peeked) f
            (held_behind (stays_by self.old.between self.old.peeked) f c.steps) self.new
            ⊎ FaultLacksNumber self.old.stepper.renumbered self.old.stepper.scanner.options c f) }
        ensures looked { self.old.stepper.failed ≡ false
            → OnOk result (self.new.peeked
            ≡ stays_seen (stays_by self.old.between self.old.peeked) self.old.peeked) }
        ensures memory { IfErr result (λ e. e.kind ≡ OutOfMemory) }
        ensures going { self.new.over ≡ self.old.over }
        ensures options { self.new.stepper.scanner.options ≡ self.old.stepper.scanner.options }
        ensures renumbered { self.new.stepper.renumbered ≡ self.old.stepper.renumbered }
        ensures moves { Moves T.unread T.left T.origin self.old.stepper.scanner.cursor self.new.stepper.scanner.cursor }
    {
        a_look_tells_where_recovery_asks();
        a_comment_takes_room_where_recovery_asks();
        calls_go_by_turns();
        if self.has_failed() {
            self.forget_refusal();
            return self.stepper.skip_fault(self.alloc);
        }
        let seen = self.seen();
        if self.stays(seen) {
            return Ok(());
        }
        self.forget_seen();
        if ends(seen) {
            return Ok(());
        }
        self.stepper.skip_document(self.alloc)
    }

    /// Whether nothing is to be dropped.
    fn stays(&self, seen: Seen) -> bool
        ensures { result ≡ (self.now.between && not (seen_starts_document seen)) }
    {
        self.between && !starts(seen)
    }

    /// Whether another document is there, where nothing but what was looked at is between.
    fn follows(&mut self) -> Result<bool, ScanError>
        ensures known { (stops : _) (looked : _) (c : Calls)
            → AsksBy T.unread stops looked self.old.peeked self.old.stepper c
            → UnlessMemory result (Follows T.unread stops looked result self.new c) }
        ensures waits { (m : StepState) (f : Fault) → WaitsBehind T.unread self.old.peeked self.old.stepper m f
            → (seen_in self.old.peeked ≡ seens.StreamEnd → ⊥) → UnlessMemory result
            ((result ≡ held_follows (held_room self.old.stepper.scanner.options true self.old.peeked) m)
            × WaitsBehind T.unread self.new.peeked self.new.stepper m f) }
        ensures going { self.new.over ≡ self.old.over }
        ensures options { self.new.stepper.scanner.options ≡ self.old.stepper.scanner.options }
        ensures renumbered { self.new.stepper.renumbered ≡ self.old.stepper.renumbered }
        ensures moves { Moves T.unread T.left T.origin self.old.stepper.scanner.cursor self.new.stepper.scanner.cursor }
    {
        if tells(self.seen()) {
            return Ok(true);
        }
        let room = self.stepper.max_comments();
        self.stepper.document_follows(self.alloc, room)
    }

    /// Notes where an event that is given leads.
    pub(crate) fn note_event(&mut self, event: &Event<'input>)
        ensures between { self.new.between ≡ between_behind (event_kind event.now) self.old.between }
        ensures over { self.new.over ≡ over_behind (event_kind event.now) self.old.over }
        ensures rest { self.new ≡ record self.old {
          between = self.new.between;
          over = self.new.over;
          answered = false;
        } }
    {
        self.answered = false;
        match event {
            Event::DocumentStart(_, _) => self.between = false,
            Event::DocumentEnd => self.between = true,
            Event::StreamEnd => self.over = true,
            _ => {}
        }
    }
}
