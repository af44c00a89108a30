//! What a stepper drops, and whether another document is there.
ghost use Rattle.std.specs.Prelude.{◌≡◌, [], true, false, None, Some, Err, slice_get, is_some, IfErr, IfOk, IfSome};
ghost use Rattle.std.specs.Prelude.{IsOk, OnOk};
ghost use Rattle.granit_cursor.specs.Reading.{Moves};
ghost use Rattle.granit_error.specs.FaultKind as faults;
ghost use Rattle.granit_error.specs.Refused.{Refused, UnlessMemory};
ghost use Rattle.granit_event.specs.Events.{event_kind};
ghost use Rattle.granit_frames.specs.Outside.{NoneWaitsOutside};
ghost use Rattle.granit_lexemes.specs.Outcome.{fault_at};
ghost use Rattle.granit_refusals.specs.BeforeTurn.{refusal_outside};
ghost use Rattle.granit_restart.specs.Header as header;
ghost use Rattle.granit_restart.specs.Looking.{turn_ahead};
ghost use Rattle.granit_restart.specs.Skipping as skipping;
ghost use Rattle.granit_restart.specs.Turned.{Turned};
ghost use Rattle.granit_stepper.specs.Holding.{HoldsFault, MeetsHeld, PassesHeld, SkipsHeld, held_follows, held_skip};
ghost use Rattle.granit_stepper.specs.Numbers.{GivesOr, RefusesNumber};
ghost use Rattle.granit_stepper.specs.Recovering.{DropsTo, Looks, LooksOn, MetIn, RestartsIn, Skips, SkipsDocument};
ghost use Rattle.granit_stepper.specs.Recovering.{SkipsFault, SkipsHeader, front_in, front_kind};
ghost use Rattle.granit_stepper.specs.RecoveryMemory.{RestartsFree, SkipsFree};
ghost use Rattle.granit_stepper.specs.Refusals.{HoldsRefusal, RefusedIn, RefusesIn, StandsAhead, StandsRefused};
ghost use Rattle.granit_stepper.specs.Stepping as spec;
ghost use Rattle.granit_stepper.specs.Stepping.{Keeps, StandsIn};
ghost use Rattle.granit_steps.specs.Steps.{StepState};

use crate::stepper::Stepper;
use granit_base::NoMemory;
use granit_error::{ErrorKind, ScanError};
use granit_event::Event;
use granit_input::BorrowedInput;
use granit_refusals::{Refusal, is_directives, wants_memory};
use std::alloc::Global;

/// What stands first among events.
#[derive(Clone, Copy)]
enum Front {
    None,
    Comment,
    DocumentEnd,
    StreamEnd,
    Another,
}

fn front_of(event: &Event<'_>) -> Front
    ensures { result ≡ front_kind (event_kind event.now) }
{
    match event {
        Event::Comment(_, _) => Front::Comment,
        Event::DocumentEnd => Front::DocumentEnd,
        Event::StreamEnd => Front::StreamEnd,
        _ => Front::Another,
    }
}

impl<'input, T: BorrowedInput<'input>> Stepper<'input, T> {
    /// Whether reading may go on behind a refusal: it isn't for want of memory, or of the source.
    pub fn can_recover(&self) -> bool
        ensures { result ≡ is_some self.now.refusal }
    {
        self.refusal.is_some()
    }

    /// Nothing more is given, and recovery is refused.
    pub fn give_up(&mut self)
        ensures { self.new ≡ record self.old { failed = true; refusal = None; ahead = None } }
    {
        self.failed = true;
        self.refusal = None;
        self.ahead = None;
    }

    // ---- what is dropped

    /// Drops what the last refusal spoils: the open document, or the one whose directives are being read.
    ///
    /// # Errors
    ///
    /// `NoMemory` alone.
    pub fn skip_fault(&mut self, alloc: Global) -> Result<(), ScanError>
        ensures known { (m : StepState) (e : Refused) → StandsRefused T.unread self.old m e
            → Turned self.old.scanner.options m
            → OnOk result
            (SkipsFault T.unread self.old.scanner.options self.old.scanner.cursor e self.new m) }
        ensures memory { IfErr result (λ e. e.kind ≡ faults.NoMemory) }
        ensures free { SkipsFree T.unread self.old → IsOk result }
        ensures first { IfOk result (λ x. self.new.first ≡ None) }
        ensures options { self.new.scanner.options ≡ self.old.scanner.options }
        ensures renumbered { self.new.renumbered ≡ self.old.renumbered }
        ensures moves { Moves T.unread T.left T.origin self.old.scanner.cursor self.new.scanner.cursor }
    {
        let in_header = self.is_in_header();
        let starts = self.restart(alloc)?;
        if in_header && starts {
            return self.skip_header(alloc);
        }
        Ok(())
    }

    /// Drops the document behind directives that were refused.
    fn skip_header(&mut self, alloc: Global) -> Result<(), ScanError>
        ensures known { (m : StepState) → StandsIn T.unread self.old m → Turned self.old.scanner.options m
            → OnOk result (SkipsHeader T.unread self.old.scanner.options self.new m) }
        ensures memory { IfErr result (λ e. e.kind ≡ faults.NoMemory) }
        ensures first { IfOk result (λ x. self.new.first ≡ None) }
        ensures options { self.new.scanner.options ≡ self.old.scanner.options }
        ensures renumbered { self.new.renumbered ≡ self.old.renumbered }
        ensures moves { Moves T.unread T.left T.origin self.old.scanner.cursor self.new.scanner.cursor }
    {
        if self.pass_document(alloc)? {
            return Ok(());
        }
        self.restart(alloc)?;
        Ok(())
    }

    /// Drops a document, or what is left of the open one.
    ///
    /// # Errors
    ///
    /// `NoMemory` alone.
    pub fn skip_document(&mut self, alloc: Global) -> Result<(), ScanError>
        ensures known { (m : StepState) → StandsAhead T.unread self.old m → Turned self.old.scanner.options m
            → OnOk result (SkipsDocument T.unread self.old.scanner.options self.new m) }
        ensures held { (m : StepState) (e : Refused) → HoldsFault T.unread self.old m e
            → Turned self.old.scanner.options m → OnOk result
            (SkipsHeld T.unread self.old.scanner.options self.old.scanner.cursor e (held_skip e m) self.new) }
        ensures memory { IfErr result (λ e. e.kind ≡ faults.NoMemory) }
        ensures first { IfOk result (λ x. self.new.first ≡ None) }
        ensures options { self.new.scanner.options ≡ self.old.scanner.options }
        ensures renumbered { self.new.renumbered ≡ self.old.renumbered }
        ensures moves { Moves T.unread T.left T.origin self.old.scanner.cursor self.new.scanner.cursor }
    {
        if self.pass_document(alloc)? {
            Ok(())
        } else {
            self.skip_fault(alloc)
        }
    }

    /// On to behind the next end of a document, or to that of the stream; false where the open document is refused on
    /// the way.
    fn pass_document(&mut self, alloc: Global) -> Result<bool, ScanError>
        ensures known { (m : StepState) → StandsAhead T.unread self.old m → Turned self.old.scanner.options m
            → IfOk result (λ passed. Skips T.unread self.old.scanner.options passed self.new m) }
        ensures held { (m : StepState) (e : Refused) → HoldsFault T.unread self.old m e
            → IfOk result (λ passed. PassesHeld T.unread e (held_skip e m) passed self.old self.new) }
        ensures memory { IfErr result (λ e. e.kind ≡ faults.NoMemory) }
        ensures first { IfOk result (λ x. self.new.first ≡ None) }
        ensures options { self.new.scanner.options ≡ self.old.scanner.options }
        ensures renumbered { self.new.renumbered ≡ self.old.renumbered }
        ensures moves { Moves T.unread T.left T.origin self.old.scanner.cursor self.new.scanner.cursor }
    {
        self.first = None;
        'turns: for _ in 0..u64::MAX {
            if self.drop_events() {
                return Ok(true);
            }
            match self.advance_alone(alloc) {
                Ok(true) => {}
                Ok(false) => return Ok(true),
                Err(error) => return self.met(error),
            }
        }
        Err(ScanError::from(NoMemory))
    }

    /// A refusal that is the next document's is kept, and given when that is reached; whether it is.
    fn met(&mut self, error: ScanError) -> Result<bool, ScanError>
        ensures known { (m : StepState) → self.old.failed ≡ false
            → ((error.kind ≡ faults.NoMemory → ⊥) → RefusedIn T.unread self.old m error)
            → IfOk result (λ ends. MetIn T.unread error self.new m ends) }
        ensures held { (m : StepState) → StandsRefused T.unread self.old m error
            → IfOk result (λ ends. MeetsHeld error self.new m ends) }
        ensures memory { IfErr result (λ e. e.kind ≡ faults.NoMemory) }
        ensures rest { self.new ≡ record self.old { ahead = self.new.ahead } }
    {
        if wants_memory(&error) {
            return Err(ScanError::from(NoMemory));
        }
        if self.ends_before()? {
            self.hold(error);
            return Ok(true);
        }
        Ok(false)
    }

    /// A refusal is given once what waits was.
    fn hold(&mut self, error: ScanError)
        ensures { self.new ≡ record self.old { ahead = Some error } }
    {
        self.ahead = Some(error);
    }

    /// Whether the open document came to its end before the last refusal.
    fn ends_before(&self) -> Result<bool, ScanError>
        ensures known { (m : StepState) (e : Refused) → StandsRefused T.unread self.now m e
            → IfOk result (λ ends. ends ≡ skipping.ends_before m e) }
        ensures memory { IfErr result (λ e. e.kind ≡ faults.NoMemory) }
    {
        match &self.refusal {
            None => Err(ScanError::from(NoMemory)),
            Some(refusal) => Ok(refusal.ends_before()),
        }
    }

    /// Drops the events that wait, up to behind the next end of a document or up to that of the stream; whether one is
    /// there.
    fn drop_events(&mut self) -> bool
        ensures dropped { DropsTo (skipping.ahead self.old.parser.given) result self.new.parser.given }
        ensures rest { self.new ≡ record self.old {
          parser = record (self.old.parser) { given = self.new.parser.given };
        } }
    {
        'events: loop {
            match self.front_event(0) {
                Front::None => return false,
                Front::StreamEnd => return true,
                Front::DocumentEnd => {
                    drop(self.parser.pop_event());
                    return true;
                }
                Front::Comment | Front::Another => drop(self.parser.pop_event()),
            }
        }
    }

    /// What stands behind so many other events that wait.
    fn front_event(&self, older: usize) -> Front
        ensures { result ≡ front_in (slice_get self.now.parser.given older) }
    {
        match self.parser.event(older) {
            None => Front::None,
            Some((event, _)) => front_of(event),
        }
    }

    // ---- where reading goes on

    /// Whether a refusal stands among the directives of a document of which nothing else was read.
    fn is_in_header(&self) -> bool
        ensures known { (m : StepState) (e : Refused) → StandsRefused T.unread self.now m e
            → result ≡ header.is_in_header self.now.scanner.options m e }
        ensures inside { IfSome self.now.refusal (λ r. refusal_outside r ≡ false → result ≡ false) }
    {
        match &self.refusal {
            None => false,
            Some(refusal) => refusal.fails_outside() && self.reads_directives(refusal),
        }
    }

    fn reads_directives(&self, refusal: &Refusal<'input>) -> bool
        ensures { (m : StepState) (e : Refused) → StandsRefused T.unread self.now m e
            → self.now.refusal ≡ Some refusal.now → result ≡ header.reads_directives self.now.scanner.options m }
    {
        if refusal.takes_front {
            self.scanner.ends_in_directive(refusal.ends_in_directive())
        } else {
            self.scanner.fails_in_header(is_directives(refusal.stage))
        }
    }

    /// Goes on at the next boundary; whether a `---` comes next.
    fn restart(&mut self, alloc: Global) -> Result<bool, ScanError>
        ensures known { (m : StepState) (e : Refused) → StandsRefused T.unread self.old m e
            → Turned self.old.scanner.options m
            → IfOk result (λ starts. RestartsIn T.unread self.old.scanner.cursor starts self.new m) }
        ensures memory { IfErr result (λ e. e.kind ≡ faults.NoMemory) }
        ensures free { (r : _) → self.old.refusal ≡ Some r → RestartsFree T.unread self.old.scanner r → IsOk result }
        ensures first { IfOk result (λ x. self.new.first ≡ None) }
        ensures options { self.new.scanner.options ≡ self.old.scanner.options }
        ensures renumbered { self.new.renumbered ≡ self.old.renumbered }
        ensures moves { Moves T.unread T.left T.origin self.old.scanner.cursor self.new.scanner.cursor }
    {
        match self.refusal.take() {
            None => Err(ScanError::from(NoMemory)),
            Some(refusal) => self.restart_behind(alloc, refusal),
        }
    }

    fn restart_behind(&mut self, alloc: Global, refusal: Refusal<'input>) -> Result<bool, ScanError>
        ensures known { (m : StepState) (e : Refused)
            → StandsRefused T.unread (record self.old { refusal = Some refusal.entry }) m e
            → Turned self.old.scanner.options m
            → IfOk result (λ starts. RestartsIn T.unread self.old.scanner.cursor starts self.new m) }
        ensures memory { IfErr result (λ e. e.kind ≡ faults.NoMemory) }
        ensures free { RestartsFree T.unread self.old.scanner refusal.entry → IsOk result }
        ensures first { IfOk result (λ x. self.new.first ≡ None) }
        ensures options { self.new.scanner.options ≡ self.old.scanner.options }
        ensures renumbered { self.new.renumbered ≡ self.old.renumbered }
        ensures moves { Moves T.unread T.left T.origin self.old.scanner.cursor self.new.scanner.cursor }
    {
        if self.scanner.is_lost() {
            return Err(ScanError::from(NoMemory));
        }
        let (last_end, count) = (refusal.last_end, refusal.count);
        let starts = self.scanner.restart(refusal.front, &mut self.rooms)?;
        self.parser.drop_document(alloc, last_end, count);
        self.ahead = None;
        self.first = None;
        self.failed = false;
        Ok(starts)
    }

    // ---- whether another document is there

    /// Whether anything but comments, `...` and the end comes next, where so many comments may be kept.
    ///
    /// # Errors
    ///
    /// `TooManyComments`, and `NoMemory`.
    pub fn document_follows(&mut self, alloc: Global, room: usize) -> Result<bool, ScanError>
        ensures known { (m : StepState) → StandsAhead T.unread self.old m → self.old.first ≡ None
            → Turned self.old.scanner.options m → UnlessMemory result
            (Looks T.unread self.old.scanner.options room result self.new m) }
        ensures held { (m : StepState) (e : Refused) → HoldsFault T.unread self.old m e → UnlessMemory result
            ((result ≡ held_follows room m) × HoldsFault T.unread self.new m e) }
        ensures first { self.new.first ≡ self.old.first }
        ensures failed { self.new.failed ≡ self.old.failed }
        ensures options { self.new.scanner.options ≡ self.old.scanner.options }
        ensures renumbered { self.new.renumbered ≡ self.old.renumbered }
        ensures moves { Moves T.unread T.left T.origin self.old.scanner.cursor self.new.scanner.cursor }
    {
        let mut kept = 0;
        'turns: for _ in 0..u64::MAX {
            match self.front_event(kept) {
                Front::StreamEnd => return Ok(false),
                Front::Comment => {
                    if kept >= room {
                        return Err(self.too_many(kept));
                    }
                    kept += 1;
                }
                Front::None => match self.look_on(alloc)? {
                    None => {}
                    Some(follows) => return Ok(follows),
                },
                Front::DocumentEnd => return Ok(true),
                Front::Another => return Ok(true),
            }
        }
        Err(ScanError::from(NoMemory))
    }

    /// Behind the events that wait: whether another document is there, where that is known by one more turn at most.
    fn look_on(&mut self, alloc: Global) -> Result<Option<bool>, ScanError>
        ensures known { (m : StepState) → StandsAhead T.unread self.old m → self.old.first ≡ None
            → NoneWaitsOutside m.parser → IfOk result (λ r. LooksOn T.unread self.old.scanner.options r self.new m) }
        ensures held { (m : StepState) (e : Refused) → HoldsFault T.unread self.old m e
            → IfOk result (λ r. (r ≡ Some true) × HoldsFault T.unread self.new m e) }
        ensures memory { IfErr result (λ e. e.kind ≡ faults.NoMemory) }
        ensures keeps { Keeps self.old self.new }
        ensures moves { Moves T.unread T.left T.origin self.old.scanner.cursor self.new.scanner.cursor }
    {
        if is_directives(self.parser.stage()) {
            return Ok(Some(true));
        }
        match self.advance_ahead(alloc) {
            Ok(true) => {
                // The comment behind a directive is none of those that are counted.
                if is_directives(self.parser.stage()) {
                    return Ok(Some(true));
                }
                Ok(None)
            }
            Ok(false) => Ok(Some(false)),
            Err(error) => self.follows_by(error),
        }
    }

    /// One turn while events wait; what it gives comes behind them.
    fn advance_ahead(&mut self, alloc: Global) -> Result<bool, ScanError>
        ensures known { (m : StepState) → StandsIn T.unread self.old m → self.old.first ≡ None
            → GivesOr spec.turn_view result (StandsIn T.unread self.new) (turn_ahead self.old.scanner.options m)
            (RefusesNumber self.new.renumbered self.old.scanner.options (skipping.with_pending [] m)) }
        ensures refused { (m : StepState) → StandsIn T.unread self.old m → self.old.first ≡ None
            → NoneWaitsOutside m.parser → RefusesIn T.unread result self.new m }
        ensures ahead { IfSome self.old.ahead (λ f. (result ≡ Err f) × (self.new ≡ record self.old { ahead = None })) }
        ensures keeps { Keeps self.old self.new }
        ensures moves { Moves T.unread T.left T.origin self.old.scanner.cursor self.new.scanner.cursor }
    {
        let waiting = self.parser.take_events(alloc);
        match self.advance_alone(alloc) {
            Ok(made) => {
                self.parser.put_before(waiting)?;
                Ok(made)
            }
            Err(error) => {
                self.parser.set_events(waiting);
                Err(error)
            }
        }
    }

    /// A faulty document counts; its refusal is given when it is reached.
    fn follows_by(&mut self, error: ScanError) -> Result<Option<bool>, ScanError>
        ensures known { (m : StepState) → self.old.failed ≡ false
            → ((error.kind ≡ faults.NoMemory → ⊥) → RefusedIn T.unread self.old m error)
            → IfOk result (λ r. (r ≡ Some true) × HoldsRefusal T.unread self.new m) }
        ensures held { IfOk result (λ r. (r ≡ Some true) × (self.new.ahead ≡ Some error)) }
        ensures memory { IfErr result (λ e. e.kind ≡ faults.NoMemory) }
        ensures rest { self.new ≡ record self.old { ahead = self.new.ahead } }
    {
        if wants_memory(&error) {
            return Err(ScanError::from(NoMemory));
        }
        self.hold(error);
        Ok(Some(true))
    }

    /// A comment is one too many.
    fn too_many(&self, older: usize) -> ScanError
        ensures { IfSome (slice_get self.now.parser.given older)
            (λ e. result ≡ fault_at faults.TooManyComments e.span.start) }
    {
        match self.parser.event(older) {
            None => ScanError::from(NoMemory),
            Some((_, span)) => ScanError::from_kind(span.start, ErrorKind::TooManyComments),
        }
    }
}
