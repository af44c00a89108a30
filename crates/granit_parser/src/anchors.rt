//! The number that a parser's next anchor gets.
ghost use Rattle.std.specs.Prelude.{◌≡◌, None, Some};
ghost use Rattle.granit_lexemes.specs.Outcome.{Fault};
ghost use Rattle.granit_parser.specs.Holding.{HoldsChanged, ParserHolds};
ghost use Rattle.granit_parser.specs.Numbers.{next_number, with_number};
ghost use Rattle.granit_parser.specs.Parsing.{StandsAt};
ghost use Rattle.granit_parser.specs.Recovering.{ChangesIn, IsClosed, IsOpen, ParserIn};
ghost use Rattle.granit_recovery.specs.Streams.{ReachedByCalls};
ghost use Rattle.granit_restart.specs.Calls.{Calls};
ghost use Rattle.granit_stepper.specs.Offset.{with_offset};
ghost use Rattle.granit_stepper.specs.Stepping.{StandsIn};
ghost use Rattle.granit_steps.specs.Steps.{StepState};

use crate::parser::Parser;
use granit_calls::calls_go_by_turns;
use granit_input::BorrowedInput;

impl<'input, T: BorrowedInput<'input>> Parser<'input, T> {
    /// The number that the next anchor gets, held at the greatest one.
    pub fn anchor_offset(&self) -> usize
        ensures { result ≡ next_number self.now }
    {
        self.stepper.anchor_offset()
    }

    /// From now on the next anchor that is read gets this number; 0 is as 1, and the greatest one is left to none. What
    /// was looked at stays as it is.
    ///
    /// The contract: where the machine's calls led, they go on from there with that number (`there`), also where turns
    /// were made early (`calls`). Where such a turn was refused, that waits still (`held`, `holds`): `next_event` tells
    /// what comes then. Behind a fault that was given recovery goes on with that number (`failed`).
    pub fn set_anchor_offset(&mut self, offset: usize)
        ensures known { (m : StepState) → StandsIn T.unread self.old.stepper m
            → StandsIn T.unread self.new.stepper (with_offset offset m) }
        ensures calls { (c : Calls) → ReachedByCalls self.old.stepper.scanner.options c → IsOpen c
            → self.old.stepper.ahead ≡ None → ParserIn T.unread self.old c
            → ChangesIn T.unread self.old.stepper.scanner.options (with_offset offset) self.new c }
        ensures held { (c : Calls) (f : Fault) → ReachedByCalls self.old.stepper.scanner.options c → IsOpen c
            → self.old.stepper.ahead ≡ Some f → ParserIn T.unread self.old c
            → HoldsChanged T.unread self.old.stepper.scanner.options (with_offset offset) self.new c f }
        ensures holds { (c : Calls) (f : Fault) → ParserHolds T.unread self.old c f
            → ParserHolds T.unread self.new (record c { steps = with_offset offset c.steps }) f }
        ensures there { (c : Calls) → IsOpen c → self.old.peeked ≡ None → StandsAt T.unread self.old c.steps
            → ParserIn T.unread self.old c
            → ParserIn T.unread self.new (record c { steps = with_offset offset c.steps }) }
        ensures closed { (c : Calls) → IsClosed c → c.fault ≡ None → ParserIn T.unread self.old c
            → ParserIn T.unread self.new c }
        ensures failed { (c : Calls) → IsClosed c → ParserIn T.unread self.old c
            → ParserIn T.unread self.new (record c { steps = with_offset offset c.steps }) }
        ensures value { self.new ≡ with_number offset self.old }
    {
        calls_go_by_turns();
        self.stepper.set_anchor_offset(offset);
    }
}
