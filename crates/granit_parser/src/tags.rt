//! Whether a parser keeps what handles stand for over documents.
ghost use Rattle.std.specs.Prelude.{◌≡◌, None, Some};
ghost use Rattle.granit_lexemes.specs.Outcome.{Fault};
ghost use Rattle.granit_parser.specs.Holding.{HoldsChanged, ParserHolds};
ghost use Rattle.granit_parser.specs.Parsing.{StandsAt, parser_keeping};
ghost use Rattle.granit_parser.specs.Recovering.{ChangesIn, IsClosed, IsOpen, ParserIn, unchanged};
ghost use Rattle.granit_recovery.specs.Streams.{ReachedByCalls};
ghost use Rattle.granit_restart.specs.Calls.{Calls};
ghost use Rattle.granit_steps.specs.Steps.{StepState};

use crate::parser::Parser;
use granit_calls::calls_go_by_turns;
use granit_input::BorrowedInput;

impl<'input, T: BorrowedInput<'input>> Parser<'input, T> {
    /// Whether the handles of `%TAG` but `!` and `!!` stay over documents: sets the option `keep_tags` of this parser.
    ///
    /// The contract: where the machine's calls led, they go on from there under that option (`there`), also where
    /// turns were made early (`calls`). Where such a turn was refused, that waits still (`held`, `holds`): `next_event`
    /// tells what comes then. Behind a fault that was given recovery goes on under that option (`closed`).
    pub fn keep_tags(mut self, value: bool) -> Parser<'input, T>
        ensures set { result ≡ parser_keeping value self.entry }
        ensures known { (m : StepState) → self.entry.peeked ≡ None → StandsAt T.unread self.entry m
            → StandsAt T.unread result m }
        ensures calls { (c : Calls) → ReachedByCalls self.entry.stepper.scanner.options c → IsOpen c
            → self.entry.stepper.ahead ≡ None → ParserIn T.unread self.entry c
            → ChangesIn T.unread self.entry.stepper.scanner.options unchanged result c }
        ensures held { (c : Calls) (f : Fault) → ReachedByCalls self.entry.stepper.scanner.options c → IsOpen c
            → self.entry.stepper.ahead ≡ Some f → ParserIn T.unread self.entry c
            → HoldsChanged T.unread self.entry.stepper.scanner.options unchanged result c f }
        ensures holds { (c : Calls) (f : Fault) → ParserHolds T.unread self.entry c f
            → ParserHolds T.unread result c f }
        ensures there { (c : Calls) → IsOpen c → self.entry.peeked ≡ None → StandsAt T.unread self.entry c.steps
            → ParserIn T.unread self.entry c → ParserIn T.unread result c }
        ensures closed { (c : Calls) → IsClosed c → ParserIn T.unread self.entry c → ParserIn T.unread result c }
    {
        calls_go_by_turns();
        self.stepper.set_keep_tags(value);
        self
    }
}
