//! The number that a next anchor gets.
ghost use Rattle.std.specs.Prelude.{◌≡◌, ◌-◌, ◌^◌, min, suc};
ghost use Rattle.granit_base.specs.Place.{Unread};
ghost use Rattle.granit_error.specs.Refused.{Refused};
ghost use Rattle.granit_stepper.specs.Offset.{renumbered_by, with_offset};
ghost use Rattle.granit_stepper.specs.Refusals.{StandsRefused};
ghost use Rattle.granit_stepper.specs.Stepping.{StandsIn};
ghost use Rattle.granit_steps.specs.Steps.{StepState};

use crate::stepper::Stepper;
use granit_input::BorrowedInput;

impl<'input, T: BorrowedInput<'input>> Stepper<'input, T> {
    /// The number that a next anchor gets, held at the greatest one.
    pub fn anchor_offset(&self) -> usize
        ensures { result ≡ min (suc self.now.parser.count) (2 ^ 64 - 1) }
    {
        self.parser.anchor_offset()
    }

    /// From now on a next anchor gets this number, behind a refusal too; 0 is as 1, and the greatest one is left to
    /// none.
    pub fn set_anchor_offset(&mut self, offset: usize)
        ensures known { (m : StepState) → StandsIn T.unread self.old m
            → StandsIn T.unread self.new (with_offset offset m) }
        ensures refused { (m : StepState) (e : Refused) → StandsRefused T.unread self.old m e
            → StandsRefused T.unread self.new (with_offset offset m) e }
        ensures rest { self.new ≡ renumbered_by offset self.old }
    {
        self.parser.set_anchor_offset(offset);
        self.renumbered = true;
        if let Some(refusal) = &mut self.refusal {
            refusal.set_anchor_offset(offset);
        }
    }

    /// How many comments may be kept.
    pub fn max_comments(&self) -> usize
        ensures { result ≡ self.now.scanner.options.max_buffered_comment_events }
    {
        self.scanner.options().max_buffered_comment_events
    }
}
