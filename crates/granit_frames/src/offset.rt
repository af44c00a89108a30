//! The number that a next anchor gets.
ghost use Rattle.std.specs.Prelude.{◌≡◌, ◌==◌, ◌≤◌, ◌-◌, ◌^◌, min, suc};

use crate::state::ParserState;

impl<'input> ParserState<'input> {
    /// The number that a next anchor gets, held at the greatest one.
    pub fn anchor_offset(&self) -> usize
        ensures { result ≡ min (suc self.now.count) (2 ^ 64 - 1) }
    {
        self.count.saturating_add(1)
    }

    /// Whether an anchor got the greatest number, behind which none is left.
    pub fn is_numbered_out(&self) -> bool
        ensures last { result ≡ (self.now.count == 2 ^ 64 - 1) }
        ensures within { self.now.count ≤ 2 ^ 64 - 1 }
    {
        self.count == usize::MAX
    }

    /// From now on a next anchor gets this number; 0 is as 1.
    pub fn set_anchor_offset(&mut self, offset: usize)
        ensures { self.new ≡ record self.old { count = offset - 1 } }
    {
        self.count = offset.saturating_sub(1);
    }
}
