//! Events that are given once more, on a stack.
use crate::layer::{FromReplay, StackedParser};
use granit_base::Span;
use granit_error::ScanError;
use granit_event::Event;
use granit_replay::ReplayParser;

/// Above another parser the number of a next anchor is the larger of both.
impl<'input> StackedParser<'input> for ReplayParser<'input> {
    ghost use Rattle.std.specs.Prelude.{◌≡◌, max};
    ghost use Rattle.granit_replay.specs.Replaying.{behind_next, next_of};

    ghost steps = { λ p r q. (r ≡ next_of p) × (q ≡ behind_next p) };

    ghost offset_of = { λ p. p.anchor_offset };

    ghost sets_offset = { λ offset p q. q ≡ record p { anchor_offset = offset } };

    ghost offset_over = { λ p below. max p.anchor_offset below };

    fn next_event(&mut self) -> Option<Result<(Event<'input>, Span), ScanError>> {
        self.next_event()
    }

    fn anchor_offset(&self) -> usize {
        self.anchor_offset()
    }

    fn set_anchor_offset(&mut self, offset: usize) {
        self.set_anchor_offset(offset);
    }

    fn offset_above(&self, below: usize) -> usize {
        self.anchor_offset().max(below)
    }
}

/// Events that are given once more are a parser of a stack as they are.
impl<'input> FromReplay<'input> for ReplayParser<'input> {
    ghost again = { λ replay. replay };

    fn from_replay(replay: ReplayParser<'input>) -> Self {
        replay
    }
}
