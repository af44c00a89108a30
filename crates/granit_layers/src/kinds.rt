//! Parsers of several kinds on one stack.
use crate::layer::{FromReplay, StackedParser};
use granit_base::Span;
use granit_error::ScanError;
use granit_event::Event;
use granit_replay::ReplayParser;

/// A parser of one of four kinds.
#[derive(Debug, Drop)]
pub enum AnyKind<A, B, C, D> {
    /// Of the first kind.
    First(A),
    /// Of the second kind.
    Second(B),
    /// Of the third kind.
    Third(C),
    /// Of the fourth kind.
    Fourth(D),
}

impl<'input, A, B, C, D> StackedParser<'input> for AnyKind<A, B, C, D>
where
    A: StackedParser<'input>,
    B: StackedParser<'input>,
    C: StackedParser<'input>,
    D: StackedParser<'input>,
{
    ghost use Rattle.granit_layers.specs.Kinds.{SetsAny, StepsAny, number_by_kind, number_over};

    ghost steps = { StepsAny A.steps B.steps C.steps D.steps };

    ghost offset_of = { number_by_kind A.offset_of B.offset_of C.offset_of D.offset_of };

    ghost sets_offset = { SetsAny A.sets_offset B.sets_offset C.sets_offset D.sets_offset };

    ghost offset_over = { number_over A.offset_over B.offset_over C.offset_over D.offset_over };

    fn next_event(&mut self) -> Option<Result<(Event<'input>, Span), ScanError>> {
        match self {
            AnyKind::First(parser) => parser.next_event(),
            AnyKind::Second(parser) => parser.next_event(),
            AnyKind::Third(parser) => parser.next_event(),
            AnyKind::Fourth(parser) => parser.next_event(),
        }
    }

    fn anchor_offset(&self) -> usize {
        match self {
            AnyKind::First(parser) => parser.anchor_offset(),
            AnyKind::Second(parser) => parser.anchor_offset(),
            AnyKind::Third(parser) => parser.anchor_offset(),
            AnyKind::Fourth(parser) => parser.anchor_offset(),
        }
    }

    fn set_anchor_offset(&mut self, offset: usize) {
        match self {
            AnyKind::First(parser) => parser.set_anchor_offset(offset),
            AnyKind::Second(parser) => parser.set_anchor_offset(offset),
            AnyKind::Third(parser) => parser.set_anchor_offset(offset),
            AnyKind::Fourth(parser) => parser.set_anchor_offset(offset),
        }
    }

    fn offset_above(&self, below: usize) -> usize {
        match self {
            AnyKind::First(parser) => parser.offset_above(below),
            AnyKind::Second(parser) => parser.offset_above(below),
            AnyKind::Third(parser) => parser.offset_above(below),
            AnyKind::Fourth(parser) => parser.offset_above(below),
        }
    }
}

/// Events that are given once more are of the fourth kind.
impl<'input, A, B, C, D> FromReplay<'input> for AnyKind<A, B, C, D>
where
    A: StackedParser<'input>,
    B: StackedParser<'input>,
    C: StackedParser<'input>,
    D: FromReplay<'input>,
{
    ghost use Rattle.granit_layers.specs.declared.kinds.AnyKind.TheVariants.{Fourth};

    ghost again = { λ replay. Fourth (D.again replay) };

    fn from_replay(replay: ReplayParser<'input>) -> Self {
        AnyKind::Fourth(D::from_replay(replay))
    }
}
