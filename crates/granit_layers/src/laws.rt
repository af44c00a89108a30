//! What follows for a source that lies on another one.
ghost use Rattle.granit_layers.specs.Nested.{OneDocumentComesThrough};
ghost use Rattle.granit_layers.specs.Passing.{CallsAreTurns, LooksAreTurns, ReplayComesThrough};
ghost use Rattle.granit_layers.specs.declared.kinds.AnyKind.TheVariants.{Fourth};

use crate::kinds::AnyKind;
use crate::layer::StackedParser;
use granit_replay::ReplayParser;

/// A source of at most one document comes through but for the beginnings and ends of its stream and its document.
pub fn one_document_comes_through()
    ensures { OneDocumentComesThrough }
{}

/// Calls of `next_event` that give events, and of `peek`, are turns of the parsers, which give those events.
pub fn calls_are_turns<'input, S: StackedParser<'input>>()
    ensures calls { CallsAreTurns S.steps S.offset_of S.sets_offset }
    ensures looks { LooksAreTurns S.steps S.offset_of S.sets_offset }
{}

/// Events of at most one document that are given once more above another parser come through one by one, behind what
/// was looked at, and then what the parsers below give.
pub fn a_replay_comes_through<'input, A, B, C>()
where
    A: StackedParser<'input>,
    B: StackedParser<'input>,
    C: StackedParser<'input>,
    ensures { ReplayComesThrough ⟦<AnyKind<A, B, C, ReplayParser<'input>> as StackedParser<'input>>⟧.steps
        ⟦<AnyKind<A, B, C, ReplayParser<'input>> as StackedParser<'input>>⟧.offset_of
        ⟦<AnyKind<A, B, C, ReplayParser<'input>> as StackedParser<'input>>⟧.sets_offset Fourth }
{}
