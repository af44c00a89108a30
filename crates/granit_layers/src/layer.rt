//! What a stack asks of a parser, and a parser of a stack.
ghost use Rattle.std.specs.Prelude.{◌≡◌, ℕ, max};
ghost use Rattle.granit_layers.specs.Stacking.{TurnsLayer, layer_of};
ghost use Rattle.granit_layers.specs.Turning.{Next};
ghost use Rattle.granit_replay.specs.Replaying.{Replay};

use crate::turn::{Turn, turn_of};
use granit_base::{OwnedText, Span};
use granit_error::ScanError;
use granit_event::Event;
use granit_replay::ReplayParser;

/// A parser that a stack can hold.
pub trait StackedParser<'input>: Drop {
    /// What a step may give, and what it leaves.
    ghost steps: { Self → Next → Self → Type 0 };

    /// The number that a next anchor gets.
    ghost offset_of: { Self → ℕ };

    /// What the number is set to, and what that leaves.
    ghost sets_offset: { ℕ → Self → Self → Type 0 };

    /// The number that it is set to above a parser with that number.
    ghost offset_over: { Self → ℕ → ℕ };

    /// The next event and where it stands; none where nothing is left.
    fn next_event(&mut self) -> Option<Result<(Event<'input>, Span), ScanError>>
        ensures { steps self.old result self.new };

    /// The number that a next anchor gets.
    fn anchor_offset(&self) -> usize
        ensures { result ≡ offset_of self.now };

    /// Sets the number that a next anchor gets.
    fn set_anchor_offset(&mut self, offset: usize)
        ensures { sets_offset offset self.old self.new };

    /// The number that a next anchor gets where it is pushed on a parser with that number.
    fn offset_above(&self, below: usize) -> usize
        ensures { result ≡ offset_over self.now below };
}

/// A parser of a stack that can be events which are given once more.
pub trait FromReplay<'input>: StackedParser<'input> {
    /// The parser that gives those events.
    ghost again: { Replay → Self };

    /// The parser that gives those events.
    fn from_replay(replay: ReplayParser<'input>) -> Self
        ensures { result ≡ again replay.entry };
}

/// A parser of a stack.
#[derive(Debug, Drop)]
pub struct Layer<S> {
    /// What its source is called.
    pub name: OwnedText,
    /// The parser.
    pub parser: S,
    /// The span of the end of its document, once that was withheld.
    pub ended: Option<Span>,
}

impl<'input, S: StackedParser<'input>> Layer<S> {
    /// A parser as it is pushed on no other.
    pub(crate) fn first(parser: S, name: OwnedText) -> Layer<S>
        ensures { result ≡ layer_of parser name }
    {
        Layer {
            name,
            parser,
            ended: None,
        }
    }

    /// A parser as it is pushed on one with that number.
    pub(crate) fn above(parser: S, name: OwnedText, below: usize) -> Layer<S>
        ensures { (q : _) × S.sets_offset (S.offset_over parser below) parser q × (result ≡ layer_of q name) }
    {
        let mut parser = parser;
        parser.set_anchor_offset(parser.offset_above(below));
        Layer::first(parser, name)
    }

    /// The number that a next anchor gets is at least that.
    pub(crate) fn raised(self, offset: usize) -> Layer<S>
        ensures { (q : _) × S.sets_offset (max (S.offset_of self.parser) offset) self.parser q
            × (result ≡ record self { parser = q }) }
    {
        let mut layer = self;
        let raised = layer.parser.anchor_offset().max(offset);
        layer.parser.set_anchor_offset(raised);
        layer
    }

    /// A step of the parser, and what the rule makes of it.
    pub(crate) fn turn(&mut self, is_bottom: bool, emits_comments: bool) -> Turn<'input>
        ensures { TurnsLayer S.steps is_bottom emits_comments self.old result self.new }
    {
        let next = self.parser.next_event();
        let turn = turn_of(is_bottom, emits_comments, self.ended, next);
        if let Turn::Withholds(end) = &turn {
            self.ended = *end;
        }
        turn
    }
}
