//! Parsers that are put on a stack.
ghost use Rattle.std.specs.Prelude.{◌≡◌, false, OnOk, OnErr, IfErr};
ghost use Rattle.granit_layers.specs.Stacking.{Pushes, gives_first, is_none_left};
ghost use Rattle.granit_layers.specs.declared.kinds.AnyKind.TheVariants.{First, Second, Third, Fourth};

use crate::stack::IncludeStack;
use granit_base::{OwnedText, Span};
use granit_event::Event;
use granit_layers::{AnyKind, StackedParser};
use granit_replay::{RefusedParser, ReplayParser};

impl<'input, A, B, C, D, R> IncludeStack<'input, AnyKind<A, B, C, D>, R>
where
    A: StackedParser<'input>,
    B: StackedParser<'input>,
    C: StackedParser<'input>,
    D: StackedParser<'input>,
    R: Drop,
{
    /// Puts a parser over a string on the others.
    ///
    /// # Errors
    ///
    /// For want of memory alone, and above another parser alone: the parser and its name come back.
    pub fn push_str_parser(&mut self, parser: A, name: OwnedText) -> Result<(), RefusedParser<A>>
        ensures pushed { OnOk result (Pushes
            ⟦<AnyKind<A, B, C, D> as StackedParser<'input>>⟧.offset_of
            ⟦<AnyKind<A, B, C, D> as StackedParser<'input>>⟧.sets_offset
            ⟦<AnyKind<A, B, C, D> as StackedParser<'input>>⟧.offset_over
            self.old.stack.layers (First parser) name self.new.stack.layers) }
        ensures same { OnOk result (self.new
            ≡ record self.old { stack = record (self.old.stack) { layers = self.new.stack.layers } }) }
        ensures refused { IfErr result (λ r. (r.parser ≡ parser) × (r.name ≡ name) × (self.new ≡ self.old)) }
        ensures above { OnErr result (is_none_left self.old.stack.layers ≡ false) }
    {
        self.layers.push_first(parser, name)
    }

    /// Puts a parser over the characters of an iterator on the others.
    ///
    /// # Errors
    ///
    /// For want of memory alone, and above another parser alone: the parser and its name come back.
    pub fn push_iter_parser(&mut self, parser: B, name: OwnedText) -> Result<(), RefusedParser<B>>
        ensures pushed { OnOk result (Pushes
            ⟦<AnyKind<A, B, C, D> as StackedParser<'input>>⟧.offset_of
            ⟦<AnyKind<A, B, C, D> as StackedParser<'input>>⟧.sets_offset
            ⟦<AnyKind<A, B, C, D> as StackedParser<'input>>⟧.offset_over
            self.old.stack.layers (Second parser) name self.new.stack.layers) }
        ensures same { OnOk result (self.new
            ≡ record self.old { stack = record (self.old.stack) { layers = self.new.stack.layers } }) }
        ensures refused { IfErr result (λ r. (r.parser ≡ parser) × (r.name ≡ name) × (self.new ≡ self.old)) }
        ensures above { OnErr result (is_none_left self.old.stack.layers ≡ false) }
    {
        self.layers.push_second(parser, name)
    }

    /// Puts a parser over an input of the caller's on the others.
    ///
    /// # Errors
    ///
    /// For want of memory alone, and above another parser alone: the parser and its name come back.
    pub fn push_custom_parser(&mut self, parser: C, name: OwnedText) -> Result<(), RefusedParser<C>>
        ensures pushed { OnOk result (Pushes
            ⟦<AnyKind<A, B, C, D> as StackedParser<'input>>⟧.offset_of
            ⟦<AnyKind<A, B, C, D> as StackedParser<'input>>⟧.sets_offset
            ⟦<AnyKind<A, B, C, D> as StackedParser<'input>>⟧.offset_over
            self.old.stack.layers (Third parser) name self.new.stack.layers) }
        ensures same { OnOk result (self.new
            ≡ record self.old { stack = record (self.old.stack) { layers = self.new.stack.layers } }) }
        ensures refused { IfErr result (λ r. (r.parser ≡ parser) × (r.name ≡ name) × (self.new ≡ self.old)) }
        ensures above { OnErr result (is_none_left self.old.stack.layers ≡ false) }
    {
        self.layers.push_third(parser, name)
    }

    /// Puts a parser over an input of the caller's on the others. The event then comes first, in the place of one that
    /// was looked at, unless the stack ended, or is seen to end, or it is a comment and comments aren't asked for.
    ///
    /// # Errors
    ///
    /// For want of memory alone, and above another parser alone: the parser, the event and the name come back.
    pub fn push_custom_parser_with_current(
        &mut self,
        parser: C,
        name: OwnedText,
        current: (Event<'input>, Span),
    ) -> Result<(), RefusedParser<(C, (Event<'input>, Span))>>
        ensures pushed { OnOk result (Pushes
            ⟦<AnyKind<A, B, C, D> as StackedParser<'input>>⟧.offset_of
            ⟦<AnyKind<A, B, C, D> as StackedParser<'input>>⟧.sets_offset
            ⟦<AnyKind<A, B, C, D> as StackedParser<'input>>⟧.offset_over
            self.old.stack.layers (Third parser) name self.new.stack.layers) }
        ensures first { OnOk result (self.new ≡ record self.old {
          stack = record (gives_first self.old.stack current.entry) { layers = self.new.stack.layers };
        }) }
        ensures refused { IfErr result (λ r. (r.parser ≡ (parser, current.entry)) × (r.name ≡ name)
            × (self.new ≡ self.old)) }
        ensures above { OnErr result (is_none_left self.old.stack.layers ≡ false) }
    {
        self.layers.push_third_with(parser, name, current)
    }
}

impl<'input, A, B, C, R> IncludeStack<'input, AnyKind<A, B, C, ReplayParser<'input>>, R>
where
    A: StackedParser<'input>,
    B: StackedParser<'input>,
    C: StackedParser<'input>,
    R: Drop,
{
    /// Puts events that were read before on the others.
    ///
    /// # Errors
    ///
    /// For want of memory alone, and above another parser alone: the parser and its name come back.
    pub fn push_replay_parser(
        &mut self,
        parser: ReplayParser<'input>,
        name: OwnedText,
    ) -> Result<(), RefusedParser<ReplayParser<'input>>>
        ensures pushed { OnOk result (Pushes
            ⟦<AnyKind<A, B, C, ReplayParser<'input>> as StackedParser<'input>>⟧.offset_of
            ⟦<AnyKind<A, B, C, ReplayParser<'input>> as StackedParser<'input>>⟧.sets_offset
            ⟦<AnyKind<A, B, C, ReplayParser<'input>> as StackedParser<'input>>⟧.offset_over
            self.old.stack.layers (Fourth parser.entry) name self.new.stack.layers) }
        ensures same { OnOk result (self.new
            ≡ record self.old { stack = record (self.old.stack) { layers = self.new.stack.layers } }) }
        ensures refused { IfErr result (λ r. (r.parser ≡ parser.entry) × (r.name ≡ name) × (self.new ≡ self.old)) }
        ensures above { OnErr result (is_none_left self.old.stack.layers ≡ false) }
    {
        self.layers.push_fourth(parser, name)
    }
}
