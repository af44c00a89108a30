//! Parsers of several kinds that are put on one stack.
ghost use Rattle.std.specs.Prelude.{◌≡◌, false, OnOk, OnErr, IfErr};
ghost use Rattle.granit_layers.specs.Stacking.{Pushes, gives_first, is_none_left};
ghost use Rattle.granit_layers.specs.declared.kinds.AnyKind.TheVariants.{First, Second, Third, Fourth};

use crate::kinds::AnyKind;
use crate::layer::StackedParser;
use crate::layers::Layers;
use granit_base::{OwnedText, Span};
use granit_event::Event;
use granit_replay::RefusedParser;

impl<'input, A, B, C, D> Layers<'input, AnyKind<A, B, C, D>>
where
    A: StackedParser<'input>,
    B: StackedParser<'input>,
    C: StackedParser<'input>,
    D: StackedParser<'input>,
{
    /// Puts a parser of the first kind on the others.
    ///
    /// # Errors
    ///
    /// For want of memory alone, and above another parser alone: the parser and its name come back.
    pub fn push_first(&mut self, parser: A, name: OwnedText) -> Result<(), RefusedParser<A>>
        ensures pushed { OnOk result (Pushes ⟦<AnyKind<A, B, C, D> as StackedParser<'input>>⟧.offset_of
            ⟦<AnyKind<A, B, C, D> as StackedParser<'input>>⟧.sets_offset
            ⟦<AnyKind<A, B, C, D> as StackedParser<'input>>⟧.offset_over self.old.layers (First parser) name
            self.new.layers) }
        ensures same { OnOk result (self.new ≡ record self.old { layers = self.new.layers }) }
        ensures refused { IfErr result (λ r. (r.parser ≡ parser) × (r.name ≡ name) × (self.new ≡ self.old)) }
        ensures above { OnErr result (is_none_left self.old.layers ≡ false) }
    {
        match self.push(AnyKind::First(parser), name) {
            Ok(()) => Ok(()),
            Err(RefusedParser { parser, name }) => match parser {
                AnyKind::First(parser) => Err(RefusedParser { parser, name }),
                _ => unreachable!(),
            },
        }
    }

    /// Puts a parser of the second kind on the others.
    ///
    /// # Errors
    ///
    /// For want of memory alone, and above another parser alone: the parser and its name come back.
    pub fn push_second(&mut self, parser: B, name: OwnedText) -> Result<(), RefusedParser<B>>
        ensures pushed { OnOk result (Pushes ⟦<AnyKind<A, B, C, D> as StackedParser<'input>>⟧.offset_of
            ⟦<AnyKind<A, B, C, D> as StackedParser<'input>>⟧.sets_offset
            ⟦<AnyKind<A, B, C, D> as StackedParser<'input>>⟧.offset_over self.old.layers (Second parser) name
            self.new.layers) }
        ensures same { OnOk result (self.new ≡ record self.old { layers = self.new.layers }) }
        ensures refused { IfErr result (λ r. (r.parser ≡ parser) × (r.name ≡ name) × (self.new ≡ self.old)) }
        ensures above { OnErr result (is_none_left self.old.layers ≡ false) }
    {
        match self.push(AnyKind::Second(parser), name) {
            Ok(()) => Ok(()),
            Err(RefusedParser { parser, name }) => match parser {
                AnyKind::Second(parser) => Err(RefusedParser { parser, name }),
                _ => unreachable!(),
            },
        }
    }

    /// Puts a parser of the third kind on the others.
    ///
    /// # Errors
    ///
    /// For want of memory alone, and above another parser alone: the parser and its name come back.
    pub fn push_third(&mut self, parser: C, name: OwnedText) -> Result<(), RefusedParser<C>>
        ensures pushed { OnOk result (Pushes ⟦<AnyKind<A, B, C, D> as StackedParser<'input>>⟧.offset_of
            ⟦<AnyKind<A, B, C, D> as StackedParser<'input>>⟧.sets_offset
            ⟦<AnyKind<A, B, C, D> as StackedParser<'input>>⟧.offset_over self.old.layers (Third parser) name
            self.new.layers) }
        ensures same { OnOk result (self.new ≡ record self.old { layers = self.new.layers }) }
        ensures refused { IfErr result (λ r. (r.parser ≡ parser) × (r.name ≡ name) × (self.new ≡ self.old)) }
        ensures above { OnErr result (is_none_left self.old.layers ≡ false) }
    {
        match self.push(AnyKind::Third(parser), name) {
            Ok(()) => Ok(()),
            Err(RefusedParser { parser, name }) => match parser {
                AnyKind::Third(parser) => Err(RefusedParser { parser, name }),
                _ => unreachable!(),
            },
        }
    }

    /// Puts a parser of the fourth kind on the others.
    ///
    /// # Errors
    ///
    /// For want of memory alone, and above another parser alone: the parser and its name come back.
    pub fn push_fourth(&mut self, parser: D, name: OwnedText) -> Result<(), RefusedParser<D>>
        ensures pushed { OnOk result (Pushes ⟦<AnyKind<A, B, C, D> as StackedParser<'input>>⟧.offset_of
            ⟦<AnyKind<A, B, C, D> as StackedParser<'input>>⟧.sets_offset
            ⟦<AnyKind<A, B, C, D> as StackedParser<'input>>⟧.offset_over self.old.layers (Fourth parser) name
            self.new.layers) }
        ensures same { OnOk result (self.new ≡ record self.old { layers = self.new.layers }) }
        ensures refused { IfErr result (λ r. (r.parser ≡ parser) × (r.name ≡ name) × (self.new ≡ self.old)) }
        ensures above { OnErr result (is_none_left self.old.layers ≡ false) }
    {
        match self.push(AnyKind::Fourth(parser), name) {
            Ok(()) => Ok(()),
            Err(RefusedParser { parser, name }) => match parser {
                AnyKind::Fourth(parser) => Err(RefusedParser { parser, name }),
                _ => unreachable!(),
            },
        }
    }

    /// Puts a parser of the third kind on the others, and gives an event first, as `give_first` does.
    ///
    /// # Errors
    ///
    /// For want of memory alone, and above another parser alone: the parser, the event and the name come back.
    pub fn push_third_with(
        &mut self,
        parser: C,
        name: OwnedText,
        current: (Event<'input>, Span),
    ) -> Result<(), RefusedParser<(C, (Event<'input>, Span))>>
        ensures pushed { OnOk result (Pushes ⟦<AnyKind<A, B, C, D> as StackedParser<'input>>⟧.offset_of
            ⟦<AnyKind<A, B, C, D> as StackedParser<'input>>⟧.sets_offset
            ⟦<AnyKind<A, B, C, D> as StackedParser<'input>>⟧.offset_over self.old.layers (Third parser) name
            self.new.layers) }
        ensures first { OnOk result (self.new
            ≡ record (gives_first self.old current.entry) { layers = self.new.layers }) }
        ensures refused { IfErr result (λ r. (r.parser ≡ (parser, current.entry)) × (r.name ≡ name)
            × (self.new ≡ self.old)) }
        ensures above { OnErr result (is_none_left self.old.layers ≡ false) }
    {
        match self.push_third(parser, name) {
            Ok(()) => {
                self.give_first(current);
                Ok(())
            }
            Err(RefusedParser { parser, name }) => Err(RefusedParser {
                parser: (parser, current),
                name,
            }),
        }
    }
}
