//! Parsers on a stack.
ghost use mir.Syntax.{named};
ghost use Rattle.std.specs.Prelude.{◌≡◌, [], true, None, Some, IfOk, IfSome, IsOk};
ghost use Rattle.std.specs.Borrow.{sem};
ghost use Rattle.std.specs.Io.BufRead.{Rests};
ghost use Rattle.granit_error.specs.OptionsData.{default_options};
ghost use Rattle.granit_error.specs.OptionsView.{options_of};
ghost use Rattle.granit_layers.specs.Sending.{StackLoads, StackTries, failure_of};
ghost use Rattle.granit_layers.specs.Stacking.{PeeksAs, StepsTo, names_of, top_offset};
ghost use Rattle.granit_receivers.specs.Kept.{CountsErrors, GivesAgain, ScansAgain};
ghost use Rattle.granit_receivers.specs.Sending.{shown};
ghost use Rattle.granit_receivers.specs.Taking.{Took};
ghost use Rattle.granit_stack.specs.contracts.stack.IncludeStack.{the_row};

use granit_base::{NoMemory, Span, TextList};
use granit_buffered::BufferedInput;
use granit_error::{Options, ScanError};
use granit_event::Event;
use granit_input::StrInput;
use granit_layers::{AnyKind, Layers, StackedParser};
use granit_parser::Parser;
use granit_receivers::{SpannedEventReceiver, TryLoadError, TrySpannedEventReceiver};
use granit_replay::{NoChars, ReplayParser};
use std::alloc::Global;
use std::iter::FusedIterator;
use std::marker::Model;

/// Parsers on a stack, of which the top one gives the events; and who finds includes.
#[derive(Drop)]
pub struct IncludeStack<'input, S, R> {
    pub(crate) alloc: Global,
    pub(crate) options: Options,
    pub(crate) layers: Layers<'input, S>,
    pub(crate) resolver: Option<R>,
}

impl<'input, S, R> Model for IncludeStack<'input, S, R> {
    ghost use Rattle.granit_error.specs.OptionsView.{options_of};
    ghost use Rattle.granit_stack.specs.Stacked.{Stacked};

    ghost Value = { Stacked S R };

    ghost view = { λ p. record { stack = p.layers; options = options_of p.options; resolver = p.resolver } };
}

/// A stack of parsers over strings, over iterators of characters and over inputs of the caller's.
pub type ParserStack<'input, I, T, R> = IncludeStack<
    'input,
    AnyKind<
        Parser<'input, StrInput<'input>>,
        Parser<'input, BufferedInput<I>>,
        Parser<'input, T>,
        ReplayParser<'input>,
    >,
    R,
>;

/// A stack of parsers over strings.
pub type StrStack<'input, R> = ParserStack<'input, NoChars, StrInput<'input>, R>;

impl<'input, S, R> IncludeStack<'input, S, R>
where
    S: StackedParser<'input>,
    R: Drop,
{
    /// No parsers, and nobody who finds includes; what is included is read with the default options.
    pub fn new(alloc: Global) -> IncludeStack<'input, S, R>
        ensures { result ≡ record {
          stack = record { layers = []; emits_comments = true; peeked = None; end = None };
          options = default_options;
          resolver = None;
        } }
    {
        IncludeStack::with_options(alloc, Options::default())
    }

    /// No parsers, and nobody who finds includes; what is included is read with these options.
    pub fn with_options(alloc: Global, options: Options) -> IncludeStack<'input, S, R>
        ensures { result ≡ record {
          stack = record { layers = []; emits_comments = options.emit_comments; peeked = None; end = None };
          options = options_of options;
          resolver = None;
        } }
    {
        IncludeStack {
            alloc,
            options,
            layers: Layers::new(alloc, options.emit_comments),
            resolver: None,
        }
    }

    /// Who finds includes from now on.
    pub fn set_resolver(&mut self, resolver: R)
        ensures { self.new ≡ record self.old { resolver = Some resolver } }
    {
        self.resolver = Some(resolver);
    }

    /// The number that a next anchor gets of the top parser; 0 where there is none.
    pub fn current_anchor_offset(&self) -> usize
        ensures { result ≡ top_offset
            S.offset_of self.now.stack.layers }
    {
        self.layers.current_anchor_offset()
    }

    /// The names of the parsers, the bottom one's first.
    ///
    /// # Errors
    ///
    /// `NoMemory` alone, and none where there is no parser.
    pub fn stack(&self) -> Result<TextList, NoMemory>
        ensures names { IfOk result (λ names. names ≡ names_of self.now.stack.layers) }
        ensures memory { self.now.stack.layers ≡ [] → IsOk result }
    {
        self.layers.names()
    }

    /// What the next call of `next_event` gives, which gives it all the same.
    ///
    /// # Errors
    ///
    /// As `next_event`, lent as often as asked.
    pub fn peek(&mut self) -> Option<Result<&(Event<'input>, Span), &ScanError>>
        ensures* { sem 𝓛 (Rests (the_row (record { mir = named 1; lft = [] }) S.row R.row) self.entry
            (λ new. PeeksAs S.steps
            S.offset_of
            S.sets_offset self.old.stack
            (shown result) new.stack
            × (new ≡ record self.old { stack = new.stack }))) }
    {
        self.look_on();
        self.look()
    }

    /// Reads the next event, where none was looked at.
    fn look_on(&mut self)
        ensures looks { PeeksAs S.steps
            S.offset_of
            S.sets_offset self.old.stack self.new.stack.peeked
            self.new.stack }
        ensures same { self.new ≡ record self.old { stack = self.new.stack } }
    {
        self.layers.look_on();
    }

    /// What was looked at and not taken.
    fn look(&self) -> Option<Result<&(Event<'input>, Span), &ScanError>>
        ensures { shown result ≡ self.now.stack.peeked }
    {
        self.layers.look()
    }

    /// The next event and where it stands; none behind the end of the stream, and behind a refusal.
    ///
    /// # Errors
    ///
    /// What the top parser is refused, by the names of the stack; or that a source goes on behind its document; or
    /// `NoMemory`.
    pub fn next_event(&mut self) -> Option<Result<(Event<'input>, Span), ScanError>>
        ensures step { StepsTo S.steps
            S.offset_of
            S.sets_offset self.old.stack result
            self.new.stack }
        ensures same { self.new ≡ record self.old { stack = self.new.stack } }
    {
        self.layers.next_event()
    }

    /// Sends the next events to a receiver in order: up to the end of the stream with `multi`, else up to the end of a
    /// document. Behind the end of the stream, and behind a refusal, nothing is sent.
    ///
    /// # Errors
    ///
    /// As `next_event`, behind the events that were sent, or what was refused before, again.
    pub fn load<V: SpannedEventReceiver<'input>>(
        &mut self,
        recv: &mut V,
        multi: bool,
    ) -> Result<(), ScanError>
        ensures sent { failure_of self.old.stack.end ≡ None
            → StackLoads S.steps
            S.offset_of
            S.sets_offset multi
            (Took (record { events = V.taken recv.old; places = V.spans recv.old })
            (record { events = V.taken recv.new; places = V.spans recv.new }))
            self.old.stack result self.new.stack }
        ensures again { IfSome (failure_of self.old.stack.end) (λ e. GivesAgain e result × (recv.new ≡ recv.old)
            × (self.new ≡ self.old)) }
        ensures same { self.new ≡ record self.old { stack = self.new.stack } }
    {
        self.layers.load(recv, multi)
    }

    /// Sends the next events to a receiver that may refuse one, which is then the last. All else is as with `load`.
    ///
    /// # Errors
    ///
    /// As `load`, and what the receiver answered.
    pub fn try_load<V: TrySpannedEventReceiver<'input>>(
        &mut self,
        recv: &mut V,
        multi: bool,
    ) -> Result<(), TryLoadError<V::Error>>
        ensures sent { failure_of self.old.stack.end ≡ None
            → StackTries S.steps
            S.offset_of
            S.sets_offset multi
            (Took (record { events = V.taken recv.old; places = V.spans recv.old })
            (record { events = V.taken recv.new; places = V.spans recv.new }))
            self.old.stack result self.new.stack }
        ensures again { IfSome (failure_of self.old.stack.end) (λ e. ScansAgain e result × (recv.new ≡ recv.old)
            × (self.new ≡ self.old)) }
        ensures errors { CountsErrors (V.errors recv.old) (V.errors recv.new) result }
        ensures same { self.new ≡ record self.old { stack = self.new.stack } }
    {
        self.layers.try_load(recv, multi)
    }
}

/// The events one by one, as `next_event` gives them.
impl<'input, S, R> Iterator for IncludeStack<'input, S, R>
where
    S: StackedParser<'input>,
    R: Drop,
{
    type Item = Result<(Event<'input>, Span), ScanError>;

    ghost use Rattle.std.specs.Prelude.{◌≡◌};
    ghost use Rattle.granit_layers.specs.Stacking.{StepsTo};

    ghost next_gives = { λ p r q. StepsTo S.steps
        S.offset_of
        S.sets_offset p.stack r q.stack
        × (q ≡ record p { stack = q.stack }) };

    fn next(&mut self) -> Option<Result<(Event<'input>, Span), ScanError>> {
        self.next_event()
    }
}

impl<'input, S, R> FusedIterator for IncludeStack<'input, S, R>
where
    S: StackedParser<'input>,
    R: Drop,
{}
