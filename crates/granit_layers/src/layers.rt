//! Parsers that lie on one another.
//!
//! Where much may go it is dropped by a call: in place, proofs write out each way for each kind of event and error.
ghost use mir.Syntax.{named};
ghost use Rattle.std.specs.Prelude.{◌≡◌, [], ◌∷◌, ◌++◌, false, None, Some, OnOk, OnErr, IfOk, IfErr, IsOk};
ghost use Rattle.std.specs.Str.{chars};
ghost use Rattle.std.specs.Borrow.{sem};
ghost use Rattle.std.specs.Io.BufRead.{Rests};
ghost use Rattle.granit_layers.specs.Stacking.{ComesNext, EndsStack, IsNamed, PeeksAs, Pushes, StackReads, StepsTo};
ghost use Rattle.granit_layers.specs.Stacking.{IsWithin, TurnsOnce, Uncovers, gives_first, is_ending, is_none_left};
ghost use Rattle.granit_layers.specs.Stacking.{names_of, top_offset};
ghost use Rattle.granit_layers.specs.contracts.layers.Layers.{the_row};
ghost use Rattle.granit_receivers.specs.Sending.{shown};

use crate::layer::{Layer, StackedParser};
use crate::turn::{Part, Turn, bare_end, part_of};
use granit_base::{NoMemory, OwnedText, Span, TextList};
use granit_error::ScanError;
use granit_event::Event;
use granit_receivers::kept;
use granit_replay::RefusedParser;
use std::alloc::Global;
use std::collections::VecDeque;
use std::iter::FusedIterator;
use std::marker::Model;

/// Parsers that lie on one another. Contracts see their list, the top one first.
#[derive(Drop)]
pub struct Layers<'input, S> {
    pub(crate) alloc: Global,
    emits_comments: bool,
    top: Option<Layer<S>>,
    // The nearest first.
    below: VecDeque<Layer<S>>,
    // What was looked at and not taken.
    pub(crate) peeked: Option<Result<(Event<'input>, Span), ScanError>>,
    // How the stack ended.
    pub(crate) end: Option<Result<(), ScanError>>,
}

impl<'input, S> Model for Layers<'input, S> {
    ghost use Rattle.granit_layers.specs.Stacking.{LiesBelow, NoLookBehindEnd, Stack, layers_of};

    ghost Value = { Stack S };

    ghost view = { λ p. record {
      layers = layers_of p.top p.below.items;
      emits_comments = p.emits_comments;
      peeked = p.peeked;
      end = p.end;
    } };

    ghost invariant = { λ p. LiesBelow p.top p.below.items × NoLookBehindEnd p.peeked p.end };
}

impl<'input, S: StackedParser<'input>> Layers<'input, S> {
    /// No parsers.
    pub fn new(alloc: Global, emits_comments: bool) -> Layers<'input, S>
        ensures { result ≡ record { layers = []; emits_comments = emits_comments; peeked = None; end = None } }
    {
        Layers {
            alloc,
            emits_comments,
            top: None,
            below: VecDeque::new(alloc),
            peeked: None,
            end: None,
        }
    }

    /// Puts a parser on the others.
    ///
    /// # Errors
    ///
    /// For want of memory alone, and above another parser alone: the parser and its name come back.
    pub fn push(&mut self, parser: S, name: OwnedText) -> Result<(), RefusedParser<S>>
        ensures pushed { OnOk result (Pushes S.offset_of S.sets_offset S.offset_over self.old.layers parser name
            self.new.layers) }
        ensures same { OnOk result (self.new ≡ record self.old { layers = self.new.layers }) }
        ensures refused { IfErr result (λ r. (r.parser ≡ parser) × (r.name ≡ name)
            × (self.new ≡ self.old)) }
        ensures above { OnErr result (is_none_left self.old.layers ≡ false) }
    {
        match self.top.take() {
            None => {
                self.top = Some(Layer::first(parser, name));
                Ok(())
            }
            Some(below) => {
                let offset = below.parser.anchor_offset();
                match self.below.push_front(below) {
                    Ok(()) => {
                        self.top = Some(Layer::above(parser, name, offset));
                        Ok(())
                    }
                    Err(refused) => {
                        self.top = Some(refused.value);
                        Err(RefusedParser { parser, name })
                    }
                }
            }
        }
    }

    /// The number that a next anchor gets of the top parser; 0 where there is none.
    pub fn current_anchor_offset(&self) -> usize
        ensures { result ≡ top_offset S.offset_of self.now.layers }
    {
        match &self.top {
            None => 0,
            Some(layer) => layer.parser.anchor_offset(),
        }
    }

    /// The names of the parsers, the bottom one's first.
    ///
    /// # Errors
    ///
    /// `NoMemory` alone, and none where there is no parser.
    pub fn names(&self) -> Result<TextList, NoMemory>
        ensures names { IfOk result (λ names. names ≡ names_of self.now.layers) }
        ensures memory { self.now.layers ≡ [] → IsOk result }
    {
        match &self.top {
            None => Ok(TextList::new(self.alloc)),
            Some(layer) => {
                let mut names = names_below(self.alloc, &self.below)?;
                names.push(layer.name.try_clone(self.alloc)?)?;
                Ok(names)
            }
        }
    }

    /// An error with the names of the stack, where it has two or more.
    fn named(&self, error: ScanError) -> ScanError
        ensures { IsNamed self.now.layers error result }
    {
        if self.below.is_empty() {
            return error;
        }
        match self.names() {
            Ok(names) => error.with_source_stack(names),
            Err(no_memory) => ScanError::from(no_memory),
        }
    }

    /// The top parser leaves; the one below it gets the larger of both numbers.
    fn leave(&mut self)
        ensures left { Uncovers S.offset_of S.sets_offset self.old.layers self.new.layers }
        ensures same { self.new ≡ record self.old { layers = self.new.layers } }
    {
        let offset = self.current_anchor_offset();
        self.top = match self.below.pop_front() {
            None => None,
            Some(layer) => Some(layer.raised(offset)),
        };
    }

    /// Whether there is no parser.
    pub fn is_empty(&self) -> bool
        ensures { result ≡ is_none_left self.now.layers }
    {
        self.top.is_none()
    }

    /// An error with the names of the stack and another one.
    pub fn error_within(&self, error: ScanError, name: &str) -> ScanError
        ensures { IsWithin self.now.layers (chars name.now) error result }
    {
        match self.names_within(name) {
            Ok(names) => error.with_source_stack(names),
            Err(no_memory) => ScanError::from(no_memory),
        }
    }

    /// The names of the stack and another one.
    fn names_within(&self, name: &str) -> Result<TextList, NoMemory>
        ensures { IfOk result (λ names. names ≡ names_of self.now.layers
            ++ record { characters = chars name.now; is_borrowed = false } ∷ []) }
    {
        let mut names = self.names()?;
        names.push(OwnedText::from_str(self.alloc, name)?)?;
        Ok(names)
    }

    /// Gives an event first, in the place of one that was looked at, unless the stack ended or is seen to end; but no
    /// comment where none come through.
    pub fn give_first(&mut self, event: (Event<'input>, Span))
        ensures { self.new ≡ gives_first self.old event.entry }
    {
        if self.is_ending() {
            return drop(event);
        }
        if self.emits_comments || part_of(&event.0) != Part::Comment {
            drop(self.peeked.replace(Ok(event)));
        } else {
            drop(event);
            drop(self.peeked.take());
        }
    }

    /// Whether the stack ended, or is seen to end.
    fn is_ending(&self) -> bool
        ensures { result ≡ is_ending self.now.peeked self.now.end }
    {
        if self.end.is_some() {
            return true;
        }
        match &self.peeked {
            None => false,
            Some(Err(_)) => true,
            Some(Ok((event, _))) => part_of(event) == Part::StreamEnd,
        }
    }

    /// The next event and where it stands; none behind the end of the stream, and behind a refusal.
    ///
    /// # Errors
    ///
    /// What the top parser is refused, by the names of the stack; or that a source goes on behind its document; or
    /// `NoMemory`.
    pub fn next_event(&mut self) -> Option<Result<(Event<'input>, Span), ScanError>>
        ensures { StepsTo S.steps S.offset_of S.sets_offset self.old result self.new }
    {
        match self.take_next() {
            None => None,
            Some(next) => {
                self.end_with(&next);
                Some(next)
            }
        }
    }

    /// What was looked at, or what is read, where the stack hasn't ended.
    fn take_next(&mut self) -> Option<Result<(Event<'input>, Span), ScanError>>
        ensures gives { ComesNext S.steps S.offset_of S.sets_offset self.old.emits_comments self.old.peeked
            self.old.end self.old.layers result self.new.layers }
        ensures same { self.new ≡ record self.old { layers = self.new.layers; peeked = None } }
    {
        if let Some(next) = self.peeked.take() {
            return Some(next);
        }
        if self.end.is_some() {
            return None;
        }
        Some(self.read_event())
    }

    /// The end of the stream, and a refusal, end the stack.
    fn end_with(&mut self, next: &Result<(Event<'input>, Span), ScanError>)
        requires { self.old.peeked ≡ None }
        ensures end { EndsStack (Some next.now) self.old.end self.new.end }
        ensures same { self.new ≡ record self.old { end = self.new.end } }
    {
        match next {
            Err(error) => drop(self.end.replace(Err(kept(self.alloc, error)))),
            Ok((event, _)) => {
                if part_of(event) == Part::StreamEnd {
                    drop(self.end.replace(Ok(())));
                }
            }
        }
    }

    /// What the next call of `next_event` gives, which gives it all the same.
    ///
    /// # Errors
    ///
    /// As `next_event`, lent as often as asked.
    pub fn peek(&mut self) -> Option<Result<&(Event<'input>, Span), &ScanError>>
        ensures* { sem 𝓛 (Rests (the_row (record { mir = named 1; lft = [] }) S.row) self.entry (λ new.
            PeeksAs S.steps S.offset_of S.sets_offset self.old (shown result) new)) }
    {
        self.look_on();
        self.look()
    }

    /// Reads the next event, where none was looked at.
    pub fn look_on(&mut self)
        ensures { PeeksAs S.steps S.offset_of S.sets_offset self.old self.new.peeked self.new }
    {
        if self.peeked.is_none() && self.end.is_none() {
            let next = self.read_event();
            self.put_ahead(next);
        }
    }

    /// Keeps what was read ahead.
    fn put_ahead(&mut self, next: Result<(Event<'input>, Span), ScanError>)
        requires { self.old.end ≡ None }
        ensures { self.new ≡ record self.old { peeked = Some next.entry } }
    {
        self.peeked = Some(next);
    }

    /// What was looked at and not taken.
    pub fn look(&self) -> Option<Result<&(Event<'input>, Span), &ScanError>>
        ensures { shown result ≡ self.now.peeked }
    {
        match &self.peeked {
            None => None,
            Some(Ok(event)) => Some(Ok(event)),
            Some(Err(error)) => Some(Err(error)),
        }
    }

    /// The first event that comes through, or why there is none.
    fn read_event(&mut self) -> Result<(Event<'input>, Span), ScanError>
        ensures reads { StackReads S.steps S.offset_of S.sets_offset self.old.emits_comments self.old.layers result
            self.new.layers }
        ensures same { self.new ≡ record self.old { layers = self.new.layers } }
    {
        'turns: for _count in 0..u64::MAX {
            if let Some(next) = self.turn() {
                return next;
            }
        }
        Err(ScanError::from(NoMemory))
    }

    /// A turn of the stack: what is given, if anything.
    fn turn(&mut self) -> Option<Result<(Event<'input>, Span), ScanError>>
        ensures turns { TurnsOnce S.steps S.offset_of S.sets_offset self.old.emits_comments self.old.layers result
            self.new.layers }
        ensures same { self.new ≡ record self.old { layers = self.new.layers } }
    {
        let Some(mut layer) = self.top.take() else {
            return Some(Ok(bare_end()));
        };
        let turn = layer.turn(self.below.is_empty(), self.emits_comments);
        self.top = Some(layer);
        match turn {
            Turn::Gives(event) => Some(Ok(event)),
            Turn::Withholds(_) => None,
            Turn::Leaves => {
                self.leave();
                None
            }
            Turn::Ends(event) => {
                self.leave();
                Some(Ok(event))
            }
            Turn::Fails(error) => {
                let error = self.named(error);
                self.leave();
                Some(Err(error))
            }
        }
    }
}

/// The names of the parsers below, the bottom one's first.
fn names_below<S>(alloc: Global, below: &VecDeque<Layer<S>>) -> Result<TextList, NoMemory>
    ensures { IfOk result (λ names. names ≡ names_of below.now.items) }
{
    let mut names = TextList::new(alloc);
    let mut left = below.len();
    'layers: while left > 0 {
        left -= 1;
        names.push(below[left].name.try_clone(alloc)?)?;
    }
    Ok(names)
}

/// The events one by one, as `next_event` gives them.
impl<'input, S: StackedParser<'input>> Iterator for Layers<'input, S> {
    type Item = Result<(Event<'input>, Span), ScanError>;

    ghost use Rattle.granit_layers.specs.Stacking.{StepsTo};

    ghost next_gives = { λ p r q. StepsTo S.steps S.offset_of S.sets_offset p r q };

    fn next(&mut self) -> Option<Result<(Event<'input>, Span), ScanError>> {
        self.next_event()
    }
}

impl<'input, S: StackedParser<'input>> FusedIterator for Layers<'input, S> {}
