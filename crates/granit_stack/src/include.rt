//! Texts that are included.
ghost use Rattle.std.specs.Prelude.{◌≡◌, ◌⊎◌, false, None, Option, Some, IfOk, IfSome, OnErr};
ghost use Rattle.std.specs.Str.{chars};
ghost use Rattle.granit_error.specs.OptionsView.{options_of};
ghost use Rattle.granit_event.specs.Events.{event_kind};
ghost use Rattle.granit_event.specs.Helpers.{anchor_of};
ghost use Rattle.granit_layers.specs.Stacking.{IsWithin};
ghost use Rattle.granit_parser.specs.Parsing.{LeavesNumbers, StandsAt};
ghost use Rattle.granit_replay.specs.Replaying.{raised_by_all, raised_over};
ghost use Rattle.granit_stack.specs.Including.{GivesAllAbove, Includes, IncludesNamed, ReadsText, Resolves};
ghost use Rattle.granit_stack.specs.Including.{first_number, numbered, replayed};
ghost use Rattle.granit_stack.specs.Including as spec;
ghost use Rattle.granit_steps.specs.Steps.{StepState};

use crate::stack::IncludeStack;
use granit_base::{Marker, NoMemory, OwnedText, Span};
use granit_error::{ErrorKind, Options, ScanError};
use granit_event::Event;
use granit_input::BorrowedInput;
use granit_iterators::characters;
use granit_layers::{FromReplay, StackedParser};
use granit_load::gather;
use granit_parser::Parser;
use granit_replay::{Included, ReplayParser, Resolver};
use std::alloc::Global;

impl<'input, S, R> IncludeStack<'input, S, R>
where
    S: FromReplay<'input>,
    R: Resolver<'input> + Drop,
{
    /// Finds a text by its name, reads it whole, and puts its events on the stack. Its anchors get numbers behind those
    /// of the top parser.
    ///
    /// # Errors
    ///
    /// `MissingIncludeResolver` where nobody was set that finds it; what the resolver answers; what is wrong with the
    /// text; `NoMemory`. Each has the names of the stack and the name of the include, and leaves the parsers as they
    /// were.
    pub fn push_include(&mut self, include_str: &str) -> Result<(), ScanError>
        requires ready { IfSome self.old.resolver R.ready }
        ensures again { IfSome self.new.resolver R.ready }
        ensures included { IncludesNamed (record {
          offset_of = S.offset_of;
          sets_offset = S.sets_offset;
          offset_over = S.offset_over;
          again = S.again;
          answers = R.answers;
          errors = R.errors;
        }) self.old
            (chars include_str.now) result self.new }
        ensures same { self.new ≡ record self.old {
          stack = record (self.old.stack) { layers = self.new.stack.layers };
          resolver = self.new.resolver;
        } }
    {
        match self.include(include_str) {
            Ok(()) => Ok(()),
            Err(error) => Err(self.error_within(error, include_str)),
        }
    }

    /// The same, its refusals without names.
    fn include(&mut self, name: &str) -> Result<(), ScanError>
        requires ready { IfSome self.old.resolver R.ready }
        ensures again { IfSome self.new.resolver R.ready }
        ensures included { Includes (record {
          offset_of = S.offset_of;
          sets_offset = S.sets_offset;
          offset_over = S.offset_over;
          again = S.again;
          answers = R.answers;
          errors = R.errors;
        }) self.old
            (chars name.now) result self.new }
        ensures same { self.new ≡ record self.old {
          stack = record (self.old.stack) { layers = self.new.stack.layers };
          resolver = self.new.resolver;
        } }
    {
        let text = match self.resolved(name) {
            Ok(text) => text,
            Err(error) => return Err(error),
        };
        let replay = match read_events(self.alloc, text, self.options, self.number_above()) {
            Ok(replay) => replay,
            Err(error) => return Err(error),
        };
        let name = match OwnedText::from_str(self.alloc, name) {
            Ok(name) => name,
            Err(no_memory) => return Err(ScanError::from(no_memory)),
        };
        match self.layers.push(S::from_replay(replay), name) {
            Ok(()) => Ok(()),
            Err(_) => Err(ScanError::from(NoMemory)),
        }
    }

    /// The text of that name.
    fn resolved(&mut self, name: &str) -> Result<Included<'input>, ScanError>
        requires ready { IfSome self.old.resolver R.ready }
        ensures again { IfSome self.new.resolver R.ready }
        ensures resolves { Resolves R.answers R.errors self.old.resolver (chars name.now) result self.new.resolver }
        ensures same { self.new ≡ record self.old { resolver = self.new.resolver } }
    {
        match self.resolver.take() {
            None => {
                let start = Marker::new(0, 1, 0);
                Err(ScanError::from_kind(start, ErrorKind::MissingIncludeResolver))
            }
            Some(mut resolver) => {
                let answer = resolver.resolve(self.alloc, name);
                self.resolver = Some(resolver);
                answer
            }
        }
    }
}

impl<'input, S, R> IncludeStack<'input, S, R>
where
    S: StackedParser<'input>,
    R: Drop,
{
    /// The number of the top parser.
    fn number_above(&self) -> Option<usize>
        ensures { result ≡ spec.number_above
            S.offset_of
            self.now.stack.layers }
    {
        if self.layers.is_empty() {
            None
        } else {
            Some(self.layers.current_anchor_offset())
        }
    }

    /// An error with the names of the stack and another one.
    fn error_within(&self, error: ScanError, name: &str) -> ScanError
        ensures { IsWithin self.now.stack.layers (chars name.now) error result }
    {
        self.layers.error_within(error, name)
    }
}

/// The events of a text, whose anchors are numbered from there on.
fn read_events<'input>(
    alloc: Global,
    text: Included<'input>,
    options: Options,
    above: Option<usize>,
) -> Result<ReplayParser<'input>, ScanError>
    ensures { ReadsText (options_of options) above text.entry result }
{
    match text {
        Included::Borrowed(text) => replay_of(
            alloc,
            Parser::new_from_str_with_options(alloc, text, options),
            above,
        ),
        Included::Owned(text) => {
            let characters = characters(text.as_str());
            match Parser::new_from_iter_with_options(alloc, characters, options) {
                Ok(parser) => replay_of(alloc, parser, above),
                Err(no_memory) => Err(ScanError::from(no_memory)),
            }
        }
    }
}

/// The events of a parser over a source without errors, whose anchors are numbered from there on. It is let go here
/// alone, which is dear to prove.
fn replay_of<'input, T: BorrowedInput<'input>>(
    alloc: Global,
    parser: Parser<'input, T>,
    above: Option<usize>,
) -> Result<ReplayParser<'input>, ScanError>
    requires unseen { parser.peeked ≡ None }
    requires whole { (input : _) → (T.origin input).error ≡ None }
    ensures known { (m : StepState) → StandsAt T.unread parser.entry m
        → parser.entry.stepper.renumbered ≡ false
        → GivesAllAbove parser.entry.stepper.scanner.options above (numbered above m) result }
    ensures number { IfOk result (λ p. p.anchor_offset ≡ raised_by_all (first_number above) p.events) }
    ensures numbers { (m : StepState) → StandsAt T.unread parser.entry m
        → IfOk result (λ p. LeavesNumbers parser.entry.stepper.scanner.options (numbered above m) (replayed p)) }
{
    let mut parser = parser;
    number_from(&mut parser, above);
    match gather(alloc, &mut parser) {
        Ok(events) => {
            let number = number_behind(events.as_slice(), above.unwrap_or(1));
            Ok(ReplayParser::new(events.into_vec(), number))
        }
        Err(error) => Err(error),
    }
}

/// The number behind those of all anchors of events, and behind those below that number.
fn number_behind(events: &[(Event<'_>, Span)], above: usize) -> usize
    ensures { result ≡ raised_by_all above events.now }
{
    let mut number = above;
    'events: for event in events {
        number = raised(number, &event.0);
    }
    number
}

/// The number behind that of the anchor of an event, and behind those below that number.
fn raised(number: usize, event: &Event<'_>) -> usize
    ensures { result ≡ raised_over (anchor_of (event_kind event.now)) number }
{
    match event.anchor_id() {
        None => number,
        Some(id) => number.max(id.saturating_add(1)),
    }
}

/// The anchors that are read from now on are numbered from there on.
fn number_from<'input, T: BorrowedInput<'input>>(
    parser: &mut Parser<'input, T>,
    above: Option<usize>,
)
    requires { parser.old.peeked ≡ None }
    ensures known { (m : StepState) → StandsAt T.unread parser.old m → StandsAt T.unread parser.new (numbered above m) }
    ensures options { parser.new.stepper.scanner.options ≡ parser.old.stepper.scanner.options }
    ensures renumbered { above ≡ None → parser.new.stepper.renumbered ≡ parser.old.stepper.renumbered }
{
    match above {
        None => {}
        Some(offset) => parser.set_anchor_offset(offset),
    }
}
