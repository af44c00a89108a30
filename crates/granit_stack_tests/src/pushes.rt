//! Parsers that are put on a stack, of whatever kinds they are.
use crate::texts::{Texts, own};
use crate::told::{Told, pass, told_of};
use granit_base::{Marker, ScalarStyle, Span, Text};
use granit_event::Event;
use granit_layers::{AnyKind, StackedParser};
use granit_replay::ReplayParser;
use granit_stack::IncludeStack;
use std::alloc::Global;

/// A stack of parsers of four kinds.
pub(crate) type Stack<'input, A, B, C, D> = IncludeStack<'input, AnyKind<A, B, C, D>, Texts>;

/// What is put on a stack.
#[derive(Clone, Copy)]
pub(crate) enum Pushes {
    /// Nothing.
    Nothing,
    /// A parser over a string whose next anchor gets that number.
    Numbered(usize),
    /// A parser over characters.
    Characters,
    /// A parser over an input.
    Input,
    /// The same with a scalar that comes first.
    First,
    /// The same above a parser over a string whose first event was looked at.
    FirstAbove,
    /// A parser over an input on one over characters, of which one event was taken, on one over a string, of which two
    /// were.
    Three,
}

/// Whether a parser over a string was put on a stack.
fn put_string<'input, A, B, C, D>(
    alloc: Global,
    stack: &mut Stack<'input, A, B, C, D>,
    parser: A,
) -> bool
where
    A: StackedParser<'input>,
    B: StackedParser<'input>,
    C: StackedParser<'input>,
    D: StackedParser<'input>,
{
    let pushed = stack.push_str_parser(parser, own(alloc, "root"));
    pushed.ok().is_some()
}

/// Whether a parser over characters was put on a stack.
fn put_characters<'input, A, B, C, D>(
    alloc: Global,
    stack: &mut Stack<'input, A, B, C, D>,
    parser: B,
) -> bool
where
    A: StackedParser<'input>,
    B: StackedParser<'input>,
    C: StackedParser<'input>,
    D: StackedParser<'input>,
{
    let pushed = stack.push_iter_parser(parser, own(alloc, "characters"));
    pushed.ok().is_some()
}

/// Whether a parser over an input was put on a stack.
fn put_input<'input, A, B, C, D>(
    alloc: Global,
    stack: &mut Stack<'input, A, B, C, D>,
    parser: C,
) -> bool
where
    A: StackedParser<'input>,
    B: StackedParser<'input>,
    C: StackedParser<'input>,
    D: StackedParser<'input>,
{
    let pushed = stack.push_custom_parser(parser, own(alloc, "input"));
    pushed.ok().is_some()
}

/// A scalar with an anchor.
fn scalar<'input>() -> (Event<'input>, Span) {
    let place = Span::empty(Marker::new(0, 1, 0));
    let event = Event::Scalar(Text::borrowed("f"), ScalarStyle::Plain, 4, None);
    (event, place)
}

/// Whether a parser over an input was put on a stack with a scalar that comes first.
fn put_first<'input, A, B, C, D>(
    alloc: Global,
    stack: &mut Stack<'input, A, B, C, D>,
    parser: C,
) -> bool
where
    A: StackedParser<'input>,
    B: StackedParser<'input>,
    C: StackedParser<'input>,
    D: StackedParser<'input>,
{
    let name = own(alloc, "input");
    let pushed = stack.push_custom_parser_with_current(parser, name, scalar());
    pushed.ok().is_some()
}

/// A parser over a string whose next anchor gets that number is put on a stack.
fn put_numbered<'input, A, B, C, D>(
    alloc: Global,
    stack: &mut Stack<'input, A, B, C, D>,
    parser: A,
    number: usize,
) -> bool
where
    A: StackedParser<'input>,
    B: StackedParser<'input>,
    C: StackedParser<'input>,
    D: StackedParser<'input>,
{
    let mut parser = parser;
    parser.set_anchor_offset(number);
    put_string(alloc, stack, parser)
}

/// Three parsers are put on a stack.
fn put_three<'input, A, B, C, D>(
    alloc: Global,
    stack: &mut Stack<'input, A, B, C, D>,
    string: A,
    characters: B,
    input: C,
) -> bool
where
    A: StackedParser<'input>,
    B: StackedParser<'input>,
    C: StackedParser<'input>,
    D: StackedParser<'input>,
{
    let _ = put_string(alloc, stack, string);
    pass(stack, 2);
    let _ = put_characters(alloc, stack, characters);
    pass(stack, 1);
    put_input(alloc, stack, input)
}

/// Two parsers are, the upper one with a scalar that comes first.
fn put_first_above<'input, A, B, C, D>(
    alloc: Global,
    stack: &mut Stack<'input, A, B, C, D>,
    below: A,
    above: C,
) -> bool
where
    A: StackedParser<'input>,
    B: StackedParser<'input>,
    C: StackedParser<'input>,
    D: StackedParser<'input>,
{
    let _ = put_string(alloc, stack, below);
    let _ = stack.peek().is_some();
    put_first(alloc, stack, above)
}

/// Whether a stack took what is put on it of three parsers; the others are let go.
pub(crate) fn put<'input, A, B, C, D>(
    alloc: Global,
    stack: &mut Stack<'input, A, B, C, D>,
    pushes: Pushes,
    string: A,
    characters: B,
    input: C,
) -> bool
where
    A: StackedParser<'input>,
    B: StackedParser<'input>,
    C: StackedParser<'input>,
    D: StackedParser<'input>,
{
    match pushes {
        Pushes::Nothing => true,
        Pushes::Numbered(number) => put_numbered(alloc, stack, string, number),
        Pushes::Characters => put_characters(alloc, stack, characters),
        Pushes::Input => put_input(alloc, stack, input),
        Pushes::First => put_first(alloc, stack, input),
        Pushes::FirstAbove => put_first_above(alloc, stack, string, input),
        Pushes::Three => put_three(alloc, stack, string, characters, input),
    }
}

/// A stack without parsers.
fn empty<'input, A, B, C, D>(alloc: Global) -> Stack<'input, A, B, C, D>
where
    A: StackedParser<'input>,
    B: StackedParser<'input>,
    C: StackedParser<'input>,
    D: StackedParser<'input>,
{
    IncludeStack::new(alloc)
}

/// What a stack gives.
fn all_of<'input, A, B, C, D>(stack: Stack<'input, A, B, C, D>) -> Told
where
    A: StackedParser<'input>,
    B: StackedParser<'input>,
    C: StackedParser<'input>,
    D: StackedParser<'input>,
{
    told_of(stack)
}

/// Whether events that are given once more were put on a stack.
fn put_events<'input, A, B, C>(
    alloc: Global,
    stack: &mut Stack<'input, A, B, C, ReplayParser<'input>>,
    events: ReplayParser<'input>,
) -> bool
where
    A: StackedParser<'input>,
    B: StackedParser<'input>,
    C: StackedParser<'input>,
{
    let pushed = stack.push_replay_parser(events, own(alloc, "events"));
    pushed.ok().is_some()
}

/// Of events that are given once more.
pub(crate) fn of_events<'input, A, B, C>(alloc: Global, events: ReplayParser<'input>) -> Told
where
    A: StackedParser<'input>,
    B: StackedParser<'input>,
    C: StackedParser<'input>,
{
    let mut stack = empty::<A, B, C, ReplayParser<'input>>(alloc);
    let _ = put_events(alloc, &mut stack, events);
    all_of(stack)
}
