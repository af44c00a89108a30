//! Reads a configuration on standard input whose `!include` tags name other texts of a map, and prints its scalars.
//! What a stack gives is let go in functions that are generic in it, as `print`, where that is cheap to prove.
#![tactic(auto)]

ghost use Rattle.std.specs.Prelude.{IfSome};

use anyhow::{Context, Result};
use granit_base::{Marker, OwnedText, Span};
use granit_error::{ErrorKind, ScanError};
use granit_event::Event;
use granit_layers::{AnyKind, FromReplay, StackedParser};
use granit_parser::Parser;
use granit_stack::{FnResolver, IncludeStack, Included, ReplayParser, Resolver};
use std::alloc::Global;
use std::fmt::Display;
use std::io;

/// How many texts may lie on one another.
const DEPTH: usize = 3;

/// The text of a name: what a loader would read from its files.
fn text_of<'input>(alloc: Global, name: &str) -> Result<Included<'input>, ScanError> {
    match name {
        "server.yaml" => Ok(Included::Borrowed("host: localhost\nport: 80\n")),
        "users.yaml" => Ok(Included::Borrowed("- anna\n- !include guests.yaml\n")),
        "guests.yaml" => Ok(Included::Borrowed("- guest\n- !include users.yaml\n")),
        _ => match OwnedText::from_str(alloc, "no such text") {
            Ok(words) => Err(ScanError::new(Marker::new(0, 1, 0), words)),
            Err(_) => Err(ScanError::from_kind(Marker::new(0, 1, 0), ErrorKind::NoMemory)),
        },
    }
}

/// Whether an event names a text to be included.
fn is_include(event: &Event<'_>) -> bool {
    match event.tag() {
        None => false,
        Some(tag) => tag.handle() == "!" && tag.suffix() == "include",
    }
}

/// Prints the text of a scalar, or tells it where it is the name of a text to be included.
fn print_event(alloc: Global, words: &mut String, event: &Event<'_>) -> Result<Option<String>> {
    let Event::Scalar(text, _, _, _) = event else {
        return Ok(None);
    };
    if is_include(event) {
        return Ok(Some(String::from_str(alloc, text.as_str())?));
    }
    writeln!(words, "{}", text.as_str())?;
    Ok(None)
}

/// What a stack gives.
trait Given {
    /// Prints it, or tells the name of the text that is included in its place.
    fn print(&self, alloc: Global, words: &mut String) -> Result<Option<String>>;
}

impl<'input> Given for Result<(Event<'input>, Span), ScanError> {
    fn print(&self, alloc: Global, words: &mut String) -> Result<Option<String>> {
        match self {
            Ok((event, _)) => print_event(alloc, words, event),
            Err(error) => {
                writeln!(words, "{error}")?;
                Ok(None)
            }
        }
    }
}

/// The same of what is let go here.
fn print<G: Given + Drop>(alloc: Global, words: &mut String, given: G) -> Result<Option<String>> {
    given.print(alloc, words)
}

/// Prints whether the text of that name begins, or why it was refused.
fn print_included<E: Display + Drop>(
    words: &mut String,
    name: &str,
    included: Result<(), E>,
) -> Result<()> {
    match included {
        Ok(()) => writeln!(words, "{name} begins")?,
        Err(error) => writeln!(words, "{error}")?,
    }
    Ok(())
}

/// Includes the text of that name, where not too many lie on one another.
fn include<'input, S: FromReplay<'input>, R: Resolver<'input> + Drop>(
    words: &mut String,
    stack: &mut IncludeStack<'input, S, R>,
    name: &str,
) -> Result<()>
    requires { IfSome stack.old.resolver R.ready }
    ensures { IfSome stack.new.resolver R.ready }
{
    let depth = stack.stack().ok().context("no memory for the names")?.len();
    if depth < DEPTH {
        return print_included(words, name, stack.push_include(name));
    }
    writeln!(words, "{name} lies too deep")?;
    Ok(())
}

/// Prints what a stack gives next, and includes what it names; whether there was anything.
fn print_next<'input, S: FromReplay<'input>, R: Resolver<'input> + Drop>(
    alloc: Global,
    words: &mut String,
    stack: &mut IncludeStack<'input, S, R>,
) -> Result<bool>
    requires { IfSome stack.old.resolver R.ready }
    ensures { IfSome stack.new.resolver R.ready }
{
    let Some(given) = stack.next_event() else {
        return Ok(false);
    };
    if let Some(name) = print(alloc, words, given)? {
        include(words, stack, name.as_str())?;
    }
    Ok(true)
}

/// What is printed of all events of a stack, whatever its parsers are.
fn read<'input, S: FromReplay<'input>, R: Resolver<'input> + Drop>(
    alloc: Global,
    stack: &mut IncludeStack<'input, S, R>,
) -> Result<String>
    requires { IfSome stack.old.resolver R.ready }
{
    let mut words = String::new(alloc);
    'events: for _ in 0..1000 {
        if !print_next(alloc, &mut words, stack)? {
            break;
        }
    }
    Ok(words)
}

/// What is printed of the events of that parser and of what it includes.
fn read_all<'input, A, B, C, D, R>(
    alloc: Global,
    resolver: R,
    parser: A,
    name: OwnedText,
) -> Result<String>
where
    A: StackedParser<'input>,
    B: StackedParser<'input>,
    C: StackedParser<'input>,
    D: FromReplay<'input>,
    R: Resolver<'input> + Drop,
    requires { R.ready resolver }
{
    let mut stack: IncludeStack<'input, AnyKind<A, B, C, D>, R> = IncludeStack::new(alloc);
    stack.set_resolver(resolver);
    let printed = match stack.push_str_parser(parser, name).ok() {
        Some(()) => read(alloc, &mut stack),
        None => None.context("no memory for a parser"),
    };
    drop(stack);
    printed
}

/// Events that are given once more.
type Events<'input> = ReplayParser<'input>;

/// What is printed of a configuration and of what it includes.
fn read_text<'input, R: Resolver<'input> + Drop>(
    alloc: Global,
    resolver: R,
    text: &'input str,
    name: OwnedText,
) -> Result<String>
    requires { R.ready resolver }
{
    read_all::<_, Events<'input>, Events<'input>, Events<'input>, R>(
        alloc,
        resolver,
        Parser::new_from_str(alloc, text),
        name,
    )
}

/// What is printed of the whole configuration.
fn load<'input>(alloc: Global, text: &'input str) -> Result<String> {
    let name = OwnedText::from_str(alloc, "root.yaml")
        .ok()
        .context("no memory for a name")?;
    let resolver = FnResolver::new(|alloc: Global, name: &str| text_of(alloc, name));
    read_text(alloc, resolver, text, name)
}

fn main(rt: HostRuntime) -> Result<()> {
    let text = io::read_to_string(rt.alloc(), rt.stdin())?;
    let words = load(rt.alloc(), text.as_str())?;
    print!(rt; "{}", words.as_str())?;
    Ok(())
}
