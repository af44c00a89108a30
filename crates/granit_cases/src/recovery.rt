//! Events with recovery behind each fault: a text is a JSON string.
use crate::lines::{push_fault, text_of};
use crate::texts;
use anyhow::{Context, Result};
use granit_base::Span;
use granit_error::ScanError;
use granit_event::Event;
use granit_events::push_line;
use granit_input::BorrowedInput;
use granit_parser::Parser;
use std::alloc::Global;

/// Where what was given leaves a text: at its end, going on, or at a fault.
#[derive(Clone, Copy)]
enum Given {
    Nothing,
    Something,
    Fault,
}

/// What a call gives.
trait Gives {
    /// Writes its line.
    fn push(&self, alloc: Global, out: &mut Vec<u8>) -> Result<Given>;
}

/// What recovery answers. Behind a refusal nothing goes on.
impl Gives for Result<bool, ScanError> {
    fn push(&self, alloc: Global, out: &mut Vec<u8>) -> Result<Given> {
        match self {
            Ok(true) => out.extend_from_slice(b"proceed true\n")?,
            Ok(false) => out.extend_from_slice(b"proceed false\n")?,
            Err(error) => {
                out.extend_from_slice(b"proceed ")?;
                push_fault(alloc, out, error)?;
                return Ok(Given::Nothing);
            }
        }
        Ok(Given::Something)
    }
}

/// What comes next.
impl<'a> Gives for Option<Result<(Event<'a>, Span), ScanError>> {
    fn push(&self, alloc: Global, out: &mut Vec<u8>) -> Result<Given> {
        match self {
            None => Ok(Given::Nothing),
            Some(Ok((event, span))) => {
                push_line(out, event, span)
                    .ok()
                    .context("no memory for a line")?;
                Ok(Given::Something)
            }
            Some(Err(error)) => {
                push_fault(alloc, out, error)?;
                Ok(Given::Fault)
            }
        }
    }
}

/// The same of what is let go here, which is cheap to prove in a generic function.
fn push<T: Gives + Drop>(alloc: Global, out: &mut Vec<u8>, given: T) -> Result<Given> {
    given.push(alloc, out)
}

/// What gives events and goes on behind a fault.
trait Recovers {
    /// Writes the line of what comes next.
    fn push_next(&mut self, alloc: Global, out: &mut Vec<u8>) -> Result<Given>;

    /// Writes the line of what recovery answers.
    fn push_recovered(&mut self, alloc: Global, out: &mut Vec<u8>) -> Result<Given>;
}

impl<'a, T: BorrowedInput<'a>> Recovers for Parser<'a, T> {
    fn push_next(&mut self, alloc: Global, out: &mut Vec<u8>) -> Result<Given> {
        push(alloc, out, self.next_event())
    }

    fn push_recovered(&mut self, alloc: Global, out: &mut Vec<u8>) -> Result<Given> {
        push(alloc, out, self.proceed_next_document())
    }
}

/// The lines of what comes next, recovery behind a fault included; whether the text goes on.
fn push_step<R: Recovers>(alloc: Global, out: &mut Vec<u8>, parser: &mut R) -> Result<bool> {
    let given = match parser.push_next(alloc, out)? {
        Given::Fault => parser.push_recovered(alloc, out)?,
        given => given,
    };
    Ok(matches!(given, Given::Something))
}

/// The lines of all that a parser gives, which is let go here.
fn all_lines<R: Recovers + Drop>(alloc: Global, parser: R) -> Result<String> {
    let mut parser = parser;
    let mut out = Vec::new(alloc);
    'events: for _ in 0..1_000_000 {
        if !push_step(alloc, &mut out, &mut parser)? {
            return text_of(alloc, &out);
        }
    }
    text_of(alloc, &out)
}

/// The lines of a text.
pub fn answer(alloc: Global, case: &str) -> Result<String> {
    let text = texts::string(alloc, case)?;
    all_lines(alloc, Parser::new_from_str(alloc, text.as_str()))
}
