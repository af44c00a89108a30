//! Counts the events of the YAML text on standard input, some at a time, and prints how many, or the line of its
//! fault. It reads in this one way, so that what it takes is what that takes.
#![tactic(auto)]

ghost use Rattle.std.specs.Prelude.{◌≡◌, None};

use anyhow::Result;
use granit_error::ScanError;
use granit_input::StrInput;
use granit_parser::Parser;
use std::alloc::Global;
use std::io;

/// How many events a text has, or its fault.
fn count(alloc: Global, text: &str) -> Result<u64, ScanError> {
    let mut parser = Parser::new_from_str(alloc, text);
    count_batches(alloc, &mut parser)
}

/// How many events a parser still gives, or the fault that it gives in place of one.
fn count_batches<'a>(alloc: Global, parser: &mut Parser<'a, StrInput<'a>>) -> Result<u64, ScanError>
    requires { parser.old.peeked ≡ None }
{
    let mut batch = Vec::new(alloc);
    let mut count: u64 = 0;
    'batches: for _ in 0..u64::MAX {
        let more = parser.gather_some(alloc, &mut batch)?;
        count = count.saturating_add(batch.len() as u64);
        if !more {
            return Ok(count);
        }
    }
    Ok(count)
}

/// What is printed of a text.
fn line(alloc: Global, text: &str) -> Result<String> {
    match count(alloc, text) {
        Ok(count) => Ok(format!(in alloc; "{count}")?),
        Err(error) => Ok(format!(in alloc; "fault {}: {error}", error.kind().number())?),
    }
}

fn main(rt: HostRuntime) -> Result<()> {
    let alloc = rt.alloc();
    let text = io::read_to_string(alloc, rt.stdin())?;
    let line = line(alloc, text.as_str())?;
    println!(rt; "{line}")?;
    Ok(())
}
