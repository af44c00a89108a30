//! Prints what is read of each case of standard input, a line that begins with its kind and a tab: a comment, a plain
//! or a quoted scalar inside a text (`lexeme`), a block scalar, a tag, a name or a directive inside a text (`node`),
//! all tokens of a text (`tokens`). The stored lines are the original's tokens of the whole text, or its fault, with
//! the differences of docs/DIFFERENCES.md built in; what stands behind a lexeme on its line, and the place behind it,
//! were counted on the text from the original's end of the token. None of it is this program's.
#![tactic(auto)]

mod lexemes;
mod nodes;
mod options;
mod tokens;
mod words;

use anyhow::{Context, Result};
use std::alloc::Global;
use std::io::{BufRead, BufReader};

/// Writes what is printed for a case.
fn push_answer(alloc: Global, said: &mut String, kind: &str, case: &str) -> Result<()> {
    match kind {
        "lexeme" => lexemes::push_answer(alloc, said, case),
        "node" => nodes::push_answer(alloc, said, case),
        "tokens" => tokens::push_answer(alloc, said, case),
        _ => None.context("a case begins with its kind"),
    }
}

/// What is printed for a line.
fn answer(alloc: Global, line: &str) -> Result<String> {
    let (kind, case) = line
        .split_once('\t')
        .context("a case is its kind and what to read")?;
    let mut said = String::new(alloc);
    push_answer(alloc, &mut said, kind, case)?;
    Ok(said)
}

fn main(rt: HostRuntime) -> Result<()> {
    let alloc = rt.alloc();
    for line in BufReader::new(alloc, rt.reader())?.lines(alloc) {
        let said = answer(alloc, line?.as_str())?;
        println!(rt; "{said}")?;
    }
    Ok(())
}
