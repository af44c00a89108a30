//! Answers each case of standard input, a line that begins with its kind and a tab: a run of the program (`run`), the
//! three loads (`loads`), recovery behind each fault (`recovery`), a hostile text in every way that a text is read
//! (`hostile`), the canonical texts of trees (`trees`). The stored answers are those of the original with the
//! differences of docs/DIFFERENCES.md built in, and those of `selftest` and of trees are of other programs, never of
//! this one.
#![tactic(auto)]

mod hostile;
mod lines;
mod loads;
mod options;
mod outcome;
mod recovery;
mod runs;
mod texts;
mod trees;

use anyhow::{Context, Result};
use std::alloc::Global;
use std::io::{BufRead, BufReader};

/// What is printed of a case of that kind.
fn answer_of(alloc: Global, kind: &str, case: &str) -> Result<String> {
    match kind {
        "hostile" => hostile::answer(alloc, case),
        "loads" => loads::answer(alloc, case),
        "recovery" => recovery::answer(alloc, case),
        "run" => runs::answer(alloc, case),
        "trees" => trees::answer(alloc, case),
        _ => None.context("a case begins with its kind"),
    }
}

/// What is printed of a line.
fn answer(alloc: Global, line: &str) -> Result<String> {
    let (kind, case) = line
        .split_once('\t')
        .context("a case is its kind and what to do")?;
    answer_of(alloc, kind, case)
}

fn main(rt: HostRuntime) -> Result<()> {
    let alloc = rt.alloc();
    for line in BufReader::new(alloc, rt.reader())?.lines(alloc) {
        let said = answer(alloc, line?.as_str())?;
        println!(rt; "{said}")?;
    }
    Ok(())
}
