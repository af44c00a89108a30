//! Prints the events of the YAML text on standard input, or the numbers of generated trees. The arguments are the
//! words of the program; its exit status is that of the run.
#![tactic(auto)]

mod arguments;
mod program;
#[cfg(test)]
mod tests;

use arguments::ProcessArguments;
use granit_events::{ReadSource, WriteSink};
use program::run_on_arguments;
use std::process::ExitCode;

fn main(rt: HostRuntime) -> ExitCode {
    let mut source = ReadSource::new(rt.stdin());
    let mut sink = WriteSink::new(rt.stdout());
    run_on_arguments(
        rt.alloc(),
        &ProcessArguments::new(&rt),
        &mut source,
        &mut sink,
    )
}
