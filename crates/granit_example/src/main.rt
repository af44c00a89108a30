//! Prints each scalar of a text with the line and the column where it begins.
#![tactic(auto)]

use anyhow::Result;
use granit_error::Options;
use granit_event::Event;
use granit_load::load_str;

const TEXT: &str = "name: granit\nreads:\n  - strings\n  - [flow, block]\n";

fn main(rt: HostRuntime) -> Result<()> {
    match load_str(rt.alloc(), TEXT, Options::default()) {
        Ok(events) => {
            for (event, span) in events.as_slice() {
                if let Event::Scalar(text, _, _, _) = event {
                    println!(rt;
                        "{}:{} {}",
                        span.start.line(),
                        span.start.col(),
                        text.as_str()
                    )?;
                }
            }
        }
        Err(error) => println!(rt; "{error}")?,
    }
    Ok(())
}
