//! The lines of events and of faults.
use anyhow::{Context, Result};
use granit_base::Span;
use granit_error::ScanError;
use granit_event::Event;
use granit_events::push_line;
use std::alloc::Global;

/// Writes the lines of events behind others.
pub fn push_events(out: &mut Vec<u8>, events: &[(Event<'_>, Span)]) -> Result<()> {
    for (event, span) in events {
        push_line(out, event, span)
            .ok()
            .context("no memory for a line")?;
    }
    Ok(())
}

/// Writes the line of a fault behind others.
pub fn push_fault(alloc: Global, out: &mut Vec<u8>, error: &ScanError) -> Result<()> {
    let line = format!(in alloc; "fault {}: {error}\n", error.kind().number())?;
    out.extend_from_slice(line.as_bytes())?;
    Ok(())
}

/// Lines as text.
pub fn text_of(alloc: Global, lines: &[u8]) -> Result<String> {
    let text = str::from_utf8(lines).ok().context("lines are text")?;
    Ok(String::from_str(alloc, text)?)
}
