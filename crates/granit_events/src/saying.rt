//! The single lines of a run that prints no events.
ghost use Rattle.std.specs.Prelude.{◌≡◌, ◌++◌, string_bytes, IfOk, OnOk};
ghost use Rattle.granit_error.specs.FaultKind.{fault_words};
ghost use Rattle.granit_error.specs.Kinds.{kind_of};
ghost use Rattle.granit_error.specs.Refused.{place_words};
ghost use Rattle.granit_lexemes.specs.Line.{fault_line};
ghost use Rattle.granit_words.specs.Words.{usage_line};
ghost use Rattle.granit_events.specs.Ended.{not_utf8_line};

use granit_base::{Marker, NoMemory};
use granit_error::{ErrorKind, ScanError};
use std::alloc::Global;

/// `usage: word K`.
pub fn usage(alloc: Global, number: usize) -> Result<String, NoMemory>
    ensures { IfOk result (λ s. string_bytes s ≡ usage_line number) }
{
    let mut out = String::from_str(alloc, "usage: word ")?;
    write!(out, "{number}")?;
    out.push_str("\n")?;
    Ok(out)
}

/// `not UTF-8 after N bytes`.
pub fn not_utf8(alloc: Global, valid: usize) -> Result<String, NoMemory>
    ensures { IfOk result (λ s. string_bytes s ≡ not_utf8_line valid) }
{
    let mut out = String::from_str(alloc, "not UTF-8 after ")?;
    write!(out, "{valid}")?;
    out.push_str(" bytes\n")?;
    Ok(out)
}

fn push_words_and_place(out: &mut String, kind: &ErrorKind, mark: &Marker) -> Result<(), NoMemory>
    ensures { OnOk result (string_bytes out.new
        ≡ string_bytes out.old ++ (fault_words (kind_of kind.now) ++ place_words mark.now.place)) }
{
    let index = mark.index();
    let line = mark.line();
    let column = mark.col().saturating_add(1);
    write!(out, "{kind} at char {index} line {line} column {column}")?;
    Ok(())
}

/// `fault N: `, the words of the kind, and the place.
pub fn fault(alloc: Global, error: &ScanError) -> Result<String, NoMemory>
    ensures { IfOk result (λ s. string_bytes s ≡ fault_line error.now) }
{
    let mut out = String::from_str(alloc, "fault ")?;
    let kind = error.kind();
    let number = kind.number();
    write!(out, "{number}")?;
    out.push_str(": ")?;
    push_words_and_place(&mut out, kind, error.marker())?;
    out.push_str("\n")?;
    Ok(out)
}
