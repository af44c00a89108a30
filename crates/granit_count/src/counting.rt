//! Counts of what is given one by one.
use granit_error::ScanError;
use granit_input::BorrowedInput;
use granit_parser::Parser;
use granit_scan::Scanner;

/// Whether something was read, or the fault in place of it. What is let go in a generic function is cheap to prove.
fn is_given<T: Drop, E: Drop>(given: Option<Result<T, E>>) -> Result<bool, E> {
    match given {
        None => Ok(false),
        Some(Ok(_)) => Ok(true),
        Some(Err(error)) => Err(error),
    }
}

/// What gives one thing after another.
pub trait Gives {
    /// Whether it gives one more, or the fault that it gives in place of one.
    fn takes_one(&mut self) -> Result<bool, ScanError>;
}

impl<'a, T: BorrowedInput<'a>> Gives for Parser<'a, T> {
    fn takes_one(&mut self) -> Result<bool, ScanError> {
        is_given(self.next_event())
    }
}

impl<'a, T: BorrowedInput<'a>> Gives for Scanner<'a, T> {
    fn takes_one(&mut self) -> Result<bool, ScanError> {
        is_given(self.next())
    }
}

/// How many events or tokens a source gives, which is let go here, or the fault that it gives in place of one.
pub fn count<G: Gives + Drop>(source: G) -> Result<u64, ScanError> {
    let mut source = source;
    for count in 0..u64::MAX {
        if !source.takes_one()? {
            return Ok(count);
        }
    }
    Ok(u64::MAX)
}
