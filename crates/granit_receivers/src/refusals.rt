//! Refusals that are kept, to be given again.
ghost use Rattle.granit_receivers.specs.Kept.{IsKept};

use granit_error::ScanError;
use std::alloc::Global;

/// A refusal to be given again, or want of memory where there is no room for it.
pub fn kept(alloc: Global, error: &ScanError) -> ScanError
    ensures { IsKept error.now result }
{
    match error.try_clone(alloc) {
        Ok(error) => error,
        Err(no_memory) => ScanError::from(no_memory),
    }
}
