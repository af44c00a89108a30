//! Why a call refuses is written once, where its caller keeps it; what is handed on says only that it stands there.
ghost use Rattle.std.specs.Prelude.{◌≡◌, Some};
ghost use Rattle.granit_error.specs.Kinds.{kind_of};
ghost use Rattle.granit_lexemes.specs.Outcome.{fault_at};
ghost use Rattle.granit_refused.specs.Answered.{answered, why};
ghost use Rattle.granit_refused.specs.declared.fault.Refused.TheVariants.{Kept};

use granit_base::{Marker, NoMemory};
use granit_error::{ErrorKind, ScanError};
use std::alloc::{AllocError, AllocFailed};

/// Why a call refuses.
#[derive(Clone, Copy, Debug, PartialEq, Eq)]
pub enum Refused {
    /// No memory was found.
    Memory,
    /// By the fault that is kept.
    Kept,
}

impl From<NoMemory> for Refused {
    ghost use Rattle.std.specs.Prelude.{◌≡◌};
    ghost use Rattle.granit_refused.specs.declared.fault.Refused.TheVariants.{Memory};

    ghost from_gives = { λ _ r. r ≡ Memory };

    fn from(_: NoMemory) -> Refused {
        Refused::Memory
    }
}

impl From<AllocError> for Refused {
    ghost use Rattle.std.specs.Prelude.{◌≡◌};
    ghost use Rattle.granit_refused.specs.declared.fault.Refused.TheVariants.{Memory};

    ghost from_gives = { λ _ r. r ≡ Memory };

    fn from(_: AllocError) -> Refused {
        Refused::Memory
    }
}

impl<T: Drop> From<AllocFailed<T>> for Refused {
    ghost use Rattle.std.specs.Prelude.{◌≡◌};
    ghost use Rattle.granit_refused.specs.declared.fault.Refused.TheVariants.{Memory};

    ghost from_gives = { λ _ r. r ≡ Memory };

    fn from(_: AllocFailed<T>) -> Refused {
        Refused::Memory
    }
}

/// Refuses by that fault, which is kept.
pub fn refuse(fault: &mut Option<ScanError>, error: ScanError) -> Refused
    ensures refusal { result ≡ Kept }
    ensures kept { fault.new ≡ Some error }
    ensures told { why fault.new result ≡ error }
{
    *fault = Some(error);
    Refused::Kept
}

/// Refuses by that kind at that place, outside any named source.
pub fn refuse_at(fault: &mut Option<ScanError>, mark: Marker, kind: ErrorKind) -> Refused
    ensures refusal { result ≡ Kept }
    ensures kept { fault.new ≡ Some (fault_at (kind_of kind) mark) }
{
    *fault = Some(ScanError::from_kind(mark, kind));
    Refused::Kept
}

/// What was answered with its fault, which is kept.
pub fn keep_fault<X>(
    fault: &mut Option<ScanError>,
    answer: Result<X, ScanError>,
) -> Result<X, Refused>
    ensures { answer ≡ answered fault.new result }
{
    match answer {
        Ok(x) => Ok(x),
        Err(error) => Err(refuse(fault, error)),
    }
}

/// The fault by which a call refused.
pub fn error_of(fault: Option<ScanError>, refused: Refused) -> ScanError
    ensures { result ≡ why fault refused }
{
    match (refused, fault) {
        (Refused::Kept, Some(error)) => error,
        _ => ScanError::from_kind(Marker::new(0, 0, 0), ErrorKind::NoMemory),
    }
}

/// The same, taken from where it is kept.
pub fn take_fault(refused: Refused, fault: &mut Option<ScanError>) -> ScanError
    ensures { result ≡ why fault.old refused }
{
    error_of(fault.take(), refused)
}
