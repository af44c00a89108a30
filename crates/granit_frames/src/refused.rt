//! Tokens that are refused.
ghost use Rattle.std.specs.Prelude.{◌≡◌};
ghost use Rattle.granit_error.specs.Kinds.{kind_of};
ghost use Rattle.granit_lexemes.specs.Outcome.{fault_at};
ghost use Rattle.granit_refused.specs.Answered.{why};

use granit_error::{ErrorKind, ScanError};
use granit_refused::{Refused, refuse};
use granit_sorts::Token;

/// A token is refused where it stands.
pub fn misplaced(fault: &mut Option<ScanError>, token: &Token<'_>, kind: ErrorKind) -> Refused
    ensures { why fault.new result ≡ fault_at (kind_of kind) token.now.lexeme.value.shown_start }
{
    refuse(fault, token.misplaced(kind))
}
