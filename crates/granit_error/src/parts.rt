//! What a kind holds beside its name, and the equality of kinds.
ghost use Rattle.std.specs.Prelude.{◌≡◌, nat_eq, fold};
ghost use Rattle.std.specs.Str.{chars, encode_utf8_all};
ghost use Rattle.std.specs.Cmp.Lexicographic.{pointwise};
ghost use Rattle.std.specs.Hash as fed;
ghost use Rattle.granit_error.specs.SameFault.{fault_limit, fault_first, fault_second, fault_message, same_parts};
ghost use Rattle.granit_error.specs.Kinds.{kind_of};

use crate::kind::ErrorKind;
use granit_base::Text;
use std::hash::{Hash, Hasher};

impl ErrorKind {
    /// Its limit, and 0 where it has none.
    fn limit(&self) -> usize
        ensures { result ≡ fault_limit (kind_of self.now) }
    {
        match self {
            ErrorKind::DirectiveByteLimitExceeded { limit }
            | ErrorKind::TooManyReservedDirectiveParams { limit }
            | ErrorKind::InputByteLimitExceeded { limit } => *limit,
            _ => 0,
        }
    }

    /// Its opener or its character, and NUL where it has none.
    fn first_char(&self) -> char
        ensures { result ≡ fault_first (kind_of self.now) }
    {
        match self {
            ErrorKind::UnclosedFlowCollection { opener } => *opener,
            ErrorKind::MismatchedFlowCollectionEnd { opener, .. } => *opener,
            ErrorKind::UnexpectedCharacter { character } => *character,
            _ => '\0',
        }
    }

    /// Its closer, and NUL where it has none.
    fn second_char(&self) -> char
        ensures { result ≡ fault_second (kind_of self.now) }
    {
        match self {
            ErrorKind::MismatchedFlowCollectionEnd { closer, .. } => *closer,
            _ => '\0',
        }
    }

    /// Its message, and no character where it has none.
    fn message(&self) -> &str
        ensures { chars result.now ≡ fault_message (kind_of self.now) }
    {
        match self {
            ErrorKind::InputIo { error } => error.message(),
            ErrorKind::InputDecoding { message } => message.as_str(),
            ErrorKind::Custom(message) => message.as_str(),
            _ => "",
        }
    }

    fn has_parts_of(&self, other: &ErrorKind) -> bool
        ensures { result ≡ same_parts (kind_of self.now) (kind_of other.now) }
    {
        self.number() == other.number()
            && self.limit() == other.limit()
            && self.first_char() == other.first_char()
            && self.second_char() == other.second_char()
    }

    fn has_message_of(&self, other: &ErrorKind) -> bool
        ensures { result ≡ pointwise nat_eq (fault_message (kind_of self.now)) (fault_message (kind_of other.now)) }
    {
        self.message() == other.message()
    }

    fn hash_message<H: Hasher>(&self, state: &mut H)
        ensures { state.new ≡ fold H.write state.old (fed.str (encode_utf8_all (fault_message (kind_of self.now)))) }
    {
        self.message().hash(state);
    }
}

impl PartialEq for ErrorKind {
    ghost use Rattle.std.specs.Cmp.{on_per, partial_equiv_from_equiv};
    ghost use Rattle.granit_error.specs.SameFault.{same_fault, same_fault_equiv};
    ghost use Rattle.granit_error.specs.Kinds.{kind_of};

    ghost eq = { λ a b. same_fault (kind_of a) (kind_of b) };

    ghost laws = { on_per kind_of (partial_equiv_from_equiv same_fault_equiv) };

    fn eq(&self, other: &ErrorKind) -> bool {
        self.has_parts_of(other) && self.has_message_of(other)
    }
}

impl Eq for ErrorKind {
    ghost use Rattle.std.specs.Cmp.{on_equiv};
    ghost use Rattle.granit_error.specs.SameFault.{same_fault_equiv};
    ghost use Rattle.granit_error.specs.Kinds.{kind_of};

    ghost laws = { on_equiv kind_of same_fault_equiv };
}

impl Hash for ErrorKind {
    ghost use Rattle.granit_error.specs.SameFault.{fault_writes, fault_writes_alike};
    ghost use Rattle.granit_error.specs.Kinds.{kind_of};

    ghost hash_input = { λ k. fault_writes (kind_of k) };

    ghost respects_eq = { λ x y h. fault_writes_alike.fed (kind_of x) (kind_of y) h };

    fn hash<H: Hasher>(&self, state: &mut H) {
        self.number().hash(state);
        self.limit().hash(state);
        self.first_char().hash(state);
        self.second_char().hash(state);
        self.hash_message(state);
    }
}
