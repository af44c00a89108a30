//! Why an input could not be read.
ghost use Rattle.std.specs.Prelude.{◌≡◌, Some, IfOk, IfSome};
ghost use Rattle.std.specs.Str.{chars, encode_utf8_all};

use crate::words::utf8;
use granit_base::{NoMemory, OwnedText};
use std::alloc::Global;
use std::fmt;
use std::hash::{Hash, Hasher};
use std::marker::Model;

/// What the reader of an input said of its failure. Contracts see the characters of its message.
#[derive(Debug, Drop)]
pub struct InputIoError {
    message: OwnedText,
}

impl Model for InputIoError {
    ghost use Rattle.std.specs.Prelude.{List, ℕ};

    ghost Value = { List ℕ };

    ghost view = { λ e. e.message.characters };
}

impl InputIoError {
    /// The failure that has that message.
    pub fn from_message(message: OwnedText) -> InputIoError
        ensures { result ≡ message.characters }
    {
        InputIoError { message }
    }

    /// The failure whose message is the error's printed text. It takes an `io::Error`, and any other
    /// error: its clause speaks of what the argument's own impl prints.
    ///
    /// # Errors
    ///
    /// `NoMemory` alone.
    pub fn from_io<E: fmt::Display>(alloc: Global, error: &E) -> Result<InputIoError, NoMemory>
        ensures { IfOk result (λ e. IfSome (E.output error.now) (λ printed. e ≡ chars printed)) }
    {
        let printed = error.to_string(alloc)?;
        Ok(InputIoError::from_message(OwnedText::new(printed)))
    }

    /// The message.
    pub fn message(&self) -> &str
        ensures { chars result.now ≡ self.now }
    {
        self.message.as_str()
    }

    /// An equal failure.
    ///
    /// # Errors
    ///
    /// `NoMemory` alone.
    pub fn try_clone(&self, alloc: Global) -> Result<InputIoError, NoMemory>
        ensures { IfOk result (λ e. e ≡ self.now) }
    {
        Ok(InputIoError {
            message: self.message.try_clone(alloc)?,
        })
    }
}

impl fmt::Display for InputIoError {
    ghost output = { λ e. Some (encode_utf8_all e) };

    fn fmt<W: fmt::Write>(&self, f: &mut fmt::Formatter<W>) -> fmt::Result {
        f.write_str(utf8(&self.message))
    }
}

impl PartialEq for InputIoError {
    ghost use Rattle.std.specs.Prelude.{nat_eq};
    ghost use Rattle.std.specs.Cmp.{partial_equiv_from_equiv};
    ghost use Rattle.std.specs.Cmp.Lexicographic.{pointwise};
    ghost use Rattle.std.proofs.lemmas.Cmp.{nat_list_eq_equiv};

    ghost eq = { pointwise nat_eq };

    ghost laws = { partial_equiv_from_equiv nat_list_eq_equiv };

    fn eq(&self, other: &InputIoError) -> bool {
        self.message == other.message
    }
}

impl Eq for InputIoError {
    ghost use Rattle.std.proofs.lemmas.Cmp.{nat_list_eq_equiv};

    ghost laws = { nat_list_eq_equiv };
}

impl Hash for InputIoError {
    ghost use Rattle.std.proofs.Common.{rules};
    ghost use Rattle.std.specs.Hash as fed;
    ghost use Rattle.std.specs.Cmp.Rules.{hashing};

    ghost hash_input = { λ e. fed.str (encode_utf8_all e) };

    ghost respects_eq = { Prim.search (hashing, rules) };

    fn hash<H: Hasher>(&self, state: &mut H) {
        self.message.hash(state);
    }
}
