//! Texts of their own, which name no lifetime.
ghost use Rattle.std.specs.Prelude.{◌≡◌, true, false, IfOk};
ghost use Rattle.std.specs.Str.{chars};
ghost use Rattle.granit_base.specs.Written.{string_chars};

use crate::text::{NoMemory, Text};
use std::alloc::Global;
use std::hash::{Hash, Hasher};
use std::marker::Model;

/// A text of its own. Contracts see it as a `Text` that isn't borrowed; equality goes by the characters.
// errors, lists and tags hold it, so that they name no lifetime: a call that lends from an input may
// name none but the input's
#[derive(Debug, Drop)]
pub struct OwnedText {
    text: String,
}

impl Model for OwnedText {
    ghost use Rattle.std.specs.Prelude.{false};
    ghost use Rattle.granit_base.specs.Written.{Written, string_chars};

    ghost Value = { Written };

    ghost view = { λ t. record { characters = string_chars t.text; is_borrowed = false } };
}

impl OwnedText {
    /// That string.
    pub fn new(text: String) -> OwnedText
        ensures { result ≡ record { characters = string_chars text; is_borrowed = false } }
    {
        OwnedText { text }
    }

    /// A copy of a text.
    ///
    /// # Errors
    ///
    /// `NoMemory` alone.
    pub fn from_str(alloc: Global, text: &str) -> Result<OwnedText, NoMemory>
        ensures { IfOk result (λ t. t ≡ record { characters = chars text.now; is_borrowed = false }) }
    {
        Ok(OwnedText {
            text: String::from_str(alloc, text)?,
        })
    }

    /// The text in UTF-8.
    pub fn as_str(&self) -> &str
        ensures { chars result.now ≡ self.now.characters }
    {
        self.text.as_str()
    }

    /// The same text, lent.
    pub fn as_text(&self) -> Text<'_>
        ensures { result ≡ record { characters = self.now.characters; is_borrowed = true } }
    {
        Text::borrowed(self.as_str())
    }

    /// The same text, for any lifetime.
    pub fn into_text<'a>(self) -> Text<'a>
        ensures { result ≡ self }
    {
        Text::owned(self.text)
    }

    /// An equal text.
    ///
    /// # Errors
    ///
    /// `NoMemory` alone.
    pub fn try_clone(&self, alloc: Global) -> Result<OwnedText, NoMemory>
        ensures { IfOk result (λ t. t ≡ self.now) }
    {
        OwnedText::from_str(alloc, self.text.as_str())
    }
}

impl PartialEq for OwnedText {
    ghost use Rattle.std.specs.Cmp.{on_per, partial_equiv_from_equiv};
    ghost use Rattle.std.proofs.lemmas.Cmp.{nat_list_eq_equiv};
    ghost use Rattle.granit_base.specs.Written.{same_characters};

    ghost eq = { same_characters };

    ghost laws = { on_per (λ t. t.characters) (partial_equiv_from_equiv nat_list_eq_equiv) };

    fn eq(&self, other: &OwnedText) -> bool {
        self.as_text() == other.as_text()
    }
}

impl Eq for OwnedText {
    ghost use Rattle.std.proofs.lemmas.Cmp.{on_equiv, nat_list_eq_equiv};

    ghost laws = { on_equiv (λ t. t.characters) nat_list_eq_equiv };
}

impl Hash for OwnedText {
    ghost use Rattle.std.proofs.Common.{rules};
    ghost use Rattle.std.specs.Str.{encode_utf8_all};
    ghost use Rattle.std.specs.Hash as fed;
    ghost use Rattle.std.specs.Cmp.Rules.{hashing};

    ghost hash_input = { λ t. fed.str (encode_utf8_all t.characters) };

    ghost respects_eq = { Prim.search (hashing, rules) };

    fn hash<H: Hasher>(&self, state: &mut H) {
        self.as_text().hash(state);
    }
}
