//! Texts, borrowed or owned, and lists of them.
ghost use Rattle.std.specs.Prelude.{◌≡◌, ◌==◌, [], ◌∷◌, ◌++◌, true, false, length, slice_get, string_bytes, IfOk, OnOk};
ghost use Rattle.std.specs.Prelude.{OnErr, IsOk};
ghost use Rattle.std.specs.Str.{chars};
ghost use Rattle.std.specs.Option.{option_copied};

use crate::owned::OwnedText;
use std::alloc::{AllocError, AllocFailed, Global};
use std::cmp::Ordering;
use std::hash::{Hash, Hasher};
use std::marker::Model;

/// No memory was found.
#[derive(Clone, Copy, Debug, PartialEq, Eq, Hash)]
pub struct NoMemory;

impl From<AllocError> for NoMemory {
    fn from(_: AllocError) -> NoMemory {
        NoMemory
    }
}

impl<T: Drop> From<AllocFailed<T>> for NoMemory {
    fn from(_: AllocFailed<T>) -> NoMemory {
        NoMemory
    }
}

#[derive(Debug, Drop)]
enum TextParts<'a> {
    Borrowed(&'a str),
    Owned(String),
}

/// A text, borrowed from its source or owned. Contracts see its characters and whether it is
/// borrowed; equality goes by the characters alone.
#[derive(Debug, Drop)]
pub struct Text<'a> {
    parts: TextParts<'a>,
}

impl<'a> Model for Text<'a> {
    ghost use Rattle.granit_base.specs.Written.{Written};

    ghost Value = { Written };

    ghost use Rattle.granit_base.specs.Texts.{text_chars, text_is_borrowed};

    ghost view = { λ t. record { characters = text_chars t.parts; is_borrowed = text_is_borrowed t.parts } };
}

impl<'a> Text<'a> {
    /// A text that is lent.
    pub fn borrowed(s: &'a str) -> Text<'a>
        ensures { result ≡ record { characters = chars s.now; is_borrowed = true } }
    {
        Text {
            parts: TextParts::Borrowed(s),
        }
    }

    /// A text of its own.
    pub fn owned(s: String) -> Text<'a>
        ensures { result ≡ record { characters = chars (string_bytes s); is_borrowed = false } }
    {
        Text {
            parts: TextParts::Owned(s),
        }
    }

    /// The text in UTF-8.
    pub fn as_str(&self) -> &str
        ensures { chars result.now ≡ self.now.characters }
    {
        match &self.parts {
            TextParts::Borrowed(s) => s,
            TextParts::Owned(s) => s.as_str(),
        }
    }

    /// Whether it is lent by its source.
    pub fn is_borrowed(&self) -> bool
        ensures { result ≡ self.now.is_borrowed }
    {
        matches!(self.parts, TextParts::Borrowed(_))
    }

    /// An equal text, borrowed exactly where this one is.
    ///
    /// # Errors
    ///
    /// `NoMemory` alone.
    pub fn try_clone(&self, alloc: Global) -> Result<Text<'a>, NoMemory>
        ensures value { IfOk result (λ t. t ≡ self.now) }
        ensures memory { self.now.is_borrowed ≡ true → IsOk result }
    {
        match &self.parts {
            TextParts::Borrowed(s) => Ok(Text {
                parts: TextParts::Borrowed(s),
            }),
            TextParts::Owned(s) => Ok(Text {
                parts: TextParts::Owned(String::from_str(alloc, s.as_str())?),
            }),
        }
    }
}

impl<'a> PartialEq for Text<'a> {
    ghost use Rattle.std.specs.Cmp.{on_per, partial_equiv_from_equiv};
    ghost use Rattle.std.proofs.lemmas.Cmp.{nat_list_eq_equiv};
    ghost use Rattle.granit_base.specs.Written.{same_characters};

    ghost eq = { same_characters };

    ghost laws = { on_per (λ t. t.characters) (partial_equiv_from_equiv nat_list_eq_equiv) };

    fn eq(&self, other: &Text<'a>) -> bool {
        self.as_str() == other.as_str()
    }
}

impl<'a> Eq for Text<'a> {
    ghost use Rattle.std.proofs.lemmas.Cmp.{on_equiv, nat_list_eq_equiv};

    ghost laws = { on_equiv (λ t. t.characters) nat_list_eq_equiv };
}

impl<'a> PartialOrd for Text<'a> {
    ghost use Rattle.std.specs.Prelude.{Some};
    ghost use Rattle.std.specs.Cmp.{on_po};
    ghost use Rattle.std.specs.Cmp.Lexicographic.{texts_po};
    ghost use Rattle.granit_base.specs.Written.{order_of_characters};

    ghost partial_cmp = { λ x y. Some (order_of_characters x y) };

    ghost laws = { on_po (λ t. t.characters) texts_po };

    fn partial_cmp(&self, other: &Text<'a>) -> Option<Ordering> {
        Some(self.cmp(other))
    }
}

impl<'a> Ord for Text<'a> {
    ghost use Rattle.std.specs.Prelude.{refl};
    ghost use Rattle.std.specs.Cmp.Lexicographic.{texts_ties};
    ghost use Rattle.std.proofs.lemmas.Cmp.{on_total, nat_list_cmp_total};
    ghost use Rattle.granit_base.specs.Written.{order_of_characters};

    ghost cmp = { order_of_characters };

    ghost total = { on_total (λ t. t.characters) nat_list_cmp_total };

    ghost matches_partial_cmp = { λ x y. refl };

    ghost matches_eq = { λ x y. texts_ties x.characters y.characters };

    fn cmp(&self, other: &Text<'a>) -> Ordering {
        self.as_str().chars().cmp(other.as_str().chars())
    }
}

impl<'a> Hash for Text<'a> {
    ghost use Rattle.std.proofs.Common.{rules};
    ghost use Rattle.std.specs.Str.{encode_utf8_all};
    ghost use Rattle.std.specs.Hash as fed;
    ghost use Rattle.std.specs.Cmp.Rules.{hashing};

    ghost hash_input = { λ t. fed.str (encode_utf8_all t.characters) };

    ghost respects_eq = { Prim.search (hashing, rules) };

    fn hash<H: Hasher>(&self, state: &mut H) {
        self.as_str().hash(state);
    }
}

/// A list of texts of its own.
#[derive(Debug, Drop)]
pub struct TextList {
    texts: Vec<OwnedText>,
}

impl Model for TextList {
    ghost use Rattle.std.specs.Prelude.{List};
    ghost use Rattle.granit_base.specs.Written.{Written};

    ghost Value = { List Written };

    ghost view = { λ l. l.texts.items };
}

impl TextList {
    /// No texts.
    pub fn new(alloc: Global) -> TextList
        ensures { result ≡ [] }
    {
        TextList {
            texts: Vec::new(alloc),
        }
    }

    /// Adds a text at the end.
    ///
    /// # Errors
    ///
    /// `NoMemory` alone; the list is then as before.
    pub fn push(&mut self, text: OwnedText) -> Result<(), NoMemory>
        ensures ok { OnOk result (self.new ≡ self.old ++ text ∷ []) }
        ensures err { OnErr result (self.new ≡ self.old) }
    {
        self.texts.push(text)?;
        Ok(())
    }

    /// How many texts it holds.
    pub fn len(&self) -> usize
        ensures { result ≡ length self.now }
    {
        self.texts.len()
    }

    /// Whether it holds none.
    pub fn is_empty(&self) -> bool
        ensures { result ≡ (length self.now == 0) }
    {
        self.texts.is_empty()
    }

    /// The text behind `i` others.
    pub fn get(&self, i: usize) -> Option<&OwnedText>
        ensures { option_copied result ≡ slice_get self.now i }
    {
        self.texts.get(i)
    }

    /// An equal list.
    ///
    /// # Errors
    ///
    /// `NoMemory` alone.
    pub fn try_clone(&self, alloc: Global) -> Result<TextList, NoMemory>
        ensures value { IfOk result (λ l. l ≡ self.now) }
        ensures memory { self.now ≡ [] → IsOk result }
    {
        let mut list = TextList::new(alloc);
        for text in self.as_slice() {
            list.push(text.try_clone(alloc)?)?;
        }
        Ok(list)
    }

    /// The texts in order.
    pub fn as_slice(&self) -> &[OwnedText]
        ensures { result.now ≡ self.now }
    {
        self.texts.as_slice()
    }
}

impl PartialEq for TextList {
    ghost use Rattle.std.specs.Cmp.{on_per, partial_equiv_from_equiv};
    ghost use Rattle.std.proofs.lemmas.Cmp.{on_equiv, lists_equiv, nat_list_eq_equiv};
    ghost use Rattle.granit_base.specs.Written.{same_texts};

    ghost eq = { same_texts };

    ghost laws = { partial_equiv_from_equiv (lists_equiv (on_equiv (λ t. t.characters) nat_list_eq_equiv)) };

    fn eq(&self, other: &TextList) -> bool {
        self.texts == other.texts
    }
}

impl Eq for TextList {
    ghost use Rattle.std.proofs.lemmas.Cmp.{on_equiv, lists_equiv, nat_list_eq_equiv};

    ghost laws = { lists_equiv (on_equiv (λ t. t.characters) nat_list_eq_equiv) };
}
