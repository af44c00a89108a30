//! Comments.
ghost use Rattle.std.specs.Prelude.{◌≡◌, IfOk, IsOk, true};
ghost use Rattle.std.specs.Str.{chars, encode_utf8_all};
ghost use Rattle.granit_base.specs.declared.style.Placement.TheVariants.{Free};
ghost use Rattle.granit_cursor.specs.Trimmed.{trimmed};

use granit_base::{NoMemory, Placement, Text};
use std::alloc::Global;
use std::convert::AsStr;

/// A comment, and where it stands among the nodes (YAML 1.2.2, 6.6).
#[derive(Debug, Drop, PartialEq, Eq)]
pub struct Comment<'input> {
    text: Text<'input>,
    placement: Placement,
}

impl<'input> Comment<'input> {
    /// A comment of that text, which is what follows its `#`; its placement is `Free`.
    pub fn new(text: Text<'input>) -> Comment<'input>
        ensures { result ≡ record { text = text.entry; placement = Free } }
    {
        Comment {
            text,
            placement: Placement::Free,
        }
    }

    /// The same comment with that placement.
    pub fn with_placement(self, placement: Placement) -> Comment<'input>
        ensures { result ≡ record self.entry { placement = placement } }
    {
        Comment {
            text: self.text,
            placement,
        }
    }

    /// What follows its `#`, up to the break.
    pub fn text(&self) -> &str
        ensures { chars result.now ≡ self.now.text.characters }
    {
        self.text.as_str()
    }

    /// Where it stands.
    pub fn placement(&self) -> Placement
        ensures { result ≡ self.now.placement }
    {
        self.placement
    }

    /// Its text alone.
    pub fn into_text(self) -> Text<'input>
        ensures { result ≡ self.entry.text }
    {
        self.text
    }

    /// Its text without the white space at both ends.
    pub fn trimmed_text(&self) -> &str
        ensures { chars result.now ≡ trimmed self.now.text.characters }
    {
        trim(self.text.as_str())
    }

    /// An equal comment, whose text is borrowed exactly where this one's is.
    ///
    /// # Errors
    ///
    /// `NoMemory` alone.
    pub fn try_clone(&self, alloc: Global) -> Result<Comment<'input>, NoMemory>
        ensures value { IfOk result (λ c. c ≡ self.now) }
        ensures memory { self.now.text.is_borrowed ≡ true → IsOk result }
    {
        Ok(Comment {
            text: self.text.try_clone(alloc)?,
            placement: self.placement,
        })
    }
}

impl<'input> AsStr for Comment<'input> {
    ghost use Rattle.std.specs.Str.{encode_utf8_all};

    ghost text = { λ c. encode_utf8_all c.text.characters };

    fn as_str(&self) -> &str {
        utf8(self.text.as_str())
    }
}

/// The same text, by its characters.
fn utf8<'a>(text: &'a str) -> &'a str
    ensures { result.now ≡ encode_utf8_all (chars text.now) }
{
    text
}

/// A text without the white space at both ends.
fn trim<'a>(text: &'a str) -> &'a str
    ensures { chars result.now ≡ trimmed (chars text.now) }
{
    text.trim()
}
