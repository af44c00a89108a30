//! Tags.
ghost use Rattle.std.specs.Prelude.{◌≡◌, false, not, IfOk};
ghost use Rattle.std.specs.Str.{chars};
ghost use Rattle.std.specs.Option.{is_some};
ghost use Rattle.granit_event.specs.Names.{told, name_of, core_suffix_of, is_text_in, suffix_behind, original_of};

use crate::names::{behind, core_suffix, is_verbatim, joined, lent_or_joined, same_text, verbatim};
use granit_base::{NoMemory, OwnedText, Text};
use std::alloc::Global;
use std::marker::Model;

#[derive(Debug, Drop)]
struct TagParts {
    handle: OwnedText,
    suffix: OwnedText,
    original_handle: OwnedText,
}

/// The tag of a node (YAML 1.2.2, 6.9.1): what its handle stands for, what follows it, and the handle
/// as it is written, empty for a verbatim tag. Contracts see the characters of these parts.
// boxed, so that an event without a tag stays small
#[derive(Debug, Drop)]
pub struct Tag {
    parts: Box<TagParts>,
}

impl Model for Tag {
    ghost use Rattle.granit_lexemes.specs.PlainEvent.{PlainTag};

    ghost Value = { PlainTag };

    ghost view = { λ t. record {
      handle = t.parts.value.handle.characters;
      suffix = t.parts.value.suffix.characters;
      original_handle = t.parts.value.original_handle.characters;
    } };
}

impl Tag {
    /// The tag of a handle that is written as what it stands for.
    ///
    /// # Errors
    ///
    /// `NoMemory` alone.
    pub fn new(alloc: Global, handle: &str, suffix: &str) -> Result<Tag, NoMemory>
        ensures { IfOk result (λ t. t ≡ record {
          handle = chars handle.now;
          suffix = chars suffix.now;
          original_handle =
              chars handle.now;
        }) }
    {
        Tag::with_original_handle(alloc, handle, suffix, handle)
    }

    /// The tag of these three parts.
    ///
    /// # Errors
    ///
    /// `NoMemory` alone.
    pub fn with_original_handle(
        alloc: Global,
        handle: &str,
        suffix: &str,
        original_handle: &str,
    ) -> Result<Tag, NoMemory>
        ensures { IfOk result (λ t. t ≡ record {
          handle = chars handle.now;
          suffix = chars suffix.now;
          original_handle =
              chars original_handle.now;
        }) }
    {
        let parts = TagParts {
            handle: OwnedText::from_str(alloc, handle)?,
            suffix: OwnedText::from_str(alloc, suffix)?,
            original_handle: OwnedText::from_str(alloc, original_handle)?,
        };
        Ok(Tag {
            parts: Box::new(alloc, parts)?,
        })
    }

    /// What the handle stands for.
    pub fn handle(&self) -> &str
        ensures { chars result.now ≡ self.now.handle }
    {
        self.parts.handle.as_str()
    }

    /// What follows the handle.
    pub fn suffix(&self) -> &str
        ensures { chars result.now ≡ self.now.suffix }
    {
        self.parts.suffix.as_str()
    }

    /// The handle as it is written.
    pub fn original_handle(&self) -> &str
        ensures { chars result.now ≡ self.now.original_handle }
    {
        self.parts.original_handle.as_str()
    }

    /// What the handle stands for, and what follows it.
    pub fn parts(&self) -> (&str, &str)
        ensures handle { chars result.0.now ≡ self.now.handle }
        ensures suffix { chars result.1.now ≡ self.now.suffix }
    {
        (self.handle(), self.suffix())
    }

    /// The handle as it is written, and what follows it.
    pub fn original_parts(&self) -> (&str, &str)
        ensures handle { chars result.0.now ≡ self.now.original_handle }
        ensures suffix { chars result.1.now ≡ self.now.suffix }
    {
        (self.original_handle(), self.suffix())
    }

    /// The name of a tag of the core schema: what follows `tag:yaml.org,2002:` in handle and suffix,
    /// where it is `bool`, `float`, `int`, `map`, `null`, `seq` or `str` (YAML 1.2.2, 10.3.2).
    pub fn core_suffix(&self) -> Option<&str>
        ensures { told result ≡ core_suffix_of (name_of self.now) }
    {
        core_suffix(self.handle(), self.suffix())
    }

    /// What follows `prefix` in handle and suffix, and `None` where they don't begin with it. It is
    /// owned exactly where the handle goes on behind `prefix`.
    ///
    /// # Errors
    ///
    /// `NoMemory` alone.
    pub fn suffix_in_namespace(
        &self,
        alloc: Global,
        prefix: &str,
    ) -> Result<Option<Text<'_>>, NoMemory>
        ensures { IfOk result (λ s. s ≡ suffix_behind (chars prefix.now) self.now) }
    {
        match behind(prefix, self.handle(), self.suffix()) {
            None => Ok(None),
            Some((first, second)) => Ok(Some(lent_or_joined(alloc, first, second)?)),
        }
    }

    /// Whether it is a tag of the core schema (YAML 1.2.2, 10.3.2).
    pub fn is_yaml_core_schema(&self) -> bool
        ensures { result ≡ is_some (core_suffix_of (name_of self.now)) }
    {
        self.core_suffix().is_some()
    }

    /// Whether it is the tag of that name of the core schema (YAML 1.2.2, 10.3.2).
    pub fn is_yaml_core_schema_tag(&self, suffix: &str) -> bool
        ensures { result ≡ is_text_in (core_suffix_of (name_of self.now)) (chars suffix.now) }
    {
        match self.core_suffix() {
            None => false,
            Some(name) => same_text(name, suffix),
        }
    }

    /// Whether it is no tag of the core schema.
    pub fn is_custom(&self) -> bool
        ensures { result ≡ not (is_some (core_suffix_of (name_of self.now))) }
    {
        !self.is_yaml_core_schema()
    }

    /// The tag as it is written: the handle and what follows it, between `!<` and `>` where it is
    /// verbatim (YAML 1.2.2, 6.9.1).
    ///
    /// # Errors
    ///
    /// `NoMemory` alone.
    pub fn original(&self, alloc: Global) -> Result<OwnedText, NoMemory>
        ensures { IfOk result (λ t. t ≡ record { characters = original_of self.now; is_borrowed = false }) }
    {
        if is_verbatim(self.original_handle(), self.suffix()) {
            verbatim(alloc, self.suffix())
        } else {
            joined(alloc, self.original_handle(), self.suffix())
        }
    }

    /// An equal tag.
    ///
    /// # Errors
    ///
    /// `NoMemory` alone.
    pub fn try_clone(&self, alloc: Global) -> Result<Tag, NoMemory>
        ensures { IfOk result (λ t. t ≡ self.now) }
    {
        Tag::with_original_handle(alloc, self.handle(), self.suffix(), self.original_handle())
    }
}
