//! The texts that are included.
use granit_base::{Marker, OwnedText, push_text};
use granit_error::ScanError;
use granit_replay::{Included, Resolver};
use std::alloc::Global;

/// A copy of a text, where there is room.
fn copy_of(alloc: Global, text: &str) -> String {
    let mut copy = String::new(alloc);
    let _ = push_text(&mut copy, text).is_ok();
    copy
}

/// The same as a text of its own.
pub(crate) fn own(alloc: Global, text: &str) -> OwnedText {
    OwnedText::new(copy_of(alloc, text))
}

/// Finds some texts by their names.
#[derive(Clone, Copy)]
pub(crate) struct Texts;

impl<'input> Resolver<'input> for Texts {
    ghost use Rattle.std.specs.Prelude.{⊤};

    ghost answers = { λ s name answer t. ⊤ };

    fn resolve(&mut self, alloc: Global, name: &str) -> Result<Included<'input>, ScanError> {
        match name {
            "two" => Ok(Included::Borrowed("b\n---\nc\n")),
            "lent" => Ok(Included::Borrowed("# c\n- &a x\n")),
            "own" => Ok(Included::Owned(copy_of(alloc, "&b y"))),
            "bad" => Ok(Included::Borrowed("[a")),
            _ => Err(ScanError::new(Marker::new(3, 2, 1), own(alloc, "no such text"))),
        }
    }
}
