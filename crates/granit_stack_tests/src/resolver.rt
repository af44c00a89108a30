//! Who finds the text of the laws.
ghost use Rattle.std.specs.Prelude.{◌≡◌, ℕ, List, Ok};
ghost use Rattle.std.specs.Borrow.{Bor};
ghost use Rattle.std.specs.Str.{chars};
ghost use Rattle.granit_replay.specs.declared.resolver.Included.TheVariants.{Borrowed};
ghost use Rattle.granit_stack_laws.specs.Examples.{small_text};

use granit_error::ScanError;
use granit_replay::{Included, Resolver};
use std::alloc::Global;

/// Finds the small text of the laws by every name.
#[derive(Clone, Copy)]
pub(crate) struct OneText;

impl<'input> Resolver<'input> for OneText {
    ghost use Rattle.std.specs.Prelude.{◌≡◌, ℕ, List, Ok};
    ghost use Rattle.std.specs.Borrow.{Bor};
    ghost use Rattle.std.specs.Str.{chars};
    ghost use Rattle.granit_replay.specs.declared.resolver.Included.TheVariants.{Borrowed};
    ghost use Rattle.granit_stack_laws.specs.Examples.{small_text};

    ghost answers = { λ s name answer t. (text : Bor (List ℕ)) × (chars text.now ≡ small_text)
        × (answer ≡ Ok (Borrowed text)) };

    fn resolve(&mut self, _alloc: Global, _name: &str) -> Result<Included<'input>, ScanError> {
        Ok(Included::Borrowed("- &a b\n"))
    }
}

/// It may answer that text.
pub(crate) fn a_resolver_finds_the_small_text<'input>()
    ensures { (name : List ℕ) (text : Bor (List ℕ)) (r q : OneText) → chars text.now ≡ small_text
        → ⟦<OneText as Resolver<'input>>⟧.answers r name (Ok (Borrowed text)) q
        × (⟦<OneText as Resolver<'input>>⟧.errors q ≡ ⟦<OneText as Resolver<'input>>⟧.errors r) }
{}
