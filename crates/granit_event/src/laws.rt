//! What the answers of a tag depend on.
ghost use Rattle.std.specs.Prelude.{◌≡◌, ◌↔◌, ℕ, List, Some, ◌++◌, Contains};
ghost use Rattle.std.specs.Option.{option_map};
ghost use Rattle.granit_lexemes.specs.PlainEvent.{PlainTag};
ghost use Rattle.granit_event.specs.Names.{name_of, core_namespace, core_names, core_suffix_of, suffix_behind};

/// A core suffix is what follows `tag:yaml.org,2002:`, where it is one of the seven names.
pub fn core_suffixes_are_named()
    ensures { (x s : List ℕ) → (core_suffix_of x ≡ Some s) ↔ ((x ≡ core_namespace ++ s) × Contains core_names s) }
{}

/// As texts, the answers on a namespace depend on handle followed by suffix alone. Of the core's the
/// clause says so itself.
pub fn parts_of_a_name_are_one()
    ensures { (p : List ℕ) (t u : PlainTag) → name_of t ≡ name_of u
        → option_map (λ s. s.characters) (suffix_behind p t) ≡ option_map (λ s. s.characters) (suffix_behind p u) }
{}
