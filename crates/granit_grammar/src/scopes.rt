//! What stands declared at a place, in words of the lexemes before it.
ghost use Rattle.std.specs.Prelude.{◌≡◌, ℕ, List, ◌⊎◌, Some, None};
ghost use Rattle.granit_error.specs.OptionsData.{OptionsData};
ghost use Rattle.granit_language.specs.Declared.{NamedBy, NoneSince, is_anchor_of, InForce, NotInForce, Without};
ghost use Rattle.granit_language.specs.Declared.{no_kind, anchors, is_handle_of, Never, DeclaredEver, StandsFor};
ghost use Rattle.granit_language.specs.Scope.{no_scope, entry_of};
ghost use Rattle.granit_language.specs.Scoping.{scope_behind, number_of_anchor, prefix_of};
ghost use Rattle.granit_language.specs.Terminal.{Terminal};

/// The kept scope is what the lexemes before a place declare.
pub fn the_scope_is_what_is_declared()
    ensures count { (front : List Terminal) → (scope_behind front no_scope).count ≡ anchors front 0 }
    ensures named { (name : List ℕ) (front : List Terminal) (n : ℕ)
        → number_of_anchor name (scope_behind front no_scope) ≡ Some n →
        NamedBy name front n }
    ensures not_named { (name : List ℕ) (front : List Terminal)
        → number_of_anchor name (scope_behind front no_scope) ≡ None →
        NoneSince (is_anchor_of name) front }
    ensures in_force { (handle : List ℕ) (front : List Terminal) (prefix : List ℕ) →
        entry_of handle (scope_behind front no_scope).handles ≡ Some prefix → InForce handle front prefix }
    ensures not_in_force { (handle : List ℕ) (front : List Terminal)
        → entry_of handle (scope_behind front no_scope).handles ≡ None →
        NotInForce handle front ⊎ Without no_kind front }
    ensures ever { (handle : List ℕ) (front : List Terminal) (prefix : List ℕ) →
        entry_of handle (scope_behind front no_scope).all_handles ≡ Some prefix → DeclaredEver handle front prefix }
    ensures never { (handle : List ℕ) (front : List Terminal)
        → entry_of handle (scope_behind front no_scope).all_handles ≡ None →
        Never (is_handle_of handle) front }
    ensures prefixed { (o : OptionsData) (handle : List ℕ) (front : List Terminal) (prefix : List ℕ)
        → prefix_of o handle (scope_behind front no_scope) ≡ Some prefix → StandsFor o handle front prefix }
{}
