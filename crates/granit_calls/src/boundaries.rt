//! The boundary that is found stands at a counted place.
ghost use Rattle.std.specs.Prelude.{◌≡◌, ℕ, List};
ghost use Rattle.granit_lexemes.specs.Here.{Here};
ghost use Rattle.granit_lexemes.specs.Onward.{Onward};
ghost use Rattle.granit_calls.specs.BoundaryPlace.{boundary_place, IsCounted};
ghost use Rattle.granit_restart.specs.Boundary.{next_boundary};

/// It stands at a counted place, with its byte offset, where reading stood at one.
pub fn the_boundary_is_at_a_counted_place()
    ensures { (text : List ℕ) (h : Here) → IsCounted text h → IsCounted text (boundary_place (next_boundary h)) }
{}

/// Wherever reading came to from a counted place, also where a read was refused, is a counted place, and so is the
/// boundary behind it.
pub fn the_boundary_behind_a_read_is_at_a_counted_place()
    ensures read { (text : List ℕ) (start at : Here) → Onward start at → IsCounted text start → IsCounted text at }
    ensures boundary { (text : List ℕ) (start at : Here) → Onward start at → IsCounted text start
        → IsCounted text (boundary_place (next_boundary at)) }
{}
