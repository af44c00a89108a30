//! The boundary that is found is the next one: the first separated `---` or finished `...` in column 0, or the end.
ghost use Rattle.std.specs.Prelude.{◌≡◌};
ghost use Rattle.granit_lexemes.specs.Here.{Here};
ghost use Rattle.granit_restart.specs.Boundary.{Boundary, next_boundary};
ghost use Rattle.granit_restart.specs.NextBoundary.{NextBoundary, NoBoundaryBetween};

/// What is found is the first boundary.
pub fn the_next_boundary_is_found()
    ensures { (h : Here) → NextBoundary h (next_boundary h) }
{}

/// There is one first boundary.
pub fn no_other_boundary_is_next()
    ensures { (h : Here) (b : Boundary) → NextBoundary h b → next_boundary h ≡ b }
{}

/// Where no boundary, and no byte-order mark in column 0, stands between two places, the same one is next from both.
pub fn the_same_boundary_is_next_further_on()
    ensures { (h k : Here) → NoBoundaryBetween h k → next_boundary h ≡ next_boundary k }
{}
