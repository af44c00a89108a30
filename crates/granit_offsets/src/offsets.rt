//! What is told of byte offsets, and whether texts are lent, change nothing else.
ghost use Rattle.granit_error.specs.OptionsData.{OptionsData};
ghost use Rattle.granit_feeding.specs.Offsets.{Kept, bare_answer, bare_here};
ghost use Rattle.granit_lexemes.specs.Here.{Here};
ghost use Rattle.granit_machine.specs.Machine.{run_from};
ghost use Rattle.std.specs.Prelude.{◌≡◌};

/// Where byte offsets aren't told, or nothing is lent, a run gives the same events with these forgotten, or the same
/// fault with its byte offset forgotten. So two beginnings that differ in these alone give answers that differ in
/// these alone.
pub fn offsets_change_nothing_else()
    ensures bare { (keep : Kept) (o : OptionsData) (h : Here) →
        run_from o (bare_here keep h) ≡ bare_answer keep (run_from o h) }
    ensures alike { (keep : Kept) (o : OptionsData) (g h : Here) → bare_here keep g ≡ bare_here keep h →
        bare_answer keep (run_from o g) ≡ bare_answer keep (run_from o h) }
{}
