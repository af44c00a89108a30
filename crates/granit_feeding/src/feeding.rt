//! Items are fed alike where no byte offset is told.
ghost use Rattle.granit_error.specs.OptionsData.{OptionsData};
ghost use Rattle.granit_feeding.specs.Offsets.{Kept, bare_fed, bare_flagged, bare_state};
ghost use Rattle.granit_machine.specs.Frames.{ParserState};
ghost use Rattle.granit_machine.specs.Lexing.{FlaggedItem};
ghost use Rattle.granit_machine.specs.Machine.{feed_all};
ghost use Rattle.std.specs.Prelude.{◌≡◌, List, map};

/// Items of which byte offsets or lending are forgotten are fed to the same events and the same state with these
/// forgotten, or refused for the same cause at the same place.
pub fn items_are_fed_alike_without_offsets()
    ensures { (keep : Kept) (o : OptionsData) (items : List FlaggedItem) (p : ParserState) →
        feed_all o (map (bare_flagged keep) items) (bare_state keep p) ≡ bare_fed keep (feed_all o items p) }
{}
