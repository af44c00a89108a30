//! When items are refused for a comment too many.
ghost use Rattle.granit_error.specs.OptionsData.{OptionsData};
ghost use Rattle.granit_comment_room.specs.RefusedRows.{FirstRow, NoRow, RefusesRow};
ghost use Rattle.granit_quiet.specs.Quiet.{quiet};
ghost use Rattle.granit_lexemes.specs.Outcome.{Fault};
ghost use Rattle.granit_lexemes.specs.PlainEvent.{PlainEvent};
ghost use Rattle.granit_machine.specs.Frames.{ParserState};
ghost use Rattle.granit_machine.specs.Lexing.{FlaggedItem};
ghost use Rattle.granit_machine.specs.Machine.{asked_items, feed_all};
ghost use Rattle.std.specs.Prelude.{◌≡◌, ◌⊎◌, [], Err, List, None, Ok, false};

/// Items are refused for a comment only where more stand in a row behind a lexeme than may be held, and its node waits
/// there; else they are refused without their comments too, for the same.
pub fn a_comment_too_many_stands_in_a_row()
    ensures { (o : OptionsData) (p : ParserState) (items : List FlaggedItem) (f : Fault) →
        p.waiting ≡ None → p.given ≡ [] → feed_all o items p ≡ Err f →
        RefusesRow o (quiet o p) items f ⊎ (feed_all o (asked_items false items) (quiet o p) ≡ Err f) }
{}

/// The first comment too many is what items are refused for; where there is none they are answered or refused as they
/// are without their comments, and what is answered has none.
pub fn the_first_comment_too_many_is_refused()
    ensures refused { (o : OptionsData) (p : ParserState) (items : List FlaggedItem) (f : Fault) →
        p.waiting ≡ None → p.given ≡ [] → FirstRow o (quiet o p) items f → feed_all o items p ≡ Err f }
    ensures causes { (o : OptionsData) (p : ParserState) (items : List FlaggedItem) (f : Fault) →
        p.waiting ≡ None → p.given ≡ [] → feed_all o items p ≡ Err f →
        FirstRow o (quiet o p) items f
        ⊎ (NoRow o (quiet o p) items × (feed_all o (asked_items false items) (quiet o p) ≡ Err f)) }
    ensures none { (o : OptionsData) (p q : ParserState) (items : List FlaggedItem) (es : List PlainEvent) →
        p.waiting ≡ None → p.given ≡ [] → feed_all o items p ≡ Ok (es, q) → NoRow o (quiet o p) items }
{}
