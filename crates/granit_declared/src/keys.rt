//! With which lexemes simple keys begin, and what is held of possible keys.
ghost use Rattle.granit_before.specs.Fields.{AllFieldsSay};
ghost use Rattle.granit_before.specs.HeldKeys.{EachSays, keys_of};
ghost use Rattle.granit_before.specs.KeyBegins.{AllNumbered, FlagsSay, items_of};
ghost use Rattle.granit_before.specs.Openers.{openers};
ghost use Rattle.granit_before.specs.StillBegins.{StillBegins};
ghost use Rattle.granit_error.specs.OptionsData.{OptionsData};
ghost use Rattle.granit_language.specs.HeldSaid.{has_ended};
ghost use Rattle.granit_language.specs.OpenColumns.{latest};
ghost use Rattle.granit_language.specs.Reached.{Reached};
ghost use Rattle.granit_lexemes.specs.Here.{Here, mark_of, start_of};
ghost use Rattle.granit_lexemes.specs.Lexeme.{Item};
ghost use Rattle.granit_lexemes.specs.declared.layout.OpenBracket.{OpenBracket};
ghost use Rattle.granit_machine.specs.Lexing.{FlaggedItem, flagged};
ghost use Rattle.granit_machine.specs.PossibleKeys.{is_possible};
ghost use Rattle.granit_machine.specs.ReaderState.{ReaderState, reader_start};
ghost use Rattle.std.specs.Bool.{Decides};
ghost use Rattle.std.specs.Prelude.{◌≡◌, List, map, ℕ, [], false};

/// A lexeme is flagged exactly where a later `:` has as its key the run that begins with it. The items stay the same,
/// and no other flags say so.
pub fn lexemes_are_flagged_where_keys_begin()
    ensures flags { (o : OptionsData) (text : List ℕ) (items : List Item) (t : ReaderState) →
        Reached o (reader_start (start_of text)) items t → FlagsSay o text [] (flagged items) }
    ensures items { (items : List Item) → items_of (flagged items) ≡ items }
    ensures one { (o : OptionsData) (text : List ℕ) (items : List Item) (t : ReaderState) (fs : List FlaggedItem) →
        Reached o (reader_start (start_of text)) items t → items_of fs ≡ items → FlagsSay o text [] fs →
        fs ≡ flagged items }
{}

/// Each lexeme bears how many stand before it.
pub fn lexemes_are_numbered()
    ensures { (o : OptionsData) (h : Here) (items : List Item) (t : ReaderState) →
        Reached o (reader_start h) items t → AllNumbered (latest items []) }
{}

/// Each key that is held possible begins with the lexeme of its number; it must have a `:` where that stands in an open
/// column outside flow; whether one of its properties, or what is behind them, stands where no node may; and whether it
/// holds properties alone.
pub fn held_keys_are_said_of_the_lexemes()
    ensures { (o : OptionsData) (h : Here) (items : List Item) (t : ReaderState) →
        Reached o (reader_start h) items t → EachSays (latest items []) (keys_of t.laid) }
{}

/// The brackets that are held are the open ones of the lexemes, each where its opener stands.
pub fn held_brackets_are_the_open_ones()
    ensures { (o : OptionsData) (h : Here) (items : List Item) (t : ReaderState) →
        Reached o (reader_start h) items t →
        map (λ (b : OpenBracket). (b.bracket, b.mark)) t.laid.brackets ≡ openers (latest items []) }
{}

/// What each lexeme bears is said of those before it: its number, whether a bracket is open, whether it directly
/// follows a `-`, a `?` or a `:` without key, and whether it ends an open column.
pub fn fields_of_lexemes_are_said_of_those_before()
    ensures { (o : OptionsData) (text : List ℕ) (items : List Item) (t : ReaderState) →
        Reached o (reader_start (start_of text)) items t → AllFieldsSay [] items }
{}

/// But at the end of the text, a key is held possible exactly with the lexemes with which a simple key may still begin:
/// the run that they begin may be a key, and no `:` behind the place reached would be too far from it.
pub fn keys_may_still_begin_as_lexemes_say()
    ensures { (o : OptionsData) (text : List ℕ) (items : List Item) (t : ReaderState) (number : ℕ) →
        Reached o (reader_start (start_of text)) items t → has_ended (latest items []) ≡ false →
        Decides (is_possible number t.laid)
        (StillBegins o text (mark_of t.here) (latest items []) number) }
{}
