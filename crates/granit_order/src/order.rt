//! Lists of flagged lexemes that are in order.
ghost use Rattle.std.specs.Prelude.{Bool, List, None, Option, [], false, ℕ};
ghost use Rattle.granit_error.specs.OptionsData.{OptionsData};
ghost use Rattle.granit_views.specs.Running.{FairRun};
ghost use Rattle.granit_language.specs.Seen.{Flagged, read_lexemes};
ghost use Rattle.granit_event_machine.specs.EventMachine.{IsFresh};
ghost use Rattle.granit_language.specs.Reached.{Reached};
ghost use Rattle.granit_language.specs.Scope.{Scope, no_scope};
ghost use Rattle.granit_lexemes.specs.Here.{start_of};
ghost use Rattle.granit_lexemes.specs.Lexeme.{Item};
ghost use Rattle.granit_lexemes.specs.declared.layout.Bracket.{Bracket};
ghost use Rattle.granit_machine.specs.ReaderState.{ReaderState, reader_start};
ghost use Rattle.granit_order.specs.Order.{BracketsFrom, KeysFrom, OrderedFrom};

/// They are fair to the parser: no state that it comes to meets a lexeme that the reader would never give there.
pub fn lists_in_order_are_fair()
    ensures { (fs : List Flagged) → OrderedFrom fs no_scope [] None false → FairRun fs no_scope IsFresh }
{}

/// A list is in order where its brackets are, and where what stands before the `:` of each simple key keeps to it.
pub fn brackets_and_keys_make_an_order()
    ensures { (fs : List Flagged) (s : Scope) (bs : List Bracket) (due : Option ℕ) (may : Bool) →
        BracketsFrom fs s bs may → KeysFrom fs s bs due → OrderedFrom fs s bs due may }
{}

/// The brackets of the lexemes of a text match, and `in_flow` is what they say; in flow stands no `-`, and a simple key
/// begins only behind an opener or a `,`; nothing stands behind the end.
pub fn the_brackets_of_a_text_are_in_order()
    ensures { (o : OptionsData) (x : List ℕ) (items : List Item) (t : ReaderState) →
        Reached o (reader_start (start_of x)) items t → BracketsFrom (read_lexemes items) no_scope [] false }
{}

/// From the begin of a simple key outside flow up to its `:`, no lexeme outside brackets stands left of it or begins
/// anything else.
pub fn the_keys_of_a_text_are_in_order()
    ensures { (o : OptionsData) (x : List ℕ) (items : List Item) (t : ReaderState) →
        Reached o (reader_start (start_of x)) items t → KeysFrom (read_lexemes items) no_scope [] None }
{}
