//! Which `:` has a key, and which.
ghost use Rattle.granit_error.specs.OptionsData.{OptionsData};
ghost use Rattle.granit_language.specs.HeldSaid.{RunsSay, has_ended};
ghost use Rattle.granit_language.specs.KeyRuns.{ColonsSay, NoRun, Run};
ghost use Rattle.granit_language.specs.Reached.{Reached};
ghost use Rattle.granit_language.specs.OpenColumns.{latest};
ghost use Rattle.granit_lexemes.specs.Here.{Here, mark_of, start_of};
ghost use Rattle.granit_lexemes.specs.Lexeme.{Item, Lexeme};
ghost use Rattle.granit_machine.specs.ReaderState.{ReaderState, reader_start};
ghost use Rattle.std.specs.Prelude.{◌≡◌, List, length, ℕ, [], false};

/// A `:` has as its key the longest run of aliases, properties, scalars and whole brackets directly before
/// it at its depth, where the run may be a key and the `:` isn't too far from it; and where it has none,
/// there is no run, or the run may not be a key, or is too far.
pub fn the_key_of_a_colon_is_the_run_before_it()
    ensures { (o : OptionsData) (text : List ℕ) (items : List Item) (t : ReaderState) →
        Reached o (reader_start (start_of text)) items t → ColonsSay o text [] items }
{}

/// At most one run ends with some lexemes.
pub fn one_run_ends_there()
    ensures run { (xs ys zs : List Lexeme) (a b : Lexeme) → Run xs a ys → Run xs b zs → (a ≡ b) × (ys ≡ zs) }
    ensures none { (xs ys : List Lexeme) (a : Lexeme) → NoRun xs → Run xs a ys → ⊥ }
{}

/// What is held behind lexemes is said of them, but at the end of the text: at each depth the possible key is that of
/// the run that ends there, and where none is held, there is no run, or it may not be a key or is too far; as many
/// brackets are open; and what the last lexeme lets the next be. So many lexemes were read.
pub fn what_is_held_is_said_of_the_lexemes()
    ensures keys { (o : OptionsData) (text : List ℕ) (items : List Item) (t : ReaderState) →
        Reached o (reader_start (start_of text)) items t → has_ended (latest items []) ≡ false →
        RunsSay o text (mark_of t.here) (latest items []) t.laid }
    ensures number { (o : OptionsData) (h : Here) (items : List Item) (t : ReaderState) →
        Reached o (reader_start h) items t → t.laid.number ≡ length (latest items []) }
{}
