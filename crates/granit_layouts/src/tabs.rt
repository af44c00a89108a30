//! In which columns a tab may stand.
ghost use Rattle.granit_base.specs.Place.{Mark};
ghost use Rattle.granit_before.specs.ScalarLayout.{ScalarLayout};
ghost use Rattle.granit_before.specs.Tabs.{BehindQuestionSign, HasColumn, IndentsFurther, IsWideColumn, TabBeforeKey};
ghost use Rattle.granit_before.specs.Tabs.{TabIndents};
ghost use Rattle.granit_error.specs.OptionsData.{OptionsData};
ghost use Rattle.granit_language.specs.Allowed.{InBlock, LayoutIs, LeftOfKey, TabBegins, TabsFit};
ghost use Rattle.granit_language.specs.Before.{freshened, in_front};
ghost use Rattle.granit_language.specs.OpenColumns.{is_outer_kind, latest};
ghost use Rattle.granit_language.specs.Reached.{Reached};
ghost use Rattle.granit_language.specs.Standing.{GapStands};
ghost use Rattle.granit_lexemes.specs.Here.{Here, mark_of, start_of};
ghost use Rattle.granit_lexemes.specs.LayoutData.{LayoutData};
ghost use Rattle.granit_lexemes.specs.Lexeme.{Item, Lexeme};
ghost use Rattle.granit_lexemes.specs.declared.layout.OpenColumn.{OpenColumn};
ghost use Rattle.granit_machine.specs.Columns.{entered};
ghost use Rattle.granit_machine.specs.IndicatorLexemes.{behind_question};
ghost use Rattle.granit_machine.specs.Laid.{Laid, is_in_flow, is_question};
ghost use Rattle.granit_machine.specs.LexemeSort.{Placed, PlacedSort};
ghost use Rattle.granit_machine.specs.ReaderState.{ReaderState, reader_start};
ghost use Rattle.std.specs.Bool.{Decides};
ghost use Rattle.std.specs.Prelude.{◌≡◌, ◌<◌, List, None, ℕ, [], false};

/// What is held of tabs is said of the lexemes before a place: whether none may stand in the innermost column either,
/// which open columns hold what asks for a node further right, and whether a key of a `?` may still come.
pub fn what_is_held_of_tabs_is_said_of_the_lexemes()
    ensures innermost { (o : OptionsData) (text : List ℕ) (items : List Item) (t : ReaderState) →
        Reached o (reader_start (start_of text)) items t →
        Decides t.laid.rolled (IndentsFurther text (latest items [])) }
    ensures columns { (o : OptionsData) (text : List ℕ) (items : List Item) (t : ReaderState) (c : OpenColumn) →
        Reached o (reader_start (start_of text)) items t → HasColumn c t.laid.columns →
        Decides c.is_wide (IsWideColumn text (latest items []) c.column) }
    ensures question { (o : OptionsData) (h : Here) (items : List Item) (t : ReaderState) →
        Reached o (reader_start h) items t →
        Decides (is_question t.laid.last) (BehindQuestionSign o (latest items [])) }
{}

/// A tab that begins a line is refused where the lexemes before it say so: in the indentation of its block, and behind
/// `?` where no key may stand.
pub fn tabs_are_refused_as_lexemes_say()
    ensures block { (o : OptionsData) (text : List ℕ) (items : List Item) (t : ReaderState) (tab : Mark) →
        Reached o (reader_start (start_of text)) items t →
        (InBlock o t.laid tab → TabIndents o text (latest items []) tab.place.column)
        × (TabIndents o text (latest items []) tab.place.column → InBlock o t.laid tab) }
    ensures key { (o : OptionsData) (h : Here) (items : List Item) (t : ReaderState) (tab : Mark) →
        Reached o (reader_start h) items t →
        (LeftOfKey t.laid tab → TabBeforeKey o (latest items []) tab.place.column)
        × (TabBeforeKey o (latest items []) tab.place.column → LeftOfKey t.laid tab) }
{}

/// What a scalar is told of its place, behind a gap, is said of the lexemes before it: the column of its block, the
/// column left of which no tab may stand on a line that it goes on over, and whether it stands in flow.
pub fn the_layout_of_a_scalar_is_said_of_the_lexemes()
    ensures told { (o : OptionsData) (text : List ℕ) (items : List Item) (t at : ReaderState) (sort : PlacedSort)
        (x : Lexeme) (d : LayoutData) → Reached o (reader_start (start_of text)) items t →
        GapStands o t.here t.laid None at → x.start ≡ mark_of at.here → x.in_flow ≡ is_in_flow t.laid →
        is_outer_kind x.kind ≡ false →
        LayoutIs o at.here.place.column (in_front (Placed sort) at.here (freshened o at).laid) d →
        ScalarLayout o text (latest items []) x d }
    ensures said { (o : OptionsData) (text : List ℕ) (items : List Item) (t at : ReaderState) (sort : PlacedSort)
        (x : Lexeme) (d : LayoutData) → Reached o (reader_start (start_of text)) items t →
        GapStands o t.here t.laid None at → x.start ≡ mark_of at.here → x.in_flow ≡ is_in_flow t.laid →
        is_outer_kind x.kind ≡ false → ScalarLayout o text (latest items []) x d →
        LayoutIs o at.here.place.column (in_front (Placed sort) at.here (freshened o at).laid) d }
{}

/// Between a `?` and what its key begins with, tabs that begin a line stand right of the `?`, and no other ones.
pub fn tabs_behind_a_question_stand_right_of_it()
    ensures fit { (o : OptionsData) (column : ℕ) (l : Laid) (at : Here) →
        TabsFit o (behind_question (entered column l)) at →
        (tab : Mark) → TabBegins at tab → column < tab.place.column }
    ensures right { (o : OptionsData) (column : ℕ) (l : Laid) (at : Here) →
        ((tab : Mark) → TabBegins at tab → column < tab.place.column) →
        TabsFit o (behind_question (entered column l)) at }
{}
