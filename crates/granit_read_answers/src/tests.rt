//! Each test that the plain machine's reader makes on what stands before a place decides what is declared.
ghost use Rattle.granit_base.specs.Place.{Mark};
ghost use Rattle.granit_error.specs.OptionsData.{OptionsData};
ghost use Rattle.granit_language.specs.Allowed.{DashBehindTab, FarBelow, GoesOnBehind, InBlock, Innermost, LayoutIs};
ghost use Rattle.granit_language.specs.Allowed.{LeftBehind, LeftInside, LeftOfKey, EntryMayBegin, MayPrefix, NulBehind};
ghost use Rattle.granit_language.specs.Allowed.{OpenerBehind, TabBegins};
ghost use Rattle.granit_language.specs.Stretch.{NoGap};
ghost use Rattle.granit_lexemes.specs.Here.{Here};
ghost use Rattle.granit_lexemes.specs.LayoutData.{LayoutData, is_left};
ghost use Rattle.granit_lexemes.specs.declared.layout.PossibleKey.{PossibleKey};
ghost use Rattle.granit_machine.specs.Gaps.{begins_gap, goes_on_behind, leading_tab, takes_prefix};
ghost use Rattle.granit_machine.specs.IndicatorLexemes.{is_tabbed_dash, nul_behind, opens_flow};
ghost use Rattle.granit_machine.specs.Laid.{Laid, block_column, is_column, is_in_flow, is_question};
ghost use Rattle.granit_machine.specs.PossibleKeys.{is_allowed, is_far_below, is_stale, layout_of, tab_column_of};
ghost use Rattle.std.specs.Bool.{Decides};
ghost use Rattle.std.specs.Prelude.{◌≡◌, ◌&&◌, ◌||◌, ℕ, Some, nat_lt, not, slice_index};

/// Where an entry may begin, how far a key reaches, which columns an entry stands in, and what stands behind signs.
pub fn tests_of_entries_decide()
    ensures begins { (h : Here) (l : Laid) → Decides (is_allowed h.begins_line h.tab l) (EntryMayBegin h l) }
    ensures column { (l : Laid) (column : ℕ) → Decides (is_column (block_column l) column) (Innermost l column) }
    ensures far { (h : Here) (l : Laid) (k : PossibleKey) → Decides (is_far_below h.place l k) (FarBelow h l k) }
    ensures stale { (o : OptionsData) (l : Laid) (m : Mark) (k : PossibleKey) →
        Decides (is_stale o (is_in_flow l) m k) (LeftBehind o l m k) }
    ensures tabbed { (h : Here) → Decides (is_tabbed_dash h) (DashBehindTab h) }
    ensures nul { (h : Here) → Decides (nul_behind h) (NulBehind h) }
    ensures touches { (h : Here) → Decides (opens_flow (slice_index h.unread.text 1)) (OpenerBehind h) }
    ensures left { (o : OptionsData) (h : Here) (l : Laid) →
        Decides ((o.strict_indentation && is_in_flow l) && is_left (block_column l) h.place.column) (LeftInside o h l) }
{}

/// Which tab begins a line, where none may, what goes on with a plain scalar that a comment cut short, and how far
/// a gap goes.
pub fn tests_of_gaps_decide()
    ensures told { (h : Here) (tab : Mark) → leading_tab h ≡ Some tab → TabBegins h tab }
    ensures leads { (h : Here) (tab : Mark) → TabBegins h tab → leading_tab h ≡ Some tab }
    ensures key { (l : Laid) (tab : Mark) →
        Decides (is_question l.last && is_left (block_column l) tab.place.column) (LeftOfKey l tab) }
    ensures block { (o : OptionsData) (l : Laid) (tab : Mark) →
        Decides (nat_lt tab.place.column
        (tab_column_of (l.rolled || (is_in_flow l && o.strict_indentation)) (block_column l))) (InBlock o l tab) }
    ensures cut { (l : Laid) (h : Here) (m : Mark) → Decides (goes_on_behind l h m) (GoesOnBehind l h m) }
    ensures prefix { (l : Laid) → Decides (takes_prefix l) (MayPrefix l) }
    ensures stops { (h : Here) (l : Laid) → Decides (not (begins_gap (takes_prefix l) h)) (NoGap (MayPrefix l) h) }
{}

/// The layout that a scalar is told is the declared one, and no other is.
pub fn the_layout_of_a_scalar_is_declared()
    ensures is { (o : OptionsData) (column : ℕ) (l : Laid) → LayoutIs o column l (layout_of o column l) }
    ensures one { (o : OptionsData) (column : ℕ) (l : Laid) (d : LayoutData) →
        LayoutIs o column l d → layout_of o column l ≡ d }
{}
