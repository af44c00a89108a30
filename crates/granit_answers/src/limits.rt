//! What the lexemes of a text keep to: brackets within the limit, lines and columns in flow; marks and cut scalars.
ghost use Rattle.std.specs.Prelude.{◌≡◌, List, Some, [], map};
ghost use Rattle.granit_base.specs.Place.{Mark};
ghost use Rattle.granit_error.specs.OptionsData.{OptionsData};
ghost use Rattle.granit_language.specs.OpenColumns.{latest};
ghost use Rattle.granit_language.specs.Reached.{Reached};
ghost use Rattle.granit_lexemes.specs.Here.{Here};
ghost use Rattle.granit_lexemes.specs.Lexeme.{Item};
ghost use Rattle.granit_lexemes.specs.declared.layout.OpenBracket.{OpenBracket};
ghost use Rattle.granit_machine.specs.ReaderState.{ReaderState, reader_start};
ghost use Rattle.granit_answers.specs.FlowLimit.{AllStandRight, KeysOnLines, NestWithin, brackets_behind};
ghost use Rattle.granit_answers.specs.CutShort.{LastCut};
ghost use Rattle.granit_answers.specs.Prefix.{before_document};

/// Brackets nest within the limit: each opens inside fewer than that. Those that are held behind lexemes are the open
/// ones of these, the innermost first.
pub fn brackets_nest_within_the_limit()
    ensures within { (o : OptionsData) (h : Here) (items : List Item) (t : ReaderState) →
        Reached o (reader_start h) items t → NestWithin o.flow_nesting_limit items [] }
    ensures held { (o : OptionsData) (h : Here) (items : List Item) (t : ReaderState) →
        Reached o (reader_start h) items t →
        map (λ (b : OpenBracket). b.bracket) t.laid.brackets ≡ brackets_behind items [] }
{}

/// In a flow sequence a `:` stands on no later line than its key begins on, and where indentation is strict, what
/// stands in flow stands right of each open column of the lexemes before it.
pub fn lexemes_in_flow_keep_to_lines_and_columns()
    ensures lines { (o : OptionsData) (h : Here) (items : List Item) (t : ReaderState) →
        Reached o (reader_start h) items t → KeysOnLines items [] }
    ensures columns { (o : OptionsData) (h : Here) (items : List Item) (t : ReaderState) →
        Reached o (reader_start h) items t → AllStandRight o [] items }
{}

/// Byte-order marks may stand in front of a document exactly where nothing but directives stands before them in it.
pub fn byte_order_marks_may_stand_before_documents()
    ensures { (o : OptionsData) (h : Here) (items : List Item) (t : ReaderState) →
        Reached o (reader_start h) items t → t.laid.may_prefix ≡ before_document (latest items []) }
{}

/// What a comment cut short is the plain scalar that was read last: it ends at the `#` there, and behind it nothing but
/// comments was read.
pub fn a_comment_cuts_short_the_scalar_before_it()
    ensures { (o : OptionsData) (h : Here) (items : List Item) (t : ReaderState) (m : Mark) →
        Reached o (reader_start h) items t → t.laid.cut ≡ Some m → LastCut (latest items []) m }
{}
