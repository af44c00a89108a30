//! What a read comes to behind its gap.
ghost use Rattle.std.specs.Prelude.{◌≡◌, Bool};
ghost use Rattle.granit_restart.specs.Header.{directive_sort};
ghost use Rattle.granit_reader.specs.Meets.{behind_met};
ghost use Rattle.granit_reader.specs.SortViews.{lexeme_sort_view};

use crate::sort::LexemeSort;

/// What a read came to behind its gap.
#[derive(Clone, Copy, Drop)]
pub enum Met {
    /// No lexeme: a refused gap, a comment, the end, or what isn't printable.
    Nothing,
    /// A directive.
    Directive,
    /// Another lexeme.
    Another,
}

/// What a lexeme of a sort is met as; the end, and what isn't printable, are none.
pub(crate) fn met_by(sort: LexemeSort) -> Met
    ensures { (before : Bool) → behind_met result before ≡ directive_sort before (lexeme_sort_view sort) }
{
    match sort {
        LexemeSort::TextEnd | LexemeSort::Unprintable => Met::Nothing,
        LexemeSort::DirectiveSign => Met::Directive,
        LexemeSort::StartMark | LexemeSort::EndMark | LexemeSort::Placed(_) => Met::Another,
    }
}
