//! The value of a quoted scalar is the fold of the lines between its quotes, decoded.
ghost use Rattle.std.specs.Prelude.{◌≡◌, ℕ, Bool, true, false, not, List, [], ◌∷◌, ◌++◌, codes};
ghost use Rattle.granit_base.specs.Classes.{is_break};
ghost use Rattle.granit_lexemes.specs.Gap.{Each};
ghost use Rattle.granit_lexemes.specs.Here.{Here};
ghost use Rattle.granit_lexemes.specs.LayoutData.{LayoutData};
ghost use Rattle.granit_lexemes.specs.QuotedExtent.{Between, QuotedStands, quoted_value};
ghost use Rattle.granit_quoted_lines.specs.QuotedLines.{decoded_lines, fold_lines, items, line_text};

/// What stands between the quotes spells the fold of its lines, each with its escapes decoded and without
/// the blanks around its breaks; a backslash before a break escapes it.
pub fn quoted_scalars_fold()
    ensures { (single : Bool) (at : LayoutData) (h : Here) (source value gap : List ℕ) (left : Bool) (x : Between)
        (rest : List ℕ) → QuotedStands single at h source value gap left x rest
        → quoted_value value left x ≡ fold_lines (decoded_lines single (source ++ gap)) }
{}

/// A quoted scalar on one line is one on several lines without a break: what stands between its quotes
/// spells what it is decoded to.
pub fn quoted_scalars_on_one_line()
    ensures { (single : Bool) (at : LayoutData) (h : Here) (source value gap : List ℕ) (left : Bool) (x : Between)
        (rest : List ℕ) → QuotedStands single at h source value gap left x rest
        → Each (λ c. not (is_break c)) (source ++ gap)
        → quoted_value value left x ≡ line_text (items single 0 (source ++ gap)) }
{}

/// Folds of decoded lines by computation: the specification's folded and escaped breaks (examples 7.5, 7.6
/// and 7.9), a doubled quote and a backslash between single quotes, an escaped break before an empty line,
/// one alone on its line, escaped blanks beside breaks, and each way to write a character by its number.
pub fn folds_of_decoded_lines()
    ensures escaped_break { fold_lines (decoded_lines false
        (codes "folded \nto a space,\t\n \nto a line feed, or \t\\\n \\ \tnon-content"))
        ≡ codes "folded to a space,\nto a line feed, or \t \tnon-content" }
    ensures double { fold_lines (decoded_lines false (codes " 1st non-empty\n\n 2nd non-empty \n\t3rd non-empty "))
        ≡ codes " 1st non-empty\n2nd non-empty 3rd non-empty " }
    ensures single { fold_lines (decoded_lines true (codes " 1st non-empty\n\n 2nd non-empty \n\t3rd non-empty "))
        ≡ codes " 1st non-empty\n2nd non-empty 3rd non-empty " }
    ensures doubled { fold_lines (decoded_lines true (codes "here''s \\ \n it")) ≡ codes "here's \\ it" }
    ensures empty_line_behind { fold_lines (decoded_lines false (codes "a\\\r\n\r\n b")) ≡ codes "a\nb" }
    ensures alone_on_its_line { fold_lines (decoded_lines false (codes "a\n\\\n b")) ≡ codes "a b" }
    ensures escaped_blanks { fold_lines (decoded_lines false (codes "a\\ \n\\\tb")) ≡ codes "a  \tb" }
    ensures numbers { fold_lines (decoded_lines false (codes "\\x41\\u20ac\\uD83D\\uDE00\\U0001F600\\n"))
        ≡ 0x41 ∷ 0x20AC ∷ 0x1F600 ∷ 0x1F600 ∷ 0x0A ∷ [] }
    ensures on_one_line { line_text (items false 0 (codes " a\\\"b  ")) ≡ codes " a\"b  " }
{}
