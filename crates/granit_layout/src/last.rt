//! What the last lexeme lets the next one be.
ghost use Rattle.std.specs.Prelude.{◌≡◌};
ghost use Rattle.granit_machine.specs.Gaps as gaps;
ghost use Rattle.granit_machine.specs.Laid as laid;

use granit_lexemes::LastLexeme;

/// Whether it was an opener, or a `,` in flow.
pub fn is_opener(last: LastLexeme) -> bool
    ensures { result ≡ laid.is_opener last }
{
    matches!(last, LastLexeme::Opener)
}

/// Whether it was a `-`.
pub fn is_dash(last: LastLexeme) -> bool
    ensures { result ≡ laid.is_dash last }
{
    matches!(last, LastLexeme::BehindDash)
}

/// Whether a value may stand at once.
pub fn is_adjacent(last: LastLexeme) -> bool
    ensures { result ≡ laid.is_adjacent last }
{
    matches!(last, LastLexeme::Adjacent)
}

/// Whether it was `?` or a `:` without key, behind which a tab allows no block collection.
pub fn is_indicator(last: LastLexeme) -> bool
    ensures { result ≡ laid.is_indicator last }
{
    matches!(
        last,
        LastLexeme::BehindQuestion | LastLexeme::BehindBareColon
    )
}

/// Whether it was `?`, or where indentation is strict one of the properties behind it.
pub fn is_question(last: LastLexeme) -> bool
    ensures { result ≡ laid.is_question last }
{
    matches!(
        last,
        LastLexeme::BehindQuestion | LastLexeme::BehindProperty
    )
}

pub(crate) fn no_more_adjacent(last: LastLexeme) -> LastLexeme
    ensures { result ≡ gaps.no_more_adjacent last }
{
    match last {
        LastLexeme::Adjacent => LastLexeme::Another,
        last => last,
    }
}
