//! Possible keys (YAML 1.2.2, 7.4.2 and 8.2.2).
ghost use Rattle.std.specs.Prelude.{◌≡◌, ◌<◌, ◌^◌, true, is_some};
ghost use Rattle.std.specs.Option.{ForSome};
ghost use Rattle.granit_error.specs.OptionsView.{options_of};
ghost use Rattle.granit_lexemes.specs.LayoutData as layout;
ghost use Rattle.granit_machine.specs.Laid as laid;
ghost use Rattle.granit_machine.specs.PossibleKeys as keys;
ghost use Rattle.granit_layout.specs.Rising.{is_from};
ghost use Rattle.granit_layout.specs.Views.{is_wide_in};
ghost use Rattle.granit_refused.specs.Answered.{answered};

use granit_base::Marker;
use granit_error::{ErrorKind, Options, ScanError};
use granit_lexemes::{OpenColumn, PossibleKey};
use granit_refused::{Refused, refuse_at};

/// Whether a column is left of where a node may stand.
pub(crate) fn is_left(block_column: Option<usize>, column: usize) -> bool
    ensures { result ≡ layout.is_left block_column column }
{
    match block_column {
        None => false,
        Some(n) => column <= n,
    }
}

/// Whether that is the column of a block collection.
pub(crate) fn is_column(block_column: Option<usize>, column: usize) -> bool
    ensures { result ≡ laid.is_column block_column column }
{
    match block_column {
        None => false,
        Some(n) => n == column,
    }
}

/// Whether a key began too far before a mark, or outside flow on an earlier line (YAML 1.2.2, 7.4.2).
#[tactic(auto, unfolding(granit_machine::specs::PossibleKeys::is_stale))]
pub(crate) fn is_stale(options: &Options, in_flow: bool, mark: &Marker, key: &PossibleKey) -> bool
    ensures { result ≡ keys.is_stale (options_of options.now) in_flow mark.now key.now }
{
    mark.index().saturating_sub(key.start.index()) > options.simple_key_max_lookahead
        || !in_flow && key.start.line() < mark.line()
}

/// Whether there is a key that reading has not left behind.
pub(crate) fn is_fresh(
    options: &Options,
    in_flow: bool,
    mark: &Marker,
    key: &Option<PossibleKey>,
) -> bool
    ensures fresh { result ≡ is_some (keys.fresh_key (options_of options.now) in_flow mark.now key.now) }
    ensures stays { result ≡ true → keys.fresh_key (options_of options.now) in_flow mark.now key.now ≡ key.now }
{
    match key {
        None => false,
        Some(key) => !is_stale(options, in_flow, mark, key),
    }
}

/// Refuses a key that has to get a `:` and gets none (YAML 1.2.2, 8.2.2).
pub(crate) fn refuse_required(
    key: &Option<PossibleKey>,
    fault: &mut Option<ScanError>,
) -> Result<(), Refused>
    ensures { answered fault.new result ≡ keys.refuse_required key.now }
{
    match key {
        None => Ok(()),
        Some(key) => {
            if key.is_required {
                return Err(refuse_at(fault, key.start, ErrorKind::SimpleKeyExpected));
            }
            Ok(())
        }
    }
}

/// A key goes on with a property, or with the first lexeme behind its properties.
pub(crate) fn key_goes_on(
    property: bool,
    low: bool,
    key: Option<PossibleKey>,
) -> Option<PossibleKey>
    ensures { result ≡ keys.key_goes_on property low key }
{
    match key {
        None => None,
        Some(key) => {
            if key.is_head {
                return Some(PossibleKey {
                    is_low: key.is_low || low,
                    is_head: property,
                    ..key
                });
            }
            Some(key)
        }
    }
}

pub(crate) fn is_of(number: usize, key: &Option<PossibleKey>) -> bool
    ensures { result ≡ keys.is_of number key.now }
{
    match key {
        None => false,
        Some(key) => key.number == number,
    }
}

/// Whether a key begins with the lexeme of a number or with a later one.
pub(crate) fn reaches(number: usize, key: &Option<PossibleKey>) -> bool
    ensures { result ≡ is_from number key.now }
{
    match key {
        None => false,
        Some(key) => number <= key.number,
    }
}

/// Whether the innermost column is wide where a scalar begins.
pub(crate) fn is_wide_at(in_flow: bool, column: usize, innermost: Option<OpenColumn>) -> bool
    ensures { result ≡ is_wide_in in_flow column innermost }
{
    match innermost {
        None => false,
        Some(innermost) => innermost.is_wide && (in_flow || innermost.column != column),
    }
}

/// The column left of which a tab is refused, or right of that.
pub(crate) fn tab_column(further: bool, block_column: Option<usize>) -> usize
    requires { ForSome block_column (λ n. n < 2 ^ 63) }
    ensures { result ≡ keys.tab_column_of further block_column }
{
    match block_column {
        None => 0,
        Some(n) => {
            if further {
                return n + 1;
            }
            n
        }
    }
}
