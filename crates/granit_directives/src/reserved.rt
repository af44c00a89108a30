//! The parameters of a reserved directive (YAML 1.2.2, 6.8). What can't be read is refused at a start that the
//! caller tells.
ghost use Rattle.std.specs.Prelude.{◌≡◌, ◌==◌, ◌||◌, IfErr, Some};
ghost use Rattle.granit_base.specs.Classes as class;
ghost use Rattle.granit_cursor.specs.Reading.{Moves, Wherever, TurnTakes};
ghost use Rattle.granit_error.specs.OptionsView.{options_of};
ghost use Rattle.granit_lexemes.specs.Directive as spec;
ghost use Rattle.granit_directives.specs.DirectiveCode.{IsDirectiveKind};
ghost use Rattle.granit_directives.specs.ReservedCode.{ParametersGo, ParametersTo, all_owned, parameters_whole};

use crate::words::{count_blanks, word_within};
use granit_base::{Marker, OwnedText, TextList, is_blank_or_breakz};
use granit_cursor::Cursor;
use granit_error::{ErrorKind, Options, ScanError};
use granit_input::Input;
use granit_properties::spend;
use std::alloc::Global;

/// The parameters that were read, and how many bytes are left of the limit.
#[derive(Drop)]
pub(crate) struct ParameterParts {
    pub(crate) list: TextList,
    left: usize,
}

/// Whether no parameter stands behind so many blanks, in front of that character.
fn ends_parameters(blanks: usize, c: char) -> bool
    ensures { result ≡ ((blanks == 0 || c == 0x23) || class.is_blank_or_breakz c) }
{
    blanks == 0 || c == '#' || is_blank_or_breakz(c)
}

/// On over blanks and a parameter, where one stands behind them.
#[tactic(auto, unfolding(granit_lexemes::specs::Directive::parameter_behind))]
fn take_parameter<T: Input>(
    alloc: Global,
    cursor: &mut Cursor<T>,
    options: &Options,
    start: Marker,
    parts: &mut ParameterParts,
) -> Result<bool, ScanError>
    ensures here { Wherever T.unread cursor.old cursor.new (λ h Lands.
        ParametersGo (options_of options.now) start result Lands parts.new
        (parameters_whole (options_of options.now) start parts.old h)) }
    ensures owned { all_owned parts.old.list → all_owned parts.new.list }
    ensures left { TurnTakes result (T.left cursor.old.input) (T.left cursor.new.input) }
    ensures kinds { IfErr result (λ e. IsDirectiveKind e.kind) }
    ensures moves { Moves T.unread T.left T.origin cursor.old cursor.new }
{
    let blanks = count_blanks(cursor);
    cursor.look(1);
    let c = cursor.input().peek();
    if ends_parameters(blanks, c) {
        return Ok(false);
    }
    let limit = options.max_directive_bytes;
    spend(Some(limit), &mut parts.left, blanks, start)?;
    let most = options.max_reserved_directive_params;
    if most <= parts.list.len() {
        return Err(ScanError::from_kind(
            start,
            ErrorKind::TooManyReservedDirectiveParams { limit: most },
        ));
    }
    let word = word_within(alloc, cursor, start, limit, parts.left)?;
    parts.left = word.left;
    parts.list.push(OwnedText::new(word.text))?;
    Ok(true)
}

/// All parameters that stand here.
pub(crate) fn read_parameters<T: Input>(
    alloc: Global,
    cursor: &mut Cursor<T>,
    options: &Options,
    start: Marker,
    left: usize,
) -> Result<ParameterParts, ScanError>
    ensures here { Wherever T.unread cursor.old cursor.new (λ h Lands.
        ParametersTo (options_of options.now) start left result Lands h) }
    ensures kinds { IfErr result (λ e. IsDirectiveKind e.kind) }
    ensures moves { Moves T.unread T.left T.origin cursor.old cursor.new }
{
    let mut parts = ParameterParts {
        list: TextList::new(alloc),
        left,
    };
    'parameters: while take_parameter(alloc, cursor, options, start, &mut parts)? {}
    Ok(parts)
}
