//! `:` (YAML 1.2.2, 7.4.2 and 8.2.2).
ghost use Rattle.std.specs.Prelude.{◌≡◌, ◌<◌, ◌≤◌, ◌^◌, ◌&&◌, not, slice_index, true, false, Ok};
ghost use Rattle.granit_cursor.specs.Reading.{GivesTo, Moves, Stands, Wherever, coded};
ghost use Rattle.granit_error.specs.OptionsView.{options_of};
ghost use Rattle.granit_lexemes.specs.Here.{Here};
ghost use Rattle.granit_lexemes.specs.Outcome.{Gives};
ghost use Rattle.granit_layout.specs.Opening.{opens_column};
ghost use Rattle.granit_machine.specs.IndicatorLexemes as spec;
ghost use Rattle.granit_machine.specs.Laid.{is_adjacent, is_in_flow};
ghost use Rattle.granit_machine.specs.Leaving.{LeavesIfRoom};
ghost use Rattle.granit_machine.specs.PossibleKeys as keys;
ghost use Rattle.granit_signs.specs.IndicatorReads.{bare_entry, bare_entry_read, begins_entry, colon_begins_entry};
ghost use Rattle.granit_signs.specs.IndicatorReads.{colon_by, keyed_by, keyed_entry, lexeme_with_key, pair_column};
ghost use Rattle.granit_items.specs.ItemViews.{alone, lexeme_view};
ghost use Rattle.granit_refused.specs.Answered.{answered};
ghost use Rattle.granit_content.specs.Reads.{NeverWants, ReadsItems, lexeme_in, seen, tail_view};

use granit_base::{Marker, is_blank};
use granit_content::{Tail, put_tail, start_of, tail_at, write_lexeme};
use granit_cursor::Cursor;
use granit_error::{ErrorKind, Options, ScanError};
use granit_input::{BorrowedInput, Input};
use granit_items::{KeyStart, Lexeme, LexemeKind};
use granit_layout::{Layouts, is_adjacent};
use granit_lexemes::{LastLexeme, PossibleKey};
use granit_refused::{Refused, refuse_at};
use std::alloc::Global;

/// A `:` with its tail, and the simple key before it.
///
/// # Errors
///
/// `FlowMappingValueAdjacentCollection` before a bracket where no value may stand at once, `InvalidColonPlacement` too
/// far below its key, `MappingValueNotAllowed` where none may stand without key, and those of `Layouts::enter_pair` and
/// `tail_at`.
#[tactic(auto, unfolding(granit_machine::specs::IndicatorLexemes::colon))]
pub fn colon<'input, T: BorrowedInput<'input>>(
    alloc: Global,
    options: &Options,
    at: &mut Cursor<T>,
    layouts: &mut Layouts,
    ends: bool,
    found: &mut Lexeme<'input>,
    fault: &mut Option<ScanError>,
) -> Result<(), Refused>
    requires room { layouts.old.number < 2 ^ 63 }
    ensures here { ReadsItems T.unread (options_of options.now).emit_comments at.old at.new layouts.new
        (lexeme_in found.new) (answered fault.new result)
        (λ h. spec.colon (options_of options.now) ends h layouts.old) }
    ensures memory { (options_of options.now).emit_comments ≡ false
        → colon_begins_entry (keys.top_key layouts.old)
        (keys.is_allowed at.old.begins_line at.old.tab layouts.old) layouts.old
        ≡ false → NeverWants (answered fault.new result) }
    ensures column { (options_of options.now).emit_comments ≡ false → opens_column (options_of options.now)
        (pair_column (keys.top_key layouts.old) at.old.place.column) layouts.old.columns ≡ false
        → NeverWants (answered fault.new result) }
    ensures moves { Moves T.unread T.left T.origin at.old at.new }
{
    let allowed = layouts.is_allowed(at.begins_line(), at.tab());
    at.look(2);
    let mark = at.mark();
    if is_before_flow(at, layouts) {
        return Err(refuse_at(fault, mark, ErrorKind::FlowMappingValueAdjacentCollection));
    }
    let start = start_of(at);
    at.step();
    let end = at.mark();
    let tail = colon_tail(alloc, at, options.emit_comments, fault)?;
    write_lexeme(found, layouts, ends, LexemeKind::Colon, &start, end);
    put_tail(found, tail);
    colon_by_key(options, layouts, mark, allowed, found, fault)
}

/// Whether a flow collection stands directly behind a `:` where no value may stand at once.
fn is_before_flow<T: Input>(at: &Cursor<T>, layouts: &Layouts) -> bool
    requires window { 2 ≤ T.window at.now.input }
    ensures { (h : Here) → Stands T.unread at.now h → result
        ≡ (not (is_adjacent layouts.now.last) && spec.opens_flow (slice_index h.unread.text 1)) }
{
    !is_adjacent(layouts.last()) && opens_flow(at.input().peek_nth(1))
}

/// Whether a bracket opens a collection.
fn opens_flow(c: char) -> bool
    ensures { result ≡ spec.opens_flow c }
{
    c == '[' || c == '{'
}

/// The tail of a `:` that ends here, where a blank follows it.
#[tactic(auto, unfolding(granit_machine::specs::IndicatorLexemes::colon_tail))]
fn colon_tail<'input, T: BorrowedInput<'input>>(
    alloc: Global,
    at: &mut Cursor<T>,
    asked: bool,
    fault: &mut Option<ScanError>,
) -> Result<Tail<'input>, Refused>
    ensures here { Wherever T.unread at.old at.new (λ h Lands.
        GivesTo tail_view (answered fault.new result) Lands (coded (seen asked) (spec.colon_tail h))) }
    ensures memory { asked ≡ false → NeverWants (answered fault.new result) }
    ensures moves { Moves T.unread T.left T.origin at.old at.new }
{
    at.look(1);
    if is_blank(at.input().peek()) {
        return tail_at(alloc, at, asked, fault);
    }
    Ok(Tail::Nothing)
}

/// A `:` at a mark with its tail: behind its key, or with none where such a one is allowed.
fn colon_by_key(
    options: &Options,
    layouts: &mut Layouts,
    mark: Marker,
    allowed: bool,
    found: &mut Lexeme<'_>,
    fault: &mut Option<ScanError>,
) -> Result<(), Refused>
    requires room { layouts.old.number < 2 ^ 63 }
    ensures here { (after : Here) → Gives (lexeme_in found.new) (answered fault.new result)
        (record { here = after; laid = layouts.new })
        (colon_by (options_of options.now) (keys.top_key layouts.old) (lexeme_view found.old) mark allowed after
        layouts.old) }
    ensures memory { colon_begins_entry (keys.top_key layouts.old) allowed layouts.old ≡ false
        → NeverWants (answered fault.new result) }
    ensures column { opens_column (options_of options.now) (pair_column (keys.top_key layouts.old) mark.place.column)
        layouts.old.columns ≡ false → NeverWants (answered fault.new result) }
{
    match layouts.top_key() {
        Some(key) => keyed_colon(options, layouts, mark, key, found, fault),
        None => bare_colon(options, layouts, mark, allowed, found, fault),
    }
}

/// A `:` behind its key.
#[tactic(auto, using(crate::proofs::IndicatorLemmas::keyed_number))]
fn keyed_colon(
    options: &Options,
    layouts: &mut Layouts,
    mark: Marker,
    key: PossibleKey,
    found: &mut Lexeme<'_>,
    fault: &mut Option<ScanError>,
) -> Result<(), Refused>
    requires room { layouts.old.number < 2 ^ 63 }
    ensures here { (after : Here) → Gives (lexeme_in found.new) (answered fault.new result)
        (record { here = after; laid = layouts.new })
        (keyed_by (options_of options.now) key (lexeme_view found.old) mark after layouts.old) }
    ensures memory { is_in_flow layouts.old ≡ true → NeverWants (answered fault.new result) }
    ensures column { opens_column (options_of options.now) key.start.place.column layouts.old.columns ≡ false
        → NeverWants (answered fault.new result) }
{
    enter_keyed(options, layouts, mark, &key, fault)?;
    keyed(layouts, &key, found);
    Ok(())
}

/// The pair of a block mapping that a `:` at a mark divides behind its key may stand here; in flow it stands anywhere.
fn enter_keyed(
    options: &Options,
    layouts: &mut Layouts,
    mark: Marker,
    key: &PossibleKey,
    fault: &mut Option<ScanError>,
) -> Result<(), Refused>
    ensures here { LeavesIfRoom (answered fault.new result) layouts.new
        (keyed_entry (options_of options.now) key.now mark layouts.old) }
    ensures memory { is_in_flow layouts.old ≡ true → NeverWants (answered fault.new result) }
    ensures column { opens_column (options_of options.now) key.now.start.place.column layouts.old.columns ≡ false
        → NeverWants (answered fault.new result) }
{
    if layouts.is_far_below(mark, key) {
        return Err(refuse_at(fault, mark, ErrorKind::InvalidColonPlacement));
    }
    if layouts.is_in_flow() {
        return Ok(());
    }
    layouts.enter_pair(options, key.start.col(), key.start, fault)
}

/// The lexeme of a `:` with its key.
fn keyed(layouts: &mut Layouts, key: &PossibleKey, found: &mut Lexeme<'_>)
    requires room { layouts.old.number < 2 ^ 63 }
    ensures { (after : Here) → spec.keyed_given (lexeme_with_key key.now (lexeme_view found.old)) after layouts.old
        ≡ Ok (alone found.new, record { here = after; laid = layouts.new }) }
{
    layouts.forget_key();
    put_key(found, key);
    layouts.count_lexeme(LastLexeme::Another);
}

/// The lexeme gets its key.
fn put_key(found: &mut Lexeme<'_>, key: &PossibleKey)
    ensures { lexeme_view found.new ≡ lexeme_with_key key.now (lexeme_view found.old) }
{
    let start = KeyStart {
        number: key.number,
        start: key.start,
    };
    found.key = Some(start);
}

/// A `:` without a key.
#[tactic(auto, using(crate::proofs::IndicatorLemmas::bare_number))]
fn bare_colon(
    options: &Options,
    layouts: &mut Layouts,
    mark: Marker,
    allowed: bool,
    found: &mut Lexeme<'_>,
    fault: &mut Option<ScanError>,
) -> Result<(), Refused>
    requires room { layouts.old.number < 2 ^ 63 }
    ensures here { (after : Here) → Gives (lexeme_in found.new) (answered fault.new result)
        (record { here = after; laid = layouts.new })
        (bare_entry_read (options_of options.now) (lexeme_view found.old) mark allowed after layouts.old) }
    ensures memory { begins_entry allowed layouts.old ≡ false → NeverWants (answered fault.new result) }
    ensures column { opens_column (options_of options.now) mark.place.column layouts.old.columns ≡ false
        → NeverWants (answered fault.new result) }
{
    let last = enter_bare(options, layouts, mark, allowed, fault)?;
    layouts.count_lexeme(last);
    Ok(())
}

/// The same of a `:` without a key, where one may stand, and what the next lexeme may be behind it.
fn enter_bare(
    options: &Options,
    layouts: &mut Layouts,
    mark: Marker,
    allowed: bool,
    fault: &mut Option<ScanError>,
) -> Result<LastLexeme, Refused>
    ensures here { Gives (λ last. last) (answered fault.new result) layouts.new
        (bare_entry (options_of options.now) mark allowed layouts.old) }
    ensures memory { begins_entry allowed layouts.old ≡ false → NeverWants (answered fault.new result) }
    ensures column { opens_column (options_of options.now) mark.place.column layouts.old.columns ≡ false
        → NeverWants (answered fault.new result) }
{
    if layouts.is_in_flow() {
        return Ok(LastLexeme::Another);
    }
    if !allowed {
        return Err(refuse_at(fault, mark, ErrorKind::MappingValueNotAllowed));
    }
    layouts.enter_pair(options, mark.col(), mark, fault)?;
    Ok(LastLexeme::BehindBareColon)
}
