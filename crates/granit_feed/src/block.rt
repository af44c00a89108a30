//! A lexeme in a block collection (YAML 1.2.2, 8.2).
ghost use Rattle.std.specs.Prelude.{◌≡◌, ◌<◌, true, false, length, None, OnOk};
ghost use Rattle.granit_error.specs.OptionsView.{options_of};
ghost use Rattle.granit_error.specs.FaultKind as faults;
ghost use Rattle.granit_refused.specs.Answered.{answered, why};
ghost use Rattle.granit_lexemes.specs.Outcome.{fault_at};
ghost use Rattle.granit_sorts.specs.SortViews.{machine_token, sort_view};
ghost use Rattle.granit_frames.specs.Refusing.{RefusesByFault};
ghost use Rattle.granit_frames.specs.StateViews.{has_properties};
ghost use Rattle.granit_frames.specs.Wanting.{keeps_text, StepWantsToGive, WantsToGive};
ghost use Rattle.granit_items.specs.ItemViews.{kind_view};
ghost use Rattle.granit_nodes.specs.Again.{WhereNamedAgain};
ghost use Rattle.granit_nesting.specs.FrameViews.{pair_view};
ghost use Rattle.granit_machine.specs.BlockSteps as steps;
ghost use Rattle.granit_machine.specs.Frames as machine;
ghost use Rattle.granit_machine.specs.TokenSort as sorts;
ghost use Rattle.granit_machine.specs.Leaving.{LeavesIfRoom};

use granit_base::{NoMemory, Span};
use granit_error::{ErrorKind, Options, ScanError};
use granit_frames::{Frame, PairStage, ParserState, Token, TokenSort, misplaced, null_event};
use granit_nodes::{bare, next_dash, node};
use granit_refused::Refused;
use std::alloc::Global;

/// Whether a node may stand there.
fn takes_node(stage: PairStage) -> bool
    ensures { result ≡ steps.takes_node (pair_view stage) }
{
    matches!(stage, PairStage::AtQuestion | PairStage::AtValue)
}

/// No key stands there: in one place, since a match keeps room for each error that an arm makes.
fn no_key(fault: &mut Option<ScanError>, token: &Token<'_>) -> Refused
    ensures { why fault.new result ≡ fault_at faults.ExpectedBlockMappingKey token.now.lexeme.value.shown_start }
{
    misplaced(fault, token, ErrorKind::ExpectedBlockMappingKey)
}

// Sequences (YAML 1.2.2, 8.2.1).

#[inline(always)]
#[tactic(auto, unfolding(granit_machine::specs::BlockSteps::in_sequence))]
pub(crate) fn in_sequence<'input>(
    state: &mut ParserState<'input>,
    fault: &mut Option<ScanError>,
    alloc: Global,
    options: &Options,
    token: &mut Token<'input>,
    column: usize,
    indentless: bool,
) -> Result<(), Refused>
    ensures leaves { LeavesIfRoom (answered fault.new result) state.new (steps.in_sequence (options_of options.now)
        (machine_token token.old) column indentless state.old) }
    ensures by_fault { (sort_view token.old.sort ≡ sorts.BeginsKey → ⊥)
        → (sorts.is_dash_token (sort_view token.old.sort) ≡ true → state.old.waiting ≡ None)
        → RefusesByFault (answered fault.new result) (steps.in_sequence (options_of options.now)
        (machine_token token.old) column indentless state.old) }
    ensures again { WhereNamedAgain token.old.lexeme.value.kind state.old (has_properties state.old.frames ≡
        false → 0 < length state.old.frames → StepWantsToGive (answered fault.new result) state.old
        (steps.in_sequence (options_of options.now) (machine_token token.old) column indentless state.old)) }
    ensures kept { state.new.kept ≡ state.old.kept }
    ensures eventless { keeps_text (kind_view token.old.lexeme.value.kind) ≡ false
        → has_properties state.old.frames ≡ false → 0 < length state.old.frames
        → StepWantsToGive (answered fault.new result) state.old
        (steps.in_sequence (options_of options.now)
        (machine_token token.old) column indentless state.old) }
{
    if token.sort.is_dash() && token.is_in_column(column) {
        state.give_empty()?;
        return next_dash(state, fault, alloc, options, token, indentless);
    }
    if state.waits_for_none() {
        return Err(misplaced(fault, token, ErrorKind::ExpectedBlockSequenceEntry));
    }
    if token.sort.begins_node() && token.is_right_of(column) {
        return node(state, fault, alloc, options, token);
    }
    Err(misplaced(fault, token, ErrorKind::UnexpectedEofBlockSequence))
}

// Mappings (YAML 1.2.2, 8.2.2).

fn mapping_at<'input>(
    state: &mut ParserState<'input>,
    column: usize,
    stage: PairStage,
) -> Result<(), NoMemory>
    ensures leaves { OnOk result (state.new ≡ steps.mapping_at column (pair_view stage) state.old) }
    ensures kept { state.new.kept ≡ state.old.kept }
    ensures eventless { has_properties state.old.frames ≡ false → 0 < length state.old.frames
        → WantsToGive result state.old (steps.mapping_at column (pair_view stage) state.old) }
{
    state.flush()?;
    state.with_top(Frame::BlockMapping(column, stage))
}

/// Behind the `:` of a mapping.
fn mapping_colon<'input>(
    state: &mut ParserState<'input>,
    alloc: Global,
    options: &Options,
    token: &Token<'input>,
    column: usize,
) -> Result<(), NoMemory>
    ensures leaves { OnOk result (state.new ≡ steps.mapping_colon (options_of options.now)
        (machine_token token.now) column state.old) }
    ensures kept { state.new.kept ≡ state.old.kept }
    ensures eventless { has_properties state.old.frames ≡ false → 0 < length state.old.frames
        → WantsToGive result state.old (steps.mapping_colon (options_of options.now)
        (machine_token token.now) column state.old) }
{
    mapping_at(state, column, PairStage::AtValue)?;
    state.waits(
        alloc,
        token.lexeme.start,
        options.max_buffered_comment_events,
    )
}

/// A `:` without a key, whose pair has none, or one behind `?`.
fn bare_colon_in_mapping<'input>(
    state: &mut ParserState<'input>,
    alloc: Global,
    options: &Options,
    token: &Token<'input>,
    column: usize,
    stage: PairStage,
) -> Result<(), NoMemory>
    ensures leaves { OnOk result (state.new ≡ steps.bare_colon_in_mapping (options_of options.now)
        (machine_token token.now) column (pair_view stage) state.old) }
    ensures kept { state.new.kept ≡ state.old.kept }
    ensures eventless { has_properties state.old.frames ≡ false → 0 < length state.old.frames
        → WantsToGive result state.old (steps.bare_colon_in_mapping (options_of options.now)
        (machine_token token.now) column (pair_view stage) state.old) }
{
    let start = token.lexeme.start;
    match stage {
        PairStage::AtQuestion => {
            let span = Span::empty(start).with_indent(Some(column));
            state.give(null_event(), span)?;
            mapping_colon(state, alloc, options, token, column)
        }
        PairStage::BehindQuestion => mapping_colon(state, alloc, options, token, column),
        _ => colon_behind_pair(state, alloc, options, token, column),
    }
}

fn colon_behind_pair<'input>(
    state: &mut ParserState<'input>,
    alloc: Global,
    options: &Options,
    token: &Token<'input>,
    column: usize,
) -> Result<(), NoMemory>
    ensures leaves { OnOk result (state.new ≡ steps.bare_colon_in_mapping (options_of options.now)
        (machine_token token.now) column machine.BeforePair state.old) }
    ensures kept { state.new.kept ≡ state.old.kept }
{
    let start = token.lexeme.start;
    state.owed(start)?;
    state.give_null(start)?;
    mapping_colon(state, alloc, options, token, column)
}

fn pair_colon<'input>(
    state: &mut ParserState<'input>,
    fault: &mut Option<ScanError>,
    alloc: Global,
    options: &Options,
    token: &Token<'input>,
    column: usize,
    stage: PairStage,
) -> Result<(), Refused>
    ensures leaves { LeavesIfRoom (answered fault.new result) state.new (steps.next_pair (options_of options.now)
        (machine_token token.now) column (pair_view stage) sorts.BareColon state.old) }
    ensures kept { state.new.kept ≡ state.old.kept }
    ensures eventless { has_properties state.old.frames ≡ false → 0 < length state.old.frames
        → StepWantsToGive (answered fault.new result) state.old
        (steps.next_pair (options_of options.now)
        (machine_token token.now) column (pair_view stage) sorts.BareColon state.old) }
{
    bare_colon_in_mapping(state, alloc, options, token, column, stage)?;
    Ok(())
}

/// The next entry, or the `:` of this one, in the mapping's column.
fn next_pair<'input>(
    state: &mut ParserState<'input>,
    fault: &mut Option<ScanError>,
    alloc: Global,
    options: &Options,
    token: &mut Token<'input>,
    column: usize,
    stage: PairStage,
) -> Result<(), Refused>
    ensures leaves { LeavesIfRoom (answered fault.new result) state.new (steps.next_pair (options_of options.now)
        (machine_token token.old) column (pair_view stage) (sort_view token.old.sort) state.old) }
    ensures by_fault { (sort_view token.old.sort ≡ sorts.BeginsKey → ⊥)
        → RefusesByFault (answered fault.new result) (steps.next_pair (options_of options.now)
        (machine_token token.old) column (pair_view stage) (sort_view token.old.sort) state.old) }
    ensures again { WhereNamedAgain token.old.lexeme.value.kind state.old (has_properties state.old.frames ≡
        false → 0 < length state.old.frames → StepWantsToGive (answered fault.new result) state.old
        (steps.next_pair (options_of options.now) (machine_token token.old) column (pair_view stage) (sort_view
        token.old.sort) state.old)) }
    ensures kept { state.new.kept ≡ state.old.kept }
    ensures eventless { keeps_text (kind_view token.old.lexeme.value.kind) ≡ false
        → has_properties state.old.frames ≡ false → 0 < length state.old.frames
        → StepWantsToGive (answered fault.new result) state.old
        (steps.next_pair (options_of options.now)
        (machine_token token.old) column (pair_view stage) (sort_view token.old.sort) state.old) }
{
    match token.sort {
        TokenSort::BeginsKey => {
            state.owed(token.lexeme.start)?;
            mapping_at(state, column, PairStage::AtKey)?;
            bare(state, fault, alloc, options, token)
        }
        TokenSort::QuestionToken => {
            state.owed(token.lexeme.start)?;
            Ok(mapping_at(state, column, PairStage::AtQuestion)?)
        }
        _ => pair_colon(state, fault, alloc, options, token, column, stage),
    }
}

/// In a mapping where neither a simple key nor its `:` must come.
#[tactic(auto, unfolding(granit_machine::specs::BlockSteps::behind_indicator))]
fn behind_indicator<'input>(
    state: &mut ParserState<'input>,
    fault: &mut Option<ScanError>,
    alloc: Global,
    options: &Options,
    token: &mut Token<'input>,
    column: usize,
    stage: PairStage,
) -> Result<(), Refused>
    ensures leaves { LeavesIfRoom (answered fault.new result) state.new (steps.behind_indicator (options_of options.now)
        (machine_token token.old) column (pair_view stage) state.old) }
    ensures by_fault { (sort_view token.old.sort ≡ sorts.BeginsKey → ⊥)
        → RefusesByFault (answered fault.new result) (steps.behind_indicator (options_of options.now)
        (machine_token token.old) column (pair_view stage) state.old) }
    ensures again { WhereNamedAgain token.old.lexeme.value.kind state.old (has_properties state.old.frames ≡
        false → 0 < length state.old.frames → StepWantsToGive (answered fault.new result) state.old
        (steps.behind_indicator (options_of options.now) (machine_token token.old) column (pair_view stage)
        state.old)) }
    ensures kept { state.new.kept ≡ state.old.kept }
    ensures eventless { keeps_text (kind_view token.old.lexeme.value.kind) ≡ false
        → has_properties state.old.frames ≡ false → 0 < length state.old.frames
        → StepWantsToGive (answered fault.new result) state.old
        (steps.behind_indicator (options_of options.now)
        (machine_token token.old) column (pair_view stage) state.old) }
{
    if token.sort.begins_pair() && token.is_in_column(column) {
        return next_pair(state, fault, alloc, options, token, column, stage);
    }
    if !takes_node(stage) {
        return Err(misplaced(fault, token, ErrorKind::ExpectedBlockMappingKey));
    }
    if (token.sort.is_dash() && token.is_in_column(column))
        || (token.sort.begins_node() && token.is_right_of(column))
    {
        return node(state, fault, alloc, options, token);
    }
    Err(misplaced(fault, token, ErrorKind::UnexpectedEofBlockMapping))
}

fn at_block_key<'input>(
    state: &mut ParserState<'input>,
    fault: &mut Option<ScanError>,
    alloc: Global,
    options: &Options,
    token: &mut Token<'input>,
) -> Result<(), Refused>
    ensures leaves { LeavesIfRoom (answered fault.new result) state.new (steps.at_block_key (options_of options.now)
        (machine_token token.old) (sort_view token.old.sort) state.old) }
    ensures by_fault { RefusesByFault (answered fault.new result) (steps.at_block_key (options_of options.now)
        (machine_token token.old) (sort_view token.old.sort) state.old) }
    ensures again { WhereNamedAgain token.old.lexeme.value.kind state.old (has_properties state.old.frames ≡
        false → 0 < length state.old.frames → StepWantsToGive (answered fault.new result) state.old
        (steps.at_block_key (options_of options.now) (machine_token token.old) (sort_view token.old.sort)
        state.old)) }
    ensures kept { state.new.kept ≡ state.old.kept }
    ensures eventless { keeps_text (kind_view token.old.lexeme.value.kind) ≡ false
        → has_properties state.old.frames ≡ false → 0 < length state.old.frames
        → StepWantsToGive (answered fault.new result) state.old
        (steps.at_block_key (options_of options.now)
        (machine_token token.old) (sort_view token.old.sort) state.old) }
{
    match token.sort {
        TokenSort::BeginsNode => bare(state, fault, alloc, options, token),
        _ => Err(no_key(fault, token)),
    }
}

fn behind_block_key<'input>(
    state: &mut ParserState<'input>,
    fault: &mut Option<ScanError>,
    alloc: Global,
    options: &Options,
    token: &Token<'input>,
    column: usize,
) -> Result<(), Refused>
    ensures leaves { LeavesIfRoom (answered fault.new result) state.new (steps.behind_block_key (options_of options.now)
        (machine_token token.now) column (sort_view token.now.sort) state.old) }
    ensures by_fault { RefusesByFault (answered fault.new result) (steps.behind_block_key (options_of options.now)
        (machine_token token.now) column (sort_view token.now.sort) state.old) }
    ensures kept { state.new.kept ≡ state.old.kept }
    ensures eventless { has_properties state.old.frames ≡ false → 0 < length state.old.frames
        → StepWantsToGive (answered fault.new result) state.old
        (steps.behind_block_key (options_of options.now)
        (machine_token token.now) column (sort_view token.now.sort) state.old) }
{
    match token.sort {
        TokenSort::KeyedColon => Ok(mapping_colon(state, alloc, options, token, column)?),
        _ => Err(no_key(fault, token)),
    }
}

#[inline(always)]
pub(crate) fn in_mapping<'input>(
    state: &mut ParserState<'input>,
    fault: &mut Option<ScanError>,
    alloc: Global,
    options: &Options,
    token: &mut Token<'input>,
    column: usize,
    stage: PairStage,
) -> Result<(), Refused>
    ensures leaves { LeavesIfRoom (answered fault.new result) state.new (steps.in_mapping (options_of options.now)
        (machine_token token.old) column (pair_view stage) state.old) }
    ensures by_fault { (sort_view token.old.sort ≡ sorts.BeginsKey → ⊥)
        → RefusesByFault (answered fault.new result) (steps.in_mapping (options_of options.now)
        (machine_token token.old) column (pair_view stage) state.old) }
    ensures again { WhereNamedAgain token.old.lexeme.value.kind state.old (has_properties state.old.frames ≡
        false → 0 < length state.old.frames → StepWantsToGive (answered fault.new result) state.old
        (steps.in_mapping (options_of options.now) (machine_token token.old) column (pair_view stage)
        state.old)) }
    ensures kept { state.new.kept ≡ state.old.kept }
    ensures eventless { keeps_text (kind_view token.old.lexeme.value.kind) ≡ false
        → has_properties state.old.frames ≡ false → 0 < length state.old.frames
        → StepWantsToGive (answered fault.new result) state.old
        (steps.in_mapping (options_of options.now)
        (machine_token token.old) column (pair_view stage) state.old) }
{
    match stage {
        PairStage::AtKey => at_block_key(state, fault, alloc, options, token),
        PairStage::BehindKey => behind_block_key(state, fault, alloc, options, token, column),
        PairStage::AtValue => behind_indicator(state, fault, alloc, options, token, column, stage),
        _ => behind_indicator(state, fault, alloc, options, token, column, stage),
    }
}
