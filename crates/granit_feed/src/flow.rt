//! A lexeme in a flow collection (YAML 1.2.2, 7.4).
ghost use Rattle.std.specs.Prelude.{◌≡◌, ◌<◌, false, length, OnOk};
ghost use Rattle.granit_error.specs.OptionsView.{options_of};
ghost use Rattle.granit_error.specs.FaultKind as faults;
ghost use Rattle.granit_refused.specs.Answered.{answered, why};
ghost use Rattle.granit_lexemes.specs.Outcome.{fault_at};
ghost use Rattle.granit_sorts.specs.SortViews.{machine_token, sort_view};
ghost use Rattle.granit_frames.specs.Refusing.{RefusesByFault};
ghost use Rattle.granit_frames.specs.StateViews.{has_properties};
ghost use Rattle.granit_frames.specs.Wanting.{keeps_text, StepWantsToGive, WantsToGive};
ghost use Rattle.granit_items.specs.ItemViews.{kind_view};
ghost use Rattle.granit_nodes.specs.Again.{WhereNamedAgain};
ghost use Rattle.granit_nesting.specs.FrameViews.{frame_view, pair_view};
ghost use Rattle.granit_machine.specs.FlowSteps as steps;
ghost use Rattle.granit_machine.specs.Frames as machine;
ghost use Rattle.granit_machine.specs.Giving as giving;
ghost use Rattle.granit_machine.specs.Leaving.{LeavesIfRoom};
ghost use Rattle.granit_machine.specs.NodeEnds as ends;
ghost use Rattle.granit_machine.specs.TokenSort as sorts;

use granit_base::{Marker, NoMemory, Span, StructureStyle};
use granit_error::{ErrorKind, Options, ScanError};
use granit_event::Event;
use granit_frames::{Frame, PairStage, ParserState, Token, TokenSort, misplaced};
use granit_nodes::bare;
use granit_refused::Refused;
use std::alloc::Global;

// What may not stand there: each in one place, since a match keeps room for each error that an arm makes.

/// No entry or key begins with it.
fn no_entry(fault: &mut Option<ScanError>, token: &Token<'_>) -> Refused
    ensures { why fault.new result ≡
        fault_at faults.UnexpectedEofImplicitFlowMapping token.now.lexeme.value.shown_start }
{
    misplaced(fault, token, ErrorKind::UnexpectedEofImplicitFlowMapping)
}

/// It is no `,` or `]`.
fn no_separator(fault: &mut Option<ScanError>, token: &Token<'_>) -> Refused
    ensures { why fault.new result ≡ fault_at faults.ExpectedFlowSequenceSeparator token.now.lexeme.value.shown_start }
{
    misplaced(fault, token, ErrorKind::ExpectedFlowSequenceSeparator)
}

/// It is no `,` or `}`.
fn no_pair_separator(fault: &mut Option<ScanError>, token: &Token<'_>) -> Refused
    ensures { why fault.new result ≡ fault_at faults.ExpectedFlowMappingSeparator token.now.lexeme.value.shown_start }
{
    misplaced(fault, token, ErrorKind::ExpectedFlowMappingSeparator)
}

// Ends and beginnings.

/// A closer, whose event ends behind it.
fn close_flow<'input>(
    state: &mut ParserState<'input>,
    token: &Token<'input>,
) -> Result<(), NoMemory>
    ensures leaves { OnOk result (state.new ≡ steps.close_flow (machine_token token.now) state.old) }
    ensures kept { state.new.kept ≡ state.old.kept }
{
    let start = token.lexeme.start;
    state.end_node(start, start, token.lexeme.shown_end)
}

#[inline(always)]
fn flow_at<'input>(
    state: &mut ParserState<'input>,
    single: bool,
    stage: PairStage,
) -> Result<(), NoMemory>
    ensures leaves { OnOk result (state.new ≡ steps.flow_at single (pair_view stage) state.old) }
    ensures kept { state.new.kept ≡ state.old.kept }
    ensures eventless { has_properties state.old.frames ≡ false → 0 < length state.old.frames
        → WantsToGive result state.old (steps.flow_at single (pair_view stage) state.old) }
{
    state.flush()?;
    state.with_top(Frame::FlowMapping(single, stage))
}

/// Behind the `:` of a mapping.
#[inline(always)]
fn flow_colon<'input>(
    state: &mut ParserState<'input>,
    alloc: Global,
    options: &Options,
    token: &Token<'input>,
    single: bool,
) -> Result<(), NoMemory>
    ensures leaves { OnOk result (state.new ≡ steps.flow_colon (options_of options.now)
        (machine_token token.now) single state.old) }
    ensures kept { state.new.kept ≡ state.old.kept }
    ensures eventless { has_properties state.old.frames ≡ false → 0 < length state.old.frames
        → WantsToGive result state.old (steps.flow_colon (options_of options.now)
        (machine_token token.now) single state.old) }
{
    flow_at(state, single, PairStage::AtValue)?;
    state.waits(
        alloc,
        token.lexeme.start,
        options.max_buffered_comment_events,
    )
}

/// Behind a `:` that has no key.
fn null_colon<'input>(
    state: &mut ParserState<'input>,
    alloc: Global,
    options: &Options,
    token: &Token<'input>,
    single: bool,
) -> Result<(), NoMemory>
    ensures leaves { OnOk result (state.new ≡ steps.flow_colon (options_of options.now) (machine_token token.now) single
        (giving.give (giving.null_at token.now.lexeme.value.start) state.old)) }
    ensures kept { state.new.kept ≡ state.old.kept }
{
    state.give_null(token.lexeme.start)?;
    flow_colon(state, alloc, options, token, single)
}

/// A single pair of a sequence begins.
#[tactic(auto, using(crate::proofs::GivingLemmas::flush_frames))]
fn begin_pair<'input>(
    state: &mut ParserState<'input>,
    token: &Token<'input>,
    end: Marker,
    frame: Frame,
) -> Result<(), NoMemory>
    requires bare { has_properties state.old.frames ≡ false }
    ensures leaves { OnOk result (state.new ≡ steps.begin_pair (machine_token token.now) end
        (frame_view frame) state.old) }
    ensures kept { state.new.kept ≡ state.old.kept }
{
    let event = Event::MappingStart(StructureStyle::Flow, 0, None);
    state.give(event, Span::new(token.lexeme.start, end))?;
    state.push_frame(frame)
}

// Sequences (YAML 1.2.2, 7.4.1).

fn at_entry<'input>(
    state: &mut ParserState<'input>,
    fault: &mut Option<ScanError>,
    alloc: Global,
    options: &Options,
    token: &mut Token<'input>,
) -> Result<(), Refused>
    requires bare { has_properties state.old.frames ≡ false }
    ensures leaves { LeavesIfRoom (answered fault.new result) state.new
        (steps.at_entry (options_of options.now) (machine_token token.old)
        (sort_view token.old.sort) state.old) }
    ensures by_fault { (sort_view token.old.sort ≡ sorts.BeginsKey → ⊥)
        → RefusesByFault (answered fault.new result)
        (steps.at_entry (options_of options.now) (machine_token token.old)
        (sort_view token.old.sort) state.old) }
    ensures again { WhereNamedAgain token.old.lexeme.value.kind state.old (StepWantsToGive (answered fault.new
        result) state.old (steps.at_entry (options_of options.now) (machine_token token.old) (sort_view
        token.old.sort) state.old)) }
    ensures kept { state.new.kept ≡ state.old.kept }
{
    let start = token.lexeme.start;
    match token.sort {
        TokenSort::SequenceCloser => Ok(close_flow(state, token)?),
        TokenSort::QuestionToken => {
            let end = token.lexeme.shown_end;
            Ok(begin_pair(state, token, end, Frame::FlowPair(PairStage::AtQuestion))?)
        }
        TokenSort::BareColon => {
            begin_pair(
                state,
                token,
                start,
                Frame::FlowMapping(true, PairStage::BeforePair),
            )?;
            Ok(null_colon(state, alloc, options, token, true)?)
        }
        TokenSort::BeginsKey => {
            begin_pair(
                state,
                token,
                start,
                Frame::FlowMapping(true, PairStage::AtKey),
            )?;
            bare(state, fault, alloc, options, token)
        }
        TokenSort::BeginsNode => bare(state, fault, alloc, options, token),
        _ => Err(no_entry(fault, token)),
    }
}

fn behind_flow_entry<'input>(
    state: &mut ParserState<'input>,
    fault: &mut Option<ScanError>,
    token: &Token<'input>,
) -> Result<(), Refused>
    ensures leaves { LeavesIfRoom (answered fault.new result) state.new (steps.behind_entry_of (machine_token token.now)
        (sort_view token.now.sort) state.old) }
    ensures by_fault { RefusesByFault (answered fault.new result) (steps.behind_entry_of (machine_token token.now)
        (sort_view token.now.sort) state.old) }
    ensures kept { state.new.kept ≡ state.old.kept }
    ensures eventless { has_properties state.old.frames ≡ false → 0 < length state.old.frames
        → StepWantsToGive (answered fault.new result) state.old (steps.behind_entry_of
        (machine_token token.now) (sort_view token.now.sort) state.old) }
{
    match token.sort {
        TokenSort::SequenceCloser => Ok(close_flow(state, token)?),
        TokenSort::CommaToken => Ok(state.with_top(Frame::FlowSequence(false))?),
        _ => Err(no_separator(fault, token)),
    }
}

pub(crate) fn in_flow_sequence<'input>(
    state: &mut ParserState<'input>,
    fault: &mut Option<ScanError>,
    alloc: Global,
    options: &Options,
    token: &mut Token<'input>,
    behind_entry: bool,
) -> Result<(), Refused>
    requires bare { has_properties state.old.frames ≡ false }
    ensures leaves { LeavesIfRoom (answered fault.new result) state.new (steps.in_flow_sequence (options_of options.now)
        (machine_token token.old) behind_entry state.old) }
    ensures by_fault { (sort_view token.old.sort ≡ sorts.BeginsKey → ⊥)
        → RefusesByFault (answered fault.new result) (steps.in_flow_sequence (options_of options.now)
        (machine_token token.old) behind_entry state.old) }
    ensures again { WhereNamedAgain token.old.lexeme.value.kind state.old (0 < length state.old.frames →
        StepWantsToGive (answered fault.new result) state.old (steps.in_flow_sequence (options_of options.now)
        (machine_token token.old) behind_entry state.old)) }
    ensures kept { state.new.kept ≡ state.old.kept }
    ensures eventless { keeps_text (kind_view token.old.lexeme.value.kind) ≡ false
        → 0 < length state.old.frames → StepWantsToGive (answered fault.new result) state.old (steps.in_flow_sequence
        (options_of options.now) (machine_token token.old) behind_entry state.old) }
{
    if behind_entry {
        behind_flow_entry(state, fault, token)
    } else {
        at_entry(state, fault, alloc, options, token)
    }
}

// Mappings (YAML 1.2.2, 7.4.2).

/// A `,` behind a pair.
#[inline(always)]
fn behind_comma<'input>(
    state: &mut ParserState<'input>,
    token: &Token<'input>,
    single: bool,
) -> Result<(), NoMemory>
    ensures leaves { OnOk result (state.new ≡ steps.flow_at single machine.BeforePair
        (ends.owed token.now.lexeme.value.start state.old)) }
    ensures kept { state.new.kept ≡ state.old.kept }
    ensures eventless { has_properties state.old.frames ≡ false → 0 < length state.old.frames
        → WantsToGive result state.old (steps.flow_at single machine.BeforePair
        (ends.owed token.now.lexeme.value.start state.old)) }
{
    state.owed(token.lexeme.start)?;
    flow_at(state, single, PairStage::BeforePair)
}

/// Before a key.
fn before_pair<'input>(
    state: &mut ParserState<'input>,
    fault: &mut Option<ScanError>,
    alloc: Global,
    options: &Options,
    token: &mut Token<'input>,
    single: bool,
) -> Result<(), Refused>
    ensures leaves { LeavesIfRoom (answered fault.new result) state.new
        (steps.in_flow_mapping_by (options_of options.now)
        (machine_token token.old) single machine.BeforePair (sort_view token.old.sort) state.old) }
    ensures by_fault { (sort_view token.old.sort ≡ sorts.BeginsKey → ⊥)
        → RefusesByFault (answered fault.new result)
        (steps.in_flow_mapping_by (options_of options.now)
        (machine_token token.old) single machine.BeforePair (sort_view token.old.sort) state.old) }
    ensures again { WhereNamedAgain token.old.lexeme.value.kind state.old (has_properties state.old.frames ≡ false →
        0 < length state.old.frames → StepWantsToGive (answered fault.new result) state.old
        (steps.in_flow_mapping_by (options_of options.now) (machine_token token.old) single machine.BeforePair
        (sort_view token.old.sort) state.old)) }
    ensures kept { state.new.kept ≡ state.old.kept }
    ensures eventless { keeps_text (kind_view token.old.lexeme.value.kind) ≡ false
        → has_properties state.old.frames ≡ false → 0 < length state.old.frames
        → StepWantsToGive (answered fault.new result) state.old (steps.in_flow_mapping_by
        (options_of options.now) (machine_token token.old) single machine.BeforePair (sort_view token.old.sort)
        state.old) }
{
    match token.sort {
        TokenSort::MappingCloser => Ok(close_flow(state, token)?),
        TokenSort::QuestionToken => Ok(flow_at(state, single, PairStage::AtQuestion)?),
        TokenSort::BeginsKey => {
            flow_at(state, single, PairStage::AtKey)?;
            bare(state, fault, alloc, options, token)
        },
        TokenSort::BareColon => Ok(null_colon(state, alloc, options, token, single)?),
        TokenSort::BeginsNode => bare(state, fault, alloc, options, token),
        _ => Err(no_entry(fault, token)),
    }
}

/// At a simple key.
fn at_flow_key<'input>(
    state: &mut ParserState<'input>,
    fault: &mut Option<ScanError>,
    alloc: Global,
    options: &Options,
    token: &mut Token<'input>,
    single: bool,
) -> Result<(), Refused>
    ensures leaves { LeavesIfRoom (answered fault.new result) state.new
        (steps.in_flow_mapping_by (options_of options.now)
        (machine_token token.old) single machine.AtKey (sort_view token.old.sort) state.old) }
    ensures by_fault { RefusesByFault (answered fault.new result)
        (steps.in_flow_mapping_by (options_of options.now)
        (machine_token token.old) single machine.AtKey (sort_view token.old.sort) state.old) }
    ensures again { WhereNamedAgain token.old.lexeme.value.kind state.old (has_properties state.old.frames ≡ false →
        0 < length state.old.frames → StepWantsToGive (answered fault.new result) state.old
        (steps.in_flow_mapping_by (options_of options.now) (machine_token token.old) single machine.AtKey (sort_view
        token.old.sort) state.old)) }
    ensures kept { state.new.kept ≡ state.old.kept }
{
    match token.sort {
        TokenSort::BeginsNode => bare(state, fault, alloc, options, token),
        _ => Err(no_entry(fault, token)),
    }
}

/// Behind a simple key.
fn behind_flow_key<'input>(
    state: &mut ParserState<'input>,
    fault: &mut Option<ScanError>,
    alloc: Global,
    options: &Options,
    token: &Token<'input>,
    single: bool,
) -> Result<(), Refused>
    ensures leaves { LeavesIfRoom (answered fault.new result) state.new
        (steps.in_flow_mapping_by (options_of options.now)
        (machine_token token.now) single machine.BehindKey (sort_view token.now.sort) state.old) }
    ensures by_fault { RefusesByFault (answered fault.new result)
        (steps.in_flow_mapping_by (options_of options.now)
        (machine_token token.now) single machine.BehindKey (sort_view token.now.sort) state.old) }
    ensures kept { state.new.kept ≡ state.old.kept }
    ensures eventless { has_properties state.old.frames ≡ false → 0 < length state.old.frames
        → StepWantsToGive (answered fault.new result) state.old (steps.in_flow_mapping_by
        (options_of options.now) (machine_token token.now) single machine.BehindKey (sort_view token.now.sort)
        state.old) }
{
    match token.sort {
        TokenSort::KeyedColon => Ok(flow_colon(state, alloc, options, token, single)?),
        _ => Err(no_pair_separator(fault, token)),
    }
}

/// Behind `?`.
fn at_flow_question<'input>(
    state: &mut ParserState<'input>,
    fault: &mut Option<ScanError>,
    alloc: Global,
    options: &Options,
    token: &mut Token<'input>,
    single: bool,
) -> Result<(), Refused>
    ensures leaves { LeavesIfRoom (answered fault.new result) state.new
        (steps.in_flow_mapping_by (options_of options.now)
        (machine_token token.old) single machine.AtQuestion (sort_view token.old.sort) state.old) }
    ensures by_fault { RefusesByFault (answered fault.new result)
        (steps.in_flow_mapping_by (options_of options.now)
        (machine_token token.old) single machine.AtQuestion (sort_view token.old.sort) state.old) }
    ensures again { WhereNamedAgain token.old.lexeme.value.kind state.old (has_properties state.old.frames ≡ false →
        0 < length state.old.frames → StepWantsToGive (answered fault.new result) state.old
        (steps.in_flow_mapping_by (options_of options.now) (machine_token token.old) single machine.AtQuestion
        (sort_view token.old.sort) state.old)) }
    ensures kept { state.new.kept ≡ state.old.kept }
    ensures eventless { keeps_text (kind_view token.old.lexeme.value.kind) ≡ false
        → has_properties state.old.frames ≡ false → 0 < length state.old.frames
        → StepWantsToGive (answered fault.new result) state.old (steps.in_flow_mapping_by
        (options_of options.now) (machine_token token.old) single machine.AtQuestion (sort_view token.old.sort)
        state.old) }
{
    match token.sort {
        TokenSort::MappingCloser => Ok(close_flow(state, token)?),
        TokenSort::CommaToken => Ok(behind_comma(state, token, single)?),
        TokenSort::BareColon => Ok(null_colon(state, alloc, options, token, single)?),
        TokenSort::BeginsNode => bare(state, fault, alloc, options, token),
        _ => Err(no_entry(fault, token)),
    }
}

/// Behind the key of a `?`.
fn behind_flow_question<'input>(
    state: &mut ParserState<'input>,
    fault: &mut Option<ScanError>,
    alloc: Global,
    options: &Options,
    token: &Token<'input>,
    single: bool,
) -> Result<(), Refused>
    ensures leaves { LeavesIfRoom (answered fault.new result) state.new
        (steps.in_flow_mapping_by (options_of options.now)
        (machine_token token.now) single machine.BehindQuestion (sort_view token.now.sort) state.old) }
    ensures by_fault { RefusesByFault (answered fault.new result)
        (steps.in_flow_mapping_by (options_of options.now)
        (machine_token token.now) single machine.BehindQuestion (sort_view token.now.sort) state.old) }
    ensures kept { state.new.kept ≡ state.old.kept }
    ensures eventless { has_properties state.old.frames ≡ false → 0 < length state.old.frames
        → StepWantsToGive (answered fault.new result) state.old (steps.in_flow_mapping_by
        (options_of options.now) (machine_token token.now) single machine.BehindQuestion (sort_view token.now.sort)
        state.old) }
{
    match token.sort {
        TokenSort::MappingCloser => Ok(close_flow(state, token)?),
        TokenSort::CommaToken => Ok(behind_comma(state, token, single)?),
        TokenSort::BareColon => Ok(flow_colon(state, alloc, options, token, single)?),
        _ => Err(no_pair_separator(fault, token)),
    }
}

/// Behind `:`.
fn at_flow_value<'input>(
    state: &mut ParserState<'input>,
    fault: &mut Option<ScanError>,
    alloc: Global,
    options: &Options,
    token: &mut Token<'input>,
    single: bool,
) -> Result<(), Refused>
    ensures leaves { LeavesIfRoom (answered fault.new result) state.new
        (steps.in_flow_mapping_by (options_of options.now)
        (machine_token token.old) single machine.AtValue (sort_view token.old.sort) state.old) }
    ensures by_fault { RefusesByFault (answered fault.new result)
        (steps.in_flow_mapping_by (options_of options.now)
        (machine_token token.old) single machine.AtValue (sort_view token.old.sort) state.old) }
    ensures again { WhereNamedAgain token.old.lexeme.value.kind state.old (has_properties state.old.frames ≡ false →
        0 < length state.old.frames → StepWantsToGive (answered fault.new result) state.old
        (steps.in_flow_mapping_by (options_of options.now) (machine_token token.old) single machine.AtValue
        (sort_view token.old.sort) state.old)) }
    ensures kept { state.new.kept ≡ state.old.kept }
    ensures eventless { keeps_text (kind_view token.old.lexeme.value.kind) ≡ false
        → has_properties state.old.frames ≡ false → 0 < length state.old.frames
        → StepWantsToGive (answered fault.new result) state.old (steps.in_flow_mapping_by
        (options_of options.now) (machine_token token.old) single machine.AtValue (sort_view token.old.sort)
        state.old) }
{
    match token.sort {
        TokenSort::MappingCloser => Ok(close_flow(state, token)?),
        TokenSort::CommaToken => Ok(behind_comma(state, token, single)?),
        TokenSort::BeginsNode => bare(state, fault, alloc, options, token),
        _ => Err(no_entry(fault, token)),
    }
}

/// Behind a node without `:`.
fn behind_alone<'input>(
    state: &mut ParserState<'input>,
    fault: &mut Option<ScanError>,
    options: &Options,
    token: &Token<'input>,
    single: bool,
) -> Result<(), Refused>
    ensures leaves { LeavesIfRoom (answered fault.new result) state.new
        (steps.in_flow_mapping_by (options_of options.now)
        (machine_token token.now) single machine.BehindAlone (sort_view token.now.sort) state.old) }
    ensures by_fault { RefusesByFault (answered fault.new result)
        (steps.in_flow_mapping_by (options_of options.now)
        (machine_token token.now) single machine.BehindAlone (sort_view token.now.sort) state.old) }
    ensures kept { state.new.kept ≡ state.old.kept }
    ensures eventless { has_properties state.old.frames ≡ false → 0 < length state.old.frames
        → StepWantsToGive (answered fault.new result) state.old (steps.in_flow_mapping_by
        (options_of options.now) (machine_token token.now) single machine.BehindAlone (sort_view token.now.sort)
        state.old) }
{
    match token.sort {
        TokenSort::MappingCloser => Ok(close_flow(state, token)?),
        TokenSort::CommaToken => Ok(behind_comma(state, token, single)?),
        _ => Err(no_pair_separator(fault, token)),
    }
}

/// Behind a value.
fn behind_flow_pair<'input>(
    state: &mut ParserState<'input>,
    fault: &mut Option<ScanError>,
    options: &Options,
    token: &Token<'input>,
    single: bool,
) -> Result<(), Refused>
    ensures leaves { LeavesIfRoom (answered fault.new result) state.new
        (steps.in_flow_mapping_by (options_of options.now)
        (machine_token token.now) single machine.BehindPair (sort_view token.now.sort) state.old) }
    ensures by_fault { RefusesByFault (answered fault.new result)
        (steps.in_flow_mapping_by (options_of options.now)
        (machine_token token.now) single machine.BehindPair (sort_view token.now.sort) state.old) }
    ensures kept { state.new.kept ≡ state.old.kept }
    ensures eventless { has_properties state.old.frames ≡ false → 0 < length state.old.frames
        → StepWantsToGive (answered fault.new result) state.old (steps.in_flow_mapping_by
        (options_of options.now) (machine_token token.now) single machine.BehindPair (sort_view token.now.sort)
        state.old) }
{
    match token.sort {
        TokenSort::MappingCloser => Ok(close_flow(state, token)?),
        TokenSort::CommaToken => Ok(behind_comma(state, token, single)?),
        _ => Err(no_pair_separator(fault, token)),
    }
}

pub(crate) fn in_flow_mapping<'input>(
    state: &mut ParserState<'input>,
    fault: &mut Option<ScanError>,
    alloc: Global,
    options: &Options,
    token: &mut Token<'input>,
    single: bool,
    stage: PairStage,
) -> Result<(), Refused>
    ensures leaves { LeavesIfRoom (answered fault.new result) state.new
        (steps.in_flow_mapping_by (options_of options.now)
        (machine_token token.old) single (pair_view stage) (sort_view token.old.sort) state.old) }
    ensures by_fault { (sort_view token.old.sort ≡ sorts.BeginsKey → ⊥)
        → RefusesByFault (answered fault.new result)
        (steps.in_flow_mapping_by (options_of options.now)
        (machine_token token.old) single (pair_view stage) (sort_view token.old.sort) state.old) }
    ensures again { WhereNamedAgain token.old.lexeme.value.kind state.old (has_properties state.old.frames ≡ false →
        0 < length state.old.frames → StepWantsToGive (answered fault.new result) state.old
        (steps.in_flow_mapping_by (options_of options.now) (machine_token token.old) single (pair_view stage)
        (sort_view token.old.sort) state.old)) }
    ensures kept { state.new.kept ≡ state.old.kept }
    ensures eventless { keeps_text (kind_view token.old.lexeme.value.kind) ≡ false
        → has_properties state.old.frames ≡ false → 0 < length state.old.frames
        → StepWantsToGive (answered fault.new result) state.old (steps.in_flow_mapping_by
        (options_of options.now) (machine_token token.old) single (pair_view stage) (sort_view token.old.sort)
        state.old) }
{
    match stage {
        PairStage::BeforePair => before_pair(state, fault, alloc, options, token, single),
        PairStage::AtKey => at_flow_key(state, fault, alloc, options, token, single),
        PairStage::BehindKey => behind_flow_key(state, fault, alloc, options, token, single),
        PairStage::AtQuestion => at_flow_question(state, fault, alloc, options, token, single),
        PairStage::BehindQuestion => behind_flow_question(
            state, fault, alloc, options, token, single,
        ),
        PairStage::AtValue => at_flow_value(state, fault, alloc, options, token, single),
        PairStage::BehindAlone => behind_alone(state, fault, options, token, single),
        PairStage::BehindPair => behind_flow_pair(state, fault, options, token, single),
    }
}

/// In the pair that a `?` makes in a sequence; what closing leaves behind its key is its `:`.
pub(crate) fn in_flow_pair<'input>(
    state: &mut ParserState<'input>,
    fault: &mut Option<ScanError>,
    alloc: Global,
    options: &Options,
    token: &mut Token<'input>,
    stage: PairStage,
) -> Result<(), Refused>
    ensures leaves { LeavesIfRoom (answered fault.new result) state.new (steps.in_flow_pair (options_of options.now)
        (machine_token token.old) (pair_view stage) (sort_view token.old.sort) state.old) }
    ensures by_fault { RefusesByFault (answered fault.new result) (steps.in_flow_pair (options_of options.now)
        (machine_token token.old) (pair_view stage) (sort_view token.old.sort) state.old) }
    ensures again { WhereNamedAgain token.old.lexeme.value.kind state.old (has_properties state.old.frames ≡ false →
        0 < length state.old.frames → StepWantsToGive (answered fault.new result) state.old (steps.in_flow_pair
        (options_of options.now) (machine_token token.old) (pair_view stage) (sort_view token.old.sort) state.old)) }
    ensures kept { state.new.kept ≡ state.old.kept }
    ensures eventless { keeps_text (kind_view token.old.lexeme.value.kind) ≡ false
        → has_properties state.old.frames ≡ false → 0 < length state.old.frames
        → StepWantsToGive (answered fault.new result) state.old (steps.in_flow_pair
        (options_of options.now) (machine_token token.old) (pair_view stage) (sort_view token.old.sort) state.old) }
{
    match stage {
        PairStage::BehindQuestion => Ok(state.with_top(Frame::FlowPair(PairStage::AtValue))?),
        _ => node_of_pair(state, fault, alloc, options, token),
    }
}

fn node_of_pair<'input>(
    state: &mut ParserState<'input>,
    fault: &mut Option<ScanError>,
    alloc: Global,
    options: &Options,
    token: &mut Token<'input>,
) -> Result<(), Refused>
    ensures leaves { LeavesIfRoom (answered fault.new result) state.new (steps.in_flow_pair (options_of options.now)
        (machine_token token.old) machine.AtValue (sort_view token.old.sort) state.old) }
    ensures by_fault { RefusesByFault (answered fault.new result) (steps.in_flow_pair (options_of options.now)
        (machine_token token.old) machine.AtValue (sort_view token.old.sort) state.old) }
    ensures again { WhereNamedAgain token.old.lexeme.value.kind state.old (has_properties state.old.frames ≡ false →
        0 < length state.old.frames → StepWantsToGive (answered fault.new result) state.old (steps.in_flow_pair
        (options_of options.now) (machine_token token.old) machine.AtValue (sort_view token.old.sort) state.old)) }
    ensures kept { state.new.kept ≡ state.old.kept }
{
    match token.sort {
        TokenSort::BeginsNode => bare(state, fault, alloc, options, token),
        _ => Err(no_entry(fault, token)),
    }
}
