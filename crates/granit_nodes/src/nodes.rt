//! A lexeme where a node must stand (YAML 1.2.2, 6.9, 7.1 and 8.2).
ghost use Rattle.std.specs.Prelude.{◌≡◌, ◌<◌, true, false, length, nat_le, codes, None, Ok, Some};
ghost use Rattle.std.specs.Prelude.{IfOk, IfSome, IsOk, OnOk};
ghost use Rattle.std.specs.Option.{option_map};
ghost use Rattle.std.specs.Str.{chars};
ghost use Rattle.granit_error.specs.OptionsView.{options_of};
ghost use Rattle.granit_event.specs.Events.{event_kind};
ghost use Rattle.granit_refused.specs.Answered.{answered};
ghost use Rattle.granit_sorts.specs.SortViews.{machine_token, of_kind, sort_view};
ghost use Rattle.granit_frames.specs.Refusing.{AnswersValue, RefusesByFault};
ghost use Rattle.granit_frames.specs.StateViews.{has_properties};
ghost use Rattle.granit_frames.specs.Wanting.{StepWantsToGive};
ghost use Rattle.granit_frames.specs.StateViews.{bears};
ghost use Rattle.granit_nesting.specs.FrameViews.{pair_view};
ghost use Rattle.granit_items.specs.ItemViews.{boxed_view};
ghost use Rattle.granit_items.specs.declared.item.LexemeKind.TheVariants as kinds;
ghost use Rattle.granit_machine.specs.Frames as machine;
ghost use Rattle.granit_machine.specs.Giving as giving;
ghost use Rattle.granit_machine.specs.NodeEnds as ends;
ghost use Rattle.granit_machine.specs.NodeSteps as steps;
ghost use Rattle.granit_machine.specs.TokenSort as sorts;
ghost use Rattle.granit_machine.specs.Leaving.{LeavesIfRoom};
ghost use Rattle.granit_nodes.specs.Again.{WhereNamedAgain};

use granit_base::{Marker, NoMemory, Placement, ScalarStyle, Span, StructureStyle, Text};
use granit_error::{ErrorKind, Options, ScanError};
use granit_event::{Event, Tag};
use granit_frames::{Frame, PairStage, ParserState, Token, TokenSort, length_of, misplaced};
use granit_items::{LexemeKind, Note};
use granit_lexemes::Bracket;
use granit_refused::{Refused, refuse};
use std::alloc::Global;
use std::mem;

// Aliases and scalars (YAML 1.2.2, 7.1 and 7.3).

/// A node of one event.
#[inline(always)]
fn leaf<'input>(
    state: &mut ParserState<'input>,
    options: &Options,
    event: Event<'input>,
    token: &Token<'input>,
    indent: Option<usize>,
) -> Result<(), NoMemory>
    ensures leaves { OnOk result (state.new ≡ ends.finish (giving.node_event (options_of options.now)
        (bears (event_kind event.entry)) (machine_token token.now).lexeme.shown indent state.old)) }
    ensures kept { state.new.kept ≡ state.old.kept }
{
    state.node_event(
        options,
        event,
        &token.lexeme.shown_start,
        &token.lexeme.shown_end,
        indent,
    )?;
    state.finish()
}

#[inline(never)]
fn alias<'input>(
    state: &mut ParserState<'input>,
    fault: &mut Option<ScanError>,
    options: &Options,
    name: Text<'input>,
    token: &Token<'input>,
) -> Result<(), Refused>
    ensures leaves { LeavesIfRoom (answered fault.new result) state.new (steps.bare (options_of options.now)
        (of_kind (kinds.Alias name.entry) token.now) state.old) }
    ensures by_fault { RefusesByFault (answered fault.new result) (steps.bare (options_of options.now)
        (of_kind (kinds.Alias name.entry) token.now) state.old) }
    ensures kept { state.new.kept ≡ state.old.kept }
{
    match state.number_of(&name) {
        Some(number) => Ok(leaf(state, options, Event::Alias(number), token, None)?),
        None => unresolved(state, fault, options, name, token),
    }
}

/// An alias of a name that no anchor has.
fn unresolved<'input>(
    state: &mut ParserState<'input>,
    fault: &mut Option<ScanError>,
    options: &Options,
    name: Text<'input>,
    token: &Token<'input>,
) -> Result<(), Refused>
    ensures leaves { LeavesIfRoom (answered fault.new result) state.new (steps.alias_by (options_of options.now)
        (machine_token token.now) name.entry None state.old) }
    ensures by_fault { RefusesByFault (answered fault.new result) (steps.alias_by (options_of options.now)
        (machine_token token.now) name.entry None state.old) }
    ensures kept { state.new.kept ≡ state.old.kept }
{
    if !options.emit_unresolved_aliases {
        return Err(misplaced(fault, token, ErrorKind::UnknownAnchor));
    }
    Ok(leaf(state, options, Event::UnresolvedAlias(name), token, None)?)
}

// Properties (YAML 1.2.2, 6.9).

/// A tag of the node that must come, where a directive says what its handle stands for (YAML 1.2.2, 6.8.2).
#[inline(never)]
fn tag<'input>(
    state: &mut ParserState<'input>,
    fault: &mut Option<ScanError>,
    alloc: Global,
    options: &Options,
    handle: &Text<'input>,
    suffix: &Text<'input>,
    token: &Token<'input>,
) -> Result<(), Refused>
    ensures leaves { LeavesIfRoom (answered fault.new result) state.new (steps.bare (options_of options.now)
        (of_kind (kinds.Tag handle.now suffix.now) token.now) state.old) }
    ensures by_fault { RefusesByFault (answered fault.new result) (steps.bare (options_of options.now)
        (of_kind (kinds.Tag handle.now suffix.now) token.now) state.old) }
    ensures kept { state.new.kept ≡ state.old.kept }
{
    let prefix = told_prefix(state, fault, options, handle, token)?;
    let tag = new_tag(alloc, prefix, handle, suffix)?;
    Ok(state.tagged(tag, token)?)
}

fn new_tag(
    alloc: Global,
    prefix: &str,
    handle: &Text<'_>,
    suffix: &Text<'_>,
) -> Result<Tag, NoMemory>
    ensures { IfOk result (λ t. t ≡ record {
      handle = chars prefix.now;
      suffix = suffix.now.characters;
      original_handle = handle.now.characters;
    }) }
{
    Tag::with_original_handle(alloc, prefix, suffix.as_str(), handle.as_str())
}

/// The prefix of the tags that YAML itself has (YAML 1.2.2, 6.8.2.2).
fn core_prefix<'a>() -> &'a str
    ensures { chars result.now ≡ codes "tag:yaml.org,2002:" }
{
    "tag:yaml.org,2002:"
}

/// What a handle stands for, where no directive says so (YAML 1.2.2, 6.8.2).
fn default_prefix<'a>(
    fault: &mut Option<ScanError>,
    handle: &'a Text<'_>,
    token: &Token<'_>,
) -> Result<&'a str, Refused>
    ensures { AnswersValue (λ s. chars s.now) (answered fault.new result) (steps.tag_prefix
        (machine_token token.now) handle.now.characters None) }
{
    let written = handle.as_str();
    let length = length_of(written);
    if length == 2 {
        return Ok(core_prefix());
    }
    if length > 2 {
        return Err(misplaced(fault, token, ErrorKind::UndeclaredTagHandle));
    }
    Ok(written)
}

/// What a handle stands for, by a directive or without one.
fn told_prefix<'a, 'input>(
    state: &'a ParserState<'input>,
    fault: &mut Option<ScanError>,
    options: &Options,
    handle: &'a Text<'input>,
    token: &Token<'input>,
) -> Result<&'a str, Refused>
    ensures { AnswersValue (λ s. chars s.now) (answered fault.new result) (steps.tag_prefix
        (machine_token token.now) handle.now.characters
        (steps.known_prefix (options_of options.now) handle.now.characters state.now)) }
{
    match state.known_prefix(options, handle) {
        Some(prefix) => Ok(prefix.as_str()),
        None => default_prefix(fault, handle, token),
    }
}

/// The room for comments behind a `-`, of which its tail takes one.
fn dash_room(
    fault: &mut Option<ScanError>,
    options: &Options,
    tail: &Option<Box<Note<'_>>>,
) -> Result<usize, Refused>
    ensures { AnswersValue (λ n. n) (answered fault.new result)
        (steps.dash_room (options_of options.now) (option_map boxed_view tail.now)) }
{
    match tail {
        None => Ok(options.max_buffered_comment_events),
        Some(note) => {
            if options.max_buffered_comment_events == 0 {
                let error = ScanError::from_kind(note.start, ErrorKind::TooManyComments);
                return Err(refuse(fault, error));
            }
            Ok(options.max_buffered_comment_events - 1)
        }
    }
}

// Sequences in columns (YAML 1.2.2, 8.2.1).

fn give_tail<'input>(
    state: &mut ParserState<'input>,
    tail: Option<Box<Note<'input>>>,
) -> Result<(), NoMemory>
    ensures leaves { OnOk result (state.new ≡ steps.give_tail (option_map boxed_view tail.entry) state.old) }
    ensures kept { state.new.kept ≡ state.old.kept }
    ensures none { tail.entry ≡ None → IsOk result }
{
    match tail {
        None => Ok(()),
        Some(note) => {
            let note = Box::into_inner(note);
            state.flush()?;
            let span = Span::new(note.start, note.end);
            state.add_event(Event::Comment(note.text, Placement::Right), span)
        }
    }
}

/// A `-` in the column of its sequence.
#[tactic(auto, unfolding(granit_machine::specs::NodeSteps::take_dash))]
pub fn next_dash<'input>(
    state: &mut ParserState<'input>,
    fault: &mut Option<ScanError>,
    alloc: Global,
    options: &Options,
    token: &mut Token<'input>,
    indentless: bool,
) -> Result<(), Refused>
    ensures leaves { LeavesIfRoom (answered fault.new result) state.new (steps.take_dash (options_of options.now)
        (machine_token token.old) steps.NextEntry indentless state.old) }
    ensures by_fault { RefusesByFault (answered fault.new result) (steps.take_dash (options_of options.now)
        (machine_token token.old) steps.NextEntry indentless state.old) }
    ensures eventless { has_properties state.old.frames ≡ false → 0 < length state.old.frames
        → StepWantsToGive (answered fault.new result) state.old (steps.take_dash (options_of options.now)
        (machine_token token.old) steps.NextEntry indentless state.old) }
    ensures kept { state.new.kept ≡ state.old.kept }
{
    let room = dash_room(fault, options, &token.lexeme.tail)?;
    give_tail(state, token.lexeme.tail.take())?;
    state.with_top(Frame::BlockSequence(token.lexeme.start.col(), indentless))?;
    state.waits(alloc, token.lexeme.end, room)?;
    Ok(())
}

/// Whether one more block collection would be one too many.
fn is_full(state: &ParserState<'_>, options: &Options) -> bool
    ensures { result ≡ nat_le (options_of options.now).block_nesting_limit (ends.block_count state.now.frames) }
{
    options.block_nesting_limit <= state.block_count()
}

fn begin_sequence<'input>(
    state: &mut ParserState<'input>,
    options: &Options,
    mark: Marker,
    column: usize,
    indentless: bool,
) -> Result<(), NoMemory>
    ensures leaves { OnOk result (state.new ≡ ends.begin (options_of options.now) steps.block_sequence
        (ends.empty_span mark) (machine.BlockSequence column indentless) state.old) }
    ensures kept { state.new.kept ≡ state.old.kept }
{
    let event = Event::SequenceStart(StructureStyle::Block, 0, None);
    state.begin(
        options,
        event,
        mark,
        mark,
        Frame::BlockSequence(column, indentless),
    )
}

/// A `-` in a column of its own, where a sequence begins.
#[tactic(auto, unfolding(granit_machine::specs::NodeSteps::take_dash, granit_machine::specs::NodeEnds::begin_block))]
fn new_dash<'input>(
    state: &mut ParserState<'input>,
    fault: &mut Option<ScanError>,
    alloc: Global,
    options: &Options,
    token: &mut Token<'input>,
) -> Result<(), Refused>
    ensures leaves { LeavesIfRoom (answered fault.new result) state.new (steps.take_dash (options_of options.now)
        (of_kind kinds.Dash token.old) steps.NewSequence false state.old) }
    ensures by_fault { RefusesByFault (answered fault.new result) (steps.take_dash (options_of options.now)
        (of_kind kinds.Dash token.old) steps.NewSequence false state.old) }
    ensures kept { state.new.kept ≡ state.old.kept }
{
    let start = token.lexeme.start;
    if is_full(state, options) {
        return Err(refuse(
            fault,
            ScanError::from_kind(start, ErrorKind::RecursionLimitExceeded),
        ));
    }
    let room = dash_room(fault, options, &token.lexeme.tail)?;
    begin_sequence(state, options, start, start.col(), false)?;
    give_tail(state, token.lexeme.tail.take())?;
    state.waits(alloc, token.lexeme.end, room)?;
    Ok(())
}

/// A `-` in the column of its mapping, where a sequence begins.
#[tactic(auto, unfolding(granit_machine::specs::NodeSteps::take_dash))]
fn indentless_dash<'input>(
    state: &mut ParserState<'input>,
    fault: &mut Option<ScanError>,
    alloc: Global,
    options: &Options,
    token: &mut Token<'input>,
) -> Result<(), Refused>
    ensures leaves { LeavesIfRoom (answered fault.new result) state.new (steps.take_dash (options_of options.now)
        (of_kind kinds.Dash token.old) steps.IndentlessSequence false state.old) }
    ensures by_fault { RefusesByFault (answered fault.new result) (steps.take_dash (options_of options.now)
        (of_kind kinds.Dash token.old) steps.IndentlessSequence false state.old) }
    ensures kept { state.new.kept ≡ state.old.kept }
{
    let end = token.lexeme.end;
    if is_full(state, options) {
        return Err(refuse(
            fault,
            ScanError::from_kind(end, ErrorKind::RecursionLimitExceeded),
        ));
    }
    let room = dash_room(fault, options, &token.lexeme.tail)?;
    give_tail(state, token.lexeme.tail.take())?;
    begin_sequence(state, options, end, token.lexeme.start.col(), true)?;
    state.waits(alloc, end, room)?;
    Ok(())
}

/// A `-` where a node must stand.
#[inline(never)]
fn first_dash<'input>(
    state: &mut ParserState<'input>,
    fault: &mut Option<ScanError>,
    alloc: Global,
    options: &Options,
    token: &mut Token<'input>,
) -> Result<(), Refused>
    ensures leaves { LeavesIfRoom (answered fault.new result) state.new (steps.bare (options_of options.now)
        (of_kind kinds.Dash token.old) state.old) }
    ensures by_fault { RefusesByFault (answered fault.new result) (steps.bare (options_of options.now)
        (of_kind kinds.Dash token.old) state.old) }
    ensures kept { state.new.kept ≡ state.old.kept }
{
    let is_indentless = state.may_be_indentless(token.lexeme.start.col());
    dash(state, fault, alloc, options, token, is_indentless)
}

fn dash<'input>(
    state: &mut ParserState<'input>,
    fault: &mut Option<ScanError>,
    alloc: Global,
    options: &Options,
    token: &mut Token<'input>,
    is_indentless: bool,
) -> Result<(), Refused>
    ensures leaves { LeavesIfRoom (answered fault.new result) state.new (steps.take_dash (options_of options.now)
        (of_kind kinds.Dash token.old) (steps.first_dash is_indentless) false state.old) }
    ensures by_fault { RefusesByFault (answered fault.new result) (steps.take_dash (options_of options.now)
        (of_kind kinds.Dash token.old) (steps.first_dash is_indentless) false state.old) }
    ensures kept { state.new.kept ≡ state.old.kept }
{
    if is_indentless {
        indentless_dash(state, fault, alloc, options, token)
    } else {
        new_dash(state, fault, alloc, options, token)
    }
}

// Nodes.

fn open_flow<'input>(
    state: &mut ParserState<'input>,
    options: &Options,
    bracket: Bracket,
    token: &Token<'input>,
) -> Result<(), NoMemory>
    ensures leaves { OnOk result (state.new ≡ steps.open_flow (options_of options.now) bracket
        (machine_token token.now) state.old) }
    ensures kept { state.new.kept ≡ state.old.kept }
{
    let start = token.lexeme.shown_start;
    let end = token.lexeme.shown_end;
    match bracket {
        Bracket::Square => state.begin(
            options,
            Event::SequenceStart(StructureStyle::Flow, 0, None),
            start,
            end,
            Frame::FlowSequence(false),
        ),
        Bracket::Curly => state.begin(
            options,
            Event::MappingStart(StructureStyle::Flow, 0, None),
            start,
            end,
            Frame::FlowMapping(false, PairStage::BeforePair),
        ),
    }
}

/// A mapping in a column begins, at a stage of its first pair.
fn begin_mapping<'input>(
    state: &mut ParserState<'input>,
    fault: &mut Option<ScanError>,
    options: &Options,
    token: &Token<'input>,
    stage: PairStage,
) -> Result<(), Refused>
    ensures leaves { LeavesIfRoom (answered fault.new result) state.new (ends.begin_block
        (options_of options.now) ends.block_mapping token.now.lexeme.value.start
        (machine.BlockMapping token.now.lexeme.value.start.place.column (pair_view stage)) state.old) }
    ensures by_fault { RefusesByFault (answered fault.new result) (ends.begin_block
        (options_of options.now) ends.block_mapping token.now.lexeme.value.start
        (machine.BlockMapping token.now.lexeme.value.start.place.column (pair_view stage)) state.old) }
    ensures kept { state.new.kept ≡ state.old.kept }
{
    state.begin_block(
        fault,
        options,
        Event::MappingStart(StructureStyle::Block, 0, None),
        token.lexeme.start,
        Frame::BlockMapping(token.lexeme.start.col(), stage),
    )
}

/// A `:` without a key, where a node must stand.
#[inline(never)]
fn first_colon<'input>(
    state: &mut ParserState<'input>,
    fault: &mut Option<ScanError>,
    alloc: Global,
    options: &Options,
    token: &Token<'input>,
) -> Result<(), Refused>
    ensures leaves { LeavesIfRoom (answered fault.new result) state.new (steps.bare (options_of options.now)
        (of_kind kinds.Colon token.now) state.old) }
    ensures by_fault { RefusesByFault (answered fault.new result) (steps.bare (options_of options.now)
        (of_kind kinds.Colon token.now) state.old) }
    ensures kept { state.new.kept ≡ state.old.kept }
{
    let start = token.lexeme.start;
    begin_mapping(state, fault, options, token, PairStage::AtValue)?;
    state.give_null(start)?;
    state.waits(alloc, start, options.max_buffered_comment_events)?;
    Ok(())
}

/// A lexeme where a node must stand, which begins no block mapping with its simple key.
#[inline(always)]
pub fn bare<'input>(
    state: &mut ParserState<'input>,
    fault: &mut Option<ScanError>,
    alloc: Global,
    options: &Options,
    token: &mut Token<'input>,
) -> Result<(), Refused>
    ensures leaves { LeavesIfRoom (answered fault.new result) state.new (steps.bare (options_of options.now)
        (machine_token token.old) state.old) }
    ensures by_fault { RefusesByFault (answered fault.new result) (steps.bare (options_of options.now)
        (machine_token token.old) state.old) }
    ensures again { WhereNamedAgain token.old.lexeme.value.kind state.old (StepWantsToGive (answered fault.new result)
        state.old (steps.bare (options_of options.now) (machine_token token.old) state.old)) }
    ensures kept { state.new.kept ≡ state.old.kept }
{
    match take_scalar(&mut token.lexeme.kind) {
        Some((style, text)) => Ok(scalar(state, options, style, text, token)?),
        None => any_bare(state, fault, alloc, options, token),
    }
}

/// The scalar that a lexeme is, by how it is written, and its value, which are taken.
#[inline(always)]
fn take_scalar<'input>(kind: &mut LexemeKind<'input>) -> Option<(ScalarStyle, Text<'input>)>
    ensures some { IfSome result (λ x. kind.old ≡ kinds.Scalar x.0 x.1) }
    ensures none { result ≡ None → kind.new ≡ kind.old }
{
    let style = style_of(kind);
    match take_value(kind) {
        Some(text) => Some((style, text)),
        None => None,
    }
}

/// How a scalar is written; of another lexeme nothing is told.
#[inline(always)]
fn style_of(kind: &LexemeKind<'_>) -> ScalarStyle
    ensures { (style : _) (text : _) → kind.now ≡ kinds.Scalar style text → result ≡ style }
{
    match kind {
        LexemeKind::Scalar(style, _) => *style,
        _ => ScalarStyle::Plain,
    }
}

/// The value of the scalar that a lexeme is, which is taken.
#[inline(always)]
fn take_value<'input>(kind: &mut LexemeKind<'input>) -> Option<Text<'input>>
    ensures some { IfSome result (λ text. (style : _) × (kind.old ≡ kinds.Scalar style text)) }
    ensures none { result ≡ None → kind.new ≡ kind.old }
{
    match kind {
        LexemeKind::Scalar(_, text) => Some(mem::replace(text, Text::borrowed(""))),
        _ => None,
    }
}

/// A scalar.
#[inline(always)]
fn scalar<'input>(
    state: &mut ParserState<'input>,
    options: &Options,
    style: ScalarStyle,
    text: Text<'input>,
    token: &Token<'input>,
) -> Result<(), NoMemory>
    ensures leaves { OnOk result (Ok state.new ≡ steps.bare (options_of options.now)
        (of_kind (kinds.Scalar style text.entry) token.now) state.old) }
    ensures kept { state.new.kept ≡ state.old.kept }
{
    let indent = token.lexeme.indent;
    leaf(
        state,
        options,
        Event::Scalar(text, style, 0, None),
        token,
        indent,
    )
}

/// The same of any lexeme. Apart, since room for the names and tags that one may hold would be cleared at each scalar.
#[inline(never)]
fn any_bare<'input>(
    state: &mut ParserState<'input>,
    fault: &mut Option<ScanError>,
    alloc: Global,
    options: &Options,
    token: &mut Token<'input>,
) -> Result<(), Refused>
    ensures leaves { LeavesIfRoom (answered fault.new result) state.new (steps.bare (options_of options.now)
        (machine_token token.old) state.old) }
    ensures by_fault { RefusesByFault (answered fault.new result) (steps.bare (options_of options.now)
        (machine_token token.old) state.old) }
    ensures again { WhereNamedAgain token.old.lexeme.value.kind state.old (StepWantsToGive (answered fault.new result)
        state.old (steps.bare (options_of options.now) (machine_token token.old) state.old)) }
    ensures kept { state.new.kept ≡ state.old.kept }
{
    match mem::replace(&mut token.lexeme.kind, LexemeKind::Comma) {
        LexemeKind::Alias(name) => alias(state, fault, options, name, token),
        LexemeKind::Scalar(style, text) => Ok(scalar(state, options, style, text, token)?),
        LexemeKind::Open(bracket) => Ok(open_flow(state, options, bracket, token)?),
        LexemeKind::Anchor(name) => {
            state.flush()?;
            Ok(state.anchored(alloc, name, token)?)
        }
        LexemeKind::Tag(handle, suffix) => tag(
            state, fault, alloc, options, &handle, &suffix, token,
        ),
        LexemeKind::Dash => first_dash(state, fault, alloc, options, token),
        LexemeKind::Question => begin_mapping(state, fault, options, token, PairStage::AtQuestion),
        _ => first_colon(state, fault, alloc, options, token),
    }
}

/// A lexeme where a node must stand.
pub fn node<'input>(
    state: &mut ParserState<'input>,
    fault: &mut Option<ScanError>,
    alloc: Global,
    options: &Options,
    token: &mut Token<'input>,
) -> Result<(), Refused>
    ensures leaves { LeavesIfRoom (answered fault.new result) state.new (steps.node (options_of options.now)
        (machine_token token.old) state.old) }
    ensures by_fault { (sort_view token.old.sort ≡ sorts.BeginsKey → ⊥) → RefusesByFault (answered fault.new result)
        (steps.node (options_of options.now) (machine_token token.old) state.old) }
    ensures key { sort_view token.old.sort ≡ sorts.BeginsKey → RefusesByFault (answered fault.new result)
        (ends.begin_block (options_of options.now) ends.block_mapping token.old.lexeme.value.start
        (machine.BlockMapping token.old.lexeme.value.start.place.column machine.AtKey) state.old) }
    ensures again { WhereNamedAgain token.old.lexeme.value.kind state.old (StepWantsToGive (answered fault.new result)
        state.old (steps.node (options_of options.now) (machine_token token.old) state.old)) }
    ensures kept { state.new.kept ≡ state.old.kept }
{
    match token.sort {
        TokenSort::BeginsKey => {
            begin_mapping(state, fault, options, token, PairStage::AtKey)?;
            bare(state, fault, alloc, options, token)
        }
        _ => bare(state, fault, alloc, options, token),
    }
}
