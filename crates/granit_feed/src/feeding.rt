//! One item: the events that it gives, and what it leaves.
ghost use Rattle.std.specs.Prelude.{◌≡◌, [], true, false, None, IfOk, IsOk};
ghost use Rattle.std.specs.Option.{option_map};
ghost use Rattle.granit_error.specs.OptionsView.{options_of};
ghost use Rattle.granit_lexemes.specs.Lexeme.{is_directive};
ghost use Rattle.granit_refused.specs.Answered.{answered};
ghost use Rattle.granit_sorts.specs.SortViews.{machine_token, sort_view};
ghost use Rattle.granit_feed.specs.AtOnce.{outside_at_once, ItemAtOnce, TokenAtOnce};
ghost use Rattle.granit_feed.specs.Eventless.{ItemTakesToGive, StaysAlone, TokenTakesToGive};
ghost use Rattle.granit_feed.specs.Handles.{holds_directive, KeepsIfRefused};
ghost use Rattle.granit_feed.specs.Tails as tails;
ghost use Rattle.granit_frames.specs.Outside.{NoneWaitsOutside};
ghost use Rattle.granit_frames.specs.Refusing.{RefusesByFault};
ghost use Rattle.granit_frames.specs.Wanting.{keeps_text, StepWantsToGive};
ghost use Rattle.granit_items.specs.ItemViews.{boxed_lexeme, boxed_view, item_view, kind_view};
ghost use Rattle.granit_items.specs.declared.item.Item.TheVariants as items;
ghost use Rattle.granit_machine.specs.Leaving.{LeavesIfRoom};
ghost use Rattle.granit_machine.specs.Parser as spec;
ghost use Rattle.granit_machine.specs.TokenSort as sorts;
ghost use Rattle.granit_nodes.specs.Again.{WhereNamedAgain};

use crate::block::{in_mapping, in_sequence};
use crate::flow::{in_flow_mapping, in_flow_pair, in_flow_sequence};
use crate::stream::{at_root, outside};
use granit_base::{NoMemory, Span};
use granit_error::{Options, ScanError};
use granit_event::Event;
use granit_frames::{Frame, ParserState, Token, Top, token_sort};
use granit_items::{Item, Lexeme, LexemeKind, Note, Rooms, clone_tail};
use granit_nodes::node;
use granit_refused::Refused;
use std::alloc::Global;

/// At the open place that closing left.
#[inline(always)]
fn take_token<'input>(
    state: &mut ParserState<'input>,
    fault: &mut Option<ScanError>,
    alloc: Global,
    options: &Options,
    token: &mut Token<'input>,
) -> Result<(), Refused>
    ensures leaves { LeavesIfRoom (answered fault.new result) state.new (spec.take_token (options_of options.now)
        (machine_token token.old) state.old) }
    ensures by_fault { (sort_view token.old.sort ≡ sorts.BeginsKey → ⊥)
        → (sorts.is_dash_token (sort_view token.old.sort) ≡ true → state.old.waiting ≡ None)
        → (state.old.frames ≡ [] → outside_at_once state.old.stage (sort_view token.old.sort) ≡ true)
        → RefusesByFault (answered fault.new result) (spec.take_token (options_of options.now)
        (machine_token token.old) state.old) }
    ensures again { WhereNamedAgain token.old.lexeme.value.kind state.old (StepWantsToGive (answered fault.new result)
        state.old (spec.take_token (options_of options.now) (machine_token token.old) state.old)) }
    ensures kept { is_directive (kind_view token.old.lexeme.value.kind) ≡ false → state.new.kept ≡ state.old.kept }
    ensures refused { KeepsIfRefused (answered fault.new result) state.old state.new }
    ensures inside { (state.old.frames ≡ [] → ⊥) → state.new.kept ≡ state.old.kept }
    ensures eventless { keeps_text (kind_view token.old.lexeme.value.kind) ≡ false
        → StepWantsToGive (answered fault.new result) state.old
        (spec.take_token (options_of options.now) (machine_token token.old) state.old) }
{
    match state.top() {
        Top::Outside => outside(state, fault, alloc, options, token),
        Top::Properties(_, _) => node(state, fault, alloc, options, token),
        Top::In(Frame::Root(_), _) => at_root(state, fault, alloc, options, token),
        Top::In(Frame::BlockSequence(column, indentless), _) => {
            in_sequence(state, fault, alloc, options, token, column, indentless)
        }
        Top::In(Frame::BlockMapping(column, stage), _) => {
            in_mapping(state, fault, alloc, options, token, column, stage)
        }
        Top::In(Frame::FlowSequence(behind_entry), _) => {
            in_flow_sequence(state, fault, alloc, options, token, behind_entry)
        }
        Top::In(Frame::FlowMapping(single, stage), _) => {
            in_flow_mapping(state, fault, alloc, options, token, single, stage)
        }
        Top::In(Frame::FlowPair(stage), _) => in_flow_pair(
            state, fault, alloc, options, token, stage,
        ),
    }
}

fn is_dash(kind: &LexemeKind<'_>) -> bool
    ensures { result ≡ tails.is_dash_lexeme (kind_view kind.now) }
{
    matches!(kind, LexemeKind::Dash)
}

/// The comment that is taken behind a lexeme; that of a `-` is given among its events.
#[tactic(auto, using(crate::proofs::TailLemmas::tail_of))]
fn tail_behind<'input>(
    alloc: Global,
    lexeme: &Lexeme<'input>,
) -> Result<Option<Box<Note<'input>>>, NoMemory>
    ensures value { IfOk result (λ tail. (next : _) (p : _) → spec.take_tail (kind_view lexeme.now.kind)
        (option_map boxed_view lexeme.now.tail) next p ≡ tails.tail_taken (option_map boxed_view tail) next p) }
    ensures none { lexeme.now.tail ≡ None → IsOk result }
    ensures dash { tails.is_dash_lexeme (kind_view lexeme.now.kind) ≡ true → IsOk result }
{
    if is_dash(&lexeme.kind) {
        return Ok(None);
    }
    clone_tail(alloc, &lexeme.tail)
}

fn take_tail<'input>(
    state: &mut ParserState<'input>,
    fault: &mut Option<ScanError>,
    tail: Option<Box<Note<'input>>>,
    next_line: Option<usize>,
) -> Result<(), Refused>
    ensures leaves { LeavesIfRoom (answered fault.new result) state.new (tails.tail_taken
        (option_map boxed_view tail.entry) next_line state.old) }
    ensures by_fault { RefusesByFault (answered fault.new result) (tails.tail_taken
        (option_map boxed_view tail.entry) next_line state.old) }
    ensures kept { state.new.kept ≡ state.old.kept }
{
    match tail {
        None => Ok(()),
        Some(note) => state.take_comment(fault, Box::into_inner(note), next_line),
    }
}

/// Whether a comment is taken behind a lexeme.
fn takes_tail(lexeme: &Lexeme<'_>) -> bool
    ensures { result ≡ tails.takes_tail (tails.is_dash_lexeme (kind_view lexeme.now.kind))
        (option_map boxed_view lexeme.now.tail) }
{
    lexeme.tail.is_some() && !is_dash(&lexeme.kind)
}

fn take_tailed<'input>(
    state: &mut ParserState<'input>,
    fault: &mut Option<ScanError>,
    alloc: Global,
    options: &Options,
    token: &mut Token<'input>,
    next_line: Option<usize>,
) -> Result<(), Refused>
    ensures leaves { LeavesIfRoom (answered fault.new result) state.new (spec.take_lexeme (options_of options.now)
        (machine_token token.old) next_line state.old) }
    ensures kept { is_directive (kind_view token.old.lexeme.value.kind) ≡ false → state.new.kept ≡ state.old.kept }
    ensures refused { NoneWaitsOutside state.old → KeepsIfRefused (answered fault.new result) state.old state.new }
{
    let tail: Option<Box<Note<'input>>> = tail_behind(alloc, &token.lexeme)?;
    state.close(options, token)?;
    take_token(state, fault, alloc, options, token)?;
    take_tail(state, fault, tail, next_line)
}

// Most lexemes have no tail, and need no room for one.
#[inline(always)]
#[tactic(auto, using(crate::proofs::TailLemmas::without_tail))]
fn take_lexeme<'input>(
    state: &mut ParserState<'input>,
    fault: &mut Option<ScanError>,
    alloc: Global,
    options: &Options,
    token: &mut Token<'input>,
    next_line: Option<usize>,
) -> Result<(), Refused>
    ensures leaves { LeavesIfRoom (answered fault.new result) state.new (spec.take_lexeme (options_of options.now)
        (machine_token token.old) next_line state.old) }
    ensures by_fault { TokenAtOnce (machine_token token.old) state.old
        → RefusesByFault (answered fault.new result) (spec.take_lexeme (options_of options.now)
        (machine_token token.old) next_line state.old) }
    ensures again { StaysAlone (machine_token token.old) state.old
        → WhereNamedAgain token.old.lexeme.value.kind state.old (StepWantsToGive (answered fault.new result) state.old
        (spec.take_lexeme (options_of options.now) (machine_token token.old) next_line state.old)) }
    ensures kept { is_directive (kind_view token.old.lexeme.value.kind) ≡ false → state.new.kept ≡ state.old.kept }
    ensures refused { NoneWaitsOutside state.old → KeepsIfRefused (answered fault.new result) state.old state.new }
    ensures eventless { TokenTakesToGive (machine_token token.old) state.old
        → StepWantsToGive (answered fault.new result) state.old
        (spec.take_lexeme (options_of options.now) (machine_token token.old) next_line state.old) }
{
    if takes_tail(&token.lexeme) {
        return take_tailed(state, fault, alloc, options, token, next_line);
    }
    state.close(options, token)?;
    take_token(state, fault, alloc, options, token)
}

/// Takes an item, of which it is told whether a simple key begins with it, and the line of the next token: its
/// events are given behind those that weren't taken yet. A lexeme leaves its room to others.
///
/// # Errors
///
/// What is wrong with it there, and `NoMemory`; of the state from then on it is said only that the handles that stay
/// over documents are as before.
// Inlined: each lexeme comes through it.
#[inline(always)]
pub fn feed<'input>(
    state: &mut ParserState<'input>,
    fault: &mut Option<ScanError>,
    alloc: Global,
    options: &Options,
    item: Item<'input>,
    begins_key: bool,
    next_line: Option<usize>,
    rooms: &mut Rooms<'input>,
) -> Result<(), Refused>
    ensures fed { LeavesIfRoom (answered fault.new result) state.new (spec.take_item (options_of options.now)
        (item_view item.entry) begins_key next_line state.old) }
    ensures by_fault { ItemAtOnce (item_view item.entry) begins_key state.old
        → RefusesByFault (answered fault.new result) (spec.take_item (options_of options.now)
        (item_view item.entry) begins_key next_line state.old) }
    ensures again { (lexeme : _) → item.entry ≡ items.Lexeme lexeme
        → StaysAlone (sorts.token_of begins_key (boxed_lexeme lexeme)) state.old
        → WhereNamedAgain lexeme.value.kind state.old (StepWantsToGive (answered fault.new result) state.old
        (spec.take_item (options_of options.now) (item_view item.entry) begins_key next_line state.old)) }
    ensures kept { holds_directive (item_view item.entry) ≡ false → state.new.kept ≡ state.old.kept }
    ensures refused { NoneWaitsOutside state.old → KeepsIfRefused (answered fault.new result) state.old state.new }
    ensures eventless { ItemTakesToGive (item_view item.entry) begins_key state.old
        → StepWantsToGive (answered fault.new result) state.old
        (spec.take_item (options_of options.now) (item_view item.entry) begins_key next_line state.old) }
{
    match item {
        Item::Note(note) => state.take_comment(fault, Box::into_inner(note), next_line),
        Item::Lexeme(lexeme) => {
            let sort = token_sort(begins_key, &lexeme);
            let mut token = Token { lexeme, sort };
            let fed = take_lexeme(state, fault, alloc, options, &mut token, next_line);
            rooms.keep(token.lexeme);
            fed
        }
    }
}
