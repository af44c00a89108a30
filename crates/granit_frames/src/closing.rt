//! What a lexeme ends before it is taken.
ghost use Rattle.std.specs.Prelude.{◌≡◌, false, Ok, IsOk, OnOk};
ghost use Rattle.granit_error.specs.OptionsView.{options_of};
ghost use Rattle.granit_sorts.specs.SortViews.{sort_view, machine_token};
ghost use Rattle.granit_frames.specs.Outside.{NoneWaitsOutside};
ghost use Rattle.granit_machine.specs.Closing as closing;
ghost use Rattle.granit_nesting.specs.FrameViews.{pair_view, frames_view};
ghost use Rattle.granit_node_properties.specs.PropertyViews.{properties_view};

use crate::state::{ParserState, Top};
use granit_base::NoMemory;
use granit_error::Options;
use granit_items::LexemeKind;
use granit_nesting::{Frame, Frames, PairStage};
use granit_node_properties::NodeProperties;
use granit_sorts::{Token, TokenSort, ends_frame, is_key_in_block, is_right_of};

fn goes_on_by_sort(right: bool, in_flow: bool, indentless: bool, sort: TokenSort) -> bool
    ensures { result ≡ closing.goes_on_by_sort right in_flow indentless (sort_view sort) }
{
    match sort {
        TokenSort::BeginsKey => false,
        TokenSort::BeginsNode => false,
        TokenSort::DashToken => right || indentless,
        TokenSort::QuestionToken => right && !in_flow,
        TokenSort::BareColon => right && !in_flow,
        TokenSort::KeyedColon => false,
        TokenSort::CommaToken => false,
        TokenSort::SequenceCloser => false,
        TokenSort::MappingCloser => false,
        TokenSort::OfStream => false,
    }
}

fn goes_on_by_kind(
    right: bool,
    indentless: bool,
    properties: &NodeProperties<'_>,
    token: &Token<'_>,
) -> bool
    ensures { result ≡ closing.goes_on_by_kind right (machine_token token.now).lexeme.in_flow indentless
        (properties_view properties.now) (machine_token token.now).sort (machine_token token.now).lexeme.kind }
{
    let by_sort = goes_on_by_sort(right, token.lexeme.in_flow, indentless, token.sort);
    match &token.lexeme.kind {
        LexemeKind::Anchor(_) => right && properties.anchor.is_none(),
        LexemeKind::Tag(_, _) => right && properties.tag.is_none(),
        LexemeKind::Scalar(_, _) => right,
        LexemeKind::Open(_) => right,
        LexemeKind::Version(_, _) => by_sort,
        LexemeKind::TagPrefix(_, _) => by_sort,
        LexemeKind::Reserved(_, _) => by_sort,
        LexemeKind::DocumentStart => by_sort,
        LexemeKind::DocumentEnd => by_sort,
        LexemeKind::StreamEnd => by_sort,
        LexemeKind::Close(_) => by_sort,
        LexemeKind::Comma => by_sort,
        LexemeKind::Dash => by_sort,
        LexemeKind::Question => by_sort,
        LexemeKind::Colon => by_sort,
        LexemeKind::Alias(_) => by_sort,
    }
}

/// Whether a token goes on with the node of the properties inside all frames.
#[tactic(auto, unfolding(granit_machine::specs::Closing::goes_on_with))]
fn goes_on_with(token: &Token<'_>, properties: &NodeProperties<'_>, around: &Frames) -> bool
    ensures { result
        ≡ closing.goes_on_with (machine_token token.now) (properties_view properties.now) (frames_view around.now) }
{
    let right = token.lexeme.in_flow || is_right_of(token.column(), around.under_column());
    if is_key_in_block(&token.lexeme, token.sort) {
        return right;
    }
    let indentless = around.may_be_indentless(token.lexeme.start.col());
    goes_on_by_kind(right, indentless, properties, token)
}

fn is_at_value_or_behind(stage: PairStage) -> bool
    ensures { result ≡ closing.is_at_value_or_behind (pair_view stage) }
{
    matches!(stage, PairStage::AtValue | PairStage::BehindPair)
}

pub(crate) fn is_behind_pair(stage: PairStage) -> bool
    ensures { result ≡ closing.is_behind_pair (pair_view stage) }
{
    matches!(stage, PairStage::BehindPair)
}

fn is_behind_question(stage: PairStage) -> bool
    ensures { result ≡ closing.is_behind_question (pair_view stage) }
{
    matches!(stage, PairStage::BehindQuestion)
}

impl<'input> ParserState<'input> {
    /// Whether a token ends the innermost unfinished node.
    #[inline(always)]
    fn ends_top(&self, token: &Token<'input>) -> bool
        ensures { result ≡ closing.ends_top (machine_token token.now) self.now self.now.frames }
    {
        match self.top() {
            Top::Outside => false,
            Top::Properties(properties, around) => !goes_on_with(token, properties, around),
            Top::In(Frame::Root(explicit), _) => explicit && token.sort.is_of_stream(),
            Top::In(Frame::BlockSequence(column, indentless), _) => {
                ends_frame(token.column(), column)
                    || (indentless
                        && !(token.sort.is_dash() && token.is_in_column(column))
                        && (self.waiting.is_none()
                            || (token.is_in_column(column) && token.sort.begins_pair())))
            }
            Top::In(Frame::BlockMapping(column, _), _) => ends_frame(token.column(), column),
            Top::In(Frame::FlowSequence(_), _) => false,
            Top::In(Frame::FlowMapping(single, stage), _) => {
                single && is_at_value_or_behind(stage) && token.sort.ends_entry()
            }
            Top::In(Frame::FlowPair(stage), _) => {
                token.sort.ends_entry()
                    || is_behind_pair(stage)
                    || (is_behind_question(stage) && !token.sort.is_bare_colon())
            }
        }
    }

    /// The innermost unfinished node ends before a token.
    fn end_top(&mut self, options: &Options, token: &Token<'input>) -> Result<(), NoMemory>
        ensures leaves { OnOk result (self.new
            ≡ closing.end_top (options_of options.now) (machine_token token.now) self.old self.old.frames) }
        ensures kept { self.new.kept ≡ self.old.kept }
    {
        let start = token.lexeme.start;
        match self.top() {
            Top::Outside => self.end_node(start, start, start),
            Top::Properties(_, _) => self.end_properties(options),
            Top::In(Frame::Root(_), _) => {
                self.give_null(self.last_end)?;
                self.finish()
            }
            Top::In(Frame::BlockSequence(_, _), _) => self.end_node(start, start, start),
            Top::In(Frame::BlockMapping(_, _), _) => self.end_node(start, start, start),
            Top::In(Frame::FlowSequence(_), _) => self.end_node(start, start, start),
            Top::In(Frame::FlowMapping(_, _), _) => self.end_node(start, start, start),
            Top::In(Frame::FlowPair(_), _) => self.end_node(start, start, start),
        }
    }

    /// Ends what a token ends.
    #[inline(always)]
    #[tactic(auto, using(crate::proofs::CloseLemmas::closing_turns))]
    pub fn close(&mut self, options: &Options, token: &Token<'input>) -> Result<(), NoMemory>
        ensures leaves { OnOk result (closing.close (options_of options.now) (machine_token token.now) self.old
            ≡ Ok self.new) }
        ensures outside { OnOk result (NoneWaitsOutside self.old → NoneWaitsOutside self.new) }
        ensures kept { self.new.kept ≡ self.old.kept }
        ensures memory { closing.ends_top (machine_token token.now) self.old self.old.frames ≡ false → IsOk result }
    {
        'tops: while self.ends_top(token) {
            self.end_top(options, token)?;
        }
        Ok(())
    }
}
