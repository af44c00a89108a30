//! How nodes end and collections begin.
ghost use Rattle.std.specs.Prelude.{◌≡◌, ◌<◌, ◌∷◌, true, false, length, None, IsOk, OnOk};
ghost use Rattle.granit_error.specs.OptionsView.{options_of};
ghost use Rattle.granit_event.specs.Events.{event_kind};
ghost use Rattle.granit_refused.specs.Answered.{answered};
ghost use Rattle.granit_frames.specs.Refusing.{RefusesByFault};
ghost use Rattle.granit_frames.specs.StateViews.{has_properties};
ghost use Rattle.granit_frames.specs.Wanting.{WantsToGive};
ghost use Rattle.granit_machine.specs.Frames as spec;
ghost use Rattle.granit_machine.specs.Giving as giving;
ghost use Rattle.granit_machine.specs.Leaving.{LeavesIfRoom};
ghost use Rattle.granit_machine.specs.NodeEnds as ends;
ghost use Rattle.granit_nesting.specs.FrameViews.{frame_view, pair_view};
ghost use Rattle.granit_node_properties.specs.PropertyViews.{bears};

use crate::closing::is_behind_pair;
use crate::state::{DocumentStage, ParserState, Top, Waiting};
use granit_base::{Marker, NoMemory, Span};
use granit_error::{ErrorKind, Options, ScanError};
use granit_event::Event;
use granit_nesting::{Frame, PairStage};
use granit_node_properties::{null_event, null_of};
use granit_refused::{Refused, refuse};
use std::alloc::Global;

/// Where a pair stands behind a node.
fn finished_stage(stage: PairStage) -> PairStage
    ensures { pair_view result ≡ ends.finished_stage (pair_view stage) }
{
    match stage {
        PairStage::BeforePair => PairStage::BehindAlone,
        PairStage::AtKey => PairStage::BehindKey,
        PairStage::BehindKey => PairStage::BehindKey,
        PairStage::AtQuestion => PairStage::BehindQuestion,
        PairStage::BehindQuestion => PairStage::BehindQuestion,
        PairStage::AtValue => PairStage::BehindPair,
        PairStage::BehindAlone => PairStage::BehindAlone,
        PairStage::BehindPair => PairStage::BehindPair,
    }
}

// Ends of nodes.
impl<'input> ParserState<'input> {
    /// Without the innermost unfinished node.
    fn drop_top(&mut self)
        ensures { self.new ≡ record self.old { frames = ends.below self.old.frames } }
    {
        match &self.properties {
            None => self.frames.pop(),
            Some(_) => self.properties = None,
        }
    }

    /// Another frame in the place of the innermost.
    #[inline(always)]
    pub fn with_top(&mut self, frame: Frame) -> Result<(), NoMemory>
        ensures leaves { OnOk result (self.new ≡ ends.with_top (frame_view frame) self.old) }
        ensures kept { self.new.kept ≡ self.old.kept }
        ensures memory { has_properties self.old.frames ≡ false → 0 < length self.old.frames → IsOk result }
    {
        match &self.properties {
            None => self.frames.replace(frame),
            Some(_) => {
                // a copy: what is lent to a call is filled in memory on either way
                let own = frame;
                self.properties = None;
                self.frames.push(own)
            }
        }
    }

    /// The node at the open place is finished.
    #[inline(always)]
    pub fn finish(&mut self) -> Result<(), NoMemory>
        ensures leaves { OnOk result (self.new ≡ ends.finish self.old) }
        ensures kept { self.new.kept ≡ self.old.kept }
        ensures memory { IsOk result }
    {
        match self.top() {
            Top::Outside => Ok(()),
            Top::Properties(_, _) => Ok(()),
            Top::In(Frame::Root(_), _) => {
                self.drop_top();
                self.stage = DocumentStage::BehindRoot;
                Ok(())
            }
            Top::In(Frame::BlockSequence(_, _), _) => Ok(()),
            Top::In(Frame::BlockMapping(column, stage), _) => {
                self.with_top(Frame::BlockMapping(column, finished_stage(stage)))
            }
            Top::In(Frame::FlowSequence(_), _) => self.with_top(Frame::FlowSequence(true)),
            Top::In(Frame::FlowMapping(single, stage), _) => {
                self.with_top(Frame::FlowMapping(single, finished_stage(stage)))
            }
            Top::In(Frame::FlowPair(stage), _) => {
                self.with_top(Frame::FlowPair(finished_stage(stage)))
            }
        }
    }

    /// The empty nodes of the pair that ends before a place, or goes on there with no `:`.
    #[inline(always)]
    pub fn owed(&mut self, mark: Marker) -> Result<(), NoMemory>
        ensures leaves { OnOk result (self.new ≡ ends.owed mark self.old) }
        ensures kept { self.new.kept ≡ self.old.kept }
        ensures eventless { WantsToGive result self.old (ends.owed mark self.old) }
    {
        if self.owes_nothing() {
            return Ok(());
        }
        self.give_owed(mark)
    }

    /// Whether that pair surely has both its nodes, as most have.
    #[inline(always)]
    fn owes_nothing(&self) -> bool
        ensures { (mark : _) → result ≡ true → ends.owed mark self.now ≡ self.now }
    {
        match self.top() {
            Top::Outside => true,
            Top::Properties(_, _) => true,
            Top::In(Frame::Root(_), _) => true,
            Top::In(Frame::BlockSequence(_, _), _) => false,
            Top::In(Frame::BlockMapping(_, stage), _) => is_behind_pair(stage),
            Top::In(Frame::FlowSequence(_), _) => true,
            Top::In(Frame::FlowMapping(_, stage), _) => is_behind_pair(stage),
            Top::In(Frame::FlowPair(stage), _) => is_behind_pair(stage),
        }
    }

    /// Its empty nodes. Apart, since few pairs have one.
    #[inline(never)]
    fn give_owed(&mut self, mark: Marker) -> Result<(), NoMemory>
        ensures leaves { OnOk result (self.new ≡ ends.owed mark self.old) }
        ensures kept { self.new.kept ≡ self.old.kept }
        ensures eventless { WantsToGive result self.old (ends.owed mark self.old) }
    {
        match self.top() {
            Top::Outside => Ok(()),
            Top::Properties(_, _) => Ok(()),
            Top::In(Frame::Root(_), _) => Ok(()),
            Top::In(Frame::BlockSequence(_, _), _) => self.give_empty(),
            Top::In(Frame::BlockMapping(column, stage), _) => self.owed_in_block(
                mark, column, stage,
            ),
            Top::In(Frame::FlowSequence(_), _) => Ok(()),
            Top::In(Frame::FlowMapping(_, stage), _) => self.owed_in_flow(mark, stage),
            Top::In(Frame::FlowPair(stage), _) => self.owed_in_pair(mark, stage),
        }
    }

    fn owed_in_block(
        &mut self,
        mark: Marker,
        column: usize,
        stage: PairStage,
    ) -> Result<(), NoMemory>
        ensures leaves { (below : _) → OnOk result (self.new
            ≡ ends.owed_in (spec.BlockMapping column (pair_view stage) ∷ below) mark self.old) }
        ensures kept { self.new.kept ≡ self.old.kept }
        ensures eventless { (below : _) → WantsToGive result self.old
            (ends.owed_in (spec.BlockMapping column (pair_view stage) ∷ below) mark self.old) }
    {
        match stage {
            PairStage::BeforePair => Ok(()),
            PairStage::AtKey => Ok(()),
            PairStage::BehindKey => Ok(()),
            PairStage::AtQuestion => {
                self.give(null_event(), Span::empty(mark).with_indent(Some(column)))?;
                self.give_null(mark)
            }
            PairStage::BehindQuestion => self.give_null(mark),
            PairStage::AtValue => self.give_empty(),
            PairStage::BehindAlone => Ok(()),
            PairStage::BehindPair => Ok(()),
        }
    }

    fn owed_in_flow(&mut self, mark: Marker, stage: PairStage) -> Result<(), NoMemory>
        ensures leaves { (single : _) (below : _) → OnOk result (self.new
            ≡ ends.owed_in (spec.FlowMapping single (pair_view stage) ∷ below) mark self.old) }
        ensures kept { self.new.kept ≡ self.old.kept }
        ensures eventless { (single : _) (below : _) → WantsToGive result self.old
            (ends.owed_in (spec.FlowMapping single (pair_view stage) ∷ below) mark self.old) }
    {
        match stage {
            PairStage::BeforePair => Ok(()),
            PairStage::AtKey => Ok(()),
            PairStage::BehindKey => Ok(()),
            PairStage::AtQuestion => {
                self.give_null(mark)?;
                self.give_null(mark)
            }
            PairStage::BehindQuestion => self.give_null(mark),
            PairStage::AtValue => self.give_empty(),
            PairStage::BehindAlone => self.give_null(mark),
            PairStage::BehindPair => Ok(()),
        }
    }

    fn owed_in_pair(&mut self, mark: Marker, stage: PairStage) -> Result<(), NoMemory>
        ensures leaves { (below : _) → OnOk result (self.new
            ≡ ends.owed_in (spec.FlowPair (pair_view stage) ∷ below) mark self.old) }
        ensures kept { self.new.kept ≡ self.old.kept }
        ensures eventless { (below : _) → WantsToGive result self.old
            (ends.owed_in (spec.FlowPair (pair_view stage) ∷ below) mark self.old) }
    {
        match stage {
            PairStage::BeforePair => Ok(()),
            PairStage::AtKey => Ok(()),
            PairStage::BehindKey => Ok(()),
            PairStage::AtQuestion => {
                self.give_null(mark)?;
                self.give_null(mark)
            }
            PairStage::BehindQuestion => self.give_null(mark),
            PairStage::AtValue => self.give_null(mark),
            PairStage::BehindAlone => Ok(()),
            PairStage::BehindPair => Ok(()),
        }
    }

    /// The event that ends the innermost unfinished node.
    fn end_event(&self) -> Event<'input>
        ensures { event_kind result ≡ ends.end_kind self.now.frames }
    {
        match self.top() {
            Top::Outside => Event::MappingEnd,
            Top::Properties(_, _) => Event::MappingEnd,
            Top::In(Frame::Root(_), _) => Event::MappingEnd,
            Top::In(Frame::BlockSequence(_, _), _) => Event::SequenceEnd,
            Top::In(Frame::BlockMapping(_, _), _) => Event::MappingEnd,
            Top::In(Frame::FlowSequence(_), _) => Event::SequenceEnd,
            Top::In(Frame::FlowMapping(_, _), _) => Event::MappingEnd,
            Top::In(Frame::FlowPair(_), _) => Event::MappingEnd,
        }
    }

    /// The innermost collection ends before a place, with an event of a span.
    #[inline(always)]
    #[tactic(auto, unfolding(granit_machine::specs::NodeEnds::end_node))]
    pub fn end_node(&mut self, mark: Marker, start: Marker, end: Marker) -> Result<(), NoMemory>
        ensures leaves { OnOk result (self.new ≡ ends.end_node mark (record { start = start; end = end }) self.old) }
        ensures kept { self.new.kept ≡ self.old.kept }
    {
        self.owed(mark)?;
        let event = self.end_event();
        self.drop_top();
        self.give(event, Span::new(start, end))?;
        self.finish()
    }

    /// The node of properties stays empty.
    #[tactic(auto, unfolding(granit_machine::specs::NodeEnds::end_properties))]
    pub(crate) fn end_properties(&mut self, options: &Options) -> Result<(), NoMemory>
        ensures leaves { OnOk result (self.new ≡ ends.end_properties (options_of options.now)
            (giving.properties_on self.old.frames self.old.last_end) self.old) }
        ensures kept { self.new.kept ≡ self.old.kept }
    {
        match self.top() {
            Top::Outside => self.end_empty(options, null_event(), self.last_end),
            Top::Properties(properties, _) => {
                let mark = properties.end;
                let event = null_of(&properties.tag);
                self.end_empty(options, event, mark)
            }
            Top::In(_, _) => self.end_empty(options, null_event(), self.last_end),
        }
    }

    fn end_empty(
        &mut self,
        options: &Options,
        event: Event<'input>,
        mark: Marker,
    ) -> Result<(), NoMemory>
        ensures leaves { OnOk result (self.new ≡ ends.finish (giving.node_event (options_of options.now)
            (bears (event_kind event.entry)) (ends.empty_span mark) None self.old)) }
        ensures kept { self.new.kept ≡ self.old.kept }
    {
        self.node_event(options, event, &mark, &mark, None)?;
        self.finish()
    }
}

// Beginnings of collections.
impl<'input> ParserState<'input> {
    /// How many block collections are open.
    #[tactic(auto, using(crate::proofs::FrameLemmas::blocks_below))]
    pub fn block_count(&self) -> usize
        ensures { result ≡ ends.block_count self.now.frames }
    {
        self.frames.block_count()
    }

    /// Whether a sequence may begin in the column of its mapping (YAML 1.2.2, 8.2.2).
    #[tactic(auto, using(crate::proofs::FrameLemmas::below_all))]
    pub fn may_be_indentless(&self, column: usize) -> bool
        ensures { result ≡ ends.may_be_indentless column (giving.below_properties self.now.frames) }
    {
        self.frames.may_be_indentless(column)
    }

    /// One more unfinished node.
    #[tactic(auto, using(crate::proofs::FrameLemmas::pushed_frame))]
    pub fn push_frame(&mut self, frame: Frame) -> Result<(), NoMemory>
        requires bare { has_properties self.old.frames ≡ false }
        ensures leaves { OnOk result (self.new ≡ record self.old { frames = frame_view frame ∷ self.old.frames }) }
        ensures kept { self.new.kept ≡ self.old.kept }
    {
        self.frames.push(frame)
    }

    /// A collection begins.
    #[inline(always)]
    pub fn begin(
        &mut self,
        options: &Options,
        event: Event<'input>,
        start: Marker,
        end: Marker,
        frame: Frame,
    ) -> Result<(), NoMemory>
        ensures leaves { OnOk result (self.new ≡ ends.begin (options_of options.now) (bears (event_kind event.entry))
            (record { start = start; end = end }) (frame_view frame) self.old) }
        ensures kept { self.new.kept ≡ self.old.kept }
    {
        self.node_event(options, event, &start, &end, None)?;
        self.push_frame(frame)
    }

    /// A block collection begins at a mark.
    ///
    /// # Errors
    ///
    /// `RecursionLimitExceeded` there, where no more may.
    #[tactic(auto, unfolding(granit_machine::specs::NodeEnds::begin_block))]
    pub fn begin_block(
        &mut self,
        fault: &mut Option<ScanError>,
        options: &Options,
        event: Event<'input>,
        mark: Marker,
        frame: Frame,
    ) -> Result<(), Refused>
        ensures leaves { LeavesIfRoom (answered fault.new result) self.new (ends.begin_block (options_of options.now)
            (bears (event_kind event.entry)) mark (frame_view frame) self.old) }
        ensures by_fault { RefusesByFault (answered fault.new result) (ends.begin_block (options_of options.now)
            (bears (event_kind event.entry)) mark (frame_view frame) self.old) }
        ensures kept { self.new.kept ≡ self.old.kept }
    {
        if options.block_nesting_limit <= self.block_count() {
            drop(event);
            return Err(refuse(
                fault,
                ScanError::from_kind(mark, ErrorKind::RecursionLimitExceeded),
            ));
        }
        self.begin(options, event, mark, mark, frame)?;
        Ok(())
    }

    /// A `-` or `:` waits for its node.
    #[inline(always)]
    pub fn waits(&mut self, alloc: Global, mark: Marker, room: usize) -> Result<(), NoMemory>
        ensures leaves { OnOk result (self.new ≡ ends.waits mark room self.old) }
        ensures kept { self.new.kept ≡ self.old.kept }
        ensures memory { self.old.waiting ≡ None → IsOk result }
        ensures eventless { WantsToGive result self.old (ends.waits mark room self.old) }
    {
        self.flush()?;
        self.waiting = Some(Waiting {
            at: mark,
            alloc,
            room,
            held: None,
        });
        Ok(())
    }
}
