//! The unfinished nodes, but for the properties of one.
ghost use Rattle.std.specs.Prelude.{◌≡◌, ◌+◌, ◌<◌, ◌≤◌, ◌&&◌, ◌==◌, [], ◌∷◌, reverse, length, drop, IfSome, IsOk, OnOk};
ghost use Rattle.granit_machine.specs.Frames as spec;
ghost use Rattle.granit_machine.specs.Giving as giving;
ghost use Rattle.granit_machine.specs.NodeEnds as ends;
ghost use Rattle.granit_nesting.specs.FrameViews.{pair_view, frame_view, frames_view, split_view};

use granit_base::NoMemory;
use std::alloc::Global;
use std::marker::Model;

/// Where a pair of a mapping stands (YAML 1.2.2, 7.4.2 and 8.2.2).
#[derive(Clone, Copy, Debug, PartialEq, Eq)]
pub enum PairStage {
    /// Before its key.
    BeforePair,
    /// At a simple key.
    AtKey,
    /// Behind a simple key.
    BehindKey,
    /// Behind `?`.
    AtQuestion,
    /// Behind the key of a `?`.
    BehindQuestion,
    /// Behind `:`.
    AtValue,
    /// Behind a node without `:`.
    BehindAlone,
    /// Behind its value.
    BehindPair,
}

/// An unfinished node.
#[derive(Clone, Copy, Debug, PartialEq, Eq)]
pub enum Frame {
    /// A document whose root must come; whether `---` was written.
    Root(bool),
    /// A sequence in a column; whether it stands in the column of its mapping.
    BlockSequence(usize, bool),
    /// A mapping in a column.
    BlockMapping(usize, PairStage),
    /// A sequence in brackets; whether it stands behind an entry.
    FlowSequence(bool),
    /// A mapping in brackets, or the pair that a `:` makes in a sequence.
    FlowMapping(bool, PairStage),
    /// The pair that a `?` makes in a sequence.
    FlowPair(PairStage),
}

/// The unfinished nodes, the innermost last.
#[derive(Drop)]
pub struct Frames {
    list: Vec<Frame>,
    /// How many of them are block collections.
    blocks: usize,
}

impl Model for Frames {
    ghost use Rattle.std.specs.Prelude.{◌≡◌, List, reverse};
    ghost use Rattle.granit_machine.specs.NodeEnds.{block_count};
    ghost use Rattle.granit_nesting.specs.declared.frames.Frame.{Frame};
    ghost use Rattle.granit_nesting.specs.FrameViews.{frames_view};

    ghost Value = { List Frame };

    ghost view = { λ f. reverse f.list.items };

    ghost invariant = { λ f. f.blocks ≡ block_count (frames_view (reverse f.list.items)) };
}

impl Frames {
    /// None.
    pub fn new(alloc: Global) -> Frames
        ensures { result ≡ [] }
    {
        Frames {
            list: Vec::new(alloc),
            blocks: 0,
        }
    }

    /// How many of them are block collections.
    pub fn block_count(&self) -> usize
        ensures { result ≡ ends.block_count (frames_view self.now) }
    {
        self.blocks
    }

    /// The innermost one, and those around it.
    pub fn split(&self) -> Option<(Frame, &[Frame])>
        ensures { self.now ≡ split_view result }
    {
        split_frames(&self.list)
    }

    /// One more.
    ///
    /// # Errors
    ///
    /// `NoMemory` alone.
    #[tactic(auto, using(crate::proofs::CountLemmas::blocks_fit))]
    pub fn push(&mut self, frame: Frame) -> Result<(), NoMemory>
        ensures { OnOk result (self.new ≡ frame ∷ self.old) }
    {
        self.list.push(frame)?;
        match frame {
            Frame::Root(_) => {}
            Frame::BlockSequence(_, _) => self.blocks += 1,
            Frame::BlockMapping(_, _) => self.blocks += 1,
            Frame::FlowSequence(_) => {}
            Frame::FlowMapping(_, _) => {}
            Frame::FlowPair(_) => {}
        }
        Ok(())
    }

    /// Without the innermost one.
    pub fn pop(&mut self)
        ensures { self.new ≡ drop 1 self.old }
    {
        match self.list.pop() {
            None => {}
            Some(Frame::Root(_)) => {}
            Some(Frame::BlockSequence(_, _)) => self.blocks -= 1,
            Some(Frame::BlockMapping(_, _)) => self.blocks -= 1,
            Some(Frame::FlowSequence(_)) => {}
            Some(Frame::FlowMapping(_, _)) => {}
            Some(Frame::FlowPair(_)) => {}
        }
    }

    /// Another one in the place of the innermost.
    ///
    /// # Errors
    ///
    /// `NoMemory` alone, and only where there is none.
    #[inline(always)]
    #[tactic(auto, using(crate::proofs::CountLemmas::blocks_fit))]
    pub fn replace(&mut self, frame: Frame) -> Result<(), NoMemory>
        ensures value { OnOk result (self.new ≡ frame ∷ drop 1 self.old) }
        ensures memory { 0 < length self.old → IsOk result }
    {
        match self.list.pop() {
            None => {
                // a copy: what is lent to a call is filled in memory on either way
                let own = frame;
                self.push(own)
            }
            Some(top) => {
                self.blocks -= count_of(top);
                self.list.push_reserved(frame);
                self.blocks += count_of(frame);
                Ok(())
            }
        }
    }

    /// Whether a sequence may begin in the column of its mapping (YAML 1.2.2, 8.2.2).
    pub fn may_be_indentless(&self, column: usize) -> bool
        ensures { result ≡ ends.may_be_indentless column (frames_view self.now) }
    {
        match self.split() {
            None => false,
            Some((Frame::Root(_), _)) => false,
            Some((Frame::BlockSequence(_, _), _)) => false,
            Some((Frame::BlockMapping(own, stage), _)) => is_node_place(stage) && own == column,
            Some((Frame::FlowSequence(_), _)) => false,
            Some((Frame::FlowMapping(_, _), _)) => false,
            Some((Frame::FlowPair(_), _)) => false,
        }
    }

    /// The column that a node must stand right of.
    pub fn under_column(&self) -> Option<usize>
        ensures { result ≡ ends.under_column (frames_view self.now) }
    {
        innermost_column(&self.list)
    }

    /// The column that the first event of a key of a block mapping tells, else its own.
    pub fn key_indent(&self, own: Option<usize>) -> Option<usize>
        ensures { result ≡ giving.key_indent (frames_view self.now) own }
    {
        match self.list.last().copied() {
            None => own,
            Some(Frame::Root(_)) => own,
            Some(Frame::BlockSequence(_, _)) => own,
            Some(Frame::BlockMapping(column, stage)) => key_column(column, stage, own),
            Some(Frame::FlowSequence(_)) => own,
            Some(Frame::FlowMapping(_, _)) => own,
            Some(Frame::FlowPair(_)) => own,
        }
    }
}

/// How many block collections that is.
fn count_of(frame: Frame) -> usize
    ensures counted { (fs : _) → ends.block_count (frame_view frame ∷ fs) ≡ result + ends.block_count fs }
    ensures one { result ≤ 1 }
{
    match frame {
        Frame::Root(_) => 0,
        Frame::BlockSequence(_, _) => 1,
        Frame::BlockMapping(_, _) => 1,
        Frame::FlowSequence(_) => 0,
        Frame::FlowMapping(_, _) => 0,
        Frame::FlowPair(_) => 0,
    }
}

fn key_column(column: usize, stage: PairStage, own: Option<usize>) -> Option<usize>
    ensures { (below : _) → result ≡ giving.key_indent (spec.BlockMapping column (pair_view stage) ∷ below) own }
{
    match stage {
        PairStage::BeforePair => own,
        PairStage::AtKey => Some(column),
        PairStage::BehindKey => own,
        PairStage::AtQuestion => Some(column),
        PairStage::BehindQuestion => own,
        PairStage::AtValue => own,
        PairStage::BehindAlone => own,
        PairStage::BehindPair => own,
    }
}

/// Whether a node may stand there, behind `?` or `:`.
fn is_node_place(stage: PairStage) -> bool
    ensures { (own column : _) (below : _) → (result && (own == column))
        ≡ ends.may_be_indentless column (spec.BlockMapping own (pair_view stage) ∷ below) }
{
    match stage {
        PairStage::BeforePair => false,
        PairStage::AtKey => false,
        PairStage::BehindKey => false,
        PairStage::AtQuestion => true,
        PairStage::BehindQuestion => false,
        PairStage::AtValue => true,
        PairStage::BehindAlone => false,
        PairStage::BehindPair => false,
    }
}

/// The last one, and those around it.
fn split_frames(frames: &[Frame]) -> Option<(Frame, &[Frame])>
    ensures frames { reverse frames.now ≡ split_view result }
    ensures shorter { IfSome result (λ s. length s.1.now < length frames.now) }
{
    match frames.split_last() {
        None => None,
        Some((frame, around)) => Some((*frame, around)),
    }
}

fn innermost_column(frames: &[Frame]) -> Option<usize>
    ensures { result ≡ ends.under_column (frames_view (reverse frames.now)) }
{
    let mut rest = frames;
    'frames: while let Some((frame, around)) = split_frames(rest) {
        match frame {
            Frame::Root(_) => {}
            Frame::BlockSequence(column, _) => return Some(column),
            Frame::BlockMapping(column, _) => return Some(column),
            Frame::FlowSequence(_) => {}
            Frame::FlowMapping(_, _) => {}
            Frame::FlowPair(_) => {}
        }
        rest = around;
    }
    None
}
