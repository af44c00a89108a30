//! What a parser keeps between lexemes.
ghost use Rattle.std.specs.Prelude.{◌≡◌, is_none};
ghost use Rattle.granit_frames.specs.StateViews.{stage_view};
ghost use Rattle.granit_frames.specs.TopViews.{top_view};
ghost use Rattle.granit_machine.specs.Frames.{parser_start};

use granit_base::{Marker, Span, Text};
use granit_event::{Event, YamlVersion};
use granit_nesting::{Frame, Frames};
use granit_node_properties::NodeProperties;
use std::alloc::Global;
use std::collections::{BTreeMap, VecDeque};
use std::marker::Model;

/// Where a stream stands around its documents (YAML 1.2.2, 9.2).
#[derive(Clone, Copy)]
pub enum DocumentStage {
    /// Before a document that directives may begin.
    Fresh,
    /// Behind directives, one of which may name a version.
    Directives(Option<YamlVersion>),
    /// In a document.
    Inside,
    /// Behind the root of a document.
    BehindRoot,
    /// Behind a document that `...` didn't end.
    Between,
}

/// A `-` or a `:` whose node hasn't begun.
#[derive(Drop)]
pub(crate) struct Waiting<'input> {
    /// Where its node stands if it stays empty.
    pub(crate) at: Marker,
    /// Where room for comments comes from.
    pub(crate) alloc: Global,
    /// How many comments may still come.
    pub(crate) room: usize,
    /// Those that came, where one did.
    pub(crate) held: Option<VecDeque<(Event<'input>, Span)>>,
}

/// What a parser keeps between lexemes: the unfinished nodes, what is declared, what waits, and the events that it
/// gives.
#[derive(Drop)]
pub struct ParserState<'input> {
    pub(crate) frames: Frames,
    /// Of the node that must come, inside all frames.
    pub(crate) properties: Option<NodeProperties<'input>>,
    pub(crate) stage: DocumentStage,
    /// The end of the last event that is no comment and no anchor.
    pub(crate) last_end: Marker,
    /// How many anchors were read.
    pub(crate) count: usize,
    /// The number of the last anchor of each name in the document.
    pub(crate) names: BTreeMap<Text<'input>, usize>,
    /// What the handles of the document's directives stand for.
    pub(crate) handles: BTreeMap<Text<'input>, Text<'input>>,
    /// The same of all directives so far, where handles stay over documents.
    pub(crate) kept: BTreeMap<Text<'input>, Text<'input>>,
    pub(crate) waiting: Option<Waiting<'input>>,
    /// The events of this step so far.
    pub(crate) given: VecDeque<(Event<'input>, Span)>,
}

/// The innermost unfinished node, and those around it.
pub enum Top<'a, 'input> {
    /// None: around documents.
    Outside,
    /// A node whose properties were read.
    Properties(&'a NodeProperties<'input>, &'a Frames),
    /// Another.
    In(Frame, &'a [Frame]),
}

impl<'input> Model for ParserState<'input> {
    ghost use Rattle.std.specs.Prelude.{◌≡◌};
    ghost use Rattle.granit_machine.specs.Frames as spec;
    ghost use Rattle.std.specs.Option.{option_map};
    ghost use Rattle.granit_event.specs.Events.{plain_events};
    ghost use Rattle.granit_frames.specs.StateViews.{all_frames, stage_view, names_view, handles_view, waiting_view};

    ghost Value = { spec.ParserState };

    ghost view = { λ p. record {
      frames = all_frames p.properties p.frames;
      stage = stage_view p.stage;
      last_end = p.last_end;
      count = p.count;
      names = names_view p.names.entries;
      handles = handles_view p.handles.entries;
      kept = handles_view p.kept.entries;
      waiting = option_map waiting_view p.waiting;
      given = plain_events p.given.items;
    } };
}

impl<'input> ParserState<'input> {
    /// Before a text that begins there.
    pub fn new(alloc: Global, start: Marker) -> ParserState<'input>
        ensures { result ≡ parser_start start }
    {
        ParserState {
            frames: Frames::new(alloc),
            properties: None,
            stage: DocumentStage::Fresh,
            last_end: start,
            count: 0,
            names: BTreeMap::new(alloc),
            handles: BTreeMap::new(alloc),
            kept: BTreeMap::new(alloc),
            waiting: None,
            given: VecDeque::new(alloc),
        }
    }

    /// The innermost unfinished node.
    pub fn top(&self) -> Top<'_, 'input>
        ensures { self.now.frames ≡ top_view result }
    {
        match &self.properties {
            Some(properties) => Top::Properties(properties, &self.frames),
            None => match self.frames.split() {
                None => Top::Outside,
                Some((frame, around)) => Top::In(frame, around),
            },
        }
    }

    /// Where the stream stands around its documents.
    pub fn stage(&self) -> DocumentStage
        ensures { self.now.stage ≡ stage_view result }
    {
        self.stage
    }

    /// From now on the stream stands there.
    pub fn set_stage(&mut self, stage: DocumentStage)
        ensures { self.new ≡ record self.old { stage = stage_view stage } }
    {
        self.stage = stage;
    }

    /// The end of the last event that is no comment and no anchor.
    pub fn last_end(&self) -> Marker
        ensures { result ≡ self.now.last_end }
    {
        self.last_end
    }

    /// Whether no `-` or `:` waits for its node.
    pub fn waits_for_none(&self) -> bool
        ensures { result ≡ is_none self.now.waiting }
    {
        match &self.waiting {
            None => true,
            Some(_) => false,
        }
    }
}
