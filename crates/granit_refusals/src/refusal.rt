//! Where a turn was refused, and what stood before it.
ghost use Rattle.std.specs.Prelude.{◌≡◌, true, false, None, Some, IfOk};
ghost use Rattle.std.specs.Option.{option_map};
ghost use Rattle.granit_error.specs.FaultKind as faults;
ghost use Rattle.granit_error.specs.FaultKind.{wants_memory};
ghost use Rattle.granit_refused.specs.Answered.{why};
ghost use Rattle.granit_frames.specs.StateViews.{stage_view};
ghost use Rattle.granit_items.specs.ItemViews.{boxed_lexeme, item_view, lexeme_view};
ghost use Rattle.granit_refusals.specs.BeforeTurn as spec;
ghost use Rattle.granit_restart.specs.Header as header;

use granit_base::{Marker, NoMemory};
use granit_error::{ErrorKind, ScanError};
use granit_frames::{DocumentStage, ParserState};
use granit_items::{Item, Lexeme, LexemeKind, clone_tail, is_directive};
use granit_refused::Refused;
use std::alloc::Global;

/// Where a turn was refused, and what stood before it.
#[derive(Drop)]
pub struct Refusal<'input> {
    /// The item that the parser refused, where it is a mark.
    pub front: Option<Box<Lexeme<'input>>>,
    /// Whether the parser refused an item.
    pub takes_front: bool,
    /// Whether that is a directive, where it is a lexeme.
    pub directive: Option<bool>,
    /// Whether a document's start was expected in its place.
    pub expects_start: bool,
    pub stage: DocumentStage,
    pub last_end: Marker,
    pub count: usize,
}

/// What stands before the parser takes an item that is no mark: most are none, and need no room for one.
#[derive(Clone, Copy)]
pub struct Before {
    /// Whether that is a directive, where it is a lexeme.
    pub directive: Option<bool>,
    pub stage: DocumentStage,
    pub last_end: Marker,
    pub count: usize,
}

impl Before {
    pub fn at_item(parser: &ParserState<'_>, item: &Item<'_>) -> Before
        requires { spec.mark_of_item (item_view item.now) ≡ None }
        ensures { spec.IsBeforeItem parser.now (item_view item.now) (spec.whole result) }
    {
        Before {
            directive: directive_in(item),
            stage: parser.stage(),
            last_end: parser.last_end(),
            count: parser.anchor_count(),
        }
    }

    /// By why it was refused; none where memory ran out.
    pub fn by<'input>(self, fault: &Option<ScanError>, refused: Refused) -> Option<Refusal<'input>>
        ensures { ((why fault.now refused).kind ≡ faults.NoMemory → ⊥) → result ≡ Some
            (record (spec.whole self) { expects_start = header.is_start_expected (why fault.now refused) }) }
    {
        match refused {
            Refused::Memory => None,
            Refused::Kept => match fault {
                None => None,
                Some(error) => self.by_error(error),
            },
        }
    }

    fn by_error<'input>(self, error: &ScanError) -> Option<Refusal<'input>>
        ensures { (error.now.kind ≡ faults.NoMemory → ⊥) → result
            ≡ Some (record (spec.whole self) { expects_start = header.is_start_expected error.now }) }
    {
        if wants_memory(error) {
            return None;
        }
        let (takes_front, expects_start) = (true, is_start_expected(error));
        Some(Refusal {
            front: None,
            takes_front,
            directive: self.directive,
            expects_start,
            stage: self.stage,
            last_end: self.last_end,
            count: self.count,
        })
    }
}

impl<'input> Refusal<'input> {
    /// Where reading goes on behind it a next anchor gets this number; 0 is as 1.
    pub fn set_anchor_offset(&mut self, offset: usize)
        ensures { self.new ≡ spec.recounted offset self.old }
    {
        self.count = offset.saturating_sub(1);
    }

    /// Before the parser takes an item.
    pub fn at_item(
        alloc: Global,
        parser: &ParserState<'input>,
        item: &Item<'input>,
    ) -> Result<Refusal<'input>, NoMemory>
        ensures { IfOk result (spec.IsBeforeItem parser.now (item_view item.now)) }
    {
        Ok(Refusal {
            front: mark_in(alloc, item)?,
            takes_front: true,
            directive: directive_in(item),
            expects_start: false,
            stage: parser.stage(),
            last_end: parser.last_end(),
            count: parser.anchor_count(),
        })
    }

    /// Before a read.
    pub fn at_read(parser: &ParserState<'input>) -> Refusal<'input>
        ensures { spec.IsBeforeRead parser.now result }
    {
        Refusal {
            front: None,
            takes_front: false,
            directive: None,
            expects_start: false,
            stage: parser.stage(),
            last_end: parser.last_end(),
            count: parser.anchor_count(),
        }
    }

    /// By why it was refused; none where memory ran out, since recovery is refused then.
    pub fn by(self, fault: &Option<ScanError>, refused: Refused) -> Option<Refusal<'input>>
        ensures { ((why fault.now refused).kind ≡ faults.NoMemory → ⊥) → result ≡ Some
            (record self.entry { expects_start = header.is_start_expected (why fault.now refused) }) }
    {
        match refused {
            Refused::Memory => None,
            Refused::Kept => match fault {
                None => None,
                Some(error) => self.by_error(error),
            },
        }
    }

    fn by_error(self, error: &ScanError) -> Option<Refusal<'input>>
        ensures { (error.now.kind ≡ faults.NoMemory → ⊥) → result
            ≡ Some (record self.entry { expects_start = header.is_start_expected error.now }) }
    {
        if wants_memory(error) {
            return None;
        }
        Some(Refusal {
            expects_start: is_start_expected(error),
            ..self
        })
    }

    /// Whether the open document came to its end before the refusal, which is the next document's.
    pub fn ends_before(&self) -> bool
        ensures { result ≡ spec.refusal_ends_before self.now }
    {
        self.takes_front && self.expects_start && is_within(self.stage)
    }

    /// Whether no document is open where the turn was refused.
    pub fn fails_outside(&self) -> bool
        ensures { result ≡ spec.refusal_outside self.now }
    {
        if self.takes_front {
            self.refuses_outside()
        } else {
            is_directives(self.stage) || is_fresh(self.stage)
        }
    }

    fn refuses_outside(&self) -> bool
        ensures { result ≡ spec.refuses_outside self.now }
    {
        self.expects_start
            || is_directives(self.stage)
            || is_fresh(self.stage) && self.is_directive()
    }

    /// Whether the parser refused a directive.
    fn is_directive(&self) -> bool
        ensures { result ≡ spec.is_true self.now.directive }
    {
        match self.directive {
            None => false,
            Some(directive) => directive,
        }
    }

    /// Whether the last lexeme up to the item that was refused is a directive.
    pub fn ends_in_directive(&self) -> bool
        ensures { result ≡ spec.refusal_in_directive self.now }
    {
        match self.directive {
            None => is_directives(self.stage),
            Some(directive) => directive,
        }
    }
}

fn is_within(stage: DocumentStage) -> bool
    ensures { result ≡ spec.stage_is_within (stage_view stage) }
{
    matches!(stage, DocumentStage::Inside | DocumentStage::BehindRoot)
}

pub fn is_directives(stage: DocumentStage) -> bool
    ensures { result ≡ header.is_directives (stage_view stage) }
{
    matches!(stage, DocumentStage::Directives(_))
}

fn is_fresh(stage: DocumentStage) -> bool
    ensures { result ≡ header.is_fresh (stage_view stage) }
{
    matches!(stage, DocumentStage::Fresh)
}

pub fn wants_memory(error: &ScanError) -> bool
    ensures { result ≡ wants_memory error.now.kind }
{
    error.kind().number() == ErrorKind::NoMemory.number()
}

fn is_start_expected(error: &ScanError) -> bool
    ensures { result ≡ header.is_start_expected error.now }
{
    error.kind().number() == ErrorKind::ExpectedDocumentStart.number()
}

/// Whether an item is a mark.
pub fn is_mark(item: &Item<'_>) -> bool
    ensures none { result ≡ false → spec.mark_of_item (item_view item.now) ≡ None }
    ensures marked { spec.mark_of_item (item_view item.now) ≡ None → result ≡ false }
{
    match item {
        Item::Note(_) => false,
        Item::Lexeme(lexeme) => matches!(
            lexeme.kind,
            LexemeKind::DocumentStart | LexemeKind::DocumentEnd | LexemeKind::StreamEnd
        ),
    }
}

/// A mark once more.
fn mark_in<'input>(
    alloc: Global,
    item: &Item<'input>,
) -> Result<Option<Box<Lexeme<'input>>>, NoMemory>
    ensures { IfOk result (λ m. option_map boxed_lexeme m ≡ spec.mark_of_item (item_view item.now)) }
{
    match item {
        Item::Note(_) => Ok(None),
        Item::Lexeme(lexeme) => mark_of(alloc, lexeme),
    }
}

fn mark_of<'input>(
    alloc: Global,
    lexeme: &Lexeme<'input>,
) -> Result<Option<Box<Lexeme<'input>>>, NoMemory>
    ensures { IfOk result (λ m. option_map boxed_lexeme m
        ≡ spec.mark_if (lexeme_view lexeme.now).kind (lexeme_view lexeme.now)) }
{
    match &lexeme.kind {
        LexemeKind::DocumentStart => mark_as(alloc, lexeme, LexemeKind::DocumentStart),
        LexemeKind::DocumentEnd => mark_as(alloc, lexeme, LexemeKind::DocumentEnd),
        LexemeKind::StreamEnd => mark_as(alloc, lexeme, LexemeKind::StreamEnd),
        _ => Ok(None),
    }
}

fn mark_as<'input>(
    alloc: Global,
    lexeme: &Lexeme<'input>,
    kind: LexemeKind<'input>,
) -> Result<Option<Box<Lexeme<'input>>>, NoMemory>
    requires { kind ≡ lexeme.now.kind }
    ensures { IfOk result (λ m. option_map boxed_lexeme m ≡ Some (lexeme_view lexeme.now)) }
{
    let mark = Lexeme {
        number: lexeme.number,
        kind,
        start: lexeme.start,
        shown_start: lexeme.shown_start,
        shown_end: lexeme.shown_end,
        end: lexeme.end,
        indent: lexeme.indent,
        in_flow: lexeme.in_flow,
        begins_line: lexeme.begins_line,
        follows_indicator: lexeme.follows_indicator,
        ends_column: lexeme.ends_column,
        key: lexeme.key,
        tail: clone_tail(alloc, &lexeme.tail)?,
    };
    Ok(Some(Box::new(alloc, mark)?))
}

/// Whether an item is a directive, where it is a lexeme.
fn directive_in(item: &Item<'_>) -> Option<bool>
    ensures { result ≡ spec.directive_in (item_view item.now) }
{
    match item {
        Item::Note(_) => None,
        Item::Lexeme(lexeme) => Some(is_directive(&lexeme.kind)),
    }
}
