//! A lexeme around documents (YAML 1.2.2, chapter 9).
ghost use Rattle.std.specs.Prelude.{◌≡◌, [], true, false, None, IsOk, OnOk};
ghost use Rattle.std.specs.Option.{option_map};
ghost use Rattle.granit_error.specs.OptionsView.{options_of};
ghost use Rattle.granit_event.specs.Events.{plain_version};
ghost use Rattle.granit_error.specs.FaultKind as faults;
ghost use Rattle.granit_refused.specs.Answered.{answered, why};
ghost use Rattle.granit_lexemes.specs.Outcome.{fault_at};
ghost use Rattle.granit_sorts.specs.SortViews.{machine_token, of_kind, sort_view};
ghost use Rattle.granit_frames.specs.Refusing.{RefusesByFault};
ghost use Rattle.granit_frames.specs.StateViews.{stage_view};
ghost use Rattle.granit_frames.specs.Wanting.{keeps_text, StepWantsToGive};
ghost use Rattle.granit_feed.specs.AtOnce.{outside_at_once};
ghost use Rattle.granit_feed.specs.Handles.{KeepsIfRefused};
ghost use Rattle.granit_items.specs.ItemViews.{kind_view};
ghost use Rattle.granit_nodes.specs.Again.{WhereNamedAgain};
ghost use Rattle.granit_items.specs.declared.item.LexemeKind.TheVariants as kinds;
ghost use Rattle.granit_lexemes.specs.Lexeme as lexemes;
ghost use Rattle.granit_lexemes.specs.Lexeme.{is_directive};
ghost use Rattle.granit_lexemes.specs.PlainEvent as plain;
ghost use Rattle.granit_machine.specs.Frames as machine;
ghost use Rattle.granit_machine.specs.Giving as giving;
ghost use Rattle.granit_machine.specs.Leaving.{LeavesIfRoom};
ghost use Rattle.granit_machine.specs.NodeEnds.{empty_span};
ghost use Rattle.granit_machine.specs.StreamSteps as steps;
ghost use Rattle.granit_machine.specs.TokenSort as sorts;

use granit_base::{NoMemory, Span, Text};
use granit_error::{ErrorKind, Options, ScanError};
use granit_event::{Event, YamlVersion};
use granit_frames::{DocumentStage, Frame, ParserState, Token, TokenSort, misplaced};
use granit_items::LexemeKind;
use granit_nodes::node;
use granit_refused::Refused;
use std::alloc::Global;
use std::mem;

// What may not stand there: each in one place, since a match keeps room for each error that an arm makes.

/// No document starts with it.
fn no_start(fault: &mut Option<ScanError>, token: &Token<'_>) -> Refused
    ensures { why fault.new result ≡ fault_at faults.ExpectedDocumentStart token.now.lexeme.value.shown_start }
{
    misplaced(fault, token, ErrorKind::ExpectedDocumentStart)
}

/// A directive, and the document before it wasn't ended.
fn no_end(fault: &mut Option<ScanError>, token: &Token<'_>) -> Refused
    ensures { why fault.new result ≡
        fault_at faults.MissingDocumentEndBeforeDirective token.now.lexeme.value.shown_start }
{
    misplaced(fault, token, ErrorKind::MissingDocumentEndBeforeDirective)
}

// Directives (YAML 1.2.2, 6.8).

/// A directive that names a version, behind others one of which may have.
fn with_version<'input>(
    state: &mut ParserState<'input>,
    fault: &mut Option<ScanError>,
    major: u32,
    minor: u32,
    token: &Token<'input>,
    version: Option<YamlVersion>,
) -> Result<(), Refused>
    ensures leaves { LeavesIfRoom (answered fault.new result) state.new (steps.with_version (machine_token token.now)
        (option_map plain_version version) major minor state.old) }
    ensures by_fault { RefusesByFault (answered fault.new result) (steps.with_version (machine_token token.now)
        (option_map plain_version version) major minor state.old) }
    ensures memory { version ≡ None → major ≡ 1 → IsOk result }
    ensures kept { state.new.kept ≡ state.old.kept }
    ensures eventless { StepWantsToGive (answered fault.new result) state.old
        (steps.with_version (machine_token token.now) (option_map plain_version version) major minor state.old) }
{
    match version {
        Some(_) => Err(misplaced(fault, token, ErrorKind::DuplicateVersionDirective)),
        None => {
            if major != 1 {
                return Err(misplaced(fault, token, ErrorKind::UnsupportedYamlMajorVersion));
            }
            state.set_stage(DocumentStage::Directives(Some(YamlVersion { major, minor })));
            Ok(())
        }
    }
}

/// A directive that says what a handle stands for.
fn with_handle<'input>(
    state: &mut ParserState<'input>,
    fault: &mut Option<ScanError>,
    alloc: Global,
    options: &Options,
    handle: Text<'input>,
    prefix: Text<'input>,
    token: &Token<'input>,
    version: Option<YamlVersion>,
) -> Result<(), Refused>
    ensures leaves { LeavesIfRoom (answered fault.new result) state.new (steps.with_directive (options_of options.now)
        (of_kind (kinds.TagPrefix handle.entry prefix.entry) token.now)
        (lexemes.TagPrefix handle.entry.characters prefix.entry.characters)
        (option_map plain_version version) state.old) }
    ensures by_fault { RefusesByFault (answered fault.new result) (steps.with_directive (options_of options.now)
        (of_kind (kinds.TagPrefix handle.entry prefix.entry) token.now)
        (lexemes.TagPrefix handle.entry.characters prefix.entry.characters)
        (option_map plain_version version) state.old) }
    ensures refused { KeepsIfRefused (answered fault.new result) state.old state.new }
{
    match state.prefix_of(&handle) {
        Some(_) => Err(misplaced(fault, token, ErrorKind::DuplicateTagDirective)),
        None => {
            state.remember_handle(alloc, handle, prefix, options.keep_tags)?;
            state.set_stage(DocumentStage::Directives(version));
            Ok(())
        }
    }
}

/// `---`, behind directives one of which may name a version.
#[tactic(auto, using(crate::proofs::GivingLemmas::flush_frames))]
fn open_document<'input>(
    state: &mut ParserState<'input>,
    fault: &mut Option<ScanError>,
    token: &Token<'input>,
    version: Option<YamlVersion>,
) -> Result<(), Refused>
    requires outer { state.old.frames ≡ [] }
    ensures leaves { LeavesIfRoom (answered fault.new result) state.new (steps.open_document (machine_token token.now)
        (option_map plain_version version) state.old) }
    ensures kept { state.new.kept ≡ state.old.kept }
{
    state.forget_names();
    state.set_stage(DocumentStage::Inside);
    state.give(Event::DocumentStart(true, version), token.span())?;
    state.push_frame(Frame::Root(true))?;
    Ok(())
}

/// Behind directives: another, or `---`.
fn behind_directives<'input>(
    state: &mut ParserState<'input>,
    fault: &mut Option<ScanError>,
    alloc: Global,
    options: &Options,
    token: &mut Token<'input>,
    version: Option<YamlVersion>,
) -> Result<(), Refused>
    requires outer { state.old.frames ≡ [] }
    ensures leaves { LeavesIfRoom (answered fault.new result) state.new
        (steps.behind_directives (options_of options.now)
        (machine_token token.old).lexeme.kind (machine_token token.old) (option_map plain_version version) state.old) }
    ensures by_fault { RefusesByFault (answered fault.new result)
        (steps.behind_directives (options_of options.now)
        (machine_token token.old).lexeme.kind (machine_token token.old) (option_map plain_version version) state.old) }
    ensures kept { is_directive (kind_view token.old.lexeme.value.kind) ≡ false → state.new.kept ≡ state.old.kept }
    ensures refused { KeepsIfRefused (answered fault.new result) state.old state.new }
    ensures eventless { keeps_text (kind_view token.old.lexeme.value.kind) ≡ false
        → StepWantsToGive (answered fault.new result) state.old
        (steps.behind_directives (options_of options.now) (machine_token token.old).lexeme.kind
        (machine_token token.old) (option_map plain_version version) state.old) }
{
    match mem::replace(&mut token.lexeme.kind, LexemeKind::Comma) {
        LexemeKind::Version(major, minor) => with_version(
            state, fault, major, minor, token, version,
        ),
        LexemeKind::TagPrefix(handle, prefix) => {
            with_handle(state, fault, alloc, options, handle, prefix, token, version)
        }
        LexemeKind::Reserved(_, _) => {
            state.set_stage(DocumentStage::Directives(version));
            Ok(())
        }
        LexemeKind::DocumentStart => open_document(state, fault, token, version),
        _ => Err(no_start(fault, token)),
    }
}

/// The span of a document's start without `---`: that of the first lexeme, unless a block collection begins with it.
fn bare_start(token: &Token<'_>) -> Span
    ensures { record { kind = plain.DocumentStart false None; span = result }
        ≡ steps.bare_start (sort_view token.now.sort) (machine_token token.now) }
{
    match token.sort {
        TokenSort::BeginsNode => token.span().with_indent(token.lexeme.indent),
        _ => Span::empty(token.lexeme.start),
    }
}

// Documents (YAML 1.2.2, 9.1 and 9.2).

/// The root of a document behind its `---`.
pub(crate) fn at_root<'input>(
    state: &mut ParserState<'input>,
    fault: &mut Option<ScanError>,
    alloc: Global,
    options: &Options,
    token: &mut Token<'input>,
) -> Result<(), Refused>
    ensures leaves { LeavesIfRoom (answered fault.new result) state.new (steps.at_root (options_of options.now)
        (machine_token token.old) state.old) }
    ensures by_fault { (sort_view token.old.sort ≡ sorts.BeginsKey → ⊥)
        → RefusesByFault (answered fault.new result) (steps.at_root (options_of options.now)
        (machine_token token.old) state.old) }
    ensures again { WhereNamedAgain token.old.lexeme.value.kind state.old (StepWantsToGive (answered fault.new
        result) state.old (steps.at_root (options_of options.now) (machine_token token.old) state.old)) }
    ensures kept { state.new.kept ≡ state.old.kept }
{
    if !token.sort.begins_node() {
        return Err(misplaced(fault, token, ErrorKind::UnexpectedEofBlockSequence));
    }
    node(state, fault, alloc, options, token)
}

/// A document without `---`.
#[tactic(auto, using(crate::proofs::GivingLemmas::flush_frames))]
fn begin_document<'input>(
    state: &mut ParserState<'input>,
    fault: &mut Option<ScanError>,
    alloc: Global,
    options: &Options,
    token: &mut Token<'input>,
) -> Result<(), Refused>
    requires outer { state.old.frames ≡ [] }
    ensures leaves { LeavesIfRoom (answered fault.new result) state.new (steps.begin_document (options_of options.now)
        (machine_token token.old) state.old) }
    ensures by_fault { sorts.begins_node (sort_view token.old.sort) ≡ false
        → RefusesByFault (answered fault.new result) (steps.begin_document (options_of options.now)
        (machine_token token.old) state.old) }
    ensures kept { state.new.kept ≡ state.old.kept }
{
    if !token.sort.begins_node() {
        return Err(misplaced(fault, token, ErrorKind::UnexpectedEofBlockSequence));
    }
    state.forget_names();
    state.forget_handles();
    state.set_stage(DocumentStage::Inside);
    state.give(Event::DocumentStart(false, None), bare_start(token))?;
    state.push_frame(Frame::Root(false))?;
    node(state, fault, alloc, options, token)
}

fn end_stream<'input>(
    state: &mut ParserState<'input>,
    token: &Token<'input>,
) -> Result<(), NoMemory>
    ensures leaves { OnOk result (state.new ≡ giving.give (plain.event_at plain.StreamEnd
        (machine_token token.now).lexeme.shown) state.old) }
    ensures kept { state.new.kept ≡ state.old.kept }
{
    state.give(Event::StreamEnd, token.span())
}

/// What `%` begins, where no directive stands before it.
fn first_directive<'input>(
    state: &mut ParserState<'input>,
    fault: &mut Option<ScanError>,
    alloc: Global,
    options: &Options,
    token: &mut Token<'input>,
) -> Result<(), Refused>
    requires outer { state.old.frames ≡ [] }
    ensures leaves { LeavesIfRoom (answered fault.new result) state.new
        (steps.behind_directives (options_of options.now)
        (machine_token token.old).lexeme.kind (machine_token token.old) None (steps.without_directives state.old)) }
    ensures by_fault { RefusesByFault (answered fault.new result)
        (steps.behind_directives (options_of options.now)
        (machine_token token.old).lexeme.kind (machine_token token.old) None (steps.without_directives state.old)) }
    ensures refused { KeepsIfRefused (answered fault.new result) state.old state.new }
    ensures eventless { keeps_text (kind_view token.old.lexeme.value.kind) ≡ false
        → StepWantsToGive (answered fault.new result) state.old
        (steps.behind_directives (options_of options.now) (machine_token token.old).lexeme.kind
        (machine_token token.old) None (steps.without_directives state.old)) }
{
    state.forget_handles();
    state.forget_names();
    behind_directives(state, fault, alloc, options, token, None)
}

/// `---` without directives.
fn plain_document<'input>(
    state: &mut ParserState<'input>,
    fault: &mut Option<ScanError>,
    token: &Token<'input>,
) -> Result<(), Refused>
    requires outer { state.old.frames ≡ [] }
    ensures leaves { LeavesIfRoom (answered fault.new result) state.new
        (steps.open_document (machine_token token.now) None
        (record state.old { handles = [] })) }
    ensures kept { state.new.kept ≡ state.old.kept }
{
    state.forget_handles();
    open_document(state, fault, token, None)
}

/// Before a document that directives may begin.
fn when_fresh<'input>(
    state: &mut ParserState<'input>,
    fault: &mut Option<ScanError>,
    alloc: Global,
    options: &Options,
    token: &mut Token<'input>,
) -> Result<(), Refused>
    requires outer { state.old.frames ≡ [] }
    ensures leaves { LeavesIfRoom (answered fault.new result) state.new (steps.when_fresh (options_of options.now)
        (machine_token token.old).lexeme.kind (machine_token token.old) state.old) }
    ensures by_fault { sorts.begins_node (sort_view token.old.sort) ≡ false
        → RefusesByFault (answered fault.new result) (steps.when_fresh (options_of options.now)
        (machine_token token.old).lexeme.kind (machine_token token.old) state.old) }
    ensures kept { is_directive (kind_view token.old.lexeme.value.kind) ≡ false → state.new.kept ≡ state.old.kept }
    ensures refused { KeepsIfRefused (answered fault.new result) state.old state.new }
    ensures eventless { keeps_text (kind_view token.old.lexeme.value.kind) ≡ false
        → StepWantsToGive (answered fault.new result) state.old
        (steps.when_fresh (options_of options.now) (machine_token token.old).lexeme.kind
        (machine_token token.old) state.old) }
{
    match &token.lexeme.kind {
        LexemeKind::DocumentEnd => Ok(state.flush()?),
        LexemeKind::StreamEnd => Ok(end_stream(state, token)?),
        LexemeKind::Version(_, _) => first_directive(state, fault, alloc, options, token),
        LexemeKind::TagPrefix(_, _) => first_directive(state, fault, alloc, options, token),
        LexemeKind::Reserved(_, _) => first_directive(state, fault, alloc, options, token),
        LexemeKind::DocumentStart => plain_document(state, fault, token),
        _ => begin_document(state, fault, alloc, options, token),
    }
}

/// Behind a document that `...` didn't end.
fn when_between<'input>(
    state: &mut ParserState<'input>,
    fault: &mut Option<ScanError>,
    token: &Token<'input>,
) -> Result<(), Refused>
    requires outer { state.old.frames ≡ [] }
    ensures leaves { LeavesIfRoom (answered fault.new result) state.new
        (steps.when_between (machine_token token.now).lexeme.kind
        (machine_token token.now) state.old) }
    ensures by_fault { RefusesByFault (answered fault.new result)
        (steps.when_between (machine_token token.now).lexeme.kind
        (machine_token token.now) state.old) }
    ensures kept { state.new.kept ≡ state.old.kept }
{
    match &token.lexeme.kind {
        LexemeKind::Version(_, _) => Err(no_end(fault, token)),
        LexemeKind::TagPrefix(_, _) => Err(no_end(fault, token)),
        LexemeKind::Reserved(_, _) => Err(no_end(fault, token)),
        LexemeKind::DocumentStart => plain_document(state, fault, token),
        LexemeKind::StreamEnd => Ok(end_stream(state, token)?),
        _ => Err(no_start(fault, token)),
    }
}

/// The end of a document.
fn end_document<'input>(
    state: &mut ParserState<'input>,
    span: Span,
    stage: DocumentStage,
) -> Result<(), NoMemory>
    ensures leaves { OnOk result (state.new ≡ steps.end_document (record { start = span.start; end = span.end })
        (stage_view stage) state.old) }
    ensures kept { state.new.kept ≡ state.old.kept }
{
    state.give(Event::DocumentEnd, Span::new(span.start, span.end))?;
    state.forget_handles();
    state.set_stage(stage);
    Ok(())
}

/// Behind the root of a document that isn't ended by `...`.
#[tactic(auto, using(crate::proofs::GivingLemmas::flush_frames))]
fn behind_unended<'input>(
    state: &mut ParserState<'input>,
    fault: &mut Option<ScanError>,
    token: &Token<'input>,
) -> Result<(), Refused>
    requires outer { state.old.frames ≡ [] }
    ensures leaves { LeavesIfRoom (answered fault.new result) state.new
        (steps.when_between (machine_token token.now).lexeme.kind
        (machine_token token.now) (steps.end_document (empty_span state.old.last_end) machine.Between state.old)) }
    ensures kept { state.new.kept ≡ state.old.kept }
{
    end_document(state, Span::empty(state.last_end()), DocumentStage::Between)?;
    when_between(state, fault, token)
}

/// Behind the root of a document.
fn behind_root<'input>(
    state: &mut ParserState<'input>,
    fault: &mut Option<ScanError>,
    token: &Token<'input>,
) -> Result<(), Refused>
    requires outer { state.old.frames ≡ [] }
    ensures leaves { LeavesIfRoom (answered fault.new result) state.new
        (steps.behind_root (machine_token token.now).lexeme.kind
        (machine_token token.now) state.old) }
    ensures kept { state.new.kept ≡ state.old.kept }
{
    match &token.lexeme.kind {
        LexemeKind::DocumentEnd => Ok(end_document(state, token.span(), DocumentStage::Fresh)?),
        _ => behind_unended(state, fault, token),
    }
}

/// Around documents.
pub(crate) fn outside<'input>(
    state: &mut ParserState<'input>,
    fault: &mut Option<ScanError>,
    alloc: Global,
    options: &Options,
    token: &mut Token<'input>,
) -> Result<(), Refused>
    requires outer { state.old.frames ≡ [] }
    ensures leaves { LeavesIfRoom (answered fault.new result) state.new
        (steps.outside (options_of options.now) state.old.stage
        (machine_token token.old) state.old) }
    ensures by_fault { outside_at_once state.old.stage (sort_view token.old.sort) ≡ true
        → RefusesByFault (answered fault.new result)
        (steps.outside (options_of options.now) state.old.stage
        (machine_token token.old) state.old) }
    ensures kept { is_directive (kind_view token.old.lexeme.value.kind) ≡ false → state.new.kept ≡ state.old.kept }
    ensures refused { KeepsIfRefused (answered fault.new result) state.old state.new }
    ensures eventless { keeps_text (kind_view token.old.lexeme.value.kind) ≡ false
        → StepWantsToGive (answered fault.new result) state.old
        (steps.outside (options_of options.now) state.old.stage (machine_token token.old) state.old) }
{
    match state.stage() {
        DocumentStage::Fresh => when_fresh(state, fault, alloc, options, token),
        DocumentStage::Directives(version) => behind_directives(
            state, fault, alloc, options, token, version,
        ),
        DocumentStage::BehindRoot => behind_root(state, fault, token),
        DocumentStage::Between => when_between(state, fault, token),
        DocumentStage::Inside => Err(misplaced(fault, token, ErrorKind::ExpectedDocumentStart)),
    }
}
