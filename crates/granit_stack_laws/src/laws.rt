//! What follows for includes.
ghost use Rattle.std.specs.Prelude.{◌≤◌, ℕ, false, Ok, Option};
ghost use Rattle.granit_error.specs.OptionsData.{OptionsData};
ghost use Rattle.granit_layers.specs.Nested.{IsOneDocument};
ghost use Rattle.granit_layers.specs.declared.kinds.AnyKind.TheVariants.{Fourth};
ghost use Rattle.granit_ids.specs.OneDocument.{document_starts};
ghost use Rattle.granit_replay.specs.Replaying.{Replay};
ghost use Rattle.granit_replay.specs.declared.resolver.Included.{Included};
ghost use Rattle.granit_stack_laws.specs.Coming.{IncludeComesThrough, IncludesAreNew};
ghost use Rattle.granit_stack.specs.Including.{ReadsText, replayed};
ghost use Rattle.granit_stack_laws.specs.Life.{IsNumbered, IsUnread, UnreadAny};

use granit_ids::{a_text_with_one_start_is_one_document, ids_are_counted, ids_begin_at_the_offset};
use granit_input::BorrowedInput;
use granit_layers::{AnyKind, StackedParser, a_replay_comes_through};
use granit_parser::Parser;
use granit_replay::{ReplayParser, Resolver};

/// A text that is read whole, above a parser or not, has at most one document where at most one of its events starts
/// one.
pub fn a_text_with_one_start_has_one_document()
    ensures { (o : OptionsData) (above : Option ℕ) (text : Included) (p : Replay) → ReadsText o above text (Ok p)
        → document_starts (replayed p) ≤ 1 → IsOneDocument false p.events }
{
    a_text_with_one_start_is_one_document();
}

/// An include that is answered comes through: its anchors have ids from the number of the parser below it on, the
/// number for a next anchor is above them all, and where at most one of its events starts a document, steps of the
/// stack give exactly its events but for the beginnings and ends of its stream and its document, and comments only
/// where they are asked for, behind what was looked at.
pub fn an_include_comes_through<'input, A, B, C, R>()
where
    A: StackedParser<'input>,
    B: StackedParser<'input>,
    C: StackedParser<'input>,
    R: Resolver<'input>,
    ensures { IncludeComesThrough
        ⟦<AnyKind<A, B, C, ReplayParser<'input>> as StackedParser<'input>>⟧.steps
        (record {
          offset_of = ⟦<AnyKind<A, B, C, ReplayParser<'input>> as StackedParser<'input>>⟧.offset_of;
          sets_offset = ⟦<AnyKind<A, B, C, ReplayParser<'input>> as StackedParser<'input>>⟧.sets_offset;
          offset_over = ⟦<AnyKind<A, B, C, ReplayParser<'input>> as StackedParser<'input>>⟧.offset_over;
          again = Fourth;
          answers = R.answers;
          errors = R.errors;
        }) }
{
    ids_are_counted();
    ids_begin_at_the_offset();
    a_text_with_one_start_is_one_document();
    a_replay_comes_through::<A, B, C>();
}

/// A parser over one of three kinds of inputs, or events that are given once more.
pub(crate) type AnyParser<'input, X, Y, Z> = AnyKind<
    Parser<'input, X>,
    Parser<'input, Y>,
    Parser<'input, Z>,
    ReplayParser<'input>,
>;

/// Whatever was called of a stack since it held no parser, as long as it hasn't ended and isn't seen to end: each id of
/// a text that is then read to be included above a parser is greater than all ids of events that the stack gave before
/// or shows. The calls are `next_event`, `peek`, `push_include`, pushes of parsers of which nothing was read and of
/// events that are given once more, and such as leave the parsers as they were; whatever they answer.
pub fn includes_are_new<'input, X, Y, Z, R>()
where
    X: BorrowedInput<'input>,
    Y: BorrowedInput<'input>,
    Z: BorrowedInput<'input>,
    R: Resolver<'input>,
    ensures { IncludesAreNew
        ⟦<AnyParser<'input, X, Y, Z> as StackedParser<'input>>⟧.steps
        (record {
          offset_of = ⟦<AnyParser<'input, X, Y, Z> as StackedParser<'input>>⟧.offset_of;
          sets_offset = ⟦<AnyParser<'input, X, Y, Z> as StackedParser<'input>>⟧.sets_offset;
          offset_over = ⟦<AnyParser<'input, X, Y, Z> as StackedParser<'input>>⟧.offset_over;
          again = Fourth;
          answers = R.answers;
          errors = R.errors;
        })
        (UnreadAny (IsUnread X.unread) (IsUnread Y.unread) (IsUnread Z.unread) IsNumbered) }
{
    ids_are_counted();
    ids_begin_at_the_offset();
}
