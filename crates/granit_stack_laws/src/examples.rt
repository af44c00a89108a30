//! That what the laws ask for is met: a small text, and a stack in which it is included.
ghost use Rattle.std.specs.Prelude.{◌≡◌, ℕ, false, List, [], ◌∷◌, None, Some, Ok, take};
ghost use Rattle.std.specs.Borrow.{Bor};
ghost use Rattle.std.specs.Str.{chars};
ghost use Rattle.granit_error.specs.OptionsData.{default_options};
ghost use Rattle.granit_layers.specs.Nested.{IsOneDocument};
ghost use Rattle.granit_layers.specs.Passing.{StackRun};
ghost use Rattle.granit_layers.specs.Stacking.{layer_of};
ghost use Rattle.granit_layers.specs.declared.kinds.AnyKind.TheVariants.{Fourth};
ghost use Rattle.granit_lexemes.specs.Here.{Here};
ghost use Rattle.granit_parser.specs.Parsing.{Parsing, StandsAt};
ghost use Rattle.granit_ids.specs.OneDocument.{document_starts};
ghost use Rattle.granit_replay.specs.declared.resolver.Included.TheVariants.{Borrowed};
ghost use Rattle.granit_stack_laws.specs.Examples.{lone, owned_name, running, small_end, small_events, small_layer};
ghost use Rattle.granit_stack_laws.specs.Examples.{small_life, small_replay, small_text};
ghost use Rattle.granit_stack_laws.specs.Fresh.{Happens};
ghost use Rattle.granit_stack.specs.Including.{Includes, ReadsText, replayed};
ghost use Rattle.granit_stack_laws.specs.Life.{IsNumbered, IsUnread, UnreadAny};
ghost use Rattle.granit_steps.specs.Steps.{start_from};

use crate::laws::AnyParser;
use granit_input::BorrowedInput;
use granit_layers::{AnyKind, StackedParser};
use granit_replay::{ReplayParser, Resolver};

/// Of a parser as it is made nothing was read.
pub fn a_new_parser_is_unread<'input, T: BorrowedInput<'input>>()
    ensures { (p : Parsing T) (h : Here) → StandsAt T.unread p (start_from h) → p.peeked ≡ None
        → IsUnread T.unread p }
{}

/// The text has one document, and what is read of it above a parser with the number 2 are its events, of which one
/// starts a document.
pub fn a_small_text_is_read()
    ensures one_document { IsOneDocument false (small_events 2) }
    ensures one_start { document_starts (replayed (small_replay 2)) ≡ 1 }
    ensures read { (text : Bor (List ℕ)) → chars text.now ≡ small_text
        → ReadsText default_options (Some 2) (Borrowed text) (Ok (small_replay 2)) }
{}

/// Where a resolver answers the text, it may be included.
pub fn a_small_text_is_included<'input, A, B, C, R>()
where
    A: StackedParser<'input>,
    B: StackedParser<'input>,
    C: StackedParser<'input>,
    R: Resolver<'input>,
    ensures { (name : List ℕ) (text : Bor (List ℕ)) (r q : R) → chars text.now ≡ small_text
        → R.answers r name (Ok (Borrowed text)) q → R.errors q ≡ R.errors r
        → Includes (record {
          offset_of = ⟦<AnyKind<A, B, C, ReplayParser<'input>> as StackedParser<'input>>⟧.offset_of;
          sets_offset = ⟦<AnyKind<A, B, C, ReplayParser<'input>> as StackedParser<'input>>⟧.sets_offset;
          offset_over = ⟦<AnyKind<A, B, C, ReplayParser<'input>> as StackedParser<'input>>⟧.offset_over;
          again = Fourth;
          answers = R.answers;
          errors = R.errors;
        }) (lone (small_layer 4 2 ∷ []) r) name (Ok tt)
        (lone (layer_of (Fourth (small_replay 2)) (owned_name name) ∷ small_layer 4 2 ∷ []) q) }
{}

/// Behind its inclusion calls of `next_event` may give what comes through of the text, and then what the parser below
/// gives.
pub fn a_small_text_comes_through<'input, A, B, C>()
where
    A: StackedParser<'input>,
    B: StackedParser<'input>,
    C: StackedParser<'input>,
    ensures { (name : List ℕ) → StackRun
        ⟦<AnyKind<A, B, C, ReplayParser<'input>> as StackedParser<'input>>⟧.steps
        ⟦<AnyKind<A, B, C, ReplayParser<'input>> as StackedParser<'input>>⟧.offset_of
        ⟦<AnyKind<A, B, C, ReplayParser<'input>> as StackedParser<'input>>⟧.sets_offset
        (running (layer_of (Fourth (small_replay 2)) (owned_name name) ∷ small_layer 4 2 ∷ [])) small_end
        (running (small_layer 6 3 ∷ [])) }
{}

/// Where a resolver answers the text, a stack may give the first events of the text, include the text in itself, give
/// what comes through of it, and then go on.
pub fn a_stack_includes_a_small_text<'input, X, Y, Z, R>()
where
    X: BorrowedInput<'input>,
    Y: BorrowedInput<'input>,
    Z: BorrowedInput<'input>,
    R: Resolver<'input>,
    ensures before { (r : R) → Happens ⟦<AnyParser<'input, X, Y, Z> as StackedParser<'input>>⟧.steps
        (record {
          offset_of = ⟦<AnyParser<'input, X, Y, Z> as StackedParser<'input>>⟧.offset_of;
          sets_offset = ⟦<AnyParser<'input, X, Y, Z> as StackedParser<'input>>⟧.sets_offset;
          offset_over = ⟦<AnyParser<'input, X, Y, Z> as StackedParser<'input>>⟧.offset_over;
          again = Fourth;
          answers = R.answers;
          errors = R.errors;
        })
        (UnreadAny (IsUnread X.unread) (IsUnread Y.unread) (IsUnread Z.unread) IsNumbered)
        (lone [] r) (take 4 (small_events 1)) (lone (small_layer 4 2 ∷ []) r) }
    ensures life { (name : List ℕ) (text : Bor (List ℕ)) (r q : R) → chars text.now ≡ small_text
        → R.answers r name (Ok (Borrowed text)) q → R.errors q ≡ R.errors r
        → Happens ⟦<AnyParser<'input, X, Y, Z> as StackedParser<'input>>⟧.steps
        (record {
          offset_of = ⟦<AnyParser<'input, X, Y, Z> as StackedParser<'input>>⟧.offset_of;
          sets_offset = ⟦<AnyParser<'input, X, Y, Z> as StackedParser<'input>>⟧.sets_offset;
          offset_over = ⟦<AnyParser<'input, X, Y, Z> as StackedParser<'input>>⟧.offset_over;
          again = Fourth;
          answers = R.answers;
          errors = R.errors;
        })
        (UnreadAny (IsUnread X.unread) (IsUnread Y.unread) (IsUnread Z.unread) IsNumbered)
        (lone [] r) small_life (lone (small_layer 6 3 ∷ []) q) }
{}
