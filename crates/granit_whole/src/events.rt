//! The machine that gives events, and what its answers say of trees.
ghost use Rattle.std.specs.Prelude.{◌≡◌, List, [], ◌∷◌, ◌++◌};
ghost use Rattle.granit_event_machine.specs.EventMachine.{run_events, Events, Faulty, Unfinished};
ghost use Rattle.granit_language.specs.Faults.{FaultAt};
ghost use Rattle.granit_language.specs.GrammarFault.{GrammarFault};
ghost use Rattle.granit_language.specs.Node.{Stream};
ghost use Rattle.granit_language.specs.Placed.{StreamPlaced};
ghost use Rattle.granit_language.specs.Terminal.{Terminal, At, terminal, TheEnd};
ghost use Rattle.granit_language.specs.TreeEvents.{TreeEvent, stream_events};
ghost use Rattle.granit_language.specs.Yield.{spell_stream};

/// Events are those of a placed stream that spells the lexemes, and each placed stream is answered by its events.
pub fn every_answer_is_a_stream()
    ensures events { (xs : List Terminal) (es : List TreeEvent) → run_events xs ≡ Events es →
        (s : Stream) × (spell_stream s [] ≡ xs) × StreamPlaced s × (es ≡ stream_events s []) }
    ensures streams { (s : Stream) → StreamPlaced s → run_events (spell_stream s []) ≡ Events (stream_events s []) }
{}

/// A refusal has its cause: some stream begins with the lexemes before the refused one, none goes on with it, and the
/// open place between names the kind. At most one kind and lexeme have a cause, and of lexemes that the end follows a
/// cause is the answer; these have one answer or the other.
pub fn every_refusal_has_its_cause()
    ensures cause { (xs : List Terminal) (k : GrammarFault) (x : Terminal) → run_events xs ≡ Faulty k x
        → FaultAt xs k x }
    ensures one { (xs : List Terminal) (k j : GrammarFault) (x y : Terminal) → FaultAt xs k x → FaultAt xs j y
        → (k ≡ j) × (x ≡ y) }
    ensures answered { (xs : List Terminal) (i : At) (k : GrammarFault) (x : Terminal)
        → FaultAt (xs ++ (terminal TheEnd i ∷ [])) k x →
        run_events (xs ++ (terminal TheEnd i ∷ [])) ≡ Faulty k x }
    ensures ends { (xs : List Terminal) (i : At) → run_events (xs ++ (terminal TheEnd i ∷ [])) ≡ Unfinished → ⊥ }
{}
