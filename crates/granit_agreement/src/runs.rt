//! Whole lists of lexemes, each with whether a simple key begins with it.
ghost use Rattle.std.specs.Prelude.{◌≡◌, List, [], ◌∷◌, ◌++◌, map, Ok, Err, Some};
ghost use Rattle.granit_base.specs.Place.{Mark};
ghost use Rattle.granit_error.specs.OptionsData.{OptionsData};
ghost use Rattle.granit_lexemes.specs.Outcome.{Fault};
ghost use Rattle.granit_lexemes.specs.PlainEvent.{PlainEvent, StreamStart, event_on};
ghost use Rattle.granit_language.specs.Awaiting.{AwaitsNode};
ghost use Rattle.granit_language.specs.GrammarFault.{GrammarFault, fault_of};
ghost use Rattle.granit_language.specs.OpenPlace.{OpenPlace};
ghost use Rattle.granit_language.specs.OpenTold.{ToldBefore};
ghost use Rattle.granit_language.specs.Scope.{no_scope};
ghost use Rattle.granit_language.specs.Scoping.{scoped};
ghost use Rattle.granit_language.specs.Terminal.{At, TheEnd, Terminal, terminal, text_start};
ghost use Rattle.granit_language.specs.TreeEvents.{TreeEvent};
ghost use Rattle.granit_language.specs.Whole.{WholeReading, WholeFault};
ghost use Rattle.granit_event_machine.specs.EventMachine.{IsFresh};
ghost use Rattle.granit_event_machine.specs.Guarded.{guarded, whole_guard};
ghost use Rattle.granit_machine.specs.Frames.{ParserState, Waiting, parser_start};
ghost use Rattle.granit_machine.specs.Machine.{feed_all};
ghost use Rattle.granit_views.specs.Running.{FairRun, GivesTold, ParsedAs, RunView};
ghost use Rattle.granit_views.specs.View.{item_of};
ghost use Rattle.granit_language.specs.Seen.{Flagged, terminal_seen};

/// Fed with lexemes that are fair to it, the parser gives the events of the grammar's machine, or the fault of the
/// lexeme that it refuses.
pub fn every_run_agrees()
    ensures { (o : OptionsData) (m : Mark) (fs : List Flagged) → FairRun fs no_scope IsFresh →
        RunView o (feed_all o (map item_of fs) (parser_start m))
        (guarded (whole_guard o) (scoped no_scope (map terminal_seen fs)) IsFresh) }
{}

/// So the events that it gives for lexemes with their end are those of their one reading, its fault has its cause, and
/// the events of a reading are given.
pub fn what_is_parsed_is_a_reading()
    ensures events { (o : OptionsData) (m : Mark) (fs : List Flagged) (ys : List Terminal) (i : At)
        (gs : List PlainEvent) (p : ParserState) → FairRun fs no_scope IsFresh →
        map terminal_seen fs ≡ ys ++ (terminal TheEnd i ∷ []) →
        feed_all o (map item_of fs) (parser_start m) ≡ Ok (gs, p) → ParsedAs o (map terminal_seen fs) gs }
    ensures faults { (o : OptionsData) (m : Mark) (fs : List Flagged) (f : Fault) → FairRun fs no_scope IsFresh →
        feed_all o (map item_of fs) (parser_start m) ≡ Err f → (k : GrammarFault) × (x : Terminal)
        × WholeFault o (map terminal_seen fs) k x × (f ≡ fault_of k x) }
    ensures readings { (o : OptionsData) (m : Mark) (fs : List Flagged) (es : List TreeEvent) →
        FairRun fs no_scope IsFresh → WholeReading o (map terminal_seen fs) es →
        GivesTold o es (feed_all o (map item_of fs) (parser_start m)) }
{}

/// A node waits in the parser exactly where one must come directly behind a `-` or a `:`.
pub fn a_node_waits_behind_an_indicator()
    ensures awaits { (o : OptionsData) (m : Mark) (fs : List Flagged) (gs : List PlainEvent) (p : ParserState)
        (w : Waiting) →
        FairRun fs no_scope IsFresh → feed_all o (map item_of fs) (parser_start m) ≡ Ok (gs, p) → p.waiting ≡ Some w →
        AwaitsNode (scoped no_scope (map terminal_seen fs)) }
    ensures waits { (o : OptionsData) (m : Mark) (fs : List Flagged) (gs : List PlainEvent) (p : ParserState) →
        FairRun fs no_scope IsFresh → feed_all o (map item_of fs) (parser_start m) ≡ Ok (gs, p) →
        AwaitsNode (scoped no_scope (map terminal_seen fs)) → (w : Waiting) × (p.waiting ≡ Some w) }
{}

/// The events that lexemes give, before it is known what comes behind them, are those before the open place that they
/// leave.
pub fn what_is_given_is_before_the_open_place()
    ensures { (o : OptionsData) (m : Mark) (fs : List Flagged) (gs : List PlainEvent) (p : ParserState) →
        FairRun fs no_scope IsFresh → feed_all o (map item_of fs) (parser_start m) ≡ Ok (gs, p) →
        (place : OpenPlace) × ToldBefore o (scoped no_scope (map terminal_seen fs)) place
        (event_on StreamStart text_start ∷ gs) }
{}
