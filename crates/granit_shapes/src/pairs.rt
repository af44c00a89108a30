//! Mappings in pairs: what stands in a mapping are keys and values in turn.
ghost use Rattle.std.specs.Prelude.{◌≡◌, ℕ, List, [], Ok};
ghost use Rattle.granit_error.specs.OptionsData.{OptionsData};
ghost use Rattle.granit_language.specs.Node.{Stream};
ghost use Rattle.granit_language.specs.Telling.{events_told};
ghost use Rattle.granit_language.specs.TreeEvents.{stream_events};
ghost use Rattle.granit_lexemes.specs.PlainEvent.{PlainEvent};
ghost use Rattle.granit_machine.specs.Machine.{run};
ghost use Rattle.granit_shapes.specs.EvenNodes.{AreNodes};
ghost use Rattle.granit_shapes.specs.Turns.{InPairs};

/// Between the start and the end of a mapping stand an even number of nodes, where keys and values take turns.
pub fn mappings_hold_pairs()
    ensures { (es : List PlainEvent) → InPairs es → AreNodes es }
{}

/// In the events of each stream of trees keys and values take turns.
pub fn trees_tell_pairs()
    ensures { (o : OptionsData) (s : Stream) → InPairs (events_told o (stream_events s [])) }
{}

/// Whatever a text is answered with, keys and values take turns in it: in each mapping stand an even number of nodes.
pub fn answers_hold_pairs()
    ensures turns { (o : OptionsData) (x : List ℕ) (es : List PlainEvent) → run o x ≡ Ok es → InPairs es }
    ensures nodes { (o : OptionsData) (x : List ℕ) (es : List PlainEvent) → run o x ≡ Ok es → AreNodes es }
{}
