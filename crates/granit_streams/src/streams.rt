//! The events of a run are a stream: it begins and ends as one, and all in it closes in order.
ghost use Rattle.std.specs.Prelude.{◌≡◌, ℕ, List, Ok, Option};
ghost use Rattle.granit_error.specs.OptionsData.{OptionsData};
ghost use Rattle.granit_lexemes.specs.Outcome.{Fault};
ghost use Rattle.granit_lexemes.specs.PlainEvent.{PlainEvent};
ghost use Rattle.granit_machine.specs.Machine.{run};
ghost use Rattle.granit_steps.specs.Levels.{BeginsStream, IsStream};
ghost use Rattle.granit_steps.specs.Told.{told_of};

/// The events of a run are a whole stream: StreamStart first, StreamEnd last, one node a document, collections closed
/// in order.
pub fn a_run_is_a_stream()
    ensures { (o : OptionsData) (text : List ℕ) (es : List PlainEvent) → run o text ≡ Ok es → IsStream es }
{}

/// The events told of any text, also of one with a fault, begin such a stream.
pub fn what_is_told_begins_a_stream()
    ensures { (o : OptionsData) (text : List ℕ) → BeginsStream (told_of o text).0 }
{}
