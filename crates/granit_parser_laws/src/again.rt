//! Calls of `proceed_next_document` that tell of a document one behind another come to an end.
ghost use Rattle.std.specs.Prelude.{◌≡◌, ◌⊎◌, ◌+◌, ◌*◌, ◌≤◌, ℕ, suc, Bool, true, false, is_some, None};
ghost use Rattle.granit_parser.specs.Recovering.{ComesOnward};
ghost use Rattle.granit_parser.specs.Recovering.{state_left};
ghost use Rattle.granit_cursor.specs.Reading.{Reading};
ghost use Rattle.granit_error.specs.OptionsData.{OptionsData};
ghost use Rattle.granit_lexemes.specs.Here.{Here, text_len};
ghost use Rattle.granit_parser.specs.Parsing.{Parsing};
ghost use Rattle.granit_parser.specs.Recovering.{ParserIn, StopsIn};
ghost use Rattle.granit_parser_laws.specs.Again.{NumberMetBehind, NumberMet, ProceedingChain, ProceedsBehind};
ghost use Rattle.granit_parser_laws.specs.Again.{TellsAgain, ToldIn};
ghost use Rattle.granit_recovery.specs.Streams.{ReachedByCalls, calls_from};
ghost use Rattle.granit_restart.specs.Calls.{Calls};
ghost use Rattle.granit_restart.specs.Skipping.{Stops};
ghost use Rattle.granit_led.specs.Stopping.{FitBehind, looked_at};

use granit_calls::an_open_call_gives_something;
use granit_input::BorrowedInput;

/// Where calls led and recovery wasn't refused, the places at which refused reads stopped, as `proceed_next_document`
/// tells them, are what the laws on recovery ask for, whether the next event was looked at or not.
pub fn stops_of_calls_fit<'input, T: BorrowedInput<'input>>()
    ensures { (p : Parsing _) (cursor : Reading _) (stops : Stops) (c : Calls) → ParserIn T.unread p c
        → StopsIn T.unread cursor p.stepper.scanner.options stops c → c.refusal ≡ None
        → FitBehind ComesOnward p.stepper.scanner.options stops
        (looked_at p.stepper.scanner.options (is_some p.peeked) c) }
{}

/// Wherever calls led, a call of `proceed_next_document` that answers true leads where recovery told of a document
/// (`told`), and where it told of one before, less is left than there (`less`), whether events were taken between the
/// two or not: `while parser.proceed_next_document()? {}` takes none. They may give anything but the error of the
/// source. So it is unless an anchor on the way would get the greatest number, which asks that a number was ever set.
/// What these calls say are clauses of their contracts.
pub fn each_call_that_tells_leaves_less<'input, T: BorrowedInput<'input>>()
    ensures told { (old new : Parsing _) (c : Calls) → ReachedByCalls old.stepper.scanner.options c
        → ParserIn T.unread old c → ProceedsBehind T.unread T.origin old new
        → ((d : Calls) × ToldIn T.unread new d)
        ⊎ NumberMetBehind old.stepper.renumbered old.stepper.scanner.options c }
    ensures less { (old new : Parsing _) (c : Calls) → ToldIn T.unread old c
        → ProceedsBehind T.unread T.origin old new
        → TellsAgain T.unread new c ⊎ NumberMetBehind old.stepper.renumbered old.stepper.scanner.options c }
{
    an_open_call_gives_something();
}

/// An anchor on the way gets the greatest number only where a number was ever set.
pub fn numbers_are_met_where_one_was_set<'input, T: BorrowedInput<'input>>()
    ensures behind { (renumbered : Bool) (o : OptionsData) (c : Calls) → NumberMetBehind renumbered o c
        → renumbered ≡ true }
    ensures met { (p : Parsing _) (c : Calls) → NumberMet T.unread T.origin p c → p.stepper.renumbered ≡ true }
{}

/// So no more calls one behind another tell of a document than is left where recovery told of one (`left`, unless an
/// anchor on the way would get the greatest number). From the start of a text on they are no more than nine for each of
/// its characters, and twelve, where no number was set.
pub fn no_more_calls_tell_than_are_left<'input, T: BorrowedInput<'input>>()
    ensures left { (n : ℕ) (old new : Parsing _) (c : Calls) → ToldIn T.unread old c
        → ProceedingChain T.unread T.origin n old new
        → ((d : Calls) × ToldIn T.unread new d × (n + state_left d.steps ≤ state_left c.steps))
        ⊎ NumberMet T.unread T.origin old c }
    ensures start { (n : ℕ) (h : Here) (old new : Parsing _) → ParserIn T.unread old (calls_from h)
        → old.stepper.renumbered ≡ false → ProceedingChain T.unread T.origin n old new → n ≤ 9 * text_len h + 12 }
{
    an_open_call_gives_something();
}

/// And recovery comes to an end, wherever calls led: no sequence of calls of `proceed_next_document` that all answer
/// true goes on for ever, whether events are taken between them or not, where no number was ever set (`ends`);
/// where one was, an anchor on the way would get the greatest number (`met`).
pub fn calls_of_recovery_come_to_an_end<'input, T: BorrowedInput<'input>>()
    ensures ends { (f : ℕ → Parsing _) (c : Calls) → ReachedByCalls (f 0).stepper.scanner.options c
        → ParserIn T.unread (f 0) c → (f 0).stepper.renumbered ≡ false
        → ((n : ℕ) → ProceedsBehind T.unread T.origin (f n) (f (suc n))) → ⊥ }
    ensures met { (f : ℕ → Parsing _) (c : Calls) → ReachedByCalls (f 0).stepper.scanner.options c
        → ParserIn T.unread (f 0) c → ((n : ℕ) → ProceedsBehind T.unread T.origin (f n) (f (suc n)))
        → NumberMet T.unread T.origin (f 0) c }
{
    an_open_call_gives_something();
}
