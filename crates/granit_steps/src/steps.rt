//! The calls give what the run gives.
ghost use Rattle.std.specs.Prelude.{◌≡◌, ℕ, List, Option};
ghost use Rattle.granit_error.specs.OptionsData.{OptionsData};
ghost use Rattle.granit_lexemes.specs.Outcome.{Fault};
ghost use Rattle.granit_lexemes.specs.Pieces.{Shortens};
ghost use Rattle.granit_lexemes.specs.PlainEvent.{PlainEvent};
ghost use Rattle.granit_machine.specs.Machine.{run};
ghost use Rattle.granit_steps.specs.Steps.{step_size, step_turn, steps_start};
ghost use Rattle.granit_steps.specs.Told.{GivesEvents, answer, told_of};

/// Each turn of the loop but the last leaves less to read or a shorter queue.
pub fn every_turn_leaves_less()
    ensures { (o : OptionsData) → Shortens step_size (step_turn o) }
{}

/// The calls come to an end: they give the events that are told, and then nothing more or the fault.
pub fn the_steps_give_all()
    ensures { (o : OptionsData) (text : List ℕ)
        → GivesEvents o (steps_start text) (told_of o text).0 (told_of o text).1 }
{}

/// Whatever they give is what is told.
pub fn nothing_else_is_given()
    ensures { (o : OptionsData) (text : List ℕ) (es : List PlainEvent) (f : Option Fault)
        → GivesEvents o (steps_start text) es f → told_of o text ≡ (es, f) }
{}

/// The events that they give are the run's, and so is their fault.
pub fn steps_give_the_run()
    ensures { (o : OptionsData) (text : List ℕ) (es : List PlainEvent) (f : Option Fault)
        → GivesEvents o (steps_start text) es f → run o text ≡ answer (es, f) f }
{}
