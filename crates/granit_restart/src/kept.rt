//! What a scanner keeps behind a refused read.
ghost use Rattle.std.specs.Prelude.{◌≡◌};
ghost use Rattle.granit_error.specs.OptionsData.{OptionsData};
ghost use Rattle.granit_lexemes.specs.Here.{Here};
ghost use Rattle.granit_machine.specs.Machine.{settled};
ghost use Rattle.granit_restart.specs.Restart.{read_boundary};
ghost use Rattle.granit_restart.specs.Turned.{Turned};
ghost use Rattle.granit_steps.specs.Steps.{StepState};

/// Among the items that may go behind a refused read stands the same boundary as among all that wait.
pub fn what_may_go_holds_the_boundary()
    ensures { (o : OptionsData) (h : Here) (s : StepState) → Turned o s
        → read_boundary h s.queue ≡ read_boundary h (settled s.reading.reader.laid s.queue) }
{}
