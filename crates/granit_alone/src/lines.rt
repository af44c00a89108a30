//! Lines count from 1 wherever calls and recoveries lead.
ghost use Rattle.std.specs.Prelude.{◌≤◌, Bool};
ghost use Rattle.granit_alone.specs.Lines.{ComesOnward, CountsAt, LinesCount};
ghost use Rattle.granit_error.specs.OptionsData.{OptionsData};
ghost use Rattle.granit_recovery.specs.Streams.{EarlyOf};
ghost use Rattle.granit_restart.specs.Calls.{Calls, next_call};
ghost use Rattle.granit_restart.specs.Recovery.{recover};
ghost use Rattle.granit_restart.specs.Skipping.{Stops};
ghost use Rattle.granit_led.specs.Stopping.{FaultFits, FitBehind, looked_at};
ghost use Rattle.granit_steps.specs.Steps.{StepState};

/// Where they count so, they do behind each call, each turn that is made early, and each recovery for which refused
/// reads stopped where they count so.
pub fn lines_count_from_one()
    ensures call { (o : OptionsData) (c : Calls) → LinesCount c → LinesCount (next_call o c).1 }
    ensures early { (o : OptionsData) (c : Calls) (t : StepState) → EarlyOf o c.steps t → LinesCount c
        → LinesCount (record c { steps = t }) }
    ensures recovery { (o : OptionsData) (stops : Stops) (looked : Bool) (c : Calls)
        → FitBehind CountsAt o stops (looked_at o looked c) → LinesCount c → LinesCount (recover o stops looked c).1 }
{}

/// They count so wherever reading may have come to, behind a fault too.
pub fn refused_reads_stop_where_lines_count()
    ensures stops { (o : OptionsData) (stops : Stops) (c : Calls) → FitBehind ComesOnward o stops c → LinesCount c
        → FitBehind CountsAt o stops c }
    ensures fault { (o : OptionsData) (stops : Stops) (s : StepState) → FaultFits ComesOnward o stops s
        → 1 ≤ s.reading.reader.here.place.line → FaultFits CountsAt o stops s }
{}
