//! Ids of anchors aren't given again behind recovery.
ghost use Rattle.std.specs.Prelude.{◌≡◌, ◌<◌, ◌≤◌, ℕ, suc, Bool, List, Option, Some, Ok};
ghost use Rattle.granit_error.specs.OptionsData.{OptionsData};
ghost use Rattle.granit_lexemes.specs.Here.{Here};
ghost use Rattle.granit_lexemes.specs.Outcome.{Fault};
ghost use Rattle.granit_lexemes.specs.PlainEvent.{PlainEvent};
ghost use Rattle.granit_restart.specs.Calls.{Calls, next_call};
ghost use Rattle.granit_ids.specs.Ids.{Counted, id_of, id_told, IdsFrom, NeverSetBack, counting_from};
ghost use Rattle.granit_restart.specs.Recovery.{recover, anchor_offset};
ghost use Rattle.granit_restart.specs.Skipping.{Stops};
ghost use Rattle.granit_recovery.specs.Streams.{CallsGive, ReachedByCalls};
ghost use Rattle.granit_steps.specs.Steps.{StepState, next_event};
ghost use Rattle.granit_steps.specs.Told.{GivesEvents};

/// The offset, which is the next id, never falls, where it was never set back.
pub fn the_offset_never_falls()
    ensures calls { (o : OptionsData) (c : Calls) (r : ReachedByCalls o c) → NeverSetBack r
        → anchor_offset c ≤ anchor_offset (next_call o c).1 }
    ensures recoveries { (o : OptionsData) (stops : Stops) (looked : Bool) (c : Calls) (r : ReachedByCalls o c)
        → NeverSetBack r → anchor_offset c ≤ anchor_offset (recover o stops looked c).1 }
{}

/// Each id that is given is below the offset behind it, where that was never set back.
pub fn ids_are_below_the_offset()
    ensures { (o : OptionsData) (c d : Calls) (e : PlainEvent) (r : ReachedByCalls o c) → NeverSetBack r
        → next_call o c ≡ (Some (Ok e), d) → id_of e.kind < anchor_offset d }
{}

/// Behind recovery from a fault ids are greater than all before: no less than the offset was.
pub fn ids_go_on_behind_a_fault()
    ensures { (o : OptionsData) (stops : Stops) (looked follows : Bool) (c d after : Calls) (f : Fault)
        (es : List PlainEvent) → c.fault ≡ Some f → recover o stops looked c ≡ (Ok follows, d) → CallsGive o d es after
        → IdsFrom (anchor_offset c) es }
{}

/// Ids are no less than the number that a machine begins with: one more than its count.
pub fn ids_begin_at_the_offset()
    ensures { (o : OptionsData) (h : Here) (count : ℕ) (es : List PlainEvent) (f : Option Fault)
        → GivesEvents o (counting_from count h) es f → IdsFrom (suc count) es }
{}

/// A step gives no id above the count that it leaves, which is no less than before.
pub fn ids_are_counted()
    ensures { (o : OptionsData) (m after : StepState) (r : Option PlainEvent) → Counted o m
        → next_event o m ≡ Ok (r, after)
        → (m.parser.count ≤ after.parser.count) × (id_told r ≤ after.parser.count) }
{}
