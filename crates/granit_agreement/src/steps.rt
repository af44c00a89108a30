//! One lexeme.
ghost use Rattle.std.specs.Prelude.{◌≡◌, Bool, true, nat_le};
ghost use Rattle.granit_error.specs.OptionsData.{OptionsData};
ghost use Rattle.granit_lexemes.specs.Lexeme.{Lexeme};
ghost use Rattle.granit_language.specs.Scope.{Scope};
ghost use Rattle.granit_event_machine.specs.EventMachine.{EventState};
ghost use Rattle.granit_event_machine.specs.Guarded.{state_count};
ghost use Rattle.granit_views.specs.Closed.{Closed};
ghost use Rattle.granit_views.specs.Fair.{Fair};
ghost use Rattle.granit_views.specs.Good.{Good};
ghost use Rattle.granit_views.specs.Running.{Knows, StepsAlike};
ghost use Rattle.granit_views.specs.View.{Beside};
ghost use Rattle.granit_language.specs.Seen.{terminal_of};

/// What the parser ends before a lexeme is a part of what the grammar's machine ends, event by event, and what is left
/// ends no more.
pub fn what_a_lexeme_ends()
    ensures { (b : Bool) (s : Scope) (l : Lexeme) (o : OptionsData) (st : EventState) (d : Beside) → Good st
        → Fair (terminal_of b s l) st → Closed b s l o st d }
{}

/// Each step: the parser gives the events of the grammar's machine and comes to the same state, with what then stands
/// declared, or both refuse the lexeme, with one kind and mark.
pub fn every_step_agrees()
    ensures { (b : Bool) (s : Scope) (l : Lexeme) (o : OptionsData) (st : EventState) (d : Beside) → Good st
        → Fair (terminal_of b s l) st → Knows o st s d → nat_le (state_count st) o.block_nesting_limit ≡ true
        → StepsAlike b s l o st d }
{}
