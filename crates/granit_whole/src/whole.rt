//! The same with what stands declared and with the limit of open block collections.
ghost use Rattle.std.specs.Prelude.{◌≡◌, ◌⊎◌, List, [], ◌∷◌, ◌++◌};
ghost use Rattle.granit_error.specs.OptionsData.{OptionsData};
ghost use Rattle.granit_event_machine.specs.EventMachine.{Events, Faulty, Unfinished};
ghost use Rattle.granit_event_machine.specs.Guarded.{whole_run};
ghost use Rattle.granit_language.specs.GrammarFault.{GrammarFault};
ghost use Rattle.granit_language.specs.Terminal.{At, TheEnd, Terminal, terminal};
ghost use Rattle.granit_language.specs.TreeEvents.{TreeEvent};
ghost use Rattle.granit_language.specs.Whole.{Viable, WholeReading, WholeFault};

/// Events are those of the one placed stream of the lexemes, which keeps the limit and in which all means something.
pub fn every_answer_is_a_reading()
    ensures { (o : OptionsData) (xs : List Terminal) (es : List TreeEvent) → whole_run o xs ≡ Events es
        → WholeReading o xs es }
{}

/// The events of such a stream are the answer.
pub fn every_reading_is_answered()
    ensures { (o : OptionsData) (xs : List Terminal) (es : List TreeEvent) → WholeReading o xs es
        → whole_run o xs ≡ Events es }
{}

/// A fault has its cause: a reading begins with the lexemes before it, and none goes on with it, because of the
/// grammar, of the limit, or because it means nothing. Lexemes that the end follows have one answer or the other.
pub fn every_fault_has_its_cause()
    ensures cause { (o : OptionsData) (xs : List Terminal) (k : GrammarFault) (x : Terminal)
        → whole_run o xs ≡ Faulty k x → WholeFault o xs k x }
    ensures ends { (o : OptionsData) (xs : List Terminal) (i : At)
        → whole_run o (xs ++ (terminal TheEnd i ∷ [])) ≡ Unfinished → ⊥ }
{}

/// A cause is the answer, so there is one at most, and where there is one no reading begins with the lexemes; where
/// there is none, one does.
pub fn every_cause_is_answered()
    ensures answered { (o : OptionsData) (xs : List Terminal) (k : GrammarFault) (x : Terminal) → WholeFault o xs k x
        → whole_run o xs ≡ Faulty k x }
    ensures one { (o : OptionsData) (xs : List Terminal) (k j : GrammarFault) (x y : Terminal) → WholeFault o xs k x
        → WholeFault o xs j y → (k ≡ j) × (x ≡ y) }
    ensures blocks { (o : OptionsData) (xs : List Terminal) (k : GrammarFault) (x : Terminal) → WholeFault o xs k x
        → Viable o xs → ⊥ }
    ensures either { (o : OptionsData) (xs : List Terminal)
        → Viable o xs ⊎ ((k : GrammarFault) × (x : Terminal) × WholeFault o xs k x) }
{}
