//! Why reading stops: the causes of the reader's refusals, and that they exclude one another.
ghost use Rattle.granit_base.specs.Place.{Mark};
ghost use Rattle.granit_error.specs.FaultKind.{FaultKind};
ghost use Rattle.granit_error.specs.OptionsData.{OptionsData};
ghost use Rattle.granit_language.specs.Reached.{ReadRefused, Reads};
ghost use Rattle.granit_lexemes.specs.Lexeme.{Item};
ghost use Rattle.granit_lexemes.specs.Outcome.{Fault, fault_at};
ghost use Rattle.granit_machine.specs.Machine.{run};
ghost use Rattle.granit_machine.specs.Reader.{read};
ghost use Rattle.granit_machine.specs.ReaderState.{ReaderState};
ghost use Rattle.std.specs.Prelude.{◌≡◌, Err, List, ℕ, []};

/// What a read refuses has its cause at its mark, behind what was read.
pub fn every_refusal_of_the_reader_has_its_cause()
    ensures { (o : OptionsData) (s : ReaderState) (f : Fault) →
        read o s ≡ Err f → ReadRefused o s f.kind f.mark }
{}

/// What has such a cause is refused with exactly that kind at that mark, and the fault names no source.
pub fn every_cause_of_the_reader_is_refused()
    ensures { (o : OptionsData) (s : ReaderState) (kind : FaultKind) (m : Mark) →
        ReadRefused o s kind m → read o s ≡ Err (fault_at kind m) }
{}

/// So at most one kind at one mark has such a cause behind what was read, and no lexeme stands there.
pub fn one_cause_of_the_reader()
    ensures one { (o : OptionsData) (s : ReaderState) (kind other : FaultKind) (m n : Mark) →
        ReadRefused o s kind m → ReadRefused o s other n → (kind ≡ other) × (m ≡ n) }
    ensures none { (o : OptionsData) (s t : ReaderState) (kind : FaultKind) (m : Mark) (items : List Item) →
        ReadRefused o s kind m → Reads o s items t → ⊥ }
{}

/// No fault of the whole plain machine names a source.
pub fn no_fault_names_a_source()
    ensures { (o : OptionsData) (text : List ℕ) (f : Fault) → run o text ≡ Err f → f.sources ≡ [] }
{}
