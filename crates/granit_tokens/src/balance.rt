//! The starts and ends among a scanner's tokens balance.
ghost use Rattle.std.specs.Prelude.{◌≡◌, ℕ, ◌≤◌, List, ◌++◌, None, Ok};
ghost use Rattle.granit_error.specs.OptionsData.{OptionsData};
ghost use Rattle.granit_lexemes.specs.Here.{start_of};
ghost use Rattle.granit_lexemes.specs.PlainEvent.{PlainEvent};
ghost use Rattle.granit_machine.specs.Machine.{run};
ghost use Rattle.granit_machine.specs.Reader.{LexState};
ghost use Rattle.granit_steps.specs.Tokens.{ScanToken, text_tokens};
ghost use Rattle.granit_tokens.specs.Balanced.{Balanced, BeginsBalanced, block_ends, block_starts};
ghost use Rattle.granit_tokens.specs.Keys.{key_signs, keyed_values};

/// Each text has tokens, as far as reading goes.
pub fn every_text_has_tokens()
    ensures { (o : OptionsData) (x : List ℕ) → (ts : List ScanToken) × (t : LexState)
        × (text_tokens o (start_of x) ≡ Ok (ts, t)) }
{}

/// Where a text is read up to its end, as one that is answered is, its tokens balance: each start of a block
/// collection, of a bracket and of a single pair has its end, and what stands between the two balances too.
pub fn tokens_of_texts_balance()
    ensures whole { (o : OptionsData) (x : List ℕ) (ts : List ScanToken) (t : LexState)
        → text_tokens o (start_of x) ≡ Ok (ts, t) → t.fault ≡ None → Balanced ts }
    ensures answered { (o : OptionsData) (x : List ℕ) (es : List PlainEvent) → run o x ≡ Ok es
        → (ts : List ScanToken) × (t : LexState) × (text_tokens o (start_of x) ≡ Ok (ts, t)) × Balanced ts }
{}

/// Up to any place in the tokens of any text they balance but for starts that have no end yet.
pub fn each_end_has_its_start()
    ensures { (o : OptionsData) (x : List ℕ) (ts : List ScanToken) (t : LexState)
        → text_tokens o (start_of x) ≡ Ok (ts, t) → (front back : List ScanToken) → ts ≡ front ++ back
        → BeginsBalanced front }
{}

/// Up to any place no more block collections end than have started, and up to the end of a text as many.
pub fn blocks_end_as_often_as_they_start()
    ensures fronts { (o : OptionsData) (x : List ℕ) (ts : List ScanToken) (t : LexState)
        → text_tokens o (start_of x) ≡ Ok (ts, t) → (front back : List ScanToken) → ts ≡ front ++ back
        → block_ends front ≤ block_starts front }
    ensures whole { (o : OptionsData) (x : List ℕ) (ts : List ScanToken) (t : LexState)
        → text_tokens o (start_of x) ≡ Ok (ts, t) → t.fault ≡ None → block_ends ts ≡ block_starts ts }
{}

/// Each key that is inserted has its `:`: up to any place no more `:` with keys stand than keys were inserted, and as
/// far as reading goes as many.
pub fn inserted_keys_have_values()
    ensures fronts { (o : OptionsData) (x : List ℕ) (ts : List ScanToken) (t : LexState)
        → text_tokens o (start_of x) ≡ Ok (ts, t) → (front back : List ScanToken) → ts ≡ front ++ back
        → keyed_values front ≤ key_signs front }
    ensures all { (o : OptionsData) (x : List ℕ) (ts : List ScanToken) (t : LexState)
        → text_tokens o (start_of x) ≡ Ok (ts, t) → keyed_values ts ≡ key_signs ts }
{}
