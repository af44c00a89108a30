//! The calls give all tokens of a text.
ghost use Rattle.std.specs.Prelude.{◌≡◌, ℕ, List, Option};
ghost use Rattle.granit_error.specs.OptionsData.{OptionsData};
ghost use Rattle.granit_lexemes.specs.Here.{start_of};
ghost use Rattle.granit_lexemes.specs.Outcome.{Fault};
ghost use Rattle.granit_lexemes.specs.Pieces.{Shortens};
ghost use Rattle.granit_scan.specs.TokenSteps.{token_size, token_turn, tokens_start};
ghost use Rattle.granit_scan.specs.TokenViews.{PlainToken};
ghost use Rattle.granit_scan.specs.TokensTold.{GivesTokens, tokens_told};

/// Each turn of the loop but the last leaves less to read or a shorter queue.
pub fn every_turn_leaves_less()
    ensures { (o : OptionsData) → Shortens token_size (token_turn o) }
{}

/// The calls come to an end: they give the text's tokens, and then nothing more or the fault.
pub fn the_calls_give_all_tokens()
    ensures { (o : OptionsData) (text : List ℕ) → GivesTokens o (tokens_start text)
        (tokens_told o (start_of text)).0 (tokens_told o (start_of text)).1 }
{}

/// Whatever they give are the text's tokens.
pub fn no_other_token_is_given()
    ensures { (o : OptionsData) (text : List ℕ) (ts : List PlainToken) (f : Option Fault)
        → GivesTokens o (tokens_start text) ts f → tokens_told o (start_of text) ≡ (ts, f) }
{}
