//! The tokens that are written of a text's items are the text's.
ghost use Rattle.std.specs.Prelude.{◌≡◌, ℕ, [], List, map, Ok};
ghost use Rattle.granit_error.specs.OptionsData.{OptionsData};
ghost use Rattle.granit_lexemes.specs.Here.{start_of};
ghost use Rattle.granit_machine.specs.Reader.{LexState};
ghost use Rattle.granit_scan.specs.Following.{following_start};
ghost use Rattle.granit_scan.specs.TokenViews.{shown_tokens};
ghost use Rattle.granit_scan.specs.TokensTold.{written};
ghost use Rattle.granit_steps.specs.Flags.{flags};
ghost use Rattle.granit_steps.specs.Tokens.{StateItem, item_in, lex_states, tokens};

/// What is written of the items of a text, by the flags that their numbers give, are its tokens.
pub fn written_tokens_are_the_texts()
    ensures { (o : OptionsData) (text : List ℕ) (xs : List StateItem) (t : LexState)
        → lex_states o (start_of text) ≡ Ok (xs, t)
        → written (flags (map item_in xs)) following_start ≡ shown_tokens (tokens [] xs) }
{}
