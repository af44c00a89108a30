//! The scanner's tokens are the lexemes in order, with what is inserted between them.
ghost use Rattle.std.specs.Prelude.{◌≡◌, Bool, List};
ghost use Rattle.granit_error.specs.OptionsData.{OptionsData};
ghost use Rattle.granit_lexemes.specs.Here.{Here};
ghost use Rattle.granit_machine.specs.Lexing.{lex};
ghost use Rattle.granit_steps.specs.Tokens.{StateItem, items_of_states, items_written, lex_states, owns, tokens};

/// Without the inserted tokens the lexemes and comments are left, in order.
pub fn tokens_are_the_lexemes()
    ensures { (pairs : List Bool) (xs : List StateItem) → owns (tokens pairs xs) ≡ items_written xs }
{}

/// The items that tokens are made of are those that are read of the text.
pub fn tokens_are_of_all_items()
    ensures { (o : OptionsData) (h : Here) → items_of_states (lex_states o h) ≡ lex o h }
{}
