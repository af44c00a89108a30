//! The loops of the plain machine come to an end by themselves.
ghost use Rattle.granit_error.specs.OptionsData.{OptionsData};
ghost use Rattle.granit_lexemes.specs.Pieces.{Shortens};
ghost use Rattle.granit_machine.specs.Reader.{lex_len, lex_turn};
ghost use Rattle.granit_machine.specs.TokenSort.{Token};
ghost use Rattle.granit_machine.specs.Closing.{close_turn, depth};

/// Each read takes a character or is the last one, and so lexing goes to the end or to a fault.
pub fn every_read_takes_a_character()
    ensures { (o : OptionsData) → Shortens lex_len (lex_turn o) }
{}

/// Each turn of closing ends an unfinished node.
pub fn every_closing_ends_a_node()
    ensures { (o : OptionsData) (t : Token) → Shortens depth (close_turn o t) }
{}
