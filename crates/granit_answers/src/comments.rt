//! Where the comments of a text stand among the other events of its answer.
ghost use Rattle.std.specs.Prelude.{◌≡◌, ◌∷◌, ◌++◌, ℕ, Bool, List, [], Ok, Some, true};
ghost use Rattle.granit_answers.specs.CommentStands.{CommentStands};
ghost use Rattle.granit_error.specs.OptionsData.{OptionsData};
ghost use Rattle.granit_order.specs.Answers.{comment_event};
ghost use Rattle.granit_comment_places.specs.CommentPlaces.{tail_event};
ghost use Rattle.granit_lexemes.specs.Comment.{CommentRead};
ghost use Rattle.granit_lexemes.specs.Here.{start_of};
ghost use Rattle.granit_lexemes.specs.Lexeme.{Dash, Item, Lexeme, OfComment, OfLexeme};
ghost use Rattle.granit_lexemes.specs.PlainEvent.{PlainEvent};
ghost use Rattle.granit_machine.specs.Lexing.{FlaggedItem, flagged, lex};
ghost use Rattle.granit_machine.specs.Machine.{run};
ghost use Rattle.granit_machine.specs.Parser.{next_line, placed};
ghost use Rattle.granit_machine.specs.Reader.{LexState};

/// Each comment of a text that comments are asked of has its event where the events before the open place end that
/// the lexemes up to it leave: a comment on a line of its own or behind a lexeme. It may stand behind the empty node
/// of a `-` or a `:`, and one behind a `-` in front of the start of the sequence in the column of its mapping. Behind
/// it stand the comments of the items behind it.
pub fn every_comment_of_a_text_stands_in_its_place()
    ensures lines { (o : OptionsData) (x : List ℕ) (items : List Item) (t : LexState) →
        lex o (start_of x) ≡ Ok (items, t) →
        (front back : List FlaggedItem) (c : CommentRead) (b : Bool) (es : List PlainEvent) → o.emit_comments ≡ true →
        run o x ≡ Ok es → flagged items ≡ front ++ (record { item = OfComment c; begins_key = b } ∷ back) →
        CommentStands o front back ⊥ (comment_event c (placed c (next_line back))) es }
    ensures tails { (o : OptionsData) (x : List ℕ) (items : List Item) (t : LexState) →
        lex o (start_of x) ≡ Ok (items, t) →
        (front back : List FlaggedItem) (l : Lexeme) (b : Bool) (c : CommentRead) (es : List PlainEvent) →
        o.emit_comments ≡ true → run o x ≡ Ok es → l.tail ≡ Some c →
        flagged items ≡ front ++ (record { item = OfLexeme l; begins_key = b } ∷ back) →
        CommentStands o (front ++ (record { item = OfLexeme l; begins_key = b } ∷ [])) back (l.kind ≡ Dash)
        (tail_event l.kind c (next_line back)) es }
{}
