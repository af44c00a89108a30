//! Where comments stand among events, and how each is placed.
ghost use Rattle.granit_base.specs.declared.style.Placement.{Placement};
ghost use Rattle.granit_error.specs.OptionsData.{OptionsData};
ghost use Rattle.granit_comment_room.specs.RefusedRows.{comment_event};
ghost use Rattle.granit_comment_places.specs.CommentPlaces.{StandsAmong, tail_event};
ghost use Rattle.granit_comment_places.specs.Placements.{PlacedAs};
ghost use Rattle.granit_lexemes.specs.Comment.{CommentRead};
ghost use Rattle.granit_lexemes.specs.Lexeme.{Dash, Lexeme, OfComment, OfLexeme};
ghost use Rattle.granit_lexemes.specs.PlainEvent.{PlainEvent};
ghost use Rattle.granit_machine.specs.Frames.{ParserState};
ghost use Rattle.granit_machine.specs.Lexing.{FlaggedItem};
ghost use Rattle.granit_machine.specs.Machine.{feed_all};
ghost use Rattle.granit_machine.specs.Parser.{next_line, placed};
ghost use Rattle.std.specs.Prelude.{◌++◌, ◌∷◌, ◌≡◌, [], Bool, List, None, Ok, Some};

/// Where a comment is placed is what the items behind it say, and they say one placement.
pub fn each_comment_is_placed_as_declared()
    ensures placed { (c : CommentRead) (rest : List FlaggedItem) → PlacedAs c rest (placed c (next_line rest)) }
    ensures one { (c : CommentRead) (rest : List FlaggedItem) (a b : Placement) → PlacedAs c rest a →
        PlacedAs c rest b → a ≡ b }
{}

/// Each comment's event stands behind the events that the items up to it give without their comments, and in front of
/// those of the comments behind it. Where a node waits that stays empty, it may stand behind the empty node; one
/// behind a `-` on its line may stand in front of the start of the sequence in the column of its mapping.
pub fn each_comment_stands_behind_what_is_before_it()
    ensures lines { (o : OptionsData) (p : ParserState) (front back : List FlaggedItem) (c : CommentRead) (b : Bool)
        (es : List PlainEvent) (q : ParserState) → p.waiting ≡ None → p.given ≡ [] →
        feed_all o (front ++ (record { item = OfComment c; begins_key = b } ∷ back)) p ≡ Ok (es, q) →
        q.waiting ≡ None →
        StandsAmong o p ⊥ front back (comment_event c (placed c (next_line back))) es }
    ensures tails { (o : OptionsData) (p : ParserState) (front back : List FlaggedItem) (l : Lexeme) (b : Bool)
        (c : CommentRead) (es : List PlainEvent) (q : ParserState) → p.waiting ≡ None → p.given ≡ [] → l.tail ≡ Some c →
        feed_all o (front ++ (record { item = OfLexeme l; begins_key = b } ∷ back)) p ≡ Ok (es, q) →
        q.waiting ≡ None →
        StandsAmong o p (l.kind ≡ Dash) (front ++ (record { item = OfLexeme l; begins_key = b } ∷ [])) back
        (tail_event l.kind c (next_line back)) es }
{}
