//! Comments change nothing else.
ghost use Rattle.granit_error.specs.FaultKind.{TooManyComments};
ghost use Rattle.granit_error.specs.OptionsData.{OptionsData};
ghost use Rattle.granit_quiet.specs.CommentEvents.{comment_events, held_of, only_comments};
ghost use Rattle.granit_quiet.specs.Quiet.{asking, but_comments, quiet};
ghost use Rattle.granit_language.specs.Reached.{ReadWhole};
ghost use Rattle.granit_lexemes.specs.Comment.{CommentRead};
ghost use Rattle.granit_lexemes.specs.Here.{Here};
ghost use Rattle.granit_lexemes.specs.Lexeme.{Item, OfComment};
ghost use Rattle.granit_lexemes.specs.Outcome.{Fault};
ghost use Rattle.granit_lexemes.specs.PlainEvent.{PlainEvent};
ghost use Rattle.granit_machine.specs.Frames.{ParserState};
ghost use Rattle.granit_machine.specs.Lexing.{FlaggedItem, flagged, lex};
ghost use Rattle.granit_machine.specs.Machine.{asked_items, feed_all, run_from};
ghost use Rattle.granit_machine.specs.Parser.{feed, placed};
ghost use Rattle.granit_machine.specs.ReaderState.{ReaderState, reader_start};
ghost use Rattle.std.specs.Prelude.{◌++◌, ◌≡◌, ◌⊎◌, [], Bool, Err, List, Ok, Option, false, true, ℕ};

/// What is read doesn't depend on whether comments are asked for.
pub fn reading_asks_for_no_comments()
    ensures { (b : Bool) (o : OptionsData) (h : Here) → lex (asking b o) h ≡ lex o h }
{}

/// A comment gives no event but comments, and leaves the parser's state as it was, but for the comments that
/// are held and how many may still come. It is refused only where too many are held.
pub fn a_comment_changes_nothing_else()
    ensures given { (o : OptionsData) (c : CommentRead) (b : Bool) (next : Option ℕ) (p q : ParserState)
        (es : List PlainEvent) → p.given ≡ [] → feed o (record { item = OfComment c; begins_key = b }) next p
        ≡ Ok (es, q) → (but_comments es ≡ []) × (quiet o q ≡ quiet o p) }
    ensures refused { (o : OptionsData) (c : CommentRead) (b : Bool) (next : Option ℕ) (p : ParserState)
        (f : Fault) → p.given ≡ [] → feed o (record { item = OfComment c; begins_key = b }) next p ≡ Err f →
        f.kind ≡ TooManyComments }
{}

/// Items are fed without their comments and tails as with them, but for the events of comments: from the
/// state without held comments to such a state. A fault is the same, unless it is one of too many comments.
pub fn items_are_fed_alike_without_comments()
    ensures given { (o : OptionsData) (items : List FlaggedItem) (p q : ParserState) (es : List PlainEvent) →
        p.given ≡ [] → feed_all o items p ≡ Ok (es, q) →
        feed_all o (asked_items false items) (quiet o p) ≡ Ok (but_comments es, quiet o q) }
    ensures refused { (o : OptionsData) (items : List FlaggedItem) (p : ParserState) (f : Fault) →
        p.given ≡ [] → feed_all o items p ≡ Err f →
        (f.kind ≡ TooManyComments) ⊎ (feed_all o (asked_items false items) (quiet o p) ≡ Err f) }
{}

/// A run that isn't asked for comments gives the events of one that is, but for the comments, all spans the
/// same; and it is refused for the same cause, unless too many comments were held. Where it is answered, so is the
/// one that is asked, or too many were held.
pub fn comments_change_nothing_else()
    ensures given { (o : OptionsData) (h : Here) (es : List PlainEvent) →
        run_from (asking true o) h ≡ Ok es → run_from (asking false o) h ≡ Ok (but_comments es) }
    ensures refused { (o : OptionsData) (h : Here) (f : Fault) →
        run_from (asking true o) h ≡ Err f →
        (f.kind ≡ TooManyComments) ⊎ (run_from (asking false o) h ≡ Err f) }
    ensures unasked { (o : OptionsData) (h : Here) (es : List PlainEvent) →
        run_from (asking false o) h ≡ Ok es →
        ((ds : List PlainEvent) × (run_from (asking true o) h ≡ Ok ds) × (but_comments ds ≡ es))
        ⊎ ((f : Fault) × (run_from (asking true o) h ≡ Err f) × (f.kind ≡ TooManyComments)) }
{}

/// A run that isn't asked for comments tells none.
pub fn no_comment_is_told_unasked()
    ensures { (o : OptionsData) (h : Here) (es : List PlainEvent) →
        run_from (asking false o) h ≡ Ok es → but_comments es ≡ es }
{}

/// The comments among the events of items are those of the items, in order, each with its span and placed by the token
/// behind it; those that are held at the beginning stand before them, and those that are still held at the end are
/// left.
pub fn comments_are_told_in_order()
    ensures { (o : OptionsData) (items : List FlaggedItem) (p q : ParserState) (es : List PlainEvent) →
        p.given ≡ [] → feed_all o items p ≡ Ok (es, q) →
        only_comments es ++ only_comments (held_of q.waiting)
        ≡ only_comments (held_of p.waiting) ++ comment_events items }
{}

/// An answer that comments are asked for tells exactly those of the text's items, in order, each with its span and
/// placed by the token behind it.
pub fn the_comments_of_a_text_are_told()
    ensures { (o : OptionsData) (h : Here) (es : List PlainEvent) →
        run_from (asking true o) h ≡ Ok es →
        (items : List Item) × (s : ReaderState) × ReadWhole o (reader_start h) items true s
        × (only_comments es ≡ comment_events (flagged items)) }
{}
