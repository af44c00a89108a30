//! The open columns of the reader are the columns of the parser's block collections.
ghost use Rattle.std.specs.Prelude.{◌≡◌, ℕ, List, [], ◌∷◌, ◌++◌, None, Ok, codes, true};
ghost use Rattle.granit_base.specs.Place.{Mark};
ghost use Rattle.granit_error.specs.OptionsData.{OptionsData, default_options};
ghost use Rattle.granit_language.specs.OpenColumns.{columns_of};
ghost use Rattle.granit_language.specs.Reached.{Reached};
ghost use Rattle.granit_language.specs.Scope.{no_scope};
ghost use Rattle.granit_language.specs.Seen.{lexemes_flagged};
ghost use Rattle.granit_language.specs.Telling.{indent_told};
ghost use Rattle.granit_lexemes.specs.Here.{start_of};
ghost use Rattle.granit_lexemes.specs.Lexeme.{Item};
ghost use Rattle.granit_lexemes.specs.PlainEvent.{PlainEvent};
ghost use Rattle.granit_machine.specs.Frames.{ParserState, parser_start};
ghost use Rattle.granit_machine.specs.Lexing.{flagged, flagging};
ghost use Rattle.granit_machine.specs.Machine.{feed_all};
ghost use Rattle.granit_machine.specs.ReaderState.{ReaderState, reader_start};
ghost use Rattle.granit_frame_columns.specs.ColumnTexts.{all_columns_agree};
ghost use Rattle.granit_order.specs.FrameColumns.{block_columns, due_along, flagged_before, with_due};

/// Where the items of a text up to a place are fed with the flags that they have in the whole, the parser's block
/// collections stand in the open columns that the reader keeps there, innermost first; sequences in the column of their
/// mapping aside (8.2.3), and with the column of a simple key that is due in front, unless it is open already.
pub fn open_columns_are_frames()
    ensures flags { (front back : List Item) → flagged (front ++ back)
        ≡ flagged_before front (flagging back).1 ++ flagged back }
    ensures columns { (o : OptionsData) (x : List ℕ) (front back : List Item) (s t : ReaderState)
        → Reached o (reader_start (start_of x)) (front ++ back) t → Reached o (reader_start (start_of x)) front s
        → Reached o s back t →
        (m : Mark) (gs : List PlainEvent) (p : ParserState)
        → feed_all o (flagged_before front (flagging back).1) (parser_start m) ≡ Ok (gs, p) →
        block_columns p.frames ≡ with_due (indent_told
        (due_along (lexemes_flagged (flagged_before front (flagging back).1)) no_scope [] None))
        (columns_of s.laid) }
{}

/// These texts show it behind each read: block collections in one another, in the column of their mapping, behind `?`
/// and keyless `:`, keys of several lexemes, flow collections, properties, documents, and texts that are refused.
pub fn texts_have_their_columns_as_frames()
    ensures { all_columns_agree default_options
        (codes "" ∷ codes "a" ∷ codes "a: b\nc: d\n" ∷ codes "- a\n- b\n" ∷ codes "- - a\n  - b\n- c: d\n  e: f\n"
        ∷ codes "a:\n- b\n- c\nd:\n  - e\n" ∷ codes "a:\n- b: c\n  d:\n  - e\n  -\nf: g\n" ∷ codes "? a\n: b\n? c\n"
        ∷ codes "? a: b\n  c: d\n: e: f\n  g:\n  - h\n" ∷ codes "- ? a\n  : - b\n- : c\n"
        ∷ codes "? - a\n  - b\n: - c\n" ∷ codes "?\n- a\n:\n- b\nc: d\n" ∷ codes ": a\n: b\n" ∷ codes "? a\n? b\n"
        ∷ codes "[a]: b\n[c, d]: e\n" ∷ codes "{a: b, c: [d, e], f, : g}: h\n" ∷ codes "- [a, {b: c}]: d\n  e: f\n"
        ∷ codes "&a !!b c: &d e\n&f g: h\n" ∷ codes "&a\nb: c\n" ∷ codes "k: !a\n- b\n- &c\n  d: e\n"
        ∷ codes "\"a\": 'b'\n" ∷ codes "a: |\n  b\nc: >-\n  d\ne:\n  f: g\n"
        ∷ codes "--- a\n...\n%YAML 1.2\n---\n- b: c\n--- # d\ne:\n  f: g\n"
        ∷ codes "# a\n- b # c\n# d\n-\n  # e\n  f: g\n" ∷ codes "a: {b: c,\n d: [e,\n f]}\ng: h\n"
        ∷ codes "a:\n  b:\n    c: d\n  e:\n  - f\ng:\n" ∷ codes "a:\n    b:\n      c\n    d: e\n  f: g\n"
        ∷ codes "- a:\n  - b\n  c: d\n -e\n" ∷ codes "a: b: c\n" ∷ codes "- a\nb: c\n" ∷ codes "a\n- b\n"
        ∷ codes "a: *b\n" ∷ codes "a: - b\n" ∷ codes "-\n-\n  - a\n  -\n- b\n" ∷ []) ≡ true }
{}
