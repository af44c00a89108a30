//! What a reader gives: lexemes with their tails, and comments.
ghost use Rattle.std.specs.Prelude.{◌≡◌, None, IfOk, IsOk};
ghost use Rattle.std.specs.Option.{option_map};
ghost use Rattle.granit_items.specs.ItemViews.{boxed_view, kind_view};
ghost use Rattle.granit_lexemes.specs.Lexeme as lexemes;

use granit_base::{Marker, NoMemory, ScalarStyle, Text, TextList};
use granit_lexemes::Bracket;
use std::alloc::Global;

/// What a lexeme is, with its value.
#[derive(Drop)]
pub enum LexemeKind<'input> {
    /// The directive `%YAML`, by the numbers before and behind the dot (YAML 1.2.2, 6.8.1).
    Version(u32, u32),
    /// The directive `%TAG`, by its handle and what that stands for (YAML 1.2.2, 6.8.2).
    TagPrefix(Text<'input>, Text<'input>),
    /// A directive of another name, with its parameters (YAML 1.2.2, 6.8).
    Reserved(Text<'input>, TextList),
    /// `---` (YAML 1.2.2, 9.1.2).
    DocumentStart,
    /// `...` (YAML 1.2.2, 9.1.2).
    DocumentEnd,
    /// The end of the text.
    StreamEnd,
    /// `[` or `{` (YAML 1.2.2, 7.4).
    Open(Bracket),
    /// `]` or `}` (YAML 1.2.2, 7.4).
    Close(Bracket),
    /// `,` (YAML 1.2.2, 7.4).
    Comma,
    /// `-` (YAML 1.2.2, 8.2.1).
    Dash,
    /// `?` (YAML 1.2.2, 8.2.2).
    Question,
    /// `:` (YAML 1.2.2, 8.2.2).
    Colon,
    /// `*` and a name (YAML 1.2.2, 7.1).
    Alias(Text<'input>),
    /// `&` and a name (YAML 1.2.2, 6.9.2).
    Anchor(Text<'input>),
    /// A tag by its handle and what follows that (YAML 1.2.2, 6.9.1).
    Tag(Text<'input>, Text<'input>),
    /// A scalar by how it is written, and its value (YAML 1.2.2, 7.3 and 8.1).
    Scalar(ScalarStyle, Text<'input>),
}

/// Whether a lexeme is a directive.
pub fn is_directive(kind: &LexemeKind<'_>) -> bool
    ensures { result ≡ lexemes.is_directive (kind_view kind.now) }
{
    matches!(
        kind,
        LexemeKind::Version(_, _) | LexemeKind::TagPrefix(_, _) | LexemeKind::Reserved(_, _)
    )
}

/// A comment (YAML 1.2.2, 6.6).
#[derive(Drop)]
pub struct Note<'input> {
    /// What follows its `#`, up to the break.
    pub text: Text<'input>,
    /// Where it begins with its `#`.
    pub start: Marker,
    /// Where its line ends.
    pub end: Marker,
    /// Whether something else than blanks and prefix marks stands before it on its line.
    pub is_right: bool,
}

/// Where the simple key of a `:` begins, and the number of its first lexeme.
#[derive(Clone, Copy, Debug)]
pub struct KeyStart {
    /// How many lexemes stand before its first one.
    pub number: usize,
    /// The place of its first character.
    pub start: Marker,
}

/// A lexeme with its tail.
#[derive(Drop)]
pub struct Lexeme<'input> {
    /// How many lexemes stand before it.
    pub number: usize,
    /// What it is.
    pub kind: LexemeKind<'input>,
    /// The place of its first character.
    pub start: Marker,
    /// Where the span that its token bears begins.
    pub shown_start: Marker,
    /// Where the span that its token bears ends.
    pub shown_end: Marker,
    /// The place behind its tail.
    pub end: Marker,
    /// The column of a block scalar's content.
    pub indent: Option<usize>,
    /// Whether it stands inside brackets, or opens or closes some inside others.
    pub in_flow: bool,
    /// Whether only blanks and prefix marks stand before it on its line.
    pub begins_line: bool,
    /// Whether it directly follows a `-`, `?` or keyless `:` outside flow.
    pub follows_indicator: bool,
    /// Whether it ends an open column.
    pub ends_column: bool,
    /// Of a `:`, the simple key before it.
    pub key: Option<KeyStart>,
    /// The comment behind it on its line, where comments are asked for; few have one, so it stands apart.
    pub tail: Option<Box<Note<'input>>>,
}

impl<'input> Lexeme<'input> {
    /// Room for a lexeme, which is written into it.
    pub fn room() -> Lexeme<'input> {
        let mark = Marker::new(0, 0, 0);
        Lexeme {
            number: 0,
            kind: LexemeKind::Comma,
            start: mark,
            shown_start: mark,
            shown_end: mark,
            end: mark,
            indent: None,
            in_flow: false,
            begins_line: false,
            follows_indicator: false,
            ends_column: false,
            key: None,
            tail: None,
        }
    }
}

/// What one read gives: a lexeme, a comment, a quoted scalar and the comment in the gap behind it, or nothing where
/// a comment isn't asked for.
#[derive(Drop)]
pub struct Found<'input> {
    /// Whether a lexeme was read.
    pub filled: bool,
    /// The lexeme, or room for one.
    pub lexeme: Box<Lexeme<'input>>,
    /// The comment, which stands behind the lexeme.
    pub note: Option<Box<Note<'input>>>,
}

/// An equal comment.
fn clone_note<'input>(alloc: Global, note: &Note<'input>) -> Result<Note<'input>, NoMemory>
    ensures { IfOk result (λ n. n ≡ note.now) }
{
    Ok(Note {
        text: note.text.try_clone(alloc)?,
        start: note.start,
        end: note.end,
        is_right: note.is_right,
    })
}

/// The comment behind a lexeme once more.
///
/// # Errors
///
/// `NoMemory` alone.
pub fn clone_tail<'input>(
    alloc: Global,
    tail: &Option<Box<Note<'input>>>,
) -> Result<Option<Box<Note<'input>>>, NoMemory>
    ensures value { IfOk result (λ t. option_map boxed_view t ≡ option_map boxed_view tail.now) }
    ensures none { tail.now ≡ None → IsOk result }
{
    match tail {
        None => Ok(None),
        Some(note) => Ok(Some(Box::new(alloc, clone_note(alloc, note)?)?)),
    }
}

/// A lexeme with its tail, or a comment that is no lexeme's tail.
#[derive(Drop)]
pub enum Item<'input> {
    /// A lexeme.
    Lexeme(Box<Lexeme<'input>>),
    /// A comment.
    Note(Box<Note<'input>>),
}
