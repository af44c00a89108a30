//! What a lexeme is to the frames.
ghost use Rattle.std.specs.Prelude.{◌≡◌, Some};
ghost use Rattle.granit_error.specs.Kinds.{kind_of};
ghost use Rattle.granit_sorts.specs.SortViews.{sort_view, token_view, machine_token};
ghost use Rattle.granit_items.specs.ItemViews.{lexeme_view};
ghost use Rattle.granit_lexemes.specs.Outcome.{fault_at};
ghost use Rattle.granit_lexemes.specs.PlainEvent.{plain_span};
ghost use Rattle.granit_machine.specs.TokenSort as spec;

use granit_base::Span;
use granit_error::{ErrorKind, ScanError};
use granit_items::{Lexeme, LexemeKind};
use granit_lexemes::Bracket;

/// What a lexeme is to the frames.
#[derive(Clone, Copy, Debug, PartialEq, Eq)]
pub enum TokenSort {
    /// A node's lexeme that begins a simple key.
    BeginsKey,
    /// Another lexeme of a node.
    BeginsNode,
    /// `-`.
    DashToken,
    /// `?`.
    QuestionToken,
    /// A `:` without a key.
    BareColon,
    /// A `:` with a key.
    KeyedColon,
    /// `,`.
    CommaToken,
    /// `]`.
    SequenceCloser,
    /// `}`.
    MappingCloser,
    /// A document mark, a directive or the end.
    OfStream,
}

/// A lexeme, and what it is to the frames.
#[derive(Drop)]
pub struct Token<'input> {
    /// The lexeme.
    pub lexeme: Box<Lexeme<'input>>,
    /// What it is to the frames.
    pub sort: TokenSort,
}

impl<'input> Token<'input> {
    /// A fault where it stands.
    pub fn misplaced(&self, kind: ErrorKind) -> ScanError
        ensures { result ≡ fault_at (kind_of kind) self.now.lexeme.value.shown_start }
    {
        ScanError::from_kind(self.lexeme.shown_start, kind)
    }

    /// The span that it bears.
    pub fn span(&self) -> Span
        ensures { result ≡ plain_span self.now.lexeme.value.shown_start self.now.lexeme.value.shown_end }
    {
        Span::new(self.lexeme.shown_start, self.lexeme.shown_end)
    }

    /// Its column; what is of the stream stands left of every column.
    pub fn column(&self) -> Option<usize>
        ensures { result ≡ spec.token_column (machine_token self.now) }
    {
        token_column(&self.lexeme, self.sort)
    }

    /// Whether it stands in that column.
    pub fn is_in_column(&self, column: usize) -> bool
        ensures { result ≡ spec.is_in_column (spec.token_column (machine_token self.now)) column }
    {
        is_in_column(self.column(), column)
    }

    /// Whether it stands right of that column.
    pub fn is_right_of(&self, column: usize) -> bool
        ensures { result ≡ spec.is_right_of (spec.token_column (machine_token self.now)) (Some column) }
    {
        is_right_of(self.column(), Some(column))
    }
}

/// What a lexeme is to the frames; whether a simple key begins with it is told.
pub fn token_sort(begins_key: bool, lexeme: &Lexeme<'_>) -> TokenSort
    ensures { sort_view result ≡ (spec.token_of begins_key (lexeme_view lexeme.now)).sort }
{
    match &lexeme.kind {
        LexemeKind::Colon => colon_sort(lexeme),
        LexemeKind::Dash => TokenSort::DashToken,
        LexemeKind::Question => TokenSort::QuestionToken,
        LexemeKind::Comma => TokenSort::CommaToken,
        LexemeKind::Close(Bracket::Square) => TokenSort::SequenceCloser,
        LexemeKind::Close(Bracket::Curly) => TokenSort::MappingCloser,
        LexemeKind::Open(_) => node_sort(begins_key),
        LexemeKind::Alias(_) => node_sort(begins_key),
        LexemeKind::Anchor(_) => node_sort(begins_key),
        LexemeKind::Tag(_, _) => node_sort(begins_key),
        LexemeKind::Scalar(_, _) => node_sort(begins_key),
        LexemeKind::Version(_, _) => TokenSort::OfStream,
        LexemeKind::TagPrefix(_, _) => TokenSort::OfStream,
        LexemeKind::Reserved(_, _) => TokenSort::OfStream,
        LexemeKind::DocumentStart => TokenSort::OfStream,
        LexemeKind::DocumentEnd => TokenSort::OfStream,
        LexemeKind::StreamEnd => TokenSort::OfStream,
    }
}

fn colon_sort(lexeme: &Lexeme<'_>) -> TokenSort
    ensures { sort_view result ≡ spec.colon_sort (lexeme_view lexeme.now).key }
{
    match &lexeme.key {
        None => TokenSort::BareColon,
        Some(_) => TokenSort::KeyedColon,
    }
}

fn node_sort(begins_key: bool) -> TokenSort
    ensures { sort_view result ≡ spec.node_sort begins_key }
{
    if begins_key {
        TokenSort::BeginsKey
    } else {
        TokenSort::BeginsNode
    }
}

impl TokenSort {
    /// Whether it may begin a node outside flow.
    pub fn begins_node(self) -> bool
        ensures { result ≡ spec.begins_node (sort_view self) }
    {
        matches!(
            self,
            TokenSort::BeginsKey
                | TokenSort::BeginsNode
                | TokenSort::DashToken
                | TokenSort::QuestionToken
                | TokenSort::BareColon
        )
    }

    /// Whether it begins an entry of a block mapping.
    pub fn begins_pair(self) -> bool
        ensures { result ≡ spec.begins_pair (sort_view self) }
    {
        matches!(
            self,
            TokenSort::BeginsKey | TokenSort::QuestionToken | TokenSort::BareColon
        )
    }

    /// Whether it is `-`.
    pub fn is_dash(self) -> bool
        ensures { result ≡ spec.is_dash_token (sort_view self) }
    {
        matches!(self, TokenSort::DashToken)
    }

    /// Whether it is a `:` without a key.
    pub fn is_bare_colon(self) -> bool
        ensures { result ≡ spec.is_bare_colon (sort_view self) }
    {
        matches!(self, TokenSort::BareColon)
    }

    /// Whether it is a document mark, a directive or the end.
    pub fn is_of_stream(self) -> bool
        ensures { result ≡ spec.is_of_stream (sort_view self) }
    {
        matches!(self, TokenSort::OfStream)
    }

    /// Whether it ends an entry of a flow sequence.
    pub fn ends_entry(self) -> bool
        ensures { result ≡ spec.ends_entry (sort_view self) }
    {
        matches!(self, TokenSort::CommaToken | TokenSort::SequenceCloser)
    }

    /// Whether it begins a simple key.
    pub fn is_key(self) -> bool
        ensures { result ≡ spec.is_key_token (sort_view self) }
    {
        matches!(self, TokenSort::BeginsKey)
    }
}

/// Whether it begins a simple key outside flow.
pub fn is_key_in_block(lexeme: &Lexeme<'_>, sort: TokenSort) -> bool
    ensures { result ≡ spec.is_key_in_block (token_view lexeme.now sort) }
{
    sort.is_key() && !lexeme.in_flow
}

/// Its column; what is of the stream stands left of every column.
pub fn token_column(lexeme: &Lexeme<'_>, sort: TokenSort) -> Option<usize>
    ensures { result ≡ spec.token_column (token_view lexeme.now sort) }
{
    if sort.is_of_stream() {
        None
    } else {
        Some(lexeme.start.col())
    }
}

/// Whether that is its column.
pub fn is_in_column(column: Option<usize>, wanted: usize) -> bool
    ensures { result ≡ spec.is_in_column column wanted }
{
    match column {
        None => false,
        Some(column) => column == wanted,
    }
}

/// Whether a frame's column is right of a token's.
pub fn ends_frame(column: Option<usize>, frame: usize) -> bool
    ensures { result ≡ spec.ends_frame column frame }
{
    match column {
        None => true,
        Some(column) => column < frame,
    }
}

/// Whether a token's column is right of that of the innermost block collection.
pub fn is_right_of(column: Option<usize>, under: Option<usize>) -> bool
    ensures { result ≡ spec.is_right_of column under }
{
    match column {
        None => false,
        Some(column) => match under {
            None => true,
            Some(under) => under < column,
        },
    }
}
