//! What a reader keeps of the lexemes before a place.

use granit_base::Marker;

/// The two kinds of brackets (YAML 1.2.2, 7.4).
#[derive(Clone, Copy, Debug, PartialEq, Eq)]
pub enum Bracket {
    /// `[` and `]`.
    Square,
    /// `{` and `}`.
    Curly,
}

/// What the last lexeme lets the next one be.
#[derive(Clone, Copy, Debug, PartialEq, Eq)]
pub enum LastLexeme {
    /// It was an opener, or a `,` in flow.
    Opener,
    /// It was a `-`, outside flow.
    BehindDash,
    /// It was a `?`, outside flow.
    BehindQuestion,
    /// It was a `:` without a key, outside flow.
    BehindBareColon,
    /// Where indentation is strict: it was a property behind `?`.
    BehindProperty,
    /// It was a closer with no comment behind it, or a quoted scalar with none in the gap behind it.
    Adjacent,
    /// It was another one.
    Another,
}

/// A simple key that is still possible (YAML 1.2.2, 7.4.2 and 8.2.2).
#[derive(Clone, Copy, Debug)]
pub struct PossibleKey {
    /// How many lexemes stand before its first one.
    pub number: usize,
    /// Where its first lexeme begins.
    pub start: Marker,
    /// Whether it stands in an open column outside flow.
    pub is_required: bool,
    /// Whether one of its properties, or the first lexeme behind them, stands left of where a node may
    /// stand.
    pub is_low: bool,
    /// Whether it holds properties alone so far.
    pub is_head: bool,
}

/// An open bracket, and the possible key in it.
#[derive(Clone, Copy, Debug)]
pub struct OpenBracket {
    /// Which one.
    pub bracket: Bracket,
    /// Where it stands.
    pub mark: Marker,
    /// The key that is possible in it.
    pub key: Option<PossibleKey>,
}

/// The column of an open block collection.
#[derive(Clone, Copy, Debug, PartialEq, Eq)]
pub struct OpenColumn {
    /// The column, from 0.
    pub column: usize,
    /// Whether its current entry holds a `:` of a block mapping, a `-` before a break or a flow
    /// indicator, or an opener.
    pub is_wide: bool,
}
