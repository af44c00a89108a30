//! How nodes and comments stand in the text.

/// How a scalar is written (YAML 1.2.2, 7.3 and 8.1).
#[derive(Clone, Copy, Debug, PartialEq, Eq, PartialOrd, Ord, Hash)]
pub enum ScalarStyle {
    Plain,
    SingleQuoted,
    DoubleQuoted,
    Literal,
    Folded,
}

/// How a collection is written (YAML 1.2.2, 7.4 and 8.2).
#[derive(Clone, Copy, Debug, PartialEq, Eq, PartialOrd, Ord, Hash)]
pub enum StructureStyle {
    Block,
    Flow,
}

/// Where a comment stands among what it may speak of.
#[derive(Clone, Copy, Debug, Default, PartialEq, Eq, Hash)]
pub enum Placement {
    /// On the line before what follows.
    Above,
    /// Behind something on its line.
    Right,
    /// Anywhere else.
    #[default]
    Free,
    /// Before the end of the stream.
    Last,
}
