//! What stands around a lexeme.
ghost use Rattle.std.specs.Prelude.{◌≡◌};
ghost use Rattle.granit_lexemes.specs.LayoutData as layout;

/// What a reader of lexemes has to know of what stands around it. Columns count from 0.
#[derive(Clone, Copy, Debug, PartialEq, Eq)]
pub struct Layout {
    /// The column of the innermost open block collection, where one is open.
    pub block_column: Option<usize>,
    /// A tab left of this column may not indent a line of a quoted scalar.
    pub tab_column: usize,
    /// Whether a flow collection is open.
    pub in_flow: bool,
    /// Whether lines in flow must be indented as well.
    pub strict: bool,
    /// Whether comments are asked for.
    pub comments: bool,
}

impl Layout {
    /// Whether a column is left of where a node may stand.
    pub fn is_left(&self, column: usize) -> bool
        ensures { result ≡ layout.is_left self.now.block_column column }
    {
        match self.block_column {
            None => false,
            Some(n) => column <= n,
        }
    }
}
