//! How white space is skipped, and what was found in it.
ghost use Rattle.std.specs.Prelude.{◌≡◌};
ghost use Rattle.granit_runs.specs.White.{is_skipped, found_more};

/// Whether tabs are skipped beside spaces.
#[derive(Clone, Copy, PartialEq, Eq)]
pub enum SkipTabs {
    /// Tabs and spaces are skipped.
    Yes,
    /// Spaces alone are skipped.
    No,
}

impl SkipTabs {
    /// Whether a character is skipped.
    pub fn skips(self, c: char) -> bool
        ensures { result ≡ is_skipped self c }
    {
        match self {
            SkipTabs::Yes => c == ' ' || c == '\t',
            SkipTabs::No => c == ' ',
        }
    }
}

/// What was skipped in front of the end of a line. The characters of a comment don't count.
#[derive(Clone, Copy, Debug, PartialEq, Eq)]
pub struct WhitespaceResult {
    found_tabs: bool,
    has_valid_yaml_ws: bool,
}

impl WhitespaceResult {
    /// What these two say.
    pub fn new(found_tabs: bool, has_valid_yaml_ws: bool) -> WhitespaceResult
        ensures { result ≡ record { found_tabs = found_tabs; has_valid_yaml_ws = has_valid_yaml_ws } }
    {
        WhitespaceResult {
            found_tabs,
            has_valid_yaml_ws,
        }
    }

    /// Whether a tab was skipped.
    pub fn found_tabs(self) -> bool
        ensures { result ≡ self.found_tabs }
    {
        self.found_tabs
    }

    /// Whether a space was skipped.
    pub fn has_valid_yaml_ws(self) -> bool
        ensures { result ≡ self.has_valid_yaml_ws }
    {
        self.has_valid_yaml_ws
    }

    /// The same with one character more.
    pub fn with(self, c: char) -> WhitespaceResult
        ensures { result ≡ found_more self c }
    {
        WhitespaceResult {
            found_tabs: self.found_tabs || c == '\t',
            has_valid_yaml_ws: self.has_valid_yaml_ws || c == ' ',
        }
    }
}
