//! How a text is read.

/// The default options with the fields set that are listed, as
/// `options!(flow_nesting_limit: 7, emit_comments: false)`.
#[macro_export]
macro_rules! options {
    ($($field:ident: $value:expr),* $(,)?) => {
        $crate::Options {
            $($field: $value,)*
            ..<$crate::Options as Default>::default()
        }
    };
}

/// What may be said of how a text is read, and the limits of reading. Its default is what the
/// `options!` macro begins with.
#[derive(Clone, Copy, Debug, PartialEq, Eq)]
pub struct Options {
    /// Whether flow content must stand right of the block around it, as YAML 1.2.2 asks.
    pub strict_indentation: bool,
    /// Whether every directive is refused.
    pub disallow_directives: bool,
    /// Whether an alias of an unknown anchor is an event and not a fault.
    pub emit_unresolved_aliases: bool,
    /// Whether each anchored node is followed by an event that tells the anchor's name.
    pub emit_anchor_events: bool,
    /// Whether comments are events.
    pub emit_comments: bool,
    /// Whether the handles of `%TAG` but `!` and `!!` stay over documents.
    pub keep_tags: bool,
    /// How many comments may wait for the event before them.
    pub max_buffered_comment_events: usize,
    /// How many characters may stand between a simple key's start and its `:`.
    pub simple_key_max_lookahead: usize,
    /// How many flow collections may be open at once.
    pub flow_nesting_limit: usize,
    /// How many block collections may be open at once.
    pub block_nesting_limit: usize,
    /// How many bytes a directive may have.
    pub max_directive_bytes: usize,
    /// How many parameters a reserved directive may have.
    pub max_reserved_directive_params: usize,
}

impl Default for Options {
    ghost use Rattle.std.specs.Prelude.{◌≡◌};
    ghost use Rattle.granit_error.specs.OptionsData.{default_options};
    ghost use Rattle.granit_error.specs.OptionsView.{options_of};

    ghost is_default = { λ o. options_of o ≡ default_options };

    fn default() -> Options {
        Options {
            strict_indentation: false,
            disallow_directives: false,
            emit_unresolved_aliases: false,
            emit_anchor_events: false,
            emit_comments: true,
            keep_tags: false,
            max_buffered_comment_events: 96,
            simple_key_max_lookahead: 1024,
            flow_nesting_limit: 255,
            block_nesting_limit: 255,
            max_directive_bytes: 1024,
            max_reserved_directive_params: 16,
        }
    }
}

impl Options {
    ghost use Rattle.std.specs.Prelude.{◌≡◌};

    /// Says whether comments are events.
    pub fn set_emit_comments(&mut self, emit_comments: bool)
        ensures { self.new ≡ record self.old { emit_comments = emit_comments } }
    {
        self.emit_comments = emit_comments;
    }

    /// Says whether the handles of `%TAG` but `!` and `!!` stay over documents.
    pub fn set_keep_tags(&mut self, keep_tags: bool)
        ensures { self.new ≡ record self.old { keep_tags = keep_tags } }
    {
        self.keep_tags = keep_tags;
    }
}
