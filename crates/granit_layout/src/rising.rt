//! What is known of the possible keys in the open brackets, so that few brackets have to be looked at.
ghost use Rattle.std.specs.Prelude.{◌≡◌, []};
ghost use Rattle.granit_error.specs.OptionsView.{options_of};
ghost use Rattle.granit_layout.specs.Rising as rising;

use granit_base::Marker;
use granit_error::Options;
use granit_lexemes::PossibleKey;

/// The possible keys in brackets, from the outermost bracket on. They rise as long as each that is set begins no
/// earlier than those around it, as a reader's do.
#[derive(Clone, Copy)]
pub(crate) struct KeyOrder {
    /// So many of the outermost brackets hold no key.
    pub(crate) first: usize,
    /// Whether each key begins no earlier than those in the brackets around.
    pub(crate) rises: bool,
    /// No key begins with a later lexeme than that of this number.
    pub(crate) number: usize,
    /// No key begins behind this index.
    pub(crate) index: usize,
    /// No key begins with an earlier lexeme than that of this number.
    pub(crate) least: usize,
    /// No key begins before this index.
    pub(crate) start: usize,
}

impl KeyOrder {
    /// Of no brackets.
    pub(crate) fn new() -> KeyOrder
        ensures { rising.Rising result [] }
    {
        KeyOrder {
            first: usize::MAX,
            rises: true,
            number: 0,
            index: 0,
            least: usize::MAX,
            start: usize::MAX,
        }
    }

    /// Another key comes into the innermost bracket.
    pub(crate) fn set_key(
        &mut self,
        innermost: usize,
        old: &Option<PossibleKey>,
        new: &Option<PossibleKey>,
    )
        ensures { self.new ≡ rising.with_key innermost old.now new.now self.old }
    {
        match new {
            None => {}
            Some(new) => self.set_new(innermost, old, new),
        }
    }

    fn set_new(&mut self, innermost: usize, old: &Option<PossibleKey>, new: &PossibleKey)
        ensures { self.new ≡ rising.with_new innermost old.now new.now self.old }
    {
        self.rises = self.rises && (is_behind(self.number, self.index, new) || goes_on(old, new));
        self.first = self.first.min(innermost);
        self.number = self.number.max(new.number);
        self.index = self.index.max(new.start.index());
        self.least = self.least.min(new.number);
        self.start = self.start.min(new.start.index());
    }

    /// No bracket but so many of the outermost ones holds a key.
    pub(crate) fn end_at(&mut self, depth: usize)
        ensures { self.new ≡ rising.ended_at depth self.old }
    {
        if depth <= self.first {
            self.first = usize::MAX;
            self.least = usize::MAX;
            self.start = usize::MAX;
        }
    }

    /// The outermost key, where there is one, is this one from now on, and keys rise.
    pub(crate) fn begin_at(&mut self, key: &Option<PossibleKey>)
        ensures { self.new ≡ rising.begun_at key.now self.old }
    {
        match key {
            None => {}
            Some(key) => {
                self.least = key.number;
                self.start = key.start.index();
            }
        }
    }

    /// Whether no key can begin too far before a mark, since none begins before `start`.
    #[inline(always)]
    pub(crate) fn is_near(&self, options: &Options, mark: &Marker) -> bool
        ensures { result ≡ rising.is_near (options_of options.now) mark.now self.now }
    {
        mark.index().saturating_sub(self.start) <= options.simple_key_max_lookahead
    }
}

/// Whether a key is behind a lexeme of a number and an index.
fn is_behind(number: usize, index: usize, key: &PossibleKey) -> bool
    ensures { result ≡ rising.is_behind number index key.now }
{
    number <= key.number && index <= key.start.index()
}

/// Whether a key stands in the place of one that it is not before.
fn goes_on(old: &Option<PossibleKey>, new: &PossibleKey) -> bool
    ensures { result ≡ rising.key_not_before old.now new.now }
{
    match old {
        None => false,
        Some(old) => is_behind(old.number, old.start.index(), new),
    }
}
