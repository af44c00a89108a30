//! What is known of the numbers of the lexemes that wait.
ghost use Rattle.std.specs.Prelude.{◌≡◌, [], Some};
ghost use Rattle.granit_items.specs.ItemViews.{item_view};
ghost use Rattle.granit_queue.specs.Rising as rising;

use granit_items::Item;

/// Numbers of lexemes, which rise as long as none comes behind a later one, as a reader's do.
#[derive(Clone, Copy)]
pub(crate) struct Numbers {
    /// Whether they rise.
    pub(crate) rises: bool,
    /// None is above this one.
    pub(crate) last: usize,
}

impl Numbers {
    /// Of no lexemes.
    pub(crate) fn new() -> Numbers
        ensures { rising.NumbersRise result [] }
    {
        Numbers {
            rises: true,
            last: 0,
        }
    }

    /// One more item comes behind the others.
    pub(crate) fn push(&mut self, item: &Item<'_>)
        ensures { self.new ≡ rising.with_one_waiting (rising.lexeme_number (item_view item.now)) self.old }
    {
        match item {
            Item::Lexeme(lexeme) => self.push_number(lexeme.number),
            Item::Note(_) => {}
        }
    }

    fn push_number(&mut self, number: usize)
        ensures { self.new ≡ rising.with_one_waiting (Some number) self.old }
    {
        self.rises = self.rises && self.last <= number;
        self.last = self.last.max(number);
    }
}
