//! Items one behind another, of which mostly few wait.
ghost use Rattle.std.specs.Prelude.{◌≡◌, ◌==◌, ◌||◌, true, [], ◌∷◌, ◌++◌, drop, length, map, take, IsOk, OnErr, OnOk};
ghost use Rattle.std.specs.Prelude.{slice_get};
ghost use Rattle.std.specs.Option.{option_copied};
ghost use Rattle.granit_items.specs.ItemViews.{item_view};
ghost use Rattle.granit_queue.specs.QueueViews.{flags_of, is_numbered, queue_view, queued_view};
ghost use Rattle.granit_queue.specs.Rising.{is_before, lexeme_number, Rises};

use crate::queue::Queued;
use granit_base::NoMemory;
use granit_items::Item;
use std::alloc::Global;
use std::collections::VecDeque;
use std::marker::Model;

/// Items, the oldest first.
#[derive(Drop)]
pub(crate) struct Items<'input> {
    /// The oldest, where it came when none waited: outside one-line flow most go before another one comes.
    oldest: Option<Queued<'input>>,
    /// Those behind it.
    behind: VecDeque<Queued<'input>>,
}

impl<'input> Model for Items<'input> {
    ghost use Rattle.std.specs.Prelude.{List};
    ghost use Rattle.granit_queue.specs.QueueViews.{with_oldest};
    ghost use Rattle.granit_queue.specs.declared.queue.Queued.{Queued};

    ghost Value = { List Queued };

    ghost view = { λ q. with_oldest q.oldest q.behind.items };
}

impl<'input> Items<'input> {
    /// None.
    pub(crate) fn new(alloc: Global) -> Items<'input>
        ensures { result ≡ [] }
    {
        Items {
            oldest: None,
            behind: VecDeque::new(alloc),
        }
    }

    /// The one behind so many older ones.
    pub(crate) fn get(&self, older: usize) -> Option<&Queued<'input>>
        ensures { option_copied result ≡ slice_get self.now older }
    {
        match &self.oldest {
            None => self.behind.get(older),
            Some(oldest) => {
                if older == 0 {
                    return Some(oldest);
                }
                self.behind.get(older - 1)
            }
        }
    }

    /// How many they are.
    pub(crate) fn len(&self) -> usize
        ensures { result ≡ length self.now }
    {
        usize::from(self.oldest.is_some()) + self.behind.len()
    }

    /// Whether there is none.
    pub(crate) fn is_empty(&self) -> bool
        ensures { result ≡ (length self.now == 0) }
    {
        self.oldest.is_none() && self.behind.is_empty()
    }

    /// One more comes behind the others.
    ///
    /// # Errors
    ///
    /// `NoMemory` alone, and they are as before.
    #[inline(always)]
    pub(crate) fn push(&mut self, queued: Queued<'input>) -> Result<(), NoMemory>
        ensures pushed { OnOk result (self.new ≡ self.old ++ queued.entry ∷ []) }
        ensures kept { OnErr result (self.new ≡ self.old) }
        ensures memory { self.old ≡ [] → IsOk result }
    {
        if self.is_empty() {
            self.oldest = Some(queued);
            return Ok(());
        }
        if self.behind.len() >= self.behind.capacity() {
            self.behind.reserve(1)?;
        }
        self.behind.push_back_reserved(queued);
        Ok(())
    }

    /// The oldest goes.
    pub(crate) fn pop(&mut self) -> Option<Queued<'input>>
        ensures front { result ≡ slice_get self.old 0 }
        ensures rest { self.new ≡ drop 1 self.old }
    {
        // A place that is empty isn't written.
        if self.oldest.is_none() {
            return self.behind.pop_front();
        }
        self.oldest.take()
    }

    /// No more than the oldest ones stay.
    pub(crate) fn truncate(&mut self, count: usize)
        ensures { self.new ≡ take count self.old }
    {
        match &self.oldest {
            None => self.behind.truncate(count),
            Some(_) => {
                self.behind.truncate(count.saturating_sub(1));
                if count == 0 {
                    self.oldest = None;
                }
            }
        }
    }

    /// Flags the lexeme of a number, which begins a key.
    pub(crate) fn mark(&mut self, rises: bool, number: usize)
        requires rising { rises ≡ true → Rises (queue_view self.old) }
        ensures { queue_view self.new ≡ map (flags_of number) (queue_view self.old) }
    {
        if let Some(oldest) = &mut self.oldest {
            flag(oldest, number);
        }
        if rises {
            mark_newest(&mut self.behind, number);
        } else {
            mark_all(&mut self.behind, number);
        }
    }
}

/// Flags an item, where it is the lexeme of a number.
fn flag(queued: &mut Queued<'_>, number: usize)
    ensures { queued_view queued.new ≡ flags_of number (queued_view queued.old) }
{
    queued.begins_key = either(queued.begins_key, is_number(&queued.item, number));
}

/// Whether an item is the lexeme of a number.
fn is_number(item: &Item<'_>, number: usize) -> bool
    ensures { result ≡ is_numbered number (item_view item.now) }
{
    match item {
        Item::Lexeme(lexeme) => lexeme.number == number,
        Item::Note(_) => false,
    }
}

fn mark_all(items: &mut VecDeque<Queued<'_>>, number: usize)
    ensures { queue_view items.new.items ≡ map (flags_of number) (queue_view items.old.items) }
{
    'items: for i in 0..items.len() {
        items[i].begins_key = either(items[i].begins_key, is_number(&items[i].item, number));
    }
}

/// The same where numbers rise: those before an earlier lexeme are not asked.
fn mark_newest(items: &mut VecDeque<Queued<'_>>, number: usize)
    requires rising { Rises (queue_view items.old.items) }
    ensures { queue_view items.new.items ≡ map (flags_of number) (queue_view items.old.items) }
{
    let mut newer = items.len();
    'items: while newer > 0 {
        let i = newer - 1;
        if flag_or_before(&mut items[i], number) {
            return;
        }
        newer = i;
    }
}

/// Flags an item, where it is the lexeme of a number; whether it is an earlier one.
#[inline(always)]
fn flag_or_before(queued: &mut Queued<'_>, number: usize) -> bool
    ensures flag { queued_view queued.new ≡ flags_of number (queued_view queued.old) }
    ensures before { result ≡ is_before number (lexeme_number (item_view queued.old.item)) }
{
    match &queued.item {
        Item::Lexeme(lexeme) => {
            if lexeme.number == number {
                queued.begins_key = true;
                return false;
            }
            lexeme.number < number
        }
        Item::Note(_) => false,
    }
}

fn either(a: bool, b: bool) -> bool
    ensures { result ≡ (a || b) }
{
    a || b
}
