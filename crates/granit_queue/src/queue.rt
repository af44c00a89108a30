//! Items that were read and not yet taken.
ghost use Rattle.std.specs.Prelude.{◌≡◌, ◌==◌, ◌≤◌, true, false, [], ◌∷◌, length, map, IsOk, OnOk};
ghost use Rattle.std.specs.Prelude.{slice_get, drop, take};
ghost use Rattle.std.specs.Option.{option_copied, option_map};
ghost use Rattle.granit_items.specs.ItemViews.{found_items, item_view, key_view};
ghost use Rattle.granit_queue.specs.QueueViews.{queue_view, queued_view};
ghost use Rattle.granit_queue.specs.Rising.{NumbersRise, Rises};
ghost use Rattle.granit_steps.specs.Steps as spec;

use crate::items::Items;
use crate::rising::Numbers;
use granit_base::NoMemory;
use granit_items::{Found, Item, KeyStart, Rooms};
use std::alloc::Global;
use std::marker::Model;

/// An item, and whether a simple key begins with it.
#[derive(Drop)]
pub struct Queued<'input> {
    /// The item.
    pub item: Item<'input>,
    /// Whether a simple key begins with it, as far as the items behind it tell.
    pub begins_key: bool,
}

/// The items that were read and not yet taken, the oldest first.
#[derive(Drop)]
pub struct Queue<'input> {
    items: Items<'input>,
    numbers: Numbers,
}

impl<'input> Model for Queue<'input> {
    ghost use Rattle.std.specs.Prelude.{List};
    ghost use Rattle.granit_machine.specs.Lexing.{FlaggedItem};
    ghost use Rattle.granit_queue.specs.QueueViews.{queue_view};
    ghost use Rattle.granit_queue.specs.Rising.{NumbersRise};

    ghost Value = { List FlaggedItem };

    ghost view = { λ q. queue_view q.items };

    ghost invariant = { λ q. NumbersRise q.numbers (queue_view q.items) };
}

impl<'input> Queue<'input> {
    /// Nothing waits.
    pub fn new(alloc: Global) -> Queue<'input>
        ensures { result ≡ [] }
    {
        Queue {
            items: Items::new(alloc),
            numbers: Numbers::new(),
        }
    }

    /// What a read found comes behind the others; a `:` with a key flags the lexeme that begins it. Where no lexeme was
    /// read, its room is left to others.
    ///
    /// # Errors
    ///
    /// `NoMemory` alone, and where one item comes and none waited, or none comes, none at all.
    pub fn push_found(
        &mut self,
        found: Found<'input>,
        rooms: &mut Rooms<'input>,
    ) -> Result<(), NoMemory>
        ensures pushed { OnOk result (self.new ≡ spec.pushed self.old (found_items found.entry)) }
        ensures none { found_items found.entry ≡ [] → IsOk result }
        ensures memory { self.old ≡ [] → length (found_items found.entry) ≤ 1 → IsOk result }
    {
        push_all(&mut self.items, &mut self.numbers, found, rooms)
    }

    /// The item behind so many older ones.
    #[tactic(auto, using(crate::proofs::QueueLemmas::queued_at))]
    pub fn get(&self, older: usize) -> Option<&Queued<'input>>
        ensures { option_map queued_view (option_copied result) ≡ slice_get self.now older }
    {
        self.items.get(older)
    }

    /// How many items wait.
    pub fn len(&self) -> usize
        ensures { result ≡ length self.now }
    {
        self.items.len()
    }

    /// Whether none waits.
    pub fn is_empty(&self) -> bool
        ensures { result ≡ (length self.now == 0) }
    {
        self.items.is_empty()
    }

    /// The oldest item goes.
    pub fn pop(&mut self) -> Option<Queued<'input>>
        ensures front { option_map queued_view result ≡ slice_get self.old 0 }
        ensures rest { self.new ≡ drop 1 self.old }
    {
        self.items.pop()
    }

    /// No more than the oldest ones stay.
    #[tactic(auto, using(crate::proofs::QueueLemmas::queue_cut))]
    pub fn truncate(&mut self, count: usize)
        ensures { self.new ≡ take count self.old }
    {
        self.items.truncate(count);
    }
}

fn push_all<'input>(
    items: &mut Items<'input>,
    numbers: &mut Numbers,
    found: Found<'input>,
    rooms: &mut Rooms<'input>,
) -> Result<(), NoMemory>
    requires rising { NumbersRise numbers.old (queue_view items.old) }
    ensures pushed { OnOk result (queue_view items.new
        ≡ spec.pushed (queue_view items.old) (found_items found.entry)) }
    ensures none { found_items found.entry ≡ [] → IsOk result }
    ensures memory { queue_view items.old ≡ [] → length (found_items found.entry) ≤ 1 → IsOk result }
    ensures rising { NumbersRise numbers.new (queue_view items.new) }
{
    // No `:` was read behind what was found.
    let begins_key = false;
    let Found {
        filled,
        lexeme,
        note,
    } = found;
    if filled {
        let item = Item::Lexeme(lexeme);
        push(items, numbers, Queued { item, begins_key })?;
    } else {
        rooms.keep(lexeme);
    }
    if let Some(note) = note {
        let item = Item::Note(note);
        let queued = Queued { item, begins_key };
        push(items, numbers, queued)?;
    }
    Ok(())
}

#[inline(always)]
fn push<'input>(
    items: &mut Items<'input>,
    numbers: &mut Numbers,
    queued: Queued<'input>,
) -> Result<(), NoMemory>
    requires unflagged { queued.begins_key ≡ false }
    requires rising { NumbersRise numbers.old (queue_view items.old) }
    ensures pushed { OnOk result (queue_view items.new
        ≡ spec.pushed (queue_view items.old) (item_view queued.entry.item ∷ [])) }
    ensures memory { queue_view items.old ≡ [] → IsOk result }
    ensures rising { NumbersRise numbers.new (queue_view items.new) }
{
    mark_by(items, numbers.rises, &queued.item);
    numbers.push(&queued.item);
    items.push(queued)
}

/// The key of a `:`.
fn key_of(item: &Item<'_>) -> Option<KeyStart>
    ensures { option_map key_view result ≡ spec.key_of_item (item_view item.now) }
{
    match item {
        Item::Lexeme(lexeme) => lexeme.key,
        Item::Note(_) => None,
    }
}

/// A `:` with a key flags the lexeme that begins it.
#[tactic(auto, using(crate::proofs::QueueLemmas::no_key_marks, crate::proofs::QueueLemmas::key_marks))]
fn mark_by(items: &mut Items<'_>, rises: bool, item: &Item<'_>)
    requires rising { rises ≡ true → Rises (queue_view items.old) }
    ensures { queue_view items.new ≡ map (spec.marked_by (item_view item.now)) (queue_view items.old) }
{
    match key_of(item) {
        None => {}
        Some(key) => items.mark(rises, key.number),
    }
}
