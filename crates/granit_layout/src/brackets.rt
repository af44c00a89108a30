//! The open brackets, and the possible keys in them.
ghost use Rattle.std.specs.Prelude.{◌≡◌, [], ◌∷◌, length, map, drop, slice_get, reverse, true, None, OnOk};
ghost use Rattle.std.specs.List.{list_any};
ghost use Rattle.granit_error.specs.OptionsView.{options_of};
ghost use Rattle.granit_machine.specs.Laid as laid;
ghost use Rattle.granit_machine.specs.PossibleKeys as keys;
ghost use Rattle.granit_layout.specs.Rising.{Rising};

use crate::keys::{is_fresh, is_of, reaches};
use crate::rising::KeyOrder;
use granit_base::{Marker, NoMemory};
use granit_error::Options;
use granit_lexemes::{Bracket, OpenBracket, PossibleKey};
use std::alloc::Global;
use std::marker::Model;

/// The open brackets, the innermost last.
#[derive(Drop)]
pub(crate) struct Brackets {
    list: Vec<OpenBracket>,
    order: KeyOrder,
}

impl Model for Brackets {
    ghost use Rattle.std.specs.Prelude.{List, reverse};
    ghost use Rattle.granit_lexemes.specs.declared.layout.OpenBracket.{OpenBracket};
    ghost use Rattle.granit_layout.specs.Rising.{Rising};

    ghost Value = { List OpenBracket };

    ghost view = { λ b. reverse b.list.items };

    ghost invariant = { λ b. Rising b.order b.list.items };
}

impl Brackets {
    pub(crate) fn new(alloc: Global) -> Brackets
        ensures { result ≡ [] }
    {
        Brackets {
            list: Vec::new(alloc),
            order: KeyOrder::new(),
        }
    }

    pub(crate) fn depth(&self) -> usize
        ensures { result ≡ length self.now }
    {
        self.list.len()
    }

    /// Whether one is open.
    pub(crate) fn is_open(&self) -> bool
        ensures { result ≡ laid.is_nonempty self.now }
    {
        self.list.last().is_some()
    }

    /// The innermost one.
    pub(crate) fn last(&self) -> Option<OpenBracket>
        ensures { result ≡ slice_get self.now 0 }
    {
        self.list.last().copied()
    }

    /// One more, with no key in it.
    #[tactic(auto, using(crate::proofs::RisingLemmas::pushed))]
    pub(crate) fn push(&mut self, bracket: Bracket, mark: Marker) -> Result<(), NoMemory>
        ensures { OnOk result (self.new ≡ record { bracket = bracket; mark = mark; key = None } ∷ self.old) }
    {
        self.list.push(OpenBracket {
            bracket,
            mark,
            key: None,
        })?;
        Ok(())
    }

    /// Without the innermost one.
    #[tactic(auto, using(crate::proofs::RisingLemmas::popped))]
    pub(crate) fn pop(&mut self)
        ensures { self.new ≡ drop 1 self.old }
    {
        self.list.pop();
        self.order.end_at(self.list.len());
    }

    /// No one any more.
    pub(crate) fn clear(&mut self)
        ensures { self.new ≡ [] }
    {
        self.list.clear();
        self.order = KeyOrder::new();
    }

    /// The key in the innermost one, or the one outside all.
    pub(crate) fn key<'a>(&'a self, outside: &'a Option<PossibleKey>) -> &'a Option<PossibleKey>
        ensures { result.now ≡ keys.key_in self.now outside.now }
    {
        match self.list.last() {
            None => outside,
            Some(innermost) => &innermost.key,
        }
    }

    /// Another key in the innermost one, if one is open.
    pub(crate) fn set_key(&mut self, key: &Option<PossibleKey>)
        ensures { self.new ≡ keys.keyed_brackets key.now self.old }
    {
        set_innermost(&mut self.list, &mut self.order, key);
    }

    /// No key in the innermost one.
    pub(crate) fn forget_key(&mut self)
        ensures { self.new ≡ keys.keyed_brackets None self.old }
    {
        forget_innermost(&mut self.list, &mut self.order);
    }

    /// Whether reading has left none of the keys behind, as far as that is seen at once.
    #[inline(always)]
    pub(crate) fn is_near(&self, options: &Options, mark: &Marker) -> bool
        ensures { result ≡ true → map (keys.fresh_bracket (options_of options.now) mark.now) self.now ≡ self.now }
    {
        self.order.is_near(options, mark)
    }

    /// Without the keys that reading has left behind.
    #[tactic(auto, using(crate::proofs::ListLemmas::map_reversed))]
    pub(crate) fn refresh(&mut self, options: &Options, mark: &Marker)
        ensures { self.new ≡ map (keys.fresh_bracket (options_of options.now) mark.now) self.old }
    {
        if self.order.is_near(options, mark) {
            return;
        }
        if self.order.rises {
            refresh_outermost(&mut self.list, &mut self.order, options, mark);
        } else {
            refresh_all(&mut self.list, options, mark);
        }
    }

    /// Whether a possible key in one of them begins with the lexeme of a number; mostly all begin behind it.
    #[inline(always)]
    pub(crate) fn is_possible(&self, number: usize) -> bool
        ensures { result ≡ list_any (λ b. keys.is_of number b.key) self.now }
    {
        number >= self.order.least && self.holds(number)
    }

    /// The same where the brackets are asked.
    #[tactic(auto, using(crate::proofs::ListLemmas::any_reversed))]
    fn holds(&self, number: usize) -> bool
        ensures { result ≡ list_any (λ b. keys.is_of number b.key) self.now }
    {
        if self.order.rises {
            begins_at(number, &self.order, &self.list)
        } else {
            any_of(number, &self.list)
        }
    }
}

fn set_innermost(brackets: &mut Vec<OpenBracket>, order: &mut KeyOrder, key: &Option<PossibleKey>)
    requires rising { Rising order.old brackets.old.items }
    ensures key { reverse brackets.new.items ≡ keys.keyed_brackets key.now (reverse brackets.old.items) }
    ensures rising { Rising order.new brackets.new.items }
{
    let depth = brackets.len();
    if depth == 0 {
        return;
    }
    let innermost = depth - 1;
    order.set_key(innermost, &brackets[innermost].key, key);
    brackets[innermost].key = *key;
}

fn forget_innermost(brackets: &mut Vec<OpenBracket>, order: &mut KeyOrder)
    ensures key { reverse brackets.new.items ≡ keys.keyed_brackets None (reverse brackets.old.items) }
    ensures rising { Rising order.old brackets.old.items → Rising order.new brackets.new.items }
{
    let depth = brackets.len();
    if depth == 0 {
        return;
    }
    brackets[depth - 1].key = None;
    order.end_at(depth - 1);
}

fn any_of(number: usize, brackets: &[OpenBracket]) -> bool
    ensures { result ≡ list_any (λ b. keys.is_of number b.key) brackets.now }
{
    brackets.iter().any(|open| is_of(number, &open.key))
}

/// The same where keys rise: no key behind one of a later lexeme is asked.
fn begins_at(number: usize, order: &KeyOrder, brackets: &[OpenBracket]) -> bool
    requires rising { Rising order.now brackets.now }
    requires rises { order.now.rises ≡ true }
    ensures { result ≡ list_any (λ b. keys.is_of number b.key) brackets.now }
{
    'brackets: for i in order.first..brackets.len() {
        if reaches(number, &brackets[i].key) {
            return is_of(number, &brackets[i].key);
        }
    }
    false
}

fn refresh_all(brackets: &mut Vec<OpenBracket>, options: &Options, mark: &Marker)
    ensures { brackets.new.items ≡ map (keys.fresh_bracket (options_of options.now) mark.now) brackets.old.items }
{
    'brackets: for i in 0..brackets.len() {
        refresh_one(&mut brackets[i].key, options, mark);
    }
}

fn refresh_one(key: &mut Option<PossibleKey>, options: &Options, mark: &Marker)
    ensures { key.new ≡ keys.fresh_key (options_of options.now) true mark.now key.old }
{
    if !is_fresh(options, true, mark, key) {
        *key = None;
    }
}

/// The same where keys rise: behind the first one that stays, all do.
#[inline(never)]
fn refresh_outermost(
    brackets: &mut Vec<OpenBracket>,
    order: &mut KeyOrder,
    options: &Options,
    mark: &Marker,
)
    requires rising { Rising order.old brackets.old.items }
    requires rises { order.old.rises ≡ true }
    ensures fresh { brackets.new.items ≡ map (keys.fresh_bracket (options_of options.now) mark.now) brackets.old.items }
    ensures rising { Rising order.new brackets.new.items }
{
    'brackets: while order.first < brackets.len() {
        if is_fresh(options, true, mark, &brackets[order.first].key) {
            order.begin_at(&brackets[order.first].key);
            return;
        }
        brackets[order.first].key = None;
        order.first += 1;
    }
    order.end_at(brackets.len());
}
