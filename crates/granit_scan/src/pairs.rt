//! In which brackets a single pair is open.
ghost use Rattle.std.specs.Prelude.{◌≡◌, ◌==◌, ◌&&◌, true, false, [], ◌∷◌, drop, length, slice_get, IsOk, OnOk};
ghost use Rattle.granit_items.specs.ItemViews.{kind_view};
ghost use Rattle.granit_scan.specs.TokenMemory.{tells_one_more};
ghost use Rattle.granit_steps.specs.Tokens as spec;

use granit_base::NoMemory;
use granit_items::LexemeKind;
use std::alloc::Global;
use std::marker::Model;

/// Of each open bracket, whether a single pair is open in it, the innermost last.
#[derive(Drop)]
pub(crate) struct Pairs {
    list: Vec<bool>,
}

impl Model for Pairs {
    ghost use Rattle.std.specs.Prelude.{Bool, List, reverse};

    ghost Value = { List Bool };

    ghost view = { λ p. reverse p.list.items };
}

impl Pairs {
    /// No bracket is open.
    pub(crate) fn new(alloc: Global) -> Pairs
        ensures { result ≡ [] }
    {
        Pairs {
            list: Vec::new(alloc),
        }
    }

    /// No bracket is open any more.
    pub(crate) fn clear(&mut self)
        ensures { self.new ≡ [] }
    {
        self.list.clear();
    }

    fn top(&self) -> Option<bool>
        ensures { result ≡ slice_get self.now 0 }
    {
        self.list.last().copied()
    }

    /// Whether a single pair is open in the innermost bracket.
    #[tactic(auto, using(crate::proofs::WriteLemmas::no_top, crate::proofs::WriteLemmas::some_top))]
    pub(crate) fn is_inside(&self) -> bool
        ensures { result ≡ spec.top_pair self.now }
    {
        match self.top() {
            None => false,
            Some(pair) => pair,
        }
    }

    /// A single pair begins in the innermost bracket, or none does.
    pub(crate) fn begin_if(&mut self, begins: bool) -> Result<(), NoMemory>
        ensures begun { OnOk result (self.new ≡ spec.with_pair_if begins self.old) }
        ensures memory { (begins && (length self.old == 0)) ≡ false → IsOk result }
    {
        if !begins {
            return Ok(());
        }
        self.replace(true)
    }

    fn replace(&mut self, pair: bool) -> Result<(), NoMemory>
        ensures replaced { OnOk result (self.new ≡ pair ∷ drop 1 self.old) }
        ensures memory { (length self.old == 0) ≡ false → IsOk result }
    {
        self.list.pop();
        self.list.push(pair)?;
        Ok(())
    }

    fn open(&mut self) -> Result<(), NoMemory>
        ensures { OnOk result (self.new ≡ false ∷ self.old) }
    {
        self.list.push(false)?;
        Ok(())
    }

    fn close(&mut self)
        ensures { self.new ≡ drop 1 self.old }
    {
        self.list.pop();
    }

    /// What a lexeme leaves of them.
    pub(crate) fn follow(&mut self, kind: &LexemeKind<'_>) -> Result<(), NoMemory>
        ensures followed { OnOk result (self.new ≡ spec.pairs_behind (kind_view kind.now) self.old) }
        ensures memory { tells_one_more (kind_view kind.now) self.old ≡ false → IsOk result }
    {
        match kind {
            LexemeKind::Open(_) => self.open(),
            LexemeKind::Close(_) => {
                self.close();
                Ok(())
            }
            LexemeKind::Comma => self.replace(false),
            _ => Ok(()),
        }
    }
}
