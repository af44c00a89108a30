//! The columns of the open block collections.
ghost use Rattle.std.specs.Prelude.{◌≡◌, ◌<◌, ◌≤◌, ◌^◌, [], ◌∷◌, length, map, slice_get, false, OnOk, IfSome};
ghost use Rattle.std.specs.List.{All};
ghost use Rattle.granit_machine.specs.Columns.{up_to_column, widened};
ghost use Rattle.granit_machine.specs.Laid.{innermost_column};
ghost use Rattle.granit_layout.specs.Views.{columns_renewed, columns_view};

use granit_base::NoMemory;
use granit_lexemes::OpenColumn;
use smallvec::SmallVec;
use std::alloc::Global;
use std::marker::Model;

/// The open columns, the innermost last. A new entry of the innermost alone isn't wide, so the wide ones stand in
/// front of the others, and their number tells which they are.
#[derive(Drop)]
pub(crate) struct Columns {
    columns: SmallVec<usize, 8>,
    wide: usize,
}

impl Model for Columns {
    ghost use Rattle.std.specs.Prelude.{ℕ, ◌<◌, ◌≤◌, ◌^◌, List, length};
    ghost use Rattle.std.specs.List.{All};
    ghost use Rattle.granit_lexemes.specs.declared.layout.OpenColumn.{OpenColumn};
    ghost use Rattle.granit_layout.specs.Views.{columns_view};

    ghost Value = { List OpenColumn };

    ghost view = { λ c. columns_view c.wide c.columns.items };

    ghost invariant = { λ c. (c.wide ≤ length c.columns.items) × All (λ n. n < 2 ^ 63) c.columns.items };
}

impl Columns {
    pub(crate) fn new(alloc: Global) -> Columns
        ensures { result ≡ [] }
    {
        Columns {
            columns: SmallVec::new(alloc),
            wide: 0,
        }
    }

    #[tactic(auto, using(crate::proofs::ColumnLemmas::columns_length))]
    pub(crate) fn len(&self) -> usize
        ensures { result ≡ length self.now }
    {
        self.columns.len()
    }

    /// The innermost one.
    pub(crate) fn last(&self) -> Option<OpenColumn>
        ensures { result ≡ slice_get self.now 0 }
    {
        let is_wide = self.columns.len() <= self.wide;
        match self.columns.last() {
            None => None,
            Some(column) => Some(OpenColumn {
                column: *column,
                is_wide,
            }),
        }
    }

    /// Where the innermost one is.
    pub(crate) fn innermost(&self) -> Option<usize>
        ensures column { result ≡ innermost_column self.now }
        ensures small { IfSome result (λ n. n < 2 ^ 63) }
    {
        self.columns.last().copied()
    }

    /// One more, whose entry isn't wide.
    pub(crate) fn push(&mut self, column: usize) -> Result<(), NoMemory>
        requires { column < 2 ^ 63 }
        ensures { OnOk result (self.new ≡ record { column = column; is_wide = false } ∷ self.old) }
    {
        self.columns.push(column)?;
        Ok(())
    }

    /// The next entry of the innermost one begins.
    #[tactic(auto, using(crate::proofs::ColumnLemmas::renewed_columns))]
    pub(crate) fn renew(&mut self)
        ensures { self.new ≡ columns_renewed self.old }
    {
        self.wide = self.wide.min(self.columns.len().saturating_sub(1));
    }

    /// Each one's entry is wide.
    #[tactic(auto, using(crate::proofs::ColumnLemmas::all_widened))]
    pub(crate) fn widen(&mut self)
        ensures { self.new ≡ map widened self.old }
    {
        self.wide = self.columns.len();
    }

    /// Without those right of one.
    pub(crate) fn drop_right_of(&mut self, column: usize)
        ensures { self.new ≡ up_to_column column self.old }
    {
        drop_columns(&mut self.columns, &mut self.wide, column);
    }

    pub(crate) fn clear(&mut self)
        ensures { self.new ≡ [] }
    {
        self.columns.clear();
        self.wide = 0;
    }
}

#[tactic(auto, using(crate::proofs::ColumnLemmas::fewer_wide))]
fn drop_columns(columns: &mut SmallVec<usize, 8>, wide: &mut usize, column: usize)
    requires fit { wide.old ≤ length columns.old.items }
    requires small { All (λ n. n < 2 ^ 63) columns.old.items }
    ensures columns { columns_view wide.new columns.new.items
        ≡ up_to_column column (columns_view wide.old columns.old.items) }
    ensures fits { wide.new ≤ length columns.new.items }
    ensures small { All (λ n. n < 2 ^ 63) columns.new.items }
{
    'columns: while let Some(open) = columns.last() {
        if *open <= column {
            return;
        }
        columns.pop();
        *wide = (*wide).min(columns.len());
    }
}
