// Columns of one length.
ghost use Rattle.std.specs.Prelude.{◌≡◌, ◌++◌, ◌∷◌, [], length, All, OnOk, OnErr};

use crate::any_column::AnyColumn;
use dm_types::{Exact, Items};
use std::alloc::{AllocError, Global};

/// Columns, in order.
pub type AnyColumns = Items<AnyColumn>;

/// Columns of one length: some rows of a table.
#[derive(Drop)]
pub struct Batch {
    /// The columns, in the order of the schema.
    pub columns: AnyColumns,
    /// How many rows each column has. A batch without columns has rows too.
    pub rows: usize,
    pub ghost even: { All (λ column. length column.values ≡ rows) columns },
}

impl Batch {
    /// So many rows, without columns.
    pub fn new(alloc: Global, rows: usize) -> Batch
        ensures columns { result.columns ≡ [] }
        ensures rows { result.rows ≡ rows }
    {
        Batch {
            columns: AnyColumns::new(alloc),
            rows,
        }
    }

    /// Adds a column behind the others.
    pub fn push(&mut self, column: AnyColumn) -> Result<(), AllocError>
        requires { length column.values ≡ self.old.rows }
        ensures rows { self.new.rows ≡ self.old.rows }
        ensures ok { OnOk result (self.new.columns ≡ self.old.columns ++ column ∷ []) }
        ensures err { OnErr result (self.new.columns ≡ self.old.columns) }
    {
        self.columns.push(column)
    }
}

impl Clone for Batch {
    ghost use Rattle.std.specs.Prelude.{◌≡◌};

    ghost is_clone = { λ x y. y ≡ x };

    fn clone(&self) -> Result<Batch, AllocError> {
        Ok(Batch {
            columns: self.columns.clone()?,
            rows: self.rows,
        })
    }
}

impl Exact for Batch {
    ghost exact = { λ x y same. same };
}
