// Flags of rows, as bits.
ghost use Rattle.std.specs.Prelude.{◌≡◌, ◌<◌, ◌++◌, ◌∷◌, ◌↔◌, [], length, take, slice_get, Some, IsTrue, OnOk, OnErr};
ghost use Rattle.column_vectors.specs.Flags.{count_of};

use crate::block::{Block, push_flag};
use dm_types::Exact;
use std::alloc::{AllocError, Global};
use std::marker::Model;

/// Which rows are selected: a flag for each row.
#[derive(Drop)]
pub struct Selection {
    blocks: Vec<Block>,
    rows: usize,
    count: usize,
}

impl Model for Selection {
    ghost use Rattle.std.specs.Prelude.{List, Bool};
    ghost use Rattle.column_vectors.specs.Blocks.{flag_at, IsSelection};
    ghost use Rattle.column_vectors.specs.Flags.{flags_of};

    ghost Value = { List Bool };

    ghost view = { λ selection. flags_of selection.rows (flag_at selection.blocks.items) };

    ghost invariant = { λ selection. IsSelection selection.blocks.items selection.rows selection.count };
}

impl Selection {
    /// A selection without rows.
    pub fn new(alloc: Global) -> Selection
        ensures { result ≡ [] }
    {
        Selection {
            blocks: Vec::new(alloc),
            rows: 0,
            count: 0,
        }
    }

    /// How many rows there are.
    pub fn len(&self) -> usize
        ensures { result ≡ length self.now }
    {
        self.rows
    }

    /// Whether there is no row.
    pub fn is_empty(&self) -> bool
        ensures { IsTrue result ↔ (self.now ≡ []) }
    {
        self.rows == 0
    }

    /// Whether a row is selected. It takes no memory.
    pub fn test(&self, row: usize) -> bool
        requires { row < length self.now }
        ensures { slice_get self.now row ≡ Some result }
    {
        let block = self.blocks[row / 64];
        (block.bits >> (row % 64)) & 1 == 1
    }

    /// How many rows are selected. It takes no memory.
    pub fn count(&self) -> usize
        ensures { result ≡ count_of self.now }
    {
        self.count
    }

    /// How many rows before this one are selected. It takes no memory.
    pub fn count_before(&self, row: usize) -> usize
        requires { row < length self.now }
        ensures { result ≡ count_of (take row self.now) }
    {
        let block = self.blocks[row / 64];
        let mask = (1u64 << (row % 64)) - 1;
        block.before + (block.bits & mask).count_ones() as usize
    }

    /// Adds a row at the end.
    pub fn push(&mut self, flag: bool) -> Result<(), AllocError>
        ensures ok { OnOk result (self.new ≡ self.old ++ flag ∷ []) }
        ensures err { OnErr result (self.new ≡ self.old) }
    {
        let rows = self.rows.checked_add(1).ok_or(AllocError)?;
        push_flag(&mut self.blocks, self.rows, self.count, flag)?;
        self.count += usize::from(flag);
        self.rows = rows;
        Ok(())
    }
}

impl Clone for Selection {
    ghost use Rattle.std.specs.Prelude.{◌≡◌};

    ghost is_clone = { λ x y. y ≡ x };

    fn clone(&self) -> Result<Selection, AllocError> {
        Ok(Selection {
            blocks: self.blocks.clone()?,
            rows: self.rows,
            count: self.count,
        })
    }
}

impl Exact for Selection {
    ghost exact = { λ x y same. same };
}
