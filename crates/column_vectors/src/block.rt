// Flags as bits, in blocks of 64.
ghost use Rattle.std.specs.Prelude.{◌≡◌, ◌≢◌, ℕ, ◌<◌, OnOk, OnErr};
ghost use Rattle.std.specs.Int.{bit_at};
ghost use Rattle.column_vectors.specs.Blocks.{flag_number, AddsFlag, IsSelection};

use std::alloc::AllocError;

/// The flags of 64 rows, the first row's in the lowest bit.
#[derive(Clone, Copy)]
pub(crate) struct Block {
    pub bits: u64,
    /// How many rows before the first one of the block are selected.
    pub before: usize,
}

// Adds a flag behind those of the rows, of which so many are set.
pub(crate) fn push_flag(
    blocks: &mut Vec<Block>,
    rows: usize,
    count: usize,
    flag: bool,
) -> Result<(), AllocError>
    requires { IsSelection blocks.old.items rows count }
    ensures ok { OnOk result (AddsFlag blocks.old.items blocks.new.items rows count flag) }
    ensures err { OnErr result (blocks.new.items ≡ blocks.old.items) }
{
    let bit = rows % 64;
    if bit == 0 {
        blocks.push(Block {
            bits: with_bit(0, bit, flag),
            before: count,
        })?;
        Ok(())
    } else {
        let last = rows / 64;
        blocks[last].bits = with_bit(blocks[last].bits, bit, flag);
        Ok(())
    }
}

// The bits with one of them set or cleared.
fn with_bit(bits: u64, bit: usize, flag: bool) -> u64
    requires { bit < 64 }
    ensures same { bit_at result bit ≡ flag_number flag }
    ensures others { (other : ℕ) → other < 64 → other ≢ bit → bit_at result other ≡ bit_at bits other }
{
    let one = 1u64 << bit;
    if flag { bits | one } else { bits & !one }
}
