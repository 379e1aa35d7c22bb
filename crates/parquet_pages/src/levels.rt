// The definition levels of a page: which entries are full.
ghost use Rattle.std.specs.Prelude.{◌≡◌, ℕ, List, ◌<◌, ◌==◌, not, length, slice_index};
ghost use Rattle.parquet_pages.specs.Answers.{GivesBody};
ghost use Rattle.parquet_pages.specs.Entries.{full};
ghost use Rattle.parquet_pages.specs.Pages.{levels_at, rle_levels, told_levels};
ghost use Rattle.parquet_pages.specs.Views.{level_list};

use crate::fault::FileFault;
use byteorder::{ByteOrder, LittleEndian};
use dm_types::NumberList;
use level_runs::read_runs;
use std::alloc::Global;

/// The levels of a page.
#[derive(Drop)]
pub(crate) enum Levels {
    /// So many entries, all full, of a leaf that tells no levels.
    Full(usize),
    /// 0 for a null and 1 for a value.
    Told(NumberList),
}

impl Levels {
    /// How many entries there are.
    pub(crate) fn len(&self) -> usize
        ensures { result ≡ length (level_list self.now) }
    {
        match self {
            Levels::Full(count) => *count,
            Levels::Told(levels) => levels.len(),
        }
    }

    /// Whether an entry is full.
    pub(crate) fn is_full(&self, at: usize) -> bool
        requires { at < length (level_list self.now) }
        ensures { result ≡ not (slice_index (level_list self.now) at == 0) }
    {
        match self {
            Levels::Full(_) => true,
            Levels::Told(levels) => *levels.get(at) != 0,
        }
    }

    /// How many entries are full.
    pub(crate) fn count_full(&self) -> usize
        ensures { result ≡ full (level_list self.now) }
    {
        match self {
            Levels::Full(count) => *count,
            Levels::Told(levels) => count_ones(levels.as_slice()),
        }
    }
}

fn count_ones(levels: &[u32]) -> usize
    ensures { result ≡ full levels.now }
{
    levels.iter().filter(|level| **level != 0).count()
}

// The levels that the bytes are, as runs of width 1.
fn read_told(alloc: Global, bytes: &[u8], count: usize) -> Result<Levels, FileFault>
    ensures { GivesBody level_list (told_levels count bytes.now) result }
{
    let (levels, used) = read_runs(alloc, bytes, 1, count)?;
    if used != bytes.len() {
        return Err(FileFault::BadParquet);
    }
    Ok(Levels::Told(levels))
}

// Levels behind their length in four bytes, and the bytes behind them.
fn read_rle(alloc: Global, bytes: &[u8], count: usize) -> Result<(Levels, &[u8]), FileFault>
    ensures { GivesBody {A = List ℕ × List ℕ} (λ found. (level_list found.0, found.1.now))
        (rle_levels count bytes.now) result }
{
    let Some((head, behind)) = bytes.split_at_checked(4) else {
        return Err(FileFault::BadParquet);
    };
    let size = LittleEndian::read_u32(head) as usize;
    let Some((told, rest)) = behind.split_at_checked(size) else {
        return Err(FileFault::BadParquet);
    };
    let levels = read_told(alloc, told, count)?;
    Ok((levels, rest))
}

/// The levels at the front of a page's body, and the bytes behind them (Encodings.md, "RLE"; of a
/// leaf that isn't OPTIONAL there are none).
pub(crate) fn read_levels(
    alloc: Global,
    optional: bool,
    bytes: &[u8],
    count: usize,
) -> Result<(Levels, &[u8]), FileFault>
    ensures { GivesBody {A = List ℕ × List ℕ} (λ found. (level_list found.0, found.1.now))
        (levels_at optional count bytes.now) result }
{
    if optional {
        read_rle(alloc, bytes, count)
    } else {
        Ok((Levels::Full(count), bytes))
    }
}
