// A column chunk of a file.
ghost use Rattle.std.specs.Prelude.{◌≡◌, Some};
ghost use Rattle.std.specs.Option.{option_copied};
ghost use Rattle.parquet_pages.specs.Chunk as spec;
ghost use Rattle.parquet_pages.specs.Kept.{IsReading};
ghost use Rattle.parquet_pages.specs.Taking.{GoesInto};
ghost use Rattle.parquet_pages.specs.Views.{wanted};

use crate::fault::FileFault;
use crate::kept::Reading;
use crate::pages::take_pages;
use parquet_meta::numbers::UNCOMPRESSED;
use parquet_meta::{ChunkMeta, LeafSchema};
use std::alloc::Global;

// Where a chunk begins.
fn start_of(chunk: &ChunkMeta) -> i64
    ensures { result ≡ spec.start_of chunk.now.dictionary_at chunk.now.page_at }
{
    match chunk.dictionary_at {
        Some(at) if at > 0 && at < chunk.page_at => at,
        _ => chunk.page_at,
    }
}

// So many bytes from a place, behind the first four of the file.
fn bytes_between(file: &[u8], start: i64, size: i64) -> Option<&[u8]>
    ensures { option_copied result ≡ spec.bytes_between file.now start size }
{
    if start < 4 || size < 0 {
        return None;
    }
    let behind = file.get(start as usize..)?;
    behind.get(..size as usize)
}

// The bytes of a chunk that has a value for each row.
fn chunk_of<'a>(file: &'a [u8], chunk: &ChunkMeta, rows: usize) -> Option<&'a [u8]>
    ensures { option_copied result ≡ spec.chunk_of file.now chunk.now rows }
{
    if chunk.values < 0 || chunk.values as u64 != rows as u64 {
        return None;
    }
    bytes_between(file, start_of(chunk), chunk.packed)
}

/// Adds the values of a chunk whose leaf fits.
#[tactic(auto, unfolding(crate::specs::Chunk::chunk_values))]
pub(crate) fn take_chunk(
    alloc: Global,
    reading: &mut Reading,
    file: &[u8],
    chunk: &ChunkMeta,
    leaf: &LeafSchema,
    rows: usize,
) -> Result<(), FileFault>
    requires { IsReading reading.old }
    ensures { GoesInto (spec.chunk_values file.now chunk.now (wanted reading.old leaf.now) rows)
        reading.old reading.new result }
{
    if chunk.codec != UNCOMPRESSED {
        return Err(FileFault::Compressed);
    }
    match chunk_of(file, chunk, rows) {
        Some(bytes) => take_pages(alloc, reading, leaf, rows, bytes),
        None => Err(FileFault::BadParquet),
    }
}
