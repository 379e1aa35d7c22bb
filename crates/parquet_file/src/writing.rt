// Writing a file.
ghost use Rattle.std.specs.Prelude.{◌≡◌, ◌<◌, ◌≤◌, ◌^◌, map, length, Some, IfOk, OnOk};
ghost use Rattle.parquet_file.specs.Chunks.{GoesOn, IsChunkOf, file_bytes, footer_bytes};
ghost use Rattle.parquet_meta.specs.Meaning.{footer_in};
ghost use Rattle.parquet_meta.specs.Writable.{IsWritableFooter};
ghost use Rattle.parquet_file.specs.Writing as spec;
ghost use Rattle.parquet_file.specs.Writing.{IsFileOf, IsWritableFile, WritesFile};
ghost use Rattle.parquet_pages.specs.Writing.{IsWritableColumn};

use crate::columns::{FileColumn, FileColumns};
use crate::opening::MAGIC;
use byteorder::{ByteOrder, LittleEndian};
use dm_types::{Bytes, Items};
use parquet_meta::{ChunkList, ChunkMeta, Footer, LeafList, RowGroup, SharedBytes, write_footer};
use parquet_pages::{leaf_for, write_chunk};
use std::alloc::{AllocError, Global};

// How many rows columns have, which is the same for each.
fn rows_of(columns: &FileColumns) -> usize
    ensures { result ≡ spec.rows_of columns.now }
{
    match columns.as_slice().first() {
        Some(first) => first.column.len(),
        None => 0,
    }
}

// A column's name.
fn name_of(alloc: Global, column: &FileColumn) -> Result<Bytes, AllocError>
    ensures { IfOk result (λ name. name ≡ column.now.name) }
{
    Items::from_slice(alloc, column.name.as_bytes())
}

// The leaves of columns.
fn leaves_of(alloc: Global, columns: &FileColumns) -> Result<LeafList, AllocError>
    requires { IsWritableFile columns.now }
    ensures { IfOk result (λ leaves. leaves ≡ map spec.file_leaf columns.now) }
{
    let mut leaves = Items::new(alloc);
    for column in columns.as_slice() {
        let name = SharedBytes::new(alloc, name_of(alloc, column)?)?;
        leaves.push(leaf_for(name, column.field_id, &column.kind))?;
    }
    Ok(leaves)
}

// Adds the chunk of a column, under the column's name.
fn write_column(
    alloc: Global,
    column: &FileColumn,
    out: &mut Bytes,
) -> Result<ChunkMeta, AllocError>
    requires column { IsWritableColumn column.now.column }
    requires start { 4 ≤ length out.old }
    ensures { IfOk result (λ chunk. IsChunkOf column.now out.old out.new chunk) }
{
    let name = name_of(alloc, column)?;
    let mut path = Items::new(alloc);
    path.push(name)?;
    let mut chunk = write_chunk(alloc, &column.column, out)?;
    chunk.path = path;
    Ok(chunk)
}

// Adds a chunk for each column.
fn write_chunks(
    alloc: Global,
    columns: &FileColumns,
    out: &mut Bytes,
) -> Result<ChunkList, AllocError>
    requires columns { IsWritableFile columns.now }
    requires start { 4 ≤ length out.old }
    ensures { IfOk result (λ chunks. GoesOn columns.now out.old out.new chunks) }
{
    let mut chunks = Items::new(alloc);
    for column in columns.as_slice() {
        let chunk = write_column(alloc, column, out)?;
        chunks.push(chunk)?;
    }
    Ok(chunks)
}

// The footer of columns whose chunks have so many bytes together.
fn footer_for(
    alloc: Global,
    columns: &FileColumns,
    chunks: ChunkList,
    bytes: i64,
) -> Result<Footer, AllocError>
    requires columns { IsWritableFile columns.now }
    requires bytes { spec.total_size chunks ≡ bytes }
    ensures { IfOk result (λ footer. footer ≡ spec.footer_of columns.now chunks) }
{
    let rows = rows_of(columns) as i64;
    let leaves = leaves_of(alloc, columns)?;
    let group = RowGroup {
        bytes,
        rows,
        chunks,
    };
    let mut groups = Items::new(alloc);
    groups.push(group)?;
    Ok(Footer {
        rows,
        leaves,
        groups,
    })
}

// Adds the footer, its length in four bytes, and the magic bytes.
fn end_file(alloc: Global, footer: &Footer, out: &mut Bytes) -> Result<(), AllocError>
    requires { IsWritableFooter footer.now }
    ensures few { OnOk result (length (footer_bytes footer.now) < 2 ^ 32) }
    ensures written { OnOk result (out.new ≡ file_bytes out.old footer.now) }
    ensures again { OnOk result (footer_in (footer_bytes footer.now) ≡ Some footer.now) }
{
    let footer_at = out.len();
    write_footer(alloc, footer, out)?;
    let Ok(size) = u32::try_from(out.len() - footer_at) else {
        return Err(AllocError);
    };
    let mut told = [0u8; 4];
    LittleEndian::write_u32(&mut told, size);
    out.extend_from_slice(&told)?;
    out.extend_from_slice(MAGIC)?;
    Ok(())
}

/// The bytes of a file with these columns, in one row group: each in one data page V1 in the encoding
/// PLAIN, of an OPTIONAL leaf below the root `schema`, without dictionary and compression.
///
/// The columns are all of one length, each of its kind, with values in their range; there are at most
/// 502 columns, 20,000,000 rows, 1 MiB in a name and 536,870,912 bytes of text in a column. So the
/// footer's length has room in its four bytes; where it had none, the answer would be want of memory.
pub fn write_file(alloc: Global, columns: &FileColumns) -> Result<Bytes, AllocError>
    requires { IsWritableFile columns.now }
    ensures written { IfOk result (λ bytes. WritesFile columns.now bytes) }
    // What is written is read as these columns.
    ensures again { IfOk result (λ bytes. IsFileOf columns.now bytes) }
{
    let mut out = Items::from_slice(alloc, MAGIC)?;
    let chunks = write_chunks(alloc, columns, &mut out)?;
    let bytes = (out.as_slice().len() - MAGIC.len()) as i64;
    let footer = footer_for(alloc, columns, chunks, bytes)?;
    end_file(alloc, &footer, &mut out)?;
    Ok(out)
}
