// Writing a column as a chunk.
ghost use Rattle.std.specs.Prelude.{◌≡◌, ◌++◌, ◌+◌, ◌<◌, ◌≤◌, ◌^◌, length, IfOk, OnOk, OnErr};
ghost use Rattle.dm_types.specs.Ranges.{IsWellFormed};
ghost use Rattle.parquet_pages.specs.Stored.{leaf_of};
ghost use Rattle.parquet_pages.specs.Storing.{AddsChunk, AddsPage, IsHeaderRead};
ghost use Rattle.plain_values.specs.Answers.{BeginsWith};
ghost use Rattle.parquet_pages.specs.Writing.{IsReadBack, IsWritableColumn, WritesChunk, chunk_meta, page_front, page_header};

use crate::leaf::{annotation_of, length_of, type_of};
use crate::lists::{size_of, write_values};
use crate::stored::stored_column;
use byteorder::{ByteOrder, LittleEndian};
use column_vectors::AnyColumn;
use dm_types::{Bytes, DataType, Items, WholeList};
use level_runs::{laws, write_runs};
use parquet_meta::numbers::{DATA_PAGE, PLAIN, RLE, UNCOMPRESSED};
use parquet_meta::{ChunkMeta, LeafSchema, PageHeader, PageV1, SharedBytes, write_page_header};
use std::alloc::{AllocError, Global};

/// The leaf that a column of the type is written as: OPTIONAL, directly below the root, with the
/// converted type of the column's type (LogicalTypes.md; parquet.thrift, `ConvertedType`).
pub fn leaf_for(name: SharedBytes, field_id: Option<i32>, kind: &DataType) -> LeafSchema
    requires { IsWellFormed kind.now }
    ensures { result ≡ leaf_of name field_id kind.now }
{
    LeafSchema {
        name,
        top: true,
        physical: type_of(kind),
        length: length_of(kind) as i32,
        optional: true,
        repeated: false,
        annotation: annotation_of(kind),
        field_id,
    }
}

/// Adds what stands before the values of a data page V1: its header, and its levels behind their
/// length in four bytes (parquet.thrift, `PageHeader`, `DataPageHeader`). The values have `size` bytes.
fn begin_page(
    alloc: Global,
    rows: usize,
    levels: &Bytes,
    size: usize,
    out: &mut Bytes,
) -> Result<(), AllocError>
    requires rows { rows < 2 ^ 31 }
    requires size { 4 + length levels.now + size < 2 ^ 31 }
    ensures begun { OnOk result (out.new ≡ out.old ++ page_front rows levels.now size) }
    ensures header { OnOk result (IsHeaderRead (page_header rows (4 + length levels.now + size))) }
    ensures err { OnErr result (BeginsWith out.old out.new) }
{
    let size = (4 + levels.len() + size) as i32;
    let header = PageHeader {
        kind: DATA_PAGE,
        unpacked: size,
        packed: size,
        page: Some(PageV1 {
            values: rows as i32,
            encoding: PLAIN,
            definition: RLE,
            repetition: RLE,
        }),
        dictionary: None,
        page_v2: None,
    };
    write_page_header(alloc, &header, out)?;
    let mut head = [0u8; 4];
    LittleEndian::write_u32(&mut head, levels.len() as u32);
    out.extend_from_slice(&head)?;
    out.extend_from_slice(levels.as_slice())
}

/// Adds the page of a column. After want of memory a front of it may stand behind `out`.
fn add_page(alloc: Global, column: &AnyColumn, out: &mut Bytes) -> Result<(), AllocError>
    requires { IsWritableColumn column.now }
    ensures page { OnOk result (AddsPage column.now out.old out.new) }
    ensures err { OnErr result (BeginsWith out.old out.new) }
{
    let stored = stored_column(alloc, column)?;
    let mut levels = Bytes::new(alloc);
    write_runs(alloc, &stored.levels, 1, &mut levels)?;
    let size = size_of(&stored.values);
    begin_page(alloc, column.len(), &levels, size, out)?;
    write_values(alloc, &stored.values, out)
}

/// What a footer tells of a column's chunk of one page (parquet.thrift, `ColumnMetaData`).
fn meta_of(
    alloc: Global,
    column: &AnyColumn,
    start: usize,
    size: usize,
) -> Result<ChunkMeta, AllocError>
    requires rows { length column.now.values < 2 ^ 63 }
    requires start { start < 2 ^ 63 }
    requires size { size < 2 ^ 63 }
    ensures { IfOk result (λ meta. meta ≡ chunk_meta column.now start size) }
{
    Ok(ChunkMeta {
        external: false,
        physical: i32::from(type_of(column.kind())),
        encodings: WholeList::from_slice(alloc, &[i64::from(PLAIN), i64::from(RLE)])?,
        path: Items::new(alloc),
        codec: UNCOMPRESSED,
        values: column.len() as i64,
        unpacked: size as i64,
        packed: size as i64,
        page_at: start as i64,
        dictionary_at: None,
    })
}

/// Adds the chunk of a column. After want of memory a front of it may stand behind `out`.
fn add_chunk(alloc: Global, column: &AnyColumn, out: &mut Bytes) -> Result<ChunkMeta, AllocError>
    requires { IsWritableColumn column.now }
    ensures chunk { IfOk result (AddsChunk column.now out.old out.new) }
    ensures err { OnErr result (BeginsWith out.old out.new) }
{
    let start = out.as_slice().len();
    add_page(alloc, column, out)?;
    meta_of(alloc, column, start, out.as_slice().len() - start)
}

/// Adds a column as one chunk of one data page V1 in the encoding PLAIN, with its levels in RLE,
/// uncompressed, and gives what a footer tells of it; its path is empty. The column is of a type of
/// tables, with its values in their range, at most 20,000,000 rows and 536,870,912 bytes of text.
/// After want of memory `out` is as before.
pub fn write_chunk(
    alloc: Global,
    column: &AnyColumn,
    out: &mut Bytes,
) -> Result<ChunkMeta, AllocError>
    requires column { IsWritableColumn column.now }
    requires start { 4 ≤ length out.old }
    ensures written { IfOk result (λ meta. WritesChunk column.now out.old out.new meta) }
    // What is written is read as the column.
    ensures again { IfOk result (λ meta. IsReadBack column.now out.new meta) }
    ensures memory { OnErr result (out.new ≡ out.old) }
{
    laws::runs_again();
    let start = out.len();
    let chunk = add_chunk(alloc, column, out);
    if chunk.is_err() {
        out.truncate(start);
    }
    chunk
}
