// A file that is read.
ghost use Rattle.std.specs.Prelude.{◌≡◌, ◌<◌, ◌≤ℤ◌, length, pos, slice_get, All, Some, IfOk, Ok};
ghost use Rattle.dm_types.specs.Ranges.{IsWellFormed};
ghost use Rattle.dm_types.specs.Then.{go};
ghost use Rattle.parquet_pages.specs.Answers.{Gives};
ghost use Rattle.parquet_file.specs.File.{chunks_of, chunks_values, column_of};
ghost use Rattle.parquet_file.specs.Groups.{HasChunk};
ghost use Rattle.parquet_meta.specs.declared.metadata.LeafSchema.{LeafSchema as ALeaf};
ghost use Rattle.parquet_pages.specs.Pages.{Wanted};
ghost use Rattle.parquet_pages.specs.Kept.{with_more};
ghost use Rattle.parquet_pages.specs.Views.{wanted};

use column_vectors::AnyColumn;
use dm_types::DataType;
use parquet_meta::{ChunkMeta, Footer, LeafList, LeafSchema, RowGroup};
use parquet_pages::{ColumnReader, FileFault, fits, laws};
use std::alloc::Global;
use std::marker::Model;

/// A Parquet file whose bytes are lent. Its footer is sound: no count of rows is negative, they add
/// up, and each row group has one chunk for each leaf.
#[derive(Drop)]
pub struct ParquetFile<'a> {
    pub(crate) pages: &'a [u8],
    pub(crate) footer: Footer,
}

impl<'a> Model for ParquetFile<'a> {
    ghost use Rattle.parquet_file.specs.File.{Opened};
    ghost use Rattle.parquet_meta.specs.Meaning.{IsSound};

    ghost Value = { Opened };

    ghost view = { λ file. record { pages = file.pages.now; footer = file.footer } };

    ghost invariant = { λ file. IsSound file.footer };
}

impl<'a> ParquetFile<'a> {
    /// How many rows the file has. It takes no memory.
    pub fn rows(&self) -> u64
        ensures { pos result ≡ self.now.footer.rows }
    {
        count_of(self.footer.rows)
    }

    /// How many leaves the schema has. It takes no memory.
    pub fn leaf_count(&self) -> usize
        ensures { result ≡ length self.now.footer.leaves }
    {
        self.footer.leaves.len()
    }

    /// A leaf of the schema, counted from 0. It takes no memory.
    pub fn leaf(&self, i: usize) -> &LeafSchema
        requires { i < length self.now.footer.leaves }
        ensures { slice_get self.now.footer.leaves i ≡ Some result.now }
    {
        self.footer.leaves.get(i)
    }

    /// The leaves of the schema, in order. It takes no memory.
    pub fn leaves(&self) -> &LeafList
        ensures { result.now ≡ self.now.footer.leaves }
    {
        &self.footer.leaves
    }

    /// The column of a leaf, over all row groups, or the first fault: Mismatch where the leaf doesn't
    /// hold values of the type; then chunk by chunk Compressed, BadParquet, Encoding and Range, as
    /// `parquet_pages::read_chunk` has them; and TextLimit where the texts or bytes of the column have
    /// more than `text_left` bytes together. A column has a value for each row of the file.
    pub fn column(
        &self,
        alloc: Global,
        i: usize,
        kind: &DataType,
        nullable: bool,
        text_left: u64,
    ) -> Result<AnyColumn, FileFault>
        requires leaf { i < length self.now.footer.leaves }
        requires kind { IsWellFormed kind.now }
        ensures values { (leaf : ALeaf) → slice_get self.now.footer.leaves i ≡ Some leaf
            → let wanted : Wanted = record { kind = kind.now; nullable = nullable; leaf = leaf } in
            Gives (λ column. column) (go (column_of self.now i wanted text_left)
            (λ values. Ok (record { kind = kind.now; values = values }))) result }
        ensures rows { IfOk result (λ column. pos (length column.values) ≡ self.now.footer.rows) }
    {
        laws::chunks_are_whole();
        // The footer is sound, so that the rows of its groups add up.
        let _ = &self.footer;
        self.read_column(alloc, i, kind, nullable, text_left)
    }

    // The column of a leaf, or the first fault.
    fn read_column(
        &self,
        alloc: Global,
        i: usize,
        kind: &DataType,
        nullable: bool,
        text_left: u64,
    ) -> Result<AnyColumn, FileFault>
        requires leaf { i < length self.now.footer.leaves }
        requires kind { IsWellFormed kind.now }
        ensures { (leaf : ALeaf) → slice_get self.now.footer.leaves i ≡ Some leaf
            → let wanted : Wanted = record { kind = kind.now; nullable = nullable; leaf = leaf } in
            Gives (λ column. column) (go (column_of self.now i wanted text_left)
            (λ values. Ok (record { kind = kind.now; values = values }))) result }
    {
        laws::columns_grow();
        let leaf = self.footer.leaves.get(i);
        if !fits(kind, leaf) {
            return Err(FileFault::Mismatch);
        }
        let reader = ColumnReader::new(alloc, *kind, nullable, text_left);
        let groups = self.footer.groups.as_slice();
        let reader = read_groups(alloc, self.pages, groups, leaf, i, reader)?;
        reader.finish()
    }
}

// A count of rows.
fn count_of(rows: i64) -> u64
    requires { pos 0 ≤ℤ rows }
    ensures { pos result ≡ rows }
{
    rows as u64
}

// The chunk of the i-th leaf.
fn chunk_at(group: &RowGroup, i: usize) -> &ChunkMeta
    requires { i < length group.now.chunks }
    ensures { slice_get group.now.chunks i ≡ Some result.now }
{
    group.chunks.get(i)
}

// How many rows a row group has.
fn rows_in(group: &RowGroup) -> usize
    requires { pos 0 ≤ℤ group.now.rows }
    ensures { pos result ≡ group.now.rows }
{
    count_of(group.rows) as usize
}

// Adds the values of the i-th leaf in row groups, one after the other.
fn read_groups(
    alloc: Global,
    pages: &[u8],
    groups: &[RowGroup],
    leaf: &LeafSchema,
    i: usize,
    reader: ColumnReader,
) -> Result<ColumnReader, FileFault>
    requires { All (HasChunk i) groups.now }
    ensures { Gives (λ reader. reader) (go (chunks_values pages.now (wanted reader leaf.now) (chunks_of i groups.now))
        (λ values. Ok (with_more values reader))) result }
{
    laws::columns_grow();
    let mut reader = reader;
    for group in groups {
        let chunk = chunk_at(group, i);
        reader = reader.add_chunk(alloc, pages, chunk, leaf, rows_in(group))?;
    }
    Ok(reader)
}
