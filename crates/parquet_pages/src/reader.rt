// Columns that are read of chunks.
ghost use Rattle.std.specs.Prelude.{◌≡◌, Ok};
ghost use Rattle.dm_types.specs.Ranges.{IsWellFormed};
ghost use Rattle.dm_types.specs.Then.{go};
ghost use Rattle.parquet_pages.specs.Answers.{Gives};
ghost use Rattle.parquet_pages.specs.Chunk.{chunk_values, chunk_column};
ghost use Rattle.parquet_pages.specs.Kept.{begun, finished, with_more};
ghost use Rattle.parquet_pages.specs.Pages.{Wanted};
ghost use Rattle.parquet_pages.specs.Views.{wanted};

use crate::chunk::take_chunk;
use crate::fault::FileFault;
use crate::kept::{KeptColumn, Reading};
use crate::types::fits;
use column_vectors::AnyColumn;
use dm_types::DataType;
use parquet_meta::{ChunkMeta, LeafSchema};
use std::alloc::Global;
use std::marker::Model;

/// A column that is read of chunks, one after the other: begun by `new`, and taken by `finish`.
#[derive(Drop)]
pub struct ColumnReader {
    reading: Reading,
}

impl Model for ColumnReader {
    ghost use Rattle.parquet_pages.specs.Kept.{IsReading};
    ghost use Rattle.parquet_pages.specs.declared.kept.Reading.{Reading};

    ghost Value = { Reading };

    ghost view = { λ reader. reader.reading };

    ghost invariant = { λ reader. IsReading reader.reading };
}

impl ColumnReader {
    /// A column of a type, without rows. Its texts or bytes may have `text_left` bytes together. It
    /// takes no memory.
    pub fn new(alloc: Global, kind: DataType, nullable: bool, text_left: u64) -> ColumnReader
        requires { IsWellFormed kind }
        ensures { result ≡ begun kind nullable text_left }
    {
        let column = AnyColumn::new(alloc, kind);
        ColumnReader {
            reading: Reading {
                kind,
                nullable,
                kept: Some(KeptColumn { column, text_left }),
            },
        }
    }

    /// Adds the values of a chunk of a leaf that fits the type. `file` is the file's bytes before its
    /// footer.
    ///
    /// The faults are those of `read_chunk` but Mismatch and TextLimit, in its order: a column whose text
    /// has passed the limit is refused by `finish`.
    pub fn add_chunk(
        self,
        alloc: Global,
        file: &[u8],
        chunk: &ChunkMeta,
        leaf: &LeafSchema,
        rows: usize,
    ) -> Result<ColumnReader, FileFault>
        ensures { Gives (λ reader. reader)
            (go (chunk_values file.now chunk.now (wanted self leaf.now) rows) (λ values. Ok (with_more values self)))
            result }
    {
        let ColumnReader { mut reading } = self;
        take_chunk(alloc, &mut reading, file, chunk, leaf, rows)?;
        Ok(ColumnReader { reading })
    }

    /// The column, or TextLimit where its text has passed the limit. It takes no memory.
    pub fn finish(self) -> Result<AnyColumn, FileFault>
        ensures { result ≡ finished self.kept }
    {
        match self.reading.kept {
            Some(kept) => Ok(kept.column),
            None => Err(FileFault::TextLimit),
        }
    }
}

/// The column of a chunk (parquet.thrift, `ColumnMetaData`, `PageHeader`; Encodings.md).
///
/// `file` is the file's bytes before its footer, so that a chunk lies between byte 4 and their end. The
/// column is of the type `kind`, has `rows` values, and is null only where `nullable` is set; its texts
/// or bytes have at most `text_left` bytes together. The faults come in this order:
///
/// - Mismatch where the leaf doesn't hold values of the type, by `fits`;
/// - Compressed where the chunk is compressed;
/// - BadParquet where its place isn't within the file, or it hasn't `rows` values;
/// - then page after page BadParquet for the header, Encoding for a type of page or an encoding that
///   isn't read, BadParquet for the body, Range for a value out of the type's range or a null that the
///   column doesn't take;
/// - TextLimit where the text passes `text_left`. Nothing of what passes it is kept.
pub fn read_chunk(
    alloc: Global,
    file: &[u8],
    chunk: &ChunkMeta,
    leaf: &LeafSchema,
    kind: &DataType,
    nullable: bool,
    rows: usize,
    text_left: u64,
) -> Result<AnyColumn, FileFault>
    requires { IsWellFormed kind.now }
    ensures { let wanted : Wanted = record { kind = kind.now; nullable = nullable; leaf = leaf.now } in
        Gives (λ column. column) (go (chunk_column file.now chunk.now wanted rows text_left)
        (λ values. Ok (record { kind = kind.now; values = values }))) result }
{
    if !fits(kind, leaf) {
        return Err(FileFault::Mismatch);
    }
    let reader = ColumnReader::new(alloc, *kind, nullable, text_left);
    let reader = reader.add_chunk(alloc, file, chunk, leaf, rows)?;
    reader.finish()
}
