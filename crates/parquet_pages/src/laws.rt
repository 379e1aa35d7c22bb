// Columns that are read, chunk after chunk.
ghost use Rattle.std.specs.Prelude.{◌≡◌, ℕ, Bool, true, false, List, [], ◌++◌, length, All, Ok};
ghost use Rattle.dm_types.specs.Ranges.{IsNullOrInRange, IsWellFormed};
ghost use Rattle.dm_types.specs.Then.{go};
ghost use Rattle.dm_types.specs.declared.value.DataType.{DataType as AType};
ghost use Rattle.dm_types.specs.declared.value.Value.{Value as AValue};
ghost use Rattle.parquet_meta.specs.declared.metadata.ChunkMeta.{ChunkMeta as AChunk};
ghost use Rattle.parquet_pages.specs.Chunk.{chunk_values, within};
ghost use Rattle.parquet_pages.specs.Kept.{begun, finished, with_more};
ghost use Rattle.parquet_pages.specs.Pages.{Wanted};
ghost use Rattle.parquet_pages.specs.Stored.{is_full};
ghost use Rattle.parquet_pages.specs.declared.kept.Reading.{Reading as AReading};

/// A law: values that are added after others are added as one list with them, and a column that is
/// begun and takes values is there as long as their text is within the limit.
pub fn columns_grow()
    ensures more { (first then : List AValue) (reading : AReading)
        → with_more (first ++ then) reading ≡ with_more then (with_more first reading) }
    ensures none { (reading : AReading) → with_more [] reading ≡ reading }
    ensures whole { (kind : AType) (nullable : Bool) (text_left : ℕ) (values : List AValue)
        → finished (with_more values (begun kind nullable text_left)).kept
        ≡ go (within text_left values) (λ all. Ok (record { kind = kind; values = all })) }
{}

/// A law: a chunk whose values are read has one for each of its rows.
pub fn chunks_are_whole()
    ensures { (file : List ℕ) (chunk : AChunk) (wanted : Wanted) (rows : ℕ) (values : List AValue)
        → chunk_values file chunk wanted rows ≡ Ok values → length values ≡ rows }
{
    level_runs::laws::runs_fit();
}

/// A law: the values of a chunk are null or in the range of the column's type, and none is null where
/// the column takes no null.
pub fn values_are_ranged()
    ensures ranges { (file : List ℕ) (chunk : AChunk) (wanted : Wanted) (rows : ℕ) (values : List AValue)
        → IsWellFormed wanted.kind → chunk_values file chunk wanted rows ≡ Ok values
        → All (IsNullOrInRange wanted.kind) values }
    ensures full { (file : List ℕ) (chunk : AChunk) (wanted : Wanted) (rows : ℕ) (values : List AValue)
        → IsWellFormed wanted.kind → wanted.nullable ≡ false → chunk_values file chunk wanted rows ≡ Ok values
        → All (λ value. is_full value ≡ true) values }
{}
