// What is known of the values of a file's rows.
ghost use Rattle.std.specs.Prelude.{◌≡◌, ℕ, List, All, Ok};
ghost use Rattle.dm_types.specs.Ranges.{IsWellFormed};
ghost use Rattle.data_file.specs.Answers.{AreRanged};
ghost use Rattle.data_file.specs.Partitions.{Given};
ghost use Rattle.data_file.specs.Rows.{Part, rows_of};
ghost use Rattle.data_file.specs.Wanted.{WantedColumns};
ghost use Rattle.data_file.specs.declared.room.Room.{Room as ARoom};

/// A law: each value of a file's rows is null or in the range of its column's type, and none is null
/// where the schema's column takes no null.
pub fn rows_are_ranged()
    ensures { (columns : WantedColumns) (values : Given) (bytes : List ℕ) (room : ARoom) (part : Part)
        → All (λ column. IsWellFormed column.kind) columns.schema → rows_of columns values bytes room ≡ Ok part
        → AreRanged columns.schema part.columns }
{
    dm_text::what_reads_is_in_range();
    parquet_file::laws::columns_are_ranged();
}
