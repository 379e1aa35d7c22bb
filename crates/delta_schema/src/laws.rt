// What is written for schemas is read, and what is read can be written.
ghost use Rattle.std.specs.Prelude.{◌≡◌, ℕ, List, Ok, All, false};
ghost use Rattle.delta_schema.specs.declared.schema.ColumnDef.{ColumnDef as AColumn};
ghost use Rattle.delta_schema.specs.Columns.{schema_of};
ghost use Rattle.delta_schema.specs.Writable.{IsWritable, ArePartitions};
ghost use Rattle.delta_schema.specs.Written.{written};

/// A law: what is written for a schema is read as that schema, with its partition columns.
pub fn written_is_read()
    ensures { (columns : List AColumn) → (partitions : List (List ℕ)) → IsWritable columns
        → ArePartitions partitions columns → schema_of (written columns) partitions ≡ Ok columns }
{}

/// A law: what was read of a schema text can be written, unless a column has an invariant, and it has
/// the partition columns that it was read with.
pub fn read_is_writable()
    ensures writable { (text : List ℕ) → (partitions : List (List ℕ)) → (columns : List AColumn)
        → schema_of text partitions ≡ Ok columns → All (λ column. column.invariant ≡ false) columns
        → IsWritable columns }
    ensures partitions { (text : List ℕ) → (partitions : List (List ℕ)) → (columns : List AColumn)
        → schema_of text partitions ≡ Ok columns → ArePartitions partitions columns }
{}
