// The table's columns of a file.
ghost use Rattle.std.specs.Prelude.{◌≡◌, length, [], All, IfOk, IfSome};
ghost use Rattle.column_mapping.specs.Places.{IsWithin};
ghost use Rattle.dm_types.specs.Ranges.{IsWellFormed, IsNullOrInRange};
ghost use Rattle.data_file.specs.Answers.{Gives};
ghost use Rattle.data_file.specs.Steps.{AreConstants};
ghost use Rattle.data_file.specs.Stored.{rows_in};
ghost use Rattle.data_file.specs.Table as spec;
ghost use Rattle.data_file.specs.Wanted.{wanted};

use crate::columns::Columns;
use crate::fault::{PartColumn, PartFault};
use crate::partitions::{Constants, constants, text_behind};
use crate::stored::{Sought, repeated, stored};
use column_mapping::resolve;
use column_vectors::{AnyColumn, Batch};
use dm_types::{PartitionValues, Value};
use parquet_file::ParquetFile;
use std::alloc::Global;

// A column of the table, and the room for text behind it.
fn table_column(
    alloc: Global,
    file: &ParquetFile<'_>,
    sought: &Sought,
    constant: &Option<Value>,
    left: u64,
) -> Result<(AnyColumn, u64), PartFault>
    requires kind { IsWellFormed sought.now.kind }
    requires place { IsWithin file.now.footer.leaves sought.now.place }
    requires value { IfSome constant.now (IsNullOrInRange sought.now.kind) }
    ensures found { Gives (λ found. found) (spec.table_column file.now sought.now constant.now left) result }
    ensures rows { IfOk result (λ found. length found.0.values ≡ rows_in file.now) }
{
    match constant {
        Some(value) => {
            let column = repeated(alloc, sought.kind, value, file.rows())?;
            Ok((column, left))
        }
        None => stored(alloc, file, sought, left),
    }
}

// The columns, of which the partition columns have these values, and the room for text behind them.
fn columns_from(
    alloc: Global,
    file: &ParquetFile<'_>,
    columns: &Columns<'_>,
    constants: &Constants,
    left: u64,
) -> Result<(Batch, u64), PartFault>
    requires kinds { All (λ column. IsWellFormed column.kind) columns.now.schema.now }
    requires constants { AreConstants columns.now.schema.now constants.now }
    ensures found { Gives (λ found. (found.0.columns, found.1))
        (spec.columns_from file.now columns.now.mode constants.now columns.now.schema.now ([], left)) result }
    ensures rows { IfOk result (λ found. found.0.rows ≡ rows_in file.now) }
{
    let places = resolve(alloc, columns.schema, columns.mode, file.leaves())?;
    let mut batch = Batch::new(alloc, file.rows() as usize);
    let mut left = left;
    for (at, column) in columns.schema.as_slice().iter().enumerate() {
        let sought = Sought {
            column: PartColumn::Table(at),
            kind: column.kind,
            nullable: column.nullable,
            place: *places.get(at),
        };
        let (read, behind) = table_column(alloc, file, &sought, constants.get(at), left)?;
        batch.push(read)?;
        left = behind;
    }
    Ok((batch, left))
}

/// All columns of the table, and the room for text behind them: first the partition values are read
/// and their text counted, then the columns of the file.
pub(crate) fn table_of(
    alloc: Global,
    file: &ParquetFile<'_>,
    columns: &Columns<'_>,
    values: &PartitionValues,
    text: u64,
) -> Result<(Batch, u64), PartFault>
    requires { All (λ column. IsWellFormed column.kind) columns.now.schema.now }
    ensures found { Gives (λ found. (found.0.columns, found.1))
        (spec.table_of file.now (wanted columns.now) values.now text) result }
    ensures rows { IfOk result (λ found. found.0.rows ≡ rows_in file.now) }
{
    let constants = constants(alloc, columns, values)?;
    let left = text_behind(alloc, columns.schema, &constants, file.rows(), text)?;
    columns_from(alloc, file, columns, &constants, left)
}
