// The rows of a file.
ghost use Rattle.std.specs.Prelude.{◌≡◌, length, All, IfOk, IfSome};
ghost use Rattle.dm_types.specs.Ranges.{IsWellFormed};
ghost use Rattle.parquet_file.specs.File.{opened};
ghost use Rattle.data_file.specs.Answers.{AreRanged, Gives, HasConstants, HasLongs, HasRows, HasTypes};
ghost use Rattle.data_file.specs.Room.{or_else};
ghost use Rattle.data_file.specs.Rows.{seen, part_of as part_of_file, rows_of};
ghost use Rattle.data_file.specs.Stored.{rows_in};
ghost use Rattle.data_file.specs.Wanted.{wanted};
ghost use Rattle.data_file.specs.declared.fault.PartFault.TheVariants as fault;

use crate::columns::Columns;
use crate::fault::{PartColumn, PartFault};
use crate::kinds::kinds;
use crate::laws::rows_are_ranged;
use crate::room::{Room, less};
use crate::stored::materialized;
use crate::table::table_of;
use column_vectors::{AnyColumn, Batch};
use dm_types::{Counted, PartitionValues};
use parquet_file::{ParquetFile, open_file};
use parquet_pages::FileFault;
use std::alloc::Global;

/// The rows of one file of a table.
#[derive(Drop)]
pub struct PartRows {
    /// The columns of the table, in the order of the schema: those that aren't partition columns as
    /// the file has them, and each partition column with one value in all rows.
    pub batch: Batch,
    /// The materialized row ids, where they are asked for: null in a row without one.
    pub ids: Option<AnyColumn>,
    /// The materialized commit versions, the same.
    pub versions: Option<AnyColumn>,
    /// The kinds of changes, where they are asked for.
    pub kinds: Option<AnyColumn>,
    /// What the file leaves of the room.
    pub left: Room,
}

// A file whose footer is good.
fn file_of(alloc: Global, bytes: &[u8]) -> Result<ParquetFile<'_>, PartFault>
    ensures { Gives (λ file. file) (or_else fault.BadParquet (opened bytes.now)) result }
{
    match open_file(alloc, bytes) {
        Ok(file) => Ok(file),
        Err(FileFault::Memory) => Err(PartFault::Memory),
        Err(_) => Err(PartFault::BadParquet),
    }
}

// The rows of a file whose columns of the table are read, with the columns beside them.
fn part_of(
    alloc: Global,
    file: &ParquetFile<'_>,
    columns: &Columns<'_>,
    batch: Batch,
    room: Room,
) -> Result<PartRows, PartFault>
    requires { batch.rows ≡ rows_in file.now }
    ensures part { Gives seen (part_of_file file.now (wanted columns.now) room.cells (batch.columns, room.text)) result }
    ensures ids { IfOk result (λ part. IfSome part.ids (HasLongs part.batch.rows)) }
    ensures versions { IfOk result (λ part. IfSome part.versions (HasLongs part.batch.rows)) }
    ensures kinds { IfOk result (λ part. IfSome part.kinds (HasRows part.batch.rows)) }
{
    let (ids, text) = materialized(alloc, file, PartColumn::Ids, columns.ids, room.text)?;
    let (versions, text) = materialized(alloc, file, PartColumn::Versions, columns.versions, text)?;
    let (kinds, text) = kinds(alloc, file, columns.change, text)?;
    Ok(PartRows {
        batch,
        ids,
        versions,
        kinds,
        left: Room {
            cells: room.cells,
            text,
        },
    })
}

// The same as `read_rows`, without what follows from it.
fn file_rows(
    alloc: Global,
    columns: &Columns<'_>,
    values: &PartitionValues,
    bytes: &[u8],
    room: &Room,
) -> Result<PartRows, PartFault>
    requires { All (λ column. IsWellFormed column.kind) columns.now.schema.now }
    ensures part { Gives seen (rows_of (wanted columns.now) values.now bytes.now room.now) result }
    ensures ids { IfOk result (λ part. IfSome part.ids (HasLongs part.batch.rows)) }
    ensures versions { IfOk result (λ part. IfSome part.versions (HasLongs part.batch.rows)) }
    ensures kinds { IfOk result (λ part. IfSome part.kinds (HasRows part.batch.rows)) }
{
    let file = file_of(alloc, bytes)?;
    let width = columns.schema.len() as u64;
    let cells = less(Counted::Cells, width, file.rows(), room.cells)?;
    let (batch, text) = table_of(alloc, &file, columns, values, room.text)?;
    part_of(alloc, &file, columns, batch, Room { cells, text })
}

/// The rows of one data file or change file of a table, or the first fault, in this order:
///
/// - BadParquet where the bytes have no good footer;
/// - TooLarge Cells where its rows times the table's columns are more than the cells left;
/// - Partition for the first partition column in the schema's order whose text isn't read, or is none
///   where the column takes no null. A text that is absent, null or empty is null. It stands under
///   the column's physical name in modes name and id, where the column has one, and else under its
///   name;
/// - TooLarge TextBytes where the printed values of the partition columns, each once for each row, are
///   more than the text left;
/// - then column after column, those of the schema that aren't partition columns in its order, the
///   materialized row ids, the materialized commit versions and the kinds of changes: Mismatch where
///   the file doesn't hold it, and what `ParquetFile::column` has, its TextLimit being TooLarge
///   TextBytes over all columns so far;
/// - Range for `_change_type` where a text is none of the four kinds, or is null.
///
/// A nullable column that no element carries is null in each row, and takes no text. Each value is null
/// or in the range of its column's type, and none is null where the schema's column takes no null. The
/// bytes are lent, and gone through once; nothing of so many rows is built before the cells are counted.
pub fn read_rows(
    alloc: Global,
    columns: &Columns<'_>,
    values: &PartitionValues,
    bytes: &[u8],
    room: &Room,
) -> Result<PartRows, PartFault>
    requires { All (λ column. IsWellFormed column.kind) columns.now.schema.now }
    ensures part { Gives seen (rows_of (wanted columns.now) values.now bytes.now room.now) result }
    ensures types { IfOk result (λ part. HasTypes columns.now.schema.now part.batch.columns) }
    ensures constants { IfOk result (λ part. HasConstants columns.now.schema.now part.batch.rows part.batch.columns) }
    ensures ranges { IfOk result (λ part. AreRanged columns.now.schema.now part.batch.columns) }
    ensures ids { IfOk result (λ part. IfSome part.ids (HasLongs part.batch.rows)) }
    ensures versions { IfOk result (λ part. IfSome part.versions (HasLongs part.batch.rows)) }
    ensures kinds { IfOk result (λ part. IfSome part.kinds (HasRows part.batch.rows)) }
{
    rows_are_ranged();
    file_rows(alloc, columns, values, bytes, room)
}
