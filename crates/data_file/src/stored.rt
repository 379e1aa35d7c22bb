// Columns that a file holds.
ghost use Rattle.std.specs.Prelude.{◌≡◌, ◌<◌, ◌≤◌, length, replicate, option_map, Ok, IfOk, IfSome};
ghost use Rattle.std.specs.Option.{option_copied};
ghost use Rattle.column_mapping.specs.Places.{IsWithin};
ghost use Rattle.dm_types.specs.Lanes.{IsNullOrOf};
ghost use Rattle.dm_types.specs.Ranges.{IsWellFormed};
ghost use Rattle.dm_types.specs.Then.{go};
ghost use Rattle.dm_types.specs.declared.value.DataType.TheVariants.{Long};
ghost use Rattle.parquet_pages.specs.Kept.{text_size as text_size_of};
ghost use Rattle.data_file.specs.Answers.{Gives};
ghost use Rattle.data_file.specs.Steps.{full_place};
ghost use Rattle.data_file.specs.Stored as spec;
ghost use Rattle.data_file.specs.Stored.{rows_in};

use crate::fault::{PartColumn, PartFault, fault_in};
use crate::texts::text_size;
use column_mapping::{PlaceChoice, find_named};
use column_vectors::AnyColumn;
use dm_types::{DataType, Text, Value};
use parquet_file::ParquetFile;
use std::alloc::{AllocError, Global};

/// A column that is sought in a file.
#[derive(Drop)]
pub(crate) struct Sought {
    /// Which one it is.
    pub(crate) column: PartColumn,
    /// The type of its values.
    pub(crate) kind: DataType,
    /// Whether it takes nulls.
    pub(crate) nullable: bool,
    /// Where it is.
    pub(crate) place: PlaceChoice,
}

/// The column with the same value in each of so many rows.
pub fn repeated(
    alloc: Global,
    kind: DataType,
    value: &Value,
    rows: u64,
) -> Result<AnyColumn, AllocError>
    requires { IsNullOrOf kind value.now }
    ensures { IfOk result (λ column. column ≡ record { kind = kind; values = replicate rows value.now }) }
{
    let mut column = AnyColumn::new(alloc, kind);
    for _ in 0..rows {
        column.push(value.clone()?)?;
    }
    Ok(column)
}

// The column of the leaf at a place.
fn leaf_column(
    alloc: Global,
    file: &ParquetFile<'_>,
    sought: &Sought,
    at: usize,
    left: u64,
) -> Result<AnyColumn, PartFault>
    requires kind { IsWellFormed sought.now.kind }
    requires leaf { at < length file.now.footer.leaves }
    ensures column { Gives (λ column. column)
        (spec.cells sought.now.kind (spec.leaf_values file.now left sought.now at)) result }
    ensures rows { IfOk result (λ column. length column.values ≡ rows_in file.now) }
{
    match file.column(alloc, at, &sought.kind, sought.nullable, left) {
        Ok(column) => Ok(column),
        Err(fault) => Err(fault_in(sought.column, fault)),
    }
}

// A column, wherever it is.
fn column_at(
    alloc: Global,
    file: &ParquetFile<'_>,
    sought: &Sought,
    left: u64,
) -> Result<AnyColumn, PartFault>
    requires kind { IsWellFormed sought.now.kind }
    requires place { IsWithin file.now.footer.leaves sought.now.place }
    ensures column { Gives (λ column. column)
        (spec.cells sought.now.kind (spec.values_at file.now left sought.now sought.now.place)) result }
    ensures rows { IfOk result (λ column. length column.values ≡ rows_in file.now) }
{
    match sought.place {
        PlaceChoice::Missing => {
            let column = repeated(alloc, sought.kind, &Value::Null, file.rows())?;
            Ok(column)
        }
        PlaceChoice::At(at) => leaf_column(alloc, file, sought, at, left),
        PlaceChoice::Partition | PlaceChoice::Wrong => Err(PartFault::Mismatch {
            column: sought.column,
        }),
    }
}

/// A column that is sought, and the room for text behind it.
pub(crate) fn stored(
    alloc: Global,
    file: &ParquetFile<'_>,
    sought: &Sought,
    left: u64,
) -> Result<(AnyColumn, u64), PartFault>
    requires kind { IsWellFormed sought.now.kind }
    requires place { IsWithin file.now.footer.leaves sought.now.place }
    ensures found { Gives (λ found. found) (spec.stored file.now sought.now left) result }
    ensures kind { IfOk result (λ found. found.0.kind ≡ sought.now.kind) }
    ensures rows { IfOk result (λ found. length found.0.values ≡ rows_in file.now) }
{
    let column = column_at(alloc, file, sought, left)?;
    let taken = text_size(&column);
    Ok((column, left - taken))
}

// Where a column is that takes no nulls, from where it would be if it took them.
fn full(place: PlaceChoice) -> PlaceChoice
    ensures { result ≡ full_place place }
{
    match place {
        PlaceChoice::Missing => PlaceChoice::Wrong,
        place => place,
    }
}

/// A column that every mode finds by its name.
pub(crate) fn named(
    file: &ParquetFile<'_>,
    column: PartColumn,
    kind: DataType,
    nullable: bool,
    name: &Text,
) -> Sought
    ensures sought { result ≡ spec.named column kind nullable file.now.footer.leaves name.now }
    ensures within { IsWithin file.now.footer.leaves result.place }
{
    let place = find_named(name, file.leaves());
    let place = if nullable { place } else { full(place) };
    Sought {
        column,
        kind,
        nullable,
        place,
    }
}

/// The materialized column of this name, if there is a name, and the room for text behind it.
pub(crate) fn materialized(
    alloc: Global,
    file: &ParquetFile<'_>,
    column: PartColumn,
    name: Option<&Text>,
    left: u64,
) -> Result<(Option<AnyColumn>, u64), PartFault>
    ensures found { Gives (λ found. found)
        (spec.materialized file.now column (option_copied name.entry) left) result }
    ensures kind { IfOk result (λ found. IfSome found.0 (λ column. column.kind ≡ Long)) }
    ensures rows { IfOk result (λ found. IfSome found.0 (λ column. length column.values ≡ rows_in file.now)) }
{
    match name {
        None => Ok((None, left)),
        Some(name) => {
            let sought = named(file, column, DataType::Long, true, name);
            let (column, left) = stored(alloc, file, &sought, left)?;
            Ok((Some(column), left))
        }
    }
}
