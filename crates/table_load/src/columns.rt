// The columns of a table, and by what data files carry them.
ghost use Rattle.std.specs.Prelude.{◌≡◌, All, Err, IfOk, unwrap_or};
ghost use Rattle.std.specs.Option.{option_copied};
ghost use Rattle.delta_schema.specs.Columns.{schema_of};
ghost use Rattle.dm_types.specs.Ranges.{IsWellFormed};
ghost use Rattle.dm_types.specs.declared.refusal.TableRefusal.TheVariants as refusal;
ghost use Rattle.table_load.specs.Head as spec;
ghost use Rattle.table_load.specs.StepsLoading.{Gives};

use crate::properties::property;
use column_mapping::{Mode, check_mapping};
use delta_schema::{SchemaFault, TableSchema, read_schema};
use dm_types::{Counted, Stop, TableRefusal, Text, TextList};
use log_replay::Snapshot;
use std::alloc::{AllocError, Global};

/// The property that says by what data files carry the columns (PROTOCOL.md, "Column Mapping").
const MAPPING_MODE: &str = "delta.columnMapping.mode";

// The columns that a schema text says.
fn schema(alloc: Global, text: &Text, partitions: &TextList) -> Result<TableSchema, Stop>
    ensures columns { Gives (spec.of_schema (schema_of text.now partitions.now)) result }
    ensures kinds { IfOk result (All (λ column. IsWellFormed column.kind)) }
{
    match read_schema(alloc, text, partitions) {
        Ok(columns) => Ok(columns),
        Err(SchemaFault::BadSchema) => Err(TableRefusal::BadSchema.into()),
        Err(SchemaFault::UnsupportedType { column }) => {
            Err(TableRefusal::UnsupportedType { column }.into())
        }
        Err(SchemaFault::TooMany) => {
            let counted = Counted::Columns;
            Err(TableRefusal::TooLarge { counted }.into())
        }
        Err(SchemaFault::Memory) => Err(Stop::Memory),
    }
}

// The names, or the others where there are none.
fn names_or<'a>(names: &'a Option<TextList>, none: &'a TextList) -> &'a TextList
    ensures { result.now ≡ unwrap_or names.entry.now none.entry.now }
{
    match names {
        Some(names) => names,
        None => none,
    }
}

/// The columns of a table.
pub(crate) fn columns(alloc: Global, table: &Snapshot) -> Result<TableSchema, Stop>
    ensures columns { Gives (spec.columns_in table.now) result }
    ensures kinds { IfOk result (All (λ column. IsWellFormed column.kind)) }
{
    let none = TextList::new(alloc);
    let partitions = names_or(&table.metadata.partition_columns, &none);
    schema(alloc, &table.metadata.schema_string, partitions)
}

// By what data files carry the columns; None is no mode.
fn mode_of(text: Option<&Text>) -> Option<Mode>
    ensures { result ≡ spec.mode_of (option_copied text.entry) }
{
    let Some(text) = text else {
        return Some(Mode::Plain);
    };
    match text.as_str() {
        "none" => Some(Mode::Plain),
        "name" => Some(Mode::ByName),
        "id" => Some(Mode::ById),
        _ => None,
    }
}

/// The name of the column at a place.
pub(crate) fn name_at(
    alloc: Global,
    columns: &TableSchema,
    place: usize,
) -> Result<Text, AllocError>
    ensures { IfOk result (λ name. name ≡ spec.name_at columns.now place) }
{
    match columns.as_slice().get(place) {
        Some(column) => column.name.clone(),
        None => Ok(Text::new(alloc)),
    }
}

// The column at a place breaks the mapping.
fn broken(alloc: Global, columns: &TableSchema, place: usize) -> Result<Mode, Stop>
    ensures { Gives (Err (refusal.BadMapping (spec.name_at columns.now place))) result }
{
    let column = name_at(alloc, columns, place)?;
    Err(TableRefusal::BadMapping { column }.into())
}

/// By what data files carry the columns, where each column can be told by it.
pub(crate) fn mode(alloc: Global, table: &Snapshot, columns: &TableSchema) -> Result<Mode, Stop>
    ensures { Gives (spec.mode_in table.now columns.now) result }
{
    let Some(mode) = mode_of(property(table, MAPPING_MODE)) else {
        return broken(alloc, columns, 0);
    };
    match check_mapping(columns, mode) {
        Some(place) => broken(alloc, columns, place),
        None => Ok(mode),
    }
}
