// The columns of a schema text.
ghost use Rattle.std.specs.Prelude.{◌≡◌, All, Some, [], IfOk, option_map};
ghost use Rattle.dm_types.specs.Ranges.{IsWellFormed};
ghost use Rattle.serde_json.specs.View.{view, items_view};
ghost use Rattle.delta_schema.specs.Answers.{ReadsSchema};
ghost use Rattle.delta_schema.specs.Columns.{fields_of, names_of, struct_columns as struct_columns_of, columns_of, answer as answer_of, schema_of, typed as typed_of};
ghost use Rattle.delta_schema.specs.StepsReading.{Gives, GivesTyped};

use crate::fault::{Fault, SchemaFault};
use crate::fields::columns;
use crate::members::{member, needed};
use crate::names::are_good_names;
use crate::schema::{ColumnDef, TableSchema};
use dm_types::{Items, Text, TextList};
use serde_json::Value;
use std::alloc::Global;

/// The greatest number of columns.
pub const MAX_COLUMNS: usize = 500;

// The fields of a schema, which is a struct.
fn fields(value: &Value) -> Option<&[Value]>
    ensures { option_map (λ fields. items_view fields.now) result ≡ fields_of (view value.now) }
{
    let kind = member(value, "type")?.as_str()?;
    let fields = member(value, "fields")?.as_array()?;
    if kind == "struct" {
        Some(fields.as_slice())
    } else {
        None
    }
}

fn names(alloc: Global, fields: &[Value]) -> Result<TextList, Fault>
    ensures { Gives (names_of (items_view fields.now)) result }
{
    let mut names = Items::new(alloc);
    for field in fields {
        names.push(needed(alloc, field, "name")?)?;
    }
    Ok(names)
}

fn struct_columns(
    alloc: Global,
    value: &Value,
    partitions: &[Text],
) -> Result<Items<Result<ColumnDef, Text>>, Fault>
    ensures { Gives (struct_columns_of partitions.now (view value.now)) result }
{
    let Some(fields) = fields(value) else {
        return Err(Fault::Bad);
    };
    let names = names(alloc, fields)?;
    if !are_good_names(alloc, names.as_slice(), partitions)? {
        return Err(Fault::Bad);
    }
    columns(alloc, partitions, fields)
}

// The columns, each by its name alone where its type is none that a column may have.
fn text_columns(
    alloc: Global,
    text: &Text,
    partitions: &[Text],
) -> Result<Items<Result<ColumnDef, Text>>, Fault>
    ensures { Gives (columns_of text.now partitions.now) result }
{
    match Value::from_str(alloc, text.as_str()) {
        Ok(value) => struct_columns(alloc, &value, partitions),
        Err(error) if error.is_memory() => Err(Fault::Memory),
        Err(_) => Err(Fault::Bad),
    }
}

// The columns, where each has a type.
#[tactic(auto, unfolding(crate::specs::Columns::typed))]
fn typed(alloc: Global, columns: Items<Result<ColumnDef, Text>>) -> Result<TableSchema, SchemaFault>
    ensures { GivesTyped (typed_of [] columns) result }
{
    let mut found = TableSchema::new(alloc);
    for column in columns.into_vec() {
        match column {
            Ok(column) => found.push(column)?,
            Err(column) => return Err(SchemaFault::UnsupportedType { column }),
        }
    }
    Ok(found)
}

fn answer(
    alloc: Global,
    columns: Items<Result<ColumnDef, Text>>,
) -> Result<TableSchema, SchemaFault>
    ensures { ReadsSchema (answer_of (Some columns)) result }
{
    let found = typed(alloc, columns)?;
    if found.len() > MAX_COLUMNS {
        return Err(SchemaFault::TooMany);
    }
    Ok(found)
}

/// The columns of a schema text, of a table that is partitioned by the columns of these names
/// (PROTOCOL.md, "Schema Serialization Format").
///
/// A column may be of the types `string`, `long`, `integer`, `short`, `byte`, `boolean`, `binary`,
/// `date`, `timestamp` and `decimal(p,s)` in exactly this spelling, p being from 1 to 38 and s from
/// 0 to p. What is wrong with the text is answered in this order, each over all columns:
///
/// - BadSchema: a member is missing or hasn't its form; a number in metadata isn't whole; a name is
///   empty, or two names are equal up to the case of ASCII letters; a partition column isn't a
///   column, or is binary; each column is a partition column; an identity isn't of type `long`.
/// - UnsupportedType: the first column whose type is a nested one or has another name.
/// - TooMany: more than [`MAX_COLUMNS`] columns.
pub fn read_schema(
    alloc: Global,
    text: &Text,
    partitions: &TextList,
) -> Result<TableSchema, SchemaFault>
    ensures columns { ReadsSchema (schema_of text.now partitions.now) result }
    ensures kinds { IfOk result (All (λ column. IsWellFormed column.kind)) }
{
    match text_columns(alloc, text, partitions.as_slice()) {
        Ok(columns) => answer(alloc, columns),
        Err(Fault::Bad) => Err(SchemaFault::BadSchema),
        Err(Fault::Memory) => Err(SchemaFault::Memory),
    }
}
