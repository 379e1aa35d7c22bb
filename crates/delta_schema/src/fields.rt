// The columns that the fields of a schema say.
ghost use Rattle.std.specs.Prelude.{◌≡◌, true, IfSome, option_map};
ghost use Rattle.serde_json.specs.Data.{object, no_members};
ghost use Rattle.serde_json.specs.View.{view, items_view};
ghost use Rattle.delta_actions.specs.Forms.{each_item};
ghost use Rattle.delta_schema.specs.Columns.{is_misplaced as is_misplaced_type, described as described_as, column_with as column_with_metadata, column_of};
ghost use Rattle.delta_schema.specs.Metadata.{is_whole, metadata_of};
ghost use Rattle.delta_schema.specs.Names.{is_among};
ghost use Rattle.delta_schema.specs.StepsReading.{Gives, is_held};

use crate::fault::Fault;
use crate::members::{kept, member, needed};
use crate::metadata::{identity, is_metadata, others};
use crate::names::set_of;
use crate::schema::ColumnDef;
use dm_types::{DataType, Items, Text};
use serde_json::{Map, Value};
use std::alloc::Global;
use std::collections::BTreeSet;

// Whether a partition column is of bytes, or an identity of another type than long.
fn is_misplaced(kind: Option<DataType>, partition: bool, identity: bool) -> bool
    ensures { result ≡ is_misplaced_type kind partition identity }
{
    match kind {
        Some(DataType::Binary) => partition || identity,
        Some(DataType::Long) => false,
        _ => identity,
    }
}

// The column of a field with this metadata, whatever its type.
#[tactic(auto, unfolding(crate::specs::Columns::described))]
fn described(
    alloc: Global,
    partitions: &BTreeSet<Text>,
    field: &Value,
    metadata: &Value,
    kind: DataType,
) -> Result<ColumnDef, Fault>
    requires { is_whole (view metadata.now) ≡ true }
    ensures { Gives (described_as (is_held partitions.now.keys) (view field.now) (view metadata.now) kind) result }
{
    let name: Text = needed(alloc, field, "name")?;
    let nullable = needed(alloc, field, "nullable")?;
    let id = kept(alloc, metadata, "delta.columnMapping.id")?;
    let physical = kept(alloc, metadata, "delta.columnMapping.physicalName")?;
    let generation = kept(alloc, metadata, "delta.generationExpression")?;
    let identity = identity(alloc, metadata)?;
    let partition = partitions.contains(&name);
    Ok(ColumnDef {
        name,
        kind,
        nullable,
        partition,
        id,
        physical,
        generation,
        identity,
        invariant: metadata.get("delta.invariants").is_some(),
        other: others(alloc, identity.is_some(), metadata)?,
    })
}

// The column of a field with this metadata, or its name alone where its type is none that a column
// may have.
fn column_with(
    alloc: Global,
    partitions: &BTreeSet<Text>,
    field: &Value,
    metadata: &Value,
) -> Result<Result<ColumnDef, Text>, Fault>
    requires { is_whole (view metadata.now) ≡ true }
    ensures { Gives (column_with_metadata (is_held partitions.now.keys) (view field.now) (view metadata.now)) result }
{
    let kind: Option<DataType> = needed(alloc, field, "type")?;
    let placeholder = kind.unwrap_or(DataType::Void);
    let column = described(alloc, partitions, field, metadata, placeholder)?;
    if is_misplaced(kind, column.partition, column.identity.is_some()) {
        return Err(Fault::Bad);
    }
    Ok(if kind.is_some() {
        Ok(column)
    } else {
        Err(column.name)
    })
}

// The metadata of a field, or this where it has none.
fn metadata<'a>(field: &'a Value, none: &'a Value) -> Option<&'a Value>
    requires { view none.now ≡ object no_members }
    ensures found { option_map (λ metadata. view metadata.now) result ≡ metadata_of (view field.now) }
    ensures whole { IfSome result (λ metadata. is_whole (view metadata.now) ≡ true) }
{
    let metadata = member(field, "metadata").unwrap_or(none);
    if is_metadata(metadata) {
        Some(metadata)
    } else {
        None
    }
}

// The column of a field.
#[tactic(auto, unfolding(crate::specs::Columns::column_of))]
fn column(
    alloc: Global,
    partitions: &BTreeSet<Text>,
    field: &Value,
) -> Result<Result<ColumnDef, Text>, Fault>
    ensures { Gives (column_of (is_held partitions.now.keys) (view field.now)) result }
{
    let none = Value::Object(Map::new(alloc));
    match metadata(field, &none) {
        Some(metadata) => column_with(alloc, partitions, field, metadata),
        None => Err(Fault::Bad),
    }
}

fn field_columns(
    alloc: Global,
    partitions: &BTreeSet<Text>,
    fields: &[Value],
) -> Result<Items<Result<ColumnDef, Text>>, Fault>
    ensures { Gives (each_item (column_of (is_held partitions.now.keys)) (items_view fields.now)) result }
{
    let mut columns = Items::new(alloc);
    for field in fields {
        columns.push(column(alloc, partitions, field)?)?;
    }
    Ok(columns)
}

/// The columns of the fields in turn, each by its name alone where its type is none that a column may
/// have.
pub(crate) fn columns(
    alloc: Global,
    partitions: &[Text],
    fields: &[Value],
) -> Result<Items<Result<ColumnDef, Text>>, Fault>
    ensures { Gives (each_item (column_of (is_among partitions.now)) (items_view fields.now)) result }
{
    let set = set_of(alloc, partitions)?;
    field_columns(alloc, &set, fields)
}
