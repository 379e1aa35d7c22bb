// Writing a schema.
ghost use Rattle.std.specs.Prelude.{◌≡◌, IfOk, OnOk, Some, false, map, option_map, codes};
ghost use Rattle.serde_json.specs.Data.{object, no_members, string, boolean};
ghost use Rattle.serde_json.specs.View.{view, items_view, members_view, items_of};
ghost use Rattle.serde_json.specs.Written.{compact_text, has_float};
ghost use Rattle.delta_actions.specs.Written.{integer, members_onto, put_some};
ghost use Rattle.delta_schema.specs.Types.{type_name};
ghost use Rattle.delta_schema.specs.Written.{rule_fields, own_fields, whole_value as whole_value_of, other_fields, metadata_data, field_data, schema_data, written};

use crate::metadata::is_whole;
use crate::schema::{ColumnDef, IdentityRule, TableSchema};
use crate::types::type_name as name_of;
use dm_types::Text;
use serde_json::{Map, Value};
use std::alloc::{AllocError, Global};

type Object = Map<String, Value>;

// A text, left out where it isn't there.
fn put_text(
    members: &mut Object,
    alloc: Global,
    name: &str,
    text: &Option<Text>,
) -> Result<(), AllocError>
    ensures { OnOk result (members_view members.new.entries
        ≡ put_some name.now (option_map string text.now) (members_view members.old.entries)) }
{
    match text {
        Some(text) => {
            let value = Value::try_from_str(alloc, text.as_str())?;
            serde_json::put(members, alloc, name, value)
        }
        None => Ok(()),
    }
}

// A whole number, left out where it isn't there.
fn put_whole(
    members: &mut Object,
    alloc: Global,
    name: &str,
    number: Option<i64>,
) -> Result<(), AllocError>
    ensures { OnOk result (members_view members.new.entries
        ≡ put_some name.now (option_map integer number) (members_view members.old.entries)) }
{
    match number {
        Some(number) => serde_json::put(members, alloc, name, Value::from(number)),
        None => Ok(()),
    }
}

fn put_id(members: &mut Object, alloc: Global, id: Option<i32>) -> Result<(), AllocError>
    ensures { OnOk result (members_view members.new.entries
        ≡ put_some (codes "delta.columnMapping.id") (option_map integer id) (members_view members.old.entries)) }
{
    match id {
        Some(id) => serde_json::put(members, alloc, "delta.columnMapping.id", Value::from(id)),
        None => Ok(()),
    }
}

fn put_members(members: &mut Object, alloc: Global, rule: IdentityRule) -> Result<(), AllocError>
    ensures { OnOk result (members_view members.new.entries
        ≡ members_onto (members_view members.old.entries) (rule_fields (Some rule))) }
{
    put_whole(members, alloc, "delta.identity.start", Some(rule.start))?;
    put_whole(members, alloc, "delta.identity.step", Some(rule.step))?;
    put_whole(members, alloc, "delta.identity.highWaterMark", rule.mark)?;
    let name = "delta.identity.allowExplicitInsert";
    serde_json::put(members, alloc, name, Value::Bool(rule.explicit))?;
    Ok(())
}

fn put_rule(
    members: &mut Object,
    alloc: Global,
    identity: Option<IdentityRule>,
) -> Result<(), AllocError>
    ensures { OnOk result (members_view members.new.entries
        ≡ members_onto (members_view members.old.entries) (rule_fields identity)) }
{
    match identity {
        Some(rule) => put_members(members, alloc, rule),
        None => Ok(()),
    }
}

// The members that say how the column is used.
fn put_own(members: &mut Object, alloc: Global, column: &ColumnDef) -> Result<(), AllocError>
    ensures { OnOk result (members_view members.new.entries
        ≡ members_onto (members_view members.old.entries) (own_fields column.now)) }
{
    let physical = &column.physical;
    put_text(
        members,
        alloc,
        "delta.generationExpression",
        &column.generation,
    )?;
    put_id(members, alloc, column.id)?;
    put_text(members, alloc, "delta.columnMapping.physicalName", physical)?;
    put_rule(members, alloc, column.identity)?;
    Ok(())
}

// The value that a text is, where its numbers are whole.
fn whole_value(alloc: Global, text: &Text) -> Result<Option<Value>, AllocError>
    ensures { IfOk result (λ value. option_map view value ≡ whole_value_of text.now) }
{
    match Value::from_str(alloc, text.as_str()) {
        Ok(value) => Ok(if is_whole(&value) { Some(value) } else { None }),
        Err(error) if error.is_memory() => Err(AllocError),
        Err(_) => Ok(None),
    }
}

// A member, left out where its text isn't a value whose numbers are whole.
fn put_other(
    members: &mut Object,
    alloc: Global,
    name: &Text,
    text: &Text,
) -> Result<(), AllocError>
    ensures { OnOk result (members_view members.new.entries
        ≡ put_some name.now (whole_value_of text.now) (members_view members.old.entries)) }
{
    match whole_value(alloc, text)? {
        Some(value) => serde_json::put(members, alloc, name.as_str(), value),
        None => Ok(()),
    }
}

fn other_members(alloc: Global, others: &[(Text, Text)]) -> Result<Object, AllocError>
    ensures { IfOk result (λ members. members_view members.entries
        ≡ members_onto no_members (other_fields others.now)) }
{
    let mut members = Object::new(alloc);
    for (name, text) in others {
        put_other(&mut members, alloc, name, text)?;
    }
    Ok(members)
}

fn metadata(alloc: Global, column: &ColumnDef) -> Result<Value, AllocError>
    ensures { IfOk result (λ value. view value ≡ metadata_data column.now) }
{
    let mut members = other_members(alloc, column.other.as_slice())?;
    put_own(&mut members, alloc, column)?;
    Ok(Value::Object(members))
}

fn field(alloc: Global, column: &ColumnDef) -> Result<Value, AllocError>
    ensures { IfOk result (λ value. view value ≡ field_data column.now) }
{
    let metadata = metadata(alloc, column)?;
    let name = Value::try_from_str(alloc, column.name.as_str())?;
    let kind = name_of(alloc, column.kind)?;
    let mut members = Object::new(alloc);
    serde_json::put(&mut members, alloc, "metadata", metadata)?;
    serde_json::put(&mut members, alloc, "name", name)?;
    serde_json::put(
        &mut members,
        alloc,
        "nullable",
        Value::Bool(column.nullable),
    )?;
    serde_json::put(&mut members, alloc, "type", Value::String(kind))?;
    Ok(Value::Object(members))
}

fn fields(alloc: Global, columns: &[ColumnDef]) -> Result<Vec<Value>, AllocError>
    ensures { IfOk result (λ values. items_view values.items ≡ items_of (map field_data columns.now)) }
{
    let mut values = Vec::new(alloc);
    for column in columns {
        values.push(field(alloc, column)?)?;
    }
    Ok(values)
}

fn schema_value(alloc: Global, columns: &[ColumnDef]) -> Result<Value, AllocError>
    ensures { IfOk result (λ value. view value ≡ schema_data columns.now) }
{
    let fields = fields(alloc, columns)?;
    let kind = Value::try_from_str(alloc, "struct")?;
    let mut members = Object::new(alloc);
    serde_json::put(&mut members, alloc, "fields", Value::Array(fields))?;
    serde_json::put(&mut members, alloc, "type", kind)?;
    Ok(Value::Object(members))
}

/// The text of a schema (PROTOCOL.md, "Schema Serialization Format"): compact JSON, with members in
/// byte order of their names.
///
/// Each field has its metadata, which is empty where the column has none. A member of `other` whose
/// text isn't JSON, or has a number that isn't whole and of 64 bits, is left out, and so is
/// `invariant`. What is written for a schema is read as that schema where [`crate::laws`] say.
#[tactic(auto, using(crate::proofs::NoFloat::schema_none), unfolding(crate::specs::Written::written))]
pub fn write_schema(alloc: Global, schema: &TableSchema) -> Result<Text, AllocError>
    ensures text { IfOk result (λ text. text ≡ written schema.now) }
{
    let value = schema_value(alloc, schema.as_slice())?;
    let text = value.to_string(alloc)?;
    Text::from_str(alloc, text.as_str())
}
