// The columns of a new table, and the names of those that it is partitioned by.
ghost use Rattle.std.specs.Prelude.{◌≡◌, ◌∷◌, ◌++◌, IfOk, OnOk, option_map, find};
ghost use Rattle.std.specs.Option.{option_copied};
ghost use Rattle.table_make.specs.NewColumns as spec;

use crate::elements::type_of;
use crate::names::{is_named, same_name};
use delta_schema::{ColumnDef, IdentityRule, TableSchema};
use dm_types::{Text, TextList, TextPairs};
use sql_statements::{ColumnElement, Element, Made};
use sql_tree::Name;
use std::alloc::{AllocError, Global};

/// The columns of a new table, in the order of their elements, numbered from 1 (PROTOCOL.md, "Schema
/// Serialization Format").
///
/// Where the table's id is given, each column has its number as its id, and a physical name of number
/// and id (PROTOCOL.md, "Column Mapping").
#[tactic(auto, unfolding(crate::specs::NewColumns::columns_of))]
pub(crate) fn columns(
    alloc: Global,
    elements: &[Element],
    partitions: &[Name],
    mapping: Option<&Text>,
) -> Result<TableSchema, AllocError>
    ensures { IfOk result (λ columns. columns
        ≡ spec.columns_of partitions.now (option_copied mapping.entry) elements.now) }
{
    let mut columns = TableSchema::new(alloc);
    for element in elements {
        if let Element::Column(element) = element {
            let number = columns.len() + 1;
            columns.push(column(alloc, partitions, mapping, number, element)?)?;
        }
    }
    Ok(columns)
}

// The column that an element says.
fn column(
    alloc: Global,
    partitions: &[Name],
    mapping: Option<&Text>,
    number: usize,
    element: &ColumnElement,
) -> Result<ColumnDef, AllocError>
    ensures { IfOk result (λ column. column
        ≡ spec.column_of partitions.now (option_copied mapping.entry) (number, element.now)) }
{
    Ok(ColumnDef {
        name: element.name.text.clone()?,
        kind: type_of(element.kind.kind),
        nullable: element.nullable,
        partition: is_named(partitions, &element.name.text),
        id: id(mapping, number),
        physical: physical(alloc, mapping, number)?,
        generation: generation(&element.made)?,
        identity: identity(&element.made),
        invariant: false,
        other: TextPairs::new(alloc),
    })
}

// What stands between the parentheses of a generated column.
fn generation(made: &Option<Made>) -> Result<Option<Text>, AllocError>
    ensures { IfOk result (λ text. text ≡ spec.generation_of made.now) }
{
    match made {
        Some(Made::Generated(rule)) => Ok(Some(rule.text.clone()?)),
        _ => Ok(None),
    }
}

// The rule of an identity column, of which no value is made yet.
fn identity(made: &Option<Made>) -> Option<IdentityRule>
    ensures { result ≡ spec.identity_of made.now }
{
    match made {
        Some(Made::Identity(identity)) => Some(IdentityRule {
            start: identity.start,
            step: identity.step,
            mark: None,
            explicit: identity.explicit,
        }),
        _ => None,
    }
}

// The id of a column. A table has far fewer columns than there are ids.
fn id(mapping: Option<&Text>, number: usize) -> Option<i32>
    ensures { result ≡ option_map (λ _. spec.id_of number) (option_copied mapping.entry) }
{
    match mapping {
        Some(_) => Some(i32::try_from(number).unwrap_or(i32::MAX)),
        None => None,
    }
}

// The name of a column in data files.
fn physical(
    alloc: Global,
    mapping: Option<&Text>,
    number: usize,
) -> Result<Option<Text>, AllocError>
    ensures { IfOk result (λ name. name
        ≡ option_map (spec.physical_of number) (option_copied mapping.entry)) }
{
    match mapping {
        Some(id) => Ok(Some(physical_name(alloc, id, number)?)),
        None => Ok(None),
    }
}

fn physical_name(alloc: Global, id: &Text, number: usize) -> Result<Text, AllocError>
    ensures { IfOk result (λ name. name ≡ spec.physical_of number id.now) }
{
    let start = format!(in alloc; "col-{number}-")?;
    let mut name = Text::from_str(alloc, start.as_str())?;
    name.push_str(id.as_str())?;
    Ok(name)
}

/// The names of the partition columns, as their elements spell them, in the order of PARTITIONED BY.
///
/// Each name is compared with each column. A table has at most 500 columns, so these are at most
/// 250,000 pairs.
#[tactic(auto, unfolding(crate::specs::NewColumns::partitions_of))]
pub(crate) fn partition_names(
    alloc: Global,
    columns: &[ColumnDef],
    partitions: &[Name],
) -> Result<TextList, AllocError>
    ensures { IfOk result (λ names. names ≡ spec.partitions_of columns.now partitions.now) }
{
    let mut names = TextList::new(alloc);
    for name in partitions {
        if let Some(column) = column_named(columns, &name.text) {
            names.push(column.name.clone()?)?;
        }
    }
    Ok(names)
}

// The first column of this name, up to the case of ASCII letters.
fn column_named<'a>(columns: &'a [ColumnDef], name: &Text) -> Option<&'a ColumnDef>
    ensures { option_copied result ≡ find (spec.has_name name.now) columns.entry.now }
{
    columns.iter().find(|column| same_name(&column.name, name))
}
