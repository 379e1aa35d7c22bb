// Which leaf of a data file holds which column.
ghost use Rattle.std.specs.Prelude.{◌≡◌, true, Some, None, map, All, IfOk, option_copied};
ghost use Rattle.std.specs.Ordering.{int_eq};
ghost use Rattle.column_mapping.specs.Mapping.{shares};
ghost use Rattle.column_mapping.specs.Places.{is_named, carriers, choice_of, place_by, place_of, IsWithin};
ghost use Rattle.column_mapping.specs.Steps.{column_choice, name_in as name_of};

use crate::carriers::{carrier_named, carrier_with, ids, joined_if, names, settled, single};
use crate::mode::Mode;
use delta_schema::{ColumnDef, TableSchema};
use dm_types::{Items, Text};
use parquet_meta::{LeafList, LeafSchema};
use std::alloc::{AllocError, Global};

/// Where a column is in a data file.
#[derive(Clone, Copy, Debug, PartialEq, Eq)]
pub enum PlaceChoice {
    /// In no leaf: it is a partition column, and these aren't in data files.
    Partition,
    /// In no leaf: it reads as null.
    Missing,
    /// In the leaf at this place of the schema's leaves, counted from 0.
    At(usize),
    /// The file can't be read: no element carries a column that may not be null, or more than one
    /// does, or the one that does is a group.
    Wrong,
}

/// Where the columns of a table are in a data file, in the order of its schema.
pub type PlaceChoices = Items<PlaceChoice>;

/// Where each column of a table is among the leaves of a data file (PROTOCOL.md, "Column Mapping").
///
/// A top-level element carries a column in mode none by the column's name, in mode name by its
/// physical name, and in mode id by its id, the element's `field_id`. Names are compared byte for
/// byte. A column without a physical name, or without an id, is carried by none in that mode.
///
/// The work is linear in the columns and the leaves, but for a factor of the logarithm of the leaves.
pub fn resolve(
    alloc: Global,
    schema: &TableSchema,
    mode: Mode,
    leaves: &LeafList,
) -> Result<PlaceChoices, AllocError>
    ensures places { IfOk result (λ choices. choices ≡ map (place_of mode leaves.now) schema.now) }
    ensures within { IfOk result (λ choices. All (IsWithin leaves.now) choices) }
{
    let columns = schema.as_slice();
    let leaves = leaves.as_slice();
    match mode {
        Mode::Plain => by_name(alloc, columns, Mode::Plain, leaves),
        Mode::ByName => by_name(alloc, columns, Mode::ByName, leaves),
        Mode::ById => by_id(alloc, columns, leaves),
    }
}

/// Where a nullable column is that every mode finds by this name, as the columns of materialized row
/// ids (PROTOCOL.md, "Row Tracking"): never `Partition`.
///
/// No memory is taken: the leaves are gone through once.
pub fn find_named(name: &Text, leaves: &LeafList) -> PlaceChoice
    ensures place { result ≡ choice_of true (carriers (is_named (Some name.now)) leaves.now) }
    ensures within { IsWithin leaves.now result }
{
    let mut found = None;
    for (at, leaf) in leaves.as_slice().iter().enumerate() {
        let carries = leaf.name.as_slice() == name.as_bytes();
        found = joined_if(carries, found, single(leaf.top, at));
    }
    settled(true, found)
}

// Where columns are that a name finds.
fn by_name(
    alloc: Global,
    columns: &[ColumnDef],
    mode: Mode,
    leaves: &[LeafSchema],
) -> Result<PlaceChoices, AllocError>
    ensures places { IfOk result (λ choices. choices
        ≡ map (place_by (λ column. is_named (name_of mode column)) leaves.now) columns.now) }
    ensures within { IfOk result (λ choices. All (IsWithin leaves.now) choices) }
{
    let carried = names(alloc, leaves)?;
    let mut choices = Items::new(alloc);
    for column in columns {
        let found = carrier_named(&carried, name_in(mode, column));
        choices.push(choice(column, found))?;
    }
    Ok(choices)
}

// Where columns are that their ids find.
fn by_id(
    alloc: Global,
    columns: &[ColumnDef],
    leaves: &[LeafSchema],
) -> Result<PlaceChoices, AllocError>
    ensures places { IfOk result (λ choices. choices
        ≡ map (place_by (λ column leaf. shares int_eq leaf.field_id column.id) leaves.now) columns.now) }
    ensures within { IfOk result (λ choices. All (IsWithin leaves.now) choices) }
{
    let carried = ids(alloc, leaves)?;
    let mut choices = Items::new(alloc);
    for column in columns {
        let found = carrier_with(&carried, column.id);
        choices.push(choice(column, found))?;
    }
    Ok(choices)
}

// The name by which a mode finds a column.
fn name_in(mode: Mode, column: &ColumnDef) -> Option<&[u8]>
    ensures { option_copied result ≡ name_of mode column.now }
{
    match mode {
        Mode::Plain => Some(column.name.as_bytes()),
        Mode::ByName => column.physical.as_ref().map(Text::as_bytes),
        Mode::ById => None,
    }
}

// Where a column is that the leaves carry so.
fn choice(column: &ColumnDef, found: Option<PlaceChoice>) -> PlaceChoice
    ensures { result ≡ column_choice column.now found }
{
    if column.partition {
        PlaceChoice::Partition
    } else {
        settled(column.nullable, found)
    }
}
