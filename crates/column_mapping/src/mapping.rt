// What modes name and id ask of the columns of a table.
ghost use Rattle.std.specs.Prelude.{◌≡◌};
ghost use Rattle.std.specs.List.{list_any};
ghost use Rattle.std.specs.Ordering.{int_eq};
ghost use Rattle.std.specs.Str.{bytes_eq};
ghost use Rattle.column_mapping.specs.Mapping.{shares, lacks_mark as lacks_mark_of, clashes as clashes_of};
ghost use Rattle.column_mapping.specs.Mapping.{is_unmarked, first_broken};

use crate::mode::Mode;
use delta_schema::{ColumnDef, TableSchema};
use dm_types::Text;

/// The place of the first column that breaks the mapping, counted from 0 (PROTOCOL.md, "Column
/// Mapping").
///
/// In modes name and id each column has an id and a physical name, and none that an earlier column
/// has; names are compared byte for byte. In mode none nothing is asked.
///
/// No memory is taken: each column is compared with those before it. A table that is opened has at
/// most 500 columns, so these are at most 124,750 pairs.
pub fn check_mapping(schema: &TableSchema, mode: Mode) -> Option<usize>
    ensures { result ≡ first_broken mode schema.now }
{
    match mode {
        Mode::Plain => None,
        Mode::ByName | Mode::ById => first_unmarked(schema.as_slice()),
    }
}

// The place of the first column that its id and its physical name don't tell from those before it.
fn first_unmarked(columns: &[ColumnDef]) -> Option<usize>
    ensures { result ≡ first_broken Mode.ById columns.now }
{
    for (at, column) in columns.iter().enumerate() {
        if unmarked(&columns[..at], column) {
            return Some(at);
        }
    }
    None
}

// Whether its id and its physical name don't tell a column from those before it.
fn unmarked(earlier: &[ColumnDef], column: &ColumnDef) -> bool
    ensures { result ≡ is_unmarked earlier.now column.now }
{
    lacks_mark(column) || is_taken(earlier, column)
}

// Whether an earlier column has the id, or the physical name, of this one.
fn is_taken(earlier: &[ColumnDef], column: &ColumnDef) -> bool
    ensures { result ≡ list_any (clashes_of column.now) earlier.now }
{
    earlier.iter().any(|other| clashes(column, other))
}

// Whether a column has no id, or no physical name.
fn lacks_mark(column: &ColumnDef) -> bool
    ensures { result ≡ lacks_mark_of column.now }
{
    column.id.is_none() || column.physical.is_none()
}

// Whether two columns have the same id, or the same physical name.
fn clashes(column: &ColumnDef, other: &ColumnDef) -> bool
    ensures { result ≡ clashes_of column.now other.now }
{
    same_id(column.id, other.id) || same_name(&column.physical, &other.physical)
}

// Whether both ids are there and equal.
fn same_id(id: Option<i32>, other: Option<i32>) -> bool
    ensures { result ≡ shares int_eq id other }
{
    match (id, other) {
        (Some(id), Some(other)) => id == other,
        _ => false,
    }
}

// Whether both names are there and equal, byte for byte.
fn same_name(name: &Option<Text>, other: &Option<Text>) -> bool
    ensures { result ≡ shares bytes_eq name.now other.now }
{
    match (name, other) {
        (Some(name), Some(other)) => name == other,
        _ => false,
    }
}
