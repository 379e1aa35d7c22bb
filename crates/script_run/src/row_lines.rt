// Rows as lines of fields.
ghost use Rattle.std.specs.Prelude.{◌≡◌, ◌∷◌, [], ◌++◌, ◌<◌, length, map, All, OnOk, IfOk};
ghost use Rattle.dm_text.specs.Printing.{value_field};
ghost use Rattle.dm_types.specs.Order.{in_byte_order};
ghost use Rattle.row_tracking.specs.Order.{in_id_order};
ghost use Rattle.script_run.specs.RowLines as spec;
ghost use Rattle.script_run.specs.StepsRows.{HasCell, IsPrintable, cells_text, line_at, value_at};

use crate::line_order::sort_lines;
use column_vectors::{AnyColumn, AnyColumns};
use dm_text::print_field;
use dm_types::{Bytes, DataType, Value};
use row_tracking::{RowId, RowIds, places_by_id};
use std::alloc::{AllocError, Global};

/// Adds a line for each row, in the order of their ids: the row's id, its commit version and its
/// values.
pub(crate) fn print_by_id(
    alloc: Global,
    ids: &RowIds,
    columns: &AnyColumns,
    out: &mut Bytes,
) -> Result<(), AllocError>
    requires { All (IsPrintable (length ids.now)) columns.now }
    ensures { OnOk result (out.new ≡ out.old
        ++ spec.lines_text (map (line_at columns.now ids.now) (in_id_order ids.now))) }
{
    let places = places_by_id(alloc, ids)?;
    print_lines(ids, columns, places.as_slice(), out)
}

/// Adds a line for each row, in byte order of the lines: the row's id, its commit version and its
/// values.
pub(crate) fn print_by_bytes(
    alloc: Global,
    ids: &RowIds,
    columns: &AnyColumns,
    out: &mut Bytes,
) -> Result<(), AllocError>
    requires { All (IsPrintable (length ids.now)) columns.now }
    ensures { OnOk result (out.new ≡ out.old
        ++ spec.lines_text (in_byte_order (map (line_at columns.now ids.now) (in_id_order ids.now)))) }
{
    let places = places_by_id(alloc, ids)?;
    let mut lines = lines_at(alloc, ids, columns, places.as_slice())?;
    sort_lines(&mut lines);
    print_all(&lines, out)
}

// The line of the row at each place, without line feeds.
fn lines_at(
    alloc: Global,
    ids: &RowIds,
    columns: &AnyColumns,
    places: &[usize],
) -> Result<Vec<Vec<u8>>, AllocError>
    requires columns { All (IsPrintable (length ids.now)) columns.now }
    requires within { All (λ place. place < length ids.now) places.now }
    ensures { IfOk result (λ lines. map (λ line. line.items) lines.items
        ≡ map (line_at columns.now ids.now) places.now) }
{
    let mut lines = Vec::with_capacity(alloc, places.len())?;
    for place in places {
        let mut line = Bytes::new(alloc);
        print_row(ids, columns, *place, &mut line)?;
        lines.push(line.into_vec())?;
    }
    Ok(lines)
}

/// Adds lines, each with a line feed behind it.
pub(crate) fn print_all(lines: &[Vec<u8>], out: &mut Bytes) -> Result<(), AllocError>
    ensures { OnOk result (out.new ≡ out.old ++ spec.lines_text (map (λ line. line.items) lines.now)) }
{
    for line in lines {
        out.extend_from_slice(line.as_slice())?;
        out.push(b'\n')?;
    }
    Ok(())
}

// Adds the line of the row at each place.
fn print_lines(
    ids: &RowIds,
    columns: &AnyColumns,
    places: &[usize],
    out: &mut Bytes,
) -> Result<(), AllocError>
    requires columns { All (IsPrintable (length ids.now)) columns.now }
    requires within { All (λ place. place < length ids.now) places.now }
    ensures { OnOk result (out.new ≡ out.old ++ spec.lines_text (map (line_at columns.now ids.now) places.now)) }
{
    for place in places {
        print_row(ids, columns, *place, out)?;
        out.push(b'\n')?;
    }
    Ok(())
}

// Adds the line of a row, without a line feed.
fn print_row(
    ids: &RowIds,
    columns: &AnyColumns,
    place: usize,
    out: &mut Bytes,
) -> Result<(), AllocError>
    requires columns { All (IsPrintable (length ids.now)) columns.now }
    requires within { place < length ids.now }
    ensures { OnOk result (out.new ≡ out.old ++ line_at columns.now ids.now place) }
{
    print_numbers(*ids.get(place), out)?;
    print_cells(columns.as_slice(), place, out)
}

// Adds the id and the commit version of a row.
fn print_numbers(row: RowId, out: &mut Bytes) -> Result<(), AllocError>
    ensures { OnOk result (out.new ≡ out.old
        ++ value_field (spec.number row.id) ++ 9 ∷ value_field (spec.number row.version)) }
{
    print_number(row.id, out)?;
    out.push(b'\t')?;
    print_number(row.version, out)
}

fn print_number(number: Option<i64>, out: &mut Bytes) -> Result<(), AllocError>
    ensures { OnOk result (out.new ≡ out.old ++ value_field (spec.number number)) }
{
    let value = match number {
        Some(number) => Value::Int(number),
        None => Value::Null,
    };
    print_field(&value, &DataType::Long, out)
}

/// Adds the values of a row, each behind a tab.
pub(crate) fn print_cells(
    columns: &[AnyColumn],
    place: usize,
    out: &mut Bytes,
) -> Result<(), AllocError>
    requires { All (HasCell place) columns.now }
    ensures { OnOk result (out.new ≡ out.old ++ cells_text columns.now place) }
{
    for column in columns {
        print_cell(column, place, out)?;
    }
    Ok(())
}

// Adds the value of a column in a row behind a tab.
fn print_cell(column: &AnyColumn, place: usize, out: &mut Bytes) -> Result<(), AllocError>
    requires { HasCell place column.now }
    ensures { OnOk result (out.new ≡ out.old ++ 9 ∷ value_field (value_at place column.now)) }
{
    out.push(b'\t')?;
    print_value(column, place, out)
}

/// Adds the value of a column in a row.
pub(crate) fn print_value(
    column: &AnyColumn,
    place: usize,
    out: &mut Bytes,
) -> Result<(), AllocError>
    requires { HasCell place column.now }
    ensures { OnOk result (out.new ≡ out.old ++ value_field (value_at place column.now)) }
{
    let value = column.get(place)?;
    print_field(&value, column.kind(), out)
}
