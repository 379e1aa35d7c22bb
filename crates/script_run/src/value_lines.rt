// The values of rows as lines of fields.
ghost use Rattle.std.specs.Prelude.{◌≡◌, ◌++◌, ◌∷◌, All, IfOk, OnOk, map};
ghost use Rattle.std.specs.List.{flat_map};
ghost use Rattle.dm_text.specs.Printing.{field};
ghost use Rattle.script_run.specs.RowLines.{lines_text};
ghost use Rattle.script_run.specs.Selected.{names_line};
ghost use Rattle.script_run.specs.StepsRows.{HasCell};
ghost use Rattle.script_run.specs.StepsSelected as steps;

use crate::row_lines::{print_cells, print_value};
use column_vectors::{AnyColumn, AnyColumns};
use dm_text::print_field;
use dm_types::{Bytes, DataType, Text, Value};
use std::alloc::{AllocError, Global};

/// Adds names as fields, with tabs between.
pub(crate) fn print_names(names: &[Text], out: &mut Bytes) -> Result<(), AllocError>
    ensures { OnOk result (out.new ≡ out.old ++ names_line names.now) }
{
    if let Some((first, others)) = names.split_first() {
        print_name(first, out)?;
        print_more_names(others, out)?;
    }
    Ok(())
}

// Adds names as fields, each behind a tab.
fn print_more_names(names: &[Text], out: &mut Bytes) -> Result<(), AllocError>
    ensures { OnOk result (out.new ≡ out.old ++ flat_map (λ name. 9 ∷ field name) names.now) }
{
    for name in names {
        out.push(b'\t')?;
        print_name(name, out)?;
    }
    Ok(())
}

fn print_name(name: &Text, out: &mut Bytes) -> Result<(), AllocError>
    ensures { OnOk result (out.new ≡ out.old ++ field name.now) }
{
    let name = Value::Text(name.clone()?);
    print_field(&name, &DataType::Str, out)
}

/// Adds a line with the values of columns for each place of a row.
pub(crate) fn print_value_lines(
    columns: &AnyColumns,
    places: &[usize],
    out: &mut Bytes,
) -> Result<(), AllocError>
    requires { All (λ place. All (HasCell place) columns.now) places.now }
    ensures { OnOk result (out.new ≡ out.old ++ lines_text (map (steps.values_at columns.now) places.now)) }
{
    for place in places {
        print_values(columns.as_slice(), *place, out)?;
        out.push(b'\n')?;
    }
    Ok(())
}

/// The line with the values of columns for each place of a row, without line feeds.
pub(crate) fn value_lines(
    alloc: Global,
    columns: &AnyColumns,
    places: &[usize],
) -> Result<Vec<Vec<u8>>, AllocError>
    requires { All (λ place. All (HasCell place) columns.now) places.now }
    ensures { IfOk result (λ lines. map (λ line. line.items) lines.items
        ≡ map (steps.values_at columns.now) places.now) }
{
    let mut lines = Vec::with_capacity(alloc, places.len())?;
    for place in places {
        let mut line = Bytes::new(alloc);
        print_values(columns.as_slice(), *place, &mut line)?;
        lines.push(line.into_vec())?;
    }
    Ok(lines)
}

// Adds the values of a row, with tabs between.
fn print_values(columns: &[AnyColumn], place: usize, out: &mut Bytes) -> Result<(), AllocError>
    requires { All (HasCell place) columns.now }
    ensures { OnOk result (out.new ≡ out.old ++ steps.values_at columns.now place) }
{
    if let Some((first, others)) = columns.split_first() {
        print_value(first, place, out)?;
        print_cells(others, place, out)?;
    }
    Ok(())
}
