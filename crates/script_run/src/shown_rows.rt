// The answer of SHOW ROWS.
ghost use Rattle.std.specs.Prelude.{◌≡◌, ◌++◌, ◌∷◌, [], map, OnOk, IfOk};
ghost use Rattle.std.specs.List.{flat_map};
ghost use Rattle.dm_store.specs.Causes.{Counts, StopCause};
ghost use Rattle.dm_text.specs.Printing.{field};
ghost use Rattle.script_run.specs.RowLines.{lines_text};
ghost use Rattle.script_run.specs.ShownRows as spec;
ghost use Rattle.script_run.specs.StepsRows.{line_at};
ghost use Rattle.row_tracking.specs.Order.{in_id_order};
ghost use Rattle.table_load.specs.Held.{state_of};
ghost use Rattle.table_load.specs.Loaded.{IsLoaded, seen};
ghost use Rattle.table_load.specs.Properties as properties;
ghost use Rattle.table_load.specs.Tells.{Tells};

use crate::row_lines::{print_by_bytes, print_by_id};
use delta_schema::ColumnDef;
use dm_store::Store;
use dm_text::print_field;
use dm_types::{Bytes, DataType, Stop, Text, Value};
use std::alloc::{AllocError, Global};
use table_load::{Loaded, Purpose, load_table, tracks_rows};

/// The text of SHOW ROWS: a line with `id`, `version` and the names of the columns, and then a line for
/// each row of the table in a folder at the version, or at the newest where none is asked for: its id, its commit
/// version and its values.
///
/// Fields are parted by tabs. Where rows are tracked, they are in ascending order of their ids; else
/// the lines are in byte order.
pub(crate) fn show_rows<S: Store>(
    alloc: Global,
    store: &mut S,
    folder: &Text,
    version: Option<u64>,
) -> Result<Bytes, Stop>
    ensures answer { Tells (S.files store.old) (λ files. spec.show_rows folder.now version files) result }
    ensures kept { S.files store.new ≡ S.files store.old }
    ensures cause { Counts StopCause (S.faults store.old) (S.faults store.new) result }
    ensures taken { S.taken store.new ≡ S.taken store.old }
{
    let loaded = load_table(alloc, store, folder, version, Purpose::Read)?;
    Ok(rows_text(alloc, &loaded)?)
}

fn rows_text(alloc: Global, loaded: &Loaded) -> Result<Bytes, AllocError>
    requires { IsLoaded loaded.now }
    ensures { IfOk result (λ text. text ≡ spec.rows_text (state_of (seen loaded.now))) }
{
    let mut text = Bytes::new(alloc);
    print_head(loaded.head.schema.as_slice(), &mut text)?;
    print_rows(alloc, loaded, &mut text)?;
    Ok(text)
}

// Adds a line with `id`, `version` and the names of the columns.
fn print_head(columns: &[ColumnDef], out: &mut Bytes) -> Result<(), AllocError>
    ensures { OnOk result (out.new ≡ out.old ++ lines_text (spec.head_line columns.now ∷ [])) }
{
    out.extend_from_slice(b"id\tversion")?;
    print_names(columns, out)?;
    out.push(b'\n')
}

// Adds the names of columns, each behind a tab.
fn print_names(columns: &[ColumnDef], out: &mut Bytes) -> Result<(), AllocError>
    ensures { OnOk result (out.new ≡ out.old ++ flat_map (λ column. 9 ∷ field column.name) columns.now) }
{
    for column in columns {
        print_name(&column.name, out)?;
    }
    Ok(())
}

fn print_name(name: &Text, out: &mut Bytes) -> Result<(), AllocError>
    ensures { OnOk result (out.new ≡ out.old ++ 9 ∷ field name.now) }
{
    out.push(b'\t')?;
    let name = Value::Text(name.clone()?);
    print_field(&name, &DataType::Str, out)
}

// Adds a line for each row.
fn print_rows(alloc: Global, loaded: &Loaded, out: &mut Bytes) -> Result<(), AllocError>
    requires { IsLoaded loaded.now }
    ensures { OnOk result (out.new ≡ out.old ++ lines_text
        (spec.in_line_order (properties.tracks_rows loaded.now.head.snapshot)
        (map (line_at loaded.now.batch.columns loaded.now.ids) (in_id_order loaded.now.ids)))) }
{
    let columns = &loaded.batch.columns;
    if tracks_rows(&loaded.head.snapshot) {
        print_by_id(alloc, &loaded.ids, columns, out)
    } else {
        print_by_bytes(alloc, &loaded.ids, columns, out)
    }
}
