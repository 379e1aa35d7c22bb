// The columns that keep the ids of rows.
ghost use Rattle.std.specs.Prelude.{◌≡◌, map};
ghost use Rattle.std.specs.List.{list_any};
ghost use Rattle.std.specs.Option.{option_copied};
ghost use Rattle.row_rules.specs.Rules as spec;

use crate::columns::{is_forbidden, name_in_files};
use column_mapping::Mode;
use delta_schema::ColumnDef;
use dm_types::Text;
use table_load::{Head, columns_of, tracks_rows};

/// Whether rows that are tracked have columns for their ids and commit versions.
pub(crate) fn keeps_ids(head: &Head) -> bool
    ensures { result ≡ spec.keeps_ids head.now }
{
    let read = columns_of(head, false);
    !tracks_rows(&head.snapshot) || are_free(head, read.ids, read.versions)
}

// Both are there, differ, and are free.
fn are_free(head: &Head, ids: Option<&Text>, versions: Option<&Text>) -> bool
    ensures { result ≡ spec.are_free head.now (option_copied ids.entry) (option_copied versions.entry) }
{
    match (ids, versions) {
        (Some(ids), Some(versions)) => {
            ids.as_str() != versions.as_str() && is_free(head, ids) && is_free(head, versions)
        }
        _ => false,
    }
}

// Data files can have this name beside the columns, and change files too.
fn is_free(head: &Head, name: &Text) -> bool
    ensures { result ≡ spec.is_free head.now name.now }
{
    !(is_forbidden(true, name.as_str()) || is_taken(head.mode, head.schema.as_slice(), name))
}

// Whether data files hold a column under this name.
fn is_taken(mode: Mode, columns: &[ColumnDef], name: &Text) -> bool
    ensures { result ≡ list_any (spec.is_named mode name.now) columns.now }
{
    let mut rest = columns;
    while let Some((column, more)) = rest.split_first() {
        if is_named(mode, column, name) {
            return true;
        }
        rest = more;
    }
    false
}

fn is_named(mode: Mode, column: &ColumnDef, name: &Text) -> bool
    ensures { result ≡ spec.is_named mode name.now column.now }
{
    !column.partition && name_in_files(mode, column) == name.as_str()
}
