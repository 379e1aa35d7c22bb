// What is wrong with the partition columns of a new table.
ghost use Rattle.std.specs.Prelude.{◌≡◌, ◌++◌, ◌∷◌, [], map, min};
ghost use Rattle.std.specs.List.{filter_map, list_all, list_any, reduce};
ghost use Rattle.table_make.specs.Elements.{with_before};
ghost use Rattle.table_make.specs.Faults as spec;
ghost use Rattle.table_make.specs.Steps as steps;
ghost use Rattle.table_make.specs.Steps.{column_at};

use crate::elements::Column;
use crate::names::{is_among, is_same};
use crate::places::is_before;
use dm_types::DataType;
use sql_tree::{Name, WrittenKind};

/// What was found, or an earlier partition name that is at fault.
pub(crate) fn first_unparted(
    found: Option<usize>,
    columns: &[Column<'_>],
    names: &[Name],
) -> Option<usize>
    ensures { result ≡ steps.earlier found (reduce min
        (filter_map (spec.unparted (map column_at columns.now)) (with_before names.now))) }
{
    let mut found = found;
    for at in 0..names.len() {
        found = or_unparted(found, columns, &names[..at], &names[at]);
    }
    found
}

// What was found, or the name where it is at fault and stands before. A name behind what was found needs
// no look: so no more names are compared than a table can have columns.
fn or_unparted(
    found: Option<usize>,
    columns: &[Column<'_>],
    before: &[Name],
    name: &Name,
) -> Option<usize>
    ensures { result ≡ steps.earlier found (spec.unparted (map column_at columns.now) (before.now, name.now)) }
{
    if is_before(name.span.start, found) && is_bad(columns, before, name) {
        Some(name.span.start)
    } else {
        found
    }
}

#[tactic(auto, using(crate::proofs::Lent::list_any_map, crate::proofs::Lent::list_all_map))]
fn is_bad(columns: &[Column<'_>], before: &[Name], name: &Name) -> bool
    ensures { result ≡ spec.is_bad_partition (map column_at columns.now) before.now name.now }
{
    !is_known(columns, name)
        || is_among(before, name)
        || is_binary(columns, name)
        || is_last(columns, before, name)
}

fn is_known(columns: &[Column<'_>], name: &Name) -> bool
    ensures { result ≡ list_any (λ column. spec.has_name name.now (column_at column)) columns.now }
{
    columns.iter().any(|column| has_name(name, column))
}

fn has_name(name: &Name, column: &Column<'_>) -> bool
    ensures { result ≡ spec.has_name name.now (column_at column.now) }
{
    is_same(name, &column.element.name)
}

fn is_binary(columns: &[Column<'_>], name: &Name) -> bool
    ensures { result ≡ list_any (λ column. spec.is_binary_column name.now (column_at column)) columns.now }
{
    columns.iter().any(|column| is_binary_column(name, column))
}

fn is_binary_column(name: &Name, column: &Column<'_>) -> bool
    ensures { result ≡ spec.is_binary_column name.now (column_at column.now) }
{
    is_same(name, &column.element.name) && is_of_bytes(column.element.kind.kind)
}

fn is_of_bytes(kind: WrittenKind) -> bool
    ensures { result ≡ spec.is_binary kind }
{
    matches!(kind, WrittenKind::Type(DataType::Binary))
}

// Whether no column is left behind a name.
fn is_last(columns: &[Column<'_>], before: &[Name], name: &Name) -> bool
    ensures { result ≡ list_all (λ column. spec.is_named_by (before.now ++ name.now ∷ []) (column_at column)) columns.now }
{
    columns
        .iter()
        .all(|column| is_named_by(before, name, column))
}

fn is_named_by(before: &[Name], name: &Name, column: &Column<'_>) -> bool
    ensures { result ≡ spec.is_named_by (before.now ++ name.now ∷ []) (column_at column.now) }
{
    is_among(before, &column.element.name) || is_same(&column.element.name, name)
}
