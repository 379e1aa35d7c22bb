// What is wrong with the columns of a new table.
ghost use Rattle.std.specs.Prelude.{◌≡◌, drop, map, min};
ghost use Rattle.std.specs.List.{filter_map, list_any, reduce};
ghost use Rattle.delta_schema.specs.declared.columns.TheConstants as delta_schema;
ghost use Rattle.table_make.specs.Elements as elements;
ghost use Rattle.table_make.specs.Faults as spec;
ghost use Rattle.table_make.specs.Seen as seen;
ghost use Rattle.table_make.specs.Steps.{column_at};

use crate::elements::Column;
use crate::places::{at_if, earlier};
use data_file::CHANGE_TYPE;
use delta_schema::MAX_COLUMNS;
use dm_types::DataType;
use sql_statements::{Element, Made};
use sql_tree::WrittenKind;

// What no name has where data files hold columns by their names.
const SPECIAL: &[u8] = b" ,;{}()\n\t=";

/// The first fault of columns.
#[tactic(auto, using(crate::proofs::Least::five, crate::proofs::Lent::filter_map_map, crate::proofs::Lent::beyond))]
pub(crate) fn first_of_columns(mapped: bool, columns: &[Column<'_>]) -> Option<usize>
    ensures { result ≡ reduce min (spec.column_faults mapped (map column_at columns.now)) }
{
    let found = earlier(first_double(columns), first_misnamed(mapped, columns));
    let found = earlier(found, first_beyond(columns));
    let found = earlier(found, first_untyped(columns));
    earlier(found, first_unidentified(columns))
}

fn first_double(columns: &[Column<'_>]) -> Option<usize>
    ensures { result ≡ reduce min (filter_map (λ column. spec.double elements.column_name (column_at column)) columns.now) }
{
    columns.iter().filter_map(|column| double(column)).min()
}

fn double(column: &Column<'_>) -> Option<usize>
    ensures { result ≡ spec.double elements.column_name (column_at column.now) }
{
    at_if(column.doubled, column.element.name.span.start)
}

fn first_misnamed(mapped: bool, columns: &[Column<'_>]) -> Option<usize>
    ensures { result ≡ reduce min (filter_map (λ column. spec.misnamed mapped (column_at column)) columns.now) }
{
    columns
        .iter()
        .filter_map(|column| misnamed(mapped, column))
        .min()
}

fn misnamed(mapped: bool, column: &Column<'_>) -> Option<usize>
    ensures { result ≡ spec.misnamed mapped (column_at column.now) }
{
    let name = &column.element.name;
    at_if(is_forbidden(mapped, name.text.as_str()), name.span.start)
}

// A name that no column may have.
fn is_forbidden(mapped: bool, name: &str) -> bool
    ensures { result ≡ spec.is_forbidden mapped name.now }
{
    !mapped && has_special(name) || is_reserved(name)
}

fn has_special(name: &str) -> bool
    ensures { result ≡ list_any spec.is_special name.now }
{
    name.as_bytes().iter().any(|b| is_special(*b))
}

#[tactic(auto, unfolding(crate::specs::Faults::is_special))]
fn is_special(byte: u8) -> bool
    ensures { result ≡ spec.is_special byte }
{
    SPECIAL.contains(&byte)
}

// What change files and rows have beside the columns.
#[tactic(auto, unfolding(crate::specs::Faults::is_reserved))]
fn is_reserved(name: &str) -> bool
    ensures { result ≡ spec.is_reserved name.now }
{
    name == CHANGE_TYPE
        || name == "_commit_version"
        || name == "_commit_timestamp"
        || name.as_bytes().starts_with(b"_row-id-col-")
        || name.as_bytes().starts_with(b"_row-commit-version-col-")
}

// The least place of a column behind those that a table can have.
fn first_beyond(columns: &[Column<'_>]) -> Option<usize>
    ensures { result ≡ reduce min (map (λ column. spec.name_place (column_at column)) (drop delta_schema.MAX_COLUMNS columns.now)) }
{
    columns
        .iter()
        .skip(MAX_COLUMNS)
        .map(|column| name_place(column))
        .min()
}

fn name_place(column: &Column<'_>) -> usize
    ensures { result ≡ spec.name_place (column_at column.now) }
{
    column.element.name.span.start
}

fn first_untyped(columns: &[Column<'_>]) -> Option<usize>
    ensures { result ≡ reduce min (filter_map (λ column. spec.untyped (column_at column)) columns.now) }
{
    columns.iter().filter_map(|column| untyped(column)).min()
}

fn untyped(column: &Column<'_>) -> Option<usize>
    ensures { result ≡ spec.untyped (column_at column.now) }
{
    let kind = column.element.kind;
    at_if(is_bad_decimal(kind.kind), kind.span.start)
}

/// A DECIMAL whose precision or scale none can have.
pub(crate) fn is_bad_decimal(kind: WrittenKind) -> bool
    ensures { result ≡ seen.is_bad_decimal kind }
{
    matches!(kind, WrittenKind::BadDecimal { .. })
}

fn first_unidentified(columns: &[Column<'_>]) -> Option<usize>
    ensures { result ≡ reduce min (filter_map (λ column. spec.unidentified (column_at column)) columns.now) }
{
    columns
        .iter()
        .filter_map(|column| unidentified(column))
        .min()
}

// An identity that isn't BIGINT or has step 0.
fn unidentified(column: &Column<'_>) -> Option<usize>
    ensures { result ≡ spec.unidentified (column_at column.now) }
{
    match &column.element.made {
        Some(Made::Identity(identity)) => {
            let wrong = !is_long(column.element.kind.kind) || identity.step == 0;
            at_if(wrong, identity.place.start)
        }
        Some(Made::Generated(_)) | None => None,
    }
}

fn is_long(kind: WrittenKind) -> bool
    ensures { result ≡ spec.is_long kind }
{
    matches!(kind, WrittenKind::Type(DataType::Long))
}

/// The place of the first element, where no element is a column.
pub(crate) fn first_columnless(columns: &[Column<'_>], elements: &[Element]) -> Option<usize>
    ensures { result ≡ reduce min (spec.columnless (map column_at columns.now) elements.now) }
{
    match (columns.first(), elements.first()) {
        (None, Some(element)) => Some(place_of(element)),
        _ => None,
    }
}

// Where an element stands.
fn place_of(element: &Element) -> usize
    ensures { result ≡ elements.place_of element.now }
{
    match element {
        Element::Column(column) => column.name.span.start,
        Element::Check(check) => check.place.start,
    }
}
