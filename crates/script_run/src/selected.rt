// The answer of SELECT.
ghost use Rattle.std.specs.Prelude.{◌≡◌, ◌++◌, ◌<◌, All, IfOk, IfSome, Ok, OnOk, filter, length, map};
ghost use Rattle.std.specs.Option.{option_copied};
ghost use Rattle.dm_store.specs.Causes.{Counts, StopCause};
ghost use Rattle.row_tracking.specs.Order.{in_id_order};
ghost use Rattle.script_run.specs.RowLines.{lines_text};
ghost use Rattle.script_run.specs.Selected as spec;
ghost use Rattle.script_run.specs.ShownRows.{in_line_order};
ghost use Rattle.script_run.specs.StepsRows.{IsPrintable};
ghost use Rattle.script_run.specs.StepsSelected as steps;
ghost use Rattle.select_rows.specs.Answers.{Decides};
ghost use Rattle.select_rows.specs.Rows.{flags_where, rows_of};
ghost use Rattle.table_load.specs.Held.{state_of};
ghost use Rattle.table_load.specs.Loaded.{IsLoaded, seen};
ghost use Rattle.table_load.specs.Properties as properties;
ghost use Rattle.typed_expr.specs.Fits.{Fits};
ghost use Rattle.vector_eval.specs.Batches.{kinds_of};

use crate::line_order::sort_lines;
use crate::row_lines::print_all;
use crate::value_lines::{print_names, print_value_lines, value_lines};
use column_vectors::{AnyColumns, Selection};
use delta_schema::ColumnDef;
use dm_store::Store;
use dm_types::{Bytes, PlaceList, Stop, Text, TextList};
use row_tracking::{RowIds, places_by_id};
use select_rows::{Query, QueryItem, QueryItems, rows_where, type_query, values_of};
use sql_statements::SelectItems;
use sql_tree::Expr;
use std::alloc::{AllocError, Global};
use table_load::{Loaded, Purpose, load_table, tracks_rows};
use typed_expr::{Scope, ScopeColumn};

/// The text of a SELECT: a line with the names of its items, and then a line with their values for
/// each row on which the condition holds, of the table in a folder at the version, or at the newest
/// where none is asked for. Expressions see its columns under the table's name.
///
/// Fields are parted by tabs. Where rows are tracked, they are in ascending order of their ids; else
/// the lines are in byte order.
pub(crate) fn select<'a, S: Store>(
    alloc: Global,
    store: &mut S,
    folder: &Text,
    table: &Text,
    version: Option<u64>,
    items: &'a SelectItems,
    condition: Option<&'a Expr>,
) -> Result<Bytes, Stop>
    ensures answer { spec.TellsAnswer (S.files store.old)
        (λ files. spec.select folder.now table.now version items.now (option_copied condition.entry) files)
        result }
    ensures kept { S.files store.new ≡ S.files store.old }
    ensures cause { Counts StopCause (S.faults store.old) (S.faults store.new) result }
    ensures taken { S.taken store.new ≡ S.taken store.old }
{
    let loaded = load_table(alloc, store, folder, version, Purpose::Read)?;
    select_from(alloc, table, items, condition, &loaded)
}

// The answer over a table that was opened.
fn select_from(
    alloc: Global,
    table: &Text,
    items: &SelectItems,
    condition: Option<&Expr>,
    loaded: &Loaded,
) -> Result<Bytes, Stop>
    requires { IsLoaded loaded.now }
    ensures { Decides (spec.selected table.now items.now (option_copied condition.entry)
        (state_of (seen loaded.now))) result }
{
    let scope = scope_of(alloc, table, loaded.head.schema.as_slice())?;
    let query = type_query(alloc, &scope, items, condition)?;
    let kept = rows_where(alloc, &query.conjuncts, &loaded.batch)?;
    answer_of(alloc, &query, &kept, loaded)
}

// The columns that the expressions see.
fn scope_of(alloc: Global, table: &Text, columns: &[ColumnDef]) -> Result<Scope, AllocError>
    ensures { IfOk result (λ scope. scope ≡ spec.scope_of table.now columns.now) }
{
    let mut scope = Scope::new(alloc);
    for column in columns {
        scope.push(ScopeColumn {
            qualifier: table.clone()?,
            name: column.name.clone()?,
            kind: column.kind,
            nullable: column.nullable,
        })?;
    }
    Ok(scope)
}

// The text of the items on the rows that are kept.
fn answer_of(alloc: Global, query: &Query, kept: &Selection, loaded: &Loaded) -> Result<Bytes, Stop>
    requires loaded { IsLoaded loaded.now }
    requires flags { flags_where query.now.conjuncts (rows_of loaded.now.batch.columns loaded.now.batch.rows)
        ≡ Ok kept.now }
    requires fits { IfSome query.now.items (All (λ item. Fits (kinds_of loaded.now.batch.columns) item.value)) }
    ensures { Decides (steps.answer_of loaded.now query.now.items kept.now) result }
{
    let names = names_of(alloc, loaded.head.schema.as_slice(), query.items.as_ref())?;
    match &query.items {
        None => Ok(query_text(alloc, &names, &loaded.batch.columns, kept, loaded)?),
        Some(items) => {
            let values = values_of(alloc, items.as_slice(), &loaded.batch, kept)?;
            Ok(query_text(alloc, &names, &values.columns, kept, loaded)?)
        }
    }
}

// The names of the items.
fn names_of(
    alloc: Global,
    columns: &[ColumnDef],
    items: Option<&QueryItems>,
) -> Result<TextList, AllocError>
    ensures { IfOk result (λ names. names ≡ spec.item_names columns.now (option_copied items.entry)) }
{
    let mut names = TextList::new(alloc);
    match items {
        None => push_columns(columns, &mut names)?,
        Some(items) => push_items(items.as_slice(), &mut names)?,
    }
    Ok(names)
}

fn push_columns(columns: &[ColumnDef], names: &mut TextList) -> Result<(), AllocError>
    ensures { OnOk result (names.new ≡ names.old ++ map (λ column. column.name) columns.now) }
{
    for column in columns {
        names.push(column.name.clone()?)?;
    }
    Ok(())
}

fn push_items(items: &[QueryItem], names: &mut TextList) -> Result<(), AllocError>
    ensures { OnOk result (names.new ≡ names.old ++ map (λ item. item.name) items.now) }
{
    for item in items {
        names.push(item.name.clone()?)?;
    }
    Ok(())
}

// A line with names, and a line with the values of columns for each row that is kept.
fn query_text(
    alloc: Global,
    names: &TextList,
    columns: &AnyColumns,
    kept: &Selection,
    loaded: &Loaded,
) -> Result<Bytes, AllocError>
    requires columns { All (IsPrintable (length loaded.now.ids)) columns.now }
    requires flags { length kept.now ≡ length loaded.now.ids }
    ensures { IfOk result (λ text. text ≡ steps.text_of loaded.now names.now columns.now kept.now) }
{
    let places = kept_places(alloc, &loaded.ids, kept)?;
    let mut text = Bytes::new(alloc);
    print_names(names.as_slice(), &mut text)?;
    text.push(b'\n')?;
    if tracks_rows(&loaded.head.snapshot) {
        print_value_lines(columns, places.as_slice(), &mut text)?;
    } else {
        let mut lines = value_lines(alloc, columns, places.as_slice())?;
        sort_lines(&mut lines);
        print_all(&lines, &mut text)?;
    }
    Ok(text)
}

// The places of the rows that are kept, in the order of their ids.
fn kept_places(alloc: Global, ids: &RowIds, kept: &Selection) -> Result<PlaceList, AllocError>
    requires { length kept.now ≡ length ids.now }
    ensures { IfOk result (λ places. places ≡ filter (steps.is_kept kept.now) (in_id_order ids.now)) }
{
    let all = places_by_id(alloc, ids)?;
    let mut places = PlaceList::new(alloc);
    push_kept(all.as_slice(), kept, &mut places)?;
    Ok(places)
}

// Adds the places of the rows that are kept.
fn push_kept(all: &[usize], kept: &Selection, places: &mut PlaceList) -> Result<(), AllocError>
    requires { All (λ place. place < length kept.now) all.now }
    ensures { OnOk result (places.new ≡ places.old ++ filter (steps.is_kept kept.now) all.now) }
{
    for place in all {
        push_if(*place, kept.test(*place), places)?;
    }
    Ok(())
}

// Adds a place, if it is kept.
fn push_if(place: usize, kept: bool, places: &mut PlaceList) -> Result<(), AllocError>
    ensures { OnOk result (places.new ≡ places.old ++ steps.one_if kept place) }
{
    if kept { places.push(place) } else { Ok(()) }
}
