// Values that are lent where they stand in a row or an expression, and the rows that they stand in.
ghost use Rattle.std.specs.Prelude.{◌≡◌, slice_index_or, IfOk};
ghost use Rattle.dm_types.specs.declared.value.Value.TheVariants.{Null};
ghost use Rattle.vector_eval.specs.Rows.{row_at};
ghost use Rattle.vector_eval.specs.Steps as steps;
ghost use Rattle.vector_eval.specs.Values as spec;

use column_vectors::AnyColumn;
use dm_types::Value;
use std::alloc::AllocError;

/// A value that was made, or one that is lent.
#[derive(Drop)]
pub enum Found<'a> {
    Lent(&'a Value),
    Made(Value),
}

impl<'a> Found<'a> {
    /// The value.
    pub fn value(&self) -> &Value
        ensures { result.now ≡ steps.shown self.now }
    {
        match self {
            Found::Lent(value) => value,
            Found::Made(value) => value,
        }
    }

    /// The value, as one of its own.
    pub fn into_value(self) -> Result<Value, AllocError>
        ensures { IfOk result (λ value. value ≡ steps.shown self.entry) }
    {
        match self {
            Found::Lent(value) => value.clone(),
            Found::Made(value) => Ok(value),
        }
    }
}

/// A row: its values, or a row of columns, of which only what is asked for is fetched.
#[derive(Clone, Copy)]
pub enum Line<'a> {
    Values(&'a [Value]),
    Cells {
        columns: &'a [AnyColumn],
        row: usize,
    },
}

// The value of a row in a column, and null past its end.
fn cell_of(column: &AnyColumn, row: usize) -> Result<Value, AllocError>
    ensures { IfOk result (λ value. value ≡ slice_index_or column.now.values row Null) }
{
    if row < column.len() {
        column.get(row)
    } else {
        Ok(Value::Null)
    }
}

// The value of a row in the column at a place.
fn cell(columns: &[AnyColumn], place: usize, row: usize) -> Result<Value, AllocError>
    ensures { IfOk result (λ value. value ≡ spec.column place (row_at columns.now row)) }
{
    match columns.get(place) {
        Some(column) => cell_of(column, row),
        None => Ok(Value::Null),
    }
}

// The value at a place.
fn lent_at<'a>(values: &'a [Value], place: usize) -> Found<'a>
    ensures { steps.shown result ≡ spec.column place values.entry.now }
{
    match values.get(place) {
        Some(value) => Found::Lent(value),
        None => Found::Made(Value::Null),
    }
}

/// The column of a row at a place.
pub fn column<'a>(place: usize, row: Line<'a>) -> Result<Found<'a>, AllocError>
    ensures { IfOk result (λ found. steps.shown found ≡ spec.column place (steps.line row.entry)) }
{
    match row {
        Line::Values(values) => Ok(lent_at(values, place)),
        Line::Cells { columns, row } => Ok(Found::Made(cell(columns, place, row)?)),
    }
}
