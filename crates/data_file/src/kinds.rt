// The kinds of changes of a change file.
ghost use Rattle.std.specs.Prelude.{◌≡◌, length, IfOk, IfSome};
ghost use Rattle.std.specs.List.{list_all};
ghost use Rattle.std.specs.Option.{option_copied};
ghost use Rattle.column_vectors.specs.Cells.{value_or_null};
ghost use Rattle.dm_types.specs.declared.value.DataType.TheVariants as kind;
ghost use Rattle.dm_types.specs.declared.value.Value.TheVariants as value;
ghost use Rattle.data_file.specs.Answers.{Gives};
ghost use Rattle.data_file.specs.Kinds as spec;
ghost use Rattle.data_file.specs.Stored.{rows_in};

use crate::columns::CHANGE_TYPE;
use crate::fault::{PartColumn, PartFault};
use crate::stored::{Sought, named, stored};
use column_vectors::{AnyColumn, Column, LaneColumn};
use dm_types::{DataType, LaneText, Text};
use parquet_file::ParquetFile;
use std::alloc::Global;

// Whether a text is one of the four kinds of changes.
fn is_kind(text: &Text) -> bool
    ensures { result ≡ spec.is_kind_text text.now }
{
    matches!(
        text.as_str(),
        "insert" | "update_preimage" | "update_postimage" | "delete"
    )
}

// Whether there is a text, and it is one of them.
fn is_kind_there(text: Option<&Text>) -> bool
    ensures { result ≡ spec.is_kind (value_or_null value.Text (option_copied text.entry)) }
{
    match text {
        Some(text) => is_kind(text),
        None => false,
    }
}

// Whether each text is one of them, and none is null.
fn are_kinds(texts: &Column<LaneText>) -> bool
    ensures { result ≡ list_all spec.is_kind texts.now.values }
{
    for row in 0..texts.len() {
        if !is_kind_there(texts.get(row)) {
            return false;
        }
    }
    true
}

// Whether a column of texts has nothing but kinds of changes.
fn has_kinds(column: &AnyColumn) -> bool
    requires { column.now.kind ≡ kind.Str }
    ensures { result ≡ list_all spec.is_kind column.now.values }
{
    match column.lane() {
        LaneColumn::Text(texts) => are_kinds(texts),
        _ => unreachable!(),
    }
}

// A column whose nulls are looked at behind its text.
fn with_nulls(sought: Sought) -> Sought
    ensures { result ≡ spec.with_nulls sought }
{
    Sought {
        column: sought.column,
        kind: sought.kind,
        nullable: true,
        place: sought.place,
    }
}

/// The kinds of changes, where they are asked for, and the room for text behind them.
pub(crate) fn kinds(
    alloc: Global,
    file: &ParquetFile<'_>,
    asked: bool,
    left: u64,
) -> Result<(Option<AnyColumn>, u64), PartFault>
    ensures found { Gives (λ found. found) (spec.kinds file.now asked left) result }
    ensures rows { IfOk result (λ found. IfSome found.0 (λ column. length column.values ≡ rows_in file.now)) }
{
    if !asked {
        return Ok((None, left));
    }
    let name = Text::from_str(alloc, CHANGE_TYPE)?;
    let sought = with_nulls(named(file, PartColumn::ChangeType, DataType::Str, false, &name));
    let (column, left) = stored(alloc, file, &sought, left)?;
    if !has_kinds(&column) {
        return Err(PartFault::Range {
            column: PartColumn::ChangeType,
        });
    }
    Ok((Some(column), left))
}
