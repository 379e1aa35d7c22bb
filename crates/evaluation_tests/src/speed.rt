// Conditions over a million rows: the yardstick of evaluation on whole columns.
ghost use Rattle.std.specs.Prelude.{◌≡◌, ◌<◌, length, IfOk};

use super::fixture::column;
use column_vectors::{AnyColumn, Batch, Selection};
use dm_types::{DataType, Text, Value};
use sql_reader::read_expr;
use std::alloc::{AllocError, Global};
use std::test::Fail;
use typed_expr::{Scope, type_condition};
use vector_eval::holds;

const MILLION: usize = 1_000_000;

/// The digit of each row's number that stands for so many.
fn digits(alloc: Global, unit: usize) -> Result<AnyColumn, AllocError>
    requires { 0 < unit }
    ensures { IfOk result (λ column. length column.values ≡ 1_000_000) }
{
    let mut column = AnyColumn::new(alloc, DataType::Integer);
    for row in 0..MILLION {
        let digit = (row / unit % 10) as i32;
        column.push(Value::Int(i64::from(digit)))?;
    }
    Ok(column)
}

const WORDS: [&str; 4] = ["alpha", "lima", "mike", "zulu"];

fn words(alloc: Global) -> Result<AnyColumn, AllocError>
    ensures { IfOk result (λ column. length column.values ≡ 1_000_000) }
{
    let mut column = AnyColumn::new(alloc, DataType::Str);
    for row in 0..MILLION {
        column.push(Value::Text(Text::from_str(alloc, WORDS[row % 4])?))?;
    }
    Ok(column)
}

fn all_rows(alloc: Global) -> Result<Selection, AllocError> {
    let mut selection = Selection::new(alloc);
    for _ in 0..MILLION {
        selection.push(true)?;
    }
    Ok(selection)
}

/// On how many rows a condition holds; none where it isn't one.
fn held(alloc: Global, scope: &Scope, batch: &Batch, text: &[u8]) -> Result<usize, AllocError> {
    let Ok(expr) = read_expr(alloc, text) else {
        return Ok(0);
    };
    let Ok(conjuncts) = type_condition(alloc, scope, &expr) else {
        return Ok(0);
    };
    let selection = all_rows(alloc)?;
    let held = holds(alloc, &conjuncts, batch, &selection)?;
    Ok(held.kept.count())
}

// Of the hundred pairs of digits, 30 have a sum below 10.
#[test]
fn a_million_sums_are_compared(rt: HostRuntime) -> Result<(), Fail> {
    let alloc = rt.alloc();
    let mut scope = Scope::new(alloc);
    scope.push(column(alloc, "a", DataType::Integer)?)?;
    scope.push(column(alloc, "b", DataType::Integer)?)?;
    let mut batch = Batch::new(alloc, MILLION);
    batch.push(digits(alloc, 1)?)?;
    batch.push(digits(alloc, 10)?)?;
    assert_eq!(rt; held(alloc, &scope, &batch, b"a + b * 2 < 10")?, 300_000);
    Ok(())
}

#[test]
fn a_million_texts_are_compared(rt: HostRuntime) -> Result<(), Fail> {
    let alloc = rt.alloc();
    let mut scope = Scope::new(alloc);
    scope.push(column(alloc, "v", DataType::Str)?)?;
    let mut batch = Batch::new(alloc, MILLION);
    batch.push(words(alloc)?)?;
    assert_eq!(rt; held(alloc, &scope, &batch, b"v < 'm'")?, 500_000);
    Ok(())
}
