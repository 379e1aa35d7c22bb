// Columns of each type: their values on one row, and on many.
ghost use Rattle.std.specs.Prelude.{◌≡◌, length, IfOk, OnOk};
ghost use Rattle.dm_types.specs.Lanes.{IsNullOrOf};
ghost use Rattle.dm_types.specs.Ranges.{IsNullOrInRange, IsWellFormed};
ghost use Rattle.evaluation_tests.specs.Given.{IsGiven};
ghost use Rattle.typed_expr.specs.Fits.{kinds_in};
ghost use Rattle.vector_eval.specs.Batches.{kinds_of};

use column_vectors::{AnyColumn, Batch};
use dm_text::{TextFault, read_value};
use dm_types::{Bytes, DAY_MICROS, DataType, Decimal, FIRST_DAY, LAST_DAY, Row, Text, Value};
use std::alloc::{AllocError, Global};
use typed_expr::{Scope, ScopeColumn, is_type};

/// The columns that expressions see, and their values on one row.
#[derive(Drop)]
pub(super) struct Given {
    pub scope: Scope,
    pub row: Row,
}

/// The name of a column, its type, and its value on the row: a text, the bytes of a BINARY, or null.
type Told = (&'static str, DataType, Option<&'static [u8]>);

const COLUMNS: [Told; 12] = [
    ("b", DataType::Boolean, Some(b"true")),
    ("y", DataType::Byte, Some(b"100")),
    ("s", DataType::Short, Some(b"-300")),
    ("i", DataType::Integer, Some(b"7")),
    ("l", DataType::Long, Some(b"9223372036854775807")),
    (
        "d",
        DataType::Decimal {
            precision: 10,
            scale: 2,
        },
        Some(b"-1.25"),
    ),
    ("t", DataType::Str, Some(b"Zo\xc3\xab")),
    ("x", DataType::Binary, Some(b"\x00\xff")),
    ("a", DataType::Date, Some(b"2024-02-29")),
    (
        "m",
        DataType::Timestamp,
        Some(b"1969-12-31 23:59:59.999999"),
    ),
    ("n", DataType::Integer, None),
    ("c", DataType::Boolean, None),
];

/// A column of a name and type.
pub(super) fn column(alloc: Global, name: &str, kind: DataType) -> Result<ScopeColumn, AllocError>
    ensures { IfOk result (λ column. column.kind ≡ kind) }
{
    Ok(ScopeColumn {
        qualifier: Text::from_str(alloc, "t")?,
        name: Text::from_str(alloc, name)?,
        kind,
        nullable: true,
    })
}

fn read(alloc: Global, kind: &DataType, text: &[u8]) -> Result<Value, AllocError>
    requires { IsWellFormed kind.now }
    ensures { IfOk result (IsNullOrInRange kind.now) }
{
    match read_value(alloc, text, kind) {
        Ok(value) => Ok(value),
        Err(TextFault::BadText) => Ok(Value::Null),
        Err(TextFault::Memory) => Err(AllocError),
    }
}

fn value_on_row(alloc: Global, kind: &DataType, text: Option<&[u8]>) -> Result<Value, AllocError>
    requires { IsWellFormed kind.now }
    ensures { IfOk result (IsNullOrInRange kind.now) }
{
    match (kind, text) {
        (_, None) => Ok(Value::Null),
        (DataType::Binary, Some(bytes)) => Ok(Value::Bytes(Bytes::from_slice(alloc, bytes)?)),
        (_, Some(text)) => read(alloc, kind, text),
    }
}

// Adds a column, and its value on the row.
fn push(alloc: Global, given: &mut Given, told: &Told) -> Result<(), AllocError>
    requires { IsGiven given.old.scope given.old.row }
    ensures { OnOk result (IsGiven given.new.scope given.new.row) }
{
    let (name, kind, text) = *told;
    if !is_type(kind) {
        return Ok(());
    }
    let column = column(alloc, name, kind)?;
    let value = value_on_row(alloc, &kind, text)?;
    given.scope.push(column)?;
    given.row.push(value)
}

fn given_of(alloc: Global, columns: &[Told]) -> Result<Given, AllocError>
    ensures { IfOk result (λ given. IsGiven given.scope given.row) }
{
    let mut given = Given {
        scope: Scope::new(alloc),
        row: Row::new(alloc),
    };
    for told in columns {
        push(alloc, &mut given, told)?;
    }
    Ok(given)
}

/// A column of each type, one of INT and one of BOOLEAN that are null.
pub(super) fn given_columns(alloc: Global) -> Result<Given, AllocError>
    ensures { IfOk result (λ given. IsGiven given.scope given.row) }
{
    given_of(alloc, &COLUMNS)
}

// ---- many rows

/// How many rows.
pub(super) const ROWS: usize = 2000;

// Values of each type, with the ends of its range. Over the rows each value of one list meets each of
// another, where their lengths have no part in common.

const BYTES: [i8; 7] = [0, i8::MIN, 1, i8::MAX, -1, 2, 100];

const SHORTS: [i16; 9] = [3, 0, i16::MIN, 7, i16::MAX, -1, 300, 2, -9];

const INTS: [i32; 11] = [1, 3, 0, i32::MIN, 2, 10, i32::MAX, -1, 7, 5, -40];

const LONGS: [i64; 13] = [
    0,
    i64::MAX,
    5,
    -5,
    i64::MIN,
    1,
    -1,
    1 << 40,
    2,
    7,
    -7,
    10,
    i64::MIN + 1,
];

const HUNDREDTHS: [i128; 8] = [0, 125, -125, 9_999_999_999, -9_999_999_999, 100, 50, -1];

const TEXTS: [&str; 5] = ["", "7", "-12", "Zoë", "true"];

const BINARIES: [&[u8]; 5] = [b"", b"\x00\xff", b"Zo\xc3\xab", b"7", b"\xc3"];

const DAYS: [i32; 5] = [0, FIRST_DAY, LAST_DAY, 19_782, -1];

const MOMENTS: [i64; 6] = [
    0,
    -1,
    FIRST_DAY as i64 * DAY_MICROS,
    (LAST_DAY as i64 + 1) * DAY_MICROS - 1,
    1_709_209_800_500_000,
    1,
];

// A value of the type.
fn some_value(alloc: Global, kind: DataType, row: usize) -> Result<Value, AllocError>
    ensures { IfOk result (IsNullOrOf kind) }
{
    match kind {
        DataType::Void => Ok(Value::Null),
        DataType::Boolean => Ok(Value::Bool(row % 3 != 0)),
        DataType::Byte => Ok(Value::Int(i64::from(BYTES[row % 7]))),
        DataType::Short => Ok(Value::Int(i64::from(SHORTS[row % 9]))),
        DataType::Integer => Ok(Value::Int(i64::from(INTS[row % 11]))),
        DataType::Long => Ok(Value::Int(LONGS[row % 13])),
        DataType::Decimal { scale, .. } => Ok(Value::Dec(Decimal {
            unscaled: HUNDREDTHS[row % 8],
            scale,
        })),
        DataType::Str => Ok(Value::Text(Text::from_str(alloc, TEXTS[row % 5])?)),
        DataType::Binary => Ok(Value::Bytes(Bytes::from_slice(alloc, BINARIES[row % 5])?)),
        DataType::Date => Ok(Value::Day(DAYS[row % 5])),
        DataType::Timestamp => Ok(Value::Micros(MOMENTS[row % 6])),
    }
}

// The value of a row in the column at a place: each sixth one is null.
fn value(alloc: Global, kind: DataType, row: usize, place: usize) -> Result<Value, AllocError>
    ensures { IfOk result (IsNullOrOf kind) }
{
    if row / 5 % 6 == place % 6 {
        return Ok(Value::Null);
    }
    some_value(alloc, kind, row)
}

fn cells(alloc: Global, kind: DataType, place: usize) -> Result<AnyColumn, AllocError>
    ensures kind { IfOk result (λ column. column.kind ≡ kind) }
    ensures rows { IfOk result (λ column. length column.values ≡ 2000) }
{
    let mut column = AnyColumn::new(alloc, kind);
    for row in 0..ROWS {
        let value = value(alloc, kind, row, place)?;
        column.push(value)?;
    }
    Ok(column)
}

fn batch_of(alloc: Global, columns: &[ScopeColumn]) -> Result<Batch, AllocError>
    ensures { IfOk result (λ batch. kinds_of batch.columns ≡ kinds_in columns.now) }
{
    let mut batch = Batch::new(alloc, ROWS);
    for named in columns {
        let place = batch.columns.len();
        let column = cells(alloc, named.kind, place)?;
        batch.push(column)?;
    }
    Ok(batch)
}

/// Many rows of the columns of a scope.
pub(super) fn batch(alloc: Global, scope: &Scope) -> Result<Batch, AllocError>
    ensures { IfOk result (λ batch. kinds_of batch.columns ≡ kinds_in scope.now) }
{
    batch_of(alloc, scope.as_slice())
}
