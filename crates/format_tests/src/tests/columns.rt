// Columns of each lane, and large ones.
ghost use Rattle.std.specs.Prelude.{◌≡◌, ◌<◌, ◌∷◌, [], All, IfOk, length};
ghost use Rattle.dm_types.specs.Lanes.{IsNullOrOf};
ghost use Rattle.dm_types.specs.declared.value.Value.TheVariants.{Null};

use column_vectors::{AnyColumn, Batch, Column, LaneColumn, Selection};
use dm_types::{DataType, Decimal, LaneLong, PlaceList, Row, Text, Value, same};
use std::alloc::{AllocError, Global};
use std::test::Fail;

// A column of a value, null, and another value.
fn column_of(
    alloc: Global,
    kind: DataType,
    first: &Value,
    last: &Value,
) -> Result<AnyColumn, AllocError>
    requires first { IsNullOrOf kind first.now }
    requires last { IsNullOrOf kind last.now }
    ensures { IfOk result (λ column. column
        ≡ record { kind = kind; values = first.now ∷ Null ∷ last.now ∷ [] }) }
{
    let mut values = Row::new(alloc);
    values.push(first.clone()?)?;
    values.push(Value::Null)?;
    values.push(last.clone()?)?;
    AnyColumn::from_values(alloc, &kind, &values)
}

fn decimal(unscaled: i128, scale: u8) -> Value
    ensures { result ≡ Value.Dec (record { unscaled = unscaled; scale = scale }) }
{
    Value::Dec(Decimal { unscaled, scale })
}

fn places(alloc: Global, first: usize, second: usize) -> Result<PlaceList, AllocError>
    ensures { IfOk result (λ places. places ≡ first ∷ second ∷ []) }
{
    let mut places = PlaceList::new(alloc);
    places.push(first)?;
    places.push(second)?;
    Ok(places)
}

// Whether a column has these values.
fn holds(column: &AnyColumn, values: &Row) -> Result<bool, AllocError> {
    for row in 0..column.len() {
        if row >= values.len() || !same(&column.get(row)?, values.get(row)) {
            return Ok(false);
        }
    }
    Ok(column.len() == values.len())
}

// A column of two values and null, and two of its rows behind it.
fn with_turned(
    alloc: Global,
    kind: DataType,
    first: &Value,
    last: &Value,
) -> Result<AnyColumn, AllocError>
    requires first { IsNullOrOf kind first.now }
    requires last { IsNullOrOf kind last.now }
{
    let column = column_of(alloc, kind, first, last)?;
    let turned = column.gather(alloc, &places(alloc, 2, 1)?)?;
    column.concat(&turned)
}

// The values of that column.
fn turned_values(alloc: Global, first: &Value, last: &Value) -> Result<Row, AllocError> {
    let mut values = Row::new(alloc);
    values.push(first.clone()?)?;
    values.push(Value::Null)?;
    values.push(last.clone()?)?;
    values.push(last.clone()?)?;
    values.push(Value::Null)?;
    Ok(values)
}

// Whether a column of two values and null is kept, with two of its rows behind it.
fn keeps(alloc: Global, kind: DataType, first: &Value, last: &Value) -> Result<bool, AllocError>
    requires first { IsNullOrOf kind first.now }
    requires last { IsNullOrOf kind last.now }
{
    let whole = with_turned(alloc, kind, first, last)?;
    let values = turned_values(alloc, first, last)?;
    holds(&whole, &values)
}

#[test]
fn columns_keep_values_of_their_types(rt: HostRuntime) -> Result<(), Fail> {
    let price = DataType::Decimal {
        precision: 4,
        scale: 2,
    };
    let word = Value::Text(Text::from_str(rt.alloc(), "a")?);
    let null = Value::Null;
    assert!(rt; keeps(rt.alloc(), DataType::Void, &null, &null)?);
    assert!(rt;
        keeps(
            rt.alloc(),
            DataType::Byte,
            &Value::Int(-128),
            &Value::Int(127)
        )?
    );
    assert!(rt; keeps(rt.alloc(), DataType::Date, &Value::Day(-1), &null)?);
    assert!(rt; keeps(rt.alloc(), price, &decimal(-9999, 2), &decimal(150, 2))?);
    assert!(rt; keeps(rt.alloc(), DataType::Str, &null, &word)?);
    Ok(())
}

// A column of a number and null, again and again, of a million rows and more.
fn long_column(alloc: Global) -> Result<Column<LaneLong>, AllocError> {
    let mut column = Column::new(alloc, DataType::Long);
    column.push(7)?;
    column.push_null()?;
    for _ in 0..19 {
        let more = column.clone()?;
        column = column.concat(&more)?;
    }
    Ok(column)
}

// The places from the last one on.
fn from_last(alloc: Global, rows: usize) -> Result<PlaceList, AllocError>
    ensures { IfOk result (All (λ place. place < rows)) }
{
    let mut places = PlaceList::new(alloc);
    for place in (0..rows).rev() {
        places.push(place)?;
    }
    Ok(places)
}

// Whether a column has null and a number in turn.
fn alternates(column: &Column<LaneLong>) -> bool {
    for row in 0..column.len() {
        let wanted = if row % 2 == 0 { None } else { Some(7) };
        if column.get(row).copied() != wanted {
            return false;
        }
    }
    true
}

#[test]
fn a_million_values_are_gathered_from_the_last_on(rt: HostRuntime) -> Result<(), Fail> {
    let column = long_column(rt.alloc())?;
    let places = from_last(rt.alloc(), column.len())?;
    let gathered = column.gather(rt.alloc(), &places)?;
    assert!(rt; gathered.len() == 1048576);
    assert!(rt; alternates(&gathered));
    Ok(())
}

#[test]
fn selections_cross_their_blocks(rt: HostRuntime) -> Result<(), Fail> {
    let alloc = rt.alloc();
    let mut selection = Selection::new(alloc);
    for row in 0..130u32 {
        selection.push(row % 3 == 0)?;
    }
    assert!(rt; selection.len() == 130 && selection.count() == 44);
    assert!(rt; selection.test(63) && !selection.test(64) && selection.test(129));
    assert!(rt; selection.count_before(64) == 22 && selection.count_before(129) == 43);
    Ok(())
}

#[test]
fn batches_take_columns_of_their_length(rt: HostRuntime) -> Result<(), Fail> {
    let alloc = rt.alloc();
    let mut column = Column::<LaneLong>::new(alloc, DataType::Long);
    column.push(7)?;
    column.push_null()?;
    let mut batch = Batch::new(alloc, 2);
    batch.push(AnyColumn::from_lane(LaneColumn::Long(column)))?;
    let batch = batch.clone()?;
    assert!(rt; batch.columns.len() == 1 && batch.rows == 2);
    match batch.columns.get(0).lane() {
        LaneColumn::Long(column) => {
            assert!(rt; column.len() == 2);
            assert!(rt; column.get(0).copied() == Some(7) && column.get(1).is_none());
        }
        _ => assert!(rt; false),
    }
    Ok(())
}
