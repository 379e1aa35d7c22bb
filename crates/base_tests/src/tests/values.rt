// Comparisons by hand, and each lane through its bound.
ghost use Rattle.std.specs.Prelude.{IsTrue};

use dm_types::{
    Bytes, DataType, Decimal, Lane, LaneBool, LaneByte, LaneBytes, LaneDecimal, LaneInt, LaneLong,
    LaneShort, LaneText, Text, Value, compare, same,
};
use std::alloc::{AllocError, Global};
use std::cmp::Ordering;
use std::test::Fail;

fn decimal(unscaled: i128, scale: u8) -> Value {
    Value::Dec(Decimal { unscaled, scale })
}

fn text(alloc: Global, text: &str) -> Result<Value, AllocError> {
    Ok(Value::Text(Text::from_str(alloc, text)?))
}

fn bytes(alloc: Global, bytes: &[u8]) -> Result<Value, AllocError> {
    Ok(Value::Bytes(Bytes::from_slice(alloc, bytes)?))
}

// Whether two values stand so, and the other way round the other way.
fn stand(a: &Value, b: &Value, expected: Option<Ordering>) -> bool {
    compare(a, b) == expected && compare(b, a) == expected.map(Ordering::reverse)
}

#[test]
fn decimals_compare_by_value(rt: HostRuntime) {
    for (a, b, expected) in [
        (decimal(15, 1), decimal(150, 2), Ordering::Equal),
        (decimal(15, 1), decimal(149, 2), Ordering::Greater),
        (decimal(-15, 1), decimal(-149, 2), Ordering::Less),
        (decimal(2, 0), decimal(10, 1), Ordering::Greater),
        (decimal(0, 0), decimal(0, 255), Ordering::Equal),
        (decimal(1, 255), decimal(0, 0), Ordering::Greater),
        (decimal(1, 38), decimal(1, 255), Ordering::Greater),
        (decimal(-1, 0), decimal(i128::MIN, 255), Ordering::Less),
        (
            decimal(i128::MAX, 0),
            decimal(i128::MAX, 1),
            Ordering::Greater,
        ),
        (decimal(i128::MIN, 0), decimal(i128::MAX, 0), Ordering::Less),
    ] {
        assert!(rt; stand(&a, &b, Some(expected)));
    }
}

// Whether two texts stand so, as texts and as bytes.
fn texts_stand(alloc: Global, a: &str, b: &str, expected: Ordering) -> Result<bool, AllocError> {
    let as_texts = stand(&text(alloc, a)?, &text(alloc, b)?, Some(expected));
    let as_bytes = stand(
        &bytes(alloc, a.as_bytes())?,
        &bytes(alloc, b.as_bytes())?,
        Some(expected),
    );
    Ok(as_texts && as_bytes)
}

#[test]
fn texts_and_bytes_compare_by_their_bytes(rt: HostRuntime) -> Result<(), Fail> {
    let alloc = rt.alloc();
    for (a, b) in [("B", "a"), ("a", "ab"), ("z", "\u{e9}"), ("\x7f", "\u{80}")] {
        assert!(rt; texts_stand(alloc, a, b, Ordering::Less)?);
    }
    assert!(rt; texts_stand(alloc, "a", "a", Ordering::Equal)?);
    assert!(rt; stand(&text(alloc, "a")?, &bytes(alloc, b"a")?, None));
    Ok(())
}

#[test]
fn values_compare_within_their_kind(rt: HostRuntime) {
    for (a, b, expected) in [
        (Value::Bool(false), Value::Bool(true), Some(Ordering::Less)),
        (Value::Int(-1), Value::Int(1), Some(Ordering::Less)),
        (Value::Day(-1), Value::Day(1), Some(Ordering::Less)),
        (Value::Micros(2), Value::Micros(2), Some(Ordering::Equal)),
        (Value::Null, Value::Null, None),
        (Value::Null, Value::Int(0), None),
        (Value::Int(1), Value::Day(1), None),
        (Value::Int(1), Value::Micros(1), None),
        (Value::Int(1), decimal(1, 0), None),
    ] {
        assert!(rt; stand(&a, &b, expected));
    }
    assert!(rt; same(&Value::Null, &Value::Null));
    assert!(rt; !same(&Value::Null, &Value::Bool(false)));
    assert!(rt; same(&decimal(15, 1), &decimal(1500, 3)));
}

// Whether a lane keeps a value, and gives it back.
fn keeps<T: Lane>(value: &Value, kind: &DataType) -> Result<bool, AllocError>
    requires { IsTrue (T.serves kind.now) }
{
    match T::from_value(value)? {
        Some(kept) => {
            let again = T::to_value(&kept, kind)?;
            let tied = T::equal(&kept, &kept) && T::order(&kept, &kept) == Ordering::Equal;
            Ok(tied && same(&again, value))
        }
        None => Ok(false),
    }
}

fn is_kept<T: Lane>(value: &Value) -> Result<bool, AllocError> {
    Ok(T::from_value(value)?.is_some())
}

#[test]
fn lanes_keep_values(rt: HostRuntime) -> Result<(), Fail> {
    let price = DataType::Decimal {
        precision: 38,
        scale: 2,
    };
    assert!(rt; keeps::<LaneBool>(&Value::Bool(true), &DataType::Boolean)?);
    assert!(rt; keeps::<LaneByte>(&Value::Int(-128), &DataType::Byte)?);
    assert!(rt; keeps::<LaneShort>(&Value::Int(-32768), &DataType::Short)?);
    assert!(rt; keeps::<LaneInt>(&Value::Int(-2147483648), &DataType::Integer)?);
    assert!(rt; keeps::<LaneInt>(&Value::Day(-719162), &DataType::Date)?);
    assert!(rt; keeps::<LaneLong>(&Value::Int(i64::MIN), &DataType::Long)?);
    assert!(rt; keeps::<LaneLong>(&Value::Micros(i64::MAX), &DataType::Timestamp)?);
    assert!(rt; keeps::<LaneDecimal>(&decimal(i128::MIN, 2), &price)?);
    assert!(rt; keeps::<LaneText>(&text(rt.alloc(), "a")?, &DataType::Str)?);
    assert!(rt; keeps::<LaneBytes>(&bytes(rt.alloc(), b"\xff")?, &DataType::Binary)?);
    Ok(())
}

#[test]
fn lanes_refuse_other_values(rt: HostRuntime) -> Result<(), Fail> {
    assert!(rt; !is_kept::<LaneBool>(&Value::Null)?);
    assert!(rt; !is_kept::<LaneByte>(&Value::Int(128))?);
    assert!(rt; !is_kept::<LaneShort>(&Value::Int(-32769))?);
    assert!(rt; !is_kept::<LaneShort>(&Value::Day(1))?);
    assert!(rt; !is_kept::<LaneInt>(&Value::Int(2147483648))?);
    assert!(rt; !is_kept::<LaneInt>(&Value::Micros(1))?);
    assert!(rt; !is_kept::<LaneLong>(&Value::Day(1))?);
    assert!(rt; !is_kept::<LaneDecimal>(&Value::Int(1))?);
    assert!(rt; !is_kept::<LaneText>(&bytes(rt.alloc(), b"a")?)?);
    assert!(rt; !is_kept::<LaneBytes>(&text(rt.alloc(), "a")?)?);
    Ok(())
}
