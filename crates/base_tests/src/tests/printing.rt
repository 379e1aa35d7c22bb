// Texts of each type, read and printed.
ghost use Rattle.dm_types.specs.Ranges.{IsWellFormed, IsNullOrInRange};

use dm_text::{print_field, print_value, read_value};
use dm_types::{Bytes, DataType, Text, Value, same};
use std::alloc::Global;
use std::test::Fail;

const MONEY: DataType = DataType::Decimal {
    precision: 5,
    scale: 2,
};

const WIDE: DataType = DataType::Decimal {
    precision: 38,
    scale: 38,
};

const GREAT: DataType = DataType::Decimal {
    precision: 38,
    scale: 0,
};

/// Whether a text is read as a value.
fn reads(alloc: Global, kind: &DataType, text: &str, wanted: &Value) -> bool
    requires { IsWellFormed kind.now }
{
    match read_value(alloc, text.as_bytes(), kind) {
        Ok(value) => same(&value, wanted),
        Err(_) => false,
    }
}

/// Whether a text is refused.
fn refuses(alloc: Global, kind: &DataType, text: &str) -> bool
    requires { IsWellFormed kind.now }
{
    read_value(alloc, text.as_bytes(), kind).is_err()
}

/// Whether each of the texts is refused.
fn refuses_all(alloc: Global, kind: &DataType, texts: &[&str]) -> bool
    requires { IsWellFormed kind.now }
{
    for text in texts {
        if !refuses(alloc, kind, text) {
            return false;
        }
    }
    true
}

/// Whether a text is read and printed as another.
fn reads_as(alloc: Global, kind: &DataType, text: &str, printed: &str) -> Result<bool, Fail>
    requires { IsWellFormed kind.now }
{
    let value = read_value(alloc, text.as_bytes(), kind)?;
    let mut out = Bytes::new(alloc);
    print_value(&value, kind, &mut out)?;
    Ok(out.as_slice() == printed.as_bytes())
}

fn reads_all_as(alloc: Global, kind: &DataType, pairs: &[(&str, &str)]) -> Result<bool, Fail>
    requires { IsWellFormed kind.now }
{
    for (text, printed) in pairs {
        if !reads_as(alloc, kind, text, printed)? {
            return Ok(false);
        }
    }
    Ok(true)
}

const FLAGS: &[(&str, &str)] = &[("true", "true"), ("FALSE", "false"), ("tRuE", "true")];

const NO_FLAGS: &[&str] = &["", "1", "true ", "yes", "tru", "truee"];

const BYTES: &[(&str, &str)] = &[("127", "127"), ("-128", "-128"), ("+5", "5"), ("-0", "0")];

const NO_BYTES: &[&str] = &[
    "128", "-129", "", "+", "-", "++1", "+-1", " 1", "1 ", "1.0", "0x1",
];

const SHORTS: &[(&str, &str)] = &[("32767", "32767"), ("-32768", "-32768"), ("007", "7")];

const NO_SHORTS: &[&str] = &["32768", "-32769"];

const INTEGERS: &[(&str, &str)] = &[("2147483647", "2147483647"), ("-2147483648", "-2147483648")];

const NO_INTEGERS: &[&str] = &["2147483648", "-2147483649"];

const LONGS: &[(&str, &str)] = &[
    ("9223372036854775807", "9223372036854775807"),
    ("-9223372036854775808", "-9223372036854775808"),
];

const NO_LONGS: &[&str] = &[
    "9223372036854775808",
    "-9223372036854775809",
    "340282366920938463463374607431768211456",
];

const MONIES: &[(&str, &str)] = &[
    ("1.5", "1.50"),
    ("-0.05", "-0.05"),
    ("+000999.99", "999.99"),
    ("12", "12.00"),
    ("-7.1", "-7.10"),
];

const NO_MONIES: &[&str] = &[
    "1000", "1.234", ".5", "1.", "1.5.5", "--1", "1e2", "1,5", "-", "",
];

const WIDES: &[(&str, &str)] = &[(
    "-0.99999999999999999999999999999999999999",
    "-0.99999999999999999999999999999999999999",
)];

const GREATS: &[(&str, &str)] = &[(
    "99999999999999999999999999999999999999",
    "99999999999999999999999999999999999999",
)];

const NO_GREATS: &[&str] = &["100000000000000000000000000000000000000", "1.0"];

#[test]
fn numbers_are_read_and_printed(rt: HostRuntime) -> Result<(), Fail> {
    let alloc = rt.alloc();
    assert!(rt; reads_all_as(alloc, &DataType::Boolean, FLAGS)?);
    assert!(rt; refuses_all(alloc, &DataType::Boolean, NO_FLAGS));
    assert!(rt; reads_all_as(alloc, &DataType::Byte, BYTES)?);
    assert!(rt; refuses_all(alloc, &DataType::Byte, NO_BYTES));
    assert!(rt; reads_all_as(alloc, &DataType::Short, SHORTS)?);
    assert!(rt; refuses_all(alloc, &DataType::Short, NO_SHORTS));
    assert!(rt; reads_all_as(alloc, &DataType::Integer, INTEGERS)?);
    assert!(rt; refuses_all(alloc, &DataType::Integer, NO_INTEGERS));
    assert!(rt; reads_all_as(alloc, &DataType::Long, LONGS)?);
    assert!(rt; refuses_all(alloc, &DataType::Long, NO_LONGS));
    assert!(rt; reads_all_as(alloc, &MONEY, MONIES)?);
    assert!(rt; refuses_all(alloc, &MONEY, NO_MONIES));
    assert!(rt; reads_all_as(alloc, &WIDE, WIDES)?);
    assert!(rt; reads_all_as(alloc, &GREAT, GREATS)?);
    assert!(rt; refuses_all(alloc, &GREAT, NO_GREATS));
    Ok(())
}

/// Both ends of the range, and each month's last day in a leap and a common year, with their days.
const DATES: &[(&str, i32)] = &[
    ("0001-01-01", -719162),
    ("9999-12-31", 2932896),
    ("1970-01-01", 0),
    ("1969-12-31", -1),
    ("2000-02-29", 11016),
    ("1900-02-28", -25509),
    ("2023-01-31", 19388),
    ("2023-02-28", 19416),
    ("2023-03-31", 19447),
    ("2023-04-30", 19477),
    ("2023-05-31", 19508),
    ("2023-06-30", 19538),
    ("2023-07-31", 19569),
    ("2023-08-31", 19600),
    ("2023-09-30", 19630),
    ("2023-10-31", 19661),
    ("2023-11-30", 19691),
    ("2023-12-31", 19722),
    ("2024-01-31", 19753),
    ("2024-02-29", 19782),
    ("2024-03-31", 19813),
    ("2024-04-30", 19843),
    ("2024-05-31", 19874),
    ("2024-06-30", 19904),
    ("2024-07-31", 19935),
    ("2024-08-31", 19966),
    ("2024-09-30", 19996),
    ("2024-10-31", 20027),
    ("2024-11-30", 20057),
    ("2024-12-31", 20088),
];

const NO_DATES: &[&str] = &[
    "0000-12-31",
    "10000-01-01",
    "2023-02-29",
    "1900-02-29",
    "2024-13-01",
    "2024-00-01",
    "2024-04-31",
    "2024-01-00",
    "2024-1-01",
    "2024-01-1",
    "24-01-01",
    "2024/01/01",
    "2024-01-01 ",
    "+024-01-01",
    "",
];

/// Whether each date is read as its day.
fn dates_are_days(alloc: Global, dates: &[(&str, i32)]) -> bool {
    for (text, day) in dates {
        if !reads(alloc, &DataType::Date, text, &Value::Day(*day)) {
            return false;
        }
    }
    true
}

/// Whether each date is printed again.
fn dates_are_printed(alloc: Global, dates: &[(&str, i32)]) -> Result<bool, Fail> {
    for (text, _) in dates {
        if !reads_as(alloc, &DataType::Date, text, text)? {
            return Ok(false);
        }
    }
    Ok(true)
}

/// Texts of moments, and their microseconds.
const MOMENTS: &[(&str, i64)] = &[
    ("1970-01-01 00:00:00", 0),
    ("1969-12-31 23:59:59.999999", -1),
    ("2024-02-29 12:34:56.123", 1709210096123000),
    ("2024-02-29T12:34:56.5Z", 1709210096500000),
    ("0001-01-01 00:00:00", -62135596800000000),
    ("9999-12-31T23:59:59.999999Z", 253402300799999999),
];

const PRINTED_MOMENTS: &[(&str, &str)] = &[
    ("1969-12-31T23:59:59.999999Z", "1969-12-31 23:59:59.999999"),
    ("2024-02-29 12:34:56.7", "2024-02-29 12:34:56.700000"),
    ("0001-01-01 00:00:00", "0001-01-01 00:00:00.000000"),
    ("9999-12-31 23:59:59.999999", "9999-12-31 23:59:59.999999"),
];

const NO_MOMENTS: &[&str] = &[
    "2024-02-29",
    "2024-02-29 24:00:00",
    "2024-02-29 12:60:00",
    "2024-02-29 12:00:60",
    "2024-02-29 12:00:00.",
    "2024-02-29 12:00:00.1234567",
    "2024-02-29 12:00",
    "2024-02-29T12:00:00",
    "2024-02-29 12:00:00Z",
    "2023-02-29 12:00:00",
    "2024-02-29  12:00:00",
    "2024-02-29T",
    "2024-02-29TZ",
];

fn moments_are_micros(alloc: Global, moments: &[(&str, i64)]) -> bool {
    for (text, micros) in moments {
        if !reads(alloc, &DataType::Timestamp, text, &Value::Micros(*micros)) {
            return false;
        }
    }
    true
}

#[test]
fn days_and_moments_are_read_and_printed(rt: HostRuntime) -> Result<(), Fail> {
    let alloc = rt.alloc();
    assert!(rt; dates_are_days(alloc, DATES));
    assert!(rt; dates_are_printed(alloc, DATES)?);
    assert!(rt; refuses_all(alloc, &DataType::Date, NO_DATES));
    assert!(rt; moments_are_micros(alloc, MOMENTS));
    assert!(rt; reads_all_as(alloc, &DataType::Timestamp, PRINTED_MOMENTS)?);
    assert!(rt; refuses_all(alloc, &DataType::Timestamp, NO_MOMENTS));
    Ok(())
}

/// Whether a value is printed as a field.
fn field_is(alloc: Global, value: &Value, kind: &DataType, wanted: &str) -> Result<bool, Fail>
    requires { IsNullOrInRange kind.now value.now }
{
    let mut out = Bytes::new(alloc);
    print_field(value, kind, &mut out)?;
    Ok(out.as_slice() == wanted.as_bytes())
}

#[test]
fn texts_bytes_and_nulls_are_fields(rt: HostRuntime) -> Result<(), Fail> {
    let alloc = rt.alloc();
    let text = Value::Text(Text::from_str(alloc, "a\tb\\c\nd\re")?);
    assert!(rt; field_is(alloc, &text, &DataType::Str, "a\\tb\\\\c\\nd\\re")?);
    assert!(rt; reads(alloc, &DataType::Str, "a\tb\\c\nd\re", &text));
    assert!(rt; field_is(alloc, &Value::Null, &DataType::Long, "\\N")?);
    let bytes = Value::Bytes(Bytes::from_slice(alloc, &[0, 10, 0xAB, 0xFF])?);
    assert!(rt; field_is(alloc, &bytes, &DataType::Binary, "000aabff")?);
    assert!(rt; refuses(alloc, &DataType::Binary, "00"));
    assert!(rt; read_value(alloc, &[0xFF], &DataType::Str).is_err());
    Ok(())
}

/// A thousand zeros before a number.
fn padded(alloc: Global) -> Result<Text, Fail> {
    let mut text = Text::new(alloc);
    for _ in 0..1000 {
        text.push('0')?;
    }
    text.push_str("42")?;
    Ok(text)
}

fn print_moment(out: &mut Bytes) -> Result<(), Fail> {
    let value = Value::Micros(1_709_210_096_700_000);
    print_field(&value, &DataType::Timestamp, out)?;
    Ok(())
}

/// Prints fields, so many.
fn print_many(alloc: Global, count: usize) -> Result<Bytes, Fail> {
    let mut out = Bytes::new(alloc);
    for _ in 0..count {
        print_moment(&mut out)?;
    }
    Ok(out)
}

#[test]
fn long_texts_and_many_fields(rt: HostRuntime) -> Result<(), Fail> {
    let alloc = rt.alloc();
    let text = padded(alloc)?;
    assert!(rt; reads(alloc, &DataType::Byte, text.as_str(), &Value::Int(42)));
    assert!(rt; reads_as(alloc, &MONEY, text.as_str(), "42.00")?);
    assert_eq!(rt; print_many(alloc, 1_000_000)?.len(), 26_000_000);
    Ok(())
}
