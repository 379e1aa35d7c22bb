// Texts of values.
ghost use Rattle.std.specs.Prelude.{◌≡◌, ◌<◌, ◌++◌, false, OnOk, OnErr};
ghost use Rattle.std.specs.Fmt.{digit_glyph};
ghost use Rattle.std.specs.List.{flat_map};
ghost use Rattle.dm_text.specs.Fronts.{KeepsFront};
ghost use Rattle.dm_text.specs.Printing as spec;
ghost use Rattle.dm_types.specs.Ranges.{IsInRange};

use crate::calendar::push_date;
use crate::decimals::push_decimal;
use crate::moments::push_moment;
use dm_types::{Bytes, DataType, Value};
use itoa::Buffer;
use std::alloc::AllocError;

/// Adds the text of a value of the type, which is in its range. After want of memory `out` is as
/// before.
///
/// Truth values are `true` and `false`, whole numbers decimal with `-` where they are negative,
/// decimals with as many digits behind the point as the scale says, texts as they are, bytes two
/// lower-case hexadecimal digits each, dates `yyyy-MM-dd`, moments `yyyy-MM-dd HH:mm:ss.ffffff` in UTC.
pub fn print_value(value: &Value, kind: &DataType, out: &mut Bytes) -> Result<(), AllocError>
    requires { IsInRange kind.now value.now }
    ensures ok { OnOk result (out.new ≡ out.old ++ spec.printed value.now) }
    ensures err { OnErr result (out.new ≡ out.old) }
{
    let before = out.len();
    let pushed = push_value(out, value, kind);
    if pushed.is_err() {
        out.truncate(before);
    }
    pushed
}

/// Adds the text of a value.
pub(crate) fn push_value(out: &mut Bytes, value: &Value, kind: &DataType) -> Result<(), AllocError>
    requires { IsInRange kind.now value.now }
    ensures ok { OnOk result (out.new ≡ out.old ++ spec.printed value.now) }
    ensures front { KeepsFront out.old out.new }
{
    match value {
        Value::Null => out.extend_from_slice(b"\\N"),
        Value::Bool(true) => out.extend_from_slice(b"true"),
        Value::Bool(false) => out.extend_from_slice(b"false"),
        Value::Int(number) => out.extend_from_slice(Buffer::new().format(*number).as_bytes()),
        Value::Dec(decimal) => push_decimal(out, decimal),
        Value::Text(text) => out.extend_from_slice(text.as_bytes()),
        Value::Bytes(bytes) => push_hex(out, bytes.as_slice()),
        Value::Day(day) => push_date(out, i64::from(*day)),
        Value::Micros(moment) => push_moment(out, *moment),
    }
}

fn push_hex(out: &mut Bytes, bytes: &[u8]) -> Result<(), AllocError>
    ensures ok { OnOk result (out.new ≡ out.old ++ flat_map spec.hex_pair bytes.now) }
    ensures front { KeepsFront out.old out.new }
{
    for byte in bytes {
        out.extend_from_slice(&[hex_digit(*byte / 16), hex_digit(*byte % 16)])?;
    }
    Ok(())
}

fn hex_digit(digit: u8) -> u8
    requires { digit < 16 }
    ensures { result ≡ digit_glyph false digit }
{
    if digit < 10 {
        b'0' + digit
    } else {
        b'a' - 10 + digit
    }
}
