// Fields of a line.
ghost use Rattle.std.specs.Prelude.{◌≡◌, ◌++◌, OnOk, OnErr};
ghost use Rattle.dm_text.specs.Fronts.{KeepsFront};
ghost use Rattle.dm_text.specs.Printing as spec;
ghost use Rattle.dm_types.specs.Ranges.{IsNullOrInRange};

use crate::printing::print_value;
use dm_types::{Bytes, DataType, Value};
use std::alloc::AllocError;

/// Adds a value of the type, or null, as a field of a line. After want of memory `out` is as before.
///
/// Null is `\N`. In the text of a value a backslash, tab, line feed and carriage return are written
/// `\\`, `\t`, `\n`, `\r`, so that no field holds what parts fields and lines.
pub fn print_field(value: &Value, kind: &DataType, out: &mut Bytes) -> Result<(), AllocError>
    requires { IsNullOrInRange kind.now value.now }
    ensures ok { OnOk result (out.new ≡ out.old ++ spec.value_field value.now) }
    ensures err { OnErr result (out.new ≡ out.old) }
{
    match value {
        Value::Null => out.extend_from_slice(b"\\N"),
        Value::Text(text) => print_escaped(out, text.as_bytes()),
        // No other value is printed with a byte that is escaped.
        _ => print_value(value, kind, out),
    }
}

// Adds a text as a field.
fn print_escaped(out: &mut Bytes, text: &[u8]) -> Result<(), AllocError>
    ensures ok { OnOk result (out.new ≡ out.old ++ spec.field text.now) }
    ensures err { OnErr result (out.new ≡ out.old) }
{
    let before = out.len();
    let pushed = push_field(out, text);
    if pushed.is_err() {
        out.truncate(before);
    }
    pushed
}

fn push_field(out: &mut Bytes, text: &[u8]) -> Result<(), AllocError>
    ensures ok { OnOk result (out.new ≡ out.old ++ spec.field text.now) }
    ensures front { KeepsFront out.old out.new }
{
    for byte in text {
        push_escaped(out, *byte)?;
    }
    Ok(())
}

fn push_escaped(out: &mut Bytes, byte: u8) -> Result<(), AllocError>
    ensures ok { OnOk result (out.new ≡ out.old ++ spec.escaped byte) }
    ensures err { OnErr result (out.new ≡ out.old) }
{
    match byte {
        b'\\' => out.extend_from_slice(b"\\\\"),
        b'\t' => out.extend_from_slice(b"\\t"),
        b'\n' => out.extend_from_slice(b"\\n"),
        b'\r' => out.extend_from_slice(b"\\r"),
        _ => out.push(byte),
    }
}
