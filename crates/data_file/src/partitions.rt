// The values of a file's partition columns.
ghost use Rattle.std.specs.Prelude.{◌≡◌, length, [], All, IfOk, IfSome, find};
ghost use Rattle.std.specs.Option.{option_copied};
ghost use Rattle.std.specs.Str.{bytes_eq};
ghost use Rattle.dm_text.specs.Answers.{ReadsText};
ghost use Rattle.dm_types.specs.Ranges.{IsWellFormed, IsNullOrInRange};
ghost use Rattle.data_file.specs.Answers.{Gives};
ghost use Rattle.data_file.specs.Partitions as spec;
ghost use Rattle.data_file.specs.Steps.{AreConstants};

use crate::columns::Columns;
use crate::fault::PartFault;
use crate::room::less;
use column_mapping::Mode;
use delta_schema::{ColumnDef, TableSchema};
use dm_text::{TextFault, print_value, read_value};
use dm_types::{Bytes, Counted, DataType, Items, PartitionValues, Text, Value};
use std::alloc::{AllocError, Global};

/// For each column of a table the value that it has in each row of a file, where it is a partition
/// column.
pub(crate) type Constants = Items<Option<Value>>;

// The name under which a column's value stands.
fn key(mode: Mode, column: &ColumnDef) -> &Text
    ensures { result.now ≡ spec.key_of mode column.now }
{
    match (mode, &column.physical) {
        (Mode::ByName | Mode::ById, Some(physical)) => physical,
        _ => &column.name,
    }
}

// What is given under a name.
fn given_under<'a>(values: &'a PartitionValues, key: &Text) -> Option<&'a (Text, Option<Text>)>
    ensures { option_copied result ≡ find (λ given. bytes_eq given.0 key.now) values.now }
{
    values.as_slice().iter().find(|given| given.0 == *key)
}

// The text that is given; without one, the empty text.
fn given_text<'a>(given: Option<&'a (Text, Option<Text>)>) -> &'a [u8]
    ensures { result.now ≡ spec.given_text (option_copied given.entry) }
{
    match given {
        Some((_, Some(text))) => text.as_bytes(),
        _ => &[],
    }
}

// The value that a text is of: null where it is empty.
fn value_of(alloc: Global, column: &ColumnDef, text: &[u8]) -> Result<Value, TextFault>
    requires { IsWellFormed column.now.kind }
    ensures value { ReadsText (spec.value_of column.now text.now) result }
    ensures range { IfOk result (IsNullOrInRange column.now.kind) }
{
    if !text.is_empty() {
        read_value(alloc, text, &column.kind)
    } else if column.nullable {
        Ok(Value::Null)
    } else {
        Err(TextFault::BadText)
    }
}

// The value of the column at a place, if it is a partition column.
fn constant(
    alloc: Global,
    mode: Mode,
    values: &PartitionValues,
    at: usize,
    column: &ColumnDef,
) -> Result<Option<Value>, PartFault>
    requires { IsWellFormed column.now.kind }
    ensures value { Gives (λ value. value) (spec.constant_of mode values.now at column.now) result }
    ensures range { IfOk result (λ value. IfSome value (IsNullOrInRange column.now.kind)) }
{
    if !column.partition {
        return Ok(None);
    }
    match value_of(
        alloc,
        column,
        given_text(given_under(values, key(mode, column))),
    ) {
        Ok(value) => Ok(Some(value)),
        Err(TextFault::BadText) => Err(PartFault::Partition { column: at }),
        Err(TextFault::Memory) => Err(PartFault::Memory),
    }
}

/// The values of the partition columns, by the texts that the file's action gives (PROTOCOL.md,
/// "Partition Value Serialization").
pub(crate) fn constants(
    alloc: Global,
    columns: &Columns<'_>,
    values: &PartitionValues,
) -> Result<Constants, PartFault>
    requires { All (λ column. IsWellFormed column.kind) columns.now.schema.now }
    ensures found { Gives (λ found. found)
        (spec.constants_from columns.now.mode values.now columns.now.schema.now []) result }
    ensures each { IfOk result (AreConstants columns.now.schema.now) }
{
    let mut found = Items::new(alloc);
    for (at, column) in columns.schema.as_slice().iter().enumerate() {
        let one = constant(alloc, columns.mode, values, at, column)?;
        found.push(one)?;
    }
    Ok(found)
}

// How many bytes the printed text of a constant has.
fn printed_size(alloc: Global, kind: &DataType, constant: &Option<Value>) -> Result<u64, AllocError>
    requires { IfSome constant.now (IsNullOrInRange kind.now) }
    ensures { IfOk result (λ size. size ≡ spec.printed_size constant.now) }
{
    match constant {
        None | Some(Value::Null) => Ok(0),
        Some(value) => {
            let mut text = Bytes::new(alloc);
            print_value(value, kind, &mut text)?;
            Ok(text.len() as u64)
        }
    }
}

/// The room for text behind the printed constants, each of which counts once for each row.
pub(crate) fn text_behind(
    alloc: Global,
    schema: &TableSchema,
    constants: &Constants,
    rows: u64,
    left: u64,
) -> Result<u64, PartFault>
    requires { AreConstants schema.now constants.now }
    ensures { Gives (λ left. left) (spec.text_behind rows constants.now left) result }
{
    let mut left = left;
    for (at, constant) in constants.as_slice().iter().enumerate() {
        let size = printed_size(alloc, &schema.get(at).kind, constant)?;
        left = less(Counted::TextBytes, size, rows, left)?;
    }
    Ok(left)
}
