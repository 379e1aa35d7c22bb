// The entries of a page, as values of the column.
ghost use Rattle.std.specs.Prelude.{◌≡◌, ◌∷◌, [], List, ◌<◌, length, Ok, Some, None, OnOk, option_map};
ghost use Rattle.dm_types.specs.declared.value.DataType.TheVariants.{Binary, Str};
ghost use Rattle.dm_types.specs.declared.value.Value.TheVariants as value;
ghost use Rattle.parquet_pages.specs.Kept.{grown, IsKeptOf, IsReading};
ghost use Rattle.parquet_pages.specs.Pages.{or_else, column_values, entry_value, null_value};
ghost use Rattle.parquet_pages.specs.Physical.{Physical};
ghost use Rattle.parquet_pages.specs.Places.{entry_with};
ghost use Rattle.parquet_pages.specs.Taking.{GoesInto, OneGoesInto};
ghost use Rattle.parquet_pages.specs.Types.{plain_value, text_of, value_of};
ghost use Rattle.parquet_pages.specs.Views.{chosen, level_list, page_values, seen, wanted};
ghost use Rattle.parquet_pages.specs.declared.fault.FileFault.TheVariants.{Range};

use crate::fault::FileFault;
use crate::kept::{KeptColumn, Reading, keep, take_room};
use crate::levels::Levels;
use crate::meaning::plain_value;
use crate::physical::{PageValues, PlainValue};
use crate::values::Order;
use dm_types::{Bytes, DataType, Text, Value};
use parquet_meta::{Annotation, LeafSchema};
use std::alloc::{AllocError, Global};
use std::str;

fn keep_text(alloc: Global, kept: &mut Option<KeptColumn>, text: &str) -> Result<(), AllocError>
    requires { IsKeptOf Str kept.old }
    ensures { OnOk result (kept.new ≡ grown (value.Text text.now ∷ []) kept.old) }
{
    take_room(kept, text.len());
    if kept.is_none() {
        return Ok(());
    }
    keep(kept, Value::Text(Text::from_str(alloc, text)?))
}

fn keep_bytes(alloc: Global, kept: &mut Option<KeptColumn>, bytes: &[u8]) -> Result<(), AllocError>
    requires { IsKeptOf Binary kept.old }
    ensures { OnOk result (kept.new ≡ grown (value.Bytes bytes.now ∷ []) kept.old) }
{
    take_room(kept, bytes.len());
    if kept.is_none() {
        return Ok(());
    }
    keep(kept, Value::Bytes(Bytes::from_slice(alloc, bytes)?))
}

// Adds the text that bytes spell.
fn take_text(alloc: Global, reading: &mut Reading, bytes: &[u8]) -> Result<(), FileFault>
    requires { IsKeptOf Str reading.old.kept }
    ensures { OneGoesInto (text_of bytes.now) reading.old reading.new result }
{
    match str::from_utf8(bytes) {
        Ok(text) => Ok(keep_text(alloc, &mut reading.kept, text)?),
        Err(_) => Err(FileFault::Range),
    }
}

// Adds a value of a type that is no text and no bytes.
fn take_plain(
    reading: &mut Reading,
    annotation: &Annotation,
    value: PlainValue<'_>,
) -> Result<(), FileFault>
    requires { IsReading reading.old }
    ensures { OneGoesInto (plain_value reading.old.kind annotation.now (seen value.entry))
        reading.old reading.new result }
{
    match plain_value(&reading.kind, annotation, value) {
        Some(found) => Ok(keep(&mut reading.kept, found)?),
        None => Err(FileFault::Range),
    }
}

// Adds a value that is no null.
fn take_value(
    alloc: Global,
    reading: &mut Reading,
    annotation: &Annotation,
    value: PlainValue<'_>,
) -> Result<(), FileFault>
    requires { IsReading reading.old }
    ensures { OneGoesInto (value_of reading.old.kind annotation.now (seen value.entry)) reading.old reading.new result }
{
    match (reading.kind, value) {
        (DataType::Str, PlainValue::Raw(bytes)) => take_text(alloc, reading, bytes),
        (DataType::Binary, PlainValue::Raw(bytes)) => {
            Ok(keep_bytes(alloc, &mut reading.kept, bytes)?)
        }
        _ => take_plain(reading, annotation, value),
    }
}

// Adds a null.
fn take_null(reading: &mut Reading) -> Result<(), FileFault>
    ensures { OneGoesInto (null_value reading.old.nullable) reading.old reading.new result }
{
    if !reading.nullable {
        return Err(FileFault::Range);
    }
    Ok(keep(&mut reading.kept, Value::Null)?)
}

// The value of an entry, which so many full ones come before; None of a null.
fn entry_of<'a>(
    levels: &Levels,
    order: &Order,
    values: &'a PageValues<'_>,
    at: usize,
    before: usize,
) -> Option<PlainValue<'a>>
    requires { at < length (level_list levels.now) }
    ensures { option_map seen result ≡ entry_with (level_list levels.now) (page_values values.now) order.now at before }
{
    if levels.is_full(at) {
        order.value(values, before)
    } else {
        None
    }
}

// Adds the value of an entry.
fn take_entry(
    alloc: Global,
    reading: &mut Reading,
    leaf: &LeafSchema,
    entry: Option<PlainValue<'_>>,
) -> Result<(), FileFault>
    requires { IsReading reading.old }
    ensures { OneGoesInto (entry_value (wanted reading.old leaf.now) (option_map seen entry.entry))
        reading.old reading.new result }
{
    match entry {
        Some(value) => take_value(alloc, reading, &leaf.annotation, value),
        None => take_null(reading),
    }
}

/// Adds the entries of a page. Once the text has passed the limit, they are only judged.
pub(crate) fn take_entries(
    alloc: Global,
    reading: &mut Reading,
    leaf: &LeafSchema,
    levels: &Levels,
    order: &Order,
    values: &PageValues<'_>,
) -> Result<(), FileFault>
    requires { IsReading reading.old }
    ensures { (named : List Physical) → chosen (page_values values.now) order.now ≡ Some named
        → GoesInto (or_else Range (column_values (wanted reading.old leaf.now)
        (record { levels = level_list levels.now; values = named })))
        reading.old reading.new result }
{
    let mut before = 0;
    for at in 0..levels.len() {
        let entry = entry_of(levels, order, values, at, before);
        take_entry(alloc, reading, leaf, entry)?;
        before += usize::from(levels.is_full(at));
    }
    Ok(())
}
