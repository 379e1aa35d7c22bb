// The text of a column.
ghost use Rattle.std.specs.Prelude.{◌≡◌, ◌<◌, ◌^◌};
ghost use Rattle.dm_types.specs.declared.value.DataType.TheVariants.{Binary, Str};
ghost use Rattle.parquet_pages.specs.Kept.{text_size as text_size_of};

use column_vectors::{AnyColumn, Column, LaneColumn};
use dm_types::{LaneBytes, LaneText};

/// How many bytes the texts or bytes of a column have together. It takes no memory.
pub(crate) fn text_size(column: &AnyColumn) -> u64
    requires { text_size_of column.now.values < 2 ^ 64 }
    ensures { result ≡ text_size_of column.now.values }
{
    let _ = column.kind();
    match column.lane() {
        LaneColumn::Text(texts) => size_of_texts(texts),
        LaneColumn::Bytes(bytes) => size_of_bytes(bytes),
        _ => 0,
    }
}

fn size_of_texts(texts: &Column<LaneText>) -> u64
    requires { text_size_of texts.now.values < 2 ^ 64 }
    ensures { result ≡ text_size_of texts.now.values }
{
    let mut size = 0;
    for row in 0..texts.len() {
        if let Some(text) = texts.get(row) {
            size += text.len() as u64;
        }
    }
    size
}

fn size_of_bytes(bytes: &Column<LaneBytes>) -> u64
    requires { text_size_of bytes.now.values < 2 ^ 64 }
    ensures { result ≡ text_size_of bytes.now.values }
{
    let mut size = 0;
    for row in 0..bytes.len() {
        if let Some(value) = bytes.get(row) {
            size += value.len() as u64;
        }
    }
    size
}
