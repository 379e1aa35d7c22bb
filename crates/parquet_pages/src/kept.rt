// The column that is read, as long as its text is within the limit.
ghost use Rattle.std.specs.Prelude.{◌≡◌, OnOk, IfSome};
ghost use Rattle.dm_types.specs.Lanes.{IsNullOrOf};
ghost use Rattle.parquet_pages.specs.Kept.{roomed, with_value};

use column_vectors::AnyColumn;
use dm_types::{DataType, Value};
use std::alloc::AllocError;

/// A column, and how many bytes of text may still go into it.
#[derive(Drop)]
pub(crate) struct KeptColumn {
    pub(crate) column: AnyColumn,
    pub(crate) text_left: u64,
}

/// A column that is read of chunks.
#[derive(Drop)]
pub(crate) struct Reading {
    /// Its type.
    pub(crate) kind: DataType,
    /// Whether it takes nulls.
    pub(crate) nullable: bool,
    /// What is read so far; None once its text has passed the limit.
    pub(crate) kept: Option<KeptColumn>,
}

/// GoesInto room for text. Where there is too little, nothing is kept from then on.
pub(crate) fn take_room(kept: &mut Option<KeptColumn>, size: usize)
    ensures { kept.new ≡ roomed size kept.old }
{
    match kept {
        Some(column) if size as u64 <= column.text_left => column.text_left -= size as u64,
        _ => *kept = None,
    }
}

/// Adds a value for which there is room.
pub(crate) fn keep(kept: &mut Option<KeptColumn>, value: Value) -> Result<(), AllocError>
    requires { IfSome kept.old (λ it. IsNullOrOf it.column.kind value) }
    ensures { OnOk result (kept.new ≡ with_value value kept.old) }
{
    match kept {
        Some(it) => it.column.push(value),
        None => Ok(()),
    }
}
