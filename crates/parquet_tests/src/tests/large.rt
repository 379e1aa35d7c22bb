// Large files, written and read again.
ghost use Rattle.std.specs.Prelude.{◌≤◌, IfOk};
ghost use Rattle.dm_types.specs.Ranges.{IsWellFormed};
ghost use Rattle.parquet_file.specs.Writing.{IsWritableFile};
ghost use Rattle.parquet_pages.specs.Writing.{IsWritableColumn};

use super::columns::are_same;
use column_vectors::AnyColumn;
use dm_types::{DataType, Text, Value};
use parquet_file::{FileColumn, FileColumns, open_file, write_file};
use std::alloc::{AllocError, Global};
use std::test::Fail;

fn longs(alloc: Global, count: u32) -> Result<AnyColumn, AllocError>
    requires { count ≤ 20_000_000 }
    ensures { IfOk result IsWritableColumn }
{
    let mut column = AnyColumn::new(alloc, DataType::Long);
    for number in 0..count {
        column.push(Value::Int(i64::from(number)))?;
    }
    Ok(column)
}

fn texts(alloc: Global, count: u32) -> Result<AnyColumn, AllocError>
    requires { count ≤ 20_000_000 }
    ensures { IfOk result IsWritableColumn }
{
    let mut column = AnyColumn::new(alloc, DataType::Str);
    for _ in 0..count {
        column.push(Value::Text(Text::from_str(alloc, "a text of the table")?))?;
    }
    Ok(column)
}

fn file_of(alloc: Global, column: AnyColumn) -> Result<FileColumns, AllocError>
    requires { IsWritableColumn column }
    ensures { IfOk result IsWritableFile }
{
    let mut columns = FileColumns::new(alloc);
    let kind = *column.kind();
    let name = Text::from_str(alloc, "c")?;
    columns.push(FileColumn {
        name,
        field_id: None,
        kind,
        column,
    })?;
    Ok(columns)
}

// Whether columns of one type that are written are read as they were.
fn come_back(alloc: Global, columns: &FileColumns, kind: &DataType) -> Result<bool, Fail>
    requires columns { IsWritableFile columns.now }
    requires kind { IsWellFormed kind.now }
{
    let bytes = write_file(alloc, columns)?;
    let file = open_file(alloc, bytes.as_slice())?;
    if file.leaf_count() != columns.len() {
        return Ok(false);
    }
    for (i, column) in columns.as_slice().iter().enumerate() {
        let read = file.column(alloc, i, kind, true, 1 << 29)?;
        if !are_same(&read, &column.column)? {
            return Ok(false);
        }
    }
    Ok(true)
}

#[test]
fn five_million_longs_are_read_back(rt: HostRuntime) -> Result<(), Fail> {
    let alloc = rt.alloc();
    let columns = file_of(alloc, longs(alloc, 5_000_000)?)?;
    assert!(rt; come_back(alloc, &columns, &DataType::Long)?);
    Ok(())
}

#[test]
fn a_million_texts_are_read_back(rt: HostRuntime) -> Result<(), Fail> {
    let alloc = rt.alloc();
    let columns = file_of(alloc, texts(alloc, 1_000_000)?)?;
    assert!(rt; come_back(alloc, &columns, &DataType::Str)?);
    Ok(())
}
