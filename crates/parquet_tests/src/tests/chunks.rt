// Chunks made by hand, and what is read of them.
ghost use Rattle.std.specs.Prelude.{IfSome};
ghost use Rattle.dm_types.specs.Ranges.{IsWellFormed};

use super::wanted::{Wanted, holds};
use column_vectors::AnyColumn;
use dm_types::{Bytes, DataType, Items};
use parquet_meta::{
    Annotation, ChunkMeta, DictionaryPage, LeafSchema, Logical, PageHeader, PageV1, PageV2,
    SharedBytes, write_page_header,
};
use parquet_pages::{FileFault, read_chunk};
use std::alloc::{AllocError, Global};
use std::test::Fail;

pub(crate) const NO_ANNOTATION: Annotation = Annotation {
    converted: None,
    scale: None,
    precision: None,
    logical: Logical::Absent,
};

/// A column that is asked for, the leaf that holds it, and what its chunk tells.
#[derive(Clone, Copy)]
pub(crate) struct Setting {
    pub(crate) kind: DataType,
    pub(crate) nullable: bool,
    pub(crate) text_left: u64,
    pub(crate) physical: u8,
    pub(crate) length: i32,
    pub(crate) optional: bool,
    pub(crate) repeated: bool,
    pub(crate) top: bool,
    pub(crate) annotation: Annotation,
    /// The file's bytes before its pages.
    pub(crate) start: &'static [u8],
    pub(crate) rows: usize,
    pub(crate) codec: i32,
    pub(crate) page_at: i64,
    pub(crate) dictionary_at: Option<i64>,
    /// How many values more than rows the chunk tells.
    pub(crate) more_values: i64,
    /// How many bytes more than those of its pages the chunk tells.
    pub(crate) more_bytes: i64,
}

/// A column of texts or null, in a chunk of one row.
pub(crate) const TEXTS: Setting = Setting {
    kind: DataType::Str,
    nullable: true,
    text_left: 100,
    physical: 6,
    length: 0,
    optional: true,
    repeated: false,
    top: true,
    annotation: NO_ANNOTATION,
    start: b"PAR1",
    rows: 1,
    codec: 0,
    page_at: 4,
    dictionary_at: None,
    more_values: 0,
    more_bytes: 0,
};

/// A column whose leaf tells no levels, in a chunk of one row.
pub(crate) const REQUIRED: Setting = Setting {
    nullable: false,
    optional: false,
    ..TEXTS
};

/// A page of a chunk.
#[derive(Clone, Copy)]
pub(crate) struct Page<'a> {
    /// 0 DATA_PAGE, 1 INDEX_PAGE, 2 DICTIONARY_PAGE, 3 DATA_PAGE_V2.
    pub(crate) kind: i32,
    pub(crate) values: i32,
    pub(crate) encoding: i32,
    /// The encoding of the levels.
    pub(crate) definition: i32,
    /// How many bytes more it tells unpacked than packed.
    pub(crate) more_unpacked: i32,
    pub(crate) body: &'a [u8],
}

/// A data page of one entry, PLAIN, with levels in RLE.
pub(crate) const PLAIN: Page<'static> = Page {
    kind: 0,
    values: 1,
    encoding: 0,
    definition: 3,
    more_unpacked: 0,
    body: b"",
};

/// A dictionary page of one value.
pub(crate) const DICTIONARY: Page<'static> = Page { kind: 2, ..PLAIN };

// The header of a page whose body has so many bytes.
fn header_of(page: &Page<'_>, size: i32) -> PageHeader {
    let data = PageV1 {
        values: page.values,
        encoding: page.encoding,
        definition: page.definition,
        repetition: 3,
    };
    let dictionary = DictionaryPage {
        values: page.values,
        encoding: page.encoding,
    };
    let second = PageV2 {
        values: page.values,
        nulls: 0,
        rows: page.values,
        encoding: page.encoding,
        definition_bytes: 0,
        repetition_bytes: 0,
    };
    PageHeader {
        kind: page.kind,
        unpacked: size.saturating_add(page.more_unpacked),
        packed: size,
        page: (page.kind == 0).then_some(data),
        dictionary: (page.kind == 2).then_some(dictionary),
        page_v2: (page.kind == 3).then_some(second),
    }
}

// The bytes of a file that has these pages behind its start.
pub(crate) fn file_of(alloc: Global, start: &[u8], pages: &[Page<'_>]) -> Result<Bytes, Fail> {
    let mut file = Items::from_slice(alloc, start)?;
    for page in pages {
        let size = i32::try_from(page.body.len())?;
        write_page_header(alloc, &header_of(page, size), &mut file)?;
        file.extend_from_slice(page.body)?;
    }
    Ok(file)
}

fn leaf_of(alloc: Global, setting: &Setting) -> Result<LeafSchema, AllocError> {
    Ok(LeafSchema {
        name: SharedBytes::new(alloc, Bytes::new(alloc))?,
        top: setting.top,
        physical: setting.physical,
        length: setting.length,
        optional: setting.optional,
        repeated: setting.repeated,
        annotation: setting.annotation,
        field_id: None,
    })
}

// A chunk of so many rows and bytes.
fn chunk_of(alloc: Global, setting: &Setting, rows: i64, size: i64) -> ChunkMeta {
    ChunkMeta {
        external: false,
        physical: i32::from(setting.physical),
        encodings: Items::new(alloc),
        path: Items::new(alloc),
        codec: setting.codec,
        values: rows.saturating_add(setting.more_values),
        unpacked: size,
        packed: size.saturating_add(setting.more_bytes),
        page_at: setting.page_at,
        dictionary_at: setting.dictionary_at,
    }
}

fn well_formed(kind: DataType) -> Option<DataType>
    ensures { IfSome result (λ it. IsWellFormed it) }
{
    match kind {
        DataType::Decimal { precision, scale } => {
            ((1..=38).contains(&precision) && scale <= precision).then_some(kind)
        }
        _ => Some(kind),
    }
}

// What is read of these pages.
pub(crate) fn read(
    alloc: Global,
    setting: &Setting,
    pages: &[Page<'_>],
) -> Result<Result<AnyColumn, FileFault>, Fail> {
    let kind = well_formed(setting.kind).ok_or("no type")?;
    let file = file_of(alloc, setting.start, pages)?;
    let rows = i64::try_from(setting.rows)?;
    let size = i64::try_from(file.len().saturating_sub(setting.start.len()))?;
    let leaf = leaf_of(alloc, setting)?;
    let chunk = chunk_of(alloc, setting, rows, size);
    Ok(read_chunk(
        alloc,
        file.as_slice(),
        &chunk,
        &leaf,
        &kind,
        setting.nullable,
        setting.rows,
        setting.text_left,
    ))
}

// Whether these pages are read as these values, or with this fault.
pub(crate) fn gives(
    alloc: Global,
    setting: &Setting,
    pages: &[Page<'_>],
    wanted: Result<&[Wanted], FileFault>,
) -> Result<bool, Fail> {
    match (read(alloc, setting, pages)?, wanted) {
        (Ok(column), Ok(values)) => Ok(holds(&column, values)?),
        (Err(fault), Err(wanted)) => Ok(fault == wanted),
        _ => Ok(false),
    }
}
