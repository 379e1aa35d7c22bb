// Page after page of a chunk.
ghost use Rattle.std.specs.Prelude.{◌≡◌, ℕ, List, length, drop, pos, Some, None, option_map};
ghost use Rattle.std.specs.Option.{option_copied};
ghost use Rattle.parquet_pages.specs.Answers.{Gives, GivesBody};
ghost use Rattle.parquet_pages.specs.Kept.{IsReading};
ghost use Rattle.parquet_pages.specs.Pages as spec;
ghost use Rattle.parquet_pages.specs.Physical.{Physical};
ghost use Rattle.parquet_pages.specs.Taking.{GoesInto, PageGoesInto};
ghost use Rattle.parquet_pages.specs.Entries.{full};
ghost use Rattle.parquet_pages.specs.Views.{cut_of, level_list, page_values, state_of, wanted};
ghost use Rattle.parquet_pages.specs.declared.fault.FileFault.TheVariants.{BadParquet};
ghost use Rattle.parquet_pages.specs.declared.pages.Role.TheVariants as role;

use crate::entries::take_entries;
use crate::fault::FileFault;
use crate::kept::Reading;
use crate::levels::{Levels, read_levels};
use crate::physical::{PageValues, read_values};
use crate::values::{Order, read_order};
use parquet_meta::numbers::{
    DATA_PAGE, DICTIONARY_PAGE, INDEX_PAGE, PLAIN, PLAIN_DICTIONARY, RLE, RLE_DICTIONARY,
};
use parquet_meta::{DictionaryPage, LeafSchema, PageHeader, PageV1, laws, read_page_header};
use std::alloc::Global;

/// Where the reading of pages stands.
#[derive(Drop)]
pub(crate) struct Progress<'a> {
    /// No page is read yet.
    pub(crate) first: bool,
    /// The values of the dictionary page.
    pub(crate) dictionary: Option<PageValues<'a>>,
    /// How many entries are still to come.
    pub(crate) left: usize,
}

/// A page at the front of bytes.
#[derive(Drop)]
struct Cut<'a> {
    header: PageHeader,
    body: &'a [u8],
    rest: &'a [u8],
}

// What a page is.
#[derive(Clone, Copy)]
enum Role {
    Entries(PageV1),
    Index,
    Dictionary(DictionaryPage),
    Unknown,
}

// The encodings of a data page that are read.
fn is_known(optional: bool, header: &PageV1) -> bool
    ensures { result ≡ spec.is_known optional header.now }
{
    (!optional || header.definition == RLE)
        && matches!(header.encoding, PLAIN | PLAIN_DICTIONARY | RLE_DICTIONARY)
}

// Adds the entries of a page whose values are PLAIN.
fn take_plain(
    alloc: Global,
    reading: &mut Reading,
    leaf: &LeafSchema,
    levels: &Levels,
    bytes: &[u8],
) -> Result<(), FileFault>
    requires { IsReading reading.old }
    ensures { GoesInto (spec.entries_of (wanted reading.old leaf.now) (level_list levels.now)
        (spec.plain_values leaf.now (full (level_list levels.now)) bytes.now)) reading.old reading.new result }
{
    let values = read_values(alloc, leaf, bytes, levels.count_full())?;
    take_entries(alloc, reading, leaf, levels, &Order::InTurn, &values)
}

// Adds the entries of a page whose values stand in the dictionary.
fn take_named(
    alloc: Global,
    reading: &mut Reading,
    leaf: &LeafSchema,
    dictionary: &PageValues<'_>,
    levels: &Levels,
    bytes: &[u8],
) -> Result<(), FileFault>
    requires { IsReading reading.old }
    ensures { GoesInto (spec.entries_of (wanted reading.old leaf.now) (level_list levels.now)
        (spec.dictionary_values (Some (page_values dictionary.now)) (full (level_list levels.now)) bytes.now))
        reading.old reading.new result }
{
    let order = read_order(alloc, dictionary, bytes, levels.count_full())?;
    take_entries(alloc, reading, leaf, levels, &order, dictionary)
}

// Adds the entries of a page behind its levels.
fn take_values(
    alloc: Global,
    reading: &mut Reading,
    leaf: &LeafSchema,
    dictionary: &Option<PageValues<'_>>,
    encoding: i32,
    levels: &Levels,
    bytes: &[u8],
) -> Result<(), FileFault>
    requires { IsReading reading.old }
    ensures { GoesInto (spec.entries_of (wanted reading.old leaf.now) (level_list levels.now)
        (spec.page_values leaf.now (option_map page_values dictionary.now) encoding (full (level_list levels.now))
        bytes.now))
        reading.old reading.new result }
{
    if encoding == PLAIN {
        return take_plain(alloc, reading, leaf, levels, bytes);
    }
    match dictionary {
        Some(values) => take_named(alloc, reading, leaf, values, levels, bytes),
        None => Err(FileFault::BadParquet),
    }
}

// Adds the entries of a data page (parquet.thrift, `DataPageHeader`).
fn take_data(
    alloc: Global,
    reading: &mut Reading,
    leaf: &LeafSchema,
    dictionary: &Option<PageValues<'_>>,
    header: &PageV1,
    body: &[u8],
) -> Result<(), FileFault>
    requires { IsReading reading.old }
    ensures { GoesInto (spec.data_page (wanted reading.old leaf.now) (option_map page_values dictionary.now)
        header.now body.now)
        reading.old reading.new result }
{
    if !is_known(leaf.optional, header) {
        return Err(FileFault::Encoding);
    }
    let (levels, bytes) = read_levels(
        alloc,
        leaf.optional,
        body,
        header.values.unsigned_abs() as usize,
    )?;
    take_values(
        alloc,
        reading,
        leaf,
        dictionary,
        header.encoding,
        &levels,
        bytes,
    )
}

// The values of a dictionary page (parquet.thrift, `DictionaryPageHeader`).
fn read_dictionary<'a>(
    alloc: Global,
    leaf: &LeafSchema,
    header: &DictionaryPage,
    body: &'a [u8],
) -> Result<PageValues<'a>, FileFault>
    ensures { Gives page_values (spec.dictionary_page leaf.now header.now body.now) result }
{
    if !matches!(header.encoding, PLAIN | PLAIN_DICTIONARY) {
        return Err(FileFault::Encoding);
    }
    read_values(alloc, leaf, body, header.values.unsigned_abs() as usize)
}

// The page at the front of bytes: its sizes are equal and not negative, and it ends within them.
fn cut_page(alloc: Global, bytes: &[u8]) -> Result<Cut<'_>, FileFault>
    ensures { GivesBody cut_of (spec.page_at bytes.now) result }
{
    let (header, size) = read_page_header(alloc, bytes)?;
    laws::page_headers_are_read();
    split_page(header, &bytes[size..])
}

fn split_page(header: PageHeader, behind: &[u8]) -> Result<Cut<'_>, FileFault>
    ensures { GivesBody cut_of (spec.cut_page header behind.now) result }
{
    if header.packed < 0 || header.packed != header.unpacked {
        return Err(FileFault::BadParquet);
    }
    match behind.split_at_checked(header.packed as usize) {
        Some((body, rest)) => Ok(Cut { header, body, rest }),
        None => Err(FileFault::BadParquet),
    }
}

// What a page is; None where its header is at fault.
fn role_of(first: bool, left: usize, header: &PageHeader) -> Option<Role>
    ensures { result ≡ spec.role_of first left header.now }
{
    match header.kind {
        DATA_PAGE => {
            let page = header.page?;
            if page.values < 0 || page.values as usize > left {
                return None;
            }
            Some(Role::Entries(page))
        }
        INDEX_PAGE => Some(Role::Index),
        DICTIONARY_PAGE => {
            let page = header.dictionary?;
            if !first || page.values < 0 {
                return None;
            }
            Some(Role::Dictionary(page))
        }
        _ => Some(Role::Unknown),
    }
}

// Adds the entries of a data page, which are then no more to come.
fn take_counted(
    alloc: Global,
    reading: &mut Reading,
    leaf: &LeafSchema,
    progress: &mut Progress<'_>,
    page: &PageV1,
    body: &[u8],
) -> Result<(), FileFault>
    requires { IsReading reading.old }
    ensures { PageGoesInto (spec.take_page (wanted reading.old leaf.now) (state_of progress.old)
        (role.Entries page.now) body.now)
        reading.old reading.new (state_of progress.new) result }
{
    take_data(alloc, reading, leaf, &progress.dictionary, page, body)?;
    progress.first = false;
    progress.left = progress
        .left
        .saturating_sub(page.values.unsigned_abs() as usize);
    Ok(())
}

// Keeps the values of a dictionary page.
fn take_dictionary<'a>(
    alloc: Global,
    reading: &Reading,
    leaf: &LeafSchema,
    progress: &mut Progress<'a>,
    page: &DictionaryPage,
    body: &'a [u8],
) -> Result<(), FileFault>
    ensures { PageGoesInto (spec.take_page (wanted reading.now leaf.now) (state_of progress.old)
        (role.Dictionary page.now) body.now)
        reading.now reading.now (state_of progress.new) result }
{
    let values = read_dictionary(alloc, leaf, page, body)?;
    progress.first = false;
    progress.dictionary = Some(values);
    Ok(())
}

// Adds the entries of a page, if it has any.
fn take_page<'a>(
    alloc: Global,
    reading: &mut Reading,
    leaf: &LeafSchema,
    progress: &mut Progress<'a>,
    header: &PageHeader,
    body: &'a [u8],
) -> Result<(), FileFault>
    requires { IsReading reading.old }
    ensures { PageGoesInto (spec.page_entries (wanted reading.old leaf.now) (state_of progress.old) header.now body.now)
        reading.old reading.new (state_of progress.new) result }
{
    let Some(role) = role_of(progress.first, progress.left, header) else {
        return Err(FileFault::BadParquet);
    };
    match role {
        Role::Entries(page) => take_counted(alloc, reading, leaf, progress, &page, body),
        Role::Index => {
            progress.first = false;
            Ok(())
        }
        Role::Dictionary(page) => take_dictionary(alloc, reading, leaf, progress, &page, body),
        Role::Unknown => Err(FileFault::Encoding),
    }
}

// Adds the entries of pages, until there are as many as are to come.
fn take_each<'a>(
    alloc: Global,
    reading: &mut Reading,
    leaf: &LeafSchema,
    progress: &mut Progress<'a>,
    bytes: &'a [u8],
) -> Result<(), FileFault>
    requires { IsReading reading.old }
    ensures { GoesInto (spec.pages_at (length bytes.now) (wanted reading.old leaf.now) (state_of progress.old)
        bytes.now)
        reading.old reading.new result }
{
    let mut rest = bytes;
    // Each page has a byte.
    for _ in 0..bytes.len() {
        if progress.left == 0 {
            return Ok(());
        }
        let page = cut_page(alloc, rest)?;
        take_page(alloc, reading, leaf, progress, &page.header, page.body)?;
        rest = page.rest;
    }
    if progress.left > 0 {
        return Err(FileFault::BadParquet);
    }
    Ok(())
}

/// Adds the entries of the pages of a chunk, until there are as many as are wanted. What is behind
/// them isn't looked at.
pub(crate) fn take_pages(
    alloc: Global,
    reading: &mut Reading,
    leaf: &LeafSchema,
    rows: usize,
    bytes: &[u8],
) -> Result<(), FileFault>
    requires { IsReading reading.old }
    ensures { GoesInto (spec.pages_at (length bytes.now) (wanted reading.old leaf.now) (spec.begun rows) bytes.now)
        reading.old reading.new result }
{
    let mut progress = Progress {
        first: true,
        dictionary: None,
        left: rows,
    };
    take_each(alloc, reading, leaf, &mut progress, bytes)
}
