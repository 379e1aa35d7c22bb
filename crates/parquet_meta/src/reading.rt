// Reading a footer and a page header.
ghost use Rattle.std.specs.Prelude.{◌≡◌, pos, length, zip, IfOk};
ghost use Rattle.std.specs.List.{list_all};
ghost use Rattle.std.specs.Int.Signed.{le_z};
ghost use Rattle.parquet_meta.specs.Gives.{Gives};
ghost use Rattle.parquet_meta.specs.Meaning.{is_chunk as is_chunk_of, groups_fit as groups_fit_of};
ghost use Rattle.parquet_meta.specs.Meaning.{has_chunks as has_chunks_of, rows_add_up as rows_add_up_of, footer_of};
ghost use Rattle.parquet_meta.specs.Meaning.{footer_in, page_header_in, IsSound};

use crate::elements::Element;
use crate::fault::MetaFault;
use crate::forms::{Shape, checked, needed, needed_list};
use crate::headers::PageHeader;
use crate::leaves::schema_leaves;
use crate::metadata::{ChunkMeta, Footer, LeafList, LeafSchema, RowGroup};
use crate::pages::header;
use dm_types::Items;
use std::alloc::Global;
use thrift_compact::{ThriftFault, Tree, read_struct};

fn is_chunk(chunk: &ChunkMeta, leaf: &LeafSchema) -> bool
    ensures { result ≡ is_chunk_of (chunk.now, leaf.now) }
{
    chunk.physical == i32::from(leaf.physical) && !chunk.external
}

fn are_chunks(chunks: &[ChunkMeta], leaves: &[LeafSchema]) -> bool
    ensures { result ≡ list_all is_chunk_of (zip chunks.now leaves.now) }
{
    chunks
        .iter()
        .zip(leaves.iter())
        .all(|(chunk, leaf)| is_chunk(chunk, leaf))
}

/// Whether the row group has one chunk for each leaf, in order.
fn has_chunks(leaves: &LeafList, group: &RowGroup) -> bool
    ensures { result ≡ has_chunks_of leaves.now group.now }
{
    group.chunks.len() == leaves.len() && are_chunks(group.chunks.as_slice(), leaves.as_slice())
}

/// Whether the group's number of rows is none below 0.
fn has_a_count(group: &RowGroup) -> bool
    ensures { result ≡ le_z (pos 0) group.now.rows }
{
    group.rows >= 0
}

/// Whether the groups' rows aren't negative and add up to the file's.
fn rows_add_up(rows: i64, groups: &[RowGroup]) -> bool
    ensures { result ≡ rows_add_up_of rows groups.now }
{
    let mut left = rows;
    for group in groups {
        if !has_a_count(group) || group.rows > left {
            return false;
        }
        left -= group.rows;
    }
    left == 0
}

fn have_chunks(leaves: &LeafList, groups: &[RowGroup]) -> bool
    ensures { result ≡ list_all (has_chunks_of leaves.now) groups.now }
{
    groups.iter().all(|group| has_chunks(leaves, group))
}

fn groups_fit(footer: &Footer) -> bool
    ensures { result ≡ groups_fit_of footer.now.rows footer.now.leaves footer.now.groups }
{
    let groups = footer.groups.as_slice();
    have_chunks(&footer.leaves, groups) && rows_add_up(footer.rows, groups)
}

fn footer(alloc: Global, tree: &Tree) -> Result<Footer, MetaFault>
    ensures footer { Gives (footer_of tree.now) result }
    ensures sound { IfOk result IsSound }
{
    let _version: i32 = needed(alloc, tree, 1)?;
    let elements: Items<Element> = needed_list(alloc, tree, 2)?;
    let rows = needed(alloc, tree, 3)?;
    let groups: Items<RowGroup> = needed_list(alloc, tree, 4)?;
    checked(tree, 5, Shape::Structs)?;
    checked(tree, 6, Shape::Binary)?;
    checked(tree, 7, Shape::Structs)?;
    let leaves = schema_leaves(alloc, elements.as_slice())?;
    let footer = Footer {
        rows,
        leaves,
        groups,
    };
    if groups_fit(&footer) {
        Ok(footer)
    } else {
        Err(MetaFault::BadFooter)
    }
}

/// The footer that the bytes are, none left over.
///
/// A footer is a struct `FileMetaData` of parquet.thrift. Fields that this project doesn't know are
/// skipped, and of an id that comes twice the last field counts. The faults are: bytes that aren't
/// one struct; a required field that is missing; a field of another type; a schema that isn't a tree
/// in preorder, or has an element that is neither a group nor a leaf; a row group that hasn't one
/// chunk for each leaf, of the leaf's type and in this file; rows that are negative or don't add up.
#[tactic(auto, unfolding(crate::specs::Meaning::footer_in))]
pub fn read_footer(alloc: Global, bytes: &[u8]) -> Result<Footer, MetaFault>
    ensures footer { Gives (footer_in bytes.now) result }
    // No count of rows is negative, they add up, and each row group has one chunk for each leaf.
    ensures sound { IfOk result IsSound }
{
    match read_struct(alloc, bytes) {
        Ok((tree, size)) if size == bytes.len() => footer(alloc, &tree),
        Err(ThriftFault::Memory) => Err(MetaFault::Memory),
        _ => Err(MetaFault::BadFooter),
    }
}

/// The page header at the front of the bytes, and how many of them it takes. Bytes may follow it.
///
/// A page header is a struct `PageHeader` of parquet.thrift. Its numbers aren't judged, and neither
/// is which of its structs are there.
#[tactic(auto, unfolding(crate::specs::Meaning::page_header_in))]
pub fn read_page_header(alloc: Global, bytes: &[u8]) -> Result<(PageHeader, usize), MetaFault>
    ensures { Gives (page_header_in bytes.now) result }
{
    match read_struct(alloc, bytes) {
        Ok((tree, size)) => Ok((header(alloc, &tree)?, size)),
        Err(ThriftFault::BadThrift { .. }) => Err(MetaFault::BadFooter),
        Err(ThriftFault::Memory) => Err(MetaFault::Memory),
    }
}
