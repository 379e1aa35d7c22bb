// Row groups and column chunks, from their trees.
ghost use Rattle.std.specs.Prelude.{◌≡◌, pos, IfOk};
ghost use Rattle.parquet_meta.specs.Gives.{Gives};
ghost use Rattle.parquet_meta.specs.Forms.{struct, list as list_of, i32 as i32_of, needed as needed_of};
ghost use Rattle.parquet_meta.specs.Chunks.{column_of, chunk_of, group_of};

use crate::fault::MetaFault;
use crate::forms::{
    Form, Shape, checked, is_there, needed, needed_list, needed_struct, optional, struct_in,
};
use crate::metadata::{ChunkMeta, RowGroup};
use dm_types::{Items, WholeList};
use std::alloc::{AllocError, Global};
use thrift_compact::{Node, Tree};

fn widened(alloc: Global, numbers: &[i32]) -> Result<WholeList, AllocError>
    ensures { IfOk result (λ wide. wide ≡ numbers.now) }
{
    let mut wide = Items::new(alloc);
    for number in numbers {
        wide.push(i64::from(*number))?;
    }
    Ok(wide)
}

fn encodings(alloc: Global, tree: &Tree) -> Result<WholeList, MetaFault>
    ensures { Gives (needed_of (list_of i32_of) (pos 2) tree.now) result }
{
    let numbers: Items<i32> = needed_list(alloc, tree, 2)?;
    Ok(widened(alloc, numbers.as_slice())?)
}

fn column(alloc: Global, external: bool, tree: &Tree) -> Result<ChunkMeta, MetaFault>
    ensures { Gives (column_of external tree.now) result }
{
    let physical = needed(alloc, tree, 1)?;
    let encodings = encodings(alloc, tree)?;
    let path = needed_list(alloc, tree, 3)?;
    let codec = needed(alloc, tree, 4)?;
    let values = needed(alloc, tree, 5)?;
    let unpacked = needed(alloc, tree, 6)?;
    let packed = needed(alloc, tree, 7)?;
    checked(tree, 8, Shape::Structs)?;
    let page_at = needed(alloc, tree, 9)?;
    checked(tree, 10, Shape::I64)?;
    let dictionary_at = optional(alloc, tree, 11)?;
    checked(tree, 12, Shape::Struct)?;
    Ok(ChunkMeta {
        external,
        physical,
        encodings,
        path,
        codec,
        values,
        unpacked,
        packed,
        page_at,
        dictionary_at,
    })
}

fn chunk(alloc: Global, tree: &Tree) -> Result<ChunkMeta, MetaFault>
    ensures { Gives (chunk_of tree.now) result }
{
    checked(tree, 1, Shape::Binary)?;
    let _offset: i64 = needed(alloc, tree, 2)?;
    match needed_struct(tree, 3) {
        Some(inner) => column(alloc, is_there(tree, 1), inner),
        None => Err(MetaFault::BadFooter),
    }
}

impl Form for ChunkMeta {
    ghost form = { struct chunk_of };

    fn read(alloc: Global, _width: u8, node: &Node) -> Result<ChunkMeta, MetaFault> {
        match struct_in(node) {
            Some(tree) => chunk(alloc, tree),
            None => Err(MetaFault::BadFooter),
        }
    }
}

fn group(alloc: Global, tree: &Tree) -> Result<RowGroup, MetaFault>
    ensures { Gives (group_of tree.now) result }
{
    let chunks = needed_list(alloc, tree, 1)?;
    let bytes = needed(alloc, tree, 2)?;
    let rows = needed(alloc, tree, 3)?;
    Ok(RowGroup {
        bytes,
        rows,
        chunks,
    })
}

impl Form for RowGroup {
    ghost form = { struct group_of };

    fn read(alloc: Global, _width: u8, node: &Node) -> Result<RowGroup, MetaFault> {
        match struct_in(node) {
            Some(tree) => group(alloc, tree),
            None => Err(MetaFault::BadFooter),
        }
    }
}
