// Page headers, from their trees.
ghost use Rattle.parquet_meta.specs.Gives.{Gives};
ghost use Rattle.parquet_meta.specs.Forms.{struct};
ghost use Rattle.parquet_meta.specs.Headers.{page_of, dictionary_of, page_v2_of, header_of};

use crate::fault::MetaFault;
use crate::forms::{Form, Shape, checked, needed, optional, struct_in};
use crate::headers::{DictionaryPage, PageHeader, PageV1, PageV2};
use std::alloc::Global;
use thrift_compact::{Node, Tree};

fn page(alloc: Global, tree: &Tree) -> Result<PageV1, MetaFault>
    ensures { Gives (page_of tree.now) result }
{
    let values = needed(alloc, tree, 1)?;
    let encoding = needed(alloc, tree, 2)?;
    let definition = needed(alloc, tree, 3)?;
    let repetition = needed(alloc, tree, 4)?;
    checked(tree, 5, Shape::Struct)?;
    Ok(PageV1 {
        values,
        encoding,
        definition,
        repetition,
    })
}

impl Form for PageV1 {
    ghost form = { struct page_of };

    fn read(alloc: Global, _width: u8, node: &Node) -> Result<PageV1, MetaFault> {
        match struct_in(node) {
            Some(tree) => page(alloc, tree),
            None => Err(MetaFault::BadFooter),
        }
    }
}

fn dictionary(alloc: Global, tree: &Tree) -> Result<DictionaryPage, MetaFault>
    ensures { Gives (dictionary_of tree.now) result }
{
    let values = needed(alloc, tree, 1)?;
    let encoding = needed(alloc, tree, 2)?;
    checked(tree, 3, Shape::Bool)?;
    Ok(DictionaryPage { values, encoding })
}

impl Form for DictionaryPage {
    ghost form = { struct dictionary_of };

    fn read(alloc: Global, _width: u8, node: &Node) -> Result<DictionaryPage, MetaFault> {
        match struct_in(node) {
            Some(tree) => dictionary(alloc, tree),
            None => Err(MetaFault::BadFooter),
        }
    }
}

fn page_v2(alloc: Global, tree: &Tree) -> Result<PageV2, MetaFault>
    ensures { Gives (page_v2_of tree.now) result }
{
    let values = needed(alloc, tree, 1)?;
    let nulls = needed(alloc, tree, 2)?;
    let rows = needed(alloc, tree, 3)?;
    let encoding = needed(alloc, tree, 4)?;
    let definition_bytes = needed(alloc, tree, 5)?;
    let repetition_bytes = needed(alloc, tree, 6)?;
    checked(tree, 7, Shape::Bool)?;
    checked(tree, 8, Shape::Struct)?;
    Ok(PageV2 {
        values,
        nulls,
        rows,
        encoding,
        definition_bytes,
        repetition_bytes,
    })
}

impl Form for PageV2 {
    ghost form = { struct page_v2_of };

    fn read(alloc: Global, _width: u8, node: &Node) -> Result<PageV2, MetaFault> {
        match struct_in(node) {
            Some(tree) => page_v2(alloc, tree),
            None => Err(MetaFault::BadFooter),
        }
    }
}

/// What the fields of a page header say.
pub(crate) fn header(alloc: Global, tree: &Tree) -> Result<PageHeader, MetaFault>
    ensures { Gives (header_of tree.now) result }
{
    let kind = needed(alloc, tree, 1)?;
    let unpacked = needed(alloc, tree, 2)?;
    let packed = needed(alloc, tree, 3)?;
    checked(tree, 4, Shape::I32)?;
    let page = optional(alloc, tree, 5)?;
    checked(tree, 6, Shape::Struct)?;
    let dictionary = optional(alloc, tree, 7)?;
    let page_v2 = optional(alloc, tree, 8)?;
    Ok(PageHeader {
        kind,
        unpacked,
        packed,
        page,
        dictionary,
        page_v2,
    })
}
