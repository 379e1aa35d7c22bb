// The trees of page headers.
ghost use Rattle.std.specs.Prelude.{◌≡◌, IfOk, OnOk};
ghost use Rattle.parquet_meta.specs.Written.{inner, page_table, dictionary_table, page_v2_table, header_fields};
ghost use Rattle.parquet_meta.specs.Steps.{PageFits, DictionaryFits, PageV2Fits, HeaderFits};

use crate::building::{Written, put, put_maybe};
use crate::headers::{DictionaryPage, PageHeader, PageV1, PageV2};
use sqlite_items::Items;
use std::alloc::{AllocError, Global};
use thrift_compact::{Node, Tree};

impl Written for PageV1 {
    ghost width = { 0 };

    ghost written = { λ p. inner (page_table p) };

    ghost fits = { PageFits };

    fn width() -> u8 {
        0
    }

    fn write(&self, alloc: Global) -> Result<Node, AllocError> {
        let mut tree = Items::new(alloc);
        put(alloc, &mut tree, 1, &self.values)?;
        put(alloc, &mut tree, 2, &self.encoding)?;
        put(alloc, &mut tree, 3, &self.definition)?;
        put(alloc, &mut tree, 4, &self.repetition)?;
        Ok(Node::Struct(tree))
    }
}

impl Written for DictionaryPage {
    ghost width = { 0 };

    ghost written = { λ p. inner (dictionary_table p) };

    ghost fits = { DictionaryFits };

    fn width() -> u8 {
        0
    }

    fn write(&self, alloc: Global) -> Result<Node, AllocError> {
        let mut tree = Items::new(alloc);
        put(alloc, &mut tree, 1, &self.values)?;
        put(alloc, &mut tree, 2, &self.encoding)?;
        Ok(Node::Struct(tree))
    }
}

impl Written for PageV2 {
    ghost width = { 0 };

    ghost written = { λ p. inner (page_v2_table p) };

    ghost fits = { PageV2Fits };

    fn width() -> u8 {
        0
    }

    fn write(&self, alloc: Global) -> Result<Node, AllocError> {
        let mut tree = Items::new(alloc);
        put(alloc, &mut tree, 1, &self.values)?;
        put(alloc, &mut tree, 2, &self.nulls)?;
        put(alloc, &mut tree, 3, &self.rows)?;
        put(alloc, &mut tree, 4, &self.encoding)?;
        put(alloc, &mut tree, 5, &self.definition_bytes)?;
        put(alloc, &mut tree, 6, &self.repetition_bytes)?;
        Ok(Node::Struct(tree))
    }
}

/// The fields of a page header.
#[tactic(auto, unfolding(crate::specs::Written::header_fields))]
pub(crate) fn header_tree(alloc: Global, header: &PageHeader) -> Result<Tree, AllocError>
    ensures fields { IfOk result (λ tree. tree ≡ header_fields header.now) }
    ensures range { OnOk result (HeaderFits header.now) }
{
    let mut tree = Items::new(alloc);
    put(alloc, &mut tree, 1, &header.kind)?;
    put(alloc, &mut tree, 2, &header.unpacked)?;
    put(alloc, &mut tree, 3, &header.packed)?;
    put_maybe(alloc, &mut tree, 5, &header.page)?;
    put_maybe(alloc, &mut tree, 7, &header.dictionary)?;
    put_maybe(alloc, &mut tree, 8, &header.page_v2)?;
    Ok(tree)
}
