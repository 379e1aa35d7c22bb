// The trees of chunks, row groups and footers.
ghost use Rattle.std.specs.Prelude.{◌≡◌, ◌++◌, ◌∷◌, ◌<◌, ◌^◌, [], pos, map, length, codes, Some, IfOk, OnOk};
ghost use Rattle.std.specs.List.{AllByRecursion};
ghost use Rattle.thrift_compact.specs.declared.tree.Node.TheVariants as n;
ghost use Rattle.parquet_meta.specs.Written.{inner, fields_of, entry, nodes, whole_list, root_table, leaf_table};
ghost use Rattle.parquet_meta.specs.Written.{column_table, chunk_table, group_table, footer_fields};
ghost use Rattle.parquet_meta.specs.Steps.{LeafFits, ChunkFits, GroupFits, FooterFits};

use crate::building::{Written, append_nodes, put, put_list, put_maybe, put_node};
use crate::metadata::{ChunkMeta, Footer, LeafSchema, RowGroup};
use sqlite_items::Items;
use std::alloc::{AllocError, Global};
use thrift_compact::{Node, Tree};

/// What `created_by` says.
const WRITER: &[u8] = b"deltamerge";

/// The name of the root.
const ROOT: &[u8] = b"schema";

fn binary(alloc: Global, bytes: &[u8]) -> Result<Node, AllocError>
    ensures { IfOk result (λ node. node ≡ n.Binary bytes.now) }
{
    Ok(Node::Binary(Items::from_slice(alloc, bytes)?))
}

/// A list of whole numbers of 32 bits.
fn put_wholes(alloc: Global, tree: &mut Tree, id: i16, wholes: &[i64]) -> Result<(), AllocError>
    ensures { OnOk result (tree.new ≡ tree.old ++ entry id (Some (whole_list wholes.now))) }
{
    let mut nodes = Items::new(alloc);
    append_nodes(alloc, &mut nodes, wholes)?;
    let width = if wholes.is_empty() { 0 } else { 32 };
    put_node(tree, id, width, Node::List(nodes))
}

/// A `ColumnMetaData`.
fn column_tree(alloc: Global, chunk: &ChunkMeta) -> Result<Tree, AllocError>
    ensures tree { IfOk result (λ tree. tree ≡ fields_of (column_table chunk.now)) }
    ensures range { OnOk result (ChunkFits chunk.now) }
{
    let mut tree = Items::new(alloc);
    put(alloc, &mut tree, 1, &chunk.physical)?;
    put_wholes(alloc, &mut tree, 2, chunk.encodings.as_slice())?;
    put_list(alloc, &mut tree, 3, chunk.path.as_slice())?;
    put(alloc, &mut tree, 4, &chunk.codec)?;
    put(alloc, &mut tree, 5, &chunk.values)?;
    put(alloc, &mut tree, 6, &chunk.unpacked)?;
    put(alloc, &mut tree, 7, &chunk.packed)?;
    put(alloc, &mut tree, 9, &chunk.page_at)?;
    put_maybe(alloc, &mut tree, 11, &chunk.dictionary_at)?;
    Ok(tree)
}

impl Written for ChunkMeta {
    ghost width = { 0 };

    ghost written = { λ chunk. inner (chunk_table chunk) };

    ghost fits = { ChunkFits };

    fn width() -> u8 {
        0
    }

    fn write(&self, alloc: Global) -> Result<Node, AllocError> {
        let column = column_tree(alloc, self)?;
        let mut tree = Items::new(alloc);
        put_node(&mut tree, 2, 64, Node::Whole(0))?;
        put_node(&mut tree, 3, 0, Node::Struct(column))?;
        Ok(Node::Struct(tree))
    }
}

impl Written for RowGroup {
    ghost width = { 0 };

    ghost written = { λ group. inner (group_table group) };

    ghost fits = { GroupFits };

    fn width() -> u8 {
        0
    }

    fn write(&self, alloc: Global) -> Result<Node, AllocError> {
        let mut tree = Items::new(alloc);
        put_list(alloc, &mut tree, 1, self.chunks.as_slice())?;
        put(alloc, &mut tree, 2, &self.bytes)?;
        put(alloc, &mut tree, 3, &self.rows)?;
        Ok(Node::Struct(tree))
    }
}

/// The root of a schema of so many leaves at the top.
fn root(alloc: Global, count: i32) -> Result<Node, AllocError>
    ensures { IfOk result (λ node. node ≡ inner ((pos 4, Some (0, n.Binary (codes "schema")))
        ∷ (pos 5, Some (32, n.Whole count)) ∷ [])) }
{
    let mut tree = Items::new(alloc);
    put_node(&mut tree, 4, 0, binary(alloc, ROOT)?)?;
    put(alloc, &mut tree, 5, &count)?;
    Ok(Node::Struct(tree))
}

/// The schema's elements: the root, and the leaves.
fn put_schema(alloc: Global, tree: &mut Tree, leaves: &[LeafSchema]) -> Result<(), AllocError>
    requires { length leaves.now < 2 ^ 31 }
    ensures tree { OnOk result (tree.new ≡ tree.old ++ entry (pos 2) (Some (nodes
        (inner (root_table (length leaves.now)) ∷ map (λ leaf. inner (leaf_table leaf)) leaves.now)))) }
    ensures range { OnOk result (AllByRecursion LeafFits leaves.now) }
{
    let mut nodes = Items::new(alloc);
    nodes.push(root(alloc, leaves.len() as i32)?)?;
    append_nodes(alloc, &mut nodes, leaves)?;
    put_node(tree, 2, 0, Node::List(nodes))
}

/// The fields of a footer.
#[tactic(auto, unfolding(crate::specs::Written::footer_fields))]
pub(crate) fn footer_tree(alloc: Global, footer: &Footer) -> Result<Tree, AllocError>
    requires { length footer.now.leaves < 2 ^ 31 }
    ensures fields { IfOk result (λ tree. tree ≡ footer_fields footer.now) }
    ensures range { OnOk result (FooterFits footer.now) }
{
    let mut tree = Items::new(alloc);
    put_node(&mut tree, 1, 32, Node::Whole(1))?;
    put_schema(alloc, &mut tree, footer.leaves.as_slice())?;
    put(alloc, &mut tree, 3, &footer.rows)?;
    put_list(alloc, &mut tree, 4, footer.groups.as_slice())?;
    put_node(&mut tree, 6, 0, binary(alloc, WRITER)?)?;
    Ok(tree)
}
