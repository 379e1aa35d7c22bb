// The tree of a struct that is to be written.
ghost use Rattle.std.specs.Prelude.{◌≡◌, ◌++◌, ℕ, ℤ, map, option_map, FitsSigned, IfOk, OnOk, IfSome, Some};
ghost use Rattle.std.specs.Int.{w32, w64};
ghost use Rattle.thrift_compact.specs.declared.tree.Node.{Node as ANode};
ghost use Rattle.thrift_compact.specs.declared.tree.Node.TheVariants as n;
ghost use Rattle.std.specs.List.{AllByRecursion};
ghost use Rattle.parquet_meta.specs.Written.{entry, nodes as nodes_content};

use crate::shared::SharedBytes;
use dm_types::Bytes;
use sqlite_items::Items;
use std::alloc::{AllocError, Global};
use thrift_compact::{Field, Node, Nodes, Tree};

/// What a field or an element is written as.
pub(crate) trait Written {
    ghost width: { ℕ };

    ghost written: { Self → ANode };

    ghost fits: { Self → Type 0 };

    fn width() -> u8
        ensures { result ≡ width };

    fn write(&self, alloc: Global) -> Result<Node, AllocError>
        ensures node { IfOk result (λ node. node ≡ written self.now) }
        ensures range { OnOk result (fits self.now) };
}

/// A field of this width.
pub(crate) fn put_node(tree: &mut Tree, id: i16, width: u8, node: Node) -> Result<(), AllocError>
    ensures { OnOk result (tree.new ≡ tree.old ++ entry id (Some (width, node))) }
{
    tree.push(Field { id, width, node })
}

/// A field that is there.
pub(crate) fn put<T: Written>(
    alloc: Global,
    tree: &mut Tree,
    id: i16,
    value: &T,
) -> Result<(), AllocError>
    ensures tree { OnOk result (tree.new ≡ tree.old ++ entry id (Some (T.width, T.written value.now))) }
    ensures range { OnOk result (T.fits value.now) }
{
    let node = value.write(alloc)?;
    put_node(tree, id, T::width(), node)
}

/// A field that is left out where it isn't there.
pub(crate) fn put_maybe<T: Written>(
    alloc: Global,
    tree: &mut Tree,
    id: i16,
    value: &Option<T>,
) -> Result<(), AllocError>
    ensures tree { OnOk result (tree.new
        ≡ tree.old ++ entry id (option_map (λ v. (T.width, T.written v)) value.now)) }
    ensures range { OnOk result (IfSome value.now T.fits) }
{
    match value {
        Some(found) => put(alloc, tree, id, found),
        None => Ok(()),
    }
}

/// Adds the nodes of values, without their width.
pub(crate) fn append_nodes<T: Written>(
    alloc: Global,
    nodes: &mut Nodes,
    values: &[T],
) -> Result<(), AllocError>
    ensures nodes { OnOk result (nodes.new ≡ nodes.old ++ map T.written values.now) }
    ensures range { OnOk result (AllByRecursion T.fits values.now) }
{
    for value in values {
        nodes.push(value.write(alloc)?)?;
    }
    Ok(())
}

/// A list of values of no width.
pub(crate) fn put_list<T: Written>(
    alloc: Global,
    tree: &mut Tree,
    id: i16,
    values: &[T],
) -> Result<(), AllocError>
    ensures tree { OnOk result (tree.new
        ≡ tree.old ++ entry id (Some (nodes_content (map T.written values.now)))) }
    ensures range { OnOk result (AllByRecursion T.fits values.now) }
{
    let mut nodes = Items::new(alloc);
    append_nodes(alloc, &mut nodes, values)?;
    put_node(tree, id, 0, Node::List(nodes))
}

impl Written for Bytes {
    ghost width = { 0 };

    ghost written = { n.Binary };

    ghost fits = { λ _. Unit {0} };

    fn width() -> u8 {
        0
    }

    fn write(&self, alloc: Global) -> Result<Node, AllocError> {
        Ok(Node::Binary(Items::from_slice(alloc, self.as_slice())?))
    }
}

impl Written for SharedBytes {
    ghost width = { 0 };

    ghost written = { n.Binary };

    ghost fits = { λ _. Unit {0} };

    fn width() -> u8 {
        0
    }

    fn write(&self, alloc: Global) -> Result<Node, AllocError> {
        Ok(Node::Binary(Items::from_slice(alloc, self.as_slice())?))
    }
}

impl Written for i32 {
    ghost width = { 32 };

    ghost written = { n.Whole };

    ghost fits = { FitsSigned w32 };

    fn width() -> u8 {
        32
    }

    fn write(&self, _alloc: Global) -> Result<Node, AllocError> {
        Ok(Node::Whole(i64::from(*self)))
    }
}

impl Written for i64 {
    ghost width = { 64 };

    ghost written = { n.Whole };

    ghost fits = { FitsSigned w64 };

    fn width() -> u8 {
        64
    }

    fn write(&self, _alloc: Global) -> Result<Node, AllocError> {
        Ok(Node::Whole(*self))
    }
}
