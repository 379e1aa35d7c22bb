// The fields of a struct, by their ids and forms.
ghost use Rattle.std.specs.Prelude.{◌≡◌, ◌==◌, ◌&&◌, if◌then◌else◌, None, ℕ, ℤ, Bool, Option, Some, is_some};
ghost use Rattle.std.specs.Prelude.{option_map, map, reverse, find};
ghost use Rattle.thrift_compact.specs.declared.tree.Node.{Node as ANode, out-Node};
ghost use Rattle.parquet_meta.specs.Gives.{Gives};
ghost use Rattle.parquet_meta.specs.Forms.{last_field, last_among as id_among, needed as needed_of};
ghost use Rattle.parquet_meta.specs.Forms.{optional as optional_of, checked as checked_of, i32 as i32_of};
ghost use Rattle.parquet_meta.specs.Forms.{i64 as i64_of, binary as binary_of, each, list as list_of};
ghost use Rattle.parquet_meta.specs.Forms.{struct as struct_of, struct_in as fields_in, is_i32};
ghost use Rattle.parquet_meta.specs.Forms.{is_struct as is_struct_of, has_shape_by};
ghost use Rattle.std.specs.Option.{option_copied};
ghost use Rattle.std.specs.List.{list_all};

use crate::fault::MetaFault;
use crate::shared::SharedBytes;
use dm_types::{Bytes, Items};
use std::alloc::Global;
use thrift_compact::{Field, Node, Tree};

/// What a value of a field or a list is read as.
pub(crate) trait Form: Drop {
    ghost form: { ℕ → ANode → Option Self };

    fn read(alloc: Global, width: u8, node: &Node) -> Result<Self, MetaFault>
        ensures { Gives (form width node.now) result };
}

/// What a field has to be that isn't kept.
#[derive(Clone, Copy)]
pub(crate) enum Shape {
    /// A whole number of 32 bits.
    I32,
    /// A whole number of 64 bits.
    I64,
    /// A truth value.
    Bool,
    /// Bytes.
    Binary,
    /// Any struct.
    Struct,
    /// A list of structs.
    Structs,
}

/// The last field with the id.
fn last(tree: &Tree, id: i16) -> Option<&Field>
    ensures { option_copied result ≡ last_field id tree.now }
{
    tree.as_slice().iter().rev().find(|field| field.id == id)
}

/// The id of the last field that has one of these ids.
pub(crate) fn last_among(tree: &Tree, ids: &[i16]) -> Option<i16>
    ensures { result ≡ id_among ids.now tree.now }
{
    tree.as_slice()
        .iter()
        .rev()
        .map(|field| field.id)
        .find(|id| ids.contains(id))
}

/// A field that must be there.
pub(crate) fn needed<T: Form>(alloc: Global, tree: &Tree, id: i16) -> Result<T, MetaFault>
    ensures { Gives (needed_of T.form id tree.now) result }
{
    match last(tree, id) {
        Some(field) => T::read(alloc, field.width, &field.node),
        None => Err(MetaFault::BadFooter),
    }
}

/// A field that may be absent.
pub(crate) fn optional<T: Form>(alloc: Global, tree: &Tree, id: i16) -> Result<Option<T>, MetaFault>
    ensures { Gives (optional_of T.form id tree.now) result }
{
    match last(tree, id) {
        Some(field) => Ok(Some(T::read(alloc, field.width, &field.node)?)),
        None => Ok(None),
    }
}

/// What the elements of a list of this width say.
fn elements<T: Form>(alloc: Global, width: u8, nodes: &[Node]) -> Result<Items<T>, MetaFault>
    ensures { Gives (each (T.form width) nodes.now) result }
{
    let mut items = Items::new(alloc);
    for node in nodes {
        items.push(T::read(alloc, width, node)?)?;
    }
    Ok(items)
}

/// A list, each of whose elements has the form.
fn list<T: Form>(alloc: Global, width: u8, node: &Node) -> Result<Items<T>, MetaFault>
    ensures { Gives (list_of T.form width node.now) result }
{
    match node {
        Node::List(nodes) => elements(alloc, width, nodes.as_slice()),
        _ => Err(MetaFault::BadFooter),
    }
}

/// A list that must be there, each of whose elements has the form.
pub(crate) fn needed_list<T: Form>(
    alloc: Global,
    tree: &Tree,
    id: i16,
) -> Result<Items<T>, MetaFault>
    ensures { Gives (needed_of (list_of T.form) id tree.now) result }
{
    match last(tree, id) {
        Some(field) => list(alloc, field.width, &field.node),
        None => Err(MetaFault::BadFooter),
    }
}

fn is_struct(node: &Node) -> bool
    ensures { result ≡ is_struct_of node.now }
{
    matches!(node, Node::Struct(_))
}

fn are_structs(nodes: &[Node]) -> bool
    ensures { result ≡ list_all is_struct_of nodes.now }
{
    nodes.iter().all(|node| is_struct(node))
}

fn has_shape(shape: Shape, width: u8, node: &Node) -> bool
    ensures { result ≡ has_shape_by shape width (out-Node node.now) }
{
    match (shape, node) {
        (Shape::I32, Node::Whole(_)) => width == 32,
        (Shape::I64, Node::Whole(_)) => width == 64,
        (Shape::Bool, Node::Bool(_)) => true,
        (Shape::Binary, Node::Binary(_)) => true,
        (Shape::Struct, Node::Struct(_)) => true,
        (Shape::Structs, Node::List(nodes)) => are_structs(nodes.as_slice()),
        _ => false,
    }
}

/// A field that may be absent and isn't kept, but has this shape where it is there.
pub(crate) fn checked(tree: &Tree, id: i16, shape: Shape) -> Result<(), MetaFault>
    ensures { Gives (checked_of shape id tree.now) result }
{
    match last(tree, id) {
        Some(field) if !has_shape(shape, field.width, &field.node) => Err(MetaFault::BadFooter),
        _ => Ok(()),
    }
}

/// The fields of a struct.
pub(crate) fn struct_in(node: &Node) -> Option<&Tree>
    ensures { option_copied result ≡ fields_in (out-Node node.now) }
{
    match node {
        Node::Struct(tree) => Some(tree),
        _ => None,
    }
}

fn whole_32(width: u8, whole: i64) -> Result<i32, MetaFault>
    ensures { Gives (if width == 32 && is_i32 whole then Some whole else None) result }
{
    if width == 32 && -2147483648 <= whole && whole <= 2147483647 {
        Ok(whole as i32)
    } else {
        Err(MetaFault::BadFooter)
    }
}

impl Form for i32 {
    ghost form = { i32_of };

    fn read(_alloc: Global, width: u8, node: &Node) -> Result<i32, MetaFault> {
        match node {
            Node::Whole(whole) => whole_32(width, *whole),
            _ => Err(MetaFault::BadFooter),
        }
    }
}

impl Form for i64 {
    ghost form = { i64_of };

    fn read(_alloc: Global, width: u8, node: &Node) -> Result<i64, MetaFault> {
        match node {
            Node::Whole(whole) if width == 64 => Ok(*whole),
            _ => Err(MetaFault::BadFooter),
        }
    }
}

impl Form for Bytes {
    ghost form = { binary_of };

    fn read(alloc: Global, _width: u8, node: &Node) -> Result<Bytes, MetaFault> {
        match node {
            Node::Binary(bytes) => Ok(Items::from_slice(alloc, bytes.as_slice())?),
            _ => Err(MetaFault::BadFooter),
        }
    }
}

impl Form for SharedBytes {
    ghost form = { binary_of };

    fn read(alloc: Global, _width: u8, node: &Node) -> Result<SharedBytes, MetaFault> {
        match node {
            Node::Binary(bytes) => {
                let bytes = Items::from_slice(alloc, bytes.as_slice())?;
                Ok(SharedBytes::new(alloc, bytes)?)
            }
            _ => Err(MetaFault::BadFooter),
        }
    }
}

/// A struct that must be there.
pub(crate) fn needed_struct(tree: &Tree, id: i16) -> Option<&Tree>
    ensures { option_copied result ≡ needed_of (struct_of Some) id tree.now }
{
    match last(tree, id) {
        Some(field) => struct_in(&field.node),
        None => None,
    }
}

/// Whether there is a field with the id.
pub(crate) fn is_there(tree: &Tree, id: i16) -> bool
    ensures { result ≡ is_some (last_field id tree.now) }
{
    last(tree, id).is_some()
}
