// Reading a struct.
ghost use Rattle.std.specs.Prelude.{◌≡◌, ℕ, pos, List, ◌++◌, length, IfOk};
ghost use Rattle.thrift_compact.specs.Grammar.{IsStruct};
ghost use Rattle.thrift_compact.specs.Reading as spec;
ghost use Rattle.thrift_compact.specs.Places.{IsFront, IsPlace};
ghost use Rattle.thrift_compact.specs.Gives.{Gives};
ghost use Rattle.thrift_compact.specs.Steps.{StepsTo, StepsOnlyTo};
ghost use Rattle.thrift_compact.specs.declared.tree.Field.{Field as AField};

use crate::cursor::Cursor;
use crate::fault::{Fault, ThriftFault};
use crate::header::{EntryKinds, FieldHeader, ListHeader, may_stand};
use crate::kind::Kind;
use crate::number::{id, varint, whole};
use crate::tree::{Blob, Field, MAX_INNER, Node, NodePairs, Nodes, Tree, last_id};
use crate::value::{Value, list_width};
use sqlite_items::Items;
use std::alloc::Global;

fn double(cursor: &mut Cursor<'_>) -> Result<[u8; 8], Fault>
    ensures { StepsOnlyTo (spec.exactly 8 cursor.old) result cursor.new }
{
    let bytes = cursor.bytes(8)?;
    match <[u8; 8]>::try_from(bytes) {
        Ok(double) => Ok(double),
        Err(_) => Err(Fault::Refused),
    }
}

fn binary(alloc: Global, cursor: &mut Cursor<'_>) -> Result<Blob, Fault>
    ensures { StepsTo (spec.binary cursor.old) result cursor.new }
{
    let size = varint(cursor, 64)?;
    let bytes = cursor.bytes(size)?;
    Ok(Items::from_slice(alloc, bytes)?)
}

/// An element of a type whose values hold no others.
fn scalar(alloc: Global, cursor: &mut Cursor<'_>, kind: Kind) -> Result<Value, Fault>
    ensures { StepsTo (spec.scalar kind cursor.old) result cursor.new }
{
    match kind {
        Kind::True | Kind::False => Ok(Value::plain(Node::Bool(cursor.truth()?))),
        Kind::I8 => Ok(Value::sized(8, cursor.signed_byte()?)),
        Kind::I16 => Ok(Value::sized(16, whole(cursor, 16)?)),
        Kind::I32 => Ok(Value::sized(32, whole(cursor, 32)?)),
        Kind::I64 => Ok(Value::sized(64, whole(cursor, 64)?)),
        Kind::Double => Ok(Value::plain(Node::Double(double(cursor)?))),
        Kind::Binary => Ok(Value::plain(Node::Binary(binary(alloc, cursor)?))),
        Kind::List | Kind::Set | Kind::Map | Kind::Struct => Err(Fault::Refused),
    }
}

fn list_header(cursor: &mut Cursor<'_>, left: usize) -> Result<ListHeader, Fault>
    ensures { StepsOnlyTo (spec.list_header left cursor.old) result cursor.new }
{
    let start = cursor.list_start(left)?;
    let kind = start.kind;
    match start.size {
        Some(size) => Ok(ListHeader { size, kind }),
        None => {
            let width = if may_stand(kind, left) { 64 } else { 0 };
            let size = varint(cursor, width)?;
            Ok(ListHeader { size, kind })
        }
    }
}

fn field_header(cursor: &mut Cursor<'_>, left: usize, last: i16) -> Result<FieldHeader, Fault>
    ensures { StepsOnlyTo (spec.field_header left last cursor.old) result cursor.new }
{
    let start = cursor.field_start(last, left)?;
    let kind = start.kind;
    match start.id {
        Some(id) => Ok(FieldHeader { id, kind }),
        None => {
            let id = id(cursor)?;
            Ok(FieldHeader { id, kind })
        }
    }
}

#[cycle(value)]
fn element(alloc: Global, cursor: &mut Cursor<'_>, left: usize, kind: Kind) -> Result<Node, Fault>
    ensures { StepsTo (spec.node (spec.value left kind) cursor.old) result cursor.new }
{
    let value = value(alloc, cursor, left, kind)?;
    Ok(value.node)
}

/// So many elements.
#[cycle(value)]
fn elements(
    alloc: Global,
    cursor: &mut Cursor<'_>,
    left: usize,
    header: ListHeader,
) -> Result<Nodes, Fault>
    ensures { StepsTo (spec.times (spec.node (spec.value left header.kind)) header.size cursor.old)
        result cursor.new }
{
    let mut nodes = Items::new(alloc);
    for _ in 0..header.size {
        nodes.push(element(alloc, cursor, left, header.kind)?)?;
    }
    Ok(nodes)
}

/// A list or a set, as its elements and their width.
#[cycle(value)]
fn list(alloc: Global, cursor: &mut Cursor<'_>, left: usize) -> Result<(Nodes, u8), Fault>
    ensures { StepsTo (spec.list left (spec.value left) cursor.old) result cursor.new }
{
    let header = list_header(cursor, left)?;
    let nodes = elements(alloc, cursor, left, header)?;
    let width = list_width(header.kind, &nodes);
    Ok((nodes, width))
}

#[cycle(value)]
fn entry(
    alloc: Global,
    cursor: &mut Cursor<'_>,
    left: usize,
    kinds: EntryKinds,
) -> Result<(Node, Node), Fault>
    ensures { StepsTo (spec.entry (spec.node (spec.value left kinds.key))
        (spec.node (spec.value left kinds.value)) cursor.old) result cursor.new }
{
    let key = element(alloc, cursor, left, kinds.key)?;
    let value = element(alloc, cursor, left, kinds.value)?;
    Ok((key, value))
}

/// The entries of a map behind its size.
#[cycle(value)]
fn entries(
    alloc: Global,
    cursor: &mut Cursor<'_>,
    left: usize,
    size: u64,
) -> Result<NodePairs, Fault>
    ensures { StepsTo (spec.entries left (spec.value left) size cursor.old) result cursor.new }
{
    let mut pairs = Items::new(alloc);
    if size == 0 {
        return Ok(pairs);
    }
    let kinds = cursor.entry_kinds(left)?;
    for _ in 0..size {
        pairs.push(entry(alloc, cursor, left, kinds)?)?;
    }
    Ok(pairs)
}

#[cycle(value)]
fn map(alloc: Global, cursor: &mut Cursor<'_>, left: usize) -> Result<NodePairs, Fault>
    ensures { StepsTo (spec.map left (spec.value left) cursor.old) result cursor.new }
{
    let size = varint(cursor, 64)?;
    entries(alloc, cursor, left, size)
}

/// The value of a field. A truth value is told by its type alone.
#[cycle(value)]
fn field_value(
    alloc: Global,
    cursor: &mut Cursor<'_>,
    left: usize,
    kind: Kind,
) -> Result<Value, Fault>
    ensures { StepsTo (spec.field_value (spec.value left) kind cursor.old) result cursor.new }
{
    match kind {
        Kind::True => Ok(Value::plain(Node::Bool(true))),
        Kind::False => Ok(Value::plain(Node::Bool(false))),
        _ => value(alloc, cursor, left, kind),
    }
}

/// The field behind these.
#[cycle(value)]
fn field(alloc: Global, cursor: &mut Cursor<'_>, left: usize, before: &Tree) -> Result<Field, Fault>
    ensures { StepsTo (spec.field left (spec.value left) (spec.last_id before.now) cursor.old)
        result cursor.new }
{
    let header = field_header(cursor, left, last_id(before.as_slice()))?;
    let value = field_value(alloc, cursor, left, header.kind)?;
    Ok(Field {
        id: header.id,
        width: value.width,
        node: value.node,
    })
}

/// The fields of a struct, up to the byte 0 that ends it.
#[cycle(value)]
fn fields(alloc: Global, cursor: &mut Cursor<'_>, left: usize) -> Result<Tree, Fault>
    ensures { StepsTo (spec.fields left (spec.value left) (pos 0) cursor.old) result cursor.new }
{
    let mut fields = Items::new(alloc);
    'fields: while !cursor.is_end() {
        fields.push(field(alloc, cursor, left, &fields)?)?;
    }
    cursor.skip();
    Ok(fields)
}

/// A list, a set, a map or a struct, in which so many more may be opened.
#[cycle(value)]
fn container(
    alloc: Global,
    cursor: &mut Cursor<'_>,
    left: usize,
    kind: Kind,
) -> Result<Value, Fault>
    ensures { StepsTo (spec.level left (spec.value left) kind cursor.old) result cursor.new }
{
    match kind {
        Kind::List => {
            let (nodes, width) = list(alloc, cursor, left)?;
            Ok(Value {
                width,
                node: Node::List(nodes),
            })
        }
        Kind::Set => {
            let (nodes, width) = list(alloc, cursor, left)?;
            Ok(Value {
                width,
                node: Node::Set(nodes),
            })
        }
        Kind::Map => Ok(Value::plain(Node::Map(map(alloc, cursor, left)?))),
        Kind::Struct => Ok(Value::plain(Node::Struct(fields(alloc, cursor, left)?))),
        _ => scalar(alloc, cursor, kind),
    }
}

/// An element of the type, where so many structs, lists, sets and maps may still be opened.
#[cycle(value)]
fn value(alloc: Global, cursor: &mut Cursor<'_>, left: usize, kind: Kind) -> Result<Value, Fault>
    ensures { StepsTo (spec.value left kind cursor.old) result cursor.new }
{
    if left == 0 {
        return scalar(alloc, cursor, kind);
    }
    container(alloc, cursor, left - 1, kind)
}

/// The struct at the front, or the place of the fault.
fn read_front(alloc: Global, bytes: &[u8]) -> Result<(Tree, usize), ThriftFault>
    ensures { Gives (spec.read bytes.now) result }
{
    let mut cursor = Cursor::new(bytes);
    match fields(alloc, &mut cursor, MAX_INNER) {
        Ok(tree) => Ok((tree, bytes.len() - cursor.len())),
        Err(Fault::Refused) => Err(ThriftFault::BadThrift {
            at: bytes.len() - cursor.len(),
        }),
        Err(Fault::Memory) => Err(ThriftFault::Memory),
    }
}

/// The struct at the front of the bytes, and how many of them it takes. Bytes may follow it.
///
/// The bytes are those of the Thrift compact protocol ("Struct encoding"). Structs, lists, sets and
/// maps nest at most 64 deep, the outermost struct being the first. Where no struct stands at the
/// front, the fault tells the place of the first byte with which none goes on, or the length, where
/// the bytes end before.
pub fn read_struct(alloc: Global, bytes: &[u8]) -> Result<(Tree, usize), ThriftFault>
    // The struct, or the first fault, as a function of the bytes.
    ensures read { Gives (spec.read bytes.now) result }
    // What is read is spelled so.
    ensures found { IfOk result (λ found. IsFront bytes.now found.0 found.1) }
    // What is spelled so is read, whatever follows it.
    ensures only { (front : List ℕ) (tree : List AField) (more : List ℕ) → IsStruct front tree
        → bytes.now ≡ front ++ more → Gives (Ok (tree, length front)) result }
    // No struct goes on with the byte at the place, and the bytes before it go on to one.
    ensures place { (at : ℕ) → result ≡ Err (ThriftFault.BadThrift at) → IsPlace bytes.now at }
{
    read_front(alloc, bytes)
}
