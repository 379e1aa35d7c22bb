// Writing a struct.
ghost use Rattle.std.specs.Prelude.{◌≡◌, ℕ, List, [], ◌∷◌, ◌++◌, ◌-ℤ◌, length, map, OnOk, OnErr};
ghost use Rattle.thrift_compact.specs.Grammar.{zigzag, IsStruct};
ghost use Rattle.thrift_compact.specs.Reading.{last_id, read};
ghost use Rattle.thrift_compact.specs.Steps.{KeepsFront};
ghost use Rattle.thrift_compact.specs.Writable.{IsWritable};
ghost use Rattle.thrift_compact.specs.Written as spec;

use crate::kind::Kind;
use crate::tree::{self, Blob, Field, Node, Tree};
use std::alloc::AllocError;

#[tactic(auto, using(crate::proofs::Appending::keeps_same, crate::proofs::Appending::keeps_append))]
fn push(byte: u8, out: &mut Vec<u8>) -> Result<(), AllocError>
    ensures ok { OnOk result (out.new.items ≡ out.old.items ++ byte ∷ []) }
    ensures front { KeepsFront out.old.items out.new.items }
{
    out.push(byte)?;
    Ok(())
}

#[tactic(auto, using(crate::proofs::Appending::keeps_same, crate::proofs::Appending::keeps_append))]
fn extend(bytes: &[u8], out: &mut Vec<u8>) -> Result<(), AllocError>
    ensures ok { OnOk result (out.new.items ≡ out.old.items ++ bytes.now) }
    ensures front { KeepsFront out.old.items out.new.items }
{
    out.extend_from_slice(bytes)?;
    Ok(())
}

/// Appends a varint of as few bytes as the number needs.
fn write_varint(mut number: u64, out: &mut Vec<u8>) -> Result<(), AllocError>
    ensures ok { OnOk result (out.new.items ≡ out.old.items ++ spec.varint number) }
    ensures front { KeepsFront out.old.items out.new.items }
{
    'bytes: while number >= 128 {
        push((number % 128 + 128) as u8, out)?;
        number /= 128;
    }
    push(number as u8, out)
}

/// The zigzag code of a number.
fn zigzag(whole: i64) -> u64
    ensures { result ≡ zigzag whole }
{
    if whole >= 0 {
        2 * (whole as u64)
    } else {
        2 * ((-1 - whole) as u64) + 1
    }
}

fn whole_kind(width: u8) -> Kind
    ensures { result ≡ spec.whole_kind width }
{
    match width {
        8 => Kind::I8,
        16 => Kind::I16,
        32 => Kind::I32,
        _ => Kind::I64,
    }
}

fn write_whole(whole: i64, width: u8, out: &mut Vec<u8>) -> Result<(), AllocError>
    ensures ok { OnOk result (out.new.items ≡ out.old.items ++ spec.whole width whole) }
    ensures front { KeepsFront out.old.items out.new.items }
{
    if width == 8 {
        return push((whole.cast_unsigned() % 256) as u8, out);
    }
    write_varint(zigzag(whole), out)
}

/// The type of a value of this width as an element.
fn element_kind(node: &Node, width: u8) -> Kind
    ensures { result ≡ (spec.form_of node.now width).kind }
{
    match node {
        Node::Bool(_) => Kind::False,
        Node::Whole(_) => whole_kind(width),
        Node::Double(_) => Kind::Double,
        Node::Binary(_) => Kind::Binary,
        Node::List(_) => Kind::List,
        Node::Set(_) => Kind::Set,
        Node::Map(_) => Kind::Map,
        Node::Struct(_) => Kind::Struct,
    }
}

/// The type by which a field tells a truth value, which then has no bytes.
fn told_kind(node: &Node, width: u8) -> Option<Kind>
    ensures { result ≡ (spec.form_of node.now width).told }
{
    match node {
        Node::Bool(true) => Some(Kind::True),
        Node::Bool(false) => Some(Kind::False),
        _ => None,
    }
}

/// The type of the elements of a list: that of the first, and struct for an empty list.
fn list_kind(nodes: &[Node], width: u8) -> Kind
    ensures { result ≡ spec.element_kind (spec.at_width width (map spec.form_of nodes.now)) }
{
    match nodes {
        [first, ..] => element_kind(first, width),
        [] => Kind::Struct,
    }
}

fn write_binary(blob: &Blob, out: &mut Vec<u8>) -> Result<(), AllocError>
    ensures ok { OnOk result (out.new.items ≡ out.old.items ++ (spec.varint (length blob.now) ++ blob.now)) }
    ensures front { KeepsFront out.old.items out.new.items }
{
    write_varint(blob.len() as u64, out)?;
    extend(blob.as_slice(), out)
}

fn write_list_header(size: usize, kind: Kind, out: &mut Vec<u8>) -> Result<(), AllocError>
    ensures ok { OnOk result (out.new.items ≡ out.old.items ++ spec.list_header size kind) }
    ensures front { KeepsFront out.old.items out.new.items }
{
    if size < 15 {
        return push(16 * size as u8 + kind.code(), out);
    }
    push(240 + kind.code(), out)?;
    write_varint(size as u64, out)
}

/// The difference of two ids, where the header of a field has room for it.
fn short_difference(last: i16, id: i16) -> Option<u8>
    ensures { result ≡ spec.short_difference (id -ℤ last) }
{
    let difference = i32::from(id) - i32::from(last);
    if difference > 0 && difference < 16 {
        Some(difference as u8)
    } else {
        None
    }
}

fn write_field_header(last: i16, id: i16, kind: Kind, out: &mut Vec<u8>) -> Result<(), AllocError>
    ensures ok { OnOk result (out.new.items ≡ out.old.items ++ spec.field_header last id kind) }
    ensures front { KeepsFront out.old.items out.new.items }
{
    match short_difference(last, id) {
        Some(difference) => push(16 * difference + kind.code(), out),
        None => {
            push(kind.code(), out)?;
            write_varint(zigzag(i64::from(id)), out)
        }
    }
}

/// The elements of a list or a set, behind its header.
#[cycle(write)]
fn write_list(nodes: &[Node], width: u8, out: &mut Vec<u8>) -> Result<(), AllocError>
    ensures ok { OnOk result (out.new.items
        ≡ out.old.items ++ spec.list (spec.at_width width (map spec.form_of nodes.now))) }
    ensures front { KeepsFront out.old.items out.new.items }
{
    write_list_header(nodes.len(), list_kind(nodes, width), out)?;
    'nodes: for node in nodes {
        write_value(node, width, out)?;
    }
    Ok(())
}

/// A field behind others.
#[cycle(write)]
fn write_field(field: &Field, before: &[Field], out: &mut Vec<u8>) -> Result<(), AllocError>
    ensures ok { OnOk result (out.new.items
        ≡ out.old.items ++ spec.field (last_id before.now) (spec.field_form_of field.now)) }
    ensures front { KeepsFront out.old.items out.new.items }
{
    match told_kind(&field.node, field.width) {
        Some(kind) => write_field_header(tree::last_id(before), field.id, kind, out),
        None => {
            let kind = element_kind(&field.node, field.width);
            write_field_header(tree::last_id(before), field.id, kind, out)?;
            write_value(&field.node, field.width, out)
        }
    }
}

/// The fields of a struct, and the byte 0 that ends it.
#[cycle(write)]
fn write_fields(fields: &[Field], out: &mut Vec<u8>) -> Result<(), AllocError>
    ensures ok { OnOk result (out.new.items ≡ out.old.items ++ spec.struct fields.now) }
    ensures front { KeepsFront out.old.items out.new.items }
{
    'fields: for (index, field) in fields.iter().enumerate() {
        write_field(field, &fields[..index], out)?;
    }
    push(0, out)
}

/// A value of this width as an element.
#[cycle(write)]
fn write_value(node: &Node, width: u8, out: &mut Vec<u8>) -> Result<(), AllocError>
    ensures ok { OnOk result (out.new.items
        ≡ out.old.items ++ (spec.form_of node.now width).bytes) }
    ensures front { KeepsFront out.old.items out.new.items }
{
    match node {
        Node::Bool(true) => push(1, out),
        Node::Bool(false) => push(2, out),
        Node::Whole(whole) => write_whole(*whole, width, out),
        Node::Double(bytes) => extend(bytes, out),
        Node::Binary(blob) => write_binary(blob, out),
        Node::List(nodes) => write_list(nodes.as_slice(), width, out),
        Node::Set(nodes) => write_list(nodes.as_slice(), width, out),
        Node::Map(_) => Ok(()),
        Node::Struct(fields) => write_fields(fields.as_slice(), out),
    }
}

/// Appends the bytes of a struct, in the shortest spelling that the protocol allows. An empty list
/// has elements of the type struct. After a fault `out` is as before.
///
/// The tree must be writable: it holds no map, and no list or set within a list or a set; the
/// elements of each list are of one type; the whole numbers fit their width; and it nests at most
/// 64 deep, the tree itself being the first.
pub fn write_struct(tree: &Tree, out: &mut Vec<u8>) -> Result<(), AllocError>
    requires { IsWritable tree.now }
    // The bytes, as a function of the tree.
    ensures written { OnOk result (out.new.items ≡ out.old.items ++ spec.struct tree.now) }
    // They are spelled as the protocol says.
    ensures spelled { OnOk result (IsStruct (spec.struct tree.now) tree.now) }
    // They are read as this tree, whatever follows.
    ensures again { OnOk result ((more : List ℕ) → read (spec.struct tree.now ++ more)
        ≡ Ok (tree.now, length (spec.struct tree.now))) }
    ensures memory { OnErr result (out.new.items ≡ out.old.items) }
{
    let length = out.len();
    match write_fields(tree.as_slice(), out) {
        Ok(()) => Ok(()),
        Err(none) => {
            out.truncate(length);
            Err(none)
        }
    }
}
