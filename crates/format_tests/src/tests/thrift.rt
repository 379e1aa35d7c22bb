// Structs spelled by hand after the protocol's document, and bytes that are no struct.
ghost use Rattle.std.specs.Prelude.{ℕ, IfOk};
ghost use Rattle.std.specs.List.{AllByRecursion};
ghost use Rattle.thrift_compact.specs.Writable.{IsField, IsWritable, IsWritableValue};

use sqlite_items::Items;
use std::alloc::{AllocError, Global};
use std::test::Fail;
use thrift_compact::{
    Field, Node, ThriftFault, Tree, laws, read_struct, read_varint, write_struct,
};

/// Fields without the byte 0 that ends them, and their tree.
const GOOD: &[(&[u8], &str)] = &[
    (b"", "Items { items: [] }"),
    (
        b"\x11\x12",
        "Items { items: [Field { id: 1, width: 0, node: Bool(true) }, Field { id: 2, width: 0, node: Bool(false) }] }",
    ),
    (
        b"\x13\xfd",
        "Items { items: [Field { id: 1, width: 8, node: Whole(-3) }] }",
    ),
    (
        b"\x14\x05",
        "Items { items: [Field { id: 1, width: 16, node: Whole(-3) }] }",
    ),
    (
        b"\x15\xff\xff\xff\xff\x0f",
        "Items { items: [Field { id: 1, width: 32, node: Whole(-2147483648) }] }",
    ),
    (
        b"\x16\x16",
        "Items { items: [Field { id: 1, width: 64, node: Whole(11) }] }",
    ),
    (
        b"\x16\xff\xff\xff\xff\xff\xff\xff\xff\xff\x01",
        "Items { items: [Field { id: 1, width: 64, node: Whole(-9223372036854775808) }] }",
    ),
    (
        b"\x15\x82\x80\x80\x80\x80\x80\x80\x80\x80\x00",
        "Items { items: [Field { id: 1, width: 32, node: Whole(1) }] }",
    ),
    (
        b"\x17\x00\x00\x00\x00\x00\x00\xf8\x7f",
        "Items { items: [Field { id: 1, width: 0, node: Double([0, 0, 0, 0, 0, 0, 248, 127]) }] }",
    ),
    (
        b"\x18\x02ab",
        "Items { items: [Field { id: 1, width: 0, node: Binary(Items { items: [97, 98] }) }] }",
    ),
    (
        b"\x18\x80\x00",
        "Items { items: [Field { id: 1, width: 0, node: Binary(Items { items: [] }) }] }",
    ),
    (
        b"\x19\x25\x02\x04",
        "Items { items: [Field { id: 1, width: 32, node: List(Items { items: [Whole(1), Whole(2)] }) }] }",
    ),
    (
        b"\x19\xf5\x01\x02",
        "Items { items: [Field { id: 1, width: 32, node: List(Items { items: [Whole(1)] }) }] }",
    ),
    (
        b"\x19\x05\x19\xf3\x00",
        "Items { items: [Field { id: 1, width: 0, node: List(Items { items: [] }) }, Field { id: 2, width: 0, node: List(Items { items: [] }) }] }",
    ),
    (
        b"\x19\x31\x01\x00\x02",
        "Items { items: [Field { id: 1, width: 0, node: List(Items { items: [Bool(true), Bool(false), Bool(false)] }) }] }",
    ),
    (
        b"\x19\x22\x02\x01",
        "Items { items: [Field { id: 1, width: 0, node: List(Items { items: [Bool(false), Bool(true)] }) }] }",
    ),
    (
        b"\x19\x18\x01a",
        "Items { items: [Field { id: 1, width: 0, node: List(Items { items: [Binary(Items { items: [97] })] }) }] }",
    ),
    (
        b"\x19\x19\x13\xff",
        "Items { items: [Field { id: 1, width: 0, node: List(Items { items: [List(Items { items: [Whole(-1)] })] }) }] }",
    ),
    (
        b"\x1a\x13\x07",
        "Items { items: [Field { id: 1, width: 8, node: Set(Items { items: [Whole(7)] }) }] }",
    ),
    (
        b"\x1b\x00",
        "Items { items: [Field { id: 1, width: 0, node: Map(Items { items: [] }) }] }",
    ),
    (
        b"\x1b\x02\x51\x02\x01\x04\x02",
        "Items { items: [Field { id: 1, width: 0, node: Map(Items { items: [(Whole(1), Bool(true)), (Whole(2), Bool(false))] }) }] }",
    ),
    (
        b"\x1c\x15\x02\x00",
        "Items { items: [Field { id: 1, width: 0, node: Struct(Items { items: [Field { id: 1, width: 32, node: Whole(1) }] }) }] }",
    ),
    (
        b"\x19\x2c\x11\x00\x00",
        "Items { items: [Field { id: 1, width: 0, node: List(Items { items: [Struct(Items { items: [Field { id: 1, width: 0, node: Bool(true) }] }), Struct(Items { items: [] })] }) }] }",
    ),
    (
        b"\x01\xfe\xff\x03\x01\xff\xff\x03",
        "Items { items: [Field { id: 32767, width: 0, node: Bool(true) }, Field { id: -32768, width: 0, node: Bool(true) }] }",
    ),
    (
        b"\x25\x02\x05\x02\x04\x05\x01\x06\x15\x08",
        "Items { items: [Field { id: 2, width: 32, node: Whole(1) }, Field { id: 1, width: 32, node: Whole(2) }, Field { id: -1, width: 32, node: Whole(3) }, Field { id: 0, width: 32, node: Whole(4) }] }",
    ),
    (
        b"\x15\x00\x15\x16\x15\x16\x2c\x15\x04\x15\x00\x15\x06\x15\x06\x00",
        "Items { items: [Field { id: 1, width: 32, node: Whole(0) }, Field { id: 2, width: 32, node: Whole(11) }, Field { id: 3, width: 32, node: Whole(11) }, Field { id: 5, width: 0, node: Struct(Items { items: [Field { id: 1, width: 32, node: Whole(2) }, Field { id: 2, width: 32, node: Whole(0) }, Field { id: 3, width: 32, node: Whole(3) }, Field { id: 4, width: 32, node: Whole(3) }] }) }] }",
    ),
];

/// Bytes at whose front no struct stands, and the place of the fault.
const BAD: &[(&[u8], usize)] = &[
    (b"\x10", 0),
    (b"\x1d", 0),
    (b"\x0f", 0),
    (b"\x11\x1e", 1),
    (b"\x01\xfe\xff\x03\x11", 4),
    (b"\x01\x80\x80\x04", 3),
    (b"\x14\x80\x80\x04", 3),
    (b"\x14\x80\x80\x80\x01\x00", 4),
    (b"\x15\x80\x80\x80\x80\x10\x00", 5),
    (b"\x16\x80\x80\x80\x80\x80\x80\x80\x80\x80\x02", 10),
    (b"\x16\x80\x80\x80\x80\x80\x80\x80\x80\x80\x80\x00", 10),
    (b"\x17\x00\x00\x00\x00\x00\x00\x00", 8),
    (b"\x18\x05a", 3),
    (b"\x18\xff\xff\xff\xff\xff\xff\xff\xff\xff\x01a", 12),
    (b"\x19\x00", 1),
    (b"\x19\x0d\x00", 1),
    (b"\x19\x1f", 1),
    (b"\x19\x11\x03\x00", 2),
    (b"\x19\x83\x01\x02", 4),
    (b"\x19\x81\x01\x02\x05\x01", 4),
    (b"\x19\xf3\x80\x80\x80\x80\x80\x80\x80\x80\x40\x01\x02", 13),
    (b"\x1a\x0e\x00", 1),
    (b"\x1b\x01\x80\x00", 2),
    (b"\x1b\x01\x08\x00", 2),
];

/// What stands in 62 structs, and behind it a byte 0 for each, and the place of the fault. A list as
/// the 64th that is open may be empty, and hold no struct, however its size is spelled.
const DEEP: &[(&[u8], Option<usize>)] = &[
    (&[0x19, 0x0c], None),
    (&[0x19, 0xfc, 0x80, 0x00], None),
    (&[0x19, 0x11, 0x01], None),
    (&[0x19, 0x1c], Some(63)),
    (&[0x19, 0xfc, 0x80, 0x01], Some(65)),
    (&[0x1b, 0x01, 0x1c], Some(64)),
];

/// The place of the fault.
fn place(alloc: Global, bytes: &[u8]) -> Option<usize> {
    match read_struct(alloc, bytes) {
        Err(ThriftFault::BadThrift { at }) => Some(at),
        _ => None,
    }
}

/// The struct at the front as a text, and its length.
fn shown(alloc: Global, bytes: &[u8]) -> Result<(String, usize), Fail> {
    let (tree, size) = read_struct(alloc, bytes)?;
    Ok((format!(in alloc; "{tree:?}")?, size))
}

/// Whether the bytes are refused at their end wherever they are cut.
fn each_cut_is_refused(alloc: Global, bytes: &[u8]) -> bool {
    for cut in 0..bytes.len() {
        if place(alloc, &bytes[..cut]) != Some(cut) {
            return false;
        }
    }
    true
}

#[test]
fn structs_are_read_and_cut_ones_are_not(rt: HostRuntime) -> Result<(), Fail> {
    let alloc = rt.alloc();
    for (fields, tree) in GOOD {
        let mut bytes = Vec::from_slice(alloc, fields)?;
        bytes.push(0)?;
        let whole = bytes.len();
        assert!(rt; each_cut_is_refused(alloc, &bytes), "{fields:?}");
        bytes.push(0xff)?;
        let (text, size) = shown(alloc, &bytes)?;
        assert_eq!(rt; text.as_str(), *tree);
        assert_eq!(rt; size, whole);
    }
    Ok(())
}

#[test]
fn faults_have_their_places(rt: HostRuntime) {
    for (bytes, at) in BAD {
        assert_eq!(rt; place(rt.alloc(), bytes), Some(*at), "{bytes:?}");
    }
}

#[test]
fn structs_nest_at_most_64_deep(rt: HostRuntime) -> Result<(), Fail> {
    let alloc = rt.alloc();
    let mut deep = vec![in alloc; 0x1c; 63]?;
    deep.extend_from_slice(&[0; 64])?;
    let (_, taken) = read_struct(alloc, &deep)?;
    assert_eq!(rt; taken, 127);
    let deeper = vec![in alloc; 0x1c; 200]?;
    assert_eq!(rt; place(alloc, &deeper), Some(63));
    for (ends, at) in DEEP {
        let mut bytes = vec![in alloc; 0x1c; 62]?;
        bytes.extend_from_slice(ends)?;
        bytes.extend_from_slice(&[0; 63])?;
        assert_eq!(rt; place(alloc, &bytes), *at, "{ends:?}");
    }
    Ok(())
}

#[test]
fn a_million_fields_are_read(rt: HostRuntime) -> Result<(), Fail> {
    let alloc = rt.alloc();
    let mut bytes = Vec::new(alloc);
    for _ in 0..1_000_000 {
        bytes.extend_from_slice(&[0x01, 0x02])?;
    }
    bytes.push(0)?;
    let (tree, taken) = read_struct(alloc, &bytes)?;
    assert_eq!(rt; tree.len(), 1_000_000);
    assert_eq!(rt; taken, 2_000_001);
    Ok(())
}

#[test]
fn varints_are_read(rt: HostRuntime) {
    assert_eq!(rt; read_varint(&[0xac, 0x02, 0x05], 0), Some((300, 2)));
    assert_eq!(rt; read_varint(&[0xac, 0x02, 0x05], 1), Some((2, 1)));
    assert_eq!(rt; read_varint(&[0xac, 0x02, 0x85], 2), None);
    assert_eq!(rt; read_varint(&[0xac, 0x02], 3), None);
    assert_eq!(rt; read_varint(&[0x85, 0x80, 0x00], 0), Some((5, 3)));
}

fn whole(id: i16, whole: i32) -> Field
    ensures { (left : ℕ) → IsField (IsWritableValue left) result }
{
    laws::writable_values();
    Field {
        id,
        width: 32,
        node: Node::Whole(i64::from(whole)),
    }
}

fn data_header(alloc: Global) -> Result<Tree, AllocError>
    ensures { IfOk result (λ tree. AllByRecursion (IsField (IsWritableValue 62)) tree) }
{
    let fields = vec![in alloc; whole(1, 2), whole(2, 0), whole(3, 3), whole(4, 3)]?;
    Ok(Items::from_vec(fields))
}

fn nested(id: i16, tree: Tree) -> Field
    requires { AllByRecursion (IsField (IsWritableValue 62)) tree }
    ensures { IsField (IsWritableValue 63) result }
{
    laws::writable_values();
    Field {
        id,
        width: 0,
        node: Node::Struct(tree),
    }
}

/// A page header of a data page.
fn page_header(alloc: Global) -> Result<Tree, AllocError>
    ensures { IfOk result (λ tree. IsWritable tree) }
{
    let data = nested(5, data_header(alloc)?);
    let fields = vec![in alloc; whole(1, 0), whole(2, 11), whole(3, 11), data]?;
    Ok(Items::from_vec(fields))
}

#[test]
fn a_page_header_is_written(rt: HostRuntime) -> Result<(), Fail> {
    let alloc = rt.alloc();
    let mut out = Vec::from_slice(alloc, b"P")?;
    write_struct(&page_header(alloc)?, &mut out)?;
    let wanted: &[u8] = b"P\x15\x00\x15\x16\x15\x16\x2c\x15\x04\x15\x00\x15\x06\x15\x06\x00\x00";
    assert_eq!(rt; out.as_slice(), wanted);
    Ok(())
}
