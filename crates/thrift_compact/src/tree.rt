// Structs as trees.
ghost use Rattle.std.specs.Prelude.{◌≡◌};
ghost use Rattle.thrift_compact.specs.Reading.{last_id as id_of_last};

use sqlite_items::Items;

/// How many structs, lists, sets and maps may be open in the outermost struct.
pub const MAX_INNER: usize = 63;

/// Bytes of a binary value.
pub type Blob = Items<u8>;

/// The elements of a list or a set, in order.
pub type Nodes = Items<Node>;

/// The entries of a map, each a key and its value, in order.
pub type NodePairs = Items<(Node, Node)>;

/// A struct: its fields in the order of the bytes. Ids may fall, and may come twice.
pub type Tree = Items<Field>;

/// A field of a struct.
#[cycle(tree)]
#[derive(Debug, Drop)]
pub struct Field {
    /// The id. It may be 0 or negative.
    pub id: i16,
    /// How many bits the whole number has: 8, 16, 32 or 64. Of a list or a set that isn't empty it
    /// is the width of the whole numbers in it. Of all other values it is 0.
    pub width: u8,
    /// The value.
    pub node: Node,
}

/// A value.
#[cycle(tree)]
#[derive(Debug, Drop)]
pub enum Node {
    /// A truth value.
    Bool(bool),
    /// A whole number, of the width that stands beside it.
    Whole(i64),
    /// The eight bytes of a double, as they stand.
    Double([u8; 8]),
    /// Bytes, or a text.
    Binary(Blob),
    /// A list. Its elements are of one type.
    List(Nodes),
    /// A set. Its elements are of one type. One may come twice.
    Set(Nodes),
    /// A map. Its keys are of one type, and so are its values. A key may come twice.
    Map(NodePairs),
    /// A struct.
    Struct(Tree),
}

/// The id of the last field, from which the next one is told.
pub(crate) fn last_id(fields: &[Field]) -> i16
    ensures { result ≡ id_of_last fields.now }
{
    match fields.last() {
        Some(field) => field.id,
        None => 0,
    }
}
