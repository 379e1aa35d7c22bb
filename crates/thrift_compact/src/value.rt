// A value with its width, before it is a field or an element.
ghost use Rattle.std.specs.Prelude.{◌≡◌};
ghost use Rattle.thrift_compact.specs.Values.{plain, sized, list_width};

use crate::kind::Kind;
use crate::tree::{Node, Nodes};

#[derive(Drop)]
pub(crate) struct Value {
    pub(crate) width: u8,
    pub(crate) node: Node,
}

impl Value {
    pub(crate) fn plain(node: Node) -> Value
        ensures { result ≡ plain node }
    {
        Value { width: 0, node }
    }

    pub(crate) fn sized(width: u8, whole: i64) -> Value
        ensures { result ≡ sized width whole }
    {
        Value {
            width,
            node: Node::Whole(whole),
        }
    }
}

/// The width of a list's whole numbers: 0 for an empty list and for elements of another type.
pub(crate) fn list_width(kind: Kind, nodes: &Nodes) -> u8
    ensures { result ≡ list_width kind nodes.now }
{
    if nodes.is_empty() { 0 } else { kind.width() }
}
