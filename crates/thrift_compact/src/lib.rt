//! The Thrift compact protocol, both ways.
#![tactic(auto)]

mod cursor;
mod fault;
mod header;
mod kind;
pub mod laws;
mod number;
mod read;
mod tree;
mod value;
mod write;

pub use fault::ThriftFault;
pub use number::{MAX_BYTES, read_varint};
pub use read::read_struct;
pub use tree::{Blob, Field, MAX_INNER, Node, NodePairs, Nodes, Tree};
pub use write::write_struct;
