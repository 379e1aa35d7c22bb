// Elements of the schema, from their trees.
ghost use Rattle.parquet_meta.specs.Gives.{Gives};
ghost use Rattle.parquet_meta.specs.Forms.{struct};
ghost use Rattle.parquet_meta.specs.Elements.{element_of};

use crate::fault::MetaFault;
use crate::forms::{Form, needed, optional, struct_in};
use crate::metadata::{Annotation, Logical};
use crate::shared::SharedBytes;
use std::alloc::Global;
use thrift_compact::{Node, Tree};

/// An element of the schema (parquet.thrift, `SchemaElement`): the root, a group or a leaf.
#[derive(Drop)]
pub(crate) struct Element {
    pub(crate) physical: Option<i32>,
    pub(crate) length: Option<i32>,
    pub(crate) repetition: Option<i32>,
    pub(crate) name: SharedBytes,
    pub(crate) children: Option<i32>,
    pub(crate) field_id: Option<i32>,
    pub(crate) annotation: Annotation,
}

fn read_element(alloc: Global, tree: &Tree) -> Result<Element, MetaFault>
    ensures { Gives (element_of tree.now) result }
{
    let physical = optional(alloc, tree, 1)?;
    let length = optional(alloc, tree, 2)?;
    let repetition = optional(alloc, tree, 3)?;
    let name = needed(alloc, tree, 4)?;
    let children = optional(alloc, tree, 5)?;
    let converted = optional(alloc, tree, 6)?;
    let scale = optional(alloc, tree, 7)?;
    let precision = optional(alloc, tree, 8)?;
    let field_id = optional(alloc, tree, 9)?;
    let logical: Option<Logical> = optional(alloc, tree, 10)?;
    Ok(Element {
        physical,
        length,
        repetition,
        name,
        children,
        field_id,
        annotation: Annotation {
            converted,
            scale,
            precision,
            logical: logical.unwrap_or(Logical::Absent),
        },
    })
}

impl Form for Element {
    ghost form = { struct element_of };

    fn read(alloc: Global, _width: u8, node: &Node) -> Result<Element, MetaFault> {
        match struct_in(node) {
            Some(tree) => read_element(alloc, tree),
            None => Err(MetaFault::BadFooter),
        }
    }
}
