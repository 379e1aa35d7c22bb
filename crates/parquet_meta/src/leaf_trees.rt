// The trees of leaves.
ghost use Rattle.std.specs.Prelude.{◌≡◌, ◌++◌, ◌∷◌, [], pos, Some, IfOk, OnOk, option_map};
ghost use Rattle.thrift_compact.specs.declared.tree.Node.TheVariants as n;
ghost use Rattle.parquet_meta.specs.Written.{inner, fields_of, entry, unit_content, logical_content};
ghost use Rattle.parquet_meta.specs.Written.{told_length as told_length_of, repetition_by, leaf_table};
ghost use Rattle.parquet_meta.specs.Steps.{LogicalFits, LeafFits};

use crate::building::{Written, put, put_maybe, put_node};
use crate::metadata::{LeafSchema, Logical};
use crate::numbers::{NO_UNIT, OPTIONAL, REPEATED, REQUIRED};
use sqlite_items::Items;
use std::alloc::{AllocError, Global};
use thrift_compact::{Node, Tree};

/// A struct with this struct as its one field.
fn union(alloc: Global, id: i16, member: Tree) -> Result<Node, AllocError>
    ensures { IfOk result (λ node. node ≡ inner ((id, Some (0, n.Struct member)) ∷ [])) }
{
    let mut tree = Items::new(alloc);
    put_node(&mut tree, id, 0, Node::Struct(member))?;
    Ok(Node::Struct(tree))
}

/// A `DecimalType`.
fn decimal_tree(alloc: Global, scale: i32) -> Result<Tree, AllocError>
    ensures tree { IfOk result (λ tree. tree ≡ fields_of ((pos 1, Some (32, n.Whole scale)) ∷ [])) }
    ensures range { OnOk result (LogicalFits (Logical.Decimal scale)) }
{
    let mut tree = Items::new(alloc);
    put(alloc, &mut tree, 1, &scale)?;
    Ok(tree)
}

/// A `TimestampType`.
fn timestamp_tree(alloc: Global, unit: u8) -> Result<Tree, AllocError>
    ensures { IfOk result (λ tree. tree ≡ fields_of ((pos 2, unit_content unit) ∷ [])) }
{
    let mut tree = Items::new(alloc);
    if unit != NO_UNIT {
        let member = union(alloc, i16::from(unit), Items::new(alloc))?;
        put_node(&mut tree, 2, 0, member)?;
    }
    Ok(tree)
}

/// A `LogicalType`, where one is told.
fn logical_node(alloc: Global, logical: Logical) -> Result<Option<Node>, AllocError>
    ensures node { IfOk result (λ node. option_map (λ found. (0, found)) node ≡ logical_content logical) }
    ensures range { OnOk result (LogicalFits logical) }
{
    match logical {
        Logical::Absent => Ok(None),
        Logical::Str => Ok(Some(union(alloc, 1, Items::new(alloc))?)),
        Logical::Decimal { scale } => Ok(Some(union(alloc, 5, decimal_tree(alloc, scale)?)?)),
        Logical::Date => Ok(Some(union(alloc, 6, Items::new(alloc))?)),
        Logical::Timestamp { unit } => Ok(Some(union(alloc, 8, timestamp_tree(alloc, unit)?)?)),
        Logical::Other => Ok(Some(Node::Struct(Items::new(alloc)))),
    }
}

fn put_logical(alloc: Global, tree: &mut Tree, logical: Logical) -> Result<(), AllocError>
    ensures tree { OnOk result (tree.new ≡ tree.old ++ entry (pos 10) (logical_content logical)) }
    ensures range { OnOk result (LogicalFits logical) }
{
    match logical_node(alloc, logical)? {
        Some(node) => put_node(tree, 10, 0, node),
        None => Ok(()),
    }
}

/// A length, which is left out where it is 0.
fn told_length(length: i32) -> Option<i32>
    ensures { result ≡ told_length_of length }
{
    if length == 0 { None } else { Some(length) }
}

/// The `FieldRepetitionType`.
fn repetition(optional: bool, repeated: bool) -> u8
    ensures { result ≡ repetition_by optional repeated }
{
    if repeated {
        REPEATED
    } else if optional {
        OPTIONAL
    } else {
        REQUIRED
    }
}

impl Written for LeafSchema {
    ghost width = { 0 };

    ghost written = { λ leaf. inner (leaf_table leaf) };

    ghost fits = { LeafFits };

    fn width() -> u8 {
        0
    }

    fn write(&self, alloc: Global) -> Result<Node, AllocError> {
        let mut tree = Items::new(alloc);
        put(alloc, &mut tree, 1, &i32::from(self.physical))?;
        put_maybe(alloc, &mut tree, 2, &told_length(self.length))?;
        let repetition = i32::from(repetition(self.optional, self.repeated));
        put(alloc, &mut tree, 3, &repetition)?;
        put(alloc, &mut tree, 4, &self.name)?;
        put_maybe(alloc, &mut tree, 6, &self.annotation.converted)?;
        put_maybe(alloc, &mut tree, 7, &self.annotation.scale)?;
        put_maybe(alloc, &mut tree, 8, &self.annotation.precision)?;
        put_maybe(alloc, &mut tree, 9, &self.field_id)?;
        put_logical(alloc, &mut tree, self.annotation.logical)?;
        Ok(Node::Struct(tree))
    }
}
