// The leaves of a schema, from its elements.
ghost use Rattle.std.specs.Prelude.{◌≡◌, ◌<◌, ◌≤◌, ◌+◌, ◌++◌, length, option_map, option_and_then, IfSome, IfNone};
ghost use Rattle.parquet_meta.specs.Gives.{Gives};
ghost use Rattle.parquet_meta.specs.Leaves.{up_to as number_up_to, count_of, is_long_enough, leaf_of, own_leaves};
ghost use Rattle.parquet_meta.specs.Leaves.{leaves_of, schema_leaves as leaves_of_schema};
ghost use Rattle.parquet_meta.specs.Steps.{AddsOwn};

use crate::elements::Element;
use crate::fault::MetaFault;
use crate::metadata::{LeafList, LeafSchema};
use crate::numbers::{FIXED_LEN_BYTE_ARRAY, OPTIONAL, REPEATED};
use dm_types::Items;
use std::alloc::Global;

/// A number from 0 to `most`.
fn up_to(most: u8, number: Option<i32>) -> Option<u8>
    ensures { result ≡ option_and_then (number_up_to most) number }
{
    match number {
        Some(number) if 0 <= number && number <= i32::from(most) => Some(number as u8),
        _ => None,
    }
}

/// A number of children.
fn count(children: Option<i32>) -> Option<usize>
    ensures { result ≡ count_of children }
{
    match children {
        None => Some(0),
        Some(number) if 0 <= number => Some(number as usize),
        Some(_) => None,
    }
}

fn long_enough(physical: u8, length: i32) -> bool
    ensures { result ≡ is_long_enough physical length }
{
    physical != FIXED_LEN_BYTE_ARRAY || length > 0
}

fn leaf(
    alloc: Global,
    top: bool,
    owner: &Element,
    element: &Element,
) -> Result<LeafSchema, MetaFault>
    ensures { Gives (leaf_of top owner.now element.now) result }
{
    let repetition = up_to(REPEATED, element.repetition).ok_or(MetaFault::BadFooter)?;
    let physical = up_to(FIXED_LEN_BYTE_ARRAY, element.physical).ok_or(MetaFault::BadFooter)?;
    let length = element.length.unwrap_or(0);
    if !long_enough(physical, length) {
        return Err(MetaFault::BadFooter);
    }
    Ok(LeafSchema {
        name: owner.name.clone()?,
        top,
        physical,
        length,
        optional: repetition == OPTIONAL,
        repeated: repetition == REPEATED,
        annotation: element.annotation,
        field_id: owner.field_id,
    })
}

/// Adds the leaf that the element is, if it has no children.
fn add_own(
    alloc: Global,
    top: bool,
    owner: &Element,
    element: &Element,
    leaves: &mut LeafList,
) -> Result<usize, MetaFault>
    ensures { AddsOwn top owner.now element.now leaves.old leaves.new result }
{
    let children = count(element.children).ok_or(MetaFault::BadFooter)?;
    if children == 0 {
        leaves.push(leaf(alloc, top, owner, element)?)?;
    } else if up_to(REPEATED, element.repetition).is_none() {
        return Err(MetaFault::BadFooter);
    }
    Ok(children)
}

/// How many trees are to follow inside, where all that are to follow have room in `rest` elements.
fn owed(inside: usize, outside: usize, more: usize, rest: usize) -> Option<usize>
    requires { inside + outside ≤ rest }
    ensures room { IfSome result (λ now. (now ≡ more + inside) × (now + outside ≤ rest)) }
    ensures none { IfNone result (rest < more + inside + outside) }
{
    if more <= rest - inside - outside {
        Some(more + inside)
    } else {
        None
    }
}

/// The leaves below a root of so many children.
fn below(
    alloc: Global,
    root: &Element,
    children: usize,
    elements: &[Element],
) -> Result<LeafList, MetaFault>
    ensures { Gives (leaves_of root.now 0 children elements.now) result }
{
    let mut leaves = Items::new(alloc);
    let mut owner = root;
    let mut inside = 0;
    let mut outside = children;
    if outside > elements.len() {
        return Err(MetaFault::BadFooter);
    }
    for (index, element) in elements.iter().enumerate() {
        let rest = elements.len() - index - 1;
        if inside > 0 {
            let more = add_own(alloc, false, owner, element, &mut leaves)?;
            let Some(now) = owed(inside - 1, outside, more, rest) else {
                return Err(MetaFault::BadFooter);
            };
            inside = now;
        } else if outside > 0 {
            let more = add_own(alloc, true, element, element, &mut leaves)?;
            outside -= 1;
            let Some(now) = owed(0, outside, more, rest) else {
                return Err(MetaFault::BadFooter);
            };
            inside = now;
            owner = element;
        } else {
            return Err(MetaFault::BadFooter);
        }
    }
    Ok(leaves)
}

/// The leaves of a schema: the first element is its root.
pub(crate) fn schema_leaves(alloc: Global, elements: &[Element]) -> Result<LeafList, MetaFault>
    ensures { Gives (leaves_of_schema elements.now) result }
{
    let Some((root, others)) = elements.split_first() else {
        return Err(MetaFault::BadFooter);
    };
    match count(root.children) {
        Some(children) => below(alloc, root, children, others),
        None => Err(MetaFault::BadFooter),
    }
}
