// The remove of a file that an add brought.
ghost use Rattle.std.specs.Prelude.{◌≡◌, [], IfOk, IfSome, unwrap_or};
ghost use Rattle.delta_actions.specs.Removal.{removal_of};
ghost use Rattle.delta_actions.specs.Writable.{AreOrdered, HasForm};
ghost use Rattle.delta_actions.specs.declared.action.Action.TheVariants.{Remove};

use crate::action::{AddAction, RemoveAction};
use dm_types::{Items, PartitionValues};
use std::alloc::{AllocError, Global};

// The partition values, or none.
fn values_of(alloc: Global, add: &AddAction) -> Result<PartitionValues, AllocError>
    ensures { IfOk result (λ values. values ≡ unwrap_or add.now.partition_values []) }
{
    match &add.partition_values {
        Some(values) => values.clone(),
        None => Ok(Items::new(alloc)),
    }
}

/// The remove of the file that `add` brought, at `deletion_timestamp` in milliseconds since
/// 1970-01-01 (PROTOCOL.md, "Add File and Remove File").
///
/// It has the file's size, row ids and partition values; where the add has no partition values, it
/// has an empty list of them.
pub fn remove_file(
    alloc: Global,
    add: &AddAction,
    deletion_timestamp: i64,
) -> Result<RemoveAction, AllocError>
    ensures removal { IfOk result (λ remove. remove ≡ removal_of deletion_timestamp add.now) }
    ensures form { IfOk result
        (λ remove. IfSome add.now.partition_values AreOrdered → HasForm (Remove remove)) }
{
    let partition_values = values_of(alloc, add)?;
    Ok(RemoveAction {
        path: add.path.clone()?,
        data_change: true,
        deletion_timestamp: Some(deletion_timestamp),
        size: Some(add.size),
        extended_file_metadata: Some(true),
        partition_values: Some(partition_values),
        deletion_vector: add.deletion_vector,
        base_row_id: add.base_row_id,
        default_row_commit_version: add.default_row_commit_version,
    })
}
