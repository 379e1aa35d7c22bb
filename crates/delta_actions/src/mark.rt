// The mark of row tracking.
ghost use Rattle.std.specs.Prelude.{◌≡◌, IfOk, Some, is_some, option_map};
ghost use Rattle.serde_json.specs.Read.{read as read_text};
ghost use Rattle.serde_json.specs.View.{view};
ghost use Rattle.delta_actions.specs.StepsReading.{Gives};
ghost use Rattle.delta_actions.specs.Meaning.{mark_of};

use crate::action::DomainAction;
use crate::fault::Fault;
use dm_types::Text;
use serde_json::Value;
use std::alloc::{AllocError, Global};

// The value that a text is in JSON, if it is one.
fn value_of(alloc: Global, text: &Text) -> Result<Option<Value>, AllocError>
    ensures { IfOk result (λ found. option_map view found ≡ read_text text.now) }
{
    match Value::from_str(alloc, text.as_str()) {
        Ok(value) => Ok(Some(value)),
        Err(error) if error.is_memory() => Err(AllocError),
        Err(_) => Ok(None),
    }
}

fn mark(alloc: Global, configuration: &Text) -> Result<Option<i64>, AllocError>
    ensures { IfOk result (λ found. found ≡ mark_of configuration.now) }
{
    let Some(value) = value_of(alloc, configuration)? else {
        return Ok(None);
    };
    match value.get("rowIdHighWaterMark").and_then(Value::as_i64) {
        Some(mark) if mark >= -1 => Ok(Some(mark)),
        _ => Ok(None),
    }
}

/// Whether a configuration of row tracking has a mark.
pub(crate) fn has_mark(alloc: Global, configuration: &Text) -> Result<bool, AllocError>
    ensures { IfOk result (λ has. has ≡ is_some (mark_of configuration.now)) }
{
    Ok(mark(alloc, configuration)?.is_some())
}

/// The mark in the configuration of a domain, at least -1 (PROTOCOL.md, "Row Tracking").
///
/// No row id that was given is above it. A domain `delta.rowTracking` that was read and isn't
/// removed has one; of others the configuration may be any text.
pub fn row_id_mark(alloc: Global, domain: &DomainAction) -> Result<Option<i64>, AllocError>
    ensures { IfOk result (λ found. found ≡ mark_of domain.now.configuration) }
{
    mark(alloc, &domain.configuration)
}
