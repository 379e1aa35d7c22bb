// The actions, from their JSON values.
ghost use Rattle.std.specs.Prelude.{◌≡◌, Some};
ghost use Rattle.serde_json.specs.View.{view};
ghost use Rattle.delta_actions.specs.StepsReading.{Gives};
ghost use Rattle.delta_actions.specs.Meaning.{protocol_of, parquet as parquet_of, format_of, metadata_of, data_change_of, add_of, remove_of, cdc_of, domain_of, info_of, action_of as action_named};

use crate::action::{
    Action, AddAction, CdcAction, DomainAction, InfoAction, MetadataAction, ProtocolAction,
    RemoveAction, TableFormat,
};
use crate::fault::Fault;
use crate::mark::has_mark;
use crate::members::{Form, member, needed, optional};
use dm_types::{Items, Text};
use serde_json::Value;
use std::alloc::Global;

fn protocol(alloc: Global, value: &Value) -> Result<ProtocolAction, Fault>
    ensures { Gives (protocol_of (view value.now)) result }
{
    let min_reader_version = needed(alloc, value, "minReaderVersion")?;
    let min_writer_version = needed(alloc, value, "minWriterVersion")?;
    let readers = optional(alloc, value, "readerFeatures")?;
    let writers = optional(alloc, value, "writerFeatures")?;
    Ok(ProtocolAction {
        min_reader_version,
        min_writer_version,
        reader_features: readers.unwrap_or(Items::new(alloc)),
        writer_features: writers.unwrap_or(Items::new(alloc)),
    })
}

fn parquet(alloc: Global, value: &Value) -> Result<Text, Fault>
    ensures { Gives (parquet_of (view value.now)) result }
{
    match value.as_str() {
        Some(name) if name == "parquet" => Ok(Text::from_str(alloc, name)?),
        _ => Err(Fault::Bad),
    }
}

impl Form for TableFormat {
    ghost form = { format_of };

    fn read(alloc: Global, value: &Value) -> Result<TableFormat, Fault> {
        if !value.is_object() {
            return Err(Fault::Bad);
        }
        let provider = match value.get("provider") {
            Some(found) => Some(parquet(alloc, found)?),
            None => None,
        };
        let options = optional(alloc, value, "options")?;
        Ok(TableFormat { provider, options })
    }
}

fn metadata(alloc: Global, value: &Value) -> Result<MetadataAction, Fault>
    ensures { Gives (metadata_of (view value.now)) result }
{
    Ok(MetadataAction {
        id: needed(alloc, value, "id")?,
        name: optional(alloc, value, "name")?,
        description: optional(alloc, value, "description")?,
        format: optional(alloc, value, "format")?,
        schema_string: needed(alloc, value, "schemaString")?,
        partition_columns: optional(alloc, value, "partitionColumns")?,
        configuration: optional(alloc, value, "configuration")?,
        created_time: optional(alloc, value, "createdTime")?,
    })
}

// Rows change by the action, unless it says that they don't.
fn data_change(alloc: Global, value: &Value) -> Result<bool, Fault>
    ensures { Gives (data_change_of (view value.now)) result }
{
    let change: Option<bool> = optional(alloc, value, "dataChange")?;
    Ok(change.unwrap_or(true))
}

fn add(alloc: Global, value: &Value) -> Result<AddAction, Fault>
    ensures { Gives (add_of (view value.now)) result }
{
    Ok(AddAction {
        path: needed(alloc, value, "path")?,
        partition_values: optional(alloc, value, "partitionValues")?,
        size: optional(alloc, value, "size")?.unwrap_or(0),
        modification_time: optional(alloc, value, "modificationTime")?.unwrap_or(0),
        data_change: data_change(alloc, value)?,
        stats: optional(alloc, value, "stats")?,
        deletion_vector: member(value, "deletionVector").is_some(),
        base_row_id: optional(alloc, value, "baseRowId")?,
        default_row_commit_version: optional(alloc, value, "defaultRowCommitVersion")?,
    })
}

fn remove(alloc: Global, value: &Value) -> Result<RemoveAction, Fault>
    ensures { Gives (remove_of (view value.now)) result }
{
    Ok(RemoveAction {
        path: needed(alloc, value, "path")?,
        data_change: data_change(alloc, value)?,
        deletion_timestamp: optional(alloc, value, "deletionTimestamp")?,
        size: optional(alloc, value, "size")?,
        extended_file_metadata: optional(alloc, value, "extendedFileMetadata")?,
        partition_values: optional(alloc, value, "partitionValues")?,
        deletion_vector: member(value, "deletionVector").is_some(),
        base_row_id: optional(alloc, value, "baseRowId")?,
        default_row_commit_version: optional(alloc, value, "defaultRowCommitVersion")?,
    })
}

fn cdc(alloc: Global, value: &Value) -> Result<CdcAction, Fault>
    ensures { Gives (cdc_of (view value.now)) result }
{
    Ok(CdcAction {
        path: needed(alloc, value, "path")?,
        partition_values: optional(alloc, value, "partitionValues")?,
        size: optional(alloc, value, "size")?,
    })
}

fn domain(alloc: Global, value: &Value) -> Result<DomainAction, Fault>
    ensures { Gives (domain_of (view value.now)) result }
{
    let domain: Text = needed(alloc, value, "domain")?;
    let configuration: Text = needed(alloc, value, "configuration")?;
    let removed: Option<bool> = optional(alloc, value, "removed")?;
    let tracks = domain.is("delta.rowTracking") && !removed.unwrap_or(false);
    if tracks && !has_mark(alloc, &configuration)? {
        return Err(Fault::Bad);
    }
    Ok(DomainAction {
        domain,
        configuration,
        removed,
    })
}

// Each member by itself: one that isn't well formed spoils nothing.
fn info(alloc: Global, value: &Value) -> Result<InfoAction, Fault>
    ensures { Gives (Some (info_of (view value.now))) result }
{
    let operation = match member(value, "operation").and_then(Value::as_str) {
        Some(text) => Text::from_str(alloc, text)?,
        None => Text::new(alloc),
    };
    let timestamp = member(value, "timestamp").and_then(Value::as_i64);
    Ok(InfoAction {
        operation,
        timestamp: timestamp.unwrap_or(0),
    })
}

/// The action of this name and value.
pub(crate) fn action(alloc: Global, name: &str, value: &Value) -> Result<Action, Fault>
    ensures { Gives (action_named name.now (view value.now)) result }
{
    match name {
        "protocol" => Ok(Action::Protocol(protocol(alloc, value)?)),
        "metaData" => Ok(Action::Metadata(metadata(alloc, value)?)),
        "add" => Ok(Action::Add(add(alloc, value)?)),
        "remove" => Ok(Action::Remove(remove(alloc, value)?)),
        "cdc" => Ok(Action::Cdc(cdc(alloc, value)?)),
        "domainMetadata" => Ok(Action::Domain(domain(alloc, value)?)),
        "commitInfo" => Ok(Action::Info(info(alloc, value)?)),
        _ => Ok(Action::Other),
    }
}
