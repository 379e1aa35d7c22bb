// The JSON value of an action.
ghost use Rattle.std.specs.Prelude.{◌≡◌, IfOk, OnOk, IfSome, option_map};
ghost use Rattle.serde_json.specs.Data.{Data, no_members, string, boolean, number, unsigned, put as put_member};
ghost use Rattle.serde_json.specs.View.{view, members_view};
ghost use Rattle.delta_actions.specs.StepsWriting.{IsWhole, HasWholes, AddHasWholes, RemoveHasWholes};
ghost use Rattle.delta_actions.specs.Written.{integer, texts_data, or_null, pairs_data, put_some, object_of, named as named_data, features_data, protocol_fields, format_data, metadata_fields, add_fields, remove_fields, cdc_fields, domain_fields, info_fields, line_data};

use crate::action::{
    Action, AddAction, CdcAction, DomainAction, InfoAction, MetadataAction, ProtocolAction,
    RemoveAction, TableFormat,
};
use dm_types::{Items, Text, TextList};
use serde_json::{Map, Value};
use std::alloc::{AllocError, Global};

type Object = Map<String, Value>;

// What a member is written as.
trait Written {
    ghost written: { Self → Data };

    fn write(&self, alloc: Global) -> Result<Value, AllocError>
        ensures { IfOk result (λ value. view value ≡ written self.now) };
}

impl Written for Text {
    ghost written = { string };

    fn write(&self, alloc: Global) -> Result<Value, AllocError> {
        Value::try_from_str(alloc, self.as_str())
    }
}

impl Written for Option<Text> {
    ghost written = { or_null };

    fn write(&self, alloc: Global) -> Result<Value, AllocError> {
        match self {
            Some(text) => text.write(alloc),
            None => Ok(Value::Null),
        }
    }
}

impl Written for TextList {
    ghost written = { texts_data };

    fn write(&self, alloc: Global) -> Result<Value, AllocError> {
        let mut values = Vec::new(alloc);
        for item in self.as_slice() {
            values.push(item.write(alloc)?)?;
        }
        Ok(Value::Array(values))
    }
}

impl<T: Written> Written for Items<(Text, T)> {
    ghost written = { pairs_data T.written };

    fn write(&self, alloc: Global) -> Result<Value, AllocError> {
        let mut members = Object::new(alloc);
        for pair in self.as_slice() {
            let value = pair.1.write(alloc)?;
            serde_json::put(&mut members, alloc, pair.0.as_str(), value)?;
        }
        Ok(Value::Object(members))
    }
}

// A member that is there.
fn put<T: Written>(
    members: &mut Object,
    alloc: Global,
    name: &str,
    value: &T,
) -> Result<(), AllocError>
    ensures { OnOk result (members_view members.new.entries
        ≡ put_member name.now (T.written value.now) (members_view members.old.entries)) }
{
    let value = value.write(alloc)?;
    serde_json::put(members, alloc, name, value)
}

// A member that is left out where it isn't there.
fn put_maybe<T: Written>(
    members: &mut Object,
    alloc: Global,
    name: &str,
    value: &Option<T>,
) -> Result<(), AllocError>
    ensures { OnOk result (members_view members.new.entries
        ≡ put_some name.now (option_map T.written value.now) (members_view members.old.entries)) }
{
    match value {
        Some(found) => put(members, alloc, name, found),
        None => Ok(()),
    }
}

// The same for a whole number.
fn put_whole(
    members: &mut Object,
    alloc: Global,
    name: &str,
    value: Option<i64>,
) -> Result<(), AllocError>
    ensures member { OnOk result (members_view members.new.entries
        ≡ put_some name.now (option_map integer value) (members_view members.old.entries)) }
    ensures whole { IfSome value IsWhole }
{
    match value {
        Some(number) => serde_json::put(members, alloc, name, Value::from(number)),
        None => Ok(()),
    }
}

// The same for a truth value.
fn put_bool(
    members: &mut Object,
    alloc: Global,
    name: &str,
    value: Option<bool>,
) -> Result<(), AllocError>
    ensures { OnOk result (members_view members.new.entries
        ≡ put_some name.now (option_map boolean value) (members_view members.old.entries)) }
{
    match value {
        Some(truth) => serde_json::put(members, alloc, name, Value::Bool(truth)),
        None => Ok(()),
    }
}

// A version, which is there.
fn put_version(
    members: &mut Object,
    alloc: Global,
    name: &str,
    version: u32,
) -> Result<(), AllocError>
    ensures { OnOk result (members_view members.new.entries
        ≡ put_member name.now (number (unsigned version)) (members_view members.old.entries)) }
{
    serde_json::put(members, alloc, name, Value::from(version))
}

// A list of features; an empty one is left out, unless the version is the one that lists features.
fn put_features(
    members: &mut Object,
    alloc: Global,
    name: &str,
    features: &TextList,
    listed: bool,
) -> Result<(), AllocError>
    ensures { OnOk result (members_view members.new.entries
        ≡ put_some name.now (features_data listed features.now) (members_view members.old.entries)) }
{
    if features.is_empty() && !listed {
        return Ok(());
    }
    put(members, alloc, name, features)
}

fn protocol(alloc: Global, action: &ProtocolAction) -> Result<Value, AllocError>
    ensures { IfOk result (λ value. view value ≡ object_of (protocol_fields action.now)) }
{
    let mut members = Object::new(alloc);
    let reader = action.min_reader_version;
    let writer = action.min_writer_version;
    put_version(&mut members, alloc, "minReaderVersion", reader)?;
    put_version(&mut members, alloc, "minWriterVersion", writer)?;
    let readers = &action.reader_features;
    put_features(&mut members, alloc, "readerFeatures", readers, reader == 3)?;
    let writers = &action.writer_features;
    put_features(&mut members, alloc, "writerFeatures", writers, writer == 7)?;
    Ok(Value::Object(members))
}

impl Written for TableFormat {
    ghost written = { format_data };

    fn write(&self, alloc: Global) -> Result<Value, AllocError> {
        let mut members = Object::new(alloc);
        put_maybe(&mut members, alloc, "options", &self.options)?;
        put_maybe(&mut members, alloc, "provider", &self.provider)?;
        Ok(Value::Object(members))
    }
}

fn metadata(alloc: Global, action: &MetadataAction) -> Result<Value, AllocError>
    ensures value { IfOk result (λ value. view value ≡ object_of (metadata_fields action.now)) }
    ensures wholes { OnOk result (IfSome action.now.created_time IsWhole) }
{
    let mut members = Object::new(alloc);
    put_maybe(&mut members, alloc, "configuration", &action.configuration)?;
    put_whole(&mut members, alloc, "createdTime", action.created_time)?;
    put_maybe(&mut members, alloc, "description", &action.description)?;
    put_maybe(&mut members, alloc, "format", &action.format)?;
    put(&mut members, alloc, "id", &action.id)?;
    put_maybe(&mut members, alloc, "name", &action.name)?;
    put_maybe(
        &mut members,
        alloc,
        "partitionColumns",
        &action.partition_columns,
    )?;
    put(&mut members, alloc, "schemaString", &action.schema_string)?;
    Ok(Value::Object(members))
}

fn add(alloc: Global, action: &AddAction) -> Result<Value, AllocError>
    ensures value { IfOk result (λ value. view value ≡ object_of (add_fields action.now)) }
    ensures wholes { OnOk result (AddHasWholes action.now) }
{
    let mut members = Object::new(alloc);
    let version = action.default_row_commit_version;
    put_whole(&mut members, alloc, "baseRowId", action.base_row_id)?;
    put_bool(&mut members, alloc, "dataChange", Some(action.data_change))?;
    put_whole(&mut members, alloc, "defaultRowCommitVersion", version)?;
    put_whole(
        &mut members,
        alloc,
        "modificationTime",
        Some(action.modification_time),
    )?;
    put_maybe(
        &mut members,
        alloc,
        "partitionValues",
        &action.partition_values,
    )?;
    put(&mut members, alloc, "path", &action.path)?;
    put_whole(&mut members, alloc, "size", Some(action.size))?;
    put_maybe(&mut members, alloc, "stats", &action.stats)?;
    Ok(Value::Object(members))
}

fn remove(alloc: Global, action: &RemoveAction) -> Result<Value, AllocError>
    ensures value { IfOk result (λ value. view value ≡ object_of (remove_fields action.now)) }
    ensures wholes { OnOk result (RemoveHasWholes action.now) }
{
    let mut members = Object::new(alloc);
    let version = action.default_row_commit_version;
    let extended = action.extended_file_metadata;
    put_whole(&mut members, alloc, "baseRowId", action.base_row_id)?;
    put_bool(&mut members, alloc, "dataChange", Some(action.data_change))?;
    put_whole(&mut members, alloc, "defaultRowCommitVersion", version)?;
    put_whole(
        &mut members,
        alloc,
        "deletionTimestamp",
        action.deletion_timestamp,
    )?;
    put_bool(&mut members, alloc, "extendedFileMetadata", extended)?;
    put_maybe(
        &mut members,
        alloc,
        "partitionValues",
        &action.partition_values,
    )?;
    put(&mut members, alloc, "path", &action.path)?;
    put_whole(&mut members, alloc, "size", action.size)?;
    Ok(Value::Object(members))
}

fn cdc(alloc: Global, action: &CdcAction) -> Result<Value, AllocError>
    ensures value { IfOk result (λ value. view value ≡ object_of (cdc_fields action.now)) }
    ensures wholes { OnOk result (IfSome action.now.size IsWhole) }
{
    let mut members = Object::new(alloc);
    put_bool(&mut members, alloc, "dataChange", Some(false))?;
    put_maybe(
        &mut members,
        alloc,
        "partitionValues",
        &action.partition_values,
    )?;
    put(&mut members, alloc, "path", &action.path)?;
    put_whole(&mut members, alloc, "size", action.size)?;
    Ok(Value::Object(members))
}

fn domain(alloc: Global, action: &DomainAction) -> Result<Value, AllocError>
    ensures { IfOk result (λ value. view value ≡ object_of (domain_fields action.now)) }
{
    let mut members = Object::new(alloc);
    put(&mut members, alloc, "configuration", &action.configuration)?;
    put(&mut members, alloc, "domain", &action.domain)?;
    put_bool(&mut members, alloc, "removed", action.removed)?;
    Ok(Value::Object(members))
}

fn info(alloc: Global, action: &InfoAction) -> Result<Value, AllocError>
    ensures value { IfOk result (λ value. view value ≡ object_of (info_fields action.now)) }
    ensures wholes { OnOk result (IsWhole action.now.timestamp) }
{
    let mut members = Object::new(alloc);
    let engine = Text::from_str(alloc, "deltamerge")?;
    put(&mut members, alloc, "engineInfo", &engine)?;
    put(&mut members, alloc, "operation", &action.operation)?;
    put_whole(&mut members, alloc, "timestamp", Some(action.timestamp))?;
    Ok(Value::Object(members))
}

// An object whose one member is the action's.
fn named(alloc: Global, name: &str, value: Value) -> Result<Value, AllocError>
    ensures { IfOk result (λ object. view object ≡ named_data name.now (view value)) }
{
    let mut members = Object::new(alloc);
    serde_json::put(&mut members, alloc, name, value)?;
    Ok(Value::Object(members))
}

/// The value on the line of an action, where it has one.
pub(crate) fn line_value(alloc: Global, action: &Action) -> Result<Option<Value>, AllocError>
    ensures value { IfOk result (λ value. option_map view value ≡ line_data action.now) }
    ensures wholes { OnOk result (HasWholes action.now) }
{
    let (name, value) = match action {
        Action::Protocol(found) => ("protocol", protocol(alloc, found)?),
        Action::Metadata(found) => ("metaData", metadata(alloc, found)?),
        Action::Add(found) => ("add", add(alloc, found)?),
        Action::Remove(found) => ("remove", remove(alloc, found)?),
        Action::Cdc(found) => ("cdc", cdc(alloc, found)?),
        Action::Domain(found) => ("domainMetadata", domain(alloc, found)?),
        Action::Info(found) => ("commitInfo", info(alloc, found)?),
        Action::Other => return Ok(None),
    };
    Ok(Some(named(alloc, name, value)?))
}
