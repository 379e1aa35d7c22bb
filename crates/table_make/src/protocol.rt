// The protocol and the metadata of a new table.
ghost use Rattle.std.specs.Prelude.{◌≡◌, IfOk};
ghost use Rattle.table_make.specs.Created as spec;

use crate::new_columns::partition_names;
use delta_actions::{MetadataAction, ProtocolAction, TableFormat};
use delta_schema::{TableSchema, write_schema};
use dm_types::{Text, TextList, TextPairs};
use sql_tree::Name;
use std::alloc::{AllocError, Global};
use table_features::needed_for;

/// What it takes to read and to write a new table: the features that it uses, by their names
/// (PROTOCOL.md, "Table Features"). Readers must know one where its columns are mapped.
pub(crate) fn protocol(
    alloc: Global,
    mapped: bool,
    columns: &TableSchema,
    configuration: &TextPairs,
) -> Result<ProtocolAction, AllocError>
    ensures { IfOk result (λ protocol. protocol
        ≡ spec.protocol_of mapped columns.now configuration.now) }
{
    Ok(ProtocolAction {
        min_reader_version: if mapped { 3 } else { 1 },
        min_writer_version: 7,
        reader_features: reader_features(alloc, mapped)?,
        writer_features: needed_for(alloc, columns, configuration)?,
    })
}

// The features that readers must know.
fn reader_features(alloc: Global, mapped: bool) -> Result<TextList, AllocError>
    ensures { IfOk result (λ names. names ≡ spec.reader_features_of mapped) }
{
    let mut names = TextList::new(alloc);
    if mapped {
        names.push(Text::from_str(alloc, "columnMapping")?)?;
    }
    Ok(names)
}

/// What a new table is (PROTOCOL.md, "Change Metadata"): it has no name and no description.
pub(crate) fn metadata(
    alloc: Global,
    id: &Text,
    columns: &TableSchema,
    partitions: &[Name],
    configuration: TextPairs,
    time: i64,
) -> Result<MetadataAction, AllocError>
    ensures { IfOk result (λ metadata. metadata
        ≡ spec.metadata_of id.now columns.now partitions.now configuration time) }
{
    Ok(MetadataAction {
        id: id.clone()?,
        name: None,
        description: None,
        format: Some(format(alloc)?),
        schema_string: write_schema(alloc, columns)?,
        partition_columns: Some(partition_names(alloc, columns.as_slice(), partitions)?),
        configuration: Some(configuration),
        created_time: Some(time),
    })
}

// Data files are Parquet.
fn format(alloc: Global) -> Result<TableFormat, AllocError>
    ensures { IfOk result (λ format. format ≡ spec.parquet_format) }
{
    Ok(TableFormat {
        provider: Some(Text::from_str(alloc, "parquet")?),
        options: Some(TextPairs::new(alloc)),
    })
}
