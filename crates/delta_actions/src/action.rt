// The actions of a commit.
ghost use Rattle.std.specs.Prelude.{◌≡◌, IfOk};

use dm_types::{Exact, Items, PartitionValues, Text, TextList, TextPairs};
use std::alloc::AllocError;

// A clone, which is the same value.
fn same<T: Exact>(value: &T) -> Result<T, AllocError>
    ensures { IfOk result (λ clone. clone ≡ value.now) }
{
    value.clone()
}

/// What a reader and a writer of the table must be able to do (PROTOCOL.md, "Protocol Evolution").
#[derive(Clone, Drop)]
pub struct ProtocolAction {
    /// The least version of a reader, from 0 to 2147483647.
    pub min_reader_version: u32,
    /// The least version of a writer, from 0 to 2147483647.
    pub min_writer_version: u32,
    /// The features that a reader must know, which reader version 3 lists; empty where absent.
    pub reader_features: TextList,
    /// The features that a writer must know, which writer version 7 lists; empty where absent.
    pub writer_features: TextList,
}

impl Exact for ProtocolAction {
    ghost use Rattle.std.proofs.Common.{rules};

    ghost exact = { Prim.search rules };
}

/// How data files are coded (PROTOCOL.md, "Format Specification").
#[derive(Clone, Drop)]
pub struct TableFormat {
    /// `parquet`, where it is there.
    pub provider: Option<Text>,
    /// Options of the provider.
    pub options: Option<TextPairs>,
}

impl Exact for TableFormat {
    ghost use Rattle.std.proofs.Common.{rules};

    ghost exact = { Prim.search rules };
}

/// The table's schema and properties (PROTOCOL.md, "Change Metadata").
#[derive(Drop)]
pub struct MetadataAction {
    /// The table's id. It may be any text.
    pub id: Text,
    /// The table's name.
    pub name: Option<Text>,
    /// What the table is for.
    pub description: Option<Text>,
    /// How data files are coded.
    pub format: Option<TableFormat>,
    /// The schema, as a text that is itself JSON; it isn't looked at here.
    pub schema_string: Text,
    /// The names of the partition columns.
    pub partition_columns: Option<TextList>,
    /// The table's properties.
    pub configuration: Option<TextPairs>,
    /// When the metadata was made, in milliseconds since 1970-01-01.
    pub created_time: Option<i64>,
}

impl Clone for MetadataAction {
    ghost is_clone = { λ x y. y ≡ x };

    fn clone(&self) -> Result<MetadataAction, AllocError> {
        Ok(MetadataAction {
            id: same(&self.id)?,
            name: same(&self.name)?,
            description: same(&self.description)?,
            format: same(&self.format)?,
            schema_string: same(&self.schema_string)?,
            partition_columns: same(&self.partition_columns)?,
            configuration: same(&self.configuration)?,
            created_time: self.created_time,
        })
    }
}

impl Exact for MetadataAction {
    ghost exact = { λ x y same. same };
}

/// A data file that the table gets (PROTOCOL.md, "Add File and Remove File").
#[derive(Clone, Drop)]
pub struct AddAction {
    /// The path as it is logged: a URI reference, with its escapes.
    pub path: Text,
    /// The values of the partition columns, as texts or nulls.
    pub partition_values: Option<PartitionValues>,
    /// The file's size in bytes; 0 where it is absent.
    pub size: i64,
    /// When the file was made, in milliseconds since 1970-01-01; 0 where it is absent.
    pub modification_time: i64,
    /// Whether rows change by this action; true where it is absent.
    pub data_change: bool,
    /// Statistics of the file, as a text that is itself JSON; it isn't looked at here.
    pub stats: Option<Text>,
    /// Whether a deletion vector is there.
    pub deletion_vector: bool,
    /// The row id of the file's first row (PROTOCOL.md, "Row Tracking").
    pub base_row_id: Option<i64>,
    /// The version in which the file's rows were committed (PROTOCOL.md, "Row Tracking").
    pub default_row_commit_version: Option<i64>,
}

impl Exact for AddAction {
    ghost use Rattle.std.proofs.Common.{rules};

    ghost exact = { Prim.search rules };
}

/// A data file that the table loses (PROTOCOL.md, "Add File and Remove File").
#[derive(Drop)]
pub struct RemoveAction {
    /// The path as it is logged: a URI reference, with its escapes.
    pub path: Text,
    /// Whether rows change by this action; true where it is absent.
    pub data_change: bool,
    /// When the file was removed, in milliseconds since 1970-01-01.
    pub deletion_timestamp: Option<i64>,
    /// The file's size in bytes.
    pub size: Option<i64>,
    /// Whether the size and the partition values are those of the file.
    pub extended_file_metadata: Option<bool>,
    /// The values of the partition columns, as texts or nulls.
    pub partition_values: Option<PartitionValues>,
    /// Whether a deletion vector is there.
    pub deletion_vector: bool,
    /// The row id of the file's first row (PROTOCOL.md, "Row Tracking").
    pub base_row_id: Option<i64>,
    /// The version in which the file's rows were committed (PROTOCOL.md, "Row Tracking").
    pub default_row_commit_version: Option<i64>,
}

/// A file of changed rows (PROTOCOL.md, "Add CDC File").
#[derive(Drop)]
pub struct CdcAction {
    /// The path as it is logged: a URI reference, with its escapes.
    pub path: Text,
    /// The values of the partition columns, as texts or nulls.
    pub partition_values: Option<PartitionValues>,
    /// The file's size in bytes.
    pub size: Option<i64>,
}

/// The configuration of a domain (PROTOCOL.md, "Domain Metadata").
#[derive(Drop)]
pub struct DomainAction {
    /// The domain's name.
    pub domain: Text,
    /// The configuration. That of `delta.rowTracking`, where it isn't removed, is JSON with a mark.
    pub configuration: Text,
    /// Whether the domain is removed; it isn't where this is absent.
    pub removed: Option<bool>,
}

/// Where a commit comes from (PROTOCOL.md, "Commit Provenance Information").
#[derive(Drop)]
pub struct InfoAction {
    /// The operation; empty where it is absent or no text.
    pub operation: Text,
    /// The time of the commit, in milliseconds since 1970-01-01; 0 where it is absent or not whole.
    pub timestamp: i64,
}

/// What a line of a commit says (PROTOCOL.md, "Actions").
#[derive(Drop)]
pub enum Action {
    /// `protocol`.
    Protocol(ProtocolAction),
    /// `metaData`.
    Metadata(MetadataAction),
    /// `add`.
    Add(AddAction),
    /// `remove`.
    Remove(RemoveAction),
    /// `cdc`.
    Cdc(CdcAction),
    /// `domainMetadata`.
    Domain(DomainAction),
    /// `commitInfo`.
    Info(InfoAction),
    /// `txn`, or an action of any other name.
    Other,
}

/// The actions of a commit, in the order of its lines.
pub type Actions = Items<Action>;
