// The columns of a table.
use dm_types::{DataType, Items, Text, TextPairs};

/// The columns of a table, in the order of its schema.
pub type TableSchema = Items<ColumnDef>;

/// A column of a table (PROTOCOL.md, "Schema Serialization Format").
#[derive(Drop)]
pub struct ColumnDef {
    /// The logical name, as the schema spells it. It isn't empty.
    pub name: Text,
    /// The type of the values, never `Void`.
    pub kind: DataType,
    /// Whether a row may have null here.
    pub nullable: bool,
    /// Whether the table is partitioned by the column.
    pub partition: bool,
    /// `delta.columnMapping.id` (PROTOCOL.md, "Column Mapping").
    pub id: Option<i32>,
    /// `delta.columnMapping.physicalName` (PROTOCOL.md, "Column Mapping").
    pub physical: Option<Text>,
    /// `delta.generationExpression` (PROTOCOL.md, "Generated Columns").
    pub generation: Option<Text>,
    /// The rule of an identity column.
    pub identity: Option<IdentityRule>,
    /// Whether `delta.invariants` is there (PROTOCOL.md, "Column Invariants").
    pub invariant: bool,
    /// Every other member of the column's metadata, its value as compact JSON.
    pub other: TextPairs,
}

/// How the values of an identity column are made (PROTOCOL.md, "Identity Columns").
#[derive(Clone, Copy)]
pub struct IdentityRule {
    /// `delta.identity.start`: the first value.
    pub start: i64,
    /// `delta.identity.step`: what is added from value to value. It isn't 0.
    pub step: i64,
    /// `delta.identity.highWaterMark`: the last value that was made, if any.
    pub mark: Option<i64>,
    /// `delta.identity.allowExplicitInsert`: whether an INSERT may give a value.
    pub explicit: bool,
}
