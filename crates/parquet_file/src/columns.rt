// The columns of a file that is written.
use column_vectors::AnyColumn;
use dm_types::{DataType, Items, Text};

/// Columns, all of one length.
pub type FileColumns = Items<FileColumn>;

/// A column of a file.
#[derive(Drop)]
pub struct FileColumn {
    /// The name, at most 1 MiB.
    pub name: Text,
    /// The field id of the schema's element (parquet.thrift, `SchemaElement`).
    pub field_id: Option<i32>,
    /// The type, that of the column.
    pub kind: DataType,
    /// The values.
    pub column: AnyColumn,
}
