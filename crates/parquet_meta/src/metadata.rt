// What is kept of a footer.
use crate::shared::SharedBytes;
use dm_types::{Bytes, Items, WholeList};

/// The leaves of a schema, in order.
pub type LeafList = Items<LeafSchema>;

/// The row groups of a file, in order.
pub type GroupList = Items<RowGroup>;

/// The column chunks of a row group, in the order of the leaves.
pub type ChunkList = Items<ChunkMeta>;

/// Names, from the top of the schema down to a leaf. They need not be UTF-8.
pub type Names = Items<Bytes>;

/// A footer (parquet.thrift, `FileMetaData`).
#[derive(Debug, Drop)]
pub struct Footer {
    /// How many rows the file has, which is what its row groups have together.
    pub rows: i64,
    /// The leaves of the schema.
    pub leaves: LeafList,
    /// The row groups. Each has one chunk for each leaf.
    pub groups: GroupList,
}

/// A leaf of the schema (parquet.thrift, `SchemaElement`).
#[derive(Debug, Drop)]
pub struct LeafSchema {
    /// The name of the top-level element that the leaf is, or is below. It need not be UTF-8.
    pub name: SharedBytes,
    /// Whether the leaf stands directly below the root.
    pub top: bool,
    /// The physical type, from `numbers::BOOLEAN` to `numbers::FIXED_LEN_BYTE_ARRAY`.
    pub physical: u8,
    /// How many bytes a value of `numbers::FIXED_LEN_BYTE_ARRAY` has, above 0; 0 where no length is
    /// told.
    pub length: i32,
    /// Whether the leaf itself is OPTIONAL.
    pub optional: bool,
    /// Whether the leaf itself is REPEATED.
    pub repeated: bool,
    /// What the values mean.
    pub annotation: Annotation,
    /// The field id of the top-level element.
    pub field_id: Option<i32>,
}

/// What the values of a leaf mean.
#[derive(Clone, Copy, Debug)]
pub struct Annotation {
    /// `converted_type`: `numbers::UTF8` and others.
    pub converted: Option<i32>,
    /// `scale`.
    pub scale: Option<i32>,
    /// `precision`.
    pub precision: Option<i32>,
    /// `logicalType`.
    pub logical: Logical,
}

/// A logical type (parquet.thrift, `LogicalType`).
#[derive(Clone, Copy, Debug)]
pub enum Logical {
    /// None is told.
    Absent,
    /// STRING.
    Str,
    /// DECIMAL.
    Decimal {
        /// The scale, 0 where none is told.
        scale: i32,
    },
    /// DATE.
    Date,
    /// TIMESTAMP.
    Timestamp {
        /// `numbers::MILLIS`, `numbers::MICROS`, `numbers::NANOS`, or `numbers::NO_UNIT`.
        unit: u8,
    },
    /// One that this project doesn't know.
    Other,
}

/// A row group (parquet.thrift, `RowGroup`).
#[derive(Debug, Drop)]
pub struct RowGroup {
    /// `total_byte_size`.
    pub bytes: i64,
    /// How many rows it has, not below 0.
    pub rows: i64,
    /// Its chunks, one for each leaf of the schema.
    pub chunks: ChunkList,
}

/// A column chunk (parquet.thrift, `ColumnChunk` and `ColumnMetaData`).
#[derive(Debug, Drop)]
pub struct ChunkMeta {
    /// Whether it has a file_path, so that it stands in another file. No footer that is read has such
    /// a chunk.
    pub external: bool,
    /// The physical type, that of the leaf.
    pub physical: i32,
    /// The encodings, each within 32 bits.
    pub encodings: WholeList,
    /// The names from the top of the schema down to the leaf.
    pub path: Names,
    /// The compression codec: `numbers::UNCOMPRESSED` and others.
    pub codec: i32,
    /// How many values it has, nulls counted.
    pub values: i64,
    /// The uncompressed size in bytes, headers counted.
    pub unpacked: i64,
    /// The compressed size in bytes, headers counted.
    pub packed: i64,
    /// The place of the first data page in the file.
    pub page_at: i64,
    /// The place of the dictionary page in the file, where it is told.
    pub dictionary_at: Option<i64>,
}
