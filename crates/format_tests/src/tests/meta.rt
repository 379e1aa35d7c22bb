// Footers and page headers spelled by hand after parquet.thrift, and bytes that are neither.
ghost use Rattle.std.specs.Prelude.{IfOk};
ghost use Rattle.parquet_meta.specs.Writable.{IsWritableFooter};

use dm_types::Items;
use parquet_meta::{
    Annotation, Footer, LeafSchema, Logical, MetaFault, PageHeader, PageV1, SharedBytes,
    read_footer, read_page_header, write_footer, write_page_header,
};
use std::alloc::{AllocError, Global};
use std::test::Fail;

/// Footers, and what is kept of them.
const FOOTERS: &[(&[u8], &str)] = &[
    // An optional leaf of 32 bits, and a chunk.
    (
        b"\x15\x02\x19,H\x06schema\x15\x02\x00\x15\x02%\x02\x18\x01a\x00\x16\x06\x19\x1c\x19\x1c&\x00\x1c\x15\x02\x19%\x00\x06\x19\x18\x01a\x15\x00\x16\x06\x16P\x16P&\x08\x00\x00\x16P\x16\x06\x00\x00",
        "Footer { rows: 3, leaves: Items { items: [LeafSchema { name: SharedBytes { bytes: Items { items: [97] } }, top: true, physical: 1, length: 0, optional: true, repeated: false, annotation: Annotation { converted: None, scale: None, precision: None, logical: Absent }, field_id: None }] }, groups: Items { items: [RowGroup { bytes: 40, rows: 3, chunks: Items { items: [ChunkMeta { external: false, physical: 1, encodings: Items { items: [0, 3] }, path: Items { items: [Items { items: [97] }] }, codec: 0, values: 3, unpacked: 40, packed: 40, page_at: 4, dictionary_at: None }] } }] } }",
    ),
    // No leaves, no groups.
    (
        b"\x15\x02\x19\x1cH\x06schema\x00\x16\x00\x19\x0c\x00",
        "Footer { rows: 0, leaves: Items { items: [] }, groups: Items { items: [] } }",
    ),
    // Groups in groups: the leaves below have the name and the field id of the element at the top. A name that is not UTF-8.
    (
        b"\x15\x02\x19|H\x06schema\x15\x06\x00H\x01g\x05\x06\x02%\x04E\x0e\x00\x15\x0c%\x04\x18\x01xU\x10\x005\x00\x18\x01h\x15\x02\x00\x15\x04%\x00\x18\x01y\x00\x15\x0e\x15\x18\x15\x00\x18\x01\xff\x00\x15\x00%\x00\x18\x01b\x15\x00E\x01\x00\x16\x00\x19\x0c\x00",
        "Footer { rows: 0, leaves: Items { items: [LeafSchema { name: SharedBytes { bytes: Items { items: [103] } }, top: false, physical: 6, length: 0, optional: false, repeated: true, annotation: Annotation { converted: None, scale: None, precision: None, logical: Absent }, field_id: Some(7) }, LeafSchema { name: SharedBytes { bytes: Items { items: [103] } }, top: false, physical: 2, length: 0, optional: false, repeated: false, annotation: Annotation { converted: None, scale: None, precision: None, logical: Absent }, field_id: Some(7) }, LeafSchema { name: SharedBytes { bytes: Items { items: [255] } }, top: true, physical: 7, length: 12, optional: false, repeated: false, annotation: Annotation { converted: None, scale: None, precision: None, logical: Absent }, field_id: None }, LeafSchema { name: SharedBytes { bytes: Items { items: [98] } }, top: true, physical: 0, length: 0, optional: false, repeated: false, annotation: Annotation { converted: None, scale: None, precision: None, logical: Absent }, field_id: Some(-1) }] }, groups: Items { items: [] } }",
    ),
    // Logical types of every kind; of two known members the last counts.
    (
        b"\x15\x02\x19\xecH\x06schema\x15\x1a\x00\x15\x0c%\x00\x18\x01a%\x00L\x1c\x00\x00\x00\x15\x02%\x00\x18\x01b%\x0a\x15\x04\x15\x12,\x5c\x15\x04\x15\x12\x00\x00\x00\x15\x02%\x00\x18\x01cl\x5c\x00\x00\x00\x15\x02%\x00\x18\x01dll\x00\x00\x00\x15\x04%\x00\x18\x01el\x8c\x11\x1c\x1c\x00\x00\x00\x00\x00\x15\x04%\x00\x18\x01fl\x8c\x11\x1c,\x00\x00\x00\x00\x00\x15\x04%\x00\x18\x01gl\x8c\x11\x1c<\x00\x00\x00\x00\x00\x15\x04%\x00\x18\x01hl\x8c\x11\x00\x00\x00\x15\x04%\x00\x18\x01il\x8c\x11\x1c\x9c\x00\x00\x00\x00\x00\x15\x0c%\x00\x18\x01jlL\x00\x00\x00\x15\x0c%\x00\x18\x01kl\x00\x00\x15\x0c%\x00\x18\x01lll\x00l\x00\x0c\x02\x00\x00\x00\x15\x04%\x00\x18\x01ml\x8c\x11\x1c<\x00\x0c\x04\x00\x00\x00\x00\x00\x16\x00\x19\x0c\x00",
        "Footer { rows: 0, leaves: Items { items: [LeafSchema { name: SharedBytes { bytes: Items { items: [97] } }, top: true, physical: 6, length: 0, optional: false, repeated: false, annotation: Annotation { converted: Some(0), scale: None, precision: None, logical: Str }, field_id: None }, LeafSchema { name: SharedBytes { bytes: Items { items: [98] } }, top: true, physical: 1, length: 0, optional: false, repeated: false, annotation: Annotation { converted: Some(5), scale: Some(2), precision: Some(9), logical: Decimal { scale: 2 } }, field_id: None }, LeafSchema { name: SharedBytes { bytes: Items { items: [99] } }, top: true, physical: 1, length: 0, optional: false, repeated: false, annotation: Annotation { converted: None, scale: None, precision: None, logical: Decimal { scale: 0 } }, field_id: None }, LeafSchema { name: SharedBytes { bytes: Items { items: [100] } }, top: true, physical: 1, length: 0, optional: false, repeated: false, annotation: Annotation { converted: None, scale: None, precision: None, logical: Date }, field_id: None }, LeafSchema { name: SharedBytes { bytes: Items { items: [101] } }, top: true, physical: 2, length: 0, optional: false, repeated: false, annotation: Annotation { converted: None, scale: None, precision: None, logical: Timestamp { unit: 1 } }, field_id: None }, LeafSchema { name: SharedBytes { bytes: Items { items: [102] } }, top: true, physical: 2, length: 0, optional: false, repeated: false, annotation: Annotation { converted: None, scale: None, precision: None, logical: Timestamp { unit: 2 } }, field_id: None }, LeafSchema { name: SharedBytes { bytes: Items { items: [103] } }, top: true, physical: 2, length: 0, optional: false, repeated: false, annotation: Annotation { converted: None, scale: None, precision: None, logical: Timestamp { unit: 3 } }, field_id: None }, LeafSchema { name: SharedBytes { bytes: Items { items: [104] } }, top: true, physical: 2, length: 0, optional: false, repeated: false, annotation: Annotation { converted: None, scale: None, precision: None, logical: Timestamp { unit: 0 } }, field_id: None }, LeafSchema { name: SharedBytes { bytes: Items { items: [105] } }, top: true, physical: 2, length: 0, optional: false, repeated: false, annotation: Annotation { converted: None, scale: None, precision: None, logical: Timestamp { unit: 0 } }, field_id: None }, LeafSchema { name: SharedBytes { bytes: Items { items: [106] } }, top: true, physical: 6, length: 0, optional: false, repeated: false, annotation: Annotation { converted: None, scale: None, precision: None, logical: Other }, field_id: None }, LeafSchema { name: SharedBytes { bytes: Items { items: [107] } }, top: true, physical: 6, length: 0, optional: false, repeated: false, annotation: Annotation { converted: None, scale: None, precision: None, logical: Other }, field_id: None }, LeafSchema { name: SharedBytes { bytes: Items { items: [108] } }, top: true, physical: 6, length: 0, optional: false, repeated: false, annotation: Annotation { converted: None, scale: None, precision: None, logical: Str }, field_id: None }, LeafSchema { name: SharedBytes { bytes: Items { items: [109] } }, top: true, physical: 2, length: 0, optional: false, repeated: false, annotation: Annotation { converted: None, scale: None, precision: None, logical: Timestamp { unit: 2 } }, field_id: None }] }, groups: Items { items: [] } }",
    ),
    // Statistics, key-value metadata, column orders, the dictionary place, and fields that no one knows.
    (
        b"\x15\x02\x19,H\x06schema\x15\x02\x00\x15\x02%\x02\x18\x01a\x00\x16\x06\x19,\x19\x1c&\x00\x1c\x15\x02\x19%\x00\x06\x19\x18\x01a\x15\x00\x16\x06\x16P\x16P\x19\x1c\x18\x01k\x18\x01v\x00\x16\x08\x16\x12\x16\x0a\x1c\x18\x01z&\x02(\x01q\x00&\x0e\x005\x02\x00\x16R\x16\x04\x19\x0c4\x00\x00\x19\x1c&\x00\x1c\x15\x02\x19%\x00\x06\x19\x18\x01a\x15\x00\x16\x06\x16P\x16P&\x08\x00\x00\x16T\x16\x02\x00\x19\x1c\x18\x01k\x18\x01v\x00\x18\x01w\x19\x1c\x1c\x00\x00(\x01s\x05\x09\x02\x00",
        "Footer { rows: 3, leaves: Items { items: [LeafSchema { name: SharedBytes { bytes: Items { items: [97] } }, top: true, physical: 1, length: 0, optional: true, repeated: false, annotation: Annotation { converted: None, scale: None, precision: None, logical: Absent }, field_id: None }] }, groups: Items { items: [RowGroup { bytes: 41, rows: 2, chunks: Items { items: [ChunkMeta { external: false, physical: 1, encodings: Items { items: [0, 3] }, path: Items { items: [Items { items: [97] }] }, codec: 0, values: 3, unpacked: 40, packed: 40, page_at: 4, dictionary_at: Some(5) }] } }, RowGroup { bytes: 42, rows: 1, chunks: Items { items: [ChunkMeta { external: false, physical: 1, encodings: Items { items: [0, 3] }, path: Items { items: [Items { items: [97] }] }, codec: 0, values: 3, unpacked: 40, packed: 40, page_at: 4, dictionary_at: None }] } }] } }",
    ),
    // Of two fields with one id the last counts, its type too.
    (
        b"\x15\x02\x19\x1cH\x06schema\x00\x16\x12\x19\x0c\x08\x06\x01x\x06\x06\x00\x00",
        "Footer { rows: 0, leaves: Items { items: [] }, groups: Items { items: [] } }",
    ),
];

/// Bytes that are no footer.
const BAD_FOOTERS: &[&[u8]] = &[
    // No version.
    b"),H\x06schema\x15\x02\x00\x15\x02%\x02\x18\x01a\x00\x16\x06\x19\x1c\x19\x1c&\x00\x1c\x15\x02\x19%\x00\x06\x19\x18\x01a\x15\x00\x16\x06\x16P\x16P&\x08\x00\x00\x16P\x16\x06\x00\x00",
    // No schema.
    b"\x15\x02&\x06\x19\x1c\x19\x1c&\x00\x1c\x15\x02\x19%\x00\x06\x19\x18\x01a\x15\x00\x16\x06\x16P\x16P&\x08\x00\x00\x16P\x16\x06\x00\x00",
    // No num_rows.
    b"\x15\x02\x19,H\x06schema\x15\x02\x00\x15\x02%\x02\x18\x01a\x00)\x1c\x19\x1c&\x00\x1c\x15\x02\x19%\x00\x06\x19\x18\x01a\x15\x00\x16\x06\x16P\x16P&\x08\x00\x00\x16P\x16\x06\x00\x00",
    // No row_groups.
    b"\x15\x02\x19,H\x06schema\x15\x02\x00\x15\x02%\x02\x18\x01a\x00\x16\x06\x00",
    // No name of a leaf.
    b"\x15\x02\x19,H\x06schema\x15\x02\x00\x15\x02%\x02\x00\x16\x06\x19\x1c\x19\x1c&\x00\x1c\x15\x02\x19%\x00\x06\x19\x18\x01a\x15\x00\x16\x06\x16P\x16P&\x08\x00\x00\x16P\x16\x06\x00\x00",
    // No name of the root.
    b"\x15\x02\x19,U\x02\x00\x15\x02%\x02\x18\x01a\x00\x16\x06\x19\x1c\x19\x1c&\x00\x1c\x15\x02\x19%\x00\x06\x19\x18\x01a\x15\x00\x16\x06\x16P\x16P&\x08\x00\x00\x16P\x16\x06\x00\x00",
    // No columns.
    b"\x15\x02\x19,H\x06schema\x15\x02\x00\x15\x02%\x02\x18\x01a\x00\x16\x06\x19\x1c&P\x16\x06\x00\x00",
    // No total_byte_size.
    b"\x15\x02\x19,H\x06schema\x15\x02\x00\x15\x02%\x02\x18\x01a\x00\x16\x06\x19\x1c\x19\x1c&\x00\x1c\x15\x02\x19%\x00\x06\x19\x18\x01a\x15\x00\x16\x06\x16P\x16P&\x08\x00\x00&\x06\x00\x00",
    // No num_rows of a group.
    b"\x15\x02\x19,H\x06schema\x15\x02\x00\x15\x02%\x02\x18\x01a\x00\x16\x06\x19\x1c\x19\x1c&\x00\x1c\x15\x02\x19%\x00\x06\x19\x18\x01a\x15\x00\x16\x06\x16P\x16P&\x08\x00\x00\x16P\x00\x00",
    // No file_offset.
    b"\x15\x02\x19,H\x06schema\x15\x02\x00\x15\x02%\x02\x18\x01a\x00\x16\x06\x19\x1c\x19\x1c<\x15\x02\x19%\x00\x06\x19\x18\x01a\x15\x00\x16\x06\x16P\x16P&\x08\x00\x00\x16P\x16\x06\x00\x00",
    // No meta_data.
    b"\x15\x02\x19,H\x06schema\x15\x02\x00\x15\x02%\x02\x18\x01a\x00\x16\x06\x19\x1c\x19\x1c&\x00\x00\x16P\x16\x06\x00\x00",
    // No type of a column.
    b"\x15\x02\x19,H\x06schema\x15\x02\x00\x15\x02%\x02\x18\x01a\x00\x16\x06\x19\x1c\x19\x1c&\x00\x1c)%\x00\x06\x19\x18\x01a\x15\x00\x16\x06\x16P\x16P&\x08\x00\x00\x16P\x16\x06\x00\x00",
    // No encodings of a column.
    b"\x15\x02\x19,H\x06schema\x15\x02\x00\x15\x02%\x02\x18\x01a\x00\x16\x06\x19\x1c\x19\x1c&\x00\x1c\x15\x02)\x18\x01a\x15\x00\x16\x06\x16P\x16P&\x08\x00\x00\x16P\x16\x06\x00\x00",
    // No path_in_schema of a column.
    b"\x15\x02\x19,H\x06schema\x15\x02\x00\x15\x02%\x02\x18\x01a\x00\x16\x06\x19\x1c\x19\x1c&\x00\x1c\x15\x02\x19%\x00\x06%\x00\x16\x06\x16P\x16P&\x08\x00\x00\x16P\x16\x06\x00\x00",
    // No codec of a column.
    b"\x15\x02\x19,H\x06schema\x15\x02\x00\x15\x02%\x02\x18\x01a\x00\x16\x06\x19\x1c\x19\x1c&\x00\x1c\x15\x02\x19%\x00\x06\x19\x18\x01a&\x06\x16P\x16P&\x08\x00\x00\x16P\x16\x06\x00\x00",
    // No num_values of a column.
    b"\x15\x02\x19,H\x06schema\x15\x02\x00\x15\x02%\x02\x18\x01a\x00\x16\x06\x19\x1c\x19\x1c&\x00\x1c\x15\x02\x19%\x00\x06\x19\x18\x01a\x15\x00&P\x16P&\x08\x00\x00\x16P\x16\x06\x00\x00",
    // No total_uncompressed_size of a column.
    b"\x15\x02\x19,H\x06schema\x15\x02\x00\x15\x02%\x02\x18\x01a\x00\x16\x06\x19\x1c\x19\x1c&\x00\x1c\x15\x02\x19%\x00\x06\x19\x18\x01a\x15\x00\x16\x06&P&\x08\x00\x00\x16P\x16\x06\x00\x00",
    // No total_compressed_size of a column.
    b"\x15\x02\x19,H\x06schema\x15\x02\x00\x15\x02%\x02\x18\x01a\x00\x16\x06\x19\x1c\x19\x1c&\x00\x1c\x15\x02\x19%\x00\x06\x19\x18\x01a\x15\x00\x16\x06\x16P6\x08\x00\x00\x16P\x16\x06\x00\x00",
    // No data_page_offset of a column.
    b"\x15\x02\x19,H\x06schema\x15\x02\x00\x15\x02%\x02\x18\x01a\x00\x16\x06\x19\x1c\x19\x1c&\x00\x1c\x15\x02\x19%\x00\x06\x19\x18\x01a\x15\x00\x16\x06\x16P\x16P\x00\x00\x16P\x16\x06\x00\x00",
    // num_rows of 32 bits.
    b"\x15\x02\x19,H\x06schema\x15\x02\x00\x15\x02%\x02\x18\x01a\x00\x15\x06\x19\x1c\x19\x1c&\x00\x1c\x15\x02\x19%\x00\x06\x19\x18\x01a\x15\x00\x16\x06\x16P\x16P&\x08\x00\x00\x16P\x16\x06\x00\x00",
    // key-value metadata that is a list of numbers.
    b"\x15\x02\x19,H\x06schema\x15\x02\x00\x15\x02%\x02\x18\x01a\x00\x16\x06\x19\x1c\x19\x1c&\x00\x1c\x15\x02\x19%\x00\x06\x19\x18\x01a\x15\x00\x16\x06\x16P\x16P&\x08\x00\x00\x16P\x16\x06\x00\x19\x15\x02\x00",
    // created_by that is a number.
    b"\x15\x02\x19,H\x06schema\x15\x02\x00\x15\x02%\x02\x18\x01a\x00\x16\x06\x19\x1c\x19\x1c&\x00\x1c\x15\x02\x19%\x00\x06\x19\x18\x01a\x15\x00\x16\x06\x16P\x16P&\x08\x00\x00\x16P\x16\x06\x00%\x02\x00",
    // A set where a list stands.
    b"\x15\x02\x19,H\x06schema\x15\x02\x00\x15\x02%\x02\x18\x01a\x00\x16\x06\x1a\x0c\x00",
    // Encodings of 64 bits.
    b"\x15\x02\x19,H\x06schema\x15\x02\x00\x15\x02%\x02\x18\x01a\x00\x16\x06\x19\x1c\x19\x1c&\x00\x1c\x15\x02\x19\x16\x00\x19\x18\x01a\x15\x00\x16\x06\x16P\x16P&\x08\x00\x00\x16P\x16\x06\x00\x00",
    // The last of two fields of another type.
    b"\x15\x02\x19,H\x06schema\x15\x02\x00\x15\x02%\x02\x18\x01a\x00\x16\x06\x19\x1c\x19\x1c&\x00\x1c\x15\x02\x19%\x00\x06\x19\x18\x01a\x15\x00\x16\x06\x16P\x16P&\x08\x00\x00\x16P\x16\x06\x00\x08\x06\x01x\x00",
    // A list of no elements for a schema.
    b"\x15\x02\x19\x0c\x16\x00\x19\x0c\x00",
    // A child too few.
    b"\x15\x02\x19,H\x06schema\x15\x04\x00\x15\x02%\x02\x18\x01a\x00\x16\x00\x19\x0c\x00",
    // A child too many.
    b"\x15\x02\x19<H\x06schema\x15\x02\x00\x15\x02%\x02\x18\x01a\x00\x15\x02%\x02\x18\x01a\x00\x16\x00\x19\x0c\x00",
    // Two elements below a root of none.
    b"\x15\x02\x19,H\x06schema\x00\x15\x02%\x02\x18\x01a\x00\x16\x00\x19\x0c\x00",
    // A group one short.
    b"\x15\x02\x19<H\x06schema\x15\x02\x005\x00\x18\x01g\x15\x04\x00\x15\x02%\x02\x18\x01a\x00\x16\x00\x19\x0c\x00",
    // A negative number of children.
    b"\x15\x02\x19\x1cH\x06schema\x15\x01\x00\x16\x00\x19\x0c\x00",
    // A great number of children.
    b"\x15\x02\x19,H\x06schema\x15\xfe\xff\xff\xff\x0f\x00\x15\x02%\x02\x18\x01a\x00\x16\x00\x19\x0c\x00",
    // No repetition of a leaf.
    b"\x15\x02\x19,H\x06schema\x15\x02\x00\x15\x028\x01a\x00\x16\x00\x19\x0c\x00",
    // No repetition of a group.
    b"\x15\x02\x19<H\x06schema\x15\x02\x00H\x01g\x15\x02\x00\x15\x02%\x02\x18\x01a\x00\x16\x00\x19\x0c\x00",
    // Repetition 3.
    b"\x15\x02\x19,H\x06schema\x15\x02\x00\x15\x02%\x06\x18\x01a\x00\x16\x00\x19\x0c\x00",
    // No type of a leaf.
    b"\x15\x02\x19,H\x06schema\x15\x02\x005\x02\x18\x01a\x00\x16\x00\x19\x0c\x00",
    // Type 8.
    b"\x15\x02\x19,H\x06schema\x15\x02\x00\x15\x10%\x02\x18\x01a\x00\x16\x00\x19\x0c\x00",
    // Type 7 without a length.
    b"\x15\x02\x19,H\x06schema\x15\x02\x00\x15\x0e%\x02\x18\x01a\x00\x16\x00\x19\x0c\x00",
    // Type 7 of length 0.
    b"\x15\x02\x19,H\x06schema\x15\x02\x00\x15\x0e\x15\x00\x15\x02\x18\x01a\x00\x16\x00\x19\x0c\x00",
    // A STRING that is a number.
    b"\x15\x02\x19,H\x06schema\x15\x02\x00\x15\x0c%\x00\x18\x01al\x15\x02\x00\x00\x16\x00\x19\x0c\x00",
    // A chunk too few.
    b"\x15\x02\x19,H\x06schema\x15\x02\x00\x15\x02%\x02\x18\x01a\x00\x16\x06\x19\x1c\x19\x0c\x16P\x16\x06\x00\x00",
    // A chunk too many.
    b"\x15\x02\x19,H\x06schema\x15\x02\x00\x15\x02%\x02\x18\x01a\x00\x16\x06\x19\x1c\x19,&\x00\x1c\x15\x02\x19%\x00\x06\x19\x18\x01a\x15\x00\x16\x06\x16P\x16P&\x08\x00\x00&\x00\x1c\x15\x02\x19%\x00\x06\x19\x18\x01a\x15\x00\x16\x06\x16P\x16P&\x08\x00\x00\x16P\x16\x06\x00\x00",
    // A chunk of another type.
    b"\x15\x02\x19,H\x06schema\x15\x02\x00\x15\x02%\x02\x18\x01a\x00\x16\x06\x19\x1c\x19\x1c&\x00\x1c\x15\x04\x19%\x00\x06\x19\x18\x01a\x15\x00\x16\x06\x16P\x16P&\x08\x00\x00\x16P\x16\x06\x00\x00",
    // A chunk in another file.
    b"\x15\x02\x19,H\x06schema\x15\x02\x00\x15\x02%\x02\x18\x01a\x00\x16\x06\x19\x1c\x19\x1c\x18\x01f\x16\x00\x1c\x15\x02\x19%\x00\x06\x19\x18\x01a\x15\x00\x16\x06\x16P\x16P&\x08\x00\x00\x16P\x16\x06\x00\x00",
    // Negative rows that add up.
    b"\x15\x02\x19,H\x06schema\x15\x02\x00\x15\x02%\x02\x18\x01a\x00\x16\x06\x19,\x19\x1c&\x00\x1c\x15\x02\x19%\x00\x06\x19\x18\x01a\x15\x00\x16\x06\x16P\x16P&\x08\x00\x00\x16P\x16\x08\x00\x19\x1c&\x00\x1c\x15\x02\x19%\x00\x06\x19\x18\x01a\x15\x00\x16\x06\x16P\x16P&\x08\x00\x00\x16P\x16\x01\x00\x00",
    // Rows that do not add up.
    b"\x15\x02\x19,H\x06schema\x15\x02\x00\x15\x02%\x02\x18\x01a\x00\x16\x08\x19\x1c\x19\x1c&\x00\x1c\x15\x02\x19%\x00\x06\x19\x18\x01a\x15\x00\x16\x06\x16P\x16P&\x08\x00\x00\x16P\x16\x06\x00\x00",
    // Rows past 2^63.
    b"\x15\x02\x19,H\x06schema\x15\x02\x00\x15\x02%\x02\x18\x01a\x00\x16\x03\x19,\x19\x1c&\x00\x1c\x15\x02\x19%\x00\x06\x19\x18\x01a\x15\x00\x16\x06\x16P\x16P&\x08\x00\x00\x16P\x16\xfe\xff\xff\xff\xff\xff\xff\xff\xff\x01\x00\x19\x1c&\x00\x1c\x15\x02\x19%\x00\x06\x19\x18\x01a\x15\x00\x16\x06\x16P\x16P&\x08\x00\x00\x16P\x16\xfe\xff\xff\xff\xff\xff\xff\xff\xff\x01\x00\x00",
];

/// Page headers, and what is kept of them.
const HEADERS: &[(&[u8], &str)] = &[
    // A data page.
    (
        b"\x15\x00\x15\x16\x15\x16,\x15\x04\x15\x00\x15\x06\x15\x06\x00\x00",
        "PageHeader { kind: 0, unpacked: 11, packed: 11, page: Some(PageV1 { values: 2, encoding: 0, definition: 3, repetition: 3 }), dictionary: None, page_v2: None }",
    ),
    // With a checksum, statistics and a field that no one knows.
    (
        b"\x15\x00\x15\x16\x15\x16\x15\x11\x1c\x15\x04\x15\x00\x15\x06\x15\x06\x1c\x18\x01z&\x02(\x01q\x00\x00H\x01x\x00",
        "PageHeader { kind: 0, unpacked: 11, packed: 11, page: Some(PageV1 { values: 2, encoding: 0, definition: 3, repetition: 3 }), dictionary: None, page_v2: None }",
    ),
    // An index page.
    (
        b"\x15\x02\x15\x08\x15\x06<\x00\x00",
        "PageHeader { kind: 1, unpacked: 4, packed: 3, page: None, dictionary: None, page_v2: None }",
    ),
    // A dictionary page, told to be sorted.
    (
        b"\x15\x04\x15\x18\x15\x18L\x15\x06\x15\x00\x12\x00\x00",
        "PageHeader { kind: 2, unpacked: 12, packed: 12, page: None, dictionary: Some(DictionaryPage { values: 3, encoding: 0 }), page_v2: None }",
    ),
    // A data page of the second version.
    (
        b"\x15\x06\x15\x18\x15\x18\x5c\x15\x06\x15\x02\x15\x06\x15\x00\x15\x08\x15\x00\x11\x1c\x18\x01z&\x02(\x01q\x00\x00\x00",
        "PageHeader { kind: 3, unpacked: 12, packed: 12, page: None, dictionary: None, page_v2: Some(PageV2 { values: 3, nulls: 1, rows: 3, encoding: 0, definition_bytes: 4, repetition_bytes: 0 }) }",
    ),
    // All at once, and numbers that are not judged.
    (
        b"\x15\x12\x15\x01\x15\x03,\x15\x04\x15\x00\x15\x06\x15\x06\x00,\x15\x06\x15\x00\x00\x1c\x15\x06\x15\x02\x15\x06\x15\x00\x15\x08\x15\x00\x00\x00",
        "PageHeader { kind: 9, unpacked: -1, packed: -2, page: Some(PageV1 { values: 2, encoding: 0, definition: 3, repetition: 3 }), dictionary: Some(DictionaryPage { values: 3, encoding: 0 }), page_v2: Some(PageV2 { values: 3, nulls: 1, rows: 3, encoding: 0, definition_bytes: 4, repetition_bytes: 0 }) }",
    ),
];

/// Bytes at whose front no page header stands.
const BAD_HEADERS: &[&[u8]] = &[
    // No type.
    b"%\x16\x15\x16\x00",
    // No uncompressed_page_size.
    b"\x15\x00%\x16\x00",
    // No compressed_page_size.
    b"\x15\x00\x15\x16\x00",
    // No field 1 of a data page.
    b"\x15\x00\x15\x02\x15\x02,%\x00\x15\x06\x15\x06\x00\x00",
    // No field 2 of a data page.
    b"\x15\x00\x15\x02\x15\x02,\x15\x04%\x06\x15\x06\x00\x00",
    // No field 3 of a data page.
    b"\x15\x00\x15\x02\x15\x02,\x15\x04\x15\x00%\x06\x00\x00",
    // No field 4 of a data page.
    b"\x15\x00\x15\x02\x15\x02,\x15\x04\x15\x00\x15\x06\x00\x00",
    // No field 1 of a dictionary page.
    b"\x15\x00\x15\x02\x15\x02L%\x00\x00\x00",
    // No field 2 of a dictionary page.
    b"\x15\x00\x15\x02\x15\x02L\x15\x06\x00\x00",
    // No field 1 of a data page of the second version.
    b"\x15\x00\x15\x02\x15\x02\x5c%\x02\x15\x06\x15\x00\x15\x08\x15\x00\x00\x00",
    // No field 2 of a data page of the second version.
    b"\x15\x00\x15\x02\x15\x02\x5c\x15\x06%\x06\x15\x00\x15\x08\x15\x00\x00\x00",
    // No field 3 of a data page of the second version.
    b"\x15\x00\x15\x02\x15\x02\x5c\x15\x06\x15\x02%\x00\x15\x08\x15\x00\x00\x00",
    // No field 4 of a data page of the second version.
    b"\x15\x00\x15\x02\x15\x02\x5c\x15\x06\x15\x02\x15\x06%\x08\x15\x00\x00\x00",
    // No field 5 of a data page of the second version.
    b"\x15\x00\x15\x02\x15\x02\x5c\x15\x06\x15\x02\x15\x06\x15\x00%\x00\x00\x00",
    // No field 6 of a data page of the second version.
    b"\x15\x00\x15\x02\x15\x02\x5c\x15\x06\x15\x02\x15\x06\x15\x00\x15\x08\x00\x00",
    // A size of 64 bits.
    b"\x15\x00\x16\x02\x15\x02\x00",
    // A checksum that is a text.
    b"\x15\x00\x15\x02\x15\x02\x18\x01x\x00",
    // An index page header that is a list.
    b"\x15\x00\x15\x02\x15\x029\x0c\x00",
    // is_sorted that is a number.
    b"\x15\x00\x15\x02\x15\x02L\x15\x06\x15\x00\x15\x02\x00\x00",
];

fn footer_text(alloc: Global, bytes: &[u8]) -> Result<String, MetaFault> {
    let footer = read_footer(alloc, bytes)?;
    Ok(format!(in alloc; "{footer:?}")?)
}

fn is_bad_footer(alloc: Global, bytes: &[u8]) -> bool {
    matches!(read_footer(alloc, bytes), Err(MetaFault::BadFooter))
}

/// The page header at the front as a text, and its length.
fn header_text(alloc: Global, bytes: &[u8]) -> Result<(String, usize), MetaFault> {
    let (header, size) = read_page_header(alloc, bytes)?;
    Ok((format!(in alloc; "{header:?}")?, size))
}

fn is_bad_header(alloc: Global, bytes: &[u8]) -> bool {
    matches!(read_page_header(alloc, bytes), Err(MetaFault::BadFooter))
}

#[test]
fn footers_are_read(rt: HostRuntime) -> Result<(), Fail> {
    let alloc = rt.alloc();
    for (bytes, shown) in FOOTERS {
        let text = footer_text(alloc, bytes)?;
        assert_eq!(rt; text.as_str(), *shown);
        let mut longer = Vec::from_slice(alloc, bytes)?;
        longer.push(0)?;
        assert!(rt; is_bad_footer(alloc, &longer));
    }
    Ok(())
}

#[test]
fn bad_footers_are_refused(rt: HostRuntime) {
    for bytes in BAD_FOOTERS {
        assert!(rt; is_bad_footer(rt.alloc(), bytes), "{bytes:?}");
    }
}

#[test]
fn page_headers_are_read(rt: HostRuntime) -> Result<(), Fail> {
    let alloc = rt.alloc();
    for (bytes, shown) in HEADERS {
        let mut longer = Vec::from_slice(alloc, bytes)?;
        longer.push(0xff)?;
        let (text, size) = header_text(alloc, &longer)?;
        assert_eq!(rt; text.as_str(), *shown);
        assert_eq!(rt; size, bytes.len());
    }
    Ok(())
}

#[test]
fn bad_page_headers_are_refused(rt: HostRuntime) {
    for bytes in BAD_HEADERS {
        assert!(rt; is_bad_header(rt.alloc(), bytes), "{bytes:?}");
    }
}

/// A footer of one leaf and no row group.
fn sample(alloc: Global) -> Result<Footer, AllocError>
    ensures { IfOk result (λ footer. IsWritableFooter footer) }
{
    let leaf = LeafSchema {
        name: SharedBytes::new(alloc, Items::from_slice(alloc, b"a")?)?,
        top: true,
        physical: 7,
        length: 3,
        optional: true,
        repeated: false,
        annotation: Annotation {
            converted: Some(5),
            scale: Some(2),
            precision: Some(6),
            logical: Logical::Timestamp { unit: 2 },
        },
        field_id: Some(-4),
    };
    Ok(Footer {
        rows: 0,
        leaves: Items::from_vec(vec![in alloc; leaf]?),
        groups: Items::new(alloc),
    })
}

#[test]
fn a_footer_is_written(rt: HostRuntime) -> Result<(), Fail> {
    let alloc = rt.alloc();
    let mut out = Items::new(alloc);
    write_footer(alloc, &sample(alloc)?, &mut out)?;
    let wanted: &[u8] =
        b"\x15\x02\x19,H\x06schema\x15\x02\x00\x15\x0e\x15\x06\x15\x02\x18\x01a%\x0a\x15\x04\x15\x0c\x15\x07\x1c\x8c,,\x00\x00\x00\x00\x00\x16\x00\x19\x0c(\x0adeltamerge\x00";
    assert_eq!(rt; out.as_slice(), wanted);
    Ok(())
}

/// A footer of one group under a name of 512 KiB, and 65,536 leaves below it.
fn long_footer(alloc: Global) -> Result<Vec<u8>, AllocError> {
    let mut bytes = Vec::from_slice(
        alloc,
        b"\x15\x02\x19\xfc\x82\x80\x04H\x06schema\x15\x02\x005\x00\x18\x80\x80\x20",
    )?;
    bytes.extend_from_slice(&vec![in alloc; b'n'; 524_288]?)?;
    bytes.extend_from_slice(b"\x15\x80\x80\x08\x00")?;
    for _ in 0..65_536 {
        bytes.extend_from_slice(b"\x15\x02%\x02\x18\x01a\x00")?;
    }
    bytes.extend_from_slice(b"\x16\x00\x19\x0c\x00")?;
    Ok(bytes)
}

#[test]
fn leaves_share_the_name_at_the_top(rt: HostRuntime) -> Result<(), Fail> {
    let footer = read_footer(rt.alloc(), &long_footer(rt.alloc())?)?;
    assert_eq!(rt; footer.leaves.len(), 65_536);
    let last = footer.leaves.as_slice().last().ok_or("no leaf")?;
    let name = vec![in rt.alloc(); b'n'; 524_288]?;
    assert!(rt; last.name.as_slice() == name.as_slice());
    assert!(rt; last.name.clone()?.as_slice() == name.as_slice());
    assert!(rt; !last.top);
    Ok(())
}

#[test]
fn a_page_header_is_written(rt: HostRuntime) -> Result<(), Fail> {
    let alloc = rt.alloc();
    let header = PageHeader {
        kind: 0,
        unpacked: 11,
        packed: 11,
        page: Some(PageV1 {
            values: 2,
            encoding: 0,
            definition: 3,
            repetition: 3,
        }),
        dictionary: None,
        page_v2: None,
    };
    let mut out = Items::from_slice(alloc, b"P")?;
    write_page_header(alloc, &header, &mut out)?;
    let wanted: &[u8] = b"P\x15\x00\x15\x16\x15\x16\x2c\x15\x04\x15\x00\x15\x06\x15\x06\x00\x00";
    assert_eq!(rt; out.as_slice(), wanted);
    Ok(())
}
