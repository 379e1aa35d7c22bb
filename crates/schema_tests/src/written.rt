// The texts that are written for schemas, and that they are read back.
use delta_schema::{ColumnDef, IdentityRule, TableSchema, read_schema, write_schema};
use dm_types::{DataType, Items, Text, TextList, TextPairs};
use std::alloc::{AllocError, Global};
use std::test::Fail;

/// Each type that a column may have, by its name.
const TYPES: [(DataType, &str); 12] = [
    (DataType::Boolean, "boolean"),
    (DataType::Byte, "byte"),
    (DataType::Short, "short"),
    (DataType::Integer, "integer"),
    (DataType::Long, "long"),
    (DataType::Str, "string"),
    (DataType::Binary, "binary"),
    (DataType::Date, "date"),
    (DataType::Timestamp, "timestamp"),
    (
        DataType::Decimal {
            precision: 1,
            scale: 0,
        },
        "decimal(1,0)",
    ),
    (
        DataType::Decimal {
            precision: 38,
            scale: 10,
        },
        "decimal(38,10)",
    ),
    (
        DataType::Decimal {
            precision: 10,
            scale: 9,
        },
        "decimal(10,9)",
    ),
];

/// Texts that are written again byte for byte, and the partition columns.
const KEPT: [(&str, &[&str]); 6] = [
    (
        r#"{"fields":[{"metadata":{},"name":"a","nullable":false,"type":"long"}],"type":"struct"}"#,
        &[],
    ),
    (
        r#"{"fields":[{"metadata":{"delta.generationExpression":"b + 1"},"name":"a","nullable":true,"type":"integer"},{"metadata":{"delta.columnMapping.id":-7,"delta.columnMapping.physicalName":"col-\"1\""},"name":"b\né","nullable":false,"type":"decimal(9,2)"}],"type":"struct"}"#,
        &["a"],
    ),
    (
        r#"{"fields":[{"metadata":{"delta.identity.allowExplicitInsert":true,"delta.identity.highWaterMark":-9223372036854775808,"delta.identity.start":9223372036854775807,"delta.identity.step":-2},"name":"a","nullable":true,"type":"long"}],"type":"struct"}"#,
        &[],
    ),
    (
        r#"{"fields":[{"metadata":{"delta.identity.allowExplicitInsert":false,"delta.identity.start":0,"delta.identity.step":1},"name":"a","nullable":true,"type":"long"}],"type":"struct"}"#,
        &[],
    ),
    // members of an identity without one, and others before, among and behind the column's own
    (
        r#"{"fields":[{"metadata":{"comment":"[1]","delta.columnMapping.id":1,"delta.columnMapping.physicalName":"p","delta.columnMapping.x":[1,{"a":null,"b":-5}],"delta.identity.highWaterMark":3,"z":true},"name":"a","nullable":true,"type":"string"}],"type":"struct"}"#,
        &[],
    ),
    (
        r#"{"fields":[{"metadata":{"comment":"x"},"name":"a","nullable":true,"type":"date"},{"metadata":{"":{}},"name":"b","nullable":true,"type":"timestamp"}],"type":"struct"}"#,
        &["b"],
    ),
];

/// A text that another writer made, and what is written for its columns.
const OTHER: &str =
    r#" {"type":"struct","more":1.5,"fields":[{"name":"a","type":"long","nullable":true,"metadata":{"z":[1,{"y":1,"x":null}],"comment":"A"}},{"name":"b","type":"date","nullable":false}]}"#;

const AGAIN: &str =
    r#"{"fields":[{"metadata":{"comment":"A","z":[1,{"x":null,"y":1}]},"name":"a","nullable":true,"type":"long"},{"metadata":{},"name":"b","nullable":false,"type":"date"}],"type":"struct"}"#;

fn text_of(alloc: Global, text: &str) -> Result<Option<Text>, AllocError> {
    Ok(Some(Text::from_str(alloc, text)?))
}

// A column that has nothing but its name and its type.
fn plain(alloc: Global, name: &str, kind: DataType) -> Result<ColumnDef, AllocError> {
    Ok(ColumnDef {
        name: Text::from_str(alloc, name)?,
        kind,
        nullable: true,
        partition: false,
        id: None,
        physical: None,
        generation: None,
        identity: None,
        invariant: false,
        other: TextPairs::new(alloc),
    })
}

// The text of a table with this column alone.
fn written(alloc: Global, column: ColumnDef) -> Result<Text, AllocError> {
    let mut schema = TableSchema::new(alloc);
    schema.push(column)?;
    write_schema(alloc, &schema)
}

fn read(alloc: Global, text: &str, partitions: &[&str]) -> Result<Option<TableSchema>, AllocError> {
    let text = Text::from_str(alloc, text)?;
    let mut names: TextList = Items::new(alloc);
    for name in partitions {
        names.push(Text::from_str(alloc, name)?)?;
    }
    Ok(read_schema(alloc, &text, &names).ok())
}

// What is written for the columns of a text.
fn again(alloc: Global, text: &str, partitions: &[&str]) -> Result<Option<Text>, AllocError> {
    match read(alloc, text, partitions)? {
        Some(schema) => Ok(Some(write_schema(alloc, &schema)?)),
        None => Ok(None),
    }
}

#[test]
fn each_type_is_named(rt: HostRuntime) -> Result<(), Fail> {
    let alloc = rt.alloc();
    for (kind, name) in TYPES {
        let text = written(alloc, plain(alloc, "a", kind)?)?;
        let expected = format!(in alloc;
            "{{\"fields\":[{{\"metadata\":{{}},\"name\":\"a\",\"nullable\":true,\"type\":\"{name}\"}}],\"type\":\"struct\"}}"
        )?;
        assert_eq!(rt; text.as_str(), expected.as_str());
        let kept = again(alloc, text.as_str(), &[])?;
        assert_eq!(rt; kept.map(|kept| kept.len()), Some(text.len()), "{name}");
    }
    Ok(())
}

#[test]
fn texts_in_order_are_kept(rt: HostRuntime) -> Result<(), Fail> {
    let alloc = rt.alloc();
    for (text, partitions) in KEPT {
        let found = again(alloc, text, partitions)?;
        assert_eq!(rt; found.as_ref().map(|found| found.as_str()), Some(text));
    }
    let found = again(alloc, OTHER, &["b"])?;
    assert_eq!(rt; found.as_ref().map(|found| found.as_str()), Some(AGAIN));
    Ok(())
}

#[test]
fn each_member_is_written(rt: HostRuntime) -> Result<(), Fail> {
    let alloc = rt.alloc();
    let mut column = plain(alloc, "a", DataType::Long)?;
    column.nullable = false;
    column.partition = true;
    column.id = Some(2147483647);
    column.physical = text_of(alloc, "p")?;
    column.generation = text_of(alloc, "1")?;
    column.identity = Some(IdentityRule {
        start: -1,
        step: 2,
        mark: Some(3),
        explicit: true,
    });
    let comment = Text::from_str(alloc, "comment")?;
    column
        .other
        .push((comment, Text::from_str(alloc, "[ 1 ]")?))?;
    let text = written(alloc, column)?;
    assert_eq!(rt;
        text.as_str(),
        r#"{"fields":[{"metadata":{"comment":[1],"delta.columnMapping.id":2147483647,"delta.columnMapping.physicalName":"p","delta.generationExpression":"1","delta.identity.allowExplicitInsert":true,"delta.identity.highWaterMark":3,"delta.identity.start":-1,"delta.identity.step":2},"name":"a","nullable":false,"type":"long"}],"type":"struct"}"#
    );
    Ok(())
}

#[test]
fn what_no_member_can_say_is_left_out(rt: HostRuntime) -> Result<(), Fail> {
    let alloc = rt.alloc();
    for text in ["", "x", "1 2", "1.5", "[9223372036854775808]"] {
        let mut column = plain(alloc, "a", DataType::Str)?;
        column.invariant = true;
        let name = Text::from_str(alloc, "comment")?;
        column.other.push((name, Text::from_str(alloc, text)?))?;
        let found = written(alloc, column)?;
        let expected =
            r#"{"fields":[{"metadata":{},"name":"a","nullable":true,"type":"string"}],"type":"struct"}"#;
        assert_eq!(rt; found.as_str(), expected, "{text}");
    }
    Ok(())
}
