// Schema texts as other writers make them, types that no column may have, and texts that are no schema.
use delta_schema::{ColumnDef, SchemaFault, TableSchema, read_schema};
use dm_types::{Items, Text, TextList};
use std::alloc::{AllocError, Global};
use std::test::Fail;

/// Schema texts, the partition columns, and the columns.
const GOOD: [(&str, &[&str], &str); 15] = [
    // as Spark's writer logs it
    (
        r#"{"type":"struct","fields":[{"name":"id","type":"long","nullable":true,"metadata":{"delta.identity.start":1,"delta.identity.step":1,"delta.identity.highWaterMark":12,"delta.identity.allowExplicitInsert":false}},{"name":"eventTime","type":"timestamp","nullable":true,"metadata":{"comment":"when it came"}},{"name":"eventDate","type":"date","nullable":true,"metadata":{"delta.generationExpression":"CAST(eventTime AS DATE)"}},{"name":"price","type":"decimal(10,2)","nullable":false,"metadata":{}}]}"#,
        &["eventDate"],
        "id Long null start=1 step=1 mark=Some(12) explicit=false\n\
         eventTime Timestamp null comment=\"when it came\"\n\
         eventDate Date null partition generated=CAST(eventTime AS DATE)\n\
         price Decimal { precision: 10, scale: 2 }\n",
    ),
    // as Spark's writer logs it with columns mapped by name
    (
        r#"{"type":"struct","fields":[{"name":"a","type":"string","nullable":true,"metadata":{"delta.columnMapping.id":1,"delta.columnMapping.physicalName":"col-5f422f40-de70-45b2-88ab-1d5c90e94db1"}},{"name":"b","type":"binary","nullable":false,"metadata":{"delta.columnMapping.id":-2147483648,"delta.columnMapping.physicalName":""}}]}"#,
        &[],
        "a Str null id=1 physical=col-5f422f40-de70-45b2-88ab-1d5c90e94db1\n\
         b Binary id=-2147483648 physical=\n",
    ),
    // as delta-rs writes it
    (
        r#"{"type":"struct","fields":[{"name":"year","type":"integer","nullable":true,"metadata":{}},{"name":"flag","type":"boolean","nullable":true,"metadata":{}},{"name":"tiny","type":"byte","nullable":true,"metadata":{}},{"name":"small","type":"short","nullable":true,"metadata":{}}]}"#,
        &["year", "flag", "year"],
        "year Integer null partition\nflag Boolean null partition\ntiny Byte null\nsmall Short null\n",
    ),
    // members that aren't read, an absent and a null metadata, equal names, white space
    (
        " { \"fields\" : [ { \"nullable\" : true , \"name\" : \"b\" , \"name\" : \"A\\u00e9\" , \"type\" : \"long\" , \"metadata\" : null , \"x\" : 1.5 } , {\"name\":\"B\",\"type\":\"date\",\"nullable\":false} ] , \"type\" : \"struct\" , \"more\" : [ 1e5 ] } ",
        &[],
        "Aé Long null\nB Date\n",
    ),
    // other members of metadata, in byte order
    (
        r#"{"type":"struct","fields":[{"name":"a","type":"string","nullable":true,"metadata":{"z":[1,{"y":-9223372036854775808,"x":null}],"__CHAR_VARCHAR_TYPE_STRING":"varchar(5)","delta.invariants":{"expression":1},"Delta.Invariants":"\n"}}]}"#,
        &[],
        "a Str null invariant Delta.Invariants=\"\\n\" __CHAR_VARCHAR_TYPE_STRING=\"varchar(5)\" z=[1,{\"x\":null,\"y\":-9223372036854775808}]\n",
    ),
    // an invariant that is null is there
    (
        r#"{"type":"struct","fields":[{"name":"a","type":"string","nullable":true,"metadata":{"delta.invariants":null}}]}"#,
        &[],
        "a Str null invariant\n",
    ),
    // identities without a member, or with a step of 0: the members stay
    (
        r#"{"type":"struct","fields":[{"name":"a","type":"long","nullable":true,"metadata":{"delta.identity.start":1,"delta.identity.step":0,"delta.identity.allowExplicitInsert":true}},{"name":"b","type":"string","nullable":true,"metadata":{"delta.identity.highWaterMark":5}}]}"#,
        &[],
        "a Long null delta.identity.allowExplicitInsert=true delta.identity.start=1 delta.identity.step=0\n\
         b Str null delta.identity.highWaterMark=5\n",
    ),
    (
        r#"{"type":"struct","fields":[{"name":"a","type":"long","nullable":true,"metadata":{"delta.identity.step":-2,"delta.identity.allowExplicitInsert":true}},{"name":"b","type":"long","nullable":true,"metadata":{"delta.identity.start":1,"delta.identity.allowExplicitInsert":true}},{"name":"c","type":"long","nullable":true,"metadata":{"delta.identity.start":1,"delta.identity.step":-2}}]}"#,
        &[],
        "a Long null delta.identity.allowExplicitInsert=true delta.identity.step=-2\n\
         b Long null delta.identity.allowExplicitInsert=true delta.identity.start=1\n\
         c Long null delta.identity.start=1 delta.identity.step=-2\n",
    ),
    (
        r#"{"type":"struct","fields":[{"name":"a","type":"long","nullable":true,"metadata":{"delta.identity.start":-5,"delta.identity.step":-2,"delta.identity.allowExplicitInsert":true}}]}"#,
        &[],
        "a Long null start=-5 step=-2 mark=None explicit=true\n",
    ),
    // the least and the greatest decimals
    (
        r#"{"type":"struct","fields":[{"name":"a","type":"decimal(1,0)","nullable":true},{"name":"b","type":"decimal(38,38)","nullable":true},{"name":"c","type":"decimal(10,10)","nullable":true}]}"#,
        &[],
        "a Decimal { precision: 1, scale: 0 } null\n\
         b Decimal { precision: 38, scale: 38 } null\n\
         c Decimal { precision: 10, scale: 10 } null\n",
    ),
    // types that no column may have: the first is named
    (
        r#"{"type":"struct","fields":[{"name":"a","type":"string","nullable":true},{"name":"x","type":"double","nullable":true},{"name":"y","type":"float","nullable":true}]}"#,
        &["x"],
        "unsupported x",
    ),
    (
        r#"{"type":"struct","fields":[{"name":"a","type":{"type":"struct","fields":[{"name":"b","type":"integer","nullable":false,"metadata":{}}]},"nullable":true,"metadata":{}}]}"#,
        &[],
        "unsupported a",
    ),
    (
        r#"{"type":"struct","fields":[{"name":"a","type":"long","nullable":true,"metadata":{}},{"name":"b","type":"long","nullable":true,"metadata":{}},{"name":"e","type":{"type":"array","elementType":"integer","containsNull":false},"nullable":true,"metadata":{}}]}"#,
        &["a"],
        "unsupported e",
    ),
    (
        r#"{"type":"struct","fields":[{"name":"f","type":{"type":"map","keyType":"string","valueType":"string","valueContainsNull":true},"nullable":true,"metadata":{}}]}"#,
        &[],
        "unsupported f",
    ),
    // what is no schema comes before a type, whatever the column
    (
        r#"{"type":"struct","fields":[{"name":"a","type":"double","nullable":true},{"name":"","type":"long","nullable":true}]}"#,
        &[],
        "bad",
    ),
];

/// Names of types that no column may have.
const OTHER_TYPES: [&str; 30] = [
    "",
    "String",
    "LONG",
    "int",
    "bigint",
    " long",
    "long ",
    "float",
    "double",
    "timestamp_ntz",
    "variant",
    "void",
    "decimal",
    "decimal()",
    "decimal(0,0)",
    "decimal(39,0)",
    "decimal(38,39)",
    "decimal(5,6)",
    "decimal(5)",
    "decimal(5,)",
    "decimal(,5)",
    "decimal(5,2",
    "decimal(5, 2)",
    "decimal( 5,2)",
    "decimal(05,2)",
    "decimal(5,02)",
    "decimal(5,2))",
    "decimal(5,2,1)",
    "decimal(100,0)",
    "Decimal(5,2)",
];

/// Texts that are no schema of a table without partition columns.
const BAD: [&str; 19] = [
    "",
    "struct",
    "[]",
    "null",
    "{}",
    r#"{"type":"struct"}"#,
    r#"{"fields":[{"name":"a","type":"long","nullable":true}]}"#,
    r#"{"type":"Struct","fields":[{"name":"a","type":"long","nullable":true}]}"#,
    r#"{"type":{"type":"struct"},"fields":[{"name":"a","type":"long","nullable":true}]}"#,
    r#"{"type":"struct","fields":null}"#,
    r#"{"type":"struct","fields":{"name":"a","type":"long","nullable":true}}"#,
    r#"{"type":"struct","fields":[]}"#,
    r#"{"type":"struct","fields":[null]}"#,
    r#"{"type":"struct","fields":["a"]}"#,
    r#"{"type":"struct","fields":[{"name":"a","type":"long","nullable":true}]} x"#,
    // two names that are equal up to case
    r#"{"type":"struct","fields":[{"name":"a","type":"long","nullable":true},{"name":"a","type":"date","nullable":true}]}"#,
    r#"{"type":"struct","fields":[{"name":"Zone","type":"long","nullable":true},{"name":"b","type":"date","nullable":true},{"name":"zONE","type":"date","nullable":true}]}"#,
    r#"{"type":"struct","fields":[{"name":"[\u00e9","type":"long","nullable":true},{"name":"{","type":"double","nullable":true},{"name":"[\u00e9","type":"date","nullable":true}]}"#,
    r#"{"type":"struct","fields":[{"name":"a","type":"long","nullable":true},{"name":"","type":"date","nullable":true}]}"#,
];

/// Fields that make a schema no schema.
const BAD_FIELDS: [&str; 36] = [
    r#"{"type":"long","nullable":true}"#,
    r#"{"name":null,"type":"long","nullable":true}"#,
    r#"{"name":1,"type":"long","nullable":true}"#,
    r#"{"name":"","type":"long","nullable":true}"#,
    r#"{"name":"OK","type":"long","nullable":true}"#,
    r#"{"name":"a","nullable":true}"#,
    r#"{"name":"a","type":null,"nullable":true}"#,
    r#"{"name":"a","type":1,"nullable":true}"#,
    r#"{"name":"a","type":true,"nullable":true}"#,
    r#"{"name":"a","type":["long"],"nullable":true}"#,
    r#"{"name":"a","type":"long"}"#,
    r#"{"name":"a","type":"long","nullable":null}"#,
    r#"{"name":"a","type":"long","nullable":"true"}"#,
    r#"{"name":"a","type":"long","nullable":true,"metadata":[]}"#,
    r#"{"name":"a","type":"long","nullable":true,"metadata":"{}"}"#,
    r#"{"name":"a","type":"long","nullable":true,"metadata":{"x":1.0}}"#,
    r#"{"name":"a","type":"long","nullable":true,"metadata":{"x":-0}}"#,
    r#"{"name":"a","type":"long","nullable":true,"metadata":{"x":9223372036854775808}}"#,
    r#"{"name":"a","type":"long","nullable":true,"metadata":{"x":-9223372036854775809}}"#,
    r#"{"name":"a","type":"long","nullable":true,"metadata":{"x":[[{"y":[{"z":1e2}]}]]}}"#,
    r#"{"name":"a","type":"long","nullable":true,"metadata":{"delta.invariants":0.5}}"#,
    r#"{"name":"a","type":"long","nullable":true,"metadata":{"delta.generationExpression":1}}"#,
    r#"{"name":"a","type":"long","nullable":true,"metadata":{"delta.generationExpression":null}}"#,
    r#"{"name":"a","type":"long","nullable":true,"metadata":{"delta.columnMapping.physicalName":{}}}"#,
    r#"{"name":"a","type":"long","nullable":true,"metadata":{"delta.columnMapping.id":"1"}}"#,
    r#"{"name":"a","type":"long","nullable":true,"metadata":{"delta.columnMapping.id":null}}"#,
    r#"{"name":"a","type":"long","nullable":true,"metadata":{"delta.columnMapping.id":2147483648}}"#,
    r#"{"name":"a","type":"long","nullable":true,"metadata":{"delta.columnMapping.id":-2147483649}}"#,
    r#"{"name":"a","type":"long","nullable":true,"metadata":{"delta.identity.start":"1"}}"#,
    r#"{"name":"a","type":"long","nullable":true,"metadata":{"delta.identity.step":true}}"#,
    r#"{"name":"a","type":"long","nullable":true,"metadata":{"delta.identity.highWaterMark":null}}"#,
    r#"{"name":"a","type":"long","nullable":true,"metadata":{"delta.identity.allowExplicitInsert":1}}"#,
    // an identity on a column of another type
    r#"{"name":"a","type":"integer","nullable":true,"metadata":{"delta.identity.start":1,"delta.identity.step":1,"delta.identity.allowExplicitInsert":true}}"#,
    r#"{"name":"a","type":"double","nullable":true,"metadata":{"delta.identity.start":1,"delta.identity.step":1,"delta.identity.allowExplicitInsert":true}}"#,
    r#"{"name":"a","type":{},"nullable":true,"metadata":{"delta.identity.start":1,"delta.identity.step":1,"delta.identity.allowExplicitInsert":true}}"#,
    r#"{"name":"a","type":"binary","nullable":true,"metadata":{"delta.identity.start":1,"delta.identity.step":1,"delta.identity.allowExplicitInsert":true}}"#,
];

/// Partition columns that a table with the columns `a` and `b`, of type binary, can't have.
const BAD_PARTITIONS: [&[&str]; 6] = [&["c"], &["A"], &[""], &["a", "a "], &["b"], &["a", "b"]];

fn push_rule(alloc: Global, line: &mut String, column: &ColumnDef) -> Result<(), AllocError> {
    if let Some(rule) = &column.identity {
        let text = format!(in alloc;
            " start={} step={} mark={:?} explicit={}",
            rule.start, rule.step, rule.mark, rule.explicit
        )?;
        line.push_str(text.as_str())?;
    }
    if column.invariant {
        line.push_str(" invariant")?;
    }
    for (name, value) in column.other.as_slice() {
        let text = format!(in alloc; " {}={}", name.as_str(), value.as_str())?;
        line.push_str(text.as_str())?;
    }
    Ok(())
}

fn push_named(line: &mut String, name: &str, text: &Option<Text>) -> Result<(), AllocError> {
    if let Some(text) = text {
        line.push_str(name)?;
        line.push_str(text.as_str())?;
    }
    Ok(())
}

// A line of what a column has.
fn push_column(alloc: Global, line: &mut String, column: &ColumnDef) -> Result<(), AllocError> {
    let text = format!(in alloc; "{} {:?}", column.name.as_str(), column.kind)?;
    line.push_str(text.as_str())?;
    if column.nullable {
        line.push_str(" null")?;
    }
    if column.partition {
        line.push_str(" partition")?;
    }
    if let Some(id) = column.id {
        let text = format!(in alloc; " id={id}")?;
        line.push_str(text.as_str())?;
    }
    push_named(line, " physical=", &column.physical)?;
    push_named(line, " generated=", &column.generation)?;
    push_rule(alloc, line, column)?;
    line.push_str("\n")
}

fn shown(alloc: Global, columns: &TableSchema) -> Result<String, AllocError> {
    let mut lines = String::new(alloc);
    for column in columns.as_slice() {
        push_column(alloc, &mut lines, column)?;
    }
    Ok(lines)
}

fn read(
    alloc: Global,
    text: &str,
    partitions: &[&str],
) -> Result<Result<TableSchema, SchemaFault>, AllocError> {
    let text = Text::from_str(alloc, text)?;
    let mut names: TextList = Items::new(alloc);
    for name in partitions {
        names.push(Text::from_str(alloc, name)?)?;
    }
    Ok(read_schema(alloc, &text, &names))
}

// The columns that a text gives, or why it gives none.
fn outcome(alloc: Global, text: &str, partitions: &[&str]) -> Result<String, AllocError> {
    match read(alloc, text, partitions)? {
        Ok(columns) => shown(alloc, &columns),
        Err(SchemaFault::BadSchema) => String::from_str(alloc, "bad"),
        Err(SchemaFault::UnsupportedType { column }) => {
            format!(in alloc; "unsupported {}", column.as_str())
        }
        Err(SchemaFault::TooMany) => String::from_str(alloc, "too many"),
        Err(SchemaFault::Memory) => String::from_str(alloc, "no memory"),
    }
}

#[test]
fn schemas_are_read(rt: HostRuntime) -> Result<(), Fail> {
    let alloc = rt.alloc();
    for (text, partitions, expected) in GOOD {
        let found = outcome(alloc, text, partitions)?;
        assert_eq!(rt; found.as_str(), expected);
    }
    Ok(())
}

#[test]
fn other_types_are_unsupported(rt: HostRuntime) -> Result<(), Fail> {
    let alloc = rt.alloc();
    for name in OTHER_TYPES {
        let text = format!(in alloc;
            "{{\"type\":\"struct\",\"fields\":[{{\"name\":\"a\",\"type\":\"{name}\",\"nullable\":true}}]}}"
        )?;
        let found = outcome(alloc, text.as_str(), &[])?;
        assert_eq!(rt; found.as_str(), "unsupported a", "{name}");
    }
    Ok(())
}

#[test]
fn texts_that_are_no_schema_are_bad(rt: HostRuntime) -> Result<(), Fail> {
    let alloc = rt.alloc();
    for text in BAD {
        let found = outcome(alloc, text, &[])?;
        assert_eq!(rt; found.as_str(), "bad", "{text}");
    }
    for field in BAD_FIELDS {
        let text = format!(in alloc;
            "{{\"type\":\"struct\",\"fields\":[{{\"name\":\"ok\",\"type\":\"long\",\"nullable\":true}},{field}]}}"
        )?;
        let found = outcome(alloc, text.as_str(), &[])?;
        assert_eq!(rt; found.as_str(), "bad", "{field}");
    }
    Ok(())
}

#[test]
fn partition_columns_are_columns(rt: HostRuntime) -> Result<(), Fail> {
    let alloc = rt.alloc();
    let text =
        r#"{"type":"struct","fields":[{"name":"a","type":"long","nullable":true},{"name":"b","type":"binary","nullable":true}]}"#;
    for names in BAD_PARTITIONS {
        let found = outcome(alloc, text, names)?;
        assert_eq!(rt; found.as_str(), "bad", "{names:?}");
    }
    let found = outcome(alloc, text, &["a"])?;
    assert_eq!(rt; found.as_str(), "a Long null partition\nb Binary null\n");
    let one = r#"{"type":"struct","fields":[{"name":"a","type":"long","nullable":true}]}"#;
    let found = outcome(alloc, one, &["a"])?;
    assert_eq!(rt; found.as_str(), "bad");
    Ok(())
}

// A schema of so many columns, and a last one of this type.
fn many(alloc: Global, columns: usize, last: &str) -> Result<String, AllocError> {
    let mut text = String::from_str(alloc, "{\"type\":\"struct\",\"fields\":[")?;
    for number in 0..columns {
        let field = format!(in alloc;
            "{{\"name\":\"c{number}\",\"type\":\"long\",\"nullable\":true}},"
        )?;
        text.push_str(field.as_str())?;
    }
    let field = format!(in alloc;
        "{{\"name\":\"last\",\"type\":\"{last}\",\"nullable\":true}}]}}"
    )?;
    text.push_str(field.as_str())?;
    Ok(text)
}

// How many columns a text gives; 0 where it gives none.
fn count(alloc: Global, text: &str) -> Result<usize, AllocError> {
    match read(alloc, text, &[])? {
        Ok(columns) => Ok(columns.len()),
        Err(_fault) => Ok(0),
    }
}

#[test]
fn five_hundred_columns_are_the_most(rt: HostRuntime) -> Result<(), Fail> {
    let alloc = rt.alloc();
    let most = many(alloc, 499, "date")?;
    assert_eq!(rt; count(alloc, most.as_str())?, 500);
    let more = many(alloc, 500, "date")?;
    let found = outcome(alloc, more.as_str(), &[])?;
    assert_eq!(rt; found.as_str(), "too many");
    let other = many(alloc, 500, "double")?;
    let found = outcome(alloc, other.as_str(), &[])?;
    assert_eq!(rt; found.as_str(), "unsupported last");
    Ok(())
}
