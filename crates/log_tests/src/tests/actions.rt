// Commits as other writers make them, lines that are no action, and the lines of this writer.
use delta_actions::{
    Action, ActionFault, Actions, AddAction, DomainAction, InfoAction, read_commit, remove_file,
    row_id_mark, write_commit,
};
use dm_types::{Items, Text};
use std::alloc::Global;
use std::test::Fail;

/// Lines that are good, and the line that is written for what is read; nothing is written for a
/// blank line and for actions of other names.
const GOOD: [(&str, &str); 41] = [
    // as Spark's writer logs them, with members that aren't read
    (
        r#"{"commitInfo":{"timestamp":1700000000000,"operation":"WRITE","operationParameters":{"mode":"Append","partitionBy":"[\"day\"]"},"readVersion":4,"isolationLevel":"Serializable","isBlindAppend":false,"operationMetrics":{"numFiles":"1","numOutputRows":"2"},"engineInfo":"Apache-Spark/3.5.0 Delta-Lake/3.1.0","txnId":"7c9f"}}"#,
        r#"{"commitInfo":{"engineInfo":"deltamerge","operation":"WRITE","timestamp":1700000000000}}"#,
    ),
    (
        r#"{"protocol":{"minReaderVersion":3,"minWriterVersion":7,"readerFeatures":["deletionVectors"],"writerFeatures":["deletionVectors","domainMetadata","rowTracking"]}}"#,
        r#"{"protocol":{"minReaderVersion":3,"minWriterVersion":7,"readerFeatures":["deletionVectors"],"writerFeatures":["deletionVectors","domainMetadata","rowTracking"]}}"#,
    ),
    (
        r#"{"metaData":{"id":"af23c9d7-fff1-4a5a-a2c8-55c59bd782aa","name":"sales","description":"of a day","format":{"provider":"parquet","options":{"b":"2","a":"1"}},"schemaString":"{\"type\":\"struct\",\"fields\":[]}","partitionColumns":["day"],"configuration":{"delta.enableDeletionVectors":"true","delta.appendOnly":"false"},"createdTime":1700000000000}}"#,
        r#"{"metaData":{"configuration":{"delta.appendOnly":"false","delta.enableDeletionVectors":"true"},"createdTime":1700000000000,"description":"of a day","format":{"options":{"a":"1","b":"2"},"provider":"parquet"},"id":"af23c9d7-fff1-4a5a-a2c8-55c59bd782aa","name":"sales","partitionColumns":["day"],"schemaString":"{\"type\":\"struct\",\"fields\":[]}"}}"#,
    ),
    ("", ""),
    (
        r#"{"add":{"path":"day=2017-10-10/part%2d1.gz.parquet","partitionValues":{"day":"2017-10-10"},"size":841454,"modificationTime":1512909768000,"dataChange":true,"stats":"{\"numRecords\":1,\"minValues\":{\"val\":\"a\"}}","tags":{"INSERTION_TIME":"1512909768000000"},"baseRowId":4071,"defaultRowCommitVersion":41,"clusteringProvider":"liquid"}}"#,
        r#"{"add":{"baseRowId":4071,"dataChange":true,"defaultRowCommitVersion":41,"modificationTime":1512909768000,"partitionValues":{"day":"2017-10-10"},"path":"day=2017-10-10/part%2d1.gz.parquet","size":841454,"stats":"{\"numRecords\":1,\"minValues\":{\"val\":\"a\"}}"}}"#,
    ),
    (
        r#"{ "remove" : { "path" : "p \u00e9\/\"q\".parquet", "deletionTimestamp" : 1515488792485, "dataChange" : true, "extendedFileMetadata" : true, "partitionValues" : { "day" : null }, "size" : 7, "tags" : null, "baseRowId" : 4071, "defaultRowCommitVersion" : 41 } }"#,
        r#"{"remove":{"baseRowId":4071,"dataChange":true,"defaultRowCommitVersion":41,"deletionTimestamp":1515488792485,"extendedFileMetadata":true,"partitionValues":{"day":null},"path":"p é/\"q\".parquet","size":7}}"#,
    ),
    (" \t ", ""),
    (
        r#"{"txn":{"appId":"3ba13872-2d47-4e17-86a0-21afd2a22395","version":364475}}"#,
        "",
    ),
    (
        r#"{"domainMetadata":{"domain":"delta.rowTracking","configuration":"{\"rowIdHighWaterMark\":1,\"duplicated\":[]}","removed":false}}"#,
        r#"{"domainMetadata":{"configuration":"{\"rowIdHighWaterMark\":1,\"duplicated\":[]}","domain":"delta.rowTracking","removed":false}}"#,
    ),
    (
        r#"{"cdc":{"path":"_change_data/cdc-00001-c.parquet","partitionValues":{},"size":1213,"dataChange":false,"tags":{}}}"#,
        r#"{"cdc":{"dataChange":false,"partitionValues":{},"path":"_change_data/cdc-00001-c.parquet","size":1213}}"#,
    ),
    // the least of each action
    (
        r#"{"protocol":{"minReaderVersion":0,"minWriterVersion":2147483647}}"#,
        r#"{"protocol":{"minReaderVersion":0,"minWriterVersion":2147483647}}"#,
    ),
    (
        r#"{"metaData":{"id":"","schemaString":""}}"#,
        r#"{"metaData":{"id":"","schemaString":""}}"#,
    ),
    (
        r#"{"add":{"path":""}}"#,
        r#"{"add":{"dataChange":true,"modificationTime":0,"path":"","size":0}}"#,
    ),
    (
        r#"{"remove":{"path":"b"}}"#,
        r#"{"remove":{"dataChange":true,"path":"b"}}"#,
    ),
    (
        r#"{"cdc":{"path":"c"}}"#,
        r#"{"cdc":{"dataChange":false,"path":"c"}}"#,
    ),
    (
        r#"{"domainMetadata":{"domain":"d","configuration":"no JSON"}}"#,
        r#"{"domainMetadata":{"configuration":"no JSON","domain":"d"}}"#,
    ),
    // null is absent
    (
        r#"{"protocol":{"minReaderVersion":3,"minWriterVersion":7,"readerFeatures":null,"writerFeatures":null}}"#,
        r#"{"protocol":{"minReaderVersion":3,"minWriterVersion":7,"readerFeatures":[],"writerFeatures":[]}}"#,
    ),
    (
        r#"{"metaData":{"id":"i","name":null,"description":null,"format":null,"schemaString":"s","partitionColumns":null,"configuration":null,"createdTime":null}}"#,
        r#"{"metaData":{"id":"i","schemaString":"s"}}"#,
    ),
    (
        r#"{"add":{"path":"a","partitionValues":null,"size":null,"modificationTime":null,"dataChange":null,"stats":null,"deletionVector":null,"baseRowId":null,"defaultRowCommitVersion":null}}"#,
        r#"{"add":{"dataChange":true,"modificationTime":0,"path":"a","size":0}}"#,
    ),
    (
        r#"{"remove":{"path":"b","dataChange":null,"deletionTimestamp":null,"size":null,"extendedFileMetadata":null,"partitionValues":null,"deletionVector":null,"baseRowId":null,"defaultRowCommitVersion":null}}"#,
        r#"{"remove":{"dataChange":true,"path":"b"}}"#,
    ),
    (
        r#"{"domainMetadata":{"domain":"d","configuration":"","removed":null}}"#,
        r#"{"domainMetadata":{"configuration":"","domain":"d"}}"#,
    ),
    // empty lists and objects
    (
        r#"{"protocol":{"minReaderVersion":1,"minWriterVersion":2,"readerFeatures":[],"writerFeatures":[]}}"#,
        r#"{"protocol":{"minReaderVersion":1,"minWriterVersion":2}}"#,
    ),
    (
        r#"{"protocol":{"minReaderVersion":1,"minWriterVersion":7,"writerFeatures":["a","a"]}}"#,
        r#"{"protocol":{"minReaderVersion":1,"minWriterVersion":7,"writerFeatures":["a","a"]}}"#,
    ),
    (
        r#"{"metaData":{"id":"i","schemaString":"s","format":{"options":null},"partitionColumns":[],"configuration":{}}}"#,
        r#"{"metaData":{"configuration":{},"format":{},"id":"i","partitionColumns":[],"schemaString":"s"}}"#,
    ),
    // the ends of ranges
    (
        r#"{"add":{"path":"a","size":9223372036854775807,"modificationTime":-9223372036854775808,"dataChange":false}}"#,
        r#"{"add":{"dataChange":false,"modificationTime":-9223372036854775808,"path":"a","size":9223372036854775807}}"#,
    ),
    (
        r#"{"domainMetadata":{"domain":"delta.rowTracking","configuration":" {\"rowIdHighWaterMark\" : -1}"}}"#,
        r#"{"domainMetadata":{"configuration":" {\"rowIdHighWaterMark\" : -1}","domain":"delta.rowTracking"}}"#,
    ),
    (
        r#"{"domainMetadata":{"domain":"delta.rowTracking","configuration":"gone","removed":true}}"#,
        r#"{"domainMetadata":{"configuration":"gone","domain":"delta.rowTracking","removed":true}}"#,
    ),
    // of equal keys the last stays, at every depth
    (
        r#"{"add":5,"add":{"path":1,"partitionValues":{"b":"1","a":null,"b":"2"},"path":"a"}}"#,
        r#"{"add":{"dataChange":true,"modificationTime":0,"partitionValues":{"a":null,"b":"2"},"path":"a","size":0}}"#,
    ),
    // names in byte order, and texts that need escapes
    (
        r#"{"cdc":{"path":"\u0000\u001f\u007f\b\f\n\r\t\\\/\"","partitionValues":{"é":"","z":"","":"","Z":"","aa":"","a":""}}}"#,
        "{\"cdc\":{\"dataChange\":false,\"partitionValues\":{\"\":\"\",\"Z\":\"\",\"a\":\"\",\"aa\":\"\",\"z\":\"\",\"é\":\"\"},\"path\":\"\\u0000\\u001f\u{7f}\\b\\f\\n\\r\\t\\\\/\\\"\"}}",
    ),
    // members of a commitInfo, each by itself
    (
        r#"{"commitInfo":{"operation":"MERGE","timestamp":"5"}}"#,
        r#"{"commitInfo":{"engineInfo":"deltamerge","operation":"MERGE","timestamp":0}}"#,
    ),
    (
        r#"{"commitInfo":{"operation":["x"],"timestamp":-5}}"#,
        r#"{"commitInfo":{"engineInfo":"deltamerge","operation":"","timestamp":-5}}"#,
    ),
    (
        r#"{"commitInfo":{"operation":null,"timestamp":5.0}}"#,
        r#"{"commitInfo":{"engineInfo":"deltamerge","operation":"","timestamp":0}}"#,
    ),
    (
        r#"{"commitInfo":[]}"#,
        r#"{"commitInfo":{"engineInfo":"deltamerge","operation":"","timestamp":0}}"#,
    ),
    // a deletion vector isn't kept
    (
        r#"{"add":{"path":"a","deletionVector":{"storageType":"u","pathOrInlineDv":"x","offset":1,"sizeInBytes":2,"cardinality":3}}}"#,
        r#"{"add":{"dataChange":true,"modificationTime":0,"path":"a","size":0}}"#,
    ),
    // one member that isn't null
    (
        r#"{"add":null,"remove":{"path":"b"},"cdc":null}"#,
        r#"{"remove":{"dataChange":true,"path":"b"}}"#,
    ),
    // other names
    (r#"{"Add":{"path":"a"}}"#, ""),
    (r#"{"metadata":5}"#, ""),
    (r#"{"txn":5}"#, ""),
    (r#"{"checkpointMetadata":{"version":1}}"#, ""),
    (r#"{"x":{"deep":[[]]}}"#, ""),
    (r#"{"":18446744073709551615}"#, ""),
];

/// Lines that are bad by the form of their action.
const UNFIT: [&str; 74] = [
    r#"{"protocol":{}}"#,
    r#"{"protocol":{"minReaderVersion":1}}"#,
    r#"{"protocol":{"minWriterVersion":1}}"#,
    r#"{"protocol":{"minReaderVersion":null,"minWriterVersion":1}}"#,
    r#"{"protocol":{"minReaderVersion":-1,"minWriterVersion":1}}"#,
    r#"{"protocol":{"minReaderVersion":1,"minWriterVersion":2147483648}}"#,
    r#"{"protocol":{"minReaderVersion":1.0,"minWriterVersion":1}}"#,
    r#"{"protocol":{"minReaderVersion":"1","minWriterVersion":1}}"#,
    r#"{"protocol":{"minReaderVersion":1,"minWriterVersion":1,"readerFeatures":"a"}}"#,
    r#"{"protocol":{"minReaderVersion":1,"minWriterVersion":1,"readerFeatures":[null]}}"#,
    r#"{"protocol":{"minReaderVersion":1,"minWriterVersion":1,"writerFeatures":{}}}"#,
    r#"{"protocol":{"minReaderVersion":1,"minWriterVersion":1,"writerFeatures":["a",1]}}"#,
    r#"{"protocol":[1,1]}"#,
    r#"{"metaData":{}}"#,
    r#"{"metaData":{"id":"i"}}"#,
    r#"{"metaData":{"schemaString":"s"}}"#,
    r#"{"metaData":{"id":1,"schemaString":"s"}}"#,
    r#"{"metaData":{"id":"i","schemaString":{}}}"#,
    r#"{"metaData":{"id":"i","schemaString":"s","partitionColumns":"a"}}"#,
    r#"{"metaData":{"id":"i","schemaString":"s","partitionColumns":[null]}}"#,
    r#"{"metaData":{"id":"i","schemaString":"s","configuration":[]}}"#,
    r#"{"metaData":{"id":"i","schemaString":"s","configuration":{"a":null}}}"#,
    r#"{"metaData":{"id":"i","schemaString":"s","configuration":{"a":true}}}"#,
    r#"{"metaData":{"id":"i","schemaString":"s","format":"parquet"}}"#,
    r#"{"metaData":{"id":"i","schemaString":"s","format":{"provider":"orc"}}}"#,
    r#"{"metaData":{"id":"i","schemaString":"s","format":{"provider":"Parquet"}}}"#,
    r#"{"metaData":{"id":"i","schemaString":"s","format":{"provider":null}}}"#,
    r#"{"metaData":{"id":"i","schemaString":"s","format":{"options":[]}}}"#,
    r#"{"metaData":{"id":"i","schemaString":"s","format":{"options":{"a":null}}}}"#,
    r#"{"metaData":{"id":"i","schemaString":"s","name":1}}"#,
    r#"{"metaData":{"id":"i","schemaString":"s","description":false}}"#,
    r#"{"metaData":{"id":"i","schemaString":"s","createdTime":1.5}}"#,
    r#"{"add":{}}"#,
    r#"{"add":{"Path":"a"}}"#,
    r#"{"add":{"path":7}}"#,
    r#"{"add":"a"}"#,
    r#"{"add":{"path":"a","partitionValues":[]}}"#,
    r#"{"add":{"path":"a","partitionValues":{"k":1}}}"#,
    r#"{"add":{"path":"a","size":9223372036854775808}}"#,
    r#"{"add":{"path":"a","size":-9223372036854775809}}"#,
    r#"{"add":{"path":"a","size":1.0}}"#,
    r#"{"add":{"path":"a","size":1e2}}"#,
    r#"{"add":{"path":"a","size":-0}}"#,
    r#"{"add":{"path":"a","size":"1"}}"#,
    r#"{"add":{"path":"a","modificationTime":true}}"#,
    r#"{"add":{"path":"a","dataChange":"true"}}"#,
    r#"{"add":{"path":"a","dataChange":1}}"#,
    r#"{"add":{"path":"a","stats":{}}}"#,
    r#"{"add":{"path":"a","baseRowId":[]}}"#,
    r#"{"add":{"path":"a","defaultRowCommitVersion":"1"}}"#,
    r#"{"remove":["path"]}"#,
    r#"{"remove":{"path":null}}"#,
    r#"{"remove":{"path":"b","dataChange":0}}"#,
    r#"{"remove":{"path":"b","deletionTimestamp":"1"}}"#,
    r#"{"remove":{"path":"b","size":1.5}}"#,
    r#"{"remove":{"path":"b","extendedFileMetadata":"true"}}"#,
    r#"{"remove":{"path":"b","partitionValues":{"k":false}}}"#,
    r#"{"remove":{"path":"b","baseRowId":18446744073709551616}}"#,
    r#"{"remove":{"path":"b","defaultRowCommitVersion":{}}}"#,
    r#"{"cdc":{"partitionValues":{}}}"#,
    r#"{"cdc":{"path":"c","partitionValues":"k"}}"#,
    r#"{"cdc":{"path":"c","size":"1"}}"#,
    r#"{"domainMetadata":{"configuration":""}}"#,
    r#"{"domainMetadata":{"domain":"d"}}"#,
    r#"{"domainMetadata":{"domain":"d","configuration":{}}}"#,
    r#"{"domainMetadata":{"domain":"d","configuration":"","removed":"no"}}"#,
    r#"{"domainMetadata":{"domain":"delta.rowTracking","configuration":""}}"#,
    r#"{"domainMetadata":{"domain":"delta.rowTracking","configuration":"{}","removed":false}}"#,
    r#"{"domainMetadata":{"domain":"delta.rowTracking","configuration":"[1]"}}"#,
    r#"{"domainMetadata":{"domain":"delta.rowTracking","configuration":"{\"rowIdHighWaterMark\":-2}"}}"#,
    r#"{"domainMetadata":{"domain":"delta.rowTracking","configuration":"{\"rowIdHighWaterMark\":null}"}}"#,
    r#"{"domainMetadata":{"domain":"delta.rowTracking","configuration":"{\"rowIdHighWaterMark\":1.0}"}}"#,
    r#"{"domainMetadata":{"domain":"delta.rowTracking","configuration":"{\"rowIdHighWaterMark\":1} x"}}"#,
    r#"{"domainMetadata":{"domain":"delta.rowTracking","configuration":"{\"rowIdHighWaterMark\":1}","removed":1}}"#,
];

/// Commits with a bad line, and the number of the first.
const BAD: [(&[u8], u64); 17] = [
    (b"{", 1),
    (b"[]", 1),
    (b"{}", 1),
    (b"{\"add\":{\"path\":\"a\"},\"remove\":{\"path\":\"b\"}}", 1),
    (b"{\"add\":{\"path\":\"a\"},\"add\":null}", 1),
    (b"{\"add\":{\"path\":\"a\"}} x", 1),
    (b"{\"commitInfo\":1e400}", 1),
    (b"{\"commitInfo\":{\"x\":\"\\ud800\"}}", 1),
    (b"{\"txn\":\"\xFF\"}", 1),
    (b"{\"txn\":1}\n\n \t\r\n{\"remove\":[\"path\"]}\n{", 4),
    (b"\n\r\n{\"remove\":{\"path\":null}}", 3),
    (b"{\"txn\":1}\r{\"txn\":1}\n", 1),
    (b"{\"txn\":1}\n\x0c\n", 2),
    (b"{\"txn\":1}\n{\"txn\":\n1}", 2),
    (b"\n\xFF", 2),
    (b"\xEF\xBB\xBF{\"txn\":1}", 1),
    (
        b"{\"txn\":1}\n{\"add\":{\"path\":\"a\"}}\n{\"add\":{}}\n",
        3,
    ),
];

/// Configurations of row tracking, and their marks.
const MARKS: [(&str, Option<i64>); 5] = [
    (r#"{"rowIdHighWaterMark":7}"#, Some(7)),
    (r#"{"rowIdHighWaterMark":-1}"#, Some(-1)),
    (r#"{"rowIdHighWaterMark":-2}"#, None),
    (r#"{"rowIdHighWaterMark":"7"}"#, None),
    ("7", None),
];

/// The second commit of a table whose only file is deleted at the time 5.
const DELETED: &str =
    r#"{"commitInfo":{"engineInfo":"deltamerge","operation":"DELETE","timestamp":5}}
{"remove":{"baseRowId":0,"dataChange":true,"defaultRowCommitVersion":0,"deletionTimestamp":5,"extendedFileMetadata":true,"partitionValues":{},"path":"a.parquet","size":7}}
"#;

#[test]
fn lines_are_read_and_written(rt: HostRuntime) -> Result<(), Fail> {
    let alloc = rt.alloc();
    let mut commit = String::new(alloc);
    let mut expected = String::new(alloc);
    for (line, written) in GOOD {
        commit.push_str(line)?;
        commit.push_str("\r\n")?;
        if !written.is_empty() {
            expected.push_str(written)?;
            expected.push_str("\n")?;
        }
    }
    let actions = read_commit(alloc, commit.as_bytes())?;
    let bytes = write_commit(alloc, &actions)?;
    assert!(rt;
        bytes.as_slice() == expected.as_bytes(),
        "{:?}",
        str::from_utf8(bytes.as_slice())
    );
    Ok(())
}

fn bad_line(alloc: Global, commit: &[u8]) -> u64 {
    match read_commit(alloc, commit) {
        Err(ActionFault::BadAction { line }) => line,
        _ => 0,
    }
}

#[test]
fn the_first_bad_line_is_named(rt: HostRuntime) -> Result<(), Fail> {
    let alloc = rt.alloc();
    for line in UNFIT {
        assert_eq!(rt; bad_line(alloc, line.as_bytes()), 1, "{line}");
    }
    for (commit, line) in BAD {
        assert_eq!(rt; bad_line(alloc, commit), line, "{commit:?}");
    }
    let deep = "[".repeat(alloc, 200)?;
    assert_eq!(rt; bad_line(alloc, deep.as_bytes()), 1);
    Ok(())
}

fn first_add(actions: &Actions) -> Option<&AddAction> {
    match actions.as_slice().first() {
        Some(Action::Add(add)) => Some(add),
        _ => None,
    }
}

#[test]
fn the_commit_of_a_delete_is_written(rt: HostRuntime) -> Result<(), Fail> {
    let alloc = rt.alloc();
    let first =
        br#"{"add":{"path":"a.parquet","size":7,"baseRowId":0,"defaultRowCommitVersion":0}}"#;
    let old = read_commit(alloc, first)?;
    let add = first_add(&old).ok_or("no add")?;
    let mut actions = Items::new(alloc);
    let operation = Text::from_str(alloc, "DELETE")?;
    actions.push(Action::Info(InfoAction {
        operation,
        timestamp: 5,
    }))?;
    actions.push(Action::Remove(remove_file(alloc, add, 5)?))?;
    let bytes = write_commit(alloc, &actions)?;
    assert!(rt; bytes.as_slice() == DELETED.as_bytes());
    Ok(())
}

#[test]
fn marks_are_read(rt: HostRuntime) -> Result<(), Fail> {
    let alloc = rt.alloc();
    for (configuration, mark) in MARKS {
        let domain = DomainAction {
            domain: Text::from_str(alloc, "delta.rowTracking")?,
            configuration: Text::from_str(alloc, configuration)?,
            removed: None,
        };
        assert!(rt; row_id_mark(alloc, &domain)? == mark, "{configuration}");
    }
    Ok(())
}
