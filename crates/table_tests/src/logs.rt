// Lines of logs.

/// A table of `k` and `v`, whose rows aren't tracked.
pub(crate) const PLAIN: &str = concat!(
    r#"{"protocol":{"minReaderVersion":1,"minWriterVersion":2}}"#,
    "\n",
    r#"{"metaData":{"id":"i","schemaString":"{\"type\":\"struct\",\"fields\":[{\"name\":\"k\",\"type\":\"long\",\"nullable\":true,\"metadata\":{}},{\"name\":\"v\",\"type\":\"string\",\"nullable\":true,\"metadata\":{}}]}"}}"#,
    "\n",
);

/// The same, of a writer that lists a feature, which readers pass by.
pub(crate) const CLUSTERED: &str = concat!(
    r#"{"commitInfo":{"operation":"WRITE"}}"#,
    "\n",
    r#"{"protocol":{"minReaderVersion":1,"minWriterVersion":7,"writerFeatures":["clustering"]}}"#,
    "\n",
    r#"{"metaData":{"id":"i","format":{"provider":"parquet","options":{}},"schemaString":"{\"type\":\"struct\",\"fields\":[{\"name\":\"k\",\"type\":\"long\",\"nullable\":true,\"metadata\":{}},{\"name\":\"v\",\"type\":\"string\",\"nullable\":true,\"metadata\":{}}]}"}}"#,
    "\n",
);

/// The same, with `k` never null.
pub(crate) const NEVER_NULL: &str = concat!(
    r#"{"protocol":{"minReaderVersion":1,"minWriterVersion":2}}"#,
    "\n",
    r#"{"metaData":{"id":"i","schemaString":"{\"type\":\"struct\",\"fields\":[{\"name\":\"k\",\"type\":\"long\",\"nullable\":false,\"metadata\":{}},{\"name\":\"v\",\"type\":\"string\",\"nullable\":true,\"metadata\":{}}]}"}}"#,
    "\n",
);

/// The same, partitioned by the days `d`.
pub(crate) const PARTED: &str = concat!(
    r#"{"protocol":{"minReaderVersion":1,"minWriterVersion":2}}"#,
    "\n",
    r#"{"metaData":{"id":"i","schemaString":"{\"type\":\"struct\",\"fields\":[{\"name\":\"k\",\"type\":\"long\",\"nullable\":true,\"metadata\":{}},{\"name\":\"d\",\"type\":\"date\",\"nullable\":true,\"metadata\":{}},{\"name\":\"v\",\"type\":\"string\",\"nullable\":true,\"metadata\":{}}]}","partitionColumns":["d"]}}"#,
    "\n",
);

/// A table of `k` and `v` that are known by their field ids.
pub(crate) const BY_ID: &str = concat!(
    r#"{"protocol":{"minReaderVersion":2,"minWriterVersion":5}}"#,
    "\n",
    r#"{"metaData":{"id":"i","configuration":{"delta.columnMapping.mode":"id"},"schemaString":"{\"type\":\"struct\",\"fields\":[{\"name\":\"k\",\"type\":\"long\",\"nullable\":true,\"metadata\":{\"delta.columnMapping.id\":2,\"delta.columnMapping.physicalName\":\"a\"}},{\"name\":\"v\",\"type\":\"string\",\"nullable\":true,\"metadata\":{\"delta.columnMapping.id\":1,\"delta.columnMapping.physicalName\":\"b\"}}]}"}}"#,
    "\n",
);

/// The same, of columns without marks.
pub(crate) const UNMARKED: &str = concat!(
    r#"{"protocol":{"minReaderVersion":2,"minWriterVersion":5}}"#,
    "\n",
    r#"{"metaData":{"id":"i","configuration":{"delta.columnMapping.mode":"name"},"schemaString":"{\"type\":\"struct\",\"fields\":[{\"name\":\"k\",\"type\":\"long\",\"nullable\":true,\"metadata\":{}}]}"}}"#,
    "\n",
);

/// A mapping mode that there isn't.
pub(crate) const NO_MODE: &str = concat!(
    r#"{"protocol":{"minReaderVersion":2,"minWriterVersion":5}}"#,
    "\n",
    r#"{"metaData":{"id":"i","configuration":{"delta.columnMapping.mode":"names"},"schemaString":"{\"type\":\"struct\",\"fields\":[{\"name\":\"k\",\"type\":\"long\",\"nullable\":true,\"metadata\":{}}]}"}}"#,
    "\n",
);

/// A schema that is none.
pub(crate) const NO_SCHEMA: &str = concat!(
    r#"{"protocol":{"minReaderVersion":1,"minWriterVersion":2}}"#,
    "\n",
    r#"{"metaData":{"id":"i","schemaString":"{}"}}"#,
    "\n",
);

/// A column `x` of a type that isn't read.
pub(crate) const DOUBLE: &str = concat!(
    r#"{"protocol":{"minReaderVersion":1,"minWriterVersion":2}}"#,
    "\n",
    r#"{"metaData":{"id":"i","schemaString":"{\"type\":\"struct\",\"fields\":[{\"name\":\"k\",\"type\":\"long\",\"nullable\":true,\"metadata\":{}},{\"name\":\"x\",\"type\":\"double\",\"nullable\":true,\"metadata\":{}}]}"}}"#,
    "\n",
);

/// A table of `k` alone.
pub(crate) const NARROW: &str = concat!(
    r#"{"protocol":{"minReaderVersion":1,"minWriterVersion":2}}"#,
    "\n",
    r#"{"metaData":{"id":"i","schemaString":"{\"type\":\"struct\",\"fields\":[{\"name\":\"k\",\"type\":\"long\",\"nullable\":true,\"metadata\":{}}]}"}}"#,
    "\n",
);

/// A table of `k` and `v` whose rows are tracked, with materialized ids `i` and versions `c`, and a
/// check.
pub(crate) const TRACKED: &str = concat!(
    r#"{"protocol":{"minReaderVersion":1,"minWriterVersion":7,"writerFeatures":["checkConstraints","domainMetadata","rowTracking"]}}"#,
    "\n",
    r#"{"metaData":{"id":"i","configuration":{"delta.constraints.c":"v <> '' OR k > 0","delta.enableRowTracking":"true","delta.rowTracking.materializedRowIdColumnName":"i","delta.rowTracking.materializedRowCommitVersionColumnName":"c"},"schemaString":"{\"type\":\"struct\",\"fields\":[{\"name\":\"k\",\"type\":\"long\",\"nullable\":true,\"metadata\":{}},{\"name\":\"v\",\"type\":\"string\",\"nullable\":true,\"metadata\":{}}]}"}}"#,
    "\n",
);

/// The mark 11 of row ids.
pub(crate) const MARK_11: &str = concat!(
    r#"{"domainMetadata":{"domain":"delta.rowTracking","configuration":"{\"rowIdHighWaterMark\":11}","removed":false}}"#,
    "\n",
);

/// The mark 5.
pub(crate) const MARK_5: &str = concat!(
    r#"{"domainMetadata":{"domain":"delta.rowTracking","configuration":"{\"rowIdHighWaterMark\":5}","removed":false}}"#,
    "\n",
);

/// Adds of the file `a.parquet`.
pub(crate) const ADD_A: &str = concat!(r#"{"add":{"path":"a.parquet"}}"#, "\n");

/// .. and of the file `b.parquet`.
pub(crate) const ADD_B: &str = concat!(r#"{"add":{"path":"b.parquet"}}"#, "\n");

/// A table of `k` that is partitioned by the texts `p`.
pub(crate) const TEXT_PARTED: &str = concat!(
    r#"{"protocol":{"minReaderVersion":1,"minWriterVersion":2}}"#,
    "\n",
    r#"{"metaData":{"id":"i","schemaString":"{\"type\":\"struct\",\"fields\":[{\"name\":\"k\",\"type\":\"long\",\"nullable\":true,\"metadata\":{}},{\"name\":\"p\",\"type\":\"string\",\"nullable\":true,\"metadata\":{}}]}","partitionColumns":["p"]}}"#,
    "\n",
);

/// A table of `v` and of a column whose name is escaped.
pub(crate) const ODD_NAME: &str = concat!(
    r#"{"protocol":{"minReaderVersion":1,"minWriterVersion":2}}"#,
    "\n",
    r#"{"metaData":{"id":"i","schemaString":"{\"type\":\"struct\",\"fields\":[{\"name\":\"v\",\"type\":\"string\",\"nullable\":true,\"metadata\":{}},{\"name\":\"a\\tb\",\"type\":\"long\",\"nullable\":true,\"metadata\":{}}]}"}}"#,
    "\n",
);

/// A column of a type that isn't read, and a mode that there isn't.
pub(crate) const DOUBLE_NO_MODE: &str = concat!(
    r#"{"protocol":{"minReaderVersion":2,"minWriterVersion":5}}"#,
    "\n",
    r#"{"metaData":{"id":"i","configuration":{"delta.columnMapping.mode":"names"},"schemaString":"{\"type\":\"struct\",\"fields\":[{\"name\":\"k\",\"type\":\"long\",\"nullable\":true,\"metadata\":{}},{\"name\":\"x\",\"type\":\"double\",\"nullable\":true,\"metadata\":{}}]}"}}"#,
    "\n",
);

/// A protocol of reader version 4.
pub(crate) const READER_4: &str = concat!(
    r#"{"protocol":{"minReaderVersion":4,"minWriterVersion":7}}"#,
    "\n",
);

/// Reader features, of which two aren't known.
pub(crate) const FEATURES: &str = concat!(
    r#"{"protocol":{"minReaderVersion":3,"minWriterVersion":7,"readerFeatures":["v2Checkpoint","columnMapping","a"],"writerFeatures":[]}}"#,
    "\n",
);
