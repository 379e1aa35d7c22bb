// Why a statement is refused, and why it stops.
ghost use Rattle.std.specs.Prelude.{◌≡◌};

use crate::text::Text;
use std::alloc::AllocError;

/// What of a table is past its limit.
#[derive(Clone, Copy, Debug, PartialEq, Eq)]
pub enum Counted {
    /// The commits of its log.
    Commits,
    /// The columns of its schema.
    Columns,
    /// Its cells: rows times columns.
    Cells,
    /// The bytes of its texts and binary values, and of the printed values of its partition columns.
    TextBytes,
}

/// Why a table isn't opened.
#[derive(Debug, PartialEq, Eq, Drop)]
pub enum TableRefusal {
    /// `O1`: the log folder holds no commit file.
    NoTable,
    /// `O2`: a commit file below the newest is missing.
    LogGap {
        /// The least missing version.
        version: u64,
    },
    /// `O3`: a commit file has a line that is no action.
    BadAction {
        /// The first version with such a line.
        version: u64,
        /// The first such line, counted from 1.
        line: u64,
    },
    /// `O4`: the protocol's version is none that is read, or none that is written.
    ProtocolUnsupported {
        /// The reader version.
        reader: u32,
        /// The writer version.
        writer: u32,
    },
    /// `O5`: the protocol lists a feature that isn't known.
    UnknownFeature {
        /// The least such name by bytes.
        name: Text,
    },
    /// `O6`: the log has no metadata or no protocol.
    NoMetadata,
    /// `O7`: the text of the schema isn't one.
    BadSchema,
    /// `O8`: a column is of a type that isn't read.
    UnsupportedType {
        /// The name of the first such column.
        column: Text,
    },
    /// `O9`: a column isn't marked as the mapping of columns wants it.
    BadMapping {
        /// The name of the first such column.
        column: Text,
    },
    /// `O10`: a file has a deletion vector.
    DeletionVector {
        /// The file's path as logged.
        path: Text,
    },
    /// `O11`: the path of a file leads out of the table's folder, or is that of an earlier file.
    BadPath {
        /// The file's path as logged.
        path: Text,
    },
    /// `O12`: a file isn't there.
    MissingFile {
        /// The file's path as logged.
        path: Text,
    },
    /// `O13`: a file is no good Parquet file.
    BadParquet {
        /// The file's path as logged.
        path: Text,
    },
    /// `O14`: a file has a compressed column chunk.
    CompressedPage {
        /// The file's path as logged.
        path: Text,
    },
    /// `O15`: a file has a page of a kind or an encoding that isn't read.
    UnsupportedEncoding {
        /// The file's path as logged.
        path: Text,
    },
    /// `O16`: a file doesn't hold a column, or not with a type that it is read of.
    ColumnMismatch {
        /// The file's path as logged.
        path: Text,
        /// The column's name.
        column: Text,
    },
    /// `O17`: a column of a file has a value out of its range, or a null that it doesn't take.
    ValueRange {
        /// The file's path as logged.
        path: Text,
        /// The column's name.
        column: Text,
    },
    /// `O18`: the value of a partition column isn't read, or is a null that the column doesn't take.
    BadPartitionValue {
        /// The file's path as logged.
        path: Text,
        /// The column's name.
        column: Text,
    },
    /// `O19`: the ids of rows aren't sound.
    RowIdsWrong {
        /// The least id that fails; or the first mark that fell; or -1 where a file says no ids.
        id: i64,
    },
    /// `O20`: a limit of size is passed.
    TooLarge {
        /// What is too much.
        counted: Counted,
    },
    /// `O21`: the version that is asked for isn't there.
    NoSuchVersion {
        /// The version.
        version: u64,
    },
    /// `O22`: the table has a rule that a writer can't keep.
    UnsupportedRule {
        /// The rule's name.
        name: Text,
    },
}

/// Why a statement is refused besides what opening its tables finds, and before anything is put.
#[derive(Debug, PartialEq, Eq, Drop)]
pub enum StatementRefusal {
    /// `S1`: the table that is to be created is there.
    TableExists,
    /// `S2`: what is defined isn't a table.
    BadDefinition {
        /// The byte of the script where the first fault stands, counted from 0.
        at: u64,
    },
    /// `S3`: the statement doesn't type.
    DoesNotType {
        /// The rule that is broken, from 1 to 15.
        rule: u8,
        /// The byte of the script where it is broken, counted from 0.
        at: u64,
    },
    /// `S4`: the table takes new rows only.
    AppendOnly,
    /// `S5`: the table doesn't track its rows.
    RowTrackingOff,
    /// `S6`: an identity column is assigned that takes no values.
    IdentityWrite {
        /// The column's name.
        column: Text,
    },
    /// `S7`: an expression has no value on a row.
    EvalError {
        /// 1: a number is out of the range of its type. 2: a division by 0. 3: a text, or bytes, that
        /// don't read as a value of the type.
        kind: u8,
    },
    /// `S8`: a target row has a second match.
    SecondMatch,
    /// `S9`: the next value of an identity column is out of range.
    IdentityOverflow {
        /// The column's name.
        column: Text,
    },
    /// `S10`: a given value isn't that of the column's generation expression.
    GeneratedMismatch {
        /// The column's name.
        column: Text,
    },
    /// `S11`: a row that is written has null in a column that takes none.
    NotNull {
        /// The column's name.
        column: Text,
    },
    /// `S12`: a CHECK isn't true on a row that is written.
    CheckFailed {
        /// The name of the CHECK.
        name: Text,
    },
    /// `S13`: the ids of rows are used up.
    RowIdsExhausted,
    /// `S14`: the change feed is off.
    FeedOff {
        /// The first such version.
        version: u64,
    },
    /// `S15`: the columns aren't those of the feed's last version.
    FeedSchemaChanged {
        /// The first such version.
        version: u64,
    },
}

/// Why the files of a new version aren't put: what stands at their paths, which no check looks at.
#[derive(Debug, PartialEq, Eq, Drop)]
pub enum PutRefusal {
    /// `S16`: the path of a new file is taken.
    NameTaken {
        /// The whole path in the store.
        path: Text,
    },
    /// `S17`: the commit file of the new version is there already.
    VersionTaken {
        /// The new version.
        version: u64,
    },
}

/// Why a statement is refused.
#[derive(Debug, PartialEq, Eq, Drop)]
pub enum Refused {
    /// The table isn't opened.
    Table(TableRefusal),
    /// A check of the statement fails.
    Statement(StatementRefusal),
    /// The statement passes its checks, and its new files find a path taken.
    Put(PutRefusal),
}

/// Why a statement has no answer.
#[derive(Debug, PartialEq, Eq, Drop)]
pub enum Stop {
    /// The statement is refused.
    Refused(Refused),
    /// A call of the store failed.
    Store,
    /// A draw of a name failed.
    Names,
    /// There was no memory.
    Memory,
}

impl From<AllocError> for Stop {
    ghost use Rattle.dm_types.specs.declared.refusal.Stop.TheVariants.{Memory};

    ghost from_gives = { λ _ e. e ≡ Memory };

    fn from(_: AllocError) -> Stop {
        Stop::Memory
    }
}

impl From<TableRefusal> for Stop {
    ghost use Rattle.dm_types.specs.declared.refusal.Refused.TheVariants.{Table};
    ghost use Rattle.dm_types.specs.declared.refusal.Stop.TheVariants as stop;

    ghost from_gives = { λ refusal e. e ≡ stop.Refused (Table refusal) };

    fn from(refusal: TableRefusal) -> Stop {
        Stop::Refused(Refused::Table(refusal))
    }
}

impl From<StatementRefusal> for Stop {
    ghost use Rattle.dm_types.specs.declared.refusal.Refused.TheVariants.{Statement};
    ghost use Rattle.dm_types.specs.declared.refusal.Stop.TheVariants as stop;

    ghost from_gives = { λ refusal e. e ≡ stop.Refused (Statement refusal) };

    fn from(refusal: StatementRefusal) -> Stop {
        Stop::Refused(Refused::Statement(refusal))
    }
}

impl From<PutRefusal> for Stop {
    ghost use Rattle.dm_types.specs.declared.refusal.Refused.TheVariants.{Put};
    ghost use Rattle.dm_types.specs.declared.refusal.Stop.TheVariants as stop;

    ghost from_gives = { λ refusal e. e ≡ stop.Refused (Put refusal) };

    fn from(refusal: PutRefusal) -> Stop {
        Stop::Refused(Refused::Put(refusal))
    }
}
