// What is read of the files of a table.
use column_mapping::Mode;
use delta_schema::TableSchema;
use dm_types::Text;

/// The name of the column that says what a row of a change file is (PROTOCOL.md, "Change Data
/// Files").
pub const CHANGE_TYPE: &str = "_change_type";

/// What is read of each file of a table.
#[derive(Drop)]
pub struct Columns<'a> {
    /// The columns of the table, each of a well-formed type.
    pub schema: &'a TableSchema,
    /// By what the columns are known in data files.
    pub mode: Mode,
    /// The name of the materialized row ids, where rows are tracked and the table names it
    /// (PROTOCOL.md, "Row Tracking").
    pub ids: Option<&'a Text>,
    /// The name of the materialized commit versions, the same.
    pub versions: Option<&'a Text>,
    /// Whether the file is a change file, whose [`CHANGE_TYPE`] is read last.
    pub change: bool,
}
