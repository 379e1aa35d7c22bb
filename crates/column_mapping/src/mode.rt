// The mapping mode of a table.

/// By what a data file's columns are known (`delta.columnMapping.mode`; PROTOCOL.md, "Column
/// Mapping").
#[derive(Clone, Copy, Debug, PartialEq, Eq)]
pub enum Mode {
    /// `none`, or no mode is set: by the column's name.
    Plain,
    /// `name`: by the column's physical name.
    ByName,
    /// `id`: by the column's id, which is the `field_id` of an element.
    ById,
}
