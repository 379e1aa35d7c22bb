// The columns that an expression sees.
use dm_types::{DataType, Items, Text};

/// The columns that an expression sees, in order: of a MERGE the target's and then the source's.
pub type Scope = Items<ScopeColumn>;

/// A column that an expression sees.
#[derive(Drop)]
pub struct ScopeColumn {
    /// The alias of its table, else the table's name; empty where columns have no qualifier.
    pub qualifier: Text,
    /// The column's name.
    pub name: Text,
    /// The type of its values.
    pub kind: DataType,
    /// Whether it may be null.
    pub nullable: bool,
}
