// The rules of a table's rows.
use delta_schema::IdentityRule;
use dm_types::{DataType, Items, Text};
use typed_expr::TypedExpr;

/// What is asked of the values of a column, and how they are made.
#[derive(Drop)]
pub struct ColumnRule {
    /// The type of the values, never `Void`.
    pub kind: DataType,
    /// Whether a row may have null here.
    pub nullable: bool,
    /// Whether the table is partitioned by the column.
    pub partition: bool,
    /// How the values of an identity column are made (PROTOCOL.md, "Identity Columns").
    pub identity: Option<IdentityRule>,
    /// What the values of a generated column are, over a row of all columns, in the column's type
    /// (PROTOCOL.md, "Generated Columns").
    pub generation: Option<TypedExpr>,
}

/// The rules of columns, in the order of the schema.
pub type ColumnRules = Items<ColumnRule>;

/// A condition that each row must meet (PROTOCOL.md, "CHECK Constraints").
#[derive(Drop)]
pub struct CheckRule {
    /// The name of the constraint.
    pub name: Text,
    /// The condition over a row of all columns.
    pub condition: TypedExpr,
}

/// Constraints, in the byte order of their names.
pub type CheckRules = Items<CheckRule>;

/// The rules of a table's rows.
#[derive(Drop)]
pub struct Rules {
    /// A rule for each column.
    pub columns: ColumnRules,
    /// The constraints.
    pub checks: CheckRules,
}
