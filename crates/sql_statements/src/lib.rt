//! The trees of statements, which hold expressions, names and numbers.
#![tactic(auto)]

use dm_types::{Items, Text};
use sql_tree::{Expr, Name, Span, WrittenType};

/// The statements of a script, in order.
pub type Stmts = Items<Stmt>;

/// The name of a table.
#[derive(Drop)]
pub struct TableName {
    /// Where it stands.
    pub span: Span,
    /// The name.
    pub text: Text,
}

/// An item of a SELECT: `expr [AS name]`.
#[derive(Drop)]
pub struct SelectItem {
    pub expr: Expr,
    pub alias: Option<Name>,
}

/// The items of a SELECT, in order.
pub type SelectItemList = Items<SelectItem>;

/// What a SELECT asks for.
#[derive(Drop)]
pub enum SelectItems {
    /// `*`: every column, in the schema's order.
    All,
    /// One item at least.
    Listed(SelectItemList),
}

/// A rule between parentheses: a generation expression or a CHECK.
#[derive(Drop)]
pub struct RuleText {
    /// The expression.
    pub expr: Expr,
    /// What stands between the parentheses, as it is written.
    pub text: Text,
}

/// `GENERATED (ALWAYS | BY DEFAULT) AS IDENTITY [(START WITH start INCREMENT BY step)]`.
#[derive(Clone, Copy)]
pub struct WrittenIdentity {
    /// Where GENERATED stands.
    pub place: Span,
    /// Whether a statement may give the column's values: BY DEFAULT.
    pub explicit: bool,
    /// The first value, 1 where none is written; above -2^63.
    pub start: i64,
    /// From one value to the next, 1 where none is written; above -2^63.
    pub step: i64,
}

/// How the values of a column are made.
#[derive(Drop)]
pub enum Made {
    /// `GENERATED ALWAYS AS (expr)`
    Generated(RuleText),
    Identity(WrittenIdentity),
}

/// A column of a new table: `name type [NOT NULL] [GENERATED ..]`.
#[derive(Drop)]
pub struct ColumnElement {
    pub name: Name,
    pub kind: WrittenType,
    /// Whether a row may have null here: without NOT NULL.
    pub nullable: bool,
    pub made: Option<Made>,
}

/// A constraint of a new table: `CONSTRAINT name CHECK (expr)`.
#[derive(Drop)]
pub struct CheckElement {
    /// Where CONSTRAINT stands.
    pub place: Span,
    pub name: Name,
    pub rule: RuleText,
}

/// What a new table has: a column or a constraint.
#[derive(Drop)]
pub enum Element {
    Column(ColumnElement),
    Check(CheckElement),
}

/// The elements of a new table, in order.
pub type Elements = Items<Element>;

/// Names, in order.
pub type Names = Items<Name>;

/// A property of a new table: `'key' = 'value'`.
#[derive(Drop)]
pub struct Property {
    /// Where the key stands, with its quotes.
    pub place: Span,
    pub key: Text,
    pub value: Text,
}

/// The properties of a new table, in order.
pub type Properties = Items<Property>;

/// `CREATE TABLE table (elements) [PARTITIONED BY (partitions)] [TBLPROPERTIES (properties)]`.
#[derive(Drop)]
pub struct CreateStmt {
    pub table: TableName,
    /// One element at least.
    pub elements: Elements,
    /// The columns that partition the table; none without PARTITIONED BY.
    pub partitions: Names,
    /// None without TBLPROPERTIES.
    pub properties: Properties,
}

/// A statement.
#[derive(Drop)]
pub enum Stmt {
    /// `SHOW FILES table`: the paths of the live files of the newest version.
    ShowFiles {
        table: TableName,
    },
    /// `SHOW ROWS table [VERSION AS OF version]`: the rows of a version, or of the newest where none is
    /// asked for, with their ids and commit versions.
    ShowRows {
        table: TableName,
        version: Option<u64>,
    },
    /// `SELECT items FROM table [VERSION AS OF version] [WHERE condition]`: the items on the rows of a
    /// version, or of the newest where none is asked for, on which the condition holds, or without one
    /// on each row.
    Select {
        items: SelectItems,
        table: TableName,
        version: Option<u64>,
        condition: Option<Expr>,
    },
    /// `DELETE FROM table`: removes all rows, as a new version.
    Delete {
        table: TableName,
    },
    /// `CREATE TABLE`: makes a table without rows, as its version 0.
    Create(CreateStmt),
}
