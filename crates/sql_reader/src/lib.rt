//! The reader of scripts: bytes to statements, and to expressions, with the place at which a script
//! first goes wrong.
#![tactic(auto)]

mod build;
mod class;
mod create;
mod expr;
mod fault;
mod read;
mod source;
mod statement;
mod tokens;

pub use fault::ScriptFault;
pub use read::{read_expr, read_script};
pub use sql_statements::{
    CheckElement, ColumnElement, CreateStmt, Element, Elements, Made, Names, Properties, Property,
    RuleText, SelectItem, SelectItemList, SelectItems, Stmt, Stmts, TableName, WrittenIdentity,
};
pub use sql_tree::{
    Branches, Expr, Exprs, Literal, Name, Number, Operator, Prefix, Span, Truth, WrittenKind,
    WrittenType,
};
