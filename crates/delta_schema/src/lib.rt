//! Schemas of tables: what the schema text of a table's metadata means, and what is written for one.
#![tactic(auto)]

mod columns;
mod fault;
mod fields;
pub mod laws;
mod members;
mod metadata;
mod names;
mod schema;
mod types;
mod writing;

pub use columns::{MAX_COLUMNS, read_schema};
pub use fault::SchemaFault;
pub use schema::{ColumnDef, IdentityRule, TableSchema};
pub use writing::write_schema;
