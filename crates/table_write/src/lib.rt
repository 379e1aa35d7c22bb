//! Statements that write: their checks, their one draw and reading of the clock, and the new version
//! that they put.
#![tactic(auto)]

mod create;
mod delete;
mod laws;
mod writing;

pub use create::create_table;
pub use delete::delete_from;
pub use laws::{create_makes, create_stands, delete_empties, delete_stands};
