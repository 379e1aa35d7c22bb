//! Runs a script on Delta tables.
#![tactic(auto)]

mod cause;
mod halt;
mod line_order;
mod outcome;
mod row_lines;
mod runs;
mod script;
mod selected;
mod shown;
mod shown_rows;
mod statement;
mod statements;
mod status;
mod value_lines;

pub use outcome::{Due, Outcome};
pub use runs::run;
pub use statement::run_statement;
pub use status::Status;
