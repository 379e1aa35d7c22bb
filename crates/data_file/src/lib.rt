//! The rows of one data file of a table: its columns by mapping and partition, or the first fault.
#![tactic(auto)]

mod columns;
mod fault;
mod kinds;
pub mod laws;
mod partitions;
mod room;
mod rows;
mod stored;
mod table;
mod texts;

pub use columns::{CHANGE_TYPE, Columns};
pub use fault::{PartColumn, PartFault};
pub use room::{MAX_CELLS, MAX_TEXT, Room};
pub use rows::{PartRows, read_rows};
pub use stored::repeated;
