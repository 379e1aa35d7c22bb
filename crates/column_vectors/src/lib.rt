//! Columns of values: each has a type, and a value or null for each row.
#![tactic(auto)]

mod any_column;
mod batch;
mod block;
mod column;
mod lane_column;
mod selection;

pub use any_column::AnyColumn;
pub use batch::{AnyColumns, Batch};
pub use column::Column;
pub use lane_column::LaneColumn;
pub use selection::Selection;
