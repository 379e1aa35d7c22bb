//! Ids and commit versions of rows: what a file gives its rows, whether the ids of a table's rows are
//! sound, and the order of rows by their ids.
#![tactic(auto)]

mod checking;
mod ids;
pub mod laws;
mod order;
mod row_id;

pub use checking::check_ids;
pub use ids::{IdFault, ids_of};
pub use order::places_by_id;
pub use row_id::{RowId, RowIds};
